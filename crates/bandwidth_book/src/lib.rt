//! The unreserved bandwidth of links (RFC 3630 section 2.5.8), kept in a book of what paths reserve. For each link, the
//! book has the holding priorities and bandwidths of each tunnel's paths there, and for each priority the sum over all
//! tunnels of the greatest bandwidth of each. The paths of one tunnel share what they reserve on a common link (shared
//! explicit reservation, RFC 3209 section 2.4.3). So what a link can still carry is read from stored sums, and what a
//! tunnel holds already is listed from its own entries.
//!
//! A layer above may rely on a book standing for a list of paths (`StandsFor` in `specs/Books.antt`). A new book stands
//! for none. After `change`, a book that stood for paths stands for them without the dropped and with the added ones,
//! for each list that had the dropped ones. What it says of such a list are the definitions of `lsp_base`.
//!
//! `reserve` makes all the room, so `change` never runs out of memory. `change` leaves no entry without paths, so that
//! a book keeps memory only for existing paths (`specs/Promises.antt`).
//!
//! `snapshot` gives a table of what is left of every link, which can be searched while the book goes on. While no path
//! and no link's values change, it gives the same snapshot again. Otherwise the new one shares with it all pages of
//! links on which nothing changed (`specs/Tables.antt`).
//!
//! `set_values` gives a link other metrics, colours and reservable bandwidth. What is left of that link, and of no
//! other, moves by the difference. It allocates nothing: the book has the current links in a list of its own, and never
//! writes a network that running searches share. The next snapshot makes a new one.
//!
//! ```text
//! fn carry_out(book: &mut Book, change: &Change) -> Result<(), AllocError>
//!     ensures stands { (paths : List Path) → StandsFor book.old paths → HasAll paths change.now.dropped
//!         → OnOk result (StandsFor book.new (without paths change.now.dropped ++ change.now.added)) }
//! {
//!     book.reserve(change)?;
//!     book.change(change);
//!     Ok(())
//! }
//! ```
#![tactic(auto)]

mod book;
mod changes;
mod drops;
mod entry;
mod gap;
mod ledgers;
mod link_entries;
mod looks;
mod many_links;
mod own;
mod paths;
mod reservation;
mod snapshots;
mod tunnels;
mod values;

pub use book::Book;
