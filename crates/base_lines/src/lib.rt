//! The lines of a base: what was known at one moment, as text. A run that goes on in another file begins it with these
//! lines, so that each file replays alone. Each line is an item of the base, in words that are parted by one space:
//!
//! ```text
//! base 120 2 7 2 3
//! value 10 10 0 1000000
//! peer 10.0.0.1 up 1 update initiate synced 2
//! waits 200b002c..
//! path 10.0.0.1 5 lsp 1 signalled 10.0.0.1 10.0.0.4 7 167772161 7 500000 fresh 0
//! record 10.0.0.1 5 7431 delegated - - signalled 10.0.0.1 10.0.0.4 7 167772161 10.0.0.1 ..
//! name 10.0.0.1 2 7432
//! ticket 3 10.0.0.1 1 0 0 waits update 5 10.0.0.1 10.0.0.4 500000 7 7 0 0 0 te - - - - -
//! end
//! ```
//!
//! The first line counts the steps and grants before the base. Then come the values of all links, the peers with what
//! waits for each, paths, records, names that are awaited, and tickets. `base_text` writes a base, and `BaseReader` reads
//! one line by line. The layer above may rely on it that the lines of a base read as this base
//! (`base_lines_are_read_again`), that each line is read as the definition says (`specs/Items.antt`), and that after a bad
//! line, or one out of its place, no base is read. A line has at most 262,144 bytes.
//!
//! ```text
//! // The base that some lines are.
//! fn base_in(alloc: Global, lines: &[String]) -> Result<Option<PlacedBase>, AllocError> {
//!     let mut reader = BaseReader::new(alloc);
//!     for line in lines {
//!         reader.take(alloc, line)?;
//!     }
//!     Ok(reader.into_base())
//! }
//! ```
//!
//! - `placed`, `item`, `stage`: a base with its place, what one line says of it, and how far a base was read
//! - `first`, `purposes`, `items`: the item that a line stands for (`specs/WordsIn.antt`)
//! - `reader`: reading line by line (`specs/Items.antt`)
//! - `words`, `lines`: the lines of a base (`specs/Words.antt`)
#![tactic(auto)]

mod first;
mod item;
mod items;
mod laws;
mod lines;
mod placed;
mod purposes;
mod reader;
mod stage;
mod words;

pub use laws::base_lines_are_read_again;
pub use lines::base_text;
pub use placed::PlacedBase;
pub use reader::BaseReader;
pub use stage::BaseLine;
