//! Admission control: what becomes of a ticket when its search answers. `judge` tests the offer against the LSPs as
//! they are now, whatever the snapshot of the search said. So no grant takes bandwidth that isn't there: after it, no
//! link that it charges anew is overbooked at any priority from holding to setup.
//!
//! The layer above may rely on the verdict being the definition's in `specs/Verdicts.antt`. `specs/Routes.antt` says
//! which paths are admissible, `specs/Offers.antt` which path a grant of an offer adds, `specs/Names.antt` what name an
//! LSP that is asked for may have. Nothing is changed here, and `judge` allocates nothing.
//!
//! ```text
//! let path = offered_path(&ticket, base, srp, links);
//! if judge(&ticket, Some(&path), base, &book, &te, view) == Verdict::Grant {
//!     let effect = Effect::new(Vec::new(alloc), vec![in alloc; path]?, Vec::new(alloc), false);
//! }
//! ```
#![tactic(auto)]

mod judging;
mod name;
mod offers;
mod route;
mod ticket;
mod verdict;

pub use judging::judge;
pub use name::LspName;
pub use offers::{offered_path, own_tunnel};
pub use ticket::{Purpose, TRY_LIMIT, Ticket};
pub use verdict::{PeerView, Verdict};
