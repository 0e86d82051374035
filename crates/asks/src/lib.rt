//! What an operator asks of a running server (`Ask`), as plain data, and how the words of a line and of a query are read
//! (`specs/Lines.antt`, `specs/Words.antt`): also limits of a path (`specs/Limits.antt`) and bandwidths with a unit
//! (`specs/Rates.antt`). `specs/Places.antt` says which word of a line can't be read. `Rate` writes a bandwidth with a unit,
//! and `rates_are_read_again` says that what it writes is read as the same bandwidth.
//!
//! ```text
//! fn first_page(peer: u32) -> Ask {
//!     Ask::Lsps(PeerPage { peer: Some(peer), from: 0 })
//! }
//! ```
#![tactic(auto)]

mod ask;
mod laws;
mod limits;
mod lines;
mod places;
mod rates;
mod words;

pub use ask::{Ask, LspId, PathLimits, PathWanted, PeerPage};
pub use laws::rates_are_read_again;
pub use limits::{KeyFault, PathKeys};
pub use lines::{
    ask_in, is_question, limited_path_in, lsp_in, path_in, priorities_in, rated_path_in,
};
pub use places::{
    is_request, names_peer, question_in, word_in, wrong_from_in, wrong_key_in, wrong_peer_in,
    wrong_rate_in, wrong_to_in,
};
pub use rates::{Rate, bandwidth_or_rate_in, rate_in};
pub use words::{
    bandwidth_in, cut_at_space, long_number_in, number_in, peer_in, plsp_in, priority_in,
};
