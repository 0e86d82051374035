//! The LSP-DB: what is known of LSPs, their paths with what each reserves, and one record for each LSP. The rules
//! compute an `Effect`, `LspBase::reserve` makes all the room that it needs, and `LspBase::change` then carries it out
//! without allocating. A layer above may rely on these facts. The lists after a change are exactly `without paths
//! dropped ++ added` and the records set in the effect's order; the last path or record takes the place of one that
//! goes. There is at most one record of an LSP, and there are never more than 16,384 paths. What paths reserve is
//! defined in `specs/Shares.antt` (shared explicit reservation, RFC 3209), the lists after a change in
//! `specs/Lsps.antt`.
//!
//! Records are in an `IndexMap` by LSP, with an index by name. Paths are in a `KeyedList` by LSP, since an LSP has
//! several. What concerns a whole peer, and whether an SRP-ID is in use, is found by a pass over all.
//!
//! - `path`, `tunnel`, `lsp`, `effect`, `why`: plain data
//! - `path_list`, `record_table`: the tables
//! - `passes`: passes over all paths or all records
//! - `base`: the LSP-DB
//! - `grants`, `pending`: what the PCE granted and awaits
//! - `drops`: paths that go, with the records that then have none
//!
//! ```text
//! fn carry_out(base: &mut LspBase, peer: u32, effect: Effect) -> Result<(), AllocError>
//!     requires { IsWithinLimit base.old.content effect }
//!     ensures ok { OnOk result (base.new.content ≡ changed base.old.content peer effect) }
//!     ensures unchanged { OnErr result (base.new.content ≡ base.old.content) }
//! {
//!     base.reserve(&effect)?;
//!     base.change(peer, effect);
//!     Ok(())
//! }
//! ```
#![tactic(auto)]

mod base;
mod drops;
mod effect;
mod grants;
mod lsp;
mod names;
mod passes;
mod path;
mod path_list;
mod pending;
mod record_table;
mod tunnel;
mod why;

pub use base::{LspBase, PATH_LIMIT};
pub use drops::{dropping_of_peer, ended_record, is_path_of_lsp};
pub use effect::{Change, Effect, Record, RecordChange};
pub use grants::{carries_srp, is_grant_of_lsp, is_unbound};
pub use lsp::{Constraints, Lsp, OtherBounds};
pub use names::is_same_name;
pub use passes::RecordRule;
pub use path::Path;
pub use pending::{GrantAs, is_created, is_delegated, is_pending, is_removed_as};
pub use tunnel::{Part, Tunnel};
pub use why::{Ends, Why};
