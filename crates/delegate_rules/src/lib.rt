//! What a state report does (RFC 8231 section 6.1). The path that it describes takes the place of an earlier one, or is
//! removed. The grant that it answers is bound to the LSP, moved to its tunnel, or settled. The record of the LSP is
//! set. A report is never refused for the bandwidth that it books: it says what the network already does. The rule
//! computes an `Effect` and changes nothing. The layer above may rely on the answer being the definition's in
//! `specs/Effects.antt`, and on `LspBase::change` being able to carry the effect out once room was reserved.
//! `specs/Reports.antt` says what a report says of its path, `specs/Grants.antt` what becomes of grants.
//!
//! ```text
//! match on_report(alloc, &base, &te, peer, &report) {
//!     Ok(effect) => {
//!         base.reserve(&effect)?;
//!         base.change(peer, effect);
//!     }
//!     Err(RuleFault::Why(why)) => refuse(why),
//!     Err(RuleFault::OutOfMemory) => return Err(AllocError),
//! }
//! ```
#![tactic(auto)]

mod fault;
mod grants;
mod identity;
mod refusals;
mod removals;
mod reported;
mod returns;
mod rules;

pub use fault::RuleFault;
pub use refusals::on_refused;
pub use reported::report_links;
pub use returns::on_return;
pub use rules::on_report;
