//! The state: what the database knows at one moment, and what one event does to it. Events are sessions that come up
//! and go down, the end of synchronization, state reports, peers that expire, LSPs that are given back to their peers,
//! requests that a peer refuses, and handing out the messages that wait for a peer.
//!
//! `State::step` is the definition `step` of `specs/Steps.antt` in full, both the state after it and the reply. A
//! refused event changes nothing, and if memory runs out nothing has changed. An event of a peer changes only the
//! paths, the records, the session and the messages of that peer (`specs/Laws.antt`). What is left of a link is the
//! share rule of `lsp_base` over the paths of the state, read from the stored sums of a book that stands for them
//! (`specs/Networks.antt`). Every state that events lead to is consistent (`specs/Consistent.antt`), and the order of
//! its paths, records and names makes no difference to what follows (`order_makes_no_difference`).
//!
//! A state begins with nothing (`State::new`), or with what was read (`State::over`). What was read is refused exactly
//! if it may not stand over the network (`MayStand` of `specs/Bases.antt`). What was copied from a state may stand
//! (`State::what_stands_may_stand`).
//!
//! ```text
//! fn left_after(state: &mut State, event: &Event) -> Result<Option<i64>, AllocError>
//!     requires changes { state.old.changes < 2 ^ 62 }
//!     requires sessions { state.old.last_session < 2 ^ 62 }
//!     ensures state { OnOk result (state.new ≡ (step state.old event.now).state) }
//!     ensures left { IfOk result (λ left. IfSome left (λ n. n ≡ unreserved state.new.te.links state.new.base.paths 0 7)) }
//! {
//!     let _reply = state.step(event)?;
//!     Ok(state.unreserved(0, Priority::capped(7)))
//! }
//! ```
#![tactic(auto)]

mod base;
mod event;
mod job;
mod laws;
mod name_table;
mod names;
mod network;
mod peer;
mod peer_list;
mod queue;
mod shared_event;
mod state;

pub use base::Base;
pub use commit_core::{LspName, Purpose, Ticket};
pub use event::{Event, Reply};
pub use job::Job;
pub use laws::{order_makes_no_difference, reload_moves_one_link};
pub use link_reload::LinkReload;
pub use lsp_base::Why;
pub use names::AwaitedName;
pub use peer::{PEER_LIMIT, Peer};
pub use queue::Queue;
pub use shared_event::SharedEvent;
pub use state::State;
pub use ticket_table::TICKET_LIMIT;
