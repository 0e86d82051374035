//! What the start and end of a peer's session do to its paths and records. When a session ends, nothing that the peer
//! reported is dropped: its paths become stale, and stay in the book. They go if the peer, back in a new session, ends
//! its synchronization without having reported them again, if it doesn't synchronize at all, or if the PCE gives it up.
//! Each rule computes an `Effect` and changes nothing. The layer above may rely on the effect being the definition's in
//! `specs/Peers.antt`, and on `LspBase::change` being able to carry it out once room was reserved.
//!
//! ```text
//! let effect = on_marker(alloc, &base, peer)?;
//! base.reserve(&effect)?;
//! base.change(peer, effect);
//! ```
#![tactic(auto)]

mod rules;

pub use rules::{on_down, on_expire, on_marker, on_up};
