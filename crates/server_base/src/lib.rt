//! What each thread of a run is lent: the shared database, the pool of seats, and what is noted and counted apart from
//! the steps. Connections, operators, viewers and workers are built on it, each in its own crate.
//!
//! - `seat_pool`: where seats rest
//! - `link_ends`: the ends of each link
//! - `counting`: what is counted for steps and for connections that end (`specs/Counting`)
//! - `standing`: tells whether the session of a connection is up
//! - `holders`: who holds LSPs, asked when one router is too many (`specs/Holders`)
//! - `ticket_share`: how many tickets one router may have (`specs/Shares`)
//! - `expiry`: what happens to peers, and when they are forgotten (`specs/Expiries`)
//! - `routers`, `grant_of`, `upkeep`: grants and deletions that their routers don't settle (`specs/Routers`)
//! - `lsp_names`, `decided`: the names of LSPs, and what the log says about decisions (`specs/LspNames`)
//! - `replaced`: forgets a path when another of its LSP replaces it
//! - `linkless`, `down_paths`, `retries`, `retrying`: LSPs that are down, and are asked for again (`specs/Linkless`, `specs/DownPaths`)
//! - `timed_look`, `run_view`: what viewers and operators see of a run
//! - `context`: what each thread is lent
#![tactic(auto)]

mod context;
mod counting;
mod decided;
mod down_paths;
mod expiry;
mod grant_of;
mod holders;
mod link_ends;
mod linkless;
mod lsp_names;
mod replaced;
mod retries;
mod retrying;
mod routers;
mod run_view;
mod seat_pool;
mod standing;
mod ticket_share;
mod timed_look;
mod upkeep;

pub use context::{Context, Moments, RunState};
pub use counting::{count_worked, forget_counted};
pub use expiry::{Peers, Settled};
pub use link_ends::{LinkEnds, ends_of};
pub use linkless::StandsLook;
pub use run_view::RunView;
pub use seat_pool::SeatPool;
pub use standing::Standing;
pub use timed_look::TimedLook;
pub use upkeep::{Seen, Upkeep};
