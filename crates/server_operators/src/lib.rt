//! The operators of a run: the one at standard input, and those who connect to the control socket. `server_talk` proves
//! what their lines mean and how they are answered; `specs/Shows` says what they are shown.
//!
//! - `plan`: the file of the link text
//! - `reload_log`: a store that notes which links a reload leaves below zero
//! - `links_look`: a look at all links
//! - `names_look`: a look at what names in a line stand for
//! - `shown`: what an operator is shown, from its own seat
//! - `answering`: an operator's lines
//! - `control`: operators who connect
//! - `operator`: the one at standard input (`specs/Faults`)
#![tactic(auto)]

mod answering;
mod control;
mod links_look;
mod names_look;
mod operator;
mod plan;
mod reload_log;
mod shown;

pub use control::{Operators, control_seats, hear_controls};
pub use operator::{end_with, hear_operator};
pub use plan::FilePlan;
