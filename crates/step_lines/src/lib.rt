//! The lines of steps: what a journal has of each step that was taken. A line is the step's place among all steps, its
//! event and what is kept of its reply, in words that are parted by one space:
//!
//! ```text
//! 12 up 10.0.0.1 update initiate = done
//! 13 report 10.0.0.1 200a0050.. = booked
//! 14 take = job 1
//! 15 commit 1 0,1 = granted 1
//! ```
//!
//! `line_of` writes the line of a step, and `step_in` reads the step that a line is. The layer above may rely on it that a
//! line reads as its step and as no other, and that each other text is a bad line, which takes no more time than its length
//! asks for (`specs/Lines.antt`): a line has at most 262,144 bytes. A report is the PCRpt of this one report, and a
//! request of a peer the PCReq of this one request (`item_messages`). The words of links, of their values and of what is
//! asked of a path are public, since the lines of a base have them too.
//!
//! - `placed`: a step with its place
//! - `requests`: what is asked of a path to answer a request, and the request (`specs/Requests.antt`)
//! - `wanted`: what an operator asks of a path that is to be initiated (`specs/Wanted.antt`)
//! - `purposes`, `links`, `events`: the events that words stand for (`specs/EventReading.antt`)
//! - `replies`: the words of replies, and the replies of words (`specs/Replies.antt`, `specs/ReplyReading.antt`)
//! - `words`: the words of events (`specs/Events.antt`)
//! - `lines`: whole lines (`lines_are_read_again`)
#![tactic(auto)]

mod events;
mod fault;
mod laws;
mod lines;
mod links;
mod placed;
mod purposes;
mod replies;
mod requests;
mod wanted;
mod words;

pub use fault::LineFault;
pub use laws::lines_are_read_again;
pub use lines::{LINE_LIMIT, line_of, step_in};
pub use links::{first_values, links_in};
pub use placed::PlacedStep;
pub use replies::add_reply;
pub use wanted::{first_bandwidth, first_colours, first_metric, first_priorities, first_priority};
pub use words::{add_colours, add_numbered, add_path, metric_word};
