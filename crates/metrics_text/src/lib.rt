//! Metrics of what is seen and counted, in Prometheus's text format 0.0.4.
//!
//! - `format`: lines of the format
//! - `words`: words of labels
//! - `counts`, `times`, `database`, `peers`, `links`: samples
//! - `table`: a row for each metric
//! - `laws`: what is written is read
#![tactic(auto)]

mod counts;
mod database;
mod format;
mod laws;
mod links;
mod peers;
mod table;
mod times;
mod words;

pub use laws::{all_metrics_are_read, what_is_written_is_read};
pub use table::{Process, metrics_text};
