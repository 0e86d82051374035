//! Text for people: columns, numbers with their units, durations, and names that a terminal can show. Nothing here takes a
//! handle. Each call adds to a text what a definition says: rates and percentages (`specs/Amounts.antt`), durations
//! (`specs/Durations.antt`), names (`specs/Names.antt`), lists of numbers (`specs/Numbers.antt`). How columns are aligned is said by no clause.
//!
//! ```text
//! fn add_room(text: &mut String, name: &[u8], left: i64) -> Result<(), AllocError> {
//!     add_name(text, name)?;
//!     text.push('\t')?;
//!     add_rate(text, left)
//! }
//! ```
#![tactic(auto)]

mod amounts;
mod columns;
mod durations;
mod names;
mod numbers;

pub use amounts::{add_percent, add_rate};
pub use columns::add_aligned;
pub use durations::add_duration;
pub use names::add_name;
pub use numbers::add_numbers;
