//! The words for LSPs that the network, the LSP-DB and the wire share: PLSP-IDs, hops of routes, colours, metrics and
//! what a peer lets the PCE do. All numbers are as on the wire. `pcep_objects` reads and writes them.
#![tactic(auto)]

mod copies;
mod object;

pub use object::{Capabilities, Colours, Hop, MetricType, Plsp};
