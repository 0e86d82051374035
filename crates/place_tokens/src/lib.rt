//! Numbers that are drawn under one lock, each once, by seats that each know their own. A `Source` draws them in order
//! from 0. Each goes to the `Drawn` of one seat, which knows all numbers that it ever got, and they rise. None of this
//! is kept in memory. A `Drawn` has no bytes, and a `Source` is one word that nobody reads: what the tokens know exists
//! only in proofs, as the views of the seats of an `atomic_table`. Each number below the source's next one is always
//! known by exactly one token, once (`specs/Drawing.antt`).
//!
//! The layer above may rely on `draw` for each number. With the tokens of all seats in hand it may also rely on
//! `learn`: it lends what each token knows to the source in turn (`lend`), the source learns that the lists have each
//! number once, and gives them back (`give_back`). The type says that two seats have the same source: a `StepNumbers` names
//! the source and says how many seats it has, as a `Ledger` does for sums.
//!
//! ```text
//! fn in_turn<B: StepNumbers>(source: &mut Source<B>, first: &mut Drawn<B>, second: &mut Drawn<B>)
//!     ensures first { first.new ≡ first.old ++ source.old ∷ [] }
//!     ensures second { second.new ≡ second.old ++ (source.old + 1) ∷ [] }
//! {
//!     source.draw(first);
//!     source.draw(second);
//! }
//! ```
#![tactic(auto)]

mod rule;
mod source;

pub use rule::{StepNumbers, View};
pub use source::{Drawn, PlaceTable, Source, Token, Unopened, give_back, learn, lend};
