//! The names that the seats of one history share.
use place_tokens::StepNumbers;
use std::marker::{Brand, PhantomData};
use std::sync::ledger::Ledger;

/// Names the ledgers in which the steps and the grants of one history are counted. As a `StepNumbers` it names the source of
/// their places, and the history itself. Each ledger has one part for each seat of the room.
pub trait Brands: StepNumbers {
    ghost use Rattle.std.specs.Prelude.{ℕ};

    ghost steps: { ℕ };

    ghost grants: { ℕ };
}

impl Brands for Brand {
    ghost steps = { 0 };

    ghost grants = { 0 };
}

/// The ledger of all steps.
pub struct Steps<B: Brands>(PhantomData<B>);

impl<B: Brands> Ledger for Steps<B> {
    ghost name = { B.steps };

    ghost parts = { B.seats };
}

/// The ledger of all grants.
pub struct Grants<B: Brands>(PhantomData<B>);

impl<B: Brands> Ledger for Grants<B> {
    ghost name = { B.grants };

    ghost parts = { B.seats };
}
