//! What a search finds.
use sequence::{PlainData, Sequence};
use std::alloc::AllocError;
use te_base::LinkNumber;

/// A path and its cost.
#[derive(Debug, Drop)]
pub struct Found {
    /// Its links, from the source on.
    pub links: Sequence<LinkNumber>,
    /// The sum of the metric that is minimised. If that is the number of links, each counts 1.
    pub cost: u64,
}

impl PlainData for Found {
    fn copy(&self) -> Result<Found, AllocError> {
        Ok(Found {
            links: self.links.copy()?,
            cost: self.cost,
        })
    }
}

/// What the quick search answers.
#[derive(Debug, Drop)]
pub(crate) enum QuickAnswer {
    /// A least walk.
    Least(Found),
    /// No walk costs less than the limit.
    Nothing,
    /// Neither could be shown.
    Unknown,
}
