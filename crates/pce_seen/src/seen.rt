//! The network and its counts.
use crate::peers::PeerGrants;
use te_base::{Link, Node};
use te_snapshot::Snapshot;

/// How many there are of each kind.
#[derive(Clone, Copy)]
pub struct Counts {
    /// All steps that were ever taken.
    pub steps: u64,
    /// How many of them were grants.
    pub grants: u64,
    /// The steps before the last roll.
    pub rolled: u64,
    /// The steps that are kept since then.
    pub kept: u64,
    pub nodes: u64,
    pub links: u64,
    pub sessions_up: u64,
    pub lsps: u64,
    pub paths: u64,
    /// Paths that were granted, and that no report has settled.
    pub waiting_grants: u64,
    pub tickets: u64,
}

/// The nodes and links by their numbers, and what is left of each link at the eight priorities, in bytes per second.
#[derive(Drop)]
pub struct Book {
    pub nodes: Vec<Node>,
    pub links: Vec<Link>,
    pub left: Vec<[i64; 8]>,
}

/// What is counted and measured, all at one moment.
#[derive(Drop)]
pub struct Numbers {
    pub counts: Counts,
    pub peers: PeerGrants,
    pub book: Book,
}

/// The nodes, and what a path search reads.
#[derive(Drop)]
pub struct Network {
    pub nodes: Vec<Node>,
    pub snapshot: Snapshot,
}
