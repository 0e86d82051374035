//! A book compared with plain sums over the paths, and its snapshots.
use super::*;
use bandwidth_book::Book;
use lsp_base::{Change, Part, Path, Tunnel};
use pcep_objects::Plsp;
use pcep_word::{Bandwidth, Ipv4, Priority};
use sequence::{PlainData, Sequence};
use std::alloc::AllocError;
use std::process::Abort;
use std::sync::Arc;
use te_snapshot::{Snapshot, Topology};

/// Makes a book of the diamond's links.
fn new_book(alloc: Global) -> Result<Book, Fail> {
    let te = diamond(alloc)?;
    let topology = Arc::new(alloc, Topology::new(alloc, &te)?)?;
    Ok(Book::new(alloc, topology)?)
}

/// Numbers that look as if drawn at random (Knuth's MMIX generator).
#[derive(Drop)]
struct Draws {
    state: u64,
}

impl Draws {
    /// Draws a number below `count`, which isn't 0.
    fn below(&mut self, count: u8) -> u8 {
        self.state = self
            .state
            .wrapping_mul(6364136223846793005)
            .wrapping_add(1442695040888963407);
        if count == 0 {
            return 0;
        }
        ((self.state >> 33) % count as u64) as u8
    }
}

/// Returns one of eight tunnels of two peers.
fn tunnel_of(number: u8) -> Tunnel {
    Tunnel::Signalled {
        peer: 1 + (number % 2) as u32,
        endpoint: Ipv4(0x0a00_0004),
        tunnel: number as u16,
        extended: 1,
    }
}

/// Draws a path with one of four bandwidths, so that maxima are tied, over some links or none.
fn drawn_path(rt: &impl Abort, alloc: Global, draws: &mut Draws) -> Result<Path, AllocError> {
    let mut links = Vec::new(alloc);
    for link in 0..4usize {
        if draws.below(2) == 0 {
            links.push(link)?;
        }
    }
    let bandwidth = Bandwidth::at_least(250_000 * draws.below(4) as u64);
    Ok(Path {
        peer: 1,
        plsp: Plsp::new(1),
        part: Part::Reported(draws.below(200) as u16),
        tunnel: tunnel_of(draws.below(8)),
        hold: Priority::capped(draws.below(8)),
        bandwidth: bandwidth.expect(rt, "a bandwidth"),
        links: Sequence::from_vec(links),
        fresh: true,
    })
}

fn plain_share(paths: &[Path], tunnel: Tunnel, link: usize, priority: Priority) -> u64 {
    let mut most = 0;
    for path in paths {
        if path.tunnel == tunnel && path.hold <= priority && path.links.as_slice().contains(&link) {
            most = path.bandwidth.value().max(most);
        }
    }
    most
}

fn plain_sum(paths: &[Path], link: usize, priority: Priority) -> u64 {
    let mut sum = 0u64;
    for number in 0..8u8 {
        sum = sum.wrapping_add(plain_share(paths, tunnel_of(number), link, priority));
    }
    sum
}

/// Tests whether the book says the same about each link as the paths.
fn says_the_same(book: &Book, paths: &[Path]) -> bool {
    for link in 0..book.link_count() {
        for number in 0..8u8 {
            let priority = Priority::capped(number);
            let sum = plain_sum(paths, link, priority);
            if book.sums(link)[number as usize] != sum
                || book.unreserved(link, priority) as i128 != 1_000_000 - sum as i128
            {
                return false;
            }
            for tunnel in 0..8u8 {
                let tunnel = tunnel_of(tunnel);
                if book.share(&tunnel, link, priority)
                    != plain_share(paths, tunnel, link, priority)
                {
                    return false;
                }
            }
        }
    }
    true
}

/// Draws a change: one path goes or changes its tunnel, or one comes, or both.
fn drawn_change(
    rt: &impl Abort,
    alloc: Global,
    draws: &mut Draws,
    paths: &mut Vec<Path>,
) -> Result<Change, AllocError> {
    let mut dropped = Vec::new(alloc);
    let mut added = Vec::new(alloc);
    let place = draws.below(12) as usize;
    if place < paths.len() {
        let gone = paths.remove(place);
        if draws.below(3) == 0 {
            let mut granted = gone.copy()?;
            granted.tunnel = tunnel_of(draws.below(8));
            added.push(granted)?;
        }
        dropped.push(gone)?;
    }
    if paths.len() < 12 && draws.below(4) > 0 {
        added.push(drawn_path(rt, alloc, draws)?)?;
    }
    for path in &added {
        paths.push(path.copy()?)?;
    }
    Ok(Change {
        dropped: Sequence::from_vec(dropped),
        added: Sequence::from_vec(added),
    })
}

/// Carries out a change.
fn apply(book: &mut Book, change: &Change) -> Result<(), AllocError> {
    book.reserve(change)?;
    book.change(change);
    Ok(())
}

/// Carries out a drawn change.
fn apply_drawn(
    rt: &impl Abort,
    alloc: Global,
    draws: &mut Draws,
    paths: &mut Vec<Path>,
    book: &mut Book,
) -> Result<(), AllocError> {
    let change = drawn_change(rt, alloc, draws, paths)?;
    apply(book, &change)
}

/// Carries out a thousand drawn changes, and counts those after which the book says the same as the paths.
fn agreeing(rt: &impl Abort, alloc: Global, book: &mut Book) -> Result<u32, AllocError> {
    let mut draws = Draws { state: 7 };
    let mut paths = Vec::new(alloc);
    let mut agreeing = 0u32;
    for _change in 0..1000 {
        apply_drawn(rt, alloc, &mut draws, &mut paths, book)?;
        agreeing = agreeing.wrapping_add(u32::from(says_the_same(book, paths.as_slice())));
    }
    Ok(agreeing)
}

fn agreeing_in(rt: &impl Abort, alloc: Global) -> Result<u32, Fail> {
    let mut book = new_book(alloc)?;
    Ok(agreeing(rt, alloc, &mut book)?)
}

#[test]
fn running_equals_plain(rt: HostRuntime) -> Result<(), Fail> {
    let agreeing = agreeing_in(&rt, rt.alloc())?;
    assert_eq!(rt; agreeing, 1000);
    Ok(())
}
