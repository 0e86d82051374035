//! Nodes by their costs, the least first: a binary heap. Only the quick search uses it, so no proof depends on its
//! order.
ghost use Rattle.std.specs.Prelude.{◌<◌, length, IfSome};

use std::alloc::AllocError;

/// A node that can be reached at a cost.
#[derive(Clone, Copy, Debug, PartialEq, Eq)]
pub(crate) struct Reached {
    pub cost: u32,
    pub node: u32,
}

/// More levels than a heap has that holds an entry for each link.
const LEVELS: u32 = 16;

/// Puts an entry into the last place, or higher if it is less.
#[inline(always)]
fn raise(entries: &mut [Reached], reached: Reached) {
    let mut at = entries.len().saturating_sub(1);
    for _ in 0..LEVELS {
        if at == 0 || at >= entries.len() {
            break;
        }
        let parent = (at - 1) / 2;
        if entries[parent].cost <= reached.cost {
            break;
        }
        entries[at] = entries[parent];
        at = parent;
    }
    if at < entries.len() {
        entries[at] = reached;
    }
}

/// Finds the lesser of the two entries below.
#[inline(always)]
fn least_below(entries: &[Reached], at: usize) -> Option<usize>
    ensures { IfSome result (λ below. below < length entries.now) }
{
    if at >= 1 << 20 {
        return None;
    }
    let left = 2 * at + 1;
    if left >= entries.len() {
        return None;
    }
    if left + 1 < entries.len() && entries[left + 1].cost < entries[left].cost {
        return Some(left + 1);
    }
    Some(left)
}

/// Puts an entry into the first place, or lower if it is more.
#[inline(always)]
fn lower(entries: &mut [Reached], reached: Reached) {
    let mut at = 0;
    for _ in 0..LEVELS {
        let Some(below) = least_below(entries, at) else {
            break;
        };
        if at >= entries.len() || reached.cost <= entries[below].cost {
            break;
        }
        entries[at] = entries[below];
        at = below;
    }
    if at < entries.len() {
        entries[at] = reached;
    }
}

#[inline(always)]
pub(crate) fn push(heap: &mut Vec<Reached>, reached: Reached) -> Result<(), AllocError> {
    heap.push(reached)?;
    raise(heap, reached);
    Ok(())
}

/// Removes the entry of least cost and returns it.
#[inline(always)]
pub(crate) fn pop(heap: &mut Vec<Reached>) -> Option<Reached> {
    let last = heap.pop()?;
    if heap.is_empty() {
        return Some(last);
    }
    let first = heap[0];
    lower(heap, last);
    Some(first)
}

/// Returns the least cost of an entry.
#[inline(always)]
pub(crate) fn least_cost(heap: &[Reached]) -> Option<u32> {
    match heap.first() {
        Some(reached) => Some(reached.cost),
        None => None,
    }
}
