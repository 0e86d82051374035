//! Blocks of the heap.
ghost use Rattle.std.specs.Prelude.{◌≡◌, ◌*◌, ◌^◌, min};
ghost use Rattle.event_bytes.specs.Bytes.{block};

/// The most bytes that are counted: 2^40.
pub(crate) const MOST: u64 = 1_099_511_627_776;

/// Returns how many bytes the allocator takes for a block of this many.
pub(crate) fn block(bytes: u64) -> u64
    ensures { result ≡ min (block bytes) (2 ^ 40) }
{
    if bytes == 0 {
        return 0;
    }
    if bytes >= MOST {
        return MOST;
    }
    ((bytes + 23) / 16 * 16).max(32).min(MOST)
}

/// Returns how many bytes the allocator takes for a list of bytes of this length.
pub(crate) fn block_of_bytes(length: usize) -> u64
    ensures { result ≡ min (block length) (2 ^ 40) }
{
    block(length as u64)
}

/// Returns the same for a list of numbers, which take 8 bytes each.
pub(crate) fn block_of_numbers(length: usize) -> u64
    ensures { result ≡ min (block (8 * length)) (2 ^ 40) }
{
    block((length as u64).min(MOST) * 8)
}

/// Returns the same for a list of items of 32 bytes each.
pub(crate) fn block_of_32s(length: usize) -> u64
    ensures { result ≡ min (block (32 * length)) (2 ^ 40) }
{
    block((length as u64).min(MOST) * 32)
}
