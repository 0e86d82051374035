//! Scripts in which a read fails. A contract can't say what a reader that fails has left.
use super::fakes::{Beat, Beats, Tap};
use super::*;
use pce_engine::{ScriptFault, run_script};
use std::alloc::AllocError;
use std::collections::VecDeque;

/// What follows the link text, as a reader gives it: a piece for each read, and what the lines print that end in it.
const PIECES: [(&[u8], &[u8]); 8] = [
    (b"---\n", b""),
    (b"take\n", b"idle\n"),
    (b"initiate 1 t1 10.0.0.1 10.0", b""),
    (b".0.4 600000 7 0\nroll\n", b"refused 1\nrolled 2\n"),
    (b"reload 9 1 1 0 1\nexpi", b"refused 20\n"),
    (b"re 1", b""),
    (
        b"\nhistory\n",
        b"refused 1\nstep 2 reload refused 20\nstep 3 expire refused 1\n",
    ),
    (b"book", b""),
];

/// Adds reads of the link text and of the pieces; the one of this number, from 0, fails.
fn fill(beats: &mut VecDeque<Beat>, failing: usize) -> Result<(), AllocError> {
    if failing > 0 {
        beats.push_back(Beat::Bytes(DIAMOND.as_bytes()))?;
    }
    for (piece, _printed) in PIECES.iter().take(failing.saturating_sub(1)) {
        beats.push_back(Beat::Bytes(piece))?;
    }
    beats.push_back(Beat::Fault)?;
    Ok(())
}

fn reads(alloc: Global, failing: usize) -> Result<VecDeque<Beat>, AllocError> {
    let mut beats = VecDeque::new(alloc);
    fill(&mut beats, failing)?;
    Ok(beats)
}

/// Tests whether this is what the lines print that end in the first pieces, of this number.
fn is_printed_by(bytes: &[u8], pieces: usize) -> bool {
    let mut rest = bytes;
    for (_piece, printed) in PIECES.iter().take(pieces) {
        match rest.strip_prefix(*printed) {
            Some(behind) => rest = behind,
            None => return false,
        }
    }
    rest.is_empty()
}

/// Runs a script from the reader, and tests whether it ends with a failed read after the output of the first pieces.
fn ends_behind(alloc: Global, reader: &mut Beats, pieces: usize) -> bool {
    let mut writer = Tap {
        left: 99,
        most: usize::MAX,
        bytes: Vec::new(alloc),
    };
    let end = run_script(alloc, reader, &mut writer);
    end == Err(ScriptFault::ReadFault) && is_printed_by(&writer.bytes, pieces)
}

/// Runs the same, with the read of this number failing.
fn ends_whole(alloc: Global, failing: usize) -> Result<bool, AllocError> {
    let mut reader = Beats {
        beats: reads(alloc, failing)?,
    };
    Ok(ends_behind(alloc, &mut reader, failing.saturating_sub(1)))
}

/// Returns the first read whose failure ends a script in another way.
fn first_that_ends_otherwise(alloc: Global) -> Result<Option<usize>, AllocError> {
    for failing in 0..PIECES.len() + 2 {
        if !ends_whole(alloc, failing)? {
            return Ok(Some(failing));
        }
    }
    Ok(None)
}

/// Tests that whichever read fails, the lines that were read completely are answered, and nothing of a line that
/// wasn't.
#[test]
fn a_read_that_fails_ends_a_script_behind_whole_lines(rt: HostRuntime) -> Result<(), Fail> {
    let other = first_that_ends_otherwise(rt.alloc())?;
    assert_eq!(rt; other, None);
    Ok(())
}
