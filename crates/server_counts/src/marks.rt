//! How many steps there were at which moments.
ghost use Rattle.std.specs.Prelude.{◌≡◌, ◌<◌, ◌*◌, [], length, IfOk, OnOk, OnErr};
ghost use Rattle.server_counts.specs.Marks.{behind, before, every_other, last_of, mark_at, noted, with_new};

use std::alloc::{AllocError, Global};

/// From the one moment to the other, in milliseconds, there were this many steps.
#[derive(Clone, Copy)]
pub struct Mark {
    pub steps: u64,
    pub from_ms: u64,
    pub to_ms: u64,
}

/// The number of marks at which every other one is dropped.
const MARK_LIMIT: usize = 4096;

/// The marks, the newest last. The older they are, the further they are apart.
#[derive(Drop)]
pub struct Marks {
    marks: Vec<Mark>,
}

fn last_of(marks: &[Mark]) -> Option<Mark>
    ensures { result ≡ last_of marks.now }
{
    marks.get(marks.len().saturating_sub(1)).copied()
}

/// Reads the mark at an even place.
fn mark_at(marks: &[Mark], half: usize) -> Mark
    requires { 2 * half < length marks.now }
    ensures { result ≡ mark_at marks.now half }
{
    marks[2 * half]
}

/// Copies the marks at even places.
#[tactic(auto, using(crate::proofs::Taking::one_more_made))]
fn every_other(alloc: Global, marks: &[Mark]) -> Result<Vec<Mark>, AllocError>
    ensures { IfOk result (λ kept. kept.items ≡ every_other marks.now) }
{
    let count = marks.len() / 2;
    let mut kept = Vec::with_capacity(alloc, count)?;
    for half in 0..count {
        kept.push(mark_at(marks, half))?;
    }
    Ok(kept)
}

/// Adds a mark. If there are 4,096, every other one is dropped first.
fn add(marks: &mut Vec<Mark>, mark: Mark) -> Result<(), AllocError>
    ensures added { OnOk result (marks.new.items ≡ with_new mark marks.old.items) }
    ensures unchanged { OnErr result (marks.new.items ≡ marks.old.items) }
{
    if marks.len() < MARK_LIMIT {
        marks.push(mark)?;
        return Ok(());
    }
    let alloc = *marks.allocator();
    let mut kept = every_other(alloc, marks)?;
    kept.push(mark)?;
    *marks = kept;
    Ok(())
}

impl Marks {
    pub fn new(alloc: Global) -> Marks
        ensures { result.marks.items ≡ [] }
    {
        Marks {
            marks: Vec::new(alloc),
        }
    }

    /// Notes that there were this many steps at this moment. If memory runs out, nothing is noted.
    pub fn note(&mut self, steps: u64, now_ms: u64) -> Result<(), AllocError>
        ensures noted { OnOk result (self.new.marks.items ≡ noted steps now_ms self.old.marks.items) }
        ensures unchanged { OnErr result (self.new.marks.items ≡ self.old.marks.items) }
    {
        match last_of(&self.marks) {
            Some(last) if last.steps == steps => {
                let at = self.marks.len() - 1;
                self.marks[at].to_ms = now_ms;
                Ok(())
            }
            _ => add(
                &mut self.marks,
                Mark {
                    steps,
                    from_ms: now_ms,
                    to_ms: now_ms,
                },
            ),
        }
    }

    /// Copies all marks out.
    pub fn copies(&self, alloc: Global) -> Result<Vec<Mark>, AllocError>
        ensures { IfOk result (λ copies. copies.items ≡ self.now.marks.items) }
    {
        self.marks.to_vec(alloc)
    }
}

/// Finds the first mark that counts the step at this place: the step was taken by the mark's first moment.
pub fn mark_behind(marks: &[Mark], step: u64) -> Option<Mark>
    ensures { result ≡ behind step marks.now }
{
    for mark in marks {
        if step < mark.steps {
            return Some(*mark);
        }
    }
    None
}

/// Finds the last mark that doesn't count it: the step wasn't taken yet at the mark's last moment.
pub fn mark_before(marks: &[Mark], step: u64) -> Option<Mark>
    ensures { result ≡ before step marks.now }
{
    let mut last = None;
    for mark in marks {
        if mark.steps <= step {
            last = Some(*mark);
        }
    }
    last
}
