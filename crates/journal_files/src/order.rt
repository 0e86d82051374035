//! Which line may stand where.
ghost use Rattle.std.specs.Prelude.{◌≡◌, ◌<◌, ◌^◌, true, IfOk, OnOk, OnErr};
ghost use Rattle.journal_files.specs.Heads.{place_in};
ghost use Rattle.journal_files.specs.Order.{begun, has_steps, at_head, goes_on, after_text, at_place, kind_of, after};
ghost use Rattle.journal_files.specs.declared.order.Part.TheVariants as parts;

use crate::head::{head_in, is_end, is_mark, place_in};
use crate::moments::{is_moment, not_before};
use sequence::Sequence;
use std::alloc::{AllocError, Global};

/// The greatest number of steps that a run takes.
const LAST_STEP: u64 = 1 << 62;

/// Where in a file a line stands.
#[derive(Clone, Copy, Debug, PartialEq, Eq)]
pub enum Part {
    /// The first line.
    Head,
    /// The link text, and the line after it.
    Text,
    /// The lines of the base, and the line after it.
    Base,
    /// The lines of steps.
    Steps,
}

/// What a line is.
#[derive(Clone, Copy, Debug, PartialEq, Eq)]
pub enum Kind {
    /// The line that names the run, and the place of the file's first step.
    Head,
    /// A line of the link text.
    Text,
    /// The line after the link text.
    Mark,
    /// A line of the base.
    Base,
    /// The line after the base.
    End,
    /// A line with the time.
    Moment,
    /// The line of the next step.
    Step,
    /// A line that may not stand there.
    Bad,
}

/// What counts of the lines so far.
#[derive(Debug, Drop)]
pub struct Order {
    /// Where the next line of the file stands.
    pub part: Part,
    /// The name of the run, once a file has named it.
    pub run: Option<Sequence<u8>>,
    /// The place of the next step.
    pub next: u64,
    /// The last line with the time; empty if there was none.
    pub moment: Sequence<u8>,
}

/// Copies a line's bytes.
fn copy_of(alloc: Global, line: &str) -> Result<Sequence<u8>, AllocError>
    ensures { IfOk result (λ copy. copy ≡ line.now) }
{
    let mut bytes = Vec::new(alloc);
    bytes.extend_from_slice(line.as_bytes())?;
    Ok(Sequence::from_vec(bytes))
}

/// Tests whether a file of this run, with steps from this place on, may stand here.
fn goes_on(known: &Option<Sequence<u8>>, next: u64, run: &str, first: u64) -> bool
    ensures { result ≡ goes_on known.now next run.now first }
{
    match known {
        None => true,
        Some(known) => known.as_slice() == run.as_bytes() && first == next,
    }
}

/// Returns what comes after the link text of a file with steps from this place on: a base, but for the steps of the
/// run's start.
fn after_text(first: u64) -> Part
    ensures { result ≡ after_text first }
{
    if first == 0 { Part::Steps } else { Part::Base }
}

fn is_at(next: u64, line: &str) -> bool
    ensures at { result ≡ at_place next (place_in line.now) }
    ensures small { result ≡ true → next < 2 ^ 62 }
{
    match place_in(line) {
        Some(place) => place == next && place < LAST_STEP,
        None => false,
    }
}

impl Order {
    /// Begins: no line was read yet.
    pub fn new(alloc: Global) -> Order
        ensures { result ≡ begun }
    {
        Order {
            part: Part::Head,
            run: None,
            next: 0,
            moment: Sequence::from_vec(Vec::new(alloc)),
        }
    }

    /// Begins a further file. Returns whether it may begin: the one before it has come to its steps, else that is cut
    /// short.
    pub fn begin_file(&mut self) -> bool
        ensures may { result ≡ has_steps self.old.part }
        ensures begins { self.new ≡ at_head self.old }
    {
        let may = matches!(self.part, Part::Steps);
        self.part = Part::Head;
        may
    }

    #[tactic(auto, unfolding(crate::specs::Order::kind_of, crate::specs::Order::after))]
    fn take_head(&mut self, alloc: Global, line: &str) -> Result<Kind, AllocError>
        requires { self.old.part ≡ parts.Head }
        ensures kind { IfOk result (λ kind. kind ≡ kind_of self.old line.now) }
        ensures after { OnOk result (self.new ≡ after self.old line.now) }
        ensures unchanged { OnErr result (self.new ≡ self.old) }
    {
        let Some((run, first)) = head_in(line) else {
            return Ok(Kind::Bad);
        };
        if !goes_on(&self.run, self.next, run, first) {
            return Ok(Kind::Bad);
        }
        let run = copy_of(alloc, run)?;
        self.run = Some(run);
        self.next = first;
        self.part = Part::Text;
        Ok(Kind::Head)
    }

    #[tactic(auto, unfolding(crate::specs::Order::kind_of, crate::specs::Order::after))]
    fn take_text(&mut self, line: &str) -> Kind
        requires { self.old.part ≡ parts.Text }
        ensures kind { result ≡ kind_of self.old line.now }
        ensures after { self.new ≡ after self.old line.now }
    {
        if is_mark(line) {
            self.part = after_text(self.next);
            Kind::Mark
        } else {
            Kind::Text
        }
    }

    #[tactic(auto, unfolding(crate::specs::Order::kind_of, crate::specs::Order::after))]
    fn take_base(&mut self, line: &str) -> Kind
        requires { self.old.part ≡ parts.Base }
        ensures kind { result ≡ kind_of self.old line.now }
        ensures after { self.new ≡ after self.old line.now }
    {
        if is_end(line) {
            self.part = Part::Steps;
            Kind::End
        } else {
            Kind::Base
        }
    }

    #[tactic(auto, unfolding(crate::specs::Order::kind_of, crate::specs::Order::after))]
    fn take_step(&mut self, alloc: Global, line: &str) -> Result<Kind, AllocError>
        requires { self.old.part ≡ parts.Steps }
        ensures kind { IfOk result (λ kind. kind ≡ kind_of self.old line.now) }
        ensures after { OnOk result (self.new ≡ after self.old line.now) }
        ensures unchanged { OnErr result (self.new ≡ self.old) }
    {
        if is_moment(line) {
            if !not_before(line.as_bytes(), self.moment.as_slice()) {
                return Ok(Kind::Bad);
            }
            self.moment = copy_of(alloc, line)?;
            return Ok(Kind::Moment);
        }
        if !is_at(self.next, line) {
            return Ok(Kind::Bad);
        }
        self.next += 1;
        Ok(Kind::Step)
    }

    /// Takes the next line of the file. A bad line changes nothing. If memory runs out nothing has changed.
    pub fn take(&mut self, alloc: Global, line: &str) -> Result<Kind, AllocError>
        ensures kind { IfOk result (λ kind. kind ≡ kind_of self.old line.now) }
        ensures after { OnOk result (self.new ≡ after self.old line.now) }
        ensures unchanged { OnErr result (self.new ≡ self.old) }
    {
        match self.part {
            Part::Head => self.take_head(alloc, line),
            Part::Text => Ok(self.take_text(line)),
            Part::Base => Ok(self.take_base(line)),
            Part::Steps => self.take_step(alloc, line),
        }
    }
}
