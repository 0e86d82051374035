//! What is known, line by line.
ghost use Rattle.std.specs.Prelude.{◌≡◌, true, Ok, IfOk, OnOk};
ghost use Rattle.te_base.specs.LinkText.{base_of};
ghost use Rattle.journal_files.specs.Order.{has_steps};
ghost use Rattle.journal_replay.specs.Replays.{point_of, Takes};
ghost use Rattle.journal_replay.specs.declared.taken.Taken.TheVariants.{AsRecorded};
ghost use Rattle.replay_commands.specs.Bases.{TakesLine};
ghost use Rattle.replay_commands.specs.Runs.{BeginsNetwork, EndsText, EndsBase, Replays, Knows, Goes};
ghost use Rattle.replay_commands.specs.Until.{is_past, has_passed};

use crate::base::FileBase;
use crate::ends::ReplayEnd;
use crate::said::note_last;
use crate::until::Until;
use base_lines::BaseReader;
use history_core::Database;
use journal_files::{Kind, Order, Part, is_moment, not_before};
use journal_replay::{Taken, replay_line};
use server_rules::PathWords;
use std::alloc::{AllocError, Global};
use std::mem;
use te_base::{TeBase, TeFault};

/// What comes after a line.
#[derive(Clone, Copy, Debug, PartialEq, Eq)]
pub(crate) enum After {
    /// The next line.
    More,
    /// Nothing: what was asked for is known. The line wasn't replayed.
    Enough,
}

/// Replays a step. Fails unless its reply is as recorded.
fn replay_step(
    alloc: Global,
    database: &mut Database,
    bytes: &mut u64,
    line: &str,
    bad_line: ReplayEnd,
) -> Result<(), ReplayEnd>
    ensures { OnOk result (Takes (point_of database.old) line.now AsRecorded (point_of database.new)) }
{
    match replay_line(alloc, database, bytes, line)? {
        Taken::AsRecorded => Ok(()),
        Taken::Moment | Taken::BadLine => Err(bad_line),
        Taken::Differs {
            place,
            recorded,
            replayed,
        } => Err(ReplayEnd::Differs {
            place,
            recorded,
            replayed,
        }),
    }
}

/// Reads the network of a link text.
fn network_of(alloc: Global, text: &str, bad_line: ReplayEnd) -> Result<TeBase, ReplayEnd>
    ensures { IfOk result (λ te. base_of text.now ≡ Ok te) }
{
    match TeBase::read(alloc, text) {
        Ok(te) => Ok(te),
        Err(TeFault::OutOfMemory) => Err(ReplayEnd::OutOfMemory),
        Err(_) => Err(bad_line),
    }
}

/// What is known at a step, and what routers said beside it.
#[derive(Clone, Copy)]
pub(crate) struct Known<'a> {
    pub database: &'a Database,
    pub words: &'a PathWords,
}

/// What is known of a run.
#[derive(Drop)]
pub(crate) struct Run {
    alloc: Global,
    order: Order,
    /// The number of the file that is read, from 1.
    file: u64,
    /// The number of the line that was read last, from 1.
    line: u64,
    /// The link text of the first file.
    known: String,
    /// That of the file that is read, as far as it was.
    text: String,
    /// What is known, once the first file's link text was read, and its base if it has one.
    database: Option<Database>,
    /// How many bytes the steps take that it keeps.
    bytes: u64,
    /// What routers said about paths in their latest reports.
    words: PathWords,
    /// The place of the first step.
    first: u64,
    /// How many steps before the first were grants.
    grants_before: u64,
    /// The base of the file that is read.
    base: FileBase,
}

impl Run {
    /// Begins: no line was read yet.
    pub(crate) fn new(alloc: Global) -> Run {
        Run {
            alloc,
            order: Order::new(alloc),
            file: 0,
            line: 0,
            known: String::new(alloc),
            text: String::new(alloc),
            database: None,
            bytes: 0,
            words: PathWords::new(alloc),
            first: 0,
            grants_before: 0,
            base: FileBase::None,
        }
    }

    /// Returns the end that the present line is bad.
    pub(crate) fn bad_line(&self) -> ReplayEnd {
        ReplayEnd::BadLine {
            file: self.file,
            line: self.line,
        }
    }

    /// Returns the place of the next step.
    pub(crate) fn next(&self) -> u64 {
        self.order.next
    }

    /// Returns the place of the first step.
    pub(crate) fn first(&self) -> u64 {
        self.first
    }

    /// Tests whether what was known before the first step was read from a base.
    pub(crate) fn has_base(&self) -> bool {
        self.first > 0
    }

    /// Tests whether a line with the time was read.
    pub(crate) fn has_moment(&self) -> bool {
        !self.order.moment.as_slice().is_empty()
    }

    /// Lends what is known, once a link text was read, and its base if it has one.
    pub(crate) fn known(&self) -> Option<Known<'_>> {
        match &self.database {
            Some(database) => Some(Known {
                database,
                words: &self.words,
            }),
            None => None,
        }
    }

    /// Returns the number of the present line.
    pub(crate) fn line(&self) -> u64 {
        self.line
    }

    /// Counts the steps that were grants, from the first on.
    pub(crate) fn grants(&self) -> u64 {
        match &self.database {
            Some(database) => database.grants().saturating_sub(self.grants_before),
            None => 0,
        }
    }

    /// Begins a further file. It may begin if the one before it has come to its steps.
    pub(crate) fn begin_file(&mut self) -> Result<(), ReplayEnd> {
        let may = self.order.begin_file();
        if self.file > 0 && !may {
            return Err(self.bad_line());
        }
        self.file = self.file.saturating_add(1);
        self.line = 0;
        self.text = String::new(self.alloc);
        Ok(())
    }

    /// Ends the file. It may end if it has come to its steps.
    pub(crate) fn end_file(&self) -> Result<(), ReplayEnd> {
        match self.order.part {
            Part::Steps => Ok(()),
            _ => Err(ReplayEnd::BadLine {
                file: self.file,
                line: self.line.max(1),
            }),
        }
    }

    /// Counts a line that isn't read, because it is too long or no text, and returns that it is bad.
    pub(crate) fn pass_line(&mut self) -> ReplayEnd {
        self.line = self.line.saturating_add(1);
        self.bad_line()
    }

    /// Tests whether the file has come to its steps.
    pub(crate) fn has_steps(&self) -> bool
        ensures { result ≡ has_steps self.now.order.part }
    {
        matches!(self.order.part, Part::Steps)
    }

    /// Adds a line of the file's link text.
    fn add_text(&mut self, line: &str) -> Result<(), AllocError>
        ensures order { self.new.order ≡ self.old.order }
        ensures database { self.new.database ≡ self.old.database }
    {
        self.text.push_str(line)?;
        self.text.push_str("\n")
    }

    /// Begins with the network of the first file's link text: at once, with nothing reported, if its steps are those of
    /// the run's start, else once its base is whole.
    fn begin_network(&mut self) -> Result<(), ReplayEnd>
        ensures order { self.new.order ≡ self.old.order }
        ensures begins { OnOk result (BeginsNetwork self.old self.new) }
    {
        let te = network_of(self.alloc, &self.text, self.bad_line())?;
        self.first = self.order.next;
        self.known = mem::replace(&mut self.text, String::new(self.alloc));
        if self.has_steps() {
            self.database = Some(Database::new(self.alloc, te)?);
        } else {
            self.base = FileBase::First(te, BaseReader::new(self.alloc));
        }
        Ok(())
    }

    /// Ends the link text of a file. That of a later file is the one of the first.
    fn end_text(&mut self) -> Result<(), ReplayEnd>
        ensures order { self.new.order ≡ self.old.order }
        ensures ends { OnOk result (EndsText self.old.database self.old self.new) }
    {
        let has_base = !self.has_steps();
        let bad_line = self.bad_line();
        let Some(database) = &self.database else {
            return self.begin_network();
        };
        if self.text.as_str() != self.known.as_str() {
            return Err(bad_line);
        }
        self.text = String::new(self.alloc);
        if has_base {
            self.base = FileBase::of_replayed(self.alloc, database)?;
        }
        Ok(())
    }

    /// Takes a line of a base, or the one after it.
    fn take_base(&mut self, line: &str) -> Result<(), ReplayEnd>
        ensures order { self.new.order ≡ self.old.order }
        ensures database { self.new.database ≡ self.old.database }
        ensures first { self.new.first ≡ self.old.first }
        ensures takes { OnOk result (TakesLine self.old.base line.now true self.new.base) }
    {
        if self.base.take(self.alloc, line)? {
            Ok(())
        } else {
            Err(self.bad_line())
        }
    }

    /// Ends a base. The replay begins at that of the first file, and a later file's lacks no line.
    fn end_base(&mut self) -> Result<(), ReplayEnd>
        ensures order { self.new.order ≡ self.old.order }
        ensures ends { OnOk result (EndsBase self.old self.old.base self.new) }
    {
        let bad_line = self.bad_line();
        let base = mem::replace(&mut self.base, FileBase::None);
        if let Some(database) = base.end(self.alloc, self.first, bad_line)? {
            self.grants_before = database.grants();
            self.database = Some(database);
        }
        Ok(())
    }

    /// Replays a step.
    fn take_step(&mut self, line: &str) -> Result<(), ReplayEnd>
        ensures order { self.new.order ≡ self.old.order }
        ensures replays { OnOk result (Replays self.old.database line.now self.new.database) }
    {
        let bad_line = self.bad_line();
        match &mut self.database {
            Some(database) => {
                replay_step(self.alloc, database, &mut self.bytes, line, bad_line)?;
                Ok(note_last(&mut self.words, database)?)
            }
            None => Err(bad_line),
        }
    }

    /// Tests whether the next line is past what is asked for. A line that isn't one of a step or with the time counts
    /// as the next step's.
    fn is_past(&self, line: &str, until: &Until) -> bool
        ensures { result ≡ is_past until.now self.now.order line.now }
    {
        if !self.has_steps() {
            return false;
        }
        if is_moment(line) {
            return until.is_past_moment(line);
        }
        until.is_past_step(self.order.next)
    }

    /// Takes a line of this kind.
    fn take_kind(&mut self, kind: Kind, line: &str) -> Result<(), ReplayEnd>
        ensures order { self.new.order ≡ self.old.order }
        ensures knows { OnOk result (Knows kind self.old line.now self.new) }
    {
        match kind {
            Kind::Head | Kind::Moment => Ok(()),
            Kind::Text => Ok(self.add_text(line)?),
            Kind::Mark => self.end_text(),
            Kind::Base => self.take_base(line),
            Kind::End => {
                self.take_base(line)?;
                self.end_base()
            }
            Kind::Step => self.take_step(line),
            Kind::Bad => Err(self.bad_line()),
        }
    }

    /// Takes the next line of a file, unless it is past what is asked for: then nothing has changed.
    pub(crate) fn take(&mut self, line: &str, until: &Until) -> Result<After, ReplayEnd>
        ensures { IfOk result (λ after. Goes until.now self.old line.now after self.new) }
    {
        if self.is_past(line, until) {
            return Ok(After::Enough);
        }
        self.line = self.line.saturating_add(1);
        let kind = self.order.take(self.alloc, line)?;
        self.take_kind(kind, line)?;
        Ok(After::More)
    }

    /// Tests whether this lies before what was replayed.
    pub(crate) fn has_passed(&self, until: &Until) -> bool
        ensures { result ≡ has_passed until.now self.now.order }
    {
        match until {
            Until::End => false,
            Until::Step(last) => self.order.next.saturating_sub(1) > *last,
            Until::Moment(last) => !not_before(last.as_bytes(), self.order.moment.as_slice()),
        }
    }
}
