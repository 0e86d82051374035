//! The command.
use crate::compared::{Picture, differences, pictures_of};
use crate::ends::{ReplayEnd, differs_text, recorded_text};
use crate::lines::{Piece, fault_end, read_line};
use crate::run::{After, Known, Run};
use crate::shown::answer;
use crate::until::Until;
use pce_view::Form;
use pced_words::ReplayWords;
use std::alloc::Global;
use std::fs::File;
use std::io;
use std::io::{BufReader, Write};

/// The number of bytes that are read of a file at a time.
const BUFFER: usize = 65_536;

/// The files of a journal, of which the first so many have been opened.
#[derive(Drop)]
struct Journal<'a> {
    files: &'a HostRuntime,
    paths: &'a [&'a str],
    opened: usize,
    /// The file that is read, if one is.
    open: Option<BufReader<File>>,
    /// The bytes of the line that was read last.
    line: Vec<u8>,
    /// That line is past what was asked for, and wasn't taken yet.
    is_kept: bool,
    run: Run,
    /// The number of the line in which the last file ends, if it is cut short.
    cut: Option<u64>,
}

/// Says on standard error that a file can't be read, and why.
fn say_unread(rt: &HostRuntime, path: &str, error: &io::Error) {
    let _said = eprintln!(*rt; "cannot read {path}: {error}");
}

impl<'a> Journal<'a> {
    fn new(files: &'a HostRuntime, paths: &'a [&'a str]) -> Journal<'a> {
        let alloc = files.alloc();
        Journal {
            files,
            paths,
            opened: 0,
            open: None,
            line: Vec::new(alloc),
            is_kept: false,
            run: Run::new(alloc),
            cut: None,
        }
    }

    /// Returns the path of the file that was opened last.
    fn path(&self) -> &'a str {
        match self.paths.get(self.opened.saturating_sub(1)) {
            Some(path) => *path,
            None => "",
        }
    }

    /// Opens the next file. Returns false if there is none.
    fn open_next(&mut self) -> Result<bool, ReplayEnd> {
        let Some(path) = self.paths.get(self.opened) else {
            return Ok(false);
        };
        let file = match File::open(self.files, *path) {
            Ok(file) => file,
            Err(error) => {
                say_unread(self.files, path, &error);
                return Err(fault_end(&error));
            }
        };
        self.run.begin_file()?;
        self.opened = self.opened.saturating_add(1);
        match BufReader::with_capacity(self.files.alloc(), BUFFER, file) {
            Ok(reader) => {
                self.open = Some(reader);
                Ok(true)
            }
            Err(_) => Err(ReplayEnd::OutOfMemory),
        }
    }

    /// Reads the next line of the file that is read.
    fn next_piece(&mut self) -> Result<Piece, ReplayEnd> {
        match &mut self.open {
            Some(reader) => read_line(reader, &mut self.line),
            None => Ok(Piece::End),
        }
    }

    /// Takes the line that was read.
    fn take_line(&mut self, until: &Until) -> Result<After, ReplayEnd> {
        let taken = match str::from_utf8(&self.line) {
            Ok(line) => self.run.take(line, until),
            Err(_) => Err(self.run.pass_line()),
        };
        self.is_kept = taken == Ok(After::Enough);
        taken
    }

    /// Takes a line that is cut short, in which the file ends. The last file may.
    fn take_cut(&mut self) -> Result<(), ReplayEnd> {
        if self.opened < self.paths.len() || !self.run.has_steps() {
            return Err(self.run.pass_line());
        }
        self.cut = Some(self.run.line().saturating_add(1));
        self.open = None;
        Ok(())
    }

    /// Takes the next line of the file that is read, or its end.
    fn take_next(&mut self, until: &Until) -> Result<After, ReplayEnd> {
        match self.next_piece()? {
            Piece::Line => return self.take_line(until),
            Piece::TooLong => return Err(self.run.pass_line()),
            Piece::Cut => self.take_cut()?,
            Piece::End => {
                self.run.end_file()?;
                self.open = None;
            }
        }
        Ok(After::More)
    }

    /// Takes the next line, of the next file if one has come to its end. Returns `Enough` too if there is none.
    fn turn(&mut self, until: &Until) -> Result<After, ReplayEnd> {
        if self.is_kept {
            return self.take_line(until);
        }
        if self.open.is_some() {
            return self.take_next(until);
        }
        if self.open_next()? {
            Ok(After::More)
        } else {
            Ok(After::Enough)
        }
    }

    /// Replays up to what is asked for.
    fn replay(&mut self, until: &Until) -> Result<(), ReplayEnd> {
        for _turn in 0..u64::MAX {
            if self.turn(until)? == After::Enough {
                return Ok(());
            }
        }
        Ok(())
    }

    /// Lends what is known then. A journal without a link text has nothing.
    fn known(&self) -> Result<Known<'_>, ReplayEnd> {
        match self.run.known() {
            Some(known) => Ok(known),
            None => Err(self.run.bad_line()),
        }
    }

    /// Returns the path of the file from whose base was replayed, if it was from one.
    fn base_path(&self) -> Option<&'a str> {
        if self.run.has_base() {
            self.paths.first().copied()
        } else {
            None
        }
    }

    /// Tests whether what was asked for lies before the first step, of which a base says what was known. What was known
    /// earlier is in earlier files.
    fn lies_before_first(&self, until: &Until) -> bool {
        match until {
            Until::Moment(_) => self.is_kept && self.run.has_base() && !self.run.has_moment(),
            _ => until.is_before_step(self.run.first()),
        }
    }

    /// Tests whether the step that was asked for has been replayed.
    fn has_come_to(&self, until: &Until) -> bool {
        match until {
            Until::Step(last) => self.run.next() > *last,
            _ => true,
        }
    }
}

/// Reads the step or the moment of a word.
fn until_of(files: &HostRuntime, word: &str) -> Result<Until, ReplayEnd> {
    match Until::of_word(files.alloc(), word)? {
        Some(until) => Ok(until),
        None => {
            let _said = eprintln!(*files; "{word}: no step and no time, as 2026-11-29T01:30:00Z");
            Err(ReplayEnd::BadArgument)
        }
    }
}

/// Replays up to a step that has to be there.
fn replay_to(files: &HostRuntime, journal: &mut Journal<'_>, word: &str) -> Result<(), ReplayEnd> {
    let until = until_of(files, word)?;
    if journal.run.has_passed(&until) {
        let _said = eprintln!(*files; "{word}: before the first of the two");
        return Err(ReplayEnd::BadArgument);
    }
    journal.replay(&until)?;
    if journal.lies_before_first(&until) {
        let _said = eprintln!(*files; "{word}: before the first step");
        return Err(ReplayEnd::NoSuchStep);
    }
    if journal.has_come_to(&until) {
        return Ok(());
    }
    let _said = eprintln!(*files; "{word}: no such step");
    Err(ReplayEnd::NoSuchStep)
}

/// Writes bytes to standard output.
fn write(files: &HostRuntime, bytes: &[u8]) -> Result<(), ReplayEnd> {
    match io::writer(files).write_all(bytes) {
        Ok(()) => Ok(()),
        Err(error) => Err(fault_end(&error)),
    }
}

fn write_line(files: &HostRuntime, text: &str) -> Result<(), ReplayEnd> {
    match println!(*files; "{text}") {
        Ok(()) => Ok(()),
        Err(error) => Err(fault_end(&error)),
    }
}

/// Shows what a line asks for.
fn show_line(
    files: &HostRuntime,
    known: &Known<'_>,
    line: &str,
    is_json: bool,
) -> Result<(), ReplayEnd> {
    match answer(files.alloc(), known, line, is_json)? {
        Some(text) => write(files, &text),
        None => {
            let _said = eprintln!(*files; "{line}: no line that shows something");
            Err(ReplayEnd::BadArgument)
        }
    }
}

/// Returns the form of what is compared.
fn form_of(is_json: bool) -> Form {
    if is_json { Form::Json } else { Form::Table }
}

/// Lists what is shown of all links and LSPs, once all up to a step was replayed.
fn pictures_at(
    files: &HostRuntime,
    journal: &mut Journal<'_>,
    word: &str,
    is_json: bool,
) -> Result<Vec<Picture>, ReplayEnd> {
    replay_to(files, journal, word)?;
    let known = journal.known()?;
    Ok(pictures_of(files.alloc(), &known, form_of(is_json))?)
}

/// Shows which links and LSPs differ between two steps.
fn compare(
    files: &HostRuntime,
    journal: &mut Journal<'_>,
    first: &str,
    second: &str,
    is_json: bool,
) -> Result<(), ReplayEnd> {
    let before = pictures_at(files, journal, first, is_json)?;
    let after = pictures_at(files, journal, second, is_json)?;
    let text = differences(files.alloc(), &before, &after)?;
    write(files, &text)
}

/// Says how far was replayed, and shows what the lines ask for.
fn show(
    files: &HostRuntime,
    journal: &mut Journal<'_>,
    words: &ReplayWords<'_>,
) -> Result<(), ReplayEnd> {
    match words.at {
        Some(word) => replay_to(files, journal, word)?,
        None => journal.replay(&Until::End)?,
    }
    if words.lines.is_empty() {
        let run = &journal.run;
        let base = journal.base_path();
        let text = recorded_text(files.alloc(), run.first(), run.next(), base, run.grants())?;
        return write_line(files, &text);
    }
    let known = journal.known()?;
    for line in words.lines.iter() {
        show_line(files, &known, line, words.is_json)?;
    }
    Ok(())
}

fn replay_words(
    files: &HostRuntime,
    journal: &mut Journal<'_>,
    words: &ReplayWords<'_>,
) -> Result<(), ReplayEnd> {
    match words.diff.as_slice() {
        [first, second] => compare(files, journal, first, second, words.is_json),
        _ => show(files, journal, words),
    }
}

/// Says on standard error where the last file is cut short, if it is.
fn say_cut(files: &HostRuntime, journal: &Journal<'_>) {
    if let Some(line) = journal.cut {
        let path = journal.path();
        let _said = eprintln!(*files; "{path}: cut short at line {line}");
    }
}

/// Says how a replay ended, if that wasn't said yet.
fn say_end(
    files: &HostRuntime,
    alloc: Global,
    journal: &Journal<'_>,
    end: ReplayEnd,
) -> Result<(), ReplayEnd> {
    match end {
        ReplayEnd::Differs {
            place,
            recorded,
            replayed,
        } => {
            let text = differs_text(alloc, place, recorded, replayed)?;
            write_line(files, &text)
        }
        ReplayEnd::BadLine { file: _, line } => {
            let path = journal.path();
            let _said = eprintln!(*files; "{path}: bad line {line}");
            Ok(())
        }
        ReplayEnd::Device => {
            let _said = eprintln!(*files; "device fault");
            Ok(())
        }
        ReplayEnd::OutOfMemory => {
            let _said = eprintln!(*files; "out of memory");
            Ok(())
        }
        ReplayEnd::AsRecorded | ReplayEnd::BadArgument | ReplayEnd::NoSuchStep => Ok(()),
    }
}

/// Replays the files of a journal, shows what the words ask for, and returns the exit status.
pub fn replay_journal(files: &HostRuntime, words: &ReplayWords<'_>) -> u8 {
    let mut journal = Journal::new(files, &words.files);
    let end = match replay_words(files, &mut journal, words) {
        Ok(()) => ReplayEnd::AsRecorded,
        Err(end) => end,
    };
    say_cut(files, &journal);
    match say_end(files, files.alloc(), &journal, end) {
        Ok(()) => end.status(),
        Err(fault) => fault.status(),
    }
}
