//! `pced tell`: sends lines to a running server, each on a connection of its own, and prints its answers.
ghost use Rattle.std.specs.Prelude.{◌≡◌, ◌++◌, IfOk, codes, max, option_map, string_bytes};
ghost use Rattle.pced_commands.specs.Statuses.{end_of, lines_status, tell_fault};
ghost use Rattle.pced_commands.specs.Tells.{asked, cut_at, first_word, note_in, sent, shows};

use crate::statuses::lines_status;
use asks::is_question;
use control_socket::{Outcome, await_end, is_line, outcome_of, tell};
use pced_words::TellWords;
use std::alloc::{AllocError, Global};
use std::io;
use std::io::{ErrorKind, Write};
use std::net::Net;
use std::rt::Runtime;
use std::time::Clock;
use thiserror::Error;

/// Why lines weren't all answered. `Display` gives the text for standard error.
#[derive(Clone, Copy, Debug, PartialEq, Eq, Error)]
pub enum TellFault {
    /// A line contains a line break.
    #[error("bad argument")]
    BadArgument,
    /// No server listens at the path.
    #[error("cannot connect")]
    Nobody,
    /// The answer breaks off, or doesn't come.
    #[error("incomplete answer")]
    BrokenOff,
    /// Standard input or standard output fails.
    #[error("device fault")]
    Device,
    #[error("out of memory")]
    OutOfMemory,
}

/// The worst result among the lines that were sent.
#[derive(Clone, Copy, Debug, PartialEq, Eq)]
pub enum LinesEnd {
    AllHeard,
    /// What a line asked for was refused.
    SomeRefused,
    /// A line was bad, or the link text that it had read.
    SomeBad,
    /// A link text couldn't be read.
    SomeUnread,
    /// Memory ran out, or the history was full.
    SomeShort,
}

/// Returns the fault of an exchange with the server that failed with this error.
pub(crate) fn tell_fault(kind: ErrorKind) -> TellFault
    ensures { result ≡ tell_fault kind }
{
    match kind {
        ErrorKind::OutOfMemory => TellFault::OutOfMemory,
        ErrorKind::BrokenPipe
        | ErrorKind::ConnectionReset
        | ErrorKind::TimedOut
        | ErrorKind::WouldBlock => TellFault::BrokenOff,
        _ => TellFault::Nobody,
    }
}

/// Returns the first word of a line.
pub(crate) fn first_word(line: &str) -> &str
    ensures { result.now ≡ first_word line.now }
{
    match line.split_once(' ') {
        Some((word, _rest)) => word,
        None => line,
    }
}

/// Tests whether a line asks to see something, by its first word. Only such lines are answered as JSON.
fn shows(line: &str) -> bool
    ensures { result ≡ shows line.now }
{
    is_question(first_word(line))
}

/// Returns a line with the word `json` in front, if JSON is asked for. A line that shows nothing stays as it is.
fn asked(alloc: Global, is_json: bool, line: &str) -> Result<String, AllocError>
    ensures { IfOk result (λ text. string_bytes text ≡ asked is_json line.now) }
{
    if is_json && shows(line) {
        format!(in alloc; "json {line}")
    } else {
        String::from_str(alloc, line)
    }
}

/// Returns what is sent for a line. The word `words` in front asks the server to explain its answer. A line that has it stays
/// as it is.
fn sent(alloc: Global, is_quiet: bool, is_json: bool, line: &str) -> Result<String, AllocError>
    ensures { IfOk result (λ text. string_bytes text ≡ sent is_quiet is_json line.now) }
{
    let asked = asked(alloc, is_json, line)?;
    if is_quiet || first_word(line) == "words" {
        return Ok(asked);
    }
    format!(in alloc; "words {asked}")
}

/// Cuts a text at its first line break.
fn cut_at_break(text: &str) -> Option<(&str, &str)>
    ensures { option_map (λ cut. (cut.0.now, cut.1.now)) result ≡ cut_at 10 text.now }
{
    text.split_once('\n')
}

/// Cuts a text at its first space.
fn cut_at_space(text: &str) -> Option<(&str, &str)>
    ensures { option_map (λ cut. (cut.0.now, cut.1.now)) result ≡ cut_at 32 text.now }
{
    text.split_once(' ')
}

/// Cuts what was heard into an answer of one line and what it means; `None` if it isn't said what the answer means.
#[tactic(auto, unfolding(crate::specs::Tells::note_in))]
fn note_in(heard: &str) -> Option<(&str, &str)>
    ensures { option_map (λ cut. (cut.0.now, cut.1.now)) result ≡ note_in heard.now }
{
    let (answer, rest) = cut_at_break(heard)?;
    let (sign, rest) = cut_at_space(rest)?;
    let (sentence, behind) = cut_at_break(rest)?;
    if sign == "#" && behind.is_empty() {
        Some((answer, sentence))
    } else {
        None
    }
}

/// Returns the result of a line that was heard. If it asked for the end, waits until the server is gone.
fn heard<R: Net + Clock>(rt: &R, path: &str, line: &str) -> Result<LinesEnd, TellFault> {
    if line == "end" && !await_end(rt, path) {
        return Err(TellFault::BrokenOff);
    }
    Ok(LinesEnd::AllHeard)
}

/// Returns the result of a line that was answered.
pub(crate) fn end_of(outcome: Outcome) -> Result<LinesEnd, TellFault>
    ensures { result ≡ end_of outcome }
{
    match outcome {
        Outcome::Answered => Ok(LinesEnd::AllHeard),
        Outcome::Refused => Ok(LinesEnd::SomeRefused),
        Outcome::Bad => Ok(LinesEnd::SomeBad),
        Outcome::Unread => Ok(LinesEnd::SomeUnread),
        Outcome::Short => Ok(LinesEnd::SomeShort),
        Outcome::BrokenOff => Err(TellFault::BrokenOff),
    }
}

/// Writes all of an answer.
pub(crate) fn write_answer<O: Write>(writer: &mut O, answer: &[u8]) -> Result<(), TellFault> {
    if writer.write_all(answer).is_err() || writer.flush().is_err() {
        return Err(TellFault::Device);
    }
    Ok(())
}

/// Writes an answer to the writer, and what it means to standard error. If standard error fails, that is left out.
fn show<R: Eprint, O: Write>(rt: &R, writer: &mut O, heard: &[u8]) -> Result<(), TellFault> {
    let Ok(text) = str::from_utf8(heard) else {
        return write_answer(writer, heard);
    };
    match note_in(text) {
        Some((answer, sentence)) => {
            if writer.write_all(answer.as_bytes()).is_err() {
                return Err(TellFault::Device);
            }
            write_answer(writer, b"\n")?;
            let _shown = eprintln!(rt; "{sentence}");
            Ok(())
        }
        None => write_answer(writer, heard),
    }
}

/// Sends the text for a line, and shows its answer.
fn tell_line<R: Net + Clock + Eprint, O: Write>(
    rt: &R,
    alloc: Global,
    words: &TellWords<'_>,
    line: &str,
    text: &str,
    writer: &mut O,
) -> Result<LinesEnd, TellFault> {
    let answer = match tell(rt, alloc, words.path, text) {
        Ok(answer) => answer,
        Err(error) => return Err(tell_fault(error.kind())),
    };
    show(rt, writer, &answer)?;
    match end_of(outcome_of(line, &answer))? {
        LinesEnd::AllHeard => heard(rt, words.path, line),
        end => Ok(end),
    }
}

/// Sends a line, in the form that the words ask for.
fn tell_one<R: Net + Clock + Eprint, O: Write>(
    rt: &R,
    alloc: Global,
    words: &TellWords<'_>,
    line: &str,
    writer: &mut O,
) -> Result<LinesEnd, TellFault> {
    if !is_line(line) {
        return Err(TellFault::BadArgument);
    }
    match sent(alloc, words.is_quiet, words.is_json, line) {
        Ok(text) => tell_line(rt, alloc, words, line, &text, writer),
        Err(_) => Err(TellFault::OutOfMemory),
    }
}

/// Returns the worse of the result of these lines and that of one more.
fn worse_end(all: LinesEnd, one: LinesEnd) -> LinesEnd
    ensures { lines_status result ≡ max (lines_status all) (lines_status one) }
{
    if lines_status(one) > lines_status(all) {
        one
    } else {
        all
    }
}

/// Sends the lines of the words, in their order.
fn tell_words<R: Net + Clock + Eprint, O: Write>(
    rt: &R,
    alloc: Global,
    words: &TellWords<'_>,
    writer: &mut O,
) -> Result<LinesEnd, TellFault> {
    let mut all = LinesEnd::AllHeard;
    for line in words.lines.iter() {
        let one = tell_one(rt, alloc, words, line, writer)?;
        all = worse_end(all, one);
    }
    Ok(all)
}

/// Returns the fault of standard input that failed with this error.
fn input_fault(error: &io::Error) -> TellFault {
    match error.kind() {
        ErrorKind::OutOfMemory => TellFault::OutOfMemory,
        _ => TellFault::Device,
    }
}

/// Sends each line of standard input as soon as it comes, up to its end.
fn tell_input<R: Runtime<A = Global> + Net, O: Write>(
    rt: &R,
    words: &TellWords<'_>,
    writer: &mut O,
) -> Result<LinesEnd, TellFault> {
    let mut all = LinesEnd::AllHeard;
    for line in rt.lines(rt.alloc()) {
        let one = match line {
            Ok(line) => tell_one(rt, rt.alloc(), words, &line, writer)?,
            Err(error) => return Err(input_fault(&error)),
        };
        all = worse_end(all, one);
    }
    Ok(all)
}

/// Sends the lines of the words; if there are none, those of standard input. The first fault ends it.
pub fn tell_all<R: Runtime<A = Global> + Net>(
    rt: &R,
    words: &TellWords<'_>,
) -> Result<LinesEnd, TellFault> {
    let mut writer = io::writer(rt);
    if words.lines.is_empty() {
        tell_input(rt, words, &mut writer)
    } else {
        tell_words(rt, rt.alloc(), words, &mut writer)
    }
}
