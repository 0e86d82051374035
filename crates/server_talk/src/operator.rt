//! The operator: lines from a reader, each answered on a writer. `book` is answered by a line for each link, others by
//! one.
ghost use Rattle.std.specs.Prelude.{◌≡◌, ◌<◌, ◌∷◌, ◌++◌, [], ℕ, List, Option, true, length, codes, option_map, string_bytes, IfOk, IfSome};
ghost use Rattle.std.specs.Fmt.{decimal};
ghost use Rattle.std.specs.Io.KnownBytes.{Consumes};
ghost use Rattle.history_core.specs.Faults.{fault_text};
ghost use Rattle.engine_core.specs.Deeds.{Deed};
ghost use Rattle.server_talk.specs.Goings.{Goes};
ghost use Rattle.server_talk.specs.Listening.{AnswersLines, HandsOn, TakesLine, IsKept, SoFar, HearsOn, Turns, said_of};
ghost use Rattle.answer_words.specs.Sentences.{IsSentenceOf, line_of};
ghost use Rattle.server_talk.specs.Notes.{IsNote, note_text};
ghost use Rattle.server_talk.specs.Requests.{explained_in};
ghost use Rattle.server_talk.specs.Servers.{server_of};
ghost use Rattle.server_talk.specs.Operators.{AreOperators, FailsAs, Operated, EndsAs, is_quiet, te_line, unread_line, number_behind};
ghost use Rattle.server_talk.specs.Connections.{TakesAll};

use crate::commands::{Answer, answer_line, asks_end};
use crate::pending::OpenLine;
use crate::plan::{Plan, PlanFault};
use crate::requests::LINE_LIMIT;
use crate::show::Show;
use crate::talk::{INTERRUPTS, write_once};
use crate::traits::{TimedRead, Watch};
use answer_words::sentence;
use engine_core::Fault;
use itoa::Buffer;
use script_lines::CommandFault;
use std::alloc::{AllocError, Global};
use std::io::{ErrorKind, Write};
use std::sync::Wait;
use te_base::TeFault;

/// The most bytes that are read at once.
const PIECE: usize = 4096;

/// The longest wait of a read, in milliseconds, before checking whether the run should end.
const PATIENCE_MS: u64 = 250;

/// Why an operator is no longer listened to.
#[derive(Clone, Copy, PartialEq, Eq, Debug)]
pub enum OperatorEnd {
    /// The reader has no more.
    InputEnded,
    /// The line `end` asks for the end of the run.
    EndAsked,
    /// The run should end.
    RunEnding,
    /// A read failed.
    ReadFault,
    /// The writer didn't take all that it was given. The run goes on without an operator.
    WriteFault,
    /// The writer took all that it was given, but failed to hand it on.
    FlushFault,
}

/// Writes all of the bytes, in one call unless a write takes only a part of them. Returns whether the writer took all.
fn write<O: Write>(writer: &mut O, bytes: &[u8]) -> bool
    ensures { TakesAll result (O.contents writer.old) (O.contents writer.new) bytes.now }
{
    if bytes.is_empty() {
        return true;
    }
    let mut rest = bytes;
    for _write in 0..bytes.len().saturating_add(INTERRUPTS) {
        let Some(count) = write_once(writer, rest) else {
            return false;
        };
        rest = &rest[count..];
        if rest.is_empty() {
            return true;
        }
    }
    false
}

/// Writes a text with a line break.
fn write_line<O: Write>(writer: &mut O, text: &str) -> bool
    ensures { TakesAll result (O.contents writer.old) (O.contents writer.new) (text.now ++ codes "\n") }
{
    if !write(writer, text.as_bytes()) {
        return false;
    }
    write(writer, b"\n")
}

/// Writes a word, a number and a line break.
fn write_numbered<O: Write>(writer: &mut O, word: &str, number: u64) -> bool
    ensures { TakesAll result (O.contents writer.old) (O.contents writer.new) (word.now ++ (decimal number ++ codes "\n")) }
{
    let mut buffer = Buffer::new();
    let digits = buffer.format(number);
    if !write(writer, word.as_bytes()) {
        return false;
    }
    write_line(writer, digits)
}

/// Writes the fault of a link text.
fn write_te_fault<O: Write>(writer: &mut O, fault: TeFault) -> bool
    ensures { TakesAll result (O.contents writer.old) (O.contents writer.new) (te_line fault) }
{
    match fault {
        TeFault::OutOfMemory => write(writer, b"out of memory\n"),
        fault => write_numbered(writer, "te fault ", u64::from(fault.number())),
    }
}

/// Writes why a link text gave no values.
fn write_unread<O: Write>(writer: &mut O, fault: PlanFault) -> bool
    ensures { TakesAll result (O.contents writer.old) (O.contents writer.new) (unread_line fault) }
{
    match fault {
        PlanFault::Device => write(writer, b"device fault\n"),
        PlanFault::Te(fault) => write_te_fault(writer, fault),
    }
}

/// Returns the fault of a link text, as a line.
fn te_text(alloc: Global, fault: TeFault) -> Result<String, AllocError>
    ensures { IfOk result (λ text. string_bytes text ≡ te_line fault) }
{
    match fault {
        TeFault::OutOfMemory => String::from_str(alloc, "out of memory\n"),
        fault => {
            let number = fault.number();
            format!(in alloc; "te fault {number}\n")
        }
    }
}

/// Returns why a link text gave no values, as a line.
fn unread_text(alloc: Global, fault: PlanFault) -> Result<String, AllocError>
    ensures { IfOk result (λ text. string_bytes text ≡ unread_line fault) }
{
    match fault {
        PlanFault::Device => String::from_str(alloc, "device fault\n"),
        PlanFault::Te(fault) => te_text(alloc, fault),
    }
}

fn fault_text(fault: Fault) -> &'static str
    ensures { result.now ≡ fault_text fault }
{
    match fault {
        Fault::OutOfMemory => "out of memory",
        Fault::HistoryFull => "history full",
    }
}

/// Writes the answer to the line with this number.
fn say<O: Write>(writer: &mut O, number: u64, answer: &Result<Answer, CommandFault>) -> bool
    ensures { TakesAll result (O.contents writer.old) (O.contents writer.new) (said_of number answer.now) }
{
    match answer {
        Ok(Answer::Reply(text)) => write_line(writer, text.as_str()),
        Ok(Answer::Table(text)) => write(writer, text.as_bytes()),
        Ok(Answer::Viewed(text)) => write(writer, text),
        Ok(Answer::Unread(fault)) => write_unread(writer, *fault),
        Ok(Answer::End) => true,
        Err(CommandFault::BadLine) => write_numbered(writer, "bad line ", number),
        Err(CommandFault::Store(fault)) => write_line(writer, fault_text(*fault)),
    }
}

/// Returns the answer to the line with this number as a text, if it is one that may have to be explained.
fn short_text(
    alloc: Global,
    number: u64,
    answer: &Result<Answer, CommandFault>,
) -> Result<Option<String>, AllocError>
    ensures { IfOk result (λ said. IfSome said (λ text. string_bytes text ≡ said_of number answer.now)) }
{
    match answer {
        Ok(Answer::Reply(text)) => {
            let said = text.as_str();
            Ok(Some(format!(in alloc; "{said}\n")?))
        }
        Ok(Answer::Unread(fault)) => Ok(Some(unread_text(alloc, *fault)?)),
        Err(CommandFault::BadLine) => Ok(Some(format!(in alloc; "bad line {number}\n")?)),
        Err(CommandFault::Store(fault)) => {
            let said = fault_text(*fault);
            Ok(Some(format!(in alloc; "{said}\n")?))
        }
        Ok(Answer::Table(_)) | Ok(Answer::Viewed(_)) | Ok(Answer::End) => Ok(None),
    }
}

/// Says what the answer to the line with this number means.
fn meaning(
    alloc: Global,
    asked: &str,
    number: u64,
    answer: &Result<Answer, CommandFault>,
) -> Result<Option<String>, AllocError>
    ensures { IfOk result (λ note. IfSome note (λ said. IsSentenceOf (line_of (said_of number answer.now)) (string_bytes said))) }
{
    match short_text(alloc, number, answer)? {
        Some(text) => sentence(alloc, asked, &text),
        None => Ok(None),
    }
}

/// Returns a line as it is explained: the line that it stands for, if it has names.
fn explained_as<'a>(asked: &'a str, plain: &'a Option<OpenLine>) -> &'a str {
    match plain {
        Some(plain) => plain.text().unwrap_or(asked),
        None => asked,
    }
}

/// Says what the answer to the line with this number means. If memory runs out, nothing is said.
fn note_on(
    alloc: Global,
    asked: &str,
    number: u64,
    answer: &Result<Answer, CommandFault>,
) -> Option<String>
    ensures { IfSome result (λ said. IsSentenceOf (line_of (said_of number answer.now)) (string_bytes said)) }
{
    match meaning(alloc, asked, number, answer) {
        Ok(note) => note,
        Err(_) => None,
    }
}

/// Says what an answer means, if its line asks for that.
fn note_for(
    alloc: Global,
    line: &OpenLine,
    plain: &Option<OpenLine>,
    answer: &Result<Answer, CommandFault>,
) -> Option<String>
    ensures { (text : List ℕ) → IsKept line.now text → IsNote (option_map (λ said. string_bytes said) result) (explained_in text) (said_of line.now.number answer.now) }
{
    match line.explained() {
        Some(asked) => note_on(alloc, explained_as(asked, plain), line.number, answer),
        None => None,
    }
}

/// Writes two texts and a line break.
fn write_pair<O: Write>(writer: &mut O, first: &str, second: &str) -> bool
    ensures { TakesAll result (O.contents writer.old) (O.contents writer.new) (first.now ++ (second.now ++ codes "\n")) }
{
    if !write(writer, first.as_bytes()) {
        return false;
    }
    write_line(writer, second)
}

/// Writes what an answer means, if that is said.
fn write_note<O: Write>(writer: &mut O, note: &Option<String>) -> bool
    ensures { TakesAll result (O.contents writer.old) (O.contents writer.new) (note_text (option_map (λ said. string_bytes said) note.now)) }
{
    match note {
        Some(said) => write_pair(writer, "# ", said.as_str()),
        None => true,
    }
}

/// Writes the answer to the line with this number, and what it means.
fn say_all<O: Write>(
    writer: &mut O,
    number: u64,
    answer: &Result<Answer, CommandFault>,
    note: &Option<String>,
) -> bool
    ensures { TakesAll result (O.contents writer.old) (O.contents writer.new) (said_of number answer.now ++ note_text (option_map (λ said. string_bytes said) note.now)) }
{
    if !say(writer, number, answer) {
        return false;
    }
    write_note(writer, note)
}

/// Writes the answer to the line with this number and what it means, and hands on what was written. Returns the end if the
/// writer fails.
fn say_at_once<O: Write>(
    writer: &mut O,
    number: u64,
    answer: &Result<Answer, CommandFault>,
    note: &Option<String>,
) -> Option<OperatorEnd>
    ensures { HandsOn result (O.contents writer.old) (O.contents writer.new) (said_of number answer.now ++ note_text (option_map (λ said. string_bytes said) note.now)) }
{
    if !say_all(writer, number, answer, note) {
        return Some(OperatorEnd::WriteFault);
    }
    match writer.flush() {
        Ok(()) => None,
        Err(_) => Some(OperatorEnd::FlushFault),
    }
}

/// Answers a line that has ended, and empties the store's list. Returns the end, if it has come.
fn take_line<D: Show, O: Write, W: Watch, P: Plan>(
    alloc: Global,
    line: &OpenLine,
    watch: &W,
    plan: &P,
    store: &mut D,
    writer: &mut O,
) -> Option<OperatorEnd>
    ensures empty { D.calls store.new ≡ [] }
    ensures taken { (start : D) (lines : List (List ℕ)) (blank : Option (List ℕ)) (text : List ℕ) → IsKept line.now text → line.now.number ≡ number_behind lines
        → AnswersLines (server_of D.Store D.is_left D.has_links D.names D.shows P.reads plan.now) start lines blank true store.old (O.contents writer.old)
        → TakesLine (server_of D.Store D.is_left D.has_links D.names D.shows P.reads plan.now) result start lines blank text store.new (O.contents writer.new) }
{
    let (came, plain) = answer_line(alloc, line, watch, plan, store);
    store.forget();
    if asks_end(&came) {
        return Some(OperatorEnd::EndAsked);
    }
    let note = note_for(alloc, line, &plain, &came);
    say_at_once(writer, line.number, &came, &note)
}

/// Takes a byte. A line break ends a line, which is answered. Returns the end, if it has come.
fn take_byte<D: Show, O: Write, W: Watch, P: Plan>(
    alloc: Global,
    pending: &mut OpenLine,
    byte: u8,
    watch: &W,
    plan: &P,
    store: &mut D,
    writer: &mut O,
) -> Option<OperatorEnd>
    ensures empty { D.calls store.old ≡ [] → D.calls store.new ≡ [] }
    ensures taken { (start : D) (blank : Option (List ℕ)) (heard : List ℕ)
        → SoFar (server_of D.Store D.is_left D.has_links D.names D.shows P.reads plan.now) start blank heard pending.old store.old (O.contents writer.old)
        → HearsOn (server_of D.Store D.is_left D.has_links D.names D.shows P.reads plan.now) result start blank (heard ++ byte ∷ []) pending.new store.new (O.contents writer.new) }
{
    if byte != b'\n' {
        pending.add(byte);
        return None;
    }
    match take_line(alloc, pending, watch, plan, store, writer) {
        Some(end) => Some(end),
        None => {
            pending.end();
            None
        }
    }
}

/// Takes bytes, up to the end. Returns the end, if it has come.
fn take_piece<D: Show, O: Write, W: Watch, P: Plan>(
    alloc: Global,
    pending: &mut OpenLine,
    piece: &[u8],
    watch: &W,
    plan: &P,
    store: &mut D,
    writer: &mut O,
) -> Option<OperatorEnd>
    ensures empty { D.calls store.old ≡ [] → D.calls store.new ≡ [] }
    ensures taken { (start : D) (blank : Option (List ℕ)) (heard : List ℕ)
        → SoFar (server_of D.Store D.is_left D.has_links D.names D.shows P.reads plan.now) start blank heard pending.old store.old (O.contents writer.old)
        → HearsOn (server_of D.Store D.is_left D.has_links D.names D.shows P.reads plan.now) result start blank (heard ++ piece.now) pending.new store.new (O.contents writer.new) }
{
    for byte in piece {
        match take_byte(alloc, pending, *byte, watch, plan, store, writer) {
            Some(end) => return Some(end),
            None => {}
        }
    }
    None
}

/// Tests whether a read that failed with this error gave nothing and may be repeated.
fn is_quiet(kind: ErrorKind) -> bool
    ensures { result ≡ is_quiet kind }
{
    matches!(
        kind,
        ErrorKind::Interrupted | ErrorKind::WouldBlock | ErrorKind::TimedOut
    )
}

/// Decides what follows a failed read: another one, unless the run should end, or the error isn't a quiet one.
fn after_fault<W: Watch>(kind: ErrorKind, watch: &W) -> Option<OperatorEnd>
    ensures { FailsAs result kind (W.may_close watch.now) }
{
    if !is_quiet(kind) {
        return Some(OperatorEnd::ReadFault);
    }
    if watch.is_closing() {
        return Some(OperatorEnd::RunEnding);
    }
    None
}

/// Reads once, and answers the whole lines that came. Returns the end, if it has come.
fn turn<D: Show, I: TimedRead, O: Write, W: Watch, P: Plan>(
    alloc: Global,
    pending: &mut OpenLine,
    piece: &mut [u8],
    reader: &mut I,
    writer: &mut O,
    watch: &W,
    plan: &P,
    store: &mut D,
) -> Option<OperatorEnd>
    requires room { 0 < length piece.old }
    ensures empty { D.calls store.old ≡ [] → D.calls store.new ≡ [] }
    ensures turned { (start : D) (unread blank : Option (List ℕ)) (heard : List ℕ) → Consumes unread (I.remaining reader.old) heard
        → SoFar (server_of D.Store D.is_left D.has_links D.names D.shows P.reads plan.now) start blank heard pending.old store.old (O.contents writer.old)
        → Turns (server_of D.Store D.is_left D.has_links D.names D.shows P.reads plan.now) result start unread blank (W.may_close watch.now) pending.new store.new (I.remaining reader.new) (O.contents writer.new) }
{
    let count = match reader.read(piece) {
        Ok(count) => count,
        Err(error) => {
            store.forget();
            return after_fault(error.kind(), watch);
        }
    };
    if count == 0 {
        return Some(OperatorEnd::InputEnded);
    }
    if watch.is_closing() {
        return Some(OperatorEnd::RunEnding);
    }
    take_piece(alloc, pending, &piece[..count], watch, plan, store, writer)
}

/// Answers an operator's lines until no more should be heard, and returns why. A line that asks for an event submits it
/// once, and is answered by the reply; `book` is answered by what is left of each link at each priority, in bytes per
/// second; `end` asks for the end of the run. A bad line is answered `bad line N`, and if memory runs out the answer is
/// `out of memory`; then the next line is read. A line that begins with the word `words` has the same answer, and then a
/// line `# SENTENCE` that says what the answer means, if there is something to say and memory for it. Bytes without a line
/// break after them do nothing, since they may be half of another line. If the run should end, what was read last is left.
/// The only fault is that memory runs out before the first read.
pub fn operate<R: Wait, D: Show, I: TimedRead, O: Write, W: Watch, P: Plan>(
    rt: &R,
    alloc: Global,
    reader: &mut I,
    writer: &mut O,
    watch: &W,
    plan: &P,
    store: &mut D,
) -> Result<OperatorEnd, AllocError>
    ensures by_operators { (deeds : List Deed) × AreOperators deeds × Goes D.Store store.old deeds store.new }
    ensures empty { D.calls store.old ≡ [] → D.calls store.new ≡ [] }
    ensures operated { EndsAs result
        (λ end. Operated (server_of D.Store D.is_left D.has_links D.names D.shows P.reads plan.now) store.old (I.remaining reader.old) (O.contents writer.old) end (W.may_close watch.now) store.new (I.remaining reader.new) (O.contents writer.new))
        ((store.new ≡ store.old) × (reader.new ≡ reader.old) × (writer.new ≡ writer.old)) }
{
    let mut pending = OpenLine {
        number: 1,
        bytes: Vec::with_capacity(alloc, LINE_LIMIT)?,
        is_long: false,
    };
    let mut piece = [0u8; PIECE];
    reader.set_timeout(PATIENCE_MS);
    for _ in rt.forever() {
        match turn(
            alloc,
            &mut pending,
            &mut piece,
            reader,
            writer,
            watch,
            plan,
            store,
        ) {
            Some(end) => return Ok(end),
            None => {}
        }
    }
    unreachable!()
}
