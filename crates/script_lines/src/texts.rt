//! What lines print.

ghost use Rattle.std.specs.Prelude.{option_map, ◌≡◌, ◌++◌, ◌+◌, ◌^◌, ◌<◌, ◌≤◌, IfOk, OnOk, IsOk, length, decimal, string_bytes, string_len, string_capacity};
ghost use Rattle.script_lines.specs.Texts.{more_links, path_text, answer_text, word_bound, number_room, reply_room, reply_text, brief_text, event_text, step_line, steps_from, history_text};

use history_core::{Brief, Database, Event, Reply, Step};
use itoa::Buffer;
use std::alloc::{AllocError, Global};
use std::fmt::Write;
use te_base::LinkNumber;

/// Adds a word of a reply, and a number.
pub(crate) fn add_number(text: &mut String, word: &str, number: u64) -> Result<(), AllocError>
    requires { length word.now ≤ word_bound }
    ensures text { OnOk result (string_bytes text.new ≡ string_bytes text.old ++ (word.now ++ decimal number)) }
    ensures succeeds { string_len text.old + number_room ≤ string_capacity text.old → IsOk result }
{
    let mut buffer = Buffer::new();
    let digits = buffer.format(number);
    text.push_str(word)?;
    text.push_str(digits)
}

fn add_more_links(text: &mut String, links: &[LinkNumber]) -> Result<(), AllocError>
    ensures { OnOk result (string_bytes text.new ≡ string_bytes text.old ++ more_links links.now) }
{
    for link in links {
        write!(text, ",{link}")?;
    }
    Ok(())
}

fn add_path(text: &mut String, links: &[LinkNumber]) -> Result<(), AllocError>
    ensures { OnOk result (string_bytes text.new ≡ string_bytes text.old ++ path_text links.now) }
{
    match links {
        [] => Ok(()),
        [first, rest @ ..] => {
            write!(text, "{first}")?;
            add_more_links(text, rest)
        }
    }
}

/// Adds what a search answered: `none`, or the numbers of a path's links, joined by commas.
pub(crate) fn add_answer(text: &mut String, answer: Option<&[LinkNumber]>) -> Result<(), AllocError>
    ensures { OnOk result (string_bytes text.new ≡ string_bytes text.old ++ answer_text (option_map (λ links. links.now) answer.entry)) }
{
    match answer {
        None => text.push_str("none"),
        Some(links) => add_path(text, links),
    }
}

/// How many bytes of a reply's text are added without asking for memory.
pub const REPLY_ROOM: usize = 64;

/// Adds the word of a reply, and its number if it has one.
pub(crate) fn add_brief(text: &mut String, brief: Brief) -> Result<(), AllocError>
    ensures succeeds { string_len text.old + reply_room ≤ string_capacity text.old → IsOk result }
    ensures text { OnOk result (string_bytes text.new ≡ string_bytes text.old ++ brief_text brief) }
{
    text.push_str(brief.word())?;
    match brief.number() {
        None => Ok(()),
        Some(number) => add_number(text, " ", number),
    }
}

/// Adds a reply, without a line break.
pub fn add_reply(text: &mut String, reply: &Reply) -> Result<(), AllocError>
    ensures succeeds { string_len text.old + reply_room ≤ string_capacity text.old → IsOk result }
    ensures text { OnOk result (string_bytes text.new ≡ string_bytes text.old ++ reply_text reply.now) }
{
    add_brief(text, Brief::of(reply))
}

fn event_word(event: &Event) -> &'static str
    ensures { result.now ≡ event_text event.now }
{
    match event {
        Event::Up { .. } => "up",
        Event::Report { .. } => "report",
        Event::Marker { .. } => "marker",
        Event::Down { .. } => "down",
        Event::Expire { .. } => "expire",
        Event::Ask { .. } => "ask",
        Event::Take => "take",
        Event::Commit { .. } => "commit",
        Event::Drain { .. } => "drain",
        Event::Refused { .. } => "refused",
        Event::Return { .. } => "return",
        Event::Delete { .. } => "delete",
        Event::Reload { .. } => "reload",
    }
}

fn add_step(text: &mut String, place: u64, step: &Step) -> Result<(), AllocError>
    ensures { OnOk result (string_bytes text.new ≡ string_bytes text.old ++ step_line place step.now) }
{
    let word = event_word(step.event.event());
    write!(text, "step {place} {word} ")?;
    add_brief(text, step.brief)?;
    text.push_str("\n")
}

/// Adds a line for each step; the first step has this place among all steps.
fn add_steps(text: &mut String, first: u64, steps: &[Step]) -> Result<(), AllocError>
    requires { first + length steps.now < 2 ^ 63 }
    ensures { OnOk result (string_bytes text.new ≡ string_bytes text.old ++ steps_from first steps.now) }
{
    for (number, step) in steps.iter().enumerate() {
        add_step(text, first + number as u64, step)?;
    }
    Ok(())
}

/// Writes a line for each kept step, with its place among all steps.
pub fn history_text(alloc: Global, database: &Database) -> Result<String, AllocError>
    ensures { IfOk result (λ s. string_bytes s ≡ history_text database.now) }
{
    let mut text = String::new(alloc);
    add_steps(&mut text, database.rolled(), database.history())?;
    Ok(text)
}
