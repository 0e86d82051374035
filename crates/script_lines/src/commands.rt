//! An operator's line over a store.

ghost use Rattle.std.specs.Prelude.{◌≡◌, ◌≤◌, ◌+◌, ◌++◌, string_bytes, string_len, string_capacity};
ghost use Rattle.script_lines.specs.Answered.{Answers, AnswersEvent, AnswersRoll};
ghost use Rattle.script_lines.specs.Commands.{command_in};
ghost use Rattle.script_lines.specs.Rolls.{rolled_text};
ghost use Rattle.script_lines.specs.Texts.{reply_room, reply_text};

use crate::events::event_in;
use crate::fault::CommandFault;
use crate::texts::{REPLY_ROOM, add_number, add_reply};
use engine_core::{Store, last_reply};
use history_core::{Event, Reply};
use std::alloc::Global;

/// Adds the text of a reply, in room that was reserved.
fn put_reply(text: &mut String, reply: &Reply)
    requires { string_len text.old + reply_room ≤ string_capacity text.old }
    ensures { string_bytes text.new ≡ string_bytes text.old ++ reply_text reply.now }
{
    let added = add_reply(text, reply);
    prove!(added.is_ok());
}

/// Adds how many steps were taken before the base, in room that was reserved.
fn put_rolled(text: &mut String, steps: u64)
    requires { string_len text.old + reply_room ≤ string_capacity text.old }
    ensures { string_bytes text.new ≡ string_bytes text.old ++ rolled_text steps }
{
    let added = add_number(text, "rolled ", steps);
    prove!(added.is_ok());
}

/// Submits an event, and returns the text of its reply. After a fault of the store, also if memory runs out, the store
/// is as before.
pub fn answer_event<S: Store>(
    alloc: Global,
    event: Event,
    store: &mut S,
) -> Result<String, CommandFault>
    ensures { AnswersEvent string_bytes S.moves S.is_full event result store.old store.new }
{
    let mut text = String::with_capacity(alloc, REPLY_ROOM)?;
    store.submit(event)?;
    put_reply(&mut text, last_reply(store));
    Ok(text)
}

/// Rolls the history, and returns how many steps were taken before its base. If memory runs out, the store is as
/// before.
fn answer_roll<S: Store>(alloc: Global, store: &mut S) -> Result<String, CommandFault>
    ensures { AnswersRoll string_bytes S.moves S.rolls result store.old store.new }
{
    let mut text = String::with_capacity(alloc, REPLY_ROOM)?;
    let steps = store.roll()?;
    put_rolled(&mut text, steps);
    Ok(text)
}

/// Does what an operator's line asks for (docs/FORMAT.md: `expire`, `initiate`, `update`, `return`, `delete`, `commit`
/// with their words, and `roll`), and returns the text of its reply. A bad line leaves the store as it was. After a
/// fault of the store, also if memory runs out, the store is as before.
#[tactic(auto, unfolding(crate::specs::Commands::command_in))]
pub fn command<S: Store>(alloc: Global, line: &str, store: &mut S) -> Result<String, CommandFault>
    ensures { Answers string_bytes S.moves S.rolls S.is_full (command_in line.now) result store.old store.new }
{
    if line == "roll" {
        return answer_roll(alloc, store);
    }
    match event_in(alloc, line)? {
        Some(event) => answer_event(alloc, event, store),
        None => Err(CommandFault::BadLine),
    }
}
