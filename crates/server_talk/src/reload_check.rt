//! What an operator is shown of the changes that a reload would make.
ghost use Rattle.std.specs.Prelude.{◌≡◌, ◌++◌, IfOk, OnOk, string_bytes, slice_get, None};
ghost use Rattle.std.specs.Option.{option_copied};
ghost use Rattle.std.specs.List.{list_any};
ghost use Rattle.server_talk.specs.ReloadChecks.{is_same, value_text, values_text, change_text, entry_text, changes_text, falls_below, is_below, below_count, check_text};

use std::alloc::{AllocError, Global};
use std::fmt::Write;
use step_core::LinkReload;
use te_base::{LinkNumber, LinkValues};

fn is_same(old: LinkValues, new: LinkValues) -> bool
    ensures { result ≡ is_same old new }
{
    (old.igp() == new.igp() && old.te() == new.te())
        && (old.colour() == new.colour() && old.reservable() == new.reservable())
}

/// Adds a value that would change.
#[tactic(auto, unfolding(crate::specs::ReloadChecks::value_text))]
fn add_value(text: &mut String, word: &str, old: u64, new: u64) -> Result<(), AllocError>
    ensures { OnOk result (string_bytes text.new ≡ string_bytes text.old ++ value_text word.now old new) }
{
    if old == new {
        return Ok(());
    }
    write!(text, " {word} {old} {new}")?;
    Ok(())
}

fn add_values(text: &mut String, old: LinkValues, new: LinkValues) -> Result<(), AllocError>
    ensures { OnOk result (string_bytes text.new ≡ string_bytes text.old ++ values_text old new) }
{
    add_value(text, "igp", u64::from(old.igp()), u64::from(new.igp()))?;
    add_value(text, "te", u64::from(old.te()), u64::from(new.te()))?;
    add_value(
        text,
        "colour",
        u64::from(old.colour()),
        u64::from(new.colour()),
    )?;
    add_value(text, "reservable", old.reservable(), new.reservable())
}

/// Adds the line of a link, if it would change.
fn add_change(
    text: &mut String,
    link: LinkNumber,
    old: LinkValues,
    new: LinkValues,
) -> Result<(), AllocError>
    ensures { OnOk result (string_bytes text.new ≡ string_bytes text.old ++ change_text link old new) }
{
    if is_same(old, new) {
        return Ok(());
    }
    write!(text, "link {link}")?;
    add_values(text, old, new)?;
    text.push_str("\n")
}

/// Adds the line of an entry's link, if the link exists and would change.
fn add_entry(text: &mut String, values: &[LinkValues], entry: LinkReload) -> Result<(), AllocError>
    ensures { OnOk result (string_bytes text.new ≡ string_bytes text.old ++ entry_text (slice_get values.now entry.link) entry) }
{
    match values.get(entry.link) {
        Some(old) => add_change(text, entry.link, *old, entry.values),
        None => Ok(()),
    }
}

/// Writes a line for each link that would change.
fn changes_text(
    alloc: Global,
    values: &[LinkValues],
    entries: &[LinkReload],
) -> Result<String, AllocError>
    ensures { IfOk result (λ text. string_bytes text ≡ changes_text values.now entries.now) }
{
    let mut text = String::new(alloc);
    for entry in entries {
        add_entry(&mut text, values, *entry)?;
    }
    Ok(text)
}

/// Tests whether less is left than what may be reserved would fall by.
fn falls_below(old: LinkValues, new: LinkValues, left: i64) -> bool
    ensures { result ≡ falls_below old new left }
{
    left < old.reservable() as i64 - new.reservable() as i64
}

/// Tests whether a link would be below zero at some priority.
fn is_any_below(old: LinkValues, new: LinkValues, amounts: &[i64; 8]) -> bool
    ensures { result ≡ list_any (falls_below old new) amounts.now }
{
    amounts.iter().any(|left| falls_below(old, new, *left))
}

/// Tests whether an entry's link would be below zero at some priority.
fn is_below(values: &[LinkValues], left: &[[i64; 8]], entry: LinkReload) -> bool
    ensures { result ≡ is_below (slice_get values.now entry.link) (slice_get left.now entry.link) entry }
{
    match (values.get(entry.link), left.get(entry.link)) {
        (Some(old), Some(amounts)) => is_any_below(*old, entry.values, amounts),
        _ => false,
    }
}

/// Counts the links that would be below zero at some priority.
fn below_count(values: &[LinkValues], left: &[[i64; 8]], entries: &[LinkReload]) -> usize
    ensures { result ≡ below_count values.now left.now entries.now }
{
    let mut count = 0usize;
    for entry in entries {
        if is_below(values, left, *entry) {
            count += 1;
        }
    }
    count
}

/// Writes what these entries would change, if links have these values and this is left of each.
pub(crate) fn check_text(
    alloc: Global,
    values: &[LinkValues],
    left: &[[i64; 8]],
    entries: &[LinkReload],
) -> Result<String, AllocError>
    ensures { IfOk result (λ text. string_bytes text ≡ check_text values.now left.now entries.now) }
{
    let mut text = changes_text(alloc, values, entries)?;
    if text.is_empty() {
        text.push_str("nothing changes\n")?;
        return Ok(text);
    }
    let below = below_count(values, left, entries);
    writeln!(text, "below zero {below}")?;
    Ok(text)
}
