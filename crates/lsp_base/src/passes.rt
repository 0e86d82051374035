//! Passes over all paths and over all records, for what concerns a whole peer.
ghost use Rattle.std.specs.Prelude.{◌≡◌, ◌++◌, ◌∷◌, [], filter, map, IfOk, OnOk};

use crate::effect::{Record, RecordChange};
use crate::path::Path;
use keyed_list::Test;
use sequence::PlainData;
use std::alloc::{AllocError, Global};

/// A rule for records: which ones it changes, and to what.
pub trait RecordRule {
    ghost use Rattle.std.specs.Prelude.{Bool};
    ghost use Rattle.lsp_base.specs.declared.effect.Record.{Record};
    ghost use Rattle.lsp_base.specs.declared.effect.RecordChange.{RecordChange};

    ghost applies: { Self → Record → Bool };

    ghost change: { Self → Record → RecordChange };

    /// Tests whether the rule changes the record.
    fn applies(&self, known: &Record) -> bool
        ensures { result ≡ applies self.now known.now };

    /// Returns what becomes of the record.
    fn change(&self, known: &Record) -> Result<RecordChange, AllocError>
        ensures { IfOk result (λ c. c ≡ change self.now known.now) };
}

/// Adds a copy of the path at the end, if it passes.
fn add_copy<T: Test<Path>>(found: &mut Vec<Path>, path: &Path, test: &T) -> Result<(), AllocError>
    ensures { OnOk result (found.new.items ≡ found.old.items ++ filter (T.passes test.now) (path.now ∷ [])) }
{
    if test.passes(path) {
        found.push(path.copy()?)?;
    }
    Ok(())
}

/// Copies the paths that pass, in order.
pub fn paths_passing<T: Test<Path>>(
    alloc: Global,
    paths: &[Path],
    test: &T,
) -> Result<Vec<Path>, AllocError>
    ensures { IfOk result (λ found. found.items ≡ filter (T.passes test.now) paths.now) }
{
    let mut found = Vec::new(alloc);
    for path in paths {
        add_copy(&mut found, path, test)?;
    }
    Ok(found)
}

/// Adds the change of the record at the end, if the rule changes it.
fn add_change<R: RecordRule>(
    changes: &mut Vec<RecordChange>,
    known: &Record,
    rule: &R,
) -> Result<(), AllocError>
    ensures { OnOk result (changes.new.items ≡ changes.old.items ++ map (R.change rule.now) (filter (R.applies rule.now) (known.now ∷ []))) }
{
    if rule.applies(known) {
        changes.push(rule.change(known)?)?;
    }
    Ok(())
}

/// Lists the changes that the rule makes to records, in order.
pub fn changes_of<R: RecordRule>(
    alloc: Global,
    records: &[Record],
    rule: &R,
) -> Result<Vec<RecordChange>, AllocError>
    ensures { IfOk result (λ changes. changes.items ≡ map (R.change rule.now) (filter (R.applies rule.now) records.now)) }
{
    let mut changes = Vec::new(alloc);
    for known in records {
        add_change(&mut changes, known, rule)?;
    }
    Ok(changes)
}
