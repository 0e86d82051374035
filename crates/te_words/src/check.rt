//! A link text's fault in words.

ghost use Rattle.std.specs.Prelude.{◌≡◌, ◌++◌, Some, None, IfOk, OnOk, string_bytes};
ghost use Rattle.toml.specs.View.{table_view};
ghost use Rattle.te_base.specs.LinkText.{base_of_tree, placed_base};
ghost use Rattle.te_words.specs.Checked.{Adds, IsFound, IsNamed, head_text, place_text};

use crate::fault::add_fault;
use crate::summary::add_summary;
use std::alloc::{AllocError, Global};
use std::fmt::Write;
use te_base::{FaultPlace, PlacedFault, TeBase, TeFault};
use toml::Table;

fn add_place(place: FaultPlace, text: &mut String) -> Result<(), AllocError>
    ensures { OnOk result (string_bytes text.new ≡ string_bytes text.old ++ place_text place) }
{
    match place {
        FaultPlace::InText => Ok(()),
        FaultPlace::InArray(kind) => text.push_str(kind.word()),
        FaultPlace::InTable(kind, number) => {
            let kind = kind.word();
            write!(text, "{kind} {number}")
        }
    }
}

/// Adds `te fault 3: link 12`.
fn add_head(found: PlacedFault, text: &mut String) -> Result<(), AllocError>
    ensures { OnOk result (string_bytes text.new ≡ string_bytes text.old ++ head_text found) }
{
    let number = found.fault.number();
    write!(text, "te fault {number}: ")?;
    add_place(found.place, text)
}

/// Adds a fault and what is said of it.
fn tell_fault(
    found: PlacedFault,
    words: &str,
    text: &mut String,
) -> Result<Option<PlacedFault>, AllocError>
    ensures found { IfOk result (λ given. given ≡ Some found) }
    ensures named { OnOk result (Adds (string_bytes text.old ++ head_text found) (string_bytes text.new)) }
{
    add_head(found, text)?;
    text.push_str(words)?;
    Ok(Some(found))
}

fn tell_network(
    alloc: Global,
    base: &TeBase,
    text: &mut String,
) -> Result<Option<PlacedFault>, AllocError>
    ensures { IfOk result (λ found. found ≡ None) }
{
    add_summary(alloc, base, text)?;
    Ok(None)
}

fn check_document(
    alloc: Global,
    document: &Table,
    text: &mut String,
) -> Result<Option<PlacedFault>, AllocError>
    ensures first { IfOk result (λ found. IsFound found (base_of_tree (table_view document.now))) }
    ensures named { IfOk result (λ found. IsNamed found (string_bytes text.old) (string_bytes text.new)) }
{
    match TeBase::read_document(alloc, document) {
        Ok(base) => tell_network(alloc, &base, text),
        Err(
            PlacedFault {
                fault: TeFault::OutOfMemory,
                ..
            },
        ) => Err(AllocError),
        Err(found) => {
            let mut words = String::new(alloc);
            add_fault(document, found, &mut words)?;
            tell_fault(found, &words, text)
        }
    }
}

/// Adds what is to be said of a link text: its first fault in words, which begin with its number and its table, or what the
/// network has. Returns the fault.
pub fn check_text(
    alloc: Global,
    source: &str,
    text: &mut String,
) -> Result<Option<PlacedFault>, AllocError>
    ensures first { IfOk result (λ found. IsFound found (placed_base source.now)) }
    ensures named { IfOk result (λ found. IsNamed found (string_bytes text.old) (string_bytes text.new)) }
{
    match toml::table_from_str(alloc, source) {
        Ok(document) => check_document(alloc, &document, text),
        Err(error) => {
            if error.is_memory() {
                return Err(AllocError);
            }
            let mut words = String::new(alloc);
            write!(words, "{error}")?;
            let found = PlacedFault::in_part(FaultPlace::InText, TeFault::NotToml);
            tell_fault(found, words.as_str().trim_end(), text)
        }
    }
}
