//! What is said of a fault: the names of its table, the key, what stands there and what is wanted.

use std::alloc::AllocError;
use std::fmt::Write;
use te_base::{FaultPlace, Key, LINK_LIMIT, NODE_LIMIT, PlacedFault, TableKind, TeFault};
use toml::Table;
use toml::value::Array;

fn array_of(document: &Table, kind: TableKind) -> Option<&Array> {
    document.get(kind.word())?.as_array()
}

fn table_at(document: &Table, kind: TableKind, number: usize) -> Option<&Table> {
    array_of(document, kind)?.get(number)?.as_table()
}

fn count_of(document: &Table, kind: TableKind) -> usize {
    match array_of(document, kind) {
        Some(tables) => tables.len(),
        None => 0,
    }
}

/// Returns the text at a key, if there is one.
fn text_in<'a>(table: &'a Table, key: Key) -> Option<&'a str> {
    table.get(key.word())?.as_str()
}

/// Returns the text at the key at fault, which the reader has found to be one.
fn text_at<'a>(table: &'a Table, key: Key) -> &'a str {
    text_in(table, key).unwrap_or("")
}

/// Adds ` ("C"): ` or ` ("par" to "lon"): `, or `: ` if the table has no names.
fn add_names(table: &Table, kind: TableKind, text: &mut String) -> Result<(), AllocError> {
    match kind {
        TableKind::Nodes => {
            if let Some(name) = text_in(table, Key::Name) {
                write!(text, " ({name:?})")?;
            }
        }
        TableKind::Links => {
            if let (Some(from), Some(to)) = (text_in(table, Key::From), text_in(table, Key::To)) {
                write!(text, " ({from:?} to {to:?})")?;
            }
        }
    }
    text.push_str(": ")
}

fn add_missing(table: &Table, key: Key, text: &mut String) -> Result<(), AllocError> {
    let word = key.word();
    let wanted = match key {
        _ if table.get(word).is_none() => "missing",
        Key::Igp | Key::Te | Key::Colour | Key::Reservable => "no integer",
        _ => "no text",
    };
    write!(text, "{word} is {wanted}")
}

fn add_out_of_range(table: &Table, key: Key, text: &mut String) -> Result<(), AllocError> {
    let (word, (least, most)) = (key.word(), key.range());
    let found = text_at(table, key);
    match key {
        Key::Name | Key::From | Key::To => {
            let bytes = found.len();
            write!(
                text,
                "{word} has {bytes} bytes, a name has {least} to {most}"
            )
        }
        Key::Id | Key::Local | Key::Remote if found == "0.0.0.0" => {
            write!(text, "{word} 0.0.0.0 is no node's address")
        }
        Key::Id | Key::Local | Key::Remote => write!(text, "{word} {found:?} is no address"),
        Key::Igp | Key::Te | Key::Colour | Key::Reservable => {
            let found = match table.get(word) {
                Some(value) => value.as_integer().unwrap_or(0),
                None => 0,
            };
            write!(text, "{word} is {found}, not from {least} to {most}")
        }
    }
}

/// Adds who would own the address at a key, and the name of the node that owns it.
fn add_owners(table: &Table, key: Key, other: &str, text: &mut String) -> Result<(), AllocError> {
    let node = match key {
        Key::Local => Key::From,
        Key::Remote => Key::To,
        _ => Key::Name,
    };
    let (word, address, name) = (key.word(), text_at(table, key), text_at(table, node));
    write!(
        text,
        "{word} {address} would be an address of {name:?}, and {other:?} owns it"
    )
}

/// Adds what is wrong at a key of a table.
fn add_key(
    document: &Table,
    table: &Table,
    key: Key,
    found: PlacedFault,
    text: &mut String,
) -> Result<(), AllocError> {
    let other = found.other.unwrap_or(0);
    match found.fault {
        TeFault::MissingField => add_missing(table, key, text),
        TeFault::OutOfRange => add_out_of_range(table, key, text),
        TeFault::NameTwice => write!(text, "node {other} has the name too"),
        TeFault::AddressTwice => {
            let name = match table_at(document, TableKind::Nodes, other) {
                Some(node) => text_at(node, Key::Name),
                None => "",
            };
            add_owners(table, key, name, text)
        }
        _ => {
            let (word, name) = (key.word(), text_at(table, key));
            write!(text, "{word} {name:?} is no node's name")
        }
    }
}

/// Adds what is said of a fault of a document after its table.
pub fn add_fault(
    document: &Table,
    found: PlacedFault,
    text: &mut String,
) -> Result<(), AllocError> {
    match found.place {
        FaultPlace::InText => {
            let nodes = count_of(document, TableKind::Nodes);
            let links = count_of(document, TableKind::Links);
            write!(
                text,
                "{nodes} nodes and {links} links, at most {NODE_LIMIT} and {LINK_LIMIT} are read"
            )
        }
        FaultPlace::InArray(_) => text.push_str(" is no array of tables"),
        FaultPlace::InTable(kind, number) => match table_at(document, kind, number) {
            None => text.push_str(" is no table"),
            Some(table) => {
                add_names(table, kind, text)?;
                match found.key {
                    Some(key) => add_key(document, table, key, found, text),
                    None => text.push_str("it leads from a node to itself"),
                }
            }
        },
    }
}
