//! Where in a message its first fault is.

ghost use Rattle.std.specs.Prelude.{◌≡◌, true, IfOk, option_map};
ghost use Rattle.message_words.specs.Fields.{Adds};
ghost use Rattle.message_words.specs.Faults.{lacks_p, lacks_identifiers, is_kept_with_p, has_fault, IsOwn, StandsAt, class_name, class_words, byte_words, place_words};
ghost use Rattle.message_words.specs.Looks.{Passes, Sees};

use pcep_messages::MessageFault;
use pcep_objects::{Object, ObjectFault, read_object};
use std::alloc::{AllocError, Global};
use std::fmt::Write;

/// An object of a message.
#[derive(Clone, Copy)]
pub struct ObjectPlace {
    /// The byte of the message at which it begins.
    pub byte: usize,
    /// Its class.
    pub class: u8,
}

/// What a look at one object shows.
#[derive(Clone, Copy)]
enum Look {
    /// It has the fault.
    Here,
    /// It hasn't, and this is its length in bytes.
    Next(usize),
    /// It can't be passed over.
    Nowhere,
}

fn lacks_p(object: &Object) -> bool
    ensures { result ≡ lacks_p object.now }
{
    match object {
        Object::Rp(rp) => !rp.p,
        Object::EndPoints(ends) => !ends.p,
        _ => false,
    }
}

fn lacks_identifiers(object: &Object) -> bool
    ensures { result ≡ lacks_identifiers object.now }
{
    match object {
        Object::Lsp(lsp) => lsp.plsp.number() != 0 && lsp.identifiers.is_none(),
        _ => false,
    }
}

fn is_kept_with_p(object: &Object) -> bool
    ensures { result ≡ is_kept_with_p object.now }
{
    match object {
        Object::Kept(kept) => kept.p,
        _ => false,
    }
}

fn has_fault(fault: MessageFault, object: &Object) -> bool
    ensures { result ≡ has_fault fault object.now }
{
    match fault {
        MessageFault::BadP(_) => lacks_p(object),
        MessageFault::MissingIdentifiers(_) => lacks_identifiers(object),
        MessageFault::Refused(kind, _, _) => kind == 4 && is_kept_with_p(object),
        _ => false,
    }
}

/// Tests whether an object's own fault is the message's.
fn is_own(fault: MessageFault, own: ObjectFault) -> bool
    ensures { result ≡ true → IsOwn fault own }
{
    match fault {
        MessageFault::BadObject(found, _) => found == own,
        _ => false,
    }
}

/// Looks at an object that can't be read.
fn look_past(fault: MessageFault, own: ObjectFault) -> Look
    ensures { Passes fault own result }
{
    if is_own(fault, own) {
        return Look::Here;
    }
    match own {
        ObjectFault::UnknownClass { size, .. } => Look::Next(size),
        ObjectFault::UnknownType { size, .. } => Look::Next(size),
        _ => Look::Nowhere,
    }
}

/// Looks at the object at the front of the bytes.
fn look_in(alloc: Global, fault: MessageFault, bytes: &[u8]) -> Result<Look, AllocError>
    ensures { IfOk result (Sees fault bytes.now) }
{
    match read_object(alloc, bytes) {
        Ok((object, size)) => {
            if has_fault(fault, &object) {
                Ok(Look::Here)
            } else {
                Ok(Look::Next(size))
            }
        }
        Err(ObjectFault::OutOfMemory) => Err(AllocError),
        Err(own) => Ok(look_past(fault, own)),
    }
}

/// Finds the first object of a message that has the fault. None: something is missing, or the header is bad.
pub fn find_place(
    alloc: Global,
    fault: MessageFault,
    bytes: &[u8],
) -> Result<Option<ObjectPlace>, AllocError>
    ensures { IfOk result (StandsAt fault bytes.now) }
{
    let mut byte = 4;
    while byte < bytes.len() {
        match look_in(alloc, fault, &bytes[byte..])? {
            Look::Here => {
                let class = bytes[byte];
                return Ok(Some(ObjectPlace { byte, class }));
            }
            Look::Next(size) => byte += size,
            Look::Nowhere => return Ok(None),
        }
    }
    Ok(None)
}

fn class_name(class: u8) -> Option<&'static str>
    ensures { option_map (λ name. name.now) result ≡ class_name class }
{
    Some(match class {
        1 => "OPEN",
        2 => "RP",
        3 => "NO-PATH",
        4 => "END-POINTS",
        5 => "BANDWIDTH",
        6 => "METRIC",
        7 => "ERO",
        8 => "RRO",
        9 => "LSPA",
        10 => "IRO",
        11 => "SVEC",
        12 => "NOTIFICATION",
        13 => "PCEP-ERROR",
        14 => "LOAD-BALANCING",
        15 => "CLOSE",
        32 => "LSP",
        33 => "SRP",
        _ => return None,
    })
}

fn add_class(class: u8, name: Option<&str>, text: &mut String) -> Result<(), AllocError>
    ensures { Adds result text.old text.new (class_words class (option_map (λ name. name.now) name.entry)) }
{
    match name {
        Some(name) => write!(text, " in {name}"),
        None => write!(text, " in an object of class {class}"),
    }
}

fn add_byte(byte: usize, text: &mut String) -> Result<(), AllocError>
    ensures { Adds result text.old text.new (byte_words byte) }
{
    write!(text, ", at byte {byte}")
}

/// Adds where a fault is: `, at byte 36 in LSPA`.
pub fn add_place(place: Option<ObjectPlace>, text: &mut String) -> Result<(), AllocError>
    ensures { Adds result text.old text.new (place_words place) }
{
    let Some(place) = place else {
        return Ok(());
    };
    add_byte(place.byte, text)?;
    add_class(place.class, class_name(place.class), text)
}
