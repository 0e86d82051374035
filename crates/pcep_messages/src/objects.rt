//! The objects of a message, from first to last.

ghost use Rattle.std.specs.Prelude.{◌≡◌, IfOk};
ghost use Rattle.pcep_messages.specs.Objects.{found_in, IsFound};
ghost use Rattle.pcep_messages.specs.ObjectSteps.{skipped, IsNext};

use pcep_objects::{BodyFault, Object, ObjectFault, RawObject, front_of, read_body};
use std::alloc::{AllocError, Global};

/// The next object of a message.
#[derive(Clone, Copy)]
pub enum Next<'a> {
    /// An object of a known kind by its header, and the bytes after it.
    Object(RawObject<'a>, &'a [u8]),
    /// A header with a fault of its own.
    Bad(ObjectFault),
    /// No object follows.
    End,
}

/// Returns the length of an object that is skipped instead of being a fault. None: it isn't skipped.
fn skipped(fault: ObjectFault, checks_p: bool) -> Option<usize>
    ensures { result ≡ skipped checks_p fault }
{
    match fault {
        ObjectFault::UnknownClass { p, size } => { if checks_p && p { None } else { Some(size) } }
        ObjectFault::UnknownType { p, size } => { if checks_p && p { None } else { Some(size) } }
        _ => None,
    }
}

/// Finds the next object. Those of unknown classes and types are skipped, except those with P set if P is checked (RFC
/// 5440 section 7.2).
#[inline(always)]
pub fn next_object(bytes: &[u8], checks_p: bool) -> Next<'_>
    ensures { IsNext checks_p bytes.now result }
{
    let mut rest = bytes;
    while !rest.is_empty() {
        match front_of(rest) {
            Ok(front) => {
                let (_, after) = rest.split_at(front.size);
                return Next::Object(front, after);
            }
            Err(fault) => match skipped(fault, checks_p) {
                Some(size) => {
                    let (_, after) = rest.split_at(size);
                    rest = after;
                }
                None => return Next::Bad(fault),
            },
        }
    }
    Next::End
}

/// Reads the objects up to the first that has a fault of its own, and that fault.
pub fn objects_in(
    alloc: Global,
    bytes: &[u8],
) -> Result<(Vec<Object>, Option<ObjectFault>), AllocError>
    ensures { IfOk result (λ x. IsFound (found_in bytes.now) x.0.items x.1) }
{
    // Most messages have fewer.
    let mut objects = Vec::with_capacity(alloc, 8)?;
    let mut rest = bytes;
    loop {
        match next_object(rest, false) {
            Next::Object(front, after) => match read_body(alloc, front.kind, front.p, front.body) {
                Ok(object) => {
                    objects.push(object)?;
                    rest = after;
                }
                Err(BodyFault::OutOfMemory) => return Err(AllocError),
                Err(own) => return Ok((objects, Some(own.into()))),
            },
            Next::Bad(fault) => return Ok((objects, Some(fault))),
            Next::End => return Ok((objects, None)),
        }
    }
}
