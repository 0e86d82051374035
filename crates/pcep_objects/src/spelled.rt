//! A body after its header, in place. Room is made for both at once, so nothing is appended if memory runs out.

ghost use Rattle.std.specs.Prelude.{◌≡◌, ◌++◌, ◌∷◌, [], ◌*◌, ◌+◌, ◌<◌, ◌^◌, if◌then◌else◌, length, OnOk, OnErr};
ghost use Rattle.byteorder.specs.Endian.{big_bytes};
ghost use Rattle.pcep_objects.specs.Kinds.{class_number, type_number};
ghost use Rattle.pcep_objects.specs.Spelling.{spelled};

use crate::kind::{Kind, class_number, type_number};
use std::alloc::AllocError;

/// Returns the header of an object of this length, header included (RFC 5440 section 7.2).
#[inline(always)]
pub fn header(kind: Kind, p: bool, size: u16) -> [u8; 4]
    ensures { result ≡ (class_number kind ∷ (type_number kind * 16 + (if p then 2 else 0)) ∷ []) ++ big_bytes 2 size }
{
    let [high, low] = size.to_be_bytes();
    let flags = type_number(kind) * 16 + 2 * u8::from(p);
    [class_number(kind), flags, high, low]
}

/// Appends a body after its header.
#[inline(always)]
pub fn put_spelled(kind: Kind, p: bool, body: &[u8], out: &mut Vec<u8>) -> Result<(), AllocError>
    requires { length body.now + 4 < 2 ^ 16 }
    ensures written { OnOk result (out.new.items ≡ out.old.items ++ spelled (class_number kind) (type_number kind) p body.now) }
    ensures unchanged { OnErr result (out.new.items ≡ out.old.items) }
{
    let size = body.len() + 4;
    out.reserve(size)?;
    out.extend_from_slice(&header(kind, p, size as u16))?;
    out.extend_from_slice(body)
}
