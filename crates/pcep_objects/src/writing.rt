//! Objects as bytes: the one spelling, which reads as the object again.

ghost use Rattle.std.specs.Prelude.{◌≡◌, ◌++◌, ◌+◌, ◌<◌, ◌^◌, ℕ, List, length, true, false, IfOk, IfErr, OnOk, OnErr};
ghost use Rattle.std.specs.List.{AllByRecursion};
ghost use Rattle.pcep_objects.specs.Kinds.{class_number, type_number};
ghost use Rattle.pcep_objects.specs.Objects.{Reads};
ghost use Rattle.pcep_objects.specs.Spelling.{spelled, written, kept_kind, hops_fit, hops_written, fits, IsByte, HasWrittenP, IsNormal};
ghost use Rattle.pcep_objects.specs.declared.object.Object.{Object};
ghost use Rattle.pcep_objects.specs.declared.fault.WriteFault.TheVariants.{TooLong};

use crate::fault::WriteFault;
use crate::kind::Kind;
use crate::metric::put_metric;
use crate::object::{KeptClass, Object};
use crate::paths::{put_lsp, put_route};
use crate::putting::{put_bandwidth, put_lspa, put_srp};
use crate::request_objects::{put_end_points, put_no_path, put_rp};
use crate::session_objects::{put_close, put_error, put_notification, put_open};
use crate::sizes::hops_size;
use crate::spelled::put_spelled;
use lsp_words::Hop;
use std::alloc::AllocError;

fn kept_kind(class: KeptClass) -> Kind
    ensures { result ≡ kept_kind class }
{
    match class {
        KeptClass::Iro => Kind::Iro,
        KeptClass::Svec => Kind::Svec,
        KeptClass::LoadBalancing => Kind::LoadBalancing,
    }
}

/// Appends an object whose lengths fit, as `Object::fits` says. If memory runs out, nothing is appended.
fn put_fitting(object: &Object, out: &mut Vec<u8>) -> Result<(), AllocError>
    requires { fits object.now ≡ true }
    ensures written { OnOk result (out.new.items ≡ out.old.items ++ written object.now) }
    ensures unchanged { OnErr result (out.new.items ≡ out.old.items) }
{
    match object {
        Object::Open(open) => put_open(open, out),
        Object::Rp(rp) => put_rp(*rp, out),
        Object::NoPath(no_path) => put_no_path(no_path, out),
        Object::EndPoints(end_points) => put_end_points(*end_points, out),
        Object::Bandwidth(bandwidth_type, bandwidth) => {
            put_bandwidth(*bandwidth_type, *bandwidth, out)
        }
        Object::Metric(metric) => put_metric(*metric, out),
        Object::Ero(hops) => put_whole_route(Kind::Ero, hops.as_slice(), out),
        Object::Rro(hops) => put_whole_route(Kind::Rro, hops.as_slice(), out),
        Object::Lspa(lspa) => put_lspa(lspa, out),
        Object::Kept(kept) => put_spelled(kept_kind(kept.class), false, kept.body.as_slice(), out),
        Object::Notification(notification) => put_notification(*notification, out),
        Object::Error(error) => put_error(*error, out),
        Object::Close(close) => put_close(*close, out),
        Object::Lsp(lsp) => put_lsp(lsp, out),
        Object::Srp(srp) => put_srp(*srp, out),
    }
}

/// Appends an ERO or an RRO that fits.
fn put_whole_route(kind: Kind, hops: &[Hop], out: &mut Vec<u8>) -> Result<(), AllocError>
    requires parts { hops_fit hops.now ≡ true }
    requires whole { length (hops_written hops.now) + 4 < 2 ^ 16 }
    ensures written { OnOk result (out.new.items ≡ out.old.items ++ spelled (class_number kind) (type_number kind) false (hops_written hops.now)) }
    ensures unchanged { OnErr result (out.new.items ≡ out.old.items) }
{
    put_route(kind, hops, (hops_size(hops) + 4) as u16, out)
}

/// Appends the one spelling of an object. Reserved bits, unnamed flags and padding are written as zero. P is copied in
/// an RP, set in END-POINTS, and clear in all other objects.
///
/// Fails with `TooLong` exactly if a length doesn't fit its field: a subobject of a route has 2^8 bytes or more, or the
/// object, with its header, 2^16 or more. Fails with `OutOfMemory` if memory runs out. After either the vector is as
/// before.
pub fn write_object(object: &Object, out: &mut Vec<u8>) -> Result<(), WriteFault>
    ensures written { OnOk result (out.new.items ≡ out.old.items ++ written object.now) }
    ensures fits { IfOk result (λ _. fits object.now ≡ true) }
    ensures too_long { IfErr result (λ e. e ≡ TooLong → fits object.now ≡ false) }
    ensures unchanged { OnErr result (out.new.items ≡ out.old.items) }
{
    if !object.fits() {
        return Err(WriteFault::TooLong);
    }
    put_fitting(object, out)?;
    Ok(())
}

/// Shows that the spelling of a normal object whose lengths fit reads as it, whatever follows.
pub fn objects_are_read_again()
    ensures { (object : Object) (rest : List ℕ) → IsNormal object → fits object ≡ true
        → Reads (written object ++ rest) (length (written object)) object }
{}

/// Shows that each object that was read, with P as it is written, is normal. So what was read is written as bytes that
/// read as the same.
pub fn what_is_read_is_normal()
    ensures { (bytes : List ℕ) (size : ℕ) (object : Object) → AllByRecursion IsByte bytes → HasWrittenP object
        → Reads bytes size object → IsNormal object }
{}
