//! Objects of any length, in place: routes, and LSPs with their TLVs. If memory runs out, what was appended is removed
//! again.

ghost use Rattle.std.specs.Prelude.{◌≡◌, ◌++◌, ◌∷◌, [], ◌+◌, ◌^◌, ◌<◌, length, take, true, false, Some, None, OnOk, OnErr};
ghost use Rattle.byteorder.specs.Endian.{big_bytes};
ghost use Rattle.pcep_objects.specs.Kinds.{class_number, type_number};
ghost use Rattle.pcep_objects.specs.Spelling.{spelled, written, hops_fit, hops_written, lsp_word, tlv_written, lsp_written};
ghost use Rattle.pcep_objects.specs.declared.object.Object.TheVariants.{Lsp};

use crate::kind::Kind;
use crate::object::LspObject;
use crate::putting::{lsp_word, put_details, put_hops, put_tlv};
use crate::sizes::lsp_size;
use crate::spelled::header;
use lsp_words::Hop;
use std::alloc::AllocError;

#[tactic(auto, using(crate::proofs::Fronts::front, crate::proofs::Fronts::front_again))]
fn put_route_parts(kind: Kind, hops: &[Hop], size: u16, out: &mut Vec<u8>) -> Result<(), AllocError>
    requires fit { hops_fit hops.now ≡ true }
    requires whole { size ≡ length (hops_written hops.now) + 4 }
    ensures written { OnOk result (out.new.items ≡ out.old.items ++ spelled (class_number kind) (type_number kind) false (hops_written hops.now)) }
    ensures front { OnErr result (take (length out.old.items) out.new.items ≡ out.old.items) }
{
    out.extend_from_slice(&header(kind, false, size))?;
    put_hops(hops, out)
}

/// Appends an ERO or an RRO of this length, header included.
pub fn put_route(kind: Kind, hops: &[Hop], size: u16, out: &mut Vec<u8>) -> Result<(), AllocError>
    requires fit { hops_fit hops.now ≡ true }
    requires whole { size ≡ length (hops_written hops.now) + 4 }
    ensures written { OnOk result (out.new.items ≡ out.old.items ++ spelled (class_number kind) (type_number kind) false (hops_written hops.now)) }
    ensures unchanged { OnErr result (out.new.items ≡ out.old.items) }
{
    out.reserve(size as usize)?;
    let start = out.len();
    match put_route_parts(kind, hops, size, out) {
        Ok(()) => Ok(()),
        Err(fault) => {
            out.truncate(start);
            Err(fault)
        }
    }
}

/// Appends the header of an LSP of this length, and its PLSP-ID and flags.
#[inline(always)]
fn put_start(lsp: &LspObject, size: u16, out: &mut Vec<u8>) -> Result<(), AllocError>
    ensures written { OnOk result (out.new.items ≡ out.old.items ++ ((32 ∷ 16 ∷ []) ++ big_bytes 2 size ++ big_bytes 4 (lsp_word lsp.now))) }
    ensures unchanged { OnErr result (out.new.items ≡ out.old.items) }
{
    let [a, b, c, d] = header(Kind::Lsp, false, size);
    let [e, f, g, h] = lsp_word(lsp).to_be_bytes();
    out.extend_from_slice(&[a, b, c, d, e, f, g, h])
}

#[tactic(auto, using(crate::proofs::Fronts::front, crate::proofs::Fronts::front_again))]
fn put_named_parts(
    lsp: &LspObject,
    name: &[u8],
    size: u16,
    out: &mut Vec<u8>,
) -> Result<(), AllocError>
    requires fit { length (tlv_written 17 name.now) < 2 ^ 16 }
    requires whole { size ≡ length (lsp_written (record lsp.now { name = Some name.now })) + 4 }
    ensures written { OnOk result (out.new.items ≡ out.old.items ++ written (Lsp (record lsp.now { name = Some name.now }))) }
    ensures front { OnErr result (take (length out.old.items) out.new.items ≡ out.old.items) }
{
    put_start(lsp, size, out)?;
    put_tlv(17, name, out)?;
    put_details(lsp, out)
}

/// Appends an LSP of this length, header included, with this name instead of its own.
pub fn put_named(
    lsp: &LspObject,
    name: &[u8],
    size: u16,
    out: &mut Vec<u8>,
) -> Result<(), AllocError>
    requires fit { length (tlv_written 17 name.now) < 2 ^ 16 }
    requires whole { size ≡ length (lsp_written (record lsp.now { name = Some name.now })) + 4 }
    ensures written { OnOk result (out.new.items ≡ out.old.items ++ written (Lsp (record lsp.now { name = Some name.now }))) }
    ensures unchanged { OnErr result (out.new.items ≡ out.old.items) }
{
    let start = out.len();
    match put_named_parts(lsp, name, size, out) {
        Ok(()) => Ok(()),
        Err(fault) => {
            out.truncate(start);
            Err(fault)
        }
    }
}

#[tactic(auto, using(crate::proofs::Fronts::front, crate::proofs::Fronts::front_again))]
fn put_unnamed_parts(lsp: &LspObject, size: u16, out: &mut Vec<u8>) -> Result<(), AllocError>
    requires whole { size ≡ length (lsp_written (record lsp.now { name = None })) + 4 }
    ensures written { OnOk result (out.new.items ≡ out.old.items ++ written (Lsp (record lsp.now { name = None }))) }
    ensures front { OnErr result (take (length out.old.items) out.new.items ≡ out.old.items) }
{
    put_start(lsp, size, out)?;
    put_details(lsp, out)
}

/// Appends an LSP of this length, header included, without a name.
fn put_unnamed(lsp: &LspObject, size: u16, out: &mut Vec<u8>) -> Result<(), AllocError>
    requires whole { size ≡ length (lsp_written (record lsp.now { name = None })) + 4 }
    ensures written { OnOk result (out.new.items ≡ out.old.items ++ written (Lsp (record lsp.now { name = None }))) }
    ensures unchanged { OnErr result (out.new.items ≡ out.old.items) }
{
    let start = out.len();
    match put_unnamed_parts(lsp, size, out) {
        Ok(()) => Ok(()),
        Err(fault) => {
            out.truncate(start);
            Err(fault)
        }
    }
}

/// Appends an LSP that fits.
pub fn put_lsp(lsp: &LspObject, out: &mut Vec<u8>) -> Result<(), AllocError>
    requires { length (lsp_written lsp.now) + 4 < 2 ^ 16 }
    ensures written { OnOk result (out.new.items ≡ out.old.items ++ written (Lsp lsp.now)) }
    ensures unchanged { OnErr result (out.new.items ≡ out.old.items) }
{
    let size = (lsp_size(lsp) + 4) as u16;
    match &lsp.name {
        Some(name) => put_named(lsp, name.as_slice(), size, out),
        None => put_unnamed(lsp, size, out),
    }
}
