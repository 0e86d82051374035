//! The lengths of objects as written, before anything is written.

ghost use Rattle.std.specs.Prelude.{◌≡◌, ◌^◌, ◌-◌, ◌≤◌, min, length, Some, None, if◌then◌else◌};
ghost use Rattle.pcep_objects.specs.Spelling.{hop_fits, hop_written, hops_fit, hops_written, parts_fit, fits, name_written, identifiers_written, error_code_written, rsvp_error_written, details_written, lsp_written, body_written};
ghost use Rattle.pcep_objects.specs.SessionObjects.{capabilities_after};
ghost use Rattle.pcep_objects.specs.RequestObjects.{vector_after};

use crate::object::{Identifiers, LspObject, Object, RsvpError};
use crate::request_objects::NoPathVector;
use lsp_words::{Capabilities, Hop};
use sequence::Sequence;

fn hop_fits(hop: &Hop) -> bool
    ensures { result ≡ hop_fits hop.now }
{
    match hop {
        Hop::Host(..) => true,
        Hop::Other(_, bytes) => bytes.as_slice().len() < 254,
    }
}

#[tactic(auto, unfolding(crate::specs::Spelling::hops_fit))]
pub fn hops_fit(hops: &[Hop]) -> bool
    ensures { result ≡ hops_fit hops.now }
{
    for hop in hops {
        if !hop_fits(hop) {
            return false;
        }
    }
    true
}

/// Tests whether each part of the object has a length that fits its field.
fn parts_fit(object: &Object) -> bool
    ensures { result ≡ parts_fit object.now }
{
    match object {
        Object::Ero(hops) => hops_fit(hops.as_slice()),
        Object::Rro(hops) => hops_fit(hops.as_slice()),
        _ => true,
    }
}

/// Returns the length of a subobject, or the greatest number if that is too great for it.
fn hop_size(hop: &Hop) -> usize
    ensures { result ≡ min (length (hop_written hop.now)) (2 ^ 64 - 1) }
{
    match hop {
        Hop::Host(..) => 8,
        Hop::Other(_, bytes) => bytes.as_slice().len().saturating_add(2),
    }
}

/// Returns the length of a route, or the greatest number if that is too great for it.
pub fn hops_size(hops: &[Hop]) -> usize
    ensures { result ≡ min (length (hops_written hops.now)) (2 ^ 64 - 1) }
{
    let mut size = 0usize;
    for hop in hops {
        size = size.saturating_add(hop_size(hop));
    }
    size
}

/// Returns the length of a name's TLV, or the greatest number if that is too great for it.
fn name_size(name: &Option<Sequence<u8>>) -> usize
    ensures { result ≡ min (length (name_written name.now)) (2 ^ 64 - 1) }
{
    match name {
        Some(name) => (name.as_slice().len().saturating_add(3) / 4 * 4).saturating_add(4),
        None => 0,
    }
}

fn identifiers_size(identifiers: Option<Identifiers>) -> usize
    ensures size { result ≡ length (identifiers_written identifiers) }
    ensures small { result ≤ 20 }
{
    match identifiers {
        Some(_) => 20,
        None => 0,
    }
}

fn error_code_size(error_code: Option<u32>) -> usize
    ensures size { result ≡ length (error_code_written error_code) }
    ensures small { result ≤ 8 }
{
    match error_code {
        Some(_) => 8,
        None => 0,
    }
}

fn rsvp_error_size(error: Option<RsvpError>) -> usize
    ensures size { result ≡ length (rsvp_error_written error) }
    ensures small { result ≤ 16 }
{
    match error {
        Some(_) => 16,
        None => 0,
    }
}

/// Returns the length of the TLVs after the name.
fn details_size(lsp: &LspObject) -> usize
    ensures size { result ≡ length (details_written lsp.now.identifiers lsp.now.error_code lsp.now.rsvp_error) }
    ensures small { result ≤ 44 }
{
    identifiers_size(lsp.identifiers)
        + error_code_size(lsp.error_code)
        + rsvp_error_size(lsp.rsvp_error)
}

/// Returns the length of an LSP, or the greatest number if that is too great for it.
pub fn lsp_size(lsp: &LspObject) -> usize
    ensures { result ≡ min (length (lsp_written lsp.now)) (2 ^ 64 - 1) }
{
    let details = details_size(lsp);
    name_size(&lsp.name).saturating_add(4 + details)
}

/// Returns the length of an LSP with this name, or the greatest number if that is too great for it.
pub fn named_size(lsp: &LspObject, name: &[u8]) -> usize
    ensures { result ≡ min (length (lsp_written (record lsp.now { name = Some name.now }))) (2 ^ 64 - 1) }
{
    let details = details_size(lsp);
    (name.len().saturating_add(3) / 4 * 4).saturating_add(8 + details)
}

/// Returns the length of a route each of whose subobjects fits its length field, or the greatest number if that is too
/// great for it.
#[tactic(auto, unfolding(crate::specs::Spelling::hops_fit))]
pub fn fitting_size(hops: &[Hop]) -> Option<usize>
    ensures { result ≡ (if hops_fit hops.now then Some (min (length (hops_written hops.now)) (2 ^ 64 - 1)) else None) }
{
    let mut size = 0usize;
    for hop in hops {
        if !hop_fits(hop) {
            return None;
        }
        size = size.saturating_add(hop_size(hop));
    }
    Some(size)
}

fn capabilities_size(capabilities: Option<Capabilities>) -> usize
    ensures { result ≡ length (capabilities_after capabilities) }
{
    match capabilities {
        Some(_) => 8,
        None => 0,
    }
}

fn vector_size(vector: Option<NoPathVector>) -> usize
    ensures { result ≡ length (vector_after vector) }
{
    match vector {
        Some(_) => 8,
        None => 0,
    }
}

/// Returns the length of an object without its header, or the greatest number if that is too great for it.
#[tactic(auto, unfolding(crate::specs::Spelling::colours_written))]
pub fn body_size(object: &Object) -> usize
    ensures { result ≡ min (length (body_written object.now)) (2 ^ 64 - 1) }
{
    match object {
        Object::Open(open) => 4 + capabilities_size(open.capabilities),
        Object::NoPath(no_path) => 4 + vector_size(no_path.vector),
        Object::Ero(hops) => hops_size(hops.as_slice()),
        Object::Rro(hops) => hops_size(hops.as_slice()),
        Object::Kept(kept) => kept.body.as_slice().len(),
        Object::Lsp(lsp) => lsp_size(lsp),
        Object::Lspa(_) => 16,
        Object::Rp(_) | Object::EndPoints(_) | Object::Metric(_) | Object::Srp(_) => 8,
        Object::Bandwidth(..) => 4,
        Object::Notification(_) | Object::Error(_) | Object::Close(_) => 4,
    }
}

impl Object {
    /// Tests whether each length in the object fits its field: a subobject's is below 2^8, the object's below 2^16.
    pub fn fits(&self) -> bool
        ensures { result ≡ fits self.now }
    {
        parts_fit(self) && body_size(self) < 0xfffc
    }
}
