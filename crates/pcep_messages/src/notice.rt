//! The messages that a session sends by itself.

ghost use Rattle.std.specs.Prelude.{◌≡◌, ◌++◌, OnOk, OnErr};
ghost use Rattle.pcep_messages.specs.Spelling.{written};
ghost use Rattle.pcep_messages.specs.Notices.{error_about, message_of_notice};
ghost use Rattle.pcep_messages.specs.declared.fault.About.TheVariants as abouts;

use crate::fault::About;
use std::alloc::AllocError;

/// A PCErr with one error, and with the request that it is about, if that is known (RFC 5440 section 6.7, RFC 8231
/// section 6.3).
#[derive(Clone, Copy, Debug, PartialEq, Eq)]
pub struct PcError {
    pub about: About,
    /// Error-Type (RFC 5440 section 7.15).
    pub kind: u8,
    /// Error-value.
    pub value: u8,
}

/// A message that a session sends by itself. It has 4 to 24 bytes, so writing it can fail only if memory runs out.
#[derive(Clone, Copy, Debug, PartialEq, Eq)]
pub enum Notice {
    /// Keepalive (RFC 5440 section 6.3).
    Keepalive,
    /// PCErr (RFC 5440 section 6.7).
    Error(PcError),
    /// Close, with its reason (RFC 5440 section 6.8).
    Close(u8),
}

/// Appends a PCErr about a request: RP and PCEP-ERROR.
#[tactic(auto, unfolding(crate::specs::Spelling::object_spelled))]
fn put_request_error(
    out: &mut Vec<u8>,
    id: u32,
    error_type: u8,
    value: u8,
) -> Result<(), AllocError>
    ensures ok { OnOk result (out.new.items ≡ out.old.items ++ written (error_about (abouts.Request id) error_type value)) }
    ensures err { OnErr result (out.new.items ≡ out.old.items) }
{
    let [a, b, c, d] = id.to_be_bytes();
    out.extend_from_slice(&[
        0x20, 6, 0, 24, 2, 0x10, 0, 12, 0, 0, 0, 0, a, b, c, d, 13, 0x10, 0, 8, 0, 0, error_type,
        value,
    ])
}

/// Appends a PCErr about a stateful request: SRP and PCEP-ERROR.
#[tactic(auto, unfolding(crate::specs::Spelling::object_spelled))]
fn put_srp_error(out: &mut Vec<u8>, id: u32, error_type: u8, value: u8) -> Result<(), AllocError>
    ensures ok { OnOk result (out.new.items ≡ out.old.items ++ written (error_about (abouts.Srp id) error_type value)) }
    ensures err { OnErr result (out.new.items ≡ out.old.items) }
{
    let [a, b, c, d] = id.to_be_bytes();
    out.extend_from_slice(&[
        0x20, 6, 0, 24, 33, 0x10, 0, 12, 0, 0, 0, 0, a, b, c, d, 13, 0x10, 0, 8, 0, 0, error_type,
        value,
    ])
}

#[tactic(auto, unfolding(crate::specs::Spelling::object_spelled))]
fn put_error(out: &mut Vec<u8>, error: PcError) -> Result<(), AllocError>
    ensures ok { OnOk result (out.new.items ≡ out.old.items ++ written (error_about error.about error.kind error.value)) }
    ensures err { OnErr result (out.new.items ≡ out.old.items) }
{
    let PcError { about, kind, value } = error;
    match about {
        About::Nothing => {
            out.extend_from_slice(&[0x20, 6, 0, 12, 13, 0x10, 0, 8, 0, 0, kind, value])
        }
        About::Request(id) => put_request_error(out, id, kind, value),
        About::Srp(id) => put_srp_error(out, id, kind, value),
    }
}

/// Appends the spelling of a notice, which is that of `write_message` of its message. If memory runs out, nothing is
/// appended.
#[tactic(auto, unfolding(crate::specs::Spelling::object_spelled))]
pub fn put_notice(out: &mut Vec<u8>, notice: Notice) -> Result<(), AllocError>
    ensures written { OnOk result (out.new.items ≡ out.old.items ++ written (message_of_notice notice)) }
    ensures unchanged { OnErr result (out.new.items ≡ out.old.items) }
{
    match notice {
        Notice::Keepalive => out.extend_from_slice(&[0x20, 2, 0, 4]),
        Notice::Error(error) => put_error(out, error),
        Notice::Close(reason) => {
            out.extend_from_slice(&[0x20, 7, 0, 12, 15, 0x10, 0, 8, 0, 0, 0, reason])
        }
    }
}
