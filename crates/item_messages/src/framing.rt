//! The header of a message, whose length is set once the objects follow it.
ghost use Rattle.std.specs.Prelude.{◌≡◌, ◌++◌, ◌+◌, ◌^◌, ◌<◌, ◌≤◌, ℕ, List, length, OnOk, IfErr, IfOk};
ghost use Rattle.pcep_messages.specs.Spelling.{message_spelled};
ghost use Rattle.pcep_objects.specs.declared.fault.WriteFault.TheVariants.{TooLong};
ghost use Rattle.item_messages.specs.Framing.{begun};

use pcep_objects::WriteFault;
use std::alloc::AllocError;

/// Appends a header of this type, whose length is still to be set.
pub(crate) fn start_message(kind: u8, out: &mut Vec<u8>) -> Result<(), AllocError>
    ensures begun { OnOk result (out.new.items ≡ out.old.items ++ begun kind) }
{
    out.extend_from_slice(&[0x20, kind, 0, 0])
}

/// Sets the length of the message that begins at this place. Fails with `TooLong` exactly if it has 2^16 bytes or more.
pub(crate) fn end_message(start: usize, out: &mut Vec<u8>) -> Result<(), WriteFault>
    requires { start + 4 ≤ length out.old.items }
    ensures ended { OnOk result ((front body : List ℕ) (kind : ℕ) → length front ≡ start → out.old.items ≡ (front ++ begun kind) ++ body → out.new.items ≡ front ++ message_spelled kind body) }
    ensures fits { IfOk result (λ _. length out.old.items < start + 2 ^ 16) }
    ensures too_long { IfErr result (λ e. (e ≡ TooLong) × (start + 2 ^ 16 ≤ length out.old.items)) }
{
    let size = out.len() - start;
    if size >= 0x10000 {
        return Err(WriteFault::TooLong);
    }
    let [high, low] = (size as u16).to_be_bytes();
    out[start + 2] = high;
    out[start + 3] = low;
    Ok(())
}
