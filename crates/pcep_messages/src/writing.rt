//! Messages as bytes: the one spelling, which reads as the message again.

ghost use Rattle.std.specs.Prelude.{◌≡◌, ◌++◌, ℕ, List, true, false, length, take, IfOk, IfErr, OnOk, OnErr};
ghost use Rattle.std.specs.List.{AllByRecursion};
ghost use Rattle.pcep_objects.specs.Spelling.{IsByte};
ghost use Rattle.pcep_messages.specs.Messages.{Reads};
ghost use Rattle.pcep_messages.specs.Normal.{IsNormal};
ghost use Rattle.pcep_messages.specs.Spelling.{is_written, kind_number, written, fits};
ghost use Rattle.pcep_messages.specs.declared.message.Message.{Message};
ghost use Rattle.pcep_objects.specs.declared.fault.WriteFault.TheVariants.{TooLong};

use crate::bodies::put_body;
use crate::message::Message;
use pcep_objects::WriteFault;

impl Message {
    /// Tests whether `write_message` takes the message: any except PCReq, PCNtf, PCRpt and `Unknown`.
    pub fn is_written(&self) -> bool
        ensures { result ≡ is_written self.now }
    {
        match self {
            Message::Request(_) | Message::Notify | Message::Report(_) | Message::Unknown(_) => {
                false
            }
            _ => true,
        }
    }
}

/// Returns the message's type (RFC 5440 section 6.1).
fn kind_number(message: &Message) -> u8
    ensures { result ≡ kind_number message.now }
{
    match message {
        Message::Opening(_) => 1,
        Message::Keepalive => 2,
        Message::Request(_) => 3,
        Message::Reply(_) => 4,
        Message::Notify => 5,
        Message::Error(_) => 6,
        Message::Close(_) => 7,
        Message::Report(_) => 10,
        Message::Update(_) => 11,
        Message::Initiate(_) => 12,
        Message::Unknown(kind) => *kind,
    }
}

/// Appends a message. After an `Err` a part of it may have been appended.
#[tactic(auto, using(crate::proofs::Fronts::front_same, crate::proofs::Fronts::front_two, crate::proofs::Fronts::front_again, crate::proofs::Mended::mended))]
fn put_message(message: &Message, out: &mut Vec<u8>) -> Result<(), WriteFault>
    ensures written { OnOk result (out.new.items ≡ out.old.items ++ written message.now) }
    ensures fits { IfOk result (λ _. fits message.now ≡ true) }
    ensures too_long { IfErr result (λ e. e ≡ TooLong → fits message.now ≡ false) }
    ensures front { OnErr result (take (length out.old.items) out.new.items ≡ out.old.items) }
{
    let start = out.len();
    out.extend_from_slice(&[0x20, kind_number(message), 0, 0])?;
    put_body(message, out)?;
    let size = out.len() - start;
    if size >= 0x10000 {
        return Err(WriteFault::TooLong);
    }
    let [high, low] = (size as u16).to_be_bytes();
    out[start + 2] = high;
    out[start + 3] = low;
    Ok(())
}

/// Appends the one spelling of a message (RFC 5440 section 6, RFC 8231 section 6, RFC 8281 section 5). P is
/// set in the RP of a PCRep and clear in those of a PCErr.
///
/// Fails with `TooLong` exactly if a length doesn't fit its field: a subobject of a route has 2^8 bytes or more, or an
/// object or the message 2^16 or more. Fails with `OutOfMemory` if memory runs out. After either the vector is as
/// before.
pub fn write_message(message: &Message, out: &mut Vec<u8>) -> Result<(), WriteFault>
    requires { is_written message.now ≡ true }
    ensures written { OnOk result (out.new.items ≡ out.old.items ++ written message.now) }
    ensures fits { IfOk result (λ _. fits message.now ≡ true) }
    ensures too_long { IfErr result (λ e. e ≡ TooLong → fits message.now ≡ false) }
    ensures unchanged { OnErr result (out.new.items ≡ out.old.items) }
{
    let start = out.len();
    match put_message(message, out) {
        Ok(()) => Ok(()),
        Err(fault) => {
            out.truncate(start);
            Err(fault)
        }
    }
}

/// Shows that the spelling of a message that is normal and whose lengths fit reads as it.
///
/// A normal message is one that the wire can have: numbers as the fields' types keep them, hops as an ERO gives them
/// (no `Other` that would read as a host), and a cost that some word reads as. A cost above 2^24 may have no such word.
/// Then the least greater one that has a word is written.
pub fn messages_are_read_again()
    ensures { (message : Message) → is_written message ≡ true → IsNormal message → fits message ≡ true
        → Reads (written message) message }
{}

/// Shows that each message that was read is normal. So what was read of a kind that is written, if its lengths fit, is
/// written as bytes that read as the same.
pub fn what_is_read_is_normal()
    ensures { (bytes : List ℕ) (message : Message) → AllByRecursion IsByte bytes → Reads bytes message → IsNormal message }
{}
