//! What is at the front of the received bytes.

ghost use Rattle.std.specs.Prelude.{◌≡◌, ◌≤◌, length};
ghost use Rattle.pcep_session.specs.Framing.{is_bad, front_of, message_length, bytes_needed, FitsIn};

use byteorder::{BigEndian, ByteOrder};

/// What is at the front of the received bytes.
#[derive(Clone, Copy, Debug, PartialEq, Eq)]
pub enum NextMessage {
    /// No whole message, and no bad header.
    Waiting,
    /// A header that no message has.
    Bad,
    /// A message, and its length in bytes, header included.
    Whole(usize),
}

/// The size of a message's header, in bytes.
pub const HEADER: usize = 4;

fn message_length(bytes: &[u8]) -> usize
    requires { 4 ≤ length bytes.now }
    ensures { result ≡ message_length bytes.now }
{
    BigEndian::read_u16(&bytes[2..]) as usize
}

fn is_bad(bytes: &[u8]) -> bool
    requires { 4 ≤ length bytes.now }
    ensures { result ≡ is_bad bytes.now }
{
    let size = message_length(bytes);
    bytes[0] >> 5 != 1 || size < HEADER || size % 4 != 0
}

/// Looks only at the four bytes of the header.
#[tactic(auto, unfolding(crate::specs::Framing::front_of))]
pub fn front_in(bytes: &[u8]) -> NextMessage
    ensures front { result ≡ front_of bytes.now }
    ensures size { FitsIn (length bytes.now) result }
{
    if bytes.len() < HEADER {
        return NextMessage::Waiting;
    }
    if is_bad(bytes) {
        return NextMessage::Bad;
    }
    let size = message_length(bytes);
    if bytes.len() < size {
        return NextMessage::Waiting;
    }
    NextMessage::Whole(size)
}

/// Returns how many bytes there must be until there is something to handle. Looks only at the four bytes of the header.
#[tactic(auto, unfolding(crate::specs::Framing::bytes_needed))]
pub fn needed_in(bytes: &[u8]) -> usize
    ensures { result ≡ bytes_needed bytes.now }
{
    if bytes.len() < HEADER || is_bad(bytes) {
        HEADER
    } else {
        message_length(bytes)
    }
}
