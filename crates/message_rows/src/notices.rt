//! The messages that a session sends by itself.

use crate::bytes::add_hex;
use pcep_messages::{About, Notice, PcError, put_notice};
use std::alloc::{AllocError, Global};

fn byte_in(word: Option<&str>) -> Option<u8> {
    word?.parse::<u8>().ok()
}

fn id_in(word: Option<&str>) -> Option<u32> {
    word?.parse::<u32>().ok()
}

/// Reads what an error is about: nothing, `request N` or `srp N`.
fn about_in(kind: Option<&str>, id: Option<&str>) -> Option<About> {
    match kind {
        None => Some(About::Nothing),
        Some("request") => Some(About::Request(id_in(id)?)),
        Some("srp") => Some(About::Srp(id_in(id)?)),
        Some(_) => None,
    }
}

/// Reads the notice of a row: `keepalive`, `close 3`, `error 6 8 srp 1`.
fn notice_in(row: &str) -> Option<Notice> {
    let mut words = row.split_whitespace();
    match words.next()? {
        "keepalive" => Some(Notice::Keepalive),
        "close" => Some(Notice::Close(byte_in(words.next())?)),
        "error" => Some(Notice::Error(PcError {
            kind: byte_in(words.next())?,
            value: byte_in(words.next())?,
            about: about_in(words.next(), words.next())?,
        })),
        _ => None,
    }
}

fn add_put(alloc: Global, notice: Notice, text: &mut String) -> Result<(), AllocError> {
    let mut bytes = Vec::new(alloc);
    put_notice(&mut bytes, notice)?;
    add_hex(&bytes, text)
}

/// Adds the bytes of a notice.
pub fn add_notice(alloc: Global, row: &str, text: &mut String) -> Result<(), AllocError> {
    match notice_in(row) {
        Some(notice) => add_put(alloc, notice, text),
        None => text.push_str("bad row"),
    }
}
