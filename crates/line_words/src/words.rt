//! Words that questions don't have: what stands before a `=`, and bytes in hexadecimal.
ghost use Rattle.std.specs.Prelude.{◌≡◌, option_map, IfOk};
ghost use Rattle.std.specs.Result.{result_ok};
ghost use Rattle.hex.specs.Hex.{decode_of};
ghost use Rattle.line_words.specs.Words.{bytes_in, cut_at_equals};

use hex::FromHexError;
use std::alloc::{AllocError, Global};

/// Cuts a line at its first `=`.
pub fn cut_at_equals(line: &str) -> Option<(&str, &str)>
    ensures { option_map (λ x. (x.0.now, x.1.now)) result ≡ cut_at_equals line.now }
{
    line.split_once('=')
}

fn decoded(alloc: Global, digits: &[u8]) -> Result<Option<Vec<u8>>, AllocError>
    ensures { IfOk result (λ found. option_map (λ bytes. bytes.items) found ≡ result_ok (decode_of digits.now)) }
{
    match hex::decode(alloc, digits) {
        Ok(bytes) => Ok(Some(bytes)),
        Err(FromHexError::OutOfMemory) => Err(AllocError),
        Err(_) => Ok(None),
    }
}

/// Reads bytes in hexadecimal of either case.
#[tactic(auto, unfolding(crate::specs::Words::bytes_in))]
pub fn bytes_in(alloc: Global, word: &str) -> Result<Option<Vec<u8>>, AllocError>
    ensures { IfOk result (λ found. option_map (λ bytes. bytes.items) found ≡ bytes_in word.now) }
{
    decoded(alloc, word.as_bytes())
}
