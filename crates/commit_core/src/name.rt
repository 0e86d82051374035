//! Symbolic path names.
ghost use Rattle.std.specs.Prelude.{◌≡◌};
ghost use Rattle.commit_core.specs.Names.{name_of};

use sequence::{PlainData, Sequence};
use std::alloc::AllocError;
use std::marker::Model;

/// The symbolic path name of an LSP that is asked for (RFC 8231 section 7.3.2): 1 to 64 bytes.
#[derive(Debug, Drop)]
pub struct LspName {
    bytes: Sequence<u8>,
}

impl Model for LspName {
    ghost use Rattle.std.specs.Prelude.{ℕ, ◌≡◌, List, true};
    ghost use Rattle.commit_core.specs.Names.{is_name};

    ghost Value = { List ℕ };

    ghost view = { λ n. n.bytes };

    ghost invariant = { λ n. is_name n.bytes ≡ true };
}

impl LspName {
    /// Makes a name of these bytes. Returns `None` if there are none, or more than 64. Allocates nothing.
    pub fn new(bytes: Sequence<u8>) -> Option<LspName>
        ensures { result ≡ name_of bytes }
    {
        let length = bytes.as_slice().len();
        if 0 < length && length <= 64 {
            Some(LspName { bytes })
        } else {
            None
        }
    }

    /// Lends the bytes.
    pub fn as_slice(&self) -> &[u8]
        ensures { result.now ≡ self.now }
    {
        self.bytes.as_slice()
    }
}

impl PlainData for LspName {
    fn copy(&self) -> Result<LspName, AllocError> {
        Ok(LspName {
            bytes: self.bytes.copy()?,
        })
    }
}
