//! Symbolic path names.
ghost use Rattle.std.specs.Prelude.{◌≡◌};
ghost use Rattle.lsp_base.specs.Same.{same_links};

/// Tests whether two symbolic path names are the same, byte for byte. Allocates nothing.
pub fn is_same_name(a: &[u8], b: &[u8]) -> bool
    ensures { result ≡ same_links a.now b.now }
{
    if a.len() != b.len() {
        return false;
    }
    for i in 0..a.len() {
        if a[i] != b[i] {
            return false;
        }
    }
    true
}
