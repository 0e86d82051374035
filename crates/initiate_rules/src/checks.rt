//! What an initiation and a deletion are refused for.
ghost use Rattle.std.specs.Prelude.{◌≡◌};
ghost use Rattle.lsp_base.specs.Refusals.{answered_unless};
ghost use Rattle.initiate_rules.specs.Checks.{must_be_new, may_be_deleted};

use lsp_base::{LspBase, Why, is_created, is_delegated, is_pending};
use pcep_objects::Plsp;

/// Refuses an initiation with `Why::NameInUse` if an LSP of the peer has the symbolic path name already, or if the name
/// is held: the PCE asked for it or granted it, and no report has named it yet (RFC 8281 section 5.3). Allocates
/// nothing.
pub fn check_initiate(base: &LspBase, peer: u32, name: &[u8], held: bool) -> Result<(), Why>
    ensures { result ≡ answered_unless (must_be_new base.now.content peer name.now held) tt }
{
    if base.has_name(peer, name) || held {
        return Err(Why::NameInUse);
    }
    Ok(())
}

/// Refuses a deletion (RFC 8281 section 5.4), in this order: with `Why::UnknownLsp` if nothing is known of the LSP,
/// `Why::NotCreatedHere` if no PCE initiated it, `Why::NotDelegated` if it isn't delegated, `Why::Pending` if a grant
/// or a removal of it is awaited. Allocates nothing.
pub fn check_delete(base: &LspBase, peer: u32, plsp: Plsp) -> Result<(), Why>
    ensures { result ≡ answered_unless (may_be_deleted base.now.content peer plsp) tt }
{
    let lsp = base.lsp(peer, plsp);
    if lsp.is_none() {
        return Err(Why::UnknownLsp);
    }
    if !is_created(lsp) {
        return Err(Why::NotCreatedHere);
    }
    if !is_delegated(lsp) {
        return Err(Why::NotDelegated);
    }
    if is_pending(base, peer, plsp) {
        return Err(Why::Pending);
    }
    Ok(())
}
