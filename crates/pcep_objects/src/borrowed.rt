//! Objects appended from borrowed parts, so that no route and no name is copied to be written.

ghost use Rattle.std.specs.Prelude.{◌≡◌, ◌++◌, true, false, Some, IfOk, IfErr, OnOk, OnErr};
ghost use Rattle.pcep_objects.specs.Spelling.{written, fits};
ghost use Rattle.pcep_objects.specs.declared.fault.WriteFault.TheVariants.{TooLong};
ghost use Rattle.pcep_objects.specs.declared.object.Object.TheVariants.{Ero, Lsp};

use crate::fault::WriteFault;
use crate::kind::Kind;
use crate::object::LspObject;
use crate::paths::{put_named, put_route};
use crate::sizes::{fitting_size, named_size};
use lsp_words::Hop;

/// Appends an ERO of these hops.
///
/// Fails with `TooLong` exactly if a subobject has 2^8 bytes or more, or the object, with its header, 2^16 or more, and
/// with `OutOfMemory` if memory runs out. After either the vector is as before.
pub fn put_ero(hops: &[Hop], out: &mut Vec<u8>) -> Result<(), WriteFault>
    ensures written { OnOk result (out.new.items ≡ out.old.items ++ written (Ero hops.now)) }
    ensures fits { IfOk result (λ _. fits (Ero hops.now) ≡ true) }
    ensures too_long { IfErr result (λ e. e ≡ TooLong → fits (Ero hops.now) ≡ false) }
    ensures unchanged { OnErr result (out.new.items ≡ out.old.items) }
{
    let Some(size) = fitting_size(hops) else {
        return Err(WriteFault::TooLong);
    };
    if size >= 0xfffc {
        return Err(WriteFault::TooLong);
    }
    put_route(Kind::Ero, hops, (size + 4) as u16, out)?;
    Ok(())
}

/// Appends an LSP with this name instead of its own.
///
/// Fails with `TooLong` exactly if the object, with its header, has 2^16 bytes or more, and with `OutOfMemory` if
/// memory runs out. After either the vector is as before.
pub fn put_named_lsp(lsp: &LspObject, name: &[u8], out: &mut Vec<u8>) -> Result<(), WriteFault>
    ensures written { OnOk result (out.new.items ≡ out.old.items ++ written (Lsp (record lsp.now { name = Some name.now }))) }
    ensures fits { IfOk result (λ _. fits (Lsp (record lsp.now { name = Some name.now })) ≡ true) }
    ensures too_long { IfErr result (λ e. e ≡ TooLong → fits (Lsp (record lsp.now { name = Some name.now })) ≡ false) }
    ensures unchanged { OnErr result (out.new.items ≡ out.old.items) }
{
    let size = named_size(lsp, name);
    if size >= 0xfffc {
        return Err(WriteFault::TooLong);
    }
    put_named(lsp, name, (size + 4) as u16, out)?;
    Ok(())
}
