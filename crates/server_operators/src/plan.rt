//! The file of a network's link text.
ghost use Rattle.std.specs.Prelude.{◌≡◌, IfOk, Err};
ghost use Rattle.te_base.specs.Ted.{Ted};
ghost use Rattle.te_base.specs.Faults.{Gives};
ghost use Rattle.server_operators.specs.Plans.{numbered, in_order, links_of, links_in, ReadsFile};

use sequence::Sequence;
use server_talk::{Plan, PlanFault};
use std::alloc::{AllocError, Global};
use std::fs::{File, Files};
use step_core::LinkReload;
use te_base::{LinkValues, TeBase, TeFault};
use text_files::{FileFault, read_file};

/// The file of a network's link text, which is read again for that network.
#[derive(Drop)]
pub struct FilePlan<'a, R> {
    pub rt: &'a R,
    pub file: &'a str,
    pub te: &'a TeBase,
}

/// Lists each link with its values, in order.
fn numbered(alloc: Global, all: &[LinkValues]) -> Result<Sequence<LinkReload>, AllocError>
    ensures { IfOk result (λ links. links ≡ numbered 0 all.now) }
{
    let mut links = Vec::with_capacity(alloc, all.len())?;
    for (link, values) in all.iter().enumerate() {
        links.push(LinkReload {
            link,
            values: *values,
        })?;
    }
    Ok(Sequence::from_vec(links))
}

/// Lists the same; if memory runs out, that is a fault of the text.
fn in_order(alloc: Global, all: &[LinkValues]) -> Result<Sequence<LinkReload>, TeFault>
    ensures { Gives (λ l. l) result (in_order all.now) }
{
    match numbered(alloc, all) {
        Ok(links) => Ok(links),
        Err(_) => Err(TeFault::OutOfMemory),
    }
}

/// Returns the values that a text gives the links of a network.
fn links_of(alloc: Global, te: &TeBase, text: &str) -> Result<Sequence<LinkReload>, TeFault>
    ensures { Gives (λ l. l) result (links_of te.now text.now) }
{
    let values = te.reload(alloc, text)?;
    in_order(alloc, &values)
}

/// Returns the values that bytes give the links of a network.
fn links_in(alloc: Global, te: &TeBase, bytes: &[u8]) -> Result<Sequence<LinkReload>, TeFault>
    ensures { Gives (λ l. l) result (links_in te.now bytes.now) }
{
    match str::from_utf8(bytes) {
        Err(_) => Err(TeFault::NotToml),
        Ok(text) => links_of(alloc, te, text),
    }
}

/// Returns why the file can't be read.
fn fault_of(fault: &FileFault) -> PlanFault
    ensures { (te : Ted) → ReadsFile te (Err result) }
{
    if fault.is_out_of_memory() {
        PlanFault::Te(TeFault::OutOfMemory)
    } else {
        PlanFault::Device
    }
}

impl<'a, R: Files<File = File> + AllocGlobal> Plan for FilePlan<'a, R> {
    ghost use Rattle.server_operators.specs.Plans.{ReadsFile};

    ghost reads = { λ plan given. ReadsFile plan.te.now given };

    fn read(&self) -> Result<Sequence<LinkReload>, PlanFault> {
        let text = match read_file(self.rt, self.file) {
            Ok(text) => text,
            Err(fault) => return Err(fault_of(&fault)),
        };
        match links_in(self.rt.alloc(), self.te, &text) {
            Ok(links) => Ok(links),
            Err(fault) => Err(PlanFault::Te(fault)),
        }
    }
}
