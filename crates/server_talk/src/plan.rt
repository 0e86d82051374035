//! The link text of a server's network, read again while the server runs.
use sequence::Sequence;
use step_core::LinkReload;
use te_base::TeFault;

/// Why a link text gives no values.
#[derive(Clone, Copy, PartialEq, Eq, Debug)]
pub enum PlanFault {
    /// It can't be read.
    Device,
    /// It has this fault, which may be that memory ran out.
    Te(TeFault),
}

/// The link text of a server's network. Each reading may give another text.
pub trait Plan {
    ghost use Rattle.std.specs.Prelude.{List, Result, ⊤};
    ghost use Rattle.link_reload.specs.declared.entry.LinkReload.{LinkReload};
    ghost use Rattle.server_talk.specs.declared.plan.PlanFault.{PlanFault};

    /// A reading may give this.
    ghost reads: { Self → Result (List LinkReload) PlanFault → Type 0 } = { λ _ _. ⊤ };

    /// Reads the text, and returns the values that it gives all links.
    fn read(&self) -> Result<Sequence<LinkReload>, PlanFault>
        ensures { reads self.now result };
}
