//! What routers said of LSPs beside what the state has, and since when they haven't answered what they were asked.
ghost use Rattle.std.specs.Prelude.{◌≡◌, map, IfOk, OnOk};
ghost use Rattle.pce_view.specs.Unanswered.{since_at, since_of_deletion, since_of_grant, IsHeardOf};

use lsp_base::{Part, Path};
use pce_seen::{Deletion, GrantPage, KnownGrant, KnownLsp};
use server_rules::{
    PathHappening, PathKey, PathWords, PcErrHappening, PeerErrors, Pending, PendingTable, RouterLsp,
};
use std::alloc::{AllocError, Global};

/// What routers said of some LSPs beside what the state has, and since when they haven't answered.
#[derive(Drop)]
pub struct Heard {
    /// In the latest reports of their paths.
    pub words: PathWords,
    /// By which they last refused what was asked of them.
    pub errors: PeerErrors,
    /// When each grant of a page was made or last named by a report, in milliseconds since the run began. `None` if that
    /// isn't known.
    pub grants_since_ms: Vec<Option<u64>>,
    /// The same of each awaited deletion.
    pub deletions_since_ms: Vec<Option<u64>>,
}

/// What is noted of what routers said beside the state.
#[derive(Clone, Copy)]
pub enum Said<'a> {
    /// In the latest reports of paths.
    Words(&'a PathWords),
    /// By which they refused what was asked of them.
    Errors(&'a PeerErrors),
    /// Since when they haven't answered.
    Pending(&'a PendingTable),
}

/// Returns the key of a path that its router reported.
fn key_of(path: &Path) -> Option<PathKey> {
    match path.part {
        Part::Reported(lsp) => Some(PathKey {
            peer: path.peer,
            plsp: path.plsp.number(),
            lsp,
        }),
        Part::Granted(_) => None,
    }
}

/// Takes over what is said of a path.
fn hear_path(
    into: &mut PathWords,
    words: &PathWords,
    of: Option<PathKey>,
) -> Result<(), AllocError> {
    let Some(of) = of else {
        return Ok(());
    };
    match words.of(of) {
        Some(word) => into.note(PathHappening::Reported { of, word }),
        None => Ok(()),
    }
}

/// Takes over by what an LSP was last refused.
fn hear_error(
    into: &mut PeerErrors,
    errors: &PeerErrors,
    seen: &KnownLsp,
) -> Result<(), AllocError> {
    let of = RouterLsp {
        peer: seen.known.peer,
        plsp: seen.known.plsp.number(),
    };
    match errors.of(of) {
        Some(error) => into.note(PcErrHappening::Sent { of, error }),
        None => Ok(()),
    }
}

/// Returns when the request of a path was made or last named by a report, if the path was granted.
fn since_at(table: &PendingTable, peer: u32, part: Part) -> Option<u64>
    ensures { result ≡ since_at table.now peer part }
{
    match part {
        Part::Reported(_) => None,
        Part::Granted(srp) => table.since_ms(Pending { peer, srp }),
    }
}

/// Returns when each grant was made or last named by a report.
fn grants_since(
    alloc: Global,
    table: &PendingTable,
    grants: &[KnownGrant],
) -> Result<Vec<Option<u64>>, AllocError>
    ensures { IfOk result (λ since. since.items ≡ map (since_of_grant table.now) grants.now) }
{
    let mut since = Vec::new(alloc);
    for grant in grants {
        since.push(since_at(table, grant.path.peer, grant.path.part))?;
    }
    Ok(since)
}

/// Returns when each awaited deletion was made or last named by a report.
fn deletions_since(
    alloc: Global,
    table: &PendingTable,
    deletions: &[Deletion],
) -> Result<Vec<Option<u64>>, AllocError>
    ensures { IfOk result (λ since. since.items ≡ map (since_of_deletion table.now) deletions.now) }
{
    let mut since = Vec::new(alloc);
    for deletion in deletions {
        let of = Pending {
            peer: deletion.peer,
            srp: deletion.srp,
        };
        since.push(table.since_ms(of))?;
    }
    Ok(since)
}

impl Heard {
    /// Makes a value for which nothing was said. It takes no memory.
    pub fn nothing(alloc: Global) -> Heard {
        Heard {
            words: PathWords::new(alloc),
            errors: PeerErrors::new(alloc),
            grants_since_ms: Vec::new(alloc),
            deletions_since_ms: Vec::new(alloc),
        }
    }

    /// Takes over what a router said of an LSP.
    pub(crate) fn hear_lsp(&mut self, said: Said<'_>, lsp: &KnownLsp) -> Result<(), AllocError> {
        match said {
            Said::Words(words) => {
                for path in lsp.paths.as_slice() {
                    hear_path(&mut self.words, words, key_of(path))?;
                }
                Ok(())
            }
            Said::Errors(errors) => hear_error(&mut self.errors, errors, lsp),
            Said::Pending(_) => Ok(()),
        }
    }

    /// Takes over since when the grants and the awaited deletions of a page are unanswered.
    pub(crate) fn hear_page(
        &mut self,
        table: &PendingTable,
        page: &GrantPage,
    ) -> Result<(), AllocError>
        ensures { OnOk result (IsHeardOf table.now page.now self.new) }
    {
        let alloc = *self.grants_since_ms.allocator();
        self.grants_since_ms = grants_since(alloc, table, &page.grants)?;
        self.deletions_since_ms = deletions_since(alloc, table, &page.deletions)?;
        Ok(())
    }
}
