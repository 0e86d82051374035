//! One path of an LSP, and what it reserves.
ghost use Rattle.std.specs.Prelude.{◌≡◌, IfOk};
ghost use Rattle.lsp_base.specs.Same.{same_links, same_path};

use crate::tunnel::{Part, Tunnel, is_same_part, is_same_tunnel};
use lsp_words::Plsp;
use pcep_word::{Bandwidth, Priority};
use sequence::{PlainData, Sequence};
use std::alloc::AllocError;
use te_base::LinkNumber;

/// A reported or granted path. It reserves its bandwidth on each of its links, at its holding priority
/// and at all worse ones.
#[derive(Debug, Drop)]
pub struct Path {
    pub peer: u32,
    /// 0 while a granted initiation is not bound.
    pub plsp: Plsp,
    pub part: Part,
    pub tunnel: Tunnel,
    /// The holding priority in force: never worse than the setup priority.
    pub hold: Priority,
    pub bandwidth: Bandwidth,
    /// Links by their numbers, each once.
    pub links: Sequence<LinkNumber>,
    /// False from the end of the peer's session until the path is reported again.
    pub fresh: bool,
}

impl PlainData for Path {
    fn copy(&self) -> Result<Path, AllocError> {
        Ok(Path {
            peer: self.peer,
            plsp: self.plsp,
            part: self.part,
            tunnel: self.tunnel,
            hold: self.hold,
            bandwidth: self.bandwidth,
            links: self.links.copy()?,
            fresh: self.fresh,
        })
    }
}

fn are_same_links(a: &[LinkNumber], b: &[LinkNumber]) -> bool
    ensures { result ≡ same_links a.now b.now }
{
    if a.len() != b.len() {
        return false;
    }
    for i in 0..a.len() {
        if a[i] != b[i] {
            return false;
        }
    }
    true
}

/// Tests whether two paths are equal in all fields.
pub fn is_same_path(a: &Path, b: &Path) -> bool
    ensures { result ≡ same_path a.now b.now }
{
    a.peer == b.peer
        && a.plsp == b.plsp
        && is_same_part(&a.part, &b.part)
        && is_same_tunnel(&a.tunnel, &b.tunnel)
        && a.hold == b.hold
        && a.bandwidth == b.bandwidth
        && are_same_links(a.links.as_slice(), b.links.as_slice())
        && a.fresh == b.fresh
}
