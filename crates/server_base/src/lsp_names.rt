//! The names that the log uses for LSPs.
ghost use Rattle.std.specs.Prelude.{◌≡◌, None, Some, OnErr, OnOk, option_map, if◌then◌else◌};
ghost use Rattle.server_base.specs.LspNames.{heard_in, heard_name, is_of_router, lsp_of, name_in, removes_lsp, BeginsAnew, Hears, Renames, TakesName};
ghost use Rattle.server_log.specs.Names.{begin_of};
ghost use Rattle.server_rules.specs.declared.retry.RouterLsp.{RouterLsp};

use crate::retries::is_unsignalled;
use indexmap::IndexMap;
use pcep_messages::StateReport;
use server_log::ShownName;
use server_rules::RouterLsp;
use std::alloc::{AllocError, Global};

/// The most LSPs whose names are kept: as many as there may be paths. Each takes about 100 bytes.
const MOST_LSPS: usize = 16_384;

/// The name with which each LSP was last reported.
#[derive(Drop)]
pub(crate) struct LspNames {
    alloc: Global,
    names: IndexMap<RouterLsp, ShownName>,
}

impl LspNames {
    /// Makes a table without names. Allocates nothing.
    pub fn new(alloc: Global) -> LspNames
        ensures { (q : RouterLsp) → name_in result q ≡ None }
    {
        LspNames {
            alloc,
            names: IndexMap::new(alloc),
        }
    }

    /// Returns the name of an LSP, if it is known.
    pub fn of(&self, lsp: RouterLsp) -> Option<ShownName>
        ensures { result ≡ name_in self.now lsp }
    {
        self.names.get(&lsp).copied()
    }

    /// Notes that an LSP was reported with this name. Fails if memory runs out, or if the names of 16,384 others are known.
    pub fn named(&mut self, of: RouterLsp, name: ShownName) -> Result<(), AllocError>
        ensures ok { OnOk result (Renames of (Some name) self.old self.new) }
        ensures err { OnErr result ((q : RouterLsp) → name_in self.new q ≡ name_in self.old q) }
    {
        if self.names.len() >= MOST_LSPS && self.names.get(&of).is_none() {
            return Err(AllocError);
        }
        self.names.insert(of, name)?;
        Ok(())
    }

    /// Forgets all names.
    fn forget_all(&mut self)
        ensures { (q : RouterLsp) → name_in self.new q ≡ None }
    {
        self.names = IndexMap::new(self.alloc);
    }

    /// Forgets the name of an LSP that is gone.
    pub fn gone(&mut self, of: RouterLsp)
        ensures { Renames of None self.old self.new }
    {
        let _name = self.names.swap_remove(&of);
    }

    /// Forgets the names of a router's LSPs: the router was forgotten, or a new session of it came up, in which its
    /// PLSP-IDs may mean other LSPs.
    pub fn forget(&mut self, peer: u32)
        ensures { (q : RouterLsp) → name_in self.new q ≡ (if is_of_router peer q then None else name_in self.old q) }
    {
        self.names.retain(|of, _name| of.peer != peer);
    }
}

/// What a report says about the name of its LSP.
#[derive(Clone, Copy)]
enum Heard {
    /// The LSP is gone.
    Gone,
    /// It has this name.
    Named(ShownName),
    Nothing,
}

/// Returns the LSP that a report is about.
fn lsp_of(peer: u32, report: &StateReport) -> RouterLsp
    ensures { result ≡ lsp_of peer report.now }
{
    RouterLsp {
        peer,
        plsp: report.plsp.number(),
    }
}

/// Tests whether a report removes its LSP, and not only one path of it.
fn removes_lsp(report: &StateReport) -> bool
    ensures { result ≡ removes_lsp report.now }
{
    report.remove && is_unsignalled(report)
}

/// Returns the name in a report.
fn name_of(report: &StateReport) -> Option<ShownName>
    ensures { result ≡ option_map begin_of report.now.name }
{
    match &report.name {
        Some(name) => Some(ShownName::new(name.as_slice())),
        None => None,
    }
}

/// Returns what a name in a report says.
fn heard_name(name: Option<ShownName>) -> Heard
    ensures { result ≡ heard_name name }
{
    match name {
        Some(name) => Heard::Named(name),
        None => Heard::Nothing,
    }
}

/// Returns what a report says about the name of its LSP.
fn heard_in(report: &StateReport) -> Heard
    ensures { result ≡ heard_in report.now }
{
    if removes_lsp(report) {
        Heard::Gone
    } else {
        heard_name(name_of(report))
    }
}

impl LspNames {
    /// Forgets all names, and notes this one if there is memory for it.
    fn begin_anew(&mut self, of: RouterLsp, name: ShownName)
        ensures { BeginsAnew of name self.new }
    {
        self.forget_all();
        let _noted = self.named(of, name);
    }

    /// Notes that an LSP was reported with this name. If there is no room for one more, the names of the others are
    /// forgotten; each is known again once it is reported.
    fn renamed(&mut self, of: RouterLsp, name: ShownName)
        ensures { TakesName of name self.old self.new }
    {
        match self.named(of, name) {
            Ok(()) => {}
            Err(_) => self.begin_anew(of, name),
        }
    }

    /// Notes what a report says about this LSP's name.
    fn note(&mut self, of: RouterLsp, heard: Heard)
        ensures { Hears heard of self.old self.new }
    {
        match heard {
            Heard::Gone => self.gone(of),
            Heard::Named(name) => self.renamed(of, name),
            Heard::Nothing => {}
        }
    }

    /// Notes the name in an accepted report, or forgets it if the report removes its LSP. A report that removes one path
    /// of an LSP leaves its name.
    pub fn hear(&mut self, peer: u32, report: &StateReport)
        ensures { Hears (heard_in report.now) (lsp_of peer report.now) self.old self.new }
    {
        self.note(lsp_of(peer, report), heard_in(report));
    }
}
