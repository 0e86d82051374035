//! Notes what happens to LSPs that are down.
ghost use Rattle.std.specs.Prelude.{◌≡◌};
ghost use Rattle.server_base.specs.LspNames.{are_unsignalled};

use crate::down_paths::{DownPaths, ReportedPath};
use engine_core::{Call, Reply};
use lsp_words::Plsp;
use pcep_messages::StateReport;
use pcep_objects::Operational;
use server_rules::{RetryHappening, RetryTable, RouterLsp};
use shared_pce::Event;
use short_lock::acquire;
use std::alloc::{AllocError, Global};
use std::sync::atomic::{AtomicU64, Ordering};
use std::sync::{Mutex, Wait};

/// Returns the LSP-ID of the path that a report describes.
pub(crate) fn lsp_id_of(report: &StateReport) -> u16 {
    match &report.identifiers {
        Some(identifiers) => identifiers.lsp,
        None => 0,
    }
}

/// Tests whether a report is about an unsignalled LSP: its identifiers are all zero, or it has none (RFC 8231 section
/// 7.3.1).
pub(crate) fn is_unsignalled(report: &StateReport) -> bool
    ensures { result ≡ are_unsignalled report.now.identifiers }
{
    match &report.identifiers {
        Some(i) => {
            i.sender.0 == 0 && i.lsp == 0 && i.tunnel == 0 && i.extended == 0 && i.endpoint.0 == 0
        }
        None => true,
    }
}

/// What is known about LSPs without a path.
#[derive(Drop)]
pub(crate) struct Retries {
    table: Mutex<RetryTable>,
    down: Mutex<DownPaths>,
    /// How often something happened that may leave an LSP without a path.
    stirs: AtomicU64,
    /// How often it had happened when none was last seen.
    quiet_at: AtomicU64,
}

impl Retries {
    /// Makes an empty record, of a run in which nothing has happened.
    pub fn new(alloc: Global) -> Retries {
        Retries {
            table: Mutex::new(RetryTable::new(alloc)),
            down: Mutex::new(DownPaths::new(alloc)),
            stirs: AtomicU64::new(0),
            quiet_at: AtomicU64::new(0),
        }
    }

    fn stir(&self) {
        let _before = self.stirs.fetch_add(1, Ordering::SeqCst);
    }

    /// Notes what a session's call says about its router's LSPs, at this moment.
    pub fn note_call<R: Wait>(&self, rt: &R, call: &Call, now_ms: u64) {
        match (call.event.event(), &call.reply) {
            (_, Reply::Refused(_)) => {}
            (Event::Up { peer, .. }, _) => acquire(rt, &self.down).forget(*peer),
            (Event::Marker { .. }, _) => self.stir(),
            (Event::Report { peer, report }, _) => {
                self.note_path(rt, *peer, report);
                if !report.remove {
                    self.note_report(rt, *peer, report, now_ms);
                }
            }
            _ => {}
        }
    }

    /// Notes how a path was reported. If the LSP isn't signalled, no other path of it stands. If memory runs out for an
    /// LSP, it is not asked for again.
    fn note_path<R: Wait>(&self, rt: &R, peer: u32, report: &StateReport) {
        let path = ReportedPath {
            peer,
            plsp: report.plsp.number(),
            lsp: lsp_id_of(report),
        };
        let mut down = acquire(rt, &self.down);
        if is_unsignalled(report) {
            down.lsp_gone(peer, path.plsp);
        }
        if report.remove || report.operational != Operational::Down {
            down.gone(path);
        } else {
            let _noted = down.down(path, report.admin);
        }
    }

    /// Notes that an LSP was reported, and whether a path of it came up.
    fn note_report<R: Wait>(&self, rt: &R, peer: u32, report: &StateReport, now_ms: u64) {
        let of = RouterLsp {
            peer,
            plsp: report.plsp.number(),
        };
        let mut table = acquire(rt, &self.table);
        let _noted = table.note(RetryHappening::Reported { of });
        if matches!(report.operational, Operational::Up | Operational::Active) {
            let _noted = table.note(RetryHappening::CameUp { of, now_ms });
        }
        drop(table);
        if report.delegate && report.operational == Operational::Down {
            self.stir();
        }
    }

    /// Notes that a router didn't answer a grant for an LSP.
    pub fn note_no_answer<R: Wait>(&self, rt: &R, peer: u32, plsp: Plsp) -> Result<(), AllocError> {
        let plsp = plsp.number();
        let of = RouterLsp { peer, plsp };
        self.note(rt, RetryHappening::NoAnswer { of })
    }

    /// Notes what happened to an LSP or to a router.
    pub fn note<R: Wait>(&self, rt: &R, what: RetryHappening) -> Result<(), AllocError> {
        acquire(rt, &self.table).note(what)
    }

    /// Notes that the router was forgotten.
    pub fn forget<R: Wait>(&self, rt: &R, peer: u32) -> Result<(), AllocError> {
        acquire(rt, &self.down).forget(peer);
        self.note(rt, RetryHappening::Expired { peer })
    }

    /// Notes that a path no longer stands.
    pub fn path_gone<R: Wait>(&self, rt: &R, path: ReportedPath) {
        acquire(rt, &self.down).gone(path);
    }

    /// Lends the paths that were last reported DOWN.
    pub fn down(&self) -> &Mutex<DownPaths> {
        &self.down
    }

    /// Returns how often something happened that may leave an LSP without a path, or `None` if no such LSP was seen
    /// since then.
    pub fn stirs(&self) -> Option<u64> {
        let stirs = self.stirs.load(Ordering::SeqCst);
        if self.quiet_at.load(Ordering::SeqCst) == stirs {
            None
        } else {
            Some(stirs)
        }
    }

    /// Notes that no LSP without a path was seen when this many of these things had happened.
    pub fn rest_at(&self, stirs: u64) {
        self.quiet_at.store(stirs, Ordering::SeqCst);
    }

    /// Returns the LSPs that are due.
    pub fn due<R: Wait>(
        &self,
        rt: &R,
        alloc: Global,
        now_ms: u64,
        retry_ms: u64,
    ) -> Result<Vec<RouterLsp>, AllocError> {
        let table = acquire(rt, &self.table);
        table.due(alloc, now_ms, retry_ms, table.room())
    }
}
