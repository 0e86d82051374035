//! An unsignalled path is forgotten when a path of its LSP is signalled.
use crate::context::Context;
use crate::down_paths::ReportedPath;
use crate::linkless::ReportedLook;
use crate::retries::lsp_id_of;
use history_seats::Brands;
use pcep_messages::StateReport;
use server_rules::{PathHappening, PathKey};
use shared_pce::{Event, Front};
use short_lock::acquire;
use std::sync::Wait;
use std::time::Clock;

/// The LSP-ID of a path that isn't signalled.
const UNSIGNALLED: u16 = 0;

impl<'a, R: Wait + Clock, B: Brands> Context<'a, R, B> {
    /// Tests whether anything is noted about a path.
    fn is_noted(&self, of: PathKey, path: ReportedPath) -> bool {
        if acquire(self.rt, self.words).of(of).is_some() {
            return true;
        }
        acquire(self.rt, self.upkeep.retries().down())
            .of(path)
            .is_some()
    }

    /// Forgets what is noted about an LSP's unsignalled path, after a path of the LSP was reported, if the unsignalled
    /// one no longer stands.
    pub fn end_unsignalled(&self, front: &mut Front<Event, B>, peer: u32, report: &StateReport) {
        if lsp_id_of(report) == UNSIGNALLED {
            return;
        }
        let plsp = report.plsp.number();
        let lsp = UNSIGNALLED;
        let (of, path) = (
            PathKey { peer, plsp, lsp },
            ReportedPath { peer, plsp, lsp },
        );
        if !self.is_noted(of, path) {
            return;
        }
        let look = ReportedLook {
            peer,
            plsp: report.plsp,
            lsp,
        };
        if matches!(self.shared.look(self.rt, front, &look), Ok(false)) {
            let _noted = acquire(self.rt, self.words).note(PathHappening::PathRemoved { of });
            self.upkeep.retries().path_gone(self.rt, path);
        }
    }
}
