//! What routers said in their reports beside what the state keeps.
use history_core::{Brief, Database, Event, Step};
use lsp_base::Part;
use path_sayings::{path_event, replaced_in};
use server_rules::{PathHappening, PathKey, PathWords, RouterLsp};
use std::alloc::AllocError;

/// The LSP-ID of a path that isn't signalled.
const UNSIGNALLED: u16 = 0;

/// Returns the event of a step, unless it was refused: then it says nothing.
fn accepted(step: &Step) -> Option<&Event> {
    match step.brief {
        Brief::Refused(_) => None,
        _ => Some(step.event.event()),
    }
}

/// Returns what an event says about paths. Once its router is forgotten, nothing that it said counts.
fn happening_of(event: &Event) -> Option<PathHappening> {
    match event {
        Event::Expire { peer } => Some(PathHappening::Expired { peer: *peer }),
        _ => path_event(event),
    }
}

/// Returns the unsignalled path of the LSP of which a path was reported.
fn unsignalled(what: PathHappening) -> Option<PathKey> {
    match what {
        PathHappening::Reported { of, .. } => Some(PathKey {
            peer: of.peer,
            plsp: of.plsp,
            lsp: UNSIGNALLED,
        }),
        _ => None,
    }
}

/// Tests whether a reported path stands.
fn stands(database: &Database, of: PathKey) -> bool {
    database.state().lsps().paths().iter().any(|path| path.peer == of.peer
        && path.plsp.number() == of.plsp
        && path.part == Part::Reported(of.lsp))
}

/// Forgets what is noted about an LSP's unsignalled path, after a path of the LSP was reported, if the unsignalled one no
/// longer stands.
fn end_unsignalled(
    words: &mut PathWords,
    database: &Database,
    what: PathHappening,
) -> Result<(), AllocError> {
    let Some(of) = unsignalled(what) else {
        return Ok(());
    };
    if words.of(of).is_none() || stands(database, of) {
        return Ok(());
    }
    words.note(PathHappening::PathRemoved { of })
}

/// Forgets what is noted about the paths of an LSP, if there is one.
fn end_lsp(words: &mut PathWords, of: Option<RouterLsp>) -> Result<(), AllocError> {
    match of {
        Some(of) => words.note(PathHappening::LspRemoved { of }),
        None => Ok(()),
    }
}

fn note_event(words: &mut PathWords, database: &Database, event: &Event) -> Result<(), AllocError> {
    end_lsp(words, replaced_in(event))?;
    match happening_of(event) {
        Some(what) => {
            words.note(what)?;
            end_unsignalled(words, database, what)
        }
        None => Ok(()),
    }
}

/// Notes what the last step says about paths, as a server does.
pub(crate) fn note_last(words: &mut PathWords, database: &Database) -> Result<(), AllocError> {
    let Some(step) = database.history().last() else {
        return Ok(());
    };
    match accepted(step) {
        Some(event) => note_event(words, database, event),
        None => Ok(()),
    }
}
