//! A question that an operator asks, and how its answer is written.
ghost use Rattle.std.specs.Prelude.{IfOk};
ghost use Rattle.pce_view.specs.Questions.{AnswersAs};

use crate::heard::{Heard, Said};
use asks::Ask;
use database_looks::Look;
use server_counts::{Mark, PeerState, ResidualRow};
use std::alloc::{AllocError, Global};
use table_text::add_aligned;

/// For whom a text is.
#[derive(Clone, Copy)]
pub enum Form {
    /// For people: columns.
    Table,
    /// For programs: one document of JSON (RFC 8259).
    Json,
}

/// What the server knows beside its database.
#[derive(Clone, Copy)]
pub struct ServerInfo<'a> {
    pub version: &'a str,
    /// The toolchain's logic on which the program's proofs rest.
    pub logic: &'a str,
    /// The hash of the commit of the program's sources. Empty if it isn't known.
    pub commit: &'a str,
    /// Since the run began.
    pub uptime_ms: u64,
    /// Since when each peer is up or down, in milliseconds since the run began.
    pub peer_states: &'a [(u32, PeerState)],
    /// How many steps there were at which moments, in milliseconds since the run began.
    pub marks: &'a [Mark],
    /// What the last steps that brought paths left of their links.
    pub residuals: &'a [ResidualRow],
}

/// A question: a look at a database, and how an operator is shown what it sees. Each has a module under the name of its
/// line.
pub trait Question: Look {
    ghost use Rattle.std.specs.Prelude.{◌≡◌, ℕ, List, Option, None, IfOk};
    ghost use Rattle.asks.specs.declared.ask.Ask.{Ask};
    ghost use Rattle.pce_view.specs.declared.heard.Heard.{Heard};
    ghost use Rattle.pce_view.specs.declared.question.ServerInfo.{ServerInfo};

    /// A reader of JSON reads the text as what was seen, with what routers said of it.
    ghost reads: { Self → ServerInfo → Heard → Self.Seen → List ℕ → Type 0 };

    /// The ask for the next page, if one follows. Most questions have no pages.
    ghost followed_by: { Self → Self.Seen → Option Ask } = { λ _ _. None };

    /// Takes over what routers said of what was seen. Most questions have no use for it.
    fn hear(
        &self,
        _said: Said<'_>,
        _seen: &Self::Seen,
        _heard: &mut Heard,
    ) -> Result<(), AllocError> {
        Ok(())
    }

    /// Writes what was seen as JSON.
    fn json(
        &self,
        alloc: Global,
        info: &ServerInfo<'_>,
        heard: &Heard,
        seen: &Self::Seen,
    ) -> Result<Vec<u8>, AllocError>
        ensures { IfOk result (λ text. reads self.now info.now heard.now seen.now text.items) };

    /// Adds what was seen in rows of cells, for people.
    fn rows(
        &self,
        alloc: Global,
        text: &mut String,
        info: &ServerInfo<'_>,
        heard: &Heard,
        seen: &Self::Seen,
    ) -> Result<(), AllocError>;

    /// Gives the ask for the next page, if one follows what was seen.
    fn next(&self, seen: &Self::Seen) -> Option<Ask>
        ensures { result ≡ followed_by self.now seen.now };
}

/// Writes what was seen in columns.
fn columns_text<Q: Question>(
    alloc: Global,
    info: &ServerInfo<'_>,
    heard: &Heard,
    question: &Q,
    seen: &Q::Seen,
) -> Result<Vec<u8>, AllocError> {
    let mut rows = String::new(alloc);
    question.rows(alloc, &mut rows, info, heard, seen)?;
    let mut text = String::new(alloc);
    add_aligned(alloc, &mut text, &rows)?;
    Ok(text.into_bytes())
}

/// Writes what was seen to a question. Paths that are asked for are searched for here.
pub fn answer_text<Q: Question>(
    alloc: Global,
    form: Form,
    info: &ServerInfo<'_>,
    heard: &Heard,
    question: &Q,
    seen: &Q::Seen,
) -> Result<Vec<u8>, AllocError>
    ensures { IfOk result (λ text. AnswersAs (Q.reads question.now) form info.now heard.now seen.now text.items) }
{
    match form {
        Form::Json => question.json(alloc, info, heard, seen),
        Form::Table => columns_text(alloc, info, heard, question, seen),
    }
}
