//! What is shown of an LSP and of its paths beside what the state has (`specs/States.antt`).
ghost use Rattle.std.specs.Prelude.{◌≡◌, option_map};
ghost use Rattle.server_rules.specs.declared.path_word.RsvpError.{RsvpError};
ghost use Rattle.server_rules.specs.declared.peer_errors.PcErr.{PcErr};
ghost use Rattle.pce_view.specs.States.{error_of, gap_after, gap_at, gap_before, gaps_at, is_partly_placed, lsp_notes, noted_lsp, path_notes, rsvp_of};

use crate::heard::Heard;
use crate::states::{LspState, operational_in, state_of};
use pce_seen::{Gap, KnownLsp};
use pcep_word::Ipv4;
use sequence::Sequence;
use server_rules::{Operational, PathWord, PcErr, RouterLsp, RsvpError};

/// What is shown of a path.
#[derive(Clone, Copy)]
pub(crate) struct PathNotes {
    /// In which state its router reports it.
    pub operational: Option<Operational>,
    /// The LSP-ERROR-CODE of the report (RFC 8231 section 7.3.3).
    pub error_code: Option<u64>,
    /// The node, the code and the value of its RSVP-ERROR-SPEC (RFC 8231 section 7.3.4).
    pub rsvp_node: Option<Ipv4>,
    pub rsvp_code: Option<u64>,
    pub rsvp_value: Option<u64>,
    /// The link before its first gap.
    pub gap_before: Option<u64>,
    /// The link after which it has its first gap.
    pub gap_after: Option<u64>,
}

/// What is shown of an LSP.
#[derive(Clone, Copy)]
pub(crate) struct LspNotes {
    pub state: LspState,
    /// A path of it has a gap.
    pub is_partly_placed: bool,
    /// The PCErr by which its router last refused what was asked of it.
    pub refusal: Option<PcErr>,
    pub refusal_type: Option<u64>,
    pub refusal_value: Option<u64>,
}

fn gap_before(gap: Option<Gap>) -> Option<u64>
    ensures { result ≡ gap_before gap }
{
    match gap {
        Some(Gap::Before(link)) => Some(link as u64),
        Some(Gap::After(_)) | None => None,
    }
}

fn gap_after(gap: Option<Gap>) -> Option<u64>
    ensures { result ≡ gap_after gap }
{
    match gap {
        Some(Gap::After(link)) => Some(link as u64),
        Some(Gap::Before(_)) | None => None,
    }
}

fn error_of(word: Option<PathWord>) -> Option<u64>
    ensures { result ≡ error_of word }
{
    match word?.error_code {
        Some(code) => Some(code as u64),
        None => None,
    }
}

fn rsvp_of(word: Option<PathWord>) -> Option<RsvpError>
    ensures { result ≡ rsvp_of word }
{
    word?.rsvp_error
}

fn rsvp_node(error: Option<RsvpError>) -> Option<Ipv4>
    ensures { result ≡ option_map (λ (e : RsvpError). e.node) error }
{
    match error {
        Some(error) => Some(Ipv4(error.node)),
        None => None,
    }
}

fn rsvp_code(error: Option<RsvpError>) -> Option<u64>
    ensures { result ≡ option_map (λ (e : RsvpError). e.code) error }
{
    match error {
        Some(error) => Some(error.code as u64),
        None => None,
    }
}

fn rsvp_value(error: Option<RsvpError>) -> Option<u64>
    ensures { result ≡ option_map (λ (e : RsvpError). e.value) error }
{
    match error {
        Some(error) => Some(error.value as u64),
        None => None,
    }
}

/// Returns what is shown of a path of which this is said, and which has this gap.
pub(crate) fn path_notes(word: Option<PathWord>, gap: Option<Gap>) -> PathNotes
    ensures { result ≡ path_notes word gap }
{
    let error = rsvp_of(word);
    PathNotes {
        operational: operational_in(word),
        error_code: error_of(word),
        rsvp_node: rsvp_node(error),
        rsvp_code: rsvp_code(error),
        rsvp_value: rsvp_value(error),
        gap_before: gap_before(gap),
        gap_after: gap_after(gap),
    }
}

fn error_type(error: Option<PcErr>) -> Option<u64>
    ensures { result ≡ option_map (λ (e : PcErr). e.kind) error }
{
    match error {
        Some(error) => Some(error.kind as u64),
        None => None,
    }
}

fn error_value(error: Option<PcErr>) -> Option<u64>
    ensures { result ≡ option_map (λ (e : PcErr). e.value) error }
{
    match error {
        Some(error) => Some(error.value as u64),
        None => None,
    }
}

fn noted_lsp(state: LspState, is_partly_placed: bool, refusal: Option<PcErr>) -> LspNotes
    ensures { result ≡ noted_lsp state is_partly_placed refusal }
{
    LspNotes {
        state,
        is_partly_placed,
        refusal,
        refusal_type: error_type(refusal),
        refusal_value: error_value(refusal),
    }
}

/// Tests whether one of the paths has a gap.
fn is_partly_placed(gaps: &[Option<Gap>]) -> bool
    ensures { result ≡ is_partly_placed gaps.now }
{
    gaps.iter().any(|gap| gap.is_some())
}

/// Returns what is shown of an LSP whose paths have these gaps.
pub(crate) fn lsp_notes(heard: &Heard, lsp: &KnownLsp, gaps: &[Option<Gap>]) -> LspNotes
    ensures { result ≡ lsp_notes heard.now lsp.now gaps.now }
{
    let of = RouterLsp {
        peer: lsp.known.peer,
        plsp: lsp.known.plsp.number(),
    };
    noted_lsp(
        state_of(&heard.words, lsp.paths.as_slice()),
        is_partly_placed(gaps),
        heard.errors.of(of),
    )
}

/// Returns the gap of the path at a place.
pub(crate) fn gap_at(gaps: &[Option<Gap>], place: usize) -> Option<Gap>
    ensures { result ≡ gap_at gaps.now place }
{
    match gaps.get(place) {
        Some(gap) => *gap,
        None => None,
    }
}

/// Returns the gaps of the LSP at a place.
pub(crate) fn gaps_at(gaps: &[Sequence<Option<Gap>>], place: usize) -> &[Option<Gap>]
    ensures { result.now ≡ gaps_at gaps.now place }
{
    match gaps.get(place) {
        Some(gaps) => gaps.as_slice(),
        None => &[],
    }
}
