//! What the words of a line ask to see.
ghost use Rattle.std.specs.Prelude.{◌≡◌, option_map};
ghost use Rattle.asks.specs.Lines.{ask_alone, ask_in, ask_with, bandwidth_with, ends_in, first_page, hold_in, is_question, limited_path_in, limited_priorities_in, lsp_in, page_in, path_in, path_with, priorities_in, rated_path_in};

use crate::ask::{Ask, LspId, PathLimits, PathWanted, PeerPage};
use crate::limits::limits_in;
use crate::rates::bandwidth_or_rate_in;
use crate::words::{bandwidth_in, cut_at_space, long_number_in, peer_in, plsp_in, priority_in};
use pcep_word::{Bandwidth, Ipv4, Priorities, Priority};

impl PeerPage {
    /// Gives the first page of all peers.
    pub fn first() -> PeerPage
        ensures { result ≡ first_page }
    {
        PeerPage {
            peer: None,
            from: 0,
        }
    }
}

/// Reads a peer, and gives its first page.
fn page_in(word: &str) -> Option<PeerPage>
    ensures { result ≡ page_in word.now }
{
    match peer_in(word) {
        Some(peer) => Some(PeerPage {
            peer: Some(peer),
            from: 0,
        }),
        None => None,
    }
}

/// Reads a peer, and a PLSP-ID of its own.
#[tactic(auto, unfolding(crate::specs::Lines::lsp_in))]
pub fn lsp_in(line: &str) -> Option<LspId>
    ensures { result ≡ lsp_in line.now }
{
    let (peer, plsp) = cut_at_space(line)?;
    let peer = peer_in(peer)?;
    let plsp = plsp_in(plsp)?;
    Some(LspId { peer, plsp })
}

/// Reads a setup and a holding priority.
#[tactic(auto, unfolding(crate::specs::Lines::priorities_in))]
pub fn priorities_in(line: &str) -> Option<Priorities>
    ensures { result ≡ priorities_in line.now }
{
    let (setup, hold) = cut_at_space(line)?;
    let setup = priority_in(setup)?;
    let hold = priority_in(hold)?;
    Some(Priorities::new(setup, hold))
}

/// Reads a bandwidth, with a unit if it may have one.
fn bandwidth_with(has_units: bool, word: &str) -> Option<Bandwidth>
    ensures { result ≡ bandwidth_with has_units word.now }
{
    if has_units {
        bandwidth_or_rate_in(word)
    } else {
        bandwidth_in(word)
    }
}

/// Reads two addresses and a bandwidth, which may have a unit or not, and gives what follows them.
#[tactic(auto, unfolding(crate::specs::Lines::ends_in))]
fn ends_in(has_units: bool, line: &str) -> Option<(Ipv4, Ipv4, Bandwidth, &str)>
    ensures { option_map (λ x. (x.0, x.1, x.2, x.3.now)) result ≡ ends_in has_units line.now }
{
    let (from, rest) = cut_at_space(line)?;
    let from = Ipv4::parse(from)?;
    let (to, rest) = cut_at_space(rest)?;
    let to = Ipv4::parse(to)?;
    let (bandwidth, rest) = cut_at_space(rest)?;
    let bandwidth = bandwidth_with(has_units, bandwidth)?;
    Some((from, to, bandwidth, rest))
}

/// Reads two addresses, a bandwidth, which may have a unit or not, and two priorities. Nothing is limited.
#[tactic(auto, unfolding(crate::specs::Lines::path_with))]
fn path_with(has_units: bool, line: &str) -> Option<PathWanted>
    ensures { result ≡ path_with has_units line.now }
{
    let Some((from, to, bandwidth, rest)) = ends_in(has_units, line) else {
        return None;
    };
    let priorities = priorities_in(rest)?;
    Some(PathWanted {
        from,
        to,
        bandwidth,
        priorities,
        limits: PathLimits::none(),
    })
}

/// Reads two addresses, a bandwidth in bytes per second and two priorities, as a script has them.
pub fn path_in(line: &str) -> Option<PathWanted>
    ensures { result ≡ path_in line.now }
{
    path_with(false, line)
}

/// Reads two addresses, a bandwidth with a unit or without, and two priorities, as a server's operator may give them.
pub fn rated_path_in(line: &str) -> Option<PathWanted>
    ensures { result ≡ rated_path_in line.now }
{
    path_with(true, line)
}

/// Reads a holding priority, and limits if more follows.
#[tactic(auto, unfolding(crate::specs::Lines::hold_in))]
fn hold_in(line: &str) -> Option<(Priority, PathLimits)>
    ensures { result ≡ hold_in line.now }
{
    match cut_at_space(line) {
        None => {
            let hold = priority_in(line)?;
            Some((hold, PathLimits::none()))
        }
        Some((hold, keys)) => {
            let hold = priority_in(hold)?;
            let limits = limits_in(keys)?;
            Some((hold, limits))
        }
    }
}

/// Reads a setup and a holding priority, and limits if more follows.
#[tactic(auto, unfolding(crate::specs::Lines::limited_priorities_in))]
fn limited_priorities_in(line: &str) -> Option<(Priorities, PathLimits)>
    ensures { result ≡ limited_priorities_in line.now }
{
    let (setup, rest) = cut_at_space(line)?;
    let setup = priority_in(setup)?;
    let (hold, limits) = hold_in(rest)?;
    Some((Priorities::new(setup, hold), limits))
}

/// Reads two addresses, a bandwidth with a unit or without, two priorities and limits.
#[tactic(auto, unfolding(crate::specs::Lines::limited_path_in))]
pub fn limited_path_in(line: &str) -> Option<PathWanted>
    ensures { result ≡ limited_path_in line.now }
{
    let Some((from, to, bandwidth, rest)) = ends_in(true, line) else {
        return None;
    };
    let (priorities, limits) = limited_priorities_in(rest)?;
    Some(PathWanted {
        from,
        to,
        bandwidth,
        priorities,
        limits,
    })
}

/// Reads a line of one word.
#[tactic(auto, unfolding(crate::specs::Lines::ask_alone))]
fn ask_alone(word: &str) -> Option<Ask>
    ensures { result ≡ ask_alone word.now }
{
    match word {
        "status" => Some(Ask::Status),
        "links" => Some(Ask::Links),
        "peers" => Some(Ask::Peers),
        "lsps" => Some(Ask::Lsps(PeerPage::first())),
        "tickets" => Some(Ask::Tickets),
        "better" => Some(Ask::Better(PeerPage::first())),
        "grants" => Some(Ask::Grants(PeerPage::first())),
        "tunnels" => Some(Ask::Tunnels(PeerPage::first())),
        _ => None,
    }
}

/// Reads a line by its first word and its rest.
#[tactic(auto, unfolding(crate::specs::Lines::ask_with))]
fn ask_with(word: &str, rest: &str) -> Option<Ask>
    ensures { result ≡ ask_with word.now rest.now }
{
    match word {
        "lsps" => page_in(rest).map(|page| Ask::Lsps(page)),
        "lsp" => lsp_in(rest).map(|lsp| Ask::Lsp(lsp)),
        "link" => long_number_in(rest).map(|link| Ask::Link(link)),
        "history" => long_number_in(rest).map(|last| Ask::History(last)),
        "path" => limited_path_in(rest).map(|wanted| Ask::Path(wanted)),
        "links" => long_number_in(rest).map(|link| Ask::LinkLine(link)),
        "why" => lsp_in(rest).map(|lsp| Ask::Why(lsp)),
        "better" => page_in(rest).map(|page| Ask::Better(page)),
        "without" => long_number_in(rest).map(|link| Ask::Without(link)),
        "grants" => page_in(rest).map(|page| Ask::Grants(page)),
        "tunnels" => page_in(rest).map(|page| Ask::Tunnels(page)),
        _ => None,
    }
}

/// Reads what a line asks to see; `None` if it asks for something else, or for nothing.
#[tactic(auto, unfolding(crate::specs::Lines::ask_in))]
pub fn ask_in(line: &str) -> Option<Ask>
    ensures { result ≡ ask_in line.now }
{
    match cut_at_space(line) {
        Some((word, rest)) => ask_with(word, rest),
        None => ask_alone(line),
    }
}

/// Tests whether a line with this first word asks to see something.
pub fn is_question(word: &str) -> bool
    ensures { result ≡ is_question word.now }
{
    matches!(
        word,
        "status"
            | "links"
            | "link"
            | "peers"
            | "lsps"
            | "lsp"
            | "tickets"
            | "history"
            | "path"
            | "why"
            | "better"
            | "without"
            | "grants"
            | "tunnels"
    )
}
