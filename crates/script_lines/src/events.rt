//! The events that lines name.

ghost use Rattle.std.specs.Prelude.{◌≡◌, Some, IfOk, IfErr, IsSome, option_map};
ghost use Rattle.step_core.specs.declared.event.Event.TheVariants.{Return, Ask, Delete};
ghost use Rattle.commit_core.specs.declared.ticket.Purpose.TheVariants.{Update};
ghost use Rattle.asks.specs.Lines.{lsp_in};
ghost use Rattle.script_lines.specs.Commands.{expire_event, lsp_event, commit_event, constraints_of, named_in, request_event, initiate_event, rated_event, place_event, link_values_in, link_reload_in, reload_event, drop_event, operator_event_with, server_event_with, event_with, operator_event_in, event_in};

use crate::words::{link_in, name_in, offer_in};
use asks::{
    LspId, PathWanted, cut_at_space, limited_path_in, long_number_in, lsp_in, number_in, path_in,
    peer_in, rated_path_in,
};
use history_core::{Event, LinkReload, Purpose};
use lsp_base::{Constraints, OtherBounds};
use sequence::Sequence;
use std::alloc::{AllocError, Global};
use te_base::LinkValues;

#[tactic(auto, unfolding(crate::specs::Commands::expire_event))]
fn expire_event(line: &str) -> Option<Event>
    ensures { result ≡ expire_event line.now }
{
    let Some(peer) = peer_in(line) else {
        return None;
    };
    Some(Event::Expire { peer })
}

fn return_event(line: &str) -> Option<Event>
    ensures { result ≡ lsp_event (λ peer plsp. Return peer plsp) (lsp_in line.now) }
{
    match lsp_in(line) {
        Some(LspId { peer, plsp }) => Some(Event::Return { peer, plsp }),
        None => None,
    }
}

fn update_event(line: &str) -> Option<Event>
    ensures { result ≡ lsp_event (λ peer plsp. Ask peer (Update plsp)) (lsp_in line.now) }
{
    match lsp_in(line) {
        Some(LspId { peer, plsp }) => Some(Event::Ask {
            peer,
            purpose: Purpose::Update { plsp },
        }),
        None => None,
    }
}

fn delete_event(line: &str) -> Option<Event>
    ensures { result ≡ lsp_event (λ peer plsp. Delete peer plsp) (lsp_in line.now) }
{
    match lsp_in(line) {
        Some(LspId { peer, plsp }) => Some(Event::Delete { peer, plsp }),
        None => None,
    }
}

/// Reads the number of a ticket, and what its search answered. Only a line that names both takes memory.
#[tactic(auto, unfolding(crate::specs::Commands::commit_event))]
fn commit_event(alloc: Global, line: &str) -> Result<Option<Event>, AllocError>
    ensures event { IfOk result (λ event. event ≡ commit_event line.now) }
    ensures good { IfErr result (λ _. IsSome (commit_event line.now)) }
{
    let Some((ticket, offer)) = cut_at_space(line) else {
        return Ok(None);
    };
    let Some(ticket) = long_number_in(ticket) else {
        return Ok(None);
    };
    match offer_in(alloc, offer)? {
        Some(offer) => Ok(Some(Event::Commit { ticket, offer })),
        None => Ok(None),
    }
}

/// Makes the constraints of a path that is asked for.
fn constraints_of(wanted: PathWanted) -> Constraints
    ensures { result ≡ constraints_of wanted }
{
    Constraints {
        source: Some(wanted.from),
        destination: Some(wanted.to),
        bandwidth: wanted.bandwidth,
        priorities: wanted.priorities,
        colours: wanted.limits.colours,
        minimise: wanted.limits.minimise,
        bound: wanted.limits.max_cost,
        hop_bound: wanted.limits.max_hops,
        other_bounds: OtherBounds {
            igp: None,
            te: None,
        },
        local_protection: false,
    }
}

/// Makes a request for a path, to set up an LSP of this name. Only a valid name and a path take memory.
fn request_event(
    alloc: Global,
    peer: u32,
    name: &str,
    wanted: Option<PathWanted>,
) -> Result<Option<Event>, AllocError>
    ensures event { IfOk result (λ event. event ≡ request_event peer name.now wanted) }
    ensures good { IfErr result (λ _. IsSome (request_event peer name.now wanted)) }
{
    let Some(wanted) = wanted else {
        return Ok(None);
    };
    match name_in(alloc, name)? {
        Some(name) => Ok(Some(Event::Ask {
            peer,
            purpose: Purpose::Initiate {
                name,
                constraints: constraints_of(wanted),
            },
        })),
        None => Ok(None),
    }
}

/// Reads a peer and a name, and gives what follows them.
#[tactic(auto, unfolding(crate::specs::Commands::named_in))]
fn named_in(line: &str) -> Option<(u32, &str, &str)>
    ensures { option_map (λ x. (x.0, x.1.now, x.2.now)) result ≡ named_in line.now }
{
    let (peer, rest) = cut_at_space(line)?;
    let peer = peer_in(peer)?;
    let (name, rest) = cut_at_space(rest)?;
    Some((peer, name, rest))
}

/// Reads a peer, a name and what is asked of the path. Only a line that names all of them takes memory.
#[tactic(auto, unfolding(crate::specs::Commands::initiate_event))]
fn initiate_event(alloc: Global, line: &str) -> Result<Option<Event>, AllocError>
    ensures event { IfOk result (λ event. event ≡ initiate_event line.now) }
    ensures good { IfErr result (λ _. IsSome (initiate_event line.now)) }
{
    match named_in(line) {
        Some((peer, name, rest)) => request_event(alloc, peer, name, path_in(rest)),
        None => Ok(None),
    }
}

/// Reads the same for a server's operator: the bandwidth may have a unit.
#[tactic(auto, unfolding(crate::specs::Commands::rated_event))]
fn rated_event(alloc: Global, line: &str) -> Result<Option<Event>, AllocError>
    ensures event { IfOk result (λ event. event ≡ rated_event line.now) }
    ensures good { IfErr result (λ _. IsSome (rated_event line.now)) }
{
    match named_in(line) {
        Some((peer, name, rest)) => request_event(alloc, peer, name, rated_path_in(rest)),
        None => Ok(None),
    }
}

/// Reads the same, with limits of the path.
#[tactic(auto, unfolding(crate::specs::Commands::place_event))]
fn place_event(alloc: Global, line: &str) -> Result<Option<Event>, AllocError>
    ensures event { IfOk result (λ event. event ≡ place_event line.now) }
    ensures good { IfErr result (λ _. IsSome (place_event line.now)) }
{
    match named_in(line) {
        Some((peer, name, rest)) => request_event(alloc, peer, name, limited_path_in(rest)),
        None => Ok(None),
    }
}

/// Reads two metrics, a colour and a bandwidth, each in its range.
#[tactic(auto, unfolding(crate::specs::Commands::link_values_in))]
fn link_values_in(line: &str) -> Option<LinkValues>
    ensures { result ≡ link_values_in line.now }
{
    let (igp, rest) = cut_at_space(line)?;
    let igp = long_number_in(igp)?;
    let (te, rest) = cut_at_space(rest)?;
    let te = long_number_in(te)?;
    let (colour, reservable) = cut_at_space(rest)?;
    let colour = long_number_in(colour)?;
    let reservable = long_number_in(reservable)?;
    LinkValues::new(igp, te, colour, reservable)
}

/// Reads the number of a link, and its values.
#[tactic(auto, unfolding(crate::specs::Commands::link_reload_in))]
fn link_reload_in(line: &str) -> Option<LinkReload>
    ensures { result ≡ link_reload_in line.now }
{
    let (link, values) = cut_at_space(line)?;
    let link = link_in(link)?;
    let values = link_values_in(values)?;
    Some(LinkReload { link, values })
}

/// Reads a reload of one link. Only a line that names it and its values takes memory.
#[tactic(auto, unfolding(crate::specs::Commands::reload_event))]
fn reload_event(alloc: Global, line: &str) -> Result<Option<Event>, AllocError>
    ensures event { IfOk result (λ event. event ≡ reload_event line.now) }
    ensures good { IfErr result (λ _. IsSome (reload_event line.now)) }
{
    let Some(entry) = link_reload_in(line) else {
        return Ok(None);
    };
    let links = vec![in alloc; entry]?;
    Ok(Some(Event::Reload {
        links: Sequence::from_vec(links),
    }))
}

/// Reads a peer, and the SRP-ID of a request to it. The grant or the deletion that has it ends.
#[tactic(auto, unfolding(crate::specs::Commands::drop_event))]
fn drop_event(line: &str) -> Option<Event>
    ensures { result ≡ drop_event line.now }
{
    let (peer, srp) = cut_at_space(line)?;
    let peer = peer_in(peer)?;
    let srp = number_in(srp)?;
    Some(Event::Refused { peer, srp })
}

/// Reads the event that an operator of a script or of a server may ask for, from a line's first word and its rest. Only
/// a line that names one takes memory.
#[tactic(auto, unfolding(crate::specs::Commands::operator_event_with))]
fn operator_event_with(alloc: Global, word: &str, rest: &str) -> Result<Option<Event>, AllocError>
    ensures event { IfOk result (λ event. event ≡ operator_event_with word.now rest.now) }
    ensures good { IfErr result (λ _. IsSome (operator_event_with word.now rest.now)) }
{
    match word {
        "return" => Ok(return_event(rest)),
        "update" => Ok(update_event(rest)),
        "delete" => Ok(delete_event(rest)),
        "initiate" => initiate_event(alloc, rest),
        _ => Ok(None),
    }
}

/// Reads the event that a server's operator may ask for, from a line's first word and its rest. Only a line that names
/// one takes memory.
#[tactic(auto, unfolding(crate::specs::Commands::server_event_with))]
fn server_event_with(alloc: Global, word: &str, rest: &str) -> Result<Option<Event>, AllocError>
    ensures event { IfOk result (λ event. event ≡ server_event_with word.now rest.now) }
    ensures good { IfErr result (λ _. IsSome (server_event_with word.now rest.now)) }
{
    match word {
        "drop" => Ok(drop_event(rest)),
        "initiate" => rated_event(alloc, rest),
        "place" => place_event(alloc, rest),
        _ => operator_event_with(alloc, word, rest),
    }
}

/// Reads the event that a script may submit, from a line's first word and its rest. Only a line that names one takes
/// memory.
#[tactic(auto, unfolding(crate::specs::Commands::event_with))]
pub(crate) fn event_with(alloc: Global, word: &str, rest: &str) -> Result<Option<Event>, AllocError>
    ensures event { IfOk result (λ event. event ≡ event_with word.now rest.now) }
    ensures good { IfErr result (λ _. IsSome (event_with word.now rest.now)) }
{
    match word {
        "expire" => Ok(expire_event(rest)),
        "commit" => commit_event(alloc, rest),
        "reload" => reload_event(alloc, rest),
        _ => operator_event_with(alloc, word, rest),
    }
}

/// Reads the event that the line of a server's operator names; `None` for a bad line. Only a line that names one takes
/// memory.
#[tactic(auto, unfolding(crate::specs::Commands::operator_event_in))]
pub fn operator_event_in(alloc: Global, line: &str) -> Result<Option<Event>, AllocError>
    ensures event { IfOk result (λ event. event ≡ operator_event_in line.now) }
    ensures good { IfErr result (λ _. IsSome (operator_event_in line.now)) }
{
    match cut_at_space(line) {
        Some((word, rest)) => server_event_with(alloc, word, rest),
        None => Ok(None),
    }
}

/// Reads the event that a script's line names; `None` for a bad line. Only a line that names one takes memory.
#[tactic(auto, unfolding(crate::specs::Commands::event_in))]
pub(crate) fn event_in(alloc: Global, line: &str) -> Result<Option<Event>, AllocError>
    ensures event { IfOk result (λ event. event ≡ event_in line.now) }
    ensures good { IfErr result (λ _. IsSome (event_in line.now)) }
{
    match cut_at_space(line) {
        Some((word, rest)) => event_with(alloc, word, rest),
        None => Ok(None),
    }
}
