//! The tables of what was read, over a network.
ghost use Rattle.std.specs.Prelude.{◌≡◌, ◌==◌, ◌&&◌, ◌++◌, [], true, false, length, is_some, IfOk, IfSome};
ghost use Rattle.std.specs.List.{list_all, list_any};
ghost use Rattle.te_base.specs.Values.{with_all_values};
ghost use Rattle.lsp_base.specs.Lsps.{is_path_of, no_lsps};
ghost use Rattle.lsp_base.specs.Grants.{is_unbound_grant};
ghost use Rattle.ticket_table.specs.Tickets.{has_tries_left};
ghost use Rattle.step_core.specs.Bases.{state_over};
ghost use Rattle.step_core.specs.Standing.{each_joins, is_named, is_named_part, is_new_part, is_new_removal, may_have_lsps, may_have_name, may_have_names, may_have_path, may_have_paths, may_have_peer, may_have_record, may_have_records, may_have_tickets, stands};

use super::Tables;
use crate::base::Base;
use crate::names::AwaitedName;
use crate::network::Network;
use crate::peer::Peer;
use crate::peer_list::PeerList;
use commit_core::Ticket;
use keyed_list::Test;
use lsp_base::{LspBase, PATH_LIMIT, Part, Path, Record, is_unbound};
use lsp_words::Plsp;
use std::alloc::{AllocError, Global};
use te_base::{LinkValues, TeBase};
use ticket_table::TicketTable;

/// Gives each link the values at its number.
fn with_values(mut te: TeBase, values: &[LinkValues]) -> TeBase
    requires { length values.now ≡ length te.links }
    ensures { result ≡ with_all_values te values.now }
{
    for link in 0..values.len() {
        te.set_values(link, values[link]);
    }
    te
}

/// Passes each path.
#[derive(Drop)]
struct AnyPath;

impl Test<Path> for AnyPath {
    ghost use Rattle.std.specs.Prelude.{true};

    ghost passes = { λ s x. true };

    fn passes(&self, _path: &Path) -> bool {
        true
    }
}

/// Passes a grant of the peer under the SRP-ID that no report has bound yet.
#[derive(Drop)]
struct UnboundAs {
    peer: u32,
    srp: u32,
}

impl Test<Path> for UnboundAs {
    ghost use Rattle.std.specs.Prelude.{Some};
    ghost use Rattle.lsp_base.specs.Grants.{is_unbound_grant};

    ghost passes = { λ s x. is_unbound_grant s.peer (Some s.srp) x };

    fn passes(&self, path: &Path) -> bool {
        is_unbound(path, self.peer, Some(self.srp))
    }
}

/// Tests whether the path isn't a grant, or no grant or removal of the peer has its SRP-ID, and its LSP has no grant
/// yet.
fn is_new_part(lsps: &LspBase, path: &Path) -> bool
    ensures { result ≡ is_new_part lsps.now.content path.now path.now.part }
{
    match path.part {
        Part::Reported(_) => true,
        Part::Granted(srp) => {
            !lsps.has_srp(path.peer, srp)
                && (path.plsp.number() == 0 || !lsps.has_grant(path.peer, path.plsp))
        }
    }
}

fn may_have_path(lsps: &LspBase, path: &Path) -> bool
    ensures { result ≡ may_have_path lsps.now.content path.now }
{
    lsps.paths().len() < PATH_LIMIT && is_new_part(lsps, path)
}

/// Adds paths in order, until one may not join those before it. Returns whether all of them may.
fn add_paths(network: &mut Network, paths: Vec<Path>) -> Result<bool, AllocError>
    ensures decided { IfOk result (λ all. all ≡ may_have_paths network.old.base paths.items) }
    ensures added { IfOk result (λ all. all ≡ true
        → network.new ≡ record network.old { base = record network.old.base { paths = network.old.base.paths ++ paths.items } }) }
{
    for path in paths {
        if !may_have_path(network.lsps(), &path) {
            return Ok(false);
        }
        network.add_path(path)?;
    }
    Ok(true)
}

/// Tests whether no removal is awaited, or no grant or removal of the peer has its SRP-ID.
fn is_new_removal(lsps: &LspBase, peer: u32, removing: Option<u32>) -> bool
    ensures { result ≡ is_new_removal lsps.now.content peer removing }
{
    match removing {
        Some(srp) => !lsps.has_srp(peer, srp),
        None => true,
    }
}

/// Tests whether a path of the LSP is known.
fn has_path(lsps: &LspBase, peer: u32, plsp: Plsp) -> bool
    ensures { result ≡ list_any (is_path_of peer plsp) lsps.now.content.paths }
{
    lsps.any_path_of_lsp(peer, plsp, &AnyPath)
}

fn may_have_record(lsps: &LspBase, known: &Record) -> bool
    ensures { result ≡ may_have_record lsps.now.content known.now }
{
    known.plsp.number() != 0
        && lsps.lsp(known.peer, known.plsp).is_none()
        && has_path(lsps, known.peer, known.plsp)
        && is_new_removal(lsps, known.peer, known.lsp.removing)
}

/// Adds records in order, until one may not join those before it. Returns whether all of them may.
fn add_records(network: &mut Network, records: Vec<Record>) -> Result<bool, AllocError>
    ensures decided { IfOk result (λ all. all ≡ may_have_records network.old.base records.items) }
    ensures added { IfOk result (λ all. all ≡ true
        → network.new ≡ record network.old { base = record network.old.base { records = network.old.base.records ++ records.items } }) }
{
    for known in records {
        if !may_have_record(network.lsps(), &known) {
            return Ok(false);
        }
        network.add_record(known)?;
    }
    Ok(true)
}

/// Tests whether the peer's grant of the SRP-ID exists and no report has bound it yet.
fn has_unbound(lsps: &LspBase, peer: u32, srp: u32) -> bool
    ensures { result ≡ list_any (is_unbound_grant peer (Some srp)) lsps.now.content.paths }
{
    let unbound = UnboundAs { peer, srp };
    lsps.any_path_of_lsp(peer, Plsp::new(0), &unbound)
}

fn may_have_name(network: &Network, name: &AwaitedName) -> bool
    ensures { result ≡ may_have_name network.now.base.paths network.now.names name.now }
{
    network.name_of_grant(name.peer, name.srp).is_none()
        && has_unbound(network.lsps(), name.peer, name.srp)
}

/// Adds names in order, until one may not join those before it. Returns whether all of them may.
fn add_names(network: &mut Network, names: Vec<AwaitedName>) -> Result<bool, AllocError>
    ensures decided { IfOk result (λ all. all ≡ each_joins (may_have_name network.old.base.paths) network.old.names names.items) }
    ensures added { IfOk result (λ all. all ≡ true → network.new ≡ record network.old { names = network.old.names ++ names.items }) }
{
    for name in names {
        if !may_have_name(network, &name) {
            return Ok(false);
        }
        network.add_name(name)?;
    }
    Ok(true)
}

/// Tests whether a name is held for the path, if it is a grant that no report has bound yet.
fn is_named(network: &Network, path: &Path) -> bool
    ensures { result ≡ is_named network.now.names path.now }
{
    match path.part {
        Part::Reported(_) => true,
        Part::Granted(srp) => {
            path.plsp.number() != 0 || network.name_of_grant(path.peer, srp).is_some()
        }
    }
}

fn are_all_named(network: &Network) -> bool
    ensures { result ≡ list_all (is_named network.now.names) network.now.base.paths }
{
    network
        .lsps()
        .paths()
        .iter()
        .all(|path| is_named(network, path))
}

/// Adds what was read of the LSPs to a network of which nothing was reported. Returns whether it may stand.
fn fill(
    network: &mut Network,
    paths: Vec<Path>,
    records: Vec<Record>,
    names: Vec<AwaitedName>,
) -> Result<bool, AllocError>
    requires lsps { network.old.base ≡ no_lsps }
    requires names { network.old.names ≡ [] }
    ensures decided { IfOk result (λ all. all ≡ may_have_lsps paths.items records.items names.items) }
    ensures filled { IfOk result (λ all. all ≡ true
        → network.new ≡ record { te = network.old.te; base = record { paths = paths.items; records = records.items }; names = names.items }) }
{
    if !add_paths(network, paths)? {
        return Ok(false);
    }
    if !add_records(network, records)? {
        return Ok(false);
    }
    if !add_names(network, names)? {
        return Ok(false);
    }
    Ok(are_all_named(network))
}

fn may_have_peer(peers: &PeerList, peer: &Peer) -> bool
    ensures { result ≡ may_have_peer peers.now peer.now }
{
    peers.find(peer.number).is_none()
}

/// Adds peers in order, until one is listed already. Returns whether all of them are listed once.
fn add_peers(listed: &mut PeerList, peers: Vec<Peer>) -> Result<bool, AllocError>
    ensures decided { IfOk result (λ all. all ≡ each_joins may_have_peer listed.old peers.items) }
    ensures added { IfOk result (λ all. all ≡ true → listed.new ≡ listed.old ++ peers.items) }
{
    for peer in peers {
        if !may_have_peer(listed, &peer) {
            return Ok(false);
        }
        listed.add(peer)?;
    }
    Ok(true)
}

/// Tests whether the ticket was searched for at most four times, and fewer times if it waits.
fn has_tries_left(ticket: &Ticket) -> bool
    ensures { result ≡ has_tries_left ticket.now }
{
    if ticket.taken {
        ticket.tries <= 4
    } else {
        ticket.tries < 4
    }
}

/// Adds tickets in order, until one may not come after those before it, and then sets the last number. Returns whether
/// all of this may be.
fn add_tickets(table: &mut TicketTable, tickets: Vec<Ticket>, last: u64) -> Result<bool, AllocError>
    ensures decided { IfOk result (λ all. all ≡ may_have_tickets last table.old.last tickets.items) }
    ensures added { IfOk result (λ all. all ≡ true → table.new ≡ record { tickets = table.old.tickets ++ tickets.items; last = last }) }
{
    for ticket in tickets {
        if ticket.id <= table.last() || !has_tries_left(&ticket) {
            return Ok(false);
        }
        table.push(ticket)?;
    }
    if last < table.last() {
        return Ok(false);
    }
    table.skip_to(last);
    Ok(true)
}

/// Makes the network with these values of its links and with what was read of the LSPs. `None` if it may not stand.
fn network_over(
    alloc: Global,
    te: TeBase,
    values: &[LinkValues],
    paths: Vec<Path>,
    records: Vec<Record>,
    names: Vec<AwaitedName>,
) -> Result<Option<Network>, AllocError>
    ensures decided { IfOk result (λ made. is_some made ≡ (length values.now == length te.links && may_have_lsps paths.items records.items names.items)) }
    ensures made { IfOk result (λ made. IfSome made (λ network.
        network ≡ record { te = with_all_values te values.now; base = record { paths = paths.items; records = records.items }; names = names.items })) }
{
    if values.len() != te.links().len() {
        return Ok(None);
    }
    let mut network = Network::new(alloc, with_values(te, values))?;
    if fill(&mut network, paths, records, names)? {
        Ok(Some(network))
    } else {
        Ok(None)
    }
}

/// Makes the list of the peers. `None` if one is listed twice.
fn peers_over(alloc: Global, peers: Vec<Peer>) -> Result<Option<PeerList>, AllocError>
    ensures decided { IfOk result (λ made. is_some made ≡ each_joins may_have_peer [] peers.items) }
    ensures made { IfOk result (λ made. IfSome made (λ listed. listed ≡ peers.items)) }
{
    let mut listed = PeerList::new(alloc)?;
    if add_peers(&mut listed, peers)? {
        Ok(Some(listed))
    } else {
        Ok(None)
    }
}

/// Makes the table of the tickets, after which the last number is this one. `None` if their numbers don't rise up to
/// it, or if one was searched for too often.
fn tickets_over(
    alloc: Global,
    tickets: Vec<Ticket>,
    last: u64,
) -> Result<Option<TicketTable>, AllocError>
    ensures decided { IfOk result (λ made. is_some made ≡ may_have_tickets last 0 tickets.items) }
    ensures made { IfOk result (λ made. IfSome made (λ table. table ≡ record { tickets = tickets.items; last = last })) }
{
    let mut table = TicketTable::new(alloc);
    if add_tickets(&mut table, tickets, last)? {
        Ok(Some(table))
    } else {
        Ok(None)
    }
}

impl Tables {
    /// Makes the tables of what was read, over a network of these nodes and links. `None` if it may not stand.
    pub(super) fn over(alloc: Global, te: TeBase, base: Base) -> Result<Option<Tables>, AllocError>
        ensures decided { IfOk result (λ made. is_some made ≡ stands te base) }
        ensures made { IfOk result (λ made. IfSome made (λ tables. tables ≡ state_over te base)) }
    {
        let Base {
            values,
            paths,
            records,
            names,
            peers,
            tickets,
            changes,
            last_session,
            last_ticket,
        } = base;
        let Some(network) = network_over(
            alloc,
            te,
            values.as_slice(),
            paths.into_vec(),
            records.into_vec(),
            names.into_vec(),
        )?
        else {
            return Ok(None);
        };
        let Some(peers) = peers_over(alloc, peers.into_vec())? else {
            return Ok(None);
        };
        let Some(tickets) = tickets_over(alloc, tickets.into_vec(), last_ticket)? else {
            return Ok(None);
        };
        Ok(Some(Tables {
            alloc,
            network,
            peers,
            tickets,
            changes,
            last_session,
        }))
    }
}
