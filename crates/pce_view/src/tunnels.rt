//! `tunnels`: the tunnels of LSPs with their paths and what they hold, in pages.
ghost use Rattle.std.specs.Prelude.{◌≡◌, ◌++◌, Some, OnOk};
ghost use Rattle.json.specs.Tree.{json_tokens, members_tokens};
ghost use Rattle.json.specs.Json.{array};
ghost use Rattle.pce_view.specs.Tunnels.{endpoint_of, extended_of, held_json, held_items, lists_members, own_at, path_items, path_json, tunnel_items, tunnel_json, tunnel_of, tunnels_json, SeesTunnels};

use crate::closing::closed;
use crate::columns::{add_end, add_number};
use crate::fields::{Field, Member, begin_with, put_members, put_object};
use crate::heard::Heard;
use crate::question::{Question, ServerInfo};
use asks::{Ask, PeerPage};
use database_looks::{Look, own_of_each, page_at};
use history_core::Database;
use json::Writer;
use lsp_base::{Path, Tunnel};
use pce_seen::{KnownLsp, LspPage};
use pcep_word::Ipv4;
use std::alloc::{AllocError, Global};
use std::fmt::Write;
use table_text::add_rate;
use te_snapshot::{OwnShare, OwnShares};

/// LSPs of one moment, and what the tunnel of each holds.
#[derive(Drop)]
pub struct SeenTunnels {
    pub page: LspPage,
    /// Of each LSP of the page, in their order.
    pub own: Vec<OwnShares>,
}

/// Reads the endpoint of a tunnel that is signalled.
fn endpoint_of(tunnel: &Tunnel) -> Option<Ipv4>
    ensures { result ≡ endpoint_of tunnel.now }
{
    match tunnel {
        Tunnel::Signalled { endpoint, .. } => Some(*endpoint),
        Tunnel::Unsignalled { .. } | Tunnel::Asked { .. } => None,
    }
}

/// Reads the number of a tunnel that is signalled.
fn tunnel_of(tunnel: &Tunnel) -> Option<u64>
    ensures { result ≡ tunnel_of tunnel.now }
{
    match tunnel {
        Tunnel::Signalled { tunnel, .. } => Some(*tunnel as u64),
        Tunnel::Unsignalled { .. } | Tunnel::Asked { .. } => None,
    }
}

/// Reads the extended number of a tunnel that is signalled.
fn extended_of(tunnel: &Tunnel) -> Option<u64>
    ensures { result ≡ extended_of tunnel.now }
{
    match tunnel {
        Tunnel::Signalled { extended, .. } => Some(*extended as u64),
        Tunnel::Unsignalled { .. } | Tunnel::Asked { .. } => None,
    }
}

/// Lends what the tunnel of the LSP at a place holds; nothing, if there is none.
fn own_at(own: &[OwnShares], place: usize) -> &[OwnShare]
    ensures { result.now ≡ own_at own.now place }
{
    match own.get(place) {
        Some(held) => held.as_slice(),
        None => &[],
    }
}

#[tactic(auto, unfolding(crate::specs::Tunnels::path_json))]
fn put_path(alloc: Global, writer: &mut Writer, path: &Path) -> Result<(), AllocError>
    ensures before { writer.new.before ≡ writer.old.before }
    ensures written { OnOk result (writer.new.tokens ≡ writer.old.tokens ++ json_tokens (path_json path.now)) }
{
    put_object(
        alloc,
        writer,
        &[
            Member("lsp_id", Field::LspId(path.part)),
            Member("srp_id", Field::SrpId(path.part)),
            Member("hold_priority", Field::Level(path.hold)),
            Member("bandwidth_bytes_per_second", Field::Rate(path.bandwidth)),
            Member("links", Field::Links(&path.links)),
        ],
    )
}

fn put_paths(alloc: Global, writer: &mut Writer, paths: &[Path]) -> Result<(), AllocError>
    ensures before { writer.new.before ≡ writer.old.before }
    ensures written { OnOk result (writer.new.tokens ≡ writer.old.tokens ++ json_tokens (array (path_items paths.now))) }
{
    writer.begin_array()?;
    for path in paths {
        put_path(alloc, writer, path)?;
    }
    writer.end_array()
}

/// Writes what a tunnel holds of a link: at the worst priority, at which all its paths count.
#[tactic(auto, unfolding(crate::specs::Tunnels::held_json))]
fn put_held(alloc: Global, writer: &mut Writer, held: &OwnShare) -> Result<(), AllocError>
    ensures before { writer.new.before ≡ writer.old.before }
    ensures written { OnOk result (writer.new.tokens ≡ writer.old.tokens ++ json_tokens (held_json held.now)) }
{
    put_object(
        alloc,
        writer,
        &[
            Member("link", Field::Whole(held.link as u64)),
            Member("reserved_bytes_per_second", Field::Whole(held.shares[7])),
        ],
    )
}

fn put_each_held(alloc: Global, writer: &mut Writer, own: &[OwnShare]) -> Result<(), AllocError>
    ensures before { writer.new.before ≡ writer.old.before }
    ensures written { OnOk result (writer.new.tokens ≡ writer.old.tokens ++ json_tokens (array (held_items own.now))) }
{
    writer.begin_array()?;
    for held in own {
        put_held(alloc, writer, held)?;
    }
    writer.end_array()
}

/// Writes the last two members of a tunnel, and ends it.
fn put_lists(
    alloc: Global,
    writer: &mut Writer,
    paths: &[Path],
    own: &[OwnShare],
) -> Result<(), AllocError>
    ensures before { writer.new.before ≡ writer.old.before }
    ensures written { OnOk result (writer.new.tokens ≡ writer.old.tokens ++ members_tokens (lists_members paths.now own.now)) }
{
    writer.key("paths")?;
    put_paths(alloc, writer, paths)?;
    writer.key("holds")?;
    put_each_held(alloc, writer, own)?;
    writer.end_object()?;
    Ok(())
}

#[tactic(auto, unfolding(crate::specs::Tunnels::tunnel_json))]
fn put_tunnel(
    alloc: Global,
    writer: &mut Writer,
    lsp: &KnownLsp,
    own: &[OwnShare],
) -> Result<(), AllocError>
    ensures before { writer.new.before ≡ writer.old.before }
    ensures written { OnOk result (writer.new.tokens ≡ writer.old.tokens ++ json_tokens (tunnel_json lsp.now own.now)) }
{
    let tunnel = &lsp.known.lsp.tunnel;
    let endpoint = endpoint_of(tunnel);
    let number = tunnel_of(tunnel);
    let extended = extended_of(tunnel);
    writer.begin_object()?;
    put_members(
        alloc,
        writer,
        &[
            Member("peer", Field::Peer(lsp.known.peer)),
            Member("plsp_id", Field::Plsp(lsp.known.plsp)),
            Member("endpoint", Field::AddressOr(endpoint)),
            Member("tunnel_id", Field::WholeOr(number)),
            Member("extended_tunnel_id", Field::WholeOr(extended)),
        ],
    )?;
    put_lists(alloc, writer, lsp.paths.as_slice(), own)
}

fn put_tunnels(
    alloc: Global,
    writer: &mut Writer,
    own: &[OwnShares],
    lsps: &[KnownLsp],
) -> Result<(), AllocError>
    ensures before { writer.new.before ≡ writer.old.before }
    ensures written { OnOk result (writer.new.tokens ≡ writer.old.tokens ++ json_tokens (array (tunnel_items own.now 0 lsps.now))) }
{
    writer.begin_array()?;
    for (place, lsp) in lsps.iter().enumerate() {
        put_tunnel(alloc, writer, lsp, own_at(own, place))?;
    }
    writer.end_array()
}

fn put_page(
    alloc: Global,
    writer: &mut Writer,
    from: u64,
    seen: &SeenTunnels,
) -> Result<(), AllocError>
    ensures before { writer.new.before ≡ writer.old.before }
    ensures written { OnOk result (writer.new.tokens ≡ writer.old.tokens ++ json_tokens (tunnels_json from seen.now)) }
{
    begin_with(
        alloc,
        writer,
        &[
            Member("from", Field::Whole(from)),
            Member("next", Field::WholeOr(seen.page.next)),
            Member("steps", Field::Whole(seen.page.steps)),
        ],
        "tunnels",
    )?;
    put_tunnels(alloc, writer, &seen.own, &seen.page.lsps)?;
    writer.end_object()?;
    Ok(())
}

/// Adds what a tunnel holds of a link, to the line of the tunnel or to a line of its own.
fn add_held(text: &mut String, is_first: bool, held: &OwnShare) -> Result<(), AllocError> {
    if !is_first {
        text.push_str("\t\t\t\t\t")?;
    }
    let link = held.link;
    write!(text, "{link}\t")?;
    add_rate(text, held.shares[7].min(1 << 48) as i64)?;
    text.push('\n')
}

/// Adds a line for the tunnel of an LSP, and one for each further link of which it holds something.
fn add_tunnel(text: &mut String, lsp: &KnownLsp, own: &[OwnShare]) -> Result<(), AllocError> {
    let peer = Ipv4(lsp.known.peer);
    let plsp = lsp.known.plsp.number();
    let tunnel = &lsp.known.lsp.tunnel;
    let paths = lsp.paths.as_slice().len();
    write!(text, "{peer}\t{plsp}\t")?;
    add_end(text, endpoint_of(tunnel))?;
    add_number(text, tunnel_of(tunnel))?;
    write!(text, "\t{paths}\t")?;
    if own.is_empty() {
        return text.push_str("-\t-\n");
    }
    for (place, held) in own.iter().enumerate() {
        add_held(text, place == 0, held)?;
    }
    Ok(())
}

/// A page of the tunnels of LSPs.
#[derive(Clone, Copy)]
pub struct Tunnels(pub PeerPage);

impl Look for Tunnels {
    ghost use Rattle.pce_view.specs.Tunnels.{SeesTunnels};

    type Seen = SeenTunnels;

    ghost sees = { λ q d seen. SeesTunnels q.0 d seen };

    fn see(&self, alloc: Global, database: &Database) -> Result<SeenTunnels, AllocError> {
        let page = page_at(alloc, database, self.0.peer, self.0.from)?;
        match own_of_each(alloc, database.state(), &page.lsps) {
            Ok(own) => Ok(SeenTunnels { page, own }),
            Err(error) => {
                drop(page);
                Err(error)
            }
        }
    }
}

impl Question for Tunnels {
    ghost use Rattle.pce_view.specs.Tunnels.{next_tunnels, ReadsTunnels};

    ghost reads = { λ q _ _ seen text. ReadsTunnels q.0 seen text };

    ghost followed_by = { λ q seen. next_tunnels q.0 seen };

    fn json(
        &self,
        alloc: Global,
        _around: &ServerInfo<'_>,
        _heard: &Heard,
        seen: &SeenTunnels,
    ) -> Result<Vec<u8>, AllocError> {
        let mut writer = Writer::new(Vec::new(alloc));
        put_page(alloc, &mut writer, self.0.from, seen)?;
        Ok(closed(writer))
    }

    fn rows(
        &self,
        _alloc: Global,
        text: &mut String,
        _around: &ServerInfo<'_>,
        _heard: &Heard,
        seen: &SeenTunnels,
    ) -> Result<(), AllocError> {
        if self.0.from == 0 {
            text.push_str("PEER\tPLSP\tENDPOINT\tTUNNEL\tPATHS\tLINK\tRESERVED\n")?;
        }
        for (place, lsp) in seen.page.lsps.iter().enumerate() {
            add_tunnel(text, lsp, own_at(&seen.own, place))?;
        }
        Ok(())
    }

    fn next(&self, seen: &SeenTunnels) -> Option<Ask> {
        match seen.page.next {
            Some(from) => Some(Ask::Tunnels(PeerPage { from, ..self.0 })),
            None => None,
        }
    }
}
