//! `without N`: where LSPs would go if a link went away.
ghost use Rattle.std.specs.Prelude.{◌≡◌, IfOk, ◌++◌, Some, OnOk, ◌+◌, IsPermutation};
ghost use Rattle.pce_view.specs.Without.{IsDisplaced, SeesDisplaced};
ghost use Rattle.json.specs.Tree.{json_tokens};
ghost use Rattle.json.specs.Json.{array, document};
ghost use Rattle.pce_view.specs.Without.{IsRunText, IsRunOrNull};
ghost use Rattle.pce_view.specs.Without.{move_items, move_json, run_json};
ghost use Rattle.std.specs.List.Sorted.{IsNonDecreasingBy};
ghost use Rattle.pce_view.specs.Without.{mover_of, movers_of, some_bandwidth, IsRun};

use crate::closing::{closed, null_text};
use crate::columns::add_priorities;
use crate::fields::{Field, Member, begin_with, put_object};
use crate::heard::Heard;
use crate::question::{Question, ServerInfo};
use crate::words::{cost_of_path, links_of_path};
use asks::Ask;
use database_looks::{Look, with_own};
use history_core::Database;
use json::Writer;
use lsp_base::Constraints;
use path_looks::{Move, Mover, moves_without};
use pce_seen::{KnownLsp, OutageInput, lsps_over};
use pcep_objects::Plsp;
use pcep_word::{Bandwidth, Ipv4};
use sequence::PlainData;
use std::alloc::{AllocError, Global};
use std::fmt::Write;
use table_text::{add_numbers, add_rate};
use te_snapshot::{OwnShares, Snapshot};

fn displaced(
    lsps: Vec<KnownLsp>,
    rest: Option<u64>,
    seen: (Snapshot, Vec<OwnShares>),
) -> OutageInput
    ensures { result ≡ record { snapshot = seen.0; lsps = lsps; own = seen.1; rest = rest } }
{
    let (snapshot, own) = seen;
    OutageInput {
        snapshot,
        lsps,
        own,
        rest,
    }
}

/// Sees the LSPs over a link that is there.
fn see_over(alloc: Global, database: &Database, link: usize) -> Result<OutageInput, AllocError>
    ensures { IfOk result (IsDisplaced link database.now) }
{
    let (lsps, rest) = lsps_over(alloc, database.state().lsps(), link)?;
    match with_own(alloc, database, &lsps) {
        Ok(seen) => Ok(displaced(lsps, rest, seen)),
        Err(error) => {
            drop(lsps);
            Err(error)
        }
    }
}

/// Returns the least bandwidth, one byte per second.
fn least_bandwidth() -> Bandwidth
    ensures { result ≡ 1 }
{
    match Bandwidth::of_word(0x3F80_0000) {
        Some(bandwidth) => bandwidth,
        None => Bandwidth::zero(),
    }
}

/// Asks for one byte per second where nothing is asked for.
fn some_bandwidth(wanted: &Constraints) -> Constraints
    ensures { result ≡ some_bandwidth wanted.now }
{
    let mut wanted = *wanted;
    if wanted.bandwidth.value() == 0 {
        wanted.bandwidth = least_bandwidth();
    }
    wanted
}

fn mover_of(lsp: &KnownLsp, own: &OwnShares) -> Result<Mover, AllocError>
    ensures { IfOk result (λ mover. mover ≡ mover_of lsp.now own.now) }
{
    Ok(Mover {
        peer: lsp.known.peer,
        plsp: lsp.known.plsp,
        wanted: some_bandwidth(&lsp.known.lsp.constraints),
        own: own.copy()?,
    })
}

/// Lists what each LSP asks for elsewhere.
fn movers_of(alloc: Global, lsps: &[KnownLsp], owns: &[OwnShares]) -> Result<Vec<Mover>, AllocError>
    ensures { IfOk result (λ movers. movers.items ≡ movers_of lsps.now owns.now) }
{
    let count = lsps.len().min(owns.len());
    let mut movers = Vec::new(alloc);
    for place in 0..count {
        movers.push(mover_of(&lsps[place], &owns[place])?)?;
    }
    Ok(movers)
}

/// Lists the same, those of the best setup priority first.
fn movers_in_order(alloc: Global, seen: &OutageInput) -> Result<Vec<Mover>, AllocError>
    ensures each { IfOk result (λ movers. IsPermutation (movers_of seen.now.lsps.items seen.now.own.items) movers.items) }
    ensures order { IfOk result (λ movers. IsNonDecreasingBy (λ m. ((m.wanted).priorities).setup) movers.items) }
{
    let mut movers = movers_of(alloc, &seen.lsps, &seen.own)?;
    movers.sort_by_key(|mover| mover.wanted.priorities.setup().number())?;
    Ok(movers)
}

/// Finds where the LSPs over a link would go if it went away.
pub(crate) fn moves_of(
    alloc: Global,
    link: u64,
    seen: &OutageInput,
) -> Result<Vec<Move>, AllocError>
    ensures { IfOk result (λ moves. IsRun link seen.now moves.items) }
{
    let movers = movers_in_order(alloc, seen)?;
    moves_without(alloc, &seen.snapshot, link as usize, &movers)
}

#[tactic(auto, unfolding(crate::specs::Without::move_json))]
fn put_move(alloc: Global, writer: &mut Writer, of: &Move) -> Result<(), AllocError>
    ensures before { writer.new.before ≡ writer.old.before }
    ensures written { OnOk result (writer.new.tokens ≡ writer.old.tokens ++ json_tokens (move_json of.now)) }
{
    put_object(
        alloc,
        writer,
        &[
            Member("peer", Field::Peer(of.peer)),
            Member("plsp_id", Field::Plsp(of.plsp)),
            Member("setup_priority", Field::Setup(of.wanted.priorities)),
            Member("hold_priority", Field::Hold(of.wanted.priorities)),
            Member(
                "bandwidth_bytes_per_second",
                Field::Rate(of.wanted.bandwidth),
            ),
            Member("is_found", Field::HasPath(&of.path)),
            Member("cost", Field::CostOfPath(&of.path)),
            Member("links", Field::LinksOfPath(&of.path)),
        ],
    )
}

fn put_moves(alloc: Global, writer: &mut Writer, moves: &[Move]) -> Result<(), AllocError>
    ensures before { writer.new.before ≡ writer.old.before }
    ensures written { OnOk result (writer.new.tokens ≡ writer.old.tokens ++ json_tokens (array (move_items moves.now))) }
{
    writer.begin_array()?;
    for of in moves {
        put_move(alloc, writer, of)?;
    }
    writer.end_array()
}

fn put_run(
    alloc: Global,
    writer: &mut Writer,
    link: u64,
    rest: Option<u64>,
    moves: &[Move],
) -> Result<(), AllocError>
    ensures before { writer.new.before ≡ writer.old.before }
    ensures written { OnOk result (writer.new.tokens ≡ writer.old.tokens ++ json_tokens (run_json link rest moves.now)) }
{
    begin_with(
        alloc,
        writer,
        &[
            Member("link", Field::Whole(link)),
            Member("rest", Field::WholeOr(rest)),
        ],
        "moves",
    )?;
    put_moves(alloc, writer, moves)?;
    writer.end_object()?;
    Ok(())
}

/// Writes where LSPs would go.
fn run_text(
    alloc: Global,
    link: u64,
    rest: Option<u64>,
    moves: &[Move],
) -> Result<Vec<u8>, AllocError>
    ensures { IfOk result (λ text. document text.items ≡ Some (run_json link rest moves.now)) }
{
    let mut writer = Writer::new(Vec::new(alloc));
    put_run(alloc, &mut writer, link, rest, moves)?;
    Ok(closed(writer))
}

/// Finds where the LSPs over a link would go, and writes it.
fn tried_text(alloc: Global, link: u64, seen: &OutageInput) -> Result<Vec<u8>, AllocError>
    ensures { IfOk result (λ text. IsRunText link seen.now text.items) }
{
    let moves = moves_of(alloc, link, seen)?;
    run_text(alloc, link, seen.rest, &moves)
}

fn add_move(text: &mut String, of: &Move) -> Result<(), AllocError> {
    let peer = Ipv4(of.peer);
    let plsp = of.plsp.number();
    write!(text, "{peer}\t{plsp}\t")?;
    add_priorities(text, of.wanted.priorities)?;
    add_rate(text, of.wanted.bandwidth.value() as i64)?;
    match cost_of_path(&of.path) {
        Some(cost) => write!(text, "\t{cost}\t")?,
        None => text.push_str("\tnot rerouted\t")?,
    }
    add_numbers(text, links_of_path(&of.path))?;
    text.push('\n')
}

/// Adds up the bandwidth of the LSPs that aren't rerouted, and counts them.
fn unplaced(moves: &[Move]) -> (u64, u64) {
    let mut count = 0u64;
    let mut sum = 0u64;
    for of in moves {
        if of.path.is_none() {
            count = count.saturating_add(1);
            sum = sum.saturating_add(of.wanted.bandwidth.value());
        }
    }
    (count, sum)
}

/// Adds how many LSPs there are, and how many aren't rerouted.
fn add_sums(text: &mut String, rest: Option<u64>, moves: &[Move]) -> Result<(), AllocError> {
    let tried = moves.len();
    let (count, sum) = unplaced(moves);
    write!(text, "\x0ctried\t{tried}\nnot rerouted\t{count}, ")?;
    add_rate(text, sum.min(1 << 62) as i64)?;
    match rest {
        Some(_) => text.push_str("\nothers\tnot tried\n"),
        None => text.push('\n'),
    }
}

/// Where LSPs would go if a link went away.
#[derive(Clone, Copy)]
pub struct Without(pub u64);

impl Look for Without {
    ghost use Rattle.pce_view.specs.Without.{SeesDisplaced};

    type Seen = Option<OutageInput>;

    ghost sees = { λ q d seen. SeesDisplaced q.0 d seen };

    fn see(&self, alloc: Global, database: &Database) -> Result<Option<OutageInput>, AllocError> {
        let number = self.0 as usize;
        match database.te_base().link(number) {
            Some(_) => Ok(Some(see_over(alloc, database, number)?)),
            None => Ok(None),
        }
    }
}

impl Question for Without {
    ghost use Rattle.pce_view.specs.Without.{IsRunOrNull};

    ghost reads = { λ q _ _ seen text. IsRunOrNull q.0 seen text };

    fn json(
        &self,
        alloc: Global,
        _around: &ServerInfo<'_>,
        _heard: &Heard,
        seen: &Option<OutageInput>,
    ) -> Result<Vec<u8>, AllocError> {
        match seen {
            Some(seen) => tried_text(alloc, self.0, seen),
            None => null_text(alloc),
        }
    }

    fn rows(
        &self,
        alloc: Global,
        text: &mut String,
        _around: &ServerInfo<'_>,
        _heard: &Heard,
        seen: &Option<OutageInput>,
    ) -> Result<(), AllocError> {
        let Some(seen) = seen else {
            return text.push_str("no such link\n");
        };
        let moves = moves_of(alloc, self.0, seen)?;
        text.push_str("PEER\tPLSP\tSETUP/HOLD\tBANDWIDTH\tCOST\tLINKS\n")?;
        for of in &moves {
            add_move(text, of)?;
        }
        add_sums(text, seen.rest, &moves)
    }

    fn next(&self, _seen: &Option<OutageInput>) -> Option<Ask> {
        None
    }
}
