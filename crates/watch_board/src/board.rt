//! The tables of all documents, and the text of a block.
ghost use Rattle.std.specs.Prelude.{◌≡◌, ◌≤◌, ◌++◌, IfOk, OnOk, List, ℕ, map, string_bytes};
ghost use Rattle.serde_json.specs.View.{view};
ghost use Rattle.table_text.specs.Adding.{Adds};
ghost use Rattle.std.specs.List.{flat_map};
ghost use Rattle.watch_board.specs.Rows.{link_rows};
ghost use Rattle.watch_board.specs.Boards.{AreFullest, board_words, counted_lsps, decision_rows, first_words, framed, grant_rows, head_words, peer_rows, row_of_grant, table};

use crate::members::{items_in, text_in, whole_in};
use crate::rows::{add_grant, add_link, add_peer, add_step, add_text, add_whole, is_up};
use crate::shares::{LinkShare, fullest_first};
use crate::states::{StateCounts, add_states, count};
use crate::steps::is_decided;
use serde_json::{Error, Value};
use std::alloc::{AllocError, Global};
use table_text::{add_aligned, add_duration};

/// The lines that a server is asked for a board.
pub const ASKED: &str =
    "json status\njson links\njson peers\njson lsps\njson grants\njson history 1024";

/// How many links are shown.
const LINKS: usize = 5;

/// How many rows each other table has at most.
const ROWS: usize = 3;

const LINKS_HEAD: &str = "LINK\tFROM\tTO\tLOCAL\tRESERVED\tUNRESERVED\n";

const PEERS_HEAD: &str = "\nPEER\tSTATE\tSINCE\tLSPS\tDELEGATED\tLAST END\n";

const GRANTS_HEAD: &str = "\nPEER\tSRP\tLSP\tUNANSWERED\tLINKS\n";

const DECISIONS_HEAD: &str = "\nSTEP\tEVENT\tPEER\tREPLY\n";

/// Why an answer isn't on the board.
#[derive(Clone, Copy, Debug, PartialEq, Eq)]
pub enum Unread {
    OutOfMemory,
    /// It isn't a document of JSON.
    NoDocument,
}

impl From<AllocError> for Unread {
    fn from(_refused: AllocError) -> Unread {
        Unread::OutOfMemory
    }
}

/// What was heard of a server: a text of rows for each table, and how many LSPs are in each state.
#[derive(Drop)]
pub struct Board {
    head: String,
    links: String,
    peers: String,
    grants: String,
    grant_count: usize,
    decisions: String,
    states: StateCounts,
}

/// Adds the row of each of these links.
#[tactic(auto, unfolding(crate::specs::Rows::link_rows))]
fn add_links(text: &mut String, links: &[Value], shares: &[LinkShare]) -> Result<(), AllocError>
    ensures { Adds result text.old text.new (link_rows (map view links.now) shares.now) }
{
    for share in shares {
        if let Some(link) = links.get(share.place) {
            add_link(text, link, share)?;
        }
    }
    Ok(())
}

/// Adds the rows of the fullest links.
fn add_fullest(alloc: Global, text: &mut String, links: &[Value]) -> Result<(), AllocError>
    ensures { OnOk result ((rows : List ℕ) × AreFullest (map view links.now) rows × (string_bytes text.new ≡ string_bytes text.old ++ rows)) }
{
    let shares = fullest_first(alloc, links)?;
    let most = shares.len().min(LINKS);
    add_links(text, links, &shares[..most])
}

/// Adds rows of the routers whose session is up, or is down: so many at most. Returns how many.
#[tactic(auto, unfolding(crate::specs::Boards::peer_rows))]
fn add_peers(text: &mut String, peers: &[Value], up: bool, most: usize) -> Result<usize, AllocError>
    ensures rows { Adds result text.old text.new (peer_rows up most (map view peers.now)) }
    ensures few { IfOk result (λ count. count ≤ most) }
{
    let mut count = 0;
    for peer in peers {
        if count < most && is_up(peer) == up {
            add_peer(text, peer)?;
            count += 1;
        }
    }
    Ok(count)
}

/// Adds rows of routers, those that are down first.
fn add_sessions(text: &mut String, peers: &[Value]) -> Result<(), AllocError> {
    let down = add_peers(text, peers, false, ROWS)?;
    let _up = add_peers(text, peers, true, ROWS - down)?;
    Ok(())
}

/// Adds the row of each grant.
fn add_each_grant(alloc: Global, text: &mut String, grants: &[Value]) -> Result<(), AllocError>
    ensures { Adds result text.old text.new (flat_map row_of_grant (map view grants.now)) }
{
    for grant in grants {
        add_grant(alloc, text, items_in(grant, "links"), grant)?;
    }
    Ok(())
}

/// Adds rows of grants, so many at most.
fn add_grants(
    alloc: Global,
    text: &mut String,
    grants: &[Value],
    most: usize,
) -> Result<(), AllocError>
    ensures { Adds result text.old text.new (grant_rows most (map view grants.now)) }
{
    let count = grants.len().min(most);
    add_each_grant(alloc, text, &grants[..count])
}

/// Adds rows of the latest decisions, so many at most, the latest first.
#[tactic(auto, unfolding(crate::specs::Boards::decision_rows))]
fn add_decisions(text: &mut String, steps: &[Value], most: usize) -> Result<(), AllocError>
    ensures { Adds result text.old text.new (decision_rows most (map view steps.now)) }
{
    let mut count = 0;
    for place in (0..steps.len()).rev() {
        let step = &steps[place];
        if count < most && is_decided(step) {
            add_step(text, step)?;
            count += 1;
        }
    }
    Ok(())
}

/// Counts the states of LSPs.
fn count_states(counts: &mut StateCounts, lsps: &[Value])
    ensures { counts.new ≡ counted_lsps counts.old (map view lsps.now) }
{
    for lsp in lsps {
        count(counts, text_in(lsp, "state"));
    }
}

/// Adds the first line in front of the tables.
fn add_first(text: &mut String, status: &Value) -> Result<(), AllocError>
    ensures { Adds result text.old text.new (first_words (view status.now)) }
{
    text.push_str("pced ")?;
    add_text(text, status, "version")?;
    text.push_str("  up ")?;
    add_duration(text, whole_in(status, "uptime_ms"))?;
    text.push_str("  steps ")?;
    add_whole(text, status, "steps")?;
    text.push_str("  grants ")?;
    add_whole(text, status, "grants")?;
    text.push_str("  waiting ")?;
    add_whole(text, status, "waiting_grants")?;
    text.push_str("  tickets ")?;
    add_whole(text, status, "tickets")?;
    text.push_str("\n")
}

/// Adds the lines in front of the tables, but for the states of LSPs.
fn add_head(text: &mut String, status: &Value) -> Result<(), AllocError>
    ensures { Adds result text.old text.new (head_words (view status.now)) }
{
    add_first(text, status)?;
    text.push_str("sessions up ")?;
    add_whole(text, status, "sessions_up")?;
    text.push_str("  LSPs ")?;
    add_whole(text, status, "lsps")
}

fn parsed(alloc: Global, document: &str) -> Result<Value, Unread> {
    match Value::from_str(alloc, document) {
        Ok(value) => Ok(value),
        Err(error) => Err(fault_of(&error)),
    }
}

fn fault_of(error: &Error) -> Unread {
    if error.is_memory() {
        Unread::OutOfMemory
    } else {
        Unread::NoDocument
    }
}

/// Adds a table with its head, after a form feed, so that its columns are its own.
fn add_table(text: &mut String, head: &str, rows: &str) -> Result<(), AllocError>
    ensures { Adds result text.old text.new (table head.now rows.now) }
{
    text.push_str("\x0c")?;
    text.push_str(head)?;
    text.push_str(rows)
}

impl Board {
    /// Makes a board on which nothing is yet.
    pub fn new(alloc: Global) -> Board {
        Board {
            head: String::new(alloc),
            links: String::new(alloc),
            peers: String::new(alloc),
            grants: String::new(alloc),
            grant_count: 0,
            decisions: String::new(alloc),
            states: StateCounts::NONE,
        }
    }

    /// Puts what a document says on the board: each of the lists that it has, and the counts of `status`.
    fn note(&mut self, alloc: Global, document: &Value) -> Result<(), AllocError> {
        if document.get("version").is_some() {
            return add_head(&mut self.head, document);
        }
        add_fullest(alloc, &mut self.links, items_in(document, "links"))?;
        add_sessions(&mut self.peers, items_in(document, "peers"))?;
        count_states(&mut self.states, items_in(document, "lsps"));
        let grants = items_in(document, "grants");
        let most = ROWS.saturating_sub(self.grant_count);
        add_grants(alloc, &mut self.grants, grants, most)?;
        self.grant_count = self.grant_count.saturating_add(grants.len());
        add_decisions(&mut self.decisions, items_in(document, "steps"), ROWS)
    }

    /// Puts an answer on the board.
    pub fn hear(&mut self, alloc: Global, document: &str) -> Result<(), Unread> {
        let value = parsed(alloc, document)?;
        self.note(alloc, &value)?;
        Ok(())
    }

    /// Adds the lines in front of the tables, and the tables. A row is a line, with a tab between its cells.
    fn add_rows(&self, rows: &mut String) -> Result<(), AllocError>
        ensures { Adds result rows.old rows.new (board_words self.now) }
    {
        rows.push_str(&self.head)?;
        add_states(rows, &self.states)?;
        rows.push_str("\n")?;
        add_table(rows, LINKS_HEAD, &self.links)?;
        add_table(rows, PEERS_HEAD, &self.peers)?;
        add_table(rows, GRANTS_HEAD, &self.grants)?;
        add_table(rows, DECISIONS_HEAD, &self.decisions)
    }

    /// Returns the text of the board, with its tables in columns.
    pub fn text(&self, alloc: Global) -> Result<String, AllocError> {
        let mut rows = String::new(alloc);
        self.add_rows(&mut rows)?;
        let mut text = String::new(alloc);
        add_aligned(alloc, &mut text, &rows)?;
        Ok(text)
    }
}

/// Returns what is written for a block with this text: on a terminal it replaces what is on the screen, and a line that is
/// wider than the screen isn't broken; elsewhere an empty line follows.
pub fn block(alloc: Global, is_terminal: bool, text: &str) -> Result<String, AllocError>
    ensures { IfOk result (λ block. string_bytes block ≡ framed is_terminal text.now) }
{
    if is_terminal {
        format!(in alloc; "\x1b[?7l\x1b[H\x1b[J{text}\x1b[?7h")
    } else {
        format!(in alloc; "{text}\n")
    }
}
