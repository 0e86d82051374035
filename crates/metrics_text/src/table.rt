//! The table of metrics.
ghost use Rattle.std.specs.Prelude.{◌≡◌, ◌++◌, IfOk, OnOk};
ghost use Rattle.metrics_text.specs.Exposition.{exposition};
ghost use Rattle.metrics_text.specs.Rows.{is_left_out, lines_of, row_families, rows_families, samples_of};
ghost use Rattle.metrics_text.specs.Samples.{build};
ghost use Rattle.metrics_text.specs.Table.{counted_families, families, program, seen_families};

use crate::counts::{put_counts, put_errors, put_number, put_steps};
use crate::database::{broken_in, put_states};
use crate::format::{Kind, LabelText, Metric, put_help, put_type};
use crate::links::{put_link_info, put_reservable, put_unreserved};
use crate::peers::{put_grants_of_each, put_lsps_of_each, put_peers_up};
use crate::times::put_times;
use end_reasons::{LastWords, Reason};
use history_core::{Brief, Fault, Why};
use pce_seen::{EventKind, Numbers};
use pce_view::{LspState, ServerInfo, ShownState};
use server_counts::{BOUNDS_US, Counted, Counters, MessageKind, Timed, Way};
use std::alloc::{AllocError, Global};

/// What the system says of the process, and how far its journal is.
#[derive(Clone, Copy)]
pub struct Process {
    /// Its memory that is in RAM.
    pub resident_bytes: Option<u64>,
    /// The number of file descriptors that are open.
    pub open_descriptors: Option<u64>,
    /// The number of file descriptors that may be open.
    pub descriptor_limit: Option<u64>,
    /// How many steps the journal has, if one is written.
    pub journal_steps: Option<u64>,
}

/// What the metrics are of.
#[derive(Clone, Copy)]
pub(crate) struct Sources<'a> {
    pub info: &'a ServerInfo<'a>,
    pub numbers: &'a Numbers,
    pub counters: &'a Counters,
    pub states: &'a [ShownState],
}

/// The samples of a metric.
#[derive(Clone, Copy)]
pub(crate) enum Samples<'a> {
    /// One number.
    One(u64),
    /// One number. If it isn't known, the metric is left out.
    Known(Option<u64>),
    /// How often this happened.
    Count(Counted),
    /// Which program it is.
    Build,
    /// How often each of these happened.
    Counts(&'a [Counted]),
    /// The steps by event and reply.
    Steps,
    /// The PCErr that came or were sent, by type and value.
    Errors(Way),
    /// Times.
    Times(Timed),
    /// LSPs by state.
    States,
    /// Paths that have a gap.
    Broken,
    /// Which routers' sessions are up.
    PeersUp,
    /// LSPs of each router by state.
    PeerLsps,
    /// Grants of each router that no report has settled.
    PeerGrants,
    /// The number of each link.
    LinkInfo,
    /// What may be reserved of each link.
    Reservable,
    /// What is left of each link at each priority.
    Unreserved,
}

/// A metric with its samples.
#[derive(Clone, Copy)]
pub(crate) struct Family<'a> {
    pub metric: Metric<'a>,
    pub samples: Samples<'a>,
}

const EVENTS: [EventKind; 13] = [
    EventKind::Up,
    EventKind::Report,
    EventKind::Marker,
    EventKind::Down,
    EventKind::Expire,
    EventKind::Ask,
    EventKind::Take,
    EventKind::Commit,
    EventKind::Drain,
    EventKind::Refused,
    EventKind::Return,
    EventKind::Delete,
    EventKind::Reload,
];

const REPLIES: [Brief; 15] = [
    Brief::Done,
    Brief::Booked { wants_path: false },
    Brief::Booked { wants_path: true },
    Brief::Asked(0),
    Brief::Job(0),
    Brief::Idle,
    Brief::Granted(0),
    Brief::Answered,
    Brief::Again,
    Brief::NoPath,
    Brief::GivenUp,
    Brief::Gone,
    Brief::Removing(0),
    Brief::Out { messages: 0 },
    Brief::Refused(Why::UnknownPeer),
];

const REFUSALS: [Counted; 20] = [
    Counted::Refusal(1),
    Counted::Refusal(2),
    Counted::Refusal(3),
    Counted::Refusal(4),
    Counted::Refusal(5),
    Counted::Refusal(6),
    Counted::Refusal(7),
    Counted::Refusal(8),
    Counted::Refusal(9),
    Counted::Refusal(10),
    Counted::Refusal(11),
    Counted::Refusal(12),
    Counted::Refusal(13),
    Counted::Refusal(14),
    Counted::Refusal(15),
    Counted::Refusal(16),
    Counted::Refusal(17),
    Counted::Refusal(18),
    Counted::Refusal(19),
    Counted::Refusal(20),
];

const VERDICTS: [Counted; 6] = [
    Counted::Step(EventKind::Commit, Brief::Granted(0)),
    Counted::Step(EventKind::Commit, Brief::Answered),
    Counted::Step(EventKind::Commit, Brief::Again),
    Counted::Step(EventKind::Commit, Brief::NoPath),
    Counted::Step(EventKind::Commit, Brief::GivenUp),
    Counted::Step(EventKind::Commit, Brief::Gone),
];

/// A session ended by this Close, sent for the DeadTimer (RFC 5440 section 7.17).
const DEAD_TIMER: LastWords = LastWords {
    error: None,
    close: Some(2),
};

/// A session ended by this Close, sent for a malformed message.
const MALFORMED: LastWords = LastWords {
    error: None,
    close: Some(3),
};

/// A session ended by a Close that was sent for another reason.
const OTHER_CLOSE: LastWords = LastWords {
    error: None,
    close: Some(0),
};

const ENDS: [Counted; 13] = [
    Counted::Ended(Reason::PeerClosed),
    Counted::Ended(Reason::Session(LastWords::NOTHING)),
    Counted::Ended(Reason::ReadFault),
    Counted::Ended(Reason::WriteFault),
    Counted::Ended(Reason::StoreFault(Fault::OutOfMemory)),
    Counted::Ended(Reason::Session(DEAD_TIMER)),
    Counted::Ended(Reason::Session(MALFORMED)),
    Counted::Ended(Reason::Session(OTHER_CLOSE)),
    Counted::Ended(Reason::PlaceTaken),
    Counted::Ended(Reason::RunEnds),
    Counted::Ended(Reason::Refused(2)),
    Counted::Ended(Reason::Refused(0)),
    Counted::Ended(Reason::Unheard),
];

const RECEIVED: [Counted; 11] = [
    Counted::Received(MessageKind::Open),
    Counted::Received(MessageKind::Keepalive),
    Counted::Received(MessageKind::Request),
    Counted::Received(MessageKind::Reply),
    Counted::Received(MessageKind::Notification),
    Counted::Received(MessageKind::Error),
    Counted::Received(MessageKind::Close),
    Counted::Received(MessageKind::Report),
    Counted::Received(MessageKind::Update),
    Counted::Received(MessageKind::Initiate),
    Counted::Received(MessageKind::Other),
];

const SENT: [Counted; 11] = [
    Counted::Sent(MessageKind::Open),
    Counted::Sent(MessageKind::Keepalive),
    Counted::Sent(MessageKind::Request),
    Counted::Sent(MessageKind::Reply),
    Counted::Sent(MessageKind::Notification),
    Counted::Sent(MessageKind::Error),
    Counted::Sent(MessageKind::Close),
    Counted::Sent(MessageKind::Report),
    Counted::Sent(MessageKind::Update),
    Counted::Sent(MessageKind::Initiate),
    Counted::Sent(MessageKind::Other),
];

/// The types and values of PCErr that are counted apart.
const NUMBERS: [u8; 32] = [
    0, 1, 2, 3, 4, 5, 6, 7, 8, 9, 10, 11, 12, 13, 14, 15, 16, 17, 18, 19, 20, 21, 22, 23, 24, 25,
    26, 27, 28, 29, 30, 31,
];

const STATES: [LspState; 7] = [
    LspState::Active,
    LspState::Up,
    LspState::GoingUp,
    LspState::GoingDown,
    LspState::Down,
    LspState::Unplaced,
    LspState::Unknown,
];

/// Adds which program it is.
fn put_build(
    text: &mut Vec<u8>,
    metric: &Metric<'_>,
    info: &ServerInfo<'_>,
) -> Result<(), AllocError>
    ensures { OnOk result (text.new.items ≡ text.old.items
        ++ lines_of metric.now (build info.now)) }
{
    let labels = [
        LabelText::Text(info.version),
        LabelText::Text(info.logic),
        LabelText::Text(info.commit),
    ];
    put_number(text, metric, &labels, 1)
}

/// Adds the samples of a metric.
fn put_samples(
    text: &mut Vec<u8>,
    of: &Sources<'_>,
    metric: &Metric<'_>,
    samples: &Samples<'_>,
) -> Result<(), AllocError>
    ensures { OnOk result (text.new.items ≡ text.old.items
        ++ lines_of metric.now (samples_of of.now samples.now)) }
{
    let (counters, peers, book) = (of.counters, &of.numbers.peers, &of.numbers.book);
    match samples {
        Samples::One(n) | Samples::Known(Some(n)) => put_number(text, metric, &[], *n),
        Samples::Known(None) => Ok(()),
        Samples::Count(what) => put_number(text, metric, &[], counters.count(*what)),
        Samples::Build => put_build(text, metric, of.info),
        Samples::Counts(whats) => put_counts(text, metric, counters, whats),
        Samples::Steps => put_steps(text, metric, counters, &EVENTS, &REPLIES),
        Samples::Errors(way) => put_errors(text, metric, counters, *way, &NUMBERS, &NUMBERS),
        Samples::Times(what) => put_times(text, metric, &BOUNDS_US, &counters.times(*what)),
        Samples::States => put_states(text, metric, of.states, &STATES),
        Samples::Broken => put_number(text, metric, &[], broken_in(of.states)),
        Samples::PeersUp => put_peers_up(text, metric, &peers.peers),
        Samples::PeerLsps => put_lsps_of_each(text, metric, of.states, &STATES, &peers.peers),
        Samples::PeerGrants => put_grants_of_each(text, metric, &peers.grants, &peers.peers),
        Samples::LinkInfo => put_link_info(text, metric, &book.nodes, &book.links),
        Samples::Reservable => put_reservable(text, metric, &book.nodes, &book.links),
        Samples::Unreserved => put_unreserved(text, metric, &book.nodes, &book.links, &book.left),
    }
}

/// Tests whether these are the samples of a metric whose number isn't known.
fn is_left_out(samples: &Samples<'_>) -> bool
    ensures { result ≡ is_left_out samples.now }
{
    match samples {
        Samples::Known(number) => number.is_none(),
        _ => false,
    }
}

/// Adds a metric, unless its number isn't known.
fn put_family(text: &mut Vec<u8>, of: &Sources<'_>, family: &Family<'_>) -> Result<(), AllocError>
    ensures { OnOk result (text.new.items ≡ text.old.items
        ++ exposition (row_families of.now family.now)) }
{
    if is_left_out(&family.samples) {
        return Ok(());
    }
    put_help(text, &family.metric)?;
    put_type(text, &family.metric)?;
    put_samples(text, of, &family.metric, &family.samples)
}

fn put_families(text: &mut Vec<u8>, of: &Sources<'_>, rows: &[Family<'_>]) -> Result<(), AllocError>
    ensures { OnOk result (text.new.items ≡ text.old.items
        ++ exposition (rows_families of.now rows.now)) }
{
    for row in rows {
        put_family(text, of, row)?;
    }
    Ok(())
}

/// Makes rows of the table: a kind, a name, a help, the names of labels, and samples.
macro_rules! rows {
    ($($kind:ident $name:literal $help:literal [$($label:literal)*] $samples:ident $(($($of:expr),*))?;)*) => {
        [$(Family {
            metric: Metric { kind: Kind::$kind, name: $name, help: $help, labels: &[$($label),*] },
            samples: Samples::$samples $(($($of),*))?,
        }),*]
    };
}

/// Adds which program it is, what the system says of the process, and how far its journal is.
#[tactic(auto, unfolding(crate::specs::Table::program))]
fn put_program(text: &mut Vec<u8>, of: &Sources<'_>, process: Process) -> Result<(), AllocError>
    ensures { OnOk result (text.new.items ≡ text.old.items
        ++ exposition (program of.now.info.now process)) }
{
    put_families(
        text,
        of,
        &rows! {
            Gauge "pced_build_info" "The version of the program, the logic of its proofs, and the commit of its sources." ["version" "logic" "commit"] Build;
            Gauge "process_resident_memory_bytes" "Memory of the process that is in RAM." [] Known(process.resident_bytes);
            Gauge "process_open_fds" "File descriptors that are open." [] Known(process.open_descriptors);
            Gauge "process_max_fds" "File descriptors that may be open." [] Known(process.descriptor_limit);
            Gauge "pced_journal_steps" "Steps that the journal has." [] Known(process.journal_steps);
        },
    )
}

/// Adds what was counted.
#[tactic(auto, unfolding(crate::specs::Table::counted_families))]
fn put_counted(text: &mut Vec<u8>, of: &Sources<'_>) -> Result<(), AllocError>
    ensures { OnOk result (text.new.items ≡ text.old.items
        ++ exposition (counted_families of.now.counters.now)) }
{
    put_families(
        text,
        of,
        &rows! {
            Counter "pced_events_total" "Steps that the server took, by their event and its reply." ["event" "reply"] Steps;
            Counter "pced_refusals_total" "Events that were refused, by reason." ["reason"] Counts(&REFUSALS);
            Counter "pced_commits_total" "Searches that were committed, by verdict." ["verdict"] Counts(&VERDICTS);
            Counter "pced_unanswered_total" "Grants and deletions that routers left unanswered." [] Count(Counted::NoAnswer);
            Counter "pced_connections_total" "Connections of routers that were accepted." [] Count(Counted::Accepted);
            Counter "pced_strangers_total" "Connections from addresses that no node owns." [] Count(Counted::Stranger);
            Counter "pced_connection_ends_total" "Connections of routers that ended, by reason." ["reason"] Counts(&ENDS);
            Counter "pced_messages_received_total" "Messages that came from routers, by type." ["type"] Counts(&RECEIVED);
            Counter "pced_messages_sent_total" "Messages that were sent to routers, by type." ["type"] Counts(&SENT);
            Counter "pced_errors_sent_total" "PCErr that were sent, by type and value; 31 stands for all from 31 on." ["type" "value"] Errors(Way::Out);
            Counter "pced_errors_received_total" "PCErr that routers sent, by type and value; 31 stands for all from 31 on." ["type" "value"] Errors(Way::In);
            Histogram "pced_search_seconds" "Time from the beginning of a search to the verdict on what it found." ["le"] Times(Timed::Search);
            Histogram "pced_ask_seconds" "Time from an ask for a path to the last verdict." ["le"] Times(Timed::Wait);
            Histogram "pced_look_seconds" "Time for which a look held the lock." ["le"] Times(Timed::Look);
        },
    )
}

/// Adds what was seen of the database.
#[tactic(auto, unfolding(crate::specs::Table::seen_families))]
fn put_seen(text: &mut Vec<u8>, of: &Sources<'_>) -> Result<(), AllocError>
    ensures { OnOk result (text.new.items ≡ text.old.items
        ++ exposition (seen_families of.now.numbers.now of.now.states.now)) }
{
    let counts = of.numbers.counts;
    put_families(
        text,
        of,
        &rows! {
            Gauge "pced_lsps_by_state" "LSPs by the state in which they are shown." ["state"] States;
            Gauge "pced_partly_placed_paths" "Reported paths whose links have a gap." [] Broken;
            Gauge "pced_sessions_up" "Sessions that are up." [] One(counts.sessions_up);
            Gauge "pced_tickets" "Paths that are asked for and not found yet." [] One(counts.tickets);
            Gauge "pced_lsps" "LSPs that are known." [] One(counts.lsps);
            Gauge "pced_paths" "Paths of LSPs, reported or granted." [] One(counts.paths);
            Gauge "pced_waiting_grants" "Granted paths that no report has settled." [] One(counts.waiting_grants);
            Gauge "pced_kept_steps" "Steps that the history keeps." [] One(counts.kept);
            Counter "pced_steps_total" "Steps that were ever taken." [] One(counts.steps);
            Counter "pced_grants_total" "Steps that were grants." [] One(counts.grants);
            Gauge "pced_peer_up" "1 if the session of a router is up, and 0 if not." ["peer"] PeersUp;
            Gauge "pced_peer_lsps" "LSPs of a router by the state in which they are shown." ["peer" "state"] PeerLsps;
            Gauge "pced_peer_grants" "Granted paths of a router that no report has settled." ["peer"] PeerGrants;
            Gauge "pced_link_info" "1; the number of a link." ["link" "from" "to" "local"] LinkInfo;
            Gauge "pced_link_reservable_bytes_per_second" "What may be reserved of a link." ["from" "to" "local"] Reservable;
            Gauge "pced_link_unreserved_bytes_per_second" "What is left of a link at a priority." ["from" "to" "local" "priority"] Unreserved;
        },
    )
}

/// Says what was seen and counted in Prometheus's text format 0.0.4. What the system doesn't say is left out.
pub fn metrics_text<'x>(
    alloc: Global,
    info: &'x ServerInfo<'x>,
    numbers: &'x Numbers,
    counters: &'x Counters,
    process: Process,
    states: &'x [ShownState],
) -> Result<Vec<u8>, AllocError>
    ensures { IfOk result (λ text. text.items
        ≡ exposition (families info.now numbers.now counters.now process states.now)) }
{
    let mut text = Vec::new(alloc);
    let of = Sources {
        info,
        numbers,
        counters,
        states,
    };
    put_program(&mut text, &of, process)?;
    put_counted(&mut text, &of)?;
    put_seen(&mut text, &of)?;
    Ok(text)
}
