//! What the log says.
ghost use Rattle.std.specs.Prelude.{◌≡◌};
ghost use Rattle.server_log.specs.LogLines.{kind_of, level_of, refusal_line, router_of};

use crate::decisions::Decision;
use crate::kinds::Kind;
use crate::shown_name::ShownName;
use end_reasons::Reason;
use history_core::{Event, Fault};
use log::{Level, Log, info, log, log_enabled};
use lsp_base::Why;
use pcep_objects::Capabilities;
use server_rules::PcErr;

/// The target of all lines.
const TARGET: &str = "pce_server";

/// The timers of a peer's Open, in seconds (RFC 5440 section 7.3).
#[derive(Clone, Copy, PartialEq, Eq, Debug)]
pub struct PeerTimers {
    pub keepalive: u8,
    pub dead: u8,
}

/// A line of the log.
#[derive(Clone, Copy, PartialEq, Eq, Debug)]
pub enum LogLine {
    /// Routers may connect.
    Listening {
        address: u32,
        port: u16,
        nodes: usize,
        links: usize,
    },
    /// A session came up.
    Up {
        peer: u32,
        timers: PeerTimers,
        capabilities: Option<Capabilities>,
    },
    /// The peer has reported all of its LSPs: how many, and how long after it came up.
    InSync {
        peer: u32,
        lsps: usize,
        after_ms: u64,
    },
    /// A connection ended.
    Ended {
        peer: u32,
        reason: Reason,
    },
    /// The peer stayed down, and its LSPs were dropped.
    Forgotten {
        peer: u32,
    },
    /// The peer was to be forgotten, and the state refused that, by this number.
    NotForgotten {
        peer: u32,
        number: u8,
    },
    /// The history was rolled: how many steps were taken before what is kept.
    Rolled {
        steps: u64,
    },
    /// No connection can be accepted for now.
    AcceptFailed,
    /// Memory was refused.
    MemoryRefused,
    /// A worker's turn failed.
    WorkerFault(Fault),
    /// The operator's lines aren't answered any more.
    OperatorGone,
    /// The control socket can't be heard.
    ControlGone,
    /// Viewers can't be served.
    ViewersGone,
    /// The journal is written no further.
    JournalGone,
    /// The state refused an event of the peer, by this number.
    Refused {
        peer: u32,
        number: u8,
    },
    /// Paths may be granted from now on.
    Settled,
    /// A connection came from an address that no node owns, and how many did.
    Stranger {
        address: u32,
        count: u64,
    },
    /// A reload left a link below zero: what is left of it at its worst priority.
    BelowZero {
        link: usize,
        local: u32,
        remote: u32,
        worst: i64,
    },
    /// The process may have so few descriptors that connections may find none.
    FewDescriptors {
        limit: u64,
    },
    /// The run has ended, and the audit of all seats passed: how many steps and grants their shares sum to.
    Audited {
        steps: u64,
        grants: u64,
    },
    /// How many lines of this kind were withheld.
    Withheld {
        kind: Kind,
        lines: u64,
    },
    /// How many lines found no room while nobody read the log.
    Lost {
        lines: u64,
    },
    /// A router didn't answer a grant or a deletion in time, which was dropped: its SRP-ID, and the PLSP-ID of its LSP, or 0
    /// where none is known.
    NoAnswer {
        peer: u32,
        srp: u32,
        plsp: u32,
    },
    /// A router answered the request of an SRP-ID, which was about this LSP, by a PCErr. The SRP-ID is 0 if it named none.
    RouterRefused {
        peer: u32,
        srp: u32,
        lsp: ShownName,
        error: PcErr,
    },
    /// LSPs of the router go down again as soon as they are granted paths, so less is read of its connection: so long is waited.
    Slowed {
        peer: u32,
        pause_ms: u64,
    },
    /// What was asked for, decided or answered.
    Decided(Decision),
}

impl LogLine {
    /// Says what it is about.
    pub fn kind(&self) -> Kind
        ensures { result ≡ kind_of self.now }
    {
        match self {
            LogLine::Listening { .. } => Kind::Listening,
            LogLine::Up { .. } => Kind::Up,
            LogLine::InSync { .. } => Kind::InSync,
            LogLine::Ended { .. } => Kind::Ended,
            LogLine::Forgotten { .. } | LogLine::NotForgotten { .. } => Kind::Forgotten,
            LogLine::Rolled { .. } => Kind::Rolled,
            LogLine::AcceptFailed => Kind::AcceptFailed,
            LogLine::MemoryRefused => Kind::MemoryRefused,
            LogLine::WorkerFault(_) => Kind::Worker,
            LogLine::OperatorGone => Kind::Operator,
            LogLine::ControlGone => Kind::ControlSocket,
            LogLine::ViewersGone => Kind::Viewers,
            LogLine::JournalGone => Kind::Journal,
            LogLine::Refused { .. } => Kind::Refused,
            LogLine::Settled => Kind::Settled,
            LogLine::Stranger { .. } => Kind::Stranger,
            LogLine::BelowZero { .. } => Kind::BelowZero,
            LogLine::FewDescriptors { .. } => Kind::FewDescriptors,
            LogLine::Audited { .. } => Kind::Audited,
            LogLine::Withheld { .. } | LogLine::Lost { .. } => Kind::Log,
            LogLine::NoAnswer { .. } => Kind::NoAnswer,
            LogLine::RouterRefused { .. } => Kind::RouterRefused,
            LogLine::Slowed { .. } => Kind::Slowed,
            LogLine::Decided(decision) => decision.kind(),
        }
    }

    /// Returns the address of the router that it is about, or 0. Lines about one router have a rate of their own.
    pub fn router(&self) -> u32
        ensures { result ≡ router_of self.now }
    {
        match *self {
            LogLine::Up { peer, .. }
            | LogLine::InSync { peer, .. }
            | LogLine::Ended { peer, .. }
            | LogLine::Forgotten { peer }
            | LogLine::NotForgotten { peer, .. }
            | LogLine::Refused { peer, .. }
            | LogLine::NoAnswer { peer, .. }
            | LogLine::RouterRefused { peer, .. }
            | LogLine::Slowed { peer, .. } => peer,
            LogLine::Stranger { address, .. } => address,
            LogLine::Decided(decision) => decision.router(),
            _ => 0,
        }
    }

    /// Returns its level: info for sessions and the run, warn for faults, debug for what the state refused.
    pub fn level(&self) -> Level
        ensures { result ≡ level_of self.now }
    {
        match self {
            LogLine::Listening { .. }
            | LogLine::Up { .. }
            | LogLine::InSync { .. }
            | LogLine::Ended { .. }
            | LogLine::Forgotten { .. }
            | LogLine::NotForgotten { .. }
            | LogLine::Rolled { .. }
            | LogLine::Settled
            | LogLine::Audited { .. }
            | LogLine::RouterRefused { .. } => Level::Info,
            LogLine::AcceptFailed
            | LogLine::MemoryRefused
            | LogLine::WorkerFault(_)
            | LogLine::OperatorGone
            | LogLine::ControlGone
            | LogLine::ViewersGone
            | LogLine::JournalGone
            | LogLine::Stranger { .. }
            | LogLine::BelowZero { .. }
            | LogLine::FewDescriptors { .. }
            | LogLine::Withheld { .. }
            | LogLine::Lost { .. }
            | LogLine::NoAnswer { .. }
            | LogLine::Slowed { .. } => Level::Warn,
            LogLine::Refused { .. } => Level::Debug,
            LogLine::Decided(decision) => decision.level(),
        }
    }
}

/// Returns the line for an event of a peer that was refused. A report that is refused because too many paths stand has a
/// line of its own.
pub fn refusal_line(peer: u32, event: &Event, why: Why) -> LogLine
    ensures { result ≡ refusal_line peer event.now why }
{
    match (event, why) {
        (Event::Report { report, .. }, Why::TooManyPaths) => {
            LogLine::Decided(Decision::NotBooked {
                peer,
                plsp: report.plsp.number(),
            })
        }
        _ => LogLine::Refused {
            peer,
            number: why.number(),
        },
    }
}

/// Writes the line. Why a connection ended stands behind the line, as a pair.
pub(crate) fn write_line<R: Log>(rt: &R, line: LogLine) {
    if let LogLine::Ended { reason, .. } = line {
        info!(*rt; target: TARGET, why:% = reason; "{line}");
        return;
    }
    log!(*rt; target: TARGET, line.level(), "{line}");
}

/// Says whether lines of level debug are wanted.
pub fn is_debug_wanted<R: Log>(rt: &R) -> bool {
    log_enabled!(*rt; target: TARGET, Level::Debug)
}
