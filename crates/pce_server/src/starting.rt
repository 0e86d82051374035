//! What a run logs when it starts, and how many connections have a place in it.
ghost use Rattle.std.specs.Prelude.{◌≡◌, ◌*◌, ◌≤◌};
ghost use Rattle.server_rules.specs.Ranges.{AreSessions, AreOrders};

use server_journal::JournalPlace;
use server_log::LogLine;
use server_rules::{AT_ONCE, Orders, Sessions};
use server_talk::peer_of;
use shared_pce::RollAt;
use std::net::TcpListener;
use te_base::TeBase;

/// The number of descriptors that a run may need apart from those of its connections.
const OTHER_DESCRIPTORS: u64 = 128;

/// The number of kept steps at which the history is rolled, of the 1,048,576 that it holds.
const ROLL_STEPS: u64 = 1_000_000;

/// Returns when the history is rolled: at 1,000,000 kept steps, or when they take half of the memory that the history
/// may take. Receipts hold at most the other half: those of rolled steps, until their seats fold them.
pub(crate) fn roll_at(orders: Orders) -> RollAt
    requires { AreOrders orders }
    ensures steps { result.steps ≡ 1000000 }
    ensures bytes { result.bytes ≡ orders.history_megabytes * 500000 }
{
    RollAt {
        steps: ROLL_STEPS,
        bytes: orders.history_megabytes * 500_000,
    }
}

/// Counts the seats for the thread that writes the journal.
pub(crate) fn journal_seats(journal: &Option<JournalPlace<'_>>) -> u64
    ensures { result ≤ 1 }
{
    match journal {
        Some(_) => 1,
        None => 0,
    }
}

/// Returns how many connections have a place at most.
pub(crate) fn live_of(sessions: Sessions) -> u64
    requires { AreSessions sessions }
    ensures { (1 ≤ result) × (result ≤ 64) }
{
    match sessions {
        Sessions::Count(count) => count.min(AT_ONCE as u64),
        Sessions::Endless => AT_ONCE as u64,
    }
}

/// Returns a line if there are too few descriptors for as many connections as may be open and as many that end, with
/// three each.
pub(crate) fn few_descriptors(orders: Orders) -> Option<LogLine>
    requires { AreOrders orders }
{
    let limit = orders.descriptors?;
    if limit < 6 * live_of(orders.sessions) + OTHER_DESCRIPTORS {
        Some(LogLine::FewDescriptors { limit })
    } else {
        None
    }
}

/// Returns the line that says where routers may connect, and how large the network is.
pub(crate) fn listening_line(listener: &TcpListener, te: &TeBase) -> LogLine {
    let (address, port) = match listener.local_addr() {
        Ok(local) => (peer_of(local), local.port()),
        Err(_) => (0, 0),
    };
    LogLine::Listening {
        address,
        port,
        nodes: te.node_count(),
        links: te.link_count(),
    }
}
