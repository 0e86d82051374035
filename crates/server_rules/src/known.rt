//! What is known about one peer, and how each happening changes it.
ghost use Rattle.std.specs.Prelude.{◌≡◌, ◌+◌, ◌<◌, ◌^◌, IsTrue, IsNone, IfSome};
ghost use Rattle.server_rules.specs.Peers.{needs_no_room, after, later, owing, is_among, spare_since};
ghost use Rattle.server_rules.specs.declared.known.Happening.TheVariants.{Connected, Up, Down, Owed, Submitted};

/// What happens to a peer.
#[derive(Clone, Copy, PartialEq, Eq, Debug)]
pub enum Happening {
    /// A connection of it was accepted.
    Connected,
    /// A session of it came up.
    Up,
    /// The session that was up ended, and its Down was submitted by this moment, in milliseconds.
    Down(u64),
    /// The session that was up ended, and there was no memory for its Down.
    Owed,
    /// The owed Down was submitted by this moment, in milliseconds.
    Submitted(u64),
    /// A connection of it ended.
    Gone,
    /// It was forgotten.
    Forgotten,
    /// It should have been forgotten, which was refused: it is up again, or isn't known.
    Kept,
}

/// What is known about a peer.
#[derive(Clone, Copy, PartialEq, Eq, Debug)]
pub struct Known {
    /// The number of its live connections.
    pub live: u64,
    /// The number of them whose session is up.
    pub up: u64,
    /// Its Down is still to be submitted.
    pub owes_a_down: bool,
    /// When its last session ended, in milliseconds, until it is forgotten.
    pub last_down: Option<u64>,
}

impl Known {
    /// What is known about a peer that never came.
    pub const NOTHING: Known = Known {
        live: 0,
        up: 0,
        owes_a_down: false,
        last_down: None,
    };
}

/// What should be submitted for a peer.
#[derive(Clone, Copy, PartialEq, Eq, Debug)]
pub enum Owing {
    Down,
    Expire,
}

/// Returns what is known after one more connection, if it can be counted.
pub(crate) fn one_more(known: Known) -> Option<Known>
    ensures { IfSome result (λ more. more ≡ after Connected known) }
{
    Some(Known {
        live: known.live.checked_add(1)?,
        up: known.up,
        owes_a_down: known.owes_a_down,
        last_down: known.last_down,
    })
}

/// Returns the later of two moments.
fn later(at_ms: u64, other: Option<u64>) -> u64
    ensures { result ≡ later at_ms other }
{
    match other {
        None => at_ms,
        Some(other_ms) => at_ms.max(other_ms),
    }
}

/// Returns what is known after a session of it ended by this moment, and its Down was submitted.
fn downed(at_ms: u64, known: Known) -> Known
    ensures { result ≡ after (Down at_ms) known }
{
    if known.up == 0 {
        return known;
    }
    Known {
        live: known.live,
        up: known.up - 1,
        owes_a_down: known.owes_a_down,
        last_down: Some(later(at_ms, known.last_down)),
    }
}

/// Returns what is known after a session of it ended, and its Down is owed.
fn owed(known: Known) -> Known
    ensures { result ≡ after Owed known }
{
    if known.up == 0 {
        return known;
    }
    Known {
        live: known.live,
        up: known.up - 1,
        owes_a_down: true,
        last_down: known.last_down,
    }
}

/// Returns what is known after the owed Down was submitted by this moment.
fn submitted(at_ms: u64, known: Known) -> Known
    ensures { result ≡ after (Submitted at_ms) known }
{
    if !known.owes_a_down {
        return known;
    }
    Known {
        live: known.live,
        up: known.up,
        owes_a_down: false,
        last_down: Some(later(at_ms, known.last_down)),
    }
}

/// Returns what is known after a session of it came up.
fn risen(known: Known) -> Known
    ensures { result ≡ after Up known }
{
    if known.up >= known.live {
        return known;
    }
    Known {
        live: known.live,
        up: known.up + 1,
        owes_a_down: known.owes_a_down,
        last_down: known.last_down,
    }
}

/// Returns what is known about the peer after a happening.
pub(crate) fn after(what: Happening, known: Known) -> Known
    requires { IsTrue (needs_no_room what) }
    ensures { result ≡ after what known }
{
    match what {
        Happening::Connected => known,
        Happening::Up => risen(known),
        Happening::Down(at_ms) => downed(at_ms, known),
        Happening::Owed => owed(known),
        Happening::Submitted(at_ms) => submitted(at_ms, known),
        Happening::Gone => Known {
            live: known.live.saturating_sub(1),
            up: known.up,
            owes_a_down: known.owes_a_down,
            last_down: known.last_down,
        },
        Happening::Forgotten | Happening::Kept => Known {
            live: known.live,
            up: known.up,
            owes_a_down: known.owes_a_down,
            last_down: None,
        },
    }
}

/// Returns what is due for a peer about which this is known.
pub(crate) fn due_of(known: Known, now_ms: u64, keep_ms: u64) -> Option<Owing>
    ensures { result ≡ owing now_ms keep_ms known }
{
    if known.owes_a_down {
        return Some(Owing::Down);
    }
    if known.up > 0 {
        return None;
    }
    match known.last_down {
        Some(at_ms) if at_ms <= now_ms && now_ms - at_ms >= keep_ms => Some(Owing::Expire),
        _ => None,
    }
}

/// Tests whether the peer is one of these.
fn is_among(holders: &[u32], peer: u32) -> bool
    ensures { result ≡ is_among holders.now peer }
{
    holders.iter().any(|holder| *holder == peer)
}

/// Returns since when the peer has been down, if it could make room for another one. The holders are the peers that
/// hold an LSP.
pub(crate) fn spare_since(known: Known, peer: u32, holders: &[u32]) -> Option<u64>
    ensures { result ≡ spare_since holders.now peer known }
{
    if known.owes_a_down || known.up > 0 || is_among(holders, peer) {
        return None;
    }
    known.last_down
}
