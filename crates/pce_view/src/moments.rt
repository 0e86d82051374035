//! How long ago a peer came up or went down, and how its last connection ended.
ghost use Rattle.std.specs.Prelude.{◌≡◌};
ghost use Rattle.pce_view.specs.Peers.{ended_at, moments_of};

use end_reasons::Reason;
use server_counts::{LastEnd, PeerState};

/// What is shown of a peer beside its session, as far as it is known.
#[derive(Clone, Copy)]
pub(crate) struct Moments {
    /// So long it has been up or down, in milliseconds.
    pub since_ms_ago: Option<u64>,
    pub end_ms_ago: Option<u64>,
    pub end: Option<Reason>,
    /// The number of the refusal or of the Close by which its last connection ended.
    pub number: Option<u64>,
}

fn ended_at(now_ms: u64, end: Option<LastEnd>) -> Moments
    ensures { result ≡ ended_at now_ms end }
{
    match end {
        None => Moments {
            since_ms_ago: None,
            end_ms_ago: None,
            end: None,
            number: None,
        },
        Some(end) => Moments {
            since_ms_ago: None,
            end_ms_ago: Some(now_ms.saturating_sub(end.at_ms)),
            end: Some(end.reason),
            number: end.reason.number().map(u64::from),
        },
    }
}

/// Returns what is shown at this moment of a peer of which this is noted.
pub(crate) fn moments_of(now_ms: u64, peer_state: Option<PeerState>) -> Moments
    ensures { result ≡ moments_of now_ms peer_state }
{
    let Some(peer_state) = peer_state else {
        return ended_at(now_ms, None);
    };
    let Moments {
        since_ms_ago: _,
        end_ms_ago,
        end,
        number,
    } = ended_at(now_ms, peer_state.last_end);
    Moments {
        since_ms_ago: Some(now_ms.saturating_sub(peer_state.since_ms)),
        end_ms_ago,
        end,
        number,
    }
}
