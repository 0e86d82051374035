//! Tells whether the session of a connection is up, from the calls that it made.
ghost use Rattle.std.specs.Prelude.{◌≡◌, [], ◌∷◌, ◌++◌, List};
ghost use Rattle.engine_core.specs.Joining.{joined_by};
ghost use Rattle.engine_core.specs.declared.store.Call.{Call};
ghost use Rattle.server_base.specs.Expiries.{Stands};

use engine_core::{Call, Event, Reply};

/// The standing of a connection: its session is up from its accepted Up until its Down is submitted.
#[derive(Clone, Copy, PartialEq, Eq, Debug)]
pub struct Standing {
    is_joined: bool,
}

/// Tests whether the session is up after this call, given whether it was up before.
fn joined_by(is_joined: bool, call: &Call) -> bool
    ensures { result ≡ joined_by is_joined call.now.event call.now.reply }
{
    match (call.event.event(), &call.reply) {
        (Event::Up { .. }, Reply::Done) => true,
        (Event::Down { .. }, _) => false,
        _ => is_joined,
    }
}

impl Standing {
    /// Makes the standing of a session that has made no call.
    pub fn new() -> Standing
        ensures { Stands result [] }
    {
        Standing { is_joined: false }
    }

    /// Returns the standing after one more call of the session.
    pub fn after(self, call: &Call) -> Standing
        ensures { (calls : List Call) → Stands self calls → Stands result (calls ++ call.now ∷ []) }
    {
        Standing {
            is_joined: joined_by(self.is_joined, call),
        }
    }

    /// Tests whether the session is up.
    pub(crate) fn is_joined(self) -> bool
        ensures { result ≡ self.is_joined }
    {
        self.is_joined
    }
}
