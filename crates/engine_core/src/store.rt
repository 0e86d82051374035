//! Where events go.

ghost use Rattle.std.specs.Prelude.{ℕ, ◌≡◌, ◌<◌, ◌-◌, [], ◌∷◌, ◌++◌, List, length, slice_get, Some, Err, IfErr, IfOk, OnOk, OnErr};
ghost use Rattle.history_core.specs.declared.fault.Fault.TheVariants.{HistoryFull};
ghost use Rattle.step_core.specs.declared.event.Reply.{Reply};
ghost use Rattle.engine_core.specs.Calls.{called, newest_reply};
ghost use Rattle.engine_core.specs.Deeds.{Deed, Opened, Delivered, Shown, calls_of};
ghost use Rattle.engine_core.specs.declared.store.Call.{Call};

use history_core::{Event, Fault, Reply, SharedEvent};
use pcep_messages::Message;
use pcep_objects::Open;
use sequence::PlainData;
use std::alloc::AllocError;

/// An event that was submitted, with the reply that it got.
#[derive(Debug, Drop)]
pub struct Call {
    pub event: SharedEvent,
    pub reply: Reply,
}

impl PlainData for Call {
    fn copy(&self) -> Result<Call, AllocError> {
        Ok(Call {
            event: self.event.copy()?,
            reply: self.reply.copy()?,
        })
    }
}

/// Where events go: a database that is lent, or one that is shared. It keeps a list of the calls that were made. It is
/// shown what its session learns, which a store may ignore.
pub trait Store {
    /// The calls since the list was last emptied.
    ghost calls: { Self → List Call };

    /// These deeds, in order, lead from the one to the other.
    ghost moves: { Self → List Deed → Self → Type 0 };

    /// The stores are the same, apart from their lists.
    ghost same_but_calls: { Self → Self → Type 0 };

    /// No further step can be kept.
    ghost is_full: { Self → Type 0 };

    /// The one is the other with its history rolled, and n steps were taken before its base.
    ghost rolls: { Self → ℕ → Self → Type 0 };

    /// Submits an event. It is added to the list with the reply that it got. After a fault nothing is.
    fn submit(&mut self, event: Event) -> Result<(), Fault>
        ensures submitted { OnOk result ((reply : Reply) × moves self.old (called event reply ∷ []) self.new) }
        ensures unchanged { OnErr result (moves self.old [] self.new) }
        ensures full { result ≡ Err HistoryFull → is_full self.new };

    /// Is shown the peer's Open, as the session comes up (RFC 5440 section 6.2). No call is made.
    fn show_open(&mut self, peer_open: Open)
        ensures { moves self.old (Shown (Opened peer_open) ∷ []) self.new };

    /// Is shown a message that the session delivers. No call is made.
    fn show_message(&mut self, message: &Message)
        ensures { moves self.old (Shown (Delivered message.now) ∷ []) self.new };

    /// Lends the calls since the list was last emptied, oldest first.
    fn calls(&self) -> &[Call]
        ensures { result.now ≡ calls self.now };

    /// Empties the list.
    fn forget(&mut self)
        ensures empty { calls self.new ≡ [] }
        ensures same { same_but_calls self.old self.new };

    /// Rolls the history, so that more steps can be kept, and returns how many steps were taken before its base. No
    /// call is made. If memory runs out nothing has changed.
    fn roll(&mut self) -> Result<u64, AllocError>
        ensures rolled { IfOk result (λ steps. rolls self.old steps self.new) }
        ensures unchanged { OnErr result (moves self.old [] self.new) };

    ghost moves_nowhere: { (s : Self) → moves s [] s };

    ghost moves_on: { (a b c : Self) (first second : List Deed) → moves a first b → moves b second c → moves a (first ++ second) c };

    ghost moves_add: { (a b : Self) (made : List Deed) → moves a made b → calls b ≡ calls a ++ calls_of made };
}

/// Submits an event. Its call is the newest in the list.
pub(crate) fn hand_in<S: Store>(store: &mut S, event: Event) -> Result<(), Fault>
    ensures submitted { OnOk result (S.moves store.old (called event (newest_reply (S.calls store.new)) ∷ []) store.new) }
    ensures answered { OnOk result (0 < length (S.calls store.new)) }
    ensures unchanged { OnErr result (S.moves store.old [] store.new) }
    ensures full { result ≡ Err HistoryFull → S.is_full store.new }
{
    store.submit(event)
}

/// Returns the reply to the newest call.
pub(crate) fn reply<S: Store>(store: &S) -> &Reply
    requires { 0 < length (S.calls store.now) }
    ensures { result.now ≡ newest_reply (S.calls store.now) }
{
    last_reply(store)
}

/// Returns the reply to the last call.
pub fn last_reply<S: Store>(store: &S) -> &Reply
    requires { 0 < length (S.calls store.now) }
    ensures { (call : Call) → slice_get (S.calls store.now) (length (S.calls store.now) - 1) ≡ Some call → result.now ≡ call.reply }
{
    let calls = store.calls();
    &calls[calls.len() - 1].reply
}
