//! A database that is lent to the engine, on one thread, and serving over it.

ghost use Rattle.std.specs.Prelude.{◌≡◌, [], true, OnErr};
ghost use Rattle.pcep_session.specs.Turns.{is_closed};
ghost use Rattle.engine_core.specs.Engine.{served, hung_up};
ghost use Rattle.engine_core.specs.Lending.{Steps, IsFull};
ghost use Rattle.engine_core.specs.Performed.{performed, Performs};
ghost use Rattle.engine_core.specs.Stores.{ServesOrEnds};

use crate::client::Client;
use crate::serving::{hang_up, serve};
use crate::store::{Call, Store};
use history_core::{Database, Event, Fault, SharedEvent};
use pcep_messages::Message;
use pcep_objects::Open;
use sequence::PlainData;
use std::alloc::{AllocError, Global};

/// A database that is lent, with the calls that were made on it.
#[derive(Drop)]
pub struct Lent<'a> {
    database: &'a mut Database,
    calls: Vec<Call>,
}

impl<'a> Lent<'a> {
    /// Lends the database, with no calls yet. Allocates nothing.
    pub fn new(alloc: Global, database: &'a mut Database) -> Lent<'a>
        ensures same_loan { result.database.ghost_name ≡ database.entry.ghost_name }
        ensures database { result.database.now ≡ database.old }
        ensures calls { result.calls.items ≡ [] }
    {
        Lent {
            database,
            calls: Vec::new(alloc),
        }
    }
}

impl<'a> Store for Lent<'a> {
    ghost use Rattle.engine_core.specs.Lending.{LentMoves, LentRolls, SameDatabase, IsFull};
    ghost use Rattle.engine_core.specs.LendingLaws.{moves_nowhere, moves_on};

    ghost calls = { λ s. s.calls.items };

    ghost moves = { λ old made new. LentMoves old made new };

    ghost same_but_calls = { λ old new. SameDatabase old new };

    ghost is_full = { λ s. IsFull s.database.now };

    ghost rolls = { λ old steps new. LentRolls old steps new };

    ghost moves_nowhere = { λ s. moves_nowhere s };

    ghost moves_on = { λ a b c first second h k. moves_on a b c first second h k };

    ghost moves_add = { λ a b made h. h.added };

    /// Takes one step of the database. Makes room for the call first. The event is in memory once.
    fn submit(&mut self, event: Event) -> Result<(), Fault> {
        self.calls.reserve(1)?;
        let event = SharedEvent::new(*self.calls.allocator(), event)?;
        let kept = event.copy()?;
        let reply = self.database.apply_shared(kept)?;
        self.calls.push_reserved(Call { event, reply });
        Ok(())
    }

    fn show_open(&mut self, _peer_open: Open) {}

    fn show_message(&mut self, _message: &Message) {}

    fn calls(&self) -> &[Call] {
        self.calls.as_slice()
    }

    fn forget(&mut self) {
        self.calls.clear();
    }

    fn roll(&mut self) -> Result<u64, AllocError> {
        self.database.roll()?;
        Ok(self.database.rolled())
    }
}

fn serve_lent(
    store: &mut Lent,
    client: &mut Client,
    peer: u32,
    piece: &[u8],
    now_ms: u64,
) -> Result<(), Fault>
    ensures same_loan { store.new.database.ghost_name ≡ store.old.database.ghost_name }
    ensures served { ServesOrEnds result Steps IsFull store.old.database.now store.new.database.now client.old client.new (served peer piece.now now_ms client.old) }
    ensures performed { Performs result client.new store.new.database.now (performed (served peer piece.now now_ms client.old) store.old.database.now) }
    ensures closed_after_fault { OnErr result (is_closed client.new.session.state ≡ true) }
{
    serve(client, peer, piece, now_ms, store)
}

fn hang_up_lent(store: &mut Lent, client: &mut Client, peer: u32) -> Result<(), Fault>
    ensures same_loan { store.new.database.ghost_name ≡ store.old.database.ghost_name }
    ensures hung_up { Performs result client.new store.new.database.now (performed (hung_up peer client.old) store.old.database.now) }
    ensures unchanged { OnErr result (client.new ≡ client.old) }
    ensures same_database { OnErr result (store.new.database.now ≡ store.old.database.now) }
{
    hang_up(client, peer, store)
}

/// Serves a session over a database, which takes each event as a step, as `serve` does over a `Lent`. The list of the
/// calls is dropped. After a fault the steps up to then stay, the session has ended in the state that their replies had
/// led to, and no Close is sent. `HistoryFull` means that an event was to be taken and the history was full.
pub fn serve_database(
    alloc: Global,
    database: &mut Database,
    client: &mut Client,
    peer: u32,
    piece: &[u8],
    now_ms: u64,
) -> Result<(), Fault>
    ensures served { ServesOrEnds result Steps IsFull database.old database.new client.old client.new (served peer piece.now now_ms client.old) }
    ensures performed { Performs result client.new database.new (performed (served peer piece.now now_ms client.old) database.old) }
    ensures closed_after_fault { OnErr result (is_closed client.new.session.state ≡ true) }
{
    let mut store = Lent::new(alloc, database);
    let outcome = serve_lent(&mut store, client, peer, piece, now_ms);
    let Lent {
        database: _database,
        calls: _calls,
    } = store;
    outcome
}

/// Ends a session over a database, as `hang_up` does. After a fault both are as before.
pub fn hang_up_database(
    alloc: Global,
    database: &mut Database,
    client: &mut Client,
    peer: u32,
) -> Result<(), Fault>
    ensures hung_up { Performs result client.new database.new (performed (hung_up peer client.old) database.old) }
    ensures unchanged { OnErr result (client.new ≡ client.old) }
    ensures same_database { OnErr result (database.new ≡ database.old) }
{
    let mut store = Lent::new(alloc, database);
    let outcome = hang_up_lent(&mut store, client, peer);
    let Lent {
        database: _database,
        calls: _calls,
    } = store;
    outcome
}
