//! The database with the totals of all seats.
ghost use Rattle.std.specs.Prelude.{◌≡◌, ◌<◌, ◌≤◌, ◌↔◌, All, List, [], ◌∷◌, ◌++◌, length, IsTrue, IfOk, IfErr, OnOk, OnErr, replicate, vec_len, ◌+◌, ◌-◌, ◌^◌, min};
ghost use mathlib.Core.List.{IsPrefix};
ghost use Rattle.step_core.specs.Steps.{step};
ghost use Rattle.history_core.specs.Briefs.{brief_of};
ghost use Rattle.history_core.specs.Histories.{beginning, kept_step, is_full, steps_of, grants_of};
ghost use Rattle.history_tokens.specs.declared.rule.Happening.TheVariants.{Took, Rolled};
ghost use Rattle.history_seats.specs.Past.{database_at, with_seen, stepped_at};
ghost use Rattle.history_seats.specs.Seeing.{HasSeenOf};
ghost use Rattle.history_seats.specs.Bytes.{kept_bytes};
ghost use Rattle.history_seats.specs.Receipts.{IsPlaced, new_seat, after_fold, dropped};
ghost use Rattle.history_seats.specs.Audits.{AllDistinct, IsAudited, Fails, steps_received, grants_received};

use crate::audit::test_receipts;
use crate::brands::{Brands, Grants, Steps};
use crate::bytes::more_bytes;
use crate::fault::AuditFault;
use crate::receipt::{Receipt, grant_count, past_floor};
use crate::seat::Seat;
use crate::shares::{compare_all, gather, gather_places};
use history_core::{Brief, Database, Fault, Step};
use history_tokens::{Front, Keeper, Unnamed};
use place_tokens::{Drawn, Source, Unopened};
use sequence::PlainData;
use std::alloc::{AllocError, Global};
use std::marker::Model;
use std::mem;
use std::sync::ledger::{Blank, Book, Share};
use step_core::{Event, Reply, SharedEvent};

/// A database, with the totals of what its seats received, the source of the places of its steps, and the keeper of
/// what has happened to it. A contract sees the steps and rolls, oldest first, that led to the database from the
/// network that the type names.
pub struct Held<B: Brands> {
    alloc: Global,
    database: Database,
    /// How many seats there are.
    seats: u64,
    steps: Book<Steps<B>>,
    grants: Book<Grants<B>>,
    source: Source<B>,
    history: Keeper<Event, B>,
    /// How many bytes the kept steps take in memory.
    bytes: u64,
}

/// Drops each part. Written by hand because a derived drop would be proved again for every owner.
impl<B: Brands> Drop for Held<B> {
    fn drop(self) {
        let Held {
            alloc: _,
            database,
            seats: _,
            steps,
            grants,
            source,
            history,
            bytes: _,
        } = self;
        drop(database);
        drop(steps);
        drop(grants);
        drop(source);
        drop(history);
    }
}

impl<B: Brands> Model for Held<B> {
    ghost use Rattle.std.specs.Prelude.{◌≡◌, ◌<◌, List, length};
    ghost use Rattle.history_core.specs.Histories.{steps_of, grants_of};
    ghost use Rattle.history_tokens.specs.declared.rule.Happening.{Happening};
    ghost use Rattle.history_seats.specs.Past.{database_at};
    ghost use Rattle.history_seats.specs.Bytes.{kept_bytes};
    ghost use Rattle.step_core.specs.declared.event.Event.{Event};

    ghost Value = { List (Happening Event) };

    ghost view = { λ h. h.history };

    ghost invariant = { λ h.
        (h.steps.total ≡ steps_of h.database) × (h.grants.total ≡ grants_of h.database)
        × (0 < h.seats) × (h.seats ≡ B.seats)
        × (h.source ≡ steps_of h.database) × (h.database ≡ database_at B.text h.history)
        × (h.bytes ≡ kept_bytes (database_at B.text h.history)) };
}

/// Returns the brief of the last of the steps.
fn newest_brief(steps: &[Step]) -> Brief
    requires { 0 < length steps.now }
    ensures { (before : List Step) (event : Event) (reply : Reply) → steps.now ≡ before ++ kept_step event reply ∷ [] → result ≡ brief_of reply }
{
    steps[steps.len() - 1].brief
}

impl<B: Brands> Held<B> {
    /// Makes the next token's seat, with a part of each share.
    fn next_seat(
        alloc: Global,
        steps_left: &mut Share<Steps<B>>,
        grants_left: &mut Share<Grants<B>>,
        tokens: &mut Vec<Drawn<B>>,
        history: &mut Keeper<Event, B>,
    ) -> Seat<B>
        requires steps { (1 ≤ steps_left.old.parts) × (steps_left.old.amount ≡ 0) }
        requires grants { (1 ≤ grants_left.old.parts) × (grants_left.old.amount ≡ 0) }
        requires some { 0 < vec_len tokens.old }
        requires none_drawn { All (λ d. d ≡ []) tokens.old.items }
        requires nothing_happened { history.old ≡ [] }
        ensures seat { result ≡ new_seat }
        ensures nothing_happened { history.new ≡ [] }
        ensures steps { (steps_left.new.parts + 1 ≡ steps_left.old.parts) × (steps_left.new.amount ≡ 0) }
        ensures grants { (grants_left.new.parts + 1 ≡ grants_left.old.parts) × (grants_left.new.amount ≡ 0) }
        ensures count { vec_len tokens.new + 1 ≡ vec_len tokens.old }
        ensures none_drawn { All (λ d. d ≡ []) tokens.new.items }
    {
        let Some(drawn) = tokens.pop() else {
            unreachable!();
        };
        Seat::new(
            alloc,
            steps_left.split_off(1, 0),
            grants_left.split_off(1, 0),
            drawn,
            history.front(),
        )
    }

    /// Makes a seat for each token.
    fn seats_of(
        alloc: Global,
        n: u64,
        steps_left: &mut Share<Steps<B>>,
        grants_left: &mut Share<Grants<B>>,
        tokens: &mut Vec<Drawn<B>>,
        history: &mut Keeper<Event, B>,
    ) -> Result<Vec<Seat<B>>, AllocError>
        requires steps { (steps_left.old.parts ≡ n) × (steps_left.old.amount ≡ 0) }
        requires grants { (grants_left.old.parts ≡ n) × (grants_left.old.amount ≡ 0) }
        requires tokens { tokens.old.items ≡ replicate n [] }
        requires nothing_happened { history.old ≡ [] }
        ensures nothing_happened { history.new ≡ [] }
        ensures seats { IfOk result (λ seats. seats.items ≡ replicate n new_seat) }
    {
        let mut seats = Vec::new(alloc);
        for _i in 0..n {
            let seat = Held::<B>::next_seat(alloc, steps_left, grants_left, tokens, history);
            seats.push(seat)?;
        }
        Ok(seats)
    }

    /// Makes the source of places, and a seat for each of its tokens, with a part of each share.
    fn seated(
        alloc: Global,
        n: u64,
        steps: Share<Steps<B>>,
        grants: Share<Grants<B>>,
        room: Unopened,
        history: &mut Keeper<Event, B>,
    ) -> Result<(Source<B>, Vec<Seat<B>>), AllocError>
        requires steps { (steps.parts ≡ n) × (steps.amount ≡ 0) }
        requires grants { (grants.parts ≡ n) × (grants.amount ≡ 0) }
        requires room { (room.table ≡ B.table) × (room.seats ≡ B.seats) × (room.seats ≡ n) }
        requires nothing_happened { history.old ≡ [] }
        ensures nothing_happened { history.new ≡ [] }
        ensures source { IfOk result (λ r. r.0 ≡ 0) }
        ensures seats { IfOk result (λ r. r.1.items ≡ replicate n new_seat) }
    {
        let (mut steps, mut grants) = (steps, grants);
        let (source, mut tokens) = room.open::<B>(alloc)?;
        let seats = Held::<B>::seats_of(alloc, n, &mut steps, &mut grants, &mut tokens, history)?;
        Ok((source, seats))
    }

    /// Makes the database of which no step was taken yet, with its seats: one for each part of the two blanks and each
    /// token of the room, 1 to 256 of them. Drops everything if memory runs out.
    pub fn new(
        alloc: Global,
        database: Database,
        n: u64,
        steps: Blank,
        grants: Blank,
        room: Unopened,
        history: Unnamed<Event>,
    ) -> Result<(Held<B>, Vec<Seat<B>>), AllocError>
        requires none_taken { steps_of database ≡ 0 }
        requires start { database.start ≡ beginning B.text }
        requires history { history ≡ B.log }
        requires seats { (1 ≤ n) × (n ≤ 256) }
        requires steps { (steps.name ≡ B.steps) × (steps.parts ≡ B.seats) × (steps.parts ≡ n) }
        requires grants { (grants.name ≡ B.grants) × (grants.parts ≡ B.seats) × (grants.parts ≡ n) }
        requires room { (room.table ≡ B.table) × (room.seats ≡ B.seats) × (room.seats ≡ n) }
        ensures database { IfOk result (λ r. (r.0 ≡ []) × (database ≡ database_at B.text [])) }
        ensures seats { IfOk result (λ r. r.1.items ≡ replicate n new_seat) }
    {
        // only for the proof: no step is kept
        let _none = database.history();
        let (steps, steps_left) = steps.open::<Steps<B>>();
        let (grants, grants_left) = grants.open::<Grants<B>>();
        let mut history = history.named::<B>();
        match Held::<B>::seated(alloc, n, steps_left, grants_left, room, &mut history) {
            Ok((source, seats)) => Ok((
                Held {
                    alloc,
                    database,
                    seats: n,
                    steps,
                    grants,
                    source,
                    history,
                    bytes: 0,
                },
                seats,
            )),
            Err(error) => {
                drop(database);
                Err(error)
            }
        }
    }

    /// Lends the database.
    pub fn database(&self) -> &Database
        ensures { result.now ≡ database_at B.text self.now }
    {
        &self.database
    }

    /// Returns how many bytes the kept steps take in memory, with their receipts and all that their events hold: the
    /// sum of `event_bytes::bytes_of`, up to 2^64 - 1. A roll makes it 0.
    pub fn kept_bytes(&self) -> u64
        ensures { result ≡ kept_bytes (database_at B.text self.now) }
    {
        self.bytes
    }

    /// Returns only the database. The seats are of no more use.
    pub fn into_database(self) -> Database
        ensures { result ≡ database_at B.text self }
    {
        let Held {
            alloc: _,
            database,
            seats: _,
            steps: _,
            grants: _,
            source: _,
            history: _,
            bytes: _,
        } = self;
        database
    }

    /// Takes one event as one step of the database, and gives its receipt to the seat. After a fault the database and
    /// the seat are as before, and the event is dropped. `HistoryFull` is tested first.
    pub fn step(&mut self, seat: &mut Seat<B>, event: Event) -> Result<Reply, Fault>
        ensures step { IfOk result (λ _. self.new ≡ self.old ++ Took event ∷ []) }
        ensures reply { IfOk result (λ reply. reply ≡ (step (database_at B.text self.old).state event).reply) }
        ensures begins { IsPrefix seat.old.seen self.old }
        ensures receipt { IfOk result (λ reply. seat.new ≡ stepped_at B.text self.old event reply seat.old) }
        ensures full { (result ≡ Err Fault.HistoryFull) ↔ IsTrue (is_full (database_at B.text self.old)) }
        ensures unchanged_on_fault { OnErr result ((self.new ≡ self.old) × (seat.new ≡ with_seen self.old seat.old)) }
    {
        if self.database.is_full() {
            self.history.show(&mut seat.seen);
            return Err(Fault::HistoryFull);
        }
        let Ok(shared) = SharedEvent::new(self.alloc, event) else {
            self.history.show(&mut seat.seen);
            return Err(Fault::OutOfMemory);
        };
        self.step_shared(seat, shared)
    }

    /// Does the same with an event that others keep too. It is in memory once, also for the history and the receipt.
    pub fn step_shared(&mut self, seat: &mut Seat<B>, event: SharedEvent) -> Result<Reply, Fault>
        ensures step { IfOk result (λ _. self.new ≡ self.old ++ Took event ∷ []) }
        ensures reply { IfOk result (λ reply. reply ≡ (step (database_at B.text self.old).state event).reply) }
        ensures begins { IsPrefix seat.old.seen self.old }
        ensures receipt { IfOk result (λ reply. seat.new ≡ stepped_at B.text self.old event reply seat.old) }
        ensures full { (result ≡ Err Fault.HistoryFull) ↔ IsTrue (is_full (database_at B.text self.old)) }
        ensures unchanged_on_fault { OnErr result ((self.new ≡ self.old) × (seat.new ≡ with_seen self.old seat.old)) }
    {
        let (reply, _let_go) = self.step_and_fold(seat, event)?;
        Ok(reply)
    }

    /// Does the same, and returns the receipts that the seat no longer keeps, oldest first, so that they can be dropped
    /// after a lock is freed. A seat that folds goes on with a list of its own. Makes room for the new receipt before the
    /// step, and nothing fails after it.
    pub fn step_and_fold(
        &mut self,
        seat: &mut Seat<B>,
        event: SharedEvent,
    ) -> Result<(Reply, Vec<Receipt>), Fault>
        ensures step { IfOk result (λ _. self.new ≡ self.old ++ Took event ∷ []) }
        ensures reply { IfOk result (λ r. r.0 ≡ (step (database_at B.text self.old).state event).reply) }
        ensures begins { IsPrefix seat.old.seen self.old }
        ensures receipt { IfOk result (λ r. seat.new ≡ stepped_at B.text self.old event r.0 seat.old) }
        ensures given { IfOk result (λ r. r.1.items ≡ dropped (database_at B.text self.old).rolled seat.old) }
        ensures full { (result ≡ Err Fault.HistoryFull) ↔ IsTrue (is_full (database_at B.text self.old)) }
        ensures unchanged_on_fault { OnErr result ((self.new ≡ self.old) × (seat.new ≡ with_seen self.old seat.old)) }
    {
        self.history.show(&mut seat.seen); // for the proof only
        if self.database.is_full() {
            return Err(Fault::HistoryFull);
        }
        let past = past_floor(seat.floor, self.database.rolled(), seat.receipts.as_slice());
        let mut spare = Vec::new(self.alloc);
        match past {
            Some(_) => spare.reserve(1)?,
            None => seat.receipts.reserve(1)?,
        }
        let theirs = event.copy()?;
        let place = self.database.steps();
        let reply = self.database.apply_shared(theirs)?;
        if let Some(floor) = past {
            mem::swap(&mut seat.receipts, &mut spare);
            seat.folded = seat.received;
            seat.folded_grants = seat.granted;
            seat.floor = floor;
        }
        let brief = newest_brief(self.database.history());
        let grants = grant_count(brief);
        self.steps.add(&mut seat.steps, 1);
        self.grants.add(&mut seat.grants, grants);
        self.steps.audit(&mut seat.steps);
        self.grants.audit(&mut seat.grants);
        // only for the proof: a seat received no more steps and grants than there were
        let _steps = self.database.steps();
        let _grants = self.database.grants();
        self.source.draw(&mut seat.drawn);
        self.history.took(&mut seat.seen, event.event());
        let bytes = more_bytes(self.bytes, event.event());
        self.bytes = bytes;
        seat.received += 1;
        seat.granted += grants;
        seat.receipts.push_reserved(Receipt {
            place,
            event,
            brief,
        });
        Ok((reply, spare))
    }

    /// Lets a waiting seat drop its receipts if the places of all of them are rolled. Returns them, oldest first, so
    /// that they can be dropped after a lock is freed; they stay counted. This is no step. A seat that steps does this
    /// by itself. Allocates nothing.
    pub fn fold(&mut self, seat: &mut Seat<B>) -> Vec<Receipt>
        ensures same { self.new ≡ self.old }
        ensures begins { IsPrefix seat.old.seen self.old }
        ensures folded { seat.new ≡ with_seen self.old (after_fold (database_at B.text self.old).rolled seat.old) }
        ensures given { result.items ≡ dropped (database_at B.text self.old).rolled seat.old }
    {
        self.history.show(&mut seat.seen);
        let rolled = self.database.rolled();
        let Some(floor) = past_floor(seat.floor, rolled, seat.receipts.as_slice()) else {
            return Vec::new(self.alloc);
        };
        seat.folded = seat.received;
        seat.folded_grants = seat.granted;
        seat.floor = floor;
        mem::replace(&mut seat.receipts, Vec::new(self.alloc))
    }

    /// Makes the state the base, and drops the kept steps. This is no step, and no seat changes: each folds its
    /// receipts when it steps next, or by `fold`. The caller shows a seat, so that a query, which has none, can't roll.
    /// If memory runs out nothing has changed.
    pub fn roll(&mut self, seat: &mut Seat<B>) -> Result<(), AllocError>
        ensures rolled { OnOk result (self.new ≡ self.old ++ Rolled ∷ []) }
        ensures unchanged_without_memory { OnErr result (self.new ≡ self.old) }
        ensures begins { IsPrefix seat.old.seen self.old }
        ensures seen { seat.new ≡ with_seen self.new seat.old }
    {
        let _kept_no_longer = self.take_rolled(seat)?;
        Ok(())
    }

    /// Does the same, and returns the steps that were kept, oldest first, so that they can be dropped after a lock is
    /// freed.
    pub fn take_rolled(&mut self, seat: &mut Seat<B>) -> Result<Vec<Step>, AllocError>
        ensures rolled { OnOk result (self.new ≡ self.old ++ Rolled ∷ []) }
        ensures given { IfOk result (λ steps. steps.items ≡ (database_at B.text self.old).history) }
        ensures unchanged_without_memory { OnErr result (self.new ≡ self.old) }
        ensures begins { IsPrefix seat.old.seen self.old }
        ensures seen { seat.new ≡ with_seen self.new seat.old }
    {
        self.history.show(&mut seat.seen);
        let steps = self.database.take_rolled()?;
        self.bytes = 0;
        self.history.rolled();
        self.history.show(&mut seat.seen);
        Ok(steps)
    }

    /// Makes a front that has seen all that has happened.
    pub fn front(&mut self) -> Front<Event, B>
        ensures front { result ≡ self.old }
        ensures same { self.new ≡ self.old }
    {
        self.history.front()
    }

    /// Shows the seat all that has happened.
    pub fn show_seat(&mut self, seat: &mut Seat<B>)
        ensures begins { IsPrefix seat.old.seen self.old }
        ensures shown { seat.new ≡ with_seen self.old seat.old }
        ensures same { self.new ≡ self.old }
    {
        self.history.show(&mut seat.seen);
    }

    /// Shows the front all that has happened. It loses nothing that it had seen before.
    pub fn show(&mut self, seen: &mut Front<Event, B>)
        ensures begins { IsPrefix seen.old self.old }
        ensures shown { seen.new ≡ self.old }
        ensures same { self.new ≡ self.old }
    {
        self.history.show(seen);
    }

    /// Tests, in the order of `AuditFault`, that all seats are here, and that their receipts are those of the history.
    /// Nothing changes, and nothing is allocated.
    pub fn audit(&mut self, seats: &mut Vec<Seat<B>>) -> Result<(), AuditFault>
        ensures same { self.new ≡ self.old }
        ensures same_seats { seats.new.items ≡ seats.old.items }
        ensures ok { IfOk result (λ _. IsAudited B.seats (database_at B.text self.old) seats.old.items) }
        ensures one_history { All (HasSeenOf self.old) seats.old.items }
        ensures err { IfErr result (Fails B.seats (database_at B.text self.old) seats.old.items) }
    {
        compare_all(&mut self.history, seats.as_mut_slice());
        if seats.len() as u64 != self.seats {
            return Err(AuditFault::SeatMissing);
        }
        self.gather_seats(seats.as_mut_slice());
        test_receipts(&self.database, seats.as_slice())
    }

    /// Puts the places and the shares of all seats together, and gives them back: they are all steps and all
    /// grants.
    fn gather_seats(&mut self, seats: &mut [Seat<B>])
        requires { length seats.old ≡ B.seats }
        ensures held { self.new ≡ self.old }
        ensures seats { seats.new ≡ seats.old }
        ensures steps { steps_received seats.old ≡ steps_of (database_at B.text self.old) }
        ensures grants { grants_received seats.old ≡ grants_of (database_at B.text self.old) }
        ensures distinct { AllDistinct (steps_of (database_at B.text self.old)) seats.old }
        ensures placed { All IsPlaced seats.old }
    {
        let table = &self.source.table;
        gather_places(table, &mut self.source.keeper, seats);
        let Some((first, rest)) = seats.split_first_mut() else {
            unreachable!();
        };
        let received = first.received;
        let granted = first.granted;
        let mut seen = first.steps.split_off(1, received);
        let mut taken = first.grants.split_off(1, granted);
        gather(
            &mut self.steps,
            &mut self.grants,
            rest,
            &mut seen,
            &mut taken,
        );
        first.steps.merge(seen);
        first.grants.merge(taken);
    }
}
