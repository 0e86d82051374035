//! The source of places, which is under the lock, and the tokens of the seats.
ghost use Rattle.std.specs.Prelude.{◌≡◌, ◌+◌, ◌-◌, ◌<◌, ◌^◌, ℕ, List, [], ◌∷◌, ◌++◌, sum_by, replicate, IfOk};
ghost use Rattle.place_tokens.specs.Drawing.{keeping, holding, emptied, times, once_below, older_of, newest_of};

use crate::rule::{
    Compares, DrawnOnce, Draws, Everything, Given, Learns, Newest, Part, Stacks, StepNumbers,
    TakesIn, View,
};
use atomic_table::{Seat, Table};
use std::alloc::{AllocError, Global};
use std::marker::{Model, PhantomData};

/// The one word that the tokens' rule governs.
pub type PlaceTable = Table<(), View, u64, DrawnOnce, Global>;

/// What knows places: the keeper's token, or a seat's. It has no bytes.
pub type Token = Seat<(), View>;

/// Draws places in order from 0. A contract sees how many were drawn.
#[derive(Drop)]
pub struct Source<B: StepNumbers> {
    pub table: PlaceTable,
    pub keeper: Token,
    pub room: PhantomData<B>,
}

impl<B: StepNumbers> Model for Source<B> {
    ghost use Rattle.std.specs.Prelude.{◌≡◌, ◌+◌, ℕ, []};
    ghost use Rattle.place_tokens.specs.Drawing.{keeping};

    ghost Value = { ℕ };

    ghost view = { λ s. s.keeper.me.0.next };

    ghost invariant = { λ s.
        (s.table.shared.table_id ≡ B.table) × (s.table.shared.table_id.words ≡ 1)
        × (s.table.shared.key ≡ B.seats + 1)
        × (s.keeper.table_id ≡ B.table) × (s.keeper.me ≡ keeping 1 s.keeper.me.0.next []) };
}

/// The places that one seat ever got, oldest first. They rise. It has no bytes.
#[derive(Drop)]
pub struct Drawn<B: StepNumbers> {
    pub token: Token,
    pub room: PhantomData<B>,
}

impl<B: StepNumbers> Model for Drawn<B> {
    ghost use Rattle.std.specs.Prelude.{◌≡◌, ℕ, List};
    ghost use Rattle.place_tokens.specs.Drawing.{holding, RiseFrom};

    ghost Value = { List ℕ };

    ghost view = { λ d. d.token.me.0.own };

    ghost invariant = { λ d.
        (d.token.table_id ≡ B.table) × (d.token.me ≡ holding d.token.me.0.own)
        × RiseFrom 0 d.token.me.0.own };
}

/// A source that has no name yet, with all its parts.
#[derive(Drop)]
pub struct Unopened {
    table: PlaceTable,
    keeper: Token,
    seats: u64,
}

impl Model for Unopened {
    ghost use Rattle.std.specs.Prelude.{◌≡◌, ◌+◌, []};
    ghost use Rattle.place_tokens.specs.Drawing.{keeping, Opening};

    ghost Value = { Opening };

    ghost view = { λ u. record { table = u.table.shared.table_id; seats = u.seats } };

    ghost invariant = { λ u.
        (u.table.shared.table_id.words ≡ 1) × (u.table.shared.key ≡ u.seats + 1)
        × (u.keeper.table_id ≡ u.table.shared.table_id) × (u.keeper.me ≡ keeping (u.seats + 1) 0 []) };
}

impl Unopened {
    /// Makes a source for a number of seats below 2^32.
    pub fn new(alloc: Global, seats: u64) -> Result<Unopened, AllocError>
        requires { seats < 2 ^ 32 }
        ensures { IfOk result (λ room. room.seats ≡ seats) }
    {
        let (table, keeper) = Table::of_words(alloc, &[0], &(seats + 1))?;
        Ok(Unopened {
            table,
            keeper,
            seats,
        })
    }

    /// Gives the source its name, and returns it with the tokens of its seats. Drops everything if memory runs out.
    pub fn open<B: StepNumbers>(
        self,
        alloc: Global,
    ) -> Result<(Source<B>, Vec<Drawn<B>>), AllocError>
        requires table { self.table ≡ B.table }
        requires seats { self.seats ≡ B.seats }
        ensures none_drawn { IfOk result (λ opened. opened.0 ≡ 0) }
        ensures seats { IfOk result (λ opened. opened.1.items ≡ replicate self.seats []) }
    {
        let Unopened {
            table,
            keeper,
            seats,
        } = self;
        let mut keeper = keeper;
        let mut drawn = Vec::new(alloc);
        for _i in 0..seats {
            let token = table.shared.split_seat::<Part>(&mut keeper);
            drawn.push(Drawn {
                token,
                room: PhantomData,
            })?;
        }
        let source = Source {
            table,
            keeper,
            room: PhantomData,
        };
        Ok((source, drawn))
    }
}

/// Lets the keeper draw a place, and a seat take it in.
fn hand_over(table: &PlaceTable, keeper: &mut Token, token: &mut Token)
    ghost g: { ℕ × List ℕ }
    requires table { (keeper.old.table_id ≡ table.now.shared.table_id) × (token.old.table_id ≡ table.now.shared.table_id) × (table.now.shared.table_id.words ≡ 1) }
    requires keeper { keeper.old.me ≡ keeping 1 g.0 [] }
    requires token { token.old.me ≡ holding g.1 }
    ensures same { (keeper.new.table_id ≡ keeper.old.table_id) × (token.new.table_id ≡ token.old.table_id) }
    ensures keeper { keeper.new.me ≡ keeping 1 (g.0 + 1) [] }
    ensures token { token.new.me ≡ holding (g.1 ++ g.0 ∷ []) }
{
    table.shared.load::<Draws>(keeper, 0);
    let given = table.shared.split_seat::<Given>(keeper);
    table.shared.join_seat::<TakesIn>(token, given);
    let part = table.shared.split_seat::<Part>(token);
    table.shared.join_seat::<TakesIn>(keeper, part);
}

/// Lends the keeper what a token knows.
pub fn lend(table: &PlaceTable, keeper: &mut Token, token: &mut Token)
    requires table { (keeper.old.table_id ≡ table.now.shared.table_id) × (token.old.table_id ≡ table.now.shared.table_id) × (table.now.shared.table_id.words ≡ 1) }
    requires keeper { keeper.old.me ≡ keeping keeper.old.me.0.parts keeper.old.me.0.next keeper.old.me.0.lent }
    requires token { token.old.me ≡ holding token.old.me.0.own }
    ensures same { (keeper.new.table_id ≡ keeper.old.table_id) × (token.new.table_id ≡ token.old.table_id) }
    ensures keeper { keeper.new.me ≡ keeping (keeper.old.me.0.parts + 1) keeper.old.me.0.next (token.old.me.0.own ∷ keeper.old.me.0.lent) }
    ensures token { token.new.me ≡ emptied }
{
    let all = table.shared.split_seat::<Everything>(token);
    table.shared.join_seat::<Stacks>(keeper, all);
}

/// Lets the keeper give back what it was lent last.
pub fn give_back(table: &PlaceTable, keeper: &mut Token, token: &mut Token)
    requires table { (keeper.old.table_id ≡ table.now.shared.table_id) × (token.old.table_id ≡ table.now.shared.table_id) × (table.now.shared.table_id.words ≡ 1) }
    requires keeper { (1 < keeper.old.me.0.parts) × (keeper.old.me ≡ keeping keeper.old.me.0.parts keeper.old.me.0.next keeper.old.me.0.lent) }
    requires token { token.old.me ≡ emptied }
    ensures same { (keeper.new.table_id ≡ keeper.old.table_id) × (token.new.table_id ≡ token.old.table_id) }
    ensures keeper { keeper.new.me ≡ keeping (keeper.old.me.0.parts - 1) keeper.old.me.0.next (older_of keeper.old.me.0.lent) }
    ensures token { token.new.me ≡ holding (newest_of keeper.old.me.0.lent) }
{
    let newest = table.shared.split_seat::<Newest>(keeper);
    table.shared.join_seat::<TakesIn>(token, newest);
}

/// Learns that the lists that the keeper was lent have each place below its next one, once. The keeper has all parts.
pub fn learn(table: &PlaceTable, keeper: &mut Token)
    requires table { (keeper.old.table_id ≡ table.now.shared.table_id) × (table.now.shared.table_id.words ≡ 1) }
    requires keeper { keeper.old.me ≡ keeping keeper.old.me.0.parts keeper.old.me.0.next keeper.old.me.0.lent }
    requires all { keeper.old.me.0.parts ≡ table.now.shared.key }
    ensures same { (keeper.new.table_id ≡ keeper.old.table_id) × (keeper.new.me ≡ keeper.old.me) }
    ensures once { (p : ℕ) → sum_by (times p) keeper.old.me.0.lent ≡ once_below p keeper.old.me.0.next }
{
    table.shared.load::<Learns>(keeper, 0);
}

/// Learns that what a seat was given was drawn before the next place.
fn compare(table: &PlaceTable, keeper: &mut Token, token: &mut Token)
    requires table { (keeper.old.table_id ≡ table.now.shared.table_id) × (token.old.table_id ≡ table.now.shared.table_id) × (table.now.shared.table_id.words ≡ 1) }
    requires keeper { keeper.old.me ≡ keeping 1 keeper.old.me.0.next [] }
    requires token { token.old.me ≡ holding token.old.me.0.own }
    ensures same { (keeper.new.table_id ≡ keeper.old.table_id) × (token.new.table_id ≡ token.old.table_id) }
    ensures views { (keeper.new.me ≡ keeper.old.me) × (token.new.me ≡ token.old.me) }
    ensures below { (p : ℕ) → 0 < times p token.old.me.0.own → p < keeper.old.me.0.next }
{
    lend(table, keeper, token);
    table.shared.load::<Compares>(keeper, 0);
    give_back(table, keeper, token);
}

impl<B: StepNumbers> Source<B> {
    /// Draws the next place for this seat, whose places keep rising. It neither waits nor fails.
    pub fn draw(&mut self, seat: &mut Drawn<B>)
        ensures seat { seat.new ≡ seat.old ++ self.old ∷ [] }
        ensures source { self.new ≡ self.old + 1 }
    {
        let table = &self.table;
        compare(table, &mut self.keeper, &mut seat.token);
        hand_over(table, &mut self.keeper, &mut seat.token);
    }
}
