//! Two seats over two routers and one link. Their receipts are forged, and the audit says how.
ghost use Rattle.std.specs.Prelude.{◌≡◌, IfOk};
ghost use Rattle.history_core.specs.Histories.{StartsFromText, beginning, steps_of};
ghost use Rattle.history_seats.specs.Audits.{IsAudited};

use crate::receipt::grant_count;
use crate::{AuditFault, Brands, Held, Receipt, Seat};
use history_core::{Brief, Database};
use history_tokens::Unnamed;
use pcep_objects::Capabilities;
use place_tokens::Unopened;
use sequence::PlainData;
use std::alloc::Global;
use std::marker::Brand;
use std::process::Abort;
use std::sync::ledger::Blank;
use std::test::Fail;
use step_core::{Event, SharedEvent};
use te_base::TeBase;

static LINK: &str = r#"
node = [ {name="A",id="10.0.0.1"}, {name="B",id="10.0.0.2"} ]
link = [ {from="A",to="B",local="10.1.0.1",remote="10.1.0.2",igp=10,te=10,colour=0,reservable=1000000} ]
"#;

/// What the peer may do.
const BOTH: Option<Capabilities> = Some(Capabilities {
    update: true,
    create: true,
});

/// How the second receipt of the first seat is forged.
#[derive(Clone, Copy)]
enum Forgery {
    /// It has another brief.
    Brief,
    /// It has another event.
    Event,
}

/// What is tested after four steps.
#[derive(Clone, Copy)]
enum Case {
    Forged,
    SeatMissing,
    ForgedAfterARoll,
    Folded,
}

#[test]
fn forged_receipts_are_found(rt: HostRuntime) -> Result<(), Fail> {
    run_named(&rt, rt.alloc(), Case::Forged)
}

#[test]
fn a_missing_seat_is_found(rt: HostRuntime) -> Result<(), Fail> {
    run_named(&rt, rt.alloc(), Case::SeatMissing)
}

#[test]
fn a_receipt_forged_after_a_roll_is_found(rt: HostRuntime) -> Result<(), Fail> {
    run_named(&rt, rt.alloc(), Case::ForgedAfterARoll)
}

#[test]
fn receipts_of_rolled_places_are_folded(rt: HostRuntime) -> Result<(), Fail> {
    run_named(&rt, rt.alloc(), Case::Folded)
}

#[test]
fn an_audited_database_is_given(rt: HostRuntime) -> Result<(), Fail> {
    let room = Unopened::new(rt.alloc(), 2)?;
    let history = Unnamed::new(rt.alloc())?;
    let database = new_database(rt.alloc())?;
    let database = run_closed::<Brand>(
        rt.alloc(),
        database,
        Blank::new(2),
        Blank::new(2),
        room,
        history,
    )?;
    assert_eq!(rt; database.steps(), 0);
    Ok(())
}

#[test]
fn faults_have_numbers_and_texts(rt: HostRuntime) -> Result<(), Fail> {
    let fault = AuditFault::ReceiptDiffers(9);
    assert_eq!(rt; fault.number(), 4);
    assert_eq!(rt;
        format!(in rt.alloc(); "{fault}")?.as_str(),
        "audit fault 4"
    );
    let fault = AuditFault::OutOfMemory;
    assert_eq!(rt;
        format!(in rt.alloc(); "{fault}")?.as_str(),
        "out of memory"
    );
    Ok(())
}

fn new_database(alloc: Global) -> Result<Database, Fail>
    ensures { IfOk result (λ database. (steps_of database ≡ 0) × StartsFromText database) }
{
    let te = TeBase::read(alloc, LINK)?;
    Ok(Database::new(alloc, te)?)
}

/// Runs the case, under new names.
fn run_named<R: Abort>(rt: &R, alloc: Global, case: Case) -> Result<(), Fail> {
    let room = Unopened::new(alloc, 2)?;
    let history = Unnamed::new(alloc)?;
    let database = new_database(alloc)?;
    run::<Brand, _>(
        rt,
        alloc,
        database,
        Blank::new(2),
        Blank::new(2),
        room,
        history,
        case,
    )
}

/// Makes a database with two seats, takes four steps, and runs the case.
fn run<B: Brands, R: Abort>(
    rt: &R,
    alloc: Global,
    database: Database,
    steps: Blank,
    grants: Blank,
    room: Unopened,
    history: Unnamed<Event>,
    case: Case,
) -> Result<(), Fail>
    requires steps { (steps.name ≡ B.steps) × (steps.parts ≡ B.seats) × (steps.parts ≡ 2) }
    requires grants { (grants.name ≡ B.grants) × (grants.parts ≡ B.seats) × (grants.parts ≡ 2) }
    requires room { (room.table ≡ B.table) × (room.seats ≡ B.seats) × (room.seats ≡ 2) }
    requires database { (steps_of database ≡ 0) × (database.start ≡ beginning B.text) }
    requires history { history ≡ B.log }
{
    let (mut held, mut seats) = Held::<B>::new(alloc, database, 2, steps, grants, room, history)?;
    test_case(rt, alloc, &mut held, &mut seats, case)
}

/// Audits the database with no step, and returns it.
fn run_closed<B: Brands>(
    alloc: Global,
    database: Database,
    steps: Blank,
    grants: Blank,
    room: Unopened,
    history: Unnamed<Event>,
) -> Result<Database, Fail>
    requires steps { (steps.name ≡ B.steps) × (steps.parts ≡ B.seats) × (steps.parts ≡ 2) }
    requires grants { (grants.name ≡ B.grants) × (grants.parts ≡ B.seats) × (grants.parts ≡ 2) }
    requires room { (room.table ≡ B.table) × (room.seats ≡ B.seats) × (room.seats ≡ 2) }
    requires database { (steps_of database ≡ 0) × (database.start ≡ beginning B.text) }
    requires history { history ≡ B.log }
{
    let (held, mut seats) = Held::<B>::new(alloc, database, 2, steps, grants, room, history)?;
    Ok(closed(held, &mut seats)?)
}

/// Audits the database, and returns it if the audit has passed.
fn closed<B: Brands>(held: Held<B>, seats: &mut Vec<Seat<B>>) -> Result<Database, AuditFault>
    ensures audited { IfOk result (λ database. IsAudited B.seats database seats.old.items) }
    ensures same_seats { seats.new.items ≡ seats.old.items }
{
    let mut held = held;
    held.audit(seats)?;
    Ok(held.into_database())
}

fn test_case<B: Brands, R: Abort>(
    rt: &R,
    alloc: Global,
    held: &mut Held<B>,
    seats: &mut Vec<Seat<B>>,
    case: Case,
) -> Result<(), Fail> {
    take_steps(held, seats)?;
    match case {
        Case::Forged => test_forgeries(rt, alloc, held, seats),
        Case::SeatMissing => test_missing_seat(rt, held, seats),
        Case::ForgedAfterARoll => test_after_a_roll(rt, held, seats),
        Case::Folded => test_fold(rt, held, seats),
    }
}

/// Takes one event of a seat.
fn step_at<B: Brands>(
    held: &mut Held<B>,
    seats: &mut Vec<Seat<B>>,
    at: usize,
    event: Event,
) -> Result<(), Fail> {
    let seat = seats.get_mut(at).ok_or("a seat")?;
    let _reply = held.step(seat, event)?;
    Ok(())
}

/// Takes steps: the first seat at the places 0 and 2, the second at 1 and 3.
fn take_steps<B: Brands>(held: &mut Held<B>, seats: &mut Vec<Seat<B>>) -> Result<(), Fail> {
    step_at(
        held,
        seats,
        0,
        Event::Up {
            peer: 1,
            capabilities: BOTH,
        },
    )?;
    step_at(held, seats, 1, Event::Take)?;
    step_at(held, seats, 0, Event::Marker { peer: 1 })?;
    step_at(held, seats, 1, Event::Down { peer: 1 })
}

/// Copies a receipt of the first seat.
fn receipt<B: Brands>(seats: &Vec<Seat<B>>, at: usize) -> Result<Receipt, Fail> {
    let seat = seats.first().ok_or("a seat")?;
    let receipt = seat.receipts().get(at).ok_or("a receipt")?;
    Ok(receipt.copy()?)
}

/// Writes over a receipt, if it is there, the other is of its place, and neither is of a grant. Otherwise it does
/// nothing. A receipt of another place fits no seat.
fn overwrite_in<B: Brands>(seat: &mut Seat<B>, at: usize, receipt: Receipt) -> bool {
    if at >= seat.receipts.len() {
        return false;
    }
    if receipt.place != seat.receipts[at].place {
        return false;
    }
    if grant_count(receipt.brief) + grant_count(seat.receipts[at].brief) > 0 {
        return false;
    }
    seat.receipts[at] = receipt;
    true
}

/// Writes over a receipt of the first seat.
fn overwrite<B: Brands>(seats: &mut Vec<Seat<B>>, at: usize, receipt: Receipt) -> Result<(), Fail> {
    let seat = seats.first_mut().ok_or("a seat")?;
    if overwrite_in(seat, at, receipt) {
        Ok(())
    } else {
        Err(Fail::from("receipts of no grant"))
    }
}

fn forge<B: Brands>(alloc: Global, seats: &mut Vec<Seat<B>>, forgery: Forgery) -> Result<(), Fail> {
    let mut forged = receipt(seats, 1)?;
    match forgery {
        Forgery::Brief => forged.brief = Brief::Gone,
        Forgery::Event => forged.event = SharedEvent::new(alloc, Event::Marker { peer: 2 })?,
    }
    overwrite(seats, 1, forged)
}

/// Tests that the audit finds a forgery twice, so changes nothing, and finds nothing once the forgery is undone.
fn test_forgery<B: Brands, R: Abort>(
    rt: &R,
    alloc: Global,
    held: &mut Held<B>,
    seats: &mut Vec<Seat<B>>,
    forgery: Forgery,
) -> Result<(), Fail> {
    let right = receipt(seats, 1)?;
    forge(alloc, seats, forgery)?;
    for _turn in 0..2u8 {
        assert_eq!(rt; held.audit(seats), Err(AuditFault::ReceiptDiffers(2)));
    }
    overwrite(seats, 1, right)?;
    assert_eq!(rt; held.audit(seats), Ok(()));
    Ok(())
}

fn test_forgeries<B: Brands, R: Abort>(
    rt: &R,
    alloc: Global,
    held: &mut Held<B>,
    seats: &mut Vec<Seat<B>>,
) -> Result<(), Fail> {
    for forgery in [Forgery::Brief, Forgery::Event] {
        test_forgery(rt, alloc, held, seats, forgery)?;
    }
    // the first receipt fits the seat at no other place
    let first = receipt(seats, 0)?;
    let seat = seats.first_mut().ok_or("a seat")?;
    assert!(rt; !overwrite_in(seat, 1, first));
    Ok(())
}

fn test_missing_seat<B: Brands, R: Abort>(
    rt: &R,
    held: &mut Held<B>,
    seats: &mut Vec<Seat<B>>,
) -> Result<(), Fail> {
    let seat = seats.pop().ok_or("a seat")?;
    assert_eq!(rt; held.audit(seats), Err(AuditFault::SeatMissing));
    assert_eq!(rt; seats.len(), 1);
    seats.push(seat)?;
    assert_eq!(rt; held.audit(seats), Ok(()));
    Ok(())
}

/// Tests a forgery after a roll: the first seat steps once more, and the receipt of that step, the only one that it
/// then keeps, is forged.
fn test_after_a_roll<B: Brands, R: Abort>(
    rt: &R,
    held: &mut Held<B>,
    seats: &mut Vec<Seat<B>>,
) -> Result<(), Fail> {
    let seat = seats.first_mut().ok_or("a seat")?;
    held.roll(seat)?;
    step_at(held, seats, 0, Event::Take)?;
    assert_eq!(rt; held.audit(seats), Ok(()));
    let right = receipt(seats, 0)?;
    assert_eq!(rt; right.place(), 4);
    assert_eq!(rt; right.brief(), Brief::Idle);
    let mut forged = receipt(seats, 0)?;
    forged.brief = Brief::Done;
    overwrite(seats, 0, forged)?;
    assert_eq!(rt; held.audit(seats), Err(AuditFault::ReceiptDiffers(4)));
    assert_eq!(rt; held.database().steps(), 5);
    overwrite(seats, 0, right)
}

/// Tests what a seat counts and keeps.
fn assert_seat<B: Brands, R: Abort>(rt: &R, seat: &Seat<B>, steps: u64, kept: usize) {
    assert_eq!(rt; seat.steps(), steps);
    assert_eq!(rt; seat.grants(), 0);
    assert_eq!(rt; seat.receipts().len(), kept);
}

/// Tests that the second seat's receipts are folded once their places are rolled, and not before.
fn test_fold<B: Brands, R: Abort>(
    rt: &R,
    held: &mut Held<B>,
    seats: &mut Vec<Seat<B>>,
) -> Result<(), Fail> {
    let seat = seats.get_mut(1).ok_or("a seat")?;
    assert_eq!(rt; held.fold(seat).len(), 0);
    assert_seat(rt, seat, 2, 2);
    let steps = held.take_rolled(seat)?;
    assert_eq!(rt; steps.len(), 4);
    assert_eq!(rt; held.fold(seat).len(), 2);
    assert_seat(rt, seat, 2, 0);
    step_at(held, seats, 1, Event::Take)?;
    assert_eq!(rt; held.audit(seats), Ok(()));
    assert_eq!(rt; held.database().rolled(), 4);
    Ok(())
}
