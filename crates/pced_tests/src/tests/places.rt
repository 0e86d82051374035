//! Two seats that draw the numbers of their steps in turn.
ghost use Rattle.std.specs.Prelude.{◌≡◌};

use place_tokens::{StepNumbers, Unopened};
use std::alloc::Global;
use std::marker::Brand;
use std::process::Abort;
use std::test::Fail;

#[test]
fn two_seats_draw(rt: HostRuntime) -> Result<(), Fail> {
    let room = Unopened::new(rt.alloc(), 2)?;
    run::<Brand, _>(&rt, rt.alloc(), room)
}

fn run<B: StepNumbers, R: Abort>(rt: &R, alloc: Global, room: Unopened) -> Result<(), Fail>
    requires { (room.table ≡ B.table) × (room.seats ≡ B.seats) }
{
    let (mut source, mut seats) = room.open::<B>(alloc)?;
    assert_eq!(rt; seats.len(), 2);
    let mut second = seats.pop().ok_or("a seat")?;
    let mut first = seats.pop().ok_or("a seat")?;
    source.draw(&mut first);
    source.draw(&mut second);
    source.draw(&mut first);
    Ok(())
}
