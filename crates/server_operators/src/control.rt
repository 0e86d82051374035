//! The control socket: each client that connects is an operator with a seat of its own, in addition to the one of
//! standard input.
ghost use Rattle.std.specs.Prelude.{◌≤◌};

use crate::answering::answer_operator;
use control_socket::{AT_ONCE, Operator, Watch, listen_on};
use history_seats::Brands;
use server_base::Context;
use server_log::LogLine;
use server_signals::Run;
use server_talk::{OperatorEnd, Plan, TimedRead};
use shared_pce::Seat;
use std::io;
use std::io::{Read, Write};
use std::os::unix::net::UnixListener;
use std::sync::Wait;
use std::thread::Threads;
use std::time::Clock;

/// Returns the number of seats for operators who connect.
pub fn control_seats(control: Option<&UnixListener>) -> u64
    ensures { result ≤ 4 }
{
    match control {
        Some(_) => AT_ONCE as u64,
        None => 0,
    }
}

/// Tells whether the run should end.
#[derive(Drop)]
struct Ending<'a> {
    run: &'a Run,
}

impl<'a> Watch for Ending<'a> {
    fn is_closing(&self) -> bool {
        self.run.is_closing()
    }
}

/// The reader of an operator who connected. Its waits are bounded already.
#[derive(Drop)]
struct ControlLines<'a, I: Read> {
    reader: &'a mut I,
}

impl<'a, I: Read> Read for ControlLines<'a, I> {
    fn read(&mut self, buf: &mut [u8]) -> io::Result<usize> {
        self.reader.read(buf)
    }
}

impl<'a, I: Read> TimedRead for ControlLines<'a, I> {
    fn set_timeout(&mut self, _most_ms: u64) {}
}

/// Operators who connect, and the first slot of their seats.
#[derive(Drop)]
pub struct Operators<'a, 'c, 'p, R: Clock, B: Brands, P: Plan> {
    pub context: &'a Context<'c, R, B>,
    pub plan: &'p P,
    pub first: usize,
}

/// Takes a seat of these operators that nobody has, with its slot.
fn free_seat<R: Wait + Clock, B: Brands>(
    context: &Context<'_, R, B>,
    first: usize,
) -> Option<(usize, Seat<B>)> {
    for at in first..first.saturating_add(AT_ONCE) {
        if let Some(seat) = context.pool.take(context.rt, at) {
            return Some((at, seat));
        }
    }
    None
}

/// Answers the lines of one operator. A line `end` ends the run; anything else ends only this operator.
fn answer<R: Wait + Clock, B: Brands, I: Read, O: Write, P: Plan>(
    context: &Context<'_, R, B>,
    plan: &P,
    seat: &mut Seat<B>,
    reader: &mut I,
    writer: &mut O,
) {
    match answer_operator(context, plan, seat, &mut ControlLines { reader }, writer) {
        Ok(OperatorEnd::EndAsked) => context.close(),
        Ok(_) => {}
        Err(_) => context.say(LogLine::MemoryRefused),
    }
}

impl<'a, 'c, 'p, R: Wait + Clock, B: Brands, P: Plan> Operator for Operators<'a, 'c, 'p, R, B, P> {
    fn operate<I: Read, O: Write>(&self, reader: &mut I, writer: &mut O) {
        let context = self.context;
        let Some((at, mut seat)) = free_seat(context, self.first) else {
            return;
        };
        answer(context, self.plan, &mut seat, reader, writer);
        context.shared.fold(context.rt, &mut seat);
        context.pool.put(context.rt, at, seat);
    }
}

/// Runs the thread that serves the control socket, until the run should end and each of its operators has gone. If it
/// can't serve the socket, that is logged, and the run goes on.
pub fn hear_controls<R: Wait + Clock + Threads + Sync, B: Brands + Send + Sync, P: Plan + Sync>(
    operators: &Operators<'_, '_, '_, R, B, P>,
    listener: &UnixListener,
) {
    let context = operators.context;
    let ending = Ending { run: context.run };
    if listen_on(context.rt, listener, &ending, operators).is_err() {
        context.say(LogLine::ControlGone);
    }
}
