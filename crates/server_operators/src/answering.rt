//! An operator's lines, answered from a seat.
use crate::reload_log::ReloadLog;
use history_seats::Brands;
use seated_store::Seated;
use server_base::Context;
use server_signals::Run;
use server_talk::{OperatorEnd, Plan, TimedRead, operate};
use shared_pce::Seat;
use std::alloc::AllocError;
use std::io;
use std::io::{ErrorKind, Write};
use std::sync::Wait;
use std::time::Clock;

/// A writer that fails if it takes nothing and the run should end.
#[derive(Drop)]
struct OperatorOutput<'a, O: Write> {
    writer: &'a mut O,
    run: &'a Run,
}

impl<'a, O: Write> Write for OperatorOutput<'a, O> {
    fn write(&mut self, buf: &[u8]) -> io::Result<usize> {
        let count = self.writer.write(buf)?;
        if count == 0 && self.run.is_closing() {
            return Err(io::Error::from(ErrorKind::TimedOut));
        }
        Ok(count)
    }

    fn flush(&mut self) -> io::Result<()> {
        self.writer.flush()
    }
}

/// Answers an operator's lines from this seat, and returns why no more are heard. What a line is shown is shown to the
/// seat too, and what a seat has seen only grows, so answers come in the order of the history. Links that a reload
/// leaves below zero are logged.
pub(crate) fn answer_operator<R: Wait + Clock, B: Brands, I: TimedRead, O: Write, P: Plan>(
    context: &Context<'_, R, B>,
    plan: &P,
    seat: &mut Seat<B>,
    reader: &mut I,
    writer: &mut O,
) -> Result<OperatorEnd, AllocError> {
    let mut store = ReloadLog {
        context,
        front: context.shared.front(context.rt),
        store: Seated::new(context.rt, context.alloc, context.shared, seat),
    };
    let mut output = OperatorOutput {
        writer,
        run: context.run,
    };
    operate(
        context.rt,
        context.alloc,
        reader,
        &mut output,
        &context.moments(),
        plan,
        &mut store,
    )
}
