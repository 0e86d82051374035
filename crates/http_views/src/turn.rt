//! A turn of one connection, which never waits.
ghost use Rattle.std.specs.Prelude.{◌≡◌};
ghost use Rattle.http_server.specs.Connection.{history};
ghost use Rattle.http_server.specs.Exchange.{Calls};

use http_server::{Connection, Service};
use std::io::{ErrorKind, Read, Write};

/// The result of a turn.
#[derive(Clone, Copy, PartialEq, Eq, Debug)]
pub enum Turn {
    /// Bytes of an answer went out.
    Wrote,
    /// Bytes of a request came in, and none went out.
    Read,
    /// Nothing went in or out.
    Quiet,
    /// The connection is over.
    Over,
}

fn read_once<I: Read>(connection: &mut Connection, reader: &mut I) -> Turn
    ensures { (history connection.new).calls ≡ (history connection.old).calls }
{
    if !connection.wants_read() {
        return Turn::Quiet;
    }
    match connection.read_from(reader) {
        Ok(_) => Turn::Read,
        Err(error) => match error.kind() {
            ErrorKind::WouldBlock | ErrorKind::Interrupted => Turn::Quiet,
            _ => Turn::Over,
        },
    }
}

fn write_once<O: Write>(connection: &mut Connection, writer: &mut O) -> Turn
    ensures { (history connection.new).calls ≡ (history connection.old).calls }
{
    if !connection.wants_write() {
        return Turn::Quiet;
    }
    match connection.write_to(writer) {
        Ok(0) => Turn::Over,
        Ok(_) => Turn::Wrote,
        Err(error) => match error.kind() {
            ErrorKind::WouldBlock | ErrorKind::Interrupted => Turn::Quiet,
            _ => Turn::Over,
        },
    }
}

/// Reads once, answers what came, and writes once.
pub fn take_turn<S: Service, I: Read, O: Write>(
    connection: &mut Connection,
    service: &mut S,
    reader: &mut I,
    writer: &mut O,
) -> Turn
    ensures { Calls S.answers service.old service.new (history connection.old).calls (history connection.new).calls }
{
    let read = read_once(connection, reader);
    if read == Turn::Over {
        return Turn::Over;
    }
    connection.advance(service);
    let wrote = write_once(connection, writer);
    if wrote == Turn::Over || connection.is_done() {
        return Turn::Over;
    }
    if wrote == Turn::Quiet { read } else { wrote }
}
