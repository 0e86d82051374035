//! A stateful path computation element for MPLS-TE. `pced serve` serves routers over TCP, and an operator's lines on
//! standard input (`pce_server`) and at a control socket; docs/OPERATING.md says how to run it. `pced tell` sends lines
//! to such a server (`control_socket`). `pced script` reads a link text, a line `---` and lines on standard input, and
//! writes what they print: the bytes and the ends of PCEP sessions, the replies to state reports, the bandwidth book,
//! the history. The proof of what a script prints is that of `pce_engine::run_script`. Here are the arguments, the exit
//! statuses and the texts on standard error; docs/FORMAT.md lists all of them. `pced decode` says in words what
//! messages are (`message_words`), `pced check` what is wrong in a link text (`te_words`). `pced replay` replays the
//! journal of a server (`replay_commands`).
#![tactic(auto)]

mod serve;

ghost use Rattle.std.specs.Prelude.{◌≡◌, IfOk, IsOk};
ghost use Rattle.clap.specs.Values.{kind_of};
ghost use Rattle.pced_commands.specs.Statuses.{ended_serve_status, ended_tell_status, refused_status};

use clap::Error;
use clap::error::ErrorKind;
use log::Log;
use pce_engine::ScriptFault;
use pce_server::ErrorOutput;
use pced_commands::{
    LinesEnd, ServeFault, TellFault, WatchWord, check, lines_status, print_version, refused,
    serve_status, tell_all, tell_status, watch_in, watch_server,
};
use pced_words::{ServeWords, Task, TellWords, parse};
use replay_commands::replay_journal;
use script_commands::{decode, end, explain_script, fail, open_standard, print_script};
use serve::serve;
use std::alloc::Global;
use std::fs::Files;
use std::io;
use std::net::{Net, TcpListener, TcpStream};
use std::process::ExitCode;
use std::rt::Runtime;
use std::sync::Wait;
use std::thread::Threads;
use std::time::Duration;

/// Prints help and the version to standard output, a refusal of the words to standard error.
fn print_error<R: Files + Print + Eprint + AllocGlobal>(rt: &R, error: &Error) -> io::Result<()> {
    match error.kind() {
        ErrorKind::DisplayVersion => print_version(rt),
        _ => error.print(rt),
    }
}

/// Does the same for words that are no command, and returns the status.
fn refuse<R: Files + Print + Eprint + AllocGlobal>(rt: &R, error: Error) -> io::Result<u8>
    ensures { IfOk result (λ given. given ≡ refused_status (kind_of error)) }
{
    match error.kind() {
        ErrorKind::OutOfMemory => end(rt, Err(ScriptFault::OutOfMemory(0))),
        kind => {
            print_error(rt, &error)?;
            Ok(refused(kind))
        }
    }
}

/// Waits until standard error takes a text, a second at most, and returns whether it does.
fn await_error_reader<R: AllocGlobal + Net>(rt: &R) -> bool {
    match ErrorOutput::new(rt, rt.alloc()) {
        Ok(mut output) => output.wait_writable(Duration::from_secs(1)),
        Err(_) => true,
    }
}

/// Writes the messages about a start that failed, if there are any.
fn tell_of_start<R: Eprint>(rt: &R, told: &str) -> io::Result<()> {
    if told.is_empty() {
        return Ok(());
    }
    eprintln!(rt; "{told}")
}

/// Prints how a server ended, after the messages about its start, and returns the status. Both are left out if nobody
/// reads standard error, so that the program ends.
fn end_serving<R: Eprint + AllocGlobal + Net>(
    rt: &R,
    outcome: Result<(), ServeFault>,
    told: &str,
) -> io::Result<u8>
    ensures status { IfOk result (λ given. given ≡ ended_serve_status outcome) }
    ensures nothing_to_write { IsOk outcome → IsOk result }
{
    let Err(fault) = outcome else {
        return Ok(0);
    };
    if await_error_reader(rt) {
        tell_of_start(rt, told)?;
        eprintln!(rt; "{fault}")?;
    }
    Ok(serve_status(fault))
}

fn serve_to_end<
    R: Runtime<A = Global>
        + Net<Listener = TcpListener, Stream = TcpStream>
        + Wait
        + Threads
        + Log
        + Sync,
>(rt: &R, files: &HostRuntime, words: &ServeWords<'_>) -> io::Result<u8> {
    let mut told = String::new(rt.alloc());
    let outcome = serve(rt, files, words, &mut told);
    end_serving(rt, outcome, &told)
}

/// Sends the lines of the words, or watches the server if they ask for that.
fn tell_or_watch<R: Runtime<A = Global> + Net>(
    rt: &R,
    files: &HostRuntime,
    words: &TellWords<'_>,
) -> Result<LinesEnd, TellFault> {
    match watch_in(&words.lines) {
        WatchWord::Absent => tell_all(rt, words),
        WatchWord::Every(seconds) if !words.is_json => {
            watch_server(rt, files, words.path, seconds)
        }
        _ => Err(TellFault::BadArgument),
    }
}

/// Prints how lines were answered, and returns the status.
fn end_lines<R: Eprint>(rt: &R, outcome: Result<LinesEnd, TellFault>) -> io::Result<u8>
    ensures status { IfOk result (λ given. given ≡ ended_tell_status outcome) }
    ensures nothing_to_write { IsOk outcome → IsOk result }
{
    match outcome {
        Ok(end) => Ok(lines_status(end)),
        Err(fault) => {
            eprintln!(rt; "{fault}")?;
            Ok(tell_status(fault))
        }
    }
}

fn run<
    R: Runtime<A = Global>
        + Net<Listener = TcpListener, Stream = TcpStream>
        + Wait
        + Threads
        + Log
        + Sync,
>(rt: &R, files: &HostRuntime) -> io::Result<u8> {
    let alloc = rt.alloc();
    let words: Vec<String> = std::env::args(rt)?.collect(alloc)?;
    match parse(alloc, &words) {
        Err(error) => refuse(rt, error),
        Ok(Task::Script { explain: false }) => print_script(rt),
        Ok(Task::Script { explain: true }) => explain_script(rt),
        Ok(Task::Decode) => decode(rt),
        Ok(Task::Check(file)) => check(files, file),
        Ok(Task::Serve(words)) => serve_to_end(rt, files, &words),
        Ok(Task::Replay(words)) => Ok(replay_journal(files, &words)),
        Ok(Task::Tell(words)) => end_lines(rt, tell_or_watch(rt, files, &words)),
    }
}

fn main(rt: HostRuntime) -> ExitCode {
    open_standard(&rt);
    match run(&rt, &rt) {
        Ok(status) => ExitCode::from(status),
        Err(error) => ExitCode::from(fail(&rt, &error)),
    }
}
