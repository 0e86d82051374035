//! What the words of the command line ask for.
use clap::{Arg, ArgAction, ArgMatches, Command, Error, value_parser};
use pced_build::VERSION;
use pcep_word::Ipv4;
use server_rules::{Orders, Sessions};
use std::alloc::{AllocError, Global};

/// The lines of a script, in short.
const LINES: &str = "\
Standard input is a link text (TOML), a line ---, and lines:
  open PEER        a PCEP session of the router begins
  up PEER          a session begins, and comes up at once
  msg PEER HEX     bytes of the router, in its session
  end PEER         the connection of its session ends
  tick MS          it is now MS milliseconds
  report PEER HEX  state reports of the router, as one PCRpt message
  expire PEER      a router that is down is forgotten
  initiate PEER NAME FROM TO BW SETUP HOLD
                   a path is asked for, to set an LSP up
  update PEER PLSP a path is asked for, to update an LSP
  take             a ticket is taken, and its path is searched for
  commit N LINKS   what the search for ticket N answered: none, or links joined by commas
  return PEER PLSP an LSP is given back to its router
  delete PEER PLSP an LSP that was initiated is to be removed
  drop PEER SRP    a grant ends, or a deletion is no longer awaited
  reload N IGP TE COLOUR RESERVABLE
                   the link N has these values from now on
  book             what is left of each link at the priorities 0 to 7
  history          the events so far, with their replies
  roll             the steps so far are dropped, and stay counted
PEER is a number or a dotted address. docs/FORMAT.md has all of it.";

/// The lines that are said in words, in short.
const DECODED_LINES: &str = "\
Standard input has lines, a message or several in each:
  HEX              digits alone, with spaces anywhere
  out PEER HEX     a line of what a script prints; so msg and report
Any other line is printed as it stands. So what a script prints is read by
  pced script < examples/session.txt | pced decode";

/// The lines of an operator, in short.
const OPERATOR_LINES: &str = "\
Standard input has an operator's lines, each answered on standard output, and so has `pced tell` with --control:
  initiate PEER NAME FROM TO BW SETUP HOLD
                   a path is asked for, to set an LSP up
  place PEER NAME FROM TO BW SETUP HOLD [KEY=VALUE ..]
                   the same, with limits of the path
  update PEER PLSP a path is asked for, to update an LSP
  return PEER PLSP an LSP is given back to its router
  delete PEER PLSP an LSP that was initiated is to be removed
  drop PEER SRP    a grant ends, or a deletion is no longer awaited
  book             what is left of each link at the priorities 0 to 7
  reload           the link text is read again, and links have its values
  reload check     what that would change
  status, links, link N, peers, lsps, lsps PEER, lsp PEER PLSP, tickets,
  history N, path FROM TO BW SETUP HOLD [KEY=VALUE ..], why PEER PLSP, better,
  better PEER, without N, grants, grants PEER, tunnels, tunnels PEER
                   what stands, as a table; as JSON behind the word json
  end              the end of the run
PEER is a number, a dotted address or a node's name, and FROM and TO are addresses or names.
docs/OPERATING.md says how to run it.";

/// What `tell` does besides sending lines.
const WATCH_WORDS: &str = "\
Instead of lines, these words may be given; they aren't sent to the server:
  watch [SECONDS]  links, the fullest first, routers, LSPs by state, grants that
                   wait and decisions, again every SECONDS (2) until Enter";

/// The words of `serve`.
#[derive(Drop)]
pub struct ServeWords<'a> {
    /// The path of the link text.
    pub file: &'a str,
    /// Where to listen, as `ADDR:PORT`.
    pub listen: &'a str,
    /// The path of the control socket, if there is to be one.
    pub control: Option<&'a str>,
    /// Where viewers connect, as `ADDR:PORT`.
    pub http: Option<&'a str>,
    /// The name by which viewers may ask for the server.
    pub http_name: Option<&'a str>,
    /// The path of the folder of the journal, if there is to be one.
    pub journal: Option<&'a str>,
    /// At how many megabytes a file of the journal goes on to the next roll at most; 0: without a bound.
    pub journal_megabytes: u64,
    /// The most verbose level that is logged.
    pub log: &'a str,
    /// Only routers whose address a node of the network owns are heard.
    pub only_known: bool,
    /// Routers that are waited for, or the first word that is no address.
    pub settle_for: Result<Vec<u32>, &'a str>,
    pub orders: Orders,
}

/// The words of `tell`.
#[derive(Drop)]
pub struct TellWords<'a> {
    /// The path of the server's control socket.
    pub path: &'a str,
    /// The lines. Where there are none, standard input has them.
    pub lines: Vec<&'a str>,
    /// Lines that show something are answered as JSON.
    pub is_json: bool,
    /// Nothing is said of what an answer means.
    pub is_quiet: bool,
}

/// The words of `replay`.
#[derive(Drop)]
pub struct ReplayWords<'a> {
    /// The paths of a journal's files, in their order.
    pub files: Vec<&'a str>,
    /// The step or the moment up to which is replayed, if not to the end.
    pub at: Option<&'a str>,
    /// Two moments or steps between which is compared, or none.
    pub diff: Vec<&'a str>,
    /// Lines that show something of what is known then.
    pub lines: Vec<&'a str>,
    /// They are answered as JSON.
    pub is_json: bool,
}

/// What the words ask for.
#[derive(Drop)]
pub enum Task<'a> {
    /// A script, whose messages are explained or not.
    Script { explain: bool },
    /// Lines of digits in words.
    Decode,
    /// The link text of this path.
    Check(&'a str),
    Serve(ServeWords<'a>),
    Tell(TellWords<'a>),
    Replay(ReplayWords<'a>),
}

fn explain_arg<'a>(alloc: Global) -> Arg<'a> {
    Arg::new(alloc, "explain")
        .long("explain")
        .action(ArgAction::SetTrue)
        .help(
            "Behind each line of bytes that are sent, say in comments what they are; all is printed at the end",
        )
}

fn script_command<'a>(alloc: Global) -> Result<Command<'a>, AllocError> {
    Command::new(alloc, "script")
        .about("Runs a link text and lines from standard input, and prints what they answer")
        .after_help(LINES)
        .arg(explain_arg(alloc))
}

fn decode_command<'a>(alloc: Global) -> Command<'a> {
    Command::new(alloc, "decode")
        .about("Says in words what messages in hexadecimal digits are")
        .after_help(DECODED_LINES)
}

fn text_arg<'a>(alloc: Global) -> Arg<'a> {
    Arg::new(alloc, "file")
        .value_name("FILE")
        .required(true)
        .action(ArgAction::Set)
        .help("The link text (TOML)")
}

fn check_command<'a>(alloc: Global) -> Result<Command<'a>, AllocError> {
    Command::new(alloc, "check")
        .about("Says in words what is wrong in a link text, or what its network has")
        .arg(text_arg(alloc))
}

fn file_arg<'a>(alloc: Global) -> Arg<'a> {
    Arg::new(alloc, "te")
        .long("te")
        .value_name("FILE")
        .required(true)
        .action(ArgAction::Set)
        .help("The link text (TOML)")
}

fn listen_arg<'a>(alloc: Global) -> Arg<'a> {
    Arg::new(alloc, "listen")
        .long("listen")
        .value_name("ADDR:PORT")
        .required(true)
        .action(ArgAction::Set)
        .help("Where routers connect, as 192.0.2.1:4189")
}

fn control_arg<'a>(alloc: Global) -> Arg<'a> {
    Arg::new(alloc, "control")
        .long("control")
        .value_name("PATH")
        .action(ArgAction::Set)
        .help("A socket for `pced tell`, which its owner alone may use")
}

fn http_arg<'a>(alloc: Global) -> Arg<'a> {
    Arg::new(alloc, "http")
        .long("http")
        .value_name("ADDR:PORT")
        .action(ArgAction::Set)
        .help("Where browsers and scrapers see the network, as 127.0.0.1:8080")
}

fn http_name_arg<'a>(alloc: Global) -> Arg<'a> {
    Arg::new(alloc, "http-name")
        .long("http-name")
        .value_name("NAME")
        .action(ArgAction::Set)
        .help("A name by which browsers and scrapers may ask for it, besides its addresses")
}

fn workers_arg<'a>(alloc: Global) -> Arg<'a> {
    Arg::new(alloc, "workers")
        .long("workers")
        .value_name("N")
        .action(ArgAction::Set)
        .value_parser(value_parser!(u64).range(1..=16))
        .default_value("2")
        .help("Threads that search for paths, 1 to 16")
}

fn sessions_arg<'a>(alloc: Global) -> Arg<'a> {
    Arg::new(alloc, "sessions")
        .long("sessions")
        .value_name("N")
        .action(ArgAction::Set)
        .value_parser(value_parser!(u64).range(1..=1000))
        .default_value("1")
        .help("Connections that are accepted in all, 1 to 1000")
}

fn keep_arg<'a>(alloc: Global) -> Arg<'a> {
    Arg::new(alloc, "keep")
        .long("keep")
        .value_name("SECONDS")
        .action(ArgAction::Set)
        .value_parser(value_parser!(u64).range(0..=3600))
        .default_value("60")
        .help("How long a router that went down is kept, 0 to 3600")
}

fn answer_arg<'a>(alloc: Global) -> Arg<'a> {
    Arg::new(alloc, "answer")
        .long("answer")
        .value_name("SECONDS")
        .action(ArgAction::Set)
        .value_parser(value_parser!(u64).range(0..=3600))
        .default_value("120")
        .help("How long a router may leave a grant unanswered, 0 to 3600; 0: for ever")
}

fn retry_arg<'a>(alloc: Global) -> Arg<'a> {
    Arg::new(alloc, "retry")
        .long("retry")
        .value_name("SECONDS")
        .action(ArgAction::Set)
        .value_parser(value_parser!(u64).range(0..=3600))
        .default_value("60")
        .help(
            "How long until a path is asked for again for an LSP that is down, 0 to 3600; 0: never",
        )
}

fn endless_arg<'a>(alloc: Global) -> Result<Arg<'a>, AllocError> {
    Arg::new(alloc, "endless")
        .long("endless")
        .action(ArgAction::SetTrue)
        .help(
            "Connections are accepted without count, until standard input ends; with --control until a line asks for the end",
        )
        .conflicts_with("sessions")
}

fn settle_arg<'a>(alloc: Global) -> Arg<'a> {
    Arg::new(alloc, "settle")
        .long("settle")
        .value_name("SECONDS")
        .action(ArgAction::Set)
        .value_parser(value_parser!(u64).range(0..=3600))
        .default_value("0")
        .help("How long no path is granted after the start, 0 to 3600")
}

fn history_arg<'a>(alloc: Global) -> Arg<'a> {
    Arg::new(alloc, "history")
        .long("history")
        .value_name("MB")
        .action(ArgAction::Set)
        .value_parser(value_parser!(u64).range(16..=65536))
        .default_value("512")
        .help("Memory for the history of events in megabytes, 16 to 65536")
}

fn settle_for_arg<'a>(alloc: Global) -> Arg<'a> {
    Arg::new(alloc, "settle-for")
        .long("settle-for")
        .value_name("ADDR")
        .action(ArgAction::Append)
        .help("A router to wait for: once all are in sync, paths are granted earlier")
}

fn only_known_arg<'a>(alloc: Global) -> Arg<'a> {
    Arg::new(alloc, "only-known")
        .long("only-known")
        .action(ArgAction::SetTrue)
        .help("Only routers whose address a node of the link text owns are heard")
}

fn journal_arg<'a>(alloc: Global) -> Arg<'a> {
    Arg::new(alloc, "journal")
        .long("journal")
        .value_name("FOLDER")
        .action(ArgAction::Set)
        .help("A folder for a file that has each step of the run, for `pced replay`")
}

fn journal_limit_arg<'a>(alloc: Global) -> Arg<'a> {
    Arg::new(alloc, "journal-limit")
        .long("journal-limit")
        .value_name("MB")
        .action(ArgAction::Set)
        .value_parser(value_parser!(u64).range(0..=1048576))
        .default_value("1024")
        .help("From how many megabytes on a file is followed by another, 0 to 1048576; 0: none")
}

fn log_arg<'a>(alloc: Global) -> Arg<'a> {
    Arg::new(alloc, "log")
        .long("log")
        .value_name("LEVEL")
        .action(ArgAction::Set)
        .default_value("info")
        .help("What is logged on standard error: off, error, warn, info, debug or trace")
}

fn serve_command<'a>(alloc: Global) -> Result<Command<'a>, AllocError> {
    Command::new(alloc, "serve")
        .about("Serves routers over TCP, and an operator's lines from standard input")
        .after_help(OPERATOR_LINES)
        .arg(file_arg(alloc))?
        .arg(listen_arg(alloc))?
        .arg(control_arg(alloc))?
        .arg(http_arg(alloc))?
        .arg(http_name_arg(alloc))?
        .arg(workers_arg(alloc))?
        .arg(sessions_arg(alloc))?
        .arg(keep_arg(alloc))?
        .arg(answer_arg(alloc))?
        .arg(retry_arg(alloc))?
        .arg(settle_arg(alloc))?
        .arg(history_arg(alloc))?
        .arg(settle_for_arg(alloc))?
        .arg(only_known_arg(alloc))?
        .arg(journal_arg(alloc))?
        .arg(journal_limit_arg(alloc))?
        .arg(log_arg(alloc))?
        .arg(endless_arg(alloc)?)
}

fn path_arg<'a>(alloc: Global) -> Arg<'a> {
    Arg::new(alloc, "path")
        .value_name("PATH")
        .required(true)
        .action(ArgAction::Set)
        .help("The control socket of a server")
}

fn lines_arg<'a>(alloc: Global) -> Arg<'a> {
    Arg::new(alloc, "line")
        .value_name("LINE")
        .num_args(..)
        .action(ArgAction::Append)
        .help("The lines, each a word; without any, the lines of standard input")
}

fn json_arg<'a>(alloc: Global) -> Arg<'a> {
    Arg::new(alloc, "json")
        .long("json")
        .action(ArgAction::SetTrue)
        .help("Lines that show something are answered as JSON")
}

fn quiet_arg<'a>(alloc: Global) -> Arg<'a> {
    Arg::new(alloc, "quiet")
        .long("quiet")
        .action(ArgAction::SetTrue)
        .help("Don't say on standard error what an answer means")
}

fn tell_command<'a>(alloc: Global) -> Result<Command<'a>, AllocError> {
    Command::new(alloc, "tell")
        .about("Sends lines to a running server, and prints what it answers")
        .after_help(WATCH_WORDS)
        .arg(json_arg(alloc))?
        .arg(quiet_arg(alloc))?
        .arg(path_arg(alloc))?
        .arg(lines_arg(alloc))
}

fn journal_files_arg<'a>(alloc: Global) -> Arg<'a> {
    Arg::new(alloc, "file")
        .value_name("FILE")
        .required(true)
        .num_args(1..)
        .action(ArgAction::Append)
        .help("The files of a run's journal, in the order of their names")
}

fn at_arg<'a>(alloc: Global) -> Arg<'a> {
    Arg::new(alloc, "at")
        .long("at")
        .value_name("STEP|TIME")
        .action(ArgAction::Set)
        .help("Replay up to this step, or to the last step of this time, as 2026-11-29T01:30:00Z")
}

fn diff_arg<'a>(alloc: Global) -> Result<Arg<'a>, AllocError> {
    Arg::new(alloc, "diff")
        .long("diff")
        .value_names(&["A", "B"])
        .num_args(2)
        .action(ArgAction::Set)
        .help("Which links and LSPs differ between two steps or times")
        .conflicts_with("at")
}

fn shown_lines_arg<'a>(alloc: Global) -> Arg<'a> {
    Arg::new(alloc, "line")
        .value_name("LINE")
        .num_args(..)
        .last(true)
        .action(ArgAction::Append)
        .help("Lines that show what was known then, each a word: book, links, lsps and others")
}

fn replay_command<'a>(alloc: Global) -> Result<Command<'a>, AllocError> {
    Command::new(alloc, "replay")
        .about("Replays a journal, compares each reply, and shows what was known at any step")
        .arg(json_arg(alloc))?
        .arg(at_arg(alloc))?
        .arg(diff_arg(alloc)?)?
        .arg(journal_files_arg(alloc))?
        .arg(shown_lines_arg(alloc))
}

fn command<'a>(alloc: Global) -> Result<Command<'a>, AllocError> {
    Command::new(alloc, "pced")
        .version(VERSION)
        .about("A stateful path computation element for MPLS-TE, with a book of its bandwidth")
        .subcommand_required(true)
        .subcommand(script_command(alloc)?)?
        .subcommand(decode_command(alloc))?
        .subcommand(check_command(alloc)?)?
        .subcommand(serve_command(alloc)?)?
        .subcommand(tell_command(alloc)?)?
        .subcommand(replay_command(alloc)?)
}

fn sessions_in(matches: &ArgMatches<'_>) -> Sessions {
    if matches.get_flag("endless") {
        return Sessions::Endless;
    }
    Sessions::Count(matches.get_one::<u64>("sessions").unwrap_or(1))
}

/// Reads the addresses of these words, or returns the first that is none.
fn addresses_in<'a>(
    alloc: Global,
    words: &[&'a str],
) -> Result<Result<Vec<u32>, &'a str>, AllocError> {
    let mut addresses = Vec::new(alloc);
    for word in words {
        let Some(address) = Ipv4::parse(word) else {
            return Ok(Err(*word));
        };
        addresses.push(address.0)?;
    }
    Ok(Ok(addresses))
}

fn orders_in(matches: &ArgMatches<'_>) -> Orders {
    Orders {
        workers: matches.get_one::<u64>("workers").unwrap_or(2),
        sessions: sessions_in(matches),
        keep_seconds: matches.get_one::<u64>("keep").unwrap_or(60),
        settle_seconds: matches.get_one::<u64>("settle").unwrap_or(0),
        answer_seconds: matches.get_one::<u64>("answer").unwrap_or(120),
        retry_seconds: matches.get_one::<u64>("retry").unwrap_or(60),
        history_megabytes: matches.get_one::<u64>("history").unwrap_or(512),
        descriptors: None,
    }
}

fn serve_words<'a>(alloc: Global, matches: &ArgMatches<'a>) -> Result<ServeWords<'a>, AllocError> {
    Ok(ServeWords {
        file: matches.get_str("te").unwrap_or(""),
        listen: matches.get_str("listen").unwrap_or(""),
        control: matches.get_str("control"),
        http: matches.get_str("http"),
        http_name: matches.get_str("http-name"),
        journal: matches.get_str("journal"),
        journal_megabytes: matches.get_one::<u64>("journal-limit").unwrap_or(1024),
        log: matches.get_str("log").unwrap_or("info"),
        only_known: matches.get_flag("only-known"),
        settle_for: addresses_in(alloc, matches.get_strs("settle-for").unwrap_or(&[]))?,
        orders: orders_in(matches),
    })
}

fn is_explained(matches: &ArgMatches<'_>) -> bool {
    match matches.subcommand_matches("script") {
        Some(matches) => matches.get_flag("explain"),
        None => false,
    }
}

fn tell_words<'a>(alloc: Global, matches: &ArgMatches<'a>) -> Result<TellWords<'a>, AllocError> {
    let mut lines = Vec::new(alloc);
    for line in matches.get_strs("line").unwrap_or(&[]) {
        lines.push(*line)?;
    }
    Ok(TellWords {
        path: matches.get_str("path").unwrap_or(""),
        lines,
        is_json: matches.get_flag("json"),
        is_quiet: matches.get_flag("quiet"),
    })
}

/// Returns the words of an argument, in their order.
fn all_words<'a>(
    alloc: Global,
    matches: &ArgMatches<'a>,
    id: &str,
) -> Result<Vec<&'a str>, AllocError> {
    let mut words = Vec::new(alloc);
    for word in matches.get_strs(id).unwrap_or(&[]) {
        words.push(*word)?;
    }
    Ok(words)
}

fn replay_words<'a>(
    alloc: Global,
    matches: &ArgMatches<'a>,
) -> Result<ReplayWords<'a>, AllocError> {
    Ok(ReplayWords {
        files: all_words(alloc, matches, "file")?,
        at: matches.get_str("at"),
        diff: all_words(alloc, matches, "diff")?,
        lines: all_words(alloc, matches, "line")?,
        is_json: matches.get_flag("json"),
    })
}

/// Reads what the words ask for. The first of them is the program's name.
pub fn parse<'a>(alloc: Global, words: &'a [String]) -> Result<Task<'a>, Error> {
    let matches = command(alloc)?.try_get_matches_from(words)?;
    if let Some(matches) = matches.subcommand_matches("serve") {
        return Ok(Task::Serve(serve_words(alloc, matches)?));
    }
    if let Some(matches) = matches.subcommand_matches("tell") {
        return Ok(Task::Tell(tell_words(alloc, matches)?));
    }
    if let Some(matches) = matches.subcommand_matches("replay") {
        return Ok(Task::Replay(replay_words(alloc, matches)?));
    }
    if let Some(matches) = matches.subcommand_matches("check") {
        return Ok(Task::Check(matches.get_str("file").unwrap_or("")));
    }
    if matches.subcommand_matches("decode").is_some() {
        return Ok(Task::Decode);
    }
    Ok(Task::Script {
        explain: is_explained(&matches),
    })
}
