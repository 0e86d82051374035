//! `pced serve`: the file, the listener, the run, and what can go wrong with each, in this order.
ghost use Rattle.std.specs.Prelude.{◌≤◌};
ghost use Rattle.server_rules.specs.Ranges.{AreSessions, AreOrders};

use control_socket::{ControlFile, close_path, open_path};
use journal_writing::{JournalFolder, has_mark, moment_name};
use log::{LevelFilter, Log, Logged};
use pce_engine::TeFault;
use pce_server::{
    Fault, FilePlan, JournalPlace, Listeners, Orders, Routers, RunFault, Sessions, ViewerListener,
    serve_run,
};
use pced_commands::{ServeFault, Stamped, add_checked, descriptor_limit};
use pced_words::ServeWords;
use pcep_word::Ipv4;
use server_talk::{PolledInput, PolledOutput};
use std::alloc::Global;
use std::fmt::Write;
use std::fs::{File, Files};
use std::hash::RandomState;
use std::io;
use std::io::{IsTerminal, Read};
use std::net::{Ipv4Addr, Net, SocketAddr, TcpListener, TcpStream};
use std::os::unix::net::UnixListener;
use std::rt::{Clock, Runtime};
use std::str::FromStr;
use std::sync::Wait;
use std::thread::Threads;
use te_base::TeBase;
use te_words::places_text;
use text_files::read_file;

/// Reads the port of a decimal number below 65,536.
fn port_in(word: &str) -> Option<u16> {
    if !word.bytes().all(|byte| byte.is_ascii_digit()) {
        return None;
    }
    word.parse::<u16>().ok()
}

/// Reads the address and the port of `ADDR:PORT`.
fn place_in(word: &str) -> Option<SocketAddr> {
    let (address, port) = word.split_once(':')?;
    let address = Ipv4::parse(address)?;
    let port = port_in(port)?;
    Some(SocketAddr::from((Ipv4Addr::from_bits(address.0), port)))
}

/// Reads the address and the port that an option gives.
fn place_of(told: &mut String, option: &str, word: &str) -> Result<SocketAddr, ServeFault> {
    match place_in(word) {
        Some(place) => Ok(place),
        None => {
            let _told = write!(told, "{option} {word}: not ADDR:PORT, as 192.0.2.1:4189");
            Err(ServeFault::BadArgument)
        }
    }
}

/// Reads the most verbose level of the log.
fn level_of(told: &mut String, word: &str) -> Result<LevelFilter, ServeFault> {
    match LevelFilter::from_str(word) {
        Ok(level) => Ok(level),
        Err(_) => {
            let _told = write!(
                told,
                "--log {word}: none of off, error, warn, info, debug and trace"
            );
            Err(ServeFault::BadArgument)
        }
    }
}

/// Returns the routers that are waited for. If there are any, the time for that must be above 0.
fn settle_for_of<'a>(
    told: &mut String,
    words: &'a ServeWords<'_>,
) -> Result<&'a [u32], ServeFault> {
    match &words.settle_for {
        Ok(routers) if routers.is_empty() || words.orders.settle_seconds > 0 => {
            Ok(routers.as_slice())
        }
        Ok(_) => {
            let _told = told.push_str("--settle-for: given without --settle SECONDS above 0");
            Err(ServeFault::BadArgument)
        }
        Err(word) => {
            let _told = write!(told, "--settle-for {word}: not an address, as 192.0.2.1");
            Err(ServeFault::BadArgument)
        }
    }
}

/// Reads the links and nodes of a text in a file.
fn base_in(alloc: Global, told: &mut String, text: &[u8]) -> Result<TeBase, ServeFault> {
    match read_base(alloc, text) {
        Ok(base) => Ok(base),
        Err(fault) => {
            let _told = add_checked(alloc, text, told);
            Err(ServeFault::Te(fault))
        }
    }
}

fn read_base(alloc: Global, text: &[u8]) -> Result<TeBase, TeFault> {
    match str::from_utf8(text) {
        Ok(text) => TeBase::read(alloc, text),
        Err(_) => Err(TeFault::NotToml),
    }
}

/// Returns the network that all routers must belong to, if others may not be served.
fn known_in(
    alloc: Global,
    told: &mut String,
    text: &[u8],
    only_known: bool,
) -> Result<Option<TeBase>, ServeFault> {
    if !only_known {
        return Ok(None);
    }
    Ok(Some(base_in(alloc, told, text)?))
}

/// Returns the fault of a listener, or of what the system gives.
fn device_fault(error: &io::Error) -> ServeFault {
    match error.kind() {
        io::ErrorKind::OutOfMemory => ServeFault::Run(RunFault::Store(Fault::OutOfMemory)),
        _ => ServeFault::Device,
    }
}

/// Reads the link text.
fn read_text(files: &HostRuntime, told: &mut String, file: &str) -> Result<Vec<u8>, ServeFault> {
    match read_file(files, file) {
        Ok(text) => Ok(text),
        Err(fault) => {
            let _told = write!(told, "cannot read {file}: {fault}");
            if fault.is_out_of_memory() {
                return Err(ServeFault::Run(RunFault::Store(Fault::OutOfMemory)));
            }
            Err(ServeFault::Device)
        }
    }
}

fn listen<R: Net<Listener = TcpListener, Stream = TcpStream>>(
    rt: &R,
    told: &mut String,
    place: SocketAddr,
) -> Result<TcpListener, ServeFault> {
    match TcpListener::bind(rt, place) {
        Ok(listener) => Ok(listener),
        Err(error) => {
            let _told = write!(told, "cannot listen on {place}: {error}");
            Err(device_fault(&error))
        }
    }
}

/// Opens the control socket, if there should be one.
fn open_control(
    files: &HostRuntime,
    alloc: Global,
    told: &mut String,
    path: Option<&str>,
) -> Result<Option<ControlFile>, ServeFault> {
    let Some(path) = path else {
        return Ok(None);
    };
    match open_path(files, alloc, path) {
        Ok(file) => Ok(Some(file)),
        Err(error) => {
            let _told = write!(told, "cannot make the control socket {path}: {error}");
            Err(device_fault(&error))
        }
    }
}

/// Removes the file of the control socket. If it can't be removed, the next server finds it stale.
fn close_control(
    files: &HostRuntime,
    alloc: Global,
    control: &Option<ControlFile>,
    path: Option<&str>,
) {
    if let (Some(file), Some(path)) = (control, path) {
        let _removed = close_path(files, alloc, file, path);
    }
}

/// Returns where operators connect, if they may.
fn listener_of(control: &Option<ControlFile>) -> Option<&UnixListener> {
    match control {
        Some(file) => Some(file.listener()),
        None => None,
    }
}

/// Tests whether a word may be the name of a host: letters, digits, `-` and `.`.
fn is_host_name(word: &str) -> bool {
    !word.is_empty()
        && word.bytes().all(|byte| byte.is_ascii_alphanumeric() || byte == b'-' || byte == b'.')
}

/// Reads the name by which viewers may ask; empty if none is given.
fn http_name_of<'a>(told: &mut String, words: &ServeWords<'a>) -> Result<&'a str, ServeFault> {
    let Some(name) = words.http_name else {
        return Ok("");
    };
    if words.http.is_none() {
        let _told = told.push_str("--http-name: given without --http ADDR:PORT");
        return Err(ServeFault::BadArgument);
    }
    if !is_host_name(name) {
        let _told = write!(told, "--http-name {name}: not a name, as pced.example");
        return Err(ServeFault::BadArgument);
    }
    Ok(name)
}

/// Returns the address and the port for viewers, if there should be any.
fn http_place_of(told: &mut String, word: Option<&str>) -> Result<Option<SocketAddr>, ServeFault> {
    match word {
        Some(word) => Ok(Some(place_of(told, "--http", word)?)),
        None => Ok(None),
    }
}

fn listen_http<R: Net<Listener = TcpListener, Stream = TcpStream>>(
    rt: &R,
    told: &mut String,
    place: Option<SocketAddr>,
) -> Result<Option<TcpListener>, ServeFault> {
    match place {
        Some(place) => Ok(Some(listen(rt, told, place)?)),
        None => Ok(None),
    }
}

/// Writes where the nodes of a network are on a map, if that should be shown.
fn places_of(alloc: Global, base: &TeBase, is_shown: bool) -> Result<Vec<u8>, ServeFault> {
    if !is_shown {
        return Ok(Vec::new(alloc));
    }
    match places_text(alloc, base) {
        Ok(places) => Ok(places),
        Err(_) => Err(ServeFault::Run(RunFault::Store(Fault::OutOfMemory))),
    }
}

/// Draws keys that nobody knows, for viewers, if they may connect.
fn viewer_keys(
    files: &HostRuntime,
    told: &mut String,
    is_wanted: bool,
) -> Result<Option<RandomState>, ServeFault> {
    if !is_wanted {
        return Ok(None);
    }
    match RandomState::new(files) {
        Ok(keys) => Ok(Some(keys)),
        Err(error) => {
            let _told = write!(told, "cannot read random bytes: {error}");
            Err(ServeFault::Device)
        }
    }
}

/// Returns where the run can be reached.
fn listeners_at<'a>(
    routers: &'a TcpListener,
    control: Option<&'a UnixListener>,
    http: &'a Option<TcpListener>,
    keys: Option<RandomState>,
    places: &'a [u8],
    name: &'a str,
    files: &'a HostRuntime,
    journal: Option<JournalPlace<'a>>,
) -> Listeners<'a> {
    let viewers = match (http, keys) {
        (Some(listener), Some(keys)) => Some(ViewerListener {
            listener,
            keys,
            places,
            name,
            files,
        }),
        _ => None,
    };
    Listeners {
        routers,
        control,
        viewers,
        journal,
    }
}

/// Returns the name of a run that keeps a journal, which is the moment at which it begins.
fn run_name(
    files: &HostRuntime,
    alloc: Global,
    told: &mut String,
    is_wanted: bool,
) -> Result<String, ServeFault> {
    if !is_wanted {
        return Ok(String::new(alloc));
    }
    let name = match files.since_1970() {
        Ok(now) => moment_name(alloc, now),
        Err(_) => Ok(None),
    };
    match name {
        Ok(Some(name)) => Ok(name),
        Ok(None) => {
            let _told = told.push_str("cannot begin a journal: the system has no clock");
            Err(ServeFault::Device)
        }
        Err(_) => Err(ServeFault::Run(RunFault::Store(Fault::OutOfMemory))),
    }
}

/// Returns where the files of a run's journal go, if one is kept.
fn journal_folder<'a>(
    files: &'a HostRuntime,
    told: &mut String,
    words: &'a ServeWords<'_>,
    run: &'a str,
    text: &'a [u8],
) -> Result<Option<JournalFolder<'a>>, ServeFault> {
    let Some(folder) = words.journal else {
        return Ok(None);
    };
    let Ok(text) = str::from_utf8(text) else {
        return Err(ServeFault::Te(TeFault::NotToml));
    };
    if has_mark(text) {
        let _told = write!(
            told,
            "--journal {folder}: a line --- stands in the link text"
        );
        return Err(ServeFault::BadArgument);
    }
    Ok(Some(JournalFolder {
        files,
        folder,
        run,
        text,
        limit: words.journal_megabytes.saturating_mul(1_000_000),
    }))
}

/// Begins the first file of the journal, if one is kept.
fn begin_journal(
    told: &mut String,
    folder: &Option<JournalFolder<'_>>,
) -> Result<Option<File>, ServeFault> {
    let Some(folder) = folder else {
        return Ok(None);
    };
    match folder.begin() {
        Ok(file) => Ok(Some(file)),
        Err(error) => {
            let path = folder.folder;
            let _told = write!(told, "cannot begin a journal in {path}: {error}");
            Err(device_fault(&error))
        }
    }
}

/// Returns where the journal goes on, if one is kept.
fn journal_at<'a>(
    folder: &'a Option<JournalFolder<'a>>,
    file: &'a Option<File>,
) -> Option<JournalPlace<'a>> {
    match (folder, file) {
        (Some(folder), Some(file)) => Some(JournalPlace { folder, file }),
        _ => None,
    }
}

/// Returns the number of the range that is nearest to this one.
fn within(least: u64, number: u64, most: u64) -> u64
    requires { least ≤ most }
    ensures { (least ≤ result) × (result ≤ most) }
{
    if number < least {
        least
    } else if number > most {
        most
    } else {
        number
    }
}

fn sessions_within(sessions: Sessions) -> Sessions
    ensures { AreSessions result }
{
    match sessions {
        Sessions::Count(count) => Sessions::Count(within(1, count, 1000)),
        Sessions::Endless => Sessions::Endless,
    }
}

/// Returns the orders with each number in its range. The command line's parser refuses others, so they are the same.
fn orders_within(orders: Orders) -> Orders
    ensures { AreOrders result }
{
    Orders {
        workers: within(1, orders.workers, 16),
        sessions: sessions_within(orders.sessions),
        keep_seconds: within(0, orders.keep_seconds, 3600),
        settle_seconds: within(0, orders.settle_seconds, 3600),
        answer_seconds: within(0, orders.answer_seconds, 3600),
        retry_seconds: within(0, orders.retry_seconds, 3600),
        history_megabytes: within(16, orders.history_megabytes, 65536),
        descriptors: orders.descriptors,
    }
}

/// Limits the orders to what they may be, with as many descriptors as the system allows.
fn orders_of<R: Files + AllocGlobal>(rt: &R, orders: Orders) -> Orders
    ensures { AreOrders result }
{
    orders_within(Orders {
        descriptors: descriptor_limit(rt),
        ..orders
    })
}

/// What the words of `serve` and the link text say.
#[derive(Drop)]
struct Setting<'a> {
    place: SocketAddr,
    http_place: Option<SocketAddr>,
    http_name: &'a str,
    level: LevelFilter,
    settle_for: &'a [u32],
    /// The link text, with which each file of a journal begins.
    text: Vec<u8>,
    /// The network, for threads that read the link text anew.
    te: TeBase,
    /// It once more, if only its routers are served.
    known: Option<TeBase>,
}

impl<'a> Setting<'a> {
    fn routers(&self) -> Routers<'_> {
        Routers {
            known: &self.known,
            settle_for: self.settle_for,
        }
    }

    fn plan<'b>(&'b self, files: &'b HostRuntime, file: &'b str) -> FilePlan<'b, HostRuntime> {
        FilePlan {
            rt: files,
            file,
            te: &self.te,
        }
    }
}

/// Reads the words and the link text. Returns the network at the start, too.
fn setting_of<'a>(
    alloc: Global,
    files: &HostRuntime,
    words: &'a ServeWords<'_>,
    told: &mut String,
) -> Result<(TeBase, Setting<'a>), ServeFault> {
    let place = place_of(told, "--listen", words.listen)?;
    let http_place = http_place_of(told, words.http)?;
    let http_name = http_name_of(told, words)?;
    let level = level_of(told, words.log)?;
    let settle_for = settle_for_of(told, words)?;
    let text = read_text(files, told, words.file)?;
    let base = base_in(alloc, told, &text)?;
    let te = base_in(alloc, told, &text)?;
    let known = known_in(alloc, told, &text, words.only_known)?;
    let setting = Setting {
        place,
        http_place,
        http_name,
        level,
        settle_for,
        text,
        te,
        known,
    };
    Ok((base, setting))
}

/// Makes standard input one that can be waited for.
fn input_of<'a, R: Net + AllocGlobal, I: Read>(
    rt: &R,
    input: &'a mut I,
    files: &'a HostRuntime,
    told: &mut String,
) -> Result<PolledInput<'a, I, HostRuntime>, ServeFault> {
    let is_terminal = files.reader().is_terminal();
    match PolledInput::new(rt, rt.alloc(), input, files, is_terminal) {
        Ok(reader) => Ok(reader),
        Err(error) => {
            let _told = write!(told, "cannot wait for standard input: {error}");
            Err(device_fault(&error))
        }
    }
}

/// Makes standard output one that can be waited for.
fn output_of<'a, R: Net + AllocGlobal, O: io::Write>(
    rt: &R,
    output: &'a mut O,
) -> Result<PolledOutput<'a, O>, ServeFault> {
    match PolledOutput::new(rt, rt.alloc(), output) {
        Ok(writer) => Ok(writer),
        Err(_) => Err(ServeFault::Run(RunFault::Store(Fault::OutOfMemory))),
    }
}

/// Serves until the end of the run. Each operator's thread reads the link text through the system's own `files`. If the
/// start fails, adds to `told` what failed, on what and why.
pub fn serve<
    'a,
    R: Runtime<A = Global>
        + Net<Listener = TcpListener, Stream = TcpStream>
        + Wait
        + Threads
        + Log
        + Sync,
>(
    rt: &R,
    files: &'a HostRuntime,
    words: &'a ServeWords<'_>,
    told: &mut String,
) -> Result<(), ServeFault> {
    let (base, setting) = setting_of(rt.alloc(), files, words, told)?;
    let run = run_name(files, rt.alloc(), told, words.journal.is_some())?;
    let folder = journal_folder(files, told, words, &run, &setting.text)?;
    let journal = begin_journal(told, &folder)?;
    serve_setting(
        rt,
        files,
        words,
        told,
        base,
        &setting,
        journal_at(&folder, &journal),
    )
}

/// Serves with what the words and the link text say until the end of the run.
fn serve_setting<
    R: Runtime<A = Global>
        + Net<Listener = TcpListener, Stream = TcpStream>
        + Wait
        + Threads
        + Log
        + Sync,
>(
    rt: &R,
    files: &HostRuntime,
    words: &ServeWords<'_>,
    told: &mut String,
    base: TeBase,
    setting: &Setting<'_>,
    journal: Option<JournalPlace<'_>>,
) -> Result<(), ServeFault> {
    let listener = listen(rt, told, setting.place)?;
    let http = listen_http(rt, told, setting.http_place)?;
    let places = places_of(rt.alloc(), &setting.te, http.is_some())?;
    let keys = viewer_keys(files, told, http.is_some())?;
    let mut input = rt.reader();
    let mut reader = input_of(rt, &mut input, files, told)?;
    let mut output = io::writer(rt);
    let mut writer = output_of(rt, &mut output)?;
    let orders = orders_of(rt, words.orders);
    let logged = Logged::new(rt, setting.level, Stamped::new(rt));
    let plan = setting.plan(files, words.file);
    let control = open_control(files, rt.alloc(), told, words.control)?;
    let listeners = listeners_at(
        &listener,
        listener_of(&control),
        &http,
        keys,
        &places,
        setting.http_name,
        files,
        journal,
    );
    let outcome = serve_run(
        &logged,
        &listeners,
        base,
        &plan,
        orders,
        setting.routers(),
        &mut reader,
        &mut writer,
    );
    close_control(files, rt.alloc(), &control, words.control);
    match outcome {
        Ok(_audit) => Ok(()),
        Err(fault) => Err(ServeFault::Run(fault)),
    }
}
