//! The words of events.
ghost use Rattle.std.specs.Prelude.{◌≡◌, ◌++◌, true, false, OnOk, IfOk, IfErr, string_bytes};
ghost use Rattle.step_lines.specs.declared.fault.LineFault.TheVariants.{NoLine};
ghost use Rattle.item_messages.specs.Reports.{report_written, report_fits};
ghost use Rattle.item_messages.specs.Requests.{request_written, request_fits};
ghost use Rattle.step_lines.specs.Requests.{request_for, is_asked};
ghost use Rattle.step_lines.specs.Wanted.{may_be_wanted, wanted_of};
ghost use Rattle.step_lines.specs.Events.{metric_word, colour_words, limit_words, wanted_words, purpose_words, more_links, path_text, offer_text, entry_words, more_entries, entries_words, capability_words, event_words};
ghost use Rattle.line_words.specs.Written.{number_word, address_word};
ghost use Rattle.line_words.specs.Joined.{◌+>◌};
ghost use Rattle.step_lines.specs.Lines.{purpose_has_line, has_line};
ghost use Rattle.commit_core.specs.declared.ticket.Purpose.TheVariants as purpose;
ghost use Rattle.step_core.specs.declared.event.Event.TheVariants as event;

use crate::fault::LineFault;
use crate::requests::{is_asked, request_for};
use crate::wanted::{may_be_wanted, wanted_of};
use asks::{PathLimits, PathWanted};
use history_core::{Event, Purpose};
use line_words::{add_hex, add_number, add_number_or_dash};
use link_reload::LinkReload;
use lsp_base::Constraints;
use lsp_words::{Capabilities, Colours, MetricType, Plsp};
use pcep_messages::{PathRequest, StateReport};
use pcep_objects::WriteFault;
use pcep_word::Ipv4;
use sequence::Sequence;
use std::alloc::{AllocError, Global};
use std::fmt::Write;
use te_base::LinkNumber;

/// Adds a word, and the address of a peer.
fn add_of_peer(text: &mut String, word: &str, peer: u32) -> Result<(), AllocError>
    ensures { OnOk result (string_bytes text.new ≡ string_bytes text.old ++ (word.now ++ address_word peer)) }
{
    let peer = Ipv4(peer);
    write!(text, "{word}{peer} ")
}

/// Returns the word of a metric that is to be least.
pub fn metric_word(metric: MetricType) -> &'static str
    ensures { result.now ≡ metric_word metric }
{
    match metric {
        MetricType::Te => "te ",
        MetricType::Igp => "igp ",
        MetricType::Hops => "hops ",
    }
}

/// Adds the colours that no link of the path has, of which each link has one, and all of which each link has.
pub fn add_colours(text: &mut String, colours: Colours) -> Result<(), AllocError>
    ensures { OnOk result (string_bytes text.new ≡ string_bytes text.old ++ colour_words colours) }
{
    let (exclude, any, all) = (
        colours.exclude_any,
        colours.include_any,
        colours.include_all,
    );
    write!(text, "{exclude} {any} {all} ")
}

/// Adds the metric that is to be least, the most of it, the most hops, and colours.
fn add_limits(text: &mut String, limits: PathLimits) -> Result<(), AllocError>
    ensures { OnOk result (string_bytes text.new ≡ string_bytes text.old ++ limit_words limits) }
{
    text.push_str(metric_word(limits.minimise))?;
    add_number_or_dash(text, limits.max_cost)?;
    add_number_or_dash(text, limits.max_hops)?;
    add_colours(text, limits.colours)
}

/// Adds what is asked of a path.
fn add_wanted(text: &mut String, wanted: PathWanted) -> Result<(), AllocError>
    ensures { OnOk result (string_bytes text.new ≡ string_bytes text.old ++ wanted_words wanted) }
{
    let (from, to, bandwidth) = (wanted.from, wanted.to, wanted.bandwidth.value());
    let (setup, hold) = (
        wanted.priorities.setup().number(),
        wanted.priorities.hold().number(),
    );
    write!(text, "{from} {to} {bandwidth} {setup} {hold} ")?;
    add_limits(text, wanted.limits)
}

/// Writes the bytes of the PCReq of a request. Fails with `NoLine` exactly if a bound is 2^48 or more.
fn request_bytes(alloc: Global, request: &PathRequest) -> Result<Vec<u8>, LineFault>
    ensures written { IfOk result (λ bytes. bytes.items ≡ request_written request.now) }
    ensures fits { IfOk result (λ _. request_fits request.now ≡ true) }
    ensures no_line { IfErr result (λ e. e ≡ NoLine → request_fits request.now ≡ false) }
{
    match item_messages::request_bytes(alloc, request) {
        Ok(bytes) => Ok(bytes),
        Err(WriteFault::TooLong) => Err(LineFault::NoLine),
        Err(WriteFault::OutOfMemory) => Err(LineFault::OutOfMemory),
    }
}

/// Writes the bytes of the PCRpt of a report. Fails with `NoLine` exactly if a length doesn't fit its field.
fn report_bytes(alloc: Global, report: &StateReport) -> Result<Vec<u8>, LineFault>
    ensures written { IfOk result (λ bytes. bytes.items ≡ report_written report.now) }
    ensures fits { IfOk result (λ _. report_fits report.now ≡ true) }
    ensures no_line { IfErr result (λ e. e ≡ NoLine → report_fits report.now ≡ false) }
{
    match item_messages::report_bytes(alloc, report) {
        Ok(bytes) => Ok(bytes),
        Err(WriteFault::TooLong) => Err(LineFault::NoLine),
        Err(WriteFault::OutOfMemory) => Err(LineFault::OutOfMemory),
    }
}

/// Adds the request that a path is to answer.
#[tactic(auto, unfolding(crate::specs::Events::purpose_words))]
fn add_answer(
    alloc: Global,
    text: &mut String,
    request: u32,
    plsp: Option<Plsp>,
    constraints: &Constraints,
) -> Result<(), LineFault>
    ensures words { OnOk result (string_bytes text.new ≡ string_bytes text.old ++ purpose_words (purpose.Answer request plsp constraints.now)) }
    ensures has { IfOk result (λ _. purpose_has_line (purpose.Answer request plsp constraints.now) ≡ true) }
    ensures no_line { IfErr result (λ e. e ≡ NoLine → purpose_has_line (purpose.Answer request plsp constraints.now) ≡ false) }
{
    if !is_asked(constraints) {
        return Err(LineFault::NoLine);
    }
    let bytes = request_bytes(alloc, &request_for(request, plsp, constraints))?;
    text.push_str("answer ")?;
    add_hex(alloc, text, &bytes)?;
    Ok(())
}

/// Adds a name and what is asked of the path.
#[tactic(auto, unfolding(crate::specs::Events::purpose_words))]
fn add_initiate(
    alloc: Global,
    text: &mut String,
    name: &[u8],
    constraints: &Constraints,
) -> Result<(), LineFault>
    ensures words { OnOk result (string_bytes text.new ≡ string_bytes text.old ++ purpose_words (purpose.Initiate name.now constraints.now)) }
    ensures has { IfOk result (λ _. purpose_has_line (purpose.Initiate name.now constraints.now) ≡ true) }
    ensures no_line { IfErr result (λ e. e ≡ NoLine → purpose_has_line (purpose.Initiate name.now constraints.now) ≡ false) }
{
    if !may_be_wanted(constraints) {
        return Err(LineFault::NoLine);
    }
    text.push_str("initiate ")?;
    add_hex(alloc, text, name)?;
    add_wanted(text, wanted_of(constraints))?;
    Ok(())
}

#[tactic(auto, unfolding(crate::specs::Events::purpose_words))]
fn add_purpose(alloc: Global, text: &mut String, purpose: &Purpose) -> Result<(), LineFault>
    ensures words { OnOk result (string_bytes text.new ≡ string_bytes text.old ++ purpose_words purpose.now) }
    ensures has { IfOk result (λ _. purpose_has_line purpose.now ≡ true) }
    ensures no_line { IfErr result (λ e. e ≡ NoLine → purpose_has_line purpose.now ≡ false) }
{
    match purpose {
        Purpose::Update { plsp } => {
            let plsp = plsp.number();
            write!(text, "update {plsp} ")?;
            Ok(())
        }
        Purpose::Initiate { name, constraints } => {
            add_initiate(alloc, text, name.as_slice(), constraints)
        }
        Purpose::Answer {
            request,
            plsp,
            constraints,
        } => add_answer(alloc, text, *request, *plsp, constraints),
    }
}

fn add_more_links(text: &mut String, links: &[LinkNumber]) -> Result<(), AllocError>
    ensures { OnOk result (string_bytes text.new ≡ string_bytes text.old ++ more_links links.now) }
{
    for link in links {
        write!(text, ",{link}")?;
    }
    Ok(())
}

/// Adds link numbers, joined by commas.
pub fn add_path(text: &mut String, links: &[LinkNumber]) -> Result<(), AllocError>
    ensures { OnOk result (string_bytes text.new ≡ string_bytes text.old ++ path_text links.now) }
{
    match links {
        [] => Ok(()),
        [first, rest @ ..] => {
            write!(text, "{first}")?;
            add_more_links(text, rest)
        }
    }
}

/// Adds what a search answered.
fn add_offer(text: &mut String, offer: &Option<Sequence<LinkNumber>>) -> Result<(), AllocError>
    ensures { OnOk result (string_bytes text.new ≡ string_bytes text.old ++ offer_text offer.now) }
{
    match offer {
        None => text.push_str("none"),
        Some(links) => add_path(text, links.as_slice()),
    }
}

fn add_entry(text: &mut String, entry: &LinkReload) -> Result<(), AllocError>
    ensures { OnOk result (string_bytes text.new ≡ string_bytes text.old ++ entry_words entry.now) }
{
    let link = entry.link;
    let values = entry.values;
    let (igp, te) = (values.igp(), values.te());
    let (colour, reservable) = (values.colour(), values.reservable());
    write!(text, "{link} {igp} {te} {colour} {reservable} ")
}

fn add_more_entries(text: &mut String, entries: &[LinkReload]) -> Result<(), AllocError>
    ensures { OnOk result (string_bytes text.new ≡ string_bytes text.old ++ more_entries entries.now) }
{
    for entry in entries {
        text.push_str("; ")?;
        add_entry(text, entry)?;
    }
    Ok(())
}

/// Adds links and their values, joined by semicolons.
fn add_entries(text: &mut String, entries: &[LinkReload]) -> Result<(), AllocError>
    ensures { OnOk result (string_bytes text.new ≡ string_bytes text.old ++ entries_words entries.now) }
{
    match entries {
        [] => Ok(()),
        [first, rest @ ..] => {
            add_entry(text, first)?;
            add_more_entries(text, rest)
        }
    }
}

fn capability_words(capabilities: Option<Capabilities>) -> &'static str
    ensures { result.now ≡ capability_words capabilities }
{
    match capabilities {
        None => "- ",
        Some(Capabilities { update, create }) => match (update, create) {
            (false, false) => "",
            (true, false) => "update ",
            (false, true) => "initiate ",
            (true, true) => "update initiate ",
        },
    }
}

#[tactic(auto, unfolding(crate::specs::Events::event_words))]
fn add_report(
    alloc: Global,
    text: &mut String,
    peer: u32,
    report: &StateReport,
) -> Result<(), LineFault>
    ensures words { OnOk result (string_bytes text.new ≡ string_bytes text.old ++ event_words (event.Report peer report.now)) }
    ensures has { IfOk result (λ _. report_fits report.now ≡ true) }
    ensures no_line { IfErr result (λ e. e ≡ NoLine → report_fits report.now ≡ false) }
{
    let bytes = report_bytes(alloc, report)?;
    add_of_peer(text, "report ", peer)?;
    add_hex(alloc, text, &bytes)?;
    Ok(())
}

#[tactic(auto, unfolding(crate::specs::Events::event_words))]
fn add_ask(alloc: Global, text: &mut String, peer: u32, purpose: &Purpose) -> Result<(), LineFault>
    ensures words { OnOk result (string_bytes text.new ≡ string_bytes text.old ++ event_words (event.Ask peer purpose.now)) }
    ensures has { IfOk result (λ _. purpose_has_line purpose.now ≡ true) }
    ensures no_line { IfErr result (λ e. e ≡ NoLine → purpose_has_line purpose.now ≡ false) }
{
    add_of_peer(text, "ask ", peer)?;
    add_purpose(alloc, text, purpose)
}

#[tactic(auto, unfolding(crate::specs::Events::event_words))]
fn add_commit(
    text: &mut String,
    ticket: u64,
    offer: &Option<Sequence<LinkNumber>>,
) -> Result<(), AllocError>
    ensures { OnOk result (string_bytes text.new ≡ string_bytes text.old ++ event_words (event.Commit ticket offer.now)) }
{
    write!(text, "commit {ticket} ")?;
    add_offer(text, offer)?;
    text.push_str(" ")
}

/// Adds a word, the address of a peer, and a number.
pub fn add_numbered(text: &mut String, word: &str, peer: u32, number: u32) -> Result<(), AllocError>
    ensures { OnOk result (string_bytes text.new ≡ string_bytes text.old ++ (word.now +> address_word peer +> number_word number)) }
{
    add_of_peer(text, word, peer)?;
    add_number(text, u64::from(number))
}

#[tactic(auto, unfolding(crate::specs::Events::event_words))]
fn add_up(
    text: &mut String,
    peer: u32,
    capabilities: Option<Capabilities>,
) -> Result<(), AllocError>
    ensures { OnOk result (string_bytes text.new ≡ string_bytes text.old ++ event_words (event.Up peer capabilities)) }
{
    add_of_peer(text, "up ", peer)?;
    text.push_str(capability_words(capabilities))
}

#[tactic(auto, unfolding(crate::specs::Events::event_words))]
fn add_reload(text: &mut String, entries: &[LinkReload]) -> Result<(), AllocError>
    ensures { OnOk result (string_bytes text.new ≡ string_bytes text.old ++ event_words (event.Reload entries.now)) }
{
    text.push_str("reload ")?;
    add_entries(text, entries)
}

/// Adds the words of an event. Fails with `NoLine` exactly if it has no line.
#[tactic(auto, unfolding(crate::specs::Events::event_words))]
pub(crate) fn add_event(alloc: Global, text: &mut String, event: &Event) -> Result<(), LineFault>
    ensures words { OnOk result (string_bytes text.new ≡ string_bytes text.old ++ event_words event.now) }
    ensures has { IfOk result (λ _. has_line event.now ≡ true) }
    ensures no_line { IfErr result (λ e. e ≡ NoLine → has_line event.now ≡ false) }
{
    match event {
        Event::Up { peer, capabilities } => Ok(add_up(text, *peer, *capabilities)?),
        Event::Report { peer, report } => add_report(alloc, text, *peer, report),
        Event::Marker { peer } => Ok(add_of_peer(text, "marker ", *peer)?),
        Event::Down { peer } => Ok(add_of_peer(text, "down ", *peer)?),
        Event::Expire { peer } => Ok(add_of_peer(text, "expire ", *peer)?),
        Event::Ask { peer, purpose } => add_ask(alloc, text, *peer, purpose),
        Event::Take => Ok(text.push_str("take ")?),
        Event::Commit { ticket, offer } => Ok(add_commit(text, *ticket, offer)?),
        Event::Drain { peer } => Ok(add_of_peer(text, "drain ", *peer)?),
        Event::Refused { peer, srp } => Ok(add_numbered(text, "refused ", *peer, *srp)?),
        Event::Return { peer, plsp } => Ok(add_numbered(text, "return ", *peer, plsp.number())?),
        Event::Delete { peer, plsp } => Ok(add_numbered(text, "delete ", *peer, plsp.number())?),
        Event::Reload { links } => Ok(add_reload(text, links.as_slice())?),
    }
}
