//! Objects of JSON, each written from a list of its members.
ghost use Rattle.std.specs.Prelude.{◌≡◌, ◌++◌, ◌∷◌, [], option_map, OnOk};
ghost use Rattle.hex.specs.Hex.{encode_lower};
ghost use Rattle.json.specs.Tree.{json_tokens, members_tokens};
ghost use Rattle.json.specs.Json.{Json, Members, array, member, no_members, object, string};
ghost use Rattle.json.specs.Token.{end_object};
ghost use Rattle.pce_view.specs.Words.{lsp_error_word, operational_word, origin_word, purpose_name, state_word};
ghost use Rattle.pce_view.specs.Fields.{address, address_or_null, amounts, end_json, field_json, is_down, is_granted, left_or_null, lsp_id, members_json, members_then, name_at, name_or_null, obstacle_json, refusal_words, srp_id, text_or_null, whole_or_null, wholes, word_or_null};

use crate::states::LspState;
use crate::words::{
    cost_in, cost_of_path, event_word, is_found, link_in, links_in, links_of_path, lsp_error_word,
    obstacle_of, obstacle_word, operational_word, origin_step, origin_ticket, origin_word,
    purpose_plsp, purpose_request, purpose_word, state_word,
};
use commit_core::{LspName, Purpose};
use end_reasons::Reason;
use error_words::error_words;
use history_core::Brief;
use json::Writer;
use lsp_base::{Part, Path};
use path_looks::{Found, LinkRoom, Obstacle, PathAnswer};
use pce_seen::{EventKind, Origin};
use pcep_objects::Plsp;
use pcep_word::{Bandwidth, Ipv4, Priorities, Priority};
use sequence::Sequence;
use server_rules::{Operational, PcErr};
use std::alloc::{AllocError, Global};
use std::str;
use te_base::{LinkNumber, Name, Node};

/// The value of a member. What needs a call to be read is read where it is written, so that a table of members has no
/// calls.
#[derive(Clone, Copy)]
pub(crate) enum Field<'a> {
    Whole(u64),
    WholeOr(Option<u64>),
    Signed(i64),
    Text(&'a str),
    Flag(bool),
    Address(Ipv4),
    AddressOr(Option<Ipv4>),
    /// The address of a peer.
    Peer(u32),
    PeerOr(Option<u32>),
    Plsp(Plsp),
    Rate(Bandwidth),
    Level(Priority),
    Setup(Priorities),
    Hold(Priorities),
    /// The LSP ID of a reported path.
    LspId(Part),
    /// The SRP-ID of a granted path.
    SrpId(Part),
    IsGranted(Part),
    /// Whether the LSP of these paths is down.
    IsDown(&'a Sequence<Path>),
    /// Whether a number is there.
    IsThere(Option<u32>),
    /// The word of the state in which an LSP is shown.
    State(LspState),
    /// The word of the state in which a router reports a path.
    StateOfPath(Option<Operational>),
    /// The words of an LSP-ERROR-CODE.
    LspError(Option<u64>),
    /// The words of a PCErr.
    Refusal(Option<PcErr>),
    /// The name of a node.
    Node(&'a Name),
    /// The name of the node of a number.
    NodeAt(&'a [Node], usize),
    /// Bytes as a text, where they are UTF-8.
    Name(&'a Sequence<u8>),
    Hex(&'a Sequence<u8>),
    /// The name that an LSP is to have, if it waits for one.
    NameOr(&'a Option<LspName>),
    /// Why a connection ended.
    EndOf(Option<Reason>),
    /// What a ticket asks a path for.
    PurposeWord(&'a Purpose),
    PurposePlsp(&'a Purpose),
    PurposeName(&'a Purpose),
    PurposeRequest(&'a Purpose),
    Event(EventKind),
    Reply(Brief),
    ReplyNumber(Brief),
    IsFound(&'a PathAnswer),
    ObstacleOf(&'a PathAnswer),
    CostOf(&'a PathAnswer),
    LinksOf(&'a PathAnswer),
    TightestLink(&'a Option<LinkRoom>),
    TightestLeft(&'a Option<LinkRoom>),
    /// Whether there is a path, its cost, and its links.
    HasPath(&'a Option<Found>),
    CostOfPath(&'a Option<Found>),
    LinksOfPath(&'a Option<Found>),
    /// By what a path came, the place of that step, and the ticket.
    OriginWord(Origin),
    OriginStep(Origin),
    OriginTicket(Origin),
    Amounts(&'a [i64; 8]),
    Links(&'a Sequence<LinkNumber>),
}

/// A member of an object: its name and its value.
#[derive(Clone, Copy)]
pub(crate) struct Member<'a>(pub &'a str, pub Field<'a>);

fn put_address(alloc: Global, writer: &mut Writer, at: Ipv4) -> Result<(), AllocError>
    ensures before { writer.new.before ≡ writer.old.before }
    ensures written { OnOk result (writer.new.tokens ≡ writer.old.tokens ++ json_tokens (address at)) }
{
    let text = at.text(alloc)?;
    writer.string(&text)
}

fn put_address_or(alloc: Global, writer: &mut Writer, at: Option<Ipv4>) -> Result<(), AllocError>
    ensures before { writer.new.before ≡ writer.old.before }
    ensures written { OnOk result (writer.new.tokens ≡ writer.old.tokens ++ json_tokens (address_or_null at)) }
{
    match at {
        Some(at) => put_address(alloc, writer, at),
        None => writer.null(),
    }
}

pub(crate) fn put_whole_or(writer: &mut Writer, number: Option<u64>) -> Result<(), AllocError>
    ensures before { writer.new.before ≡ writer.old.before }
    ensures written { OnOk result (writer.new.tokens ≡ writer.old.tokens ++ json_tokens (whole_or_null number)) }
{
    match number {
        Some(number) => writer.u64(number),
        None => writer.null(),
    }
}

fn put_name(writer: &mut Writer, bytes: &[u8]) -> Result<(), AllocError>
    ensures before { writer.new.before ≡ writer.old.before }
    ensures written { OnOk result (writer.new.tokens ≡ writer.old.tokens ++ json_tokens (text_or_null bytes.now)) }
{
    match str::from_utf8(bytes) {
        Ok(text) => writer.string(text),
        Err(_) => writer.null(),
    }
}

fn put_hex(alloc: Global, writer: &mut Writer, bytes: &[u8]) -> Result<(), AllocError>
    ensures before { writer.new.before ≡ writer.old.before }
    ensures written { OnOk result (writer.new.tokens ≡ writer.old.tokens ++ json_tokens (string (encode_lower bytes.now))) }
{
    let text = hex::encode(alloc, bytes)?;
    writer.string(&text)
}

fn put_amounts(writer: &mut Writer, numbers: &[i64; 8]) -> Result<(), AllocError>
    ensures before { writer.new.before ≡ writer.old.before }
    ensures written { OnOk result (writer.new.tokens ≡ writer.old.tokens ++ json_tokens (array (amounts numbers.now))) }
{
    writer.begin_array()?;
    for n in numbers {
        writer.i64(*n)?;
    }
    writer.end_array()
}

fn put_numbers(writer: &mut Writer, numbers: &[usize]) -> Result<(), AllocError>
    ensures before { writer.new.before ≡ writer.old.before }
    ensures written { OnOk result (writer.new.tokens ≡ writer.old.tokens ++ json_tokens (array (wholes numbers.now))) }
{
    writer.begin_array()?;
    for n in numbers {
        writer.u64(*n as u64)?;
    }
    writer.end_array()
}

fn put_peer_or(alloc: Global, writer: &mut Writer, peer: Option<u32>) -> Result<(), AllocError>
    ensures before { writer.new.before ≡ writer.old.before }
    ensures written { OnOk result (writer.new.tokens ≡ writer.old.tokens ++ json_tokens (address_or_null peer)) }
{
    match peer {
        Some(peer) => put_address(alloc, writer, Ipv4(peer)),
        None => writer.null(),
    }
}

/// Returns the LSP-ID of a path that the peer reported.
pub(crate) fn lsp_id(part: Part) -> Option<u64>
    ensures { result ≡ lsp_id part }
{
    match part {
        Part::Reported(id) => Some(id as u64),
        Part::Granted(_) => None,
    }
}

/// Returns the SRP-ID of a path that was granted.
pub(crate) fn srp_id(part: Part) -> Option<u64>
    ensures { result ≡ srp_id part }
{
    match part {
        Part::Reported(_) => None,
        Part::Granted(srp) => Some(srp as u64),
    }
}

/// Tests whether a path was granted, and is in no report yet.
pub(crate) fn is_granted(part: Part) -> bool
    ensures { result ≡ is_granted part }
{
    match part {
        Part::Reported(_) => false,
        Part::Granted(_) => true,
    }
}

/// Tests whether none of the reported paths of an LSP is on a link.
pub(crate) fn is_down(paths: &[Path]) -> bool
    ensures { result ≡ is_down paths.now }
{
    paths.iter().all(|path| is_granted(path.part) || path.links.as_slice().is_empty())
}

/// Returns the name of a node, which is empty if there is no such node.
pub fn name_at(nodes: &[Node], number: usize) -> &str
    ensures { result.now ≡ name_at nodes.now number }
{
    match nodes.get(number) {
        Some(node) => node.name.as_str(),
        None => "",
    }
}

fn put_purpose_name(writer: &mut Writer, purpose: &Purpose) -> Result<(), AllocError>
    ensures before { writer.new.before ≡ writer.old.before }
    ensures written { OnOk result (writer.new.tokens ≡ writer.old.tokens ++ json_tokens (name_or_null (purpose_name purpose.now))) }
{
    match purpose {
        Purpose::Initiate { name, .. } => put_name(writer, name.as_slice()),
        Purpose::Update { .. } | Purpose::Answer { .. } => writer.null(),
    }
}

fn put_name_or(writer: &mut Writer, name: &Option<LspName>) -> Result<(), AllocError>
    ensures before { writer.new.before ≡ writer.old.before }
    ensures written { OnOk result (writer.new.tokens ≡ writer.old.tokens ++ json_tokens (name_or_null name.now)) }
{
    match name {
        Some(name) => put_name(writer, name.as_slice()),
        None => writer.null(),
    }
}

fn put_end(writer: &mut Writer, reason: Option<Reason>) -> Result<(), AllocError>
    ensures before { writer.new.before ≡ writer.old.before }
    ensures written { OnOk result (writer.new.tokens ≡ writer.old.tokens ++ json_tokens (end_json reason)) }
{
    match reason {
        Some(reason) => writer.string(reason.word()),
        None => writer.null(),
    }
}

fn put_obstacle(writer: &mut Writer, obstacle: Option<Obstacle>) -> Result<(), AllocError>
    ensures before { writer.new.before ≡ writer.old.before }
    ensures written { OnOk result (writer.new.tokens ≡ writer.old.tokens ++ json_tokens (obstacle_json obstacle)) }
{
    match obstacle {
        Some(by) => writer.string(obstacle_word(by)),
        None => writer.null(),
    }
}

/// Writes the word of how a path came, or nothing.
fn put_origin_word(writer: &mut Writer, origin: Origin) -> Result<(), AllocError>
    ensures before { writer.new.before ≡ writer.old.before }
    ensures written { OnOk result (writer.new.tokens ≡ writer.old.tokens ++ json_tokens (word_or_null (origin_word origin))) }
{
    match origin_word(origin) {
        Some(word) => writer.string(word),
        None => writer.null(),
    }
}

/// Writes the word of the state of an LSP, or nothing.
fn put_state(writer: &mut Writer, state: LspState) -> Result<(), AllocError>
    ensures before { writer.new.before ≡ writer.old.before }
    ensures written { OnOk result (writer.new.tokens ≡ writer.old.tokens ++ json_tokens (word_or_null (state_word state))) }
{
    match state_word(state) {
        Some(word) => writer.string(word),
        None => writer.null(),
    }
}

/// Writes the word of the state of a path, or nothing.
fn put_operational(writer: &mut Writer, operational: Option<Operational>) -> Result<(), AllocError>
    ensures before { writer.new.before ≡ writer.old.before }
    ensures written { OnOk result (writer.new.tokens ≡ writer.old.tokens ++ json_tokens (word_or_null (option_map operational_word operational))) }
{
    match operational {
        Some(operational) => writer.string(operational_word(operational)),
        None => writer.null(),
    }
}

/// Writes what an LSP-ERROR-CODE means, or nothing.
fn put_lsp_error(writer: &mut Writer, code: Option<u64>) -> Result<(), AllocError>
    ensures before { writer.new.before ≡ writer.old.before }
    ensures written { OnOk result (writer.new.tokens ≡ writer.old.tokens ++ json_tokens (word_or_null (option_map lsp_error_word code))) }
{
    match code {
        Some(code) => writer.string(lsp_error_word(code)),
        None => writer.null(),
    }
}

/// Writes what a PCErr means, or nothing.
fn put_refusal(writer: &mut Writer, error: Option<PcErr>) -> Result<(), AllocError>
    ensures before { writer.new.before ≡ writer.old.before }
    ensures written { OnOk result (writer.new.tokens ≡ writer.old.tokens ++ json_tokens (word_or_null (refusal_words error))) }
{
    match error {
        Some(error) => writer.string(error_words(error.kind, error.value)),
        None => writer.null(),
    }
}

/// Writes what is left of a link, or nothing.
fn put_left_or(writer: &mut Writer, room: &Option<LinkRoom>) -> Result<(), AllocError>
    ensures before { writer.new.before ≡ writer.old.before }
    ensures written { OnOk result (writer.new.tokens ≡ writer.old.tokens ++ json_tokens (left_or_null room.now)) }
{
    match room {
        Some(room) => writer.i64(room.left),
        None => writer.null(),
    }
}

fn put_value(alloc: Global, writer: &mut Writer, value: &Field<'_>) -> Result<(), AllocError>
    ensures before { writer.new.before ≡ writer.old.before }
    ensures written { OnOk result (writer.new.tokens ≡ writer.old.tokens ++ json_tokens (field_json value.now)) }
{
    match value {
        Field::Whole(n) => writer.u64(*n),
        Field::WholeOr(n) => put_whole_or(writer, *n),
        Field::Signed(n) => writer.i64(*n),
        Field::Text(text) => writer.string(text),
        Field::Flag(flag) => writer.boolean(*flag),
        Field::Address(at) => put_address(alloc, writer, *at),
        Field::AddressOr(at) => put_address_or(alloc, writer, *at),
        Field::Peer(peer) => put_address(alloc, writer, Ipv4(*peer)),
        Field::PeerOr(peer) => put_peer_or(alloc, writer, *peer),
        Field::Plsp(plsp) => writer.u64(plsp.number() as u64),
        Field::Rate(bandwidth) => writer.u64(bandwidth.value()),
        Field::Level(priority) => writer.u64(priority.number() as u64),
        Field::Setup(priorities) => writer.u64(priorities.setup().number() as u64),
        Field::Hold(priorities) => writer.u64(priorities.hold().number() as u64),
        Field::LspId(part) => put_whole_or(writer, lsp_id(*part)),
        Field::SrpId(part) => put_whole_or(writer, srp_id(*part)),
        Field::IsGranted(part) => writer.boolean(is_granted(*part)),
        Field::IsDown(paths) => writer.boolean(is_down(paths.as_slice())),
        Field::IsThere(number) => writer.boolean(number.is_some()),
        Field::State(state) => put_state(writer, *state),
        Field::StateOfPath(operational) => put_operational(writer, *operational),
        Field::LspError(code) => put_lsp_error(writer, *code),
        Field::Refusal(error) => put_refusal(writer, *error),
        Field::Node(name) => writer.string(name.as_str()),
        Field::NodeAt(nodes, number) => writer.string(name_at(nodes, *number)),
        Field::Name(bytes) => put_name(writer, bytes.as_slice()),
        Field::Hex(bytes) => put_hex(alloc, writer, bytes.as_slice()),
        Field::NameOr(name) => put_name_or(writer, name),
        Field::EndOf(reason) => put_end(writer, *reason),
        Field::PurposeWord(purpose) => writer.string(purpose_word(purpose)),
        Field::PurposePlsp(purpose) => put_whole_or(writer, purpose_plsp(purpose)),
        Field::PurposeName(purpose) => put_purpose_name(writer, purpose),
        Field::PurposeRequest(purpose) => put_whole_or(writer, purpose_request(purpose)),
        Field::Event(event) => writer.string(event_word(*event)),
        Field::Reply(reply) => writer.string(reply.word()),
        Field::ReplyNumber(reply) => put_whole_or(writer, reply.number()),
        Field::IsFound(answer) => writer.boolean(is_found(answer)),
        Field::ObstacleOf(answer) => put_obstacle(writer, obstacle_of(answer)),
        Field::CostOf(answer) => put_whole_or(writer, cost_in(answer)),
        Field::LinksOf(answer) => put_numbers(writer, links_in(answer)),
        Field::TightestLink(room) => put_whole_or(writer, link_in(room)),
        Field::TightestLeft(room) => put_left_or(writer, room),
        Field::HasPath(path) => writer.boolean(path.is_some()),
        Field::CostOfPath(path) => put_whole_or(writer, cost_of_path(path)),
        Field::LinksOfPath(path) => put_numbers(writer, links_of_path(path)),
        Field::OriginWord(origin) => put_origin_word(writer, *origin),
        Field::OriginStep(origin) => put_whole_or(writer, origin_step(*origin)),
        Field::OriginTicket(origin) => put_whole_or(writer, origin_ticket(*origin)),
        Field::Amounts(numbers) => put_amounts(writer, numbers),
        Field::Links(numbers) => put_numbers(writer, numbers.as_slice()),
    }
}

/// Writes these members of an object that is open; others and its end follow.
pub(crate) fn put_members(
    alloc: Global,
    writer: &mut Writer,
    members: &[Member<'_>],
) -> Result<(), AllocError>
    ensures before { writer.new.before ≡ writer.old.before }
    ensures written { OnOk result ((others : Members) → writer.new.tokens ++ members_tokens others ≡ writer.old.tokens ++ members_tokens (members_then members.now others)) }
{
    for member in members {
        writer.key(member.0)?;
        put_value(alloc, writer, &member.1)?;
    }
    Ok(())
}

/// Writes an object with these members.
pub(crate) fn put_object(
    alloc: Global,
    writer: &mut Writer,
    members: &[Member<'_>],
) -> Result<(), AllocError>
    ensures before { writer.new.before ≡ writer.old.before }
    ensures written { OnOk result (writer.new.tokens ≡ writer.old.tokens ++ json_tokens (object (members_json members.now))) }
{
    writer.begin_object()?;
    put_members(alloc, writer, members)?;
    writer.end_object()
}

/// Opens an object with these members and one more, whose value is to follow and then the object's end.
pub(crate) fn begin_with(
    alloc: Global,
    writer: &mut Writer,
    members: &[Member<'_>],
    name: &str,
) -> Result<(), AllocError>
    ensures before { writer.new.before ≡ writer.old.before }
    ensures written { OnOk result ((value : Json) → writer.new.tokens ++ (json_tokens value ++ end_object ∷ []) ≡ writer.old.tokens ++ json_tokens (object (members_then members.now (member name.now value no_members)))) }
{
    writer.begin_object()?;
    put_members(alloc, writer, members)?;
    writer.key(name)
}
