//! What a line asks for.

ghost use Rattle.std.specs.Prelude.{◌≡◌, IfOk};
ghost use Rattle.script_lines.specs.Orders.{reports_in, report_order, message_order, tick_order, event_order, session_order, order_with, long_order, order_in, order_of, peer_order};
ghost use Rattle.script_lines.specs.declared.orders.Order.TheVariants.{Open, Up, End};

use crate::events::event_with;
use crate::words::octets_in;
use asks::{cut_at_space, long_number_in, peer_in};
use history_core::Event;
use pcep_messages::{Message, MessageFault, StateReport, read_message};
use sequence::Sequence;
use std::alloc::{AllocError, Global};

/// A line after the link text.
#[derive(Drop)]
pub enum Order {
    /// Reports of a peer.
    Report(u32, Sequence<StateReport>),
    /// What is unreserved.
    Book,
    /// What was done so far.
    History,
    /// A session of the peer begins.
    Open(u32),
    /// A session of the peer begins and comes up.
    Up(u32),
    /// Bytes of the peer, for its session.
    Bytes(u32, Sequence<u8>),
    /// The transport of the peer's session has ended.
    End(u32),
    /// The moment, in milliseconds.
    Tick(u64),
    /// An event of an operator.
    Submit(Event),
    /// A ticket should be taken, and its path searched for.
    Take,
    /// The history should be rolled.
    Roll,
}

/// Returns the reports of a message, if it is one of state reports.
#[tactic(auto, unfolding(crate::specs::Orders::reports_in))]
fn reports_in(alloc: Global, bytes: &[u8]) -> Result<Option<Sequence<StateReport>>, AllocError>
    ensures { IfOk result (λ found. found ≡ reports_in bytes.now) }
{
    match read_message(alloc, bytes) {
        Ok(Message::Report(reports)) => Ok(Some(reports)),
        Ok(_) => Ok(None),
        Err(MessageFault::OutOfMemory) => Err(AllocError),
        Err(_) => Ok(None),
    }
}

#[tactic(auto, unfolding(crate::specs::Orders::report_order))]
fn report_order(alloc: Global, line: &str) -> Result<Option<Order>, AllocError>
    ensures { IfOk result (λ order. order ≡ report_order line.now) }
{
    let Some((peer, hex)) = cut_at_space(line) else {
        return Ok(None);
    };
    let Some(peer) = peer_in(peer) else {
        return Ok(None);
    };
    let Some(bytes) = octets_in(alloc, hex)? else {
        return Ok(None);
    };
    let Some(reports) = reports_in(alloc, bytes.as_slice())? else {
        return Ok(None);
    };
    Ok(Some(Order::Report(peer, reports)))
}

#[tactic(auto, unfolding(crate::specs::Orders::message_order))]
fn message_order(alloc: Global, line: &str) -> Result<Option<Order>, AllocError>
    ensures { IfOk result (λ order. order ≡ message_order line.now) }
{
    let Some((peer, hex)) = cut_at_space(line) else {
        return Ok(None);
    };
    let Some(peer) = peer_in(peer) else {
        return Ok(None);
    };
    let Some(bytes) = octets_in(alloc, hex)? else {
        return Ok(None);
    };
    Ok(Some(Order::Bytes(peer, Sequence::from_vec(bytes))))
}

#[tactic(auto, unfolding(crate::specs::Orders::tick_order))]
fn tick_order(line: &str) -> Option<Order>
    ensures { result ≡ tick_order line.now }
{
    let Some(now_ms) = long_number_in(line) else {
        return None;
    };
    Some(Order::Tick(now_ms))
}

#[tactic(auto, unfolding(crate::specs::Orders::event_order))]
fn event_order(alloc: Global, word: &str, rest: &str) -> Result<Option<Order>, AllocError>
    ensures { IfOk result (λ order. order ≡ event_order word.now rest.now) }
{
    let Some(event) = event_with(alloc, word, rest)? else {
        return Ok(None);
    };
    Ok(Some(Order::Submit(event)))
}

#[tactic(auto, unfolding(crate::specs::Orders::peer_order))]
fn open_order(line: &str) -> Option<Order>
    ensures { result ≡ peer_order (λ peer. Open peer) line.now }
{
    match peer_in(line) {
        Some(peer) => Some(Order::Open(peer)),
        None => None,
    }
}

#[tactic(auto, unfolding(crate::specs::Orders::peer_order))]
fn up_order(line: &str) -> Option<Order>
    ensures { result ≡ peer_order (λ peer. Up peer) line.now }
{
    match peer_in(line) {
        Some(peer) => Some(Order::Up(peer)),
        None => None,
    }
}

#[tactic(auto, unfolding(crate::specs::Orders::peer_order))]
fn end_order(line: &str) -> Option<Order>
    ensures { result ≡ peer_order (λ peer. End peer) line.now }
{
    match peer_in(line) {
        Some(peer) => Some(Order::End(peer)),
        None => None,
    }
}

#[tactic(auto, unfolding(crate::specs::Orders::session_order))]
fn session_order(alloc: Global, word: &str, rest: &str) -> Result<Option<Order>, AllocError>
    ensures { IfOk result (λ order. order ≡ session_order word.now rest.now) }
{
    if word == "open" {
        return Ok(open_order(rest));
    }
    if word == "up" {
        return Ok(up_order(rest));
    }
    if word == "end" {
        return Ok(end_order(rest));
    }
    event_order(alloc, word, rest)
}

#[tactic(auto, unfolding(crate::specs::Orders::order_with))]
fn order_with(alloc: Global, word: &str, rest: &str) -> Result<Option<Order>, AllocError>
    ensures { IfOk result (λ order. order ≡ order_with word.now rest.now) }
{
    if word == "report" {
        return report_order(alloc, rest);
    }
    if word == "msg" {
        return message_order(alloc, rest);
    }
    if word == "tick" {
        return Ok(tick_order(rest));
    }
    session_order(alloc, word, rest)
}

#[tactic(auto, unfolding(crate::specs::Orders::long_order))]
fn long_order(alloc: Global, line: &str) -> Result<Option<Order>, AllocError>
    ensures { IfOk result (λ order. order ≡ long_order line.now) }
{
    match cut_at_space(line) {
        Some((word, rest)) => order_with(alloc, word, rest),
        None => Ok(None),
    }
}

#[tactic(auto, unfolding(crate::specs::Orders::order_in))]
fn order_in(alloc: Global, line: &str) -> Result<Option<Order>, AllocError>
    ensures { IfOk result (λ order. order ≡ order_in line.now) }
{
    if line == "book" {
        return Ok(Some(Order::Book));
    }
    if line == "history" {
        return Ok(Some(Order::History));
    }
    if line == "take" {
        return Ok(Some(Order::Take));
    }
    if line == "roll" {
        return Ok(Some(Order::Roll));
    }
    long_order(alloc, line)
}

/// Returns what the line asks for; `None` for a bad line.
#[tactic(auto, unfolding(crate::specs::Orders::order_of))]
pub fn order_of(alloc: Global, line: &[u8]) -> Result<Option<Order>, AllocError>
    ensures { IfOk result (λ order. order ≡ order_of line.now) }
{
    match str::from_utf8(line) {
        Err(_) => Ok(None),
        Ok(line) => order_in(alloc, line),
    }
}
