//! The messages by which the PCE asks.
ghost use Rattle.std.specs.Prelude.{◌≡◌, IfOk};
ghost use Rattle.initiate_rules.specs.Messages.{hops_over, attributes_of, update_message, return_message, initiate_message, delete_message, answer_message, no_path_message};
ghost use Rattle.pcep_messages.specs.Constraints.{metric_number};

use lsp_base::Constraints;
use pcep_messages::{Answer, Attributes, Cost, Create, Initiate, Message, PathReply, Update};
use pcep_objects::{Hop, MetricType, MetricValue, Plsp};
use pcep_word::Ipv4;
use sequence::Sequence;
use std::alloc::{AllocError, Global};
use te_base::{LinkNumber, TeBase};

/// Lists the route over links: one strict hop for each that exists, its remote address (RFC 3209 section 4.3.3).
fn hops_over(
    alloc: Global,
    te: &TeBase,
    numbers: &[LinkNumber],
) -> Result<Sequence<Hop>, AllocError>
    ensures { IfOk result (λ hops. hops ≡ hops_over te.now.links numbers.now) }
{
    let mut hops = Vec::new(alloc);
    for number in numbers {
        if let Some(link) = te.link(*number) {
            hops.push(Hop::Host(link.remote, false))?;
        }
    }
    Ok(Sequence::from_vec(hops))
}

/// Returns what an LSPA says of the path that is asked for, and whether local protection is wanted.
fn attributes_of(constraints: &Constraints, local_protection: bool) -> Attributes
    ensures { result ≡ attributes_of constraints.now local_protection }
{
    Attributes {
        colours: constraints.colours,
        priorities: constraints.priorities,
        local_protection,
    }
}

/// Makes the PCUpd that carries out a grant (RFC 8231 section 6.2). The LSP stays delegated and is to be active. The
/// message has the links of these numbers, the bandwidth, priorities and colours that the grant was found for, and
/// local protection if the router reported that it is wanted.
#[tactic(auto, unfolding(crate::specs::Messages::update_message))]
pub fn update_message(
    alloc: Global,
    te: &TeBase,
    srp: u32,
    plsp: Plsp,
    constraints: &Constraints,
    links: &[LinkNumber],
) -> Result<Message, AllocError>
    ensures { IfOk result (λ message. message ≡ update_message te.now.links srp plsp constraints.now links.now) }
{
    let ero = hops_over(alloc, te, links)?;
    Ok(Message::Update(Update {
        srp,
        plsp,
        delegate: true,
        admin: true,
        ero,
        attributes: Some(attributes_of(constraints, constraints.local_protection)),
        bandwidth: Some(constraints.bandwidth),
    }))
}

/// Makes the PCUpd that gives an LSP back (RFC 8231 section 5.7.3): flag D clear, and no route. Allocates nothing.
#[tactic(auto, unfolding(crate::specs::Messages::return_message))]
pub fn return_message(alloc: Global, srp: u32, plsp: Plsp) -> Message
    ensures { result ≡ return_message srp plsp }
{
    Message::Update(Update {
        srp,
        plsp,
        delegate: false,
        admin: true,
        ero: Sequence::from_vec(Vec::new(alloc)),
        attributes: None,
        bandwidth: None,
    })
}

/// Makes the PCInitiate that sets an LSP up (RFC 8281 section 5.3). It has the name, the ends, the links, and the
/// bandwidth, priorities and colours that were asked for, and no local protection. An end that isn't given is written
/// as 0.0.0.0.
#[tactic(auto, unfolding(crate::specs::Messages::initiate_message))]
pub fn initiate_message(
    alloc: Global,
    te: &TeBase,
    srp: u32,
    name: &[u8],
    constraints: &Constraints,
    links: &[LinkNumber],
) -> Result<Message, AllocError>
    ensures { IfOk result (λ message. message ≡ initiate_message te.now.links srp name.now constraints.now links.now) }
{
    let ero = hops_over(alloc, te, links)?;
    let name = Sequence::from_vec(Vec::from_slice(alloc, name)?);
    Ok(Message::Initiate(Initiate::Create(Create {
        srp,
        name,
        source: constraints.source.unwrap_or(Ipv4(0)),
        destination: constraints.destination.unwrap_or(Ipv4(0)),
        ero,
        attributes: Some(attributes_of(constraints, false)),
        bandwidth: Some(constraints.bandwidth),
    })))
}

/// Makes the PCInitiate that removes an LSP (RFC 8281 section 5.4): flag R of SRP set.
#[tactic(auto, unfolding(crate::specs::Messages::delete_message))]
pub fn delete_message(srp: u32, plsp: Plsp) -> Message
    ensures { result ≡ delete_message srp plsp }
{
    Message::Initiate(Initiate::Remove { srp, plsp })
}

fn metric_number(minimise: MetricType) -> u8
    ensures { result ≡ metric_number minimise }
{
    match minimise {
        MetricType::Igp => 1,
        MetricType::Te => 2,
        MetricType::Hops => 3,
    }
}

/// Makes the PCRep that answers a request with the links of these numbers, and with their cost by the metric that the
/// path was to minimise (RFC 5440 section 6.5).
#[tactic(auto, unfolding(crate::specs::Messages::answer_message))]
pub fn answer_message(
    alloc: Global,
    te: &TeBase,
    request: u32,
    minimise: MetricType,
    cost: MetricValue,
    links: &[LinkNumber],
) -> Result<Message, AllocError>
    ensures { IfOk result (λ message. message ≡ answer_message te.now.links request minimise cost links.now) }
{
    let hops = hops_over(alloc, te, links)?;
    let cost = Cost {
        metric_type: metric_number(minimise),
        value: cost,
    };
    Ok(Message::Reply(PathReply {
        request,
        answer: Answer::Found(hops, Some(cost)),
    }))
}

/// Makes the PCRep that says that there is no path (RFC 5440 section 6.5), without NO-PATH-VECTOR. Allocates nothing.
#[tactic(auto, unfolding(crate::specs::Messages::no_path_message))]
pub fn no_path_message(request: u32) -> Message
    ensures { result ≡ no_path_message request }
{
    Message::Reply(PathReply {
        request,
        answer: Answer::NoPath(None),
    })
}
