//! What a PCRep says.

ghost use Rattle.std.specs.Prelude.{◌≡◌};
ghost use Rattle.std.specs.Option.{option_map};
ghost use Rattle.pcep_messages.specs.Replies.{about_first_rp, cost_of, answer_or_missing, reply_of, reply_body};
ghost use Rattle.pcep_messages.specs.Faults.{Gives};
ghost use Rattle.pcep_messages.specs.PartSteps.{kept};

use crate::fault::{About, MessageFault};
use crate::message::{Answer, Cost, Message, PathReply};
use crate::parts::{Parts, parts_in};
use pcep_objects::{Hop, Metric, NoPath, Rp};
use sequence::Sequence;
use std::alloc::Global;

fn about_rp(rp: Option<Rp>) -> About
    ensures { result ≡ about_first_rp rp }
{
    match rp {
        Some(rp) => About::Request(rp.id),
        None => About::Nothing,
    }
}

fn cost_of(metric: Option<Metric>) -> Option<Cost>
    ensures { result ≡ option_map cost_of metric }
{
    match metric {
        Some(metric) => Some(Cost {
            metric_type: metric.metric_type,
            value: metric.value,
        }),
        None => None,
    }
}

/// Returns what the reply to a request says of its path.
fn answer_of(
    about: About,
    no_path: Option<NoPath>,
    ero: Option<Sequence<Hop>>,
    metric: Option<Metric>,
) -> Result<Answer, MessageFault>
    ensures { Gives (λ x. x) result (answer_or_missing about no_path ero metric) }
{
    if let Some(no_path) = no_path {
        return Ok(Answer::NoPath(no_path.vector));
    }
    match ero {
        Some(hops) => Ok(Answer::Found(hops, cost_of(metric))),
        None => Err(MessageFault::Missing(7, about)),
    }
}

/// Makes the reply of these parts, and takes what it says out of them.
fn reply_of(parts: &mut Parts) -> Result<Message, MessageFault>
    ensures { Gives (λ x. x) result (reply_of (kept parts.old)) }
{
    let about = about_rp(parts.rp);
    let answer = answer_of(about, parts.no_path, parts.ero.take(), parts.metric)?;
    let Some(rp) = parts.rp else {
        return Err(MessageFault::Missing(2, About::Nothing));
    };
    Ok(Message::Reply(PathReply {
        request: rp.id,
        answer,
    }))
}

/// Reads the body of a PCRep.
#[tactic(auto, unfolding(crate::specs::Replies::reply_body))]
#[inline(never)]
pub fn read_reply(alloc: Global, body: &[u8]) -> Result<Message, MessageFault>
    ensures { Gives (λ x. x) result (reply_body body.now) }
{
    let (mut parts, fault) = parts_in(alloc, body)?;
    if let Some(fault) = fault {
        return Err(MessageFault::BadObject(fault, about_rp(parts.rp)));
    }
    reply_of(&mut parts)
}
