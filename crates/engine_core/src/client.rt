//! A session, and whether its peer is joined.

ghost use Rattle.std.specs.Prelude.{◌≡◌, fold, None, IfOk, IfErr, OnOk, OnErr};
ghost use Rattle.history_core.specs.declared.fault.Fault.TheVariants.{OutOfMemory};
ghost use Rattle.pcep_session.specs.Turns.{next};
ghost use Rattle.engine_core.specs.Joining.{joined_by_up};
ghost use Rattle.engine_core.specs.Engine.{new_client, client_with, ending, saying, after_refused_up, after_up, srp_about, cannot_process, sending_one};
ghost use Rattle.engine_core.specs.Sent.{SomeSent};

use history_core::{Fault, Reply, Why};
use pcep_messages::{About, Message, PcError};
use pcep_session::{Input, Session, SessionFault};
use std::alloc::Global;

/// A session with a peer, as the engine serves it.
#[derive(Debug, Drop)]
pub struct Client {
    pub session: Session,
    /// From an accepted Up until its Down is submitted.
    pub joined: bool,
}

impl Client {
    /// Makes a session that begins at this moment, in milliseconds. Its Open is in its output. The only fault is
    /// `OutOfMemory`.
    pub fn new(alloc: Global, now_ms: u64) -> Result<Client, Fault>
        ensures begun { IfOk result (λ client. client ≡ new_client now_ms) }
        ensures only_memory { IfErr result (λ fault. fault ≡ OutOfMemory) }
    {
        match Session::new(alloc, now_ms) {
            Ok(session) => Ok(Client {
                session,
                joined: false,
            }),
            Err(_) => Err(Fault::OutOfMemory),
        }
    }
}

/// The peer has a session already (RFC 5440 section 7.15, Error-Type 9).
const SECOND_SESSION: PcError = PcError {
    about: About::Nothing,
    kind: 9,
    value: 0,
};

/// No explanation (RFC 5440 section 7.17).
const NO_EXPLANATION: u8 = 1;

/// Ends a session that hasn't ended by itself.
pub(crate) fn end(
    client: &mut Client,
    error: Option<PcError>,
    reason: Option<u8>,
) -> Result<(), Fault>
    ensures ended { OnOk result (client.new ≡ ending error reason client.old) }
    ensures unchanged { OnErr result (client.new ≡ client.old) }
    ensures only_memory { IfErr result (λ fault. fault ≡ OutOfMemory) }
{
    match client.session.end(error, reason) {
        Err(SessionFault::OutOfMemory) => Err(Fault::OutOfMemory),
        _ => Ok(()),
    }
}

/// Ends a session without sending anything. Allocates nothing.
pub(crate) fn close(client: &mut Client)
    ensures { client.new ≡ ending None None client.old }
{
    let _ended = client.session.end(None, None);
}

fn refuse_up(client: &mut Client, why: Why) -> Result<(), Fault>
    ensures answered { OnOk result (client.new ≡ after_refused_up why client.old) }
    ensures unchanged { OnErr result (client.new ≡ client.old) }
    ensures only_memory { IfErr result (λ fault. fault ≡ OutOfMemory) }
{
    match why {
        Why::PeerUp => end(client, Some(SECOND_SESSION), None),
        Why::TooManyPeers => end(client, None, Some(NO_EXPLANATION)),
        _ => Ok(()),
    }
}

/// Does what the reply to an Up means for the session.
#[tactic(auto, unfolding(crate::specs::Engine::after_up))]
pub(crate) fn after_up(client: &mut Client, reply: &Reply) -> Result<(), Fault>
    ensures answered { OnOk result (client.new ≡ after_up reply.now client.old) }
    ensures unchanged { OnErr result (client.new ≡ client.old) }
    ensures joined { client.new.joined ≡ joined_by_up client.old.joined reply.now }
    ensures only_memory { IfErr result (λ fault. fault ≡ OutOfMemory) }
{
    match reply {
        Reply::Done => {
            client.joined = true;
            Ok(())
        }
        Reply::Refused(why) => refuse_up(client, *why),
        _ => Ok(()),
    }
}

/// Returns the request that a report answers (RFC 8231 section 7.2).
fn srp_about(srp: Option<u32>) -> About
    ensures { result ≡ srp_about srp }
{
    match srp {
        Some(id) if id != 0 => About::Srp(id),
        _ => About::Nothing,
    }
}

/// Answers a refused report (RFC 8231 section 8.5, Error-Type 20). The session goes on.
pub(crate) fn refuse_report(client: &mut Client, srp: Option<u32>) -> Result<(), Fault>
    ensures answered { OnOk result (client.new ≡ saying (cannot_process srp) client.old) }
    ensures unchanged { OnErr result (client.new ≡ client.old) }
    ensures only_memory { IfErr result (λ fault. fault ≡ OutOfMemory) }
{
    let error = PcError {
        about: srp_about(srp),
        kind: 20,
        value: 1,
    };
    match client.session.report_error(error) {
        Err(SessionFault::OutOfMemory) => Err(Fault::OutOfMemory),
        _ => Ok(()),
    }
}

/// Takes what the session gives next.
pub(crate) fn next(client: &mut Client) -> Result<Option<Input>, Fault>
    ensures given { IfOk result (λ given. given ≡ (next client.old.session).input) }
    ensures turned { OnOk result (client.new ≡ client_with (next client.old.session).after client.old) }
    ensures unchanged { OnErr result (client.new ≡ client.old) }
    ensures only_memory { IfErr result (λ fault. fault ≡ OutOfMemory) }
{
    match client.session.next() {
        Ok(given) => Ok(given),
        Err(_) => Err(Fault::OutOfMemory),
    }
}

/// Sends a message. A message whose lengths don't fit is left out.
pub(crate) fn send(client: &mut Client, message: &Message) -> Result<(), Fault>
    ensures sent { OnOk result (client.new ≡ sending_one client.old message.now) }
    ensures unchanged { OnErr result (client.new ≡ client.old) }
    ensures joined { client.new.joined ≡ client.old.joined }
    ensures only_memory { IfErr result (λ fault. fault ≡ OutOfMemory) }
{
    match client.session.send(message) {
        Err(SessionFault::OutOfMemory) => Err(Fault::OutOfMemory),
        _ => Ok(()),
    }
}

/// Sends messages in order. If memory runs out, some of them were sent.
pub(crate) fn send_each(client: &mut Client, messages: &[Message]) -> Result<(), Fault>
    ensures sent { OnOk result (client.new ≡ fold sending_one client.old messages.now) }
    ensures some_sent { OnErr result (SomeSent messages.now client.old client.new) }
    ensures joined { client.new.joined ≡ client.old.joined }
    ensures only_memory { IfErr result (λ fault. fault ≡ OutOfMemory) }
{
    for message in messages {
        send(client, message)?;
    }
    Ok(())
}
