//! What lines of the log say.
ghost use Rattle.std.specs.Prelude.{◌≡◌, Some};
ghost use Rattle.server_log.specs.LogLines.{capability_words};
ghost use Rattle.server_log.specs.Texts.{line_text, opening_text, refusal_text};

use crate::log_lines::LogLine;
use end_reasons::ErrorNumbers;
use error_words::error_words;
use pcep_objects::Capabilities;
use pcep_word::Ipv4;
use server_rules::PcErr;
use std::fmt;

/// What a peer's STATEFUL-PCE-CAPABILITY says (RFC 8231 section 7.1.1).
#[derive(Clone, Copy)]
struct Offer(Option<Capabilities>);

impl fmt::Display for Offer {
    ghost output = { λ offer. Some (capability_words offer.0) };

    fn fmt<W: fmt::Write>(&self, f: &mut fmt::Formatter<W>) -> fmt::Result {
        match self.0 {
            None => f.write_str("stateless"),
            Some(Capabilities { update, create }) => match (update, create) {
                (false, false) => f.write_str("stateful"),
                (true, false) => f.write_str("stateful,update"),
                (false, true) => f.write_str("stateful,initiate"),
                (true, true) => f.write_str("stateful,update,initiate"),
            },
        }
    }
}

/// What a peer's Open says (RFC 5440 section 7.3).
#[derive(Clone, Copy)]
struct Opening {
    keepalive: u8,
    dead: u8,
    capabilities: Option<Capabilities>,
}

impl fmt::Display for Opening {
    ghost output = { λ o. Some (opening_text o.keepalive o.dead o.capabilities) };

    fn fmt<W: fmt::Write>(&self, f: &mut fmt::Formatter<W>) -> fmt::Result {
        let (keepalive, dead) = (self.keepalive, self.dead);
        let offer = Offer(self.capabilities);
        write!(
            f,
            "keepalive={keepalive}s dead={dead}s capabilities={offer}"
        )
    }
}

/// The PCErr of a router, in numbers and in words.
#[derive(Clone, Copy)]
struct Refusal(PcErr);

impl fmt::Display for Refusal {
    ghost output = { λ refusal. Some (refusal_text refusal.0) };

    fn fmt<W: fmt::Write>(&self, f: &mut fmt::Formatter<W>) -> fmt::Result {
        let error = self.0;
        let (numbers, words) = (ErrorNumbers(error), error_words(error.kind, error.value));
        write!(f, "{numbers} {words}")
    }
}

impl fmt::Display for LogLine {
    ghost output = { λ line. Some (line_text line) };

    fn fmt<W: fmt::Write>(&self, f: &mut fmt::Formatter<W>) -> fmt::Result {
        match *self {
            LogLine::Listening {
                address,
                port,
                nodes,
                links,
            } => {
                let address = Ipv4(address);
                write!(f, "listening {address}:{port} nodes={nodes} links={links}")
            }
            LogLine::Up {
                peer,
                timers,
                capabilities,
            } => {
                let peer = Ipv4(peer);
                let opening = Opening {
                    keepalive: timers.keepalive,
                    dead: timers.dead,
                    capabilities,
                };
                write!(f, "up {peer} {opening}")
            }
            LogLine::InSync {
                peer,
                lsps,
                after_ms,
            } => {
                let peer = Ipv4(peer);
                write!(f, "in sync {peer} lsps={lsps} after={after_ms}ms")
            }
            LogLine::Ended { peer, reason: _ } => {
                let peer = Ipv4(peer);
                write!(f, "ended {peer}")
            }
            LogLine::Forgotten { peer } => {
                let peer = Ipv4(peer);
                write!(f, "forgotten {peer}")
            }
            LogLine::NotForgotten { peer, number } => {
                let peer = Ipv4(peer);
                write!(f, "not forgotten {peer} refused={number}")
            }
            LogLine::Rolled { steps } => write!(f, "rolled {steps}"),
            LogLine::AcceptFailed => f.write_str("accept failed"),
            LogLine::MemoryRefused => f.write_str("memory refused"),
            LogLine::WorkerFault(fault) => write!(f, "worker: {fault}"),
            LogLine::OperatorGone => f.write_str("stdin closed"),
            LogLine::ControlGone => f.write_str("control socket stopped"),
            LogLine::ViewersGone => f.write_str("http stopped"),
            LogLine::JournalGone => f.write_str("journal gone"),
            LogLine::Refused { peer, number } => {
                let peer = Ipv4(peer);
                write!(f, "refused {number} {peer}")
            }
            LogLine::Settled => f.write_str("settled"),
            LogLine::Stranger { address, count } => {
                let address = Ipv4(address);
                write!(f, "unknown router {address} count={count}")
            }
            LogLine::BelowZero {
                link,
                local,
                remote,
                worst,
            } => {
                let (local, remote) = (Ipv4(local), Ipv4(remote));
                write!(
                    f,
                    "below zero link={link} local={local} remote={remote} worst={worst}"
                )
            }
            LogLine::FewDescriptors { limit } => write!(f, "LimitNOFILE={limit} is low"),
            LogLine::Audited { steps, grants } => {
                write!(f, "audited steps={steps} grants={grants}")
            }
            LogLine::Withheld { kind, lines } => {
                let subject = kind.subject();
                write!(f, "withheld {lines} lines: {subject}")
            }
            LogLine::Lost { lines } => write!(f, "lost {lines} lines"),
            LogLine::NoAnswer { peer, srp, plsp } => {
                let peer = Ipv4(peer);
                write!(f, "no answer {peer} srp={srp} lsp={plsp}")
            }
            LogLine::RouterRefused {
                peer,
                srp,
                lsp,
                error,
            } => {
                let peer = Ipv4(peer);
                let refusal = Refusal(error);
                write!(f, "router refused {peer} srp={srp} lsp={lsp} {refusal}")
            }
            LogLine::Slowed { peer, pause_ms } => {
                let peer = Ipv4(peer);
                write!(f, "slowed {peer} pause={pause_ms}ms")
            }
            LogLine::Decided(decision) => write!(f, "{decision}"),
        }
    }
}
