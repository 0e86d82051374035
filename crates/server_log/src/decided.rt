//! The texts of lines about what was asked for and decided.
ghost use Rattle.std.specs.Prelude.{Some};
ghost use Rattle.server_log.specs.Decisions.{answer_text, asked_text, asker_text, decision_text, end_text, initiate_text, obstacle_text, order_text, wanted_text, why_text};

use crate::decisions::{AskedPath, Asker, Decision, Initiation, Order, OrderReply, Wanted};
use crate::limits::{LimitKeys, LineWord};
use asks::Rate;
use path_looks::Obstacle;
use pcep_word::Ipv4;
use std::fmt;

impl fmt::Display for Wanted {
    ghost output = { λ wanted. Some (wanted_text wanted) };

    fn fmt<W: fmt::Write>(&self, f: &mut fmt::Formatter<W>) -> fmt::Result {
        match *self {
            Wanted::Lsp(name) => write!(f, "lsp={name}"),
            Wanted::Request(request) => write!(f, "request={request}"),
        }
    }
}

impl fmt::Display for AskedPath {
    ghost output = { λ path. Some (asked_text path) };

    fn fmt<W: fmt::Write>(&self, f: &mut fmt::Formatter<W>) -> fmt::Result {
        let (peer, ticket, wanted) = (Ipv4(self.peer), self.ticket, self.wanted);
        write!(f, "{peer} ticket={ticket} {wanted}")
    }
}

impl fmt::Display for Asker {
    ghost output = { λ asker. Some (asker_text asker) };

    fn fmt<W: fmt::Write>(&self, f: &mut fmt::Formatter<W>) -> fmt::Result {
        match self {
            Asker::Report => f.write_str("report"),
            Asker::Request => f.write_str("request"),
            Asker::Operator => f.write_str("operator"),
            Asker::Retry => f.write_str("retry"),
        }
    }
}

/// What prevents a path, in words.
#[derive(Clone, Copy)]
struct ObstacleWord(Obstacle);

impl fmt::Display for ObstacleWord {
    ghost output = { λ word. Some (obstacle_text word.0) };

    fn fmt<W: fmt::Write>(&self, f: &mut fmt::Formatter<W>) -> fmt::Result {
        match self.0 {
            Obstacle::Bandwidth => f.write_str("bandwidth"),
            Obstacle::Colours => f.write_str("colours"),
            Obstacle::Bounds => f.write_str("bounds"),
            Obstacle::Several => f.write_str("several"),
        }
    }
}

/// Why there is no path, if something prevents it.
#[derive(Clone, Copy)]
struct WhyNot(Option<Obstacle>);

impl fmt::Display for WhyNot {
    ghost output = { λ why. Some (why_text why.0) };

    fn fmt<W: fmt::Write>(&self, f: &mut fmt::Formatter<W>) -> fmt::Result {
        match self.0 {
            None => Ok(()),
            Some(by) => {
                let word = ObstacleWord(by);
                write!(f, " why={word}")
            }
        }
    }
}

/// The end of a path, or a dash.
#[derive(Clone, Copy)]
struct PathEnd {
    is_given: bool,
    address: u32,
}

impl fmt::Display for PathEnd {
    ghost output = { λ end. Some (end_text end.is_given end.address) };

    fn fmt<W: fmt::Write>(&self, f: &mut fmt::Formatter<W>) -> fmt::Result {
        if !self.is_given {
            return f.write_str("-");
        }
        let address = Ipv4(self.address);
        write!(f, "{address}")
    }
}

impl fmt::Display for Initiation {
    ghost output = { λ asked. Some (initiate_text asked) };

    fn fmt<W: fmt::Write>(&self, f: &mut fmt::Formatter<W>) -> fmt::Result {
        let (peer, name) = (Ipv4(self.peer), self.name);
        let from = PathEnd {
            is_given: self.has_source,
            address: self.source,
        };
        let to = PathEnd {
            is_given: self.has_destination,
            address: self.destination,
        };
        let (bandwidth, setup, hold) = (Rate(self.bandwidth), self.setup, self.hold);
        let (word, limits) = (LineWord(self.limits), LimitKeys(self.limits));
        write!(
            f,
            "{word} {peer} {name} {from} {to} {bandwidth} {setup} {hold}{limits}"
        )
    }
}

impl fmt::Display for Order {
    ghost output = { λ order. Some (order_text order) };

    fn fmt<W: fmt::Write>(&self, f: &mut fmt::Formatter<W>) -> fmt::Result {
        match *self {
            Order::Initiate(asked) => write!(f, "{asked}"),
            Order::Update { peer, plsp } => {
                let peer = Ipv4(peer);
                write!(f, "update {peer} {plsp}")
            }
            Order::Return { peer, plsp } => {
                let peer = Ipv4(peer);
                write!(f, "return {peer} {plsp}")
            }
            Order::Delete { peer, plsp } => {
                let peer = Ipv4(peer);
                write!(f, "delete {peer} {plsp}")
            }
            Order::Drop { peer, srp } => {
                let peer = Ipv4(peer);
                write!(f, "drop {peer} {srp}")
            }
            Order::Reload => f.write_str("reload"),
        }
    }
}

impl fmt::Display for OrderReply {
    ghost output = { λ reply. Some (answer_text reply) };

    fn fmt<W: fmt::Write>(&self, f: &mut fmt::Formatter<W>) -> fmt::Result {
        match *self {
            OrderReply::Done => f.write_str("done"),
            OrderReply::Asked(ticket) => write!(f, "asked {ticket}"),
            OrderReply::Removing(srp) => write!(f, "removing {srp}"),
            OrderReply::Refused(number) => write!(f, "refused {number}"),
        }
    }
}

impl fmt::Display for Decision {
    ghost output = { λ decision. Some (decision_text decision) };

    fn fmt<W: fmt::Write>(&self, f: &mut fmt::Formatter<W>) -> fmt::Result {
        match *self {
            Decision::Asked { path, by } => write!(f, "asked {path} by={by}"),
            Decision::Granted { path, srp, links } => {
                let (peer, ticket, wanted) = (Ipv4(path.peer), path.ticket, path.wanted);
                write!(
                    f,
                    "granted {peer} ticket={ticket} srp={srp} {wanted} links={links}"
                )
            }
            Decision::Replied { path, links } => write!(f, "replied {path} links={links}"),
            Decision::NoPath { path, why } => {
                let why = WhyNot(why);
                write!(f, "no path {path}{why}")
            }
            Decision::GaveUp { path } => write!(f, "gave up {path}"),
            Decision::Answered {
                peer,
                srp,
                lsp,
                after_ms,
            } => {
                let peer = Ipv4(peer);
                write!(f, "answered {peer} srp={srp} lsp={lsp} after={after_ms}ms")
            }
            Decision::Ordered { order, reply } => write!(f, "operator {order}: {reply}"),
            Decision::Reloaded { links, below } => write!(f, "reload links={links} below={below}"),
            Decision::NotBooked { peer, plsp } => {
                let peer = Ipv4(peer);
                write!(f, "not booked {peer} lsp={plsp}: too many paths")
            }
        }
    }
}
