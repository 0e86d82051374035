//! Plain data that is compared in full.
ghost use Rattle.std.specs.Prelude.{◌≡◌, ◌↔◌, IsTrue};

use commit_core::{LspName, Purpose};
use lsp_base::{Constraints, OtherBounds};
use pcep_messages::StateReport;
use pcep_objects::{
    Capabilities, Colours, Hop, Identifiers, MetricType, Operational, Plsp, RsvpError,
};
use pcep_word::{Ipv4, Priorities};
use sequence::Sequence;
use step_core::{Event, LinkReload};

/// Plain data of which any two values that differ can be told apart.
pub(crate) trait SameAs {
    /// Tests whether the two are equal in all that they hold. Allocates nothing.
    fn is_same(&self, other: &Self) -> bool
        ensures { IsTrue result ↔ (self.now ≡ other.now) };
}

impl SameAs for u8 {
    fn is_same(&self, other: &u8) -> bool {
        *self == *other
    }
}

impl SameAs for u32 {
    fn is_same(&self, other: &u32) -> bool {
        *self == *other
    }
}

impl SameAs for u64 {
    fn is_same(&self, other: &u64) -> bool {
        *self == *other
    }
}

impl SameAs for usize {
    fn is_same(&self, other: &usize) -> bool {
        *self == *other
    }
}

fn are_same_options<T: SameAs>(a: &Option<T>, b: &Option<T>) -> bool
    ensures { IsTrue result ↔ (a.now ≡ b.now) }
{
    match (a, b) {
        (Some(x), Some(y)) => x.is_same(y),
        (None, None) => true,
        _ => false,
    }
}

impl<T: SameAs> SameAs for Option<T> {
    fn is_same(&self, other: &Option<T>) -> bool {
        are_same_options(self, other)
    }
}

fn are_same_items<T: SameAs>(a: &[T], b: &[T]) -> bool
    ensures { IsTrue result ↔ (a.now ≡ b.now) }
{
    if a.len() != b.len() {
        return false;
    }
    for i in 0..a.len() {
        if !a[i].is_same(&b[i]) {
            return false;
        }
    }
    true
}

impl<T: SameAs> SameAs for Sequence<T> {
    fn is_same(&self, other: &Sequence<T>) -> bool {
        are_same_items(self.as_slice(), other.as_slice())
    }
}

impl SameAs for Plsp {
    fn is_same(&self, other: &Plsp) -> bool {
        *self == *other
    }
}

impl SameAs for Identifiers {
    fn is_same(&self, other: &Identifiers) -> bool {
        *self == *other
    }
}

impl SameAs for RsvpError {
    fn is_same(&self, other: &RsvpError) -> bool {
        *self == *other
    }
}

impl SameAs for Capabilities {
    fn is_same(&self, other: &Capabilities) -> bool {
        *self == *other
    }
}

impl SameAs for Operational {
    fn is_same(&self, other: &Operational) -> bool {
        *self == *other
    }
}

impl SameAs for MetricType {
    fn is_same(&self, other: &MetricType) -> bool {
        *self == *other
    }
}

impl SameAs for Colours {
    fn is_same(&self, other: &Colours) -> bool {
        *self == *other
    }
}

impl SameAs for Ipv4 {
    fn is_same(&self, other: &Ipv4) -> bool {
        *self == *other
    }
}

impl SameAs for Priorities {
    fn is_same(&self, other: &Priorities) -> bool {
        *self == *other
    }
}

impl SameAs for OtherBounds {
    fn is_same(&self, other: &OtherBounds) -> bool {
        self.igp.is_same(&other.igp) && self.te.is_same(&other.te)
    }
}

impl SameAs for Constraints {
    fn is_same(&self, other: &Constraints) -> bool {
        self.source.is_same(&other.source)
            && self.destination.is_same(&other.destination)
            && self.bandwidth == other.bandwidth
            && self.priorities.is_same(&other.priorities)
            && self.colours.is_same(&other.colours)
            && self.minimise.is_same(&other.minimise)
            && self.bound.is_same(&other.bound)
            && self.hop_bound.is_same(&other.hop_bound)
            && self.other_bounds.is_same(&other.other_bounds)
            && self.local_protection == other.local_protection
    }
}

impl SameAs for Hop {
    fn is_same(&self, other: &Hop) -> bool {
        match (self, other) {
            (Hop::Host(address, loose), Hop::Host(other_address, other_loose)) => {
                *address == *other_address && *loose == *other_loose
            }
            (Hop::Other(kind, body), Hop::Other(other_kind, other_body)) => {
                *kind == *other_kind && body.is_same(other_body)
            }
            _ => false,
        }
    }
}

impl SameAs for LspName {
    fn is_same(&self, other: &LspName) -> bool {
        are_same_items(self.as_slice(), other.as_slice())
    }
}

impl SameAs for StateReport {
    fn is_same(&self, other: &StateReport) -> bool {
        self.srp.is_same(&other.srp)
            && self.plsp == other.plsp
            && self.remove == other.remove
            && self.sync == other.sync
            && self.delegate == other.delegate
            && self.admin == other.admin
            && self.operational.is_same(&other.operational)
            && self.created == other.created
            && self.name.is_same(&other.name)
            && self.identifiers.is_same(&other.identifiers)
            && self.ero.is_same(&other.ero)
            && self.rro.is_same(&other.rro)
            && self.bandwidth == other.bandwidth
            && self.priorities.is_same(&other.priorities)
            && self.colours.is_same(&other.colours)
            && self.local_protection == other.local_protection
            && self.error_code.is_same(&other.error_code)
            && self.rsvp_error.is_same(&other.rsvp_error)
    }
}

impl SameAs for Purpose {
    fn is_same(&self, other: &Purpose) -> bool {
        match (self, other) {
            (Purpose::Update { plsp }, Purpose::Update { plsp: other_plsp }) => {
                *plsp == *other_plsp
            }
            (
                Purpose::Initiate { name, constraints },
                Purpose::Initiate {
                    name: other_name,
                    constraints: other_constraints,
                },
            ) => name.is_same(other_name) && constraints.is_same(other_constraints),
            (
                Purpose::Answer {
                    request,
                    plsp,
                    constraints,
                },
                Purpose::Answer {
                    request: other_request,
                    plsp: other_plsp,
                    constraints: other_constraints,
                },
            ) => {
                *request == *other_request
                    && plsp.is_same(other_plsp)
                    && constraints.is_same(other_constraints)
            }
            _ => false,
        }
    }
}

impl SameAs for LinkReload {
    fn is_same(&self, other: &LinkReload) -> bool {
        self.link == other.link && self.values == other.values
    }
}

impl SameAs for Event {
    fn is_same(&self, other: &Event) -> bool {
        match (self, other) {
            (
                Event::Up {
                    peer: p,
                    capabilities: c,
                },
                Event::Up {
                    peer: q,
                    capabilities: d,
                },
            ) => { *p == *q && c.is_same(d) }
            (Event::Report { peer: p, report: r }, Event::Report { peer: q, report: s }) => {
                *p == *q && r.is_same(s)
            }
            (Event::Marker { peer: p }, Event::Marker { peer: q }) => *p == *q,
            (Event::Down { peer: p }, Event::Down { peer: q }) => *p == *q,
            (Event::Expire { peer: p }, Event::Expire { peer: q }) => *p == *q,
            (
                Event::Ask {
                    peer: p,
                    purpose: a,
                },
                Event::Ask {
                    peer: q,
                    purpose: b,
                },
            ) => { *p == *q && a.is_same(b) }
            (Event::Take, Event::Take) => true,
            (
                Event::Commit {
                    ticket: t,
                    offer: a,
                },
                Event::Commit {
                    ticket: u,
                    offer: b,
                },
            ) => { *t == *u && a.is_same(b) }
            (Event::Drain { peer: p }, Event::Drain { peer: q }) => *p == *q,
            (Event::Refused { peer: p, srp: n }, Event::Refused { peer: q, srp: m }) => {
                *p == *q && *n == *m
            }
            (Event::Return { peer: p, plsp: n }, Event::Return { peer: q, plsp: m }) => {
                *p == *q && *n == *m
            }
            (Event::Delete { peer: p, plsp: n }, Event::Delete { peer: q, plsp: m }) => {
                *p == *q && *n == *m
            }
            (Event::Reload { links: a }, Event::Reload { links: b }) => a.is_same(b),
            _ => false,
        }
    }
}
