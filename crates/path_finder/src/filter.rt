//! Which links a path may take, and what they cost.
ghost use Rattle.std.specs.Prelude.{◌≡◌, ◌<◌, ◌≤◌, ◌^◌, ◌-◌, ◌||◌, pos, int_le, nat_le, IfSome};
ghost use Rattle.te_snapshot.specs.Room.{has_room_at, has_room};
ghost use Rattle.te_base.specs.Ted.{IsLinkAmong};
ghost use Rattle.te_snapshot.specs.Leaving.{arc_of, IsArcAmong};
ghost use Rattle.te_snapshot.specs.Admissible.{is_open};
ghost use Rattle.path_finder.specs.Passing.{arc_metric, fee, toll};

use crate::query::Query;
use lsp_words::MetricType;
use pcep_word::Priority;
use te_base::{Link, LinkNumber};
use te_snapshot::{Outgoing, colours_pass, own_share};

/// Tests whether what the tunnel's share rises by is left, or it doesn't rise.
fn rise_fits(left: i64, share: u64, bandwidth: u64) -> bool
    requires { bandwidth < 2 ^ 48 }
    ensures { result ≡ (nat_le bandwidth share || int_le (pos (bandwidth - share)) left) }
{
    bandwidth <= share || (bandwidth - share) as i64 <= left
}

/// Tests whether the bandwidth fits on the link at the priority. Own shares are looked up only if less is left than the
/// bandwidth.
#[inline(always)]
fn has_room_at(query: &Query<'_>, link: LinkNumber, priority: Priority) -> bool
    ensures { result ≡ has_room_at query.now.unreserved.now query.now.own.now query.now.constraints.now.bandwidth link priority }
{
    let bandwidth = query.constraints.bandwidth.value();
    let left = query.unreserved.left(link, priority);
    bandwidth as i64 <= left || rise_fits(left, own_share(query.own, link, priority), bandwidth)
}

/// Tests whether the bandwidth fits on the link at each priority from holding to setup.
#[inline(always)]
fn has_room(query: &Query<'_>, link: LinkNumber) -> bool
    ensures { result ≡ has_room query.now.unreserved.now query.now.own.now query.now.constraints.now.bandwidth
        query.now.constraints.now.priorities.hold query.now.constraints.now.priorities.setup link }
{
    let hold = query.constraints.priorities.hold().number();
    let setup = query.constraints.priorities.setup().number();
    for priority in hold..setup + 1 {
        if !has_room_at(query, link, Priority::capped(priority)) {
            return false;
        }
    }
    true
}

#[inline(always)]
pub(crate) fn is_open(query: &Query<'_>, arc: &Outgoing) -> bool
    ensures { result ≡ is_open query.now.unreserved.now query.now.constraints.now query.now.own.now arc.now.number arc.now.colour }
{
    colours_pass(&query.constraints.colours, arc.colour) && has_room(query, arc.number)
}

#[inline(always)]
pub(crate) fn metric(minimise: MetricType, arc: &Outgoing) -> u32
    requires igp { arc.now.igp < 2 ^ 24 }
    requires te { arc.now.te < 2 ^ 24 }
    ensures value { result ≡ arc_metric minimise arc.now }
    ensures small { result < 2 ^ 24 }
{
    match minimise {
        MetricType::Igp => arc.igp,
        MetricType::Te => arc.te,
        MetricType::Hops => 1,
    }
}

/// Returns what the link adds to the cost of a path, if the path may take it.
#[inline(always)]
#[tactic(auto, unfolding(crate::specs::Passing::fee))]
pub(crate) fn fee(query: &Query<'_>, arc: &Outgoing) -> Option<u32>
    requires igp { arc.now.igp < 2 ^ 24 }
    requires te { arc.now.te < 2 ^ 24 }
    ensures fee { result ≡ fee query.now arc.now }
    ensures small { IfSome result (λ price. price < 2 ^ 24) }
{
    if is_open(query, arc) {
        Some(metric(query.constraints.minimise, arc))
    } else {
        None
    }
}

/// Returns the same for a link by its number.
pub(crate) fn toll(query: &Query<'_>, number: LinkNumber, link: &Link) -> Option<u32>
    requires igp { link.now.igp < 2 ^ 24 }
    requires te { link.now.te < 2 ^ 24 }
    ensures toll { result ≡ toll query.now number link.now }
    ensures small { IfSome result (λ price. price < 2 ^ 24) }
{
    fee(query, &Outgoing::of(number, link))
}
