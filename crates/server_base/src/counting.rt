//! What is counted for steps.
ghost use Rattle.std.specs.Prelude.{◌≡◌, []};
ghost use Rattle.server_base.specs.Counting.{all_counted, step_counted, turn_counted};

use database_looks::kind_of;
use engine_core::{Call, Reply, Store};
use history_core::Brief;
use pce_seen::EventKind;
use server_counts::{Counted, Counters};
use shared_pce::Worked;

/// Counts a step, and if it was refused, the reason too.
pub(crate) fn count_step(counters: &mut Counters, event: EventKind, reply: &Reply)
    ensures { counters.new ≡ step_counted event reply.now counters.old }
{
    counters.add(Counted::Step(event, Brief::of(reply)));
    if let Reply::Refused(why) = reply {
        counters.add(Counted::Refusal(why.number()));
    }
}

/// Counts each call.
pub(crate) fn count_calls(counters: &mut Counters, calls: &[Call])
    ensures { counters.new ≡ all_counted calls.now counters.old }
{
    for call in calls {
        count_step(counters, kind_of(call.event.event()), &call.reply);
    }
}

/// Counts the calls of a store, and empties its list.
pub fn forget_counted<D: Store>(store: &mut D, counters: &mut Counters)
    ensures counted { counters.new ≡ all_counted (D.calls store.old) counters.old }
    ensures empty { D.calls store.new ≡ [] }
    ensures same { D.same_but_calls store.old store.new }
{
    count_calls(counters, store.calls());
    store.forget();
}

/// Counts the steps of a worker's turn that began with or without a job in its hand.
pub fn count_worked(counters: &mut Counters, worked: &Worked, had_job: bool)
    ensures { counters.new ≡ turn_counted had_job worked.now counters.old }
{
    match worked {
        Worked::Idle => counters.add(Counted::Step(EventKind::Take, Brief::Idle)),
        Worked::Done { reply, .. } => {
            if !had_job {
                counters.add(Counted::Step(EventKind::Take, Brief::Job(0)));
            }
            count_step(counters, EventKind::Commit, reply);
        }
    }
}
