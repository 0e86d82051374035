//! What holds of every run.

ghost use Rattle.std.specs.Prelude.{◌≡◌};
ghost use Rattle.pcep_messages.specs.Spelling.{written};
ghost use Rattle.pcep_session.specs.Calls.{own_open, own_opening};
ghost use Rattle.pcep_session.specs.Runs.{CallsAreARun};
ghost use Rattle.pcep_session.specs.Cuts.{CutAnyWay};
ghost use Rattle.pcep_session.specs.Ends.{TurnsEnd, TurnsRunOut};

/// Shows that a list of calls, each of which did what its contract says, is a run: the inputs, the output taken and the
/// session after it are those of the definitions. Calls for which memory ran out don't count.
pub fn calls_are_a_run()
    ensures { CallsAreARun }
{}

/// Shows that the same bytes at the same moments give the same inputs and the same session, with the same output,
/// however they are cut into pieces. This holds if `next` is called after each piece until it returns None, and no
/// timer is due then.
pub fn cut_any_way()
    ensures { CutAnyWay }
{}

/// Shows that after `most_turns` calls of `next` one more answers None: nothing is left to handle.
pub fn turns_end()
    ensures { TurnsEnd }
{}

/// Shows that each input that `next` gives uses one of the turns that are left, which are `most_turns` at most. What
/// the caller sends, ends or takes in between adds none; only `feed` and `tick` do.
pub fn turns_run_out()
    ensures { TurnsRunOut }
{}

/// Shows that the bytes that a session begins with are the spelling of its Open.
pub fn own_open_is_a_message()
    ensures { own_open ≡ written own_opening }
{}
