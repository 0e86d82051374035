//! Which steps are decisions.
ghost use Rattle.std.specs.Prelude.{◌≡◌};
ghost use Rattle.serde_json.specs.View.{view};
ghost use Rattle.watch_board.specs.Steps.{is_decided, is_decision};

use crate::members::text_in;
use serde_json::Value;

/// Tests whether an event of this word asks for something, decides, or refuses.
fn is_decision(event: &str) -> bool
    ensures { result ≡ is_decision event.now }
{
    event == "ask"
        || event == "commit"
        || event == "refused"
        || event == "return"
        || event == "delete"
        || event == "reload"
}

/// Tests whether a step is a decision.
pub(crate) fn is_decided(step: &Value) -> bool
    ensures { result ≡ is_decided (view step.now) }
{
    is_decision(text_in(step, "event"))
}
