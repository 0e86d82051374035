//! What holds of every session that is served.

ghost use Rattle.engine_core.specs.Laws.{AllHandled};

/// Shows that a session is served until it gives nothing more: the bound on its turns cuts nothing off.
pub fn all_handled()
    ensures { AllHandled }
{}
