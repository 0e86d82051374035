//! Tells whether and why a run should end, and whether memory is short.
ghost use Rattle.std.specs.Prelude.{◌≡◌, ◌∷◌, [], List};
ghost use Rattle.server_rules.specs.Runs.{after, run_from};
ghost use Rattle.server_rules.specs.declared.run_state.RunHappening.{RunHappening};

/// What happens to a run whose faults have this type.
#[derive(Clone, Copy, PartialEq, Eq, Debug)]
pub enum RunHappening<F: Copy> {
    /// Its end was asked for.
    Closed,
    /// A fault forces its end.
    Failed(F),
    /// Memory ran out for a thread that can't roll the history itself.
    MemoryShort,
    /// The history was rolled because memory ran out.
    MemorySpared,
}

/// The state of a run.
#[derive(Clone, Copy, Debug)]
pub struct RunState<F: Copy> {
    /// Its end was asked for or forced.
    is_closing: bool,
    /// The first fault that forced its end.
    fault: Option<F>,
    is_memory_short: bool,
}

impl<F: Copy> RunState<F> {
    /// Makes the state of a run to which nothing has happened.
    pub fn new() -> RunState<F>
        ensures { result ≡ run_from [] }
    {
        RunState {
            is_closing: false,
            fault: None,
            is_memory_short: false,
        }
    }

    /// Tests whether the end was asked for or forced.
    pub fn is_closing(self) -> bool
        ensures { result ≡ self.is_closing }
    {
        self.is_closing
    }

    /// Returns the first fault that forced the end, if one did.
    pub fn fault(self) -> Option<F>
        ensures { result ≡ self.fault }
    {
        self.fault
    }

    /// Tests whether memory is short.
    pub fn is_memory_short(self) -> bool
        ensures { result ≡ self.is_memory_short }
    {
        self.is_memory_short
    }

    /// Returns the state after this happened.
    fn after(self, what: RunHappening<F>) -> RunState<F>
        ensures { result ≡ after what self }
    {
        match what {
            RunHappening::Closed => RunState {
                is_closing: true,
                fault: self.fault,
                is_memory_short: self.is_memory_short,
            },
            RunHappening::Failed(fault) => RunState {
                is_closing: true,
                fault: self.fault.or(Some(fault)),
                is_memory_short: self.is_memory_short,
            },
            RunHappening::MemoryShort => RunState {
                is_closing: self.is_closing,
                fault: self.fault,
                is_memory_short: true,
            },
            RunHappening::MemorySpared => RunState {
                is_closing: self.is_closing,
                fault: self.fault,
                is_memory_short: false,
            },
        }
    }

    /// Notes what happened.
    pub fn note(&mut self, what: RunHappening<F>)
        ensures { (past : List (RunHappening F)) → self.old ≡ run_from past → self.new ≡ run_from (what ∷ past) }
    {
        *self = self.after(what);
    }
}
