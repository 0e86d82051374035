//! What a connection notes about its session.
ghost use Rattle.std.specs.Prelude.{◌≡◌, ◌∷◌, [], List, nat_lt};
ghost use Rattle.server_rules.specs.Notes.{after, blank, notes_from};
ghost use Rattle.server_rules.specs.declared.connection_notes.SessionHappening.{SessionHappening};

/// The most pauses in one turn in which others find tickets.
const MOST_PAUSES: u32 = 100;

/// What happens to the session of a connection.
#[derive(Clone, Copy, PartialEq, Eq, Debug)]
pub enum SessionHappening {
    /// Its Up was accepted at this moment, in milliseconds.
    CameUp { now_ms: u64 },
    /// Its Up was refused, with this number.
    Refused { number: u8 },
    /// Its Down was submitted.
    WentDown,
    /// It paused so that others find tickets.
    Paused,
    /// Its turn ended.
    TurnEnded,
}

/// What a connection notes about its session.
#[derive(Clone, Copy, PartialEq, Eq, Debug)]
pub struct ConnectionNotes {
    up_ms: u64,
    refused: Option<u8>,
    pauses: u32,
    is_up: bool,
}

impl ConnectionNotes {
    /// Makes the notes of a session to which nothing has happened.
    pub fn new() -> ConnectionNotes
        ensures { result ≡ notes_from [] }
    {
        ConnectionNotes {
            up_ms: 0,
            refused: None,
            pauses: 0,
            is_up: false,
        }
    }

    /// Returns when the session came up, in milliseconds; 0 if it hasn't.
    pub fn up_ms(self) -> u64
        ensures { result ≡ self.up_ms }
    {
        self.up_ms
    }

    /// Returns the number by which the session was refused, if it was.
    pub fn refused(self) -> Option<u8>
        ensures { result ≡ self.refused }
    {
        self.refused
    }

    /// Tests whether the session is up: from its accepted Up until its Down is submitted.
    pub fn is_up(self) -> bool
        ensures { result ≡ self.is_up }
    {
        self.is_up
    }

    /// Tests whether the session may pause once more in this turn, so that others find tickets.
    pub fn may_pause(self) -> bool
        ensures { result ≡ nat_lt self.pauses 100 }
    {
        self.pauses < MOST_PAUSES
    }

    /// Returns the notes after this happened.
    fn after(self, what: SessionHappening) -> ConnectionNotes
        ensures { result ≡ after what self }
    {
        let mut notes = self;
        match what {
            SessionHappening::CameUp { now_ms } => {
                notes.up_ms = now_ms;
                notes.is_up = true;
            }
            SessionHappening::Refused { number } => notes.refused = Some(number),
            SessionHappening::WentDown => notes.is_up = false,
            SessionHappening::Paused => {
                notes.pauses = self.pauses.saturating_add(1).min(MOST_PAUSES)
            }
            SessionHappening::TurnEnded => notes.pauses = 0,
        }
        notes
    }

    /// Notes what happened.
    pub fn note(&mut self, what: SessionHappening)
        ensures { (past : List SessionHappening) → self.old ≡ notes_from past → self.new ≡ notes_from (what ∷ past) }
    {
        *self = self.after(what);
    }
}
