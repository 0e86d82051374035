//! Kinds of log lines.
ghost use Rattle.std.specs.Prelude.{◌≡◌, ◌<◌};
ghost use Rattle.server_log.specs.LogLines.{kind_number, subject};

/// What a log line is about. Lines of one kind have a rate of their own.
#[derive(Clone, Copy, PartialEq, Eq, Debug)]
pub enum Kind {
    Listening,
    Up,
    InSync,
    Ended,
    Forgotten,
    Rolled,
    AcceptFailed,
    MemoryRefused,
    Worker,
    Operator,
    Refused,
    Settled,
    Stranger,
    BelowZero,
    ControlSocket,
    FewDescriptors,
    Viewers,
    Audited,
    Log,
    NoAnswer,
    RouterRefused,
    Slowed,
    Asked,
    Granted,
    Replied,
    NoPath,
    GaveUp,
    Answered,
    Ordered,
    Reloaded,
    NotBooked,
    Journal,
}

/// All kinds, by their numbers.
pub(crate) const KINDS: [Kind; 32] = [
    Kind::Listening,
    Kind::Up,
    Kind::InSync,
    Kind::Ended,
    Kind::Forgotten,
    Kind::Rolled,
    Kind::AcceptFailed,
    Kind::MemoryRefused,
    Kind::Worker,
    Kind::Operator,
    Kind::Refused,
    Kind::Settled,
    Kind::Stranger,
    Kind::BelowZero,
    Kind::ControlSocket,
    Kind::FewDescriptors,
    Kind::Viewers,
    Kind::Audited,
    Kind::Log,
    Kind::NoAnswer,
    Kind::RouterRefused,
    Kind::Slowed,
    Kind::Asked,
    Kind::Granted,
    Kind::Replied,
    Kind::NoPath,
    Kind::GaveUp,
    Kind::Answered,
    Kind::Ordered,
    Kind::Reloaded,
    Kind::NotBooked,
    Kind::Journal,
];

impl Kind {
    /// Gives its number, below 32.
    pub(crate) fn number(self) -> usize
        ensures number { result ≡ kind_number self }
        ensures few { result < 32 }
    {
        match self {
            Kind::Listening => 0,
            Kind::Up => 1,
            Kind::InSync => 2,
            Kind::Ended => 3,
            Kind::Forgotten => 4,
            Kind::Rolled => 5,
            Kind::AcceptFailed => 6,
            Kind::MemoryRefused => 7,
            Kind::Worker => 8,
            Kind::Operator => 9,
            Kind::Refused => 10,
            Kind::Settled => 11,
            Kind::Stranger => 12,
            Kind::BelowZero => 13,
            Kind::ControlSocket => 14,
            Kind::FewDescriptors => 15,
            Kind::Viewers => 16,
            Kind::Audited => 17,
            Kind::Log => 18,
            Kind::NoAnswer => 19,
            Kind::RouterRefused => 20,
            Kind::Slowed => 21,
            Kind::Asked => 22,
            Kind::Granted => 23,
            Kind::Replied => 24,
            Kind::NoPath => 25,
            Kind::GaveUp => 26,
            Kind::Answered => 27,
            Kind::Ordered => 28,
            Kind::Reloaded => 29,
            Kind::NotBooked => 30,
            Kind::Journal => 31,
        }
    }

    /// Says in words what its lines are about.
    pub(crate) fn subject(self) -> &'static str
        ensures { result.now ≡ subject self }
    {
        match self {
            Kind::Listening => "listening",
            Kind::Up => "up",
            Kind::InSync => "in sync",
            Kind::Ended => "ended",
            Kind::Forgotten => "forgotten",
            Kind::Rolled => "rolled",
            Kind::AcceptFailed => "accept failed",
            Kind::MemoryRefused => "memory refused",
            Kind::Worker => "worker",
            Kind::Operator => "operator",
            Kind::Refused => "refused",
            Kind::Settled => "settled",
            Kind::Stranger => "unknown router",
            Kind::BelowZero => "below zero",
            Kind::ControlSocket => "control socket",
            Kind::FewDescriptors => "LimitNOFILE",
            Kind::Viewers => "viewers",
            Kind::Audited => "audited",
            Kind::Log => "log",
            Kind::NoAnswer => "no answer",
            Kind::RouterRefused => "router refused",
            Kind::Slowed => "slowed",
            Kind::Asked => "asked",
            Kind::Granted => "granted",
            Kind::Replied => "replied",
            Kind::NoPath => "no path",
            Kind::GaveUp => "gave up",
            Kind::Answered => "answered",
            Kind::Ordered => "operator lines",
            Kind::Reloaded => "reload",
            Kind::NotBooked => "not booked",
            Kind::Journal => "journal",
        }
    }
}
