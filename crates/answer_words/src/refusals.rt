//! Why an event was refused, by the number of the refusal.
ghost use Rattle.std.specs.Prelude.{◌≡◌};
ghost use Rattle.answer_words.specs.Refusals.{of_lsp, of_peer, of_nothing, subject_of};

/// What a refusal says something of.
#[derive(Clone, Copy, PartialEq, Eq, Debug)]
pub(crate) enum Subject {
    /// The peer that the line names.
    Peer,
    /// The LSP that the line names.
    Lsp,
    /// An LSP that the peer doesn't have.
    NoLsp,
    /// Neither.
    Nothing,
}

/// Gives what a refusal says something of.
pub(crate) fn subject_of(number: u32) -> Subject
    ensures { result ≡ subject_of number }
{
    match number {
        1 | 2 | 3 | 7 | 8 | 18 => Subject::Peer,
        4 => Subject::NoLsp,
        5 | 6 | 9 => Subject::Lsp,
        _ => Subject::Nothing,
    }
}

/// Gives what a refusal says of a peer.
pub(crate) fn of_peer(number: u32) -> &'static str
    ensures { result.now ≡ of_peer number }
{
    match number {
        1 => "is not known",
        2 => "is up",
        3 => "is down",
        7 => "takes no updates",
        8 => "takes no initiations",
        _ => "has not reported all of its LSPs yet",
    }
}

/// Gives what a refusal says of an LSP.
pub(crate) fn of_lsp(number: u32) -> &'static str
    ensures { result.now ≡ of_lsp number }
{
    match number {
        5 => "is not delegated",
        6 => "has a request that is awaited",
        _ => "was not initiated",
    }
}

/// Gives what a refusal says of neither a peer nor an LSP.
#[tactic(auto, unfolding(crate::specs::Refusals::of_nothing))]
pub(crate) fn of_nothing(number: u32) -> &'static str
    ensures { result.now ≡ of_nothing number }
{
    match number {
        10 => "1,024 tickets are open",
        11 => "there would be more than 16,384 paths",
        12 => "64 peers are known",
        13 => "no node owns an end of the path, or one node owns both",
        14 => "there is no such ticket",
        15 => "no search for the ticket is under way",
        16 => "an LSP of the name is there or asked for",
        17 => "the number of the next request to the peer is that of one that is awaited",
        19 => "the PLSP-IDs 0 and 1048575 are reserved",
        20 => "no link has the number",
        _ => "refused",
    }
}
