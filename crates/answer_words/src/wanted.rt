//! What an operator's line has to have.
ghost use Rattle.std.specs.Prelude.{◌≡◌, option_map};
ghost use Rattle.answer_words.specs.Wanted.{te_words, wanted};

/// Gives what has to follow a line's first word; `None` if no line begins with it.
#[tactic(auto, unfolding(crate::specs::Wanted::wanted))]
pub(crate) fn wanted(word: &str) -> Option<&'static str>
    ensures { option_map (λ text. text.now) result ≡ wanted word.now }
{
    match word {
        "initiate" => Some("PEER NAME FROM TO BW SETUP HOLD"),
        "place" => Some("PEER NAME FROM TO BW SETUP HOLD [KEY=VALUE ..]"),
        "path" => Some("FROM TO BW SETUP HOLD [KEY=VALUE ..]"),
        "update" | "return" | "delete" | "lsp" | "why" => Some("PEER PLSP"),
        "drop" => Some("PEER SRP"),
        "lsps" | "better" | "grants" | "tunnels" => Some("PEER, or nothing"),
        "links" => Some("the number of a link, or nothing"),
        "link" | "without" => Some("the number of a link"),
        "history" => Some("a number of steps"),
        "reload" => Some("check, or nothing"),
        "status" | "peers" | "tickets" | "book" | "end" => Some("nothing"),
        _ => None,
    }
}

/// Gives what the fault of a link text means.
#[tactic(auto, unfolding(crate::specs::Wanted::te_words))]
pub(crate) fn te_words(number: u32) -> &'static str
    ensures { result.now ≡ te_words number }
{
    match number {
        1 => "the link text is not UTF-8, or not TOML",
        2 => "a key of a node or a link is missing, or its value is of another kind",
        3 => "a value is out of its range",
        4 => "no node has the name at an end of a link",
        5 => "two nodes own one address",
        6 => "two nodes have one name",
        7 => "a link leads from a node to itself",
        8 => "there are more than 1,024 nodes or 4,096 links",
        10 => "the text has other nodes, or other ends or addresses of links",
        _ => "the link text has a fault",
    }
}
