//! Lines that ask to see something. Nothing is done for them.
ghost use Rattle.std.specs.Prelude.{◌≡◌, option_map};
ghost use Rattle.script_lines.specs.Views.{json_in, view_line_in};

use asks::{Ask, ask_in, cut_at_space};

/// What a line asks to see, and in which form.
#[derive(Clone, Copy, PartialEq, Eq, Debug)]
pub struct ViewLine {
    /// What its first look asks for.
    pub ask: Ask,
    /// Whether as JSON (RFC 8259), or else as a table for people.
    pub is_json: bool,
}

/// Returns what stands after the word `json`.
fn json_in(line: &str) -> Option<&str>
    ensures { option_map (λ rest. rest.now) result ≡ json_in line.now }
{
    match cut_at_space(line) {
        Some(("json", rest)) => Some(rest),
        _ => None,
    }
}

/// Reads what a line asks to see; `None` if it asks for something else, or for nothing.
#[tactic(auto, unfolding(crate::specs::Views::view_line_in))]
pub fn view_line_in(line: &str) -> Option<ViewLine>
    ensures { result ≡ view_line_in line.now }
{
    match json_in(line) {
        Some(rest) => match ask_in(rest) {
            Some(ask) => Some(ViewLine { ask, is_json: true }),
            None => None,
        },
        None => match ask_in(line) {
            Some(ask) => Some(ViewLine {
                ask,
                is_json: false,
            }),
            None => None,
        },
    }
}
