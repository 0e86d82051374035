//! What an answer means, in a sentence.
ghost use Rattle.std.specs.Prelude.{◌≡◌, IfOk, IfSome, OnOk, option_map, string_bytes};
ghost use Rattle.answer_words.specs.Sentences.{Adds, Explains, IsSentenceOf, line_of};

use crate::refusals::{Subject, of_lsp, of_nothing, of_peer, subject_of};
use crate::wanted::{te_words, wanted};
use asks::{
    cut_at_space, number_in, priority_in, question_in, word_in, wrong_from_in, wrong_key_in,
    wrong_peer_in, wrong_rate_in, wrong_to_in,
};
use std::alloc::{AllocError, Global};
use std::fmt::Write;

/// Gives an answer of one line, without its line break.
fn line_of(answer: &str) -> Option<&str>
    ensures { option_map (λ line. line.now) result ≡ line_of answer.now }
{
    match answer.split_once('\n') {
        Some((line, "")) => Some(line),
        _ => None,
    }
}

/// Gives the second and the third word of a line, so far as it has them.
fn words_of(line: &str) -> (&str, &str) {
    let Some((_, rest)) = cut_at_space(line) else {
        return ("", "");
    };
    let Some((second, rest)) = cut_at_space(rest) else {
        return (rest, "");
    };
    match cut_at_space(rest) {
        Some((third, _)) => (second, third),
        None => (second, rest),
    }
}

/// Says why an event was refused that a line asked for.
fn add_refusal(text: &mut String, line: &str, number: u32) -> Result<(), AllocError>
    ensures { OnOk result (Adds (string_bytes text.old) (string_bytes text.new)) }
{
    let (peer, plsp) = words_of(line);
    match subject_of(number) {
        Subject::Peer => {
            let says = of_peer(number);
            write!(text, "{peer} {says}")
        }
        Subject::NoLsp => write!(text, "{peer} has no LSP {plsp}"),
        Subject::Lsp => {
            let says = of_lsp(number);
            write!(text, "LSP {plsp} of {peer} {says}")
        }
        Subject::Nothing => text.push_str(of_nothing(number)),
    }
}

/// Gives what follows so many words of a line.
fn behind(line: &str, words: usize) -> Option<&str> {
    let mut rest = line;
    for _ in 0..words {
        let (_, more) = cut_at_space(rest)?;
        rest = more;
    }
    Some(rest)
}

/// Finds the first of a path's two priorities in a line that is none.
fn wrong_priority_in(line: &str) -> Option<&str> {
    let before = match word_in(line) {
        "path" => 4,
        "initiate" | "place" => 6,
        _ => return None,
    };
    let before = if question_in(line).is_some() {
        before + 1
    } else {
        before
    };
    let (setup, rest) = cut_at_space(behind(line, before)?)?;
    let hold = match cut_at_space(rest) {
        Some((hold, _)) => hold,
        None => rest,
    };
    for word in [setup, hold] {
        if priority_in(word).is_none() {
            return Some(word);
        }
    }
    None
}

/// Says which word of a line can't be read, if one is found. Says whether it did.
fn add_wrong_word(text: &mut String, line: &str) -> Result<bool, AllocError>
    ensures { OnOk result (Adds (string_bytes text.old) (string_bytes text.new)) }
{
    if line.contains("  ") || line.ends_with(' ') {
        text.push_str("words are parted by one space, and none is at the end")?;
    } else if let Some(word) = wrong_peer_in(line) {
        write!(text, "{word} names no peer, or several")?;
    } else if let Some(word) = wrong_from_in(line) {
        write!(text, "no node has the name {word}")?;
    } else if let Some(word) = wrong_to_in(line) {
        write!(text, "no node has the name {word}")?;
    } else if let Some(rate) = wrong_rate_in(line) {
        write!(text, "{rate} is no bandwidth")?;
    } else if let Some(word) = wrong_priority_in(line) {
        write!(text, "{word} is no priority")?;
    } else {
        return Ok(false);
    }
    Ok(true)
}

/// Says what is wrong in a line, or what it has to have.
fn add_bad_line(text: &mut String, line: &str) -> Result<(), AllocError>
    ensures { OnOk result (Adds (string_bytes text.old) (string_bytes text.new)) }
{
    if add_wrong_word(text, line)? {
        return Ok(());
    }
    let word = word_in(line);
    if word == "initiate" && wrong_key_in(line).is_some() {
        return text.push_str("initiate takes no limits, and place does");
    }
    if let Some(key) = wrong_key_in(line) {
        return write!(text, "{key} limits no path, or comes twice");
    }
    if word.is_empty() {
        return text.push_str("the line has no first word");
    }
    match wanted(word) {
        Some(words) => write!(text, "{word} wants {words}"),
        None => write!(text, "no line begins with {word}"),
    }
}

/// Gives the number of a link text's fault.
fn fault_number(fault: &str) -> u32 {
    match cut_at_space(fault) {
        Some((_, number)) => number_in(number).unwrap_or(0),
        None => 0,
    }
}

/// Says what an answer with a number means.
fn add_numbered(text: &mut String, line: &str, answer: &str) -> Result<(), AllocError>
    ensures { OnOk result (Adds (string_bytes text.old) (string_bytes text.new)) }
{
    match cut_at_space(answer) {
        Some(("refused", number)) => add_refusal(text, line, number_in(number).unwrap_or(0)),
        Some(("bad", _)) => add_bad_line(text, line),
        Some((_, fault)) => text.push_str(te_words(fault_number(fault))),
        None => Ok(()),
    }
}

/// Says what an answer means.
fn add_meaning(text: &mut String, line: &str, answer: &str) -> Result<(), AllocError>
    ensures { OnOk result (Adds (string_bytes text.old) (string_bytes text.new)) }
{
    match answer {
        "device fault" => {
            text.push_str("the link text can't be read, is no regular file or has more than 16 MB")
        }
        "out of memory" => text.push_str("nothing was done"),
        "history full" => text.push_str("nothing was done, and no roll makes room"),
        _ => add_numbered(text, line, answer),
    }
}

/// Tests whether an answer is explained: it says that something failed or was refused.
fn is_explained(answer: &str) -> bool {
    if matches!(answer, "device fault" | "out of memory" | "history full") {
        return true;
    }
    match cut_at_space(answer) {
        Some((word, _)) => matches!(word, "refused" | "bad" | "te"),
        None => false,
    }
}

/// Writes the sentence of an answer.
fn written(alloc: Global, line: &str, answer: &str) -> Result<String, AllocError>
    ensures { IfOk result (λ text. Explains answer.now (string_bytes text)) }
{
    let mut text = String::from_str(alloc, answer)?;
    text.push_str(": ")?;
    add_meaning(&mut text, line, answer)?;
    Ok(text)
}

/// Says in a sentence `ANSWER: MEANING` what an answer to a line means; `None` if the answer says all of it.
pub fn sentence(alloc: Global, line: &str, answer: &str) -> Result<Option<String>, AllocError>
    ensures { IfOk result (λ said. IfSome said (λ text. IsSentenceOf (line_of answer.now) (string_bytes text))) }
{
    match line_of(answer) {
        Some(answer) => {
            if !is_explained(answer) {
                return Ok(None);
            }
            Ok(Some(written(alloc, line, answer)?))
        }
        None => Ok(None),
    }
}
