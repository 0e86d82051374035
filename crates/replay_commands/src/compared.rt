//! Which links and LSPs differ between two steps.
use crate::run::Known;
use crate::shown::shown;
use asks::{Ask, LspId};
use pce_view::Form;
use std::alloc::{AllocError, Global};

/// A link, or an LSP of a router.
#[derive(Clone, Copy, Debug, PartialEq, Eq)]
pub(crate) enum Subject {
    Link(u64),
    Lsp(LspId),
}

impl Subject {
    /// Gives the ask by which it is seen.
    fn ask(&self) -> Ask {
        match self {
            Subject::Link(link) => Ask::LinkLine(*link),
            Subject::Lsp(lsp) => Ask::Lsp(*lsp),
        }
    }
}

/// A link or an LSP, and what is shown of it.
#[derive(Drop)]
pub(crate) struct Picture {
    pub subject: Subject,
    pub text: Vec<u8>,
}

fn add_picture(
    alloc: Global,
    known: &Known<'_>,
    form: Form,
    subject: Subject,
    pictures: &mut Vec<Picture>,
) -> Result<(), AllocError> {
    let text = shown(alloc, known, form, subject.ask())?;
    pictures.push(Picture { subject, text })?;
    Ok(())
}

/// Lists what is shown of each link and each LSP.
pub(crate) fn pictures_of(
    alloc: Global,
    known: &Known<'_>,
    form: Form,
) -> Result<Vec<Picture>, AllocError> {
    let mut pictures = Vec::new(alloc);
    for link in 0..known.database.te_base().link_count() {
        let subject = Subject::Link(link as u64);
        add_picture(alloc, known, form, subject, &mut pictures)?;
    }
    for record in known.database.state().lsps().records() {
        let subject = Subject::Lsp(LspId {
            peer: record.peer,
            plsp: record.plsp,
        });
        add_picture(alloc, known, form, subject, &mut pictures)?;
    }
    Ok(pictures)
}

/// Finds what is shown of a subject; nothing if it isn't there.
fn text_of<'a>(pictures: &'a [Picture], subject: Subject) -> &'a [u8] {
    for picture in pictures {
        if picture.subject == subject {
            return &picture.text;
        }
    }
    &[]
}

/// Copies a line with one space for each run of spaces, so that the width of a column makes no difference.
fn squeezed(alloc: Global, line: &[u8]) -> Result<Vec<u8>, AllocError> {
    let mut words = Vec::new(alloc);
    for byte in line {
        if *byte != b' ' || words.last() != Some(&b' ') {
            words.push(*byte)?;
        }
    }
    Ok(words)
}

/// Tests whether a text has the line, whatever the widths of its columns are.
fn has_line(alloc: Global, text: &[u8], wanted: &[u8]) -> Result<bool, AllocError> {
    let wanted = squeezed(alloc, wanted)?;
    for line in text.split(|byte| *byte == b'\n') {
        if squeezed(alloc, line)?.as_slice() == wanted.as_slice() {
            return Ok(true);
        }
    }
    Ok(false)
}

/// Adds the lines of a text that the other one lacks, each after a sign.
fn add_signed(
    alloc: Global,
    sign: &[u8],
    text: &[u8],
    other: &[u8],
    out: &mut Vec<u8>,
) -> Result<(), AllocError> {
    for line in text.split(|byte| *byte == b'\n') {
        if !line.is_empty() && !has_line(alloc, other, line)? {
            out.extend_from_slice(sign)?;
            out.extend_from_slice(line)?;
            out.push(b'\n')?;
        }
    }
    Ok(())
}

/// Adds the lines that are shown of a subject only before, and those that are shown only after.
fn add_difference(
    alloc: Global,
    before: &[u8],
    after: &[u8],
    out: &mut Vec<u8>,
) -> Result<(), AllocError> {
    add_signed(alloc, b"- ", before, after, out)?;
    add_signed(alloc, b"+ ", after, before, out)
}

/// Lists the lines of links and LSPs that differ: those of before with `-` in front, and those of after with `+`.
pub(crate) fn differences(
    alloc: Global,
    before: &[Picture],
    after: &[Picture],
) -> Result<Vec<u8>, AllocError> {
    let mut out = Vec::new(alloc);
    for picture in before {
        let now = text_of(after, picture.subject);
        add_difference(alloc, &picture.text, now, &mut out)?;
    }
    for picture in after {
        if text_of(before, picture.subject).is_empty() {
            add_difference(alloc, &[], &picture.text, &mut out)?;
        }
    }
    Ok(out)
}
