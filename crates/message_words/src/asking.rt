//! What a PCE asks for: updates and initiations.

ghost use Rattle.message_words.specs.Fields.{Adds};
ghost use Rattle.message_words.specs.Messages.{update_flags, wishes, update_front, update_words, created_srp, create_front, create_words, remove_words, asked_words, initiate_words};

use crate::fields::{Bit, add_name};
use crate::lines::{
    add_attributes, add_ends_line, add_ero_line, add_plsp_line, add_srp_line, add_wished_bandwidth,
};
use pcep_messages::{Attributes, Create, Initiate, Update};
use pcep_objects::{Hop, Plsp};
use pcep_word::Bandwidth;
use std::alloc::{AllocError, Global};
use std::fmt::Write;

/// Adds the route that is asked for, and what is asked of the path, if the message says it.
fn add_wishes(
    alloc: Global,
    hops: &[Hop],
    attributes: Option<Attributes>,
    bandwidth: Option<Bandwidth>,
    text: &mut String,
) -> Result<(), AllocError>
    ensures { Adds result text.old text.new (wishes hops.now attributes bandwidth) }
{
    add_ero_line(alloc, hops, text)?;
    add_attributes(alloc, attributes, text)?;
    add_wished_bandwidth(bandwidth, text)
}

fn add_update_flags(update: &Update, text: &mut String) -> Result<(), AllocError>
    ensures { Adds result text.old text.new (update_flags update.now) }
{
    let (delegate, admin) = (Bit(update.delegate), Bit(update.admin));
    write!(text, " delegate {delegate} admin {admin}")
}

fn add_update_front(update: &Update, text: &mut String) -> Result<(), AllocError>
    ensures { Adds result text.old text.new (update_front update.now) }
{
    text.push_str("PCUpd")?;
    add_srp_line(update.srp, text)?;
    add_plsp_line(update.plsp, text)?;
    add_update_flags(update, text)
}

/// Adds a PCUpd.
pub fn add_update(alloc: Global, update: &Update, text: &mut String) -> Result<(), AllocError>
    ensures { Adds result text.old text.new (update_words update.now) }
{
    let (attributes, bandwidth) = (update.attributes, update.bandwidth);
    add_update_front(update, text)?;
    add_wishes(alloc, update.ero.as_slice(), attributes, bandwidth, text)
}

/// Adds the SRP of a new LSP, and the beginning of its LSP.
#[tactic(auto, unfolding(crate::specs::Messages::created_srp))]
fn add_created_srp(srp: u32, text: &mut String) -> Result<(), AllocError>
    ensures { Adds result text.old text.new (created_srp srp) }
{
    write!(text, "\n  SRP srp-id {srp} remove 0\n  LSP")
}

fn add_create_front(alloc: Global, create: &Create, text: &mut String) -> Result<(), AllocError>
    ensures { Adds result text.old text.new (create_front create.now) }
{
    add_created_srp(create.srp, text)?;
    add_name(alloc, create.name.as_slice(), text)?;
    add_ends_line(create.source, create.destination, text)
}

fn add_create(alloc: Global, create: &Create, text: &mut String) -> Result<(), AllocError>
    ensures { Adds result text.old text.new (create_words create.now) }
{
    let (attributes, bandwidth) = (create.attributes, create.bandwidth);
    add_create_front(alloc, create, text)?;
    add_wishes(alloc, create.ero.as_slice(), attributes, bandwidth, text)
}

fn add_removal(srp: u32, plsp: Plsp, text: &mut String) -> Result<(), AllocError>
    ensures { Adds result text.old text.new (remove_words srp plsp) }
{
    add_srp_line(srp, text)?;
    text.push_str(" remove 1")?;
    add_plsp_line(plsp, text)
}

fn add_asked(alloc: Global, initiate: &Initiate, text: &mut String) -> Result<(), AllocError>
    ensures { Adds result text.old text.new (asked_words initiate.now) }
{
    match initiate {
        Initiate::Create(create) => add_create(alloc, create, text),
        Initiate::Remove { srp, plsp } => add_removal(*srp, *plsp, text),
    }
}

/// Adds a PCInitiate.
pub fn add_initiate(alloc: Global, initiate: &Initiate, text: &mut String) -> Result<(), AllocError>
    ensures { Adds result text.old text.new (initiate_words initiate.now) }
{
    text.push_str("PCInitiate")?;
    add_asked(alloc, initiate, text)
}
