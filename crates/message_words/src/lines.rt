//! The lines that messages share.

ghost use Rattle.message_words.specs.Fields.{Adds};
ghost use Rattle.message_words.specs.Messages.{rp_line, srp_line, ends_line, plsp_line, ero_line, bandwidth_line, priority_words, lspa_line, attribute_line, wished_bandwidth};

use crate::fields::{add_colours, add_hops, protection_words};
use pcep_messages::Attributes;
use pcep_objects::{Colours, Hop, Plsp};
use pcep_word::{Bandwidth, Ipv4, Priorities};
use std::alloc::{AllocError, Global};
use std::fmt::Write;

pub fn add_rp_line(id: u32, text: &mut String) -> Result<(), AllocError>
    ensures { Adds result text.old text.new (rp_line id) }
{
    write!(text, "\n  RP request-id {id}")
}

pub fn add_srp_line(id: u32, text: &mut String) -> Result<(), AllocError>
    ensures { Adds result text.old text.new (srp_line id) }
{
    write!(text, "\n  SRP srp-id {id}")
}

#[tactic(auto, unfolding(crate::specs::Messages::ends_line))]
pub fn add_ends_line(source: Ipv4, destination: Ipv4, text: &mut String) -> Result<(), AllocError>
    ensures { Adds result text.old text.new (ends_line source destination) }
{
    write!(text, "\n  END-POINTS {source} {destination}")
}

pub fn add_plsp_line(plsp: Plsp, text: &mut String) -> Result<(), AllocError>
    ensures { Adds result text.old text.new (plsp_line plsp) }
{
    let number = plsp.number();
    write!(text, "\n  LSP plsp-id {number}")
}

pub fn add_ero_line(alloc: Global, hops: &[Hop], text: &mut String) -> Result<(), AllocError>
    ensures { Adds result text.old text.new (ero_line hops.now) }
{
    text.push_str("\n  ERO")?;
    add_hops(alloc, hops, text)
}

pub fn add_bandwidth_line(bandwidth: Bandwidth, text: &mut String) -> Result<(), AllocError>
    ensures { Adds result text.old text.new (bandwidth_line bandwidth) }
{
    let value = bandwidth.value();
    write!(text, "\n  BANDWIDTH {value} bytes/s")
}

fn add_priorities(priorities: Priorities, text: &mut String) -> Result<(), AllocError>
    ensures { Adds result text.old text.new (priority_words priorities) }
{
    let (setup, hold) = (priorities.setup(), priorities.hold());
    let (setup, hold) = (setup.number(), hold.number());
    write!(text, "\n  LSPA setup {setup} hold {hold}")
}

/// Adds the priorities in force, local protection if it is wanted, and the colours.
pub fn add_lspa_line(
    alloc: Global,
    priorities: Priorities,
    is_protected: bool,
    colours: Colours,
    text: &mut String,
) -> Result<(), AllocError>
    ensures { Adds result text.old text.new (lspa_line priorities is_protected colours) }
{
    add_priorities(priorities, text)?;
    text.push_str(protection_words(is_protected))?;
    add_colours(alloc, colours, text)
}

/// Adds the attributes that are asked for, if a message has them.
pub fn add_attributes(
    alloc: Global,
    attributes: Option<Attributes>,
    text: &mut String,
) -> Result<(), AllocError>
    ensures { Adds result text.old text.new (attribute_line attributes) }
{
    match attributes {
        Some(found) => {
            add_lspa_line(
                alloc,
                found.priorities,
                found.local_protection,
                found.colours,
                text,
            )
        }
        None => Ok(()),
    }
}

/// Adds the bandwidth that is asked for, if a message has it.
pub fn add_wished_bandwidth(
    bandwidth: Option<Bandwidth>,
    text: &mut String,
) -> Result<(), AllocError>
    ensures { Adds result text.old text.new (wished_bandwidth bandwidth) }
{
    match bandwidth {
        Some(bandwidth) => add_bandwidth_line(bandwidth, text),
        None => Ok(()),
    }
}
