//! The state report of an item.

ghost use Rattle.std.specs.Prelude.{◌≡◌, [], None};
ghost use Rattle.std.specs.Option.{unwrap_or};
ghost use Rattle.pcep_messages.specs.Faults.{Gives};
ghost use Rattle.pcep_messages.specs.Reports.{report_with, srp_id, about_srp, lacks_identifiers, priorities_of, colours_of, is_protected, cut_off};
ghost use Rattle.pcep_messages.specs.ReportSteps.{report_from};

use crate::fault::{About, MessageFault};
use crate::items::Item;
use crate::message::StateReport;
use pcep_objects::{Colours, Hop, LspObject, Lspa, ObjectFault, Srp};
use pcep_word::{Priorities, Priority};
use sequence::Sequence;
use std::alloc::Global;

pub fn srp_id(srp: Option<Srp>) -> Option<u32>
    ensures { result ≡ srp_id srp }
{
    match srp {
        Some(srp) if srp.id != 0 => Some(srp.id),
        _ => None,
    }
}

pub fn about_srp(srp: Option<u32>) -> About
    ensures { result ≡ about_srp srp }
{
    match srp {
        None => About::Nothing,
        Some(id) => About::Srp(id),
    }
}

fn lacks_identifiers(lsp: &LspObject) -> bool
    ensures { result ≡ lacks_identifiers lsp.now }
{
    lsp.plsp.number() != 0 && lsp.identifiers.is_none()
}

/// Returns the setup priority and the holding priority in force.
pub fn priorities_of(lspa: Option<Lspa>) -> Priorities
    ensures { result ≡ priorities_of lspa }
{
    match lspa {
        None => Priorities::new(Priority::capped(7), Priority::capped(7)),
        Some(lspa) => Priorities::new(lspa.setup, lspa.hold),
    }
}

pub fn colours_of(lspa: Option<Lspa>) -> Colours
    ensures { result ≡ colours_of lspa }
{
    match lspa {
        None => Colours {
            exclude_any: 0,
            include_any: 0,
            include_all: 0,
        },
        Some(lspa) => lspa.colours,
    }
}

/// Tests whether local protection is wanted.
fn is_protected(lspa: Option<Lspa>) -> bool
    ensures { result ≡ is_protected lspa }
{
    match lspa {
        None => false,
        Some(lspa) => lspa.local_protection,
    }
}

pub fn hops_or_empty(alloc: Global, ero: Option<Sequence<Hop>>) -> Sequence<Hop>
    ensures { result ≡ unwrap_or ero [] }
{
    match ero {
        Some(hops) => hops,
        None => Sequence::from_vec(Vec::new(alloc)),
    }
}

/// Makes the report of an item that has an LSP.
#[inline(always)]
fn report_with(alloc: Global, item: Item, lsp: LspObject) -> StateReport
    ensures { result ≡ report_with item.srp lsp item.ero item.rro item.lspa item.bandwidth }
{
    let srp = srp_id(item.srp);
    let priorities = priorities_of(item.lspa);
    let colours = colours_of(item.lspa);
    let local_protection = is_protected(item.lspa);
    StateReport {
        srp,
        plsp: lsp.plsp,
        remove: lsp.remove,
        sync: lsp.sync,
        delegate: lsp.delegate,
        admin: lsp.admin,
        operational: lsp.operational,
        created: lsp.created,
        name: lsp.name,
        identifiers: lsp.identifiers,
        ero: hops_or_empty(alloc, item.ero),
        rro: item.rro,
        bandwidth: item.bandwidth,
        priorities,
        colours,
        local_protection,
        error_code: lsp.error_code,
        rsvp_error: lsp.rsvp_error,
    }
}

/// Makes the report of an item that has ended.
#[inline(always)]
pub fn report_from(alloc: Global, mut item: Item) -> Result<StateReport, MessageFault>
    ensures { Gives (λ x. x) result (report_from item None) }
{
    let srp = srp_id(item.srp);
    let Some(lsp) = item.lsp.take() else {
        return Err(MessageFault::Refused(6, 8, about_srp(srp)));
    };
    if lacks_identifiers(&lsp) {
        return Err(MessageFault::MissingIdentifiers(about_srp(srp)));
    }
    if item.ero.is_none() && !lsp.remove {
        return Err(MessageFault::Refused(6, 9, about_srp(srp)));
    }
    Ok(report_with(alloc, item, lsp))
}

/// Returns the first fault, if an object of this item has one of its own.
pub fn cut_off(item: &Item, fault: ObjectFault) -> MessageFault
    ensures { result ≡ cut_off item.now.srp item.now.lsp fault }
{
    let about = about_srp(srp_id(item.srp));
    match &item.lsp {
        Some(lsp) if lacks_identifiers(lsp) => MessageFault::MissingIdentifiers(about),
        _ => MessageFault::BadObject(fault, about),
    }
}
