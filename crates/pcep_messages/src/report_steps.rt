//! The state reports of a PCRpt, read object by object.

ghost use Rattle.std.specs.Prelude.{◌≡◌, List, None, Some, Err, IfOk, IfErr};
ghost use Rattle.pcep_objects.specs.Bodies.{lsp_body};
ghost use Rattle.pcep_objects.specs.Objects.{body_of};
ghost use Rattle.pcep_objects.specs.Steps.{Fails};
ghost use Rattle.pcep_messages.specs.Faults.{Gives};
ghost use Rattle.pcep_messages.specs.Reports.{report_body};
ghost use Rattle.pcep_messages.specs.declared.message.StateReport.{StateReport};
ghost use Rattle.pcep_messages.specs.ObjectSteps.{taken_by};
ghost use Rattle.pcep_messages.specs.ReportSteps.{no_objects, ended, started, report_from, with_report, IsInside, IsEmptyInFront, after, after_lsp, finished_at, Steps, Ends, begun_by_srp, begun_by_lsp};
ghost use Rattle.pcep_messages.specs.declared.items.ItemPosition.TheVariants.{BehindSrp};

use crate::counting::{greater, keep_first};
use crate::fault::{About, MessageFault};
use crate::items::{Item, ItemPosition, no_objects};
use crate::message::StateReport;
use crate::objects::{Next, next_object};
use crate::reports::{cut_off, report_from};
use pcep_objects::{
    BodyFault, Kind, LspObject, Object, ObjectFault, RawObject, Srp, read_bandwidth, read_body,
    read_ero, read_lsp, read_lspa, read_srp,
};
use std::alloc::Global;
use std::mem;

/// Ends the item that was read.
#[inline(never)]
fn end_item(alloc: Global, item: Item, reports: &mut Vec<StateReport>) -> Result<(), MessageFault>
    ensures { Ends (with_report reports.old.items (report_from item None)) result reports.new.items }
{
    reports.push(report_from(alloc, item)?)?;
    Ok(())
}

fn begun_by_srp(srp: Srp) -> Item
    ensures { result ≡ begun_by_srp srp }
{
    let mut item = no_objects();
    item.srp = Some(srp);
    item
}

fn begun_by_lsp(lsp: LspObject) -> Item
    ensures { result ≡ begun_by_lsp lsp }
{
    let mut item = no_objects();
    item.lsp = Some(lsp);
    item
}

/// Ends the item that was read, and begins one with this SRP.
#[inline(never)]
fn begin_by_srp(
    alloc: Global,
    srp: Srp,
    item: &mut Item,
    reports: &mut Vec<StateReport>,
) -> Result<(), MessageFault>
    ensures ends { Ends (with_report reports.old.items (report_from item.old None)) result reports.new.items }
    ensures begins { item.new ≡ begun_by_srp srp }
{
    end_item(alloc, mem::replace(item, begun_by_srp(srp)), reports)
}

/// Ends the item that was read, and begins one with this LSP.
#[inline(never)]
fn begin_by_lsp(
    alloc: Global,
    lsp: LspObject,
    item: &mut Item,
    reports: &mut Vec<StateReport>,
) -> Result<(), MessageFault>
    ensures ends { Ends (with_report reports.old.items (report_from item.old None)) result reports.new.items }
    ensures begins { item.new ≡ begun_by_lsp lsp }
{
    end_item(alloc, mem::replace(item, begun_by_lsp(lsp)), reports)
}

/// Takes in an SRP, which starts an item.
#[inline(always)]
fn take_srp(
    alloc: Global,
    srp: Srp,
    place: ItemPosition,
    item: &mut Item,
    reports: &mut Vec<StateReport>,
) -> Result<ItemPosition, MessageFault>
    requires { IsEmptyInFront place item.old }
    ensures { Steps (started BehindSrp (begun_by_srp srp) (ended place reports.old.items item.old)) result reports.new.items item.new }
{
    match place {
        ItemPosition::InFront => item.srp = Some(srp),
        _ => begin_by_srp(alloc, srp, item, reports)?,
    }
    Ok(ItemPosition::BehindSrp)
}

/// Takes in an LSP, which starts an item unless it comes right after an SRP.
#[inline(always)]
fn take_lsp(
    alloc: Global,
    lsp: LspObject,
    place: ItemPosition,
    item: &mut Item,
    reports: &mut Vec<StateReport>,
) -> Result<ItemPosition, MessageFault>
    requires { IsEmptyInFront place item.old }
    ensures { Steps (after_lsp place lsp (record { reports = reports.old.items; item = item.old; place = place })) result reports.new.items item.new }
{
    match place {
        ItemPosition::BehindSrp => keep_first(&mut item.lsp, lsp),
        ItemPosition::InFront => item.lsp = Some(lsp),
        _ => begin_by_lsp(alloc, lsp, item, reports)?,
    }
    Ok(ItemPosition::Within)
}

/// Returns the place after an object that starts no item.
fn inside(place: ItemPosition) -> Result<ItemPosition, MessageFault>
    ensures { IsInside place result }
{
    match place {
        ItemPosition::InFront => Err(MessageFault::Refused(6, 8, About::Nothing)),
        _ => Ok(ItemPosition::Within),
    }
}

/// Takes in one more object. One that a report doesn't name is skipped.
#[inline(always)]
fn take_in(
    alloc: Global,
    object: Object,
    place: ItemPosition,
    item: &mut Item,
    reports: &mut Vec<StateReport>,
) -> Result<ItemPosition, MessageFault>
    requires { IsEmptyInFront place item.old }
    ensures { Steps (after object (record { reports = reports.old.items; item = item.old; place = place })) result reports.new.items item.new }
{
    match object {
        Object::Srp(srp) => take_srp(alloc, srp, place, item, reports),
        Object::Lsp(lsp) => take_lsp(alloc, lsp, place, item, reports),
        Object::Ero(hops) => {
            keep_first(&mut item.ero, hops);
            inside(place)
        }
        Object::Rro(hops) => {
            keep_first(&mut item.rro, hops);
            inside(place)
        }
        Object::Lspa(lspa) => {
            keep_first(&mut item.lspa, lspa);
            inside(place)
        }
        Object::Bandwidth(_, bandwidth) => {
            item.bandwidth = greater(item.bandwidth, bandwidth);
            inside(place)
        }
        _ => Ok(place),
    }
}

/// Reads the body of an LSP and takes it in.
#[inline(always)]
fn take_lsp_body(
    alloc: Global,
    body: &[u8],
    place: ItemPosition,
    item: &mut Item,
    reports: &mut Vec<StateReport>,
) -> Result<Result<ItemPosition, MessageFault>, BodyFault>
    requires { IsEmptyInFront place item.old }
    ensures taken { IfOk result (λ step. Steps (taken_by after (lsp_body body.now) (record { reports = reports.old.items; item = item.old; place = place })) step reports.new.items item.new) }
    ensures own_fault { IfErr result (λ fault. Fails fault (lsp_body body.now)) }
    ensures same_item { IfErr result (λ fault. item.new ≡ item.old) }
    ensures same_reports { IfErr result (λ fault. reports.new.items ≡ reports.old.items) }
{
    let lsp = read_lsp(alloc, body)?;
    Ok(take_lsp(alloc, lsp, place, item, reports))
}

/// Reads the body of an object of any class and takes the object in.
#[inline(always)]
fn take_any(
    alloc: Global,
    front: RawObject<'_>,
    place: ItemPosition,
    item: &mut Item,
    reports: &mut Vec<StateReport>,
) -> Result<Result<ItemPosition, MessageFault>, BodyFault>
    requires { IsEmptyInFront place item.old }
    ensures taken { IfOk result (λ step. Steps (taken_by after (body_of front.entry.kind front.entry.p front.entry.body.now) (record { reports = reports.old.items; item = item.old; place = place })) step reports.new.items item.new) }
    ensures own_fault { IfErr result (λ fault. Fails fault (body_of front.entry.kind front.entry.p front.entry.body.now)) }
    ensures same_item { IfErr result (λ fault. item.new ≡ item.old) }
    ensures same_reports { IfErr result (λ fault. reports.new.items ≡ reports.old.items) }
{
    let object = read_body(alloc, front.kind, front.p, front.body)?;
    Ok(take_in(alloc, object, place, item, reports))
}

/// Reads the body of an object and takes the object in. The outer fault is the object's own, and after it nothing has
/// changed.
#[inline(always)]
fn take_front(
    alloc: Global,
    front: RawObject<'_>,
    place: ItemPosition,
    item: &mut Item,
    reports: &mut Vec<StateReport>,
) -> Result<Result<ItemPosition, MessageFault>, BodyFault>
    requires { IsEmptyInFront place item.old }
    ensures taken { IfOk result (λ step. Steps (taken_by after (body_of front.entry.kind front.entry.p front.entry.body.now) (record { reports = reports.old.items; item = item.old; place = place })) step reports.new.items item.new) }
    ensures own_fault { IfErr result (λ fault. Fails fault (body_of front.entry.kind front.entry.p front.entry.body.now)) }
    ensures same_item { IfErr result (λ fault. item.new ≡ item.old) }
    ensures same_reports { IfErr result (λ fault. reports.new.items ≡ reports.old.items) }
{
    // The objects of most reports, each taken in here since its class is known.
    let body = front.body;
    Ok(match front.kind {
        Kind::Srp => take_srp(alloc, read_srp(body)?, place, item, reports),
        Kind::Lsp => take_lsp_body(alloc, body, place, item, reports)?,
        Kind::Ero => {
            keep_first(&mut item.ero, read_ero(alloc, body)?);
            inside(place)
        }
        Kind::Lspa => {
            keep_first(&mut item.lspa, read_lspa(body)?);
            inside(place)
        }
        Kind::RequestedBandwidth => {
            item.bandwidth = greater(item.bandwidth, read_bandwidth(body)?);
            inside(place)
        }
        _ => take_any(alloc, front, place, item, reports)?,
    })
}

/// Returns the first fault, if an object has one of its own.
fn fault_at(place: ItemPosition, item: &Item, fault: ObjectFault) -> MessageFault
    ensures { (reports : List StateReport) → finished_at place reports item.now (Some fault) ≡ Err result }
{
    match place {
        ItemPosition::InFront => MessageFault::BadObject(fault, About::Nothing),
        _ => cut_off(item, fault),
    }
}

/// Ends the last item and returns the reports.
#[inline(always)]
fn finish(
    alloc: Global,
    place: ItemPosition,
    item: Item,
    mut reports: Vec<StateReport>,
) -> Result<Vec<StateReport>, MessageFault>
    ensures { Gives (λ v. v.items) result (finished_at place reports.items item None) }
{
    match place {
        ItemPosition::InFront => Err(MessageFault::Refused(6, 8, About::Nothing)),
        _ => {
            reports.push(report_from(alloc, item)?)?;
            Ok(reports)
        }
    }
}

/// Reads the reports of the body of a PCRpt.
#[inline(never)]
pub fn reports_in(alloc: Global, body: &[u8]) -> Result<Vec<StateReport>, MessageFault>
    ensures { Gives (λ v. v.items) result (report_body body.now) }
{
    // Most messages have one.
    let mut reports = Vec::with_capacity(alloc, 1)?;
    let mut item = no_objects();
    let mut place = ItemPosition::InFront;
    let mut rest = body;
    loop {
        match next_object(rest, false) {
            Next::Object(front, after) => match take_front(
                alloc,
                front,
                place,
                &mut item,
                &mut reports,
            ) {
                Ok(step) => {
                    place = step?;
                    rest = after;
                }
                Err(BodyFault::OutOfMemory) => return Err(MessageFault::OutOfMemory),
                Err(own) => return Err(fault_at(place, &item, own.into())),
            },
            Next::Bad(fault) => return Err(fault_at(place, &item, fault)),
            Next::End => return finish(alloc, place, item, reports),
        }
    }
}
