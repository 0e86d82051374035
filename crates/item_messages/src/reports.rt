//! A PCRpt of one report.
ghost use Rattle.std.specs.Prelude.{◌≡◌, ◌++◌, true, false, None, IfOk, IfErr, OnOk};
ghost use Rattle.pcep_messages.specs.Spelling.{srp_object, object_spelled, object_fits, objects_spelled, objects_fit};
ghost use Rattle.pcep_objects.specs.declared.fault.WriteFault.TheVariants.{TooLong};
ghost use Rattle.pcep_objects.specs.declared.object.Object.TheVariants as objects;
ghost use Rattle.item_messages.specs.Objects.{if_any};
ghost use Rattle.item_messages.specs.Reports.{lsp_of, intended, start_objects, route_objects, report_objects, report_written, report_fits};

use crate::framing::{end_message, start_message};
use crate::wishes::{Wishes, put_wishes};
use lsp_words::Hop;
use pcep_messages::StateReport;
use pcep_objects::{
    LspObject, Object, Srp, WriteFault, put_ero, put_named_lsp, put_srp, write_object,
};
use sequence::Sequence;
use std::alloc::{AllocError, Global};

/// Appends an SRP with no flag, if the report answers a request.
#[tactic(auto, unfolding(pcep_messages::specs::Spelling::object_spelled, pcep_messages::specs::Spelling::object_fits))]
fn put_answered(srp: Option<u32>, out: &mut Vec<u8>) -> Result<(), AllocError>
    ensures written { OnOk result (out.new.items ≡ out.old.items ++ objects_spelled (if_any (srp_object false) srp)) }
    ensures fits { objects_fit (if_any (srp_object false) srp) ≡ true }
{
    match srp {
        None => Ok(()),
        Some(id) => put_srp(Srp { remove: false, id }, out),
    }
}

/// Makes the LSP of a report, without its name.
fn unnamed_lsp(report: &StateReport) -> LspObject
    ensures { result ≡ record (lsp_of report.now) { name = None } }
{
    LspObject {
        plsp: report.plsp,
        delegate: report.delegate,
        sync: report.sync,
        remove: report.remove,
        admin: report.admin,
        operational: report.operational,
        created: report.created,
        name: None,
        identifiers: report.identifiers,
        error_code: report.error_code,
        rsvp_error: report.rsvp_error,
    }
}

/// Appends the LSP of a report.
#[tactic(auto, unfolding(pcep_messages::specs::Spelling::object_spelled, pcep_messages::specs::Spelling::object_fits))]
fn put_reported(report: &StateReport, out: &mut Vec<u8>) -> Result<(), WriteFault>
    ensures written { OnOk result (out.new.items ≡ out.old.items ++ object_spelled (objects.Lsp (lsp_of report.now))) }
    ensures fits { IfOk result (λ _. object_fits (objects.Lsp (lsp_of report.now)) ≡ true) }
    ensures too_long { IfErr result (λ e. e ≡ TooLong → object_fits (objects.Lsp (lsp_of report.now)) ≡ false) }
{
    let lsp = unnamed_lsp(report);
    match &report.name {
        Some(name) => put_named_lsp(&lsp, name.as_slice(), out),
        None => write_object(&Object::Lsp(lsp), out),
    }
}

/// Appends SRP and LSP.
fn put_start(report: &StateReport, out: &mut Vec<u8>) -> Result<(), WriteFault>
    ensures written { OnOk result (out.new.items ≡ out.old.items ++ objects_spelled (start_objects report.now)) }
    ensures fits { IfOk result (λ _. objects_fit (start_objects report.now) ≡ true) }
    ensures too_long { IfErr result (λ e. e ≡ TooLong → objects_fit (start_objects report.now) ≡ false) }
{
    put_answered(report.srp, out)?;
    put_reported(report, out)
}

/// Appends the ERO, but not the empty one of an LSP that was removed.
#[tactic(auto, unfolding(pcep_messages::specs::Spelling::object_spelled, pcep_messages::specs::Spelling::object_fits))]
fn put_intended(remove: bool, hops: &[Hop], out: &mut Vec<u8>) -> Result<(), WriteFault>
    ensures written { OnOk result (out.new.items ≡ out.old.items ++ objects_spelled (if_any (λ hops. objects.Ero hops) (intended remove hops.now))) }
    ensures fits { IfOk result (λ _. objects_fit (if_any (λ hops. objects.Ero hops) (intended remove hops.now)) ≡ true) }
    ensures too_long { IfErr result (λ e. e ≡ TooLong → objects_fit (if_any (λ hops. objects.Ero hops) (intended remove hops.now)) ≡ false) }
{
    if remove && hops.len() == 0 {
        return Ok(());
    }
    put_ero(hops, out)
}

/// Appends an RRO, which is spelled as an ERO of another class.
#[tactic(auto, unfolding(pcep_messages::specs::Spelling::object_spelled, pcep_messages::specs::Spelling::object_fits), using(crate::proofs::Classes::reclassed))]
fn put_rro(hops: &[Hop], out: &mut Vec<u8>) -> Result<(), WriteFault>
    ensures written { OnOk result (out.new.items ≡ out.old.items ++ object_spelled (objects.Rro hops.now)) }
    ensures fits { IfOk result (λ _. object_fits (objects.Rro hops.now) ≡ true) }
    ensures too_long { IfErr result (λ e. e ≡ TooLong → object_fits (objects.Rro hops.now) ≡ false) }
{
    let start = out.len();
    put_ero(hops, out)?;
    out[start] = 8;
    Ok(())
}

/// Appends the RRO, if the report has one.
fn put_taken(rro: &Option<Sequence<Hop>>, out: &mut Vec<u8>) -> Result<(), WriteFault>
    ensures written { OnOk result (out.new.items ≡ out.old.items ++ objects_spelled (if_any (λ hops. objects.Rro hops) rro.now)) }
    ensures fits { IfOk result (λ _. objects_fit (if_any (λ hops. objects.Rro hops) rro.now) ≡ true) }
    ensures too_long { IfErr result (λ e. e ≡ TooLong → objects_fit (if_any (λ hops. objects.Rro hops) rro.now) ≡ false) }
{
    match rro {
        None => Ok(()),
        Some(hops) => put_rro(hops.as_slice(), out),
    }
}

/// Appends ERO and RRO.
#[tactic(auto, using(crate::proofs::Fitting::first_bad, crate::proofs::Fitting::second_bad))]
fn put_routes(report: &StateReport, out: &mut Vec<u8>) -> Result<(), WriteFault>
    ensures written { OnOk result (out.new.items ≡ out.old.items ++ objects_spelled (route_objects report.now)) }
    ensures fits { IfOk result (λ _. objects_fit (route_objects report.now) ≡ true) }
    ensures too_long { IfErr result (λ e. e ≡ TooLong → objects_fit (route_objects report.now) ≡ false) }
{
    put_intended(report.remove, report.ero.as_slice(), out)?;
    put_taken(&report.rro, out)
}

fn wishes_of(report: &StateReport) -> Wishes
    ensures { result ≡ record { priorities = report.now.priorities; colours = report.now.colours; local_protection = report.now.local_protection; bandwidth = report.now.bandwidth } }
{
    Wishes {
        priorities: report.priorities,
        colours: report.colours,
        local_protection: report.local_protection,
        bandwidth: report.bandwidth,
    }
}

/// Appends the objects of a report.
#[tactic(auto, using(crate::proofs::Fitting::first_bad, crate::proofs::Fitting::second_bad))]
fn put_objects(report: &StateReport, out: &mut Vec<u8>) -> Result<(), WriteFault>
    ensures written { OnOk result (out.new.items ≡ out.old.items ++ objects_spelled (report_objects report.now)) }
    ensures fits { IfOk result (λ _. objects_fit (report_objects report.now) ≡ true) }
    ensures too_long { IfErr result (λ e. e ≡ TooLong → objects_fit (report_objects report.now) ≡ false) }
{
    put_start(report, out)?;
    put_routes(report, out)?;
    put_wishes(wishes_of(report), out)?;
    Ok(())
}

/// Appends the message.
#[tactic(auto, unfolding(crate::specs::Reports::report_written, crate::specs::Reports::report_fits))]
fn put_message(report: &StateReport, out: &mut Vec<u8>) -> Result<(), WriteFault>
    ensures written { OnOk result (out.new.items ≡ out.old.items ++ report_written report.now) }
    ensures fits { IfOk result (λ _. report_fits report.now ≡ true) }
    ensures too_long { IfErr result (λ e. e ≡ TooLong → report_fits report.now ≡ false) }
{
    let start = out.len();
    start_message(10, out)?;
    put_objects(report, out)?;
    end_message(start, out)
}

/// Writes the PCRpt of this one report.
///
/// Fails with `TooLong` exactly if a length doesn't fit its field: a subobject of a route has 2^8 bytes or more, or an
/// object or the message 2^16 or more.
pub fn report_bytes(alloc: Global, report: &StateReport) -> Result<Vec<u8>, WriteFault>
    ensures written { IfOk result (λ bytes. bytes.items ≡ report_written report.now) }
    ensures fits { IfOk result (λ _. report_fits report.now ≡ true) }
    ensures too_long { IfErr result (λ e. e ≡ TooLong → report_fits report.now ≡ false) }
{
    let mut bytes = Vec::new(alloc);
    put_message(report, &mut bytes)?;
    Ok(bytes)
}
