//! State reports.

ghost use Rattle.std.specs.Prelude.{◌≡◌};
ghost use Rattle.message_words.specs.Fields.{Adds};
ghost use Rattle.message_words.specs.Messages.{fields_of, reported_srp, lsp_line, reported_lsp, rro_line, report_words, reports_words, reports_text};

use crate::fields::{LspFields, add_errors, add_hops, add_identifiers, add_lsp_fields};
use crate::lines::{add_bandwidth_line, add_ero_line, add_lspa_line, add_srp_line};
use crate::objects::add_named;
use pcep_messages::StateReport;
use pcep_objects::Hop;
use sequence::Sequence;
use std::alloc::{AllocError, Global};

fn fields_of(report: &StateReport) -> LspFields
    ensures { result ≡ fields_of report.now }
{
    LspFields {
        plsp: report.plsp,
        delegate: report.delegate,
        sync: report.sync,
        remove: report.remove,
        admin: report.admin,
        operational: report.operational,
        created: report.created,
    }
}

fn add_reported_srp(srp: Option<u32>, text: &mut String) -> Result<(), AllocError>
    ensures { Adds result text.old text.new (reported_srp srp) }
{
    match srp {
        Some(id) => add_srp_line(id, text),
        None => Ok(()),
    }
}

fn add_lsp_line(report: &StateReport, text: &mut String) -> Result<(), AllocError>
    ensures { Adds result text.old text.new (lsp_line report.now) }
{
    text.push_str("\n  ")?;
    add_lsp_fields(fields_of(report), text)
}

/// Adds the LSP of a report.
fn add_reported_lsp(
    alloc: Global,
    report: &StateReport,
    text: &mut String,
) -> Result<(), AllocError>
    ensures { Adds result text.old text.new (reported_lsp report.now) }
{
    add_reported_srp(report.srp, text)?;
    add_lsp_line(report, text)?;
    add_named(alloc, &report.name, text)?;
    add_identifiers(report.identifiers, text)?;
    add_errors(report.error_code, report.rsvp_error, text)
}

fn add_rro_line(
    alloc: Global,
    rro: &Option<Sequence<Hop>>,
    text: &mut String,
) -> Result<(), AllocError>
    ensures { Adds result text.old text.new (rro_line rro.now) }
{
    match rro {
        Some(hops) => {
            text.push_str("\n  RRO")?;
            add_hops(alloc, hops.as_slice(), text)
        }
        None => Ok(()),
    }
}

/// Adds a report. If it has no LSPA or BANDWIDTH, adds those that it counts as.
#[tactic(auto, unfolding(crate::specs::Messages::report_words))]
fn add_report(alloc: Global, report: &StateReport, text: &mut String) -> Result<(), AllocError>
    ensures { Adds result text.old text.new (report_words report.now) }
{
    add_reported_lsp(alloc, report, text)?;
    add_ero_line(alloc, report.ero.as_slice(), text)?;
    add_rro_line(alloc, &report.rro, text)?;
    let (priorities, is_protected) = (report.priorities, report.local_protection);
    add_lspa_line(alloc, priorities, is_protected, report.colours, text)?;
    add_bandwidth_line(report.bandwidth, text)
}

fn add_each_report(
    alloc: Global,
    reports: &[StateReport],
    text: &mut String,
) -> Result<(), AllocError>
    ensures { Adds result text.old text.new (reports_words reports.now) }
{
    for report in reports {
        add_report(alloc, report, text)?;
    }
    Ok(())
}

/// Adds the reports of a PCRpt.
pub fn add_reports(
    alloc: Global,
    reports: &[StateReport],
    text: &mut String,
) -> Result<(), AllocError>
    ensures { Adds result text.old text.new (reports_text reports.now) }
{
    text.push_str("PCRpt")?;
    add_each_report(alloc, reports, text)
}
