//! `tickets`: the paths that are asked for and not found yet.
ghost use Rattle.std.specs.Prelude.{◌≡◌, ◌++◌, OnOk};
ghost use Rattle.json.specs.Tree.{json_tokens};
ghost use Rattle.json.specs.Json.{array};
ghost use Rattle.pce_view.specs.Tickets.{ticket_items, ticket_json, tickets_json};

use crate::closing::closed;
use crate::columns::{add_end, add_number, add_priorities};
use crate::fields::{Field, Member, put_object};
use crate::heard::Heard;
use crate::question::{Question, ServerInfo};
use crate::words::{purpose_plsp, purpose_word};
use asks::Ask;
use commit_core::{Purpose, Ticket};
use database_looks::Look;
use history_core::Database;
use json::Writer;
use pcep_word::Ipv4;
use std::alloc::{AllocError, Global};
use std::fmt::Write;
use table_text::{add_name, add_rate};

#[tactic(auto, unfolding(crate::specs::Tickets::ticket_json))]
fn put_ticket(alloc: Global, writer: &mut Writer, ticket: &Ticket) -> Result<(), AllocError>
    ensures before { writer.new.before ≡ writer.old.before }
    ensures written { OnOk result (writer.new.tokens ≡ writer.old.tokens ++ json_tokens (ticket_json ticket.now)) }
{
    put_object(
        alloc,
        writer,
        &[
            Member("ticket", Field::Whole(ticket.id)),
            Member("peer", Field::Peer(ticket.peer)),
            Member("session", Field::Whole(ticket.session)),
            Member("purpose", Field::PurposeWord(&ticket.purpose)),
            Member("plsp_id", Field::PurposePlsp(&ticket.purpose)),
            Member("name", Field::PurposeName(&ticket.purpose)),
            Member("request_id", Field::PurposeRequest(&ticket.purpose)),
            Member("source", Field::AddressOr(ticket.constraints.source)),
            Member(
                "destination",
                Field::AddressOr(ticket.constraints.destination),
            ),
            Member(
                "bandwidth_bytes_per_second",
                Field::Rate(ticket.constraints.bandwidth),
            ),
            Member(
                "setup_priority",
                Field::Setup(ticket.constraints.priorities),
            ),
            Member("hold_priority", Field::Hold(ticket.constraints.priorities)),
            Member("tries", Field::Whole(ticket.tries as u64)),
            Member("is_taken", Field::Flag(ticket.taken)),
        ],
    )
}

fn put_tickets(alloc: Global, writer: &mut Writer, tickets: &[Ticket]) -> Result<(), AllocError>
    ensures before { writer.new.before ≡ writer.old.before }
    ensures written { OnOk result (writer.new.tokens ≡ writer.old.tokens ++ json_tokens (array (ticket_items tickets.now))) }
{
    writer.begin_array()?;
    for ticket in tickets {
        put_ticket(alloc, writer, ticket)?;
    }
    writer.end_array()
}

fn put_all(alloc: Global, writer: &mut Writer, tickets: &[Ticket]) -> Result<(), AllocError>
    ensures before { writer.new.before ≡ writer.old.before }
    ensures written { OnOk result (writer.new.tokens ≡ writer.old.tokens ++ json_tokens (tickets_json tickets.now)) }
{
    writer.begin_object()?;
    writer.key("tickets")?;
    put_tickets(alloc, writer, tickets)?;
    writer.end_object()
}

fn add_ticket_name(text: &mut String, purpose: &Purpose) -> Result<(), AllocError> {
    match purpose {
        Purpose::Initiate { name, .. } => add_name(text, name.as_slice()),
        Purpose::Update { .. } | Purpose::Answer { .. } => {
            add_number(text, purpose_plsp(purpose))
        }
    }
}

fn add_ticket(text: &mut String, ticket: &Ticket) -> Result<(), AllocError> {
    let id = ticket.id;
    let peer = Ipv4(ticket.peer);
    let word = purpose_word(&ticket.purpose);
    let tries = ticket.tries;
    let state = if ticket.taken { "searching" } else { "waiting" };
    write!(text, "{id}\t{peer}\t{word}\t")?;
    add_ticket_name(text, &ticket.purpose)?;
    text.push('\t')?;
    add_end(text, ticket.constraints.source)?;
    add_end(text, ticket.constraints.destination)?;
    add_rate(text, ticket.constraints.bandwidth.value() as i64)?;
    text.push('\t')?;
    add_priorities(text, ticket.constraints.priorities)?;
    writeln!(text, "{tries}\t{state}")
}

/// The tickets, in the order in which they were asked for.
#[derive(Clone, Copy)]
pub struct Tickets;

impl Look for Tickets {
    ghost use Rattle.std.specs.Prelude.{◌≡◌};

    type Seen = Vec<Ticket>;

    ghost sees = { λ _ d seen. seen.items ≡ d.state.tickets };

    fn see(&self, alloc: Global, database: &Database) -> Result<Vec<Ticket>, AllocError> {
        database.state().copy_tickets(alloc)
    }
}

impl Question for Tickets {
    ghost use Rattle.pce_view.specs.Tickets.{ReadsTickets};

    ghost reads = { λ _ _ _ seen text. ReadsTickets seen.items text };

    fn json(
        &self,
        alloc: Global,
        _around: &ServerInfo<'_>,
        _heard: &Heard,
        seen: &Vec<Ticket>,
    ) -> Result<Vec<u8>, AllocError> {
        let mut writer = Writer::new(Vec::new(alloc));
        put_all(alloc, &mut writer, seen)?;
        Ok(closed(writer))
    }

    fn rows(
        &self,
        _alloc: Global,
        text: &mut String,
        _around: &ServerInfo<'_>,
        _heard: &Heard,
        seen: &Vec<Ticket>,
    ) -> Result<(), AllocError> {
        text.push_str("TICKET\tPEER\tFOR\tLSP\tFROM\tTO\tBANDWIDTH\tSETUP/HOLD\tTRIES\tSTATE\n")?;
        for ticket in seen {
            add_ticket(text, ticket)?;
        }
        Ok(())
    }

    fn next(&self, _seen: &Vec<Ticket>) -> Option<Ask> {
        None
    }
}
