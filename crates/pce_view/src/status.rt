//! `status`: how much there is of what.
ghost use Rattle.std.specs.Prelude.{◌≡◌, ◌++◌, OnOk};
ghost use Rattle.json.specs.Tree.{json_tokens};
ghost use Rattle.pce_view.specs.Status.{status_json};

use crate::closing::closed;
use crate::fields::{Field, Member, put_object};
use crate::heard::Heard;
use crate::question::{Question, ServerInfo};
use asks::Ask;
use database_looks::{Look, see_counts};
use history_core::Database;
use json::Writer;
use pce_seen::Counts;
use std::alloc::{AllocError, Global};
use std::fmt::Write;
use table_text::add_duration;

#[tactic(auto, unfolding(crate::specs::Status::status_json))]
fn put_status<'x>(
    alloc: Global,
    writer: &mut Writer,
    version: &'x str,
    uptime_ms: u64,
    counts: &'x Counts,
) -> Result<(), AllocError>
    ensures before { writer.new.before ≡ writer.old.before }
    ensures written { OnOk result (writer.new.tokens ≡ writer.old.tokens ++ json_tokens (status_json version.now uptime_ms counts.now)) }
{
    put_object(
        alloc,
        writer,
        &[
            Member("version", Field::Text(version)),
            Member("uptime_ms", Field::Whole(uptime_ms)),
            Member("steps", Field::Whole(counts.steps)),
            Member("grants", Field::Whole(counts.grants)),
            Member("rolled_steps", Field::Whole(counts.rolled)),
            Member("kept_steps", Field::Whole(counts.kept)),
            Member("nodes", Field::Whole(counts.nodes)),
            Member("links", Field::Whole(counts.links)),
            Member("sessions_up", Field::Whole(counts.sessions_up)),
            Member("lsps", Field::Whole(counts.lsps)),
            Member("paths", Field::Whole(counts.paths)),
            Member("tickets", Field::Whole(counts.tickets)),
            Member("waiting_grants", Field::Whole(counts.waiting_grants)),
        ],
    )
}

/// How much there is of what.
#[derive(Clone, Copy)]
pub struct Status;

impl Look for Status {
    ghost use Rattle.std.specs.Prelude.{◌≡◌};
    ghost use Rattle.database_looks.specs.Looks.{counts_in};

    type Seen = Counts;

    ghost sees = { λ _ d seen. seen ≡ counts_in d };

    fn see(&self, _alloc: Global, database: &Database) -> Result<Counts, AllocError> {
        Ok(see_counts(database))
    }
}

impl Question for Status {
    ghost use Rattle.pce_view.specs.Status.{ReadsStatus};

    ghost reads = { λ _ info _ seen text. ReadsStatus info seen text };

    fn json(
        &self,
        alloc: Global,
        info: &ServerInfo<'_>,
        _heard: &Heard,
        seen: &Counts,
    ) -> Result<Vec<u8>, AllocError> {
        let mut writer = Writer::new(Vec::new(alloc));
        put_status(alloc, &mut writer, info.version, info.uptime_ms, seen)?;
        Ok(closed(writer))
    }

    fn rows(
        &self,
        _alloc: Global,
        text: &mut String,
        info: &ServerInfo<'_>,
        _heard: &Heard,
        seen: &Counts,
    ) -> Result<(), AllocError> {
        let version = info.version;
        write!(text, "version\t{version}\nup\t")?;
        add_duration(text, info.uptime_ms)?;
        let Counts {
            steps,
            grants,
            rolled,
            kept,
            nodes,
            links,
            sessions_up,
            lsps,
            paths,
            waiting_grants,
            tickets,
        } = *seen;
        write!(
            text,
            "\nnodes\t{nodes}\nlinks\t{links}\nsessions up\t{sessions_up}\n"
        )?;
        write!(
            text,
            "LSPs\t{lsps}\npaths\t{paths}\ntickets\t{tickets}\nwaiting grants\t{waiting_grants}\n"
        )?;
        write!(
            text,
            "steps\t{steps}\ngrants\t{grants}\nrolled steps\t{rolled}\nkept steps\t{kept}\n"
        )
    }

    fn next(&self, _seen: &Counts) -> Option<Ask> {
        None
    }
}
