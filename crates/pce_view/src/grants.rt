//! `grants`: grants that stand and deletions that are awaited, in pages.
ghost use Rattle.std.specs.Prelude.{◌≡◌, ◌++◌, ◌∷◌, [], map, filter, option_copied, option_map, IfOk, OnOk, Some};
ghost use Rattle.pce_seen.specs.Grants.{is_grant_asked, known_grant};
ghost use Rattle.pce_view.specs.Grants.{name_for, SeesGrants};
ghost use Rattle.json.specs.Tree.{json_tokens, members_tokens};
ghost use Rattle.json.specs.Json.{array};
ghost use Rattle.pce_view.specs.Grants.{deletion_items, deletion_json, grant_items, grant_json, grants_json, grants_members};

use crate::closing::closed;
use crate::columns::add_ago;
use crate::fields::{Field, Member, put_object, put_whole_or, srp_id};
use crate::heard::{Heard, Said};
use crate::question::{Question, ServerInfo};
use crate::unanswered::unanswered_ms;
use asks::{Ask, PeerPage};
use commit_core::LspName;
use database_looks::Look;
use history_core::Database;
use json::Writer;
use lsp_base::{Part, Path};
use pce_seen::{Deletion, GrantPage, KnownGrant, deletions_of, grant_span, is_grant_asked};
use pcep_objects::Plsp;
use pcep_word::Ipv4;
use sequence::PlainData;
use std::alloc::{AllocError, Global};
use std::fmt::Write;
use step_core::{AwaitedName, State};
use table_text::{add_name, add_numbers, add_rate};

/// Copies the name of an LSP, if it is awaited.
fn copied(awaited: Option<&AwaitedName>) -> Result<Option<LspName>, AllocError>
    ensures { IfOk result (λ name. name ≡ option_map (λ a. a.name) (option_copied awaited.entry)) }
{
    match awaited {
        Some(awaited) => Ok(Some(awaited.name.copy()?)),
        None => Ok(None),
    }
}

/// Copies the name that the LSP of a granted initiation is to have, until a report binds the grant.
fn name_for(state: &State, path: &Path) -> Result<Option<LspName>, AllocError>
    ensures { IfOk result (λ name. name ≡ name_for state.now path.now) }
{
    match path.part {
        Part::Granted(srp) => copied(state.name_of_grant(path.peer, srp)),
        Part::Reported(_) => Ok(None),
    }
}

/// Copies a grant with its name.
fn known_grant(state: &State, path: &Path) -> Result<KnownGrant, AllocError>
    ensures { IfOk result (λ grant. grant ≡ known_grant (name_for state.now) path.now) }
{
    let name = name_for(state, path)?;
    match path.copy() {
        Ok(path) => Ok(KnownGrant { path, name }),
        Err(error) => {
            drop(name);
            Err(error)
        }
    }
}

/// Adds a path, if it is a grant of the peer.
fn add_grant(
    grants: &mut Vec<KnownGrant>,
    state: &State,
    peer: Option<u32>,
    path: &Path,
) -> Result<(), AllocError>
    ensures { OnOk result (grants.new.items ≡ grants.old.items ++ map (known_grant (name_for state.now)) (filter (is_grant_asked peer) (path.now ∷ []))) }
{
    if is_grant_asked(peer, path) {
        grants.push(known_grant(state, path)?)?;
    }
    Ok(())
}

/// Copies the grants of a peer, or of all.
fn grants_of(
    alloc: Global,
    state: &State,
    peer: Option<u32>,
    paths: &[Path],
) -> Result<Vec<KnownGrant>, AllocError>
    ensures { IfOk result (λ grants. grants.items ≡ map (known_grant (name_for state.now)) (filter (is_grant_asked peer) paths.now)) }
{
    let mut grants = Vec::new(alloc);
    for path in paths {
        add_grant(&mut grants, state, peer, path)?;
    }
    Ok(grants)
}

#[tactic(auto, unfolding(crate::specs::Grants::grant_json))]
fn put_grant(
    alloc: Global,
    writer: &mut Writer,
    unanswered: Option<u64>,
    grant: &KnownGrant,
) -> Result<(), AllocError>
    ensures before { writer.new.before ≡ writer.old.before }
    ensures written { OnOk result (writer.new.tokens ≡ writer.old.tokens ++ json_tokens (grant_json unanswered grant.now)) }
{
    put_object(
        alloc,
        writer,
        &[
            Member("peer", Field::Peer(grant.path.peer)),
            Member("srp_id", Field::SrpId(grant.path.part)),
            Member("plsp_id", Field::Plsp(grant.path.plsp)),
            Member("name", Field::NameOr(&grant.name)),
            Member("hold_priority", Field::Level(grant.path.hold)),
            Member(
                "bandwidth_bytes_per_second",
                Field::Rate(grant.path.bandwidth),
            ),
            Member("links", Field::Links(&grant.path.links)),
            Member("unanswered_ms", Field::WholeOr(unanswered)),
        ],
    )
}

#[tactic(auto, unfolding(crate::specs::Grants::deletion_json))]
fn put_deletion(
    alloc: Global,
    writer: &mut Writer,
    unanswered: Option<u64>,
    deletion: &Deletion,
) -> Result<(), AllocError>
    ensures before { writer.new.before ≡ writer.old.before }
    ensures written { OnOk result (writer.new.tokens ≡ writer.old.tokens ++ json_tokens (deletion_json unanswered deletion.now)) }
{
    put_object(
        alloc,
        writer,
        &[
            Member("peer", Field::Peer(deletion.peer)),
            Member("srp_id", Field::Whole(deletion.srp as u64)),
            Member("plsp_id", Field::Plsp(deletion.plsp)),
            Member("unanswered_ms", Field::WholeOr(unanswered)),
        ],
    )
}

fn put_grants(
    alloc: Global,
    writer: &mut Writer,
    now_ms: u64,
    since_ms: &[Option<u64>],
    grants: &[KnownGrant],
) -> Result<(), AllocError>
    ensures before { writer.new.before ≡ writer.old.before }
    ensures written { OnOk result (writer.new.tokens ≡ writer.old.tokens ++ json_tokens (array (grant_items now_ms since_ms.now 0 grants.now))) }
{
    writer.begin_array()?;
    for (place, grant) in grants.iter().enumerate() {
        put_grant(alloc, writer, unanswered_ms(now_ms, since_ms, place), grant)?;
    }
    writer.end_array()
}

fn put_deletions(
    alloc: Global,
    writer: &mut Writer,
    now_ms: u64,
    since_ms: &[Option<u64>],
    deletions: &[Deletion],
) -> Result<(), AllocError>
    ensures before { writer.new.before ≡ writer.old.before }
    ensures written { OnOk result (writer.new.tokens ≡ writer.old.tokens ++ json_tokens (array (deletion_items now_ms since_ms.now 0 deletions.now))) }
{
    writer.begin_array()?;
    for (place, deletion) in deletions.iter().enumerate() {
        put_deletion(
            alloc,
            writer,
            unanswered_ms(now_ms, since_ms, place),
            deletion,
        )?;
    }
    writer.end_array()
}

/// Writes the last two members of a page, and ends it.
fn put_lists(
    alloc: Global,
    writer: &mut Writer,
    now_ms: u64,
    heard: &Heard,
    page: &GrantPage,
) -> Result<(), AllocError>
    ensures before { writer.new.before ≡ writer.old.before }
    ensures written { OnOk result (writer.new.tokens ≡ writer.old.tokens ++ members_tokens (grants_members now_ms heard.now page.now)) }
{
    writer.key("grants")?;
    put_grants(alloc, writer, now_ms, &heard.grants_since_ms, &page.grants)?;
    writer.key("deletions")?;
    put_deletions(
        alloc,
        writer,
        now_ms,
        &heard.deletions_since_ms,
        &page.deletions,
    )?;
    writer.end_object()?;
    Ok(())
}

fn put_page(
    alloc: Global,
    writer: &mut Writer,
    from: u64,
    now_ms: u64,
    heard: &Heard,
    page: &GrantPage,
) -> Result<(), AllocError>
    ensures before { writer.new.before ≡ writer.old.before }
    ensures written { OnOk result (writer.new.tokens ≡ writer.old.tokens ++ json_tokens (grants_json from now_ms heard.now page.now)) }
{
    writer.begin_object()?;
    writer.key("from")?;
    writer.u64(from)?;
    writer.key("next")?;
    put_whole_or(writer, page.next)?;
    writer.key("steps")?;
    writer.u64(page.steps)?;
    put_lists(alloc, writer, now_ms, heard, page)
}

const GRANT_HEAD: &str = "PEER\tSRP\tFOR\tLSP\tUNANSWERED\tHOLD\tBANDWIDTH\tLINKS\n";

/// Adds the name that an LSP is to have, or its PLSP-ID.
fn add_lsp(text: &mut String, grant: &KnownGrant) -> Result<(), AllocError> {
    match &grant.name {
        Some(name) => add_name(text, name.as_slice()),
        None => add_plsp(text, grant.path.plsp),
    }
}

fn add_plsp(text: &mut String, plsp: Plsp) -> Result<(), AllocError> {
    let plsp = plsp.number();
    write!(text, "{plsp}")
}

fn add_grant_line(
    text: &mut String,
    unanswered: Option<u64>,
    grant: &KnownGrant,
) -> Result<(), AllocError> {
    let peer = Ipv4(grant.path.peer);
    let srp = srp_id(grant.path.part).unwrap_or(0);
    let hold = grant.path.hold.number();
    write!(text, "{peer}\t{srp}\tpath\t")?;
    add_lsp(text, grant)?;
    text.push('\t')?;
    add_ago(text, unanswered)?;
    write!(text, "\t{hold}\t")?;
    add_rate(text, grant.path.bandwidth.value() as i64)?;
    text.push('\t')?;
    add_numbers(text, grant.path.links.as_slice())?;
    text.push('\n')
}

fn add_deletion_line(
    text: &mut String,
    unanswered: Option<u64>,
    deletion: &Deletion,
) -> Result<(), AllocError> {
    let peer = Ipv4(deletion.peer);
    let srp = deletion.srp;
    write!(text, "{peer}\t{srp}\tdeletion\t")?;
    add_plsp(text, deletion.plsp)?;
    text.push('\t')?;
    add_ago(text, unanswered)?;
    text.push_str("\t-\t-\t-\n")
}

/// A page of grants that stand and deletions that are awaited.
#[derive(Clone, Copy)]
pub struct Grants(pub PeerPage);

impl Look for Grants {
    ghost use Rattle.pce_view.specs.Grants.{SeesGrants};

    type Seen = GrantPage;

    ghost sees = { λ q d seen. SeesGrants q.0.peer q.0.from d seen };

    fn see(&self, alloc: Global, database: &Database) -> Result<GrantPage, AllocError> {
        let span = grant_span(database.state().lsps(), self.0.peer, self.0.from);
        let deletions = deletions_of(alloc, self.0.peer, span.records)?;
        match grants_of(alloc, database.state(), self.0.peer, span.paths) {
            Ok(grants) => Ok(GrantPage {
                steps: database.steps(),
                grants,
                deletions,
                next: span.next,
            }),
            Err(error) => {
                drop(deletions);
                Err(error)
            }
        }
    }
}

impl Question for Grants {
    ghost use Rattle.pce_view.specs.Grants.{next_grants, ReadsGrants};

    ghost reads = { λ q info heard seen text. ReadsGrants q.0 info heard seen text };

    ghost followed_by = { λ q seen. next_grants q.0 seen };

    fn hear(&self, said: Said<'_>, seen: &GrantPage, heard: &mut Heard) -> Result<(), AllocError> {
        match said {
            Said::Pending(table) => heard.hear_page(table, seen),
            Said::Words(_) | Said::Errors(_) => Ok(()),
        }
    }

    fn json(
        &self,
        alloc: Global,
        info: &ServerInfo<'_>,
        heard: &Heard,
        seen: &GrantPage,
    ) -> Result<Vec<u8>, AllocError> {
        let now_ms = info.uptime_ms;
        let mut writer = Writer::new(Vec::new(alloc));
        put_page(alloc, &mut writer, self.0.from, now_ms, heard, seen)?;
        Ok(closed(writer))
    }

    fn rows(
        &self,
        _alloc: Global,
        text: &mut String,
        info: &ServerInfo<'_>,
        heard: &Heard,
        seen: &GrantPage,
    ) -> Result<(), AllocError> {
        if self.0.from == 0 {
            text.push_str(GRANT_HEAD)?;
        }
        let now_ms = info.uptime_ms;
        for (place, grant) in seen.grants.iter().enumerate() {
            let unanswered = unanswered_ms(now_ms, &heard.grants_since_ms, place);
            add_grant_line(text, unanswered, grant)?;
        }
        for (place, deletion) in seen.deletions.iter().enumerate() {
            let unanswered = unanswered_ms(now_ms, &heard.deletions_since_ms, place);
            add_deletion_line(text, unanswered, deletion)?;
        }
        Ok(())
    }

    fn next(&self, seen: &GrantPage) -> Option<Ask> {
        match seen.next {
            Some(from) => Some(Ask::Grants(PeerPage { from, ..self.0 })),
            None => None,
        }
    }
}
