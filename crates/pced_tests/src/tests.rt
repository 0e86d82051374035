//! Routers and operators over four routers A, B, C and D, with links A-B, B-D, A-C and C-D of 1,000,000 bytes per
//! second.
ghost use Rattle.std.specs.Prelude.{◌≡◌, IfOk};
ghost use Rattle.history_core.specs.Histories.{StartsFromText, steps_of};

use history_core::Database;
use std::alloc::Global;
use std::test::Fail;
use te_base::TeBase;

mod book;
mod buffers;
mod copies;
mod ends;
mod fakes;
mod lines;
mod meeting;
mod others;
mod places;
mod quiet;
mod refused;
mod reloads;
mod rules;
mod scripts;
mod shared;
mod snapshots;
mod stores;

static DIAMOND: &str = r#"
node = [
 {name="A",id="10.0.0.1"}, {name="B",id="10.0.0.2"},
 {name="C",id="10.0.0.3"}, {name="D",id="10.0.0.4"} ]
link = [
 {from="A",to="B",local="10.1.0.1",remote="10.1.0.2",igp=10,te=10,colour=0,reservable=1000000},
 {from="B",to="D",local="10.2.0.1",remote="10.2.0.2",igp=10,te=10,colour=0,reservable=1000000},
 {from="A",to="C",local="10.3.0.1",remote="10.3.0.2",igp=20,te=20,colour=0,reservable=1000000},
 {from="C",to="D",local="10.4.0.1",remote="10.4.0.2",igp=20,te=20,colour=0,reservable=1000000} ]
"#;

/// Open with Keepalive 30, DeadTimer 120, and the capabilities to update and to create; the server's is the same.
const OPEN: &[u8] =
    b"\x20\x01\x00\x14\x01\x10\x00\x10\x20\x1e\x78\x00\x00\x10\x00\x04\x00\x00\x00\x05";

/// Keepalive.
const KEEPALIVE: &[u8] = b"\x20\x02\x00\x04";

/// Close, with no explanation.
const CLOSE: &[u8] = b"\x20\x07\x00\x0c\x0f\x10\x00\x08\x00\x00\x00\x01";

fn diamond(alloc: Global) -> Result<TeBase, Fail> {
    Ok(TeBase::read(alloc, DIAMOND)?)
}

/// Makes a database of which nothing was reported.
fn new_database(alloc: Global) -> Result<Database, Fail>
    ensures { IfOk result (λ database. (steps_of database ≡ 0) × StartsFromText database) }
{
    Ok(Database::new(alloc, diamond(alloc)?)?)
}
