//! What the query of a request gives under each of its names.
ghost use Rattle.std.specs.Prelude.{◌≡◌, fold, Ok};
ghost use Rattle.http_views.specs.Queries.{link_query, lsps_query, no_lsps_query, no_path_query, once, parts, path_query, with_link_part, with_limit, with_link_value, with_lsps_part, with_lsps_value, with_path_part, with_path_value};

use crate::words::cut_at_equals;
use asks::{KeyFault, PathKeys, bandwidth_or_rate_in, long_number_in, priority_in};
use pcep_word::{Bandwidth, Ipv4, Priority};

/// What is wrong with a request. `text` has the words.
#[derive(Clone, Copy, PartialEq, Eq, Debug)]
pub enum Wrong {
    /// The host is neither an address, nor `localhost`, nor the name that this server was given.
    Host,
    /// A part of the query has no known name.
    Query,
    Peer,
    From,
    To,
    Bandwidth,
    Setup,
    Hold,
    Number,
    /// A limit of a path has no valid value, or comes twice.
    Limit,
}

/// What the query of a page of LSPs gives.
#[derive(Clone, Copy, PartialEq, Eq, Debug)]
pub(crate) struct LspsQuery {
    pub peer: Option<u32>,
    pub from: Option<u64>,
}

/// What the query of a path gives.
#[derive(Clone, Copy, PartialEq, Eq, Debug)]
pub(crate) struct PathQuery {
    pub from: Option<Ipv4>,
    pub to: Option<Ipv4>,
    pub bandwidth: Option<Bandwidth>,
    pub setup: Option<Priority>,
    pub hold: Option<Priority>,
    pub keys: PathKeys,
}

/// Returns a valid value that is the first under its name.
fn once<T: Copy>(had: Option<T>, value: Option<T>, wrong: Wrong) -> Result<Option<T>, Wrong>
    ensures { result ≡ once had value wrong }
{
    match (had, value) {
        (None, Some(_)) => Ok(value),
        _ => Err(wrong),
    }
}

#[tactic(auto, unfolding(crate::specs::Queries::with_lsps_value))]
fn with_lsps_value(query: LspsQuery, name: &str, value: &str) -> Result<LspsQuery, Wrong>
    ensures { result ≡ with_lsps_value query name.now value.now }
{
    match name {
        "peer" => {
            let peer = once(query.peer, Ipv4::parse(value).map(|a| a.0), Wrong::Peer)?;
            Ok(LspsQuery { peer, ..query })
        }
        "from" => {
            let from = once(query.from, long_number_in(value), Wrong::From)?;
            Ok(LspsQuery { from, ..query })
        }
        _ => Err(Wrong::Query),
    }
}

fn with_lsps_part(so_far: Result<LspsQuery, Wrong>, part: &str) -> Result<LspsQuery, Wrong>
    ensures { result ≡ with_lsps_part so_far part.now }
{
    let query = so_far?;
    if part.is_empty() {
        return Ok(query);
    }
    match cut_at_equals(part) {
        Some((name, value)) => with_lsps_value(query, name, value),
        None => Err(Wrong::Query),
    }
}

/// Reads the query of a page of LSPs: `peer` and `from`, each at most once.
pub(crate) fn lsps_query(query: &str) -> Result<LspsQuery, Wrong>
    ensures { result ≡ lsps_query query.now }
{
    let nothing = LspsQuery {
        peer: None,
        from: None,
    };
    query
        .split('&')
        .fold(Ok(nothing), |so_far, part| with_lsps_part(so_far, part))
}

/// Adds a limit of the path.
fn with_limit(query: PathQuery, name: &str, value: &str) -> Result<PathQuery, Wrong>
    ensures { result ≡ with_limit query name.now value.now }
{
    match query.keys.with_key(name, value) {
        Ok(keys) => Ok(PathQuery { keys, ..query }),
        Err(KeyFault::Name) => Err(Wrong::Query),
        Err(KeyFault::Value) => Err(Wrong::Limit),
    }
}

#[tactic(auto, unfolding(crate::specs::Queries::with_path_value))]
fn with_path_value(query: PathQuery, name: &str, value: &str) -> Result<PathQuery, Wrong>
    ensures { result ≡ with_path_value query name.now value.now }
{
    match name {
        "from" => {
            let from = once(query.from, Ipv4::parse(value), Wrong::From)?;
            Ok(PathQuery { from, ..query })
        }
        "to" => {
            let to = once(query.to, Ipv4::parse(value), Wrong::To)?;
            Ok(PathQuery { to, ..query })
        }
        "bandwidth" => {
            let bandwidth = once(
                query.bandwidth,
                bandwidth_or_rate_in(value),
                Wrong::Bandwidth,
            )?;
            Ok(PathQuery { bandwidth, ..query })
        }
        "setup" => {
            let setup = once(query.setup, priority_in(value), Wrong::Setup)?;
            Ok(PathQuery { setup, ..query })
        }
        "hold" => {
            let hold = once(query.hold, priority_in(value), Wrong::Hold)?;
            Ok(PathQuery { hold, ..query })
        }
        _ => with_limit(query, name, value),
    }
}

fn with_path_part(so_far: Result<PathQuery, Wrong>, part: &str) -> Result<PathQuery, Wrong>
    ensures { result ≡ with_path_part so_far part.now }
{
    let query = so_far?;
    if part.is_empty() {
        return Ok(query);
    }
    match cut_at_equals(part) {
        Some((name, value)) => with_path_value(query, name, value),
        None => Err(Wrong::Query),
    }
}

/// Reads the query of a path: `from`, `to`, `bandwidth`, `setup`, `hold` and the limits of the path, each at most once.
pub(crate) fn path_query(query: &str) -> Result<PathQuery, Wrong>
    ensures { result ≡ path_query query.now }
{
    let nothing = PathQuery {
        from: None,
        to: None,
        bandwidth: None,
        setup: None,
        hold: None,
        keys: PathKeys::none(),
    };
    query
        .split('&')
        .fold(Ok(nothing), |so_far, part| with_path_part(so_far, part))
}

#[tactic(auto, unfolding(crate::specs::Queries::with_link_value))]
fn with_link_value(number: Option<u64>, name: &str, value: &str) -> Result<Option<u64>, Wrong>
    ensures { result ≡ with_link_value number name.now value.now }
{
    match name {
        "number" => once(number, long_number_in(value), Wrong::Number),
        _ => Err(Wrong::Query),
    }
}

fn with_link_part(so_far: Result<Option<u64>, Wrong>, part: &str) -> Result<Option<u64>, Wrong>
    ensures { result ≡ with_link_part so_far part.now }
{
    let number = so_far?;
    if part.is_empty() {
        return Ok(number);
    }
    match cut_at_equals(part) {
        Some((name, value)) => with_link_value(number, name, value),
        None => Err(Wrong::Query),
    }
}

/// Reads the query of a link: `number`, at most once.
pub(crate) fn link_query(query: &str) -> Result<Option<u64>, Wrong>
    ensures { result ≡ link_query query.now }
{
    query
        .split('&')
        .fold(Ok(None), |so_far, part| with_link_part(so_far, part))
}
