//! What a request asks for, given its host, its method, its path and its query.
ghost use Rattle.std.specs.Prelude.{◌≡◌, ◌||◌, bytes_eq, codes};
ghost use Rattle.http_views.specs.Asked.{allowed, alone, asked_at, asked_by, asked_of, grants_asked, link_asked, lsps_asked, only_reads, page_of, path_asked, path_of_query, wrong_text};

use crate::host::is_own;
pub use crate::query::Wrong;
use crate::query::{LspsQuery, PathQuery, link_query, lsps_query, path_query};
use asks::{Ask, PathWanted, PeerPage};
use bytes::Bytes;
use http::Request;
use pcep_word::{Priorities, Priority};

/// What a request asks for.
#[derive(Clone, Copy, PartialEq, Eq, Debug)]
pub enum Asked {
    /// The page that draws the network.
    Page,
    /// The numbers for a scraper.
    Metrics,
    /// Where nodes are on a map.
    Places,
    /// The JSON document of what one look sees.
    Document(Ask),
    /// Nothing: this is wrong with the request.
    Wrong(Wrong),
    /// There is nothing at this path.
    NotFound,
    /// The method is neither GET nor HEAD.
    NotAllowed,
}

impl Wrong {
    /// Returns what the client is answered.
    pub fn text(self) -> &'static str
        ensures { result.now ≡ wrong_text self }
    {
        match self {
            Wrong::Host => "bad host\n",
            Wrong::Query => "bad query\n",
            Wrong::Peer => "bad peer\n",
            Wrong::From => "bad from\n",
            Wrong::To => "bad to\n",
            Wrong::Bandwidth => "bad bandwidth\n",
            Wrong::Setup => "bad setup\n",
            Wrong::Hold => "bad hold\n",
            Wrong::Number => "bad number\n",
            Wrong::Limit => "bad limit\n",
        }
    }
}

/// Returns what is asked for at a path that takes no query.
fn alone(query: &str, asked: Asked) -> Asked
    ensures { result ≡ alone query.now asked }
{
    if query.is_empty() {
        asked
    } else {
        Asked::Wrong(Wrong::Query)
    }
}

/// Returns the first page, from the given place on, of the given peer.
fn page_of(given: LspsQuery) -> PeerPage
    ensures { result ≡ page_of given }
{
    PeerPage {
        peer: given.peer,
        from: given.from.unwrap_or(0),
    }
}

/// Returns what the query of a page of LSPs asks for.
fn lsps_asked(query: &str) -> Asked
    ensures { result ≡ lsps_asked query.now }
{
    match lsps_query(query) {
        Ok(given) => Asked::Document(Ask::Lsps(page_of(given))),
        Err(wrong) => Asked::Wrong(wrong),
    }
}

/// Returns what the query of a page of grants asks for.
fn grants_asked(query: &str) -> Asked
    ensures { result ≡ grants_asked query.now }
{
    match lsps_query(query) {
        Ok(given) => Asked::Document(Ask::Grants(page_of(given))),
        Err(wrong) => Asked::Wrong(wrong),
    }
}

/// Returns what the query of a link asks for.
fn link_asked(query: &str) -> Asked
    ensures { result ≡ link_asked query.now }
{
    match link_query(query) {
        Ok(Some(link)) => Asked::Document(Ask::Link(link)),
        Ok(None) => Asked::Wrong(Wrong::Number),
        Err(wrong) => Asked::Wrong(wrong),
    }
}

/// Returns the path that a query asks for. The priority is the lowest, 7, if none is given.
#[tactic(auto, unfolding(crate::specs::Asked::path_of_query))]
fn path_of_query(query: PathQuery) -> Asked
    ensures { result ≡ path_of_query query }
{
    let Some(from) = query.from else {
        return Asked::Wrong(Wrong::From);
    };
    let Some(to) = query.to else {
        return Asked::Wrong(Wrong::To);
    };
    let Some(bandwidth) = query.bandwidth else {
        return Asked::Wrong(Wrong::Bandwidth);
    };
    let lowest = Priority::capped(7);
    let setup = query.setup.unwrap_or(lowest);
    let hold = query.hold.unwrap_or(lowest);
    Asked::Document(Ask::Path(PathWanted {
        from,
        to,
        bandwidth,
        priorities: Priorities::new(setup, hold),
        limits: query.keys.limits(),
    }))
}

fn path_asked(query: &str) -> Asked
    ensures { result ≡ path_asked query.now }
{
    match path_query(query) {
        Ok(given) => path_of_query(given),
        Err(wrong) => Asked::Wrong(wrong),
    }
}

/// Returns what is asked for at a path with a query.
#[tactic(auto, unfolding(crate::specs::Asked::asked_at))]
fn asked_at(path: &str, query: &str) -> Asked
    ensures { result ≡ asked_at path.now query.now }
{
    match path {
        "/" => alone(query, Asked::Page),
        "/metrics" => alone(query, Asked::Metrics),
        "/api/places" => alone(query, Asked::Places),
        "/api/status" => alone(query, Asked::Document(Ask::Status)),
        "/api/links" => alone(query, Asked::Document(Ask::Links)),
        "/api/peers" => alone(query, Asked::Document(Ask::Peers)),
        "/api/tickets" => alone(query, Asked::Document(Ask::Tickets)),
        "/api/lsps" => lsps_asked(query),
        "/api/grants" => grants_asked(query),
        "/api/link" => link_asked(query),
        "/api/path" => path_asked(query),
        _ => Asked::NotFound,
    }
}

fn only_reads(method: &str) -> bool
    ensures { result ≡ only_reads method.now }
{
    method == "GET" || method == "HEAD"
}

/// Returns what is asked for by this method.
fn allowed(method: &str, asked: Asked) -> Asked
    ensures { result ≡ allowed method.now asked }
{
    match asked {
        Asked::NotFound => Asked::NotFound,
        _ if only_reads(method) => asked,
        _ => Asked::NotAllowed,
    }
}

/// Returns what a request asks for, if the server was given this name.
pub fn asked_by(own: &str, request: &Request<Bytes>) -> Asked
    ensures { result ≡ asked_by own.now request.now }
{
    if !is_own(own, request.uri(), request.headers()) {
        return Asked::Wrong(Wrong::Host);
    }
    let uri = request.uri();
    let asked = asked_at(uri.path(), uri.query().unwrap_or(""));
    allowed(request.method().as_str(), asked)
}
