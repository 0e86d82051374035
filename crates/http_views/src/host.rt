//! Tests whether a request names this server by an address, or by the name that it was given. Any other name that
//! another's DNS resolves to this machine is refused, so that no page from elsewhere reads what is shown here.
ghost use Rattle.std.specs.Prelude.{◌≡◌, ◌==◌, None, option_copied, slice_index};
ghost use Rattle.http_header.specs.HeaderMap.{get};
ghost use Rattle.std.specs.Prelude.{codes};
ghost use Rattle.http_views.specs.Hosts.{host_name, is_bracketed, is_own, is_localhost, is_own_host, is_own_name, is_own_of, is_own_value, is_same_name, is_this_name};

use crate::words::cut_at_colon;
use http::{HeaderMap, HeaderValue, Uri, header};
use pcep_word::Ipv4;

/// Returns the part before the port.
fn host_name(host: &str) -> &str
    ensures { result.now ≡ host_name host.now }
{
    match cut_at_colon(host) {
        Some((name, _port)) => name,
        None => host,
    }
}

/// Tests whether the name is `localhost`, in upper or lower case.
fn is_localhost(name: &str) -> bool
    ensures { result ≡ is_localhost name.now }
{
    name.eq_ignore_ascii_case("localhost")
}

/// Tests whether two names are the same, in upper or lower case.
fn is_same_name(own: &str, name: &str) -> bool
    ensures { result ≡ is_same_name own.now name.now }
{
    name.eq_ignore_ascii_case(own)
}

/// Tests whether a name is the one that this server was given, unless that one is empty.
fn is_this_name(own: &str, name: &str) -> bool
    ensures { result ≡ is_this_name own.now name.now }
{
    !own.is_empty() && is_same_name(own, name)
}

fn is_own_name(own: &str, name: &str) -> bool
    ensures { result ≡ is_own_name own.now name.now }
{
    is_localhost(name) || Ipv4::parse(name).is_some() || is_this_name(own, name)
}

fn is_bracketed(host: &[u8]) -> bool
    ensures { result ≡ is_bracketed host.now }
{
    match host {
        [first, ..] => *first == b'[',
        [] => false,
    }
}

/// Tests whether the host is an IPv6 address in brackets, whose form the connection has checked, or a name of this
/// machine.
fn is_own_host(own: &str, host: &str) -> bool
    ensures { result ≡ is_own_host own.now host.now }
{
    is_bracketed(host.as_bytes()) || is_own_name(own, host_name(host))
}

fn is_own_value(own: &str, value: &HeaderValue) -> bool
    ensures { result ≡ is_own_value own.now value.now }
{
    match value.to_str() {
        Ok(host) => is_own_host(own, host),
        Err(_) => false,
    }
}

/// Tests whether the header fields name this server by an address, as `localhost`, or by its own name.
fn is_own_field(own: &str, headers: &HeaderMap<HeaderValue>) -> bool
    ensures { result ≡ is_own_of own.now None headers.now }
{
    match headers.get(header::HOST) {
        Some(value) => is_own_value(own, value),
        None => false,
    }
}

/// Tests whether the request names this server by an address, as `localhost`, or by its own name: in its target, or else
/// in its header fields.
pub(crate) fn is_own(own: &str, target: &Uri, headers: &HeaderMap<HeaderValue>) -> bool
    ensures { result ≡ is_own own.now target.now headers.now }
{
    match target.host() {
        Some(host) => is_own_host(own, host),
        None => is_own_field(own, headers),
    }
}
