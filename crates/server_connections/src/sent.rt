//! The requests that were sent to a router and that it hasn't answered.
ghost use Rattle.std.specs.Prelude.{◌≡◌, ◌==◌, ◌++◌, ◌∷◌, ◌⊎◌, [], not, filter, find, option_copied};
ghost use Rattle.server_connections.specs.Sent.{recent, request, sent_at};

use std::alloc::Global;

/// The most requests that are remembered. One more takes the place of the oldest.
const MOST: usize = 1024;

/// A request that was sent: its SRP-ID (RFC 8231 section 7.2), and when it was sent, in milliseconds.
#[derive(Clone, Copy, PartialEq, Eq, Debug)]
struct SentRequest {
    srp: u32,
    sent_ms: u64,
}

/// The requests of a session that haven't been answered, in the order in which they were sent.
#[derive(Drop)]
pub(crate) struct SentRequests {
    requests: Vec<SentRequest>,
}

/// Finds the request with this SRP-ID.
fn find_request(requests: &[SentRequest], srp: u32) -> Option<&SentRequest>
    ensures { option_copied result ≡ find (λ r. r.srp == srp) requests.now }
{
    requests.iter().find(|request| request.srp == srp)
}

/// Returns when the request with this SRP-ID was sent.
fn sent_at(requests: &[SentRequest], srp: u32) -> Option<u64>
    ensures { result ≡ sent_at srp requests.now }
{
    match find_request(requests, srp) {
        Some(request) => Some(request.sent_ms),
        None => None,
    }
}

impl SentRequests {
    /// Makes a list without requests. Allocates nothing.
    pub fn new(alloc: Global) -> SentRequests
        ensures { result.requests.items ≡ [] }
    {
        SentRequests {
            requests: Vec::new(alloc),
        }
    }

    /// Forgets the oldest request if the list is full.
    fn make_room(&mut self)
        ensures { self.new.requests.items ≡ recent self.old.requests.items }
    {
        if self.requests.len() >= MOST {
            let _oldest = self.requests.remove(0);
        }
    }

    /// Notes that a request was sent. If memory runs out, it isn't remembered.
    pub fn note(&mut self, srp: u32, sent_ms: u64)
        ensures { let kept = recent self.old.requests.items in
            (self.new.requests.items ≡ kept ++ (request srp sent_ms ∷ [])) ⊎ (self.new.requests.items ≡ kept) }
    {
        self.make_room();
        let _noted = self.requests.push(SentRequest { srp, sent_ms });
    }

    /// Forgets the requests with this SRP-ID.
    fn forget(&mut self, srp: u32)
        ensures { self.new.requests.items ≡ filter (λ r. not (r.srp == srp)) self.old.requests.items }
    {
        self.requests.retain(|request| request.srp != srp);
    }

    /// Notes that a request is answered. Returns when it was sent, if this is its first answer.
    pub fn answer(&mut self, srp: u32) -> Option<u64>
        ensures sent { result ≡ sent_at srp self.old.requests.items }
        ensures answered { self.new.requests.items ≡ filter (λ r. not (r.srp == srp)) self.old.requests.items }
    {
        let sent_ms = sent_at(&self.requests, srp);
        self.forget(srp);
        sent_ms
    }
}
