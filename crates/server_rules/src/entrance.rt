//! Who has a place.
ghost use Rattle.std.specs.Prelude.{◌≡◌, ◌<◌, ◌^◌, length};
ghost use Rattle.std.specs.List.{IsFirstBest};
ghost use Rattle.server_rules.specs.Places.{waiting_of, of_address, up_of, weight_of, outweighs, IsEntrance};

/// A connection that has a place.
#[derive(Clone, Copy, PartialEq, Eq, Debug)]
pub struct Taken {
    /// The slot of its seat, which no other connection has.
    pub slot: usize,
    /// The address that it came from.
    pub address: u32,
    /// Its session is up.
    pub is_up: bool,
}

/// What happens to a new connection.
#[derive(Clone, Copy, PartialEq, Eq, Debug)]
pub enum Entrance {
    /// It takes a free place.
    Free,
    /// It takes the place of this connection, which ends for it.
    InsteadOf(usize),
    /// It is closed without being served.
    Refused,
}

/// Counts the connections of the address that aren't up yet.
fn waiting_of(taken: &[Taken], address: u32) -> usize
    ensures { result ≡ waiting_of taken.now address }
{
    taken
        .iter()
        .filter(|other| !other.is_up && other.address == address)
        .count()
}

/// Counts the connections of the address.
fn of_address(taken: &[Taken], address: u32) -> usize
    ensures { result ≡ of_address taken.now address }
{
    taken
        .iter()
        .filter(|other| other.address == address)
        .count()
}

/// Tests whether a session of the address is up.
fn is_up(taken: &[Taken], address: u32) -> bool
    ensures { result ≡ up_of taken.now address }
{
    taken
        .iter()
        .any(|other| other.is_up && other.address == address)
}

/// Returns the weight of the connection.
fn weight_of(taken: &[Taken], connection: Taken) -> usize
    requires { length taken.now < 2 ^ 32 }
    ensures { result ≡ weight_of taken.now connection }
{
    if connection.is_up {
        0
    } else {
        1 + waiting_of(taken, connection.address)
    }
}

/// Returns the place of the oldest of the connections that weigh most.
fn first_to_end(taken: &[Taken]) -> usize
    requires some { 0 < length taken.now }
    requires few { length taken.now < 2 ^ 32 }
    ensures { IsFirstBest (outweighs taken.now) taken.now (length taken.now) result }
{
    let mut first = 0;
    for at in 1..taken.len() {
        if weight_of(taken, taken[first]) < weight_of(taken, taken[at]) {
            first = at;
        }
    }
    first
}

/// Decides what happens to a new connection of the address, given the connections that have places, the oldest first,
/// and the number of places in all.
pub fn admit(taken: &[Taken], address: u32, places: usize) -> Entrance
    requires some { 0 < places }
    requires few { length taken.now < 2 ^ 32 }
    ensures { IsEntrance taken.now address places result }
{
    if is_up(taken, address) && of_address(taken, address) >= 2 {
        return Entrance::Refused;
    }
    if taken.len() < places {
        return Entrance::Free;
    }
    let first = first_to_end(taken);
    if taken[first].is_up {
        Entrance::Refused
    } else {
        Entrance::InsteadOf(first)
    }
}
