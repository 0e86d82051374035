//! Copies made with ample memory, and snapshots that are returned again. A contract says that a copy, if it is made,
//! equals its original, but not that one is made. The program of the rows of bytes (`message_rows`) copies messages and
//! objects.
use super::refused::{Ask, event_of};
use super::*;
use bandwidth_book::Book;
use engine_core::Call;
use history_core::{Event, Job, LinkReload, Purpose, Reply, SharedEvent};
use lsp_base::{Constraints, Effect, Path, Record, RecordChange};
use path_finder::find;
use pcep_messages::Message;
use pcep_objects::{Capabilities, Colours, Operational, Plsp};
use pcep_session::Input;
use pcep_word::Ipv4;
use sequence::{PlainData, Sequence};
use std::alloc::AllocError;
use std::fmt;
use std::sync::Arc;
use step_core::{Base, Peer, State};
use te_base::{LinkNumber, LinkValues, Name, Node, NodePlace};
use te_snapshot::Topology;

fn is_written<T: fmt::Debug>(alloc: Global, value: &T, text: &str) -> Result<bool, AllocError> {
    let other = format!(in alloc; "{value:?}")?;
    Ok(other.as_str() == text)
}

/// Tests whether two values are written alike.
fn are_alike<T: fmt::Debug>(alloc: Global, first: &T, second: &T) -> Result<bool, AllocError> {
    let text = format!(in alloc; "{first:?}")?;
    is_written(alloc, second, &text)
}

/// Tests whether a copy is made, and is written like its original.
fn is_copied<T: PlainData + fmt::Debug>(alloc: Global, value: &T) -> Result<bool, AllocError> {
    let copy = value.copy()?;
    are_alike(alloc, value, &copy)
}

fn are_copied<T: PlainData + fmt::Debug>(alloc: Global, values: &[T]) -> Result<bool, AllocError> {
    for value in values {
        if !is_copied(alloc, value)? {
            return Ok(false);
        }
    }
    Ok(true)
}

/// Tests whether both have as many values, each written like the one in its place.
fn are_each_alike<T: fmt::Debug>(
    alloc: Global,
    firsts: &[T],
    seconds: &[T],
) -> Result<bool, AllocError> {
    for (first, second) in firsts.iter().zip(seconds.iter()) {
        if !are_alike(alloc, first, second)? {
            return Ok(false);
        }
    }
    Ok(firsts.len() == seconds.len())
}

// ---- what a database keeps, and answers

/// Tests whether the base has the state's paths, records and peers.
fn is_base_of(alloc: Global, base: &Base, state: &State) -> Result<bool, AllocError> {
    Ok(
        are_each_alike::<Path>(alloc, base.paths.as_slice(), state.lsps().paths())?
            && are_each_alike::<Record>(alloc, base.records.as_slice(), state.lsps().records())?
            && are_each_alike::<Peer>(alloc, base.peers.as_slice(), state.peers())?,
    )
}

/// Tests the same, and whether each part of the base is copied.
fn are_lists_copied(alloc: Global, base: &Base, state: &State) -> Result<bool, AllocError> {
    Ok(
        is_base_of(alloc, base, state)?
            && is_copied(alloc, &base.values)?
            && is_copied(alloc, &base.paths)?
            && is_copied(alloc, &base.records)?
            && is_copied(alloc, &base.names)?
            && is_copied(alloc, &base.peers)?
            && is_copied(alloc, &base.tickets)?,
    )
}

/// Tests whether a state is copied.
fn is_state_copied(alloc: Global, state: &State) -> Result<bool, AllocError> {
    let base = state.copy()?;
    are_lists_copied(alloc, &base, state)
}

type Links = Option<Sequence<LinkNumber>>;

fn is_found(alloc: Global, job: &Job, links: &Links) -> Result<bool, AllocError> {
    let found = job.search(alloc)?;
    are_alike(alloc, links, &found)
}

/// Tests whether both find the same path.
fn find_the_same(alloc: Global, first: &Job, second: &Job) -> Result<bool, AllocError> {
    let links = first.search(alloc)?;
    is_found(alloc, second, &links)
}

/// Tests whether what is found for a job is copied.
fn is_find_copied(alloc: Global, job: &Job) -> Result<bool, AllocError> {
    let found = find(alloc, &job.snapshot, &job.ticket.constraints, &job.own)?;
    is_copied(alloc, &found)
}

/// Tests whether a job is copied, with its network.
fn is_job_copied(alloc: Global, job: &Job) -> Result<bool, AllocError> {
    let copy = job.copy()?;
    find_the_same(alloc, job, &copy)
}

fn is_reply_copied(alloc: Global, reply: &Reply) -> Result<bool, AllocError> {
    match reply {
        Reply::Job(job) => Ok(
            is_copied(alloc, reply)? && is_job_copied(alloc, job)? && is_find_copied(alloc, job)?,
        ),
        _ => is_copied(alloc, reply),
    }
}

/// Tests whether a reply is copied, and the state that it leaves.
fn are_both_copied(alloc: Global, reply: &Reply, state: &State) -> Result<bool, Fail> {
    Ok(is_reply_copied(alloc, reply)? && is_state_copied(alloc, state)?)
}

/// Submits an event, and tests whether its reply is copied, and then the state.
fn submit(alloc: Global, database: &mut Database, event: Event) -> Result<bool, Fail> {
    let reply = database.apply(event)?;
    are_both_copied(alloc, &reply, database.state())
}

/// Submits a copy of the event, and tests the same, and whether the event is copied.
fn submit_copy(alloc: Global, database: &mut Database, event: &Event) -> Result<bool, Fail> {
    Ok(is_copied(alloc, event)? && submit(alloc, database, event.copy()?)?)
}

/// Submits what is asked for, and tests the same.
fn ask(alloc: Global, database: &mut Database, ask: Ask) -> Result<bool, Fail> {
    match event_of(alloc, ask) {
        Some(event) => submit_copy(alloc, database, &event),
        None => Err(Fail::new("no event")),
    }
}

fn ask_all(alloc: Global, database: &mut Database, asks: &[Ask]) -> Result<bool, Fail> {
    for each in asks {
        if !ask(alloc, database, *each)? {
            return Ok(false);
        }
    }
    Ok(true)
}

/// Makes the offer of the way over B.
fn over_b(alloc: Global) -> Result<Event, AllocError> {
    let links = vec![in alloc; 0, 1]?;
    Ok(Event::Commit {
        ticket: 1,
        offer: Some(Sequence::from_vec(links)),
    })
}

/// Returns what the first LSP asks of its path.
fn constraints(database: &Database) -> Option<Constraints> {
    let first = database.state().lsps().records().first()?;
    Some(first.lsp.constraints)
}

/// Makes a request for a path like that of the first LSP, in addition to it.
fn request(database: &Database) -> Option<Event> {
    let constraints = constraints(database)?;
    let purpose = Purpose::Answer {
        request: 5,
        plsp: Some(Plsp::new(1)),
        constraints,
    };
    Some(Event::Ask { peer: 1, purpose })
}

fn grant(alloc: Global, database: &mut Database) -> Result<bool, Fail> {
    let event = over_b(alloc)?;
    submit_copy(alloc, database, &event)
}

fn ask_beside(alloc: Global, database: &mut Database) -> Result<bool, Fail> {
    match request(database) {
        Some(event) => submit_copy(alloc, database, &event),
        None => Err(Fail::new("no LSP")),
    }
}

/// Submits all events of an LSP: it is granted, reported, updated, requested once more, given back and forgotten, and
/// links are reloaded.
fn live(alloc: Global, database: &mut Database) -> Result<bool, Fail> {
    let first = [
        Ask::Up,
        Ask::Marker,
        Ask::Line("initiate 1 t1 10.0.0.1 10.0.0.4 600000 7 0"),
        Ask::Take,
    ];
    let then = [
        Ask::Drain,
        Ask::Report,
        Ask::Line("update 1 1"),
        Ask::Take,
        Ask::Reload,
        Ask::Commit(2),
    ];
    let last = [
        Ask::Take,
        Ask::Refuse(9),
        Ask::Line("return 1 1"),
        Ask::Line("delete 1 1"),
        Ask::Drain,
        Ask::Down,
        Ask::Expire,
    ];
    Ok(
        ask_all(alloc, database, &first)?
            && grant(alloc, database)?
            && ask_all(alloc, database, &then)?
            && ask_beside(alloc, database)?
            && ask_all(alloc, database, &last)?,
    )
}

fn is_history_copied(alloc: Global, database: &mut Database) -> Result<bool, Fail> {
    Ok(live(alloc, database)? && are_copied(alloc, database.history())?)
}

fn is_life_copied(alloc: Global) -> Result<bool, Fail> {
    let mut database = new_database(alloc)?;
    is_history_copied(alloc, &mut database)
}

/// Tests that each event and reply is copied, and the state after each, and each step.
#[test]
fn what_a_database_keeps_is_copied(rt: HostRuntime) -> Result<(), Fail> {
    let copied = is_life_copied(rt.alloc())?;
    assert!(rt; copied);
    Ok(())
}

// ---- what is handed from one part to another

fn effect(alloc: Global, plsp: Plsp) -> Result<Effect, AllocError> {
    let records = vec![in alloc; RecordChange { plsp, lsp: None }]?;
    Ok(Effect::new(Vec::new(alloc), Vec::new(alloc), records, true))
}

fn is_effect_copied(alloc: Global, plsp: Plsp) -> Result<bool, AllocError> {
    let effect = effect(alloc, plsp)?;
    is_copied(alloc, &effect)
}

fn call(alloc: Global) -> Result<Call, AllocError> {
    Ok(Call {
        event: SharedEvent::new(alloc, Event::Take)?,
        reply: Reply::Idle,
    })
}

fn is_call_copied(alloc: Global) -> Result<bool, AllocError> {
    let call = call(alloc)?;
    is_copied(alloc, &call)
}

fn are_inputs_copied(alloc: Global) -> Result<bool, AllocError> {
    let inputs = [
        Input::Up(None),
        Input::Message(Message::Keepalive),
        Input::Down,
        Input::Handled,
    ];
    are_copied(alloc, &inputs)
}

fn node(alloc: Global) -> Result<Node, AllocError> {
    let name = Name::new(alloc, "A")?;
    Ok(Node {
        name,
        id: Ipv4(0x0a00_0001),
        place: Some(NodePlace { x: 3, y: -4 }),
    })
}

fn is_node_copied(alloc: Global) -> Result<bool, AllocError> {
    let node = node(alloc)?;
    is_copied(alloc, &node)
}

fn are_owners_copied(alloc: Global) -> Result<bool, Fail> {
    let te = diamond(alloc)?;
    Ok(is_copied(alloc, te.owners())?)
}

/// Tests whether values that need no memory are copied.
fn are_words_copied(alloc: Global) -> Result<bool, AllocError> {
    let capabilities = Capabilities {
        update: true,
        create: false,
    };
    let colours = Colours {
        exclude_any: 1,
        include_any: 2,
        include_all: 4,
    };
    Ok(
        is_copied(alloc, &Some(capabilities))?
            && is_copied(alloc, &colours)?
            && is_copied(alloc, &Operational::GoingUp)?,
    )
}

/// Tests that effects, calls, inputs of a session, nodes, owners of addresses, and words are copied.
#[test]
fn what_goes_from_part_to_part_is_copied(rt: HostRuntime) -> Result<(), Fail> {
    let alloc = rt.alloc();
    let plsp = Plsp::new(1);
    let copied = is_effect_copied(alloc, plsp)?
        && is_call_copied(alloc)?
        && are_inputs_copied(alloc)?
        && is_node_copied(alloc)?
        && are_owners_copied(alloc)?
        && are_words_copied(alloc)?;
    assert!(rt; copied);
    Ok(())
}

// ---- snapshots

/// Tests whether a snapshot that was returned is returned again. `None`: memory ran out for the first.
fn is_given_again(book: &mut Book) -> Option<bool> {
    match book.snapshot() {
        Ok(_first) => Some(book.snapshot().is_ok()),
        Err(_) => None,
    }
}

/// Makes a book of the links, if there is memory for it.
fn book_of(alloc: Global, te: &TeBase) -> Result<Book, AllocError> {
    let topology = Arc::new(alloc, Topology::new(alloc, te)?)?;
    Book::new(alloc, topology)
}

fn is_given_again_of(alloc: Global, te: &TeBase) -> Option<bool> {
    match book_of(alloc, te) {
        Ok(mut book) => is_given_again(&mut book),
        Err(_) => None,
    }
}

fn is_given_again_in(alloc: Global) -> Option<bool> {
    match TeBase::read(alloc, DIAMOND) {
        Ok(te) => is_given_again_of(alloc, &te),
        Err(_) => None,
    }
}

/// Tests that a snapshot that was returned is returned again without memory. It is tried twice, so that this holds
/// whichever allocation is refused: `tools/refused` runs the test with each of them refused in turn.
#[test]
fn a_snapshot_is_given_again(rt: HostRuntime) -> Result<(), Fail> {
    let given = [is_given_again_in(rt.alloc()), is_given_again_in(rt.alloc())];
    assert!(rt; given.contains(&Some(true)) && !given.contains(&Some(false)));
    Ok(())
}
