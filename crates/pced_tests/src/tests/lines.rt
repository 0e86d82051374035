//! An operator's lines.
use super::fakes::{Beat, Beats, Failing, Faulty, Given, Noon, Tap, Text};
use super::*;
use engine_core::Fault;
use server_talk::{LINE_LIMIT, OperatorEnd, PlanFault, TimedRead, operate};
use std::alloc::AllocError;
use std::collections::VecDeque;
use std::sync::Wait;
use te_base::TeFault;

fn store_in(alloc: Global) -> Faulty {
    Faulty {
        calls: Vec::new(alloc),
        failing: Failing::Asks,
        fault: Fault::HistoryFull,
        faults: 0,
        downs: 0,
        rolls: 0,
        forgets: 0,
    }
}

/// How an operator's part ended, or that there was no memory for it.
type End = Result<OperatorEnd, AllocError>;

/// Returns what a reader's lines are answered, by a writer that takes this number of writes.
fn answered_to<R: Wait, I: TimedRead>(
    rt: &R,
    alloc: Global,
    reader: &mut I,
    writes: u64,
) -> (End, Vec<u8>) {
    let mut writer = Tap {
        left: writes,
        most: usize::MAX,
        bytes: Vec::new(alloc),
    };
    let mut store = store_in(alloc);
    let watch = Noon { is_closing: false };
    let plan = Text { alloc, fault: None };
    let end = operate(rt, alloc, reader, &mut writer, &watch, &plan, &mut store);
    (end, writer.bytes)
}

/// Returns the same for bytes that are there.
fn answered<R: Wait>(rt: &R, alloc: Global, input: &[u8], writes: u64) -> (End, Vec<u8>) {
    answered_to(rt, alloc, &mut Given { bytes: input }, writes)
}

#[test]
fn lines_are_answered_and_bad_ones_by_number(rt: HostRuntime) -> Result<(), Fail> {
    let table: [(&[u8], &[u8]); 10] = [
        (b"", b""),
        // half a line may belong to another
        (b"update 1 1\nreturn 1 1", b"done\n"),
        (b"update 1 1\nend", b"done\n"),
        (b"\n", b"bad line 1\n"),
        (b"books\nupdate 1 1\n", b"bad line 1\ndone\n"),
        (
            b"update 1 1\n\xff\xfe\nreturn 1 1\n",
            b"done\nbad line 2\ndone\n",
        ),
        // the workers take tickets, and the clock forgets peers
        (
            b"take\ncommit 1 none\nexpire 1\n",
            b"bad line 1\nbad line 2\nbad line 3\n",
        ),
        (b"delete 1 1 \n", b"bad line 1\n"),
        (b"initiate 1 t1 10.0.0.1 10.0.0.4 600000 7 0\n", b"done\n"),
        (
            b"book\nupdate 1 1\n",
            b"link 0 1 2 3 4 5 6 7 8\nlink 1 -1 -1 -1 -1 -1 -1 -1 -1\ndone\n",
        ),
    ];
    for (input, want) in table {
        let (end, printed) = answered(&rt, rt.alloc(), input, 99);
        assert_eq!(rt; end, Ok(OperatorEnd::InputEnded));
        assert_eq!(rt; printed.as_slice(), want);
    }
    Ok(())
}

/// Tests that a full history is rolled for a line, which is then answered; if it is still full, that is the answer.
#[test]
fn a_full_history_is_rolled_for_a_line(rt: HostRuntime) -> Result<(), Fail> {
    let alloc = rt.alloc();
    let table: [(u32, &[u8]); 2] = [(1, b"done\ndone\n"), (2, b"history full\ndone\n")];
    for (faults, want) in table {
        let mut writer = Tap {
            left: 99,
            most: usize::MAX,
            bytes: Vec::new(alloc),
        };
        let mut store = store_in(alloc);
        store.faults = faults;
        let end = operate(
            &rt,
            alloc,
            &mut Given {
                bytes: b"update 1 1\nupdate 1 1\n",
            },
            &mut writer,
            &Noon { is_closing: false },
            &Text { alloc, fault: None },
            &mut store,
        );
        assert_eq!(rt; end, Ok(OperatorEnd::InputEnded));
        assert_eq!(rt; writer.bytes.as_slice(), want);
        assert_eq!(rt; store.rolls, 1);
    }
    Ok(())
}

#[test]
fn a_long_line_is_bad_and_the_next_is_heard(rt: HostRuntime) -> Result<(), Fail> {
    let alloc = rt.alloc();
    let mut input = Vec::new(alloc);
    for _byte in 0..LINE_LIMIT + 1 {
        input.push(b'x')?;
    }
    input.extend_from_slice(b"\nupdate 1 1\n")?;
    let (end, printed) = answered(&rt, rt.alloc(), input.as_slice(), 99);
    assert_eq!(rt; end, Ok(OperatorEnd::InputEnded));
    assert_eq!(rt; printed.as_slice(), b"bad line 1\ndone\n".as_slice());
    Ok(())
}

#[test]
fn a_writer_that_fails_ends_the_operators_part(rt: HostRuntime) -> Result<(), Fail> {
    let (end, printed) = answered(&rt, rt.alloc(), b"book\nupdate 1 1\n", 0);
    assert_eq!(rt; end, Ok(OperatorEnd::WriteFault));
    assert!(rt; printed.is_empty());
    Ok(())
}

#[test]
fn nothing_is_heard_behind_the_line_end(rt: HostRuntime) -> Result<(), Fail> {
    let table: [(&[u8], &[u8]); 3] = [
        (b"end\nupdate 1 1\n", b""),
        (b"update 1 1\nends\nend\n", b"done\nbad line 2\n"),
        (b"end \nend\n", b"bad line 1\n"),
    ];
    for (input, want) in table {
        let (end, printed) = answered(&rt, rt.alloc(), input, 99);
        assert_eq!(rt; end, Ok(OperatorEnd::EndAsked));
        assert_eq!(rt; printed.as_slice(), want);
    }
    Ok(())
}

#[test]
fn a_read_without_bytes_is_made_again(rt: HostRuntime) -> Result<(), Fail> {
    let alloc = rt.alloc();
    let mut beats = VecDeque::new(alloc);
    beats.push_back(Beat::Nothing)?;
    beats.push_back(Beat::Bytes(b"update "))?;
    beats.push_back(Beat::Nothing)?;
    beats.push_back(Beat::Bytes(b"1 1\n"))?;
    beats.push_back(Beat::Fault)?;
    let (end, printed) = answered_to(&rt, alloc, &mut Beats { beats }, 99);
    assert_eq!(rt; end, Ok(OperatorEnd::ReadFault));
    assert_eq!(rt; printed.as_slice(), b"done\n".as_slice());
    Ok(())
}

#[test]
fn a_reload_answers_its_reply_or_why_there_is_none(rt: HostRuntime) -> Result<(), Fail> {
    let alloc = rt.alloc();
    let table: [(Option<PlanFault>, &[u8]); 4] = [
        (
            None,
            b"done\nbad line 2\nlink 1 igp 10 20 reservable 1000000 400000\nbelow zero 1\n",
        ),
        (
            Some(PlanFault::Device),
            b"device fault\nbad line 2\ndevice fault\n",
        ),
        (
            Some(PlanFault::Te(TeFault::OtherLinks)),
            b"te fault 10\nbad line 2\nte fault 10\n",
        ),
        (
            Some(PlanFault::Te(TeFault::OutOfMemory)),
            b"out of memory\nbad line 2\nout of memory\n",
        ),
    ];
    for (fault, want) in table {
        let mut writer = Tap {
            left: 99,
            most: usize::MAX,
            bytes: Vec::new(alloc),
        };
        let mut store = store_in(alloc);
        let bytes = b"reload\nreload 0 1 1 0 1\nreload check\n";
        let end = operate(
            &rt,
            alloc,
            &mut Given { bytes },
            &mut writer,
            &Noon { is_closing: false },
            &Text { alloc, fault },
            &mut store,
        );
        assert_eq!(rt; end, Ok(OperatorEnd::InputEnded));
        assert_eq!(rt; writer.bytes.as_slice(), want);
    }
    Ok(())
}
