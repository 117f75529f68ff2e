//! Runs of engines: jobs that are numbered, engines one after another over a register, what takes memory refused, and
//! sights.
use crate::engines::{
    DONE, are_replies, are_rows, closed, engine_over, filled, has_posting, number, open_gate, read,
    read_all, row, row_reply, submit,
};
use crate::gates::{Open, Tally};
use hlr_core::{Event, Register, Reply};
use hlr_workers::Engine;
use std::alloc::Global;
use std::process::Abort;
use std::sync::{Arc, Wait};
use std::thread::{self, Threads};
use std::time::{Clock, Duration};
use tatp_actions::{CELLS, RowReply};
use tatp_rows::Refusal;

/// How many engines there are over one register, one after another.
const ENGINES: u64 = 1_000;

#[test]
fn thousand_jobs_are_numbered(rt: HostRuntime) {
    let s_ids = [1; 1_000];
    let gate = open_gate(&rt, rt.alloc());
    let register = filled(&rt, rt.alloc(), 1, &[1]);
    let mut engine = engine_over(&rt, rt.alloc(), register, &gate);
    let replies = read_all(&rt, &mut engine, &s_ids);
    let late = closed(&rt, engine);
    let found = (are_rows(&rt, &replies, &s_ids), late.len());
    assert_eq!(rt; found, (true, 0));
}

/// How many events are pending once two parts have three hundred jobs each, and the replies that come as the engine is
/// closed then.
fn closed_at_work<R: Threads + Wait + Copy + Send + Sync + 'static>(
    rt: &R,
    mut engine: Engine<Open>,
    s_ids: &[u64],
) -> (usize, Vec<(u64, Reply)>) {
    for s_id in s_ids {
        let _number = submit(rt, &mut engine, read(*s_id));
    }
    let pending = engine.pending();
    (pending, closed(rt, engine))
}

#[test]
fn closed_with_jobs_out(rt: HostRuntime) {
    let mut s_ids = [1; 600];
    for s_id in s_ids.iter_mut().step_by(2) {
        *s_id = 100;
    }
    let gate = open_gate(&rt, rt.alloc());
    let register = filled(&rt, rt.alloc(), 2, &[1, 100]);
    let engine = engine_over(&rt, rt.alloc(), register, &gate);
    let (pending, replies) = closed_at_work(&rt, engine, &s_ids);
    let found = (pending, are_rows(&rt, &replies, &s_ids));
    assert_eq!(rt; found, (600, true));
}

/// The location and the number that are given in a turn: others than in the one before.
fn given_in(turn: u64) -> (u64, u64) {
    if turn % 2 == 0 {
        (1, 5)
    } else {
        (268_435_456, 90)
    }
}

/// Whether an engine of three parts, with subscribers 1, 50 and 90, reads the first of them, moves the second, posts
/// that, gives the third another number and settles.
fn changes_all<R: Threads + Wait + Abort + Copy + Send + Sync + 'static>(
    rt: &R,
    engine: &mut Engine<Open>,
    turn: u64,
) -> bool {
    let (vlr_location, value) = given_in(turn);
    let (fifty, given) = (number(rt, 50), number(rt, value));
    let events = [
        read(1),
        Event::UpdateLocation {
            sub_nbr: fifty,
            vlr_location,
        },
        Event::Post {
            part: 1,
            limit: u64::from(CELLS),
        },
        Event::SetNumber {
            s_id: 90,
            sub_nbr: given,
        },
    ];
    for event in &events {
        let _number = submit(rt, engine, *event);
    }
    let wanted = [row_reply(rt, 1), DONE, Reply::Posted(2), DONE];
    are_replies(&engine.settle(rt), &wanted)
}

/// Whether an engine is closed while it reads all three, with the rows as they were changed.
fn ends_with_rows<R: Threads + Wait + Abort + Copy + Send + Sync + 'static>(
    rt: &R,
    mut engine: Engine<Open>,
    turn: u64,
) -> (Register, bool) {
    for s_id in [1, 50, 90] {
        let _number = submit(rt, &mut engine, read(s_id));
    }
    let (register, replies) = engine.close(rt);
    let (vlr_location, value) = given_in(turn);
    let wanted = [
        row_reply(rt, 1),
        Reply::Rows(RowReply::Row(row(rt, 50, 50, vlr_location))),
        Reply::Rows(RowReply::Row(row(rt, 90, value, 268_435_456))),
    ];
    (register, are_replies(&replies, &wanted))
}

/// How many engines of three parts over one register, one after another, do all that.
fn right_in_turn<R: Threads + Wait + Abort + Copy + Send + Sync + 'static>(
    rt: &R,
    alloc: Global,
    engines: u64,
) -> u64 {
    let gate = open_gate(rt, alloc);
    let mut register = filled(rt, alloc, 3, &[1, 50, 90]);
    let mut right = 0u64;
    for turn in 0..engines {
        let mut engine = engine_over(rt, alloc, register, &gate);
        let are_changed = changes_all(rt, &mut engine, turn);
        let (handed_on, are_read) = ends_with_rows(rt, engine, turn);
        register = handed_on;
        right = right.wrapping_add(u64::from(are_changed && are_read));
    }
    drop(register);
    right
}

#[test]
fn one_engine(rt: HostRuntime) {
    assert_eq!(rt; right_in_turn(&rt, rt.alloc(), 1), 1);
}

#[test]
fn engines_one_after_another(rt: HostRuntime) {
    assert_eq!(rt; right_in_turn(&rt, rt.alloc(), ENGINES), ENGINES);
}

/// Whether an engine takes a read; where a growth was refused, or the start of a thread, whether no more is pending
/// then, and the engine takes it at the second try.
fn is_taken<R: Threads + Wait + Copy + Send + Sync + 'static>(
    rt: &R,
    engine: &mut Engine<Open>,
    s_id: u64,
) -> bool {
    let pending = engine.pending();
    let why = match submit(rt, engine, read(s_id)) {
        Ok(number) => return number == pending as u64,
        Err(why) => why,
    };
    (why == Refusal::Memory || why == Refusal::Thread)
        && engine.pending() == pending
        && submit(rt, engine, read(s_id)) == Ok(pending as u64)
}

/// Whether an engine takes a read of each subscriber, as above.
pub fn are_taken<R: Threads + Wait + Copy + Send + Sync + 'static>(
    rt: &R,
    engine: &mut Engine<Open>,
    s_ids: &[u64],
) -> bool {
    let mut are_taken = true;
    for s_id in s_ids {
        are_taken = is_taken(rt, engine, *s_id) && are_taken;
    }
    are_taken
}

#[test]
fn taken_again_each_refused(rt: HostRuntime) {
    let s_ids = [1, 100, 1, 100];
    let gate = open_gate(&rt, rt.alloc());
    let register = filled(&rt, rt.alloc(), 2, &[1, 100]);
    let mut engine = engine_over(&rt, rt.alloc(), register, &gate);
    let are_taken = are_taken(&rt, &mut engine, &s_ids);
    let replies = closed(&rt, engine);
    assert_eq!(rt; (are_taken, are_rows(&rt, &replies, &s_ids)), (true, true));
}

/// How many of so many sights have what the first of two parts posted, while both read.
fn sights_with_posting<R: Threads + Wait + Copy + Send + Sync + 'static>(
    rt: &R,
    engine: &mut Engine<Open>,
    sights: u64,
) -> u64 {
    let _posted = submit(
        rt,
        engine,
        Event::Post {
            part: 0,
            limit: u64::from(CELLS),
        },
    );
    let _replies = read_all(rt, engine, &[100]);
    for s_id in [7, 100] {
        let _number = submit(rt, engine, read(s_id));
    }
    let mut right = 0u64;
    for _ in 0..sights {
        right = right.wrapping_add(u64::from(has_posting(engine)));
    }
    right
}

/// Asserts that so many sights of an engine have what was posted.
fn expect_sights<R: Threads + Wait + Abort + Copy + Send + Sync + 'static>(
    rt: &R,
    alloc: Global,
    sights: u64,
) {
    let gate = open_gate(rt, alloc);
    let register = filled(rt, alloc, 2, &[7, 100]);
    let mut engine = engine_over(rt, alloc, register, &gate);
    let right = sights_with_posting(rt, &mut engine, sights);
    let replies = closed(rt, engine);
    assert_eq!(rt; (right, replies.len()), (sights, 2));
}

#[test]
fn one_sight(rt: HostRuntime) {
    expect_sights(&rt, rt.alloc(), 1);
}

#[test]
fn thousand_sights(rt: HostRuntime) {
    expect_sights(&rt, rt.alloc(), 1_000);
}

/// The replies to three reads, each of which is submitted, and pushed by a sight, 20 ms after the one before, when its
/// worker sleeps.
fn reads_apart<R: Threads + Wait + Clock + Copy + Send + Sync + 'static>(
    rt: &R,
    mut engine: Engine<Open>,
) -> Vec<(u64, Reply)> {
    for _ in 0..3u32 {
        let _number = submit(rt, &mut engine, read(7));
        let _sight = engine.sight();
        thread::sleep(rt, Duration::from_millis(20));
    }
    closed(rt, engine)
}

#[test]
fn sleeping_worker_is_woken(rt: HostRuntime) {
    let gate = open_gate(&rt, rt.alloc());
    let register = filled(&rt, rt.alloc(), 1, &[7]);
    let engine = engine_over(&rt, rt.alloc(), register, &gate);
    let replies = reads_apart(&rt, engine);
    assert!(rt; are_rows(&rt, &replies, &[7; 3]));
}

/// How many reads are submitted one after another, each once the one before is done.
const SPACED: u64 = 2_000;

/// The replies to reads of subscriber 7, each of which is submitted, and pushed by a sight, once the one before is
/// done, and up to a millisecond after it: about when its worker, which finds nothing, goes to sleep.
fn reads_spaced<R: Threads + Wait + Clock + Copy + Send + Sync + 'static>(
    rt: &R,
    engine: &mut Engine<Tally>,
    gate: &Tally,
) -> Vec<(u64, Reply)> {
    for turn in 0..SPACED {
        let _number = submit(rt, engine, read(7));
        let _sight = engine.sight();
        gate.wait_for(turn + 1);
        thread::sleep(rt, Duration::from_micros(turn % 1_000));
    }
    engine.settle(rt)
}

// The gate gives up on a read whose push did not wake the worker.
#[test]
fn worker_that_falls_asleep_is_woken(rt: HostRuntime) {
    let gate = Arc::new(rt.alloc(), Tally::new()).expect(&rt, "a gate");
    let register = filled(&rt, rt.alloc(), 1, &[7]);
    let mut engine = engine_over(&rt, rt.alloc(), register, &gate);
    let replies = reads_spaced(&rt, &mut engine, &gate);
    let (register, _none) = engine.close(&rt);
    drop(register);
    let found = (
        are_rows(&rt, &replies, &[7; SPACED as usize]),
        gate.gave_up(),
    );
    assert_eq!(rt; found, (true, false));
}
