//! What workers do at once, and which go on while the others come home: seen by gates.
use crate::engines::{
    DONE, are_replies, are_rows, closed, engine_over, filled, has_posting, number, plain_row, read,
    read_all, row, row_reply, submit,
};
use crate::gates::{Doors, Full, Hold, Meeting, PAUSE, Second, Turns};
use hlr_core::{Event, Reply};
use hlr_workers::{Engine, Gate};
use part_table::{END, Side};
use std::alloc::Global;
use std::process::Abort;
use std::sync::{Arc, Wait};
use std::thread::Threads;
use tatp_actions::{CELLS, RowReply};
use tatp_rows::Refusal;

/// Asserts that the workers of these subscribers, one of each part, wait for each other before they read, and that each
/// reads its own.
fn expect_meeting<R: Threads + Wait + Abort + Copy + Send + Sync + 'static>(
    rt: &R,
    alloc: Global,
    parts: u8,
    s_ids: &[u64],
) {
    let gate = Arc::new(alloc, Meeting::of(parts)).expect(rt, "a gate");
    let mut engine = engine_over(rt, alloc, filled(rt, alloc, parts, s_ids), &gate);
    let replies = read_all(rt, &mut engine, s_ids);
    let (register, late) = engine.close(rt);
    drop(register);
    let found = (are_rows(rt, &replies, s_ids), late.len(), gate.gave_up());
    assert_eq!(rt; found, (true, 0, false));
}

#[test]
fn two_work_at_once(rt: HostRuntime) {
    expect_meeting(&rt, rt.alloc(), 2, &[1, 100]);
}

#[test]
fn sixteen_work_at_once(rt: HostRuntime) {
    let s_ids = [
        1, 9, 17, 25, 33, 41, 49, 57, 65, 73, 81, 89, 97, 105, 113, 121,
    ];
    expect_meeting(&rt, rt.alloc(), 16, &s_ids);
}

/// What a re-cut of three parts answers that moves the bound between the last two, while the worker of the first is
/// held up; and the replies to reads that were taken before it.
fn recut_beside<R: Threads + Wait + Copy + Send + Sync + 'static>(
    rt: &R,
    engine: &mut Engine<Hold>,
    gate: &Hold,
    s_ids: &[u64],
) -> (Result<u8, Refusal>, Vec<(u64, Reply)>) {
    for s_id in s_ids {
        let _number = submit(rt, engine, read(*s_id));
    }
    let moved = engine.recut_to(rt, &[41, 90]);
    gate.let_go();
    (moved, engine.settle(rt))
}

#[test]
fn recut_leaves_others_at_work(rt: HostRuntime) {
    let s_ids = [1, 50, 90];
    let gate = Arc::new(rt.alloc(), Hold::of(0)).expect(&rt, "a gate");
    let register = filled(&rt, rt.alloc(), 3, &s_ids);
    let mut engine = engine_over(&rt, rt.alloc(), register, &gate);
    let (moved, replies) = recut_beside(&rt, &mut engine, &gate, &s_ids);
    let (register, _none) = engine.close(&rt);
    drop(register);
    let found = (moved, are_rows(&rt, &replies, &s_ids), gate.gave_up());
    assert_eq!(rt; found, (Ok(1), true, false));
}

/// The replies to events that are taken while the worker of a part is held up, and settled once it is let go.
fn done_beside<R: Threads + Wait + Copy + Send + Sync + 'static>(
    rt: &R,
    engine: &mut Engine<Hold>,
    gate: &Hold,
    events: &[Event],
) -> Vec<(u64, Reply)> {
    for event in events {
        let _number = submit(rt, engine, *event);
    }
    gate.let_go();
    engine.settle(rt)
}

// The worker is held up at the first read, and 256 more fill its queue, in messages of 16. Another 16 could be held.
#[test]
fn reads_wait_in_the_queue(rt: HostRuntime) {
    let gate = Arc::new(rt.alloc(), Hold::of(0)).expect(&rt, "a gate");
    let register = filled(&rt, rt.alloc(), 1, &[1]);
    let mut engine = engine_over(&rt, rt.alloc(), register, &gate);
    let replies = done_beside(&rt, &mut engine, &gate, &[read(1); 257]);
    let (register, _none) = engine.close(&rt);
    drop(register);
    let found = (are_rows(&rt, &replies, &[1; 257]), gate.gave_up());
    assert_eq!(rt; found, (true, false));
}

/// Submits so many reads of subscriber 1.
fn submit_reads<R: Threads + Wait + Copy + Send + Sync + 'static>(
    rt: &R,
    engine: &mut Engine<Full>,
    count: u32,
) {
    for _ in 0..count {
        let _number = submit(rt, engine, read(1));
    }
}

/// Fills the queue of the worker, which is held up at its first read, with 16 messages of so many reads, and has 16
/// more reads held. Then one more read is submitted: whether that waited until the worker went on, and the replies to
/// all.
fn wait_for_place<R: Threads + Wait + Copy + Send + Sync + 'static>(
    rt: &R,
    engine: &mut Engine<Full>,
    gate: &Full,
    reads: u32,
) -> (bool, Vec<(u64, Reply)>) {
    submit_reads(rt, engine, 1);
    gate.meet();
    for _ in 0..16u32 {
        submit_reads(rt, engine, reads);
        let _sight = engine.sight();
    }
    submit_reads(rt, engine, 16);
    gate.begin_wait();
    submit_reads(rt, engine, 1);
    let has_waited = gate.has_left();
    gate.end_wait();
    (has_waited, engine.settle(rt))
}

/// Asserts that a submit waits for a place behind 16 messages of so many reads, and goes on as soon as the worker has
/// taken one of them out, while that one isn't done yet.
fn expect_wait<R: Threads + Wait + Abort + Copy + Send + Sync + 'static>(
    rt: &R,
    alloc: Global,
    reads: u32,
    s_ids: &[u64],
) {
    let gate = Arc::new(alloc, Full::new()).expect(rt, "a gate");
    let mut engine = engine_over(rt, alloc, filled(rt, alloc, 1, &[1]), &gate);
    let (has_waited, replies) = wait_for_place(rt, &mut engine, &gate, reads);
    let (register, _none) = engine.close(rt);
    drop(register);
    let found = (has_waited, are_rows(rt, &replies, s_ids), gate.gave_up());
    assert_eq!(rt; found, (true, true, false));
}

// It is also run with threads that go on late once they have woken another one (`wakes.sh`).
#[test]
fn place_that_was_made_is_told(rt: HostRuntime) {
    expect_wait(&rt, rt.alloc(), 16, &[1; 274]);
}

// A sight pushes what is held, so the messages have 8 jobs each, and half as many jobs fill the queue.
#[test]
fn half_full_messages_fill_the_queue(rt: HostRuntime) {
    expect_wait(&rt, rt.alloc(), 8, &[1; 146]);
}

/// Asserts the replies to reads of parts with a subscriber each, where all workers but the last part's are held up
/// until that one has done its second job and yielded so often.
fn expect_second<R: Threads + Wait + Abort + Copy + Send + Sync + 'static>(
    rt: &R,
    alloc: Global,
    subscribers: &[u64],
    s_ids: &[u64],
    pause: u32,
) {
    let parts = u8::try_from(subscribers.len()).expect(rt, "few parts");
    let gate = Arc::new(alloc, Second::of(parts.saturating_sub(1), pause)).expect(rt, "a gate");
    let mut engine = engine_over(rt, alloc, filled(rt, alloc, parts, subscribers), &gate);
    let replies = read_all(rt, &mut engine, s_ids);
    let (register, _none) = engine.close(rt);
    drop(register);
    let found = (are_rows(rt, &replies, s_ids), gate.gave_up());
    assert_eq!(rt; found, (true, false));
}

// The second job is held while the first part's queue is full: who waits for a place pushes it, and is woken once there
// is one.
#[test]
fn full_queue_holds_up_no_other_part(rt: HostRuntime) {
    let mut s_ids = [1; 303];
    for s_id in s_ids.iter_mut().skip(1).take(2) {
        *s_id = 100;
    }
    expect_second(&rt, rt.alloc(), &[1, 100], &s_ids, PAUSE);
}

// The second job of the last part is held while both others are held up, each with more jobs than its queue takes: it
// goes out before the caller waits for good.
#[test]
fn two_full_queues_hold_up_no_other_part(rt: HostRuntime) {
    let mut s_ids = [50; 549];
    for s_id in s_ids.iter_mut().take(275) {
        *s_id = 1;
    }
    for s_id in s_ids.iter_mut().take(2) {
        *s_id = 90;
    }
    expect_second(&rt, rt.alloc(), &[1, 50, 90], &s_ids, PAUSE);
}

/// A subscriber of each of three parts, and then twice that of the first one.
const TWO_BEHIND: [u64; 5] = [1, 50, 90, 1, 1];

/// An engine of three parts that took a read of each, and then two more of the first one, which are held.
fn holding_two<R: Threads + Wait + Copy + Abort + Send + Sync + 'static>(
    rt: &R,
    alloc: Global,
    gate: &Arc<Second>,
) -> Engine<Second> {
    let register = filled(rt, alloc, 3, &[1, 50, 90]);
    let mut engine = engine_over(rt, alloc, register, gate);
    for s_id in &TWO_BEHIND {
        let _number = submit(rt, &mut engine, read(*s_id));
    }
    engine
}

/// Asserts that an event which calls the last part home, but not the first one, is answered so, while all but the first
/// one are held up until it has done one of the jobs that are held.
fn expect_handed_on<R: Threads + Wait + Abort + Copy + Send + Sync + 'static>(
    rt: &R,
    alloc: Global,
    event: Event,
    wanted: Reply,
) {
    let gate = Arc::new(alloc, Second::of(0, 0)).expect(rt, "a gate");
    let mut engine = holding_two(rt, alloc, &gate);
    let _number = submit(rt, &mut engine, event);
    let mut replies = closed(rt, engine);
    let is_answered = replies.pop() == Some((5, wanted));
    let are_right = are_rows(rt, &replies, &TWO_BEHIND);
    assert_eq!(rt;
        (is_answered, are_right, gate.gave_up()),
        (true, true, false)
    );
}

/// Asserts the same of a re-cut.
fn expect_recut_handed_on<R: Threads + Wait + Abort + Copy + Send + Sync + 'static>(
    rt: &R,
    alloc: Global,
) {
    let gate = Arc::new(alloc, Second::of(0, 0)).expect(rt, "a gate");
    let mut engine = holding_two(rt, alloc, &gate);
    let moved = engine.recut_to(rt, &[41, 90]);
    let replies = closed(rt, engine);
    let are_right = are_rows(rt, &replies, &TWO_BEHIND);
    assert_eq!(rt; (moved, are_right, gate.gave_up()), (Ok(1), true, false));
}

// Jobs that are held are pushed before the first part is waited for that is called home, also those of parts that
// aren't.
#[test]
fn held_jobs_go_out_before_a_join(rt: HostRuntime) {
    expect_second(&rt, rt.alloc(), &[1, 100], &[1, 100, 100], 0);
    expect_recut_handed_on(&rt, rt.alloc());
    let (s_id, sub_nbr) = (90, number(&rt, 5));
    expect_handed_on(&rt, rt.alloc(), Event::SetNumber { s_id, sub_nbr }, DONE);
    let (part, lo, hi) = (3, 95, END);
    let divided = Reply::Divided { part, lo, hi };
    expect_handed_on(&rt, rt.alloc(), Event::Divide { part: 2, at: 95 }, divided);
    let (part, lo, hi) = (1, 41, END);
    let dissolved = Reply::Dissolved { part, lo, hi };
    expect_handed_on(&rt, rt.alloc(), Event::Dissolve { part: 2 }, dissolved);
}

/// A read of each of three parts; then, between reads of the second and the third, what the register does there, and
/// what is known at once.
fn events_beside(rt: &impl Abort) -> [Event; 11] {
    let (five, ninety) = (number(rt, 5), number(rt, 90));
    [
        read(1),
        read(50),
        read(90),
        Event::AddSubscriber(plain_row(rt, 60)),
        Event::SetNumber {
            s_id: 90,
            sub_nbr: five,
        },
        read(60),
        Event::Give {
            part: 1,
            side: Side::High,
            at: 70,
        },
        read(70),
        Event::UpdateLocation {
            sub_nbr: ninety,
            vlr_location: 1,
        },
        Event::Take { piece: 1, part: 2 },
        read(90),
    ]
}

/// The replies to these.
fn replies_beside(rt: &impl Abort) -> [Reply; 11] {
    [
        row_reply(rt, 1),
        row_reply(rt, 50),
        row_reply(rt, 90),
        DONE,
        DONE,
        row_reply(rt, 60),
        Reply::Given {
            piece: 1,
            lo: 70,
            hi: 85,
        },
        Reply::Refused(Refusal::Moving),
        Reply::Refused(Refusal::NoNumber),
        Reply::Taken { piece: 1, part: 2 },
        Reply::Rows(RowReply::Row(row(rt, 90, 5, 268_435_456))),
    ]
}

#[test]
fn register_leaves_others_at_work(rt: HostRuntime) {
    let gate = Arc::new(rt.alloc(), Hold::of(0)).expect(&rt, "a gate");
    let register = filled(&rt, rt.alloc(), 3, &[1, 50, 90]);
    let mut engine = engine_over(&rt, rt.alloc(), register, &gate);
    let replies = done_beside(&rt, &mut engine, &gate, &events_beside(&rt));
    let (register, _none) = engine.close(&rt);
    drop(register);
    let are_right = are_replies(&replies, &replies_beside(&rt));
    assert_eq!(rt; (are_right, gate.gave_up()), (true, false));
}

/// Asserts the replies to events that an engine of three parts, with subscribers 1, 50, 70, 90 and 100, takes while the
/// worker of a part is held up, and that this one is let go before it gives up.
fn expect_beside<R: Threads + Wait + Abort + Copy + Send + Sync + 'static>(
    rt: &R,
    alloc: Global,
    held: u8,
    events: &[Event],
    wanted: &[Reply],
) {
    let gate = Arc::new(alloc, Hold::of(held)).expect(rt, "a gate");
    let register = filled(rt, alloc, 3, &[1, 50, 70, 90, 100]);
    let mut engine = engine_over(rt, alloc, register, &gate);
    let replies = done_beside(rt, &mut engine, &gate, events);
    let (register, _none) = engine.close(rt);
    drop(register);
    let are_right = are_replies(&replies, wanted);
    assert_eq!(rt; (are_right, gate.gave_up()), (true, false));
}

/// The replies where the last of three parts is divided, and the new part is dissolved.
fn last_part_replies(rt: &impl Abort) -> [Reply; 8] {
    [
        row_reply(rt, 1),
        row_reply(rt, 50),
        row_reply(rt, 90),
        Reply::Divided {
            part: 3,
            lo: 95,
            hi: END,
        },
        row_reply(rt, 90),
        row_reply(rt, 100),
        Reply::Dissolved {
            part: 2,
            lo: 85,
            hi: END,
        },
        row_reply(rt, 100),
    ]
}

// The first part is held up, and then the second one.
#[test]
fn last_part_alone_comes_home(rt: HostRuntime) {
    let events = [
        read(1),
        read(50),
        read(90),
        Event::Divide { part: 2, at: 95 },
        read(90),
        read(100),
        Event::Dissolve { part: 3 },
        read(100),
    ];
    let wanted = last_part_replies(&rt);
    expect_beside(&rt, rt.alloc(), 0, &events, &wanted);
    expect_beside(&rt, rt.alloc(), 1, &events, &wanted);
}

/// The replies where the second of three parts is divided, and the new part and then the last one are dissolved.
fn parts_behind_replies(rt: &impl Abort) -> [Reply; 11] {
    [
        row_reply(rt, 1),
        row_reply(rt, 50),
        row_reply(rt, 90),
        Reply::Divided {
            part: 2,
            lo: 60,
            hi: 85,
        },
        row_reply(rt, 70),
        row_reply(rt, 90),
        Reply::Dissolved {
            part: 1,
            lo: 41,
            hi: 85,
        },
        row_reply(rt, 70),
        Reply::Dissolved {
            part: 1,
            lo: 41,
            hi: END,
        },
        Reply::Refused(Refusal::NoPart),
        row_reply(rt, 90),
    ]
}

// The first part is held up, while those behind it come home, whose numbers change.
#[test]
fn part_in_front_goes_on(rt: HostRuntime) {
    let events = [
        read(1),
        read(50),
        read(90),
        Event::Divide { part: 1, at: 60 },
        read(70),
        read(90),
        Event::Dissolve { part: 2 },
        read(70),
        Event::Dissolve { part: 2 },
        Event::Dissolve { part: 2 },
        read(90),
    ];
    expect_beside(&rt, rt.alloc(), 0, &events, &parts_behind_replies(&rt));
}

/// Whether the posting of subscriber 7 is seen in one of a million looks.
fn sees_posting<G: Gate + 'static>(engine: &mut Engine<G>) -> bool {
    for _ in 0..1_000_000u32 {
        if has_posting(engine) {
            return true;
        }
    }
    false
}

/// Whether a posting of the first part is seen behind reads, while the worker of the second one is held up at one of
/// them, and the replies to all.
fn posts_beside<R: Threads + Wait + Copy + Send + Sync + 'static>(
    rt: &R,
    engine: &mut Engine<Hold>,
    gate: &Hold,
    s_ids: &[u64],
) -> (bool, Vec<(u64, Reply)>) {
    for s_id in s_ids {
        let _number = submit(rt, engine, read(*s_id));
    }
    let _posted = submit(rt, engine, Event::Post { part: 0, limit: 51 });
    let is_seen = sees_posting(engine);
    gate.let_go();
    (is_seen, engine.settle(rt))
}

/// Asserts that a posting is seen behind these reads, before any settle, while the second of two parts is held up.
fn expect_posting<R: Threads + Wait + Abort + Copy + Send + Sync + 'static>(
    rt: &R,
    alloc: Global,
    s_ids: &[u64],
) {
    let gate = Arc::new(alloc, Hold::of(1)).expect(rt, "a gate");
    let mut engine = engine_over(rt, alloc, filled(rt, alloc, 2, &[7, 100]), &gate);
    let (is_seen, mut replies) = posts_beside(rt, &mut engine, &gate, s_ids);
    let late = closed(rt, engine);
    let is_posted = replies.pop() == Some((s_ids.len() as u64, Reply::Posted(2)));
    let are_right = are_rows(rt, &replies, s_ids) && late.is_empty();
    let found = (is_seen, is_posted, are_right, gate.gave_up());
    assert_eq!(rt; found, (true, true, true, false));
}

#[test]
fn posting_is_seen_at_once(rt: HostRuntime) {
    expect_posting(&rt, rt.alloc(), &[100]);
}

// All but the first read of the part that posts are held, and the posting behind them.
#[test]
fn posting_behind_held_jobs_is_seen(rt: HostRuntime) {
    expect_posting(&rt, rt.alloc(), &[100, 7, 7, 7, 7, 7, 7, 7, 7]);
}

#[test]
fn gate_is_called_round_each_job(rt: HostRuntime) {
    let mut s_ids = [1; 300];
    for s_id in s_ids.iter_mut().skip(1).step_by(3) {
        *s_id = 50;
    }
    for s_id in s_ids.iter_mut().skip(2).step_by(3) {
        *s_id = 90;
    }
    let gate = Arc::new(rt.alloc(), Turns::new()).expect(&rt, "a gate");
    let register = filled(&rt, rt.alloc(), 3, &[1, 50, 90]);
    let mut engine = engine_over(&rt, rt.alloc(), register, &gate);
    let replies = read_all(&rt, &mut engine, &s_ids);
    let (register, _none) = engine.close(&rt);
    drop(register);
    let found = (are_rows(&rt, &replies, &s_ids), gate.counts());
    assert_eq!(rt; found, (true, ([200; 3], 0)));
}

/// What an engine of two parts replies to reads, between which a part comes in front of the second one, and goes.
fn read_between<R: Threads + Wait + Copy + Send + Sync + 'static>(
    rt: &R,
    engine: &mut Engine<Turns>,
) -> Vec<(u64, Reply)> {
    let events = [
        read(1),
        read(100),
        Event::Divide { part: 0, at: 33 },
        read(40),
        read(100),
        Event::Dissolve { part: 1 },
        read(40),
        read(100),
    ];
    for event in &events {
        let _number = submit(rt, engine, *event);
    }
    engine.settle(rt)
}

// The gate is told the number that the part of a worker has, which is another one once a part has come in front of it.
#[test]
fn gate_is_told_new_numbers(rt: HostRuntime) {
    let gate = Arc::new(rt.alloc(), Turns::new()).expect(&rt, "a gate");
    let register = filled(&rt, rt.alloc(), 2, &[1, 40, 100]);
    let mut engine = engine_over(&rt, rt.alloc(), register, &gate);
    let replies = read_between(&rt, &mut engine);
    let (register, _none) = engine.close(&rt);
    drop(register);
    let (counts, _out_of_turn) = gate.counts();
    assert_eq!(rt; (replies.len(), counts), (8, [4, 6, 2]));
}

/// Whether a posting is seen while its worker stands before it, and while it stands behind it; and the reply to it.
fn posted_between<R: Threads + Wait + Copy + Send + Sync + 'static>(
    rt: &R,
    engine: &mut Engine<Doors>,
    gate: &Doors,
) -> ([bool; 2], Vec<(u64, Reply)>) {
    let _posted = submit(
        rt,
        engine,
        Event::Post {
            part: 0,
            limit: u64::from(CELLS),
        },
    );
    gate.meet(1);
    let is_before = has_posting(engine);
    gate.open(1);
    gate.meet(2);
    let is_behind = has_posting(engine);
    gate.open(2);
    ([is_before, is_behind], engine.settle(rt))
}

#[test]
fn job_is_done_between_both_calls(rt: HostRuntime) {
    let gate = Arc::new(rt.alloc(), Doors::new()).expect(&rt, "a gate");
    let register = filled(&rt, rt.alloc(), 1, &[7]);
    let mut engine = engine_over(&rt, rt.alloc(), register, &gate);
    let (seen, replies) = posted_between(&rt, &mut engine, &gate);
    let (register, _none) = engine.close(&rt);
    drop(register);
    let are_right = are_replies(&replies, &[Reply::Posted(2)]);
    assert_eq!(rt;
        (seen, are_right, gate.gave_up()),
        ([false, true], true, false)
    );
}
