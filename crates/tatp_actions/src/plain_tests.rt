//! The trees against the plain program, on the same drawn actions.
pub(crate) mod draws;
pub(crate) mod patterns;
pub(crate) mod tally;

use crate::plain::PlainRows;
use crate::tests::act;
use crate::{Action, Change, Part, RowReply, Rows};
use draws::{after, draw};
use std::process::Abort;
use tally::Tally;
use tatp_rows::{Access, Facility, Forwarding, Refusal};

/// What an action answers and notes, and how often it asks the rows; none where a growth was refused, which moves no
/// cell.
fn attempted<R: Rows>(
    rt: &impl Abort,
    part: &mut Part<R>,
    action: &Action,
) -> Option<(RowReply, Change, u64)> {
    let done = act(rt, part, action);
    if done.0 == RowReply::Refused(Refusal::Memory) {
        assert!(rt; done.1.notes().is_empty());
        return None;
    }
    Some(done)
}

/// The same at the second try, where a growth was refused.
fn act_at_last<R: Rows>(
    rt: &impl Abort,
    part: &mut Part<R>,
    action: &Action,
) -> (RowReply, Change, u64) {
    match attempted(rt, part, action) {
        Some(done) => done,
        None => act(rt, part, action),
    }
}

/// The same of the trees, which then hold the rows of the plain part in between.
fn act_on_trees(
    rt: &impl Abort,
    part: &mut Part,
    plain: &mut Part<PlainRows>,
    action: &Action,
) -> (RowReply, Change, u64) {
    match attempted(rt, part, action) {
        Some(done) => done,
        None => {
            expect_same_book(rt, part, plain);
            act(rt, part, action)
        }
    }
}

/// Asserts that two parts answer and note alike, that trees ask no more often, and that both hold the same rows of the
/// subscriber then.
pub(crate) fn expect_turn(
    rt: &impl Abort,
    part: &mut Part,
    plain: &mut Part<PlainRows>,
    tally: &mut Tally,
    action: &Action,
) {
    let (reply, change, asked) = act_on_trees(rt, part, plain, action);
    let (plain_reply, plain_change, plain_asked) = act_at_last(rt, plain, action);
    assert_eq!(rt;
        (
            action,
            &reply,
            change.notes().as_slice(),
            asked <= plain_asked
        ),
        (action, &plain_reply, plain_change.notes().as_slice(), true)
    );
    expect_same_rows(rt, part, plain, action.s_id());
    tally.note_patterns(part, action.s_id());
    tally.note(rt, action, &reply, change.notes().as_slice());
}

/// Asserts the same of so many actions that are drawn from a seed on, and answers the last one's seed.
pub(crate) fn expect_turns(
    rt: &impl Abort,
    part: &mut Part,
    plain: &mut Part<PlainRows>,
    tally: &mut Tally,
    first: u64,
    turns: u32,
) -> u64 {
    let mut seed = first;
    for _ in 0..turns {
        seed = after(seed);
        expect_turn(rt, part, plain, tally, &draw(rt, seed));
    }
    seed
}

/// The rows of a part in the other three tables that a subscriber has by this type.
fn rows_of<R: Rows>(
    part: &mut Part<R>,
    s_id: u32,
    kind: u8,
) -> (Option<Access>, Option<Facility>, [Option<Forwarding>; 3]) {
    let access = part.access(s_id, kind);
    let facility = part.facility(s_id, kind);
    let forwardings = [
        part.forwarding(s_id, kind, 0),
        part.forwarding(s_id, kind, 8),
        part.forwarding(s_id, kind, 16),
    ];
    (access, facility, forwardings)
}

/// Asserts that two parts hold the same rows of a subscriber.
pub(crate) fn expect_same_rows(
    rt: &impl Abort,
    part: &mut Part,
    plain: &mut Part<PlainRows>,
    s_id: u32,
) {
    let mut same = part.subscriber(s_id) == plain.subscriber(s_id);
    for kind in 1..5u8 {
        same &= rows_of(part, s_id, kind) == rows_of(plain, s_id, kind);
    }
    assert!(rt; same, "of {s_id}");
}

/// Asserts that two parts hold the same rows of all subscribers.
pub(crate) fn expect_same_book(rt: &impl Abort, part: &mut Part, plain: &mut Part<PlainRows>) {
    for s_id in 1..41u32 {
        expect_same_rows(rt, part, plain, s_id);
    }
}

/// Asserts that two parts do alike in 20,000 actions, among them each kind of reply, and that the cells move as they
/// count. Each pattern of places is the one of some subscriber or facility at some time.
fn expect_alike(rt: &impl Abort, part: &mut Part, plain: &mut Part<PlainRows>) {
    let mut seed = 7u64;
    let mut tally = Tally::new();
    for _ in 0..20u8 {
        seed = expect_turns(rt, part, plain, &mut tally, seed, 1_000);
        expect_same_book(rt, part, plain);
        tally.expect_sums(rt, part);
    }
    assert!(rt; tally.has_all_patterns());
    tally.expect_all_kinds(rt, 20_000);
}

// Also run with each allocation refused in turn (`refuse_memory.sh`).
#[test]
fn same_actions_each_refused(rt: HostRuntime) {
    let mut part = Part::new(rt.alloc(), 1, 41, 1).expect(&rt, "a part");
    let mut plain = Part::over(rt.alloc(), PlainRows::new(rt.alloc(), 480), 1, 41, 1);
    expect_alike(&rt, &mut part, &mut plain);
    drop(part);
    drop(plain);
}
