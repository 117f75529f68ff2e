//! Registers and engines for the tests, and calls of them.
use crate::draws::{SUBSCRIBERS, s_id_at};
use crate::gates::Open;
use hlr_core::{Event, Register, Reply};
use hlr_workers::{Engine, Gate};
use std::alloc::Global;
use std::process::Abort;
use std::sync::{Arc, Wait};
use std::thread::Threads;
use tatp_actions::{FIRST_AREA, FIRST_ZONE, RowReply};
use tatp_rows::{Access, Facility, Number, Refusal, Subscriber};
pub use tests_common::{ask, published, recounted, recut, unposted};

pub const DONE: Reply = Reply::Rows(RowReply::Done);

/// How many events an engine takes between two settles.
pub const ROOM: usize = 4_096;

/// A number that is in range.
pub fn number(rt: &impl Abort, value: u64) -> Number {
    tests_common::number(value).expect(rt, "a number")
}

/// A row of the table Subscriber.
pub fn row(rt: &impl Abort, s_id: u64, number_value: u64, vlr_location: u64) -> Subscriber {
    tests_common::row(s_id, number_value, vlr_location).expect(rt, "a row")
}

/// A row of the table Access_Info.
pub fn access_row(rt: &impl Abort, s_id: u64, ai_type: u64, data1: u8) -> Access {
    tests_common::access_row(s_id, ai_type, data1).expect(rt, "a row")
}

/// A row of the table Special_Facility.
pub fn facility_row(rt: &impl Abort, s_id: u64, sf_type: u64, is_active: u64) -> Facility {
    tests_common::facility_row(s_id, sf_type, is_active).expect(rt, "a row")
}

/// A read of a subscriber's row.
pub fn read(s_id: u64) -> Event {
    Event::SubscriberData { s_id }
}

/// A register of so many parts of width 4; where a growth was refused, at the second try.
pub fn opened(rt: &impl Abort, alloc: Global, parts: u8) -> Register {
    tests_common::opened(alloc, parts, 4).expect(rt, "a register")
}

/// The row of a subscriber whose number is the s_id, and whose location is the same one for all.
pub fn plain_row(rt: &impl Abort, s_id: u64) -> Subscriber {
    row(rt, s_id, s_id, 268_435_456)
}

/// The reply with that row of a subscriber.
pub fn row_reply(rt: &impl Abort, s_id: u64) -> Reply {
    Reply::Rows(RowReply::Row(plain_row(rt, s_id)))
}

/// A register of so many parts of width 4 with these subscribers; each is added again where a growth was refused.
pub fn filled(rt: &impl Abort, alloc: Global, parts: u8, s_ids: &[u64]) -> Register {
    let mut register = opened(rt, alloc, parts);
    for s_id in s_ids {
        let row = plain_row(rt, *s_id);
        if ask(&mut register, Event::AddSubscriber(row)) != DONE {
            let _added = ask(&mut register, Event::AddSubscriber(row));
        }
    }
    register
}

/// Has a register do an event.
fn expect_done(rt: &impl Abort, register: &mut Register, event: Event) {
    if ask(register, event) != DONE {
        panic!(rt; "a row is lacking");
    }
}

/// Adds the subscriber at a place to a register, with an access, and a facility that is active and forwards calls.
fn add_all(rt: &impl Abort, register: &mut Register, place: u64) {
    let s_id = s_id_at(place);
    let sub_nbr = number(rt, place);
    let row = row(rt, s_id, place, s_id.wrapping_mul(30_000_000));
    expect_done(rt, register, Event::AddSubscriber(row));
    expect_done(rt, register, Event::AddAccess(access_row(rt, s_id, 1, 7)));
    expect_done(
        rt,
        register,
        Event::AddFacility(facility_row(rt, s_id, 1, 1)),
    );
    let forwarding = Event::InsertForwarding {
        sub_nbr,
        sf_type: 1,
        start_time: 8,
        end_time: 20,
        numberx: sub_nbr,
    };
    expect_done(rt, register, forwarding);
}

/// A register of so many parts of width 4 with two of each three of the subscribers.
pub fn peopled(rt: &impl Abort, alloc: Global, parts: u8) -> Register {
    let mut register = opened(rt, alloc, parts);
    for place in 0..SUBSCRIBERS {
        if place % 3 != 0 {
            add_all(rt, &mut register, place);
        }
    }
    register
}

/// A gate that is always open; where a growth was refused, at the second try.
pub fn open_gate(rt: &impl Abort, alloc: Global) -> Arc<Open> {
    match Arc::new(alloc, Open) {
        Ok(gate) => gate,
        Err(_) => Arc::new(alloc, Open).expect(rt, "a gate"),
    }
}

/// An engine over a register with all parts at home, and a gate that others share.
pub fn engine_over<G: Gate + 'static>(
    rt: &impl Abort,
    alloc: Global,
    register: Register,
    gate: &Arc<G>,
) -> Engine<G> {
    if !register.all_at_home() {
        panic!(rt; "a part is away");
    }
    let gate = Arc::try_clone(gate).expect(rt, "one more");
    Engine::new(alloc, register, gate)
}

/// Takes an event, if there is room for its reply.
pub fn submit<G: Gate + 'static, R: Threads + Wait + Copy + Send + Sync + 'static>(
    rt: &R,
    engine: &mut Engine<G>,
    event: Event,
) -> Result<u64, Refusal> {
    if engine.pending() >= ROOM {
        return Err(Refusal::Worn);
    }
    engine.submit(rt, event)
}

/// Whether a sight has the posting of subscriber 7 in the words of the first part.
pub fn has_posting<G: Gate + 'static>(engine: &mut Engine<G>) -> bool {
    let words = engine.sight().words;
    let (area, zone) = (usize::from(FIRST_AREA) + 1, usize::from(FIRST_ZONE) + 1);
    words[area] == 1 && words[zone] == 1
}

/// The replies of an engine that is closed; its register is let go.
pub fn closed<G: Gate + 'static, R: Threads + Wait>(
    rt: &R,
    engine: Engine<G>,
) -> Vec<(u64, Reply)> {
    let (register, replies) = engine.close(rt);
    drop(register);
    replies
}

/// The replies to reads of subscribers that are taken one after another, and then settled; none where one isn't taken.
pub fn read_all<G: Gate + 'static, R: Threads + Wait + Copy + Send + Sync + 'static>(
    rt: &R,
    engine: &mut Engine<G>,
    s_ids: &[u64],
) -> Vec<(u64, Reply)> {
    for s_id in s_ids {
        let _number = submit(rt, engine, read(*s_id));
    }
    engine.settle(rt)
}

/// Whether replies are the rows of these subscribers, numbered from 0 on.
pub fn are_rows(rt: &impl Abort, replies: &[(u64, Reply)], s_ids: &[u64]) -> bool {
    let mut are_so = replies.len() == s_ids.len();
    for (place, (one, s_id)) in replies.iter().zip(s_ids).enumerate() {
        are_so = are_so && one.0 == place as u64 && one.1 == row_reply(rt, *s_id);
    }
    are_so
}

/// Whether replies are these, numbered from 0 on.
pub fn are_replies(replies: &[(u64, Reply)], wanted: &[Reply]) -> bool {
    for (place, (one, want)) in replies.iter().zip(wanted).enumerate() {
        if one.0 != place as u64 || one.1 != *want {
            return false;
        }
    }
    replies.len() == wanted.len()
}
