//! The calls that lend rows and change them, beside the events that ask for the same.
use crate::plain::Plain;
use crate::plain_tests::Draws;
use crate::tests::{ask, opened, recounted, unposted};
use arrayvec::ArrayVec;
use hlr_core::{Event, Register, Reply};
use std::alloc::Global;
use std::process::Abort;
use std::test::Fail;
use tatp_actions::RowReply;
use tatp_rows::{Access, Number, Refusal, Subscriber};

/// Whether a Subscriber row that was lent, or a refusal, is what a reply says.
fn is_row(lent: Result<&Subscriber, Refusal>, reply: &Reply) -> bool {
    match (lent, reply) {
        (Ok(row), Reply::Rows(RowReply::Row(want))) => *row == *want,
        (Err(why), Reply::Refused(want)) => why == *want,
        _ => false,
    }
}

/// Whether an Access_Info row that was found, or a refusal, is what a reply says.
fn is_access(found: Result<Access, Refusal>, reply: &Reply) -> bool {
    match (found, reply) {
        (
            Ok(row),
            Reply::Rows(
                RowReply::AccessRow {
                    data1,
                    data2,
                    data3,
                    data4,
                },
            ),
        ) => {
            (row.data1(), row.data2()) == (*data1, *data2)
                && (row.data3(), row.data4()) == (*data3, *data4)
        }
        (Err(why), Reply::Refused(want)) => why == *want,
        _ => false,
    }
}

/// Whether numbers that were found, or a refusal, are what a reply says.
fn are_numbers(found: &Result<ArrayVec<Number, 3>, Refusal>, reply: &Reply) -> bool {
    match (found, reply) {
        (Ok(numbers), Reply::Rows(RowReply::Numbers(want))) => {
            numbers.as_slice() == want.as_slice()
        }
        (Err(why), Reply::Refused(want)) => *why == *want,
        _ => false,
    }
}

/// Whether what became of a change is what a reply says.
fn is_done(done: Result<(), Refusal>, reply: &Reply) -> bool {
    match (done, reply) {
        (Ok(()), Reply::Rows(RowReply::Done)) => true,
        (Err(why), Reply::Refused(want)) => why == *want,
        _ => false,
    }
}

/// Whether the call that changes what an event asks for answers what a reply says. None for an event that changes no
/// row.
fn changes_so(register: &mut Register, event: &Event, reply: &Reply) -> Option<bool> {
    if !register.all_at_home() {
        return Some(false);
    }
    let done = match *event {
        Event::UpdateSubscriber {
            s_id,
            sf_type,
            bit_1,
            data_a,
        } => register.update_subscriber(s_id, sf_type, bit_1, data_a),
        Event::UpdateLocation {
            sub_nbr,
            vlr_location,
        } => register.update_location(sub_nbr, vlr_location),
        Event::InsertForwarding {
            sub_nbr,
            sf_type,
            start_time,
            end_time,
            numberx,
        } => register.insert_forwarding(sub_nbr, sf_type, start_time, end_time, numberx),
        Event::DeleteForwarding {
            sub_nbr,
            sf_type,
            start_time,
        } => register.delete_forwarding(sub_nbr, sf_type, start_time),
        Event::AddSubscriber(row) => register.add_subscriber(row),
        Event::AddAccess(row) => register.add_access(row),
        Event::AddFacility(row) => register.add_facility(row),
        Event::SetActive {
            s_id,
            sf_type,
            is_active,
        } => register.set_active(s_id, sf_type, is_active),
        Event::SetNumber { s_id, sub_nbr } => register.set_number(s_id, sub_nbr),
        _ => return None,
    };
    Some(is_done(done, reply))
}

/// Whether the call for an event answers what a reply says. An event that is not on rows has none, and is applied.
pub fn answers_so(register: &mut Register, event: &Event, reply: &Reply) -> bool {
    if !register.all_at_home() {
        return false;
    }
    match *event {
        Event::SubscriberData { s_id } => is_row(register.lend_subscriber(s_id), reply),
        Event::AccessData { s_id, ai_type } => {
            is_access(register.lend_access(s_id, ai_type), reply)
        }
        Event::NewDestination {
            s_id,
            sf_type,
            start_time,
            end_time,
        } => are_numbers(
            &register.destinations(s_id, sf_type, start_time, end_time),
            reply,
        ),
        _ => match changes_so(register, event, reply) {
            Some(is_so) => is_so,
            None => ask(register, *event) == *reply,
        },
    }
}

/// The subscriber whom an event on rows names, or who has the number that it names; else 0.
fn subject(register: &Register, event: &Event) -> u64 {
    match *event {
        Event::SubscriberData { s_id } => s_id,
        Event::NewDestination { s_id, .. } => s_id,
        Event::AccessData { s_id, .. } => s_id,
        Event::UpdateSubscriber { s_id, .. } => s_id,
        Event::SetActive { s_id, .. } => s_id,
        Event::SetNumber { s_id, .. } => s_id,
        Event::AddSubscriber(row) => u64::from(row.s_id()),
        Event::AddAccess(row) => u64::from(row.s_id()),
        Event::AddFacility(row) => u64::from(row.s_id()),
        Event::UpdateLocation { sub_nbr, .. } => bearer(register, sub_nbr),
        Event::InsertForwarding { sub_nbr, .. } => bearer(register, sub_nbr),
        Event::DeleteForwarding { sub_nbr, .. } => bearer(register, sub_nbr),
        _ => 0,
    }
}

/// Who has a number, or 0.
fn bearer(register: &Register, sub_nbr: Number) -> u64 {
    u64::from(register.index().find(sub_nbr).unwrap_or(0))
}

/// A register that events are applied to, and one that is called.
#[derive(Drop)]
struct Pair {
    applied: Register,
    called: Register,
}

impl Pair {
    /// Whether both answer an event alike.
    fn answers(&mut self, event: &Event) -> bool {
        let reply = ask(&mut self.applied, *event);
        answers_so(&mut self.called, event, &reply)
    }

    /// Whether both read the same of a subscriber's access of a type, and of where a facility of that type forwards to.
    fn reads_kind(&mut self, s_id: u64, kind: u64) -> bool {
        let mut is_same = self.answers(&Event::AccessData {
            s_id,
            ai_type: kind,
        });
        for start_time in [0, 8, 16] {
            let asked = Event::NewDestination {
                s_id,
                sf_type: kind,
                start_time,
                end_time: 1,
            };
            is_same = is_same && self.answers(&asked);
        }
        is_same
    }

    /// Whether both read the same of a subscriber.
    fn reads(&mut self, s_id: u64) -> bool {
        let mut is_same = self.answers(&Event::SubscriberData { s_id });
        for kind in 1..=4 {
            is_same = is_same && self.reads_kind(s_id, kind);
        }
        is_same
    }

    /// Whether both read the same of all subscribers, count the same, and have the same pending.
    fn reads_all(&mut self, stride: u64) -> bool {
        let mut is_same = recounted(&self.applied) == recounted(&self.called)
            && unposted(&self.applied) == unposted(&self.called);
        for place in 0..40u64 {
            is_same = is_same && self.reads(place.wrapping_mul(stride).wrapping_add(1));
        }
        is_same
    }

    /// The first of so many drawn events that isn't answered alike and as the plain register does, or after which the
    /// two don't read the same of its subscriber, or now and then of all, if there is one.
    fn difference(
        &mut self,
        plain: &mut Plain,
        draws: &mut Draws,
        stride: u64,
        steps: u32,
    ) -> Result<Option<u32>, Refusal> {
        for step in 0..steps {
            let event = draws.event(plain)?;
            let want = plain.apply(event);
            let reply = ask(&mut self.applied, event);
            if reply != want || !answers_so(&mut self.called, &event, &want) {
                return Ok(Some(step));
            }
            let s_id = subject(&self.called, &event);
            if !self.reads(s_id) || (step % 512 == 511 && !self.reads_all(stride)) {
                return Ok(Some(step));
            }
        }
        Ok(None)
    }
}

/// The first such event on empty registers of so many parts and this width, if there is one.
fn difference_at(
    rt: &impl Abort,
    alloc: Global,
    parts: u8,
    width: u32,
    stride: u64,
) -> Result<Option<u32>, Refusal> {
    let mut plain = Plain::new(parts, width, stride);
    let mut draws = Draws::new(stride.wrapping_add(88_172_645_463_325_252), stride);
    let mut pair = Pair {
        applied: opened(alloc, parts, width).expect(rt, "a register"),
        called: opened(alloc, parts, width).expect(rt, "a register"),
    };
    let differs = pair.difference(&mut plain, &mut draws, stride, 4_096);
    drop(pair);
    differs
}

#[test]
fn calls_answer_as_events(rt: HostRuntime) {
    let alloc = rt.alloc();
    let differences = [
        difference_at(&rt, alloc, 3, 8, 7),
        difference_at(&rt, alloc, 1, 524_288, 419_430),
    ];
    assert_eq!(rt; differences, [Ok(None); 2]);
}

/// Whether the rows of 16 subscribers are copied at once, from one on: their own, and those of an access and of a call
/// of each.
fn copies_at_once(register: &Register, first: u32) -> [bool; 3] {
    if !register.all_at_home() {
        return [false; 3];
    }
    let (mut s_ids, mut accesses, mut calls) = ([0; 16], [(0, 1); 16], [(0, 1, 8, 9); 16]);
    for place in 0..16 {
        let s_id = u64::from(first) + place as u64;
        s_ids[place] = s_id;
        accesses[place] = (s_id, 1);
        calls[place] = (s_id, 1, 8, 9);
    }
    let (mut rows, mut data, mut numbers) = (ArrayVec::new(), ArrayVec::new(), ArrayVec::new());
    [
        register.copy_subscribers(&s_ids, &mut rows),
        register.copy_access(&accesses, &mut data),
        register.copy_destinations(&calls, &mut numbers),
    ]
}

#[test]
fn rows_of_one_part_are_copied_at_once(rt: HostRuntime) {
    let register = opened(rt.alloc(), 2, 4).expect(&rt, "a register");
    let (inside, across) = (copies_at_once(&register, 49), copies_at_once(&register, 57));
    drop(register);
    assert_eq!(rt; (inside, across), ([true; 3], [false; 3]));
}
