//! What a subscriber asks of a part in the tests, step by step, and what is answered.
use super::makers::{access, facility, five, forwarding, number, subscriber};
use crate::change::NOTES;
use crate::{Action, CELLS, FIRST_AREA, FIRST_ZONE, RowReply};
use Answer::*;
use Ask::*;
use arrayvec::ArrayVec;
use std::process::Abort;
use tatp_rows::{Letters, Refusal};

/// What a subscriber asks: of its facility of type 2, where the step names no type, and of its access of type 4.
pub(super) enum Ask {
    Read,
    AddRow,
    AddAccess,
    AddFacility,
    /// The forwarding from one hour on up to another.
    Insert(u8, u8),
    /// The forwarding from this hour on.
    Delete(u8),
    /// Whether the facility is active.
    Switch(u8),
    /// The hours by which forwardings start, and after which they end.
    Numbers(u8, u8),
    AccessData,
    /// bit_1 becomes 0, and data_a of the facility of this type 255.
    Update(u8),
    /// The location.
    Move(u32),
    /// The number becomes 5.
    Rename,
}

/// What is answered.
pub(super) enum Answer {
    /// Done, with these notes.
    Done(&'static [(u8, i8)]),
    /// Done, with notes of the hours from 0, from 8 and from 16 on, eight each, and of subscriber 7's zone: by so much,
    /// and none where that is 0.
    Hours([i8; 3], i8),
    Refused(Refusal),
    /// The row with this bit_1, number and location.
    Row(u8, u64, u64),
    /// The numbers of all three forwardings.
    All,
    /// The data of the access.
    Data,
}

/// The action that a step is.
pub(super) fn action_of(rt: &impl Abort, s_id: u32, ask: &Ask) -> Action {
    let own = u64::from(s_id);
    let sf_type = 2;
    match *ask {
        Read => Action::SubscriberData { s_id },
        AddRow => Action::AddSubscriber(subscriber(rt, own, 5)),
        AddAccess => Action::AddAccess(access(rt, own, 4)),
        AddFacility => Action::AddFacility(facility(rt, own, 2, 1)),
        Insert(from, to) => {
            let row = forwarding(rt, own, 2, u64::from(from), u64::from(to));
            Action::InsertForwarding(row)
        }
        Delete(start_time) => Action::DeleteForwarding {
            s_id,
            sf_type,
            start_time,
        },
        Switch(is_active) => Action::SetActive {
            s_id,
            sf_type,
            is_active,
        },
        Numbers(start_time, end_time) => Action::NewDestination {
            s_id,
            sf_type,
            start_time,
            end_time,
        },
        AccessData => Action::AccessData { s_id, ai_type: 4 },
        Update(sf_type) => Action::UpdateSubscriber {
            s_id,
            sf_type,
            bit_1: 0,
            data_a: 255,
        },
        Move(vlr_location) => Action::UpdateLocation { s_id, vlr_location },
        Rename => Action::SetNumber {
            s_id,
            sub_nbr: number(rt, 5),
        },
    }
}

/// The cell of the last area, and that of the last zone.
pub(super) const LAST_AREA: u8 = FIRST_ZONE - 1;

pub(super) const LAST_ZONE: u8 = CELLS - 1;

/// The cell of subscriber 7's zone.
const ZONE: u8 = FIRST_ZONE + 1;

/// Notes, one after another.
type Notes = ArrayVec<(u8, i8), NOTES>;

/// One more note, but where it moves nothing.
fn push_note(notes: &mut Notes, cell: u8, amount: i8) {
    if amount != 0 {
        let _ = notes.try_push((cell, amount));
    }
}

/// Notes of the hours from 0, from 8 and from 16 on, eight each, and of subscriber 7's zone.
fn hours(amounts: &[i8; 3], zone: i8) -> Notes {
    let mut notes = ArrayVec::new();
    for hour in 0..FIRST_AREA {
        push_note(&mut notes, hour, amounts[usize::from(hour / 8)]);
    }
    push_note(&mut notes, ZONE, zone);
    notes
}

/// These notes.
fn listed(given: &[(u8, i8)]) -> Notes {
    let mut notes = ArrayVec::new();
    for note in given {
        let _ = notes.try_push(*note);
    }
    notes
}

/// The notes of an answer.
pub(super) fn notes_of(answer: &Answer) -> Notes {
    match answer {
        Done(notes) => listed(notes),
        Hours(amounts, zone) => hours(amounts, *zone),
        _ => ArrayVec::new(),
    }
}

/// The reply that an answer is.
pub(super) fn reply_of(rt: &impl Abort, s_id: u32, answer: &Answer) -> RowReply {
    match *answer {
        Done(_) | Hours(_, _) => RowReply::Done,
        Refused(why) => RowReply::Refused(why),
        Row(bit_1, sub_nbr, vlr_location) => {
            assert!(rt; bit_1 <= 1);
            let row = subscriber(rt, u64::from(s_id), vlr_location);
            let row = row.with_bit_1(bit_1).with_sub_nbr(number(rt, sub_nbr));
            RowReply::Row(row)
        }
        All => {
            let all = ArrayVec::from([number(rt, 8), number(rt, 16), number(rt, 24)]);
            RowReply::Numbers(all)
        }
        Data => {
            RowReply::AccessRow {
                data1: 255,
                data2: 0,
                data3: Letters::from_bytes(b"ABC").expect(rt, "letters"),
                data4: five(rt),
            }
        }
    }
}

/// Of a subscriber that has a row in area 0: from the first area to the last, within it, and nowhere.
pub(super) const MOVES: [(Ask, Answer); 5] = [
    (AddRow, Refused(Refusal::Exists)),
    (
        Move(4_294_967_295),
        Done(&[(FIRST_AREA, -1), (LAST_AREA, 1)]),
    ),
    (Move(4_294_967_294), Done(&[])),
    (Move(0), Refused(Refusal::Field)),
    (Read, Row(1, 1, 4_294_967_294)),
];

/// Of a subscriber for whose row there is no room.
pub(super) const FULL: [(Ask, Answer); 2] = [
    (AddRow, Refused(Refusal::Memory)),
    (Read, Refused(Refusal::NoSubscriber)),
];

/// Subscriber 7's row, its facility and the three forwardings, each where what it needs is there, and each once.
pub(super) const ROWS: [(Ask, Answer); 10] = [
    (Read, Refused(Refusal::NoSubscriber)),
    (AddFacility, Refused(Refusal::NoSubscriber)),
    (AddRow, Done(&[(FIRST_AREA, 1), (ZONE, 1)])),
    (Insert(8, 16), Refused(Refusal::NoFacility)),
    (AddFacility, Done(&[(ZONE, 1)])),
    (AddFacility, Refused(Refusal::Exists)),
    (Insert(16, 24), Hours([0, 0, 1], 1)),
    (Insert(0, 8), Hours([1, 0, 0], 1)),
    (Insert(8, 16), Hours([0, 1, 0], 1)),
    (Insert(8, 16), Refused(Refusal::Exists)),
];

/// Then the facility is switched off and on, an access comes and a forwarding goes, the subscriber and its facility are
/// set both or neither, and it is given another number.
pub(super) const ANSWERS: [(Ask, Answer); 18] = [
    (Switch(0), Hours([-1, -1, -1], 0)),
    (Switch(0), Done(&[])),
    (Numbers(16, 1), Refused(Refusal::NoDestination)),
    (Switch(1), Hours([1, 1, 1], 0)),
    (Switch(2), Refused(Refusal::Field)),
    (Numbers(16, 1), All),
    (Numbers(0, 8), Refused(Refusal::NoDestination)),
    (AccessData, Refused(Refusal::NoAccess)),
    (AddAccess, Done(&[(ZONE, 1)])),
    (AccessData, Data),
    (Delete(16), Hours([0, 0, -1], -1)),
    (Delete(16), Refused(Refusal::NoForwarding)),
    (Update(3), Refused(Refusal::NoFacility)),
    (Read, Row(1, 7, 5)),
    (Update(2), Done(&[])),
    (Read, Row(0, 7, 5)),
    (Rename, Done(&[])),
    (Read, Row(0, 5, 5)),
];

/// Of subscriber 7, which has none of these rows: forwardings that cover the same hours, two that cover none, and one
/// that comes and goes while the facility is idle.
pub(super) const HOURS: [(Ask, Answer); 21] = [
    (AddRow, Done(&[(FIRST_AREA, 1), (ZONE, 1)])),
    (AddFacility, Done(&[(ZONE, 1)])),
    (Insert(0, 24), Hours([1, 1, 1], 1)),
    (Insert(8, 24), Hours([0, 1, 1], 1)),
    (Insert(16, 24), Hours([0, 0, 1], 1)),
    (Switch(0), Hours([-1, -2, -3], 0)),
    (Switch(1), Hours([1, 2, 3], 0)),
    (Delete(8), Hours([0, -1, -1], -1)),
    (Delete(16), Hours([0, 0, -1], -1)),
    (Insert(16, 3), Done(&[(ZONE, 1)])),
    (Switch(0), Hours([-1, -1, -1], 0)),
    (Switch(1), Hours([1, 1, 1], 0)),
    (Insert(8, 9), Done(&[(8, 1), (ZONE, 1)])),
    (Delete(16), Done(&[(ZONE, -1)])),
    (Delete(0), Hours([-1, -1, -1], -1)),
    (Switch(0), Done(&[(8, -1)])),
    (Delete(8), Done(&[(ZONE, -1)])),
    (Insert(8, 16), Done(&[(ZONE, 1)])),
    (Delete(8), Done(&[(ZONE, -1)])),
    (Switch(1), Done(&[])),
    (Insert(8, 8), Done(&[(ZONE, 1)])),
];
