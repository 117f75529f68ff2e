//! The calls beside a register that is asked for the same, on drawn events.
use super::{NO_ACCESS, NO_NUMBERS, NO_REGION, NO_ROW, access, closed, facility, opened, row};
use crate::changes::{
    hlr_add_access, hlr_add_facility, hlr_add_subscriber, hlr_delete_forwarding,
    hlr_insert_forwarding, hlr_set_active, hlr_set_number, hlr_update_location,
    hlr_update_subscriber,
};
use crate::codes::DONE;
use crate::handle::Hlr;
use crate::parts::{hlr_dissolve, hlr_divide, hlr_give, hlr_post, hlr_take};
use crate::reads::{hlr_access_data, hlr_new_destination, hlr_subscriber_data};
use crate::rows::{HlrAccess, HlrFacility, HlrNumbers, HlrRegion, HlrSubscriber};
use hlr_core::{
    Access, Event, Facility, Letters, Number, Refusal, Register, Reply, RowReply, Side, Subscriber,
};
use std::alloc::Global;
use std::test::Fail;
use tests_common::Random;

/// What is asked for, by the numbers that C would hand in.
#[derive(Clone, Copy)]
pub(super) enum Asked {
    Subscriber(u64),
    Access(u64, u64),
    Destination(u64, u64, u64, u64),
    UpdateSubscriber(u64, u64, u64, u64),
    UpdateLocation(u64, u64),
    InsertForwarding(u64, u64, u64, u64, u64),
    DeleteForwarding(u64, u64, u64),
    AddSubscriber(HlrSubscriber),
    AddAccess(HlrAccess),
    AddFacility(HlrFacility),
    SetActive(u64, u64, u64),
    SetNumber(u64, u64),
    Post(u64, u64),
    Give(u64, u64, u64),
    Take(u64, u64),
    Divide(u64, u64),
    Dissolve(u64),
}

/// How many calls are drawn.
const CALLS: usize = 17;

/// Of each call, in the order of `Asked`, the codes that it answers: all that it may but for want of memory, sixteen
/// pieces and a worn word, which aren't drawn.
const ANSWERED: [&[usize]; CALLS] = [
    &[0, 2, 3, 11],
    &[0, 2, 5, 11],
    &[0, 2, 8, 11],
    &[0, 2, 3, 6, 11],
    &[0, 2, 4, 11],
    &[0, 2, 4, 6, 9, 11],
    &[0, 2, 4, 7, 11],
    &[0, 2, 9, 10, 11],
    &[0, 2, 3, 9, 11],
    &[0, 2, 3, 9, 11],
    &[0, 2, 6, 11],
    &[0, 2, 3, 10, 11],
    &[0, 12],
    &[0, 2, 12, 14],
    &[0, 12, 13, 15],
    &[0, 12, 14, 22],
    &[0, 12, 15],
];

/// What a call answers: what it wrote, where it was done, else its code.
#[derive(PartialEq, Debug, Clone, Copy)]
pub(super) enum Answer {
    Code(u8),
    Row(HlrSubscriber),
    Access(HlrAccess),
    Numbers(HlrNumbers),
    Posted(u64),
    Region(HlrRegion),
}

/// Draws of what is asked for.
#[derive(Drop)]
pub(super) struct Draws {
    random: Random,
}

impl Draws {
    pub(super) fn new(seed: u64) -> Draws {
        Draws {
            random: Random::new(seed),
        }
    }

    pub(super) fn next(&mut self) -> u64 {
        self.random.next()
    }

    /// One of 0..count, and now and then what is far above all ranges.
    fn below(&mut self, count: u64) -> u64 {
        let value = self.random.below(count);
        if self.next() % 64 == 0 {
            value.wrapping_add(1 << 60)
        } else {
            value
        }
    }

    /// A subscriber of whom a few are there, now and then 0.
    fn s_id(&mut self) -> u64 {
        self.below(40)
    }

    /// A number of which a few are given.
    fn number(&mut self) -> u64 {
        self.below(48)
    }

    /// An hour at which forwardings start, now and then another.
    fn start(&mut self) -> u64 {
        self.below(3)
            .wrapping_mul(8)
            .wrapping_add(u64::from(self.next() % 32 == 0))
    }

    fn read(&mut self) -> Asked {
        let s_id = self.s_id();
        match self.next() % 4 {
            0 => Asked::Subscriber(s_id),
            1 => Asked::Access(s_id, self.below(5)),
            _ => Asked::Destination(s_id, self.below(5), self.start(), self.below(25)),
        }
    }

    fn addition(&mut self) -> Asked {
        let s_id = self.s_id();
        match self.next() % 5 {
            0 | 1 => Asked::AddSubscriber(row(s_id, self.number(), self.below(4_294_967_296))),
            2 => Asked::AddAccess(access(s_id, self.below(5), self.below(257))),
            _ => Asked::AddFacility(facility(s_id, self.below(5), self.below(3))),
        }
    }

    fn change(&mut self) -> Asked {
        let s_id = self.s_id();
        match self.next() % 6 {
            0 => Asked::UpdateSubscriber(s_id, self.below(5), self.below(3), self.below(257)),
            1 => Asked::UpdateLocation(self.number(), self.below(4_294_967_296)),
            2 => Asked::SetActive(s_id, self.below(5), self.below(3)),
            3 => Asked::SetNumber(s_id, self.number()),
            4 => Asked::DeleteForwarding(self.number(), self.below(5), self.start()),
            _ => Asked::InsertForwarding(
                self.number(),
                self.below(5),
                self.start(),
                self.below(25),
                self.number(),
            ),
        }
    }

    fn moving(&mut self) -> Asked {
        match self.next() % 16 {
            0 | 1 => Asked::Give(self.below(17), self.below(3), self.below(44)),
            2..=6 => Asked::Take(self.below(18), self.below(17)),
            7..=11 => Asked::Divide(self.below(17), self.below(44)),
            12 => Asked::Dissolve(self.below(128)),
            _ => Asked::Post(self.below(17), self.below(80)),
        }
    }

    pub(super) fn asked(&mut self) -> Asked {
        match self.next() % 16 {
            0..=3 => self.read(),
            4..=7 => self.addition(),
            8..=13 => self.change(),
            _ => self.moving(),
        }
    }
}

/// A byte of a field.
fn byte(value: u64) -> Result<u8, Refusal> {
    u8::try_from(value).ok().ok_or(Refusal::Field)
}

fn subscriber_event(row: &HlrSubscriber) -> Result<Event, Refusal> {
    Ok(Event::AddSubscriber(Subscriber::try_new(
        row.s_id,
        Number::try_new(row.sub_nbr)?,
        row.bits,
        row.hexes,
        row.bytes,
        row.msc_location,
        row.vlr_location,
    )?))
}

fn access_event(row: &HlrAccess) -> Result<Event, Refusal> {
    Ok(Event::AddAccess(Access::try_new(
        row.s_id,
        row.ai_type,
        byte(row.data1)?,
        byte(row.data2)?,
        Letters::<3>::try_new(row.data3)?,
        Letters::<5>::try_new(row.data4)?,
    )?))
}

fn facility_event(row: &HlrFacility) -> Result<Event, Refusal> {
    Ok(Event::AddFacility(Facility::try_new(
        row.s_id,
        row.sf_type,
        row.is_active,
        byte(row.error_cntrl)?,
        byte(row.data_a)?,
        Letters::<5>::try_new(row.data_b)?,
    )?))
}

/// The event that is asked for, of those that post or move regions.
fn moving_event(asked: &Asked) -> Result<Event, Refusal> {
    match *asked {
        Asked::Post(part, limit) => Ok(Event::Post { part, limit }),
        Asked::Give(part, 0, at) => Ok(Event::Give {
            part,
            side: Side::Low,
            at,
        }),
        Asked::Give(part, 1, at) => Ok(Event::Give {
            part,
            side: Side::High,
            at,
        }),
        Asked::Take(piece, part) => Ok(Event::Take { piece, part }),
        Asked::Divide(part, at) => Ok(Event::Divide { part, at }),
        Asked::Dissolve(part) => Ok(Event::Dissolve { part }),
        _ => Err(Refusal::Field),
    }
}

/// The event that is asked for, of those that change rows by fields.
fn change_event(asked: &Asked) -> Result<Event, Refusal> {
    Ok(match *asked {
        Asked::UpdateSubscriber(s_id, sf_type, bit_1, data_a) => Event::UpdateSubscriber {
            s_id,
            sf_type,
            bit_1,
            data_a,
        },
        Asked::UpdateLocation(sub_nbr, vlr_location) => Event::UpdateLocation {
            sub_nbr: Number::try_new(sub_nbr)?,
            vlr_location,
        },
        Asked::InsertForwarding(sub_nbr, sf_type, start_time, end_time, numberx) => {
            Event::InsertForwarding {
                sub_nbr: Number::try_new(sub_nbr)?,
                sf_type,
                start_time,
                end_time,
                numberx: Number::try_new(numberx)?,
            }
        }
        Asked::DeleteForwarding(sub_nbr, sf_type, start_time) => Event::DeleteForwarding {
            sub_nbr: Number::try_new(sub_nbr)?,
            sf_type,
            start_time,
        },
        Asked::SetActive(s_id, sf_type, is_active) => Event::SetActive {
            s_id,
            sf_type,
            is_active,
        },
        Asked::SetNumber(s_id, sub_nbr) => Event::SetNumber {
            s_id,
            sub_nbr: Number::try_new(sub_nbr)?,
        },
        _ => return moving_event(asked),
    })
}

/// The event that is asked for, if its fields are in range.
fn event_of(asked: &Asked) -> Result<Event, Refusal> {
    match *asked {
        Asked::Subscriber(s_id) => Ok(Event::SubscriberData { s_id }),
        Asked::Access(s_id, ai_type) => Ok(Event::AccessData { s_id, ai_type }),
        Asked::Destination(s_id, sf_type, start_time, end_time) => Ok(Event::NewDestination {
            s_id,
            sf_type,
            start_time,
            end_time,
        }),
        Asked::AddSubscriber(row) => subscriber_event(&row),
        Asked::AddAccess(row) => access_event(&row),
        Asked::AddFacility(row) => facility_event(&row),
        _ => change_event(asked),
    }
}

fn region(lo: u32, hi: u32, is_piece: u64, number: u8) -> HlrRegion {
    HlrRegion {
        lo: u64::from(lo),
        hi: u64::from(hi),
        is_piece,
        number: u64::from(number),
    }
}

/// What a register's reply is to be told as.
fn told(asked: &Asked, reply: &Reply) -> Answer {
    match (asked, reply) {
        (_, Reply::Refused(why)) => Answer::Code(why.code()),
        (_, Reply::Rows(RowReply::Row(row))) => Answer::Row(HlrSubscriber {
            s_id: u64::from(row.s_id()),
            sub_nbr: row.sub_nbr().value(),
            bits: row.bits(),
            hexes: row.hexes(),
            bytes: row.bytes(),
            msc_location: u64::from(row.msc_location()),
            vlr_location: u64::from(row.vlr_location()),
        }),
        (Asked::Access(s_id, ai_type), Reply::Rows(RowReply::AccessRow { data1, .. })) => {
            Answer::Access(access(*s_id, *ai_type, u64::from(*data1)))
        }
        (_, Reply::Rows(RowReply::Numbers(numbers))) => {
            let mut list = NO_NUMBERS;
            for (place, number) in list.numbers.iter_mut().zip(numbers.as_slice()) {
                *place = number.value();
            }
            list.count = numbers.as_slice().len() as u64;
            Answer::Numbers(list)
        }
        (_, Reply::Posted(count)) => Answer::Posted(u64::from(*count)),
        (_, Reply::Given { piece, lo, hi }) => Answer::Region(region(*lo, *hi, 1, *piece)),
        (_, Reply::Divided { part, lo, hi } | Reply::Dissolved { part, lo, hi }) => {
            Answer::Region(region(*lo, *hi, 0, *part))
        }
        _ => Answer::Code(DONE),
    }
}

/// What the register replies, told as a call is to tell it.
pub(super) fn wanted(register: &mut Register, asked: &Asked) -> Answer {
    match event_of(asked) {
        Ok(event) if register.all_at_home() => told(asked, &register.apply(event)),
        Ok(_) => Answer::Code(255),
        Err(why) => Answer::Code(why.code()),
    }
}

/// What a call answered: what it wrote, where it was done.
pub(super) fn wrote(code: u8, written: Answer) -> Answer {
    if code == DONE {
        written
    } else {
        Answer::Code(code)
    }
}

fn read(alloc: Global, handle: &mut Hlr, asked: &Asked) -> Answer {
    let mut row = NO_ROW;
    let mut access = NO_ACCESS;
    let mut numbers = NO_NUMBERS;
    match *asked {
        Asked::Subscriber(s_id) => {
            let code = hlr_subscriber_data(alloc, handle, s_id, &mut row);
            wrote(code, Answer::Row(row))
        }
        Asked::Access(s_id, ai_type) => {
            let code = hlr_access_data(alloc, handle, s_id, ai_type, &mut access);
            wrote(code, Answer::Access(access))
        }
        Asked::Destination(s_id, sf_type, start_time, end_time) => {
            let code = hlr_new_destination(
                alloc,
                handle,
                s_id,
                sf_type,
                start_time,
                end_time,
                &mut numbers,
            );
            wrote(code, Answer::Numbers(numbers))
        }
        _ => Answer::Code(255),
    }
}

fn moved(alloc: Global, handle: &mut Hlr, asked: &Asked) -> Answer {
    let mut posted = 0;
    let mut region = NO_REGION;
    match *asked {
        Asked::Post(part, limit) => {
            let code = hlr_post(alloc, handle, part, limit, &mut posted);
            wrote(code, Answer::Posted(posted))
        }
        Asked::Give(part, side, at) => {
            let code = hlr_give(alloc, handle, part, side, at, &mut region);
            wrote(code, Answer::Region(region))
        }
        Asked::Divide(part, at) => {
            let code = hlr_divide(alloc, handle, part, at, &mut region);
            wrote(code, Answer::Region(region))
        }
        Asked::Dissolve(part) => {
            let code = hlr_dissolve(alloc, handle, part, &mut region);
            wrote(code, Answer::Region(region))
        }
        Asked::Take(piece, part) => Answer::Code(hlr_take(alloc, handle, piece, part)),
        _ => read(alloc, handle, asked),
    }
}

/// What the call answers that asks for it.
pub(super) fn called(alloc: Global, handle: &mut Hlr, asked: &Asked) -> Answer {
    Answer::Code(match *asked {
        Asked::UpdateSubscriber(s_id, sf_type, bit_1, data_a) => {
            hlr_update_subscriber(alloc, handle, s_id, sf_type, bit_1, data_a)
        }
        Asked::UpdateLocation(sub_nbr, vlr_location) => {
            hlr_update_location(alloc, handle, sub_nbr, vlr_location)
        }
        Asked::InsertForwarding(sub_nbr, sf_type, start_time, end_time, numberx) => {
            hlr_insert_forwarding(
                alloc, handle, sub_nbr, sf_type, start_time, end_time, numberx,
            )
        }
        Asked::DeleteForwarding(sub_nbr, sf_type, start_time) => {
            hlr_delete_forwarding(alloc, handle, sub_nbr, sf_type, start_time)
        }
        Asked::AddSubscriber(row) => hlr_add_subscriber(alloc, handle, &row),
        Asked::AddAccess(row) => hlr_add_access(alloc, handle, &row),
        Asked::AddFacility(row) => hlr_add_facility(alloc, handle, &row),
        Asked::SetActive(s_id, sf_type, is_active) => {
            hlr_set_active(alloc, handle, s_id, sf_type, is_active)
        }
        Asked::SetNumber(s_id, sub_nbr) => hlr_set_number(alloc, handle, s_id, sub_nbr),
        _ => return moved(alloc, handle, asked),
    })
}

/// The place of a call among all that are drawn.
fn call_of(asked: &Asked) -> usize {
    match asked {
        Asked::Subscriber(..) => 0,
        Asked::Access(..) => 1,
        Asked::Destination(..) => 2,
        Asked::UpdateSubscriber(..) => 3,
        Asked::UpdateLocation(..) => 4,
        Asked::InsertForwarding(..) => 5,
        Asked::DeleteForwarding(..) => 6,
        Asked::AddSubscriber(..) => 7,
        Asked::AddAccess(..) => 8,
        Asked::AddFacility(..) => 9,
        Asked::SetActive(..) => 10,
        Asked::SetNumber(..) => 11,
        Asked::Post(..) => 12,
        Asked::Give(..) => 13,
        Asked::Take(..) => 14,
        Asked::Divide(..) => 15,
        Asked::Dissolve(..) => 16,
    }
}

/// Notes that a code was answered.
fn note(codes: &mut [bool; 23], code: u8) {
    if let Some(is_answered) = codes.get_mut(usize::from(code)) {
        *is_answered = true;
    }
}

/// The first of 20,000 drawn events to which a call answers otherwise than the register's reply; notes which codes each
/// call answered.
fn difference(
    alloc: Global,
    handle: &mut Hlr,
    register: &mut Register,
    answered: &mut [[bool; 23]; CALLS],
) -> Option<u32> {
    let mut draws = Draws::new(88_172_645_463_325_252);
    for step in 0..20_000u32 {
        let asked = draws.asked();
        let want = wanted(register, &asked);
        if called(alloc, handle, &asked) != want {
            return Some(step);
        }
        let code = match want {
            Answer::Code(code) => code,
            _ => DONE,
        };
        if let Some(codes) = answered.get_mut(call_of(&asked)) {
            note(codes, code);
        }
    }
    None
}

/// The first code that a call answered and hasn't to, or the other way round.
fn unlike(answered: &[bool; 23], want: &[usize]) -> Option<usize> {
    for code in 0..23 {
        if answered[code] != want.contains(&code) {
            return Some(code);
        }
    }
    None
}

/// The first call of which that is so, and the code.
fn first_unlike(answered: &[[bool; 23]; CALLS]) -> Option<(usize, usize)> {
    for call in 0..CALLS {
        if let Some(code) = unlike(&answered[call], ANSWERED[call]) {
            return Some((call, code));
        }
    }
    None
}

#[test]
fn drawn_events(rt: HostRuntime) -> Result<(), Fail> {
    let alloc = rt.alloc();
    let mut answered = [[false; 23]; CALLS];
    let mut handle = opened(&rt, alloc, 3, 1);
    let Ok(mut register) = Register::open(alloc, 3, 1) else {
        panic!(rt; "a register is opened")
    };
    let differs = difference(alloc, &mut handle, &mut register, &mut answered);
    drop(register);
    closed(&rt, alloc, handle);
    assert_eq!(rt; (differs, first_unlike(&answered)), (None, None));
    Ok(())
}
