//! Drawn events while 1 to 16 parts are out, beside a register that lends none: an event is refused with `AWAY` only
//! where a part on which it works is out.
use super::drawn::{Answer, Asked, Draws, called, wanted, wrote};
use super::lent::let_go;
use super::{NO_ACCESS, NO_NUMBERS, NO_ROW, closed, opened};
use crate::codes::{AWAY, DONE, NOT_OPEN, STILL_OPEN};
use crate::handle::Hlr;
use crate::lending::{hlr_back, hlr_home, hlr_lend};
use crate::listing::hlr_find;
use crate::part::HlrPart;
use crate::part_changes::{
    hlr_part_add_access, hlr_part_add_facility, hlr_part_delete_forwarding,
    hlr_part_insert_forwarding, hlr_part_post, hlr_part_set_active, hlr_part_update_location,
    hlr_part_update_subscriber,
};
use crate::part_reads::{hlr_part_access_data, hlr_part_new_destination, hlr_part_subscriber_data};
use crate::reports::{counts_of, hlr_scan, hlr_views};
use hlr_core::{CELLS, Number, Place, Refusal, Register};
use std::alloc::Global;
use std::process::Abort;
use tests_common::{published, recounted, unposted};

/// How many parts there are at most.
const PARTS: usize = 16;

/// Whether a part is at home, with its owner, or on its way back.
#[derive(Clone, Copy, PartialEq)]
enum Stay {
    Home,
    Out,
    Sent,
}

/// What is done with a part.
#[derive(Clone, Copy)]
enum Move {
    Lend,
    Home,
    Back,
}

/// The code of a move, and where the part is then.
fn after(way: Move, stay: Stay, is_part: bool) -> (u8, Stay) {
    match (way, stay) {
        (Move::Home, Stay::Out) => (DONE, Stay::Sent),
        (Move::Home, _) => (NOT_OPEN, stay),
        (Move::Lend, Stay::Out) => (STILL_OPEN, stay),
        (Move::Lend | Move::Back, _) if !is_part => (Refusal::NoPart.code(), stay),
        (Move::Lend, Stay::Home) => (DONE, Stay::Out),
        (Move::Back, Stay::Home | Stay::Sent) => (DONE, Stay::Home),
        _ => (AWAY, stay),
    }
}

/// Lets go of handles, which are closed.
fn let_four(rt: &impl Abort, a: HlrPart, b: HlrPart, c: HlrPart, d: HlrPart) {
    let_go(rt, a);
    let_go(rt, b);
    let_go(rt, c);
    let_go(rt, d);
}

/// A handle for each part, where each is, and how many events owners answered.
struct Lent {
    owners: [HlrPart; PARTS],
    stays: [Stay; PARTS],
    answered: u32,
}

impl Lent {
    fn none() -> Lent {
        Lent {
            owners: [(); PARTS].map(|_| HlrPart::closed()),
            stays: [Stay::Home; PARTS],
            answered: 0,
        }
    }

    /// Whether one of the parts from `first` to `last` isn't at home.
    fn is_away(&self, first: u64, last: u64) -> bool {
        for (part, stay) in self.stays.iter().enumerate() {
            if *stay != Stay::Home && first <= part as u64 && part as u64 <= last {
                return true;
            }
        }
        false
    }

    /// How many parts aren't at home.
    fn count(&self) -> usize {
        self.stays
            .iter()
            .filter(|stay| **stay != Stay::Home)
            .count()
    }

    /// Whether a move of a part, one of so many, has the code that it must have.
    fn goes(&mut self, alloc: Global, handle: &mut Hlr, way: Move, part: u64, parts: u64) -> bool {
        let at = (part % 16) as usize;
        let owner = &mut self.owners[at];
        let code = match way {
            Move::Lend => hlr_lend(alloc, handle, part, owner),
            Move::Home => hlr_home(alloc, owner),
            Move::Back => hlr_back(alloc, handle, part),
        };
        let (want, stay) = after(way, self.stays[at], part < parts);
        self.stays[at] = stay;
        code == want
    }

    /// Whether a drawn move of a drawn part has the code that it must have.
    fn draw(&mut self, alloc: Global, handle: &mut Hlr, draws: &mut Draws, parts: u64) -> bool {
        let way = match draws.next() % 4 {
            0 | 1 => Move::Lend,
            2 => Move::Home,
            _ => Move::Back,
        };
        self.goes(alloc, handle, way, draws.next() % 17, parts)
    }

    /// Lets go of all handles, which are closed, and tells how many events owners answered.
    fn let_go(self, rt: &impl Abort) -> u32 {
        let Lent {
            owners,
            stays: _,
            answered,
        } = self;
        let [a, b, c, d, e, f, g, h, i, j, k, l, m, n, o, p] = owners;
        let_four(rt, a, b, c, d);
        let_four(rt, e, f, g, h);
        let_four(rt, i, j, k, l);
        let_four(rt, m, n, o, p);
        answered
    }

    /// Brings the parts from `first` to `last` home.
    fn bring(&mut self, alloc: Global, handle: &mut Hlr, first: u64, last: u64) {
        for part in first..last.saturating_add(1).min(16) {
            self.goes(alloc, handle, Move::Home, part, 16);
            self.goes(alloc, handle, Move::Back, part, 16);
        }
    }
}

/// What a part that is out answers to an event on rows or a posting; `AWAY` to all others.
fn called_out(alloc: Global, owner: &mut HlrPart, asked: &Asked, s_id: u64) -> Answer {
    Answer::Code(match *asked {
        Asked::UpdateSubscriber(_, sf_type, bit_1, data_a) => {
            hlr_part_update_subscriber(alloc, owner, s_id, sf_type, bit_1, data_a)
        }
        Asked::UpdateLocation(_, vlr_location) => {
            hlr_part_update_location(alloc, owner, s_id, vlr_location)
        }
        Asked::InsertForwarding(_, sf_type, start_time, end_time, numberx) => {
            hlr_part_insert_forwarding(alloc, owner, s_id, sf_type, start_time, end_time, numberx)
        }
        Asked::DeleteForwarding(_, sf_type, start_time) => {
            hlr_part_delete_forwarding(alloc, owner, s_id, sf_type, start_time)
        }
        Asked::AddAccess(row) => hlr_part_add_access(alloc, owner, &row),
        Asked::AddFacility(row) => hlr_part_add_facility(alloc, owner, &row),
        Asked::SetActive(_, sf_type, is_active) => {
            hlr_part_set_active(alloc, owner, s_id, sf_type, is_active)
        }
        _ => return read_out(alloc, owner, asked),
    })
}

/// The same of reads and a posting.
fn read_out(alloc: Global, owner: &mut HlrPart, asked: &Asked) -> Answer {
    let (mut row, mut access, mut numbers, mut count) = (NO_ROW, NO_ACCESS, NO_NUMBERS, 0);
    match *asked {
        Asked::Subscriber(s_id) => {
            let code = hlr_part_subscriber_data(alloc, owner, s_id, &mut row);
            wrote(code, Answer::Row(row))
        }
        Asked::Access(s_id, ai_type) => {
            let code = hlr_part_access_data(alloc, owner, s_id, ai_type, &mut access);
            wrote(code, Answer::Access(access))
        }
        Asked::Destination(s_id, sf_type, start, end) => {
            let code = hlr_part_new_destination(
                alloc,
                owner,
                s_id,
                sf_type,
                start,
                end,
                &mut numbers,
            );
            wrote(code, Answer::Numbers(numbers))
        }
        Asked::Post(_, limit) => {
            let code = hlr_part_post(alloc, owner, limit, &mut count);
            wrote(code, Answer::Posted(count))
        }
        _ => Answer::Code(AWAY),
    }
}

/// Whom a register finds by a number; 0 where there is nobody.
fn bearer(register: &Register, sub_nbr: u64) -> u64 {
    match Number::try_new(sub_nbr) {
        Ok(number) => register.index().find(number).map_or(0, u64::from),
        Err(_) => 0,
    }
}

/// The subscriber of an event on rows; 0 where it has none.
fn subscriber_of(register: &Register, asked: &Asked) -> u64 {
    match *asked {
        Asked::UpdateLocation(sub_nbr, _)
        | Asked::InsertForwarding(sub_nbr, ..)
        | Asked::DeleteForwarding(sub_nbr, ..) => bearer(register, sub_nbr),
        Asked::Subscriber(s_id)
        | Asked::Access(s_id, _)
        | Asked::Destination(s_id, ..)
        | Asked::UpdateSubscriber(s_id, ..)
        | Asked::SetActive(s_id, ..)
        | Asked::SetNumber(s_id, _) => s_id,
        Asked::AddSubscriber(row) => row.s_id,
        Asked::AddAccess(row) => row.s_id,
        Asked::AddFacility(row) => row.s_id,
        _ => 0,
    }
}

/// The part of a subscriber; one that is never there where no part has it.
fn part_of(register: &Register, s_id: u64) -> u64 {
    for region in register.regions().list() {
        if let Place::Part(part) = region.place
            && u64::from(region.lo) <= s_id
            && s_id < u64::from(region.hi)
        {
            return u64::from(part);
        }
    }
    99
}

/// The first and the last of the parts that have to be at home for an event.
fn needed(register: &Register, asked: &Asked, s_id: u64) -> (u64, u64) {
    let part = part_of(register, s_id);
    match *asked {
        Asked::Post(part, _) | Asked::Give(part, ..) | Asked::Take(_, part) => (part, part),
        Asked::Divide(part, _) => (part, 15),
        Asked::Dissolve(part) => (part.saturating_sub(1), 15),
        _ => (part, part),
    }
}

/// Whether an answer is a refusal that is known without any part: `Field`, `NoNumber`, `Moving`, or one of the regions.
fn is_known(answer: &Answer) -> bool {
    matches!(answer, Answer::Code(2 | 4 | 11..=16 | 22))
}

/// What is answered to an event that a register refuses with `AWAY`, for some parts: by the only one, where its owner
/// has it, else by the register, once they are at home.
fn answer_away(
    alloc: Global,
    handle: &mut Hlr,
    lent: &mut Lent,
    asked: &Asked,
    (first, last): (u64, u64),
    s_id: u64,
) -> Answer {
    let at = (first % 16) as usize;
    if first == last && lent.stays[at] == Stay::Out {
        let answer = called_out(alloc, &mut lent.owners[at], asked, s_id);
        if answer != Answer::Code(AWAY) {
            lent.answered = lent.answered.wrapping_add(1);
            return answer;
        }
    }
    lent.bring(alloc, handle, first, last);
    called(alloc, handle, asked)
}

/// Whether a drawn event is answered as by a register that lends none, and `AWAY` is answered just where a part on
/// which the event works is out and no refusal is known without it.
fn answers_alike(
    alloc: Global,
    register: &mut Register,
    handle: &mut Hlr,
    lent: &mut Lent,
    asked: &Asked,
) -> bool {
    let s_id = subscriber_of(register, asked);
    let (first, last) = needed(register, asked, s_id);
    let want = wanted(register, asked);
    let answer = called(alloc, handle, asked);
    if is_known(&want) || !lent.is_away(first, last) {
        return answer == want;
    }
    answer == Answer::Code(AWAY)
        && answer_away(alloc, handle, lent, asked, (first, last), s_id) == want
}

/// Whether the cells are told as of a register that lends none; `AWAY` where a part is away.
fn cells_alike(alloc: Global, register: &Register, handle: &mut Hlr, is_away: bool) -> bool {
    let (mut left, mut right) = ([0; CELLS as usize], [0; CELLS as usize]);
    let mut counts = [0; CELLS as usize];
    let codes = (
        hlr_views(alloc, handle, &mut left, &mut right),
        hlr_scan(alloc, handle, &mut counts),
    );
    if is_away {
        return codes == (AWAY, AWAY);
    }
    codes == (DONE, DONE)
        && left == published(register)
        && right == unposted(register)
        && are_counted(register, &counts)
}

/// Whether a walk over all rows of a register counts so many of each cell.
fn are_counted(register: &Register, counts: &[u64; CELLS as usize]) -> bool {
    match recounted(register) {
        Some(cells) => counts_of(&cells) == *counts,
        None => false,
    }
}

/// Whether all is alike that is read of a subscriber and a type of access and facility: it is active once it is asked.
fn rows_alike(
    alloc: Global,
    register: &mut Register,
    handle: &mut Hlr,
    s_id: u64,
    kind: u64,
) -> bool {
    let mut alike = true;
    for turn in 0..27 {
        let asked = match turn {
            0 => Asked::Subscriber(s_id),
            1 => Asked::Access(s_id, kind),
            2 => Asked::SetActive(s_id, kind, 1),
            _ => Asked::Destination(s_id, kind, (turn - 3) / 8 * 8, turn - 2),
        };
        alike = called(alloc, handle, &asked) == wanted(register, &asked) && alike;
    }
    alike
}

/// Whether all rows are alike, and the numbers find the same subscribers.
fn all_alike(alloc: Global, register: &mut Register, handle: &mut Hlr) -> bool {
    let mut alike = true;
    for turn in 0..160 {
        let (number, mut found) = (turn % 48, 0);
        hlr_find(alloc, handle, number, &mut found);
        alike = found == bearer(register, number)
            && rows_alike(alloc, register, handle, turn / 4, turn % 4 + 1)
            && alike;
    }
    alike
}

/// The first of 5,000 drawn steps that goes otherwise than it must; notes how many parts are away.
fn difference(
    alloc: Global,
    register: &mut Register,
    handle: &mut Hlr,
    lent: &mut Lent,
    seen: &mut [bool; PARTS + 1],
) -> Option<u32> {
    let mut draws = Draws::new(88_172_645_463_325_252);
    for step in 0..5_000 {
        let parts = u64::from(register.regions().parts());
        let mut is_alike = true;
        for _ in 0..draws.next() % 8 {
            is_alike = lent.draw(alloc, handle, &mut draws, parts) && is_alike;
        }
        let away = lent.count();
        if let Some(is_seen) = seen.get_mut(away) {
            *is_seen = true;
        }
        if !is_alike
            || !cells_alike(alloc, register, handle, away > 0)
            || !answers_alike(alloc, register, handle, lent, &draws.asked())
        {
            return Some(step);
        }
    }
    None
}

/// What is alike of registers of so many parts: the first step that isn't, how many events owners answered, and whether
/// cells, rows and numbers are at the end.
fn script(
    rt: &impl Abort,
    alloc: Global,
    parts: u8,
    seen: &mut [bool; PARTS + 1],
) -> (Option<u32>, u32, bool) {
    let mut handle = opened(rt, alloc, u64::from(parts), 1);
    let Ok(mut register) = Register::open(alloc, parts, 1) else {
        panic!(rt; "a register is opened")
    };
    let mut lent = Lent::none();
    let differs = difference(alloc, &mut register, &mut handle, &mut lent, seen);
    lent.bring(alloc, &mut handle, 0, 15);
    let is_alike = cells_alike(alloc, &register, &mut handle, false)
        && all_alike(alloc, &mut register, &mut handle);
    drop(register);
    closed(rt, alloc, handle);
    (differs, lent.let_go(rt), is_alike)
}

#[test]
fn drawn_events_while_parts_are_out(rt: HostRuntime) {
    let mut seen = [false; PARTS + 1];
    for parts in [1, 3, 16] {
        let (differs, answered, is_alike) = script(&rt, rt.alloc(), parts, &mut seen);
        assert_eq!(rt; (differs, answered > 500, is_alike), (None, true, true));
    }
    assert_eq!(rt; seen, [true; PARTS + 1]);
}
