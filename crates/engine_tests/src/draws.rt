//! Steps of an engine that are drawn by numbers that look random.
use crate::engines::{access_row, facility_row, number, row};
use arrayvec::ArrayVec;
use hlr_core::Event;
use part_table::{Place, Region, Regions, Side};
use std::process::Abort;
use tatp_actions::CELLS;
use tatp_rows::Number;
use tests_common::Random;

/// How many subscribers there may be.
pub const SUBSCRIBERS: u64 = 24;

/// How far they are apart.
const STRIDE: u64 = 5;

/// A number a little behind the last of them.
const LAST: u64 = 130;

/// How many numbers there are that they may have.
pub const NUMBERS: u64 = 30;

/// How many parts there are at most that a change divides: of more it dissolves one, so that each has many jobs.
const FEW_PARTS: u8 = 4;

/// What is done with an engine.
#[derive(Drop)]
pub enum Step {
    Take(Event),
    Cut(ArrayVec<u64, 15>),
    Look,
    Settle,
}

/// Numbers that look random, and what they choose.
#[derive(Drop)]
pub struct Draws {
    random: Random,
}

/// The s_id of a subscriber by their place, from 0 on.
pub fn s_id_at(place: u64) -> u64 {
    place.wrapping_mul(STRIDE).wrapping_add(1)
}

/// The part that has a region, if there is such a region and a part has it.
fn part_at(list: &[Region], at: usize) -> Option<u64> {
    match list.get(at)?.place {
        Place::Part(part) => Some(u64::from(part)),
        Place::Piece(_) => None,
    }
}

/// Where a part begins and ends, if there is such a part.
fn range_of(list: &[Region], part: u64) -> (u64, u64) {
    for region in list {
        if matches!(region.place, Place::Part(p) if u64::from(p) == part) {
            return (u64::from(region.lo), u64::from(region.hi));
        }
    }
    (1, 1)
}

/// A take of the loose piece that is at a place, by a part that touches it, if there are both: of two parts by the one
/// behind it where that is wanted.
fn take_at(list: &[Region], at: usize, is_behind: bool) -> Option<Event> {
    let Place::Piece(piece) = list.get(at)?.place else {
        return None;
    };
    let before = part_at(list, at.wrapping_sub(1));
    let behind = part_at(list, at.wrapping_add(1));
    let part = if is_behind {
        behind.or(before)?
    } else {
        before.or(behind)?
    };
    Some(Event::Take {
        piece: u64::from(piece),
        part,
    })
}

/// A take of a loose piece by a part that touches it, if a piece is loose.
fn right_take(list: &[Region], is_behind: bool) -> Option<Event> {
    for at in 0..list.len() {
        let take = take_at(list, at, is_behind);
        if take.is_some() {
            return take;
        }
    }
    None
}

impl Draws {
    /// Draws that go on from a number.
    pub fn new(seed: u64) -> Self {
        Draws {
            random: Random::new(seed.wrapping_add(88_172_645_463_325_252)),
        }
    }

    /// One of the subscribers, whom all parts share.
    fn subscriber(&mut self) -> u64 {
        s_id_at(self.random.below(SUBSCRIBERS))
    }

    /// One of them, or now and then an s_id that is out of range.
    fn s_id(&mut self) -> u64 {
        if self.random.below(32) == 0 {
            return 0;
        }
        self.subscriber()
    }

    /// A type, now and then one that is out of range.
    fn kind(&mut self) -> u64 {
        if self.random.below(32) == 0 {
            return 5;
        }
        self.random.below(2).wrapping_add(1)
    }

    /// An hour at which forwardings start.
    fn start_time(&mut self) -> u64 {
        self.random.below(3).wrapping_mul(8)
    }

    /// A number that some subscriber may have.
    fn number(&mut self, rt: &impl Abort) -> Number {
        number(rt, self.random.below(NUMBERS))
    }

    /// A read.
    fn read(&mut self) -> Event {
        let s_id = self.s_id();
        match self.random.below(3) {
            0 => Event::SubscriberData { s_id },
            1 => Event::AccessData {
                s_id,
                ai_type: self.kind(),
            },
            _ => Event::NewDestination {
                s_id,
                sf_type: self.kind(),
                start_time: self.start_time(),
                end_time: self.random.below(26),
            },
        }
    }

    /// An addition of a row, but for forwardings.
    fn addition(&mut self, rt: &impl Abort) -> Event {
        let s_id = self.subscriber();
        let value = self.random.next();
        match self.random.below(3) {
            0 => Event::AddSubscriber(row(rt, s_id, value % NUMBERS, value % 4_294_967_295 + 1)),
            1 => Event::AddAccess(access_row(rt, s_id, value % 2 + 1, (value % 256) as u8)),
            _ => Event::AddFacility(facility_row(rt, s_id, value % 2 + 1, value / 2 % 2)),
        }
    }

    /// An insertion of a forwarding, or a deletion.
    fn forwarding(&mut self, rt: &impl Abort) -> Event {
        let (sub_nbr, sf_type) = (self.number(rt), self.kind());
        let start_time = self.start_time();
        if self.random.below(4) == 0 {
            return Event::DeleteForwarding {
                sub_nbr,
                sf_type,
                start_time,
            };
        }
        Event::InsertForwarding {
            sub_nbr,
            sf_type,
            start_time,
            end_time: self.random.below(26),
            numberx: self.number(rt),
        }
    }

    /// A move of a subscriber.
    fn location(&mut self, rt: &impl Abort) -> Event {
        Event::UpdateLocation {
            sub_nbr: self.number(rt),
            vlr_location: self.random.below(4_294_967_296),
        }
    }

    /// A change of fields.
    fn update(&mut self, rt: &impl Abort) -> Event {
        let s_id = self.s_id();
        match self.random.below(4) {
            0 => Event::UpdateSubscriber {
                s_id,
                sf_type: self.kind(),
                bit_1: self.random.below(2),
                data_a: self.random.below(256),
            },
            1 => Event::SetNumber {
                s_id,
                sub_nbr: self.number(rt),
            },
            2 => self.location(rt),
            _ => Event::SetActive {
                s_id,
                sf_type: self.kind(),
                is_active: self.random.below(2),
            },
        }
    }

    /// A give of a few subscribers at one end of a part.
    fn giving(&mut self, region: &Region, part: u8) -> Event {
        let (part, count) = (u64::from(part), self.random.below(STRIDE.wrapping_mul(2)));
        if self.random.below(2) == 0 {
            return Event::Give {
                part,
                side: Side::Low,
                at: u64::from(region.lo).wrapping_add(count),
            };
        }
        Event::Give {
            part,
            side: Side::High,
            at: u64::from(region.hi).min(LAST).wrapping_sub(count),
        }
    }

    /// A give by a part, or a take of any piece by any part.
    fn moving(&mut self, regions: &Regions) -> Event {
        let list = regions.list();
        let at = self.random.below(list.len() as u64) as usize;
        if let Some(region) = list.get(at)
            && let Place::Part(part) = region.place
            && self.random.below(8) != 0
        {
            return self.giving(region, part);
        }
        Event::Take {
            piece: self.random.below(3),
            part: self.random.below(u64::from(regions.parts())),
        }
    }

    /// A divide of a part among the subscribers, or a dissolve: the more parts there are, the more often one goes; now
    /// and then of a part that can't be, or that is not there.
    fn parting(&mut self, regions: &Regions) -> Event {
        let parts = u64::from(regions.parts());
        let part = self.random.below(parts.wrapping_add(1));
        if self.random.below(24) < parts.wrapping_add(4) {
            return Event::Dissolve { part };
        }
        let (lo, hi) = range_of(regions.list(), part);
        let count = hi.min(LAST).saturating_sub(lo);
        Event::Divide {
            part,
            at: lo.wrapping_add(self.random.below(count)).wrapping_add(1),
        }
    }

    /// A posting, now and then to a part that is not there.
    fn posting(&mut self, regions: &Regions) -> Event {
        Event::Post {
            part: self
                .random
                .below(u64::from(regions.parts()).wrapping_add(1)),
            limit: self.random.below(u64::from(CELLS) + 9),
        }
    }

    /// An event of any kind, where the regions are these; a piece that is loose is soon taken.
    pub fn event(&mut self, rt: &impl Abort, regions: &Regions) -> Event {
        if self.random.below(4) == 0
            && let Some(take) = right_take(regions.list(), self.random.below(2) == 0)
        {
            return take;
        }
        match self.random.below(32) {
            0..=6 => self.read(),
            7..=13 => self.addition(rt),
            14..=19 => self.forwarding(rt),
            20..=25 => self.update(rt),
            26 | 27 => self.moving(regions),
            28 | 29 => self.parting(regions),
            _ => self.posting(regions),
        }
    }

    /// An event that a part does alone, if any does.
    pub fn job(&mut self, rt: &impl Abort, regions: &Regions) -> Event {
        match self.random.below(8) {
            0..=2 => self.read(),
            3..=5 => self.forwarding(rt),
            6 => self.location(rt),
            _ => self.posting(regions),
        }
    }

    /// An event that the register does itself, mostly, where the regions are these: a piece that is loose is taken
    /// first. Few parts stay.
    fn change(&mut self, rt: &impl Abort, regions: &Regions) -> Event {
        if let Some(take) = right_take(regions.list(), self.random.below(2) == 0) {
            return take;
        }
        match self.random.below(8) {
            0..=2 => Event::SetNumber {
                s_id: self.s_id(),
                sub_nbr: self.number(rt),
            },
            3 => self.addition(rt),
            4 | 5 => self.moving(regions),
            _ if regions.parts() > FEW_PARTS => Event::Dissolve {
                part: self.random.below(u64::from(FEW_PARTS)).wrapping_add(1),
            },
            _ => self.parting(regions),
        }
    }

    /// A call that hands on what is held, where the regions are these: a settle, a sight, a re-cut, or an event that
    /// the register does itself.
    pub fn handing_on(&mut self, rt: &impl Abort, regions: &Regions) -> Step {
        match self.random.below(4) {
            0 => Step::Settle,
            1 => Step::Look,
            2 => Step::Cut(self.bounds(regions)),
            _ => Step::Take(self.change(rt, regions)),
        }
    }

    /// How many jobs there are until the next such call: up to so many.
    pub fn distance(&mut self, most: u64) -> u64 {
        self.random.below(most).wrapping_add(1)
    }

    /// Bounds among the subscribers for as many parts as there are, now and then one too many.
    fn bounds(&mut self, regions: &Regions) -> ArrayVec<u64, 15> {
        let mut bounds = ArrayVec::new();
        let mut bound = 1u64;
        let parts = u64::from(regions.parts());
        let stretch = 240 / parts.max(1);
        let wanted = parts.wrapping_add(u64::from(self.random.below(8) == 0));
        for _ in 1..wanted {
            bound = bound
                .wrapping_add(self.random.below(stretch))
                .wrapping_add(1);
            let _full = bounds.try_push(bound);
        }
        bounds
    }

    /// An event mostly, where the regions are these; else a re-cut, a sight or a settle.
    pub fn step(&mut self, rt: &impl Abort, regions: &Regions) -> Step {
        match self.random.below(128) {
            0..=3 => Step::Cut(self.bounds(regions)),
            4..=7 => Step::Look,
            8 => Step::Settle,
            _ => Step::Take(self.event(rt, regions)),
        }
    }
}
