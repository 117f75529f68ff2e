//! Parts that come and go: worked examples, words at their limit, sixteen parts in drawn orders, and registers that are
//! taken apart where a part's slot is not its number.
use crate::gather_tests::made_with_posting;
use crate::plain::Plain;
use crate::plain_tests::Draws;
use crate::region_tests::{giving, proposes, sees, taking};
use crate::tests::{
    ALL_CELLS, AREA_1, DONE, MANY_PARTS, NO_PART, NOT_ADJACENT, OUT_OF_RANGE, ZONE_1, access_row,
    ask, difference, moved, number, opened, posting, published, replies, replies_to, row, stands,
};
use hlr_core::{Event, Register, Reply};
use part_table::{END, Place};
use std::alloc::Global;
use std::process::Abort;
use std::test::Fail;
use tatp_actions::{CELLS, FIRST_AREA, FIRST_ZONE};
use tatp_rows::Refusal;
use view_board::{LIMIT, SLOT_WORDS, WORDS};

/// Whether a register has parts alone, which begin at these subscribers.
fn begin_at(register: &Register, begins: &[u32]) -> bool {
    let list = register.regions().list();
    let mut are_so = list.len() == begins.len();
    for (part, (region, lo)) in list.iter().zip(begins).enumerate() {
        let place = Place::Part(part.min(255) as u8);
        are_so = are_so && region.lo == *lo && region.place == place;
    }
    are_so
}

/// An event, the reply to it, and what stands then: how much of area 1 and of zone 1 each is published, how much of it
/// isn't posted, how much was added to it in slot 1 and taken off it there, and where the parts begin.
struct Step {
    event: Event,
    reply: Reply,
    published: i64,
    unposted: i64,
    slot_1: (u64, u64),
    begins: &'static [u32],
}

/// A subscriber of part 0, posted there, comes to a part that is divided off, which posts too; then that part goes.
const STEPS: [Step; 8] = [
    Step {
        event: Event::Post { part: 0, limit: 51 },
        reply: Reply::Posted(2),
        published: 1,
        unposted: 0,
        slot_1: (0, 0),
        begins: &[1],
    },
    Step {
        event: Event::Divide { part: 0, at: 5 },
        reply: Reply::Divided {
            part: 1,
            lo: 5,
            hi: END,
        },
        published: 1,
        unposted: 0,
        slot_1: (0, 0),
        begins: &[1, 5],
    },
    Step {
        event: Event::Post { part: 1, limit: 51 },
        reply: Reply::Posted(2),
        published: 2,
        unposted: -1,
        slot_1: (1, 0),
        begins: &[1, 5],
    },
    Step {
        event: Event::Dissolve { part: 1 },
        reply: Reply::Dissolved {
            part: 0,
            lo: 1,
            hi: END,
        },
        published: 1,
        unposted: 0,
        slot_1: (1, 1),
        begins: &[1],
    },
    Step {
        event: Event::Dissolve { part: 1 },
        reply: NO_PART,
        published: 1,
        unposted: 0,
        slot_1: (1, 1),
        begins: &[1],
    },
    Step {
        event: Event::Dissolve { part: 0 },
        reply: NOT_ADJACENT,
        published: 1,
        unposted: 0,
        slot_1: (1, 1),
        begins: &[1],
    },
    Step {
        event: Event::Divide { part: 0, at: 1 },
        reply: OUT_OF_RANGE,
        published: 1,
        unposted: 0,
        slot_1: (1, 1),
        begins: &[1],
    },
    Step {
        event: Event::Post { part: 0, limit: 51 },
        reply: Reply::Posted(0),
        published: 1,
        unposted: 0,
        slot_1: (1, 1),
        begins: &[1],
    },
];

/// Whether a step is replied to so, and leaves what is to stand then.
fn is_taken(register: &mut Register, step: &Step) -> bool {
    let (published, unposted) = (step.published, step.unposted);
    let is_replied = replies_to(register, &step.event, &step.reply);
    let sight = register.look();
    is_replied
        && sight.words_of(1, AREA_1) == step.slot_1
        && sight.words_of(1, ZONE_1) == step.slot_1
        && stands(
            register,
            &[(AREA_1, published), (ZONE_1, published)],
            &[(AREA_1, unposted), (ZONE_1, unposted)],
        )
        && begin_at(register, step.begins)
}

/// The first of the steps that isn't taken so, if there is one.
fn first_wrong(register: &mut Register) -> Option<usize> {
    for (place, step) in STEPS.iter().enumerate() {
        if !is_taken(register, step) {
            return Some(place);
        }
    }
    None
}

// Also run with each allocation refused in turn (`refuse_memory.sh`).
#[test]
fn part_comes_and_goes_each_refused(rt: HostRuntime) {
    let seven = row(7, 7, 268_435_456).expect(&rt, "a row");
    let mut register = opened(rt.alloc(), 1, 4).expect(&rt, "a register");
    let is_added = replies(&mut register, Event::AddSubscriber(seven), DONE);
    let wrong = first_wrong(&mut register);
    drop(register);
    assert_eq!(rt; (is_added, wrong), (true, None));
}

/// A divide of a part at a subscriber.
pub fn dividing(part: u64, at: u64) -> Event {
    Event::Divide { part, at }
}

/// A dissolve of a part.
pub fn dissolving(part: u64) -> Event {
    Event::Dissolve { part }
}

/// The reply to a divide: the new part.
pub fn divided(part: u8, lo: u32, hi: u32) -> Reply {
    Reply::Divided { part, lo, hi }
}

/// The reply to a dissolve: the part in front.
pub fn dissolved(part: u8, lo: u32, hi: u32) -> Reply {
    Reply::Dissolved { part, lo, hi }
}

/// Where sixteen parts begin, all but the last of which have one subscriber each.
const SIXTEEN: [u32; 16] = [1, 2, 3, 4, 5, 6, 7, 8, 9, 10, 11, 12, 13, 14, 15, 16];

/// The same with the last part divided off elsewhere.
const LAST_AT_20: [u32; 16] = [1, 2, 3, 4, 5, 6, 7, 8, 9, 10, 11, 12, 13, 14, 15, 20];

/// Whether the first part is divided at 16, at 15 and so on down to 2.
fn divides_down(register: &mut Register) -> bool {
    let mut are_divided = true;
    let mut hi = END;
    for at in (2u32..17).rev() {
        let event = dividing(0, u64::from(at));
        are_divided = replies(register, event, divided(1, at, hi)) && are_divided;
        hi = at;
    }
    are_divided && begin_at(register, &SIXTEEN)
}

/// What comes of sixteen parts that are divided so: the first event that isn't replied to as it should, if there is
/// one, and whether the last part, which has the slot of the one that went, posts there.
fn last_goes_and_comes(rt: &impl Abort, register: &mut Register) -> (Option<usize>, bool) {
    let added = Event::AddSubscriber(row(20, 20, 1).expect(rt, "a row"));
    let events = [
        dividing(15, 20),
        dividing(0, 2),
        dissolving(15),
        dividing(14, 20),
        added,
        posting(15, 51),
    ];
    let want = [
        MANY_PARTS,
        OUT_OF_RANGE,
        dissolved(14, 15, END),
        divided(15, 20, END),
        DONE,
        Reply::Posted(2),
    ];
    let differs = difference(register, &events, &want);
    let words = [
        (SLOT_WORDS + usize::from(FIRST_AREA), 1),
        (SLOT_WORDS + usize::from(FIRST_ZONE) + 4, 1),
    ];
    let is_posted = sees(register, &words) && begin_at(register, &LAST_AT_20);
    (differs, is_posted)
}

#[test]
fn sixteen_parts_and_no_more(rt: HostRuntime) {
    let mut register = opened(rt.alloc(), 1, 4).expect(&rt, "a register");
    let are_divided = divides_down(&mut register);
    let last = last_goes_and_comes(&rt, &mut register);
    drop(register);
    assert_eq!(rt; (are_divided, last), (true, (None, true)));
}

#[test]
fn piece_lies_between(rt: HostRuntime) {
    let given = Reply::Given {
        piece: 1,
        lo: 5,
        hi: 65,
    };
    let taken = Reply::Taken { piece: 1, part: 0 };
    let events = [
        giving(0, 5),
        dissolving(1),
        dissolving(2),
        taking(1, 0),
        dissolving(1),
    ];
    let want = [given, NOT_ADJACENT, NO_PART, taken, dissolved(0, 1, END)];
    let mut register = opened(rt.alloc(), 2, 4).expect(&rt, "a register");
    let differs = difference(&mut register, &events, &want);
    let is_one = begin_at(&register, &[1]) && proposes(&register, &[]);
    drop(register);
    assert_eq!(rt; (differs, is_one), (None, true));
}

/// The cells of the zone of subscriber 100, and of area 2.
const ZONE_OF_100: u8 = FIRST_ZONE + 24;

const AREA_2: u8 = AREA_1 + 1;

/// The plus-words of slot 1 of area 1, area 2 and that zone.
const AREA_WORD: usize = SLOT_WORDS + AREA_1 as usize;

const NEXT_WORD: usize = SLOT_WORDS + AREA_2 as usize;

const ZONE_WORD: usize = SLOT_WORDS + ZONE_OF_100 as usize;

/// Words at 0 but for those of slot 1 of area 1, which are at their limit, and of that zone, which can be raised once.
fn words_near_limit() -> [u64; WORDS] {
    let mut words = [0; WORDS];
    for (plus, word) in [(AREA_WORD, LIMIT), (ZONE_WORD, LIMIT - 1)] {
        words[plus] = word;
        words[plus + CELLS as usize] = word;
    }
    words
}

/// Whether slot 0 has posted a subscriber, slot 1 has these words for area 2 and for the zone, and at its limit is that
/// of area 1 there.
fn has_words(register: &mut Register, area_2: (u64, u64), zone: (u64, u64)) -> bool {
    let sight = register.look();
    sight.words_of(0, AREA_1) == (1, 0)
        && sight.words_of(0, ZONE_OF_100) == (1, 0)
        && sight.words_of(1, AREA_1) == (LIMIT, LIMIT)
        && sight.words_of(1, AREA_2) == area_2
        && sight.words_of(1, ZONE_OF_100) == zone
}

/// A part whose posting is worn goes, and the part in front posts its subscriber; the first event that isn't replied to
/// as it should, if there is one, and whether what is published was right then.
fn worn_part_goes(rt: &impl Abort, register: &mut Register) -> (Option<usize>, bool) {
    let added = Event::AddSubscriber(row(100, 100, 268_435_456).expect(rt, "a row"));
    let events = [added, posting(1, 51), dissolving(1), posting(0, 51)];
    let want = [
        DONE,
        Reply::Refused(Refusal::Worn),
        dissolved(0, 1, END),
        Reply::Posted(2),
    ];
    let differs = difference(register, &events, &want);
    let is_posted = stands(register, &[(AREA_1, 1), (ZONE_OF_100, 1)], &[])
        && has_words(register, (0, 0), (LIMIT - 1, LIMIT - 1));
    (differs, is_posted)
}

/// The same of a part that comes, raises a word to its limit and goes, when the other one comes to its limit too.
fn word_comes_to_limit(rt: &impl Abort, register: &mut Register) -> (Option<usize>, [bool; 2]) {
    let moving = moved(number(100).expect(rt, "a number"), 536_870_912);
    let events = [dividing(0, 65), moving, posting(1, 51)];
    let want = [divided(1, 65, END), DONE, Reply::Posted(2)];
    let differs = difference(register, &events, &want);
    let is_posted = has_words(register, (1, 0), (LIMIT, LIMIT - 1));
    let goes = replies(register, dissolving(1), dissolved(0, 1, END));
    let is_level = has_words(register, (1, 1), (LIMIT, LIMIT))
        && stands(
            register,
            &[(AREA_1, 1), (ZONE_OF_100, 1)],
            &[(AREA_1, -1), (AREA_2, 1)],
        );
    (differs, [is_posted, goes && is_level])
}

/// The same of a part that comes to a slot with worn words, posts what it can there, and goes.
fn part_comes_to_worn_slot(register: &mut Register) -> (Option<usize>, [bool; 2]) {
    let events = [dividing(0, 65), posting(1, 51)];
    let want = [divided(1, 65, END), Reply::Refused(Refusal::Worn)];
    let differs = difference(register, &events, &want);
    let is_posted = has_words(register, (2, 1), (LIMIT, LIMIT));
    let goes = replies(register, dissolving(1), dissolved(0, 1, END));
    let is_level = has_words(register, (2, 2), (LIMIT, LIMIT))
        && stands(
            register,
            &[(AREA_1, 1), (ZONE_OF_100, 1)],
            &[(AREA_1, -1), (AREA_2, 1)],
        );
    (differs, [is_posted, goes && is_level])
}

#[test]
fn words_at_limit_are_taken_back(rt: HostRuntime) -> Result<(), Fail> {
    let mut register = Register::open_from(rt.alloc(), 2, 4, &words_near_limit())?;
    let worn = worn_part_goes(&rt, &mut register);
    let last = word_comes_to_limit(&rt, &mut register);
    let slot = part_comes_to_worn_slot(&mut register);
    drop(register);
    assert_eq!(rt;
        (worn, last, slot),
        ((None, true), (None, [true; 2]), (None, [true; 2]))
    );
    Ok(())
}

/// A register, and a plain one that is asked the same.
#[derive(Drop)]
struct Pair {
    register: Register,
    plain: Plain,
}

impl Pair {
    /// Registers of so many parts of width 4 without a row.
    fn opened(rt: &impl Abort, alloc: Global, parts: u8, stride: u64) -> Self {
        Pair {
            register: opened(alloc, parts, 4).expect(rt, "a register"),
            plain: Plain::new(parts, 4, stride),
        }
    }

    /// How many parts there are.
    fn parts(&self) -> u64 {
        self.plain.regions().parts()
    }

    /// Whether both reply to an event alike.
    fn replies(&mut self, event: &Event) -> bool {
        let want = self.plain.apply(*event);
        ask(&mut self.register, *event) == want
    }

    /// Whether both reply to an event alike, and agree then.
    fn agrees(&mut self, event: &Event) -> bool {
        self.replies(event) && self.plain.agrees(&mut self.register)
    }

    /// Whether both reply to all events alike, and agree then.
    fn agrees_on(&mut self, events: &[Event]) -> bool {
        let mut are_alike = true;
        for event in events {
            are_alike = self.agrees(event) && are_alike;
        }
        are_alike
    }

    /// Whether drawn events on rows, so many, are replied to alike.
    fn changes(&mut self, draws: &mut Draws, events: u32) -> Result<bool, Refusal> {
        let mut are_alike = true;
        for _ in 0..events {
            are_alike = self.replies(&draws.row_event()?) && are_alike;
        }
        Ok(are_alike)
    }

    /// Whether a drawn divide is replied to alike, and nothing that is published changes.
    fn divides(&mut self, draws: &mut Draws) -> bool {
        let before = published(&self.register);
        let event = draws.dividing(&self.plain);
        self.replies(&event) && published(&self.register) == before
    }

    /// Whether a drawn part that isn't the first goes, and just what it had published isn't any more.
    fn dissolves(&mut self, draws: &mut Draws) -> bool {
        let part = draws
            .random
            .below(self.parts().wrapping_sub(1))
            .wrapping_add(1);
        let mut others = published(&self.register);
        for (cell, own) in others.iter_mut().zip(self.plain.published_by(part).iter()) {
            *cell = cell.wrapping_sub(*own);
        }
        self.agrees(&dissolving(part)) && published(&self.register) == others
    }

    /// Whether sixteen parts are made in a drawn order.
    fn sixteen_come(&mut self, draws: &mut Draws) -> bool {
        let mut are_alike = true;
        for _ in 0..400u32 {
            if self.parts() < 16 {
                are_alike = self.divides(draws) && are_alike;
            }
        }
        are_alike && self.parts() == 16 && self.plain.agrees(&mut self.register)
    }

    /// Whether fifteen parts go in a drawn order, with a posting and changes of rows in front of each.
    fn fifteen_go(&mut self, draws: &mut Draws) -> Result<bool, Refusal> {
        let mut are_alike = true;
        for _ in 0..15u32 {
            let post = draws.posting(&self.plain);
            are_alike = self.replies(&post) && self.changes(draws, 2)? && are_alike;
            are_alike = self.dissolves(draws) && are_alike;
        }
        Ok(are_alike && self.parts() == 1)
    }

    /// How many rounds were right of so many, in each of which sixteen parts come and fifteen go, after changes of
    /// rows.
    fn goes_round(&mut self, draws: &mut Draws, rounds: u32) -> Result<u32, Refusal> {
        let are_filled = self.changes(draws, 400)?;
        let mut right = 0u32;
        for _ in 0..rounds {
            let is_right = self.sixteen_come(draws) && self.fifteen_go(draws)?;
            right = right.wrapping_add(u32::from(is_right && are_filled));
        }
        Ok(right)
    }
}

#[test]
fn sixteen_come_and_go(rt: HostRuntime) {
    let mut pair = Pair::opened(&rt, rt.alloc(), 1, 1);
    let right = pair.goes_round(&mut Draws::new(88_172_645_463_325_252, 1), 200);
    drop(pair);
    assert_eq!(rt; right, Ok(200));
}

/// Events after which three parts that were opened, and one that came, have the slots 0, 3, 2 and 1, and slot 4 was
/// that of a part that has gone; each but the third one has posted.
fn events_of_four(rt: &impl Abort) -> [Event; 15] {
    [
        Event::AddSubscriber(row(1, 1, 1).expect(rt, "a row")),
        Event::AddSubscriber(row(11, 2, 1).expect(rt, "a row")),
        Event::AddSubscriber(row(51, 3, 1).expect(rt, "a row")),
        Event::AddSubscriber(row(91, 4, 1).expect(rt, "a row")),
        posting(0, ALL_CELLS),
        posting(1, ALL_CELLS),
        dividing(0, 11),
        posting(1, 1),
        dissolving(2),
        Event::AddSubscriber(row(101, 5, 1).expect(rt, "a row")),
        dividing(2, 101),
        posting(3, ALL_CELLS),
        dividing(2, 91),
        posting(3, ALL_CELLS),
        dissolving(3),
    ]
}

/// Events that follow them, in which parts go and come and post.
fn events_after(rt: &impl Abort) -> [Event; 7] {
    [
        dividing(3, 111),
        Event::AddSubscriber(row(111, 6, 1).expect(rt, "a row")),
        posting(4, ALL_CELLS),
        dissolving(1),
        posting(0, ALL_CELLS),
        dividing(0, 51),
        posting(1, ALL_CELLS),
    ]
}

#[test]
fn other_slots_are_gathered(rt: HostRuntime) {
    let mut pair = Pair::opened(&rt, rt.alloc(), 3, 10);
    let is_right = pair.agrees_on(&events_of_four(&rt));
    let Pair {
        register,
        mut plain,
    } = pair;
    let want = plain.apply(posting(2, ALL_CELLS));
    let (register, posted) = made_with_posting(&rt, rt.alloc(), register, ALL_CELLS);
    let is_posted = want == Reply::Posted(2) && posted == Ok(2);
    let mut pair = Pair { register, plain };
    let goes_on = pair.agrees_on(&events_after(&rt));
    drop(pair);
    assert_eq!(rt; (is_right, is_posted, goes_on), (true, true, true));
}

/// The additions of a subscriber whose number falls as the s_id rises, and of an access.
fn additions(rt: &impl Abort, s_id: u64) -> [Event; 2] {
    let number = 999u64.saturating_sub(s_id);
    [
        Event::AddSubscriber(row(s_id, number, 1).expect(rt, "a row")),
        Event::AddAccess(access_row(s_id, 1, 7).expect(rt, "a row")),
    ]
}

/// Whether a register does all events that add so many subscribers, and posts them.
pub fn are_added(rt: &impl Abort, register: &mut Register, subscribers: u64) -> bool {
    let mut are_done = true;
    for s_id in 1..subscribers.saturating_add(1) {
        for event in additions(rt, s_id).iter() {
            are_done = replies_to(register, event, &DONE) && are_done;
        }
    }
    let posted = ask(register, posting(0, ALL_CELLS));
    are_done && matches!(posted, Reply::Posted(_))
}

/// The first divide or dissolve of a part of so many rows that isn't replied to as it should, if there is one.
fn parted_differs(register: &mut Register) -> Option<usize> {
    let events = [
        (dividing(0, 60), divided(1, 60, END)),
        (dividing(0, 20), divided(1, 20, 60)),
        (dissolving(1), dissolved(0, 1, 60)),
        (dissolving(1), dissolved(0, 1, END)),
    ];
    for (place, (event, reply)) in events.iter().enumerate() {
        if !replies_to(register, event, reply) {
            return Some(place);
        }
    }
    None
}

// Also run with each allocation refused in turn (`refuse_memory.sh`).
#[test]
fn parts_of_many_rows_each_refused(rt: HostRuntime) {
    let mut register = opened(rt.alloc(), 1, 4).expect(&rt, "a register");
    let are_added = are_added(&rt, &mut register, 100);
    let differs = parted_differs(&mut register);
    drop(register);
    assert_eq!(rt; (are_added, differs), (true, None));
}
