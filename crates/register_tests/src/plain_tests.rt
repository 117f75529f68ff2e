//! A register against the plain one, on the same drawn events.
use crate::plain::Plain;
use crate::tests::{
    MOVING, access_row, facility_row, number, opened, recounted, recut, replies_to, row,
};
use arrayvec::ArrayVec;
use hlr_core::{Event, Register, Reply};
use part_table::{Place, Side};
use std::alloc::Global;
use std::process::Abort;
use std::test::Fail;
use tatp_actions::{CELLS, RowReply};
use tatp_rows::{Number, Refusal};
use tests_common::Random;

/// Events that are drawn by numbers that look random, on the subscribers of a plain register. In each second
/// stretch of 512 draws no part gives, so that the loose pieces become fewer.
#[derive(Drop)]
pub struct Draws {
    pub random: Random,
    stride: u64,
    drawn: u64,
}

impl Draws {
    /// Draws on subscribers that are so far apart.
    pub fn new(seed: u64, stride: u64) -> Self {
        Draws {
            random: Random::new(seed),
            stride,
            drawn: 0,
        }
    }

    /// One of so many values from the lowest on, and now and then one out of that range.
    fn field(&mut self, low: u64, count: u64) -> u64 {
        let value = low.wrapping_add(self.random.below(count));
        match self.random.next() % 64 {
            0 => low.wrapping_sub(1),
            1 => low.wrapping_add(count),
            2 => value.wrapping_add(4_294_967_296),
            _ => value,
        }
    }

    /// The same, more often one of the lower values.
    fn low_field(&mut self, low: u64, count: u64) -> u64 {
        let fewer = count >> (self.random.next() % 3);
        self.field(low, fewer)
    }

    /// A type, more often a low one.
    fn kind(&mut self) -> u64 {
        self.low_field(1, 4)
    }

    /// A type that is in range.
    fn row_kind(&mut self) -> u64 {
        (self.random.next() % 4)
            .min(self.random.next() % 4)
            .wrapping_add(1)
    }

    /// An hour at which forwardings start.
    fn start_time(&mut self) -> u64 {
        self.field(0, 3).wrapping_mul(8)
    }

    /// One of the forty subscribers.
    fn subscriber(&mut self) -> u64 {
        (self.random.next() % 40)
            .wrapping_mul(self.stride)
            .wrapping_add(1)
    }

    /// One of them, or now and then an s_id that nobody has or that is out of range.
    fn s_id(&mut self) -> u64 {
        match self.random.next() % 64 {
            0 => 0,
            1 => 16_777_217,
            2 => self.subscriber().wrapping_add(4_294_967_296),
            3..=8 => self.stride.wrapping_mul(40).wrapping_add(1),
            _ => self.subscriber(),
        }
    }

    /// A number that some subscriber may have.
    fn number(&mut self) -> Result<Number, Refusal> {
        number(self.random.next() % 50)
    }

    /// A read.
    fn read(&mut self) -> Event {
        let s_id = self.s_id();
        match self.random.next() % 6 {
            0 => Event::SubscriberData { s_id },
            1 => Event::AccessData {
                s_id,
                ai_type: self.kind(),
            },
            _ => Event::NewDestination {
                s_id,
                sf_type: self.kind(),
                start_time: self.start_time(),
                end_time: self.low_field(1, 24),
            },
        }
    }

    /// An addition of a row, but for forwardings.
    fn addition(&mut self) -> Result<Event, Refusal> {
        let s_id = self.subscriber();
        let value = self.random.next();
        Ok(match self.random.next() % 4 {
            0 => Event::AddSubscriber(row(s_id, value % 50, value % 4_294_967_295 + 1)?),
            1 => Event::AddAccess(access_row(s_id, self.row_kind(), (value % 256) as u8)?),
            _ => Event::AddFacility(facility_row(s_id, self.row_kind(), value % 2)?),
        })
    }

    /// An insertion of a forwarding, or now and then a deletion.
    fn forwarding(&mut self) -> Result<Event, Refusal> {
        let sub_nbr = self.number()?;
        let sf_type = self.kind();
        let start_time = self.start_time();
        if self.random.next() % 5 == 0 {
            return Ok(Event::DeleteForwarding {
                sub_nbr,
                sf_type,
                start_time,
            });
        }
        Ok(Event::InsertForwarding {
            sub_nbr,
            sf_type,
            start_time,
            end_time: self.field(1, 24),
            numberx: self.number()?,
        })
    }

    /// A change of fields.
    fn update(&mut self) -> Result<Event, Refusal> {
        let s_id = self.s_id();
        Ok(match self.random.next() % 4 {
            0 => Event::UpdateSubscriber {
                s_id,
                sf_type: self.kind(),
                bit_1: self.field(0, 2),
                data_a: self.field(0, 256),
            },
            1 => Event::UpdateLocation {
                sub_nbr: self.number()?,
                vlr_location: self.field(1, 4_294_967_295),
            },
            _ => Event::SetActive {
                s_id,
                sf_type: self.kind(),
                is_active: self.field(0, 2),
            },
        })
    }

    /// Another number for a subscriber: in one draw of four the number of its place.
    fn renaming(&mut self) -> Result<Event, Refusal> {
        let s_id = self.s_id();
        let mut sub_nbr = self.number()?;
        if self.random.next() % 4 == 0 {
            sub_nbr = number(s_id / self.stride.max(1) % 50)?;
        }
        Ok(Event::SetNumber { s_id, sub_nbr })
    }

    /// A posting, now and then to a part that is not there.
    pub fn posting(&mut self, plain: &Plain) -> Event {
        Event::Post {
            part: self.random.below(plain.regions().parts().wrapping_add(1)),
            limit: self.random.below(u64::from(CELLS) + 9),
        }
    }

    /// A give of a few subscribers at one end of a part, now and then of none, of too many or by no part.
    fn giving(&mut self, plain: &Plain) -> Event {
        let part = self.random.below(plain.regions().parts().wrapping_add(1));
        let count = self.random.below(self.stride.wrapping_mul(3));
        let (lo, hi) = plain.regions().range_of(part).unwrap_or((1, 1));
        if self.random.next() % 2 == 0 {
            let at = u64::from(lo).wrapping_add(count);
            return Event::Give {
                part,
                side: Side::Low,
                at,
            };
        }
        let at = u64::from(hi).min(self.last()).wrapping_sub(count);
        Event::Give {
            part,
            side: Side::High,
            at,
        }
    }

    /// The number behind the last of the forty subscribers.
    fn last(&self) -> u64 {
        self.stride.wrapping_mul(40).wrapping_add(1)
    }

    /// A take of any piece by any part, or mostly of a loose piece by the part beside it.
    fn taking(&mut self, plain: &Plain) -> Event {
        let (piece, part) = (self.random.next() % 18, self.random.next() % 18);
        let skipped = self.random.next() % 5;
        let regions = plain.regions().list();
        let mut taking = Event::Take { piece, part };
        let mut passed = 0u64;
        for (first, second) in regions.iter().zip(regions.iter().skip(1)) {
            let (piece, part) = match (first.place, second.place) {
                (Place::Part(p), Place::Piece(n)) => (n, p),
                (Place::Piece(n), Place::Part(p)) => (n, p),
                _ => continue,
            };
            if passed < skipped {
                taking = Event::Take {
                    piece: u64::from(piece),
                    part: u64::from(part),
                };
            }
            passed = passed.wrapping_add(1);
        }
        taking
    }

    /// A divide of a part, mostly among the forty subscribers, now and then at one of its ends, or of no part.
    pub fn dividing(&mut self, plain: &Plain) -> Event {
        let part = self.random.below(plain.regions().parts().wrapping_add(1));
        let (lo, hi) = plain.regions().range_of(part).unwrap_or((1, 1));
        let (lo, hi) = (u64::from(lo), u64::from(hi).min(self.last()));
        let count = hi.saturating_sub(lo).wrapping_add(1);
        Event::Divide {
            part,
            at: lo.wrapping_add(self.random.below(count)),
        }
    }

    /// A dissolve of a part, now and then of the first one, or of no part.
    fn dissolving(&mut self, plain: &Plain) -> Event {
        Event::Dissolve {
            part: self.random.below(plain.regions().parts().wrapping_add(1)),
        }
    }

    /// A part that comes or goes: in each first stretch of 2,048 draws more of them come, in each second one more go.
    fn parting(&mut self, plain: &Plain) -> Event {
        let more_come = self.drawn % 4096 < 2048;
        if more_come == (self.random.next() % 8 != 0) {
            self.dividing(plain)
        } else {
            self.dissolving(plain)
        }
    }

    /// Bounds for as many parts as there are, now and then such as don't fit.
    fn bounds(&mut self, plain: &Plain) -> ArrayVec<u64, 16> {
        let mut bounds = ArrayVec::new();
        let mut bound = 1u64;
        for region in plain.regions().list() {
            if matches!(region.place, Place::Part(p) if p > 0) {
                let step = self.random.below(self.stride.wrapping_mul(4));
                bound = bound.wrapping_add(step.max(u64::from(self.random.next() % 64 != 0)));
                let _full = bounds.try_push(bound);
            }
        }
        if self.random.next() % 16 == 0 {
            let _full = bounds.try_push(bound.wrapping_add(1));
        }
        bounds
    }

    /// An event on rows.
    pub fn row_event(&mut self) -> Result<Event, Refusal> {
        match self.random.next() % 15 {
            0..=3 => Ok(self.read()),
            4..=6 => self.addition(),
            7..=10 => self.forwarding(),
            11..=13 => self.update(),
            _ => self.renaming(),
        }
    }

    /// An event of any kind.
    pub fn event(&mut self, plain: &Plain) -> Result<Event, Refusal> {
        self.drawn = self.drawn.wrapping_add(1);
        let gives = self.drawn % 1024 < 512;
        match self.random.next() % 32 {
            0 | 1 => Ok(self.posting(plain)),
            2..=4 if gives => Ok(self.giving(plain)),
            2..=4 => Ok(self.taking(plain)),
            5 | 6 => Ok(self.parting(plain)),
            _ => self.row_event(),
        }
    }
}

/// Each kind of event with each kind of reply that it has.
const KINDS: [(&str, &str); 78] = [
    ("SubscriberData", "Field"),
    ("SubscriberData", "Moving"),
    ("SubscriberData", "NoSubscriber"),
    ("SubscriberData", "Row"),
    ("NewDestination", "Field"),
    ("NewDestination", "Moving"),
    ("NewDestination", "NoDestination"),
    ("NewDestination", "1 number"),
    ("NewDestination", "2 numbers"),
    ("NewDestination", "3 numbers"),
    ("AccessData", "Field"),
    ("AccessData", "Moving"),
    ("AccessData", "NoAccess"),
    ("AccessData", "AccessRow"),
    ("UpdateSubscriber", "Field"),
    ("UpdateSubscriber", "Moving"),
    ("UpdateSubscriber", "NoSubscriber"),
    ("UpdateSubscriber", "NoFacility"),
    ("UpdateSubscriber", "Done"),
    ("UpdateLocation", "Field"),
    ("UpdateLocation", "Moving"),
    ("UpdateLocation", "NoNumber"),
    ("UpdateLocation", "Done"),
    ("InsertForwarding", "Field"),
    ("InsertForwarding", "Moving"),
    ("InsertForwarding", "NoNumber"),
    ("InsertForwarding", "NoFacility"),
    ("InsertForwarding", "Exists"),
    ("InsertForwarding", "Done"),
    ("DeleteForwarding", "Field"),
    ("DeleteForwarding", "Moving"),
    ("DeleteForwarding", "NoNumber"),
    ("DeleteForwarding", "NoForwarding"),
    ("DeleteForwarding", "Done"),
    ("AddSubscriber", "Moving"),
    ("AddSubscriber", "Exists"),
    ("AddSubscriber", "NumberTaken"),
    ("AddSubscriber", "Done"),
    ("AddAccess", "Moving"),
    ("AddAccess", "NoSubscriber"),
    ("AddAccess", "Exists"),
    ("AddAccess", "Done"),
    ("AddFacility", "Moving"),
    ("AddFacility", "NoSubscriber"),
    ("AddFacility", "Exists"),
    ("AddFacility", "Done"),
    ("SetActive", "Field"),
    ("SetActive", "Moving"),
    ("SetActive", "NoFacility"),
    ("SetActive", "Done"),
    ("SetActive, three forwardings off", "Done"),
    ("SetActive, three forwardings on", "Done"),
    ("SetNumber", "Field"),
    ("SetNumber", "Moving"),
    ("SetNumber", "NoSubscriber"),
    ("SetNumber", "NumberTaken"),
    ("SetNumber", "Done"),
    ("SetNumber, its own", "Done"),
    ("Post", "NoPart"),
    ("Post", "Posted"),
    ("Give", "NoPart"),
    ("Give", "OutOfRange"),
    ("Give", "ManyPieces"),
    ("Give", "Given"),
    ("Take", "NoPiece"),
    ("Take", "NoPart"),
    ("Take", "NotAdjacent"),
    ("Take", "Taken"),
    ("Divide", "NoPart"),
    ("Divide", "OutOfRange"),
    ("Divide", "ManyParts"),
    ("Divide", "Divided"),
    ("Dissolve", "NoPart"),
    ("Dissolve", "NotAdjacent"),
    ("Dissolve", "Dissolved"),
    ("recut", "Field"),
    ("recut", "Moving"),
    ("recut", "Ok"),
];

/// The kind of an event, where it comes to a plain register; in a loose piece nothing is switched or renamed.
fn event_kind(plain: &Plain, event: &Event) -> &'static str {
    match *event {
        Event::SubscriberData { .. } => "SubscriberData",
        Event::NewDestination { .. } => "NewDestination",
        Event::AccessData { .. } => "AccessData",
        Event::UpdateSubscriber { .. } => "UpdateSubscriber",
        Event::UpdateLocation { .. } => "UpdateLocation",
        Event::InsertForwarding { .. } => "InsertForwarding",
        Event::DeleteForwarding { .. } => "DeleteForwarding",
        Event::AddSubscriber(_) => "AddSubscriber",
        Event::AddAccess(_) => "AddAccess",
        Event::AddFacility(_) => "AddFacility",
        Event::SetActive {
            s_id,
            sf_type,
            is_active,
        } => {
            if plain.regions().is_loose(s_id) || !plain.switches_three(s_id, sf_type, is_active) {
                return "SetActive";
            }
            if is_active == 0 {
                return "SetActive, three forwardings off";
            }
            "SetActive, three forwardings on"
        }
        Event::SetNumber { s_id, sub_nbr } => {
            if !plain.regions().is_loose(s_id) && plain.is_own(s_id, sub_nbr) {
                return "SetNumber, its own";
            }
            "SetNumber"
        }
        Event::Post { .. } => "Post",
        Event::Give { .. } => "Give",
        Event::Take { .. } => "Take",
        Event::Divide { .. } => "Divide",
        Event::Dissolve { .. } => "Dissolve",
    }
}

/// The kind of a reply.
fn reply_kind(reply: &Reply) -> &'static str {
    match reply {
        Reply::Posted(_) => "Posted",
        Reply::Given { .. } => "Given",
        Reply::Taken { .. } => "Taken",
        Reply::Divided { .. } => "Divided",
        Reply::Dissolved { .. } => "Dissolved",
        Reply::Refused(why) => why.name(),
        Reply::Rows(RowReply::Done) => "Done",
        Reply::Rows(RowReply::Row(_)) => "Row",
        Reply::Rows(RowReply::Numbers(numbers)) => match numbers.len() {
            1 => "1 number",
            2 => "2 numbers",
            _ => "3 numbers",
        },
        Reply::Rows(RowReply::AccessRow { .. }) => "AccessRow",
        Reply::Rows(RowReply::Refused(_)) => "no reply",
    }
}

/// How often each kind of event had each kind of reply.
#[derive(Drop)]
struct Tally {
    counts: [u32; KINDS.len()],
}

impl Tally {
    /// Counts one more; tells whether such a reply to such an event is known.
    fn note(&mut self, event: &str, reply: &str) -> bool {
        for (kind, count) in KINDS.iter().zip(self.counts.iter_mut()) {
            if kind.0 == event && kind.1 == reply {
                *count = count.wrapping_add(1);
                return true;
            }
        }
        false
    }

    /// The first kind of event and reply that came less than thirty times, if there is one.
    fn rare(&self) -> Option<(&'static str, &'static str, u32)> {
        for (kind, count) in KINDS.iter().zip(self.counts.iter()) {
            if *count < 30 {
                return Some((kind.0, kind.1, *count));
            }
        }
        None
    }
}

/// A register whose parts come and go, one of a single part that is given the events on rows alone, and the plain one.
#[derive(Drop)]
struct Trio {
    register: Register,
    undivided: Register,
    plain: Plain,
}

/// Whether an event is one on rows.
fn is_on_rows(event: &Event) -> bool {
    !matches!(
        event,
        Event::Post { .. }
            | Event::Give { .. }
            | Event::Take { .. }
            | Event::Divide { .. }
            | Event::Dissolve { .. }
    )
}

impl Trio {
    /// Empty registers of so many parts and of one.
    fn opened(rt: &impl Abort, alloc: Global, parts: u8, width: u32, stride: u64) -> Self {
        Trio {
            register: opened(alloc, parts, width).expect(rt, "a register"),
            undivided: opened(alloc, 1, width).expect(rt, "a register"),
            plain: Plain::new(parts, width, stride),
        }
    }

    /// Whether all reply to an event alike, but for the single part where it is no event on rows, or answered `Moving`.
    fn is_alike(&mut self, tally: &mut Tally, event: &Event) -> bool {
        let kind = event_kind(&self.plain, event);
        let want = self.plain.apply(*event);
        tally.note(kind, reply_kind(&want))
            && replies_to(&mut self.register, event, &want)
            && (!is_on_rows(event)
                || want == MOVING
                || replies_to(&mut self.undivided, event, &want))
    }

    /// Whether a re-cut is answered alike, and moves the regions alone.
    fn recuts_alike(&mut self, tally: &mut Tally, bounds: &[u64]) -> bool {
        let want = self.plain.recut_to(bounds);
        let kind = match &want {
            Ok(_) => "Ok",
            Err(why) => why.name(),
        };
        tally.note("recut", kind)
            && recut(&mut self.register, bounds) == want
            && self.plain.agrees(&mut self.register)
    }

    /// Whether the register agrees with the plain one, and its counts with those of the single part.
    fn agrees(&mut self) -> bool {
        self.plain.agrees(&mut self.register)
            && recounted(&self.register) == recounted(&self.undivided)
    }

    /// Applies drawn events, and a re-cut now and then; tells the first step at which they differ, if there is one.
    fn difference(
        &mut self,
        tally: &mut Tally,
        draws: &mut Draws,
        steps: u32,
    ) -> Result<Option<u32>, Refusal> {
        for step in 0..steps {
            let event = draws.event(&self.plain)?;
            if !self.is_alike(tally, &event) || (step % 64 == 0 && !self.agrees()) {
                return Ok(Some(step));
            }
            if step % 64 == 63 {
                let bounds = draws.bounds(&self.plain);
                if !self.recuts_alike(tally, bounds.as_slice()) {
                    return Ok(Some(step));
                }
            }
        }
        Ok(if self.agrees() { None } else { Some(steps) })
    }
}

/// The first difference on empty registers of so many parts and this width, if there is one.
fn difference_at(
    rt: &impl Abort,
    alloc: Global,
    tally: &mut Tally,
    parts: u8,
    width: u32,
    stride: u64,
) -> Result<Option<u32>, Refusal> {
    let mut trio = Trio::opened(rt, alloc, parts, width, stride);
    let mut draws = Draws::new(stride.wrapping_add(88_172_645_463_325_252), stride);
    let differs = trio.difference(tally, &mut draws, 20_000);
    drop(trio);
    differs
}

#[test]
fn drawn_events(rt: HostRuntime) -> Result<(), Fail> {
    let mut tally = Tally {
        counts: [0; KINDS.len()],
    };
    let alloc = rt.alloc();
    let differences = [
        difference_at(&rt, alloc, &mut tally, 16, 4, 3),
        difference_at(&rt, alloc, &mut tally, 3, 8, 7),
        difference_at(&rt, alloc, &mut tally, 1, 524_288, 419_430),
    ];
    assert_eq!(rt; (differences, tally.rare()), ([Ok(None); 3], None));
    Ok(())
}

/// Asserts that a register of three parts replies to drawn events as the plain one does.
fn expect_few_alike(rt: &impl Abort, register: &mut Register) -> Result<(), Refusal> {
    let mut plain = Plain::new(3, 8, 7);
    let mut draws = Draws::new(88_172_645_463_325_252, 7);
    let mut differs = None;
    for step in 0..400u32 {
        let event = draws.event(&plain)?;
        let want = plain.apply(event);
        if differs.is_none() && !replies_to(register, &event, &want) {
            differs = Some(step);
        }
    }
    assert_eq!(rt; (differs, plain.agrees(register)), (None, true));
    Ok(())
}

// Run with each allocation refused in turn (`refuse_memory.sh`).
#[test]
fn few_drawn_events_each_refused(rt: HostRuntime) -> Result<(), Fail> {
    let mut register = opened(rt.alloc(), 3, 8)?;
    let alike = expect_few_alike(&rt, &mut register);
    drop(register);
    Ok(alike?)
}
