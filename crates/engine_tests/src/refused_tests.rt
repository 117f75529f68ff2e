//! Engines where memory or the start of a thread is refused, and where words are worn.
ghost use Rattle.std.specs.Prelude.{◌≡◌, []};

use crate::engines::{
    DONE, are_replies, are_rows, ask, closed, engine_over, filled, has_posting, number, open_gate,
    plain_row, published, read, recounted, row_reply, submit, unposted,
};
use crate::gates::Open;
use crate::run_tests::are_taken;
use arrayvec::ArrayVec;
use hlr_core::{Event, LIMIT, Region, Register, Reply, WORDS};
use hlr_workers::Engine;
use part_table::{END, Place};
use std::alloc::Global;
use std::process::Abort;
use std::sync::Wait;
use std::test::Fail;
use std::thread::Threads;
use tatp_actions::{CELLS, Cells, FIRST_AREA, FIRST_ZONE};
use tatp_rows::Refusal;

/// A size that nothing else asks for: where `refuse_memory.sh` refuses all memory, it does so from a piece of it on.
const SIGNAL: usize = 7_654_321;

/// Whether all memory is refused from here on. One refused piece alone doesn't tell.
fn is_all_refused(alloc: Global) -> bool {
    Vec::<u8>::with_capacity(alloc, SIGNAL).is_err()
        && Vec::<u8>::with_capacity(alloc, SIGNAL).is_err()
}

/// Events that an engine of two parts takes while its workers are out: the first part posts, the subscriber of the
/// second one is moved to where it is, nobody has the third one's number, and both are read.
fn events_out(rt: &impl Abort) -> [Event; 5] {
    let hundred = number(rt, 100);
    [
        posting(),
        Event::UpdateLocation {
            sub_nbr: hundred,
            vlr_location: 268_435_456,
        },
        Event::UpdateLocation {
            sub_nbr: number(rt, 9),
            vlr_location: 1,
        },
        read(100),
        read(7),
    ]
}

/// Whether an engine with both workers out takes events, sees a posting, and settles with all replies.
fn works_on<R: Threads + Wait + Abort + Copy + Send + Sync + 'static>(
    rt: &R,
    engine: &mut Engine<Open>,
) -> bool {
    let mut are_taken = true;
    for (place, event) in events_out(rt).iter().enumerate() {
        are_taken = submit(rt, engine, *event) == Ok(place as u64 + 2) && are_taken;
    }
    let replies = engine.settle(rt);
    let wanted = [
        row_reply(rt, 7),
        row_reply(rt, 100),
        Reply::Posted(2),
        DONE,
        Reply::Refused(Refusal::NoNumber),
        row_reply(rt, 100),
        row_reply(rt, 7),
    ];
    are_taken && are_replies(&replies, &wanted) && has_posting(engine)
}

// Run with all memory refused once both workers are out (`refuse_memory.sh`).
#[test]
fn works_all_refused_1(rt: HostRuntime) {
    let gate = open_gate(&rt, rt.alloc());
    let register = filled(&rt, rt.alloc(), 2, &[7, 100]);
    let mut engine = engine_over(&rt, rt.alloc(), register, &gate);
    let begun = [
        submit(&rt, &mut engine, read(7)),
        submit(&rt, &mut engine, read(100)),
    ];
    let is_refused = is_all_refused(rt.alloc());
    let works = works_on(&rt, &mut engine);
    let more = submit(&rt, &mut engine, read(7));
    let late = closed(&rt, engine);
    let want = if is_refused {
        (Err(Refusal::Memory), 0)
    } else {
        (Ok(0), 1)
    };
    assert_eq!(rt;
        (begun, works, (more, late.len())),
        ([Ok(0), Ok(1)], true, want)
    );
}

/// Whether an engine takes a read behind those that it has; where that was refused, whether those alone are replied to
/// by a settle, and the read is taken then. Where none was pending, no part may be out.
fn is_taken_or_settled<R: Threads + Wait + Abort + Copy + Send + Sync + 'static>(
    rt: &R,
    engine: &mut Engine<Open>,
    pending: &[u64],
    s_id: u64,
) -> bool {
    let why = match submit(rt, engine, read(s_id)) {
        Ok(number) => return number == pending.len() as u64,
        Err(why) => why,
    };
    let is_same = engine.pending() == pending.len();
    let is_home = engine.pending() > 0 || engine.register().all_at_home();
    let replies = engine.settle(rt);
    (why == Refusal::Memory || why == Refusal::Thread)
        && is_same
        && is_home
        && are_rows(rt, &replies, pending)
        && submit(rt, engine, read(s_id)) == Ok(0)
}

/// What is pending once an engine took a read of each part, and whether each was taken or the others were settled.
fn both_taken<R: Threads + Wait + Abort + Copy + Send + Sync + 'static>(
    rt: &R,
    engine: &mut Engine<Open>,
) -> (bool, usize) {
    let first = is_taken_or_settled(rt, engine, &[], 1);
    let second = is_taken_or_settled(rt, engine, &[1], 100);
    (first && second, engine.pending())
}

// Also run with each allocation refused in turn, and each start of a thread (`refuse_memory.sh`).
#[test]
fn settled_each_refused(rt: HostRuntime) {
    let gate = open_gate(&rt, rt.alloc());
    let register = filled(&rt, rt.alloc(), 2, &[1, 100]);
    let mut engine = engine_over(&rt, rt.alloc(), register, &gate);
    let (are_taken, pending) = both_taken(&rt, &mut engine);
    let replies = closed(&rt, engine);
    let is_right = if pending == 2 {
        are_rows(&rt, &replies, &[1, 100])
    } else {
        are_rows(&rt, &replies, &[100])
    };
    assert_eq!(rt; (are_taken, is_right), (true, true));
}

/// A region of a part.
fn part(number: u8, lo: u32, hi: u32) -> Region {
    Region {
        lo,
        hi,
        place: Place::Part(number),
    }
}

/// A region of the first loose piece.
fn piece(lo: u32, hi: u32) -> Region {
    Region {
        lo,
        hi,
        place: Place::Piece(1),
    }
}

/// Whether a register has these regions.
fn has_regions(register: &Register, regions: &[Region]) -> bool {
    register.regions().list() == regions
}

/// Where a re-cut of three parts to 90 and 100 was refused memory: what it left, and which part takes the piece that is
/// loose, if one is. None where the regions are such as it may not leave.
fn left_over(register: &Register) -> Option<(&'static str, Option<u64>)> {
    let (low, last) = (part(0, 1, 41), part(2, 100, END));
    if has_regions(register, &[low, part(1, 41, 85), part(2, 85, END)]) {
        return Some(("left untouched", None));
    }
    if has_regions(register, &[low, part(1, 41, 85), piece(85, 100), last]) {
        return Some(("left the upper piece", Some(1)));
    }
    if has_regions(register, &[low, part(1, 41, 100), last]) {
        return Some(("left the upper bound moved", None));
    }
    if has_regions(register, &[low, piece(41, 90), part(1, 90, 100), last]) {
        return Some(("left the lower piece", Some(0)));
    }
    None
}

/// What a re-cut may not change: the cells and their counts, how many numbers there are, and who has one.
type Left = (
    [i64; CELLS as usize],
    [i64; CELLS as usize],
    Option<Cells>,
    u64,
    Option<u32>,
);

/// The same of a register.
fn left(rt: &impl Abort, register: &Register) -> Left {
    let index = register.index();
    (
        published(register),
        unposted(register),
        recounted(register),
        index.len(),
        index.find(number(rt, 60)),
    )
}

/// What a re-cut of an engine left that was refused memory, with all but the regions as before, once it was taken up
/// again. None where it left more than it may, or can't be.
fn goes_on<R: Threads + Wait + Abort + Copy + Send + Sync + 'static>(
    rt: &R,
    engine: &mut Engine<Open>,
    before: &Left,
) -> Option<&'static str>
    requires { engine.old.replies ≡ [] }
{
    let (what, part) = left_over(engine.register())?;
    if left(rt, engine.register()) != *before {
        return None;
    }
    if let Some(part) = part {
        let taken = submit(rt, engine, Event::Take { piece: 1, part });
        let replies = engine.settle(rt);
        if taken != Ok(0) || !matches!(replies.first(), Some((0, Reply::Taken { .. }))) {
            return None;
        }
    }
    engine.recut_to(rt, &[90, 100]).ok()?;
    Some(what)
}

/// What a re-cut of an engine with a read of each part out left that was refused memory, or that it wasn't; all reads
/// are replied to. None where anything isn't as it should be.
fn recut_beside_reads<R: Threads + Wait + Abort + Copy + Send + Sync + 'static>(
    rt: &R,
    engine: &mut Engine<Open>,
    before: &Left,
) -> Option<&'static str> {
    let s_ids = [1, 60, 99];
    let are_taken = are_taken(rt, engine, &s_ids);
    let cut = engine.recut_to(rt, &[90, 100]);
    let pending = engine.pending();
    let replies = engine.settle(rt);
    if !are_taken || pending != 3 || !are_rows(rt, &replies, &s_ids) {
        return None;
    }
    match cut {
        Ok(2) => Some("left nothing to do"),
        Err(Refusal::Memory) => goes_on(rt, engine, before),
        _ => None,
    }
}

/// A register of three parts with subscribers in each, of which the second part is posted.
fn three_posted(rt: &impl Abort, alloc: Global) -> Register {
    let s_ids = [1, 40, 41, 60, 84, 85, 99, 100, 127];
    let mut register = filled(rt, alloc, 3, &s_ids);
    let posted = ask(&mut register, Event::Post { part: 1, limit: 2 });
    assert!(rt; posted == Reply::Posted(2));
    register
}

// Also run with each allocation refused in turn (`refuse_memory.sh`, which reads the line that tells what was left).
#[test]
fn recut_of_three_each_refused(rt: HostRuntime) -> Result<(), Fail> {
    let gate = open_gate(&rt, rt.alloc());
    let register = three_posted(&rt, rt.alloc());
    let before = left(&rt, &register);
    let mut engine = engine_over(&rt, rt.alloc(), register, &gate);
    let what = recut_beside_reads(&rt, &mut engine, &before);
    let (register, _none) = engine.close(&rt);
    let there = [part(0, 1, 90), part(1, 90, 100), part(2, 100, END)];
    let is_right = has_regions(&register, &there) && left(&rt, &register) == before;
    drop(register);
    assert!(rt; is_right);
    let what = what.ok_or("a re-cut that is not as it should be")?;
    let _ = println!(rt; "{what}");
    Ok(())
}

/// What stands where a part can't come or go: what a re-cut may not change, the regions, and the words.
type Whole = (Left, ArrayVec<Region, 32>, [u64; WORDS]);

/// The same of an engine.
fn whole<R: Threads + Wait + Abort + Copy + Send + Sync + 'static>(
    rt: &R,
    engine: &mut Engine<Open>,
) -> Whole
    requires { engine.old.replies ≡ [] }
    ensures { engine.new.replies ≡ [] }
{
    let words = engine.sight().words;
    let register = engine.register();
    let mut regions = ArrayVec::new();
    for region in register.regions().list() {
        let _full = regions.try_push(*region);
    }
    (left(rt, register), regions, words)
}

/// Whether an engine with a read of each part out replies so to an event by which a part comes or goes; where memory
/// was refused for that, whether all is as before, and it replies so at the second try.
fn is_parted<R: Threads + Wait + Abort + Copy + Send + Sync + 'static>(
    rt: &R,
    engine: &mut Engine<Open>,
    event: Event,
    reply: &Reply,
) -> bool
    requires { engine.old.replies ≡ [] }
    ensures { engine.new.replies ≡ [] }
{
    let before = whole(rt, engine);
    let s_ids = [1, 60, 99];
    let are_taken = are_taken(rt, engine, &s_ids);
    let number = submit(rt, engine, event);
    let mut replies = engine.settle(rt);
    let answer = replies.pop();
    let is_right = are_taken && number == Ok(3) && are_rows(rt, &replies, &s_ids);
    if !matches!(answer, Some((3, Reply::Refused(Refusal::Memory)))) {
        return is_right && matches!(&answer, Some((3, given)) if *given == *reply);
    }
    let is_same = whole(rt, engine) == before;
    let _number = submit(rt, engine, event);
    let replies = engine.settle(rt);
    is_right && is_same && are_given(&replies, reply)
}

/// Whether a reply is given alone.
fn are_given(replies: &[(u64, Reply)], reply: &Reply) -> bool {
    replies.len() == 1 && matches!(replies.first(), Some((0, given)) if *given == *reply)
}

/// Whether an engine over that register divides its second part, and then dissolves the new one and the one in front.
fn comes_and_goes<R: Threads + Wait + Abort + Copy + Send + Sync + 'static>(
    rt: &R,
    engine: &mut Engine<Open>,
) -> bool {
    let divided = Reply::Divided {
        part: 2,
        lo: 60,
        hi: 85,
    };
    let first = Reply::Dissolved {
        part: 1,
        lo: 41,
        hi: 85,
    };
    let second = Reply::Dissolved {
        part: 0,
        lo: 1,
        hi: 85,
    };
    let _none = engine.settle(rt);
    is_parted(rt, engine, Event::Divide { part: 1, at: 60 }, &divided)
        && is_parted(rt, engine, Event::Dissolve { part: 2 }, &first)
        && is_parted(rt, engine, Event::Dissolve { part: 1 }, &second)
}

/// How much of the cells a register has published and has not posted yet, together.
fn together(register: &Register) -> [i64; CELLS as usize] {
    let mut cells = published(register);
    for (cell, pending) in cells.iter_mut().zip(unposted(register).iter()) {
        *cell = cell.wrapping_add(*pending);
    }
    cells
}

// Also run with each allocation refused in turn, and each start of a thread (`refuse_memory.sh`).
#[test]
fn part_comes_and_goes_each_refused(rt: HostRuntime) {
    let gate = open_gate(&rt, rt.alloc());
    let register = three_posted(&rt, rt.alloc());
    let before = together(&register);
    let mut engine = engine_over(&rt, rt.alloc(), register, &gate);
    let comes_and_goes = comes_and_goes(&rt, &mut engine);
    let (register, _none) = engine.close(&rt);
    let is_right = has_regions(&register, &[part(0, 1, 85), part(1, 85, END)])
        && published(&register) == [0; CELLS as usize]
        && unposted(&register) == before;
    drop(register);
    assert_eq!(rt; (comes_and_goes, is_right), (true, true));
}

/// The cells of areas 1 and 2 and of zone 1.
const AREA_1: usize = FIRST_AREA as usize + 1;

const AREA_2: usize = FIRST_AREA as usize + 2;

const ZONE_1: usize = FIRST_ZONE as usize + 1;

/// Words at 0 but for the plus- and minus-words of slot 0 of area 1 and of zone 1, which can be raised once more.
fn nearly_worn() -> [u64; WORDS] {
    let mut words = [0; WORDS];
    for cell in [AREA_1, ZONE_1] {
        words[cell] = LIMIT - 1;
        words[cell + usize::from(CELLS)] = LIMIT - 1;
    }
    words
}

/// A posting of up to 51 cells of the first part, which has fewer pending.
fn posting() -> Event {
    Event::Post { part: 0, limit: 51 }
}

/// A posting of a subscriber; then of a second one, whose cells are worn; and then of its move to another area.
fn events_that_wear(rt: &impl Abort) -> [Event; 6] {
    let moved = Event::UpdateLocation {
        sub_nbr: number(rt, 8),
        vlr_location: 536_870_912,
    };
    [
        Event::AddSubscriber(plain_row(rt, 7)),
        posting(),
        Event::AddSubscriber(plain_row(rt, 8)),
        posting(),
        moved,
        posting(),
    ]
}

/// Those cells of a register: published, and not posted.
fn cells_of(register: &Register) -> [[i64; 3]; 2] {
    let (posted, pending) = (published(register), unposted(register));
    [posted, pending].map(|cells| [cells[AREA_1], cells[AREA_2], cells[ZONE_1]])
}

#[test]
fn words_wear(rt: HostRuntime) {
    let gate = open_gate(&rt, rt.alloc());
    let register = Register::open_from(rt.alloc(), 2, 4, &nearly_worn()).expect(&rt, "a register");
    let mut engine = engine_over(&rt, rt.alloc(), register, &gate);
    for event in &events_that_wear(&rt) {
        let _number = submit(&rt, &mut engine, *event);
    }
    let (register, replies) = engine.close(&rt);
    let cells = cells_of(&register);
    drop(register);
    let wanted = [
        DONE,
        Reply::Posted(2),
        DONE,
        Reply::Refused(Refusal::Worn),
        DONE,
        Reply::Refused(Refusal::Worn),
    ];
    assert_eq!(rt;
        (are_replies(&replies, &wanted), cells),
        (true, [[1, 1, 1], [0, 0, 1]])
    );
}
