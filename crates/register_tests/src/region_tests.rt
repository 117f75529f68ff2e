//! Registers of several parts: worked examples of gives, takes, proposals and re-cuts.
use crate::tests::{
    AREA_1, DONE, FIELD, LAST_AREA, LAST_ZONE, MANY_PIECES, MOVING, NO_FACILITY, NO_PART, NO_PIECE,
    NO_SUBSCRIBER, NOT_ADJACENT, OUT_OF_RANGE, ZONE_1, ask, difference, facility_row, moved,
    number, opened, posting, published, ran, read, recounted, recut, replies, row, stands,
    stands_by_hour, unposted,
};
use arrayvec::ArrayVec;
use hlr_core::{Answer, Event, Order, Register, Reply};
use part_table::Place::{Part, Piece};
use part_table::{END, Place, Region, Side};
use std::alloc::Global;
use std::process::Abort;
use std::test::Fail;
use tatp_actions::{CELLS, Cells, FIRST_AREA, FIRST_ZONE, RowReply};
use tatp_rows::{Number, Refusal, Subscriber};
use view_board::{LIMIT, Sight, WORDS};

/// The region of a place.
pub fn region(place: Place, lo: u32, hi: u32) -> Region {
    Region { lo, hi, place }
}

/// Whether a register has these regions.
pub fn has_regions(register: &Register, regions: &[Region]) -> bool {
    register.regions().list() == regions
}

/// Whether these are the bounds that a register proposes.
pub fn proposes(register: &Register, bounds: &[u64]) -> bool {
    if !register.all_at_home() {
        return false;
    }
    let proposed = register.propose();
    proposed.list() == bounds
}

/// Whether a walk over all rows counts so many in these cells, and none in the others.
pub fn scans(register: &Register, counts: &[(u8, u64)]) -> bool {
    let Some(counted) = recounted(register) else {
        return false;
    };
    let mut cells = 0u64;
    for cell in 0..CELLS {
        cells = cells.wrapping_add(u64::from(counted.get(cell) != 0));
    }
    let mut agrees = cells == counts.len() as u64;
    for (cell, count) in counts {
        agrees = agrees && *cell < CELLS && counted.get(*cell % CELLS) == *count;
    }
    agrees
}

/// A gift of the stretch on the high side of a bound.
pub fn giving(part: u64, at: u64) -> Event {
    Event::Give {
        part,
        side: Side::High,
        at,
    }
}

/// A taking of a loose piece.
pub fn taking(piece: u64, part: u64) -> Event {
    Event::Take { piece, part }
}

/// A subscriber of the worked example.
fn example_row(vlr_location: u64, bit_1: u8) -> Result<Subscriber, Refusal> {
    let bits = [bit_1, 0, 0, 0, 0, 0, 0, 0, 0, 0];
    Subscriber::try_new(7, number(7)?, bits, [0; 10], [0; 10], 1, vlr_location)
}

/// A forwarding of the worked example.
fn forwarded(sf_type: u64, start_time: u64, end_time: u64, numberx: u64) -> Result<Event, Refusal> {
    Ok(Event::InsertForwarding {
        sub_nbr: number(7)?,
        sf_type,
        start_time,
        end_time,
        numberx: number(numberx)?,
    })
}

/// A change of the subscriber of the worked example.
fn updated(sf_type: u64) -> Event {
    Event::UpdateSubscriber {
        s_id: 7,
        sf_type,
        bit_1: 1,
        data_a: 9,
    }
}

/// One subscriber with two facilities and four forwardings, some of it posted.
pub fn example_is_filled(register: &mut Register) -> Result<Option<usize>, Refusal> {
    let off = Event::SetActive {
        s_id: 7,
        sf_type: 2,
        is_active: 0,
    };
    let events = [
        Event::AddSubscriber(example_row(268_435_456, 0)?),
        posting(0, 1),
        posting(0, 51),
        moved(number(7)?, 4_294_967_295),
        posting(0, 51),
        Event::AddFacility(facility_row(7, 2, 1)?),
        forwarded(2, 0, 8, 100)?,
        forwarded(2, 8, 16, 200)?,
        forwarded(2, 16, 24, 300)?,
        posting(0, 51),
        off,
        updated(3),
        updated(2),
        Event::AddFacility(facility_row(7, 1, 1)?),
        forwarded(1, 16, 3, 400)?,
    ];
    let want = [
        DONE,
        Reply::Posted(1),
        Reply::Posted(1),
        DONE,
        Reply::Posted(2),
        DONE,
        DONE,
        DONE,
        DONE,
        Reply::Posted(25),
        DONE,
        NO_FACILITY,
        DONE,
        DONE,
        DONE,
    ];
    Ok(difference(register, &events, &want))
}

/// The first event that isn't replied to as it should, if there is one; what two calls answered; and whether all that
/// was to be seen between them was right.
type Moved = (Option<usize>, [Reply; 2], bool);

/// The subscriber's stretch becomes loose, and the other part takes it.
fn stretch_is_moved(register: &mut Register, seven: Number) -> Moved {
    let events = [giving(0, 5), read(7), moved(seven, 5), read(99)];
    let given = Reply::Given {
        piece: 1,
        lo: 5,
        hi: 65,
    };
    let want = [given, MOVING, MOVING, NO_SUBSCRIBER];
    let differs = difference(register, &events, &want);
    let published = [(LAST_AREA, 1), (ZONE_1, 5)];
    let loose = stands_by_hour(register, (1, &published), (-1, &[(ZONE_1, 2)]));
    let posted = ask(register, posting(0, 51));
    let counts = [(LAST_AREA, 1), (ZONE_1, 7)];
    let counted = stands(register, &[], &counts) && scans(register, &[(LAST_AREA, 1), (ZONE_1, 7)]);
    let taken = ask(register, taking(1, 1));
    let there = [region(Part(0), 1, 5), region(Part(1), 5, END)];
    let is_right = loose && counted && has_regions(register, &there);
    (differs, [posted, taken], is_right)
}

/// The part that took it posts it, and hands it back by a re-cut to what is proposed.
fn stretch_is_handed_back(
    register: &mut Register,
    row: Subscriber,
) -> (Moved, Result<u8, Refusal>) {
    let row = Reply::Rows(RowReply::Row(row));
    let counts = [(LAST_AREA, 1), (ZONE_1, 7)];
    let first = [read(7), posting(1, 51)];
    let taken = difference(register, &first, &[row, Reply::Posted(2)]);
    let proposed = stands(register, &counts, &[]) && proposes(register, &[9]);
    let moves = recut(register, &[9]);
    let moved = stands(register, &counts, &[]);
    let giver = ask(register, posting(0, 51));
    let twice = [(LAST_AREA, 2), (ZONE_1, 14)];
    let doubled = stands(register, &twice, &[(LAST_AREA, -1), (ZONE_1, -7)]);
    let taker = ask(register, posting(1, 51));
    let is_right = proposed && moved && doubled && stands(register, &counts, &[]);
    ((taken, [giver, taker], is_right), moves)
}

/// The worked example of one stretch that goes over, and comes back.
fn expect_example(rt: &impl Abort, register: &mut Register) -> Result<(), Refusal> {
    let (seven, row) = (number(7)?, example_row(4_294_967_295, 1)?);
    let opening = [region(Part(0), 1, 65), region(Part(1), 65, END)];
    let empty = stands(register, &[], &[]) && scans(register, &[]);
    let opens = empty && has_regions(register, &opening);
    let filled = example_is_filled(register)?;
    let moved = stretch_is_moved(register, seven);
    let back = stretch_is_handed_back(register, row);
    let taking = Reply::Taken { piece: 1, part: 1 };
    let two = [Reply::Posted(2), Reply::Posted(2)];
    assert_eq!(rt;
        (opens, filled, moved, back),
        (
            true,
            None,
            (None, [Reply::Posted(26), taking], true),
            ((None, two, true), Ok(1)),
        )
    );
    Ok(())
}

#[test]
fn stretch_goes_over(rt: HostRuntime) -> Result<(), Fail> {
    let mut register = opened(rt.alloc(), 2, 4)?;
    let example = expect_example(&rt, &mut register);
    drop(register);
    Ok(example?)
}

/// Whether gives by two parts are refused out of their ranges.
fn refuses_gives(register: &mut Register) -> bool {
    let low = Event::Give {
        part: 2,
        side: Side::Low,
        at: 70,
    };
    replies(register, giving(0, 1), OUT_OF_RANGE)
        && replies(register, giving(0, 65), OUT_OF_RANGE)
        && replies(register, low, NO_PART)
}

/// Whether sixteen pieces of one subscriber are given, and no more, and the last is taken and given anew.
pub fn gives_sixteen(register: &mut Register) -> bool {
    let mut are_given = true;
    for number in 1u8..17 {
        let lo = 65u32.wrapping_sub(u32::from(number));
        let given = Reply::Given {
            piece: number,
            lo,
            hi: lo.wrapping_add(1),
        };
        are_given = replies(register, giving(0, u64::from(lo)), given) && are_given;
    }
    let taken = Reply::Taken { piece: 16, part: 0 };
    let last = Reply::Given {
        piece: 16,
        lo: 49,
        hi: 50,
    };
    are_given
        && replies(register, giving(0, 48), MANY_PIECES)
        && replies(register, giving(0, 49), OUT_OF_RANGE)
        && replies(register, taking(16, 0), taken)
        && replies(register, giving(0, 49), last)
}

// Also run with each allocation refused in turn (`refuse_memory.sh`).
#[test]
fn gives_of_two_parts_each_refused(rt: HostRuntime) -> Result<(), Fail> {
    let mut register = opened(rt.alloc(), 2, 4)?;
    let refuses = refuses_gives(&mut register);
    let gives = gives_sixteen(&mut register);
    drop(register);
    assert!(rt; refuses && gives);
    Ok(())
}

/// Whether a piece between two parts is taken by its neighbour alone.
fn takes_from_neighbours(register: &mut Register) -> bool {
    let given = Reply::Given {
        piece: 1,
        lo: 11,
        hi: 41,
    };
    let taken = Reply::Taken { piece: 1, part: 0 };
    let loose = [
        region(Part(0), 1, 11),
        region(Piece(1), 11, 41),
        region(Part(1), 41, 85),
        region(Part(2), 85, END),
    ];
    replies(register, giving(0, 11), given)
        && replies(register, taking(1, 2), NOT_ADJACENT)
        && replies(register, taking(2, 1), NO_PIECE)
        && replies(register, taking(1, 3), NO_PART)
        && has_regions(register, &loose)
        && replies(register, taking(1, 0), taken)
}

/// Whether re-cuts of three parts answer how many bounds moved, and refuse bounds that don't fit.
fn recuts_three(register: &mut Register) -> bool {
    let low = Event::Give {
        part: 2,
        side: Side::Low,
        at: 8,
    };
    let given = Reply::Given {
        piece: 1,
        lo: 6,
        hi: 8,
    };
    let field = Err(Refusal::Field);
    recut(register, &[90, 100]) == Ok(2)
        && recut(register, &[5, 6]) == Ok(2)
        && recut(register, &[5, 6]) == Ok(0)
        && recut(register, &[6, 6]) == field
        && recut(register, &[6]) == field
        && recut(register, &[1, 9]) == field
        && ask(register, low) == given
        && recut(register, &[5, 6]) == Err(Refusal::Moving)
        && recut(register, &[6, 6]) == field
}

#[test]
fn three_parts(rt: HostRuntime) -> Result<(), Fail> {
    let mut register = opened(rt.alloc(), 3, 4)?;
    let takes = takes_from_neighbours(&mut register);
    let recuts = recuts_three(&mut register);
    drop(register);
    assert!(rt; takes && recuts);
    Ok(())
}

/// Whether four parts have their bounds moved up and down, and back.
fn recuts_four(register: &mut Register) -> bool {
    let there = [
        region(Part(0), 1, 20),
        region(Part(1), 20, 70),
        region(Part(2), 70, 90),
        region(Part(3), 90, END),
    ];
    proposes(register, &[5, 9, 13])
        && recut(register, &[20, 70, 90]) == Ok(3)
        && has_regions(register, &there)
        && recut(register, &[33, 65, 97]) == Ok(3)
}

/// Whether nine subscribers of the last zone, once posted, draw all bounds to it.
fn last_zone_draws(register: &mut Register) -> Result<bool, Refusal> {
    let mut are_added = true;
    for s_id in 125u64..134 {
        let added = Event::AddSubscriber(row(s_id, s_id, 1)?);
        are_added = ask(register, added) == DONE && are_added;
    }
    let posted = ask(register, posting(3, 51)) == Reply::Posted(2);
    Ok(are_added && posted && proposes(register, &[117, 121, 125]))
}

#[test]
fn four_parts(rt: HostRuntime) -> Result<(), Fail> {
    let mut register = opened(rt.alloc(), 4, 4)?;
    let recuts = recuts_four(&mut register);
    let draws = last_zone_draws(&mut register);
    drop(register);
    assert_eq!(rt; (recuts, draws), (true, Ok(true)));
    Ok(())
}

/// Whether this is the last of sixteen parts, and none has anything to post.
fn ends_with_sixteenth(register: &mut Register) -> bool {
    let last = region(Part(15), 121, END);
    let regions = register.regions().list();
    regions.len() == 16
        && regions.last() == Some(&last)
        && ask(register, posting(15, 51)) == Reply::Posted(0)
        && ask(register, posting(16, 51)) == NO_PART
}

/// Whether a register of one part proposes no bound.
fn one_proposes_none(alloc: Global) -> Result<bool, Refusal> {
    let one = opened(alloc, 1, 4)?;
    let none = proposes(&one, &[]);
    drop(one);
    Ok(none)
}

#[test]
fn one_part_and_sixteen_each_refused(rt: HostRuntime) -> Result<(), Fail> {
    let none = one_proposes_none(rt.alloc())?;
    let mut sixteen = opened(rt.alloc(), 16, 4)?;
    let ends = ends_with_sixteenth(&mut sixteen);
    drop(sixteen);
    assert!(rt; none && ends);
    Ok(())
}

#[test]
fn numbers_of_parts(rt: HostRuntime) -> Result<(), Fail> {
    let alloc = rt.alloc();
    let mut refused = 0u8;
    for (parts, width) in [(0, 4), (17, 4), (2, 0), (2, 524_289)] {
        let opened = Register::open(alloc, parts, width);
        refused = refused.wrapping_add(u8::from(matches!(opened, Err(Refusal::Field))));
        drop(opened);
    }
    assert_eq!(rt; refused, 4);
    Ok(())
}

/// The plus-words of area 1 and of zone 1 in slot 0, and the minus-word of zone 1.
const AREA_WORD: usize = AREA_1 as usize;

const ZONE_WORD: usize = ZONE_1 as usize;

const ZONE_MINUS: usize = ZONE_WORD + CELLS as usize;

/// Words at 0 but for the plus-word and the minus-word of slot 0 and zone 1.
fn words_with(plus: u64, minus: u64) -> [u64; WORDS] {
    let mut words = [0; WORDS];
    words[ZONE_WORD] = plus;
    words[ZONE_MINUS] = minus;
    words
}

/// Whether no register opens over words with these two.
fn refuses_words(alloc: Global, parts: u8, plus: u64, minus: u64) -> bool {
    let opened = Register::open_from(alloc, parts, 4, &words_with(plus, minus));
    let refuses = matches!(opened, Err(Refusal::Field));
    drop(opened);
    refuses
}

/// Whether a sight has these words, and all others are 0.
pub fn are_seen(sight: &Sight, words: &[(usize, u64)]) -> bool {
    let found = sight.words.iter().filter(|word| **word != 0).count();
    let mut agrees = found == words.len();
    for (place, word) in words {
        agrees = agrees && sight.words.get(*place) == Some(word);
    }
    agrees
}

/// Whether a register sees these words.
pub fn sees(register: &mut Register, words: &[(usize, u64)]) -> bool {
    are_seen(&register.look(), words)
}

/// A posting over words of which two have a value, what it comes to, and what the same posting answers after it.
#[derive(Drop)]
struct Posting {
    word: u64,
    reply: Reply,
    raised: u64,
    published: i64,
    unposted: i64,
    again: Reply,
}

/// Whether the words and cells are those after a posting.
fn is_posted(register: &mut Register, posting_is: &Posting) -> bool {
    let words = [
        (AREA_WORD, 1),
        (ZONE_WORD, posting_is.raised),
        (ZONE_MINUS, posting_is.word),
    ];
    let published = [(AREA_1, 1), (ZONE_1, posting_is.published)];
    sees(register, &words) && stands(register, &published, &[(ZONE_1, posting_is.unposted)])
}

/// Whether the counts of a subscriber are posted so, and seen, and the same posting changes nothing more.
fn posts(register: &mut Register, posting_is: &Posting) -> Result<bool, Refusal> {
    let word = posting_is.word;
    let added = Event::AddSubscriber(row(7, 7, 268_435_456)?);
    let is_added = replies(register, added, DONE)
        && sees(register, &[(ZONE_WORD, word), (ZONE_MINUS, word)]);
    let first = ask(register, posting(0, 51)) == posting_is.reply;
    let is_first = first && is_posted(register, posting_is);
    let again = ask(register, posting(0, 51)) == posting_is.again;
    Ok(is_added && is_first && again && is_posted(register, posting_is))
}

/// The same of a register of two parts over such words.
fn posts_over(alloc: Global, posting_is: &Posting) -> Result<bool, Refusal> {
    let words = words_with(posting_is.word, posting_is.word);
    let opened = match Register::open_from(alloc, 2, 4, &words) {
        Err(Refusal::Memory) => Register::open_from(alloc, 2, 4, &words),
        opened => opened,
    };
    let mut register = opened?;
    let is_posted = posts(&mut register, posting_is);
    drop(register);
    is_posted
}

// Also run with each allocation refused in turn (`refuse_memory.sh`).
#[test]
fn words_that_stand_each_refused(rt: HostRuntime) -> Result<(), Fail> {
    let alloc = rt.alloc();
    let uneven = refuses_words(alloc, 2, 5, 4)
        && refuses_words(alloc, 2, 4, 5)
        && refuses_words(alloc, 2, 1, 0);
    let great = refuses_words(alloc, 2, LIMIT + 1, LIMIT + 1) && refuses_words(alloc, 17, 5, 5);
    let level = Posting {
        word: 5,
        reply: Reply::Posted(2),
        raised: 6,
        published: 1,
        unposted: 0,
        again: Reply::Posted(0),
    };
    let full = Posting {
        word: LIMIT,
        reply: Reply::Refused(Refusal::Worn),
        raised: LIMIT,
        published: 0,
        unposted: 1,
        again: Reply::Refused(Refusal::Worn),
    };
    let raised = posts_over(alloc, &level)?;
    let worn = posts_over(alloc, &full)?;
    assert_eq!(rt; (uneven, great, raised, worn), (true, true, true, true));
    Ok(())
}

/// Words at 0 but for the plus- and minus-words of slot 0 of area 1 and of zone 1, which can be raised once more.
fn nearly_worn() -> [u64; WORDS] {
    let mut words = [0; WORDS];
    for word in [
        AREA_WORD,
        AREA_WORD + usize::from(CELLS),
        ZONE_WORD,
        ZONE_MINUS,
    ] {
        words[word] = LIMIT - 1;
    }
    words
}

/// A posting of a subscriber; then of a second one, whose cells are worn; and then of its move to another area. The
/// first event that isn't replied to as it should, if there is one, and whether what is posted and what isn't was right
/// behind the second posting and the third.
fn wears(register: &mut Register) -> Result<([Option<usize>; 2], [bool; 2]), Refusal> {
    let worn = [
        Event::AddSubscriber(row(7, 7, 268_435_456)?),
        posting(0, 51),
        Event::AddSubscriber(row(8, 8, 268_435_456)?),
        posting(0, 51),
    ];
    let want = [DONE, Reply::Posted(2), DONE, Reply::Refused(Refusal::Worn)];
    let first = difference(register, &worn, &want);
    let both = stands(
        register,
        &[(AREA_1, 1), (ZONE_1, 1)],
        &[(AREA_1, 1), (ZONE_1, 1)],
    );
    let moved = [moved(number(8)?, 536_870_912), posting(0, 51)];
    let want = [DONE, Reply::Refused(Refusal::Worn)];
    let second = difference(register, &moved, &want);
    let last = stands(
        register,
        &[(AREA_1, 1), (AREA_1 + 1, 1), (ZONE_1, 1)],
        &[(ZONE_1, 1)],
    );
    Ok(([first, second], [both, last]))
}

#[test]
fn words_wear(rt: HostRuntime) -> Result<(), Fail> {
    let mut register = Register::open_from(rt.alloc(), 2, 4, &nearly_worn())?;
    let wears = wears(&mut register);
    drop(register);
    assert_eq!(rt; wears, Ok(([None; 2], [true; 2])));
    Ok(())
}

/// Where a re-cut of three parts to 90 and 100 was refused memory: what it left, and what takes the piece that is
/// loose, if one is. None where the regions are such as it may not leave.
fn left_over(register: &Register) -> Option<(&'static str, Option<Event>)> {
    let untouched = [
        region(Part(0), 1, 41),
        region(Part(1), 41, 85),
        region(Part(2), 85, END),
    ];
    let upper_given = [
        region(Part(0), 1, 41),
        region(Part(1), 41, 85),
        region(Piece(1), 85, 100),
        region(Part(2), 100, END),
    ];
    let upper_moved = [
        region(Part(0), 1, 41),
        region(Part(1), 41, 100),
        region(Part(2), 100, END),
    ];
    let lower_given = [
        region(Part(0), 1, 41),
        region(Piece(1), 41, 90),
        region(Part(1), 90, 100),
        region(Part(2), 100, END),
    ];
    if has_regions(register, &untouched) {
        return Some(("left untouched", None));
    }
    if has_regions(register, &upper_given) {
        return Some(("left the upper piece", Some(taking(1, 1))));
    }
    if has_regions(register, &upper_moved) {
        return Some(("left the upper bound moved", None));
    }
    if has_regions(register, &lower_given) {
        return Some(("left the lower piece", Some(taking(1, 0))));
    }
    None
}

/// What a re-cut left that was refused memory, with all but the regions as before, once it was taken up again. None
/// where it left more than it may, or can't be.
fn goes_on(register: &mut Register, sub_nbr: Number, before: &Left) -> Option<&'static str> {
    let Some((what, rest)) = left_over(register) else {
        return None;
    };
    if left(register, sub_nbr) != *before {
        return None;
    }
    if let Some(event) = rest {
        let taken = ask(register, event);
        if !matches!(taken, Reply::Taken { .. }) {
            return None;
        }
    }
    recut(register, &[90, 100]).ok()?;
    Some(what)
}

/// What a re-cut leaves of a register.
type Left = (
    [i64; CELLS as usize],
    [i64; CELLS as usize],
    Option<Cells>,
    u64,
    Option<u32>,
);

/// The cells of a register and their counts, how many numbers there are, and who has one.
fn left(register: &Register, sub_nbr: Number) -> Left {
    let index = register.index();
    (
        published(register),
        unposted(register),
        recounted(register),
        index.len(),
        index.find(sub_nbr),
    )
}

/// What a re-cut left that was refused memory in its middle, or that it wasn't; it moves the regions alone. None where
/// it doesn't.
fn recut_moves_regions(register: &mut Register) -> Result<Option<&'static str>, Refusal> {
    let mut are_added = true;
    for s_id in [1u64, 40, 41, 60, 84, 85, 99, 100, 127] {
        let added = Event::AddSubscriber(row(s_id, s_id, 1)?);
        are_added = replies(register, added, DONE) && are_added;
    }
    are_added = ask(register, posting(1, 2)) == Reply::Posted(2) && are_added;
    let sixty = number(60)?;
    let before = left(register, sixty);
    let what = match recut(register, &[90, 100]) {
        Ok(2) => Some("left nothing to do"),
        Err(Refusal::Memory) => goes_on(register, sixty, &before),
        _ => None,
    };
    let there = [
        region(Part(0), 1, 90),
        region(Part(1), 90, 100),
        region(Part(2), 100, END),
    ];
    let counts = [
        (FIRST_AREA, 9),
        (FIRST_ZONE, 1),
        (FIRST_ZONE + 9, 1),
        (FIRST_ZONE + 10, 1),
        (FIRST_ZONE + 14, 1),
        (FIRST_ZONE + 20, 1),
        (FIRST_ZONE + 21, 1),
        (FIRST_ZONE + 24, 2),
        (LAST_ZONE, 1),
    ];
    let stays = left(register, sixty) == before && scans(register, &counts);
    let row = Reply::Rows(RowReply::Row(row(60, 60, 1)?));
    let moved = has_regions(register, &there) && replies(register, read(60), row);
    Ok(if are_added && stays && moved {
        what
    } else {
        None
    })
}

// Also run with each allocation refused in turn (`refuse_memory.sh`, which reads the line that tells what was left).
#[test]
fn recut_of_three_each_refused(rt: HostRuntime) -> Result<(), Fail> {
    let mut register = opened(rt.alloc(), 3, 4)?;
    let moves = recut_moves_regions(&mut register);
    drop(register);
    let what = moves?.ok_or("a re-cut that is not as it should be")?;
    let _ = println!(rt; "{what}");
    Ok(())
}

/// Asserts the answers to a list that gives, takes and re-cuts between events on rows.
fn expect_answers(rt: &impl Abort, register: &mut Register) -> Result<(), Refusal> {
    let (added, changed, seventy) = (row(7, 70, 1)?, row(7, 70, 2)?, number(70)?);
    let mut bounds = ArrayVec::new();
    bounds.push(33);
    let orders = [
        Order::Event(Event::AddSubscriber(added)),
        Order::Event(giving(0, 5)),
        Order::Event(read(7)),
        Order::Event(taking(1, 1)),
        Order::Recut(bounds),
        Order::Event(moved(seventy, 2)),
        Order::Event(read(7)),
    ];
    let given = Reply::Given {
        piece: 1,
        lo: 5,
        hi: 65,
    };
    let want = [
        Answer::Reply(DONE),
        Answer::Reply(given),
        Answer::Reply(MOVING),
        Answer::Reply(Reply::Taken { piece: 1, part: 1 }),
        Answer::Recut(Ok(1)),
        Answer::Reply(DONE),
        Answer::Reply(Reply::Rows(RowReply::Row(changed))),
    ];
    let answers = ran(register, &orders)?;
    assert_eq!(rt; answers.as_slice(), want.as_slice());
    Ok(())
}

#[test]
fn orders_of_each_kind(rt: HostRuntime) -> Result<(), Fail> {
    let mut register = opened(rt.alloc(), 2, 4)?;
    let answered = expect_answers(&rt, &mut register);
    drop(register);
    Ok(answered?)
}
