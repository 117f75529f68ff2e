//! What no clause says: worked examples of openings, gives, takes, divides, dissolves, proposals and re-cuts, beside a
//! plain model.
use super::*;
use std::process::Abort;
use tatp_rows::Refusal;

// How many s_ids the model has.
const MODEL: usize = 200;

// A region of a part.
fn part(p: u8, lo: u32, hi: u32) -> Region {
    Region {
        lo,
        hi,
        place: Place::Part(p),
    }
}

// A region of a loose piece.
fn piece(n: u8, lo: u32, hi: u32) -> Region {
    Region {
        lo,
        hi,
        place: Place::Piece(n),
    }
}

// Regions of so many parts, opened at width 4.
fn opened(rt: &impl Abort, parts: u8) -> Regions {
    Regions::opening(parts, 4).expect(rt, "regions")
}

// What a give, a divide or a dissolve answers.
type Given = Result<(u8, u32, u32), Refusal>;

// A give, a take, a divide or a dissolve, and what it answers.
#[derive(Clone, Copy)]
enum Ask {
    Give(u64, Side, u64, Given),
    Take(u64, u64, Result<Side, Refusal>),
    Divide(u64, u64, Given),
    Dissolve(u64, Given),
}

use Ask::{Dissolve, Divide, Give, Take};

// Compares what a give answers, asked first and then done.
fn expect_give(rt: &impl Abort, regions: &mut Regions, p: u64, side: Side, at: u64, wanted: Given) {
    let asked = regions.give_answer(p, side, at);
    assert_eq!(rt; [asked, regions.give(p, side, at)], [wanted; 2]);
}

// Compares what a take answers, asked first and then done.
fn expect_take(
    rt: &impl Abort,
    regions: &mut Regions,
    n: u64,
    q: u64,
    wanted: Result<Side, Refusal>,
) {
    let asked = regions.take_answer(n, q);
    assert_eq!(rt; [asked, regions.take(n, q)], [wanted; 2]);
}

// Compares what a divide answers, asked first and then done.
fn expect_divide(rt: &impl Abort, regions: &mut Regions, p: u64, at: u64, wanted: Given) {
    let asked = regions.dividing(p, at).map(|told| told.1);
    assert_eq!(rt; [asked, regions.divide(p, at)], [wanted; 2]);
}

// Compares what a dissolve answers, asked first and then done.
fn expect_dissolve(rt: &impl Abort, regions: &mut Regions, p: u64, wanted: Given) {
    let asked = regions.dissolving(p).map(|told| told.1);
    assert_eq!(rt; [asked, regions.dissolve(p)], [wanted; 2]);
}

// Compares the answers of gives, takes, divides and dissolves, one after another.
fn expect_each(rt: &impl Abort, regions: &mut Regions, asks: &[Ask]) {
    for ask in asks {
        match *ask {
            Give(p, side, at, wanted) => expect_give(rt, regions, p, side, at, wanted),
            Take(n, q, wanted) => expect_take(rt, regions, n, q, wanted),
            Divide(p, at, wanted) => expect_divide(rt, regions, p, at, wanted),
            Dissolve(p, wanted) => expect_dissolve(rt, regions, p, wanted),
        }
    }
}

// Compares the list of the regions.
fn expect_list(rt: &impl Abort, regions: &Regions, wanted: &[Region]) {
    assert_eq!(rt; regions.list(), wanted);
}

#[test]
fn parts_open_with_equal_zones(rt: HostRuntime) {
    let regions = opened(&rt, 2);
    expect_list(&rt, &regions, &[part(0, 1, 65), part(1, 65, 16_777_217)]);
    let places = [
        regions.place(64),
        regions.place(65),
        regions.place(16_777_216),
    ];
    let last = opened(&rt, 16).list().last().copied();
    let refused = [
        Regions::opening(0, 4).err(),
        Regions::opening(17, 4).err(),
        Regions::opening(2, 0).err(),
        Regions::opening(2, 524_289).err(),
    ];
    assert_eq!(rt;
        (places, last, refused),
        (
            [Place::Part(0), Place::Part(1), Place::Part(1)],
            Some(part(15, 121, 16_777_217)),
            [Some(Refusal::Field); 4]
        )
    );
}

#[test]
fn a_stretch_goes_over(rt: HostRuntime) {
    let mut regions = opened(&rt, 2);
    expect_each(&rt, &mut regions, &[Give(0, Side::High, 5, Ok((1, 5, 65)))]);
    let three = [part(0, 1, 5), piece(1, 5, 65), part(1, 65, 16_777_217)];
    expect_list(&rt, &regions, &three);
    assert!(rt; regions.place(5) == Place::Piece(1));
    expect_each(&rt, &mut regions, &[Take(1, 1, Ok(Side::Low))]);
    expect_list(&rt, &regions, &[part(0, 1, 5), part(1, 5, 16_777_217)]);
    let back = [
        Give(1, Side::Low, 9, Ok((1, 5, 9))),
        Take(1, 0, Ok(Side::High)),
    ];
    expect_each(&rt, &mut regions, &back);
}

#[test]
fn refusals_change_nothing(rt: HostRuntime) {
    let mut regions = opened(&rt, 3);
    let asks = [
        Give(0, Side::High, 1, Err(Refusal::OutOfRange)),
        Give(0, Side::High, 41, Err(Refusal::OutOfRange)),
        Give(3, Side::Low, 1, Err(Refusal::NoPart)),
        Give(0, Side::High, 11, Ok((1, 11, 41))),
        Take(1, 2, Err(Refusal::NotAdjacent)),
        Take(2, 1, Err(Refusal::NoPiece)),
        Take(2, 9, Err(Refusal::NoPiece)),
        Take(1, 9, Err(Refusal::NoPart)),
    ];
    expect_each(&rt, &mut regions, &asks);
    let four = [
        part(0, 1, 11),
        piece(1, 11, 41),
        part(1, 41, 85),
        part(2, 85, 16_777_217),
    ];
    expect_list(&rt, &regions, &four);
    expect_each(&rt, &mut regions, &[Take(1, 0, Ok(Side::High))]);
}

#[test]
fn answers_change_nothing(rt: HostRuntime) {
    let mut regions = opened(&rt, 2);
    let gives = [
        regions.give_answer(0, Side::High, 5),
        regions.give_answer(0, Side::Low, 65),
        regions.give_answer(2, Side::High, 5),
    ];
    let refused = regions.take_answer(1, 0);
    expect_list(&rt, &regions, opened(&rt, 2).list());
    expect_each(&rt, &mut regions, &[Give(0, Side::High, 5, Ok((1, 5, 65)))]);
    let takes = [
        regions.take_answer(1, 2),
        regions.take_answer(1, 1),
        regions.take_answer(1, 0),
    ];
    assert_eq!(rt;
        (gives, refused, takes),
        (
            [
                Ok((1, 5, 65)),
                Err(Refusal::OutOfRange),
                Err(Refusal::NoPart)
            ],
            Err(Refusal::NoPiece),
            [Err(Refusal::NoPart), Ok(Side::Low), Ok(Side::High)]
        )
    );
    let three = [part(0, 1, 5), piece(1, 5, 65), part(1, 65, 16_777_217)];
    expect_list(&rt, &regions, &three);
}

#[test]
fn regions_are_found(rt: HostRuntime) {
    let mut regions = opened(&rt, 2);
    let gives = [
        Give(1, Side::Low, 70, Ok((1, 65, 70))),
        Give(0, Side::High, 5, Ok((2, 5, 65))),
    ];
    expect_each(&rt, &mut regions, &gives);
    let indexes = [
        regions.index(4),
        regions.index(5),
        regions.index(16_777_216),
    ];
    let of_parts = [
        regions.index_of_part(0),
        regions.index_of_part(1),
        regions.index_of_part(2),
    ];
    let giving = regions.giving(1, Side::High, 80);
    let taking = regions.taking(1, 1);
    assert_eq!(rt;
        (regions.parts(), indexes, of_parts, giving, taking),
        (
            2,
            [0, 1, 3],
            [Some(0), Some(3), None],
            Ok((3, (3, 80, 16_777_217))),
            Ok((2, Side::Low))
        )
    );
}

// Gives the last s_id of part 0 sixteen times, each to a piece of its own.
fn give_sixteen(rt: &impl Abort, regions: &mut Regions) {
    for n in 1..17u8 {
        let at = 65 - u32::from(n);
        expect_give(
            rt,
            regions,
            0,
            Side::High,
            u64::from(at),
            Ok((n, at, at + 1)),
        );
    }
}

#[test]
fn sixteen_pieces_are_the_most(rt: HostRuntime) {
    let mut regions = opened(&rt, 2);
    give_sixteen(&rt, &mut regions);
    let asks = [
        Give(0, Side::High, 48, Err(Refusal::ManyPieces)),
        Give(0, Side::High, 49, Err(Refusal::OutOfRange)),
        Take(16, 0, Ok(Side::High)),
        Give(0, Side::High, 49, Ok((16, 49, 50))),
    ];
    expect_each(&rt, &mut regions, &asks);
}

// Divides of two parts, with a loose piece that keeps its number.
const DIVIDES: [Ask; 4] = [
    Divide(0, 5, Ok((1, 5, 65))),
    Divide(2, 100, Ok((3, 100, END))),
    Give(2, Side::High, 90, Ok((1, 90, 100))),
    Divide(1, 64, Ok((2, 64, 65))),
];

// Dissolves of what they leave.
const DISSOLVES: [Ask; 7] = [
    Dissolve(4, Err(Refusal::NotAdjacent)),
    Dissolve(0, Err(Refusal::NotAdjacent)),
    Dissolve(5, Err(Refusal::NoPart)),
    Dissolve(1, Ok((0, 1, 64))),
    Take(1, 2, Ok(Side::High)),
    Dissolve(3, Ok((2, 65, END))),
    Dissolve(1, Ok((0, 1, 65))),
];

#[test]
fn parts_come_and_go(rt: HostRuntime) {
    let mut regions = opened(&rt, 2);
    expect_each(&rt, &mut regions, &DIVIDES);
    let six = [
        part(0, 1, 5),
        part(1, 5, 64),
        part(2, 64, 65),
        part(3, 65, 90),
        piece(1, 90, 100),
        part(4, 100, END),
    ];
    expect_list(&rt, &regions, &six);
    expect_each(&rt, &mut regions, &DISSOLVES);
    expect_list(&rt, &regions, opened(&rt, 2).list());
}

// A number behind 32 bits is out of range too.
const FAR: u64 = 4_294_967_296 + 121;

// Divides of sixteen parts, of which the last begins at 121.
const OF_SIXTEEN: [Ask; 8] = [
    Divide(16, 1, Err(Refusal::NoPart)),
    Divide(15, 121, Err(Refusal::OutOfRange)),
    Divide(15, END as u64, Err(Refusal::OutOfRange)),
    Divide(15, FAR, Err(Refusal::OutOfRange)),
    Divide(15, 122, Err(Refusal::ManyParts)),
    Dissolve(15, Ok((14, 113, END))),
    Divide(14, 121, Ok((15, 121, END))),
    Dissolve(FAR, Err(Refusal::NoPart)),
];

#[test]
fn sixteen_parts_are_the_most(rt: HostRuntime) {
    let mut regions = opened(&rt, 16);
    expect_each(&rt, &mut regions, &OF_SIXTEEN);
    expect_list(&rt, &regions, opened(&rt, 16).list());
}

// Compares a proposal at width 4 with bounds.
fn expect_proposal(rt: &impl Abort, weights: &[u64; 32], parts: u8, bounds: &[u64]) {
    assert!(rt; 1 <= parts && parts <= MOST_PARTS);
    assert!(rt; weights.iter().all(|weight| *weight <= GREATEST_WEIGHT));
    assert_eq!(rt; Regions::propose(weights, parts, 4).list(), bounds);
}

#[test]
fn proposals_share_the_weight_out(rt: HostRuntime) {
    let mut last = [0; 32];
    last[31] = 9;
    expect_proposal(&rt, &last, 4, &[117, 121, 125]);
    expect_proposal(&rt, &[0; 32], 4, &[5, 9, 13]);
    let mut two = [0; 32];
    two[0] = 5;
    two[1] = 5;
    expect_proposal(&rt, &two, 2, &[5]);
    expect_proposal(&rt, &[1; 32], 3, &[45, 89]);
    expect_proposal(&rt, &[1; 32], 1, &[]);
}

// Moves a bound by a give and a take.
fn do_move(rt: &impl Abort, regions: &mut Regions, step: &CutMove) {
    let bound = u64::from(step.bound);
    let before = bound.saturating_sub(1);
    let (giver, side, taker) = if step.from < step.to {
        (bound, Side::Low, before)
    } else {
        (before, Side::High, bound)
    };
    let given = regions.give(giver, side, u64::from(step.to));
    let n = given.expect(rt, "a piece").0;
    assert!(rt; regions.take(u64::from(n), taker).is_ok());
}

// Compares the moves to bounds, and does them.
fn expect_moves(rt: &impl Abort, regions: &mut Regions, bounds: &[u64], wanted: &[CutMove]) {
    let moves = regions.moves_to(bounds).expect(rt, "moves");
    assert_eq!(rt; moves.as_slice(), wanted);
    for step in wanted {
        do_move(rt, regions, step);
    }
}

// A move of a bound.
fn step(bound: u8, from: u32, to: u32) -> CutMove {
    CutMove { bound, from, to }
}

#[test]
fn bounds_move_one_after_another(rt: HostRuntime) {
    let mut regions = opened(&rt, 4);
    let there = [step(2, 65, 70), step(1, 33, 20), step(3, 97, 90)];
    expect_moves(&rt, &mut regions, &[20, 70, 90], &there);
    let moved = [
        part(0, 1, 20),
        part(1, 20, 70),
        part(2, 70, 90),
        part(3, 90, 16_777_217),
    ];
    expect_list(&rt, &regions, &moved);
    let back = [step(3, 90, 97), step(1, 20, 33), step(2, 70, 65)];
    expect_moves(&rt, &mut regions, &[33, 65, 97], &back);
    expect_list(&rt, &regions, opened(&rt, 4).list());
}

// Why there are no moves to bounds.
fn refused_moves(regions: &Regions, bounds: &[u64]) -> Option<Refusal> {
    regions.moves_to(bounds).err()
}

#[test]
fn wrong_bounds_are_refused(rt: HostRuntime) {
    let mut regions = opened(&rt, 3);
    let up = [step(2, 85, 100), step(1, 41, 90)];
    expect_moves(&rt, &mut regions, &[90, 100], &up);
    let down = [step(1, 90, 5), step(2, 100, 6)];
    expect_moves(&rt, &mut regions, &[5, 6], &down);
    expect_moves(&rt, &mut regions, &[5, 6], &[]);
    let wrong = [
        refused_moves(&regions, &[6, 6]),
        refused_moves(&regions, &[6]),
        refused_moves(&regions, &[1, 9]),
        refused_moves(&regions, &[9, 16_777_217]),
    ];
    expect_each(&rt, &mut regions, &[Give(2, Side::Low, 8, Ok((1, 6, 8)))]);
    let moving = [
        refused_moves(&regions, &[6, 6]),
        refused_moves(&regions, &[5, 6]),
    ];
    assert_eq!(rt;
        (wrong, moving),
        (
            [Some(Refusal::Field); 4],
            [Some(Refusal::Field), Some(Refusal::Moving)]
        )
    );
}

// The s_ids below 200 that a place holds: the first, and the one behind the last.
fn range_of(owners: &[Place; MODEL], place: Place) -> Option<(u32, u32)> {
    let first = owners.iter().position(|owner| *owner == place)?;
    let count = owners.iter().filter(|owner| **owner == place).count();
    Some((first as u32 + 1, (first + count) as u32 + 1))
}

// Hands the s_ids of a range to a place.
fn hand_over(owners: &mut [Place], lo: u32, hi: u32, place: Place) {
    for (i, owner) in owners.iter_mut().enumerate() {
        if lo as usize <= i + 1 && i + 1 < hi as usize {
            *owner = place;
        }
    }
}

// The least number of a loose piece that is free.
fn free_piece(owners: &[Place; MODEL]) -> Option<u8> {
    (1..17u8).find(|n| owners.iter().all(|owner| *owner != Place::Piece(*n)))
}

// A give, s_id by s_id.
fn model_give(owners: &mut [Place; MODEL], p: u8, side: Side, at: u32) -> Given {
    let (lo, hi) = range_of(owners, Place::Part(p)).ok_or(Refusal::NoPart)?;
    if at <= lo || hi <= at {
        return Err(Refusal::OutOfRange);
    }
    let n = free_piece(owners).ok_or(Refusal::ManyPieces)?;
    let (from, to) = match side {
        Side::Low => (lo, at),
        Side::High => (at, hi),
    };
    hand_over(owners, from, to, Place::Piece(n));
    Ok((n, from, to))
}

// A take, s_id by s_id.
fn model_take(owners: &mut [Place; MODEL], n: u8, q: u8) -> Result<Side, Refusal> {
    let (lo, hi) = range_of(owners, Place::Piece(n)).ok_or(Refusal::NoPiece)?;
    let (first, last) = range_of(owners, Place::Part(q)).ok_or(Refusal::NoPart)?;
    let side = if hi == first {
        Side::Low
    } else if last == lo {
        Side::High
    } else {
        return Err(Refusal::NotAdjacent);
    };
    hand_over(owners, lo, hi, Place::Part(q));
    Ok(side)
}

// A piece's range of the model, which ends at 200, as the regions tell it.
fn to_the_end(given: Given) -> Given {
    let (n, lo, hi) = given?;
    Ok((n, lo, if hi as usize == MODEL + 1 { END } else { hi }))
}

// Compares a drawn give or take with the model's, and then the place of each s_id.
fn expect_drawn(rt: &impl Abort, regions: &mut Regions, owners: &mut [Place; MODEL], drawn: u32) {
    let p = (drawn % 4) as u8;
    let n = (drawn / 4 % 18) as u8;
    let at = drawn / 128 % 200;
    if drawn % 7 < 3 {
        let side = if drawn % 3 == 0 {
            Side::Low
        } else {
            Side::High
        };
        let given = to_the_end(model_give(owners, p, side, at));
        expect_give(rt, regions, u64::from(p), side, u64::from(at), given);
    } else {
        let taken = model_take(owners, n, p);
        expect_take(rt, regions, u64::from(n), u64::from(p), taken);
    }
    let mut same = true;
    for s_id in 1..MODEL as u32 + 1 {
        same &= regions.place(s_id) == owners[s_id as usize - 1];
    }
    assert!(rt; same);
}

#[test]
fn gives_and_takes_as_drawn(rt: HostRuntime) {
    let mut regions = opened(&rt, 3);
    let mut owners = [Place::Part(2); MODEL];
    hand_over(&mut owners, 1, 41, Place::Part(0));
    hand_over(&mut owners, 41, 85, Place::Part(1));
    let mut seed = 1u32;
    for _ in 0..600 {
        seed = seed.wrapping_mul(1_664_525).wrapping_add(1_013_904_223);
        expect_drawn(&rt, &mut regions, &mut owners, seed / 65_536);
    }
}
