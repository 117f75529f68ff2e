//! Holdings that are divided, and dissolved into the one in front, by these calls alone.
ghost use Rattle.std.specs.Prelude.{◌≡◌, IsTrue, IfOk, IfErr};
ghost use Rattle.view_board.specs.Views.{OwnsAlone};
ghost use Rattle.holding.specs.Moved.{IsBlankDesk};

use crate::holding_tests::{
    AREA, Counts, ZONE, add, board_of, counts, opened, split_off, standing,
};
use crate::tests::ALL_CELLS;
use holding::Holding;
use std::alloc::Global;
use std::process::Abort;
use std::test::Fail;
use tatp_actions::{CELLS, RowReply};
use tatp_rows::{Back, Refusal};
use view_board::{Board, Desk, LIMIT, SLOT_WORDS, SLOTS, WORDS};

/// Whether a desk owns a slot and no other one, and has published a net of 0 of each cell.
fn is_blank(desk: &Desk, slot: u8) -> bool
    ensures { IsTrue result → IsBlankDesk desk.now.view }
{
    for other in 0..SLOTS {
        if desk.owns(other) && other != slot {
            return false;
        }
    }
    let nets = desk.nets();
    for cell in 0..CELLS {
        if nets[usize::from(cell)] != 0 {
            return false;
        }
    }
    desk.owns(slot)
}

/// Whether the desk of a holding owns a slot and no other one.
fn has_slot_alone(holding: &Holding, slot: u8) -> bool
    ensures { IsTrue result → OwnsAlone holding.now.desk.view slot }
{
    // For the prover: the holding's desk owns no slot past the last.
    holding.rules();
    for other in 0..SLOTS {
        if holding.owns(other) && other != slot {
            return false;
        }
    }
    holding.owns(slot)
}

/// Divides a holding; after Memory that left all as it stood, once more.
fn divide(holding: &mut Holding, at: u32, desk: Desk) -> Result<Box<Holding>, Back<Desk>>
    requires { IsBlankDesk desk.view }
    ensures new { IfOk result (λ new. new.value.desk ≡ desk) }
    ensures back { IfErr result (λ back. back.item ≡ desk) }
    ensures kept { holding.new.desk ≡ holding.old.desk }
{
    let before = standing(holding);
    let back = match holding.divide(at, desk) {
        Ok(new) => return Ok(new),
        Err(back) => back,
    };
    if back.why != Refusal::Memory || standing(holding) != before {
        return Err(back);
    }
    holding.divide(at, back.item)
}

/// The new holding of what is from a subscriber on.
fn divided(rt: &impl Abort, holding: &mut Holding, at: u32, desk: Desk) -> Box<Holding>
    requires { IsBlankDesk desk.view }
    ensures new { result.value.desk ≡ desk }
    ensures kept { holding.new.desk ≡ holding.old.desk }
{
    match divide(holding, at, desk) {
        Ok(new) => new,
        Err(_) => panic!(rt; "a holding that isn't divided"),
    }
}

/// Why a holding isn't divided at a subscriber, and the desk that is handed back.
fn refused_at(rt: &impl Abort, holding: &mut Holding, at: u32, desk: Desk) -> (Refusal, Desk)
    requires { IsBlankDesk desk.view }
    ensures back { result.1 ≡ desk }
    ensures kept { holding.new.desk ≡ holding.old.desk }
{
    match divide(holding, at, desk) {
        Ok(_) => panic!(rt; "a holding that is divided"),
        Err(back) => (back.why, back.item),
    }
}

/// Dissolves a holding, whose slot this is, into the one in front; after Memory that left both as they were, once more.
fn dissolve(
    rt: &impl Abort,
    board: &Board,
    front: &mut Holding,
    other: Box<Holding>,
    slot: u8,
) -> Result<Desk, Back<Box<Holding>>>
    requires { other.value.desk.board ≡ board.now }
    ensures desk { IfOk result (λ desk. desk.board ≡ board.now) }
    ensures back { IfErr result (λ back. back.item ≡ other) }
    ensures kept { front.new.desk ≡ front.old.desk }
{
    assert!(rt; front.width() == other.width() && has_slot_alone(&other, slot));
    let before = (standing(front), standing(&other));
    let back = match front.dissolve(board, other) {
        Ok(desk) => return Ok(desk),
        Err(back) => back,
    };
    if back.why != Refusal::Memory || (standing(front), standing(&back.item)) != before {
        return Err(back);
    }
    front.dissolve(board, back.item)
}

/// The desk of a holding that is dissolved.
fn dissolved(
    rt: &impl Abort,
    board: &Board,
    front: &mut Holding,
    other: Box<Holding>,
    slot: u8,
) -> Desk
    requires { other.value.desk.board ≡ board.now }
    ensures desk { result.board ≡ board.now }
    ensures kept { front.new.desk ≡ front.old.desk }
{
    match dissolve(rt, board, front, other, slot) {
        Ok(desk) => desk,
        Err(_) => panic!(rt; "a holding that isn't dissolved"),
    }
}

/// Why a holding isn't dissolved, which is handed back.
fn refused_to(
    rt: &impl Abort,
    board: &Board,
    front: &mut Holding,
    other: Box<Holding>,
    slot: u8,
) -> (Refusal, Box<Holding>)
    requires { other.value.desk.board ≡ board.now }
    ensures back { result.1 ≡ other }
    ensures kept { front.new.desk ≡ front.old.desk }
{
    match dissolve(rt, board, front, other, slot) {
        Ok(_) => panic!(rt; "a holding that is dissolved"),
        Err(back) => (back.why, back.item),
    }
}

/// The range of a holding, and of area 1 and zone 1 what is published, what is pending and what is counted.
type State = ([u32; 2], Counts);

/// The same of a holding.
fn state(holding: &Holding) -> State {
    ([holding.lo(), holding.hi()], counts(holding))
}

/// Words at 0 but for those of area 1 in slot 1.
fn words_with(plus: u64, minus: u64) -> [u64; WORDS] {
    let mut words = [0; WORDS];
    let place = SLOT_WORDS + usize::from(AREA);
    words[place] = plus;
    words[place + usize::from(CELLS)] = minus;
    words
}

/// The words of slot 1 of area 1 and of zone 1.
fn look(board: &Board, desk: &mut Desk) -> [(u64, u64); 2]
    requires { desk.old.board ≡ board.now }
    ensures { desk.new.board ≡ board.now }
{
    let sight = board.look(desk);
    [sight.words_of(1, AREA), sight.words_of(1, ZONE)]
}

/// Adds a subscriber of area 1, who wasn't there.
fn expect_added(rt: &impl Abort, holding: &mut Holding, number: u64)
    ensures { holding.new.desk ≡ holding.old.desk }
{
    let added = add(holding, number);
    assert!(rt; added == Some(RowReply::Done));
}

/// A holding of the subscribers 1 to 64, of whom 7, 8 and 20 are there; one cell is posted.
fn begun(rt: &impl Abort, alloc: Global, board: &Board, desk: Desk) -> Holding
    requires { desk.board ≡ board.now }
    ensures { result.desk.board ≡ board.now }
{
    let mut holding = opened(rt, alloc, 1, 65, desk);
    expect_added(rt, &mut holding, 7);
    expect_added(rt, &mut holding, 8);
    expect_added(rt, &mut holding, 20);
    let posted = holding.post(board, 1);
    assert!(rt; posted == Ok(1));
    holding
}

/// What a holding shows that has posted area 1 of three subscribers, once it has so many to come.
fn shown(hi: u32, pending: [i64; 2], counted: [u64; 2]) -> State {
    ([1, hi], ([3, 0], pending, counted))
}

/// What a holding shows that has published none of its counts.
fn shown_blank(lo: u32, hi: u32, counted: [u32; 2]) -> State {
    let [area, zone] = counted;
    (
        [lo, hi],
        (
            [0, 0],
            [i64::from(area), i64::from(zone)],
            [u64::from(area), u64::from(zone)],
        ),
    )
}

/// Asserts that a holding isn't divided at its ends, with the desk handed back.
fn expect_ends(rt: &impl Abort, front: &mut Holding, desk: Desk) -> Desk
    requires { IsBlankDesk desk.view }
    ensures back { result ≡ desk }
    ensures kept { front.new.desk ≡ front.old.desk }
{
    let (low, desk) = refused_at(rt, front, 1, desk);
    let (high, desk) = refused_at(rt, front, 65, desk);
    assert_eq!(rt;
        ([low, high], state(front)),
        ([Refusal::OutOfRange; 2], shown(65, [0, 2], [3, 2]))
    );
    desk
}

/// Divides a holding in three at 8 and at 33, with what each shows then; the second one posts.
fn expect_three(
    rt: &impl Abort,
    board: &Board,
    front: &mut Holding,
    first: Desk,
    second: Desk,
) -> (Box<Holding>, Box<Holding>)
    requires first { (first.board ≡ board.now) × IsBlankDesk first.view }
    requires second { (second.board ≡ board.now) × IsBlankDesk second.view }
    ensures boards { (result.0.value.desk.board ≡ board.now) × (result.1.value.desk.board ≡ board.now) }
    ensures kept { front.new.desk ≡ front.old.desk }
{
    let mut middle = divided(rt, front, 8, first);
    let last = divided(rt, &mut middle, 33, second);
    let states = [state(front), state(&middle), state(&last)];
    let posted = middle.post(board, ALL_CELLS);
    assert_eq!(rt;
        (states, posted, state(&middle)),
        (
            [
                shown(8, [-2, 1], [1, 1]),
                shown_blank(8, 33, [2, 1]),
                shown_blank(33, 65, [0, 0])
            ],
            Ok(3),
            ([8, 33], ([2, 1], [0, 0], [2, 1])),
        )
    );
    (middle, last)
}

/// Dissolves both into the first one, at first the one that doesn't touch it; the desks that they leave.
fn expect_one(
    rt: &impl Abort,
    board: &Board,
    front: &mut Holding,
    middle: Box<Holding>,
    last: Box<Holding>,
) -> (Desk, Desk)
    requires { (middle.value.desk.board ≡ board.now) × (last.value.desk.board ≡ board.now) }
    ensures boards { (result.0.board ≡ board.now) × (result.1.board ≡ board.now) }
    ensures kept { front.new.desk ≡ front.old.desk }
{
    let (why, last) = refused_to(rt, board, front, last, 2);
    let apart = (why, state(front), state(&last));
    let first = dissolved(rt, board, front, middle, 1);
    let joined = state(front);
    let second = dissolved(rt, board, front, last, 2);
    assert_eq!(rt;
        (apart, joined, state(front)),
        (
            (
                Refusal::NotAdjacent,
                shown(8, [-2, 1], [1, 1]),
                shown_blank(33, 65, [0, 0])
            ),
            shown(33, [0, 2], [3, 2]),
            shown(65, [0, 2], [3, 2]),
        )
    );
    (first, second)
}

/// Divides a holding at 20 with a desk that a dissolved one left, and posts; what the words of its slot are in front of
/// that and behind it.
fn expect_again(
    rt: &impl Abort,
    board: &Board,
    front: &mut Holding,
    first: Desk,
    mut second: Desk,
) -> [[(u64, u64); 2]; 2]
    requires { (first.board ≡ board.now) × (second.board ≡ board.now) }
{
    assert!(rt; is_blank(&first, 1) && is_blank(&second, 2));
    let before = look(board, &mut second);
    let mut new = divided(rt, front, 20, first);
    let begins = state(&new);
    let posted = new.post(board, ALL_CELLS);
    assert_eq!(rt;
        (begins, posted, state(&new)),
        (
            shown_blank(20, 65, [1, 0]),
            Ok(2),
            ([20, 65], ([1, 0], [0, 0], [1, 0]))
        )
    );
    [before, look(board, &mut second)]
}

// Also run with each allocation refused in turn (`refuse_memory.sh`).
#[test]
fn holding_comes_and_goes_each_refused(rt: HostRuntime) -> Result<(), Fail> {
    let (board, mut rest) = board_of(rt.alloc(), &words_with(5, 5))?;
    let own = split_off(&board, &mut rest, 0)?;
    let first = split_off(&board, &mut rest, 1)?;
    let second = split_off(&board, &mut rest, 2)?;
    assert!(rt; is_blank(&first, 1) && is_blank(&second, 2));
    let mut front = begun(&rt, rt.alloc(), &board, own);
    let first = expect_ends(&rt, &mut front, first);
    let (middle, last) = expect_three(&rt, &board, &mut front, first, second);
    let (first, second) = expect_one(&rt, &board, &mut front, middle, last);
    let words = expect_again(&rt, &board, &mut front, first, second);
    drop(front);
    assert_eq!(rt; words, [[(7, 7), (1, 1)], [(8, 7), (1, 1)]]);
    Ok(())
}

/// A holding in a box; where a growth was refused, at the second try.
fn boxed(rt: &impl Abort, alloc: Global, holding: Holding) -> Box<Holding>
    ensures { result.value ≡ holding }
{
    let full = match Box::new(alloc, holding) {
        Ok(boxed) => return boxed,
        Err(full) => full,
    };
    match Box::new(alloc, full.value) {
        Ok(boxed) => boxed,
        Err(_) => panic!(rt; "no memory for a box"),
    }
}

// A holding that has taken off more of a cell than it added, and whose posting is worn, is dissolved: the word that is
// raised is the one of what was added, up to its limit.
#[test]
fn lower_word_is_raised(rt: HostRuntime) -> Result<(), Fail> {
    let (board, mut rest) = board_of(rt.alloc(), &words_with(LIMIT - 4, LIMIT))?;
    let own = split_off(&board, &mut rest, 0)?;
    let first = split_off(&board, &mut rest, 1)?;
    let mut front = opened(&rt, rt.alloc(), 1, 65, own);
    let mut other = opened(&rt, rt.alloc(), 65, 129, first);
    expect_added(&rt, &mut other, 70);
    let begins = (state(&other), other.post(&board, ALL_CELLS));
    let other = boxed(&rt, rt.alloc(), other);
    let desk = dissolved(&rt, &board, &mut front, other, 1);
    let ends = (state(&front), is_blank(&desk, 1), look(&board, &mut rest));
    drop(front);
    assert_eq!(rt;
        (begins, ends),
        (
            (([65, 129], ([-4, 0], [5, 0], [1, 0])), Err(Refusal::Worn)),
            (shown_blank(1, 129, [1, 0]), true, [(LIMIT, LIMIT), (0, 0)]),
        )
    );
    Ok(())
}
