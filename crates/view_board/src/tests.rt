//! What no clause says: that boards and desks can be had, and that desks see what others raise.
ghost use Rattle.std.specs.Prelude.{◌≡◌, [], IfOk};
ghost use Rattle.view_board.specs.Views.{Owns, first_view, without, alone};
ghost use Rattle.view_board.specs.Desks.{with_view};

use super::*;
use std::alloc::Global;
use std::test::*;
use std::thread;
use std::thread::Threads;
use tatp_rows::Refusal;

// The plus-word and the minus-word of slot 3 and cell 5.
const PLUS: usize = 3 * SLOT_WORDS + 5;

const MINUS: usize = PLUS + CELLS as usize;

// A board of these words; where a growth was refused, from the second try.
fn opened(alloc: Global, words: &[u64; WORDS]) -> Result<(Board, Desk), Refusal>
    ensures { IfOk result (λ opened. (opened.1.board ≡ opened.0) × (opened.1.view ≡ first_view words.now)) }
{
    match Board::open(alloc, words) {
        Err(Refusal::Memory) => Board::open(alloc, words),
        opened => opened,
    }
}

// A slot split off; where a growth was refused, at the second try, with the desk as before.
fn split_off(board: &Board, desk: &mut Desk, slot: u8) -> Result<Desk, Refusal>
    requires board { desk.old.board ≡ board.now }
    requires own { Owns desk.old.view slot }
    ensures { IfOk result (λ new. (new ≡ with_view desk.old (alone desk.old.view slot)) × (desk.new ≡ with_view desk.old (without desk.old.view slot))) }
{
    let before = desk.nets();
    let why = match board.split(desk, slot) {
        Ok(new) => return Ok(new),
        Err(why) => why,
    };
    if why != Refusal::Memory || !desk.owns(slot) || desk.nets() != before {
        return Err(Refusal::Field);
    }
    board.split(desk, slot)
}

// Raises the word of slot 3 and cell 5, and its minus-word.
fn raise_both(board: &Board, mut desk: Desk) -> (Desk, bool)
    requires board { desk.board ≡ board.now }
    requires own { Owns desk.view 3 }
    ensures { (result.0.board ≡ desk.board) × (result.0.view.owned ≡ desk.view.owned) }
{
    let plus = board.add(&mut desk, 3, 5, 4).is_ok();
    let minus = board.add(&mut desk, 3, 5, -6).is_ok();
    (desk, plus && minus)
}

// Raises the first word, and looks.
fn raise_and_look(board: &Board, mut desk: Desk) -> (Desk, Sight)
    requires board { desk.board ≡ board.now }
    requires own { Owns desk.view 0 }
    ensures { (result.0.board ≡ desk.board) × (result.0.view.owned ≡ desk.view.owned) }
{
    let _ = board.add(&mut desk, 0, 0, 1);
    let sight = board.look(&mut desk);
    (desk, sight)
}

// The words at the end, of a desk and the one that has its slot 3.
fn ended(board: Board, mut desk: Desk, other: Desk) -> [u64; WORDS]
    requires desk { (desk.board ≡ board) × (desk.view.owned ≡ (without (first_view []) 3).owned) }
    requires other { (other.board ≡ board) × (other.view.owned ≡ (alone (first_view []) 3).owned) }
{
    board.join(&mut desk, other);
    board.close(desk)
}

// Two desks in two threads.
fn side_by_side<R: Threads + Sync>(
    rt: &R,
    board: &Board,
    desk: Desk,
    other: Desk,
) -> ((Desk, Sight), (Desk, bool))
    requires ours { (desk.board ≡ board.now) × Owns desk.view 0 }
    requires theirs { (other.board ≡ board.now) × Owns other.view 3 }
    ensures ours { (result.0.0.board ≡ board.now) × (result.0.0.view.owned ≡ desk.view.owned) }
    ensures theirs { (result.1.0.board ≡ board.now) × (result.1.0.view.owned ≡ other.view.owned) }
{
    thread::join(
        rt,
        || -> (Desk, Sight)
            requires { (desk.board ≡ board.now) × Owns desk.view 0 }
            ensures { (result.0.board ≡ board.entry.now) × (result.0.view.owned ≡ desk.view.owned) }
        { raise_and_look(board, desk) },
        || -> (Desk, bool)
            requires { (other.board ≡ board.now) × Owns other.view 3 }
            ensures { (result.0.board ≡ board.entry.now) × (result.0.view.owned ≡ other.view.owned) }
        { raise_both(board, other) },
    )
}

// Also run with each allocation refused in turn (`refuse_memory.sh`).
#[test]
fn two_threads_each_refused(rt: HostRuntime) -> Result<(), Fail> {
    let (board, mut first) = opened(rt.alloc(), &[0; WORDS]).ok().ok_or("no board")?;
    let other = split_off(&board, &mut first, 3).ok().ok_or("no desk")?;
    let ((first, sight), (other, posted)) = side_by_side(&rt, &board, first, other);
    let words = ended(board, first, other);
    let mut wanted = [0; WORDS];
    wanted[0] = 1;
    assert!(rt; posted && sight.words[0] == 1);
    assert!(rt; [0, 4].contains(&sight.words[PLUS]) && [0, 6].contains(&sight.words[MINUS]));
    wanted[PLUS] = 4;
    wanted[MINUS] = 6;
    assert!(rt; words == wanted);
    Ok(())
}

// What the first desk and one with no slot see of what a desk of slot 3 raises.
fn seen(board: &Board, first: &mut Desk, other: &mut Desk, none: &mut Desk) -> [u64; 5]
    requires first { first.old.board ≡ board.now }
    requires other { (other.old.board ≡ board.now) × Owns other.old.view 3 }
    requires none { none.old.board ≡ board.now }
    ensures first { (first.new.board ≡ board.now) × (first.new.view.owned ≡ first.old.view.owned) }
    ensures other { (other.new.board ≡ board.now) × (other.new.view.owned ≡ other.old.view.owned) }
    ensures none { (none.new.board ≡ board.now) × (none.new.view.owned ≡ none.old.view.owned) }
{
    let before = board.look(none).words[PLUS];
    let _ = board.add(other, 3, 5, 7);
    let by_first = board.look(first).words;
    let by_none = board.look(none).words;
    [
        before,
        by_first[0],
        by_first[PLUS],
        by_none[0],
        by_none[PLUS],
    ]
}

// The first word is at its limit: it can't be raised, and no word is; the minus-word beside it can.
fn raise_at_limit(board: &Board, desk: &mut Desk, words: &[u64; WORDS]) -> [bool; 3]
    requires board { desk.old.board ≡ board.now }
    requires own { Owns desk.old.view 0 }
    ensures { (desk.new.board ≡ desk.old.board) × (desk.new.view.owned ≡ desk.old.view.owned) }
{
    let worn = board.add(desk, 0, 0, 1).err() == Some(Refusal::Worn);
    let is_same = board.look(desk).words == *words;
    let lowered = board.add(desk, 0, 0, -1).is_ok();
    [worn, is_same, lowered]
}

// A size that nothing else asks for: where `refuse_memory.sh` refuses all memory, it does so from a piece of it on.
const SIGNAL: usize = 7_654_321;

// Whether all memory is refused from here on. One refused piece alone doesn't tell.
fn is_all_refused(alloc: Global) -> bool {
    Vec::<u8>::with_capacity(alloc, SIGNAL).is_err()
        && Vec::<u8>::with_capacity(alloc, SIGNAL).is_err()
}

// Also run with each allocation refused in turn, and with all refused once the desks are there.
#[test]
fn words_at_limit_each_and_all_refused_2(rt: HostRuntime) -> Result<(), Fail> {
    let mut words = [0; WORDS];
    words[0] = LIMIT + 1;
    assert_eq!(rt; Board::open(rt.alloc(), &words).err(), Some(Refusal::Field));
    words[0] = LIMIT;
    let (board, mut desk) = opened(rt.alloc(), &words).ok().ok_or("no board")?;
    let mut none = split_off(&board, &mut desk, 3).ok().ok_or("no desk")?;
    let mut other = split_off(&board, &mut none, 3)
        .ok()
        .ok_or("no second desk")?;
    let is_refused = is_all_refused(rt.alloc());
    let raised = raise_at_limit(&board, &mut desk, &words);
    let owned = [desk.owns(3), none.owns(3), other.owns(3), other.owns(16)];
    let found = seen(&board, &mut desk, &mut other, &mut none);
    let nets = [desk.net(0), none.net(0), other.net(5)];
    let all = [desk.nets()[0], none.nets()[0], other.nets()[5]];
    board.take_back(&mut other, 3);
    let end = ended(board, desk, other);
    words[usize::from(CELLS)] = 1;
    words[PLUS] = 7;
    words[MINUS] = 7;
    assert_eq!(rt; opened(rt.alloc(), &words).is_err(), is_refused);
    assert_eq!(rt; (raised, owned), ([true; 3], [false, false, true, false]));
    assert_eq!(rt;
        (found, nets, all),
        (
            [0, LIMIT, 7, LIMIT, 7],
            [i128::from(LIMIT) - 1, 0, 7],
            [i128::from(LIMIT) - 1, 0, 7]
        )
    );
    assert!(rt; end == words);
    Ok(())
}

// The plus-words of slot 3 from cell 5 on, its minus-words there, and the greater of the two: raised, lowered, both
// alike, and at the limit either way.
const PLUSES: [u64; 5] = [9, 2, 8, LIMIT, 0];

const MINUSES: [u64; 5] = [4, 7, 8, 0, LIMIT];

const GREATER: [u64; 5] = [9, 7, 8, LIMIT, LIMIT];

// Also with a word of another slot, which stays, and a second time, when nothing is left to take back.
#[test]
fn slot_is_taken_back(rt: HostRuntime) -> Result<(), Fail> {
    let mut words = [0; WORDS];
    words[0] = 6;
    let mut wanted = words;
    for cell in 0..5usize {
        words[PLUS + cell] = PLUSES[cell];
        words[MINUS + cell] = MINUSES[cell];
        wanted[PLUS + cell] = GREATER[cell];
        wanted[MINUS + cell] = GREATER[cell];
    }
    let (board, mut desk) = opened(rt.alloc(), &words).ok().ok_or("no board")?;
    let mut other = split_off(&board, &mut desk, 3).ok().ok_or("no desk")?;
    let published = other.nets();
    board.take_back(&mut other, 3);
    let first = board.look(&mut desk);
    board.take_back(&mut other, 3);
    let second = board.look(&mut desk);
    assert_eq!(rt;
        (published[5], published[6], published[8]),
        (5, -5, i128::from(LIMIT))
    );
    assert_eq!(rt; (other.nets(), desk.net(0)), ([0; CELLS as usize], 6));
    assert!(rt; first.words == wanted && second.words == wanted);
    Ok(())
}

#[test]
fn sights_tell_words_by_slot_and_cell(rt: HostRuntime) {
    let mut words = [0; WORDS];
    words[5] = 4;
    words[PLUS] = 7;
    words[MINUS] = 2;
    let sight = Sight { words };
    let told = (sight.words_of(3, 5), sight.published(5), sight.published(6));
    assert_eq!(rt; told, ((7, 2), 9, 0));
}

// How often two desks try to raise each of their words by 1, of which the first half reach the limit.
const TURNS: u64 = 200_000;

// How often a plus-word and a minus-word of a slot could be raised by 1.
fn wear(board: &Board, mut desk: Desk, slot: u8) -> [u64; 2]
    requires board { desk.board ≡ board.now }
    requires own { Owns desk.view slot }
{
    let mut raised = [0u64; 2];
    for _ in 0..TURNS {
        let plus = board.add(&mut desk, slot, 0, 1).is_ok();
        let minus = board.add(&mut desk, slot, 0, -1).is_ok();
        raised[0] = raised[0].wrapping_add(u64::from(plus));
        raised[1] = raised[1].wrapping_add(u64::from(minus));
    }
    raised
}

// The same of slot 0 and of slot 3, in two threads.
fn both_wear<R: Threads + Sync>(rt: &R, board: &Board, desk: Desk, other: Desk) -> [[u64; 2]; 2]
    requires ours { (desk.board ≡ board.now) × Owns desk.view 0 }
    requires theirs { (other.board ≡ board.now) × Owns other.view 3 }
{
    let (first, second) = thread::join(
        rt,
        || -> [u64; 2]
            requires { (desk.board ≡ board.now) × Owns desk.view 0 }
        { wear(board, desk, 0) },
        || -> [u64; 2]
            requires { (other.board ≡ board.now) × Owns other.view 3 }
        { wear(board, other, 3) },
    );
    [first, second]
}

// Whether no word of a sight is below that of the one before it, and none passes the limit.
fn is_later(before: &Sight, after: &Sight) -> bool {
    for (old, new) in before.words.iter().zip(after.words.iter()) {
        if new < old || *new > LIMIT {
            return false;
        }
    }
    true
}

// Whether each of many sights is later than the one before.
fn are_later(board: &Board, mut desk: Desk) -> bool
    requires { desk.board ≡ board.now }
{
    let mut before = board.look(&mut desk);
    let mut are_later = true;
    for _ in 0..2_000 {
        let after = board.look(&mut desk);
        are_later &= is_later(&before, &after);
        before = after;
    }
    are_later
}

// Two desks wear their words, and a third one looks, each in a thread.
fn wear_and_look<R: Threads + Sync>(
    rt: &R,
    board: &Board,
    desk: Desk,
    other: Desk,
    none: Desk,
) -> (bool, [[u64; 2]; 2])
    requires ours { (desk.board ≡ board.now) × Owns desk.view 0 }
    requires theirs { (other.board ≡ board.now) × Owns other.view 3 }
    requires none { none.board ≡ board.now }
{
    thread::join(
        rt,
        || -> bool
            requires { none.board ≡ board.now }
        { are_later(board, none) },
        || -> [[u64; 2]; 2]
            requires { ((desk.board ≡ board.now) × Owns desk.view 0) × ((other.board ≡ board.now) × Owns other.view 3) }
        { both_wear(rt, board, desk, other) },
    )
}

// The words of the first cell in slots 0 and 3.
const WORN: [usize; 4] = [
    0,
    CELLS as usize,
    3 * SLOT_WORDS,
    3 * SLOT_WORDS + CELLS as usize,
];

// Words half as far from their limits as they are to be raised reach these, and go no further.
#[test]
fn words_wear_in_threads(rt: HostRuntime) -> Result<(), Fail> {
    let mut words = [0; WORDS];
    for word in WORN {
        words[word] = LIMIT - TURNS / 2;
    }
    let (board, mut desk) = opened(rt.alloc(), &words).ok().ok_or("no board")?;
    let other = split_off(&board, &mut desk, 3).ok().ok_or("no desk")?;
    let mut none = split_off(&board, &mut desk, 5).ok().ok_or("no desk")?;
    let last = split_off(&board, &mut none, 5).ok().ok_or("no desk")?;
    let (are_later, raised) = wear_and_look(&rt, &board, desk, other, last);
    let sight = board.look(&mut none);
    for word in WORN {
        words[word] = LIMIT;
    }
    assert_eq!(rt; (are_later, raised), (true, [[TURNS / 2; 2]; 2]));
    assert!(rt; sight.words == words);
    Ok(())
}
