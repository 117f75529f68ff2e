//! What no clause says: that calls with memory succeed, and that owners work in threads of their own.
ghost use Rattle.std.specs.Prelude.{◌≡◌, ℕ, ◌<◌, ◌≤◌, IsTrue, IfOk};
ghost use Rattle.tatp_actions.specs.declared.cells.TheConstants.{CELLS};
ghost use Rattle.view_board.specs.Views.{first_view, without, alone, Owns};
ghost use Rattle.view_board.specs.Desks.{with_view};
ghost use Rattle.holding.specs.Held.{HasSmallNets};

use crate::tests::ALL_CELLS;
use holding::{Holding, Piece};
use part_table::Side;
use std::alloc::Global;
use std::process::Abort;
use std::test::Fail;
use std::thread;
use std::thread::Threads;
use tatp_actions::{Action, CELLS, Cells, FIRST_AREA, FIRST_ZONE, Part, RowReply};
use tatp_rows::{Number, Refusal, Subscriber};
use view_board::{Board, Desk, LIMIT, WORDS};

/// The cells of area 1 and of zone 1.
pub const AREA: u8 = FIRST_AREA + 1;

pub const ZONE: u8 = FIRST_ZONE + 1;

/// What is published and what is pending of the cells of area 1 and zone 1, and their counts.
pub type Counts = ([i128; 2], [i64; 2], [u64; 2]);

/// Whether what a desk has published of each cell is small.
fn has_small_nets(desk: &Desk) -> bool
    ensures { IsTrue result → HasSmallNets desk.now.view }
{
    for cell in 0..CELLS {
        let net = desk.net(cell);
        if net < -1_099_511_627_776 || net > 1_099_511_627_776 {
            return false;
        }
    }
    true
}

/// A board of these words; where a growth was refused, at the second try.
pub fn board_of(alloc: Global, words: &[u64; WORDS]) -> Result<(Board, Desk), Refusal>
    ensures { IfOk result (λ opened. (opened.1.board ≡ opened.0) × (opened.1.view ≡ first_view words.now)) }
{
    match Board::open(alloc, words) {
        Err(Refusal::Memory) => Board::open(alloc, words),
        opened => opened,
    }
}

/// A holding of a range, in zones of 4, over a desk that owns one of the first slots.
pub fn opened(rt: &impl Abort, alloc: Global, lo: u32, hi: u32, desk: Desk) -> Holding
    ensures { result.desk ≡ desk }
{
    assert!(rt; 1 <= lo && lo < hi && hi <= 16_777_217);
    assert!(rt; desk.owns(0) || desk.owns(1));
    assert!(rt; has_small_nets(&desk));
    let Ok(part) = Part::new(alloc, lo, hi, 4) else {
        unreachable!()
    };
    Holding::of(alloc, part, desk)
}

/// A subscriber in area 1 with its own number.
fn row(s_id: u64) -> Result<Subscriber, Refusal> {
    let number = Number::try_new(s_id)?;
    Subscriber::try_new(s_id, number, [0; 10], [0; 10], [0; 10], 1, 268_435_456)
}

/// Adds a subscriber, at the second try where a growth was refused, with all as it stood. `None` where it isn't of the
/// part, or something changed.
pub fn add(holding: &mut Holding, number: u64) -> Option<RowReply>
    ensures { holding.new.desk ≡ holding.old.desk }
{
    let row = row(number).ok()?;
    let s_id = row.s_id();
    if s_id < holding.lo() || holding.hi() <= s_id {
        return None;
    }
    let before = standing(holding);
    let reply = holding.act(Action::AddSubscriber(row));
    if reply != RowReply::Refused(Refusal::Memory) {
        return Some(reply);
    }
    if standing(holding) != before {
        return None;
    }
    Some(holding.act(Action::AddSubscriber(row)))
}

/// What stays where a holding refuses: its range, and what is published, counted, and of area 1 and zone 1 pending.
pub fn standing(holding: &Holding) -> ([u32; 2], [i128; CELLS as usize], Cells, Counts) {
    let range = [holding.lo(), holding.hi()];
    (range, holding.nets(), holding.recount(), counts(holding))
}

/// Gives a stretch away; after a refusal that left all as it stood, once more.
fn give(holding: &mut Holding, side: Side, at: u32) -> Result<Box<Piece>, Refusal>
    ensures { holding.new.desk ≡ holding.old.desk }
{
    let before = standing(holding);
    let given = holding.give(side, at);
    if given.is_err() && standing(holding) == before {
        return holding.give(side, at);
    }
    given
}

/// Takes a piece; after Memory that left all as it stood, once more. Why it was refused, and the piece.
fn take(holding: &mut Holding, piece: Box<Piece>) -> Option<(Refusal, Box<Piece>)>
    ensures { holding.new.desk ≡ holding.old.desk }
{
    if holding.width() != piece.width() {
        return Some((Refusal::Field, piece));
    }
    let before = (standing(holding), shown(&piece));
    let again = match holding.take(piece) {
        Ok(()) => return None,
        Err(back) => back,
    };
    if again.why != Refusal::Memory || (standing(holding), shown(&again.item)) != before {
        return Some((again.why, again.item));
    }
    match holding.take(again.item) {
        Ok(()) => None,
        Err(back) => Some((back.why, back.item)),
    }
}

/// What is published, what is pending and what is counted of area 1 and zone 1.
pub fn counts(holding: &Holding) -> Counts {
    let all = holding.recount();
    (
        [holding.net(AREA), holding.nets()[usize::from(ZONE)]],
        [holding.pending(AREA), holding.pending(ZONE)],
        [all.get(AREA), all.get(ZONE)],
    )
}

/// Adds subscribers and posts, one cell and then all.
fn adds_and_posts(
    board: &Board,
    holding: &mut Holding,
) -> ([Option<RowReply>; 3], [Result<u8, Refusal>; 2], [Counts; 3])
    requires { holding.old.desk.board ≡ board.now }
{
    let added = [add(holding, 7), add(holding, 8), add(holding, 7)];
    let first = counts(holding);
    let one = holding.post(board, 1);
    let second = counts(holding);
    let all = holding.post(board, ALL_CELLS);
    (added, [one, all], [first, second, counts(holding)])
}

#[test]
fn a_worn_word_ends_a_posting_each_refused(rt: HostRuntime) -> Result<(), Fail> {
    let mut words = [0; WORDS];
    words[usize::from(AREA)] = 5;
    words[usize::from(ZONE)] = LIMIT;
    words[usize::from(CELLS + ZONE)] = LIMIT;
    let (board, desk) = board_of(rt.alloc(), &words)?;
    let mut holding = opened(&rt, rt.alloc(), 1, 65, desk);
    let begun = counts(&holding);
    let (added, posted, then) = adds_and_posts(&board, &mut holding);
    drop(holding);
    assert_eq!(rt;
        (begun, added, posted),
        (
            ([5, 0], [-5, 0], [0, 0]),
            [
                Some(RowReply::Done),
                Some(RowReply::Done),
                Some(RowReply::Refused(Refusal::Exists))
            ],
            [Ok(1), Err(Refusal::Worn)],
        )
    );
    assert_eq!(rt;
        then,
        [
            ([5, 0], [-3, 2], [2, 2]),
            ([2, 0], [0, 2], [2, 2]),
            ([2, 0], [0, 2], [2, 2]),
        ]
    );
    Ok(())
}

/// What a piece shows: its range and width, area 1 as pending and as counted, and its first subscriber.
fn shown(piece: &Piece) -> ([u32; 3], (i64, u64), Option<u32>) {
    let first = match piece.first_sub_from(1) {
        Some(row) => Some(row.s_id()),
        None => None,
    };
    (
        [piece.lo(), piece.hi(), piece.width()],
        (piece.pending(AREA), piece.recount().get(AREA)),
        first,
    )
}

/// What gives and takes answered, and what was shown of both pieces and of the one that came back.
type Moves = (
    [Option<Refusal>; 2],
    [([u32; 3], (i64, u64), Option<u32>); 3],
    Refusal,
    [bool; 2],
    [Counts; 2],
);

/// Gives at both ends, then two pieces away, and takes them again, at first the one that doesn't touch.
fn gives_and_takes(holding: &mut Holding) -> Option<Moves> {
    let refused = [
        give(holding, Side::Low, 1).err(),
        give(holding, Side::High, 65).err(),
    ];
    let (Ok(last), Ok(middle)) = (give(holding, Side::High, 33), give(holding, Side::High, 8))
    else {
        return None;
    };
    let given = (shown(&last), shown(&middle), counts(holding));
    let (why, last) = take(holding, last)?;
    let back = shown(&last);
    let taken = [
        take(holding, middle).is_none(),
        take(holding, last).is_none(),
    ];
    Some((
        refused,
        [given.0, given.1, back],
        why,
        taken,
        [given.2, counts(holding)],
    ))
}

#[test]
fn pieces_are_given_and_taken_each_refused(rt: HostRuntime) -> Result<(), Fail> {
    let (board, desk) = board_of(rt.alloc(), &[0; WORDS])?;
    let mut holding = opened(&rt, rt.alloc(), 1, 65, desk);
    let (_, posted, _) = adds_and_posts(&board, &mut holding);
    let moves = gives_and_takes(&mut holding);
    let ends = (
        holding.lo(),
        holding.hi(),
        holding.first_sub_from(8).is_some(),
    );
    drop(holding);
    let last = ([33, 65, 4], (0, 0), None);
    assert_eq!(rt;
        (posted, ends, moves),
        (
            [Ok(1), Ok(1)],
            (1, 65, true),
            Some((
                [Some(Refusal::OutOfRange), Some(Refusal::OutOfRange)],
                [last, ([8, 33, 4], (1, 1), Some(8)), last],
                Refusal::NotAdjacent,
                [true, true],
                [([2, 2], [-1, -1], [1, 1]), ([2, 2], [0, 0], [2, 2])],
            )),
        )
    );
    Ok(())
}

/// A slot split off; where a growth was refused, at the second try.
pub fn split_off(board: &Board, desk: &mut Desk, slot: u8) -> Result<Desk, Refusal>
    requires board { desk.old.board ≡ board.now }
    requires own { Owns desk.old.view slot }
    ensures { IfOk result (λ new. (new ≡ with_view desk.old (alone desk.old.view slot)) × (desk.new ≡ with_view desk.old (without desk.old.view slot))) }
{
    match board.split(desk, slot) {
        Err(_) => board.split(desk, slot),
        new => new,
    }
}

/// The desks of slot 0, of slot 15 and of the slots between, out of one desk.
fn three_desks(board: &Board, mut desk: Desk) -> Result<(Desk, Desk, Desk), Refusal>
    requires { (desk.board ≡ board.now) × Owns desk.view 0 × Owns desk.view 15 }
    ensures { IfOk result (λ desks. (desks.0.board ≡ board.now) × (desks.1.board ≡ board.now) × (desks.2.board ≡ board.now)) }
{
    let first = split_off(board, &mut desk, 0)?;
    let last = split_off(board, &mut desk, 15)?;
    Ok((first, last, desk))
}

/// The words that are posted: of slot 1 those of area 1 and zone 1, each up and down, and of slot 0 those of area 1 and
/// two zones, up alone.
type Watched = [u64; 7];

/// What a desk sees of them.
fn look(board: &Board, desk: &mut Desk) -> Watched
    requires { desk.old.board ≡ board.now }
    ensures { desk.new.board ≡ board.now }
{
    let sight = board.look(desk);
    let (area_up, area_down) = sight.words_of(1, AREA);
    let (zone_up, zone_down) = sight.words_of(1, ZONE);
    [
        area_up,
        area_down,
        zone_up,
        zone_down,
        sight.words_of(0, AREA).0,
        sight.words_of(0, ZONE).0,
        sight.words_of(0, FIRST_ZONE + 16).0,
    ]
}

/// Whether two sights show no word below the one before them, and none above the one after them.
fn are_between(before: &Watched, sights: &[Watched; 2], after: &Watched) -> bool {
    for sight in sights {
        for word in 0..7 {
            if sight[word] < before[word] || after[word] < sight[word] {
                return false;
            }
        }
    }
    true
}

/// The first subscriber of a holding from one on.
fn first_from(holding: &Holding, s_id: u64) -> Option<u32> {
    match holding.first_sub_from(s_id) {
        Some(row) => Some(row.s_id()),
        None => None,
    }
}

/// What a holding has that comes home: its first subscriber and the first from 9 on, and its counts.
type Home = ([Option<u32>; 2], Counts);

/// What a holding has at its end.
fn home(holding: Holding) -> Home {
    (
        [first_from(&holding, 1), first_from(&holding, 9)],
        counts(&holding),
    )
}

/// What an owner is to do in its thread, once it took what it was handed: to add a subscriber, and to give all from one
/// on.
#[derive(Clone, Copy)]
struct Shift {
    adds: u64,
    at: Option<u32>,
}

/// What comes of it: the holding, whether all was taken and added, and what a posting answered; and the piece that was
/// given.
type Worked = ((Holding, bool, Result<u8, Refusal>), Option<Box<Piece>>);

/// What is done beside it comes to: the holding, what a posting answered, and the desk with what it saw.
type Posted = (Holding, Result<u8, Refusal>, Desk, [Watched; 2]);

/// Whether a holding takes the piece that it is handed, where it is handed one.
fn begins(holding: &mut Holding, piece: Option<Box<Piece>>) -> bool
    ensures { holding.new.desk ≡ holding.old.desk }
{
    match piece {
        Some(piece) => take(holding, piece).is_none(),
        None => true,
    }
}

/// The piece that a holding gives, of all from a subscriber on, where it is to.
fn gives(holding: &mut Holding, at: Option<u32>) -> Option<Box<Piece>>
    ensures { holding.new.desk ≡ holding.old.desk }
{
    let at = at?;
    give(holding, Side::High, at).ok()
}

/// Takes, adds, posts and gives.
fn works(board: &Board, mut holding: Holding, piece: Option<Box<Piece>>, shift: Shift) -> Worked
    requires { holding.desk.board ≡ board.now }
    ensures { result.0.0.desk.board ≡ board.now }
{
    let is_taken = begins(&mut holding, piece);
    let is_added = add(&mut holding, shift.adds) == Some(RowReply::Done);
    let posted = holding.post(board, ALL_CELLS);
    let given = gives(&mut holding, shift.at);
    ((holding, is_taken && is_added, posted), given)
}

/// Looks, posts, and looks again.
fn posts_and_looks(board: &Board, mut holding: Holding, mut desk: Desk) -> Posted
    requires { (holding.desk.board ≡ board.now) × (desk.board ≡ board.now) }
    ensures { (result.0.desk.board ≡ board.now) × (result.2.board ≡ board.now) }
{
    let first = look(board, &mut desk);
    let posted = holding.post(board, ALL_CELLS);
    let second = look(board, &mut desk);
    (holding, posted, desk, [first, second])
}

/// One owner works in a thread; beside it one posts, and a desk looks.
fn side_by_side<R: Threads + Sync>(
    rt: &R,
    board: &Board,
    worker: (Holding, Option<Box<Piece>>),
    shift: Shift,
    other: Holding,
    desk: Desk,
) -> (Worked, Posted)
    requires worker { worker.0.desk.board ≡ board.now }
    requires boards { (other.desk.board ≡ board.now) × (desk.board ≡ board.now) }
    ensures worker { result.0.0.0.desk.board ≡ board.now }
    ensures boards { (result.1.0.desk.board ≡ board.now) × (result.1.2.board ≡ board.now) }
{
    let (holding, piece) = worker;
    thread::join(
        rt,
        || -> Worked
            requires { holding.desk.board ≡ board.now }
            ensures { result.0.0.desk.board ≡ board.entry.now }
        { works(board, holding, piece, shift) },
        || -> Posted
            requires { (other.desk.board ≡ board.now) × (desk.board ≡ board.now) }
            ensures { (result.0.desk.board ≡ board.entry.now) × (result.2.board ≡ board.entry.now) }
        { posts_and_looks(board, other, desk) },
    )
}

/// What came of a piece's way: whether each owner took and added all; what the postings answered;
/// what came home; what the desk saw before, between and after; and whether its other sights lie between these.
type Way = (
    [bool; 2],
    [Result<u8, Refusal>; 4],
    [Home; 2],
    [Watched; 3],
    [bool; 2],
);

/// An owner works and gives in a thread, and another one takes in the next thread, and works there; meanwhile the one
/// that doesn't work posts, and a desk looks.
fn piece_goes_over<R: Threads + Sync>(
    rt: &R,
    board: &Board,
    low: Holding,
    high: Holding,
    mut desk: Desk,
) -> Way
    requires holdings { (low.desk.board ≡ board.now) × (high.desk.board ≡ board.now) }
    requires desk { desk.board ≡ board.now }
{
    let before = look(board, &mut desk);
    let gives = Shift {
        adds: 7,
        at: Some(8),
    };
    let (given, beside) = side_by_side(rt, board, (low, None), gives, high, desk);
    let ((low, low_done, first), piece) = given;
    let (high, second, mut desk, early) = beside;
    let between = look(board, &mut desk);
    let takes = Shift { adds: 66, at: None };
    let (taken, beside) = side_by_side(rt, board, (high, piece), takes, low, desk);
    let ((high, high_done, third), _none) = taken;
    let (low, fourth, mut desk, late) = beside;
    let after = look(board, &mut desk);
    let are_right = [
        are_between(&before, &early, &between),
        are_between(&between, &late, &after),
    ];
    (
        [low_done, high_done],
        [first, second, third, fourth],
        [home(low), home(high)],
        [before, between, after],
        are_right,
    )
}

#[test]
fn owners_work_in_threads_each_refused(rt: HostRuntime) -> Result<(), Fail> {
    let (board, desk) = board_of(rt.alloc(), &[0; WORDS])?;
    let (first, last, desk) = three_desks(&board, desk)?;
    let mut low = opened(&rt, rt.alloc(), 1, 65, desk);
    let high = opened(&rt, rt.alloc(), 65, 129, first);
    let slots = [
        low.owns(0),
        low.owns(1),
        low.owns(15),
        high.owns(0),
        high.owns(16),
    ];
    let begun = (add(&mut low, 8), low.post(&board, ALL_CELLS));
    let (are_done, posted, homes, sights, are_right) = piece_goes_over(
        &rt, &board, low, high, last,
    );
    assert_eq!(rt;
        (begun, slots, are_done, posted, homes),
        (
            (Some(RowReply::Done), Ok(2)),
            [false, true, false, true, false],
            [true; 2],
            [Ok(2), Ok(0), Ok(3), Ok(2)],
            [
                ([Some(7), None], ([1, 1], [0, 0], [1, 1])),
                ([Some(8), Some(66)], ([2, 1], [0, 0], [2, 1]))
            ],
        )
    );
    assert_eq!(rt;
        (sights, are_right),
        (
            [
                [1, 0, 1, 0, 0, 0, 0],
                [2, 0, 2, 0, 0, 0, 0],
                [2, 1, 2, 1, 2, 1, 1]
            ],
            [true, true],
        )
    );
    Ok(())
}
