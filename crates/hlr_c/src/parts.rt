//! The calls that post, that move bounds between parts, and that divide and dissolve parts.
ghost use Rattle.std.specs.Prelude.{◌≡◌, Ok};
ghost use Rattle.hlr_core.specs.declared.event.Event.TheVariants as event;
ghost use Rattle.hlr_c.specs.Asked.{bounds_in, give_asked, side_of};
ghost use Rattle.hlr_c.specs.Call.{IsAnswer, IsCall, IsRecutAnswer};
ghost use Rattle.hlr_c.specs.Told.{code_told, given_told, part_told, posted_told, recut_told};
ghost use Rattle.hlr_c.specs.declared.codes.TheConstants.{AWAY, NOT_OPEN};

use crate::codes::{AWAY, DONE, code_away, code_of_reply};
use crate::handle::{Hlr, with_opened};
use crate::lists::{bounds_in, region_for_c};
use crate::rows::{HlrBounds, HlrRegion};
use hlr_core::{Event, Place, Refusal, Region, Reply, Side};
use hlr_lent::Lender;
use std::alloc::Global;

/// Returns the side of a number: 0 is the low side, 1 is the high side, and any other number is refused with `Field`.
fn side_of(side: u64) -> Result<Side, Refusal>
    ensures { result ≡ side_of side }
{
    match side {
        0 => Ok(Side::Low),
        1 => Ok(Side::High),
        _ => Err(Refusal::Field),
    }
}

fn tell_posted(reply: &Reply, posted: &mut u64) -> u8
    ensures { (result, posted.new) ≡ posted_told posted.old reply.now }
{
    if let Reply::Posted(count) = reply {
        *posted = u64::from(*count);
    }
    code_of_reply(reply)
}

fn tell_given(reply: &Reply, given: &mut HlrRegion) -> u8
    ensures { (result, given.new) ≡ given_told given.old reply.now }
{
    if let Reply::Given { piece, lo, hi } = reply {
        *given = region_for_c(&Region {
            lo: *lo,
            hi: *hi,
            place: Place::Piece(*piece),
        });
    }
    code_of_reply(reply)
}

fn tell_part(reply: &Reply, part: &mut HlrRegion) -> u8
    ensures { (result, part.new) ≡ part_told part.old reply.now }
{
    if let Reply::Divided {
        part: number,
        lo,
        hi,
    }
    | Reply::Dissolved {
        part: number,
        lo,
        hi,
    } = reply
    {
        *part = region_for_c(&Region {
            lo: *lo,
            hi: *hi,
            place: Place::Part(*number),
        });
    }
    code_of_reply(reply)
}

fn tell_recut(done: Result<u8, Refusal>, moved: &mut u64) -> u8
    ensures { (result, moved.new) ≡ recut_told moved.old done }
{
    match done {
        Ok(count) => {
            *moved = u64::from(count);
            DONE
        }
        Err(why) => why.code(),
    }
}

fn post(register: &mut Lender, part: u64, limit: u64, posted: &mut u64) -> u8
    ensures { IsAnswer (Ok (event.Post part limit)) (posted_told posted.old) (AWAY, posted.old) register.old (result, posted.new) register.new }
{
    if !register.is_part_home(part) {
        return code_away(register, &Event::Post { part, limit });
    }
    tell_posted(&register.post(part, limit), posted)
}

fn give(register: &mut Lender, part: u64, side: u64, at: u64, given: &mut HlrRegion) -> u8
    ensures { IsAnswer (give_asked part side at) (given_told given.old) (AWAY, given.old) register.old (result, given.new) register.new }
{
    let side = match side_of(side) {
        Ok(side) => side,
        Err(why) => return why.code(),
    };
    match register.ask(Event::Give { part, side, at }) {
        Some(reply) => tell_given(&reply, given),
        None => AWAY,
    }
}

fn take(register: &mut Lender, piece: u64, part: u64) -> u8
    ensures { IsAnswer (Ok (event.Take piece part)) code_told AWAY register.old result register.new }
{
    match register.ask(Event::Take { piece, part }) {
        Some(reply) => code_of_reply(&reply),
        None => AWAY,
    }
}

fn divide(register: &mut Lender, part: u64, at: u64, made: &mut HlrRegion) -> u8
    ensures { IsAnswer (Ok (event.Divide part at)) (part_told made.old) (AWAY, made.old) register.old (result, made.new) register.new }
{
    match register.ask(Event::Divide { part, at }) {
        Some(reply) => tell_part(&reply, made),
        None => AWAY,
    }
}

fn dissolve(register: &mut Lender, part: u64, front: &mut HlrRegion) -> u8
    ensures { IsAnswer (Ok (event.Dissolve part)) (part_told front.old) (AWAY, front.old) register.old (result, front.new) register.new }
{
    match register.ask(Event::Dissolve { part }) {
        Some(reply) => tell_part(&reply, front),
        None => AWAY,
    }
}

fn recut(register: &mut Lender, bounds: &HlrBounds, moved: &mut u64) -> u8
    ensures { IsRecutAnswer (bounds_in bounds.now) (recut_told moved.old) (AWAY, moved.old) register.old (result, moved.new) register.new }
{
    let bounds = match bounds_in(bounds) {
        Ok(bounds) => bounds,
        Err(why) => return why.code(),
    };
    if !register.is_home_to_cut(bounds) {
        return AWAY;
    }
    tell_recut(register.recut_to(bounds), moved)
}

/// Posts the first `limit` unposted cells of a part, in ascending order, and writes how many it posted. Its refusals,
/// in order, are `NOT_OPEN`, `NoPart`, `AWAY` if the part is lent, and `Worn`, after which the cells that were posted
/// before stay posted.
#[unsafe(no_mangle)]
pub extern "C" fn hlr_post(
    alloc: Global,
    handle: &mut Hlr,
    part: u64,
    limit: u64,
    posted: &mut u64,
) -> u8
    ensures answer { IsCall (NOT_OPEN, posted.old) (IsAnswer (Ok (event.Post part limit)) (posted_told posted.old) (AWAY, posted.old))
        handle.old.kept.register (result, posted.new) handle.new.kept.register }
    ensures journal { handle.new.kept.journal ≡ handle.old.kept.journal }
{
    with_opened!(handle, alloc, |opened| {
        post(&mut opened.lender, part, limit, posted)
    })
}

/// Cuts a loose piece off a part, which has the subscribers below `at` (if `side` is 0) or from it on (if `side` is 1),
/// and writes the piece. Its refusals, in order, are `NOT_OPEN`, `Field` if side isn't 0 or 1, `NoPart`, `OutOfRange`,
/// `ManyPieces`, `AWAY`, and `Memory`.
#[unsafe(no_mangle)]
pub extern "C" fn hlr_give(
    alloc: Global,
    handle: &mut Hlr,
    part: u64,
    side: u64,
    at: u64,
    given: &mut HlrRegion,
) -> u8
    ensures answer { IsCall (NOT_OPEN, given.old) (IsAnswer (give_asked part side at) (given_told given.old) (AWAY, given.old))
        handle.old.kept.register (result, given.new) handle.new.kept.register }
    ensures journal { handle.new.kept.journal ≡ handle.old.kept.journal }
{
    with_opened!(handle, alloc, |opened| {
        give(&mut opened.lender, part, side, at, given)
    })
}

/// Joins a loose piece to a part that touches it. Its refusals, in order, are `NOT_OPEN`, `NoPiece`, `NoPart`,
/// `NotAdjacent`, `AWAY` if the part is lent, and `Memory`.
#[unsafe(no_mangle)]
pub extern "C" fn hlr_take(alloc: Global, handle: &mut Hlr, piece: u64, part: u64) -> u8
    ensures answer { IsCall NOT_OPEN (IsAnswer (Ok (event.Take piece part)) code_told AWAY)
        handle.old.kept.register result handle.new.kept.register }
    ensures journal { handle.new.kept.journal ≡ handle.old.kept.journal }
{
    with_opened!(handle, alloc, |opened| {
        take(&mut opened.lender, piece, part)
    })
}

/// Divides a part at a subscriber: it keeps what is below, a new part with the next number gets the rest, and the
/// numbers of later parts rise by one. It writes the new part. Its refusals, in order, are `NOT_OPEN`, `NoPart`,
/// `OutOfRange`, `ManyParts`, `AWAY` if the part or a later one is lent, and `Memory`.
#[unsafe(no_mangle)]
pub extern "C" fn hlr_divide(
    alloc: Global,
    handle: &mut Hlr,
    part: u64,
    at: u64,
    made: &mut HlrRegion,
) -> u8
    ensures answer { IsCall (NOT_OPEN, made.old) (IsAnswer (Ok (event.Divide part at)) (part_told made.old) (AWAY, made.old))
        handle.old.kept.register (result, made.new) handle.new.kept.register }
    ensures journal { handle.new.kept.journal ≡ handle.old.kept.journal }
{
    with_opened!(handle, alloc, |opened| {
        divide(&mut opened.lender, part, at, made)
    })
}

/// Dissolves a part: the part in front gets its rows, and the numbers of later parts fall by one. It writes the part in
/// front, as it is then. Its refusals, in order, are `NOT_OPEN`, `NoPart`, `NotAdjacent` if the part is the first one
/// or a loose piece lies in front of it, `AWAY` if the part in front, the part or a later one is lent, and `Memory`.
#[unsafe(no_mangle)]
pub extern "C" fn hlr_dissolve(
    alloc: Global,
    handle: &mut Hlr,
    part: u64,
    front: &mut HlrRegion,
) -> u8
    ensures answer { IsCall (NOT_OPEN, front.old) (IsAnswer (Ok (event.Dissolve part)) (part_told front.old) (AWAY, front.old))
        handle.old.kept.register (result, front.new) handle.new.kept.register }
    ensures journal { handle.new.kept.journal ≡ handle.old.kept.journal }
{
    with_opened!(handle, alloc, |opened| {
        dissolve(&mut opened.lender, part, front)
    })
}

/// Moves the bounds between the parts to these, and writes how many it moved. A bound is the first subscriber of a part
/// other than the first part. Its refusals, in order, are `NOT_OPEN`, `Field` if the bounds don't rise strictly in
/// 2..=16,777,216 or aren't one less than there are parts, `Moving` if a piece is loose, `AWAY` if a part on one side
/// of a bound that would move is lent, and `Memory`. After the last of these, the moves that were done stay done, and
/// the piece of the move that was refused may be loose.
#[unsafe(no_mangle)]
pub extern "C" fn hlr_recut(
    alloc: Global,
    handle: &mut Hlr,
    bounds: &HlrBounds,
    moved: &mut u64,
) -> u8
    ensures answer { IsCall (NOT_OPEN, moved.old) (IsRecutAnswer (bounds_in bounds.now) (recut_told moved.old) (AWAY, moved.old))
        handle.old.kept.register (result, moved.new) handle.new.kept.register }
    ensures journal { handle.new.kept.journal ≡ handle.old.kept.journal }
{
    with_opened!(handle, alloc, |opened| {
        recut(&mut opened.lender, bounds, moved)
    })
}
