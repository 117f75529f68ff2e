//! The calls that read a lent part.
ghost use Rattle.std.specs.Prelude.{◌≡◌};
ghost use Rattle.tatp_actions.specs.declared.action.Action.TheVariants as action;
ghost use Rattle.hlr_c.specs.Call.{IsCall};
ghost use Rattle.hlr_c.specs.Parts.{IsPartRange, IsPartRead, has};
ghost use Rattle.hlr_c.specs.Told.{access_told, numbers_told, subscriber_told};
ghost use Rattle.hlr_c.specs.declared.codes.TheConstants.{ELSEWHERE, NOT_OPEN};

use crate::codes::{DONE, ELSEWHERE};
use crate::fields::{is_call, is_subscriber, is_typed};
use crate::part::{HlrPart, with_part};
use crate::reads::{write_access_found, write_numbers, write_subscriber};
use crate::rows::{HlrAccess, HlrNumbers, HlrSubscriber};
use hlr_core::Refusal;
use hlr_lent::LentPart;
use std::alloc::Global;

/// Returns whether a subscriber is in the range of a part.
pub(crate) fn has(part: &LentPart, s_id: u64) -> bool
    ensures { result ≡ has s_id part.now }
{
    u64::from(part.lo()) <= s_id && s_id < u64::from(part.hi())
}

pub(crate) fn read_subscriber(part: &LentPart, s_id: u64, row: &mut HlrSubscriber) -> u8
    ensures { IsPartRead (action.SubscriberData s_id) (subscriber_told row.old) (ELSEWHERE, row.old) part.now (result, row.new) part.now }
{
    if !is_subscriber(s_id) {
        return Refusal::Field.code();
    }
    if !has(part, s_id) {
        return ELSEWHERE;
    }
    let found = part.lend_subscriber(s_id as u32).copied();
    write_subscriber(&found, row)
}

pub(crate) fn read_access(part: &LentPart, s_id: u64, ai_type: u64, row: &mut HlrAccess) -> u8
    ensures { IsPartRead (action.AccessData s_id ai_type) (access_told s_id ai_type row.old) (ELSEWHERE, row.old) part.now (result, row.new) part.now }
{
    if !is_typed(s_id, ai_type) {
        return Refusal::Field.code();
    }
    if !has(part, s_id) {
        return ELSEWHERE;
    }
    let found = part.lend_access(s_id as u32, ai_type as u8);
    write_access_found(&found, s_id, ai_type, row)
}

pub(crate) fn read_destinations(
    part: &LentPart,
    s_id: u64,
    sf_type: u64,
    start_time: u64,
    end_time: u64,
    numbers: &mut HlrNumbers,
) -> u8
    ensures { IsPartRead (action.NewDestination s_id sf_type start_time end_time) (numbers_told numbers.old) (ELSEWHERE, numbers.old) part.now (result, numbers.new) part.now }
{
    if !is_call(s_id, sf_type, start_time, end_time) {
        return Refusal::Field.code();
    }
    if !has(part, s_id) {
        return ELSEWHERE;
    }
    let found = part.destinations(s_id as u32, sf_type as u8, start_time as u8, end_time as u8);
    write_numbers(&found, numbers)
}

/// Reads the range of a part: the first subscriber, and the number behind the last one. The range can't change while
/// the part is lent. It returns `NOT_OPEN` if the handle isn't open.
#[unsafe(no_mangle)]
pub extern "C" fn hlr_part_range(
    alloc: Global,
    part: &mut HlrPart,
    lo: &mut u64,
    hi: &mut u64,
) -> u8
    ensures { IsCall (NOT_OPEN, (lo.old, hi.old)) IsPartRange
        part.old.kept.part (result, (lo.new, hi.new)) part.new.kept.part }
{
    with_part!(part, alloc, |lent| {
        *lo = u64::from(lent.lo());
        *hi = u64::from(lent.hi());
        DONE
    })
}

/// Does GET_SUBSCRIBER_DATA (TATP, section 3.1) on a lent part. Its refusals, in order, are `NOT_OPEN`, `Field` if s_id
/// isn't in 1..=16,777,216, `ELSEWHERE` if it isn't in the part's range, and `NoSubscriber`.
#[unsafe(no_mangle)]
pub extern "C" fn hlr_part_subscriber_data(
    alloc: Global,
    part: &mut HlrPart,
    s_id: u64,
    row: &mut HlrSubscriber,
) -> u8
    ensures { IsCall (NOT_OPEN, row.old) (IsPartRead (action.SubscriberData s_id) (subscriber_told row.old) (ELSEWHERE, row.old))
        part.old.kept.part (result, row.new) part.new.kept.part }
{
    with_part!(part, alloc, |lent| { read_subscriber(&lent, s_id, row) })
}

/// Does GET_ACCESS_DATA (TATP, section 3.3) on a lent part. Its refusals, in order, are `NOT_OPEN`, `Field` if s_id
/// isn't in 1..=16,777,216 or ai_type isn't in 1..=4, `ELSEWHERE`, and `NoAccess`.
#[unsafe(no_mangle)]
pub extern "C" fn hlr_part_access_data(
    alloc: Global,
    part: &mut HlrPart,
    s_id: u64,
    ai_type: u64,
    row: &mut HlrAccess,
) -> u8
    ensures { IsCall (NOT_OPEN, row.old) (IsPartRead (action.AccessData s_id ai_type) (access_told s_id ai_type row.old) (ELSEWHERE, row.old))
        part.old.kept.part (result, row.new) part.new.kept.part }
{
    with_part!(part, alloc, |lent| {
        read_access(&lent, s_id, ai_type, row)
    })
}

/// Does GET_NEW_DESTINATION (TATP, section 3.2) on a lent part. Its refusals, in order, are `NOT_OPEN`, `Field` if s_id
/// isn't in 1..=16,777,216, sf_type isn't in 1..=4, start_time isn't 0, 8 or 16 or end_time isn't in 1..=24,
/// `ELSEWHERE`, and `NoDestination`.
#[unsafe(no_mangle)]
pub extern "C" fn hlr_part_new_destination(
    alloc: Global,
    part: &mut HlrPart,
    s_id: u64,
    sf_type: u64,
    start_time: u64,
    end_time: u64,
    numbers: &mut HlrNumbers,
) -> u8
    ensures { IsCall (NOT_OPEN, numbers.old) (IsPartRead (action.NewDestination s_id sf_type start_time end_time) (numbers_told numbers.old) (ELSEWHERE, numbers.old))
        part.old.kept.part (result, numbers.new) part.new.kept.part }
{
    with_part!(part, alloc, |lent| {
        read_destinations(&lent, s_id, sf_type, start_time, end_time, numbers)
    })
}
