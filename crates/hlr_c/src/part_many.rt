//! The three transactions that read a lent part, each for many queries in one call. The rows are looked up with
//! overlapping memory accesses, 16 queries at a time, if all of their subscribers are in the part's range.
ghost use Rattle.std.specs.Prelude.{◌≡◌, ◌≤◌, IsTrue, [], length, map};
ghost use Rattle.std.specs.List.{All};
ghost use Rattle.hlr_c.specs.Call.{IsCall};
ghost use Rattle.hlr_c.specs.Inside.{IsOwn, IsOwnAccess, IsOwnCall};
ghost use Rattle.hlr_c.specs.Many.{IsManyRead, IsPartAccessRead, IsPartDestinationRead, IsPartSubscriberRead};
ghost use Rattle.hlr_c.specs.declared.codes.TheConstants.{NOT_OPEN};

use crate::asking::{Question, ask_many};
use crate::fields::{is_call, is_subscriber, is_typed};
use crate::part::{HlrPart, with_part};
use crate::part_reads::{has, read_access, read_destinations, read_subscriber};
use crate::rows::{HlrAccess, HlrAccessAsked, HlrDestinationAsked, HlrNumbers, HlrSubscriber};
use hlr_core::{Access, ArrayVec, Number, Subscriber};
use hlr_lent::LentPart;
use std::alloc::Global;

/// Puts s_ids into an empty list, and returns whether all of them are in a part's range.
fn put_own(part: &LentPart, s_ids: &[u64], own: &mut ArrayVec<u32, 16>) -> bool
    requires few { length s_ids.now ≤ 16 }
    requires empty { own.old.items ≡ [] }
    ensures same { IsTrue result → own.new.items ≡ s_ids.now }
    ensures own { IsTrue result → All (λ s_id. IsOwn s_id part.now) s_ids.now }
{
    for place in 0..s_ids.len() {
        let s_id = s_ids[place];
        if !is_subscriber(s_id) || !has(part, s_id) {
            return false;
        }
        own.push(s_id as u32);
    }
    true
}

/// Puts the s_ids and types of accesses into an empty list, and returns whether all types are valid and all s_ids are
/// in the part's range.
fn put_own_accesses(
    part: &LentPart,
    asked: &[HlrAccessAsked],
    own: &mut ArrayVec<(u32, u8), 16>,
) -> bool
    requires few { length asked.now ≤ 16 }
    requires empty { own.old.items ≡ [] }
    ensures same { IsTrue result → own.new.items ≡ map (λ a. (a.s_id, a.ai_type)) asked.now }
    ensures own { IsTrue result → All (λ a. IsOwnAccess a part.now) asked.now }
{
    for place in 0..asked.len() {
        let HlrAccessAsked { s_id, ai_type } = asked[place];
        if !is_typed(s_id, ai_type) || !has(part, s_id) {
            return false;
        }
        own.push((s_id as u32, ai_type as u8));
    }
    true
}

/// Puts the fields of calls into an empty list, and returns whether all fields are valid and all s_ids are in the
/// part's range.
fn put_own_calls(
    part: &LentPart,
    asked: &[HlrDestinationAsked],
    own: &mut ArrayVec<(u32, u8, u8, u8), 16>,
) -> bool
    requires few { length asked.now ≤ 16 }
    requires empty { own.old.items ≡ [] }
    ensures same { IsTrue result → own.new.items ≡ map (λ q. (q.s_id, q.sf_type, q.start_time, q.end_time)) asked.now }
    ensures own { IsTrue result → All (λ q. IsOwnCall q part.now) asked.now }
{
    for place in 0..asked.len() {
        let HlrDestinationAsked {
            s_id,
            sf_type,
            start_time,
            end_time,
        } = asked[place];
        if !is_call(s_id, sf_type, start_time, end_time) || !has(part, s_id) {
            return false;
        }
        own.push((s_id as u32, sf_type as u8, start_time as u8, end_time as u8));
    }
    true
}

impl Question<LentPart, Option<Subscriber>, HlrSubscriber> for u64 {
    ghost is_read = { IsPartSubscriberRead };

    fn ask(&self, of: &LentPart, row: &mut HlrSubscriber) -> u8 {
        read_subscriber(of, *self, row)
    }

    fn copy_block(
        of: &LentPart,
        asked: &[u64],
        found: &mut ArrayVec<Option<Subscriber>, 16>,
    ) -> bool {
        let mut own = ArrayVec::new();
        if !put_own(of, asked, &mut own) {
            return false;
        }
        of.copy_subscribers(own.as_slice(), found);
        true
    }
}

impl Question<LentPart, Option<Access>, HlrAccess> for HlrAccessAsked {
    ghost is_read = { IsPartAccessRead };

    fn ask(&self, of: &LentPart, row: &mut HlrAccess) -> u8 {
        read_access(of, self.s_id, self.ai_type, row)
    }

    fn copy_block(
        of: &LentPart,
        asked: &[HlrAccessAsked],
        found: &mut ArrayVec<Option<Access>, 16>,
    ) -> bool {
        let mut own = ArrayVec::new();
        if !put_own_accesses(of, asked, &mut own) {
            return false;
        }
        of.copy_access(own.as_slice(), found);
        true
    }
}

impl Question<LentPart, ArrayVec<Number, 3>, HlrNumbers> for HlrDestinationAsked {
    ghost is_read = { IsPartDestinationRead };

    fn ask(&self, of: &LentPart, row: &mut HlrNumbers) -> u8 {
        let HlrDestinationAsked {
            s_id,
            sf_type,
            start_time,
            end_time,
        } = *self;
        read_destinations(of, s_id, sf_type, start_time, end_time, row)
    }

    fn copy_block(
        of: &LentPart,
        asked: &[HlrDestinationAsked],
        found: &mut ArrayVec<ArrayVec<Number, 3>, 16>,
    ) -> bool {
        let mut own = ArrayVec::new();
        if !put_own_calls(of, asked, &mut own) {
            return false;
        }
        of.copy_destinations(own.as_slice(), found);
        true
    }
}

/// Does GET_SUBSCRIBER_DATA for many subscribers of a lent part. In each place it writes the code and the row of the
/// part's call for one. Its refusals, in order, are `NOT_OPEN` and `Field` if there aren't as many rows and codes as
/// s_ids, and then nothing is written.
#[unsafe(no_mangle)]
pub extern "C" fn hlr_part_subscriber_data_many(
    alloc: Global,
    part: &mut HlrPart,
    s_ids: &[u64],
    rows: &mut [HlrSubscriber],
    codes: &mut [u8],
) -> u8
    ensures { IsCall (NOT_OPEN, (rows.old, codes.old)) (IsManyRead IsPartSubscriberRead s_ids.now (rows.old, codes.old))
        part.old.kept.part (result, (rows.new, codes.new)) part.new.kept.part }
{
    with_part!(part, alloc, |lent| {
        ask_many(&*lent, s_ids, &mut ArrayVec::new(), rows, codes)
    })
}

/// Does GET_ACCESS_DATA for many accesses of a lent part, in the same way. Its refusals, in order, are `NOT_OPEN` and
/// `Field`.
#[unsafe(no_mangle)]
pub extern "C" fn hlr_part_access_data_many(
    alloc: Global,
    part: &mut HlrPart,
    asked: &[HlrAccessAsked],
    rows: &mut [HlrAccess],
    codes: &mut [u8],
) -> u8
    ensures { IsCall (NOT_OPEN, (rows.old, codes.old)) (IsManyRead IsPartAccessRead asked.now (rows.old, codes.old))
        part.old.kept.part (result, (rows.new, codes.new)) part.new.kept.part }
{
    with_part!(part, alloc, |lent| {
        ask_many(&*lent, asked, &mut ArrayVec::new(), rows, codes)
    })
}

/// Does GET_NEW_DESTINATION for many calls to subscribers of a lent part, in the same way. Its refusals, in order, are
/// `NOT_OPEN` and `Field`.
#[unsafe(no_mangle)]
pub extern "C" fn hlr_part_new_destination_many(
    alloc: Global,
    part: &mut HlrPart,
    asked: &[HlrDestinationAsked],
    numbers: &mut [HlrNumbers],
    codes: &mut [u8],
) -> u8
    ensures { IsCall (NOT_OPEN, (numbers.old, codes.old)) (IsManyRead IsPartDestinationRead asked.now (numbers.old, codes.old))
        part.old.kept.part (result, (numbers.new, codes.new)) part.new.kept.part }
{
    with_part!(part, alloc, |lent| {
        ask_many(&*lent, asked, &mut ArrayVec::new(), numbers, codes)
    })
}
