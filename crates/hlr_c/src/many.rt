//! The three transactions that read, each for many queries in one call. The rows are looked up with overlapping memory
//! accesses, 16 queries at a time, if no part is lent and one part has all of their subscribers.
ghost use Rattle.std.specs.Prelude.{◌≡◌, ◌≤◌, [], length, map};
ghost use Rattle.hlr_core.specs.Rows.{access_reply, numbers_reply, subscriber_reply};
ghost use Rattle.hlr_c.specs.Call.{IsCall};
ghost use Rattle.hlr_c.specs.Many.{IsAccessRead, IsDestinationRead, IsManyRead, IsSubscriberRead};
ghost use Rattle.hlr_c.specs.Told.{access_told, numbers_told, subscriber_told};
ghost use Rattle.hlr_c.specs.declared.codes.TheConstants.{NOT_OPEN};

use crate::asking::{Question, Telling, ask_many};
use crate::handle::{Hlr, with_register};
use crate::reads::{
    ask_access, ask_destinations, ask_subscriber, write_access_found, write_numbers,
    write_subscriber,
};
use crate::rows::{HlrAccess, HlrAccessAsked, HlrDestinationAsked, HlrNumbers, HlrSubscriber};
use hlr_core::{Access, ArrayVec, Number, Subscriber};
use hlr_lent::Lender;
use std::alloc::Global;

/// Puts the s_ids and types of accesses into an empty list.
fn put_pairs(asked: &[HlrAccessAsked], pairs: &mut ArrayVec<(u64, u64), 16>)
    requires few { length asked.now ≤ 16 }
    requires empty { pairs.old.items ≡ [] }
    ensures { pairs.new.items ≡ map (λ a. (a.s_id, a.ai_type)) asked.now }
{
    for place in 0..asked.len() {
        let HlrAccessAsked { s_id, ai_type } = asked[place];
        pairs.push((s_id, ai_type));
    }
}

/// Puts the fields of calls into an empty list.
fn put_calls(asked: &[HlrDestinationAsked], calls: &mut ArrayVec<(u64, u64, u64, u64), 16>)
    requires few { length asked.now ≤ 16 }
    requires empty { calls.old.items ≡ [] }
    ensures { calls.new.items ≡ map (λ q. (q.s_id, q.sf_type, q.start_time, q.end_time)) asked.now }
{
    for place in 0..asked.len() {
        let HlrDestinationAsked {
            s_id,
            sf_type,
            start_time,
            end_time,
        } = asked[place];
        calls.push((s_id, sf_type, start_time, end_time));
    }
}

impl Telling<Option<Subscriber>, HlrSubscriber> for u64 {
    ghost told = { λ s_id row found. subscriber_told row (subscriber_reply found) };

    fn write(&self, found: &Option<Subscriber>, row: &mut HlrSubscriber) -> u8 {
        write_subscriber(found, row)
    }
}

impl Telling<Option<Access>, HlrAccess> for HlrAccessAsked {
    ghost told = { λ asked row found. access_told asked.s_id asked.ai_type row (access_reply found) };

    fn write(&self, found: &Option<Access>, row: &mut HlrAccess) -> u8 {
        write_access_found(found, self.s_id, self.ai_type, row)
    }
}

impl Telling<ArrayVec<Number, 3>, HlrNumbers> for HlrDestinationAsked {
    ghost told = { λ asked numbers found. numbers_told numbers (numbers_reply found.items) };

    fn write(&self, found: &ArrayVec<Number, 3>, numbers: &mut HlrNumbers) -> u8 {
        write_numbers(found, numbers)
    }
}

impl Question<Lender, Option<Subscriber>, HlrSubscriber> for u64 {
    ghost is_read = { IsSubscriberRead };

    fn ask(&self, of: &Lender, row: &mut HlrSubscriber) -> u8 {
        ask_subscriber(of, *self, row)
    }

    fn copy_block(
        of: &Lender,
        asked: &[u64],
        found: &mut ArrayVec<Option<Subscriber>, 16>,
    ) -> bool {
        if !of.is_all_home() {
            return false;
        }
        of.register().copy_subscribers(asked, found)
    }
}

impl Question<Lender, Option<Access>, HlrAccess> for HlrAccessAsked {
    ghost is_read = { IsAccessRead };

    fn ask(&self, of: &Lender, row: &mut HlrAccess) -> u8 {
        ask_access(of, self.s_id, self.ai_type, row)
    }

    fn copy_block(
        of: &Lender,
        asked: &[HlrAccessAsked],
        found: &mut ArrayVec<Option<Access>, 16>,
    ) -> bool {
        if !of.is_all_home() {
            return false;
        }
        let mut pairs = ArrayVec::new();
        put_pairs(asked, &mut pairs);
        of.register().copy_access(pairs.as_slice(), found)
    }
}

impl Question<Lender, ArrayVec<Number, 3>, HlrNumbers> for HlrDestinationAsked {
    ghost is_read = { IsDestinationRead };

    fn ask(&self, of: &Lender, row: &mut HlrNumbers) -> u8 {
        let HlrDestinationAsked {
            s_id,
            sf_type,
            start_time,
            end_time,
        } = *self;
        ask_destinations(of, s_id, sf_type, start_time, end_time, row)
    }

    fn copy_block(
        of: &Lender,
        asked: &[HlrDestinationAsked],
        found: &mut ArrayVec<ArrayVec<Number, 3>, 16>,
    ) -> bool {
        if !of.is_all_home() {
            return false;
        }
        let mut calls = ArrayVec::new();
        put_calls(asked, &mut calls);
        of.register().copy_destinations(calls.as_slice(), found)
    }
}

/// Does GET_SUBSCRIBER_DATA for many subscribers. In each place it writes the code and the row of the call for one. Its
/// refusals, in order, are `NOT_OPEN` and `Field` if there aren't as many rows and codes as s_ids, and then nothing is
/// written.
#[unsafe(no_mangle)]
pub extern "C" fn hlr_subscriber_data_many(
    alloc: Global,
    handle: &mut Hlr,
    s_ids: &[u64],
    rows: &mut [HlrSubscriber],
    codes: &mut [u8],
) -> u8
    ensures answer { IsCall (NOT_OPEN, (rows.old, codes.old)) (IsManyRead IsSubscriberRead s_ids.now (rows.old, codes.old))
        handle.old.kept.register (result, (rows.new, codes.new)) handle.new.kept.register }
    ensures journal { handle.new.kept.journal ≡ handle.old.kept.journal }
{
    with_register!(handle, alloc, |register| {
        ask_many(register, s_ids, &mut ArrayVec::new(), rows, codes)
    })
}

/// Does GET_ACCESS_DATA for many accesses. In each place it writes the code and the row of the call for one. Its
/// refusals, in order, are `NOT_OPEN` and `Field` if there aren't as many rows and codes as queries, and then nothing
/// is written.
#[unsafe(no_mangle)]
pub extern "C" fn hlr_access_data_many(
    alloc: Global,
    handle: &mut Hlr,
    asked: &[HlrAccessAsked],
    rows: &mut [HlrAccess],
    codes: &mut [u8],
) -> u8
    ensures answer { IsCall (NOT_OPEN, (rows.old, codes.old)) (IsManyRead IsAccessRead asked.now (rows.old, codes.old))
        handle.old.kept.register (result, (rows.new, codes.new)) handle.new.kept.register }
    ensures journal { handle.new.kept.journal ≡ handle.old.kept.journal }
{
    with_register!(handle, alloc, |register| {
        ask_many(register, asked, &mut ArrayVec::new(), rows, codes)
    })
}

/// Does GET_NEW_DESTINATION for many calls. In each place it writes the code and the numbers of the call for one. Its
/// refusals, in order, are `NOT_OPEN` and `Field` if there aren't as many numbers and codes as queries, and then
/// nothing is written.
#[unsafe(no_mangle)]
pub extern "C" fn hlr_new_destination_many(
    alloc: Global,
    handle: &mut Hlr,
    asked: &[HlrDestinationAsked],
    numbers: &mut [HlrNumbers],
    codes: &mut [u8],
) -> u8
    ensures answer { IsCall (NOT_OPEN, (numbers.old, codes.old)) (IsManyRead IsDestinationRead asked.now (numbers.old, codes.old))
        handle.old.kept.register (result, (numbers.new, codes.new)) handle.new.kept.register }
    ensures journal { handle.new.kept.journal ≡ handle.old.kept.journal }
{
    with_register!(handle, alloc, |register| {
        ask_many(register, asked, &mut ArrayVec::new(), numbers, codes)
    })
}
