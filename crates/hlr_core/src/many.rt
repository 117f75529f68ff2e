//! Answers to up to 16 questions at once. Their rows are looked up with overlapping memory accesses, so that the
//! processor waits for memory less often.
ghost use Rattle.std.specs.Prelude.{◌≡◌, ◌≤◌, ◌+◌, IsTrue, [], false, length, map, true};
ghost use Rattle.std.specs.List.{All};
ghost use Rattle.tatp_rows.specs.Rows.{is_between};
ghost use Rattle.tatp_rows.specs.declared.ranges.TheConstants.{LAST_SUBSCRIBER};
ghost use Rattle.tatp_actions.specs.Action.{is_in_range};
ghost use Rattle.tatp_actions.specs.Book.{IsWithin};
ghost use Rattle.tatp_actions.specs.declared.action.Action.TheVariants as action;
ghost use Rattle.hlr_core.specs.Home.{IsHomeTo};
ghost use Rattle.hlr_core.specs.Rows.{AreFound, access_reply, numbers_reply, subscriber_reply};
ghost use Rattle.hlr_core.specs.declared.event.Event.TheVariants as event;

use crate::checked;
use crate::register::Register;
use arrayvec::ArrayVec;
use tatp_rows::{Access, LAST_SUBSCRIBER, Number, Subscriber, byte_in_range, in_range};

/// Puts the numbers of subscribers into an empty list, and returns whether each is in 1..=16,777,216.
fn put_ids(s_ids: &[u64], ids: &mut ArrayVec<u32, 16>) -> bool
    requires few { length s_ids.now ≤ 16 }
    requires empty { ids.old.items ≡ [] }
    ensures same { IsTrue result → ids.new.items ≡ s_ids.now }
    ensures within { IsTrue result → All (IsWithin 1 (LAST_SUBSCRIBER + 1)) s_ids.now }
{
    for place in 0..s_ids.len() {
        let Ok(s_id) = in_range(s_ids[place], LAST_SUBSCRIBER) else {
            return false;
        };
        ids.push(s_id);
    }
    true
}

/// Puts accesses into an empty list, and returns whether each s_id is in 1..=16,777,216 and each type in 1..=4.
fn put_accesses(asked: &[(u64, u64)], accesses: &mut ArrayVec<(u32, u8), 16>) -> bool
    requires few { length asked.now ≤ 16 }
    requires empty { accesses.old.items ≡ [] }
    ensures same { IsTrue result → accesses.new.items ≡ asked.now }
    ensures within { IsTrue result → All (λ a. IsWithin 1 (LAST_SUBSCRIBER + 1) a.0 × (is_between 1 4 a.1 ≡ true)) asked.now }
{
    for place in 0..asked.len() {
        let (s_id, ai_type) = asked[place];
        let Ok(s_id) = in_range(s_id, LAST_SUBSCRIBER) else {
            return false;
        };
        let Ok(ai_type) = byte_in_range(ai_type, 4) else {
            return false;
        };
        accesses.push((s_id, ai_type));
    }
    true
}

/// Puts calls and their s_ids into empty lists, and returns whether the fields of each one are in the ranges that
/// `Register::destinations` demands.
fn put_calls(
    asked: &[(u64, u64, u64, u64)],
    calls: &mut ArrayVec<(u32, u8, u8, u8), 16>,
    s_ids: &mut ArrayVec<u32, 16>,
) -> bool
    requires few { length asked.now ≤ 16 }
    requires empty { (calls.old.items ≡ []) × (s_ids.old.items ≡ []) }
    ensures same { IsTrue result → calls.new.items ≡ asked.now }
    ensures ids { IsTrue result → s_ids.new.items ≡ map (λ q. q.0) asked.now }
    ensures within { IsTrue result → All (λ q. IsWithin 1 (LAST_SUBSCRIBER + 1) q.0 × (is_in_range (action.NewDestination q.0 q.1 q.2 q.3) ≡ true)) asked.now }
{
    for place in 0..asked.len() {
        let (s_id, sf_type, start_time, end_time) = asked[place];
        let Ok(call) = checked::new_destination(s_id, sf_type, start_time, end_time) else {
            return false;
        };
        calls.push(call);
        s_ids.push(call.0);
    }
    true
}

/// Puts the s_ids of accesses into an empty list.
fn put_s_ids(accesses: &[(u32, u8)], s_ids: &mut ArrayVec<u32, 16>)
    requires few { length accesses.now ≤ 16 }
    requires empty { s_ids.old.items ≡ [] }
    ensures { s_ids.new.items ≡ map (λ a. a.0) accesses.now }
{
    for place in 0..accesses.len() {
        let (s_id, _) = accesses[place];
        s_ids.push(s_id);
    }
}

impl Register {
    /// Does GET_SUBSCRIBER_DATA (TATP, section 3.1) for up to 16 subscribers whose parts are home, with overlapping
    /// memory accesses. If one part has all of them, it puts the row of each into an empty list, in their order, with
    /// `None` for a subscriber without a row, and returns true. Otherwise, and also if an s_id isn't in 1..=16,777,216,
    /// it returns false, and the caller can ask `lend_subscriber` for one after another.
    pub fn copy_subscribers(
        &self,
        s_ids: &[u64],
        rows: &mut ArrayVec<Option<Subscriber>, 16>,
    ) -> bool
        requires few { length s_ids.now ≤ 16 }
        requires empty { rows.old.items ≡ [] }
        requires home { All (λ s_id. IsHomeTo (event.SubscriberData s_id) self.now) s_ids.now }
        ensures found { IsTrue result → AreFound event.SubscriberData subscriber_reply self.now s_ids.now rows.new.items }
        ensures none { result ≡ false → rows.new ≡ rows.old }
    {
        let mut ids = ArrayVec::new();
        if !put_ids(s_ids, &mut ids) {
            return false;
        }
        let Some(holding) = self.owners.holding_of_all(ids.as_slice()) else {
            return false;
        };
        holding.copy_subscribers(ids.as_slice(), rows);
        true
    }

    /// Does GET_ACCESS_DATA (TATP, section 3.3) for up to 16 accesses of subscribers whose parts are home, each asked
    /// for by its s_id and ai_type, in the same way as `copy_subscribers`.
    pub fn copy_access(&self, asked: &[(u64, u64)], rows: &mut ArrayVec<Option<Access>, 16>) -> bool
        requires few { length asked.now ≤ 16 }
        requires empty { rows.old.items ≡ [] }
        requires home { All (λ a. IsHomeTo (event.AccessData a.0 a.1) self.now) asked.now }
        ensures found { IsTrue result → AreFound (λ a. event.AccessData a.0 a.1) access_reply self.now asked.now rows.new.items }
        ensures none { result ≡ false → rows.new ≡ rows.old }
    {
        let mut accesses = ArrayVec::new();
        if !put_accesses(asked, &mut accesses) {
            return false;
        }
        let mut s_ids = ArrayVec::new();
        put_s_ids(accesses.as_slice(), &mut s_ids);
        let Some(holding) = self.owners.holding_of_all(s_ids.as_slice()) else {
            return false;
        };
        holding.copy_access(accesses.as_slice(), rows);
        true
    }

    /// Does GET_NEW_DESTINATION (TATP, section 3.2) for up to 16 calls to subscribers whose parts are home, in the same
    /// way as `copy_subscribers`. Each is asked for by its s_id, sf_type, start_time and end_time, and the list gets
    /// the numbers to which it is forwarded, if there are any.
    pub fn copy_destinations(
        &self,
        asked: &[(u64, u64, u64, u64)],
        numbers: &mut ArrayVec<ArrayVec<Number, 3>, 16>,
    ) -> bool
        requires few { length asked.now ≤ 16 }
        requires empty { numbers.old.items ≡ [] }
        requires home { All (λ q. IsHomeTo (event.NewDestination q.0 q.1 q.2 q.3) self.now) asked.now }
        ensures found { IsTrue result → AreFound (λ q. event.NewDestination q.0 q.1 q.2 q.3) (λ found. numbers_reply found.items) self.now asked.now numbers.new.items }
        ensures none { result ≡ false → numbers.new ≡ numbers.old }
    {
        let mut calls = ArrayVec::new();
        let mut s_ids = ArrayVec::new();
        if !put_calls(asked, &mut calls, &mut s_ids) {
            return false;
        }
        let Some(holding) = self.owners.holding_of_all(s_ids.as_slice()) else {
            return false;
        };
        holding.copy_destinations(calls.as_slice(), numbers);
        true
    }
}
