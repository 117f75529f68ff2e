//! The rows and destinations of several subscribers, looked up with overlapping memory accesses.
ghost use Rattle.std.specs.Prelude.{◌≡◌, ◌≤◌, [], length, map, if◌then◌else◌};
ghost use Rattle.tatp_rows.specs.Keys.{key_of};
ghost use Rattle.tatp_actions.specs.Action.{destinations};
ghost use Rattle.tatp_actions.specs.Book.{subscriber_at, access_at, has_active};
ghost use Rattle.tatp_actions.specs.Inside.{numbers_in};

use crate::destinations::{is_active, numbers_within};
use crate::part::Part;
use arrayvec::ArrayVec;
use row_groups::Forwardings;
use tatp_rows::{Access, Facility, Number, Subscriber, row_key, subscriber_key};

/// Returns the keys of the Subscriber rows of these subscribers.
fn subscriber_keys(s_ids: &[u32]) -> ArrayVec<u64, 16>
    requires { length s_ids.now ≤ 16 }
    ensures { result.items ≡ map (λ s_id. key_of s_id 0 0) s_ids.now }
{
    let mut keys = ArrayVec::new();
    for place in 0..s_ids.len() {
        keys.push(subscriber_key(s_ids[place]));
    }
    keys
}

/// Returns the keys of these Access_Info rows, each asked for by its s_id and ai_type.
fn access_keys(asked: &[(u32, u8)]) -> ArrayVec<u64, 16>
    requires { length asked.now ≤ 16 }
    ensures { result.items ≡ map (λ a. key_of a.0 a.1 0) asked.now }
{
    let mut keys = ArrayVec::new();
    for place in 0..asked.len() {
        let (s_id, ai_type) = asked[place];
        keys.push(row_key(s_id, ai_type, 0));
    }
    keys
}

/// Returns the keys of the facilities of these calls.
fn call_keys(asked: &[(u32, u8, u8, u8)]) -> ArrayVec<u64, 16>
    requires { length asked.now ≤ 16 }
    ensures { result.items ≡ map (λ q. key_of q.0 q.1 0) asked.now }
{
    let mut keys = ArrayVec::new();
    for place in 0..asked.len() {
        let (s_id, sf_type, _, _) = asked[place];
        keys.push(row_key(s_id, sf_type, 0));
    }
    keys
}

/// Returns the numbers of the forwardings of a group that take a call of these times, if the facility was found and is
/// active, and none otherwise.
fn numbers_of_active(
    facility: Option<Facility>,
    forwardings: &Option<Forwardings>,
    start_time: u8,
    end_time: u8,
) -> ArrayVec<Number, 3>
    ensures { result.items ≡ (if has_active facility then numbers_in start_time end_time forwardings.now else []) }
{
    if !is_active(facility) {
        return ArrayVec::new();
    }
    numbers_within(forwardings.as_ref(), start_time, end_time)
}

impl Part {
    /// Puts the Subscriber rows of up to 16 subscribers into an empty list, one for each in their order, with `None` if
    /// there is none. The rows are looked up with overlapping memory accesses, so that their waits for memory overlap.
    pub fn copy_subscribers(&self, s_ids: &[u32], rows: &mut ArrayVec<Option<Subscriber>, 16>)
        requires few { length s_ids.now ≤ 16 }
        requires empty { rows.old.items ≡ [] }
        ensures { rows.new.items ≡ map (subscriber_at self.now.book) s_ids.now }
    {
        let keys = subscriber_keys(s_ids);
        self.rows.subscribers.copy_many(keys.as_slice(), rows);
    }

    /// Puts up to 16 Access_Info rows into an empty list, each asked for by its s_id and ai_type, in the order of the
    /// queries, with `None` if there is none. The rows are looked up with overlapping memory accesses.
    pub fn copy_access(&self, asked: &[(u32, u8)], rows: &mut ArrayVec<Option<Access>, 16>)
        requires few { length asked.now ≤ 16 }
        requires empty { rows.old.items ≡ [] }
        ensures { rows.new.items ≡ map (λ a. access_at self.now.book a.0 a.1) asked.now }
    {
        let keys = access_keys(asked);
        let mut groups = ArrayVec::new();
        self.rows
            .access
            .copy_many(keys.as_slice(), &mut groups, rows);
    }

    /// Puts the numbers to which up to 16 calls are forwarded into an empty list, as `destinations` returns them, in
    /// the order of the queries. Each call is asked for by its s_id, sf_type, start_time and end_time. The facilities
    /// and the groups of forwardings are looked up with overlapping memory accesses.
    pub fn copy_destinations(
        &self,
        asked: &[(u32, u8, u8, u8)],
        found: &mut ArrayVec<ArrayVec<Number, 3>, 16>,
    )
        requires few { length asked.now ≤ 16 }
        requires empty { found.old.items ≡ [] }
        ensures { found.new.items ≡ map (λ q. record { items = destinations self.now.book q.0 q.1 q.2 q.3 }) asked.now }
    {
        let keys = call_keys(asked);
        let mut groups = ArrayVec::new();
        let mut facilities = ArrayVec::new();
        self.rows
            .facilities
            .copy_many(keys.as_slice(), &mut groups, &mut facilities);
        let mut forwardings = ArrayVec::new();
        self.rows
            .forwardings
            .copy_groups(keys.as_slice(), &mut forwardings);
        for place in 0..asked.len() {
            // Reads the type for the prover: it fits a byte.
            let (_, _sf_type, start_time, end_time) = asked[place];
            found.push(numbers_of_active(
                facilities.as_slice()[place],
                &forwardings.as_slice()[place],
                start_time,
                end_time,
            ));
        }
    }
}
