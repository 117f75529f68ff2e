//! The rows and destinations of several subscribers of a holding's part, looked up with overlapping memory accesses.
ghost use Rattle.std.specs.Prelude.{◌≡◌, ◌≤◌, [], length, map};
ghost use Rattle.tatp_actions.specs.Action.{destinations};
ghost use Rattle.tatp_actions.specs.Book.{subscriber_at, access_at};

use crate::holding::Holding;
use arrayvec::ArrayVec;
use tatp_rows::{Access, Number, Subscriber};

impl Holding {
    /// Puts the Subscriber rows of up to 16 subscribers into an empty list, one for each in their order, with `None` if
    /// there is none. The rows are looked up with overlapping memory accesses, so that their waits for memory overlap.
    pub fn copy_subscribers(&self, s_ids: &[u32], rows: &mut ArrayVec<Option<Subscriber>, 16>)
        requires few { length s_ids.now ≤ 16 }
        requires empty { rows.old.items ≡ [] }
        ensures { rows.new.items ≡ map (subscriber_at self.now.part.book) s_ids.now }
    {
        self.part.copy_subscribers(s_ids, rows);
    }

    /// Puts up to 16 Access_Info rows into an empty list, each asked for by its s_id and ai_type, in the order of the
    /// queries, with `None` if there is none. The rows are looked up with overlapping memory accesses.
    pub fn copy_access(&self, asked: &[(u32, u8)], rows: &mut ArrayVec<Option<Access>, 16>)
        requires few { length asked.now ≤ 16 }
        requires empty { rows.old.items ≡ [] }
        ensures { rows.new.items ≡ map (λ a. access_at self.now.part.book a.0 a.1) asked.now }
    {
        self.part.copy_access(asked, rows);
    }

    /// Puts the numbers to which up to 16 calls are forwarded into an empty list, as `destinations` returns them, in
    /// the order of the queries. Each call is asked for by its s_id, sf_type, start_time and end_time. The rows are
    /// looked up with overlapping memory accesses.
    pub fn copy_destinations(
        &self,
        asked: &[(u32, u8, u8, u8)],
        found: &mut ArrayVec<ArrayVec<Number, 3>, 16>,
    )
        requires few { length asked.now ≤ 16 }
        requires empty { found.old.items ≡ [] }
        ensures { found.new.items ≡ map (λ q. record { items = destinations self.now.part.book q.0 q.1 q.2 q.3 }) asked.now }
    {
        self.part.copy_destinations(asked, found);
    }
}
