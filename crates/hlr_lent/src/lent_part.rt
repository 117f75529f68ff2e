//! The lent part, on which a thread of the caller's works.
ghost use Rattle.std.specs.Prelude.{◌≡◌, ◌<◌, ◌≤◌, ◌↔◌, IsTrue, None, Some, [], length, map, option_copied};
ghost use Rattle.std.specs.Arc.{arc_value};
ghost use Rattle.rtrb.specs.Ring.{known_free, sent};
ghost use Rattle.tatp_actions.specs.Action.{destinations, done_reply, s_id_of};
ghost use Rattle.tatp_actions.specs.Book.{IsWithin, access_at, subscriber_at};
ghost use Rattle.holding.specs.Held.{IsHolding};
ghost use Rattle.holding.specs.declared.job.Job.TheVariants as job;
ghost use Rattle.hlr_core.specs.Session.{IsJobDone};
ghost use Rattle.hlr_core.specs.Step.{given_number, posted_reply, reply_of};
ghost use Rattle.hlr_lent.specs.Rings.{lent_as};
ghost use Rattle.hlr_lent.specs.Sent.{holding_sent};

use crate::ring::{Message, PartEnd};
use arrayvec::ArrayVec;
use holding::Holding;
use std::marker::Model;
use std::sync::Arc;
use tatp_actions::Edit;
use tatp_rows::{Access, Number, Refusal, Subscriber};
use view_board::Board;

/// A lent part, seen as its holding. The thread that has it does jobs on its rows, which no other thread can reach, and
/// posts to the board that all parts share. Meanwhile the other parts and the register keep working.
///
/// `send_home` sends it home from any thread. If it is dropped instead, its rows are lost, and its part stays lent.
#[derive(Drop)]
pub struct LentPart {
    holding: Box<Holding>,
    board: Arc<Board>,
    ring: PartEnd,
}

impl Model for LentPart {
    ghost use Rattle.std.specs.Prelude.{◌≡◌, ◌<◌};
    ghost use Rattle.std.specs.Arc.{arc_value};
    ghost use Rattle.rtrb.specs.Ring.{known_free, sent};
    ghost use Rattle.holding.specs.Held.{HoldingState};
    ghost use Rattle.hlr_lent.specs.Rings.{MayComeHome};

    ghost Value = { HoldingState };

    ghost view = { λ o. o.holding.value };

    ghost invariant = { λ o. (o.holding.value.desk.board ≡ arc_value o.board) × (0 < known_free o.ring) × MayComeHome (sent o.ring) o.holding.value };
}

/// What is left of a lent part after it was sent home. It has no row, and only says to the prover which holding was
/// sent.
#[derive(Drop)]
pub struct Sent {
    ring: PartEnd,
}

impl LentPart {
    /// Makes the lent part of a holding that was just lent.
    pub(crate) fn of(holding: Box<Holding>, board: Arc<Board>, ring: PartEnd) -> LentPart
        requires board { holding.value.desk.board ≡ arc_value board }
        requires told { lent_as (sent ring) ≡ Some holding.value }
        requires room { 0 < known_free ring }
        ensures { result ≡ holding.value }
    {
        LentPart {
            holding,
            board,
            ring,
        }
    }

    /// Returns the holding of a part that isn't lent after all.
    pub(crate) fn into_holding(self) -> Box<Holding>
        ensures { result.value ≡ self }
    {
        let LentPart {
            holding,
            board: _board,
            ring: _ring,
        } = self;
        holding
    }

    /// Tells the prover that the part keeps its rules. The call does nothing.
    #[inline(always)]
    pub fn rules(&self)
        ensures { IsHolding self.now }
    {
        self.holding.rules();
    }

    /// Returns the first subscriber of the part, 1..=16,777,216. It can't change while the part is lent.
    pub fn lo(&self) -> u32
        ensures { result ≡ self.now.part.lo }
    {
        self.holding.lo()
    }

    /// Returns the number behind the last subscriber of the part, at most 16,777,217.
    pub fn hi(&self) -> u32
        ensures { result ≡ self.now.part.hi }
    {
        self.holding.hi()
    }

    /// Returns whether the part has this subscriber in its range.
    pub fn has(&self, s_id: u32) -> bool
        ensures { IsTrue result ↔ IsWithin self.now.part.lo self.now.part.hi s_id }
    {
        self.holding.lo() <= s_id && s_id < self.holding.hi()
    }

    /// Lends the Subscriber row of a subscriber, or returns `None` if the part has no such row.
    pub fn lend_subscriber(&self, s_id: u32) -> Option<&Subscriber>
        ensures { option_copied result ≡ subscriber_at self.now.part.book s_id }
    {
        self.holding.lend_subscriber(s_id)
    }

    /// Returns the Access_Info row of a subscriber's access, or `None` if the part has no such row.
    pub fn lend_access(&self, s_id: u32, ai_type: u8) -> Option<Access>
        ensures { result ≡ access_at self.now.part.book s_id ai_type }
    {
        self.holding.lend_access(s_id, ai_type)
    }

    /// Puts the Subscriber rows of up to 16 subscribers into an empty list, as `Holding::copy_subscribers`.
    pub fn copy_subscribers(&self, s_ids: &[u32], rows: &mut ArrayVec<Option<Subscriber>, 16>)
        requires few { length s_ids.now ≤ 16 }
        requires empty { rows.old.items ≡ [] }
        ensures { rows.new.items ≡ map (subscriber_at self.now.part.book) s_ids.now }
    {
        self.holding.copy_subscribers(s_ids, rows);
    }

    /// Puts up to 16 Access_Info rows into an empty list, each asked for by its s_id and ai_type, as
    /// `Holding::copy_access`.
    pub fn copy_access(&self, asked: &[(u32, u8)], rows: &mut ArrayVec<Option<Access>, 16>)
        requires few { length asked.now ≤ 16 }
        requires empty { rows.old.items ≡ [] }
        ensures { rows.new.items ≡ map (λ a. access_at self.now.part.book a.0 a.1) asked.now }
    {
        self.holding.copy_access(asked, rows);
    }

    /// Returns the numbers to which calls of a subscriber are forwarded, as `Holding::destinations`. There are at most
    /// three.
    pub fn destinations(
        &self,
        s_id: u32,
        sf_type: u8,
        start_time: u8,
        end_time: u8,
    ) -> ArrayVec<Number, 3>
        ensures { result.items ≡ destinations self.now.part.book s_id sf_type start_time end_time }
    {
        self.holding
            .destinations(s_id, sf_type, start_time, end_time)
    }

    /// Puts the numbers to which up to 16 calls are forwarded into an empty list, each call asked for by its s_id,
    /// sf_type, start_time and end_time, as `Holding::copy_destinations`.
    pub fn copy_destinations(
        &self,
        asked: &[(u32, u8, u8, u8)],
        found: &mut ArrayVec<ArrayVec<Number, 3>, 16>,
    )
        requires few { length asked.now ≤ 16 }
        requires empty { found.old.items ≡ [] }
        ensures { found.new.items ≡ map (λ q. record { items = destinations self.now.part.book q.0 q.1 q.2 q.3 }) asked.now }
    {
        self.holding.copy_destinations(asked, found);
    }

    /// Does an edit of the part's rows that gives no number to a subscriber, as `Holding::edit`. Its refusals, in
    /// order, are `Field`, and then those of the rows, where `Memory` comes only if a row is added. A refusal changes
    /// nothing.
    pub fn edit<E: Edit>(&mut self, edit: E) -> Result<(), Refusal>
        requires within { IsWithin self.old.part.lo self.old.part.hi (s_id_of (E.action edit)) }
        requires number { given_number (E.action edit) ≡ None }
        ensures { IsJobDone (job.Act (E.action edit)) self.old (reply_of (done_reply result)) self.new }
    {
        self.holding.edit(edit)
    }

    /// Posts the first `limit` unposted cells of the part, as `Holding::post`, and returns how many it posted. It
    /// returns `Worn` if a word would pass its limit, and then the cells that were posted before stay posted.
    pub fn post(&mut self, limit: u64) -> Result<u8, Refusal>
        ensures { IsJobDone (job.Post limit) self.old (posted_reply result) self.new }
    {
        self.holding.post(&self.board, limit)
    }

    /// Sends the part home as it is, and `Lender::back` takes it in there. It takes no memory, and never waits. What it
    /// returns only says which holding was sent, so it may be dropped at once.
    pub fn send_home(self) -> Sent
        ensures { holding_sent result ≡ Some self }
    {
        let LentPart {
            holding,
            board: _board,
            mut ring,
        } = self;
        ring.push_reserved(Message::Home(holding));
        Sent { ring }
    }
}
