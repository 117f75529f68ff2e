//! A part of the store: the rows of a range of subscribers.
ghost use Rattle.std.specs.Prelude.{◌≡◌, ◌+◌, ◌<◌, ◌≤◌, [], IfOk, IfErr};
ghost use Rattle.tatp_rows.specs.Zones.{zone_of};
ghost use Rattle.tatp_actions.specs.Action.{s_id_of, done_reply, IsOutcome};
ghost use Rattle.tatp_actions.specs.Edit.{Acts, notes_of};
ghost use Rattle.tatp_actions.specs.Book.{IsWithin, IsRowsOf, empty_book};
ghost use Rattle.tatp_actions.specs.Change.{IsChange};
ghost use Rattle.tatp_actions.specs.Heights.{zero_heights};
ghost use Rattle.tatp_actions.specs.Part.{PartState, IsPart, IsRange, IsWidth};
ghost use Rattle.tatp_actions.specs.Tables.{AreKeyed, stored_book};
ghost use Rattle.tatp_actions.specs.declared.action.Action.{Action};

use crate::action::{Action, RowReply};
use crate::change::Change;
use crate::rows::Rows;
use crate::trees::Trees;
use std::alloc::Global;
use std::marker::Model;
use std::num::NonZeroU32;
use tatp_rows::{Refusal, zone};

/// The rows of the subscribers in a range lo..hi, where hi is excluded, with the zone width by which they are counted.
#[derive(Drop)]
pub struct Part<R: Rows = Trees> {
    pub(crate) rows: R,
    pub(crate) lo: u32,
    pub(crate) hi: u32,
    pub(crate) width: u32,
    // The allocator, for the calls that cut and join parts.
    pub(crate) alloc: Global,
    // How many steps the last cut or join took.
    pub(crate) last_steps: u64,
}

impl<R: Rows> Model for Part<R> {
    ghost use Rattle.tatp_actions.specs.Part.{PartState, IsPart};
    ghost use Rattle.tatp_actions.specs.Tables.{AreKeyed, stored_book};

    ghost Value = { PartState };

    ghost view = { λ p. record {
      book = stored_book (R.tables p.rows);
      asked = R.times_asked p.rows;
      lo = p.lo;
      hi = p.hi;
      width = p.width;
      steps = p.last_steps;
      heights = R.heights p.rows;
    } };

    ghost invariant = { λ p. IsPart (record {
      book = stored_book (R.tables p.rows);
      asked = R.times_asked p.rows;
      lo = p.lo;
      hi = p.hi;
      width = p.width;
      steps = p.last_steps;
      heights = R.heights p.rows;
    }) × AreKeyed (R.tables p.rows) };
}

/// Makes the reply and the change of an action that was refused, which moves no cell.
pub(crate) fn refused(why: Refusal) -> (RowReply, Change)
    ensures { result ≡ (RowReply.Refused why, []) }
{
    (RowReply::Refused(why), Change::none())
}

/// Makes the reply and the change of an action from the result of a change of rows.
fn answered(done: Result<Change, Refusal>) -> (RowReply, Change)
    ensures { result ≡ (done_reply done, notes_of done) }
{
    match done {
        Ok(change) => (RowReply::Done, change),
        Err(why) => refused(why),
    }
}

impl<R: Rows> Part<R> {
    /// Makes a part over rows that lie in its range and keep the rules of a book. It keeps the allocator. The range
    /// must satisfy 1 <= lo < hi <= 16,777,217, and the zone width must be 1..=524,288.
    pub fn over(alloc: Global, rows: R, lo: u32, hi: u32, width: u32) -> Self
        requires range { IsRange lo hi }
        requires width { IsWidth width }
        requires rows { IsRowsOf lo hi (stored_book (R.tables rows)) }
        requires keys { AreKeyed (R.tables rows) }
        ensures { result ≡ record {
          book = stored_book (R.tables rows);
          asked = R.times_asked rows;
          lo = lo;
          hi = hi;
          width = width;
          steps = 0;
          heights = R.heights rows;
        } }
    {
        Part {
            rows,
            lo,
            hi,
            width,
            alloc,
            last_steps: 0,
        }
    }

    /// Returns how often actions have asked the rows. Reads that don't change the part are not counted.
    pub fn asked(&self) -> u64
        ensures { result ≡ self.now.asked }
    {
        self.rows.asked()
    }

    /// Returns the zone of a subscriber.
    pub(crate) fn zone_of(&self, s_id: u32) -> u8
        ensures value { result ≡ zone_of self.now.width s_id }
        ensures small { result < 32 }
    {
        zone(s_id, self.width)
    }

    /// Does UPDATE_LOCATION, by s_id, with a location that may be 0. Its refusals, in order, are `Field` and
    /// `NoSubscriber`.
    fn update_any_location(&mut self, s_id: u32, vlr_location: u32) -> Result<Change, Refusal>
        requires { IsWithin self.old.lo self.old.hi s_id }
        ensures { Acts (Action.UpdateLocation s_id vlr_location)
            self.old (done_reply result) (notes_of result) self.new }
    {
        let Some(vlr_location) = NonZeroU32::new(vlr_location) else {
            return Err(Refusal::Field);
        };
        self.update_location(s_id, vlr_location)
    }

    /// Does an action on the rows of one subscriber in the range, and returns the reply, and the change of the cells.
    ///
    /// `Memory` comes only in place of `Done`, and only if a row is added. A number that another subscriber has is no
    /// refusal here, because only the register knows all numbers, and refuses it. After a refusal the rows are as
    /// before.
    pub fn act(&mut self, action: Action) -> (RowReply, Change)
        requires { IsWithin self.old.lo self.old.hi (s_id_of action) }
        ensures outcome { IsOutcome action self.old.book result.0 self.new.book }
        ensures change { IsChange self.old.width self.old.book self.new.book result.1 }
        ensures refused { (why : Refusal) → result.0 ≡ RowReply.Refused why → (result.1 ≡ []) × (self.new.book ≡ self.old.book) }
        ensures range { (self.new.lo ≡ self.old.lo) × (self.new.hi ≡ self.old.hi) × (self.new.width ≡ self.old.width) }
        ensures steps { self.new.steps ≡ self.old.steps }
        ensures asked { self.new.asked ≤ self.old.asked + 8 }
        ensures before { IsPart self.old }
        ensures after { IsPart self.new }
    {
        // Opens the part for the prover: its rules are known as the action begins.
        let _ = &self.rows;
        let done = match action {
            Action::SubscriberData { s_id } => self.subscriber_data(s_id),
            Action::NewDestination {
                s_id,
                sf_type,
                start_time,
                end_time,
            } => self.new_destination(s_id, sf_type, start_time, end_time),
            Action::AccessData { s_id, ai_type } => self.access_data(s_id, ai_type),
            Action::UpdateSubscriber {
                s_id,
                sf_type,
                bit_1,
                data_a,
            } => answered(self.update_subscriber(s_id, sf_type, bit_1, data_a)),
            Action::UpdateLocation { s_id, vlr_location } => {
                answered(self.update_any_location(s_id, vlr_location))
            }
            Action::InsertForwarding(row) => answered(self.insert_forwarding(row)),
            Action::DeleteForwarding {
                s_id,
                sf_type,
                start_time,
            } => answered(self.delete_forwarding(s_id, sf_type, start_time)),
            Action::AddSubscriber(row) => answered(self.add_subscriber(row)),
            Action::AddAccess(row) => answered(self.add_access(row)),
            Action::AddFacility(row) => answered(self.add_facility(row)),
            Action::SetActive {
                s_id,
                sf_type,
                is_active,
            } => answered(self.set_active(s_id, sf_type, is_active)),
            Action::SetNumber { s_id, sub_nbr } => answered(self.set_number(s_id, sub_nbr)),
        };
        // Opens the part for the prover: its rules are known after the action.
        let _ = &self.rows;
        done
    }
}

impl Part {
    /// Makes an empty part of the range lo..hi, with 1 <= lo < hi <= 16,777,217 and a zone width of 1..=524,288. Its
    /// empty trees take no memory, so this always returns `Ok`.
    pub fn new(alloc: Global, lo: u32, hi: u32, width: u32) -> Result<Self, Refusal>
        requires range { IsRange lo hi }
        requires width { IsWidth width }
        ensures part { IfOk result (λ part. part ≡ record {
          book = empty_book;
          asked = 0;
          lo = lo;
          hi = hi;
          width = width;
          steps = 0;
          heights = zero_heights;
        }) }
        ensures ok { IfErr result (λ _. ⊥) }
    {
        Ok(Part::over(alloc, Trees::new(alloc)?, lo, hi, width))
    }

    /// Returns the first subscriber of the range, 1..=16,777,216.
    pub fn lo(&self) -> u32
        ensures { result ≡ self.now.lo }
    {
        self.lo
    }

    /// Returns the number behind the last subscriber of the range.
    pub fn hi(&self) -> u32
        ensures { result ≡ self.now.hi }
    {
        self.hi
    }

    /// Returns the zone width, 1..=524,288.
    pub fn width(&self) -> u32
        ensures value { result ≡ self.now.width }
        ensures rules { IsPart self.now }
    {
        self.width
    }
}
