//! The register: all rows, with no number given twice, and the published and unposted count of every cell.
ghost use Rattle.std.specs.Prelude.{◌≡◌, ℕ, [], vec_len, vec_capacity, ◌<◌, ◌↔◌, ◌⊎◌, true, None, IsTrue, IfOk, IfErr, OnErr, MatchResult, slice_index, slice_index_or, ◌+◌, ◌-◌, ℤ, pos, ◌+ℤ◌};
ghost use Rattle.view_board.specs.Desks.{with_view};
ghost use Rattle.view_board.specs.Views.{looked};
ghost use Rattle.tatp_actions.specs.Cell.{cell};
ghost use Rattle.hlr_core.specs.Inside.Asked.{ChangesRows};
ghost use Rattle.hlr_core.specs.WhileOut.{IsRegisterRecut, IsRegisterStep};
ghost use Rattle.hlr_core.specs.Index.{index_of};
ghost use Rattle.hlr_core.specs.Kept.{IsSameAtHome};
ghost use Rattle.hlr_owners.specs.Apart.{loose_pieces};
ghost use Rattle.hlr_owners.specs.Boxed.{unboxed};
ghost use Rattle.hlr_owners.specs.Recut.{IsHomeToCut, IsRecut};
ghost use Rattle.hlr_core.specs.Run.{IsOrderStep, IsRun};
ghost use Rattle.hlr_core.specs.Gather.{IsRefusedWhole};
ghost use Rattle.hlr_core.specs.Home.{IsHomeTo, AreHomesAfter, IsLaterDesk, HaveSameHomes};
ghost use Rattle.hlr_core.specs.Inside.Noted.{IsIndexed};
ghost use Rattle.hlr_core.specs.Weights.{published_weights, counted_weights};
ghost use Rattle.hlr_owners.specs.Scattered.{holdings_in, pieces_in, pending_together, MayBeGathered, IsSurveyed, misfit_of, store_from, store_by, AreOfRegions};
ghost use Rattle.hlr_owners.specs.Owners.{AllHome, IsHomeFrom, IsPartHome, book_in, part_holdings, store_in, unposted};
ghost use Rattle.hlr_core.specs.Step.{IsStep, edited_reply};
ghost use Rattle.part_table.specs.Numbered.{numbered};
ghost use Rattle.part_table.specs.Proposal.{proposal};
ghost use Rattle.part_table.specs.Regions.{AreRegions};
ghost use Rattle.hlr_owners.specs.Desks.{AreOpening};
ghost use Rattle.hlr_owners.specs.Sight.{IsSightOf};
ghost use Rattle.hlr_owners.specs.Store.{HasOpening, opening, opening_from, published, unpublished, parts_in};

use crate::event::{Event, Reply};
use crate::level::are_level;
use crate::numbers::index_of;
use crate::order::{Answer, Order};
use crate::weights::zone_weights;
use arrayvec::ArrayVec;
use hlr_owners::{Owners, Prepared, Scattered};
use number_index::NumberIndex;
use part_table::{Bounds, Regions, Side, can_open};
use std::alloc::Global;
use std::marker::Model;
use tatp_actions::{CELLS, Cells, RowReply};
use tatp_rows::{Access, Back, Number, Refusal, Subscriber};
use view_board::{Sight, WORDS};

/// A home location register, seen as its regions with the owner of each one: the holding of a part, which is home or
/// lent, or a loose piece. Together they make up the store of the definitions (`store_in`): the rows, the regions, the
/// words of the board, what was seen of them, the slots of each part, and the zone width. Of a lent part, the register
/// knows what it was when it was lent.
///
/// Each event moves the store by one right step. After it, what is published and what is unposted of each cell add up
/// to the count over the rows.
#[derive(Drop)]
pub struct Register {
    pub(crate) owners: Owners,
    pub(crate) index: NumberIndex,
    alloc: Global,
}

impl Model for Register {
    ghost use Rattle.hlr_owners.specs.Owners.{OwnersState, book_in};
    ghost use Rattle.hlr_core.specs.Index.{IsRegister};

    ghost Value = { OwnersState };

    ghost view = { λ r. r.owners };

    ghost invariant = { λ r. IsRegister (book_in r.owners.owners) r.index };
}

/// Makes the reply to a read of a Subscriber row: the row, or why it was refused.
pub(crate) fn row_reply(lent: Result<&Subscriber, Refusal>) -> Reply
    ensures { MatchResult lent.entry (λ row. result ≡ Reply.Rows (RowReply.Row row.now)) (λ why. result ≡ Reply.Refused why) }
{
    match lent {
        Ok(row) => Reply::Rows(RowReply::Row(*row)),
        Err(why) => Reply::Refused(why),
    }
}

/// Makes the reply to a read of an Access_Info row: its data1 to data4, or why it was refused.
pub(crate) fn access_reply(found: Result<Access, Refusal>) -> Reply
    ensures { MatchResult found (λ row. result ≡ Reply.Rows (RowReply.AccessRow row.data1 row.data2 row.data3 row.data4)) (λ why. result ≡ Reply.Refused why) }
{
    match found {
        Ok(row) => Reply::Rows(RowReply::AccessRow {
            data1: row.data1(),
            data2: row.data2(),
            data3: row.data3(),
            data4: row.data4(),
        }),
        Err(why) => Reply::Refused(why),
    }
}

fn numbers_reply(found: Result<ArrayVec<Number, 3>, Refusal>) -> Reply
    ensures { MatchResult found (λ numbers. result ≡ Reply.Rows (RowReply.Numbers numbers)) (λ why. result ≡ Reply.Refused why) }
{
    match found {
        Ok(numbers) => Reply::Rows(RowReply::Numbers(numbers)),
        Err(why) => Reply::Refused(why),
    }
}

/// Makes the reply to an edit: that it is done, or why it was refused.
pub(crate) fn edited_reply(done: Result<(), Refusal>) -> Reply
    ensures { result ≡ edited_reply done }
{
    match done {
        Ok(()) => Reply::Rows(RowReply::Done),
        Err(why) => Reply::Refused(why),
    }
}

impl Register {
    /// Opens an empty register whose words are all 0, with so many parts that share out the zones of `width`
    /// subscribers each. Its refusals, in order, are `Field` if parts isn't in 1..=16 or the width isn't in
    /// 1..=524,288, and `Memory` if the system refuses memory.
    #[inline(never)]
    pub fn open(alloc: Global, parts: u8, width: u32) -> Result<Register, Refusal>
        ensures ok { IfOk result (λ register. store_in register ≡ opening parts width) }
        ensures home { IfOk result (λ register. AllHome register.owners) }
        ensures field { (result ≡ Err Refusal.Field) ↔ ¬ (HasOpening parts width) }
        ensures other { OnErr result ((result ≡ Err Refusal.Field) ⊎ (result ≡ Err Refusal.Memory)) }
    {
        Register::open_from(alloc, parts, width, &[0; WORDS])
    }

    /// Opens an empty register over words that exist already. In each slot and cell the plus-word must equal the
    /// minus-word, because nothing is published of a register without rows. It returns `Field` also if two such words
    /// differ, or if a word passes `LIMIT`.
    pub fn open_from(
        alloc: Global,
        parts: u8,
        width: u32,
        words: &[u64; WORDS],
    ) -> Result<Register, Refusal>
        ensures ok { IfOk result (λ register. store_in register ≡ opening_from parts width words.now) }
        ensures home { IfOk result (λ register. AllHome register.owners) }
        ensures field { (result ≡ Err Refusal.Field) ↔ ¬ (HasOpening parts width × AreOpening words.now) }
        ensures other { OnErr result ((result ≡ Err Refusal.Field) ⊎ (result ≡ Err Refusal.Memory)) }
    {
        if !can_open(parts, width) {
            return Err(Refusal::Field);
        }
        if !are_level(words) {
            return Err(Refusal::Field);
        }
        let owners = Owners::open(alloc, parts, width, words)?;
        let Ok(index) = NumberIndex::new(alloc) else {
            unreachable!()
        };
        Ok(Register {
            owners,
            index,
            alloc,
        })
    }

    /// Takes the register apart, into its holdings by the numbers of their parts, its loose pieces in the order of
    /// their ranges, and the frame. The index is dropped. `gather` makes the register again, with its loose pieces
    /// numbered from 1 in the order of their ranges, and can only be refused with `Memory`. The call takes no memory.
    pub fn scatter(self) -> Scattered
        requires { AllHome self.owners }
        ensures store { store_by self.regions result ≡ store_in self }
        ensures held { AreOfRegions self.regions self.width result }
        ensures holdings { holdings_in result ≡ part_holdings self.owners }
        ensures pieces { pieces_in result ≡ unboxed (loose_pieces self.owners) }
        ensures pending { (c : ℕ) → pending_together result c ≡ unposted self.owners c }
        ensures difference { (c : ℕ) → c < CELLS → pending_together result c ≡ unpublished (store_in self) c }
        ensures desks { MayBeGathered result }
        ensures again { store_from result ≡ record (store_in self) { regions = numbered 0 1 self.regions } }
        ensures fits { (why : Refusal) → IsRefusedWhole result why → why ≡ Refusal.Memory }
    {
        let Register { owners, .. } = self;
        owners.scatter()
    }

    /// Makes a register of holdings, loose pieces and a frame, no matter what was done to them since they were taken
    /// apart. The regions are their ranges, numbered in the order of keys, and the index is made of their rows. No row
    /// is counted. All desks, including the frame's, must belong to the frame's board, and each slot must have exactly
    /// one of these desks. Each holding's desk must have one slot, and each slot of the frame's desk must have a net of
    /// 0 for every cell.
    ///
    /// Its refusals, in order, are `NoPart` if there is no holding or more than 16, `ManyPieces` if there are more than
    /// 16 pieces, `Field` if a zone width differs from the frame's, `NotAdjacent` if the ranges leave a gap or overlap,
    /// `NumberTaken` if two rows have the same number, and `Memory` if the system refuses memory, which can also come
    /// before the others. Each refusal hands everything back as it came.
    pub fn gather(alloc: Global, scattered: Scattered) -> Result<Register, Back<Scattered>>
        requires { MayBeGathered scattered }
        ensures gathered { IfOk result (λ register. (misfit_of scattered ≡ None)
            × (store_in register ≡ store_from scattered)) }
        ensures home { IfOk result (λ register. AllHome register.owners) }
        ensures pending { IfOk result (λ register. (c : ℕ) → unposted register.owners c ≡ pending_together scattered c) }
        ensures difference { IfOk result (λ register. (c : ℕ) → c < CELLS → unposted register.owners c ≡ unpublished (store_in register) c) }
        ensures refused { IfErr result (λ back. (back.item ≡ scattered)
            × IsRefusedWhole scattered back.why) }
    {
        match prepare(alloc, &scattered) {
            Ok((prepared, index)) => Ok(Register {
                owners: Owners::gathered(scattered, prepared),
                index,
                alloc,
            }),
            Err(why) => Err(Back {
                why,
                item: scattered,
            }),
        }
    }

    /// Applies an event, and returns the reply. A refusal changes nothing, except that after `Worn` the cells that were
    /// posted before stay posted. The reply is right regardless of what jobs have done to the lent holdings.
    pub fn apply(&mut self, event: Event) -> Reply
        requires { IsHomeTo event self.old }
        ensures { IsRegisterStep event self.old result self.new }
    {
        match event {
            Event::SubscriberData { s_id } => row_reply(self.lend_subscriber(s_id)),
            Event::NewDestination {
                s_id,
                sf_type,
                start_time,
                end_time,
            } => numbers_reply(self.destinations(s_id, sf_type, start_time, end_time)),
            Event::AccessData { s_id, ai_type } => access_reply(self.lend_access(s_id, ai_type)),
            Event::Post { part, limit } => self.post(part, limit),
            Event::Give { part, side, at } => self.give(part, side, at),
            Event::Take { piece, part } => self.take(piece, part),
            Event::Divide { part, at } => self.divide(part, at),
            Event::Dissolve { part } => self.dissolve(part),
            Event::UpdateSubscriber { .. }
            | Event::UpdateLocation { .. }
            | Event::InsertForwarding { .. }
            | Event::DeleteForwarding { .. }
            | Event::AddSubscriber(_)
            | Event::AddAccess(_)
            | Event::AddFacility(_)
            | Event::SetActive { .. }
            | Event::SetNumber { .. } => edited_reply(self.change(event)),
        }
    }

    /// Does the change of rows that an event asks for.
    fn change(&mut self, event: Event) -> Result<(), Refusal>
        requires rows { ChangesRows event }
        requires home { IsHomeTo event self.old }
        ensures { IsRegisterStep event self.old (edited_reply result) self.new }
    {
        match event {
            Event::UpdateSubscriber {
                s_id,
                sf_type,
                bit_1,
                data_a,
            } => self.update_subscriber(s_id, sf_type, bit_1, data_a),
            Event::UpdateLocation {
                sub_nbr,
                vlr_location,
            } => self.update_location(sub_nbr, vlr_location),
            Event::InsertForwarding {
                sub_nbr,
                sf_type,
                start_time,
                end_time,
                numberx,
            } => self.insert_forwarding(sub_nbr, sf_type, start_time, end_time, numberx),
            Event::DeleteForwarding {
                sub_nbr,
                sf_type,
                start_time,
            } => self.delete_forwarding(sub_nbr, sf_type, start_time),
            Event::AddSubscriber(row) => self.add_subscriber(row),
            Event::AddAccess(row) => self.add_access(row),
            Event::AddFacility(row) => self.add_facility(row),
            Event::SetActive {
                s_id,
                sf_type,
                is_active,
            } => self.set_active(s_id, sf_type, is_active),
            Event::SetNumber { s_id, sub_nbr } => self.set_number(s_id, sub_nbr),
            // No other event changes rows.
            _ => unreachable!(),
        }
    }

    /// Carries orders out one after another, each an event or a recut, and returns their answers in order. It returns
    /// `Memory` if there is no memory for the list of answers, and then no order was carried out.
    ///
    /// Gives, takes and recuts, and parts that come and go, change no reply except to `Moving`. Take the list without
    /// these, without postings, and without the orders that were answered with `Moving` or `Memory`: if no piece is
    /// loose at the beginning, it has the same answers and leaves the same rows.
    pub fn apply_all(&mut self, orders: &[Order]) -> Result<Vec<Answer>, Refusal>
        requires { AllHome self.old.owners }
        ensures ok { IfOk result (λ answers. IsRun orders.now (store_in self.old) answers.items (store_in self.new)) }
        ensures kept { IfOk result (λ answers. IsSameAtHome orders.now (book_in self.old.owners) answers.items (book_in self.new.owners)) }
        ensures err { OnErr result ((result ≡ Err Refusal.Memory) × (self.new ≡ self.old)) }
        ensures home { AllHome self.new.owners }
        ensures spare { IsLaterDesk self.old.spare self.new.spare }
    {
        // The borrow checker of the kit can push a reply only in a body that names each type inside it.
        let _inside: Option<RowReply> = None;
        let mut answers = reserve(self.alloc, orders.len())?;
        for order in orders {
            let answer = self.carry_out(order);
            answers.push_reserved(answer);
        }
        Ok(answers)
    }

    /// Carries one order out.
    fn carry_out(&mut self, order: &Order) -> Answer
        requires { AllHome self.old.owners }
        ensures step { IsOrderStep order.now (store_in self.old) result (store_in self.new) }
        ensures home { AllHome self.new.owners }
        ensures spare { IsLaterDesk self.old.spare self.new.spare }
    {
        match order {
            Order::Event(event) => Answer::Reply(self.apply(*event)),
            Order::Recut(bounds) => Answer::Recut(self.recut_to(bounds.as_slice())),
        }
    }

    /// Returns the cells as published: for each, the sum of its plus-words less the sum of its minus-words.
    pub fn published(&self) -> [i64; CELLS as usize]
        requires { AllHome self.now.owners }
        ensures { (c : ℕ) → c < CELLS → slice_index_or result c (pos 0) ≡ published (store_in self.now) c }
    {
        self.owners.published()
    }

    /// Looks at the board, and returns a sight of its words. The words of slots that no part has are exact. Each other
    /// word is at least what was seen of it before, or what it was at opening, and none passes `LIMIT`. It takes no
    /// memory.
    pub fn look(&mut self) -> Sight
        ensures right { IsSightOf (store_in self.old) result.words }
        ensures seen { store_in self.new ≡ record (store_in self.old) { sight = result.words } }
        ensures same { self.new ≡ record self.old { spare = with_view self.old.spare (looked self.old.spare.view result.words) } }
    {
        self.owners.look()
    }

    /// Looks as `look` does, into a sight of the caller's, so that its 18 KB needn't be moved.
    pub fn look_into(&mut self, sight: &mut Sight)
        ensures right { IsSightOf (store_in self.old) sight.new.words }
        ensures seen { store_in self.new ≡ record (store_in self.old) { sight = sight.new.words } }
        ensures same { self.new ≡ record self.old { spare = with_view self.old.spare (looked self.old.spare.view sight.new.words) } }
    {
        self.owners.look_into(sight);
    }

    /// Returns what is unposted of each cell, which is the sum of what the owners keep as pending. Added to what is
    /// published, it is the count over the rows now.
    pub fn unposted(&self) -> [i64; CELLS as usize]
        requires { AllHome self.now.owners }
        ensures pending { (c : ℕ) → c < CELLS → slice_index_or result c (pos 0) ≡ unposted self.now.owners c }
        ensures difference { (c : ℕ) → c < CELLS → slice_index_or result c (pos 0) ≡ unpublished (store_in self.now) c }
        ensures counted { (c : ℕ) → c < CELLS
            → published (store_in self.now) c +ℤ slice_index_or result c (pos 0) ≡ pos (cell self.now.width c (book_in self.now.owners)) }
    {
        self.owners.unposted()
    }

    /// Counts each cell over the rows, by a walk over all of them.
    pub fn recount(&self) -> Cells
        requires { AllHome self.now.owners }
        ensures { (c : ℕ) → c < CELLS → slice_index result c ≡ cell self.now.width c (book_in self.now.owners) }
    {
        self.owners.recount()
    }

    /// Returns whether all parts are home, which the counts, the proposal and `scatter` need.
    pub fn all_at_home(&self) -> bool
        ensures { IsTrue result ↔ AllHome self.now.owners }
    {
        self.owners.all_at_home()
    }

    /// Returns the regions of all subscribers, each of a part or of a loose piece.
    pub fn regions(&self) -> &Regions
        ensures value { result.now ≡ self.now.regions }
        ensures regions { AreRegions result.now }
    {
        self.owners.regions()
    }

    /// Proposes bounds between zones by which each part would have about its share of the rows. It goes by what is
    /// published of the zones, which is the count of their rows if nothing is unposted. It takes no memory.
    pub fn propose(&self) -> Bounds
        requires { AllHome self.now.owners }
        ensures value { result ≡ proposal (published_weights (store_in self.now)) (parts_in (store_in self.now)) self.now.width }
        ensures counted { ((c : ℕ) → c < CELLS → unposted self.now.owners c ≡ pos 0)
            → result ≡ proposal (counted_weights (store_in self.now)) (parts_in (store_in self.now)) self.now.width }
    {
        self.owners.rules();
        let parts = self.owners.parts();
        let weights = zone_weights(&self.published());
        Regions::propose(&weights, parts, self.owners.width())
    }

    /// Moves the bounds between the parts to these, with a give and a take for each bound that moves, and returns how
    /// many it moved. Its refusals, in order, are `Field` if the bounds don't rise strictly in 2..=16,777,216 or aren't
    /// one less than there are parts, `Moving` if a piece is loose, and `Memory`. After `Memory`, the moves that were
    /// done stay done, and if a take was refused its piece is loose. No row, no word and no pair of the index changes,
    /// regardless of what jobs have done to the lent holdings.
    pub fn recut_to(&mut self, bounds: &[u64]) -> Result<u8, Refusal>
        requires { IsHomeToCut bounds.now self.old }
        ensures { IsRegisterRecut bounds.now self.old result self.new }
    {
        self.owners.recut_to(bounds)
    }

    /// Returns the index of numbers, which has the number and the s_id of each Subscriber row.
    pub fn index(&self) -> &NumberIndex
        ensures { result.now ≡ index_of (book_in self.now.owners).subscribers }
    {
        &self.index
    }

    /// Posts at most `limit` cells of a part, as `Event::Post` does, and returns how many it posted. Its refusals, in
    /// order, are `NoPart` and `Worn`, after which the cells that were posted before stay posted.
    pub fn post(&mut self, part: u64, limit: u64) -> Reply
        requires { IsPartHome part self.old }
        ensures { IsRegisterStep (Event.Post part limit) self.old result self.new }
    {
        Reply::of_posting(self.owners.post(part, limit))
    }

    #[inline(never)]
    fn give(&mut self, part: u64, side: Side, at: u64) -> Reply
        requires { IsPartHome part self.old }
        ensures { IsRegisterStep (Event.Give part side at) self.old result self.new }
    {
        match self.owners.give(part, side, at) {
            Ok((piece, lo, hi)) => Reply::Given { piece, lo, hi },
            Err(why) => Reply::Refused(why),
        }
    }

    #[inline(never)]
    fn take(&mut self, piece: u64, part: u64) -> Reply
        requires { IsPartHome part self.old }
        ensures { IsRegisterStep (Event.Take piece part) self.old result self.new }
    {
        self.owners.rules();
        match self.owners.take(piece, part) {
            Ok(_) => Reply::Taken {
                piece: piece as u8,
                part: part as u8,
            },
            Err(why) => Reply::Refused(why),
        }
    }

    #[inline(never)]
    fn divide(&mut self, part: u64, at: u64) -> Reply
        requires { IsHomeFrom part self.old }
        ensures { IsRegisterStep (Event.Divide part at) self.old result self.new }
    {
        match self.owners.divide(part, at) {
            Ok((part, lo, hi)) => Reply::Divided { part, lo, hi },
            Err(why) => Reply::Refused(why),
        }
    }

    #[inline(never)]
    fn dissolve(&mut self, part: u64) -> Reply
        requires { IsHomeFrom (part - 1) self.old }
        ensures { IsRegisterStep (Event.Dissolve part) self.old result self.new }
    {
        match self.owners.dissolve(part) {
            Ok((part, lo, hi)) => Reply::Dissolved { part, lo, hi },
            Err(why) => Reply::Refused(why),
        }
    }
}

/// Makes everything that a register needs in addition to what is handed in, or returns why that is refused. Nothing is
/// moved yet.
fn prepare(alloc: Global, scattered: &Scattered) -> Result<(Prepared, NumberIndex), Refusal>
    ensures surveyed { IfOk result (λ both. IsSurveyed scattered.now both.0) }
    ensures indexed { IfOk result (λ both. IsIndexed scattered.now both.1) }
    ensures err { IfErr result (IsRefusedWhole scattered.now) }
{
    let prepared = scattered.prepare(alloc)?;
    let index = index_of(alloc, scattered)?;
    Ok((prepared, index))
}

/// Makes an empty list with room for so many answers, or returns `Memory`.
fn reserve(alloc: Global, count: usize) -> Result<Vec<Answer>, Refusal>
    ensures ok { IfOk result (λ answers. (answers.items ≡ []) × (vec_len answers ≡ 0) × (vec_capacity answers ≡ count)) }
    ensures err { OnErr result (result ≡ Err Refusal.Memory) }
{
    Ok(Vec::with_capacity(alloc, count)?)
}
