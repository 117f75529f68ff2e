//! The holding: a part with its pending deltas and its desk.
ghost use Rattle.std.specs.Prelude.{◌≡◌, ℕ, ◌<◌, ◌≤◌, ◌+◌, ◌^◌, ◌↔◌, option_copied, IfOk, IsTrue, slice_index, slice_index_or, ℤ, pos, neg_ℤ, ◌+ℤ◌, ◌-ℤ◌, ◌≤ℤ◌};
ghost use Rattle.tatp_actions.specs.Action.{s_id_of, done_reply, IsOutcome};
ghost use Rattle.tatp_actions.specs.Book.{IsWithin, first_subscriber};
ghost use Rattle.tatp_actions.specs.declared.cells.TheConstants.{CELLS};
ghost use Rattle.view_board.specs.Nets.{net_of};
ghost use Rattle.view_board.specs.Views.{Owns, OwnsAlone, IsLeastSlot, IsWide};
ghost use Rattle.view_board.specs.declared.words.TheConstants.{SLOTS};
ghost use Rattle.view_delta.specs.Pending.{delta_at};
ghost use Rattle.holding.specs.Held.{IsHolding, HasSmallNets, count_of};
ghost use Rattle.holding.specs.Inside.{IsCellPosted};
ghost use Rattle.holding.specs.Post.{post};

use std::alloc::Global;
use std::marker::Model;
use tatp_actions::{Action, CELLS, Cells, Edit, Part, RowReply, Rows, Trees};
use tatp_rows::{Refusal, Subscriber};
use view_board::{Board, Desk};
use view_delta::Pending;

/// A part with what is pending of each cell, and its desk. What the desk has published of a cell and what is pending of
/// it add up to the count over the part's rows.
///
/// The desk comes out when the holding is dissolved, and in no other way. So a holding that is dropped takes its slot
/// with it. Because a register is made of desks that together have each slot once, no register can be made of the other
/// holdings then.
#[derive(Drop)]
pub struct Holding<R: Rows = Trees> {
    pub(crate) part: Part<R>,
    pub(crate) pending: Pending,
    pub(crate) desk: Desk,
    // The least slot of the desk, whose words a posting raises.
    pub(crate) slot: u8,
    // The allocator, for the calls that give, take, divide and dissolve.
    pub(crate) alloc: Global,
}

impl<R: Rows> Model for Holding<R> {
    ghost use Rattle.holding.specs.Held.{HoldingState, IsHolding};

    ghost Value = { HoldingState };

    ghost view = { λ h. record { part = h.part; pending = h.pending; desk = h.desk; slot = h.slot } };

    ghost invariant = { λ h. IsHolding (record { part = h.part; pending = h.pending; desk = h.desk; slot = h.slot }) };
}

/// Returns the least slot of a desk that owns one.
pub(crate) fn least_slot(desk: &Desk) -> u8
    requires { (slot : ℕ) × Owns desk.now.view slot }
    ensures below { result < SLOTS }
    ensures least { IsLeastSlot desk.now.view result }
{
    match desk.least_slot() {
        Some(slot) => slot,
        None => unreachable!(),
    }
}

/// Returns a count less what is published of it.
fn difference(count: u64, net: i128) -> i64
    requires few { count ≤ 2 ^ 40 }
    requires low { neg_ℤ (pos (2 ^ 40)) ≤ℤ net }
    requires high { net ≤ℤ pos (2 ^ 40) }
    ensures { result ≡ pos count -ℤ net }
{
    (i128::from(count) - net) as i64
}

/// Returns what is pending, given counts and a desk: the difference between the counts and what the desk has published.
fn pending_of(counts: &Cells, desk: &Desk) -> [i64; CELLS as usize]
    requires few { (c : ℕ) → c < CELLS → slice_index counts.now c ≤ 2 ^ 40 }
    requires small { HasSmallNets desk.now.view }
    ensures deltas { (c : ℕ) → c < CELLS → slice_index_or result c (pos 0) ≡ pos (slice_index counts.now c) -ℤ net_of desk.now.view c }
    ensures wide { IsWide desk.now.view }
{
    let nets = desk.nets();
    let mut deltas = [0; CELLS as usize];
    for cell in 0..CELLS {
        deltas[usize::from(cell)] = difference(counts.get(cell), nets[usize::from(cell)]);
    }
    deltas
}

impl<R: Rows> Holding<R> {
    /// Does an action on the rows of a subscriber in the range, and adds its change to what is pending.
    ///
    /// It returns `Field` if a field is out of its range, and otherwise the refusals of the rows, where `Memory` comes
    /// only in place of `Done`, and only if a row is added. A number that another subscriber has is no refusal here,
    /// because only the register knows all numbers, and refuses it. After a refusal the rows and what is pending are as
    /// before.
    pub fn act(&mut self, action: Action) -> RowReply
        requires { IsWithin self.old.part.lo self.old.part.hi (s_id_of action) }
        ensures outcome { IsOutcome action self.old.part.book result self.new.part.book }
        ensures range { (self.new.part.lo ≡ self.old.part.lo) × (self.new.part.hi ≡ self.old.part.hi) × (self.new.part.width ≡ self.old.part.width) }
        ensures asked { self.new.part.asked ≤ self.old.part.asked + 8 }
        ensures steps { self.new.part.steps ≡ self.old.part.steps }
        ensures desk { (self.new.desk ≡ self.old.desk) × (self.new.slot ≡ self.old.slot) }
        ensures before { IsHolding self.old }
        ensures after { IsHolding self.new }
    {
        let (reply, change) = self.part.act(action);
        self.pending.note(&change);
        reply
    }

    /// Does an edit, as `act` does the action that it is. Its refusals, in order, are `Field` and those of the rows,
    /// where `Memory` comes only if a row is added. After a refusal the rows and what is pending are as before.
    pub fn edit<E: Edit>(&mut self, edit: E) -> Result<(), Refusal>
        requires { IsWithin self.old.part.lo self.old.part.hi (s_id_of (E.action edit)) }
        ensures outcome { IsOutcome (E.action edit) self.old.part.book (done_reply result) self.new.part.book }
        ensures range { (self.new.part.lo ≡ self.old.part.lo) × (self.new.part.hi ≡ self.old.part.hi) × (self.new.part.width ≡ self.old.part.width) }
        ensures asked { self.new.part.asked ≤ self.old.part.asked + 8 }
        ensures steps { self.new.part.steps ≡ self.old.part.steps }
        ensures desk { (self.new.desk ≡ self.old.desk) × (self.new.slot ≡ self.old.slot) }
        ensures before { IsHolding self.old }
        ensures after { IsHolding self.new }
    {
        let moved = edit.make(&mut self.part)?;
        self.pending.note(&moved);
        Ok(())
    }

    /// Posts what is pending of a cell. It returns `Worn` if the word would pass its limit, and then nothing has
    /// changed.
    fn post_cell(&mut self, board: &Board, cell: u8) -> Result<(), Refusal>
        requires board { self.old.desk.board ≡ board.now }
        requires cell { cell < CELLS }
        ensures posted { IsCellPosted cell self.old result self.new }
        ensures after { IsHolding self.new }
    {
        board.add(&mut self.desk, self.slot, cell, self.pending.get(cell))?;
        self.pending.clear(cell);
        Ok(())
    }

    /// Posts what is pending to the words of the desk's least slot, in the ascending order of the cells, each one whole
    /// and in one step, until `limit` cells are posted or none is left. It returns how many it posted, at most `CELLS`,
    /// which is also the number of steps in which the desk raised words. `Worn` stops it at a cell whose word would
    /// pass its limit. The cells before that one stay posted, and that cell stays pending.
    pub fn post(&mut self, board: &Board, limit: u64) -> Result<u8, Refusal>
        requires { self.old.desk.board ≡ board.now }
        ensures posted { (result, self.new.desk.view) ≡ post (count_of self.old.part) self.old.slot limit self.old.desk.view }
        ensures steps { IfOk result (λ done. self.new.desk.view.raises ≡ self.old.desk.view.raises + done) }
        ensures part { self.new.part ≡ self.old.part }
        ensures desk { (self.new.desk.board ≡ self.old.desk.board) × (self.new.desk.view.owned ≡ self.old.desk.view.owned) × (self.new.slot ≡ self.old.slot) }
        ensures before { IsHolding self.old }
        ensures after { IsHolding self.new }
    {
        // Opens the holding for the prover: its rules are known as the posting begins.
        let _ = &self.part;
        let mut posted = 0u8;
        let mut from = 0u8;
        while let Some(cell) = self.pending.next_nonzero(from) {
            if u64::from(posted) == limit {
                return Ok(posted);
            }
            self.post_cell(board, cell)?;
            posted += 1;
            from = cell + 1;
        }
        Ok(posted)
    }
}

impl Holding {
    /// Makes a holding of a part and a desk, which owns one slot and has published at most 2^40 of each cell, up or
    /// down. The rows are counted once, and what the desk has not published of them is pending. The holding keeps the
    /// allocator.
    pub fn of(alloc: Global, part: Part, desk: Desk) -> Self
        requires slot { (slot : ℕ) × (slot < SLOTS) × Owns desk.view slot }
        requires small { HasSmallNets desk.view }
        ensures part { result.part ≡ part }
        ensures desk { result.desk ≡ desk }
        ensures rules { IsHolding result }
    {
        // For the prover: the part keeps its rules.
        let _width = part.width();
        let counts = part.recount();
        let pending = Pending::of(pending_of(&counts, &desk));
        let slot = least_slot(&desk);
        Holding {
            part,
            pending,
            desk,
            slot,
            alloc,
        }
    }

    /// Tells the prover that the holding keeps its rules. The call does nothing.
    #[inline(always)]
    pub fn rules(&self)
        ensures { IsHolding self.now }
    {
        let _ = &self.part;
    }

    /// Returns the first subscriber of the range, 1..=16,777,216.
    pub fn lo(&self) -> u32
        ensures { result ≡ self.now.part.lo }
    {
        self.part.lo()
    }

    /// Returns the end of the range: one past its last subscriber, at most 16,777,217.
    pub fn hi(&self) -> u32
        ensures { result ≡ self.now.part.hi }
    {
        self.part.hi()
    }

    /// Returns the zone width, 1..=524,288.
    pub fn width(&self) -> u32
        ensures { result ≡ self.now.part.width }
    {
        self.part.width()
    }

    /// Returns what is pending of a cell below `CELLS`.
    pub fn pending(&self, cell: u8) -> i64
        requires { cell < CELLS }
        ensures { result ≡ delta_at self.now.pending cell }
    {
        self.pending.get(cell)
    }

    /// Returns whether the desk has this slot. No desk has the number behind the last slot.
    pub fn owns(&self, slot: u8) -> bool
        ensures { IsTrue result ↔ Owns self.now.desk.view slot }
    {
        self.desk.owns(slot)
    }

    /// Returns what the desk has published of a cell below `CELLS`.
    #[inline(always)]
    pub fn net(&self, cell: u8) -> i128
        requires { cell < CELLS }
        ensures { result ≡ net_of self.now.desk.view cell }
    {
        self.desk.net(cell)
    }

    /// Returns what the desk has published of each cell.
    pub fn nets(&self) -> [i128; CELLS as usize]
        ensures { (c : ℕ) → c < CELLS → slice_index_or result c (pos 0) ≡ net_of self.now.desk.view c }
    {
        self.desk.nets()
    }

    /// Adds what the desk, which owns one slot, has published of each cell to a sum. No sum passes 2^60, up or down.
    #[inline(always)]
    pub fn add_nets(&self, sums: &mut [i64; CELLS as usize])
        requires alone { (slot : ℕ) × OwnsAlone self.now.desk.view slot }
        requires sums { (c : ℕ) → c < CELLS → (neg_ℤ (pos (2 ^ 60)) ≤ℤ slice_index_or sums.old c (pos 0)) × (slice_index_or sums.old c (pos 0) ≤ℤ pos (2 ^ 60)) }
        ensures { (c : ℕ) → c < CELLS → slice_index_or sums.new c (pos 0) ≡ slice_index_or sums.old c (pos 0) +ℤ net_of self.now.desk.view c }
    {
        self.desk.add_slot_nets(self.slot, sums);
    }

    /// Counts each cell by a walk over all rows.
    pub fn recount(&self) -> Cells
        ensures { (c : ℕ) → c < CELLS → slice_index result c ≡ count_of self.now.part c }
    {
        self.part.recount()
    }

    /// Finds the first Subscriber row of the part whose s_id is this one or higher.
    pub fn first_sub_from(&self, s_id: u64) -> Option<&Subscriber>
        ensures { option_copied result ≡ first_subscriber s_id self.now.part.book.subscribers }
    {
        self.part.first_sub_from(s_id)
    }
}
