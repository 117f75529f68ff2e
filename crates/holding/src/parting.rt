//! The holdings that are divided in two, and those that are dissolved into the one in front.
ghost use Rattle.std.specs.Prelude.{◌≡◌, ◌⊎◌, ℕ, ◌<◌, ◌≤◌, ◌^◌, Err, IfOk, IfErr, OnOk, OnErr, ℤ, pos, neg_ℤ, ◌+ℤ◌, ◌≤ℤ◌};
ghost use Rattle.tatp_actions.specs.declared.cells.TheConstants.{CELLS};
ghost use Rattle.view_board.specs.Desks.{with_view};
ghost use Rattle.view_board.specs.Nets.{net_of};
ghost use Rattle.view_board.specs.Views.{IsWide, OwnsAlone, taken_back};
ghost use Rattle.view_delta.specs.Pending.{delta_at};
ghost use Rattle.holding.specs.Held.{IsHolding, IsPiece};
ghost use Rattle.part_table.specs.declared.region.Side.TheVariants.{High};
ghost use Rattle.holding.specs.Inside.{IsPendingWith, TakesPart};
ghost use Rattle.holding.specs.Moved.{IsBlankDesk, IsGiven, IsInside, IsMerged, IsHoldingDivided, as_piece};

use crate::holding::{Holding, least_slot};
use crate::moving::is_inside;
use crate::piece::Piece;
use part_table::Side;
use std::alloc::Global;
use tatp_actions::CELLS;
use tatp_rows::{Back, Refusal};
use view_board::{Board, Desk};
use view_delta::Pending;

/// Returns a delta to which a count was added, of which one share is published and the other pending.
fn raised(delta: i64, net: i128, pending: i64) -> i64
    requires delta { (neg_ℤ (pos (2 ^ 60)) ≤ℤ delta) × (delta ≤ℤ pos (2 ^ 60)) }
    requires net { (neg_ℤ (pos (2 ^ 60)) ≤ℤ net) × (net ≤ℤ pos (2 ^ 60)) }
    requires pending { (neg_ℤ (pos (2 ^ 60)) ≤ℤ pending) × (pending ≤ℤ pos (2 ^ 60)) }
    ensures { result ≡ delta +ℤ (net +ℤ pending) }
{
    (i128::from(delta) + net + i128::from(pending)) as i64
}

/// Takes back everything that a desk with one slot has published, so that its net is 0 for each cell.
#[tactic(auto, using(view_board::proofs::BackLemmas::none_back))]
fn withdraw(board: &Board, desk: &mut Desk, slot: u8)
    requires board { desk.old.board ≡ board.now }
    requires wide { IsWide desk.old.view }
    requires alone { OwnsAlone desk.old.view slot }
    ensures back { desk.new ≡ with_view desk.old (taken_back desk.old.view slot) }
    ensures idle { (c : ℕ) → c < CELLS → net_of desk.new.view c ≡ pos 0 }
{
    board.take_back(desk, slot);
}

/// Returns the desk of a holding in a box, and drops the rows.
#[inline(never)]
fn let_go(holding: Box<Holding>) -> Desk
    ensures { result ≡ holding.value.desk }
{
    Box::into_inner(holding).into_desk()
}

impl Holding {
    /// Divides the part at a subscriber: the part keeps all below, and a new holding with this desk gets the subscriber
    /// and all above. The new part's rows are counted once, and nothing of them is published yet. The desk must own one
    /// slot, and have published a net of 0 of each cell.
    ///
    /// Its refusals, in order, are `OutOfRange` if the subscriber is not strictly inside the range, and `Memory` if the
    /// system refuses memory. After a refusal, nothing has changed, and the desk is handed back as it came.
    pub fn divide(&mut self, at: u32, desk: Desk) -> Result<Box<Holding>, Back<Desk>>
        requires { IsBlankDesk desk.view }
        ensures divided { IfOk result (λ new. IsHoldingDivided at self.old desk new.value self.new) }
        ensures new { IfOk result (λ new. IsHolding new.value) }
        ensures refused { IfErr result (λ back. (back.item ≡ desk) × (self.new ≡ self.old)) }
        ensures why { IfErr result (λ back. ((back.why ≡ Refusal.OutOfRange) × (IsInside at self.old.part → ⊥)) ⊎ ((back.why ≡ Refusal.Memory) × IsInside at self.old.part)) }
        ensures before { IsHolding self.old }
        ensures after { IsHolding self.new }
    {
        if !is_inside(&self.part, at) {
            return Err(Back {
                why: Refusal::OutOfRange,
                item: desk,
            });
        }
        // All memory is taken before anything changes: the new holding's box, and what the cut needs.
        let mut new = match Holding::boxed(self.alloc, desk) {
            Ok(new) => new,
            Err(desk) => {
                return Err(Back {
                    why: Refusal::Memory,
                    item: desk,
                });
            }
        };
        match self.fill(at, &mut new) {
            Ok(()) => Ok(new),
            Err(why) => Err(Back {
                why,
                item: let_go(new),
            }),
        }
    }

    /// Takes the rows of the holding behind this one, which has the same zone width and is dissolved. For each cell
    /// that its desk has published, the lower word is raised to the higher one, in one step. The desk is handed out,
    /// with a net of 0 for each cell, so its one slot is free then. No row is counted.
    ///
    /// Its refusals, in order, are `NotAdjacent` if the other range doesn't begin where this one ends, and `Memory` if
    /// the system refuses memory. After a refusal, nothing has changed, and the holding is handed back as it came.
    pub fn dissolve(
        &mut self,
        board: &Board,
        mut other: Box<Holding>,
    ) -> Result<Desk, Back<Box<Holding>>>
        requires width { self.old.part.width ≡ other.value.part.width }
        requires board { other.value.desk.board ≡ board.now }
        requires alone { (slot : ℕ) × OwnsAlone other.value.desk.view slot }
        ensures merged { IfOk result (λ desk. IsMerged self.old other.value desk self.new) }
        ensures refused { IfErr result (λ back. (back.item ≡ other) × (self.new ≡ self.old)) }
        ensures why { IfErr result (λ back. ((back.why ≡ Refusal.NotAdjacent) × (self.old.part.hi ≡ other.value.part.lo → ⊥)) ⊎ ((back.why ≡ Refusal.Memory) × (self.old.part.hi ≡ other.value.part.lo))) }
        ensures other { IsHolding other.value }
        ensures before { IsHolding self.old }
        ensures after { IsHolding self.new }
    {
        self.rules();
        other.rules();
        if self.hi() != other.lo() {
            return Err(Back {
                why: Refusal::NotAdjacent,
                item: other,
            });
        }
        if let Err(why) = self.absorb(board, &mut other) {
            return Err(Back { why, item: other });
        }
        Ok(let_go(other))
    }

    /// Makes a holding without rows, of which nothing is published and nothing pending.
    #[inline(never)]
    fn blank(alloc: Global, desk: Desk) -> Self
        requires { IsBlankDesk desk.view }
        ensures desk { result.desk ≡ desk }
        ensures none { (c : ℕ) → c < CELLS → delta_at result.pending c ≡ pos 0 }
        ensures rules { IsHolding result }
    {
        // Opens the desk for the prover: its slot is one of the board's.
        let _slot = least_slot(&desk);
        let Piece { part, pending: _ } = Piece::blank(alloc);
        Holding::of(alloc, part, desk)
    }

    /// Makes a holding without rows in a box, of which nothing is published and nothing pending. It hands the desk back
    /// if the system refuses memory.
    #[inline(never)]
    fn boxed(alloc: Global, desk: Desk) -> Result<Box<Self>, Desk>
        requires { IsBlankDesk desk.view }
        ensures desk { IfOk result (λ new. new.value.desk ≡ desk) }
        ensures none { IfOk result (λ new. (c : ℕ) → c < CELLS → delta_at new.value.pending c ≡ pos 0) }
        ensures rules { IfOk result (λ new. IsHolding new.value) }
        ensures refused { IfErr result (λ back. back ≡ desk) }
    {
        match Box::new(alloc, Holding::blank(alloc, desk)) {
            Ok(new) => Ok(new),
            Err(refused) => Err(refused.value.into_desk()),
        }
    }

    /// Cuts everything from a subscriber strictly inside the range on off into a new holding, of which nothing is
    /// published and nothing pending. It returns `Memory` if the system refuses memory, and then nothing has changed.
    fn fill(&mut self, at: u32, new: &mut Holding) -> Result<(), Refusal>
        requires inside { IsInside at self.old.part }
        requires idle { (c : ℕ) → c < CELLS → net_of new.old.desk.view c ≡ pos 0 }
        requires none { (c : ℕ) → c < CELLS → delta_at new.old.pending c ≡ pos 0 }
        ensures given { OnOk result (IsGiven High at self.old (as_piece new.new) self.new) }
        ensures counts { OnOk result (IsPiece (as_piece new.new)) }
        ensures desk { new.new.desk ≡ new.old.desk }
        ensures refused { OnErr result ((result ≡ Err Refusal.Memory) × (self.new ≡ self.old)) }
        ensures before { IsHolding self.old }
        ensures after { IsHolding self.new }
        ensures new { IsHolding new.new }
    {
        let counts = self.cut_into(Side::High, at, &mut new.part)?;
        new.pending.add(&counts);
        Ok(())
    }

    /// Returns the desk, and drops the rows.
    fn into_desk(self) -> Desk
        ensures { result ≡ self.desk }
    {
        let Holding { part, desk, .. } = self;
        drop(part);
        desk
    }

    /// Takes the rows of the holding behind this one, and leaves it without rows. The other desk takes back everything
    /// that it has published. It returns `Memory` if the system refuses memory, and then nothing has changed.
    fn absorb(&mut self, board: &Board, other: &mut Holding) -> Result<(), Refusal>
        requires width { self.old.part.width ≡ other.old.part.width }
        requires board { other.old.desk.board ≡ board.now }
        requires alone { (slot : ℕ) × OwnsAlone other.old.desk.view slot }
        requires meets { self.old.part.hi ≡ other.old.part.lo }
        ensures taken { OnOk result (TakesPart self.old other.old.part self.new) }
        ensures back { OnOk result (other.new.desk ≡ with_view other.old.desk (taken_back other.old.desk.view other.old.slot)) }
        ensures idle { OnOk result ((c : ℕ) → c < CELLS → net_of other.new.desk.view c ≡ pos 0) }
        ensures refused { OnErr result ((result ≡ Err Refusal.Memory) × (self.new ≡ self.old) × (other.new ≡ other.old)) }
        ensures other { IsHolding other.old }
        ensures before { IsHolding self.old }
        ensures after { IsHolding self.new }
    {
        let pending = self.pending_with(other);
        self.take_in(&mut other.part, pending)?;
        withdraw(board, &mut other.desk, other.slot);
        other.pending = Pending::zero();
        Ok(())
    }

    /// Returns what is pending here once the counts of another holding are added, which are what that one has published
    /// and what it has pending.
    fn pending_with(&self, other: &Holding) -> Pending
        ensures { IsPendingWith other.now.part self.now.pending result }
    {
        self.rules();
        other.rules();
        let nets = other.nets();
        let mut deltas = [0; CELLS as usize];
        for cell in 0..CELLS {
            deltas[usize::from(cell)] = raised(
                self.pending(cell),
                nets[usize::from(cell)],
                other.pending(cell),
            );
        }
        Pending::of(deltas)
    }
}
