//! The counts over all owners: what is published, what is unposted, and what the rows give.
ghost use Rattle.std.specs.Prelude.{◌≡◌, ℕ, ◌<◌, ◌+ℤ◌, true, pos, slice_index, slice_index_or};
ghost use Rattle.tatp_actions.specs.Cell.{cell};
ghost use Rattle.tatp_actions.specs.declared.cells.TheConstants.{CELLS};
ghost use Rattle.view_board.specs.Nets.{net_of};
ghost use Rattle.view_delta.specs.Pending.{delta_at};
ghost use Rattle.holding.specs.Held.{count_of};
ghost use Rattle.std.specs.List.{AllByRecursion};
ghost use Rattle.hlr_owners.specs.Desks.{HasOneSlot};
ghost use Rattle.hlr_owners.specs.Inside.{AreSummable, desk_at};
ghost use Rattle.hlr_owners.specs.Store.{published, unpublished};
ghost use Rattle.hlr_owners.specs.Owners.{AllHome, is_home, state_of, book_in, store_in, unposted};

use crate::owners::Owners;
use crate::part_owner::RegionOwner;
use crate::range_owner::RangeOwner;
use tatp_actions::{CELLS, Cells};

impl RegionOwner {
    /// Returns the count of each cell, made by a walk over the rows.
    fn recount(&self) -> Cells
        requires { is_home self.now ≡ true }
        ensures { (c : ℕ) → c < CELLS → slice_index result c ≡ count_of (state_of self.now).part c }
    {
        match self {
            RegionOwner::Part(part_owner) => part_owner.holding().recount(),
            RegionOwner::Piece(piece) => piece.recount(),
        }
    }
}

/// Adds what an owner has published of each cell to a sum. A loose piece has published nothing.
fn add_published(sums: &mut [i64; CELLS as usize], owner: &RegionOwner)
    requires home { is_home owner.now ≡ true }
    requires alone { AllByRecursion HasOneSlot (desk_at owner.now) }
    requires sums { AreSummable (delta_at sums.old) }
    ensures { (c : ℕ) → c < CELLS → delta_at sums.new c ≡ delta_at sums.old c +ℤ net_of (state_of owner.now).view c }
{
    match owner {
        RegionOwner::Part(part_owner) => part_owner.holding().add_nets(sums),
        RegionOwner::Piece(_) => {}
    }
}

/// Adds what an owner has pending of each cell to a sum. Neither the sum nor what is pending passes 2^60, up or down.
fn add_deltas<O: RangeOwner>(sums: &mut [i64; CELLS as usize], state: &O)
    requires sums { AreSummable (delta_at sums.old) }
    requires pending { AreSummable (delta_at (O.deltas_of state.now)) }
    ensures { (c : ℕ) → c < CELLS → delta_at sums.new c ≡ delta_at sums.old c +ℤ delta_at (O.deltas_of state.now) c }
{
    for cell in 0..CELLS {
        sums[usize::from(cell)] += state.delta(cell);
    }
}

/// Adds what the owner of a region has pending of each cell to a sum, in the same way.
fn add_pending(sums: &mut [i64; CELLS as usize], owner: &RegionOwner)
    requires home { is_home owner.now ≡ true }
    requires sums { AreSummable (delta_at sums.old) }
    requires pending { AreSummable (delta_at (state_of owner.now).pending) }
    ensures { (c : ℕ) → c < CELLS → delta_at sums.new c ≡ delta_at sums.old c +ℤ delta_at (state_of owner.now).pending c }
{
    match owner {
        RegionOwner::Part(part_owner) => add_deltas(sums, part_owner.holding()),
        RegionOwner::Piece(piece) => add_deltas(sums, &**piece),
    }
}

impl Owners {
    /// Returns what is published of each cell, which is the sum of what the desks of the parts have published. The desk
    /// of the other slots has a net of 0.
    pub fn published(&self) -> [i64; CELLS as usize]
        requires { AllHome self.now.owners }
        ensures { (c : ℕ) → c < CELLS → slice_index_or result c (pos 0) ≡ published (store_in self.now) c }
    {
        let mut sums = [0; CELLS as usize];
        for owner in &self.owners {
            add_published(&mut sums, owner);
        }
        sums
    }

    /// Returns what is unposted of each cell, which is the sum of what all parts and loose pieces have pending.
    pub fn unposted(&self) -> [i64; CELLS as usize]
        requires { AllHome self.now.owners }
        ensures pending { (c : ℕ) → c < CELLS → slice_index_or result c (pos 0) ≡ unposted self.now.owners c }
        ensures difference { (c : ℕ) → c < CELLS → slice_index_or result c (pos 0) ≡ unpublished (store_in self.now) c }
    {
        let mut sums = [0; CELLS as usize];
        for owner in &self.owners {
            add_pending(&mut sums, owner);
        }
        sums
    }

    /// Counts each cell by a walk over all rows, including those of loose pieces.
    pub fn recount(&self) -> Cells
        requires { AllHome self.now.owners }
        ensures { (c : ℕ) → c < CELLS → slice_index result c ≡ cell self.now.width c (book_in self.now.owners) }
    {
        let mut counts = Cells::zero();
        for owner in &self.owners {
            counts.add(&owner.recount());
        }
        counts
    }
}
