//! The pending deltas of an owner, one for each cell.
ghost use Rattle.std.specs.Prelude.{◌≡◌, ℕ, ◌<◌, ◌≤◌, ◌↔◌, List, length, IsTrue, ℤ, pos, ◌+ℤ◌, ◌-ℤ◌, slice_index, slice_set, replicate};
ghost use Rattle.std.specs.Int.RustNames.{FitsSigned};
ghost use mir.Syntax.{w64};
ghost use Rattle.tatp_actions.specs.Change.{change_at};
ghost use Rattle.tatp_actions.specs.declared.cells.TheConstants.{CELLS};
ghost use Rattle.view_delta.specs.Pending.{delta_at, NotesFit, SumsFit, DifferencesFit, AreZero, IsNextNonzero};

use std::marker::Model;
use tatp_actions::{CELLS, Cells, Change};

/// A delta for each cell, seen as their list.
#[derive(Clone, Copy, Debug, PartialEq, Eq)]
pub struct Pending {
    deltas: [i64; CELLS as usize],
}

impl Model for Pending {
    ghost Value = { List ℤ };

    ghost view = { λ p. p.deltas };

    ghost invariant = { λ p. length p.deltas ≡ CELLS };

    ghost inverse = { λ zs. record { deltas = zs } };
}

impl Pending {
    /// Makes a delta of 0 for each cell.
    pub fn zero() -> Self
        ensures { result ≡ replicate CELLS (pos 0) }
    {
        Pending {
            deltas: [0; CELLS as usize],
        }
    }

    /// Makes pending deltas of these numbers.
    pub fn of(deltas: [i64; CELLS as usize]) -> Self
        ensures { result ≡ deltas }
    {
        Pending { deltas }
    }

    /// Returns the delta of a cell.
    pub fn get(&self, cell: u8) -> i64
        requires { cell < CELLS }
        ensures { result ≡ delta_at self.now cell }
    {
        self.deltas[usize::from(cell)]
    }

    /// Returns the deltas of all cells.
    pub fn deltas(&self) -> [i64; CELLS as usize]
        ensures { result ≡ self.now }
    {
        self.deltas
    }

    /// Sets the delta of a cell to 0.
    pub fn clear(&mut self, cell: u8)
        requires { cell < CELLS }
        ensures { self.new ≡ slice_set self.old cell (pos 0) }
    {
        self.deltas[usize::from(cell)] = 0;
    }

    /// Returns whether each delta is 0. It is for tests, because the crates above ask for the next cell instead.
    pub fn is_zero(&self) -> bool
        ensures { IsTrue result ↔ AreZero 0 CELLS self.now }
    {
        self.next_nonzero(0).is_none()
    }

    /// Finds the first cell from this one on whose delta isn't 0, or returns `None` if there is none.
    pub fn next_nonzero(&self, from: u8) -> Option<u8>
        ensures { IsNextNonzero from self.now result }
    {
        for cell in from..CELLS {
            if self.deltas[usize::from(cell)] != 0 {
                return Some(cell);
            }
        }
        None
    }

    /// Adds a change to the deltas of the cells. Each sum has to fit into 64 bits.
    pub fn note(&mut self, change: &Change)
        requires { NotesFit self.old change.now }
        ensures { (c : ℕ) → c < CELLS → delta_at self.new c ≡ delta_at self.old c +ℤ change_at change.now c }
    {
        change.add_to(&mut self.deltas);
    }

    /// Raises the delta of each cell by its count. Each sum has to fit into 64 bits.
    pub fn add(&mut self, counts: &Cells)
        requires { SumsFit self.old counts.now }
        ensures { (c : ℕ) → c < CELLS → delta_at self.new c ≡ delta_at self.old c +ℤ pos (slice_index counts.now c) }
    {
        for cell in 0..CELLS {
            let delta = self.deltas[usize::from(cell)];
            self.deltas[usize::from(cell)] = sum(delta, counts.get(cell));
        }
    }

    /// Lowers the delta of each cell by its count. Each difference has to fit into 64 bits.
    pub fn subtract(&mut self, counts: &Cells)
        requires { DifferencesFit self.old counts.now }
        ensures { (c : ℕ) → c < CELLS → delta_at self.new c ≡ delta_at self.old c -ℤ pos (slice_index counts.now c) }
    {
        for cell in 0..CELLS {
            let delta = self.deltas[usize::from(cell)];
            self.deltas[usize::from(cell)] = difference(delta, counts.get(cell));
        }
    }
}

/// Returns the sum of a delta and a count.
fn sum(delta: i64, count: u64) -> i64
    requires { FitsSigned w64 (delta +ℤ pos count) }
    ensures { result ≡ delta +ℤ pos count }
{
    (i128::from(delta) + i128::from(count)) as i64
}

/// Returns a delta less a count.
fn difference(delta: i64, count: u64) -> i64
    requires { FitsSigned w64 (delta -ℤ pos count) }
    ensures { result ≡ delta -ℤ pos count }
{
    (i128::from(delta) - i128::from(count)) as i64
}
