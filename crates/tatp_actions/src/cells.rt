//! The cells, and where each kind of them begins.
ghost use Rattle.std.specs.Prelude.{◌≡◌, ℕ, ◌<◌, ◌+◌, ◌≤◌, ◌^◌, ◌==◌, List, length, slice_index, slice_set, replicate};

use std::marker::Model;

/// How many cells there are: 24 hours for active forwardings, 16 areas for subscribers, and 32 zones for rows. Hour h
/// has cell h.
pub const CELLS: u8 = 72;

// Definitions name these constants, so their numbers are proved here.
const _: () = prove!(CELLS == 72);

/// The cell of area 0. Area a has cell `FIRST_AREA + a`.
pub const FIRST_AREA: u8 = 24;

const _: () = prove!(FIRST_AREA == 24);

/// The cell of zone 0. Zone z has cell `FIRST_ZONE + z`.
pub const FIRST_ZONE: u8 = 40;

const _: () = prove!(FIRST_ZONE == 40);

/// A count for each cell.
#[derive(Clone, Copy, Debug, PartialEq, Eq)]
pub struct Cells {
    counts: [u64; CELLS as usize],
}

impl Model for Cells {
    ghost use Rattle.std.specs.Prelude.{◌≡◌, ℕ, List, length};
    ghost use Rattle.tatp_actions.specs.declared.cells.TheConstants.{CELLS};

    ghost Value = { List ℕ };

    ghost view = { λ c. c.counts };

    ghost invariant = { λ c. length c.counts ≡ CELLS };

    ghost inverse = { λ ns. record { counts = ns } };
}

impl Cells {
    /// Makes cells with a count of 0 each.
    pub fn zero() -> Self
        ensures { result ≡ replicate CELLS 0 }
    {
        Cells {
            counts: [0; CELLS as usize],
        }
    }

    /// Returns the count of a cell.
    pub fn get(&self, cell: u8) -> u64
        requires { cell < CELLS }
        ensures { result ≡ slice_index self.now cell }
    {
        self.counts[usize::from(cell)]
    }

    /// Adds one to the count of a cell.
    pub fn count_one(&mut self, cell: u8)
        requires cell { cell < CELLS }
        requires room { slice_index self.old cell + 1 < 2 ^ 64 }
        ensures { self.new ≡ slice_set self.old cell (slice_index self.old cell + 1) }
    {
        self.counts[usize::from(cell)] += 1;
    }

    /// Adds other counts to these, cell by cell.
    pub fn add(&mut self, counts: &Cells)
        requires { (c : ℕ) → c < CELLS → slice_index self.old c + slice_index counts.now c < 2 ^ 64 }
        ensures { (c : ℕ) → c < CELLS → slice_index self.new c ≡ slice_index self.old c + slice_index counts.now c }
    {
        for cell in 0..usize::from(CELLS) {
            self.counts[cell] += counts.counts[cell];
        }
    }
}
