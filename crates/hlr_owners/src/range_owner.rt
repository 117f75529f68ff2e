//! The owner of the rows of a range, which is a holding or a loose piece.
ghost use Rattle.std.specs.Prelude.{◌≡◌, ℕ, ◌<◌, List, ℤ};
ghost use Rattle.tatp_actions.specs.declared.cells.TheConstants.{CELLS};
ghost use Rattle.part_table.specs.declared.region.Region.{Region};
ghost use Rattle.view_delta.specs.Pending.{delta_at};
ghost use Rattle.holding.specs.Held.{IsHolding, IsPiece};
ghost use Rattle.hlr_owners.specs.Gather.{holding_range, piece_range};

use holding::{Holding, Piece};
use part_table::{Place, Region};

/// An owner of the rows of a range, seen as its range, its zone width, and what is pending.
pub(crate) trait RangeOwner {
    ghost range_of: { Self → Region };

    ghost width_of: { Self → ℕ };

    ghost deltas_of: { Self → List ℤ };

    ghost keeps: { Self → Type 0 };

    /// Returns the range, as that of a part or of a loose piece.
    fn range(&self) -> Region
        ensures value { result ≡ range_of self.now }
        ensures rules { keeps self.now };

    /// Returns the zone width.
    fn zone_width(&self) -> u32
        ensures { result ≡ width_of self.now };

    /// Returns what is pending of a cell.
    fn delta(&self, cell: u8) -> i64
        requires { cell < CELLS }
        ensures { result ≡ delta_at (deltas_of self.now) cell };
}

impl RangeOwner for Holding {
    ghost range_of = { holding_range };

    ghost width_of = { λ holding. holding.part.width };

    ghost deltas_of = { λ holding. holding.pending };

    ghost keeps = { IsHolding };

    fn range(&self) -> Region {
        self.rules();
        Region {
            lo: self.lo(),
            hi: self.hi(),
            place: Place::Part(0),
        }
    }

    fn zone_width(&self) -> u32 {
        self.width()
    }

    fn delta(&self, cell: u8) -> i64 {
        self.pending(cell)
    }
}

impl RangeOwner for Piece {
    ghost range_of = { piece_range };

    ghost width_of = { λ piece. piece.part.width };

    ghost deltas_of = { λ piece. piece.pending };

    ghost keeps = { IsPiece };

    fn range(&self) -> Region {
        self.rules();
        Region {
            lo: self.lo(),
            hi: self.hi(),
            place: Place::Piece(0),
        }
    }

    fn zone_width(&self) -> u32 {
        self.width()
    }

    fn delta(&self, cell: u8) -> i64 {
        self.pending(cell)
    }
}
