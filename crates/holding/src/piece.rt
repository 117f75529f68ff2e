//! The loose piece.
ghost use Rattle.std.specs.Prelude.{◌≡◌, ℕ, ◌<◌, ◌≤◌, ◌^◌, option_copied, slice_index, pos, IfErr};
ghost use Rattle.tatp_actions.specs.Book.{empty_book, first_subscriber};
ghost use Rattle.tatp_actions.specs.declared.cells.TheConstants.{CELLS};
ghost use Rattle.view_delta.specs.Pending.{delta_at};
ghost use Rattle.holding.specs.Held.{IsPiece, count_of};

use std::alloc::Global;
use std::marker::Model;
use tatp_actions::{Cells, Part};
use tatp_rows::{Refusal, Subscriber};

/// A loose piece, which a holding gave away and none has taken yet, with what is pending of each cell. Because nothing
/// of it is published, these are the counts of its rows.
#[derive(Drop)]
pub struct Piece {
    pub(crate) part: Part,
    pub(crate) pending: Cells,
}

impl Model for Piece {
    ghost use Rattle.std.specs.Prelude.{map, pos};
    ghost use Rattle.holding.specs.Held.{PieceState, IsPiece};

    ghost Value = { PieceState };

    ghost view = { λ p. record { part = p.part; pending = map pos p.pending } };

    ghost invariant = { λ p. IsPiece (record { part = p.part; pending = map pos p.pending }) };
}

/// Returns a count as a delta.
fn delta_of(count: u64) -> i64
    requires { count ≤ 2 ^ 40 }
    ensures { result ≡ pos count }
{
    count as i64
}

impl Piece {
    /// Makes a piece without rows. It takes no memory.
    pub(crate) fn blank(alloc: Global) -> Self
        ensures { result.part.book ≡ empty_book }
    {
        let Ok(part) = Part::new(alloc, 1, 2, 1) else {
            unreachable!()
        };
        // For the prover: the part keeps its rules.
        let _width = part.width();
        Piece {
            part,
            pending: Cells::zero(),
        }
    }

    /// Makes a piece without rows, in a box. It returns `Memory` if the system refuses memory for this.
    #[inline(never)]
    pub(crate) fn boxed(alloc: Global) -> Result<Box<Self>, Refusal>
        ensures { IfErr result (λ why. why ≡ Refusal.Memory) }
    {
        Ok(Box::new(alloc, Piece::blank(alloc))?)
    }

    /// Tells the prover that the piece keeps its rules. The call does nothing.
    #[inline(always)]
    pub fn rules(&self)
        ensures { IsPiece self.now }
    {
        let _ = &self.part;
    }

    /// Returns the first subscriber of the range, 1..=16,777,216.
    pub fn lo(&self) -> u32
        ensures { result ≡ self.now.part.lo }
    {
        self.part.lo()
    }

    /// Returns the end of the range: one past its last subscriber, at most 16,777,217.
    pub fn hi(&self) -> u32
        ensures { result ≡ self.now.part.hi }
    {
        self.part.hi()
    }

    /// Returns the zone width, 1..=524,288.
    pub fn width(&self) -> u32
        ensures { result ≡ self.now.part.width }
    {
        self.part.width()
    }

    /// Returns what is pending of a cell below `CELLS`: its count.
    pub fn pending(&self, cell: u8) -> i64
        requires { cell < CELLS }
        ensures { result ≡ delta_at self.now.pending cell }
    {
        delta_of(self.pending.get(cell))
    }

    /// Counts each cell by a walk over all rows.
    pub fn recount(&self) -> Cells
        ensures { (c : ℕ) → c < CELLS → slice_index result c ≡ count_of self.now.part c }
    {
        self.part.recount()
    }

    /// Finds the first Subscriber row of the piece whose s_id is this one or higher.
    pub fn first_sub_from(&self, s_id: u64) -> Option<&Subscriber>
        ensures { option_copied result ≡ first_subscriber s_id self.now.part.book.subscribers }
    {
        self.part.first_sub_from(s_id)
    }
}
