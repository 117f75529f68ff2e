//! The pieces that a holding gives away and takes.
ghost use Rattle.std.specs.Prelude.{◌≡◌, ◌⊎◌, ◌↔◌, IsTrue, Err, IfOk, IfErr, OnOk, OnErr, map, pos};
ghost use Rattle.tatp_actions.specs.Book.{empty_book};
ghost use Rattle.tatp_actions.specs.Cut.{Touch};
ghost use Rattle.tatp_actions.specs.Heights.{zero_heights};
ghost use Rattle.tatp_actions.specs.Part.{IsPart};
ghost use Rattle.holding.specs.Held.{IsHolding, IsPiece};
ghost use Rattle.holding.specs.Inside.{IsPendingWith, TakesPart};
ghost use Rattle.holding.specs.Moved.{IsInside, IsGiven, IsTaken};

use crate::holding::Holding;
use crate::piece::Piece;
use part_table::Side;
use tatp_actions::{Cells, Part};
use tatp_rows::{Back, Refusal};
use view_delta::Pending;

/// Returns whether a subscriber is strictly inside the range of a part.
pub(crate) fn is_inside(part: &Part, at: u32) -> bool
    ensures { IsTrue result ↔ IsInside at part.now }
{
    part.lo() < at && at < part.hi()
}

/// Returns whether the range of one part ends where that of the other one begins.
fn touches(part: &Part, other: &Part) -> bool
    ensures { IsTrue result ↔ Touch part.now other.now }
{
    part.hi() == other.lo() || other.hi() == part.lo()
}

impl Holding {
    /// Cuts a loose piece off the part at a subscriber, and counts its rows once. On the high side, the piece has the
    /// subscriber and all above, and on the low side all below.
    ///
    /// Its refusals, in order, are `OutOfRange` if the subscriber is not strictly inside the range, and `Memory` if the
    /// system refuses memory. After a refusal, nothing has changed.
    pub fn give(&mut self, side: Side, at: u32) -> Result<Box<Piece>, Refusal>
        ensures given { IfOk result (λ piece. IsGiven side at self.old piece.value self.new) }
        ensures refused { OnErr result (self.new ≡ self.old) }
        ensures why { IfErr result (λ why. ((why ≡ Refusal.OutOfRange) × (IsInside at self.old.part → ⊥)) ⊎ ((why ≡ Refusal.Memory) × IsInside at self.old.part)) }
        ensures piece { IfOk result (λ piece. IsPiece piece.value) }
        ensures before { IsHolding self.old }
        ensures after { IsHolding self.new }
    {
        if !is_inside(&self.part, at) {
            return Err(Refusal::OutOfRange);
        }
        // All memory is taken before anything changes: the piece's box, and what the cut needs.
        let mut piece = Piece::boxed(self.alloc)?;
        match self.cut_off(side, at, &mut piece) {
            Ok(()) => Ok(piece),
            Err(why) => {
                drop(piece);
                Err(why)
            }
        }
    }

    /// Cuts everything on one side of a subscriber strictly inside the range off into a piece, whose rows are counted
    /// once. It returns `Memory` if the system refuses memory, and then nothing has changed.
    fn cut_off(&mut self, side: Side, at: u32, piece: &mut Piece) -> Result<(), Refusal>
        requires { IsInside at self.old.part }
        ensures given { OnOk result (IsGiven side at self.old piece.new self.new) }
        ensures refused { OnErr result ((result ≡ Err Refusal.Memory) × (self.new ≡ self.old)) }
        ensures piece { IsPiece piece.new }
        ensures before { IsHolding self.old }
        ensures after { IsHolding self.new }
    {
        let counts = self.cut_into(side, at, &mut piece.part)?;
        piece.pending = counts;
        Ok(())
    }

    /// Cuts everything on one side of a subscriber strictly inside the range off into another part, counts its rows
    /// once, and returns the counts. It returns `Memory` if the system refuses memory, and then nothing has changed.
    pub(crate) fn cut_into(
        &mut self,
        side: Side,
        at: u32,
        given: &mut Part,
    ) -> Result<Cells, Refusal>
        requires { IsInside at self.old.part }
        ensures given { IfOk result (λ counts. IsGiven side at self.old (record { part = given.new; pending = map pos counts }) self.new) }
        ensures piece { IfOk result (λ counts. IsPiece (record { part = given.new; pending = map pos counts })) }
        ensures refused { OnErr result ((result ≡ Err Refusal.Memory) × (self.new ≡ self.old) × (given.new ≡ given.old)) }
        ensures before { IsHolding self.old }
        ensures after { IsHolding self.new }
    {
        self.part.slice_into(at, side, given)?;
        let counts = given.recount();
        self.pending.subtract(&counts);
        Ok(counts)
    }

    /// Joins a loose piece with the same zone width to the part. No row is counted.
    ///
    /// Its refusals, in order, are `NotAdjacent` if the piece doesn't touch the part, and `Memory` if the system
    /// refuses memory. After a refusal, nothing has changed, and the piece is handed back as it came.
    pub fn take(&mut self, mut piece: Box<Piece>) -> Result<(), Back<Box<Piece>>>
        requires { self.old.part.width ≡ piece.value.part.width }
        ensures piece { IsPiece piece.value }
        ensures taken { OnOk result (IsTaken self.old piece.value self.new) }
        ensures refused { IfErr result (λ back. (back.item ≡ piece) × (self.new ≡ self.old)) }
        ensures why { IfErr result (λ back. ((back.why ≡ Refusal.NotAdjacent) × (Touch self.old.part piece.value.part → ⊥)) ⊎ ((back.why ≡ Refusal.Memory) × Touch self.old.part piece.value.part)) }
        ensures before { IsHolding self.old }
        ensures after { IsHolding self.new }
    {
        if !touches(&self.part, &piece.part) {
            return Err(Back {
                why: Refusal::NotAdjacent,
                item: piece,
            });
        }
        if let Err(why) = self.take_out(&mut piece) {
            return Err(Back { why, item: piece });
        }
        drop(piece);
        Ok(())
    }

    /// Takes the rows of a piece that touches the part, with their counts, and leaves the piece without rows. It
    /// returns `Memory` if the system refuses memory, and then nothing has changed.
    fn take_out(&mut self, piece: &mut Piece) -> Result<(), Refusal>
        requires touch { Touch self.old.part piece.old.part }
        requires width { self.old.part.width ≡ piece.old.part.width }
        ensures taken { OnOk result (IsTaken self.old piece.old self.new) }
        ensures refused { OnErr result ((result ≡ Err Refusal.Memory) × (self.new ≡ self.old) × (piece.new ≡ piece.old)) }
        ensures piece { IsPiece piece.old }
        ensures before { IsHolding self.old }
        ensures after { IsHolding self.new }
    {
        let mut grown = self.pending;
        grown.add(&piece.pending);
        self.take_in(&mut piece.part, grown)?;
        piece.pending = Cells::zero();
        Ok(())
    }

    /// Takes the rows of a part that touches this one, and leaves it without rows. What is pending afterwards, which
    /// includes the counts of its rows, is handed in. It returns `Memory` if the system refuses memory, and then
    /// nothing has changed.
    pub(crate) fn take_in(&mut self, part: &mut Part, pending: Pending) -> Result<(), Refusal>
        requires touch { Touch self.old.part part.old }
        requires width { self.old.part.width ≡ part.old.width }
        requires pending { IsPendingWith part.old self.old.pending pending }
        ensures taken { OnOk result (TakesPart self.old part.old self.new) }
        ensures left { OnOk result (part.new ≡ record part.old { book = empty_book; heights = zero_heights }) }
        ensures refused { OnErr result ((result ≡ Err Refusal.Memory) × (self.new ≡ self.old) × (part.new ≡ part.old)) }
        ensures before { IsHolding self.old }
        ensures after { IsHolding self.new }
        ensures rest { IsPart part.new }
    {
        self.part.meld_from(part)?;
        self.pending = pending;
        Ok(())
    }
}
