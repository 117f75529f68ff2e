//! The numbers of parts and loose pieces, which are given in their order, and which rise and fall.
ghost use Rattle.std.specs.Prelude.{◌≡◌, ◌<◌, ◌≤◌, ◌++◌, drop, take};
ghost use Rattle.std.specs.List.{AllByRecursion};
ghost use Rattle.part_table.specs.Dissolve.{lowered, place_lowered};
ghost use Rattle.part_table.specs.Divide.{place_raised, raised};
ghost use Rattle.part_table.specs.Numbered.{place_numbered, part_after, piece_after};
ghost use Rattle.part_table.specs.Region.{part_number};
ghost use Rattle.part_table.specs.Regions.{parts_of};

use crate::region::{Place, Region};

/// The number of the next part, and of the next loose piece.
#[derive(Drop)]
pub(crate) struct Next {
    pub(crate) part: u8,
    pub(crate) piece: u8,
}

impl Next {
    /// Returns the next place of the kind of this one, and counts it.
    pub(crate) fn place(&mut self, kind: Place) -> Place
        requires part { self.old.part < 255 }
        requires piece { self.old.piece < 255 }
        ensures place { result ≡ place_numbered self.old.part self.old.piece kind }
        ensures part { self.new.part ≡ part_after self.old.part kind }
        ensures piece { self.new.piece ≡ piece_after self.old.piece kind }
    {
        match kind {
            Place::Part(_) => {
                self.part += 1;
                Place::Part(self.part - 1)
            }
            Place::Piece(_) => {
                self.piece += 1;
                Place::Piece(self.piece - 1)
            }
        }
    }
}

/// Returns the place with a number that is one higher, if it is a part's.
pub(crate) fn raised(place: Place) -> Place
    requires { AllByRecursion (λ p. p < 255) (part_number place) }
    ensures { result ≡ place_raised place }
{
    match place {
        Place::Part(number) => Place::Part(number + 1),
        Place::Piece(number) => Place::Piece(number),
    }
}

/// Returns the place with a number that is one lower, if it is a part's.
fn lowered(place: Place) -> Place
    requires { AllByRecursion (λ p. 1 ≤ p) (part_number place) }
    ensures { result ≡ place_lowered place }
{
    match place {
        Place::Part(number) => Place::Part(number - 1),
        Place::Piece(number) => Place::Piece(number),
    }
}

/// Raises the numbers of the parts from a place on by one.
pub(crate) fn raise_from(regions: &mut [Region], from: usize)
    requires { AllByRecursion (λ p. p < 255) (parts_of (drop from regions.old)) }
    ensures { regions.new ≡ take from regions.old ++ raised (drop from regions.old) }
{
    for i in from..regions.len() {
        regions[i].place = raised(regions[i].place);
    }
}

/// Lowers the numbers of the parts from a place on by one.
pub(crate) fn lower_from(regions: &mut [Region], from: usize)
    requires { AllByRecursion (λ p. 1 ≤ p) (parts_of (drop from regions.old)) }
    ensures { regions.new ≡ take from regions.old ++ lowered (drop from regions.old) }
{
    for i in from..regions.len() {
        regions[i].place = lowered(regions[i].place);
    }
}
