//! A region, which is a range of s_ids with the part or the loose piece that has it.
ghost use Rattle.std.specs.Prelude.{◌≡◌};
ghost use Rattle.part_table.specs.Region.{is_of_part, is_part, is_piece};

use tatp_rows::LAST_SUBSCRIBER;

/// The number behind the last s_id, at which the last region ends.
pub const END: u32 = LAST_SUBSCRIBER + 1;

// Definitions name these constants, so their numbers are proved here.
const _: () = prove!(END == 16_777_217);

/// The greatest number of parts.
pub const MOST_PARTS: u8 = 16;

const _: () = prove!(MOST_PARTS == 16);

/// The greatest number of loose pieces.
pub const MOST_PIECES: u8 = 16;

const _: () = prove!(MOST_PIECES == 16);

/// The part or the loose piece that has a region.
#[derive(Clone, Copy, Debug, PartialEq, Eq)]
pub enum Place {
    /// The part with this number, 0..=15.
    Part(u8),
    /// The loose piece with this number, 1..=16.
    Piece(u8),
}

/// The first part, which fills the unused places of an array of regions.
impl Default for Place {
    ghost use Rattle.std.specs.Prelude.{◌≡◌};
    ghost use Rattle.part_table.specs.declared.region.Place.TheVariants.{Part};

    ghost is_default = { λ place. place ≡ Part 0 };

    fn default() -> Self {
        Place::Part(0)
    }
}

/// One of the two ends of a part's range.
#[derive(Clone, Copy, Debug, PartialEq, Eq)]
pub enum Side {
    /// The end with the least s_ids.
    Low,
    /// The end with the greatest s_ids.
    High,
}

/// A range `lo..hi` of s_ids, where `hi` is excluded, and the part or the loose piece that has it.
#[derive(Clone, Copy, Debug, Default, PartialEq, Eq)]
pub struct Region {
    /// The first s_id, 1..=16,777,216.
    pub lo: u32,
    /// The number behind the last s_id, at most 16,777,217.
    pub hi: u32,
    /// The part or the loose piece that has the range.
    pub place: Place,
}

impl Region {
    /// Returns whether this is the region of the part `p`.
    pub(crate) fn is_part(&self, p: u64) -> bool
        ensures { result ≡ is_part p self.now }
    {
        match self.place {
            Place::Part(number) => u64::from(number) == p,
            Place::Piece(_) => false,
        }
    }

    /// Returns whether this is the region of the loose piece `n`.
    pub(crate) fn is_piece(&self, n: u64) -> bool
        ensures { result ≡ is_piece n self.now }
    {
        match self.place {
            Place::Part(_) => false,
            Place::Piece(number) => u64::from(number) == n,
        }
    }

    /// Returns whether this is the region of some part.
    pub(crate) fn is_of_part(&self) -> bool
        ensures { result ≡ is_of_part self.now }
    {
        match self.place {
            Place::Part(_) => true,
            Place::Piece(_) => false,
        }
    }
}
