//! Plain regions, for tests: a list that each event on them makes anew.
use crate::tests::{MANY_PARTS, MANY_PIECES, NO_PART, NO_PIECE, NOT_ADJACENT, OUT_OF_RANGE};
use arrayvec::ArrayVec;
use hlr_core::Reply;
use part_table::{Place, Region, Side};
use tatp_rows::Refusal;

/// The regions of all subscribers in order.
#[derive(Drop)]
pub struct PlainRegions {
    list: ArrayVec<Region, 32>,
}

/// Appends a region, if there is room.
fn append(list: &mut ArrayVec<Region, 32>, lo: u32, hi: u32, place: Place) {
    let _full = list.try_push(Region { lo, hi, place });
}

/// Whether bounds rise strictly in 2..=16,777,216.
fn are_rising(bounds: &[u64]) -> bool {
    let mut below = 1;
    for bound in bounds {
        if *bound <= below || *bound > 16_777_216 {
            return false;
        }
        below = *bound;
    }
    true
}

impl PlainRegions {
    /// So many parts, to which the zones of this width are dealt out evenly.
    pub fn opening(parts: u8, width: u32) -> Self {
        let mut regions = PlainRegions {
            list: ArrayVec::new(),
        };
        let mut bounds = ArrayVec::<u64, 15>::new();
        for part in 1..parts {
            let zone = u64::from(part).wrapping_mul(32) / u64::from(parts).max(1);
            let _full = bounds.try_push(zone.wrapping_mul(u64::from(width)).wrapping_add(1));
        }
        regions.set_bounds(bounds.as_slice());
        regions
    }

    /// Parts alone, with these bounds between them.
    fn set_bounds(&mut self, bounds: &[u64]) {
        let mut list = ArrayVec::new();
        let mut lo = 1;
        let mut part = 0u8;
        for bound in bounds {
            let hi = (*bound).min(16_777_217) as u32;
            append(&mut list, lo, hi, Place::Part(part));
            lo = hi;
            part = part.wrapping_add(1);
        }
        append(&mut list, lo, 16_777_217, Place::Part(part));
        self.list = list;
    }

    /// The regions in order.
    pub fn list(&self) -> &[Region] {
        self.list.as_slice()
    }

    /// How many parts there are.
    pub fn parts(&self) -> u64 {
        let mut parts = 0u64;
        for region in self.list() {
            parts = parts.wrapping_add(u64::from(matches!(region.place, Place::Part(_))));
        }
        parts
    }

    /// Where a part stands, or a loose piece.
    fn position(&self, of_part: bool, number: u64) -> Option<usize> {
        for (index, region) in self.list().iter().enumerate() {
            let found = match region.place {
                Place::Part(p) => of_part && u64::from(p) == number,
                Place::Piece(n) => !of_part && u64::from(n) == number,
            };
            if found {
                return Some(index);
            }
        }
        None
    }

    /// Where a part begins, and the number behind its last subscriber.
    pub fn range_of(&self, part: u64) -> Option<(u32, u32)> {
        let region = self.list().get(self.position(true, part)?)?;
        Some((region.lo, region.hi))
    }

    /// Whether a subscriber lies in a loose piece.
    pub fn is_loose(&self, s_id: u64) -> bool {
        for region in self.list() {
            if u64::from(region.lo) <= s_id && s_id < u64::from(region.hi) {
                return matches!(region.place, Place::Piece(_));
            }
        }
        false
    }

    /// The least number of 1..=16 that no loose piece has.
    fn free_number(&self) -> Option<u8> {
        for number in 1u8..17 {
            if self.position(false, u64::from(number)).is_none() {
                return Some(number);
            }
        }
        None
    }

    /// Cuts the region of a part in two, of which one becomes a loose piece.
    pub fn give(&mut self, part: u64, side: Side, at: u64) -> Reply {
        let Some((lo, hi)) = self.range_of(part) else {
            return NO_PART;
        };
        if at <= u64::from(lo) || u64::from(hi) <= at {
            return OUT_OF_RANGE;
        }
        let Some(piece) = self.free_number() else {
            return MANY_PIECES;
        };
        let bound = at as u32;
        let mut list = ArrayVec::new();
        for region in self.list() {
            if region.lo != lo {
                append(&mut list, region.lo, region.hi, region.place);
            } else if side == Side::Low {
                append(&mut list, lo, bound, Place::Piece(piece));
                append(&mut list, bound, hi, region.place);
            } else {
                append(&mut list, lo, bound, region.place);
                append(&mut list, bound, hi, Place::Piece(piece));
            }
        }
        self.list = list;
        match side {
            Side::Low => Reply::Given {
                piece,
                lo,
                hi: bound,
            },
            Side::High => Reply::Given {
                piece,
                lo: bound,
                hi,
            },
        }
    }

    /// Makes one region of a loose piece and the part beside it.
    pub fn take(&mut self, piece: u64, part: u64) -> Reply {
        let Some(from) = self.position(false, piece) else {
            return NO_PIECE;
        };
        let Some(to) = self.position(true, part) else {
            return NO_PART;
        };
        if from.abs_diff(to) != 1 {
            return NOT_ADJACENT;
        }
        let first = from.min(to);
        let (part, piece) = (part.min(15) as u8, piece.min(16) as u8);
        let mut list = ArrayVec::new();
        let mut lo = 1;
        for (index, region) in self.list().iter().enumerate() {
            if index == first {
                continue;
            }
            let is_joint = index == first.wrapping_add(1);
            let place = if is_joint {
                Place::Part(part)
            } else {
                region.place
            };
            append(&mut list, lo, region.hi, place);
            lo = region.hi;
        }
        self.list = list;
        Reply::Taken { piece, part }
    }

    /// Numbers the parts in their order.
    fn number_parts(&mut self) {
        let mut number = 0u8;
        for region in self.list.iter_mut() {
            if let Place::Part(part) = &mut region.place {
                *part = number;
                number = number.wrapping_add(1);
            }
        }
    }

    /// Cuts the region of a part in two, of which the second is that of a new part.
    pub fn divide(&mut self, part: u64, at: u64) -> Reply {
        let Some((lo, hi)) = self.range_of(part) else {
            return NO_PART;
        };
        if at <= u64::from(lo) || u64::from(hi) <= at {
            return OUT_OF_RANGE;
        }
        if self.parts() == 16 {
            return MANY_PARTS;
        }
        let bound = at as u32;
        let mut list = ArrayVec::new();
        for region in self.list() {
            if region.lo == lo {
                append(&mut list, lo, bound, region.place);
                append(&mut list, bound, hi, region.place);
            } else {
                append(&mut list, region.lo, region.hi, region.place);
            }
        }
        self.list = list;
        self.number_parts();
        Reply::Divided {
            part: part.min(15) as u8 + 1,
            lo: bound,
            hi,
        }
    }

    /// Makes one region of that of a part and that of the part in front of it.
    pub fn dissolve(&mut self, part: u64) -> Reply {
        let Some((_, hi)) = self.range_of(part) else {
            return NO_PART;
        };
        let Some((lo, front_hi)) = self.range_of(part.wrapping_sub(1)) else {
            return NOT_ADJACENT;
        };
        if self.range_of(part) != Some((front_hi, hi)) {
            return NOT_ADJACENT;
        }
        let mut list = ArrayVec::new();
        for region in self.list() {
            if region.lo == lo {
                append(&mut list, lo, hi, region.place);
            } else if region.lo != front_hi {
                append(&mut list, region.lo, region.hi, region.place);
            }
        }
        self.list = list;
        self.number_parts();
        Reply::Dissolved {
            part: (part.min(15) as u8).wrapping_sub(1),
            lo,
            hi,
        }
    }

    /// Moves the bounds between parts to these, and tells how many moved.
    pub fn recut_to(&mut self, bounds: &[u64]) -> Result<u8, Refusal> {
        let parts = self.parts();
        if (bounds.len() as u64).wrapping_add(1) != parts || !are_rising(bounds) {
            return Err(Refusal::Field);
        }
        if self.list.len() as u64 != parts {
            return Err(Refusal::Moving);
        }
        let mut moves = 0u8;
        for (region, bound) in self.list().iter().zip(bounds) {
            moves = moves.wrapping_add(u8::from(u64::from(region.hi) != *bound));
        }
        self.set_bounds(bounds);
        Ok(moves)
    }
}
