//! The regions of all s_ids, and their changes by gives and takes.
ghost use Rattle.std.specs.Prelude.{◌≡◌, ◌<◌, ◌≤◌, ℕ, Some, IfOk, IfErr, count_by, length, position};
ghost use Rattle.part_table.specs.Give.{answer_of_part, give_answer, after_give, cut, second_index};
ghost use Rattle.part_table.specs.Numbered.{over_ranges};
ghost use Rattle.part_table.specs.Opening.{opening, can_open};
ghost use Rattle.part_table.specs.Region.{is_part, is_piece, lies_in};
ghost use Rattle.part_table.specs.Regions.{AreRegions, parts_of, pieces_of, place_of};
ghost use Rattle.part_table.specs.declared.region.TheConstants.{MOST_PARTS, MOST_PIECES};
ghost use Rattle.part_table.specs.Take.{answer_of_both, joined, take_answer, after_take, touching};

use crate::cutting::{given, halves, put_two};
use crate::finding::{count_parts, end_behind, free_number, part_at, piece_at};
use crate::joining::{joint, put_one};
use crate::numbering::Next;
use crate::region::{END, MOST_PARTS, Place, Region, Side};
use arrayvec::ArrayVec;
use std::marker::Model;
use tatp_rows::{GREATEST_WIDTH, Refusal};

/// The regions of all s_ids in order, each of a part or of a loose piece, seen as their list.
///
/// Each s_id of 1..=16,777,216 is in exactly one region. There are 1 to 16 parts, numbered from 0 in order, and at most
/// 16 loose pieces, each with a number of its own in 1..=16.
#[derive(Debug, Drop)]
pub struct Regions {
    pub(crate) list: ArrayVec<Region, 32>,
}

impl Model for Regions {
    ghost use Rattle.std.specs.Prelude.{List};
    ghost use Rattle.part_table.specs.Regions.{AreRegions};
    ghost use Rattle.part_table.specs.declared.region.Region.{Region};

    ghost Value = { List Region };

    ghost view = { λ r. r.list.items };

    ghost invariant = { λ r. AreRegions r.list.items };
}

impl Regions {
    /// Makes the regions of so many parts at opening, where each has its share of the 32 zones of a width. It returns
    /// `Field` if parts isn't in 1..=16 or the width isn't in 1..=524,288.
    pub fn opening(parts: u8, width: u32) -> Result<Regions, Refusal>
        ensures { result ≡ opening parts width }
    {
        if !can_open(parts, width) {
            return Err(Refusal::Field);
        }
        let mut list = ArrayVec::new();
        let mut lo = 1;
        for p in 1..parts {
            let hi = 1 + u32::from(u16::from(p) * 32 / u16::from(parts)) * width;
            list.push(Region {
                lo,
                hi,
                place: Place::Part(p - 1),
            });
            lo = hi;
        }
        list.push(Region {
            lo,
            hi: END,
            place: Place::Part(parts - 1),
        });
        Ok(Regions { list })
    }

    /// Makes the regions over the ranges of 1 to 16 parts and at most 16 loose pieces, which are numbered anew in their
    /// order, the parts from 0 and the pieces from 1. It returns `NotAdjacent` if the first range doesn't begin at 1,
    /// if one is empty or doesn't begin where the one before it ends, or if the last doesn't end at 16,777,217. It
    /// takes no memory.
    pub fn over(ranges: &[Region]) -> Result<Regions, Refusal>
        requires some { 1 ≤ length (parts_of ranges.now) }
        requires parts { length (parts_of ranges.now) ≤ MOST_PARTS }
        requires pieces { length (pieces_of ranges.now) ≤ MOST_PIECES }
        ensures { result ≡ over_ranges ranges.now }
    {
        let mut list = ArrayVec::new();
        let mut from = 1;
        let mut next = Next { part: 0, piece: 1 };
        for range in ranges {
            if range.lo != from || range.hi <= range.lo {
                return Err(Refusal::NotAdjacent);
            }
            let place = next.place(range.place);
            list.push(Region { place, ..*range });
            from = range.hi;
        }
        if from != END {
            return Err(Refusal::NotAdjacent);
        }
        Ok(Regions { list })
    }

    /// Returns the regions in order.
    pub fn list(&self) -> &[Region]
        ensures value { result.now ≡ self.now }
        ensures regions { AreRegions result.now }
    {
        self.list.as_slice()
    }

    /// Counts the parts.
    pub fn parts(&self) -> u8
        ensures value { result ≡ length (parts_of self.now) }
        ensures some { 1 ≤ result }
        ensures few { result ≤ MOST_PARTS }
    {
        count_parts(self.list()) as u8
    }

    /// Finds the place of the region that has an s_id of 1..=16,777,216.
    pub fn index(&self, s_id: u32) -> usize
        requires from { 1 ≤ s_id }
        requires to { s_id < END }
        ensures { position (lies_in s_id) self.now ≡ Some result }
    {
        match end_behind(self.list(), s_id) {
            Some(i) => i,
            None => unreachable!(),
        }
    }

    /// Finds the place of the part `p`, if there is such a part.
    pub fn index_of_part(&self, p: u64) -> Option<usize>
        ensures { result ≡ position (is_part p) self.now }
    {
        part_at(self.list(), p)
    }

    /// Returns the part or the loose piece that has an s_id of 1..=16,777,216.
    pub fn place(&self, s_id: u32) -> Place
        requires from { 1 ≤ s_id }
        requires to { s_id < END }
        ensures value { Some result ≡ place_of s_id self.now }
        ensures alone { count_by (lies_in s_id) self.now ≡ 1 }
    {
        self.list()[self.index(s_id)].place
    }

    /// Returns what [`Regions::give`] would return, which is the number of the new loose piece, and where it begins and
    /// ends, or the first refusal that applies of `NoPart`, `OutOfRange` and `ManyPieces`. Nothing changes.
    pub fn give_answer(&self, p: u64, side: Side, at: u64) -> Result<(u8, u32, u32), Refusal>
        ensures { result ≡ give_answer p side at self.now }
    {
        let (_, piece) = self.giving(p, side, at)?;
        Ok(piece)
    }

    /// Returns what [`Regions::give_answer`] returns, and in front of it the place of the part's region. Nothing
    /// changes.
    pub fn giving(&self, p: u64, side: Side, at: u64) -> Result<(usize, (u8, u32, u32)), Refusal>
        ensures index { IfOk result (λ told. position (is_part p) self.now ≡ Some told.0) }
        ensures answer { IfOk result (λ told. give_answer p side at self.now ≡ Ok told.1) }
        ensures refused { IfErr result (λ why. give_answer p side at self.now ≡ Err why) }
    {
        let regions = self.list();
        let Some(i) = part_at(regions, p) else {
            return Err(Refusal::NoPart);
        };
        let piece = answer_of(regions, regions[i], side, at)?;
        Ok((i, piece))
    }

    /// Cuts a piece off the part at the place `i`, which [`Regions::giving`] has returned with the piece, and leaves
    /// the regions as [`Regions::give`] does.
    pub fn give_at(&mut self, i: usize, side: Side, at: u64, piece: (u8, u32, u32))
        requires { (p : ℕ) × (position (is_part p) self.old ≡ Some i) × (give_answer p side at self.old ≡ Ok piece) }
        ensures { (p : ℕ) → position (is_part p) self.old ≡ Some i → self.new ≡ cut p piece.0 side at self.old }
    {
        let (low, high) = halves(self.list[i], piece.0, side, at as u32);
        put_two(&mut self.list, i, low, high);
    }

    /// Returns what [`Regions::take`] would return, which is the side of the part on which the loose piece lies, or the
    /// first refusal that applies of `NoPiece`, `NoPart` and `NotAdjacent`. Nothing changes.
    pub fn take_answer(&self, n: u64, q: u64) -> Result<Side, Refusal>
        ensures { result ≡ take_answer n q self.now }
    {
        let (_, side) = self.taking(n, q)?;
        Ok(side)
    }

    /// Returns what [`Regions::take_answer`] returns, and in front of it the place of the loose piece's region. Nothing
    /// changes.
    pub fn taking(&self, n: u64, q: u64) -> Result<(usize, Side), Refusal>
        ensures index { IfOk result (λ told. position (is_piece n) self.now ≡ Some told.0) }
        ensures answer { IfOk result (λ told. take_answer n q self.now ≡ Ok told.1) }
        ensures refused { IfErr result (λ why. take_answer n q self.now ≡ Err why) }
    {
        let regions = self.list();
        let Some(i) = piece_at(regions, n) else {
            return Err(Refusal::NoPiece);
        };
        let Some(k) = part_at(regions, q) else {
            return Err(Refusal::NoPart);
        };
        let side = side_of_both(regions[i], regions[k])?;
        Ok((i, side))
    }

    /// Joins to the part the loose piece whose place and side [`Regions::taking`] has returned, and leaves the regions
    /// as [`Regions::take`] does.
    pub fn take_at(&mut self, i: usize, side: Side)
        requires { (n q : ℕ) × (position (is_piece n) self.old ≡ Some i) × (take_answer n q self.old ≡ Ok side) }
        ensures { (n q : ℕ) → position (is_piece n) self.old ≡ Some i → take_answer n q self.old ≡ Ok side → self.new ≡ joined n q self.old }
    {
        // Opens the regions for the prover: there are few.
        let _ = &self.list;
        let second = second_index(side, i);
        let whole = joint(self.list[second - 1], self.list[second], side);
        put_one(&mut self.list, second, whole);
    }

    /// Cuts a loose piece off the part `p`: everything from `at` on if the side is high, or everything below it if the
    /// side is low. The piece gets the least free number of 1..=16. It returns the number, and where the piece begins
    /// and ends. Its refusals, in order, are `NoPart`, `OutOfRange` if `at` isn't strictly inside the part, and
    /// `ManyPieces` if sixteen pieces are loose. A refusal changes nothing.
    pub fn give(&mut self, p: u64, side: Side, at: u64) -> Result<(u8, u32, u32), Refusal>
        ensures answer { result ≡ give_answer p side at self.old }
        ensures after { self.new ≡ after_give p side at result self.old }
    {
        let (i, piece) = self.giving(p, side, at)?;
        self.give_at(i, side, at, piece);
        Ok(piece)
    }

    /// Joins to the part `q` the loose piece `n`, which has to touch it, and returns the side of the part on which the
    /// piece lay. Its refusals, in order, are `NoPiece`, `NoPart`, and `NotAdjacent`. A refusal changes nothing.
    pub fn take(&mut self, n: u64, q: u64) -> Result<Side, Refusal>
        ensures answer { result ≡ take_answer n q self.old }
        ensures after { self.new ≡ after_take n q result self.old }
    {
        let (i, side) = self.taking(n, q)?;
        self.take_at(i, side);
        Ok(side)
    }
}

/// Returns whether a store can have so many parts, 1..=16, and zones of this width, 1..=524,288 subscribers.
pub fn can_open(parts: u8, width: u32) -> bool
    ensures { result ≡ can_open parts width }
{
    1 <= parts && parts <= MOST_PARTS && 1 <= width && width <= GREATEST_WIDTH
}

/// Returns the answer of a part with this region to a give, which is the number of the new loose piece, and where it
/// begins and ends.
fn answer_of(
    regions: &[Region],
    part: Region,
    side: Side,
    at: u64,
) -> Result<(u8, u32, u32), Refusal>
    requires { AreRegions regions.now }
    ensures { result ≡ answer_of_part (Some part) side at regions.now }
{
    if at <= u64::from(part.lo) || u64::from(part.hi) <= at {
        return Err(Refusal::OutOfRange);
    }
    let n = free_number(regions).ok_or(Refusal::ManyPieces)?;
    let (lo, hi) = given(part, side, at as u32);
    Ok((n, lo, hi))
}

/// Returns the answer to a take of a loose piece by a part, given both regions.
fn side_of_both(piece: Region, part: Region) -> Result<Side, Refusal>
    ensures { result ≡ answer_of_both (Some piece) (Some part) }
{
    touching(piece, part).ok_or(Refusal::NotAdjacent)
}

/// Returns the place of the second of two neighbours, given the place of the piece that lies on one side of the part.
fn second_index(side: Side, i: usize) -> usize
    requires { i < 32 }
    ensures { result ≡ second_index side i }
{
    match side {
        Side::Low => i + 1,
        Side::High => i,
    }
}

/// Returns the side of a part on which a piece lies, if their ranges touch.
fn touching(piece: Region, part: Region) -> Option<Side>
    ensures { result ≡ touching piece part }
{
    if piece.hi == part.lo {
        Some(Side::Low)
    } else if part.hi == piece.lo {
        Some(Side::High)
    } else {
        None
    }
}
