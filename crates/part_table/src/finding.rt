//! The search for regions, the count of parts, and a number for a new piece.
ghost use Rattle.std.specs.Prelude.{◌≡◌, length, position, count_by, MatchOption};
ghost use Rattle.std.specs.List.{list_any};
ghost use Rattle.part_table.specs.Give.{IsFreeNumber};
ghost use Rattle.part_table.specs.Region.{ends_behind, is_of_part, is_part, is_piece};
ghost use Rattle.part_table.specs.Regions.{AreRegions, pieces_of};

use crate::region::{MOST_PIECES, Region};

/// Returns how many regions are of parts.
pub(crate) fn count_parts(regions: &[Region]) -> usize
    ensures { result ≡ count_by is_of_part regions.now }
{
    regions.iter().filter(|region| region.is_of_part()).count()
}

/// Returns the place of the first region that ends behind an s_id, if there is one.
pub(crate) fn end_behind(regions: &[Region], s_id: u32) -> Option<usize>
    ensures { result ≡ position (ends_behind s_id) regions.now }
{
    regions.iter().position(|region| s_id < region.hi)
}

/// Returns the place of the part `p` among some of the regions, if it is there.
fn part_among(regions: &[Region], p: u64) -> Option<usize>
    ensures { result ≡ position (is_part p) regions.now }
{
    regions.iter().position(|region| region.is_part(p))
}

/// Returns the place of the part `p`, if it is there. It is behind those of the parts before it.
pub(crate) fn part_at(regions: &[Region], p: u64) -> Option<usize>
    requires { AreRegions regions.now }
    ensures { result ≡ position (is_part p) regions.now }
{
    let before = p as usize;
    let i = part_among(regions.get(before..)?, p)?;
    Some(before + i)
}

/// Returns the place of the loose piece `n`, if it is there.
pub(crate) fn piece_at(regions: &[Region], n: u64) -> Option<usize>
    ensures { result ≡ position (is_piece n) regions.now }
{
    regions.iter().position(|region| region.is_piece(n))
}

/// Returns whether a loose piece has this number.
pub(crate) fn has_piece(regions: &[Region], n: u64) -> bool
    ensures { result ≡ list_any (is_piece n) regions.now }
{
    regions.iter().any(|region| region.is_piece(n))
}

/// Returns the least number of 1..=16 that no loose piece has, or `None` if sixteen are loose.
pub(crate) fn free_number(regions: &[Region]) -> Option<u8>
    requires { AreRegions regions.now }
    ensures { MatchOption result (length (pieces_of regions.now) ≡ MOST_PIECES) (IsFreeNumber (pieces_of regions.now)) }
{
    for n in 1..MOST_PIECES + 1 {
        if !has_piece(regions, u64::from(n)) {
            return Some(n);
        }
    }
    None
}
