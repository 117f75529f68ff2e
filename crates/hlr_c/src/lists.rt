//! The lists in arrays that C hands in, or gets.
ghost use Rattle.std.specs.Prelude.{◌≡◌, ◌≤◌, ◌<◌, ◌-◌, ◌++◌, ℕ, Ok, Err, IfOk, IfErr, length, map, replicate};
ghost use Rattle.hlr_c.specs.Asked.{bounds_in};
ghost use Rattle.hlr_c.specs.Reports.{no_region};
ghost use Rattle.hlr_c.specs.Rows.{region_for_c};

use crate::rows::{HlrBounds, HlrRegion, HlrRegions};
use hlr_core::{Place, Refusal, Region};

/// Returns the bounds that C hands in, as many as their count says, or `Field` if the count is above 15.
pub(crate) fn bounds_in(bounds: &HlrBounds) -> Result<&[u64], Refusal>
    ensures ok { IfOk result (λ list. bounds_in bounds.now ≡ Ok list.now) }
    ensures err { IfErr result (λ why. bounds_in bounds.now ≡ Err why) }
{
    if bounds.count > 15 {
        return Err(Refusal::Field);
    }
    Ok(&bounds.bounds[..bounds.count as usize])
}

/// Makes bounds as C has them.
pub(crate) fn bounds_for_c(list: &[u64]) -> HlrBounds
    requires { length list.now ≤ 15 }
    ensures count { result.count ≡ length list.now }
    ensures bounds { result.bounds ≡ list.now ++ replicate (15 - result.count) 0 }
{
    let mut bounds = [0; 15];
    for at in 0..list.len() {
        bounds[at] = list[at];
    }
    HlrBounds {
        count: list.len() as u64,
        bounds,
    }
}

/// Makes a region as C has it.
pub(crate) fn region_for_c(region: &Region) -> HlrRegion
    ensures { result ≡ region_for_c region.now }
{
    let (is_piece, number) = match region.place {
        Place::Part(number) => (0, number),
        Place::Piece(number) => (1, number),
    };
    HlrRegion {
        lo: u64::from(region.lo),
        hi: u64::from(region.hi),
        is_piece,
        number: u64::from(number),
    }
}

/// Makes a list of regions as C has it.
pub(crate) fn regions_for_c(list: &[Region]) -> HlrRegions
    requires { length list.now ≤ 32 }
    ensures count { result.count ≡ length list.now }
    ensures regions { result.regions ≡ map region_for_c list.now ++ replicate (32 - result.count) no_region }
{
    let none = HlrRegion {
        lo: 0,
        hi: 0,
        is_piece: 0,
        number: 0,
    };
    let mut regions = [none; 32];
    for at in 0..list.len() {
        regions[at] = region_for_c(&list[at]);
    }
    HlrRegions {
        count: list.len() as u64,
        regions,
    }
}
