//! The weights of the zones by which bounds are proposed.
ghost use Rattle.std.specs.Prelude.{◌≡◌, ◌+◌, ◌≤◌, map, slice_index_or, ℤ, pos, All};
ghost use Rattle.hlr_core.specs.Weights.{weight, all_zones};

use part_table::GREATEST_WEIGHT;
use tatp_actions::{CELLS, FIRST_ZONE};

/// How many zones there are.
const ZONES: u8 = CELLS - FIRST_ZONE;

// The number that the definitions mean.
const _: () = prove!(ZONES == 32);

/// Returns the weight of a zone of which this count is published. The weight is at least 0, and at most the number of
/// all rows that there can be.
fn weight_of(published: i64) -> u64
    ensures { result ≡ weight published }
{
    if published < 0 {
        return 0;
    }
    published.unsigned_abs().min(GREATEST_WEIGHT)
}

/// Returns the weights of the zones, given what is published of each cell.
pub(crate) fn zone_weights(published: &[i64; CELLS as usize]) -> [u64; ZONES as usize]
    ensures value { result ≡ map (λ zone. weight (slice_index_or published.now (FIRST_ZONE + zone) (pos 0))) all_zones }
    ensures small { All (λ w. w ≤ GREATEST_WEIGHT) result }
{
    let mut weights = [0; ZONES as usize];
    for zone in 0..ZONES {
        let cell = FIRST_ZONE + zone;
        weights[usize::from(zone)] = weight_of(published[usize::from(cell)]);
    }
    weights
}
