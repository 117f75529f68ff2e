//! The bounds between parts, and the proposal of bounds.
ghost use Rattle.std.specs.Prelude.{◌≡◌, ◌+◌, ◌*◌, ◌<◌, ◌≤◌, true, length, sum, All};
ghost use Rattle.part_table.specs.Bounds.{are_rising};
ghost use Rattle.part_table.specs.Proposal.{proposal, share_zone};

use crate::region::MOST_PARTS;
use crate::regions::Regions;
use arrayvec::ArrayVec;
use std::marker::Model;
use tatp_rows::{GREATEST_WIDTH, LAST_SUBSCRIBER};

/// How many zones the s_ids are divided into.
const ZONES: u8 = 32;

/// The greatest weight of a zone, which is the number of all rows that there can be.
pub const GREATEST_WEIGHT: u64 = 352_321_536;

// Definitions name this constant, so its number is proved here: a subscriber has at most 21 rows.
const _: () = prove!(GREATEST_WEIGHT == 21 * 16_777_216);

/// At most 15 bounds between parts, which rise strictly in 2..=16,777,216, seen as their list.
#[derive(Debug, Drop)]
pub struct Bounds {
    list: ArrayVec<u64, 15>,
}

impl Model for Bounds {
    ghost use Rattle.std.specs.Prelude.{◌≡◌, ℕ, List, true};
    ghost use Rattle.part_table.specs.Bounds.{are_rising};

    ghost Value = { List ℕ };

    ghost view = { λ b. b.list.items };

    ghost invariant = { λ b. are_rising 1 b.list.items ≡ true };
}

impl Bounds {
    /// Returns the bounds in order, in the form in which a recut takes them.
    pub fn list(&self) -> &[u64]
        ensures value { result.now ≡ self.now }
        ensures rising { are_rising 1 result.now ≡ true }
        ensures few { length result.now < MOST_PARTS }
    {
        self.list.as_slice()
    }
}

/// Returns whether bounds rise strictly in 2..=16,777,216.
pub(crate) fn are_rising(bounds: &[u64]) -> bool
    ensures { result ≡ are_rising 1 bounds.now }
{
    let mut below = 1;
    for bound in bounds {
        if *bound <= below || *bound > u64::from(LAST_SUBSCRIBER) {
            return false;
        }
        below = *bound;
    }
    true
}

/// Returns the weight of all zones.
fn total(weights: &[u64; 32]) -> u64
    requires { sum weights.now ≤ 32 * GREATEST_WEIGHT }
    ensures { result ≡ sum weights.now }
{
    weights.iter().sum()
}

/// Returns the least zone, 0..=32, below which so many of the parts' equal shares of all weight lie.
fn share_zone(weights: &[u64; 32], parts: u8, shares: u8) -> u8
    requires weights { sum weights.now ≤ 32 * GREATEST_WEIGHT }
    requires parts { parts ≤ MOST_PARTS }
    requires shares { shares ≤ parts }
    ensures { result ≡ share_zone weights.now parts shares }
{
    let goal = u64::from(shares) * total(weights);
    let mut below = 0;
    for zone in 0..ZONES {
        if goal <= u64::from(parts) * below {
            return zone;
        }
        below += weights[usize::from(zone)];
    }
    ZONES
}

impl Regions {
    /// Proposes bounds by which each part would have about its share of the rows. A bound lies in front of the least
    /// zone below which the equal shares of all parts in front of it fit whole. No zone has two bounds, and each part
    /// has at least one zone. The weight of a zone must be at most 352,321,536, parts must be 1..=16, and the zone
    /// width 1..=524,288.
    pub fn propose(weights: &[u64; 32], parts: u8, width: u32) -> Bounds
        requires weights { All (λ w. w ≤ GREATEST_WEIGHT) weights.now }
        requires some_part { 1 ≤ parts }
        requires few_parts { parts ≤ MOST_PARTS }
        requires some_width { 1 ≤ width }
        requires small_width { width ≤ GREATEST_WIDTH }
        ensures value { result ≡ proposal weights.now parts width }
        ensures rising { are_rising 1 result ≡ true }
        ensures enough { length result + 1 ≡ parts }
    {
        let mut list = ArrayVec::new();
        let mut zone = 0;
        for i in 1..parts {
            let last = ZONES - parts + i;
            zone = last.min((zone + 1).max(share_zone(weights, parts, i)));
            list.push(1 + u64::from(zone) * u64::from(width));
        }
        Bounds { list }
    }
}
