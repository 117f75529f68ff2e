//! The guess of where a key is in a dense tree, whose keys are 2^`shift` apart and came in rising order. In other trees
//! the guess can be any number, so its user first has to look whether it is right.
ghost use Rattle.std.specs.Prelude.{◌≡◌, ℕ, ◌+◌, ◌*◌, ◌/◌, ◌^◌, ◌<◌, ◌≤◌};

use crate::rebalancing::GIVEN_TO;

/// The number of entries or children with which a node is left behind when rows come in rising order.
const FILLED: u64 = GIVEN_TO as u64;

/// For each height of a node, 2^40 divided by the number of rows below one of its children, rounded up.
static RATES: [u64; 8] = [
    0,
    (1 << 40) / FILLED + 1,
    (1 << 40) / (FILLED * FILLED) + 1,
    (1 << 40) / (FILLED * FILLED * FILLED) + 1,
    (1 << 40) / (FILLED * FILLED * FILLED * FILLED) + 1,
    (1 << 40) / (FILLED * FILLED * FILLED * FILLED * FILLED) + 1,
    (1 << 40) / (FILLED * FILLED * FILLED * FILLED * FILLED * FILLED) + 1,
    (1 << 40) / (FILLED * FILLED * FILLED * FILLED * FILLED * FILLED * FILLED) + 1,
];

/// Returns how many rows of a node are in front of a key, going by the node's least key.
#[inline(always)]
pub(crate) fn rows_before(key: u64, least: u64, shift: u32) -> u64
    ensures { shift < 64 → (n : ℕ) → key ≡ least + n * 2 ^ shift → result ≡ n }
{
    key.wrapping_sub(least).wrapping_shr(shift)
}

/// Returns the place of the child of a node that has the row behind so many others. Above height 3 it may be wrong by
/// one.
#[inline(always)]
pub(crate) fn child_behind(rows: u64, height: u64) -> usize
    ensures low { height ≡ 1 → rows < 29 ^ 2 → result ≡ rows / 29 }
    ensures middle { height ≡ 2 → rows < 29 ^ 3 → result ≡ rows / 29 ^ 2 }
    ensures high { height ≡ 3 → rows < 29 ^ 4 → result ≡ rows / 29 ^ 3 }
{
    (rows.wrapping_mul(RATES[(height % 8) as usize]) >> 40) as usize
}
