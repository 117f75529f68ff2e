//! The numbers of blank nodes that a slice and a meld need.
ghost use Rattle.std.specs.Prelude.{◌≡◌, ◌<◌, ◌≤◌, MatchResult};
ghost use Rattle.mr_cut.specs.Bounds.{blanks_for_slice, most_of_slice, blanks_for_meld, most_of_meld};

use mr_node::Stock;
use std::alloc::Global;
use tatp_rows::Refusal;

/// Counts the blank nodes that a slice of a tree of this height, below 16, needs. This is `(height + 2)^2 + 1`, and not
/// more than the steps that the slice may take.
pub fn need_slice(height: u64) -> usize
    requires { height < 16 }
    ensures number { result ≡ blanks_for_slice height }
    ensures within { result ≤ most_of_slice height }
{
    let levels = height as usize + 2;
    levels * levels + 1
}

/// Counts the blank nodes that a meld of trees of these heights, below 16, needs. This is three more than the
/// difference of the heights, and not more than the steps that the meld may take.
pub fn need_meld(low: u64, high: u64) -> usize
    requires low { low < 16 }
    requires high { high < 16 }
    ensures number { result ≡ blanks_for_meld low high }
    ensures within { result ≤ most_of_meld low high }
{
    low.abs_diff(high) as usize + 3
}

/// Takes the blank nodes for a slice of a tree of this height (`need_slice`). It returns `Memory` if the system refuses
/// memory for them.
pub fn stock_for_slice<V: Drop + Default>(alloc: Global, height: u64) -> Result<Stock<V>, Refusal>
    requires { height < 16 }
    ensures { MatchResult result (λ stock. stock ≡ blanks_for_slice height) (λ why. why ≡ Refusal.Memory) }
{
    Stock::take(alloc, need_slice(height))
}

/// Takes the blank nodes for a meld of trees of these heights (`need_meld`). It returns `Memory` if the system refuses
/// memory for them.
pub fn stock_for_meld<V: Drop + Default>(
    alloc: Global,
    low: u64,
    high: u64,
) -> Result<Stock<V>, Refusal>
    requires low { low < 16 }
    requires high { high < 16 }
    ensures { MatchResult result (λ stock. stock ≡ blanks_for_meld low high) (λ why. why ≡ Refusal.Memory) }
{
    Stock::take(alloc, need_meld(low, high))
}
