//! The greatest numbers of a store, and the checks of the fields' ranges.
ghost use Rattle.std.specs.Prelude.{◌≡◌};
ghost use Rattle.tatp_rows.specs.Rows.{between, is_between, are_between, is_start_time};

use crate::refusal::Refusal;

/// The last subscriber that there can be: each s_id is 1..=16,777,216.
pub const LAST_SUBSCRIBER: u32 = 16_777_216;

// Definitions name these constants, so their numbers are proved here.
const _: () = prove!(LAST_SUBSCRIBER == 16_777_216);

/// The greatest zone width, with which all 32 zones are equally wide.
pub const GREATEST_WIDTH: u32 = 524_288;

const _: () = prove!(GREATEST_WIDTH == 524_288);

/// Returns the value if it is in 1..=`high`, and `Field` otherwise.
pub fn in_range(value: u64, high: u32) -> Result<u32, Refusal>
    ensures { result ≡ between 1 high value }
{
    if value == 0 || value > u64::from(high) {
        return Err(Refusal::Field);
    }
    Ok(value as u32)
}

/// Returns the value as a byte if it is in 1..=`high`, and `Field` otherwise.
pub fn byte_in_range(value: u64, high: u8) -> Result<u8, Refusal>
    ensures { result ≡ between 1 high value }
{
    Ok(in_range(value, u32::from(high))? as u8)
}

/// Returns whether a value lies in `low`..=`high`.
pub fn is_between(value: u8, low: u8, high: u8) -> bool
    ensures { result ≡ is_between low high value }
{
    low <= value && value <= high
}

/// Returns whether a forwarding may start at an hour: at 0, 8 or 16.
pub fn is_start_time(hour: u64) -> bool
    ensures { result ≡ is_start_time hour }
{
    hour == 0 || hour == 8 || hour == 16
}

/// Returns whether each of the values lies in `low`..=`high`.
pub fn all_between<const N: usize>(values: &[u8; N], low: u8, high: u8) -> bool
    ensures { result ≡ are_between N low high values.now }
{
    values.iter().all(|value| is_between(*value, low, high))
}
