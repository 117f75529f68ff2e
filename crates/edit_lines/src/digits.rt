//! Numbers as digits of seven bits, and lists of small numbers as one number.
ghost use Rattle.std.specs.Prelude.{◌≡◌, ◌≤◌, ◌<◌, ◌+◌, ◌^◌, ◌++◌, length, take, drop, slice_index, nat_le};
ghost use Rattle.std.specs.List.{EachIndex, list_all};
ghost use Rattle.arrayvec.specs.ArrayVec.{array_vec_len};
ghost use Rattle.tatp_rows.specs.Packed.{packed, unpacked};
ghost use Rattle.edit_lines.specs.Lines.{digits};
ghost use Rattle.edit_lines.specs.Reading.{checked, number_of};

use crate::error::LineError;
use arrayvec::ArrayVec;

/// The length of the longest line with its line feed, which is that of `AddSubscriber`.
pub const LONGEST: usize = 44;

/// A line that is being written.
pub type Line = ArrayVec<u8, LONGEST>;

/// Appends a number in a count of digits, the lowest first.
#[inline(always)]
pub fn put(line: &mut Line, count: usize, number: u64)
    requires { array_vec_len line.old + count ≤ 44 }
    ensures items { line.new.items ≡ line.old.items ++ digits count number }
    ensures len { array_vec_len line.new ≡ array_vec_len line.old + count }
{
    let mut rest = number;
    for _ in 0..count {
        line.push(128 + (rest % 128) as u8);
        rest /= 128;
    }
}

/// Returns whether each byte is a digit.
#[inline(always)]
fn are_digits(bytes: &[u8]) -> bool
    ensures { result ≡ list_all (nat_le 128) bytes.now }
{
    bytes.iter().all(|byte| *byte >= 128)
}

/// Checks that the bytes behind the letter of a line are as many as `count` says, and that each of them is a digit. Its
/// errors, in order, are `Length` and `Digit`.
#[inline(always)]
pub fn check(digits: &[u8], count: usize) -> Result<(), LineError>
    ensures { result ≡ checked count digits.now }
{
    if digits.len() != count {
        return Err(LineError::Length);
    }
    if !are_digits(digits) {
        return Err(LineError::Digit);
    }
    Ok(())
}

/// Returns the number that digits stand for.
#[inline(always)]
fn number(digits: &[u8]) -> u64
    requires { length digits.now ≤ 8 }
    ensures { result ≡ number_of digits.now }
{
    let mut number = 0u64;
    for i in (0..digits.len()).rev() {
        number = number * 128 + u64::from(digits[i] % 128);
    }
    number
}

/// Returns the number that the first `count` digits stand for, and the digits behind them.
#[inline(always)]
pub fn number_at(digits: &[u8], count: usize) -> (u64, &[u8])
    requires within { count ≤ length digits.now }
    requires few { count ≤ 8 }
    ensures number { result.0 ≡ number_of (take count digits.now) }
    ensures rest { result.1.now ≡ drop count digits.now }
    ensures len { length result.1.now + count ≡ length digits.now }
{
    let (field, rest) = digits.split_at(count);
    (number(field), rest)
}

/// Packs a list of numbers below a base into one number, with the first as the lowest digit.
#[inline(always)]
pub fn pack(list: &[u8], base: u64) -> u64
    requires base { (2 ≤ base) × (base ≤ 256) }
    requires room { base ^ length list.now ≤ 2 ^ 56 }
    requires list { EachIndex list.now (λ k. slice_index list.now k < base) }
    ensures { result ≡ packed base list.now }
{
    let mut value = 0u64;
    for i in (0..list.len()).rev() {
        value = value * base + u64::from(list[i]);
    }
    value
}

/// Packs up to five bytes into one number.
#[inline(always)]
pub fn pack_bytes(bytes: &[u8]) -> u64
    requires { length bytes.now ≤ 5 }
    ensures { result ≡ packed 256 bytes.now }
{
    pack(bytes, 256)
}

/// Returns the `N` numbers below a base that are packed in one number.
#[inline(always)]
pub fn unpack<const N: usize>(value: u64, base: u64) -> [u8; N]
    requires { (2 ≤ base) × (base ≤ 256) }
    ensures { result ≡ unpacked base N value }
{
    let mut list = [0u8; N];
    let mut rest = value;
    for i in 0..N {
        list[i] = (rest % base) as u8;
        rest /= base;
    }
    list
}

/// Joins five bytes and five bytes.
#[inline(always)]
pub fn join(low: &[u8; 5], high: &[u8; 5]) -> [u8; 10]
    ensures { result ≡ low.now ++ high.now }
{
    [
        low[0], low[1], low[2], low[3], low[4], high[0], high[1], high[2], high[3], high[4],
    ]
}
