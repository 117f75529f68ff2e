//! Numbers of subscribers: 15 decimal digits.
ghost use Rattle.std.specs.Prelude.{◌≡◌, ℕ, Some, true};
ghost use Rattle.std.specs.List.{list_all};
ghost use Rattle.std.specs.Char.{is_ascii_digit};
ghost use Rattle.std.specs.Str.Parse.{digits_value};
ghost use Rattle.tatp_rows.specs.Number.{IsNumber, number_of, number_in, number_text};

use crate::refusal::Refusal;
use std::fmt;
use std::marker::Model;
use std::simd::prelude::*;

/// A subscriber's number (TATP's sub_nbr and numberx, sections 2.1 and 2.4): 15 decimal digits.
/// Its `Display` writes all 15, with leading zeros, and its default is 15 zeros.
#[derive(Clone, Copy, Debug, Default, PartialEq, Eq, PartialOrd, Ord)]
pub struct Number {
    value: u64,
}

impl Model for Number {
    ghost Value = { ℕ };

    ghost view = { λ n. n.value };

    ghost invariant = { λ n. IsNumber n.value };

    ghost inverse = { λ n. record { value = n } };
}

/// Returns whether eight bytes are ASCII digits.
#[inline(always)]
fn are_digits(bytes: u8x8) -> bool
    ensures { result ≡ list_all is_ascii_digit bytes }
{
    (bytes - u8x8::splat(b'0'))
        .simd_ge(u8x8::splat(10))
        .to_bitmask()
        == 0
}

/// Returns the number that eight ASCII digits spell. The digits are joined within one word: by twos, then by fours, and
/// then all.
#[inline(always)]
fn eight_digits(text: [u8; 8]) -> u64
    requires { list_all is_ascii_digit text ≡ true }
    ensures { result ≡ digits_value 10 text }
{
    let ones = u64::from_le_bytes(text) - 0x3030_3030_3030_3030;
    let twos = (ones * 10 + (ones >> 8)) & 0x00ff_00ff_00ff_00ff;
    let fours = (twos * 100 + (twos >> 16)) & 0x0000_ffff_0000_ffff;
    (fours & 0xffff_ffff) * 10_000 + (fours >> 32)
}

impl Number {
    /// Makes the number of this value. It returns `Field` if it has more than 15 digits.
    pub fn try_new(value: u64) -> Result<Self, Refusal>
        ensures { result ≡ number_of value }
    {
        if value < 1_000_000_000_000_000 {
            Ok(Number { value })
        } else {
            Err(Refusal::Field)
        }
    }

    /// Reads exactly 15 ASCII digits. It returns `Field` if the text is anything else.
    pub fn from_digits(text: &[u8]) -> Result<Self, Refusal>
        ensures { result ≡ number_in text.now }
    {
        if text.len() != 15 {
            return Err(Refusal::Field);
        }
        let first = u8x8::from_slice(text);
        let last = u8x8::from_slice(&text[7..]);
        if !are_digits(first) || !are_digits(last) {
            return Err(Refusal::Field);
        }
        let mut last = last.to_array();
        last[0] = b'0';
        let value = eight_digits(first.to_array()) * 10_000_000 + eight_digits(last);
        Ok(Number { value })
    }

    /// Returns the number's value, below 10^15.
    pub fn value(self) -> u64
        ensures value { result ≡ self }
        ensures in_range { IsNumber result }
    {
        self.value
    }
}

impl fmt::Display for Number {
    ghost output = { λ n. Some (number_text n) };

    fn fmt<W: fmt::Write>(&self, f: &mut fmt::Formatter<W>) -> fmt::Result {
        let value = self.value;
        write!(f, "{value:015}")
    }
}
