//! Letters: short texts of capital letters.
ghost use Rattle.std.specs.Prelude.{◌≡◌, List, ℕ, Some, replicate};
ghost use Rattle.tatp_rows.specs.Letters.{AreLetters, letters_in};

use crate::ranges::all_between;
use crate::refusal::Refusal;
use std::marker::Model;
use std::{fmt, str};

/// `N` capital letters A to Z (TATP's data3, data4 and data_b, sections 2.2 and 2.3).
/// Its `Display` writes them.
#[derive(Clone, Copy, Debug, PartialEq, Eq)]
pub struct Letters<const N: usize> {
    bytes: [u8; N],
}

impl<const N: usize> Model for Letters<N> {
    ghost Value = { List ℕ };

    ghost view = { λ letters. letters.bytes };

    ghost invariant = { λ letters. AreLetters N letters.bytes };

    ghost inverse = { λ bytes. record { bytes = bytes } };
}

impl<const N: usize> Default for Letters<N> {
    ghost is_default = { λ letters. letters ≡ replicate N 65 };

    /// Makes the least letters: `N` times A.
    fn default() -> Self {
        Letters { bytes: [b'A'; N] }
    }
}

impl<const N: usize> Letters<N> {
    /// Makes the letters with these bytes. It returns `Field` if one of them isn't in A to Z.
    pub fn try_new(bytes: [u8; N]) -> Result<Self, Refusal>
        ensures { result ≡ letters_in N bytes.entry }
    {
        if !all_between(&bytes, b'A', b'Z') {
            return Err(Refusal::Field);
        }
        Ok(Letters { bytes })
    }

    /// Reads exactly `N` ASCII letters A to Z. It returns `Field` if the text is anything else.
    pub fn from_bytes(text: &[u8]) -> Result<Self, Refusal>
        ensures { result ≡ letters_in N text.now }
    {
        let Ok(bytes) = <[u8; N]>::try_from(text) else {
            return Err(Refusal::Field);
        };
        Letters::try_new(bytes)
    }

    /// Returns the letters, each 65..=90.
    pub fn bytes(&self) -> [u8; N]
        ensures value { result ≡ self.now }
        ensures in_range { AreLetters N result }
    {
        self.bytes
    }
}

impl<const N: usize> fmt::Display for Letters<N> {
    ghost output = { λ letters. Some letters };

    fn fmt<W: fmt::Write>(&self, f: &mut fmt::Formatter<W>) -> fmt::Result {
        let Ok(text) = str::from_utf8(&self.bytes) else {
            unreachable!();
        };
        f.write_str(text)
    }
}
