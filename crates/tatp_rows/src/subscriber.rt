//! The rows of the table Subscriber.
ghost use Rattle.std.specs.Prelude.{◌≡◌, ◌≤◌, ◌<◌, ◌^◌, IsTrue, replicate, slice_index, slice_set};
ghost use Rattle.std.specs.List.{EachIndex};
ghost use Rattle.tatp_rows.specs.Packed.{packed, unpacked};
ghost use Rattle.tatp_rows.specs.Rows.{SubscriberRow, subscriber_in_range, subscriber_of};
ghost use Rattle.tatp_rows.specs.Keys.{subscriber_key};

use crate::keys;
use crate::number::Number;
use crate::ranges::{LAST_SUBSCRIBER, all_between, in_range};
use crate::refusal::Refusal;
use std::marker::Model;

/// A row of the table Subscriber (TATP, section 2.1).
#[derive(Clone, Copy, Debug, PartialEq, Eq)]
pub struct Subscriber {
    sub_nbr: Number,
    // The hexadecimal digits, with hex_1 in the lowest four bits.
    hexes: u64,
    s_id: u32,
    msc_location: u32,
    vlr_location: u32,
    // The bits, with bit_1 as the lowest one.
    bits: u16,
    bytes: [u8; 10],
}

impl Model for Subscriber {
    ghost use Rattle.std.specs.Prelude.{◌<◌, ◌^◌, IsTrue};
    ghost use Rattle.std.proofs.Common.{arith};
    ghost use Rattle.tatp_rows.specs.Packed.{packed, packed_back, unpacked};
    ghost use Rattle.tatp_rows.specs.Rows.{SubscriberRow, subscriber_in_range};

    ghost Value = { SubscriberRow };

    ghost view = { λ s. record {
      s_id = s.s_id;
      sub_nbr = s.sub_nbr;
      bits = unpacked 2 10 s.bits;
      hexes = unpacked 16 10 s.hexes;
      bytes = s.bytes;
      msc_location = s.msc_location;
      vlr_location = s.vlr_location;
    } };

    ghost invariant = { λ s. (s.bits < 2 ^ 10) × (s.hexes < 16 ^ 10) × IsTrue (subscriber_in_range (record {
      s_id = s.s_id;
      sub_nbr = s.sub_nbr;
      bits = unpacked 2 10 s.bits;
      hexes = unpacked 16 10 s.hexes;
      bytes = s.bytes;
      msc_location = s.msc_location;
      vlr_location = s.vlr_location;
    })) };

    ghost inverse = { λ s. record {
      sub_nbr = s.sub_nbr;
      hexes = packed 16 s.hexes;
      s_id = s.s_id;
      msc_location = s.msc_location;
      vlr_location = s.vlr_location;
      bits = packed 2 s.bits;
      bytes = s.bytes;
    } };

    ghost inverse_ok = { λ a h i. record {
      sub_nbr = a.sub_nbr;
      hexes = packed_back 16 10 a.hexes (omega arith) h.1 i;
      s_id = a.s_id;
      msc_location = a.msc_location;
      vlr_location = a.vlr_location;
      bits = packed_back 2 10 a.bits (omega arith) h.0 i;
      bytes = a.bytes;
    } };
}

/// Packs ten digits to a base into one number, with the first digit as the lowest.
#[inline(always)]
fn pack(digits: &[u8; 10], base: u64) -> u64
    requires base { (2 ≤ base) × (base ≤ 16) }
    requires digits { EachIndex digits.now (λ k. slice_index digits.now k < base) }
    ensures value { result ≡ packed base digits.now }
    ensures below { result < base ^ 10 }
{
    let mut value = 0u64;
    for i in 0..10 {
        value = value * base + u64::from(digits[9 - i]);
    }
    value
}

/// Returns the ten digits to a base that are packed in a number.
#[inline(always)]
fn unpack(value: u64, base: u64) -> [u8; 10]
    requires { (2 ≤ base) × (base ≤ 16) }
    ensures { result ≡ unpacked base 10 value }
{
    let mut digits = [0u8; 10];
    let mut rest = value;
    for i in 0..10 {
        digits[i] = (rest % base) as u8;
        rest /= base;
    }
    digits
}

impl Default for Subscriber {
    ghost is_default = { λ row. row ≡ record {
      s_id = 1;
      sub_nbr = 0;
      bits = replicate 10 0;
      hexes = replicate 10 0;
      bytes = replicate 10 0;
      msc_location = 1;
      vlr_location = 1;
    } };

    /// Makes the row for unused places, with the least value of each field.
    fn default() -> Self {
        Subscriber {
            sub_nbr: Number::default(),
            hexes: 0,
            s_id: 1,
            msc_location: 1,
            vlr_location: 1,
            bits: 0,
            bytes: [0; 10],
        }
    }
}

impl Subscriber {
    /// Makes the row with these fields, in TATP's order. It returns `Field` if one is out of its range: s_id
    /// 1..=16,777,216, bits 0..=1, hexes 0..=15, both locations 1..=4,294,967,295.
    pub fn try_new(
        s_id: u64,
        sub_nbr: Number,
        bits: [u8; 10],
        hexes: [u8; 10],
        bytes: [u8; 10],
        msc_location: u64,
        vlr_location: u64,
    ) -> Result<Self, Refusal>
        ensures { result ≡ subscriber_of (record {
          s_id = s_id;
          sub_nbr = sub_nbr;
          bits = bits;
          hexes = hexes;
          bytes = bytes;
          msc_location = msc_location;
          vlr_location = vlr_location;
        }) }
    {
        let s_id = in_range(s_id, LAST_SUBSCRIBER)?;
        // For the prover: a number is in range, as its reader says.
        let _number = sub_nbr.value();
        if !all_between(&bits, 0, 1)
            || !all_between(&hexes, 0, 15)
            || !all_between(&bytes, 0, 255)
        {
            return Err(Refusal::Field);
        }
        let msc_location = in_range(msc_location, 4_294_967_295)?;
        let vlr_location = in_range(vlr_location, 4_294_967_295)?;
        Ok(Subscriber {
            sub_nbr,
            hexes: pack(&hexes, 16),
            s_id,
            msc_location,
            vlr_location,
            bits: pack(&bits, 2) as u16,
            bytes,
        })
    }

    /// Returns the row with another location.
    pub fn with_vlr_location(self, vlr_location: u32) -> Self
        requires { 1 ≤ vlr_location }
        ensures { result ≡ record self { vlr_location = vlr_location } }
    {
        Subscriber {
            vlr_location,
            ..self
        }
    }

    /// Returns the row with another bit_1, 0 or 1.
    pub fn with_bit_1(self, bit_1: u8) -> Self
        requires { bit_1 ≤ 1 }
        ensures { result ≡ record self { bits = slice_set self.bits 0 bit_1 } }
    {
        let bits = self.bits - self.bits % 2 + u16::from(bit_1);
        Subscriber { bits, ..self }
    }

    /// Returns the row with another number.
    pub fn with_sub_nbr(self, sub_nbr: Number) -> Self
        ensures { result ≡ record self { sub_nbr = sub_nbr } }
    {
        // For the prover: a number is in range, as its reader says.
        let _number = sub_nbr.value();
        Subscriber { sub_nbr, ..self }
    }

    /// Returns the row's key.
    pub fn key(&self) -> u64
        ensures key { result ≡ subscriber_key self.now }
        ensures in_range { IsTrue (subscriber_in_range self.now) }
    {
        keys::subscriber_key(self.s_id)
    }

    /// Returns the subscriber, 1..=16,777,216.
    pub fn s_id(&self) -> u32
        ensures value { result ≡ self.now.s_id }
        ensures in_range { IsTrue (subscriber_in_range self.now) }
    {
        self.s_id
    }

    /// Returns the subscriber's number.
    pub fn sub_nbr(&self) -> Number
        ensures { result ≡ self.now.sub_nbr }
    {
        self.sub_nbr
    }

    /// Returns bit_1 to bit_10, each 0 or 1.
    pub fn bits(&self) -> [u8; 10]
        ensures { result ≡ self.now.bits }
    {
        unpack(u64::from(self.bits), 2)
    }

    /// Returns hex_1 to hex_10, each 0..=15.
    pub fn hexes(&self) -> [u8; 10]
        ensures { result ≡ self.now.hexes }
    {
        unpack(self.hexes, 16)
    }

    /// Returns byte2_1 to byte2_10.
    pub fn bytes(&self) -> [u8; 10]
        ensures { result ≡ self.now.bytes }
    {
        self.bytes
    }

    /// Returns the location of the mobile switching centre, at least 1.
    pub fn msc_location(&self) -> u32
        ensures { result ≡ self.now.msc_location }
    {
        self.msc_location
    }

    /// Returns the location of the visitor location register, at least 1.
    pub fn vlr_location(&self) -> u32
        ensures { result ≡ self.now.vlr_location }
    {
        self.vlr_location
    }
}
