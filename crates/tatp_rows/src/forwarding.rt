//! The rows of the table Call_Forwarding.
ghost use Rattle.std.specs.Prelude.{◌≡◌, IsTrue};
ghost use Rattle.tatp_rows.specs.Rows.{CallForwardingRow, forwarding_in_range, forwarding_of};
ghost use Rattle.tatp_rows.specs.Keys.{forwarding_key};

use crate::keys::row_key;
use crate::number::Number;
use crate::ranges::{LAST_SUBSCRIBER, byte_in_range, in_range, is_start_time};
use crate::refusal::Refusal;
use std::marker::Model;

/// A row of the table Call_Forwarding (TATP, section 2.4).
#[derive(Clone, Copy, Debug, PartialEq, Eq)]
pub struct Forwarding {
    s_id: u32,
    sf_type: u8,
    start_time: u8,
    end_time: u8,
    numberx: Number,
}

impl Model for Forwarding {
    ghost Value = { CallForwardingRow };

    ghost view = { λ f. record {
      s_id = f.s_id;
      sf_type = f.sf_type;
      start_time = f.start_time;
      end_time = f.end_time;
      numberx = f.numberx;
    } };

    ghost invariant = { λ f. IsTrue (forwarding_in_range (record {
      s_id = f.s_id;
      sf_type = f.sf_type;
      start_time = f.start_time;
      end_time = f.end_time;
      numberx = f.numberx;
    })) };

    ghost inverse = { λ f. record {
      s_id = f.s_id;
      sf_type = f.sf_type;
      start_time = f.start_time;
      end_time = f.end_time;
      numberx = f.numberx;
    } };
}

impl Default for Forwarding {
    ghost is_default = { λ row. row ≡ record {
      s_id = 1;
      sf_type = 1;
      start_time = 0;
      end_time = 1;
      numberx = 0;
    } };

    /// Makes the row for unused places, with the least value of each field.
    fn default() -> Self {
        Forwarding {
            s_id: 1,
            sf_type: 1,
            start_time: 0,
            end_time: 1,
            numberx: Number::default(),
        }
    }
}

impl Forwarding {
    /// Makes the row with these fields, in TATP's order. It returns `Field` if one is out of its range: s_id
    /// 1..=16,777,216, sf_type 1..=4, start_time 0, 8 or 16, end_time 1..=24. The end may lie before the start.
    pub fn try_new(
        s_id: u64,
        sf_type: u64,
        start_time: u64,
        end_time: u64,
        numberx: Number,
    ) -> Result<Self, Refusal>
        ensures { result ≡ forwarding_of (record {
          s_id = s_id;
          sf_type = sf_type;
          start_time = start_time;
          end_time = end_time;
          numberx = numberx;
        }) }
    {
        let s_id = in_range(s_id, LAST_SUBSCRIBER)?;
        let sf_type = byte_in_range(sf_type, 4)?;
        if !is_start_time(start_time) {
            return Err(Refusal::Field);
        }
        let end_time = byte_in_range(end_time, 24)?;
        // For the prover: a number is in range, as its reader says.
        let _number = numberx.value();
        Ok(Forwarding {
            s_id,
            sf_type,
            start_time: start_time as u8,
            end_time,
            numberx,
        })
    }

    /// Returns the row's key.
    pub fn key(&self) -> u64
        ensures key { result ≡ forwarding_key self.now }
        ensures in_range { IsTrue (forwarding_in_range self.now) }
    {
        row_key(self.s_id, self.sf_type, self.start_time)
    }

    /// Returns the subscriber, 1..=16,777,216.
    pub fn s_id(&self) -> u32
        ensures value { result ≡ self.now.s_id }
        ensures in_range { IsTrue (forwarding_in_range self.now) }
    {
        self.s_id
    }

    /// Returns the type of the facility, 1..=4.
    pub fn sf_type(&self) -> u8
        ensures { result ≡ self.now.sf_type }
    {
        self.sf_type
    }

    /// Returns the hour from which calls are forwarded: 0, 8 or 16.
    pub fn start_time(&self) -> u8
        ensures { result ≡ self.now.start_time }
    {
        self.start_time
    }

    /// Returns the hour at which the forwarding ends, 1..=24.
    pub fn end_time(&self) -> u8
        ensures { result ≡ self.now.end_time }
    {
        self.end_time
    }

    /// Returns the number to which calls are forwarded.
    pub fn numberx(&self) -> Number
        ensures { result ≡ self.now.numberx }
    {
        self.numberx
    }
}
