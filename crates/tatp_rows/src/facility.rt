//! The rows of the table Special_Facility.
ghost use Rattle.std.specs.Prelude.{◌≡◌, ◌==◌, IsTrue, replicate, if◌then◌else◌};
ghost use Rattle.tatp_rows.specs.Rows.{SpecialFacilityRow, facility_in_range, facility_of};
ghost use Rattle.tatp_rows.specs.Keys.{facility_key};

use crate::keys::row_key;
use crate::letters::Letters;
use crate::ranges::{LAST_SUBSCRIBER, byte_in_range, in_range};
use crate::refusal::Refusal;
use std::marker::Model;

/// A row of the table Special_Facility (TATP, section 2.3).
#[derive(Clone, Copy, Debug, PartialEq, Eq)]
pub struct Facility {
    s_id: u32,
    sf_type: u8,
    is_active: u8,
    error_cntrl: u8,
    data_a: u8,
    data_b: Letters<5>,
}

impl Model for Facility {
    ghost Value = { SpecialFacilityRow };

    ghost view = { λ f. record {
      s_id = f.s_id;
      sf_type = f.sf_type;
      is_active = f.is_active;
      error_cntrl = f.error_cntrl;
      data_a = f.data_a;
      data_b = f.data_b;
    } };

    ghost invariant = { λ f. IsTrue (facility_in_range (record {
      s_id = f.s_id;
      sf_type = f.sf_type;
      is_active = f.is_active;
      error_cntrl = f.error_cntrl;
      data_a = f.data_a;
      data_b = f.data_b;
    })) };

    ghost inverse = { λ f. record {
      s_id = f.s_id;
      sf_type = f.sf_type;
      is_active = f.is_active;
      error_cntrl = f.error_cntrl;
      data_a = f.data_a;
      data_b = f.data_b;
    } };
}

impl Default for Facility {
    ghost is_default = { λ row. row ≡ record {
      s_id = 1;
      sf_type = 1;
      is_active = 0;
      error_cntrl = 0;
      data_a = 0;
      data_b = replicate 5 65;
    } };

    /// Makes the row for unused places, with the least value of each field.
    fn default() -> Self {
        Facility {
            s_id: 1,
            sf_type: 1,
            is_active: 0,
            error_cntrl: 0,
            data_a: 0,
            data_b: Letters::default(),
        }
    }
}

impl Facility {
    /// Makes the row with these fields, in TATP's order. It returns `Field` if one is out of its range: s_id
    /// 1..=16,777,216, sf_type 1..=4, is_active 0..=1.
    pub fn try_new(
        s_id: u64,
        sf_type: u64,
        is_active: u64,
        error_cntrl: u8,
        data_a: u8,
        data_b: Letters<5>,
    ) -> Result<Self, Refusal>
        ensures { result ≡ facility_of (record {
          s_id = s_id;
          sf_type = sf_type;
          is_active = is_active;
          error_cntrl = error_cntrl;
          data_a = data_a;
          data_b = data_b;
        }) }
    {
        let s_id = in_range(s_id, LAST_SUBSCRIBER)?;
        let sf_type = byte_in_range(sf_type, 4)?;
        if is_active > 1 {
            return Err(Refusal::Field);
        }
        // For the prover: letters are in range, as their reader says.
        let _letters = data_b.bytes();
        Ok(Facility {
            s_id,
            sf_type,
            is_active: is_active as u8,
            error_cntrl,
            data_a,
            data_b,
        })
    }

    /// Returns the row with is_active set to 1 or 0.
    pub fn with_is_active(self, is_active: bool) -> Self
        ensures { result ≡ record self { is_active = if is_active then 1 else 0 } }
    {
        Facility {
            is_active: u8::from(is_active),
            ..self
        }
    }

    /// Returns the row with another data_a.
    pub fn with_data_a(self, data_a: u8) -> Self
        ensures { result ≡ record self { data_a = data_a } }
    {
        Facility { data_a, ..self }
    }

    /// Returns the row's key.
    pub fn key(&self) -> u64
        ensures key { result ≡ facility_key self.now }
        ensures in_range { IsTrue (facility_in_range self.now) }
    {
        row_key(self.s_id, self.sf_type, 0)
    }

    /// Returns the subscriber, 1..=16,777,216.
    pub fn s_id(&self) -> u32
        ensures value { result ≡ self.now.s_id }
        ensures in_range { IsTrue (facility_in_range self.now) }
    {
        self.s_id
    }

    /// Returns the type of the facility, 1..=4.
    pub fn sf_type(&self) -> u8
        ensures { result ≡ self.now.sf_type }
    {
        self.sf_type
    }

    /// Returns whether is_active is 1.
    pub fn is_active(&self) -> bool
        ensures { result ≡ (self.now.is_active == 1) }
    {
        self.is_active == 1
    }

    /// Returns error_cntrl, 0..=255.
    pub fn error_cntrl(&self) -> u8
        ensures { result ≡ self.now.error_cntrl }
    {
        self.error_cntrl
    }

    /// Returns data_a, 0..=255.
    pub fn data_a(&self) -> u8
        ensures { result ≡ self.now.data_a }
    {
        self.data_a
    }

    /// Returns data_b, five letters A to Z.
    pub fn data_b(&self) -> Letters<5>
        ensures { result ≡ self.now.data_b }
    {
        self.data_b
    }
}
