//! The rows of the table Access_Info.
ghost use Rattle.std.specs.Prelude.{◌≡◌, IsTrue, replicate};
ghost use Rattle.tatp_rows.specs.Rows.{AccessInfoRow, access_in_range, access_of};
ghost use Rattle.tatp_rows.specs.Keys.{access_key};

use crate::keys::row_key;
use crate::letters::Letters;
use crate::ranges::{LAST_SUBSCRIBER, byte_in_range, in_range};
use crate::refusal::Refusal;
use std::marker::Model;

/// A row of the table Access_Info (TATP, section 2.2).
#[derive(Clone, Copy, Debug, PartialEq, Eq)]
pub struct Access {
    s_id: u32,
    ai_type: u8,
    data1: u8,
    data2: u8,
    data3: Letters<3>,
    data4: Letters<5>,
}

impl Model for Access {
    ghost Value = { AccessInfoRow };

    ghost view = { λ a. record {
      s_id = a.s_id;
      ai_type = a.ai_type;
      data1 = a.data1;
      data2 = a.data2;
      data3 = a.data3;
      data4 = a.data4;
    } };

    ghost invariant = { λ a. IsTrue (access_in_range (record {
      s_id = a.s_id;
      ai_type = a.ai_type;
      data1 = a.data1;
      data2 = a.data2;
      data3 = a.data3;
      data4 = a.data4;
    })) };

    ghost inverse = { λ a. record {
      s_id = a.s_id;
      ai_type = a.ai_type;
      data1 = a.data1;
      data2 = a.data2;
      data3 = a.data3;
      data4 = a.data4;
    } };
}

impl Default for Access {
    ghost is_default = { λ row. row ≡ record {
      s_id = 1;
      ai_type = 1;
      data1 = 0;
      data2 = 0;
      data3 = replicate 3 65;
      data4 = replicate 5 65;
    } };

    /// Makes the row for unused places, with the least value of each field.
    fn default() -> Self {
        Access {
            s_id: 1,
            ai_type: 1,
            data1: 0,
            data2: 0,
            data3: Letters::default(),
            data4: Letters::default(),
        }
    }
}

impl Access {
    /// Makes the row with these fields, in TATP's order. It returns `Field` if one is out of its range: s_id
    /// 1..=16,777,216, ai_type 1..=4.
    pub fn try_new(
        s_id: u64,
        ai_type: u64,
        data1: u8,
        data2: u8,
        data3: Letters<3>,
        data4: Letters<5>,
    ) -> Result<Self, Refusal>
        ensures { result ≡ access_of (record {
          s_id = s_id;
          ai_type = ai_type;
          data1 = data1;
          data2 = data2;
          data3 = data3;
          data4 = data4;
        }) }
    {
        let s_id = in_range(s_id, LAST_SUBSCRIBER)?;
        let ai_type = byte_in_range(ai_type, 4)?;
        // For the prover: letters are in range, as their reader says.
        let _three = data3.bytes();
        let _five = data4.bytes();
        Ok(Access {
            s_id,
            ai_type,
            data1,
            data2,
            data3,
            data4,
        })
    }

    /// Returns the row's key.
    pub fn key(&self) -> u64
        ensures key { result ≡ access_key self.now }
        ensures in_range { IsTrue (access_in_range self.now) }
    {
        row_key(self.s_id, self.ai_type, 0)
    }

    /// Returns the subscriber, 1..=16,777,216.
    pub fn s_id(&self) -> u32
        ensures value { result ≡ self.now.s_id }
        ensures in_range { IsTrue (access_in_range self.now) }
    {
        self.s_id
    }

    /// Returns the type of the access, 1..=4.
    pub fn ai_type(&self) -> u8
        ensures { result ≡ self.now.ai_type }
    {
        self.ai_type
    }

    /// Returns data1, 0..=255.
    pub fn data1(&self) -> u8
        ensures { result ≡ self.now.data1 }
    {
        self.data1
    }

    /// Returns data2, 0..=255.
    pub fn data2(&self) -> u8
        ensures { result ≡ self.now.data2 }
    {
        self.data2
    }

    /// Returns data3, three letters A to Z.
    pub fn data3(&self) -> Letters<3>
        ensures { result ≡ self.now.data3 }
    {
        self.data3
    }

    /// Returns data4, five letters A to Z.
    pub fn data4(&self) -> Letters<5>
        ensures { result ≡ self.now.data4 }
    {
        self.data4
    }
}
