//! The changes of one field of a row, made where the row lies.
ghost use Rattle.std.specs.Prelude.{◌≡◌, ◌≤◌, ◌==◌, slice_set, if◌then◌else◌};

use mr_node::Revise;
use std::marker::Model;
use tatp_rows::{Facility, Number, Subscriber};

/// Exchanges a subscriber's location for another one, and keeps the old one.
#[derive(Drop)]
pub(crate) struct SwapLocation {
    vlr_location: u32,
}

impl Model for SwapLocation {
    ghost use Rattle.std.specs.Prelude.{ℕ, ◌≤◌};

    ghost Value = { ℕ };

    ghost view = { λ swap. swap.vlr_location };

    ghost invariant = { λ swap. 1 ≤ swap.vlr_location };
}

impl SwapLocation {
    /// Makes the swap that brings a location, which must be at least 1.
    pub(crate) fn to(vlr_location: u32) -> Self
        requires { 1 ≤ vlr_location }
        ensures { result ≡ vlr_location }
    {
        SwapLocation { vlr_location }
    }

    /// Returns the location that the swap has.
    pub(crate) fn location(&self) -> u32
        ensures { result ≡ self.now }
    {
        self.vlr_location
    }
}

impl Revise<Subscriber> for SwapLocation {
    ghost revised = { λ location row. record row { vlr_location = location } };

    ghost spent = { λ location row. row.vlr_location };

    fn revise(&mut self, row: &mut Subscriber) {
        // For the prover: a row is in range, as its reader says.
        let _s_id = row.s_id();
        let old = row.vlr_location();
        *row = row.with_vlr_location(self.vlr_location);
        self.vlr_location = old;
    }
}

/// Sets a subscriber's number.
#[derive(Drop)]
pub(crate) struct SetSubNbr {
    pub(crate) sub_nbr: Number,
}

impl Revise<Subscriber> for SetSubNbr {
    ghost revised = { λ set row. record row { sub_nbr = set.sub_nbr } };

    ghost spent = { λ set row. set };

    fn revise(&mut self, row: &mut Subscriber) {
        *row = row.with_sub_nbr(self.sub_nbr);
    }
}

/// Sets a subscriber's bit_1.
#[derive(Drop)]
pub(crate) struct SetBit1 {
    bit_1: u8,
}

impl Model for SetBit1 {
    ghost use Rattle.std.specs.Prelude.{ℕ, ◌≤◌};

    ghost Value = { ℕ };

    ghost view = { λ set. set.bit_1 };

    ghost invariant = { λ set. set.bit_1 ≤ 1 };
}

impl SetBit1 {
    /// Makes the change to a bit, 0 or 1.
    pub(crate) fn to(bit_1: u8) -> Self
        requires { bit_1 ≤ 1 }
        ensures { result ≡ bit_1 }
    {
        SetBit1 { bit_1 }
    }
}

impl Revise<Subscriber> for SetBit1 {
    ghost revised = { λ bit row. record row { bits = slice_set row.bits 0 bit } };

    ghost spent = { λ bit row. bit };

    fn revise(&mut self, row: &mut Subscriber) {
        *row = row.with_bit_1(self.bit_1);
    }
}

/// Sets a facility's data_a.
#[derive(Drop)]
pub(crate) struct SetDataA {
    pub(crate) data_a: u8,
}

impl Revise<Facility> for SetDataA {
    ghost revised = { λ set row. record row { data_a = set.data_a } };

    ghost spent = { λ set row. set };

    fn revise(&mut self, row: &mut Facility) {
        *row = row.with_data_a(self.data_a);
    }
}

/// Switches a facility on or off, and keeps whether it was active.
#[derive(Drop)]
pub(crate) struct SwapActive {
    pub(crate) is_active: bool,
}

impl Revise<Facility> for SwapActive {
    ghost revised = { λ swap row. record row { is_active = if swap.is_active then 1 else 0 } };

    ghost spent = { λ swap row. record { is_active = row.is_active == 1 } };

    fn revise(&mut self, row: &mut Facility) {
        let old = row.is_active();
        *row = row.with_is_active(self.is_active);
        self.is_active = old;
    }
}
