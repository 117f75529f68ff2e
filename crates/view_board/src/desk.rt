//! The desk: the right to raise the words of its slots, and what it knows of the board.
ghost use Rattle.std.specs.Prelude.{◌≡◌, ℕ, ◌+◌, ◌<◌, ◌≤◌, ◌↔◌, ◌^◌, List, Bool, true, false, IsTrue, IfSome, None, if◌then◌else◌, ℤ, pos, neg_ℤ, ◌+ℤ◌, ◌≤ℤ◌, slice_index, slice_index_or};
ghost use Rattle.view_board.specs.Views.{owned_at, Owns, IsLeastSlot, IsWide, slots_of_both, numbers_of_both};
ghost use Rattle.view_board.specs.Words.{plus_word, minus_word, slot_net};
ghost use Rattle.view_board.specs.Nets.{net_of, net_from};
ghost use Rattle.view_board.specs.Inside.{AreWithin, wanting};

use crate::rule::View;
use crate::words::{CELLS, LIMIT, SLOT_WORDS, SLOTS, WORDS};
use atomic_table::Seat;
use std::marker::Model;

/// A desk, which owns slots of one board, and has the numbers of their words. Contracts see it as its board and what it
/// knows.
#[derive(Drop)]
pub struct Desk {
    pub(crate) seat: Seat<(), View>,
    pub(crate) owned: [bool; SLOTS as usize],
    pub(crate) numbers: Box<[u64; WORDS]>,
}

impl Model for Desk {
    ghost use Rattle.view_board.specs.Desks.{DeskState, Agrees};

    ghost Value = { DeskState };

    ghost view = { λ d. record { board = d.seat.table_id; view = d.seat.me.0 } };

    ghost invariant = { λ d. Agrees d.seat.me d.owned d.numbers.value };
}

impl Desk {
    /// Returns whether the desk has this slot. No desk has the number behind the last slot.
    pub fn owns(&self, slot: u8) -> bool
        ensures { IsTrue result ↔ Owns self.now.view slot }
    {
        slot < SLOTS && self.owned[usize::from(slot)]
    }

    /// Returns the least slot of the desk, or `None` if it owns none.
    pub fn least_slot(&self) -> Option<u8>
        ensures least { IfSome result (λ slot. (slot < SLOTS) × IsLeastSlot self.now.view slot) }
        ensures none { result ≡ None → (slot : ℕ) → Owns self.now.view slot → ⊥ }
    {
        // Opens the desk for the prover: its rules are known as the walk begins.
        let _ = &self.owned;
        for slot in 0..SLOTS {
            if self.owns(slot) {
                return Some(slot);
            }
        }
        None
    }

    /// Returns what the desk has published of a cell below `CELLS`: the sum of the plus-words of its slots, less the
    /// sum of their minus-words.
    #[inline(always)]
    pub fn net(&self, cell: u8) -> i128
        requires { cell < CELLS }
        ensures value { result ≡ net_of self.now.view cell }
        ensures wide { IsWide self.now.view }
        ensures low { neg_ℤ (pos (2 ^ 68)) ≤ℤ result }
        ensures high { result ≤ℤ pos (2 ^ 68) }
    {
        net_over(&self.owned, &self.numbers, cell)
    }

    /// Returns what the desk has published of each cell, in one walk over its slots.
    pub fn nets(&self) -> [i128; CELLS as usize]
        ensures wide { IsWide self.now.view }
        ensures value { (c : ℕ) → c < CELLS → slice_index_or result c (pos 0) ≡ net_of self.now.view c }
    {
        // Opens the desk for the prover: its rules are known as the walk begins.
        let _ = &self.owned;
        let mut nets = [0; CELLS as usize];
        for slot in 0..SLOTS {
            self.add_nets(slot, &mut nets);
        }
        nets
    }

    /// Adds the net of one of the desk's slots in each cell to a sum. No net may pass 2^40, and no sum 2^60, up or
    /// down.
    #[inline(always)]
    pub fn add_slot_nets(&self, slot: u8, sums: &mut [i64; CELLS as usize])
        requires own { Owns self.now.view slot }
        requires small { (c : ℕ) → c < CELLS → (neg_ℤ (pos (2 ^ 40)) ≤ℤ slot_net self.now.view.numbers c slot) × (slot_net self.now.view.numbers c slot ≤ℤ pos (2 ^ 40)) }
        requires sums { (c : ℕ) → c < CELLS → (neg_ℤ (pos (2 ^ 60)) ≤ℤ slice_index_or sums.old c (pos 0)) × (slice_index_or sums.old c (pos 0) ≤ℤ pos (2 ^ 60)) }
        ensures { (c : ℕ) → c < CELLS → slice_index_or sums.new c (pos 0) ≡ slice_index_or sums.old c (pos 0) +ℤ slot_net self.now.view.numbers c slot }
    {
        add_small_nets(&self.numbers, slot, sums);
    }

    /// Adds the nets of a slot to a sum for each cell, if the slot is the desk's.
    #[inline(always)]
    fn add_nets(&self, slot: u8, sums: &mut [i128; CELLS as usize])
        requires slot { slot < SLOTS }
        requires sums { AreWithin slot sums.old }
        ensures added { (c : ℕ) → c < CELLS → slice_index_or sums.new c (pos 0) ≡
            slice_index_or sums.old c (pos 0) +ℤ (if owned_at self.now.view slot then slot_net self.now.view.numbers c slot else pos 0) }
        ensures sums { AreWithin (slot + 1) sums.new }
    {
        if self.owned[usize::from(slot)] {
            add_slot(&self.numbers, slot, sums);
        }
    }
}

/// Returns the sum of the nets in a cell of the slots whose flag is up.
#[inline(always)]
pub(crate) fn net_over(owned: &[bool; SLOTS as usize], numbers: &[u64; WORDS], cell: u8) -> i128
    requires { cell < CELLS }
    ensures value { result ≡ net_from owned.now 0 numbers.now cell }
    ensures low { neg_ℤ (pos (2 ^ 68)) ≤ℤ result }
    ensures high { result ≤ℤ pos (2 ^ 68) }
{
    let mut sum = 0;
    for slot in 0..SLOTS {
        sum += own_net(owned, numbers, slot, cell);
    }
    sum
}

/// Returns the net of a slot in a cell, or 0 if its flag isn't up.
#[inline(always)]
fn own_net(owned: &[bool; SLOTS as usize], numbers: &[u64; WORDS], slot: u8, cell: u8) -> i128
    requires slot { slot < SLOTS }
    requires cell { cell < CELLS }
    ensures value { result ≡ (if slice_index_or owned.now slot false then slot_net numbers.now cell slot else pos 0) }
    ensures low { neg_ℤ (pos (2 ^ 64)) ≤ℤ result }
    ensures high { result ≤ℤ pos (2 ^ 64) }
{
    if !owned[usize::from(slot)] {
        return 0;
    }
    net_in(numbers, slot, cell)
}

/// Returns the net of a slot in a cell.
#[inline(always)]
fn net_in(numbers: &[u64; WORDS], slot: u8, cell: u8) -> i128
    requires slot { slot < SLOTS }
    requires cell { cell < CELLS }
    ensures value { result ≡ slot_net numbers.now cell slot }
    ensures low { neg_ℤ (pos (2 ^ 64)) ≤ℤ result }
    ensures high { result ≤ℤ pos (2 ^ 64) }
{
    let plus = usize::from(slot) * SLOT_WORDS + usize::from(cell);
    let minus = plus + usize::from(CELLS);
    i128::from(numbers[plus]) - i128::from(numbers[minus])
}

/// Returns the amount by which the lower one of a cell's two words is less than the higher one.
pub(crate) fn wanting(numbers: &[u64; WORDS], slot: u8, cell: u8) -> i64
    requires slot { slot < SLOTS }
    requires cell { cell < CELLS }
    requires plus { slice_index numbers.now (plus_word slot cell) ≤ LIMIT }
    requires minus { slice_index numbers.now (minus_word slot cell) ≤ LIMIT }
    ensures { result ≡ wanting numbers.now slot cell }
{
    let plus = usize::from(slot) * SLOT_WORDS + usize::from(cell);
    let minus = plus + usize::from(CELLS);
    numbers[minus] as i64 - numbers[plus] as i64
}

/// Returns true only if no cell of a slot has a net, because all its words are 0. It looks at all of them, which is
/// faster than to stop at the first word that isn't 0.
#[inline(always)]
fn is_blank(numbers: &[u64; WORDS], slot: u8) -> bool
    requires { slot < SLOTS }
    ensures { result ≡ true → (c : ℕ) → c < CELLS → slot_net numbers.now c slot ≡ pos 0 }
{
    let start = usize::from(slot) * SLOT_WORDS;
    let mut bits = 0;
    for word in start..start + SLOT_WORDS {
        bits |= numbers[word];
    }
    bits == 0
}

/// Adds the nets of a slot to a sum for each cell, unless all its words are 0. It is not inlined, because the walk over
/// the slots, of which a desk has few, would become longer.
#[inline(never)]
fn add_slot(numbers: &[u64; WORDS], slot: u8, sums: &mut [i128; CELLS as usize])
    requires slot { slot < SLOTS }
    requires sums { AreWithin slot sums.old }
    ensures added { (c : ℕ) → c < CELLS → slice_index_or sums.new c (pos 0) ≡
        slice_index_or sums.old c (pos 0) +ℤ slot_net numbers.now c slot }
    ensures sums { AreWithin (slot + 1) sums.new }
{
    if is_blank(numbers, slot) {
        return;
    }
    for cell in 0..CELLS {
        sums[usize::from(cell)] += net_in(numbers, slot, cell);
    }
}

/// Adds the net of a slot in each cell to a sum, where all of these are small.
#[inline(always)]
fn add_small_nets(numbers: &[u64; WORDS], slot: u8, sums: &mut [i64; CELLS as usize])
    requires slot { slot < SLOTS }
    requires small { (c : ℕ) → c < CELLS → (neg_ℤ (pos (2 ^ 40)) ≤ℤ slot_net numbers.now c slot) × (slot_net numbers.now c slot ≤ℤ pos (2 ^ 40)) }
    requires sums { (c : ℕ) → c < CELLS → (neg_ℤ (pos (2 ^ 60)) ≤ℤ slice_index_or sums.old c (pos 0)) × (slice_index_or sums.old c (pos 0) ≤ℤ pos (2 ^ 60)) }
    ensures { (c : ℕ) → c < CELLS → slice_index_or sums.new c (pos 0) ≡ slice_index_or sums.old c (pos 0) +ℤ slot_net numbers.now c slot }
{
    for cell in 0..CELLS {
        sums[usize::from(cell)] += net_in(numbers, slot, cell) as i64;
    }
}

/// Adds the slots of another desk to those of this one.
pub(crate) fn take_slots(owned: &mut [bool; SLOTS as usize], others: &[bool; SLOTS as usize])
    ensures { owned.new ≡ slots_of_both owned.old others.now }
{
    for slot in 0..SLOTS as usize {
        owned[slot] = owned[slot] || others[slot];
    }
}

/// Takes over the numbers of the words that belong to another desk.
pub(crate) fn take_numbers(
    numbers: &mut [u64; WORDS],
    others: &[u64; WORDS],
    owned: &[bool; SLOTS as usize],
)
    ensures { numbers.new ≡ numbers_of_both numbers.old others.now owned.now }
{
    for word in 0..WORDS {
        if owned[word / SLOT_WORDS] {
            numbers[word] = others[word];
        }
    }
}
