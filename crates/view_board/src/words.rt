//! The words: how many there are, and which of them an amount raises.
ghost use Rattle.std.specs.Prelude.{◌≡◌, ◌<◌, slice_index};
ghost use Rattle.view_board.specs.Nets.{net_of};
ghost use Rattle.view_board.specs.Views.{first_view};
ghost use Rattle.view_board.specs.Words.{plus_word, minus_word, word_of};

use crate::desk::net_over;

/// How many slots the board has.
pub const SLOTS: u8 = 16;

/// How many cells a slot has words for.
pub const CELLS: u8 = 72;

/// How many words a slot has: a plus-word and a minus-word for each cell.
pub const SLOT_WORDS: usize = 2 * CELLS as usize;

/// How many words the board has.
pub const WORDS: usize = SLOTS as usize * SLOT_WORDS;

/// The greatest value of a word.
pub const LIMIT: u64 = 9_223_372_036_854_775_807;

// The definitions use these numbers: 16 slots of 72 cells, two words for each cell, and 2^63 - 1 as the greatest value.
const _: () = prove!(SLOTS == 16);

const _: () = prove!(CELLS == 72);

const _: () = prove!(SLOT_WORDS == 144);

const _: () = prove!(WORDS == 2_304);

const _: () = prove!(LIMIT == (1 << 63) - 1);

/// The words as a look found them, one after another. The plus-word of slot s and cell c is word `s * SLOT_WORDS + c`,
/// and its minus-word is `CELLS` places later. What is published of a cell is the sum of its plus-words less the sum of
/// its minus-words.
#[derive(Clone, Copy, Debug, PartialEq, Eq)]
pub struct Sight {
    pub words: [u64; WORDS],
}

impl Sight {
    /// Returns the plus-word and the minus-word of a slot below `SLOTS` and a cell below `CELLS`, which are how much
    /// was added to the cell there, and how much was taken off it.
    pub fn words_of(&self, slot: u8, cell: u8) -> (u64, u64)
        requires slot { slot < SLOTS }
        requires cell { cell < CELLS }
        ensures plus { result.0 ≡ slice_index self.now.words (plus_word slot cell) }
        ensures minus { result.1 ≡ slice_index self.now.words (minus_word slot cell) }
    {
        let plus = usize::from(slot) * SLOT_WORDS + usize::from(cell);
        let minus = plus + usize::from(CELLS);
        (self.words[plus], self.words[minus])
    }

    /// Returns what is published of a cell below `CELLS`, which is what a desk with all slots would have published,
    /// going by these words.
    pub fn published(&self, cell: u8) -> i128
        requires { cell < CELLS }
        ensures { result ≡ net_of (first_view self.now.words) cell }
    {
        net_over(&[true; SLOTS as usize], &self.words, cell)
    }
}

/// Returns the place of the word that an amount raises in a slot and cell: the plus-word, or the minus-word for a
/// negative amount.
pub(crate) fn word_of(slot: u8, cell: u8, amount: i64) -> usize
    requires slot { slot < SLOTS }
    requires cell { cell < CELLS }
    ensures { result ≡ word_of slot cell amount }
{
    let plus = usize::from(slot) * SLOT_WORDS + usize::from(cell);
    if amount < 0 {
        plus + usize::from(CELLS)
    } else {
        plus
    }
}
