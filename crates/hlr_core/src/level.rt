//! The test whether words are level, which means that each plus-word of a slot equals its minus-word.
ghost use Rattle.std.specs.Prelude.{◌<◌, ◌↔◌, IsTrue};
ghost use Rattle.hlr_owners.specs.Desks.{AreLevel, IsLevel};
ghost use Rattle.view_board.specs.declared.words.TheConstants.{SLOTS};

use view_board::{CELLS, SLOT_WORDS, SLOTS, WORDS};

/// Returns whether the words of each slot are level.
pub(crate) fn are_level(words: &[u64; WORDS]) -> bool
    ensures { IsTrue result ↔ AreLevel words.now }
{
    for slot in 0..SLOTS {
        if !is_level(words, slot) {
            return false;
        }
    }
    true
}

/// Returns whether the plus-words of a slot are its minus-words.
fn is_level(words: &[u64; WORDS], slot: u8) -> bool
    requires { slot < SLOTS }
    ensures { IsTrue result ↔ IsLevel words.now slot }
{
    for cell in 0..CELLS {
        let plus = usize::from(slot) * SLOT_WORDS + usize::from(cell);
        if words[plus] != words[plus + usize::from(CELLS)] {
            return false;
        }
    }
    true
}
