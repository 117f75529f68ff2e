//! The knowledge of a desk, the rule that the words and all desks keep, and the steps.
ghost use Rattle.std.specs.Prelude.{ℕ};
ghost use Rattle.view_board.specs.Views.{alone, without, both, nobody};
ghost use Rattle.view_board.specs.Rule.{IsRaiseStep, IsLookStep, IsCheckStep};

use crate::words::WORDS;
use atomic_table::{Join, Play, Split, TableRule};
use std::marker::{Brand, PhantomData};

/// The knowledge of a desk: for each slot, whether it is its own; for each word, its number and what was seen of it; in
/// how many steps it raised words; and that no slot came to it twice. It is used in proofs alone, where its arrays are
/// lists of any length and its number of steps has no bound.
pub struct View {
    pub owned: [bool; 0],
    pub numbers: [u64; 0],
    pub seen: [u64; 0],
    pub raises: u64,
    pub was_apart: bool,
}

/// The rule: each word of an owned slot equals the number that its desk keeps.
pub(crate) struct OwnWords;

impl TableRule<(), View, [u64; WORDS]> for OwnWords {
    ghost use Rattle.view_board.specs.Views.{first_view};
    ghost use Rattle.view_board.specs.Rule.{IsRuled};

    ghost holds = { λ _. IsRuled };

    ghost first = { first_view };
}

/// The step that raises one of the desk's own words.
pub(crate) struct Raises;

impl Play<(), View> for Raises {
    ghost then = { IsRaiseStep };
}

/// The step that looks at any word.
pub(crate) struct Looks;

impl Play<(), View> for Looks {
    ghost then = { IsLookStep };
}

/// The look that leaves what was seen as it is, and proves what the rule says of the desk.
pub(crate) struct Checks;

impl Play<(), View> for Checks {
    ghost then = { IsCheckStep };
}

/// The choice of the slot that is split off, which each call makes.
pub(crate) trait SlotChoice {
    ghost slot: { ℕ };
}

impl SlotChoice for Brand {
    ghost slot = { 0 };
}

/// The step that splits one slot off.
pub(crate) struct Cut<B: SlotChoice>(PhantomData<B>);

impl<B: SlotChoice> Split<View> for Cut<B> {
    ghost left = { λ v. without v B.slot };

    ghost right = { λ v. alone v B.slot };
}

/// The step that makes one desk of two.
pub(crate) struct Together;

impl Join<View> for Together {
    ghost both = { both };

    ghost spent = { nobody };
}
