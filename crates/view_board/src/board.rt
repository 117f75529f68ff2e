//! The board, and what desks do on it.
ghost use Rattle.std.specs.Prelude.{◌≡◌, ℕ, ◌<◌, ◌≤◌, ◌↔◌, ◌⊎◌, OnOk, OnErr, IfOk, IfErr, IsErr, IsTrue, true, slice_index, pos};
ghost use Rattle.view_board.specs.Words.{AreSmall, HasGreat, is_worn, plus_word, minus_word, slot_net};
ghost use Rattle.view_board.specs.Views.{Owns, OwnsAll, first_view, posted, taken_back, looked, IsRightSight, without, alone, both, AreApart};
ghost use Rattle.view_board.specs.Nets.{NetMoves, NetAdds};
ghost use Rattle.view_board.specs.Desks.{with_view};
ghost use Rattle.view_board.specs.Inside.{wanting};

use crate::desk::{Desk, take_numbers, take_slots, wanting};
use crate::rule::{Checks, Cut, Looks, OwnWords, Raises, SlotChoice, Together, View};
use crate::words::{CELLS, LIMIT, SLOTS, Sight, WORDS, word_of};
use atomic_table::Table;
use std::alloc::Global;
use std::marker::{Brand, Model};
use tatp_rows::Refusal;

/// The words, which threads share. Contracts see it only as which board it is.
#[derive(Drop)]
pub struct Board {
    table: Table<(), View, [u64; WORDS], OwnWords, Global>,
    alloc: Global,
}

impl Model for Board {
    ghost use Rattle.std.specs.Prelude.{◌≡◌};
    ghost use Rattle.atomic_table.specs.Seated.{TableId, table_id_coded};
    ghost use Rattle.view_board.specs.declared.words.TheConstants.{WORDS};

    ghost Value = { TableId };

    ghost coded = { table_id_coded };

    ghost view = { λ b. b.table.shared.table_id };

    ghost invariant = { λ b. (b.table.shared.table_id.words ≡ WORDS) × (b.table.shared.table_id.slots ≡ 0) };
}

impl Board {
    /// Opens a board of these words, and a desk that owns all of it. It returns `Field` if a word passes `LIMIT`, and
    /// otherwise `Memory` if the system refuses memory.
    pub fn open(alloc: Global, words: &[u64; WORDS]) -> Result<(Board, Desk), Refusal>
        ensures ok { IfOk result (λ opened. AreSmall words.now × (opened.1.board ≡ opened.0) × (opened.1.view ≡ first_view words.now)) }
        ensures err { IfErr result (λ why. ((why ≡ Refusal.Field) × HasGreat words.now) ⊎ ((why ≡ Refusal.Memory) × AreSmall words.now)) }
    {
        if words.iter().any(|word| *word > LIMIT) {
            return Err(Refusal::Field);
        }
        let Ok(numbers) = Box::new(alloc, *words) else {
            return Err(Refusal::Memory);
        };
        let Ok((table, seat)) = Table::of_words(alloc, words, words) else {
            return Err(Refusal::Memory);
        };
        let desk = Desk {
            seat,
            owned: [true; SLOTS as usize],
            numbers,
        };
        Ok((Board { table, alloc }, desk))
    }

    /// Raises a word of one of the desk's slots and a cell below `CELLS`: the plus-word by a positive amount, or the
    /// minus-word by the size of a negative one. It does so in one step, so that no look sees a part of the amount. An
    /// amount of 0 raises nothing, in no step. It returns `Worn` exactly if the word would pass `LIMIT`, which the
    /// least `i64` always does, and then nothing has changed.
    pub fn add(&self, desk: &mut Desk, slot: u8, cell: u8, amount: i64) -> Result<(), Refusal>
        requires board { desk.old.board ≡ self.now }
        requires own { Owns desk.old.view slot }
        requires cell { cell < CELLS }
        ensures ok { OnOk result (desk.new ≡ with_view desk.old (posted desk.old.view slot cell amount)) }
        ensures net { OnOk result (NetMoves desk.old.view desk.new.view cell amount) }
        ensures err { OnErr result ((desk.new ≡ desk.old) × (result ≡ Err Refusal.Worn)) }
        ensures worn { IsErr result ↔ IsTrue (is_worn desk.old.view.numbers slot cell amount) }
    {
        // Opens the desk for the prover: its rules are known as the step begins.
        let _ = &desk.owned;
        let word = word_of(slot, cell, amount);
        let size = amount.unsigned_abs();
        match desk.numbers[word].checked_add(size) {
            Some(sum) if sum <= LIMIT => {
                if amount == 0 {
                    return Ok(());
                }
                self.table
                    .shared
                    .fetch_add::<Raises>(&mut desk.seat, word, size);
                desk.numbers[word] = sum;
                Ok(())
            }
            _ => Err(Refusal::Worn),
        }
    }

    /// Takes back what one of the desk's slots has published: for each cell, the lower of the two words is raised to
    /// the higher one, in one step, and a cell whose words are equal takes none. Afterwards the slot has a net of 0 for
    /// each cell. No word can pass its limit this way.
    pub fn take_back(&self, desk: &mut Desk, slot: u8)
        requires board { desk.old.board ≡ self.now }
        requires own { Owns desk.old.view slot }
        ensures back { desk.new ≡ with_view desk.old (taken_back desk.old.view slot) }
        ensures level { (c : ℕ) → c < CELLS → slot_net desk.new.view.numbers c slot ≡ pos 0 }
    {
        // Opens the desk for the prover: its rules are known as the walk begins.
        let _ = &desk.owned;
        for cell in 0..CELLS {
            self.level(desk, slot, cell);
        }
    }

    /// Raises the lower of the two words of a cell to the higher one.
    fn level(&self, desk: &mut Desk, slot: u8, cell: u8)
        requires board { desk.old.board ≡ self.now }
        requires own { Owns desk.old.view slot }
        requires cell { cell < CELLS }
        ensures { desk.new ≡ with_view desk.old (posted desk.old.view slot cell (wanting desk.old.view.numbers slot cell)) }
    {
        let amount = wanting(&desk.numbers, slot, cell);
        let Ok(()) = self.add(desk, slot, cell, amount) else {
            unreachable!()
        };
    }

    /// Looks at all words, one after another, while other desks may raise theirs. The desk's own words are exact, each
    /// other word is at least what the desk has seen of it, and none passes `LIMIT`. Afterwards the sight is what the
    /// desk has seen.
    pub fn look(&self, desk: &mut Desk) -> Sight
        requires { desk.old.board ≡ self.now }
        ensures right { IsRightSight desk.old.view result.words }
        ensures seen { desk.new ≡ with_view desk.old (looked desk.old.view result.words) }
    {
        let mut sight = Sight { words: [0; WORDS] };
        self.look_into(desk, &mut sight);
        sight
    }

    /// Looks at all words as `look` does, into a sight of the caller's, so that its 18 KB needn't be moved.
    pub fn look_into(&self, desk: &mut Desk, sight: &mut Sight)
        requires { desk.old.board ≡ self.now }
        ensures right { IsRightSight desk.old.view sight.new.words }
        ensures seen { desk.new ≡ with_view desk.old (looked desk.old.view sight.new.words) }
    {
        for word in 0..WORDS {
            sight.words[word] = self.table.shared.load::<Looks>(&mut desk.seat, word);
        }
    }

    /// Splits one of the desk's slots off. A new desk owns it, and has seen what this one has seen. It may be the last
    /// slot, because a desk without slots can still look and join. It returns `Memory` if the system refuses memory,
    /// and then nothing has changed.
    pub fn split(&self, desk: &mut Desk, slot: u8) -> Result<Desk, Refusal>
        requires board { desk.old.board ≡ self.now }
        requires own { Owns desk.old.view slot }
        ensures ok { IfOk result (λ new. (new ≡ with_view desk.old (alone desk.old.view slot)) × (desk.new ≡ with_view desk.old (without desk.old.view slot))) }
        ensures net { IfOk result (λ new. NetAdds desk.old.view new.view desk.new.view) }
        ensures once { desk.old.view.was_apart ≡ true }
        ensures err { OnErr result ((desk.new ≡ desk.old) × (result ≡ Err Refusal.Memory)) }
    {
        self.cut::<Brand>(desk, slot)
    }

    /// Splits off the slot that `B` names.
    fn cut<B: SlotChoice>(&self, desk: &mut Desk, slot: u8) -> Result<Desk, Refusal>
        requires choice { B.slot ≡ slot }
        requires board { desk.old.board ≡ self.now }
        requires own { Owns desk.old.view slot }
        ensures ok { IfOk result (λ new. (new ≡ with_view desk.old (alone desk.old.view slot)) × (desk.new ≡ with_view desk.old (without desk.old.view slot))) }
        ensures net { IfOk result (λ new. NetAdds desk.old.view new.view desk.new.view) }
        ensures once { desk.old.view.was_apart ≡ true }
        ensures err { OnErr result ((desk.new ≡ desk.old) × (result ≡ Err Refusal.Memory)) }
    {
        let Ok(numbers) = Box::new(self.alloc, *desk.numbers) else {
            return Err(Refusal::Memory);
        };
        let seat = self.table.shared.split_seat::<Cut<B>>(&mut desk.seat);
        let at = usize::from(slot);
        desk.owned[at] = false;
        let mut owned = [false; SLOTS as usize];
        owned[at] = true;
        Ok(Desk {
            seat,
            owned,
            numbers,
        })
    }

    /// Takes in another desk of the board, so that this desk owns the slots of both, and has seen what either has seen.
    /// It takes no memory. Its contract also says that what one desk had seen of the other's words is at most the
    /// other's numbers.
    pub fn join(&self, desk: &mut Desk, other: Desk)
        requires board { desk.old.board ≡ self.now }
        requires other { other.board ≡ self.now }
        ensures both { desk.new ≡ with_view desk.old (both desk.old.view other.view) }
        ensures told { AreApart desk.old.view other.view }
        ensures net { NetAdds desk.new.view desk.old.view other.view }
    {
        let Desk {
            seat,
            owned,
            numbers,
        } = other;
        self.table
            .shared
            .join_seat::<Together>(&mut desk.seat, seat);
        take_numbers(&mut desk.numbers, &numbers, &owned);
        take_slots(&mut desk.owned, &owned);
        self.table.shared.load::<Checks>(&mut desk.seat, 0);
    }

    /// Ends the board with the desk that owns all slots, and returns its words, which are the desk's numbers, and are
    /// at least all that it has seen. A register keeps its board to the end, so this call is for users of a board
    /// alone, such as the tests.
    pub fn close(self, desk: Desk) -> [u64; WORDS]
        requires board { desk.board ≡ self }
        requires all { OwnsAll desk.view }
        ensures numbers { result ≡ desk.view.numbers }
        ensures seen { (w : ℕ) → slice_index desk.view.seen w ≤ slice_index result w }
    {
        let Board { table, alloc: _ } = self;
        let Desk {
            seat,
            owned: _,
            numbers: _,
        } = desk;
        let closed = table.close_with(seat);
        let mut words = [0; WORDS];
        for word in 0..WORDS {
            words[word] = closed.word(word);
        }
        closed.free();
        words
    }
}
