//! A plain board, for tests: sixteen slots, each with what was posted there, and the part that has it.
use tatp_actions::CELLS;
use view_board::{SLOTS, Sight};

/// A slot: the part that has it, if one does, and how much was added to each cell and taken off it there.
#[derive(Clone, Copy)]
struct PlainSlot {
    part: Option<u64>,
    added: [u64; CELLS as usize],
    taken_off: [u64; CELLS as usize],
}

/// All slots.
#[derive(Drop)]
pub struct PlainBoard {
    slots: [PlainSlot; SLOTS as usize],
}

/// A word as a count.
fn counted(word: u64) -> i64 {
    i64::try_from(word).unwrap_or(i64::MAX)
}

/// Raises the word of a cell.
fn raise(words: &mut [u64; CELLS as usize], cell: usize, size: u64) {
    if let Some(word) = words.get_mut(cell) {
        *word = word.wrapping_add(size);
    }
}

impl PlainSlot {
    /// Adds to the counts of cells what is published of them here.
    fn count(&self, cells: &mut [i64; CELLS as usize]) {
        let words = self.added.iter().zip(self.taken_off.iter());
        for (cell, (added, taken_off)) in cells.iter_mut().zip(words) {
            let net = counted(*added).wrapping_sub(counted(*taken_off));
            *cell = cell.wrapping_add(net);
        }
    }

    /// Raises the lower of each cell's two words to the higher; then nobody has the slot.
    fn take_back(&mut self) {
        for (added, taken_off) in self.added.iter_mut().zip(self.taken_off.iter_mut()) {
            let higher = (*added).max(*taken_off);
            *added = higher;
            *taken_off = higher;
        }
        self.part = None;
    }

    /// Whether a sight has these words in the slot with this number.
    fn is_seen(&self, sight: &Sight, slot: u8) -> bool {
        if slot >= SLOTS {
            return false;
        }
        for cell in 0..CELLS {
            let place = usize::from(cell);
            if sight.words_of(slot, cell) != (self.added[place], self.taken_off[place]) {
                return false;
            }
        }
        true
    }
}

impl PlainBoard {
    /// Nothing is posted, and each of so many parts has the slot with its number.
    pub fn opening(parts: u8) -> Self {
        let none = PlainSlot {
            part: None,
            added: [0; CELLS as usize],
            taken_off: [0; CELLS as usize],
        };
        let mut board = PlainBoard {
            slots: [none; SLOTS as usize],
        };
        for (part, slot) in board.slots.iter_mut().enumerate() {
            if part < usize::from(parts) {
                slot.part = Some(part as u64);
            }
        }
        board
    }

    /// Posts an amount of a cell for a part.
    pub fn post(&mut self, part: u64, cell: usize, amount: i64) {
        for slot in self.slots.iter_mut() {
            if slot.part != Some(part) {
                continue;
            }
            if amount < 0 {
                raise(&mut slot.taken_off, cell, amount.unsigned_abs());
            } else {
                raise(&mut slot.added, cell, amount.unsigned_abs());
            }
        }
    }

    /// A new part behind one has the least slot that nobody has, and the numbers of later parts rise by one.
    pub fn divide(&mut self, part: u64) {
        let mut new = Some(part.wrapping_add(1));
        for slot in self.slots.iter_mut() {
            slot.part = match slot.part {
                Some(other) if other > part => Some(other.wrapping_add(1)),
                None => new.take(),
                own => own,
            };
        }
    }

    /// What a part has posted is taken back, nobody has its slot, and the numbers of later parts fall by one.
    pub fn dissolve(&mut self, part: u64) {
        for slot in self.slots.iter_mut() {
            match slot.part {
                Some(other) if other > part => slot.part = Some(other.wrapping_sub(1)),
                Some(other) if other == part => slot.take_back(),
                _ => {}
            }
        }
    }

    /// The cells as a part has published them.
    pub fn published_by(&self, part: u64) -> [i64; CELLS as usize] {
        let mut cells = [0; CELLS as usize];
        for slot in self.slots.iter() {
            if slot.part == Some(part) {
                slot.count(&mut cells);
            }
        }
        cells
    }

    /// The cells as all parts have published them.
    pub fn published(&self) -> [i64; CELLS as usize] {
        let mut cells = [0; CELLS as usize];
        for slot in self.slots.iter() {
            slot.count(&mut cells);
        }
        cells
    }

    /// Whether a sight has just these words.
    pub fn is_seen(&self, sight: &Sight) -> bool {
        for (number, slot) in self.slots.iter().enumerate() {
            if !slot.is_seen(sight, number.min(255) as u8) {
                return false;
            }
        }
        true
    }

    /// Whether each slot that nobody has is level: as much was added to each cell there as was taken off it.
    pub fn is_level(&self) -> bool {
        let mut is_level = true;
        for slot in self.slots.iter() {
            is_level = is_level && (slot.part.is_some() || slot.added == slot.taken_off);
        }
        is_level
    }
}
