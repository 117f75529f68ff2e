//! A state that lines lead on from.
ghost use Rattle.std.specs.Prelude.{◌≡◌, ◌⊎◌, ◌<◌, ◌≤◌, List, ℕ, length, IfErr, OnOk};
ghost use Rattle.journal_file.specs.declared.fault.JournalFault.TheVariants.{BadLine, Memory};

use journal_file::JournalFault;

/// A state that is made anew from the lines of a journal.
pub trait Machine {
    /// The machine may be handed a line.
    ghost IsReady: { Self → Type 0 };

    /// The line may lead from the first state to the second.
    ghost moves: { List ℕ → Self → Self → Type 0 };

    /// The line says nothing that can be done in this state.
    ghost IsBad: { List ℕ → Self → Type 0 };

    /// A line with this many bytes is bad, and so is each longer one.
    ghost too_long: { ℕ };

    /// Returns how many bytes are too many for a line, so that no more of it has to be kept.
    fn too_long() -> usize
        ensures { result ≡ too_long };

    /// Does what a line says, which is handed over without its line feed. Gives up with `BadLine` if the line is bad, or
    /// with `Memory`.
    fn apply(&mut self, line: &[u8]) -> Result<(), JournalFault>
        requires ready { IsReady self.old }
        ensures ready { OnOk result (IsReady self.new) }
        ensures moves { OnOk result (moves line.now self.old self.new) }
        ensures refused { IfErr result (λ why. (why ≡ Memory) ⊎ ((why ≡ BadLine) × IsBad line.now self.old)) };

    /// No byte is too few for a line.
    ghost some: { 0 < too_long };

    /// A line that is too long is bad in each state.
    ghost long_is_bad: { (line : List ℕ) (at : Self) → too_long ≤ length line → IsBad line at };
}
