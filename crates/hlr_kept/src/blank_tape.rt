//! A tape that a snapshot can be written on.
ghost use Rattle.std.specs.Prelude.{◌≡◌, [], ⊤, IfOk, OnOk, replicate};
ghost use Rattle.journal_file.specs.Owner.{owner_of_held};
ghost use Rattle.journal_file.specs.Relayed.{relayed_leaves, relayed_owner, relayed_seen};
ghost use Rattle.journal.specs.Lines.{IsWhole, recovered, text};
ghost use Rattle.journal.specs.Tape.{IsOpen};

use journal::{
    Disk, JournalFault, Machine, Memory, Relayed, Replace, Tape, Unread, UnreadMemory, open_next,
    replay, replay_bytes,
};
use std::alloc::Global;

/// How many zeros the file has that a file in memory makes for a snapshot.
const BLANK: usize = 64;

/// What a file holds that an owner has made for a snapshot.
static ZEROS: [u8; 1 << 16] = [0; 1 << 16];

/// A file whose place another one can take, which it makes by itself.
pub trait NextTape: Replace + Drop {
    /// Makes a file that has no line, and returns its tape, on which a snapshot can be written. Gives up with
    /// `Memory`, and with `Failed` if the disk does.
    fn next_tape(&self, alloc: Global) -> Result<Tape<Self>, JournalFault>
        ensures open_tape { IfOk result (λ tape. IsOpen Self.Device.seen Self.Device.may_leave tape) }
        ensures whole { IfOk result (λ tape. IsWhole (text (Self.Device.seen tape.device))) }
        ensures blank { IfOk result (λ tape. recovered (Self.Device.seen tape.device) ≡ []) };
}

impl NextTape for Disk {
    fn next_tape(&self, alloc: Global) -> Result<Tape<Disk>, JournalFault> {
        blank(alloc, open_next(self)?)
    }
}

impl NextTape for Memory {
    fn next_tape(&self, alloc: Global) -> Result<Tape<Memory>, JournalFault> {
        let mut zeros = Vec::new(alloc);
        zeros.resize(BLANK, 0)?;
        blank(alloc, UnreadMemory::new(Memory::new(alloc, zeros)))
    }
}

/// Refuses each line, so that only a file without a line is read to its end.
#[derive(Drop)]
struct NoLine;

impl Machine for NoLine {
    ghost IsReady = { λ _. ⊤ };

    ghost moves = { λ line old new. ⊥ };

    ghost IsBad = { λ line at. ⊤ };

    ghost too_long = { 1 };

    fn too_long() -> usize {
        1
    }

    fn apply(&mut self, _line: &[u8]) -> Result<(), JournalFault> {
        Err(JournalFault::BadLine)
    }

    ghost use Rattle.std.proofs.Common.{arith};

    ghost some = { omega arith };

    ghost long_is_bad = { λ line at long. tt };
}

/// Reads a file that has no line, as `journal::open_next` makes one, and returns its tape, on which a snapshot can be
/// written. Gives up with `BadLine` if the file has a line, and as `journal::replay` and `Tape::recover` do.
pub fn blank<U: Unread + Drop>(alloc: Global, mut unread: U) -> Result<Tape<U::File>, JournalFault>
    requires unread { U.read unread ≡ [] }
    ensures open_tape { IfOk result (λ tape. IsOpen U.File.seen U.File.may_leave tape) }
    ensures whole { IfOk result (λ tape. IsWhole (text (U.File.seen tape.device))) }
    ensures blank { IfOk result (λ tape. recovered (U.File.seen tape.device) ≡ []) }
    // The file had no line before.
    ensures unlined { OnOk result ((last : U) × U.IsReadOn unread last × U.IsRead last × (recovered (U.read last) ≡ [])) }
{
    let ends = replay(alloc, &mut unread, &mut NoLine)?;
    let mut tape = Tape::new(unread.into_device());
    tape.recover(ends)?;
    Ok(tape)
}

fn zeros() -> &'static [u8]
    ensures { result.now ≡ replicate 65536 0 }
{
    &ZEROS
}

/// Takes a file of 65,536 zeros, which its owner has made and synced, and returns its tape, on which a snapshot can be
/// written. Gives up with `Memory`.
pub(crate) fn blank_relayed(alloc: Global, fd: i32) -> Result<Tape<Relayed>, JournalFault>
    ensures open_tape { IfOk result (λ tape. IsOpen relayed_seen relayed_leaves tape) }
    ensures whole { IfOk result (λ tape. IsWhole (text (relayed_seen tape.device))) }
    ensures blank { IfOk result (λ tape. recovered (relayed_seen tape.device) ≡ []) }
    ensures owner { IfOk result (λ tape. relayed_owner tape.device ≡ owner_of_held fd (replicate 65536 0)) }
{
    let file = zeros();
    let ends = replay_bytes(alloc, file, &mut NoLine)?;
    let mut tape = Tape::new(Relayed::new(alloc, fd, file));
    tape.recover(ends)?;
    Ok(tape)
}
