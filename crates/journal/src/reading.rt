//! Reads a file to its end, one piece after another.
ghost use Rattle.std.specs.Prelude.{◌≡◌, ◌<◌, ◌≤◌, ◌⊎◌, ◌^◌, [], length, IfErr, IfOk, OnOk};
ghost use Rattle.journal_file.specs.declared.fault.JournalFault.TheVariants.{Failed, Full};
ghost use Rattle.journal.specs.Lines.{recovered};
ghost use Rattle.journal.specs.Machine.{AreRefused, Runs};
ghost use Rattle.journal.specs.Tape.{AreEnds};

use crate::follower::Follower;
use crate::{Ends, Machine};
use journal_file::{JournalFault, Unread};
use std::alloc::Global;

/// The bytes of a piece. No more of the file is in memory at a time, apart from a line that has begun, of which no more
/// is kept than [`Machine::too_long`] says.
const PIECE: usize = 1 << 14;

const MAX_LEN: usize = 1 << 62;

/// Reads a file to its end, and hands each line of its text to the machine, in order. Returns where the parts of the
/// file end. Gives up with `Full` from 2^62 bytes on, and as [`Unread::read_on`] and the machine do.
pub fn replay<U: Unread, M: Machine>(
    alloc: Global,
    unread: &mut U,
    machine: &mut M,
) -> Result<Ends, JournalFault>
    requires unread { U.read unread.old ≡ [] }
    requires ready { M.IsReady machine.old }
    ensures ready { OnOk result (M.IsReady machine.new) }
    ensures same { U.IsReadOn unread.old unread.new }
    ensures whole { OnOk result (U.IsRead unread.new) }
    ensures ends { IfOk result (λ ends. AreEnds (U.read unread.new) ends) }
    ensures runs { OnOk result (Runs M.moves (recovered (U.read unread.new)) machine.old machine.new) }
    // Memory is refused, a line is bad, the disk has failed, or the file is too long.
    ensures refused { IfErr result (λ why. AreRefused M.moves M.IsBad (recovered (U.read unread.new)) machine.old why
        ⊎ ((why ≡ Failed) × (U.faults unread.old < U.faults unread.new)) ⊎ ((why ≡ Full) × (2 ^ 62 ≤ length (U.read unread.new)))) }
{
    let mut piece = [0; PIECE];
    let mut follower = Follower::new(alloc);
    while follower.ends.len < MAX_LEN {
        let n = unread.read_on(&mut piece)?;
        if n == 0 {
            return Ok(follower.ends);
        }
        follower.follow(machine, &piece[..n])?;
    }
    Err(JournalFault::Full)
}

/// Does what [`replay`] does, with a file all of whose bytes are at hand. Gives up with `Full` from 2^62 bytes on, and as
/// the machine does.
pub fn replay_bytes<M: Machine>(
    alloc: Global,
    bytes: &[u8],
    machine: &mut M,
) -> Result<Ends, JournalFault>
    requires ready { M.IsReady machine.old }
    ensures ready { OnOk result (M.IsReady machine.new) }
    ensures ends { IfOk result (λ ends. AreEnds bytes.now ends) }
    ensures runs { OnOk result (Runs M.moves (recovered bytes.now) machine.old machine.new) }
    ensures refused { IfErr result (λ why. AreRefused M.moves M.IsBad (recovered bytes.now) machine.old why
        ⊎ ((why ≡ Full) × (2 ^ 62 ≤ length bytes.now))) }
{
    if bytes.len() >= MAX_LEN {
        return Err(JournalFault::Full);
    }
    let mut follower = Follower::new(alloc);
    follower.follow(machine, bytes)?;
    Ok(follower.ends)
}
