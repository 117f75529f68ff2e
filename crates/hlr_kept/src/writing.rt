//! Makes a file ready to be written.
ghost use Rattle.std.specs.Prelude.{◌≡◌, ◌⊎◌, ◌<◌, IfErr, OnOk, Some};
ghost use Rattle.journal_file.specs.Device.{LeavesOnly, Only};
ghost use Rattle.journal_file.specs.declared.fault.JournalFault.TheVariants.{Failed};
ghost use Rattle.journal.specs.Lines.{HasFence};
ghost use Rattle.journal.specs.Tape.{AreEnds};
ghost use Rattle.hlr_owners.specs.Store.{Store};
ghost use Rattle.hlr_kept.specs.Rows.{HasRowsOf, IsNotOpened, book_of};
ghost use Rattle.hlr_kept.specs.Runs.{IsOnDisk};

use edit_lines::push_first_line;
use journal::{Device, Ends, JournalFault, Tape};
use std::alloc::Global;

/// Makes a file that was read ready to be written: takes away what a crash left behind its last whole line, and writes
/// the first line if there is none. A crash at any moment of the call leaves a file that stands for the same rows, and
/// that can be opened if this one could. Gives up with `Memory`, and as `Tape::recover` and `Tape::commit` do.
pub fn begin<D: Device>(alloc: Global, tape: &mut Tape<D>, ends: Ends) -> Result<(), JournalFault>
    requires ends { AreEnds (D.seen tape.old.device) ends }
    requires disk { Only (D.seen tape.old.device) (D.may_leave tape.old.device) }
    ensures stored { OnOk result ((stored : Store) → book_of (D.seen tape.old.device) ≡ Some stored.book
        → IsOnDisk D.seen D.may_leave stored tape.new) }
    ensures fenced { OnOk result (HasFence (D.seen tape.old.device)) }
    ensures any_moment { LeavesOnly D.moment D.left_since tape.old.device tape.new.device (HasRowsOf (D.seen tape.old.device)) }
    ensures owner { D.owner tape.new.device ≡ D.owner tape.old.device }
    ensures refused { IfErr result (λ why. ((why ≡ Failed) × (D.faults tape.old.device < D.faults tape.new.device))
        ⊎ IsNotOpened (D.seen tape.old.device) why) }
{
    tape.recover(ends)?;
    if ends.whole > 0 {
        return Ok(());
    }
    let mut first = Vec::new(alloc);
    push_first_line(&mut first)?;
    tape.commit(&first)?;
    Ok(())
}
