//! Puts a short journal in the place of a long one.
ghost use Rattle.std.specs.Prelude.{◌≡◌, ◌⊎◌, ◌<◌, List, ℕ, IsErrOf, OnOk};
ghost use Rattle.journal_file.specs.Device.{LeavesOnly};
ghost use Rattle.journal_file.specs.declared.fault.JournalFault.TheVariants.{BadLine, Failed, Full, Locked, NoJournal};
ghost use Rattle.journal.specs.Lines.{text, recovered, HasFence};
ghost use Rattle.journal.specs.Tape.{IsOpen};

use crate::Tape;
use journal_file::{JournalFault, Replace};

/// Puts another journal, all of it on the disk, in the place of this one. A crash at any moment of the call leaves a
/// file that stands for the lines of the one or of the other. Gives up as [`Replace::replace`] does.
pub fn compact<D: Replace>(tape: &mut Tape<D>, next: Tape<D>) -> Result<(), JournalFault>
    requires is_open { IsOpen D.Device.seen D.Device.may_leave tape.old }
    requires acknowledged { tape.old.synced ≡ tape.old.end }
    requires next { IsOpen D.Device.seen D.Device.may_leave next }
    requires next_acknowledged { next.synced ≡ next.end }

    ensures is_open { OnOk result (IsOpen D.Device.seen D.Device.may_leave tape.new) }
    ensures acknowledged { OnOk result (tape.new.synced ≡ tape.new.end) }
    ensures text { OnOk result (text (D.Device.seen tape.new.device) ≡ text (D.Device.seen next.device)) }

    ensures any_moment { LeavesOnly D.Device.moment D.Device.left_since tape.old.device tape.new.device
        (λ c. HasFence c × ((recovered c ≡ recovered (D.Device.seen tape.old.device)) ⊎ (recovered c ≡ recovered (D.Device.seen next.device)))) }

    ensures failed { IsErrOf result Failed → D.Device.faults tape.old.device < D.Device.faults tape.new.device }
    ensures full { IsErrOf result Full → ⊥ }
    ensures journal { IsErrOf result NoJournal → ⊥ }
    ensures no_other { (IsErrOf result BadLine → ⊥) × (IsErrOf result Locked → ⊥) }
    ensures owner { D.Device.owner tape.new.device ≡ D.Device.owner tape.old.device }
{
    let Tape {
        device,
        end,
        synced,
        len,
    } = next;
    tape.device.replace(device)?;
    tape.end = end;
    tape.synced = synced;
    tape.len = len;
    Ok(())
}
