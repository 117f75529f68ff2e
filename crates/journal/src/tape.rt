//! A text in a file, with zeros behind it that are on the disk.
ghost use Rattle.std.specs.Prelude.{◌≡◌, ◌<◌, ◌≤◌, ◌+◌, ◌-◌, ◌^◌, ◌++◌, length, OnOk, IsErrOf};
ghost use Rattle.journal_file.specs.Device.{Only, LeavesOnly};
ghost use Rattle.journal_file.specs.declared.fault.JournalFault.TheVariants.{BadLine, Failed, Full, Locked, NoJournal};
ghost use Rattle.journal.specs.Lines.{text, lines, recovered, HasNoZero, HasFence, IsWhole};
ghost use Rattle.journal.specs.Tape.{AreEnds, IsOpen, kept, IsBetween, HasLinesBetween};

use journal_file::{Device, JournalFault};

/// The least number of zeros by which a file grows.
const CHUNK: usize = 1 << 20;

const MAX_LEN: usize = 1 << 62;

/// Says where the parts of a file end, all of which was read.
#[derive(Clone, Copy, Debug, PartialEq, Eq)]
pub struct Ends {
    /// Where the whole lines end.
    pub whole: usize,
    /// Where the first 0 stands, or the file ends.
    pub text: usize,
    /// Where the file ends.
    pub len: usize,
}

/// Keeps a text at the front of a file. After a call that gave up, the file is to be opened again.
#[derive(Drop)]
pub struct Tape<D: Device> {
    pub device: D,
    /// Where the text ends.
    pub end: usize,
    /// How many bytes of it are on the disk.
    pub synced: usize,
    /// The length of the file.
    pub len: usize,
}

impl<D: Device> Tape<D> {
    /// Takes a file, which [`Tape::recover`] makes a journal that can be appended to.
    pub fn new(device: D) -> Tape<D>
        ensures device { result.device ≡ device }
    {
        Tape {
            device,
            end: 0,
            synced: 0,
            len: 0,
        }
    }

    /// Takes away what a crash left behind the last whole line. It may crash too, at any moment, and then the file
    /// stands for the same lines. Gives up with `NoJournal` if no 0 stands behind the text, and as [`Device::blank`]
    /// does.
    pub fn recover(&mut self, ends: Ends) -> Result<(), JournalFault>
        requires ends { AreEnds (D.seen self.old.device) ends }
        requires disk { Only (D.seen self.old.device) (D.may_leave self.old.device) }

        ensures lines { OnOk result (recovered (D.seen self.new.device) ≡ recovered (D.seen self.old.device)) }
        ensures whole { OnOk result (IsWhole (text (D.seen self.new.device))) }
        ensures is_open { OnOk result (IsOpen D.seen D.may_leave self.new) }
        ensures acknowledged { OnOk result (self.new.synced ≡ self.new.end) }
        ensures fenced { OnOk result (HasFence (D.seen self.old.device)) }
        ensures len { OnOk result (self.new.len ≡ ends.len) }

        ensures any_moment { LeavesOnly D.moment D.left_since self.old.device self.new.device
            (λ c. recovered c ≡ recovered (D.seen self.old.device)) }
        ensures fence { HasFence (D.seen self.old.device) → LeavesOnly D.moment D.left_since self.old.device self.new.device HasFence }

        ensures failed { IsErrOf result Failed → D.faults self.old.device < D.faults self.new.device }
        ensures full { IsErrOf result Full → ⊥ }
        ensures journal { IsErrOf result NoJournal → HasFence (D.seen self.old.device) → ⊥ }
        ensures cause { D.faults self.old.device ≤ D.faults self.new.device }
        ensures no_other { (IsErrOf result BadLine → ⊥) × (IsErrOf result Locked → ⊥) }
        ensures owner { D.owner self.new.device ≡ D.owner self.old.device }
    {
        if ends.text == ends.len {
            return Err(JournalFault::NoJournal);
        }
        self.device.blank(ends.whole)?;
        self.device.sync()?;
        self.end = ends.whole;
        self.synced = ends.whole;
        self.len = ends.len;
        Ok(())
    }

    /// Adds bytes behind the text, with no sync. Gives up with `Full` if the file would pass 2^62 bytes, and as the
    /// calls of [`Device`] do.
    pub fn append(&mut self, bytes: &[u8]) -> Result<(), JournalFault>
        requires is_open { IsOpen D.seen D.may_leave self.old }
        requires no_zero { HasNoZero bytes.now }

        ensures is_open { OnOk result (IsOpen D.seen D.may_leave self.new) }
        ensures appended { OnOk result (text (D.seen self.new.device) ≡ text (D.seen self.old.device) ++ bytes.now) }
        ensures kept { OnOk result (self.old.synced ≤ self.new.synced) }

        // A crash at any moment of the call leaves the text with all that was synced, and more of it up to the new end.
        ensures any_moment { LeavesOnly D.moment D.left_since self.old.device self.new.device
            (IsBetween (kept D.seen self.old) (text (D.seen self.old.device) ++ bytes.now)) }

        ensures failed { IsErrOf result Failed → D.faults self.old.device < D.faults self.new.device }
        ensures full { IsErrOf result Full → 2 ^ 61 ≤ self.old.len + length bytes.now }
        ensures journal { IsErrOf result NoJournal → ⊥ }
        ensures cause { D.faults self.old.device ≤ D.faults self.new.device }
        ensures no_other { (IsErrOf result BadLine → ⊥) × (IsErrOf result Locked → ⊥) }
        ensures owner { D.owner self.new.device ≡ D.owner self.old.device }
    {
        self.make_room(bytes.len())?;
        self.device.write_at(self.end, bytes)?;
        self.end += bytes.len();
        Ok(())
    }

    /// Makes room for this many bytes in front of the last 0. If there is too little, it puts more zeros behind the text
    /// and syncs.
    fn make_room(&mut self, more: usize) -> Result<(), JournalFault>
        requires is_open { IsOpen D.seen D.may_leave self.old }

        ensures is_open { OnOk result (IsOpen D.seen D.may_leave self.new) }
        ensures same { OnOk result (text (D.seen self.new.device) ≡ text (D.seen self.old.device)) }
        ensures end { OnOk result (self.new.end ≡ self.old.end) }
        ensures kept { OnOk result (self.old.synced ≤ self.new.synced) }
        ensures room { OnOk result (more < self.new.len - self.new.end) }
        ensures fits { OnOk result (self.new.end + more < 2 ^ 64) }

        ensures any_moment { LeavesOnly D.moment D.left_since self.old.device self.new.device
            (IsBetween (kept D.seen self.old) (text (D.seen self.old.device))) }

        ensures failed { IsErrOf result Failed → D.faults self.old.device < D.faults self.new.device }
        ensures full { IsErrOf result Full → 2 ^ 61 ≤ self.old.len + more }
        ensures journal { IsErrOf result NoJournal → ⊥ }
        ensures cause { D.faults self.old.device ≤ D.faults self.new.device }
        ensures no_other { (IsErrOf result BadLine → ⊥) × (IsErrOf result Locked → ⊥) }
        ensures owner { D.owner self.new.device ≡ D.owner self.old.device }
    {
        if more < self.len - self.end {
            return Ok(());
        }
        if self.len > MAX_LEN || more > MAX_LEN {
            return Err(JournalFault::Full);
        }
        let zeros = more + CHUNK;
        self.device.grow(zeros)?;
        self.device.sync()?;
        self.synced = self.end;
        self.len += zeros;
        Ok(())
    }

    /// Puts the text on the disk: from an `Ok` on, each crash leaves all that was appended. Gives up as
    /// [`Device::sync`] does.
    pub fn sync(&mut self) -> Result<(), JournalFault>
        requires is_open { IsOpen D.seen D.may_leave self.old }

        ensures is_open { OnOk result (IsOpen D.seen D.may_leave self.new) }
        ensures same { OnOk result (text (D.seen self.new.device) ≡ text (D.seen self.old.device)) }
        ensures acknowledged { OnOk result (self.new.synced ≡ self.new.end) }

        ensures any_moment { LeavesOnly D.moment D.left_since self.old.device self.new.device
            (IsBetween (kept D.seen self.old) (text (D.seen self.old.device))) }

        ensures failed { IsErrOf result Failed → D.faults self.old.device < D.faults self.new.device }
        ensures full { IsErrOf result Full → ⊥ }
        ensures journal { IsErrOf result NoJournal → ⊥ }
        ensures no_other { (IsErrOf result BadLine → ⊥) × (IsErrOf result Locked → ⊥) }
        ensures owner { D.owner self.new.device ≡ D.owner self.old.device }
    {
        self.device.sync()?;
        self.synced = self.end;
        Ok(())
    }

    /// Appends whole lines and syncs. A crash at any moment of the call leaves the lines from before it, and the first
    /// n of the new ones for some n. From an `Ok` on, it leaves all of them. Gives up as [`Tape::append`] does.
    pub fn commit(&mut self, group: &[u8]) -> Result<(), JournalFault>
        requires is_open { IsOpen D.seen D.may_leave self.old }
        requires acknowledged { self.old.synced ≡ self.old.end }
        requires whole { IsWhole (text (D.seen self.old.device)) }
        requires no_zero { HasNoZero group.now }
        requires group { IsWhole group.now }

        ensures is_open { OnOk result (IsOpen D.seen D.may_leave self.new) }
        ensures acknowledged { OnOk result (self.new.synced ≡ self.new.end) }
        ensures whole { OnOk result (IsWhole (text (D.seen self.new.device))) }
        ensures lines { OnOk result (recovered (D.seen self.new.device) ≡ recovered (D.seen self.old.device) ++ lines group.now) }

        ensures any_moment { LeavesOnly D.moment D.left_since self.old.device self.new.device
            (HasLinesBetween (recovered (D.seen self.old.device)) (recovered (D.seen self.old.device) ++ lines group.now)) }

        ensures failed { IsErrOf result Failed → D.faults self.old.device < D.faults self.new.device }
        ensures full { IsErrOf result Full → 2 ^ 61 ≤ self.old.len + length group.now }
        ensures journal { IsErrOf result NoJournal → ⊥ }
        ensures no_other { (IsErrOf result BadLine → ⊥) × (IsErrOf result Locked → ⊥) }
        ensures owner { D.owner self.new.device ≡ D.owner self.old.device }
    {
        self.append(group)?;
        self.sync()?;
        Ok(())
    }
}
