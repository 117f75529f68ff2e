//! What a file on a disk does, and what a crash may leave of it.
ghost use Rattle.std.specs.Prelude.{◌≡◌, ◌⊎◌, ◌<◌, ◌≤◌, ◌+◌, ◌-◌, ◌++◌, List, ℕ, length, take, replicate, IfErr, IfOk, OnOk, Option};
ghost use Rattle.journal_file.specs.Device.{Only, Follows, Mixes, Fades, IsFront, over, Elapses, HasCause};
ghost use Rattle.journal_file.specs.Owner.{Owner};
ghost use Rattle.journal_file.specs.declared.fault.JournalFault.TheVariants.{Failed};

use crate::JournalFault;

/// A file on a disk that finishes each byte that it begins. Until a sync, a crash leaves each byte of a range that was
/// written over as it was or as it was written, and bytes behind the old end in any way. No other byte changes.
///
/// After a call that gave up, a file is to be opened again, because what it holds may not be what `seen` says.
pub trait Device {
    /// The bytes of the file.
    ghost seen: { Self → List ℕ };

    /// What a crash at this moment may leave.
    ghost may_leave: { Self → List ℕ → Type 0 };

    /// The moment of the last call, as a number that never falls.
    ghost moment: { Self → ℕ };

    /// What a crash at some moment from that one on might have left, during a call or between two.
    ghost left_since: { Self → ℕ → List ℕ → Type 0 };

    /// How often the disk has failed.
    ghost faults: { Self → ℕ };

    /// Who makes the calls, with those that he has made, if the file can't reach the disk by itself. No call of this
    /// trait changes it.
    ghost owner: { Self → Option Owner };

    /// Writes bytes over those that are there, from an offset on. Gives up with `Failed`, or with `Memory` in a file in
    /// memory.
    fn write_at(&mut self, at: usize, bytes: &[u8]) -> Result<(), JournalFault>
        requires fits { at + length bytes.now ≤ length (seen self.old) }
        ensures written { OnOk result (seen self.new ≡ over at bytes.now (seen self.old)) }
        ensures crash { Follows (Mixes at bytes.now) (may_leave self.old) (may_leave self.new) }
        ensures time { Elapses (moment self.old) (moment self.new) (left_since self.old) (left_since self.new) (may_leave self.new) }
        ensures cause { HasCause (faults self.old) (faults self.new) result }
        ensures owner { owner self.new ≡ owner self.old };

    /// Writes zeros over what is there, from an offset to the end. Gives up as `write_at` does.
    fn blank(&mut self, from: usize) -> Result<(), JournalFault>
        requires fits { from ≤ length (seen self.old) }
        ensures blanked { OnOk result (seen self.new ≡ take from (seen self.old) ++ replicate (length (seen self.old) - from) 0) }
        ensures crash { Follows (Fades from) (may_leave self.old) (may_leave self.new) }
        ensures time { Elapses (moment self.old) (moment self.new) (left_since self.old) (left_since self.new) (may_leave self.new) }
        ensures cause { HasCause (faults self.old) (faults self.new) result }
        ensures owner { owner self.new ≡ owner self.old };

    /// Adds `more` zeros behind the end. Until a sync, a crash may leave any bytes there. Gives up as `write_at` does.
    fn grow(&mut self, more: usize) -> Result<(), JournalFault>
        ensures grown { OnOk result (seen self.new ≡ seen self.old ++ replicate more 0) }
        ensures crash { Follows IsFront (may_leave self.old) (may_leave self.new) }
        ensures time { Elapses (moment self.old) (moment self.new) (left_since self.old) (left_since self.new) (may_leave self.new) }
        ensures cause { HasCause (faults self.old) (faults self.new) result }
        ensures owner { owner self.new ≡ owner self.old };

    /// Puts all bytes on the disk: from an `Ok` on, a crash leaves them as they are. Gives up with `Failed`.
    fn sync(&mut self) -> Result<(), JournalFault>
        ensures durable { OnOk result (Only (seen self.old) (may_leave self.new)) }
        ensures seen { seen self.new ≡ seen self.old }
        ensures crash { (c : List ℕ) → may_leave self.new c → may_leave self.old c }
        ensures time { Elapses (moment self.old) (moment self.new) (left_since self.old) (left_since self.new) (may_leave self.new) }
        ensures cause { HasCause (faults self.old) (faults self.new) result }
        ensures owner { owner self.new ≡ owner self.old };

    /// What a crash may leave now counts among what it might have left since an earlier moment.
    ghost counts_now: { (file : Self) (t : ℕ) (c : List ℕ) → t ≤ moment file → may_leave file c → left_since file t c };

    /// A crash may leave the bytes that the file has, as the end of a process does.
    ghost leaves_seen: { (file : Self) → may_leave file (seen file) };

    /// Since the last call, a crash leaves what it may leave now, and nothing else.
    ghost only_now: { (file : Self) (c : List ℕ) → left_since file (moment file) c → may_leave file c };
}

/// A file whose place another may take at once, as by a rename.
pub trait Replace: Device {
    /// Puts another file, all of it on the disk, in the place of this one: a crash leaves the one or the other. Gives
    /// up as `write_at` does, and then the place has the one or the other too.
    fn replace(&mut self, next: Self) -> Result<(), JournalFault>
        requires synced { Only (Self.Device.seen next) (Self.Device.may_leave next) }
        ensures replaced { OnOk result (Self.Device.seen self.new ≡ Self.Device.seen next) }
        ensures durable { OnOk result (Only (Self.Device.seen next) (Self.Device.may_leave self.new)) }
        ensures crash { (c : List ℕ) → Self.Device.may_leave self.new c → Self.Device.may_leave self.old c ⊎ (c ≡ Self.Device.seen next) }
        ensures time { Elapses (Self.Device.moment self.old) (Self.Device.moment self.new) (Self.Device.left_since self.old) (Self.Device.left_since self.new) (Self.Device.may_leave self.new) }
        ensures cause { HasCause (Self.Device.faults self.old) (Self.Device.faults self.new) result }
        ensures owner { Self.Device.owner self.new ≡ Self.Device.owner self.old };
}

/// A file that is read once, from its front to its end, before it is written. All of it is on the disk, and reading
/// changes nothing, so a crash leaves it as it is.
pub trait Unread {
    type File: Device + Drop;

    /// The bytes that were read so far.
    ghost read: { Self → List ℕ };

    /// No byte is left to be read.
    ghost IsRead: { Self → Type 0 };

    /// The file that may be written once no byte of it is left to be read.
    ghost file: { Self → Self.File };

    /// How often the disk has failed.
    ghost faults: { Self → ℕ };

    /// The second is the same file as the first, of which more was read.
    ghost IsReadOn: { Self → Self → Type 0 };

    /// Reads the next bytes into the front of the buffer, and returns how many they are. It returns 0 at the end of the
    /// file, or if the buffer is empty. Gives up with `Failed`.
    fn read_on(&mut self, buffer: &mut [u8]) -> Result<usize, JournalFault>
        ensures fits { IfOk result (λ n. n ≤ length buffer.new) }
        ensures length { length buffer.new ≡ length buffer.old }
        ensures read { IfOk result (λ n. read self.new ≡ read self.old ++ take n buffer.new) }
        ensures ends { IfOk result (λ n. n ≡ 0 → 0 < length buffer.old → IsRead self.new) }
        ensures refused { IfErr result (λ why. why ≡ Failed) }
        ensures cause { HasCause (faults self.old) (faults self.new) result }
        ensures same { IsReadOn self.old self.new };

    /// Hands over the file, which was read to its end.
    fn into_device(self) -> Self::File
        requires whole { IsRead self }
        ensures file { result ≡ file self }
        ensures seen { Self.File.seen result ≡ read self }
        ensures disk { Only (read self) (Self.File.may_leave result) }
        ensures faults { Self.File.faults result ≡ faults self };

    /// A file of which nothing more was read is the same.
    ghost is_itself: { (file : Self) → IsReadOn file file };

    /// So is one that was read on twice.
    ghost stays_same: { (first then last : Self) → IsReadOn first then → IsReadOn then last → IsReadOn first last };

    /// What was read of it before is the front of what is read of it now.
    ghost reads_front: { (first last : Self) → IsReadOn first last → IsFront (read first) (read last) };
}
