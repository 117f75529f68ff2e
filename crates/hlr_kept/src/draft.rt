//! Lines that are gathered, and appended to a tape many at a time.
ghost use Rattle.std.specs.Prelude.{◌≡◌, ◌<◌, ◌++◌, ◌∷◌, [], true, OnOk, IfOk};
ghost use Rattle.std.specs.List.{AllByRecursion};
ghost use Rattle.journal.specs.Lines.{IsWhole, recovered, text};
ghost use Rattle.journal.specs.Tape.{IsOpen};
ghost use Rattle.edit_lines.specs.Lines.{first_line, is_change, line_of};
ghost use Rattle.hlr_kept.specs.Draft.{IsDraft, draft_lines};

use edit_lines::{Event, push_first_line, push_line};
use journal::{Device, JournalFault, Tape};
use std::alloc::Global;

/// How many bytes are gathered before they are appended.
const GROUP: usize = 65_536;

/// The most bytes that a line of an event has, with its line feed.
const LINE: usize = 44;

/// Holds a tape, and the lines that are to be appended to it.
#[derive(Drop)]
pub(crate) struct Draft<D: Device> {
    tape: Tape<D>,
    group: Vec<u8>,
}

impl<D: Device> Draft<D> {
    /// Begins a journal on a tape that has no line. Gives up with `Memory`.
    pub(crate) fn begin(alloc: Global, tape: Tape<D>) -> Result<Draft<D>, JournalFault>
    where
        D: Drop,
        requires open_tape { IsOpen D.Device.seen D.Device.may_leave tape }
        requires whole { IsWhole (text (D.Device.seen tape.device)) }
        requires blank { recovered (D.Device.seen tape.device) ≡ [] }
        ensures draft { IfOk result (λ draft. IsDraft D.Device.seen D.Device.may_leave draft) }
        ensures lines { IfOk result (λ draft. draft_lines D.Device.seen draft ≡ first_line ∷ []) }
        ensures owner { IfOk result (λ draft. D.Device.owner draft.tape.device ≡ D.Device.owner tape.device) }
    {
        let mut group = Vec::with_capacity(alloc, GROUP)?;
        push_first_line(&mut group)?;
        Ok(Draft { tape, group })
    }

    /// Appends what was gathered to the tape. Gives up as `Tape::append` does.
    fn flush(&mut self) -> Result<(), JournalFault>
        requires draft { IsDraft D.seen D.may_leave self.old }
        ensures draft { OnOk result (IsDraft D.seen D.may_leave self.new) }
        ensures lines { OnOk result (draft_lines D.seen self.new ≡ draft_lines D.seen self.old) }
        ensures gathered { OnOk result (self.new.group.items ≡ []) }
        ensures owner { D.owner self.new.tape.device ≡ D.owner self.old.tape.device }
    {
        self.tape.append(&self.group)?;
        self.group.clear();
        Ok(())
    }

    /// Puts the line of an event behind the others. Gives up with `Memory`, and as `Tape::append` does.
    pub(crate) fn put(&mut self, event: &Event) -> Result<(), JournalFault>
        requires draft { IsDraft D.seen D.may_leave self.old }
        requires change { is_change event.now ≡ true }
        ensures draft { OnOk result (IsDraft D.seen D.may_leave self.new) }
        ensures lines { OnOk result (draft_lines D.seen self.new ≡ draft_lines D.seen self.old ++ line_of event.now ∷ []) }
        ensures owner { D.owner self.new.tape.device ≡ D.owner self.old.tape.device }
    {
        if self.group.len() > GROUP - LINE {
            self.flush()?;
        }
        push_line(&mut self.group, event)?;
        Ok(())
    }

    /// Appends what is left, and returns the tape, which is to be synced. Gives up as `Tape::append` does.
    pub(crate) fn finish(self) -> Result<Tape<D>, JournalFault>
    where
        D: Drop,
        requires draft { IsDraft D.Device.seen D.Device.may_leave self }
        ensures open_tape { IfOk result (λ tape. IsOpen D.Device.seen D.Device.may_leave tape) }
        ensures whole { IfOk result (λ tape. IsWhole (text (D.Device.seen tape.device))) }
        ensures lines { IfOk result (λ tape. recovered (D.Device.seen tape.device) ≡ draft_lines D.Device.seen self) }
        ensures owner { IfOk result (λ tape. D.Device.owner tape.device ≡ D.Device.owner self.tape.device) }
    {
        let Draft { mut tape, group } = self;
        tape.append(&group)?;
        Ok(tape)
    }
}
