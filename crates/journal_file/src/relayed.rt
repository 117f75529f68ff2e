//! A file whose calls its owner makes. Who can't reach the disk notes each call, and the owner is handed them in order.
ghost use Rattle.std.specs.Prelude.{◌≡◌, ◌≤◌, ◌++◌, [], ◌∷◌, length, map, reverse, IfErr, OnOk, OnErr, Some};
ghost use Rattle.journal_file.specs.Calls.{seen_after, seen_step, left_after, faults_in, left_since};
ghost use Rattle.journal_file.specs.Device.{Elapses, HasCause};
ghost use Rattle.journal_file.specs.Laws.{now_counts, now_alone, seen_left};
ghost use Rattle.journal_file.specs.Owed.{owed_call, owed_span, span_of, spans_of};
ghost use Rattle.journal_file.specs.Owner.{Owner};
ghost use Rattle.journal_file.specs.declared.fault.JournalFault.TheVariants.{Memory};
ghost use Rattle.journal_file.specs.declared.record.Step.TheVariants.{Held};

use crate::record::{Record, Step};
use crate::{Device, JournalFault};
use std::alloc::{AllocError, Global};
use std::mem;

/// The calls for which [`Relayed::reserve`] takes memory.
const CALLS: usize = 4;

/// A call on a file that its owner has yet to make.
#[derive(Drop)]
pub struct Owed {
    /// Which call it is, as one that is done.
    pub step: Step,
    /// Where it begins to write.
    pub from: usize,
    /// Where it ends.
    pub to: usize,
    /// What it writes, unless it writes zeros.
    pub bytes: Vec<u8>,
}

/// Writes a file through its owner, who makes each call that is owed, in order, and leaves out none. If one of them
/// fails, none that comes after it may be made.
#[derive(Drop)]
pub struct Relayed {
    alloc: Global,
    /// The number by which the owner knows the file.
    pub(crate) fd: i32,
    len: usize,
    /// The calls that the owner has yet to make, the oldest first.
    owed: Vec<Owed>,
    /// Memory for the next bytes.
    spare: Vec<u8>,
    log: Record,
    /// The calls that the owner has made.
    made: Record,
    // Each call that was noted was made or is owed, and none is owed that wasn't.
    ghost in_order: { log.calls ≡ map owed_call (reverse owed.items) ++ made.calls },
    // Each call is owed for the bytes of the file that it was noted for.
    ghost in_place: { spans_of log.calls ≡ map owed_span (reverse owed.items) ++ spans_of made.calls },
    ghost whole_len: { len ≡ length (seen_after log.calls) },
    ghost no_fault: { faults_in log.calls ≡ 0 },
}

impl Relayed {
    /// Takes a synced file that has these bytes.
    pub fn new(alloc: Global, fd: i32, bytes: &[u8]) -> Relayed
        ensures calls { result.log.calls ≡ (Held, bytes.now) ∷ [] }
        ensures fd { result.fd ≡ fd }
        ensures owed { result.owed.items ≡ [] }
        ensures made { result.made.calls ≡ (Held, bytes.now) ∷ [] }
    {
        Relayed {
            alloc,
            fd,
            len: bytes.len(),
            owed: Vec::new(alloc),
            spare: Vec::new(alloc),
            log: Record::of_read(bytes),
            made: Record::of_read(bytes),
        }
    }

    /// Returns the number by which the owner knows the file.
    pub fn fd(&self) -> i32
        ensures { result ≡ self.now.fd }
    {
        self.fd
    }

    /// Returns the calls that the owner has yet to make, the oldest first.
    pub fn owed(&self) -> &[Owed]
        ensures { result.now ≡ self.now.owed.items }
    {
        &self.owed
    }

    /// Takes memory for four more calls, which write so many bytes. Gives up with `Memory`.
    pub fn reserve(&mut self, more: usize) -> Result<(), JournalFault>
        ensures calls { self.new.log.calls ≡ self.old.log.calls }
        ensures fd { self.new.fd ≡ self.old.fd }
        ensures owed { self.new.owed.items ≡ self.old.owed.items }
        ensures made { self.new.made.calls ≡ self.old.made.calls }
        ensures cause { IfErr result (λ why. why ≡ Memory) }
    {
        self.owed.reserve(CALLS)?;
        self.spare.reserve(more)?;
        Ok(())
    }

    /// Notes that the owner has made all calls that it was owed.
    pub fn note_made(&mut self)
        ensures calls { self.new.log.calls ≡ self.old.log.calls }
        ensures fd { self.new.fd ≡ self.old.fd }
        ensures owed { self.new.owed.items ≡ [] }
        ensures made { self.new.made.calls ≡ self.old.log.calls }
    {
        self.owed.clear();
        self.made = Record::copy(&self.log);
    }

    /// Notes a call as done, and owes it. The file has `len` bytes after it. Gives up with `Memory`, and then does
    /// neither.
    fn owe(&mut self, call: Owed, len: usize) -> Result<(), JournalFault>
        requires place { span_of call.step call.bytes.items (seen_after self.old.log.calls) ≡ owed_span call }
        requires len { len ≡ length (seen_step call.step call.bytes.items (seen_after self.old.log.calls)) }
        ensures noted { OnOk result (self.new.log.calls ≡ owed_call call ∷ self.old.log.calls) }
        ensures same { OnErr result (self.new.log.calls ≡ self.old.log.calls) }
        ensures fd { self.new.fd ≡ self.old.fd }
        ensures made { self.new.made.calls ≡ self.old.made.calls }
        ensures cause { IfErr result (λ why. why ≡ Memory) }
    {
        let content = Record::of_read(&call.bytes);
        let step = call.step;
        self.owed.push(call)?;
        self.log = Record::with(&self.log, &step, &content);
        self.len = len;
        Ok(())
    }
}

impl Device for Relayed {
    ghost seen = { λ f. seen_after f.log.calls };

    ghost may_leave = { λ f. left_after f.log.calls };

    ghost moment = { λ f. length f.log.calls };

    ghost left_since = { λ f. left_since f.log.calls };

    ghost faults = { λ f. faults_in f.log.calls };

    ghost owner = { λ f. Some (record { fd = f.fd; made = f.made.calls }) };

    ghost counts_now = { λ f t c le now. now_counts f.log.calls t c now };

    ghost leaves_seen = { λ f. seen_left f.log.calls };

    ghost only_now = { λ f c left. now_alone f.log.calls c left };

    fn write_at(&mut self, at: usize, bytes: &[u8]) -> Result<(), JournalFault> {
        let len = self.len;
        let mut content = mem::replace(&mut self.spare, Vec::new(self.alloc));
        content.clear();
        content.extend_from_slice(bytes)?;
        let call = Owed {
            step: Step::Wrote { at, is_done: true },
            from: at,
            to: at + bytes.len(),
            bytes: content,
        };
        self.owe(call, len)
    }

    fn blank(&mut self, from: usize) -> Result<(), JournalFault> {
        let call = Owed {
            step: Step::Blanked {
                from,
                is_done: true,
            },
            from,
            to: self.len,
            bytes: Vec::new(self.alloc),
        };
        self.owe(call, self.len)
    }

    fn grow(&mut self, more: usize) -> Result<(), JournalFault> {
        let end = self.len.checked_add(more).ok_or(AllocError)?;
        let call = Owed {
            step: Step::Grew {
                more,
                is_done: true,
            },
            from: self.len,
            to: end,
            bytes: Vec::new(self.alloc),
        };
        self.owe(call, end)
    }

    fn sync(&mut self) -> Result<(), JournalFault> {
        let call = Owed {
            step: Step::Synced { is_done: true },
            from: 0,
            to: 0,
            bytes: Vec::new(self.alloc),
        };
        self.owe(call, self.len)
    }
}
