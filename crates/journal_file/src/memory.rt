//! A file in memory. Each call is done at once, so a crash leaves what is there. The file keeps each content that it
//! has had, so that its clauses can speak of all moments.
ghost use Rattle.std.specs.Prelude.{◌≡◌, ◌⊎◌, ◌≤◌, ◌+◌, ◌-◌, ◌++◌, [], ◌∷◌, length, take, drop, replicate, IfOk, OnOk, OnErr, None};
ghost use Rattle.std.proofs.Common.{◌∙◌, ap, arith, inl, refl};
ghost use Rattle.journal_file.specs.Laws.{bytes_alone, longer_front};
ghost use Rattle.journal_file.specs.Memory.{HadBeen, memory_bytes, memory_read, memory_file};

use crate::{Device, JournalFault, Replace, Unread};
use std::alloc::{AllocError, Global};

/// Holds a file in memory, for tests and for a journal that nobody keeps.
#[derive(Drop)]
pub struct Memory {
    alloc: Global,
    bytes: Vec<u8>,
    past: Vec<Vec<u8>>,
}

impl Memory {
    /// Makes a file with these bytes, all of them on the disk.
    pub fn new(alloc: Global, bytes: Vec<u8>) -> Self
        ensures bytes { memory_bytes result ≡ bytes.items }
    {
        Memory {
            alloc,
            bytes,
            past: Vec::new(alloc),
        }
    }

    /// Returns the bytes that the file has.
    pub fn bytes(&self) -> &[u8]
        ensures bytes { result.now ≡ memory_bytes self.now }
    {
        &self.bytes
    }
}

/// Puts other bytes in the place of those that are there, which join the past ones.
fn put(
    alloc: Global,
    bytes: &mut Vec<u8>,
    past: &mut Vec<Vec<u8>>,
    next: Vec<u8>,
) -> Result<(), AllocError>
    ensures done { OnOk result (bytes.new.items ≡ next.items) }
    ensures refused { OnErr result (bytes.new.items ≡ bytes.old.items) }
    ensures past { OnOk result ((v : _) × (v.items ≡ bytes.old.items) × (past.new.items ≡ past.old.items ++ v ∷ [])) }
    ensures past_stays { OnErr result (past.new.items ≡ past.old.items) }
{
    past.push(bytes.to_vec(alloc)?)?;
    *bytes = next;
    Ok(())
}

/// Returns the file with these bytes written over it.
fn written(alloc: Global, file: &[u8], at: usize, bytes: &[u8]) -> Result<Vec<u8>, AllocError>
    requires fits { at + length bytes.now ≤ length file.now }
    ensures written { IfOk result (λ next. next.items ≡ take at file.now ++ bytes.now ++ drop (at + length bytes.now) file.now) }
{
    let mut next = file[..at].to_vec(alloc)?;
    next.extend_from_slice(bytes)?;
    next.extend_from_slice(&file[at + bytes.len()..])?;
    Ok(next)
}

/// Returns the file with zeros from an offset to the end.
fn blanked(alloc: Global, file: &[u8], from: usize) -> Result<Vec<u8>, AllocError>
    requires fits { from ≤ length file.now }
    ensures blanked { IfOk result (λ next. next.items ≡ take from file.now ++ replicate (length file.now - from) 0) }
{
    let mut next = file[..from].to_vec(alloc)?;
    next.resize(file.len(), 0)?;
    Ok(next)
}

impl Device for Memory {
    ghost seen = { λ m. m.bytes.items };

    ghost may_leave = { λ m c. c ≡ m.bytes.items };

    ghost moment = { λ m. length m.past.items };

    ghost left_since = { λ m t c. (c ≡ m.bytes.items) ⊎ HadBeen (drop t m.past.items) c };

    ghost faults = { λ m. 0 };

    ghost owner = { λ m. None };

    ghost counts_now = { λ m t c le now. inl now };

    ghost leaves_seen = { λ m. refl };

    ghost only_now = { λ m c left. bytes_alone m.past.items m.bytes.items c left };

    fn write_at(&mut self, at: usize, bytes: &[u8]) -> Result<(), JournalFault> {
        let next = written(self.alloc, &self.bytes, at, bytes)?;
        Ok(put(self.alloc, &mut self.bytes, &mut self.past, next)?)
    }

    fn blank(&mut self, from: usize) -> Result<(), JournalFault> {
        let next = blanked(self.alloc, &self.bytes, from)?;
        Ok(put(self.alloc, &mut self.bytes, &mut self.past, next)?)
    }

    fn grow(&mut self, more: usize) -> Result<(), JournalFault> {
        let mut next = self.bytes.to_vec(self.alloc)?;
        let len = next.len().checked_add(more).ok_or(AllocError)?;
        next.resize(len, 0)?;
        Ok(put(self.alloc, &mut self.bytes, &mut self.past, next)?)
    }

    fn sync(&mut self) -> Result<(), JournalFault> {
        Ok(())
    }
}

impl Replace for Memory {
    fn replace(&mut self, next: Memory) -> Result<(), JournalFault> {
        Ok(put(self.alloc, &mut self.bytes, &mut self.past, next.bytes)?)
    }
}

/// Reads a file in memory from its front to its end.
#[derive(Drop)]
pub struct UnreadMemory {
    file: Memory,
    at: usize,
}

impl UnreadMemory {
    /// Begins at the front of the file.
    pub fn new(file: Memory) -> UnreadMemory
        ensures read { memory_read result ≡ [] }
        ensures file { memory_file result ≡ file }
    {
        UnreadMemory { file, at: 0 }
    }
}

impl Unread for UnreadMemory {
    ghost use Rattle.journal_file.specs.declared.memory.Memory.{Memory};

    type File = Memory;

    ghost read = { λ u. take u.at u.file.bytes.items };

    ghost IsRead = { λ u. length u.file.bytes.items ≤ u.at };

    ghost file = { λ u. u.file };

    ghost faults = { λ u. 0 };

    ghost IsReadOn = { λ first last. (last.file ≡ first.file) × (first.at ≤ last.at) };

    ghost is_itself = { λ file. (refl, omega (arith)) };

    ghost stays_same = { λ first then last more again. (again.0 ∙ more.0, omega (arith, more.1, again.1)) };

    ghost reads_front = { λ first last more. longer_front first.at last.at first.file.bytes.items last.file.bytes.items (ap (λ (m : Memory). m.bytes.items) more.0) more.1 };

    fn read_on(&mut self, buffer: &mut [u8]) -> Result<usize, JournalFault> {
        let len = self.file.bytes.len();
        if self.at >= len {
            return Ok(0);
        }
        let n = buffer.len().min(len - self.at);
        buffer[..n].copy_from_slice(&self.file.bytes[self.at..self.at + n]);
        self.at += n;
        Ok(n)
    }

    fn into_device(self) -> Memory {
        self.file
    }
}
