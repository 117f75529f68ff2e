//! Finds the lines in the bytes of a file while they are read.
ghost use Rattle.std.specs.Prelude.{◌≡◌, ◌≤◌, ◌<◌, ◌+◌, ◌^◌, ◌++◌, [], ◌∷◌, List, ℕ, false, length, take, slice_index, IfErr, IfOk, OnOk};
ghost use Rattle.std.specs.List.{AllByRecursion};
ghost use Rattle.journal_file.specs.declared.fault.JournalFault.TheVariants.{Memory};
ghost use Rattle.journal.specs.Inside.{IsEnd, IsFollowed, IsInner};
ghost use Rattle.journal.specs.Lines.{recovered};
ghost use Rattle.journal.specs.Machine.{AreRefused};

use crate::{Ends, Machine};
use journal_file::JournalFault;
use memchr::memchr2;
use std::alloc::Global;

/// Keeps what has to be known of the bytes that were read so far: where their parts end, and the line that has begun.
#[derive(Drop)]
pub struct Follower {
    pub(crate) ends: Ends,
    /// The line that has begun, which is the text behind the last line feed. It is cut off at [`Machine::too_long`] bytes.
    line: Vec<u8>,
    /// Whether a 0 was read, with which the text ends.
    is_over: bool,
}

impl Follower {
    /// Begins in front of the first byte of a file.
    pub(crate) fn new(alloc: Global) -> Follower
        ensures ends { (result.ends.whole ≡ 0) × (result.ends.text ≡ 0) × (result.ends.len ≡ 0) }
        ensures line { result.line.items ≡ [] }
        ensures over { result.is_over ≡ false }
    {
        Follower {
            ends: Ends {
                whole: 0,
                text: 0,
                len: 0,
            },
            line: Vec::new(alloc),
            is_over: false,
        }
    }

    /// Takes the next bytes of the file, and hands each line whose line feed is among them to the machine. Gives up as
    /// the machine does, or with `Memory`.
    pub(crate) fn follow<M: Machine>(
        &mut self,
        machine: &mut M,
        piece: &[u8],
    ) -> Result<(), JournalFault>
        requires ready { M.IsReady machine.old }
        requires order { self.old.ends.text ≤ self.old.ends.len }
        requires fits { self.old.ends.len + length piece.now < 2 ^ 64 }
        ensures ready { OnOk result (M.IsReady machine.new) }
        ensures len { OnOk result (self.new.ends.len ≡ self.old.ends.len + length piece.now) }
        ensures follows { OnOk result ((bytes : List ℕ) (first : M) → IsFollowed M.moves M.too_long bytes first machine.old self.old
            → IsFollowed M.moves M.too_long (bytes ++ piece.now) first machine.new self.new) }
        ensures refused { IfErr result (λ why. (bytes : List ℕ) (first : M) → IsFollowed M.moves M.too_long bytes first machine.old self.old
            → AreRefused M.moves M.IsBad (recovered (bytes ++ piece.now)) first why) }
    {
        let mut at = 0;
        while at < piece.len() {
            at += self.take_line(machine, &piece[at..])?;
        }
        Ok(())
    }

    /// Takes the bytes up to the next 0 or line feed, with this one, or all bytes if there is none. Returns how many
    /// they are. A line that lies whole in the bytes is handed to the machine where it lies. Gives up as `follow` does.
    fn take_line<M: Machine>(
        &mut self,
        machine: &mut M,
        bytes: &[u8],
    ) -> Result<usize, JournalFault>
        requires ready { M.IsReady machine.old }
        requires order { self.old.ends.text ≤ self.old.ends.len }
        requires fits { self.old.ends.len + length bytes.now < 2 ^ 64 }
        requires some { 0 < length bytes.now }
        ensures ready { OnOk result (M.IsReady machine.new) }
        ensures order { OnOk result (self.new.ends.text ≤ self.new.ends.len) }
        ensures some { IfOk result (λ n. 0 < n) }
        ensures within { IfOk result (λ n. n ≤ length bytes.now) }
        ensures len { IfOk result (λ n. self.new.ends.len ≡ self.old.ends.len + n) }
        ensures follows { IfOk result (λ n. (read : List ℕ) (first : M) → IsFollowed M.moves M.too_long read first machine.old self.old
            → IsFollowed M.moves M.too_long (read ++ take n bytes.now) first machine.new self.new) }
        ensures refused { IfErr result (λ why. (read : List ℕ) (first : M) → IsFollowed M.moves M.too_long read first machine.old self.old
            → AreRefused M.moves M.IsBad (recovered (read ++ bytes.now)) first why) }
    {
        if self.is_over {
            self.ends.len += bytes.len();
            return Ok(bytes.len());
        }
        let n = inner(bytes);
        if n == bytes.len() {
            self.begin_line(M::too_long(), bytes)?;
            return Ok(n);
        }
        if bytes[n] == b'\n' && self.line.is_empty() {
            self.do_line(machine, &bytes[..n])?;
            return Ok(n + 1);
        }
        self.begin_line(M::too_long(), &bytes[..n])?;
        self.end_line(machine, bytes[n])?;
        Ok(n + 1)
    }

    /// Puts bytes behind the line that has begun, of which no more than `most` bytes are kept. Gives up with `Memory`.
    fn begin_line(&mut self, most: usize, bytes: &[u8]) -> Result<(), JournalFault>
        requires order { self.old.ends.text ≤ self.old.ends.len }
        requires fits { self.old.ends.len + length bytes.now < 2 ^ 64 }
        ensures line { OnOk result (length self.old.line.items ≤ most → self.new.line.items ≡ take most (self.old.line.items ++ bytes.now)) }
        ensures whole { OnOk result (self.new.ends.whole ≡ self.old.ends.whole) }
        ensures text { OnOk result (self.new.ends.text ≡ self.old.ends.text + length bytes.now) }
        ensures len { OnOk result (self.new.ends.len ≡ self.old.ends.len + length bytes.now) }
        ensures over { OnOk result (self.new.is_over ≡ self.old.is_over) }
        ensures refused { IfErr result (λ why. why ≡ Memory) }
    {
        let room = most.saturating_sub(self.line.len());
        let kept = bytes.len().min(room);
        self.line.extend_from_slice(&bytes[..kept])?;
        self.ends.text += bytes.len();
        self.ends.len += bytes.len();
        Ok(())
    }

    /// Hands a line to the machine, where none has begun, and takes its bytes and its line feed.
    fn do_line<M: Machine>(&mut self, machine: &mut M, line: &[u8]) -> Result<(), JournalFault>
        requires ready { M.IsReady machine.old }
        requires order { self.old.ends.text ≤ self.old.ends.len }
        requires fits { self.old.ends.len + length line.now + 1 < 2 ^ 64 }
        requires text { self.old.is_over ≡ false }
        requires none { self.old.line.items ≡ [] }
        requires inner { AllByRecursion IsInner line.now }
        ensures ready { OnOk result (M.IsReady machine.new) }
        ensures order { OnOk result (self.new.ends.text ≤ self.new.ends.len) }
        ensures len { OnOk result (self.new.ends.len ≡ self.old.ends.len + length line.now + 1) }
        ensures follows { OnOk result ((read : List ℕ) (first : M) → IsFollowed M.moves M.too_long read first machine.old self.old
            → IsFollowed M.moves M.too_long (read ++ line.now ++ 10 ∷ []) first machine.new self.new) }
        ensures refused { IfErr result (λ why. (read : List ℕ) (first : M) → IsFollowed M.moves M.too_long read first machine.old self.old
            → AreRefused M.moves M.IsBad (recovered (read ++ line.now ++ 10 ∷ [])) first why) }
    {
        machine.apply(line)?;
        self.ends.text += line.len() + 1;
        self.ends.len += line.len() + 1;
        self.ends.whole = self.ends.text;
        Ok(())
    }

    /// Takes the byte behind the line that has begun: a 0, with which the text ends, or a line feed, at which the line is
    /// handed to the machine. Gives up as the machine does.
    fn end_line<M: Machine>(&mut self, machine: &mut M, byte: u8) -> Result<(), JournalFault>
        requires ready { M.IsReady machine.old }
        requires order { self.old.ends.text ≤ self.old.ends.len }
        requires fits { self.old.ends.len + 1 < 2 ^ 64 }
        requires text { self.old.is_over ≡ false }
        requires end { IsEnd byte }
        ensures ready { OnOk result (M.IsReady machine.new) }
        ensures order { OnOk result (self.new.ends.text ≤ self.new.ends.len) }
        ensures len { OnOk result (self.new.ends.len ≡ self.old.ends.len + 1) }
        ensures follows { OnOk result ((bytes : List ℕ) (first : M) → IsFollowed M.moves M.too_long bytes first machine.old self.old
            → IsFollowed M.moves M.too_long (bytes ++ byte ∷ []) first machine.new self.new) }
        ensures refused { IfErr result (λ why. (bytes : List ℕ) (first : M) → IsFollowed M.moves M.too_long bytes first machine.old self.old
            → AreRefused M.moves M.IsBad (recovered (bytes ++ byte ∷ [])) first why) }
    {
        self.ends.len += 1;
        if byte == 0 {
            self.is_over = true;
            return Ok(());
        }
        self.ends.text += 1;
        if self.line.len() >= M::too_long() {
            return Err(JournalFault::BadLine);
        }
        machine.apply(&self.line)?;
        self.line.clear();
        self.ends.whole = self.ends.text;
        Ok(())
    }
}

/// Returns how many bytes stand in front of the first 0 or line feed, or how many there are.
fn inner(bytes: &[u8]) -> usize
    ensures within { result ≤ length bytes.now }
    ensures inner { AllByRecursion IsInner (take result bytes.now) }
    ensures end { result < length bytes.now → IsEnd (slice_index bytes.now result) }
{
    match memchr2(0, b'\n', bytes) {
        Some(place) => place,
        None => bytes.len(),
    }
}
