//! The sinks to which replies are written.
ghost use Rattle.std.specs.Prelude.{◌≡◌, ◌≤◌, ◌&&◌, ◌||◌, Bool, true, false, not, List, ℕ, Option, [], length, IfOk, OnOk};
ghost use Rattle.std.specs.Result.{is_err};
ghost use Rattle.std.specs.Io.KnownBytes.{Keeps, WriteAppends};
ghost use Rattle.hlr.specs.Sink.{Puts, stalls, takes};
ghost use Rattle.hlr.specs.Outgoing.{Adds, outgoing};
ghost use Rattle.hlr.specs.Written.{HasRoom};

use crate::lines::Line;
use std::io::{self, ErrorKind, Write};

/// The reason why a sink took no bytes.
#[derive(Clone, Copy, Debug, PartialEq, Eq)]
pub enum PutFault {
    /// A signal came first. The same call may succeed when it is tried again.
    Interrupted,
    /// The sink failed.
    Failed,
}

/// A sink, which takes the bytes of the replies.
pub trait Sink {
    // The bytes taken so far, if they are known.
    ghost taken: { Self → Option (List ℕ) };

    // Whether a put or a flush so far failed, was interrupted, or took 0 bytes of a piece that had some.
    ghost has_stalled: { Self → Bool };

    // Whether all bytes that were taken are flushed.
    ghost is_flushed: { Self → Bool };

    /// Takes the first bytes of the piece, and returns how many it took. If it fails, it has taken none.
    fn put(&mut self, piece: &[u8]) -> Result<usize, PutFault>
        ensures bound { IfOk result (λ n. n ≤ length piece.now) }
        ensures bytes { WriteAppends (taken self.old) (taken self.new) result piece.now }
        ensures told { has_stalled self.new ≡ (has_stalled self.old || stalls result piece.now) }
        ensures flushed { is_flushed self.new ≡ (is_flushed self.old && not (takes result)) };

    /// Hands on all bytes that were taken.
    fn flush(&mut self) -> Result<(), PutFault>
        ensures bytes { Keeps (taken self.old) (taken self.new) }
        ensures told { has_stalled self.new ≡ (has_stalled self.old || is_err result) }
        ensures flushed { OnOk result (is_flushed self.new ≡ true) };
}

/// The sink over a writer.
#[derive(Drop)]
pub struct Out<W: Write + Drop> {
    writer: W,
    stalled: bool,
    flushed: bool,
}

impl<W: Write + Drop> Out<W> {
    /// Makes the sink over this writer. It isn't known to be flushed.
    pub fn new(writer: W) -> Self
        ensures writer { result.writer ≡ writer }
        ensures quiet { result.stalled ≡ false }
        ensures unflushed { result.flushed ≡ false }
    {
        Out {
            writer,
            stalled: false,
            flushed: false,
        }
    }
}

impl<W: Write + Drop> Sink for Out<W> {
    ghost taken = { λ s. W.contents s.writer };

    ghost has_stalled = { λ s. s.stalled };

    ghost is_flushed = { λ s. s.flushed };

    fn put(&mut self, piece: &[u8]) -> Result<usize, PutFault> {
        match self.writer.write(piece) {
            Ok(n) => {
                if n > 0 {
                    self.flushed = false;
                } else if !piece.is_empty() {
                    self.stalled = true;
                }
                Ok(n)
            }
            Err(error) => {
                self.stalled = true;
                Err(put_fault(error))
            }
        }
    }

    fn flush(&mut self) -> Result<(), PutFault> {
        match self.writer.flush() {
            Ok(()) => {
                self.flushed = true;
                Ok(())
            }
            Err(error) => {
                self.stalled = true;
                self.flushed = false;
                Err(put_fault(error))
            }
        }
    }
}

/// Returns which fault a writer's error is.
fn put_fault(error: io::Error) -> PutFault {
    if error.kind() == ErrorKind::Interrupted {
        PutFault::Interrupted
    } else {
        PutFault::Failed
    }
}

/// The mark that a piece was not taken whole, because its put took 0 bytes, failed, or was interrupted too often.
#[derive(Clone, Copy, Debug, PartialEq, Eq)]
pub struct Stalled;

/// How often in a row a put is tried again that a signal has interrupted.
pub const RETRIES: u8 = 100;

/// Puts the whole piece into the sink. A put that is interrupted is tried again, up to 100 times in a row. If a put
/// takes 0 bytes or fails, this ends with `Stalled`, and some beginning of the piece was taken.
pub fn put_all<S: Sink>(sink: &mut S, piece: &[u8]) -> Result<(), Stalled>
    ensures put { Puts piece.now (S.taken sink.old) (S.taken sink.new) (S.has_stalled sink.new) result }
    ensures quiet { S.has_stalled sink.new ≡ false → S.has_stalled sink.old ≡ false }
{
    let mut rest = piece;
    let mut tries = 0u8;
    while !rest.is_empty() {
        match sink.put(rest) {
            Ok(0) => return Err(Stalled),
            Ok(n) => {
                rest = &rest[n..];
                tries = 0;
            }
            Err(PutFault::Interrupted) if tries < RETRIES => tries += 1,
            Err(_) => return Err(Stalled),
        }
    }
    Ok(())
}

/// Hands all lines on, so that none is left. If the sink fails, some beginning of them was taken.
pub fn hand_on<S: Sink>(line: &mut Line, sink: &mut S) -> Result<(), Stalled>
    ensures text { Adds [] (outgoing line.old.items (S.taken sink.old)) (outgoing line.new.items (S.taken sink.new)) (S.has_stalled sink.new) result }
    ensures empty { OnOk result (line.new.items ≡ []) }
{
    put_all(sink, line.as_slice())?;
    line.clear();
    Ok(())
}

/// Hands all lines on, if there isn't room for a further one.
#[inline(always)]
pub fn make_room<S: Sink>(line: &mut Line, sink: &mut S) -> Result<(), Stalled>
    ensures text { Adds [] (outgoing line.old.items (S.taken sink.old)) (outgoing line.new.items (S.taken sink.new)) (S.has_stalled sink.new) result }
    ensures room { OnOk result (HasRoom line.new.items) }
{
    if line.has_room() {
        return Ok(());
    }
    hand_on(line, sink)
}

/// Hands all lines on, and flushes the sink.
pub fn flush_line<S: Sink>(line: &mut Line, sink: &mut S) -> Result<(), Stalled>
    ensures text { Adds [] (outgoing line.old.items (S.taken sink.old)) (outgoing line.new.items (S.taken sink.new)) (S.has_stalled sink.new) result }
    ensures empty { OnOk result (line.new.items ≡ []) }
{
    hand_on(line, sink)?;
    match sink.flush() {
        Ok(()) => Ok(()),
        Err(_) => Err(Stalled),
    }
}
