//! A reader that knows how far it has read whole records.
ghost use Rattle.std.specs.Prelude.{◌≡◌, IfOk};
ghost use Rattle.hlr.specs.WholeRecords.{inner_remaining};

use std::alloc::Global;
use std::io::{self, BufReader, Read};

/// The state of a text of records after a byte.
#[derive(Clone, Copy, Debug, PartialEq, Eq)]
enum TextState {
    /// Before the first byte.
    Start,
    /// After the first byte of a byte order mark.
    MarkBegun,
    /// After the second byte of a byte order mark.
    MarkAlmost,
    /// Where a record begins.
    Record,
    /// Where a further field begins.
    Field,
    /// In a field without quotes, or after the quotes of a field.
    Plain,
    /// In quotes.
    Quoted,
    /// After a quote in quotes, which ends the quotes or is the first of two.
    Closing,
}

/// Returns the state after a quote.
fn state_after_quote(state: TextState) -> TextState {
    match state {
        TextState::Quoted => TextState::Closing,
        TextState::MarkBegun | TextState::MarkAlmost | TextState::Plain => TextState::Plain,
        _ => TextState::Quoted,
    }
}

/// Returns the state after a byte that is no quote, no comma and no line end, outside quotes.
fn state_after_letter(state: TextState, byte: u8) -> TextState {
    match (state, byte) {
        (_, 0..=0x7f) => TextState::Plain,
        (TextState::Start, 0xef) => TextState::MarkBegun,
        (TextState::MarkBegun, 0xbb) => TextState::MarkAlmost,
        (TextState::MarkAlmost, 0xbf) => TextState::Record,
        _ => TextState::Plain,
    }
}

/// Returns the state after a further byte.
fn state_after(state: TextState, byte: u8) -> TextState {
    match byte {
        b'"' => state_after_quote(state),
        _ if state == TextState::Quoted => TextState::Quoted,
        b',' => TextState::Field,
        b'\n' | b'\r' => TextState::Record,
        _ => state_after_letter(state, byte),
    }
}

/// Returns whether a byte ends a line.
fn ends_line(byte: u8) -> bool {
    byte == b'\n' || byte == b'\r'
}

/// Returns whether a record ended between a state and the next one.
fn is_end(state: TextState, next: TextState) -> bool {
    next == TextState::Record
        && match state {
            TextState::Start | TextState::MarkAlmost | TextState::Record => false,
            _ => true,
        }
}

/// Finds the end of the last line of a block that has a byte before its end.
fn last_line_end(block: &[u8]) -> Option<usize> {
    let mut is_ended = false;
    for i in (0..block.len()).rev() {
        if ends_line(block[i]) {
            is_ended = true;
        } else if is_ended {
            return Some(i + 2);
        }
    }
    None
}

/// How many bytes were read, how many of them are whole records, and the state of the text behind them.
#[derive(Clone, Copy, Debug)]
struct Seen {
    read: u64,
    whole: u64,
    state: TextState,
}

impl Seen {
    /// Adds a block that has no quote and doesn't begin in quotes: each of its lines is a record.
    fn add_lines(&mut self, block: &[u8]) {
        if let Some(end) = last_line_end(block) {
            self.whole = self.read.saturating_add(end as u64);
        }
        if let Some(last) = block.last() {
            self.state = state_after(TextState::Field, *last);
        }
    }

    /// Adds any block, byte by byte.
    fn add_bytes(&mut self, block: &[u8]) {
        let mut state = self.state;
        let mut whole = self.whole;
        for (i, byte) in block.iter().enumerate() {
            let next = state_after(state, *byte);
            if is_end(state, next) {
                whole = self.read.saturating_add(i as u64 + 1);
            }
            state = next;
        }
        self.state = state;
        self.whole = whole;
    }

    /// Adds a block that was read.
    fn add(&mut self, block: &[u8]) {
        match self.state {
            TextState::Record | TextState::Field | TextState::Plain | TextState::Closing
                if !block.contains(&b'"') => {
                self.add_lines(block);
            }
            _ => self.add_bytes(block),
        }
        self.read = self.read.saturating_add(block.len() as u64);
    }
}

/// How many bytes are read at once.
const BLOCK: usize = 65_536;

/// A reader that reads the bytes of another one in blocks, and knows how many of those that it has read are whole
/// records. It reads a block when all of the one before is handed on.
#[derive(Drop)]
pub struct WholeRecords<R> {
    reader: BufReader<R>,
    seen: Seen,
}

impl<R> WholeRecords<R> {
    /// Returns whether a whole record was read that begins with this byte, where a record must begin.
    pub fn has_record_from(&self, at: u64) -> bool {
        at < self.seen.whole
    }
}

impl<R: Read + Drop> WholeRecords<R> {
    /// Makes the reader over this one, of which nothing was read yet. It returns an error if there is no memory for a
    /// block.
    pub fn new(alloc: Global, reader: R) -> io::Result<Self>
        ensures { IfOk result (λ whole. inner_remaining R.remaining whole ≡ R.remaining reader) }
    {
        let reader = BufReader::with_capacity(alloc, BLOCK, reader)?;
        let seen = Seen {
            read: 0,
            whole: 0,
            state: TextState::Start,
        };
        Ok(WholeRecords { reader, seen })
    }
}

impl<R: Read> Read for WholeRecords<R> {
    ghost remaining = { inner_remaining R.remaining };

    fn read(&mut self, buf: &mut [u8]) -> io::Result<usize> {
        let is_handed_on = self.reader.buffer().is_empty();
        let count = self.reader.read(buf)?;
        if is_handed_on {
            // The bytes that were read are those that are handed on now, and the rest.
            self.seen.add(&buf[..count]);
            self.seen.add(self.reader.buffer());
        }
        Ok(count)
    }
}
