//! What no clause says: readers and writers that are slow or fail, answers that come before a read may wait, the limit
//! of records, and the options. Whole scripts lie in the repository's `tests/scripts`, each with its answers.
mod any_bytes;
mod journaled;
mod owed;
mod parts;

use crate::fault::Fault;
use crate::fields::{parse_byte, parse_bytes, parse_digits, parse_number};
use crate::lines::{
    build_recut, build_reply, build_total, empty_line, put_cell, put_counted, put_pair,
};
use crate::options::{Options, read_options};
use crate::records::{Word, word_of};
use crate::reports::{Counts, build_counts, write_index};
use crate::run::run;
use crate::sink::{Out, PutFault, Sink, hand_on, put_all};
use clap::error::ErrorKind as OptionFault;
use hlr_core::Reply;
use number_index::NumberIndex;
use std::cell::Cell;
use std::io::{self, ErrorKind, Read, Write};
use std::process::Abort;
use std::sync::Wait;
use std::thread::Threads;
use tatp_actions::CELLS;
use tatp_rows::{Number, Refusal};

/// A run without threads, and one with.
const WAYS: [bool; 2] = [false, true];

/// What a tape does where it has no room.
#[derive(Clone, Copy, Debug, PartialEq, Eq)]
enum Ending {
    Fails,
    TakesNone,
}

/// A writer that keeps 2,048 bytes, with faults. While it holds bytes that aren't flushed, an answer is pending.
#[derive(Drop)]
struct Tape<'a> {
    pending: &'a Cell<bool>,
    bytes: [u8; 2048],
    kept: usize,
    taken: u64,
    writes: u32,
    longest: usize,
    stride: usize,
    room: usize,
    ending: Ending,
    interrupts: u8,
    waits: u8,
    flush_limit: u32,
    flushes: u32,
}

impl<'a> Tape<'a> {
    fn new(pending: &'a Cell<bool>) -> Self {
        pending.set(false);
        Tape {
            pending,
            bytes: [0; 2048],
            kept: 0,
            taken: 0,
            writes: 0,
            longest: 0,
            stride: usize::MAX,
            room: usize::MAX,
            ending: Ending::Fails,
            interrupts: 0,
            waits: 0,
            flush_limit: u32::MAX,
            flushes: 0,
        }
    }

    fn text(&self) -> &[u8] {
        &self.bytes[..self.kept.min(2048)]
    }
}

impl<'a> Write for Tape<'a> {
    fn write(&mut self, buf: &[u8]) -> io::Result<usize> {
        if self.waits < self.interrupts {
            self.waits += 1;
            return Err(io::Error::from(ErrorKind::Interrupted));
        }
        self.waits = 0;
        let count = buf.len().min(self.stride).min(self.room);
        if count == 0 && !buf.is_empty() && self.ending == Ending::Fails {
            return Err(io::Error::from(ErrorKind::BrokenPipe));
        }
        for byte in &buf[..count] {
            if self.kept < 2048 {
                self.bytes[self.kept] = *byte;
                self.kept += 1;
            }
        }
        self.room = self.room.saturating_sub(count);
        self.taken = self.taken.saturating_add(count as u64);
        self.writes = self.writes.saturating_add(1);
        self.longest = self.longest.max(count);
        self.pending.set(true);
        Ok(count)
    }

    fn flush(&mut self) -> io::Result<()> {
        self.flushes = self.flushes.saturating_add(1);
        if self.flushes > self.flush_limit {
            return Err(io::Error::from(ErrorKind::BrokenPipe));
        }
        self.pending.set(false);
        Ok(())
    }
}

/// What a feed does at the end of its text.
#[derive(Clone, Copy, Debug, PartialEq, Eq)]
enum Rest {
    Ends,
    Fails,
    Repeats,
}

/// A reader that gives a text, some bytes at a time. It fails where it is read while an answer is pending.
#[derive(Drop)]
struct Feed<'a> {
    pending: &'a Cell<bool>,
    text: &'a [u8],
    at: usize,
    stride: usize,
    rest: Rest,
}

impl<'a> Feed<'a> {
    fn new(pending: &'a Cell<bool>, text: &'a [u8], stride: usize) -> Self {
        Feed {
            pending,
            text,
            at: 0,
            stride,
            rest: Rest::Ends,
        }
    }
}

impl<'a> Read for Feed<'a> {
    fn read(&mut self, buf: &mut [u8]) -> io::Result<usize> {
        if self.pending.get() {
            return Err(io::Error::from(ErrorKind::WouldBlock));
        }
        if self.at >= self.text.len() && self.rest == Rest::Repeats {
            self.at = 0;
        }
        let left = &self.text[self.at.min(self.text.len())..];
        if left.is_empty() && self.rest == Rest::Fails {
            return Err(io::Error::from(ErrorKind::ConnectionReset));
        }
        let count = left.len().min(self.stride).min(buf.len());
        for (place, byte) in buf.iter_mut().zip(&left[..count]) {
            *place = *byte;
        }
        self.at = self.at.saturating_add(count);
        Ok(count)
    }
}

/// Answers what a reader gives on a tape, with two parts and zones of 4 subscribers.
fn answer_feed<R: AllocGlobal + Threads + Wait + Copy + Send + Sync + 'static, F: Read + Drop>(
    rt: &R,
    feed: F,
    tape: &mut Tape<'_>,
    threads: bool,
) -> Result<(), Fault> {
    run(rt, rt.alloc(), feed, &mut Out::new(tape), 2, 4, threads)
}

/// A subscriber who moves, and whose calls are forwarded: reads, changes, refusals, postings and reports.
const SCRIPT: &[u8] = b"sub,7,000000000000007,0000000000,0000000000,00000000000000000000,1,268435456
views
post,0,1
views
post,0,51
ul,000000000000007,4294967295
views
scan
post,0,51
views
fac,7,2,1,0,0,ABCDE
icf,000000000000007,2,0,8,000000000000100
icf,000000000000007,2,8,16,000000000000200
icf,000000000000007,2,16,24,000000000000300
gnd,7,2,16,1
gnd,7,2,16,8
views
gnd,7,2,0,8
post,0,51
active,7,2,0
views
active,7,2,0
views
gnd,7,2,16,1
usd,7,3,1,9
gsd,7
usd,7,2,1,9
gsd,7
icf,000000000000007,2,0,8,000000000000100
icf,000000000000008,2,0,8,000000000000100
fac,7,1,1,0,0,ABCDE
icf,000000000000007,1,16,3,000000000000400
gnd,7,1,16,2
gnd,7,1,16,3
views
";

/// The answers to the script.
const ANSWERS: &[u8] = b"ok
cell,25,0,1
cell,41,0,1
views,2
posted,1
cell,25,1,0
cell,41,0,1
views,2
posted,1
ok
cell,25,1,-1
cell,39,0,1
cell,41,1,0
views,3
cell,39,1
cell,41,1
scan,2
posted,2
cell,39,1,0
cell,41,1,0
views,2
ok
ok
ok
ok
numbers,000000000000100,000000000000200,000000000000300
numbers,000000000000200,000000000000300
cell,0,0,1
cell,1,0,1
cell,2,0,1
cell,3,0,1
cell,4,0,1
cell,5,0,1
cell,6,0,1
cell,7,0,1
cell,8,0,1
cell,9,0,1
cell,10,0,1
cell,11,0,1
cell,12,0,1
cell,13,0,1
cell,14,0,1
cell,15,0,1
cell,16,0,1
cell,17,0,1
cell,18,0,1
cell,19,0,1
cell,20,0,1
cell,21,0,1
cell,22,0,1
cell,23,0,1
cell,39,1,0
cell,41,1,4
views,26
refused,8,NoDestination
posted,25
ok
cell,0,1,-1
cell,1,1,-1
cell,2,1,-1
cell,3,1,-1
cell,4,1,-1
cell,5,1,-1
cell,6,1,-1
cell,7,1,-1
cell,8,1,-1
cell,9,1,-1
cell,10,1,-1
cell,11,1,-1
cell,12,1,-1
cell,13,1,-1
cell,14,1,-1
cell,15,1,-1
cell,16,1,-1
cell,17,1,-1
cell,18,1,-1
cell,19,1,-1
cell,20,1,-1
cell,21,1,-1
cell,22,1,-1
cell,23,1,-1
cell,39,1,0
cell,41,5,0
views,26
ok
cell,0,1,-1
cell,1,1,-1
cell,2,1,-1
cell,3,1,-1
cell,4,1,-1
cell,5,1,-1
cell,6,1,-1
cell,7,1,-1
cell,8,1,-1
cell,9,1,-1
cell,10,1,-1
cell,11,1,-1
cell,12,1,-1
cell,13,1,-1
cell,14,1,-1
cell,15,1,-1
cell,16,1,-1
cell,17,1,-1
cell,18,1,-1
cell,19,1,-1
cell,20,1,-1
cell,21,1,-1
cell,22,1,-1
cell,23,1,-1
cell,39,1,0
cell,41,5,0
views,26
refused,8,NoDestination
refused,6,NoFacility
subscriber,7,000000000000007,0000000000,0000000000,00000000000000000000,1,4294967295
ok
subscriber,7,000000000000007,1000000000,0000000000,00000000000000000000,1,4294967295
refused,9,Exists
refused,4,NoNumber
ok
ok
numbers,000000000000400
refused,8,NoDestination
cell,0,1,-1
cell,1,1,-1
cell,2,1,-1
cell,3,1,-1
cell,4,1,-1
cell,5,1,-1
cell,6,1,-1
cell,7,1,-1
cell,8,1,-1
cell,9,1,-1
cell,10,1,-1
cell,11,1,-1
cell,12,1,-1
cell,13,1,-1
cell,14,1,-1
cell,15,1,-1
cell,16,1,-1
cell,17,1,-1
cell,18,1,-1
cell,19,1,-1
cell,20,1,-1
cell,21,1,-1
cell,22,1,-1
cell,23,1,-1
cell,39,1,0
cell,41,5,2
views,26
";

/// Where the answer to each record of the script ends.
const ENDS: [usize; 36] = [
    0, 3, 35, 44, 76, 85, 88, 133, 160, 169, 201, 204, 207, 210, 213, 269, 309, 620, 644, 654, 657,
    992, 995, 1330, 1354, 1375, 1460, 1463, 1548, 1565, 1584, 1587, 1590, 1614, 1638, 1973,
];

/// Texts with their answers, and how often the sink is flushed where the text comes in one piece: at the end of the
/// piece, and where the reader has to read on to know that a record ends.
const TEXTS: [(&[u8], &[u8], u32); 13] = [
    (b"", b"", 1),
    (b"views\nviews\n", b"views,0\nviews,0\n", 2),
    (b"views\r\nviews\r\n", b"views,0\nviews,0\n", 2),
    (
        b"\r\nviews\r\n\r\n\nviews\n\n\r\n",
        b"views,0\nviews,0\n",
        2,
    ),
    (b"views\rviews\r\r", b"views,0\nviews,0\n", 2),
    (b"views\nviews", b"views,0\nviews,0\n", 3),
    (
        b"views\n,\nv",
        b"views,0\nrefused,19,Syntax\nrefused,19,Syntax\n",
        3,
    ),
    (b"\xef\xbb\xbfviews\nviews\n", b"views,0\nviews,0\n", 2),
    (b"\xef\xbb\xbf\"views\"\nviews\n", b"views,0\nviews,0\n", 2),
    (b"\xef\"\nviews\n", b"refused,19,Syntax\nviews,0\n", 2),
    (
        b"views\n\"a\n\"\"b,\n\"\nviews\n",
        b"views,0\nrefused,19,Syntax\nviews,0\n",
        2,
    ),
    (
        b"views\nx\"\nviews\n\"views\n",
        b"views,0\nrefused,19,Syntax\nviews,0\nrefused,19,Syntax\n",
        3,
    ),
    (
        b"views,\"\"\n\"\"\n",
        b"refused,19,Syntax\nrefused,19,Syntax\n",
        2,
    ),
];

#[test]
fn answers_come_before_a_read_may_wait(rt: HostRuntime) {
    let pending = Cell::new(false);
    for threads in WAYS {
        for (text, wanted, flushes) in TEXTS {
            for stride in 1..=24 {
                let mut tape = Tape::new(&pending);
                let feed = Feed::new(&pending, text, stride);
                let done = answer_feed(&rt, feed, &mut tape, threads);
                let found = if stride < 24 { flushes } else { tape.flushes };
                assert_eq!(rt; (done, tape.text(), found), (Ok(()), wanted, flushes));
            }
        }
    }
}

/// A writer that tells how many lines were flushed.
#[derive(Drop)]
struct FlushedLines<'a> {
    flushed: &'a Cell<usize>,
    lines: usize,
}

impl<'a> Write for FlushedLines<'a> {
    fn write(&mut self, buf: &[u8]) -> io::Result<usize> {
        for byte in buf {
            self.lines = self.lines.saturating_add(usize::from(*byte == b'\n'));
        }
        Ok(buf.len())
    }

    fn flush(&mut self) -> io::Result<()> {
        self.flushed.set(self.lines);
        Ok(())
    }
}

/// A reader that gives so many records, one at a time. It fails where one of them isn't answered and flushed yet.
#[derive(Drop)]
struct OneByOne<'a> {
    flushed: &'a Cell<usize>,
    given: usize,
    records: usize,
}

impl<'a> Read for OneByOne<'a> {
    fn read(&mut self, buf: &mut [u8]) -> io::Result<usize> {
        if self.flushed.get() != self.given {
            return Err(io::Error::from(ErrorKind::WouldBlock));
        }
        if self.given >= self.records {
            return Ok(0);
        }
        self.given = self.given.saturating_add(1);
        for (place, byte) in buf.iter_mut().zip(b"gsd,007\n") {
            *place = *byte;
        }
        Ok(buf.len().min(8))
    }
}

#[test]
fn each_answer_is_out_before_the_next_read(rt: HostRuntime) {
    for threads in WAYS {
        let flushed = Cell::new(0);
        let feed = OneByOne {
            flushed: &flushed,
            given: 0,
            records: 5,
        };
        let writer = FlushedLines {
            flushed: &flushed,
            lines: 0,
        };
        let done = run(&rt, rt.alloc(), feed, &mut Out::new(writer), 2, 4, threads);
        assert_eq!(rt; (done, flushed.get()), (Ok(()), 5));
    }
}

/// How many bytes come in all, how many at most at a time, and how often the sink is flushed: behind each piece that
/// ends a record, where a piece has at most 65,536 bytes, and at the end.
const PIECES: [(usize, usize, u32); 12] = [
    (12_288, usize::MAX, 2),
    (12_288, 8_192, 3),
    (12_288, 1_000, 14),
    (12_288, 5, 769),
    (65_536, usize::MAX, 2),
    (65_552, usize::MAX, 3),
    (147_456, usize::MAX, 4),
    (147_456, 65_536, 4),
    (147_456, 65_537, 4),
    (147_456, 50_000, 4),
    (147_456, 10_000, 16),
    (147_456, 16, 9_217),
];

/// A record of 16 bytes, again and again.
fn repeated(record: &[u8; 16]) -> [u8; 147_456] {
    let mut text = [0; 147_456];
    for (byte, letter) in text.iter_mut().zip(record.iter().cycle()) {
        *byte = *letter;
    }
    text
}

/// Asserts how often the sink is flushed where a text of such records comes in pieces.
fn expect_flushes<R: Abort + AllocGlobal + Threads + Wait + Copy + Send + Sync + 'static>(
    rt: &R,
    text: &[u8],
    threads: bool,
) {
    let pending = Cell::new(false);
    for (len, stride, flushes) in PIECES {
        let mut tape = Tape::new(&pending);
        let feed = Feed::new(&pending, &text[..len.min(text.len())], stride);
        let done = answer_feed(rt, feed, &mut tape, threads);
        let taken = (len as u64 / 16).wrapping_mul(18);
        assert_eq!(rt; (done, tape.taken, tape.flushes), (Ok(()), taken, flushes));
    }
}

#[test]
fn answers_are_flushed_once_a_piece(rt: HostRuntime) {
    for threads in WAYS {
        expect_flushes(&rt, &repeated(b"xxxxxxxxxxxxxxx\n"), threads);
        expect_flushes(&rt, &repeated(b"xx,\"xxxxxxxxx\"\r\n"), threads);
    }
}

/// Answers of 18 bytes are handed on once they are more than 65,536 bytes, and at the end of a piece.
#[test]
fn many_answers_are_handed_on_at_once(rt: HostRuntime) {
    let pending = Cell::new(false);
    let text = repeated(b"xxxxxxxxxxxxxxx\n");
    for threads in WAYS {
        let mut tape = Tape::new(&pending);
        let feed = Feed::new(&pending, &text, usize::MAX);
        let done = answer_feed(&rt, feed, &mut tape, threads);
        assert_eq!(rt;
            (done, tape.taken, tape.writes, tape.longest),
            (Ok(()), 9_216 * 18, 5, 65_538)
        );
    }
}

/// A report of 82,904 bytes.
#[test]
fn a_long_report_comes_whole(rt: HostRuntime) {
    let pending = Cell::new(false);
    let mut index = NumberIndex::new(rt.alloc()).expect(&rt, "an index");
    for s_id in 1..=3000 {
        let number = Number::try_new(u64::from(s_id)).expect(&rt, "a number");
        index.add(number, s_id).expect(&rt, "a pair");
    }
    for stride in [usize::MAX, 1000] {
        let mut tape = Tape::new(&pending);
        tape.stride = stride;
        let mut line = empty_line();
        let mut sink = Out::new(&mut tape);
        assert_eq!(rt; write_index(&index, &mut line, &mut sink), Ok(()));
        assert_eq!(rt; hand_on(&mut line, &mut sink), Ok(()));
        let begins = tape
            .text()
            .starts_with(b"number,000000000000001,1\nnumber,000000000000002,2\n");
        let whole = line.as_slice().is_empty();
        assert_eq!(rt; (tape.taken, begins, whole), (82_904, true, true));
    }
}

#[test]
fn one_byte_a_call_is_enough(rt: HostRuntime) {
    let pending = Cell::new(false);
    for threads in WAYS {
        for (given, taken) in [(1, usize::MAX), (8192, 1), (1, 1)] {
            let mut tape = Tape::new(&pending);
            tape.stride = taken;
            let done = answer_feed(&rt, Feed::new(&pending, SCRIPT, given), &mut tape, threads);
            assert_eq!(rt; (done, tape.text()), (Ok(()), ANSWERS));
        }
    }
}

#[test]
fn a_record_that_is_cut_ends_with_the_input_alone(rt: HostRuntime) {
    let pending = Cell::new(false);
    let ends: [(Rest, Result<(), Fault>, &[u8]); 2] = [
        (Rest::Ends, Ok(()), b"views,0\nrefused,19,Syntax\n"),
        (Rest::Fails, Err(Fault::Read), b"views,0\n"),
    ];
    for threads in WAYS {
        for (rest, done, wanted) in ends {
            let mut tape = Tape::new(&pending);
            let mut feed = Feed::new(&pending, b"views\ngs", 8192);
            feed.rest = rest;
            let found = answer_feed(&rt, feed, &mut tape, threads);
            assert_eq!(rt; (found, tape.text()), (done, wanted));
        }
    }
}

/// In a block of 65,536 bytes come 8,192 events, of which an engine has 4,096 pending at most.
#[test]
fn more_events_come_than_may_be_pending(rt: HostRuntime) {
    let pending = Cell::new(false);
    let text = repeated(b"gsd,007\ngsd,008\n");
    for threads in WAYS {
        let mut tape = Tape::new(&pending);
        let feed = Feed::new(&pending, &text, usize::MAX);
        let done = answer_feed(&rt, feed, &mut tape, threads);
        let wanted = (Ok(()), 18_432 * 23, 4);
        assert_eq!(rt; (done, tape.taken, tape.flushes), wanted);
    }
}

#[test]
fn readers_may_fail(rt: HostRuntime) {
    let pending = Cell::new(false);
    for threads in WAYS {
        let mut records = 0usize;
        for (left, byte) in SCRIPT.iter().enumerate() {
            let mut tape = Tape::new(&pending);
            let mut feed = Feed::new(&pending, &SCRIPT[..left], 7);
            feed.rest = Rest::Fails;
            let done = answer_feed(&rt, feed, &mut tape, threads);
            let wanted = &ANSWERS[..ENDS[records % 36].min(ANSWERS.len())];
            assert_eq!(rt;
                (done, tape.text(), pending.get()),
                (Err(Fault::Read), wanted, false)
            );
            records = records.saturating_add(usize::from(*byte == b'\n'));
        }
    }
}

#[test]
fn writers_may_be_slow_and_fail(rt: HostRuntime) {
    let pending = Cell::new(false);
    for threads in WAYS {
        for ending in [Ending::Fails, Ending::TakesNone] {
            for room in 0..=ANSWERS.len() {
                let mut tape = Tape::new(&pending);
                tape.stride = 2;
                tape.room = room;
                tape.ending = ending;
                let done = answer_feed(&rt, Feed::new(&pending, SCRIPT, 8192), &mut tape, threads);
                let is_whole = room == ANSWERS.len();
                let wanted = if is_whole { Ok(()) } else { Err(Fault::Write) };
                assert_eq!(rt;
                    (done, tape.text(), tape.flushes > 0),
                    (wanted, &ANSWERS[..room], is_whole)
                );
            }
        }
    }
}

/// Each command on rows, and each report.
const COMMANDS: &[u8] =
    b"sub,7,000000000000007,0000000000,0000000000,00000000000000000000,1,268435456
acc,7,4,255,0,ABC,VWXYZ
gad,7,4
fac,7,2,1,0,0,ABCDE
icf,000000000000007,2,0,8,000000000000100
icf,000000000000007,2,8,16,000000000000200
gnd,7,2,8,7
dcf,000000000000007,2,8
usd,7,2,1,9
gsd,7
active,7,2,0
number,7,000000000000009
scan
index
views
";

/// The answers to the commands.
const DONE: &[u8] = b"ok
ok
access,255,0,ABC,VWXYZ
ok
ok
ok
numbers,000000000000100,000000000000200
ok
ok
subscriber,7,000000000000007,1000000000,0000000000,00000000000000000000,1,268435456
ok
ok
cell,25,1
cell,41,4
scan,2
number,000000000000009,7
index,1
cell,25,0,1
cell,41,0,4
views,2
";

#[test]
fn each_command_is_answered(rt: HostRuntime) {
    let pending = Cell::new(false);
    for threads in WAYS {
        let mut tape = Tape::new(&pending);
        let done = answer_feed(&rt, Feed::new(&pending, COMMANDS, 8192), &mut tape, threads);
        assert_eq!(rt; (done, tape.text()), (Ok(()), DONE));
    }
}

/// Each command on regions, for two parts.
const REGIONS: &[u8] =
    b"sub,7,000000000000007,0000000000,0000000000,00000000000000000000,1,268435456
post,0,51
give,0,high,5
give,0,up,5
gsd,7
recut,9
recut
recut,2,3,4,5,6,7,8,9,10,11,12,13,14,15,16,17
regions
take,1,1
propose
recut,9
views
regions
";

/// The answers to them.
const MOVED: &[u8] = b"ok
posted,2
piece,1,5,65
refused,19,Syntax
refused,11,Moving
refused,11,Moving
refused,2,Field
refused,2,Field
part,0,1,5
piece,1,5,65
part,1,65,16777217
regions,3
taken,1,1
bounds,9
recut,1
cell,25,1,0
cell,41,1,0
views,2
part,0,1,9
part,1,9,16777217
regions,2
";

#[test]
fn regions_are_cut_and_shown(rt: HostRuntime) {
    let pending = Cell::new(false);
    for threads in WAYS {
        for room in [MOVED.len(), MOVED.len() - 60, MOVED.len() - 7, 170, 125] {
            let mut tape = Tape::new(&pending);
            tape.room = room;
            let done = answer_feed(&rt, Feed::new(&pending, REGIONS, 8192), &mut tape, threads);
            let is_whole = room == MOVED.len();
            assert_eq!(rt; (done.is_ok(), tape.text()), (is_whole, &MOVED[..room]));
        }
    }
}

#[test]
fn sixteen_parts_have_sixteen_regions(rt: HostRuntime) {
    let pending = Cell::new(false);
    for threads in WAYS {
        let mut tape = Tape::new(&pending);
        let feed = Feed::new(&pending, b"regions\n", 8192);
        let done = run(
            &rt,
            rt.alloc(),
            feed,
            &mut Out::new(&mut tape),
            16,
            4,
            threads,
        );
        let begins = tape.text().starts_with(b"part,0,1,9\npart,1,9,17\n");
        let ends = tape.text().ends_with(b"part,15,121,16777217\nregions,16\n");
        assert_eq!(rt; (done, begins, ends), (Ok(()), true, true));
    }
}

#[test]
fn a_writer_may_fail_in_a_report(rt: HostRuntime) {
    let pending = Cell::new(false);
    for threads in WAYS {
        for (text, room, wanted) in [
            (
                b"views\nscan\nviews\n".as_slice(),
                17,
                b"views,0\nscan,0\nvi".as_slice(),
            ),
            (COMMANDS, DONE.len() - 60, &DONE[..DONE.len() - 60]),
            (COMMANDS, DONE.len() - 40, &DONE[..DONE.len() - 40]),
        ] {
            let mut tape = Tape::new(&pending);
            tape.room = room;
            let done = answer_feed(&rt, Feed::new(&pending, text, 8192), &mut tape, threads);
            assert_eq!(rt; (done, tape.text()), (Err(Fault::Write), wanted));
        }
    }
}

#[test]
fn interrupted_writes_are_tried_again(rt: HostRuntime) {
    let pending = Cell::new(false);
    for threads in WAYS {
        for (interrupts, done, wanted) in [(100, Ok(()), ANSWERS), (101, Err(Fault::Write), b"")] {
            let mut tape = Tape::new(&pending);
            tape.stride = 1;
            tape.interrupts = interrupts;
            let feed = Feed::new(&pending, SCRIPT, 8192);
            let found = answer_feed(&rt, feed, &mut tape, threads);
            assert_eq!(rt; (found, tape.text()), (done, wanted));
        }
    }
}

#[test]
fn a_failed_flush_is_a_fault_of_the_writer(rt: HostRuntime) {
    let pending = Cell::new(false);
    // The third record is still to come when the first two are answered.
    let text = &SCRIPT[..92];
    for threads in WAYS {
        for (flush_limit, rest, wanted) in [
            (0, Rest::Ends, 35),
            (1, Rest::Ends, 44),
            (2, Rest::Ends, 44),
            (2, Rest::Fails, 44),
        ] {
            let mut tape = Tape::new(&pending);
            tape.flush_limit = flush_limit;
            let mut feed = Feed::new(&pending, text, 84);
            feed.rest = rest;
            let done = answer_feed(&rt, feed, &mut tape, threads);
            assert_eq!(rt;
                (done, tape.text(), tape.flushes),
                (Err(Fault::Write), &ANSWERS[..wanted], flush_limit + 1)
            );
        }
    }
}

#[test]
fn options_out_of_range_write_nothing(rt: HostRuntime) {
    let pending = Cell::new(false);
    for threads in WAYS {
        for (parts, width) in [(0, 4), (17, 4), (1, 0), (16, 524_289)] {
            let mut tape = Tape::new(&pending);
            let feed = Feed::new(&pending, SCRIPT, 8192);
            let done = run(
                &rt,
                rt.alloc(),
                feed,
                &mut Out::new(&mut tape),
                parts,
                width,
                threads,
            );
            assert_eq!(rt; (done, tape.taken, tape.flushes), (Err(Fault::Field), 0, 0));
        }
    }
}

#[test]
fn a_run_ends_after_a_million_records(rt: HostRuntime) {
    let pending = Cell::new(false);
    let mut lines = [b'x'; 8192];
    for i in 0..4096 {
        lines[2 * i + 1] = b'\n';
    }
    for threads in WAYS {
        let mut feed = Feed::new(&pending, &lines, 8192);
        feed.rest = Rest::Repeats;
        let mut tape = Tape::new(&pending);
        let done = answer_feed(&rt, feed, &mut tape, threads);
        let begins = tape
            .text()
            .starts_with(b"refused,19,Syntax\nrefused,19,Syntax\n");
        assert_eq!(rt;
            (done, tape.taken, begins),
            (Err(Fault::Read), 18 * 1_048_576, true)
        );
    }
}

/// Any allocation may be refused here: then the run ends with `Memory`, or a record is answered so.
#[test]
fn memory_is_told_each_refused(rt: HostRuntime) {
    let pending = Cell::new(false);
    for threads in WAYS {
        let mut tape = Tape::new(&pending);
        let done = answer_feed(&rt, Feed::new(&pending, SCRIPT, 8192), &mut tape, threads);
        let is_refused = done == Err(Fault::Memory) || (threads && done == Err(Fault::Thread));
        let text = tape.text();
        let lines = text.iter().filter(|byte| **byte == b'\n').count();
        let is_whole = text.is_empty() || text.last() == Some(&b'\n');
        assert!(rt; is_refused || (done == Ok(()) && lines >= 35));
        assert!(rt; is_whole && !pending.get());
    }
}

#[test]
fn lines_and_fields_are_as_told(rt: HostRuntime) {
    let mut line = empty_line();
    put_cell(&mut line, 71, i64::MIN, -1);
    put_counted(&mut line, 71, u64::MAX);
    let mut are_told = line.as_slice()
        == b"cell,71,-9223372036854775808,-1\ncell,71,18446744073709551615\n".as_slice();
    line.clear();
    build_total(&mut line, b"views,", 72);
    are_told &= line.as_slice() == b"views,72\n".as_slice();
    line.clear();
    build_reply(&mut line, &Reply::Refused(Refusal::Worn));
    are_told &= line.as_slice() == b"refused,17,Worn\n".as_slice();
    line.clear();
    build_recut(&mut line, Ok(15));
    are_told &= line.as_slice() == b"recut,15\n".as_slice();
    assert!(rt; are_told);
    assert_eq!(rt;
        (
            word_of(b"recut"),
            word_of(b"dissolve"),
            parse_byte(b"00255"),
            parse_byte(b"256")
        ),
        (
            Some(Word::Recut),
            Some(Word::Dissolve),
            Ok(255),
            Err(Refusal::Field)
        )
    );
    assert_eq!(rt;
        (
            parse_digits::<3>(b"aF0", 16),
            parse_bytes(b"00ff10A0000000000001")
        ),
        (Ok([10, 15, 0]), Ok([0, 255, 16, 160, 0, 0, 0, 0, 0, 1]))
    );
}

#[test]
fn numbers_are_read_to_their_borders(rt: HostRuntime) {
    let read: [(&[u8], u64); 12] = [
        (b"0", 0),
        (b"1", 1),
        (b"9", 9),
        (b"000000000000000", 0),
        (b"999999999999999", 999_999_999_999_999),
        (b"1000000000000000", 1_000_000_000_000_000),
        (b"0000000000000007", 7),
        (b"9999999999999999999", 9_999_999_999_999_999_999),
        (b"18446744073709551615", u64::MAX),
        (b"00018446744073709551615", u64::MAX),
        (b"00000000000000000000", 0),
        (b"0000000000000000000000001", 1),
    ];
    for (text, number) in read {
        assert_eq!(rt; parse_number(text), Ok(number));
    }
    let refused = [
        "",
        "+1",
        "-1",
        " 1",
        "1 ",
        "1x",
        "x",
        "/",
        ":",
        "1.0",
        "18446744073709551616",
        "99999999999999999999",
        "000000000000000000000x",
    ];
    assert_eq!(rt;
        refused.map(|text| parse_number(text.as_bytes())),
        [Err(Refusal::Field); 13]
    );
}

#[test]
fn numbers_are_written_to_their_borders(rt: HostRuntime) {
    let pending = Cell::new(false);
    let mut tape = Tape::new(&pending);
    let mut sink = Out::new(&mut tape);
    let mut line = empty_line();
    let mut power = 1u64;
    for _ in 0..19 {
        for number in [power.wrapping_sub(1), power] {
            line.clear();
            build_total(&mut line, b"", number);
            assert_eq!(rt; put_all(&mut sink, line.as_slice()), Ok(()));
        }
        power = power.wrapping_mul(10);
    }
    for (number, s_id) in [
        (999_999_999_999_999, 10),
        (1_000_000_000_000_000, 4_294_967_295),
        (u64::MAX, 0),
    ] {
        line.clear();
        put_pair(&mut line, number, s_id);
        assert_eq!(rt; put_all(&mut sink, line.as_slice()), Ok(()));
    }
    let told = b"0
1
9
10
99
100
999
1000
9999
10000
99999
100000
999999
1000000
9999999
10000000
99999999
100000000
999999999
1000000000
9999999999
10000000000
99999999999
100000000000
999999999999
1000000000000
9999999999999
10000000000000
99999999999999
100000000000000
999999999999999
1000000000000000
9999999999999999
10000000000000000
99999999999999999
100000000000000000
999999999999999999
1000000000000000000
number,999999999999999,10
number,1000000000000000,4294967295
number,18446744073709551615,0
";
    assert_eq!(rt; tape.text(), told.as_slice());
}

#[test]
fn pieces_and_reports_are_put(rt: HostRuntime) {
    let pending = Cell::new(false);
    let mut tape = Tape::new(&pending);
    let mut sink = Out::new(&mut tape);
    assert_eq!(rt; sink.put(b"ab"), Ok(2));
    assert_eq!(rt; put_all(&mut sink, b"cd"), Ok(()));
    let mut published = [0i64; CELLS as usize];
    published[usize::from(CELLS) - 1] = -3;
    let mut line = empty_line();
    let counts = Counts::Standing {
        published: &published,
        unposted: &[0; CELLS as usize],
    };
    build_counts(&counts, &mut line);
    assert_eq!(rt; hand_on(&mut line, &mut sink), Ok(()));
    assert_eq!(rt; sink.flush(), Ok(()));
    assert_eq!(rt; tape.text(), b"abcdcell,71,-3,0\nviews,1\n".as_slice());
    let mut tape = Tape::new(&pending);
    tape.interrupts = 1;
    tape.room = 0;
    let mut sink = Out::new(&mut tape);
    assert_eq!(rt; sink.put(b"ab"), Err(PutFault::Interrupted));
    assert_eq!(rt; sink.put(b"ab"), Err(PutFault::Failed));
}

#[test]
fn faults_have_codes_and_words(rt: HostRuntime) {
    let fault = Fault::Read;
    let shown = format!(in rt.alloc(); "{fault}").map(|text| text.as_str() == "read fault");
    assert_eq!(rt;
        (fault.code(), fault.words(), shown),
        (20, "read fault", Ok(true))
    );
}

#[test]
fn options_are_read(rt: HostRuntime) {
    let plain = Options {
        parts: 1,
        width: 524_288,
        threads: false,
        journal: None,
        snapshot_at: 64,
    };
    let mut given = [(&["hlr"] as &[&str], plain); 8];
    given[1] = (&["hlr", "--zone", "1"], Options { width: 1, ..plain });
    given[2] = (
        &["hlr", "--zone=524288", "--parts", "16"],
        Options { parts: 16, ..plain },
    );
    given[3] = (
        &["hlr", "--parts=2", "--zone=4"],
        Options {
            parts: 2,
            width: 4,
            ..plain
        },
    );
    given[4] = (
        &["hlr", "--threads"],
        Options {
            threads: true,
            ..plain
        },
    );
    given[5] = (
        &["hlr", "--journal", "a b"],
        Options {
            journal: Some("a b"),
            ..plain
        },
    );
    given[6] = (
        &["hlr", "--snapshot-at", "1"],
        Options {
            snapshot_at: 1,
            ..plain
        },
    );
    given[7] = (
        &["hlr", "--snapshot-at=1048576", "--journal=b"],
        Options {
            journal: Some("b"),
            snapshot_at: 1_048_576,
            ..plain
        },
    );
    for (words, wanted) in given {
        assert_eq!(rt; read_options(rt.alloc(), words).ok(), Some(wanted));
    }
    let refused: [(&[&str], OptionFault, bool); 12] = [
        (
            &["hlr", "--snapshot-at", "0"],
            OptionFault::ValueValidation,
            true,
        ),
        (
            &["hlr", "--snapshot-at", "1048577"],
            OptionFault::ValueValidation,
            true,
        ),
        (&["hlr", "--parts", "0"], OptionFault::ValueValidation, true),
        (
            &["hlr", "--parts", "17"],
            OptionFault::ValueValidation,
            true,
        ),
        (&["hlr", "--parts", "x"], OptionFault::ValueValidation, true),
        (&["hlr", "--zone", "0"], OptionFault::ValueValidation, true),
        (
            &["hlr", "--zone", "524289"],
            OptionFault::ValueValidation,
            true,
        ),
        (&["hlr", "--bogus"], OptionFault::UnknownArgument, true),
        (
            &["hlr", "--threads", "--threads"],
            OptionFault::ArgumentConflict,
            true,
        ),
        (&["hlr", "--threads=yes"], OptionFault::TooManyValues, true),
        (&["hlr", "--help"], OptionFault::DisplayHelp, false),
        (&["hlr", "--version"], OptionFault::DisplayVersion, false),
    ];
    for (words, kind, is_mistake) in refused {
        let found = match read_options(rt.alloc(), words) {
            Ok(_) => None,
            Err(error) => Some((error.kind(), error.use_stderr())),
        };
        assert_eq!(rt; found, Some((kind, is_mistake)));
    }
}
