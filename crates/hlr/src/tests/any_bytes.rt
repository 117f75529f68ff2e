//! Any bytes: inputs that are drawn are answered alike, however they come, and whoever answers them.
use super::{Feed, Rest, Tape, answer_feed};
use crate::fault::Fault;
use crate::fields::parse_number;
use std::cell::Cell;
use std::env::{self, Env};
use std::io::{self, Read};
use std::process::Abort;
use std::sync::Wait;
use std::thread::Threads;

/// How many inputs are drawn.
const INPUTS: u64 = 2000;

/// How many bytes an input has at most.
const ROOM: usize = 512;

/// The subscribers with whom inputs of records begin: one in each part.
const FIRST: [&[u8]; 2] = [
    b"sub,7,000000000000007,0000000000,0000000000,00000000000000000000,1,268435456",
    b"sub,66,000000000000066,1010101010,ABCDEFabcd,ffffffffffffffffffff,4294967295,1",
];

/// The records of which the rest is drawn.
const RECORDS: [&[u8]; 44] = [
    b"sub,8,000000000000008,0000000000,0000000000,00000000000000000000,1,1",
    b"acc,7,1,255,0,ABC,VWXYZ",
    b"acc,66,4,0,9,DEF,ABCDE",
    b"fac,7,2,1,0,0,ABCDE",
    b"fac,66,1,0,0,0,ABCDE",
    b"icf,000000000000007,2,0,8,000000000000100",
    b"icf,000000000000007,2,8,16,000000000000200",
    b"icf,000000000000066,1,16,24,000000000000300",
    b"dcf,000000000000007,2,8",
    b"active,7,2,0",
    b"active,66,1,1",
    b"usd,7,2,1,9",
    b"usd,66,1,0,255",
    b"ul,000000000000007,4294967295",
    b"ul,000000000000008,5",
    b"ul,000000000000066,536870912",
    b"number,7,000000000000008",
    b"number,66,000000000000007",
    b"gsd,7",
    b"gsd,8",
    b"gsd,66",
    b"gad,7,1",
    b"gad,66,4",
    b"gnd,7,2,8,7",
    b"gnd,66,1,16,1",
    b"post,0,72",
    b"post,0,1",
    b"post,1,72",
    b"give,0,high,5",
    b"give,0,low,8",
    b"give,1,low,70",
    b"take,1,0",
    b"take,1,1",
    b"take,2,1",
    b"divide,0,5",
    b"divide,1,70",
    b"dissolve,1",
    b"dissolve,2",
    b"views",
    b"scan",
    b"index",
    b"regions",
    b"propose",
    b"recut,9",
];

/// The bytes of which the other inputs are made, and which come into records.
const LETTERS: [u8; 32] = *b"0179,,,,\"\"\"\n\n\n\r\rgsdulviewtakpr\0\xff";

/// An input.
#[derive(Drop)]
struct Input {
    bytes: [u8; ROOM],
    len: usize,
}

impl Input {
    fn new() -> Self {
        Input {
            bytes: [0; ROOM],
            len: 0,
        }
    }

    /// Puts a byte behind the others, where there is room.
    fn put(&mut self, byte: u8) {
        if self.len < ROOM {
            self.bytes[self.len] = byte;
            self.len += 1;
        }
    }

    fn as_slice(&self) -> &[u8] {
        &self.bytes[..self.len.min(ROOM)]
    }
}

/// Numbers that look random (splitmix), and what they choose.
#[derive(Drop)]
struct Draws {
    seed: u64,
}

impl Draws {
    /// The next number that looks random.
    fn next(&mut self) -> u64 {
        self.seed = self.seed.wrapping_add(0x9e37_79b9_7f4a_7c15);
        let mut next = self.seed;
        next = (next ^ (next >> 30)).wrapping_mul(0xbf58_476d_1ce4_e5b9);
        next = (next ^ (next >> 27)).wrapping_mul(0x94d0_49bb_1331_11eb);
        next ^ (next >> 31)
    }

    /// One of so many numbers from 0 on.
    fn below(&mut self, count: usize) -> usize {
        (self.next() % (count.max(1) as u64)) as usize
    }

    /// One of the letters.
    fn letter(&mut self) -> u8 {
        LETTERS[(self.next() % 32) as usize]
    }

    /// Puts another byte in place of this one, this one twice, nothing, or this one in quotes.
    fn put_changed(&mut self, byte: u8, input: &mut Input) {
        match self.below(4) {
            0 => input.put(self.letter()),
            1 => {
                input.put(byte);
                input.put(byte);
            }
            2 => {
                input.put(b'"');
                input.put(byte);
                input.put(b'"');
            }
            _ => {}
        }
    }

    /// Puts a line end.
    fn put_line_end(&mut self, input: &mut Input) {
        match self.below(8) {
            0 => input.put(b'\r'),
            1 => {
                input.put(b'\r');
                input.put(b'\n');
            }
            _ => input.put(b'\n'),
        }
    }

    /// Puts a record, of which one byte is changed in one case of four.
    fn put_record(&mut self, record: &[u8], input: &mut Input) {
        let changed = self.below(record.len().wrapping_mul(4));
        for (i, byte) in record.iter().enumerate() {
            if i == changed {
                self.put_changed(*byte, input);
            } else {
                input.put(*byte);
            }
        }
        self.put_line_end(input);
    }

    /// Puts one of the records.
    fn put_any_record(&mut self, input: &mut Input) {
        let record = RECORDS[(self.next() % 44) as usize];
        self.put_record(record, input);
    }

    /// An input of records.
    fn records(&mut self) -> Input {
        let mut input = Input::new();
        self.put_record(FIRST[0], &mut input);
        self.put_record(FIRST[1], &mut input);
        for _ in 0..self.below(20) {
            self.put_any_record(&mut input);
        }
        input.len -= self.below(2).min(input.len);
        input
    }

    /// An input of letters, with a record here and there.
    fn letters(&mut self) -> Input {
        let mut input = Input::new();
        for _ in 0..self.below(ROOM) {
            if self.below(64) == 0 {
                self.put_any_record(&mut input);
            } else {
                input.put(self.letter());
            }
        }
        input
    }
}

/// A feed that gives a drawn number of bytes at a time, from 1 to the most.
#[derive(Drop)]
struct Torn<'a> {
    feed: Feed<'a>,
    most: usize,
    draws: Draws,
}

impl<'a> Read for Torn<'a> {
    fn read(&mut self, buf: &mut [u8]) -> io::Result<usize> {
        self.feed.stride = self.draws.below(self.most).saturating_add(1);
        self.feed.read(buf)
    }
}

/// A way to answer an input: how many bytes a read gives and a write takes at most, and whether with threads.
#[derive(Clone, Copy)]
struct Way {
    given: usize,
    taken: usize,
    threads: bool,
}

/// At once, without threads.
const PLAIN: Way = Way {
    given: usize::MAX,
    taken: usize::MAX,
    threads: false,
};

/// By one byte a read, by drawn numbers of bytes a read and a write, and with threads.
const OTHERS: [Way; 3] = [
    Way { given: 1, ..PLAIN },
    Way {
        given: 40,
        taken: 40,
        ..PLAIN
    },
    Way {
        threads: true,
        ..PLAIN
    },
];

/// Answers an input in one of the ways. The reader fails at the end of one input of eight, and the writer in one of
/// eight takes less than 256 bytes; in the others it takes 2,048.
fn answer_by<R: AllocGlobal + Threads + Wait + Copy + Send + Sync + 'static>(
    rt: &R,
    input: &[u8],
    seed: u64,
    way: Way,
    tape: &mut Tape<'_>,
) -> Result<(), Fault> {
    let mut draws = Draws { seed: !seed };
    let mut feed = Feed::new(tape.pending, input, 1);
    if draws.below(8) == 0 {
        feed.rest = Rest::Fails;
    }
    tape.room = 2048;
    if draws.below(8) == 0 {
        tape.room = draws.below(256);
    }
    tape.stride = draws.below(way.taken).saturating_add(1);
    let torn = Torn {
        feed,
        most: way.given,
        draws,
    };
    answer_feed(rt, torn, tape, way.threads)
}

/// Asserts that an input is answered alike in all ways: the same bytes, and the same end.
fn expect_alike<R: Abort + AllocGlobal + Threads + Wait + Copy + Send + Sync + 'static>(
    rt: &R,
    input: &[u8],
    seed: u64,
) {
    let pending = Cell::new(false);
    let mut plain = Tape::new(&pending);
    let wanted = answer_by(rt, input, seed, PLAIN, &mut plain);
    for way in OTHERS {
        let mut tape = Tape::new(&pending);
        let done = answer_by(rt, input, seed, way, &mut tape);
        assert_eq!(rt; (done, tape.text()), (wanted, plain.text()), "seed {seed}");
    }
}

/// A number from the environment, or this one.
fn given<R: AllocGlobal + Env>(rt: &R, name: &str, number: u64) -> u64 {
    match env::var(rt, name) {
        Ok(text) => parse_number(text.as_bytes()).unwrap_or(number),
        Err(_) => number,
    }
}

/// `any_bytes.sh` asks for other inputs, by the environment, and is told how many bytes they have.
#[test]
fn any_bytes_are_answered_alike(rt: HostRuntime) {
    let seed = given(&rt, "ANY_BYTES_SEED", 0);
    let inputs = given(&rt, "ANY_BYTES_INPUTS", INPUTS);
    let mut bytes = 0u64;
    for seed in seed..seed.saturating_add(inputs) {
        let mut draws = Draws { seed };
        let input = if seed % 2 == 0 {
            draws.records()
        } else {
            draws.letters()
        };
        expect_alike(&rt, input.as_slice(), seed);
        bytes = bytes.saturating_add(input.len as u64);
    }
    if seed != 0 || inputs != INPUTS {
        let _ = println!(rt; "{inputs} inputs, {bytes} bytes");
    }
}
