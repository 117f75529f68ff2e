//! Gates by which a test sees which workers work at once, or holds one up.
use hlr_workers::Gate;
use std::sync::atomic::{AtomicBool, AtomicU64, Ordering};
use std::thread;

/// How often a gate looks, before it gives up waiting.
const TURNS: u32 = 10_000_000;

/// A gate that is always open.
#[derive(Drop)]
pub struct Open;

impl Gate for Open {
    fn before(&self, _part: u8, _seq: u64) {}

    fn after(&self, _part: u8, _seq: u64) {}
}

/// A gate at which each part waits for all others: a bit for each part that has come.
#[derive(Drop)]
pub struct Meeting {
    all: u64,
    came: AtomicU64,
    gave_up: AtomicBool,
}

impl Meeting {
    /// A gate for the parts from 0 on, so many.
    pub fn of(parts: u8) -> Self {
        Meeting {
            all: 1u64.wrapping_shl(u32::from(parts)).wrapping_sub(1),
            came: AtomicU64::new(0),
            gave_up: AtomicBool::new(false),
        }
    }

    /// Whether a part gave up waiting for the others.
    pub fn gave_up(&self) -> bool {
        self.gave_up.load(Ordering::SeqCst)
    }
}

impl Gate for Meeting {
    fn before(&self, part: u8, _seq: u64) {
        let bit = 1u64.wrapping_shl(u32::from(part));
        self.came.fetch_or(bit, Ordering::SeqCst);
        for _ in 0..TURNS {
            if self.came.load(Ordering::SeqCst) == self.all {
                return;
            }
            thread::yield_now();
        }
        self.gave_up.store(true, Ordering::SeqCst);
    }

    fn after(&self, _part: u8, _seq: u64) {}
}

/// What a worker waits at until it is let go.
#[derive(Drop)]
struct Latch {
    is_let_go: AtomicBool,
    gave_up: AtomicBool,
}

impl Latch {
    /// A latch that is closed.
    fn new() -> Self {
        Latch {
            is_let_go: AtomicBool::new(false),
            gave_up: AtomicBool::new(false),
        }
    }

    /// Waits until it is let go.
    fn wait(&self) {
        for _ in 0..TURNS {
            if self.is_let_go.load(Ordering::SeqCst) {
                return;
            }
            thread::yield_now();
        }
        self.gave_up.store(true, Ordering::SeqCst);
    }

    /// Lets all that wait go.
    fn let_go(&self) {
        self.is_let_go.store(true, Ordering::SeqCst);
    }

    /// Whether somebody gave up waiting.
    fn gave_up(&self) -> bool {
        self.gave_up.load(Ordering::SeqCst)
    }
}

/// A gate that holds one part up until it is let go.
#[derive(Drop)]
pub struct Hold {
    held: u8,
    latch: Latch,
}

impl Hold {
    /// A gate that holds this part up.
    pub fn of(held: u8) -> Self {
        Hold {
            held,
            latch: Latch::new(),
        }
    }

    /// Lets the part go.
    pub fn let_go(&self) {
        self.latch.let_go();
    }

    /// Whether the part gave up waiting.
    pub fn gave_up(&self) -> bool {
        self.latch.gave_up()
    }
}

impl Gate for Hold {
    fn before(&self, part: u8, _seq: u64) {
        if part == self.held {
            self.latch.wait();
        }
    }

    fn after(&self, _part: u8, _seq: u64) {}
}

/// How often a part yields while a caller falls asleep.
pub const PAUSE: u32 = 200_000;

/// A gate that holds all parts but one up until that one has done its second job, behind which it yields so often.
#[derive(Drop)]
pub struct Second {
    other: u8,
    pause: u32,
    done: AtomicU64,
    latch: Latch,
}

impl Second {
    /// A gate that holds all parts but this one up until it has done two jobs and yielded so often.
    pub fn of(other: u8, pause: u32) -> Self {
        Second {
            other,
            pause,
            done: AtomicU64::new(0),
            latch: Latch::new(),
        }
    }

    /// Whether a part gave up waiting.
    pub fn gave_up(&self) -> bool {
        self.latch.gave_up()
    }
}

impl Gate for Second {
    fn before(&self, part: u8, _seq: u64) {
        if part != self.other {
            self.latch.wait();
        }
    }

    fn after(&self, part: u8, _seq: u64) {
        if part != self.other || self.done.fetch_add(1, Ordering::SeqCst) != 1 {
            return;
        }
        for _ in 0..self.pause {
            thread::yield_now();
        }
        self.latch.let_go();
    }
}

/// A gate that holds a worker up before its first job, until the caller is about to wait for a place in the worker's
/// full queue, and before its second job, until the caller has gone on, for which the second job was taken out of the
/// queue.
#[derive(Drop)]
pub struct Full {
    first: Latch,
    wait: Latch,
    has_left: AtomicBool,
    place: Latch,
}

impl Full {
    /// A gate to which no job has come.
    pub fn new() -> Self {
        Full {
            first: Latch::new(),
            wait: Latch::new(),
            has_left: AtomicBool::new(false),
            place: Latch::new(),
        }
    }

    /// Waits until the worker has come to its first job.
    pub fn meet(&self) {
        self.first.wait();
    }

    /// Has the worker go on from its first job, once it has yielded until a caller that waits has fallen asleep.
    pub fn begin_wait(&self) {
        self.wait.let_go();
    }

    /// Whether the worker has gone on from its first job.
    pub fn has_left(&self) -> bool {
        self.has_left.load(Ordering::SeqCst)
    }

    /// Has the worker go on from its second job.
    pub fn end_wait(&self) {
        self.place.let_go();
    }

    /// Whether somebody gave up waiting.
    pub fn gave_up(&self) -> bool {
        self.first.gave_up() || self.wait.gave_up() || self.place.gave_up()
    }

    /// What the worker does before its first job.
    fn hold_up(&self) {
        self.first.let_go();
        self.wait.wait();
        for _ in 0..PAUSE {
            thread::yield_now();
        }
        self.has_left.store(true, Ordering::SeqCst);
    }
}

impl Gate for Full {
    fn before(&self, _part: u8, seq: u64) {
        if seq == 0 {
            self.hold_up();
        } else if seq == 1 {
            self.place.wait();
        }
    }

    fn after(&self, _part: u8, _seq: u64) {}
}

/// A gate that counts the jobs that are done.
#[derive(Drop)]
pub struct Tally {
    done: AtomicU64,
    gave_up: AtomicBool,
}

impl Tally {
    /// A gate behind which no job was done.
    pub fn new() -> Self {
        Tally {
            done: AtomicU64::new(0),
            gave_up: AtomicBool::new(false),
        }
    }

    /// Waits until so many jobs are done.
    pub fn wait_for(&self, jobs: u64) {
        for _ in 0..TURNS {
            if self.done.load(Ordering::SeqCst) >= jobs {
                return;
            }
            thread::yield_now();
        }
        self.gave_up.store(true, Ordering::SeqCst);
    }

    /// Whether somebody gave up waiting.
    pub fn gave_up(&self) -> bool {
        self.gave_up.load(Ordering::SeqCst)
    }
}

impl Gate for Tally {
    fn before(&self, _part: u8, _seq: u64) {}

    fn after(&self, _part: u8, _seq: u64) {
        self.done.fetch_add(1, Ordering::SeqCst);
    }
}

/// How many parts have their calls counted.
const COUNTED: u64 = 3;

/// A gate that counts the calls of three parts whose jobs are numbered in turn, and those that come out of turn.
#[derive(Drop)]
pub struct Turns {
    calls: [AtomicU64; COUNTED as usize],
    out_of_turn: AtomicU64,
}

impl Turns {
    /// A gate that wasn't called.
    pub fn new() -> Self {
        Turns {
            calls: [AtomicU64::new(0), AtomicU64::new(0), AtomicU64::new(0)],
            out_of_turn: AtomicU64::new(0),
        }
    }

    /// How often each part called, and how often one did out of turn.
    pub fn counts(&self) -> ([u64; COUNTED as usize], u64) {
        let [first, second, third] = &self.calls;
        let calls = [first, second, third].map(|calls| calls.load(Ordering::SeqCst));
        (calls, self.out_of_turn.load(Ordering::SeqCst))
    }

    /// Counts a call round the job with a number, the first or the second one: each job before it called twice.
    fn count(&self, part: u8, seq: u64, is_second: bool) {
        let due = (seq / COUNTED)
            .wrapping_mul(2)
            .wrapping_add(u64::from(is_second));
        let found = match self.calls.get(usize::from(part)) {
            Some(calls) => calls.fetch_add(1, Ordering::SeqCst),
            None => u64::MAX,
        };
        if found != due || seq % COUNTED != u64::from(part) {
            self.out_of_turn.fetch_add(1, Ordering::SeqCst);
        }
    }
}

impl Gate for Turns {
    fn before(&self, part: u8, seq: u64) {
        self.count(part, seq, false);
    }

    fn after(&self, part: u8, seq: u64) {
        self.count(part, seq, true);
    }
}

/// A gate with two doors, before a job and after it: whoever comes to one waits until it is opened.
#[derive(Drop)]
pub struct Doors {
    came: AtomicU64,
    opened: AtomicU64,
    gave_up: AtomicBool,
}

impl Doors {
    /// A gate with both doors closed.
    pub fn new() -> Self {
        Doors {
            came: AtomicU64::new(0),
            opened: AtomicU64::new(0),
            gave_up: AtomicBool::new(false),
        }
    }

    /// Waits until a word is at least so much.
    fn wait(&self, word: &AtomicU64, least: u64) {
        for _ in 0..TURNS {
            if word.load(Ordering::SeqCst) >= least {
                return;
            }
            thread::yield_now();
        }
        self.gave_up.store(true, Ordering::SeqCst);
    }

    /// Comes to the door with a number, and goes through it.
    fn go_through(&self, door: u64) {
        self.came.store(door, Ordering::SeqCst);
        self.wait(&self.opened, door);
    }

    /// Waits until somebody came to the door with a number.
    pub fn meet(&self, door: u64) {
        self.wait(&self.came, door);
    }

    /// Opens the door with a number.
    pub fn open(&self, door: u64) {
        self.opened.store(door, Ordering::SeqCst);
    }

    /// Whether somebody gave up waiting.
    pub fn gave_up(&self) -> bool {
        self.gave_up.load(Ordering::SeqCst)
    }
}

impl Gate for Doors {
    fn before(&self, _part: u8, _seq: u64) {
        self.go_through(1);
    }

    fn after(&self, _part: u8, _seq: u64) {
        self.go_through(2);
    }
}
