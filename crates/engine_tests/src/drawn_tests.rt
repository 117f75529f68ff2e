//! Engines against a register of one thread, on the same drawn steps.
use crate::draws::{Draws, NUMBERS, SUBSCRIBERS, Step, s_id_at};
use crate::engines::{
    are_replies, ask, engine_over, open_gate, peopled, published, read, recounted, recut, submit,
    unposted,
};
use crate::gates::Open;
use hlr_core::{Event, NumberIndex, Parts, Register, Reply, Route, WORDS};
use hlr_workers::Engine;
use part_table::Regions;
use std::alloc::Global;
use std::process::Abort;
use std::sync::Wait;
use std::thread::Threads;
use tatp_rows::Number;

/// How many scripts are drawn for each number of parts.
const SCRIPTS: u64 = 72;

/// How many re-cuts that move a bound they have at least, where there are several parts.
const RECUTS: u64 = 5 * SCRIPTS;

/// How many parts come and how many go in them at least, and how many of both are refused.
const PARTINGS: u64 = 2 * SCRIPTS;

/// How many steps a script has.
const STEPS: u64 = 300;

/// How many events there are whose replies don't depend on when they are settled.
const EVENTS: u64 = 10_000;

/// How many drawn jobs there are, and how many of them at most between two calls that hand on what is held.
const JOBS: u64 = 20_000;

const APART: u64 = 80;

/// How many jobs a message has at most. All but the first job of a worker are held until there are so many.
const MESSAGE: u32 = 16;

/// A bit for each number of jobs that may be held while a queue has places: 0 to 15.
const ALL_HELD: u64 = 65_535;

/// How many jobs are held, where queues have places, for each part whose worker is out; and, for each kind of call that
/// hands them on, a bit for each number that was held for a part then.
#[derive(Clone, Copy, Default)]
struct Held {
    jobs: [Option<u32>; 16],
    at_settles: u64,
    at_sights: u64,
    at_cuts: u64,
    at_changes: u64,
}

impl Held {
    /// Counts an event that goes there: the first job of a worker is pushed, and then each full message.
    fn note(&mut self, route: &Route) {
        if let Route::To(part, _) = route
            && let Some(held) = self.jobs.get_mut(usize::from(*part))
        {
            *held = match *held {
                Some(count) => Some(count.wrapping_add(1) % MESSAGE),
                None => Some(0),
            };
        }
    }

    /// Hands all on: a bit for each number that was held.
    fn hand_on(&mut self) -> u64 {
        let mut seen = 0u64;
        for held in &mut self.jobs {
            if let Some(count) = *held {
                seen |= 1u64.wrapping_shl(count);
                *held = Some(0);
            }
        }
        seen
    }

    /// Brings parts home.
    fn bring_home(&mut self, parts: Parts) {
        for part in parts.first..parts.end {
            if let Some(held) = self.jobs.get_mut(usize::from(part)) {
                *held = None;
            }
        }
    }

    /// Brings the parts home on both sides of each bound that a re-cut moves.
    fn bring_sides_home(&mut self, regions: &Regions, bounds: &[u64]) {
        let Ok(moves) = regions.moves_to(bounds) else {
            return;
        };
        for bound_move in moves.as_slice() {
            let bound = bound_move.bound;
            self.bring_home(Parts {
                first: bound.saturating_sub(1),
                end: bound.saturating_add(1),
            });
        }
    }

    /// Hands on what an event does that the register does itself; another one is counted.
    fn take(&mut self, register: &Register, event: &Event) {
        let route = register.route(event);
        if route == Route::Here {
            self.at_changes |= self.hand_on();
            self.bring_home(register.parts_for(event));
        }
        self.note(&route);
    }

    /// Hands on what a step does, before a register does it.
    fn step(&mut self, register: &Register, step: &Step) {
        match step {
            Step::Take(event) => self.take(register, event),
            Step::Cut(bounds) => {
                self.at_cuts |= self.hand_on();
                self.bring_sides_home(register.regions(), bounds.as_slice());
            }
            Step::Look => self.at_sights |= self.hand_on(),
            Step::Settle => {
                self.at_settles |= self.hand_on();
                self.jobs = [None; 16];
            }
        }
    }

    /// The numbers that were held at each kind of call.
    fn seen(&self) -> [u64; 4] {
        [
            self.at_settles,
            self.at_sights,
            self.at_cuts,
            self.at_changes,
        ]
    }
}

/// How many re-cuts moved a bound, how many parts came and how many went, and how many of both were refused.
#[derive(Clone, Copy, Default)]
struct Counts {
    moved: u64,
    came: u64,
    went: u64,
    refused: u64,
}

impl Counts {
    /// Counts an event that was replied to so.
    fn note(&mut self, event: &Event, reply: &Reply) {
        match (event, reply) {
            (Event::Divide { .. }, Reply::Divided { .. }) => self.came = self.came.wrapping_add(1),
            (Event::Dissolve { .. }, Reply::Dissolved { .. }) => {
                self.went = self.went.wrapping_add(1);
            }
            (Event::Divide { .. } | Event::Dissolve { .. }, _) => {
                self.refused = self.refused.wrapping_add(1);
            }
            _ => {}
        }
    }

    /// Adds others.
    fn add(&mut self, others: Counts) {
        self.moved = self.moved.wrapping_add(others.moved);
        self.came = self.came.wrapping_add(others.came);
        self.went = self.went.wrapping_add(others.went);
        self.refused = self.refused.wrapping_add(others.refused);
    }

    /// Whether bounds moved, and parts came, went and were refused, as often as in all scripts.
    fn are_enough(&self) -> bool {
        self.moved >= RECUTS
            && self.came >= PARTINGS
            && self.went >= PARTINGS
            && self.refused >= PARTINGS
    }
}

/// A register of one thread, its replies that are still to come from the engine, what the engine saw last, and how
/// often its regions changed.
#[derive(Drop)]
struct Double {
    register: Register,
    due: Vec<Reply>,
    seen: [u64; WORDS],
    counts: Counts,
}

/// Whether each word is at least what it was, and at most another one.
fn are_between(low: &[u64; WORDS], words: &[u64; WORDS], high: &[u64; WORDS]) -> bool {
    for ((low, word), high) in low.iter().zip(words).zip(high) {
        if word < low || high < word {
            return false;
        }
    }
    true
}

/// Whether two indices have the same pairs of the numbers that are given, and as many.
fn are_same(index: &NumberIndex, other: &NumberIndex) -> bool {
    for value in 0..NUMBERS {
        let Ok(sub_nbr) = Number::try_new(value) else {
            return false;
        };
        if index.find(sub_nbr) != other.find(sub_nbr) {
            return false;
        }
    }
    index.len() == other.len()
}

/// Whether two registers answer an event alike.
fn answer_alike(register: &mut Register, other: &mut Register, event: &Event) -> bool {
    ask(register, *event) == ask(other, *event)
}

/// Whether two registers have the same access of a type, and the same facility with its forwardings: it is active once
/// it is asked.
fn have_type_alike(register: &mut Register, other: &mut Register, s_id: u64, kind: u64) -> bool {
    let access = Event::AccessData {
        s_id,
        ai_type: kind,
    };
    let activation = Event::SetActive {
        s_id,
        sf_type: kind,
        is_active: 1,
    };
    let mut are_alike = answer_alike(register, other, &access)
        && answer_alike(register, other, &activation);
    for turn in 0..72u64 {
        let destinations = Event::NewDestination {
            s_id,
            sf_type: kind,
            start_time: turn / 24 * 8,
            end_time: turn % 24 + 1,
        };
        are_alike = answer_alike(register, other, &destinations) && are_alike;
    }
    are_alike
}

/// Whether two registers have the same rows, as far as events read them.
fn have_rows_alike(register: &mut Register, other: &mut Register) -> bool {
    let mut are_alike = true;
    for place in 0..SUBSCRIBERS {
        let s_id = s_id_at(place);
        are_alike = answer_alike(register, other, &read(s_id))
            && have_type_alike(register, other, s_id, 1)
            && have_type_alike(register, other, s_id, 2)
            && are_alike;
    }
    are_alike
}

/// Whether two registers have the same regions, words, cells, numbers and rows.
fn agree(register: &mut Register, other: &mut Register) -> bool {
    register.regions().list() == other.regions().list()
        && register.look().words == other.look().words
        && published(register) == published(other)
        && unposted(register) == unposted(other)
        && recounted(register) == recounted(other)
        && recounted(register).is_some()
        && are_same(register.index(), other.index())
        && have_rows_alike(register, other)
}

impl Double {
    /// A register of so many parts, with subscribers in them.
    fn peopled(rt: &impl Abort, alloc: Global, parts: u8) -> Self {
        Double {
            register: peopled(rt, alloc, parts),
            due: Vec::new(alloc),
            seen: [0; WORDS],
            counts: Counts::default(),
        }
    }

    /// Whether an engine takes an event and gives it the number of its place.
    fn takes<R: Threads + Wait + Abort + Copy + Send + Sync + 'static>(
        &mut self,
        rt: &R,
        engine: &mut Engine<Open>,
        event: &Event,
    ) -> bool {
        let number = self.due.len();
        let reply = ask(&mut self.register, *event);
        self.counts.note(event, &reply);
        self.due.push(reply).expect(rt, "room for a reply");
        let is_taken = engine.pending() == number
            && submit(rt, engine, *event) == Ok(number as u64);
        is_taken && engine.pending() == number.wrapping_add(1)
    }

    /// Whether an engine sees no less than it saw before, and no more than is posted once all is done.
    fn looks(&mut self, engine: &mut Engine<Open>) -> bool {
        let sight = engine.sight();
        let is_right = are_between(&self.seen, &sight.words, &self.register.look().words);
        self.seen = sight.words;
        is_right
    }

    /// Whether replies are those that were due; then none is.
    fn had(&mut self, replies: &[(u64, Reply)]) -> bool {
        let are_right = are_replies(replies, self.due.as_slice());
        self.due.clear();
        are_right
    }

    /// Whether an engine settles with the replies that were due, and sees what is posted.
    fn settles<R: Threads + Wait>(&mut self, rt: &R, engine: &mut Engine<Open>) -> bool {
        let replies = engine.settle(rt);
        self.had(&replies)
            && engine.pending() == 0
            && engine.sight().words == self.register.look().words
    }

    /// Whether an engine answers a re-cut alike.
    fn cuts<R: Threads + Wait>(
        &mut self,
        rt: &R,
        engine: &mut Engine<Open>,
        bounds: &[u64],
    ) -> bool {
        let want = recut(&mut self.register, bounds);
        if let Ok(count) = want {
            self.counts.moved = self.counts.moved.wrapping_add(u64::from(count > 0));
        }
        engine.recut_to(rt, bounds) == want
    }

    /// Whether a step is answered alike.
    fn steps<R: Threads + Wait + Abort + Copy + Send + Sync + 'static>(
        &mut self,
        rt: &R,
        engine: &mut Engine<Open>,
        step: Step,
    ) -> bool {
        match step {
            Step::Take(event) => self.takes(rt, engine, &event),
            Step::Cut(bounds) => self.cuts(rt, engine, bounds.as_slice()),
            Step::Look => self.looks(engine),
            Step::Settle => self.settles(rt, engine),
        }
    }

    /// How many of the drawn steps were answered alike.
    fn steps_alike<R: Threads + Wait + Abort + Copy + Send + Sync + 'static>(
        &mut self,
        rt: &R,
        engine: &mut Engine<Open>,
        draws: &mut Draws,
    ) -> u64 {
        let mut alike = 0u64;
        for _ in 0..STEPS {
            let step = draws.step(rt, self.register.regions());
            alike = alike.wrapping_add(u64::from(self.steps(rt, engine, step)));
        }
        alike
    }

    /// How many of the drawn events were taken and settled alike, with a settle after so many each.
    fn settles_alike<R: Threads + Wait + Abort + Copy + Send + Sync + 'static>(
        &mut self,
        rt: &R,
        engine: &mut Engine<Open>,
        draws: &mut Draws,
        between: u64,
    ) -> u64 {
        let mut alike = 0u64;
        for _ in 0..EVENTS {
            let event = draws.event(rt, self.register.regions());
            let mut is_alike = self.takes(rt, engine, &event);
            if self.due.len() as u64 == between {
                is_alike = self.settles(rt, engine) && is_alike;
            }
            alike = alike.wrapping_add(u64::from(is_alike));
        }
        alike
    }

    /// How many drawn jobs were taken alike, with a call that hands on behind a drawn number of them each, and which
    /// numbers of jobs were held at each kind of these.
    fn jobs_alike<R: Threads + Wait + Abort + Copy + Send + Sync + 'static>(
        &mut self,
        rt: &R,
        engine: &mut Engine<Open>,
        draws: &mut Draws,
    ) -> (u64, [u64; 4]) {
        let (mut alike, mut held) = (0u64, Held::default());
        let mut left = draws.distance(APART);
        for _ in 0..JOBS {
            let event = draws.job(rt, self.register.regions());
            held.take(&self.register, &event);
            let mut is_alike = self.takes(rt, engine, &event);
            left = left.wrapping_sub(1);
            if left == 0 {
                let step = draws.handing_on(rt, self.register.regions());
                held.step(&self.register, &step);
                is_alike = self.steps(rt, engine, step) && is_alike;
                left = draws.distance(APART);
            }
            alike = alike.wrapping_add(u64::from(is_alike));
        }
        (alike, held.seen())
    }
}

/// An engine of so many parts with subscribers in them, and a register of one thread.
fn begun<R: Abort>(rt: &R, alloc: Global, parts: u8) -> (Engine<Open>, Double) {
    let gate = open_gate(rt, alloc);
    let engine = engine_over(rt, alloc, peopled(rt, alloc, parts), &gate);
    (engine, Double::peopled(rt, alloc, parts))
}

/// Whether an engine is closed with the replies that were due, and its register agrees with that of one thread.
fn ends_alike<R: Threads + Wait>(rt: &R, engine: Engine<Open>, mut double: Double) -> bool {
    let (mut register, replies) = engine.close(rt);
    let are_right = double.had(&replies) && agree(&mut register, &mut double.register);
    drop(register);
    drop(double);
    are_right
}

/// Whether a drawn script of so many parts is answered alike, and how often its regions changed.
fn script_is_alike<R: Threads + Wait + Abort + Copy + Send + Sync + 'static>(
    rt: &R,
    alloc: Global,
    seed: u64,
    parts: u8,
) -> (bool, Counts) {
    let (mut engine, mut double) = begun(rt, alloc, parts);
    let alike = double.steps_alike(rt, &mut engine, &mut Draws::new(seed));
    let counts = double.counts;
    (ends_alike(rt, engine, double) && alike == STEPS, counts)
}

/// How many drawn scripts that begin with so many parts are answered alike, and whether their regions changed often
/// enough.
fn scripts_alike<R: Threads + Wait + Abort + Copy + Send + Sync + 'static>(
    rt: &R,
    alloc: Global,
    parts: u8,
) -> (u64, bool) {
    let mut alike = 0u64;
    let mut counts = Counts::default();
    for script in 0..SCRIPTS {
        let seed = script.wrapping_mul(16).wrapping_add(u64::from(parts));
        let (is_alike, more) = script_is_alike(rt, alloc, seed, parts);
        alike = alike.wrapping_add(u64::from(is_alike));
        counts.add(more);
    }
    (alike, counts.are_enough())
}

#[test]
fn drawn_scripts_of_one_part(rt: HostRuntime) {
    assert_eq!(rt; scripts_alike(&rt, rt.alloc(), 1), (SCRIPTS, true));
}

#[test]
fn drawn_scripts_of_three_parts(rt: HostRuntime) {
    assert_eq!(rt; scripts_alike(&rt, rt.alloc(), 3), (SCRIPTS, true));
}

#[test]
fn drawn_scripts_of_sixteen_parts(rt: HostRuntime) {
    assert_eq!(rt; scripts_alike(&rt, rt.alloc(), 16), (SCRIPTS, true));
}

/// Whether many drawn events are answered alike, with a settle after so many each.
fn settling_is_alike<R: Threads + Wait + Abort + Copy + Send + Sync + 'static>(
    rt: &R,
    alloc: Global,
    between: u64,
) -> bool {
    let (mut engine, mut double) = begun(rt, alloc, 3);
    let alike = double.settles_alike(rt, &mut engine, &mut Draws::new(7), between);
    ends_alike(rt, engine, double) && alike == EVENTS
}

#[test]
fn replies_whenever_settled(rt: HostRuntime) {
    let alike = [1, 7, 4_096].map(|between| settling_is_alike(&rt, rt.alloc(), between));
    assert_eq!(rt; alike, [true; 3]);
}

// 16 are held only while a queue is full: `full_queue_holds_up_no_other_part` has them.
#[test]
fn replies_whatever_is_held(rt: HostRuntime) {
    let (mut engine, mut double) = begun(&rt, rt.alloc(), 3);
    let (alike, seen) = double.jobs_alike(&rt, &mut engine, &mut Draws::new(11));
    let ends_alike = ends_alike(&rt, engine, double);
    assert_eq!(rt; (alike, seen, ends_alike), (JOBS, [ALL_HELD; 4], true));
}
