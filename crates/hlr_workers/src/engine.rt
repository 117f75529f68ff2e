//! The engine: a register whose parts have workers in threads of their own.
ghost use Rattle.std.specs.Prelude.{◌≡◌, ◌<◌, ◌≤◌, ◌⊎◌, ◌+◌, [], length, true, false, None, IfOk, OnOk, OnErr, slice_set, vec_capacity};
ghost use Rattle.std.specs.List.{AllByRecursion};
ghost use Rattle.view_board.specs.Desks.{with_view};
ghost use Rattle.view_board.specs.Views.{looked};
ghost use Rattle.hlr_owners.specs.Out.{outs_in};
ghost use Rattle.hlr_owners.specs.Recut.{IsHomeToCut};
ghost use Rattle.hlr_owners.specs.Owners.{AllHome, store_in};
ghost use Rattle.hlr_owners.specs.Sight.{IsSightOf};
ghost use Rattle.hlr_core.specs.Home.{IsHomeTo, IsLaterDesk};
ghost use Rattle.hlr_core.specs.Route.{is_here};
ghost use Rattle.hlr_workers.specs.Inside.{AreBrought, IsAnswered, NoneOutOf, put_answers};
ghost use Rattle.hlr_workers.specs.Kept.{IsKept, NoneOut, engaged};
ghost use Rattle.hlr_workers.specs.Standing.{AreNumbered, Cut, IsAsBefore, IsSettled, Stands, Took, TookNext, WantsWorker, changes_parts};
ghost use Rattle.hlr_workers.specs.declared.work.TheConstants.{MOST_PENDING};

use crate::gate::Gate;
use crate::work::{EmptyList, MOST_PENDING};
use crate::workers::Workers;
use hlr_core::{Event, Parts, Register, Reply, TaskRoute};
use std::alloc::Global;
use std::marker::Model;
use std::mem;
use std::sync::{Arc, Wait};
use std::thread::Threads;
use tatp_actions::RowReply;
use tatp_rows::Refusal;
use view_board::Sight;

/// A register that takes events while workers do what its parts can do alone. A part with jobs has a worker, which is a
/// thread. Only `close` ends an engine, so no worker outlives it.
pub struct Engine<G: Gate + 'static> {
    workers: Workers,
    gate: Arc<G>,
    replies: Vec<(u64, Reply)>,
    alloc: Global,
}

impl<G: Gate + 'static> Model for Engine<G> {
    ghost use Rattle.std.specs.Prelude.{◌≡◌, ◌≤◌, ◌⊎◌, [], vec_capacity};
    ghost use Rattle.hlr_workers.specs.Kept.{IsKept, NoneOut, engaged};
    ghost use Rattle.hlr_workers.specs.Standing.{Engaged};
    ghost use Rattle.hlr_workers.specs.declared.work.TheConstants.{MOST_PENDING};

    ghost Value = { Engaged };

    ghost view = { λ e. engaged e.workers e.replies.items };

    ghost invariant = { λ e. IsKept e.workers e.replies.items × (e.replies.items ≡ [] → NoneOut e.workers) × ((e.replies.items ≡ []) ⊎ (MOST_PENDING ≤ vec_capacity e.replies)) };
}

/// Makes room for the replies to come.
#[inline(never)]
fn grow(replies: &mut Vec<(u64, Reply)>, alloc: Global) -> Result<(), Refusal>
    requires { replies.old.items ≡ [] }
    ensures room { OnOk result (MOST_PENDING ≤ vec_capacity replies.new) }
    ensures items { replies.new.items ≡ replies.old.items }
    ensures err { OnErr result (result ≡ Err Refusal.Memory) }
    ensures kept { OnErr result (replies.new ≡ replies.old) }
{
    let Ok(reserved) = Vec::with_capacity(alloc, MOST_PENDING) else {
        return Err(Refusal::Memory);
    };
    *replies = reserved;
    Ok(())
}

/// Makes room for the replies to come, if there is none.
fn reserve(replies: &mut Vec<(u64, Reply)>, alloc: Global) -> Result<(), Refusal>
    requires { (replies.old.items ≡ []) ⊎ (MOST_PENDING ≤ vec_capacity replies.old) }
    ensures room { OnOk result (MOST_PENDING ≤ vec_capacity replies.new) }
    ensures items { replies.new.items ≡ replies.old.items }
    ensures err { OnErr result (result ≡ Err Refusal.Memory) }
    ensures first { OnErr result (replies.old.items ≡ []) }
    ensures kept { OnErr result (replies.new ≡ replies.old) }
{
    if replies.capacity() >= MOST_PENDING {
        return Ok(());
    }
    grow(replies, alloc)
}

/// Makes the reply that fills the place of a later one until that comes.
fn blank() -> Reply {
    Reply::Rows(RowReply::Done)
}

/// Puts a reply into its place, if there is such a place.
fn put(replies: &mut Vec<(u64, Reply)>, answer: (u64, Reply))
    ensures items { replies.new.items ≡ slice_set replies.old.items answer.0 answer }
    ensures capacity { vec_capacity replies.new ≡ vec_capacity replies.old }
{
    let place = answer.0 as usize;
    if place < replies.len() {
        replies[place] = answer;
    }
}

/// Puts all replies of a list into their places.
fn put_answers(replies: &mut Vec<(u64, Reply)>, answers: &mut Vec<(u64, Reply)>)
    ensures items { replies.new.items ≡ put_answers replies.old.items answers.old.items }
    ensures capacity { vec_capacity replies.new ≡ vec_capacity replies.old }
    ensures none { answers.new.items ≡ [] }
    ensures room { vec_capacity answers.new ≡ vec_capacity answers.old }
{
    while let Some(answer) = answers.pop() {
        put(replies, answer);
    }
}

/// Brings a lent part home whose worker was told to stop, and puts the replies to its jobs into their places. It does
/// nothing if the part is home.
fn join<G: Gate, R: Threads + Wait>(
    rt: &R,
    workers: &mut Workers,
    replies: &mut Vec<(u64, Reply)>,
    gate: &Arc<G>,
    part: u8,
)
    requires kept { IsKept workers.old replies.old.items }
    ensures brought { AreBrought workers.old replies.old workers.new replies.new }
    ensures home { outs_in workers.new.register.owners ≡ slice_set (outs_in workers.old.register.owners) part None }
{
    workers.rules();
    if let Some(mut answers) = workers.bring_home(rt, gate, part) {
        put_answers(replies, &mut answers);
        workers.keep(EmptyList { list: answers });
    }
}

/// Brings parts home whose workers were told to stop.
fn join_parts<G: Gate, R: Threads + Wait>(
    rt: &R,
    workers: &mut Workers,
    replies: &mut Vec<(u64, Reply)>,
    gate: &Arc<G>,
    parts: Parts,
)
    requires kept { IsKept workers.old replies.old.items }
    ensures brought { AreBrought workers.old replies.old workers.new replies.new }
    ensures home { NoneOutOf parts workers.new }
{
    for part in parts.first..parts.end {
        join(rt, workers, replies, gate, part);
    }
}

/// Brings parts home. It tells all of their workers to stop before it waits for the first one.
fn bring_parts_home<G: Gate, R: Threads + Wait>(
    rt: &R,
    workers: &mut Workers,
    replies: &mut Vec<(u64, Reply)>,
    gate: &Arc<G>,
    parts: Parts,
)
    requires kept { IsKept workers.old replies.old.items }
    ensures brought { AreBrought workers.old replies.old workers.new replies.new }
    ensures home { NoneOutOf parts workers.new }
{
    workers.hand_on(rt);
    workers.stop_parts(rt, parts);
    join_parts(rt, workers, replies, gate, parts);
}

/// Brings all parts home.
fn bring_all_home<G: Gate, R: Threads + Wait>(
    rt: &R,
    workers: &mut Workers,
    replies: &mut Vec<(u64, Reply)>,
    gate: &Arc<G>,
)
    requires kept { IsKept workers.old replies.old.items }
    ensures brought { AreBrought workers.old replies.old workers.new replies.new }
    ensures home { NoneOut workers.new }
    ensures jobs { AllByRecursion (λ own. own ≡ []) workers.new.jobs }
{
    let end = workers.register().regions().parts();
    bring_parts_home(rt, workers, replies, gate, Parts { first: 0, end });
    workers.rules();
}

/// Brings home the parts on which an event works that the register does itself.
fn bring_workers_home<G: Gate, R: Threads + Wait>(
    rt: &R,
    workers: &mut Workers,
    replies: &mut Vec<(u64, Reply)>,
    gate: &Arc<G>,
    event: &Event,
)
    requires here { is_here event.now ≡ true }
    requires kept { IsKept workers.old replies.old.items }
    ensures brought { AreBrought workers.old replies.old workers.new replies.new }
    ensures home { IsHomeTo event.now workers.new.register }
{
    let parts = workers.register().parts_for(event);
    bring_parts_home(rt, workers, replies, gate, parts);
    workers.rules();
}

/// Has the register itself do an event, which gives a number to a subscriber, moves regions, or makes or dissolves a
/// part. The parts on which it works come home first, and the others keep working.
#[inline(never)]
fn answer_here<G: Gate, R: Threads + Wait>(
    rt: &R,
    workers: &mut Workers,
    replies: &mut Vec<(u64, Reply)>,
    gate: &Arc<G>,
    event: Event,
) -> Reply
    requires here { is_here event ≡ true }
    requires kept { IsKept workers.old replies.old.items }
    ensures { IsAnswered event result workers.old replies.old workers.new replies.new }
{
    bring_workers_home(rt, workers, replies, gate, &event);
    workers.apply(event)
}

/// Replies to an event at once, or sends it to the worker of a part. In the latter case the reply comes later, and a
/// blank one has its place until then.
fn answer<G: Gate + 'static, R: Threads + Wait + Copy + Send + Sync + 'static>(
    rt: &R,
    alloc: Global,
    workers: &mut Workers,
    replies: &mut Vec<(u64, Reply)>,
    gate: &Arc<G>,
    event: Event,
) -> Result<Reply, Refusal>
    requires kept { IsKept workers.old replies.old.items }
    requires room { length replies.old.items < MOST_PENDING }
    ensures answered { IfOk result (λ reply. IsAnswered event reply workers.old replies.old workers.new replies.new) }
    ensures refused { OnErr result (workers.new ≡ workers.old) }
    ensures same { OnErr result (replies.new ≡ replies.old) }
    ensures why { OnErr result ((result ≡ Err Refusal.Memory) ⊎ (result ≡ Err Refusal.Thread)) }
    ensures wants { OnErr result (WantsWorker event workers.old.register) }
{
    match workers.register().route_task(&event) {
        TaskRoute::Refused(why) => Ok(Reply::Refused(why)),
        TaskRoute::To(part, task) => {
            let number = replies.len() as u64;
            workers.send(rt, alloc, gate, part, number, task)?;
            Ok(blank())
        }
        TaskRoute::Here => Ok(answer_here(rt, workers, replies, gate, event)),
    }
}

/// Brings home the parts on both sides of each bound that a recut moves. It hands on all jobs that are held and tells
/// all workers of these parts to stop, before it waits for the first of them. If the bounds are refused, it hands on
/// nothing and brings no part home. It may wait.
fn bring_sides_home<G: Gate, R: Threads + Wait>(
    rt: &R,
    workers: &mut Workers,
    replies: &mut Vec<(u64, Reply)>,
    gate: &Arc<G>,
    bounds: &[u64],
)
    requires kept { IsKept workers.old replies.old.items }
    ensures brought { AreBrought workers.old replies.old workers.new replies.new }
    ensures home { IsHomeToCut bounds.now workers.new.register }
    ensures still { NoneOut workers.old → NoneOut workers.new }
{
    let Ok(moves) = workers.register().regions().moves_to(bounds) else {
        return;
    };
    workers.hand_on(rt);
    workers.stop_sides(rt, moves.as_slice());
    for bound_move in moves.as_slice() {
        join(
            rt,
            workers,
            replies,
            gate,
            bound_move.bound.saturating_sub(1),
        );
        join(rt, workers, replies, gate, bound_move.bound);
    }
}

impl<G: Gate + 'static> Engine<G> {
    /// Makes an engine over a register whose parts are all home. The thread that does a job calls the gate before and
    /// after it. It takes no memory.
    pub fn new(alloc: Global, register: Register, gate: Arc<G>) -> Engine<G>
        requires { AllHome register.owners }
        ensures register { result.register ≡ register }
        ensures replies { result.replies ≡ [] }
        ensures stands { Stands result (store_in register) [] }
    {
        Engine {
            workers: Workers::of(register),
            gate,
            replies: Vec::new(alloc),
            alloc,
        }
    }

    /// Counts the events that were taken since the last settle.
    pub fn pending(&self) -> usize
        ensures { result ≡ length self.now.replies }
    {
        self.replies.len()
    }

    /// Returns the register. No event may be pending.
    pub fn register(&self) -> &Register
        requires { self.now.replies ≡ [] }
        ensures value { result.now ≡ self.now.register }
        ensures home { AllHome self.now.register.owners }
        ensures right { IsSettled self.now [] self.now.register }
        ensures stands { Stands self.now (store_in self.now.register) [] }
    {
        self.workers.register()
    }

    /// Takes an event, while fewer than `MOST_PENDING` are pending, and returns its number, counted from 0 after each
    /// settle. A reply that is known at once is kept at once. What a part can do alone goes to the worker of that part,
    /// which is started for its first job. The register itself does an event that gives a number or moves regions, once
    /// the part on which it works is home, and one that makes or dissolves a part, once all parts are home whose rows
    /// or numbers it changes. The first job of a worker is pushed at once. Later ones are pushed when 16 are held, or
    /// at the next call that brings parts home or looks at the board: `settle`, `close`, `recut_to`, `sight`, or an
    /// event that the register does itself. It returns `Memory` if the system refuses memory, and `Thread` if it
    /// refuses to start a thread, and then the event isn't taken. Only the first event after a settle, and one that
    /// starts a worker, need memory, so no other event is refused. It may wait.
    pub fn submit<R: Threads + Wait + Copy + Send + Sync + 'static>(
        &mut self,
        rt: &R,
        event: Event,
    ) -> Result<u64, Refusal>
        requires { length self.old.replies < MOST_PENDING }
        ensures number { IfOk result (λ number. number ≡ length self.old.replies) }
        ensures pending { OnOk result (length self.new.replies ≡ length self.old.replies + 1) }
        ensures took { OnOk result (TookNext (Took event) self.old self.new) }
        ensures refused { OnErr result (self.new ≡ self.old) }
        ensures why { OnErr result ((result ≡ Err Refusal.Memory) ⊎ (result ≡ Err Refusal.Thread)) }
        ensures memory { result ≡ Err Refusal.Memory → (self.old.replies ≡ []) ⊎ WantsWorker event self.old.register }
        ensures thread { result ≡ Err Refusal.Thread → WantsWorker event self.old.register }
        ensures spare { changes_parts event ≡ false → self.new.register.spare ≡ self.old.register.spare }
        ensures desk { IsLaterDesk self.old.register.spare self.new.register.spare }
    {
        reserve(&mut self.replies, self.alloc)?;
        let number = self.replies.len() as u64;
        let reply = answer(
            rt,
            self.alloc,
            &mut self.workers,
            &mut self.replies,
            &self.gate,
            event,
        )?;
        self.replies.push_reserved((number, reply));
        Ok(number)
    }

    /// Brings all parts home, and returns the replies to all events since the last settle, in their order, each with
    /// its number. It takes no memory. It may wait.
    pub fn settle<R: Threads + Wait>(&mut self, rt: &R) -> Vec<(u64, Reply)>
        ensures each { length result.items ≡ length self.old.replies }
        ensures numbered { AreNumbered result.items }
        ensures right { IsSettled self.old result.items self.new.register }
        ensures home { AllHome self.new.register.owners }
        ensures replies { self.new.replies ≡ [] }
        ensures stands { Stands self.new (store_in self.new.register) [] }
        ensures spare { self.new.register.spare ≡ self.old.register.spare }
    {
        bring_all_home(rt, &mut self.workers, &mut self.replies, &self.gate);
        mem::replace(&mut self.replies, Vec::new(self.alloc))
    }

    /// Moves the bounds between parts, as `Register::recut_to`. The parts on both sides of each bound that moves come
    /// home first, and all other workers keep working. Before that, it hands on the jobs that are held for any part,
    /// which waits for room if a queue is full. It may wait.
    pub fn recut_to<R: Threads + Wait>(&mut self, rt: &R, bounds: &[u64]) -> Result<u8, Refusal>
        ensures took { TookNext (Cut bounds.now result) self.old self.new }
        ensures pending { length self.new.replies ≡ length self.old.replies }
        ensures spare { self.new.register.spare ≡ self.old.register.spare }
    {
        bring_sides_home(rt, &mut self.workers, &mut self.replies, &self.gate, bounds);
        self.workers.recut_to(bounds)
    }

    /// Looks at the board while workers post, and returns a sight of its words, as `Register::look`. It takes no
    /// memory, and waits for nobody.
    pub fn sight(&mut self) -> Sight
        ensures right { IsSightOf (store_in self.old.register) result.words }
        ensures stands { IsAsBefore self.old self.new }
        ensures seen { self.new ≡ record self.old { register = record self.old.register { spare = with_view self.old.register.spare (looked self.old.register.spare.view result.words) } } }
    {
        self.workers.offer();
        self.workers.look()
    }

    /// Ends the engine, and returns its register, whose parts are all home, and the replies that `settle` would return.
    /// It may wait.
    pub fn close<R: Threads + Wait>(self, rt: &R) -> (Register, Vec<(u64, Reply)>)
        ensures each { length result.1.items ≡ length self.replies }
        ensures numbered { AreNumbered result.1.items }
        ensures right { IsSettled self result.1.items result.0 }
        ensures home { AllHome result.0.owners }
        ensures spare { result.0.spare ≡ self.register.spare }
    {
        let mut engine = self;
        let replies = engine.settle(rt);
        let Engine {
            workers,
            gate: _gate,
            replies: _replies,
            alloc: _alloc,
        } = engine;
        (workers.into_register(), replies)
    }
}
