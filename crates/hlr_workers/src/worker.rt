//! A worker, as the router that sends jobs to it sees it.
ghost use Rattle.std.specs.Prelude.{List, ◌≡◌, ◌<◌, ◌≤◌, ◌++◌, ◌∷◌, [], ◌⊎◌, length, IfOk, OnErr, true, false, vec_capacity};
ghost use Rattle.std.specs.Arc.{arc_value};
ghost use Rattle.crossbeam_queue.specs.Passes.{view, IsPassOf};
ghost use Rattle.hlr_core.specs.Session.{IsWithinJob};
ghost use Rattle.hlr_core.specs.Tasks.{job_of};
ghost use Rattle.hlr_workers.specs.Finish.{HasDone, IsAtWork, MayDo, MaySend, sent_with};
ghost use Rattle.hlr_workers.specs.declared.message.Message.{Message};
ghost use Rattle.hlr_workers.specs.Relay.{log, IsWellSent};
ghost use Rattle.hlr_workers.specs.Session.{IsSession};
ghost use Rattle.hlr_workers.specs.declared.message.TheConstants.{MOST_JOBS};
ghost use Rattle.hlr_workers.specs.declared.work.TheConstants.{MOST_PENDING};

use crate::gate::Gate;
use crate::inbox::Inbox;
use crate::message::{Batch, Lent, MOST_JOBS, Message, Numbered};
use crate::rule::{Queue, QueuePass, Roles};
use crate::work::{EmptyList, Finished, do_batch, live};
use arrayvec::ArrayVec;
use crossbeam_utils::sync::EventCount;
use hlr_core::{Reply, Task};
use holding::Holding;
use std::alloc::Global;
use std::marker::Model;
use std::snapshot::Snapshot;
use std::sync::{Arc, Wait};
use std::thread::{Promise, PromisedHandle, Threads};
use std::{mem, thread};
use tatp_rows::Refusal;
use view_board::Board;

/// How many messages a worker's queue holds.
const PLACES: usize = 256 / MOST_JOBS;

// The promise of the thread: it hands back what it received up to `Stop`, the replies, and the holding.
#[derive(Drop)]
struct WorksOff(Snapshot<Arc<Inbox, Global>>);

impl Promise<Finished> for WorksOff {
    ghost use Rattle.crossbeam_queue.specs.Passes.{view, IsPassOf};
    ghost use Rattle.std.specs.Arc.{arc_value};
    ghost use Rattle.std.specs.Prelude.{◌≤◌, vec_capacity};
    ghost use Rattle.hlr_workers.specs.Finish.{IsAtWork};
    ghost use Rattle.hlr_workers.specs.declared.work.TheConstants.{MOST_PENDING};

    ghost kept_by = { λ p r. record { pass : IsPassOf (arc_value p.0.value).queue r.pass; work : IsAtWork (view r.pass) r.replies.items r.lent.holding.value; room : MOST_PENDING ≤ vec_capacity r.replies } };
}

/// A worker to which nothing was sent yet, seen as the board to which its part posts.
pub struct Idle {
    inbox: Arc<Inbox, Global>,
    pass: QueuePass,
    board: Arc<Board>,
    thread: PromisedHandle<Finished, WorksOff>,
}

impl Model for Idle {
    ghost use Rattle.std.specs.Prelude.{◌≡◌, true, false, []};
    ghost use Rattle.atomic_table.specs.Seated.{TableId};
    ghost use Rattle.crossbeam_queue.specs.Passes.{view as knows, IsPassOf};
    ghost use Rattle.std.specs.Arc.{arc_value};
    ghost use Rattle.hlr_workers.specs.Relay.{log};

    ghost Value = { TableId };

    ghost view = { λ w. arc_value w.board };

    ghost invariant = { λ w. IsPassOf (arc_value w.inbox).queue w.pass × (knows w.pass ≡ log true false [] []) × (arc_value w.thread.promise.0.value ≡ arc_value w.inbox) };
}

/// A worker that has a holding, seen as the holding when it was lent, and the jobs that were sent since.
#[derive(Drop)]
pub struct Worker {
    inbox: Arc<Inbox, Global>,
    pass: QueuePass,
    // The jobs that were not pushed yet.
    held: Batch,
    // Whether no job was sent yet.
    is_fresh: bool,
    thread: PromisedHandle<Finished, WorksOff>,
}

impl Model for Worker {
    ghost use Rattle.std.specs.Prelude.{◌≡◌};
    ghost use Rattle.crossbeam_queue.specs.Passes.{view as knows, IsPassOf};
    ghost use Rattle.std.specs.Arc.{arc_value};
    ghost use Rattle.hlr_workers.specs.Finish.{MaySend, Sent, sent_with};

    ghost Value = { Sent };

    ghost view = { λ w. sent_with (knows w.pass) w.held };

    ghost invariant = { λ w. record { pass : IsPassOf (arc_value w.inbox).queue w.pass; may : MaySend (knows w.pass) w.held; thread : arc_value w.thread.promise.0.value ≡ arc_value w.inbox } };
}

impl Idle {
    /// Makes the queue and what the thread shares with others, and then starts the thread, which writes its replies
    /// into the list and announces each pop through the count. It returns `Memory` if the system refuses memory, before
    /// it tries a start, and `Thread` if the system refuses the start.
    pub fn start<G: Gate + 'static, R: Threads + Wait + Copy + Send + Sync + 'static>(
        rt: &R,
        alloc: Global,
        gate: &Arc<G, Global>,
        board: &Arc<Board>,
        part: u8,
        list: EmptyList,
        pops: Arc<EventCount, Global>,
    ) -> Result<Idle, Refusal>
        ensures board { IfOk result (λ idle. idle ≡ arc_value board.now) }
        ensures why { OnErr result ((result ≡ Err Refusal.Memory) ⊎ (result ≡ Err Refusal.Thread)) }
    {
        let Ok((queue, mut pass)) = Queue::ruled(alloc, PLACES) else {
            return Err(Refusal::Memory);
        };
        let theirs = queue.another::<Roles>(&mut pass);
        let EmptyList { list: replies } = list;
        let inbox = Inbox {
            queue,
            pushes: EventCount::new(),
            pops,
        };
        let Ok(inbox) = Arc::new(alloc, inbox) else {
            return Err(Refusal::Memory);
        };
        let (Ok(shared), Ok(gate), Ok(board)) = (
            Arc::try_clone(&inbox),
            Arc::try_clone(gate),
            Arc::try_clone(board),
        ) else {
            return Err(Refusal::Memory);
        };
        let rt2 = *rt;
        let promise = WorksOff(Snapshot::of(&inbox));
        let work = move || -> Finished
            requires { IsPassOf (arc_value shared).queue theirs × (view theirs ≡ log false true [] []) × (MOST_PENDING ≤ vec_capacity replies) × (replies.items ≡ []) }
            ensures { record { pass : IsPassOf (arc_value shared).queue result.pass; work : IsAtWork (view result.pass) result.replies.items result.lent.holding.value; room : MOST_PENDING ≤ vec_capacity result.replies } }
        { live(&rt2, &*shared, &*gate, part, theirs, replies) };
        match thread::spawn_with(rt, promise, work) {
            Ok(thread) => Ok(Idle {
                inbox,
                pass,
                board,
                thread,
            }),
            Err(_) => Err(Refusal::Thread),
        }
    }

    /// Sends the holding to the worker. It may wait.
    pub fn begin<R: Wait>(self, rt: &R, holding: Box<Holding>) -> Worker
        requires { holding.value.desk.board ≡ self }
        ensures lent { result.lent ≡ holding.value }
        ensures jobs { result.jobs ≡ [] }
    {
        let Idle {
            inbox,
            mut pass,
            board,
            thread,
        } = self;
        inbox.push(rt, &mut pass, Message::Begin(Lent { holding, board }));
        Worker {
            inbox,
            pass,
            held: ArrayVec::new(),
            is_fresh: true,
            thread,
        }
    }
}

/// Pushes the jobs that are held, once there is a place. It may wait.
#[inline(never)]
fn hand_on<R: Wait>(rt: &R, inbox: &Inbox, pass: &mut QueuePass, held: &mut Batch)
    requires pass { IsPassOf inbox.now.queue pass.old }
    requires may { MaySend (view pass.old) held.old }
    ensures pass { IsPassOf inbox.now.queue pass.new }
    ensures may { MaySend (view pass.new) held.new }
    ensures same { sent_with (view pass.new) held.new ≡ sent_with (view pass.old) held.old }
    ensures none { held.new.items ≡ [] }
{
    if held.is_empty() {
        return;
    }
    let batch = mem::replace(held, ArrayVec::new());
    inbox.push(rt, pass, Message::Do(batch));
}

/// Makes room for one more job. If a whole message is held, it is pushed first, once there is a place in the queue. It
/// may wait.
fn make_room<R: Wait>(rt: &R, inbox: &Inbox, pass: &mut QueuePass, held: &mut Batch)
    requires pass { IsPassOf inbox.now.queue pass.old }
    requires may { MaySend (view pass.old) held.old }
    ensures pass { IsPassOf inbox.now.queue pass.new }
    ensures may { MaySend (view pass.new) held.new }
    ensures same { sent_with (view pass.new) held.new ≡ sent_with (view pass.old) held.old }
    ensures room { length held.new.items < MOST_JOBS }
{
    if held.is_full() {
        hand_on(rt, inbox, pass, held);
    }
}

/// Holds a numbered job. If a whole message is held, it is pushed first, once there is a place in the queue. It may
/// wait.
fn hold<R: Wait>(
    rt: &R,
    inbox: &Inbox,
    pass: &mut QueuePass,
    held: &mut Batch,
    number: u64,
    task: Task,
)
    requires pass { IsPassOf inbox.now.queue pass.old }
    requires may { MaySend (view pass.old) held.old }
    requires room { length (sent_with (view pass.old) held.old).jobs < MOST_PENDING }
    requires within { IsWithinJob (sent_with (view pass.old) held.old).lent (job_of task) }
    ensures pass { IsPassOf inbox.now.queue pass.new }
    ensures may { MaySend (view pass.new) held.new }
    ensures lent { (sent_with (view pass.new) held.new).lent ≡ (sent_with (view pass.old) held.old).lent }
    ensures jobs { (sent_with (view pass.new) held.new).jobs ≡ (sent_with (view pass.old) held.old).jobs ++ (number, job_of task) ∷ [] }
{
    make_room(rt, inbox, pass, held);
    held.push(Numbered { number, task });
}

/// Pushes the jobs that are held, if there is a place in the queue.
#[inline(never)]
fn offer(inbox: &Inbox, pass: &mut QueuePass, held: &mut Batch)
    requires pass { IsPassOf inbox.now.queue pass.old }
    requires may { MaySend (view pass.old) held.old }
    ensures pass { IsPassOf inbox.now.queue pass.new }
    ensures may { MaySend (view pass.new) held.new }
    ensures same { sent_with (view pass.new) held.new ≡ sent_with (view pass.old) held.old }
{
    if held.is_empty() {
        return;
    }
    let batch = mem::replace(held, ArrayVec::new());
    if let Err(back) = inbox.offer(pass, Message::Do(batch)) {
        match back {
            Message::Do(batch) => *held = batch,
            _ => unreachable!(),
        }
    }
}

/// Does the jobs of a message, if it has any.
fn do_left<G: Gate>(
    gate: &G,
    part: u8,
    board: &Board,
    holding: &mut Holding,
    replies: &mut Vec<(u64, Reply)>,
    message: Message,
)
    requires board { holding.old.desk.board ≡ board.now }
    requires left { MayDo message replies.old.items holding.old }
    requires room { MOST_PENDING ≤ vec_capacity replies.old }
    ensures board { holding.new.desk.board ≡ board.now }
    ensures done { (got : List Message) → HasDone got replies.old.items holding.old → IsWellSent (got ++ message ∷ []) → HasDone (got ++ message ∷ []) replies.new.items holding.new }
    ensures room { MOST_PENDING ≤ vec_capacity replies.new }
{
    match message {
        Message::Do(batch) => do_batch(gate, part, board, holding, replies, &batch),
        Message::Stop => {}
        Message::Begin(_) => unreachable!(),
    }
}

/// Does the jobs that were pushed behind `Stop`, once the thread has ended, so that all that was sent is done. It may
/// wait.
fn do_rest<G: Gate, R: Wait>(
    rt: &R,
    inbox: &Inbox,
    gate: &G,
    part: u8,
    pass: &mut QueuePass,
    board: &Board,
    holding: &mut Holding,
    replies: &mut Vec<(u64, Reply)>,
)
    requires pass { IsPassOf inbox.now.queue pass.old }
    requires both { view pass.old ≡ log true true (view pass.old).sent (view pass.old).got }
    requires board { holding.old.desk.board ≡ board.now }
    requires work { HasDone (view pass.old).got replies.old.items holding.old }
    requires room { MOST_PENDING ≤ vec_capacity replies.old }
    ensures board { holding.new.desk.board ≡ board.now }
    ensures work { HasDone (view pass.old).sent replies.new.items holding.new }
    ensures room { MOST_PENDING ≤ vec_capacity replies.new }
{
    for _ in rt.forever() {
        match inbox.pop_rest(rt, pass) {
            Some(message) => do_left(gate, part, board, holding, replies, message),
            None => return,
        }
    }
    unreachable!()
}

impl Worker {
    /// Returns how many jobs are held.
    pub fn count_held(&self) -> usize {
        self.held.len()
    }

    /// Sends a numbered job, as a task, on a subscriber of the holding's. The first job is pushed at once, and later
    /// ones are held until they fill a message. It may wait.
    pub fn send<R: Wait>(&mut self, rt: &R, number: u64, task: Task)
        requires room { length self.old.jobs < MOST_PENDING }
        requires within { IsWithinJob self.old.lent (job_of task) }
        ensures lent { self.new.lent ≡ self.old.lent }
        ensures jobs { self.new.jobs ≡ self.old.jobs ++ (number, job_of task) ∷ [] }
    {
        hold(
            rt,
            &self.inbox,
            &mut self.pass,
            &mut self.held,
            number,
            task,
        );
        if self.is_fresh || self.held.is_full() {
            self.is_fresh = false;
            offer(&self.inbox, &mut self.pass, &mut self.held);
        }
    }

    /// Pushes the jobs that are held, once there is a place. It may wait.
    pub fn hand_on<R: Wait>(&mut self, rt: &R)
        ensures { self.new ≡ self.old }
    {
        hand_on(rt, &self.inbox, &mut self.pass, &mut self.held);
    }

    /// Pushes the jobs that are held, if there is a place in the queue.
    pub fn offer(&mut self)
        ensures { self.new ≡ self.old }
    {
        offer(&self.inbox, &mut self.pass, &mut self.held);
    }

    /// Tells the worker to end once it has done the jobs that were pushed. It may wait.
    pub fn stop<R: Wait>(&mut self, rt: &R)
        ensures { self.new ≡ self.old }
    {
        self.inbox.push(rt, &mut self.pass, Message::Stop);
    }

    /// Ends a worker that was told to stop, does here what its thread has left undone, and returns the holding, and the
    /// replies to all of its jobs in the list that it had. It may wait.
    pub fn join<G: Gate, R: Threads + Wait>(
        self,
        rt: &R,
        gate: &G,
        part: u8,
    ) -> (Box<Holding>, Vec<(u64, Reply)>)
        ensures session { IsSession self.lent self.jobs result.1.items result.0.value }
        ensures room { MOST_PENDING ≤ vec_capacity result.1 }
    {
        let Worker {
            inbox,
            mut pass,
            held,
            is_fresh: _is_fresh,
            thread,
        } = self;
        let Finished {
            pass: theirs,
            lent,
            mut replies,
        } = thread.join(rt);
        inbox.queue.absorb::<Roles>(&mut pass, theirs);
        let Lent { mut holding, board } = lent;
        do_rest(
            rt,
            &inbox,
            gate,
            part,
            &mut pass,
            &board,
            &mut holding,
            &mut replies,
        );
        do_batch(gate, part, &board, &mut holding, &mut replies, &held);
        (holding, replies)
    }
}
