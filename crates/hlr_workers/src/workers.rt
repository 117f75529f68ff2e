//! A register with the workers of its lent parts.
ghost use Rattle.std.specs.Prelude.{◌≡◌, ◌<◌, ◌≤◌, ◌⊎◌, [], length, true, false, None, Some, IsSome, IfSome, IfOk, OnOk, OnErr, is_some, option_map, slice_get, slice_set, slice_index_or, vec_capacity};
ghost use Rattle.std.specs.List.{AllByRecursion};
ghost use Rattle.view_board.specs.Desks.{with_view};
ghost use Rattle.view_board.specs.Views.{looked};
ghost use Rattle.hlr_owners.specs.Out.{outs_in};
ghost use Rattle.hlr_owners.specs.Recut.{IsHomeToCut};
ghost use Rattle.hlr_owners.specs.Owners.{AllHome, AreOwners, homes_in, store_in};
ghost use Rattle.hlr_owners.specs.Sight.{IsSightOf};
ghost use Rattle.hlr_core.specs.WhileOut.{IsRecutWhileOut, IsStepWhileOut};
ghost use Rattle.hlr_core.specs.Home.{IsHomeTo, IsLaterDesk, HaveSameHomes};
ghost use Rattle.hlr_core.specs.Session.{IsJobOf, IsWithinJob};
ghost use Rattle.hlr_core.specs.Tasks.{job_of};
ghost use Rattle.hlr_workers.specs.Inside.{AreIdle, IsHomeAgain, IsOut, AreWorkersChanged, IsPlace, IsSentTo, is_sent_more, with_part_change, part_change_of};
ghost use Rattle.hlr_workers.specs.Kept.{NoneOut};
ghost use Rattle.hlr_workers.specs.Standing.{changes_parts};
ghost use Rattle.hlr_workers.specs.declared.work.TheConstants.{MOST_PENDING};

use crate::gate::Gate;
use crate::inbox::LOOKS;
use crate::message::MOST_JOBS;
use crate::work::{EmptyList, MOST_PENDING};
use crate::worker::{Idle, Worker};
use arrayvec::ArrayVec;
use crossbeam_utils::Backoff;
use crossbeam_utils::sync::EventCount;
use hlr_core::{Event, Parts, Register, Reply, Task};
use part_table::CutMove;
use std::alloc::Global;
use std::marker::Model;
use std::sync::{Arc, Wait};
use std::thread::Threads;
use tatp_rows::Refusal;
use view_board::Sight;

/// The register, and the worker of each lent part. It is seen as the register, in which a lent part is as it was when
/// it was lent, and the jobs that were sent to each lent part, by the parts' numbers.
pub(crate) struct Workers {
    register: Register,
    by_part: ArrayVec<Option<Worker>, 16>,
    // The lists of workers that have ended, which later workers use again.
    lists: ArrayVec<Option<EmptyList>, 16>,
    // The count of pops that all workers share. It exists once a worker was started.
    pops: Option<Arc<EventCount, Global>>,
}

impl Model for Workers {
    ghost use Rattle.std.specs.Prelude.{map};
    ghost use Rattle.std.specs.List.{AllZip};
    ghost use Rattle.hlr_owners.specs.Out.{outs_in};
    ghost use Rattle.hlr_workers.specs.Kept.{WorkersState, HasWorker, jobs_at};

    ghost Value = { WorkersState };

    ghost view = { λ c. record { register = c.register; jobs = map jobs_at c.by_part.items } };

    ghost invariant = { λ c. AllZip HasWorker (outs_in c.register.owners) c.by_part.items };
}

/// Takes the worker of a part out of its place, if there is such a part and it has a worker.
fn take_worker(by_part: &mut ArrayVec<Option<Worker>, 16>, part: u8) -> Option<Worker>
    ensures items { by_part.new.items ≡ slice_set by_part.old.items part None }
    ensures worker { result ≡ slice_index_or by_part.old.items part None }
{
    if usize::from(part) >= by_part.len() {
        return None;
    }
    by_part.as_mut_slice()[usize::from(part)].take()
}

/// Returns whether a part has a worker.
fn has_worker(by_part: &ArrayVec<Option<Worker>, 16>, part: u8) -> bool
    requires { part < length by_part.now.items }
    ensures { result ≡ is_some (slice_index_or by_part.now.items part None) }
{
    by_part.as_slice()[usize::from(part)].is_some()
}

/// Puts the worker of a part in its place.
fn put_worker(by_part: &mut ArrayVec<Option<Worker>, 16>, part: u8, worker: Worker)
    requires { part < length by_part.old.items }
    ensures { by_part.new.items ≡ slice_set by_part.old.items part (Some worker) }
{
    by_part.as_mut_slice()[usize::from(part)] = Some(worker);
}

/// Returns a list for the replies of a worker: one that an earlier worker had, or a new one. It returns `Memory` if the
/// system refuses memory for a new one.
fn list_for(
    lists: &mut ArrayVec<Option<EmptyList>, 16>,
    alloc: Global,
) -> Result<EmptyList, Refusal>
    ensures why { OnErr result (result ≡ Err Refusal.Memory) }
{
    if let Some(Some(list)) = lists.pop() {
        return Ok(list);
    }
    let Ok(list) = Vec::with_capacity(alloc, MOST_PENDING) else {
        return Err(Refusal::Memory);
    };
    Ok(EmptyList { list })
}

/// Returns the count of pops for a worker: the one that the others have, or a new one. It returns `Memory` if the
/// system refuses memory for a new one.
fn pops_for(
    pops: &mut Option<Arc<EventCount, Global>>,
    alloc: Global,
) -> Result<Arc<EventCount, Global>, Refusal>
    ensures why { OnErr result (result ≡ Err Refusal.Memory) }
{
    if let Some(shared) = pops {
        let Ok(other) = Arc::try_clone(shared) else {
            return Err(Refusal::Memory);
        };
        return Ok(other);
    }
    let Ok(first) = Arc::new(alloc, EventCount::new()) else {
        return Err(Refusal::Memory);
    };
    let Ok(other) = Arc::try_clone(&first) else {
        return Err(Refusal::Memory);
    };
    *pops = Some(other);
    Ok(first)
}

/// Lends the count of pops that all workers share. There is none before a worker was started.
fn lend_pops(pops: &Option<Arc<EventCount, Global>>) -> Option<&EventCount> {
    match pops {
        Some(pops) => Some(pops),
        None => None,
    }
}

/// Sends a job to the worker of a part.
fn send_to<R: Wait>(
    rt: &R,
    by_part: &mut ArrayVec<Option<Worker>, 16>,
    part: u8,
    number: u64,
    task: Task,
)
    requires there { part < length by_part.old.items }
    requires worker { IfSome (slice_index_or by_part.old.items part None) (λ sent. (length sent.jobs < MOST_PENDING) × IsWithinJob sent.lent (job_of task)) }
    requires some { IsSome (slice_index_or by_part.old.items part None) }
    ensures { by_part.new.items ≡ slice_set by_part.old.items part (is_sent_more (slice_index_or by_part.old.items part None) (number, job_of task)) }
{
    match &mut by_part.as_mut_slice()[usize::from(part)] {
        Some(worker) => worker.send(rt, number, task),
        None => unreachable!(),
    }
}

/// Makes a place for the worker of a part that is new, and removes the place of one that was dissolved.
fn part_workers(by_part: &mut ArrayVec<Option<Worker>, 16>, reply: &Reply)
    requires { IsPlace (part_change_of reply.now) (length by_part.old.items) }
    ensures { by_part.new.items ≡ with_part_change (part_change_of reply.now) None by_part.old.items }
{
    match *reply {
        Reply::Divided { part, .. } => by_part.insert(usize::from(part), None),
        Reply::Dissolved { part, .. } => {
            by_part.remove(usize::from(part) + 1);
        }
        _ => {}
    }
}

/// Pushes the jobs that the worker of a part holds, if there is a place in its queue.
fn offer_at(by_part: &mut ArrayVec<Option<Worker>, 16>, part: usize)
    requires { part < length by_part.old.items }
    ensures { by_part.new.items ≡ by_part.old.items }
{
    match &mut by_part.as_mut_slice()[part] {
        Some(worker) => worker.offer(),
        None => {}
    }
}

/// Pushes the jobs that the worker of a part holds, once there is a place in its queue. It may wait.
fn hand_on_at<R: Wait>(rt: &R, by_part: &mut ArrayVec<Option<Worker>, 16>, part: usize)
    requires { part < length by_part.old.items }
    ensures { by_part.new.items ≡ by_part.old.items }
{
    match &mut by_part.as_mut_slice()[part] {
        Some(worker) => worker.hand_on(rt),
        None => {}
    }
}

/// Tells the worker of a part to stop, if it has one. It may wait.
fn stop_at<R: Wait>(rt: &R, by_part: &mut ArrayVec<Option<Worker>, 16>, part: usize)
    requires { part < length by_part.old.items }
    ensures { by_part.new.items ≡ by_part.old.items }
{
    match &mut by_part.as_mut_slice()[part] {
        Some(worker) => worker.stop(rt),
        None => {}
    }
}

/// Pushes the jobs that each worker holds, if there is a place in its queue.
fn offer_all(by_part: &mut ArrayVec<Option<Worker>, 16>)
    ensures { by_part.new.items ≡ by_part.old.items }
{
    for part in 0..by_part.len() {
        offer_at(by_part, part);
    }
}

/// Returns how many jobs the worker of a part holds.
fn count_held(by_part: &ArrayVec<Option<Worker>, 16>, part: usize) -> usize
    requires { part < length by_part.now.items }
{
    match &by_part.as_slice()[part] {
        Some(worker) => worker.count_held(),
        None => 0,
    }
}

/// Returns whether any worker except that of this part holds jobs.
fn do_others_hold(by_part: &ArrayVec<Option<Worker>, 16>, part: usize) -> bool {
    for other in 0..by_part.len() {
        if other != part && count_held(by_part, other) > 0 {
            return true;
        }
    }
    false
}

/// Returns whether the worker of a part holds more than `most` jobs, while another worker holds some too.
fn must_offer(by_part: &ArrayVec<Option<Worker>, 16>, part: usize, most: usize) -> bool
    requires { part < length by_part.now.items }
{
    count_held(by_part, part) > most && do_others_hold(by_part, part)
}

/// Pushes the jobs that all workers hold, if there are places, and sleeps if that wasn't enough. A pop after this try
/// ends the sleep, or keeps it from beginning. It may wait.
fn offer_or_sleep<R: Wait>(
    rt: &R,
    by_part: &mut ArrayVec<Option<Worker>, 16>,
    pops: &EventCount,
    part: usize,
    most: usize,
)
    requires { part < length by_part.old.items }
    ensures { by_part.new.items ≡ by_part.old.items }
{
    let wait = pops.prepare_wait();
    offer_all(by_part);
    if must_offer(by_part, part, most) {
        wait.wait(rt);
    }
}

/// Pushes the jobs that all workers hold, as places become free, until the worker of a part holds at most `most` jobs,
/// or no other worker holds any. So, while the caller waits for a place, no worker lacks a job that the gate of another
/// part may wait for. It spins for a while, then yields, and then sleeps. It may wait.
#[inline(never)]
fn offer_until<R: Wait>(
    rt: &R,
    by_part: &mut ArrayVec<Option<Worker>, 16>,
    pops: Option<&EventCount>,
    part: usize,
    most: usize,
)
    requires { part < length by_part.old.items }
    ensures { by_part.new.items ≡ by_part.old.items }
{
    let backoff = Backoff::new();
    let mut looks = 0;
    for _ in rt.forever() {
        if !must_offer(by_part, part, most) {
            return;
        }
        match pops {
            Some(pops) if looks >= LOOKS => offer_or_sleep(rt, by_part, pops, part, most),
            _ => offer_all(by_part),
        }
        if looks < LOOKS {
            looks += 1;
            backoff.snooze();
        }
    }
    unreachable!()
}

/// Makes sure that the worker of a part can hold one more job. If it holds a whole message, the jobs that all workers
/// hold are pushed first, as `offer_until` does. It may wait.
fn offer_before<R: Wait>(
    rt: &R,
    by_part: &mut ArrayVec<Option<Worker>, 16>,
    pops: Option<&EventCount>,
    part: usize,
)
    requires { part < length by_part.old.items }
    ensures { by_part.new.items ≡ by_part.old.items }
{
    if count_held(by_part, part) == MOST_JOBS {
        offer_until(rt, by_part, pops, part, MOST_JOBS - 1);
    }
}

/// Pushes the jobs that each worker holds, once there is a place in its queue. It may wait.
fn hand_on_all<R: Wait>(
    rt: &R,
    by_part: &mut ArrayVec<Option<Worker>, 16>,
    pops: Option<&EventCount>,
)
    ensures { by_part.new.items ≡ by_part.old.items }
{
    for part in 0..by_part.len() {
        offer_until(rt, by_part, pops, part, 0);
        hand_on_at(rt, by_part, part);
    }
}

impl Workers {
    /// Makes the workers of a register whose parts are all home, which are none yet.
    pub(crate) fn of(register: Register) -> Workers
        requires { AllHome register.owners }
        ensures register { result.register ≡ register }
        ensures jobs { AllByRecursion (λ own. own ≡ []) result.jobs }
        ensures paired { length result.jobs ≡ length (outs_in register.owners) }
    {
        register.rules();
        let mut by_part = ArrayVec::new();
        for _ in 0..register.regions().parts() {
            by_part.push(None);
        }
        Workers {
            register,
            by_part,
            lists: ArrayVec::new(),
            pops: None,
        }
    }

    /// Tells the prover that each region and its owner have the same place in their lists, and that a part that is home
    /// has no jobs. The call does nothing.
    #[inline(always)]
    pub(crate) fn rules(&self)
        ensures ruled { AreOwners self.now.register }
        ensures idle { AreIdle self.now }
    {
        self.register.rules();
    }

    /// Returns the register, in which a lent part is as it was when it was lent.
    pub(crate) fn register(&self) -> &Register
        ensures value { result.now ≡ self.now.register }
        ensures ruled { AreOwners self.now.register }
    {
        self.register.rules();
        &self.register
    }

    /// Returns the register. All parts must be home.
    pub(crate) fn into_register(self) -> Register
        requires { NoneOut self }
        ensures { result ≡ self.register }
    {
        let Workers {
            register,
            by_part: _workers,
            lists: _lists,
            pops: _pops,
        } = self;
        register
    }

    /// Lends the holding of a part that is home to a worker, which is started for it. It returns `Memory` or `Thread`
    /// if no worker could be started.
    #[inline(never)]
    fn start<G: Gate + 'static, R: Threads + Wait + Copy + Send + Sync + 'static>(
        &mut self,
        rt: &R,
        alloc: Global,
        gate: &Arc<G>,
        part: u8,
    ) -> Result<(), Refusal>
        requires there { part < length self.old.jobs }
        requires home { slice_index_or (homes_in self.old.register.owners) part false ≡ true }
        ensures out { OnOk result (IsOut part self.old self.new) }
        ensures refused { OnErr result (self.new ≡ self.old) }
        ensures why { OnErr result ((result ≡ Err Refusal.Memory) ⊎ (result ≡ Err Refusal.Thread)) }
        ensures home { OnErr result (slice_index_or (homes_in self.old.register.owners) part false ≡ true) }
    {
        self.register.rules();
        let list = list_for(&mut self.lists, alloc)?;
        let pops = pops_for(&mut self.pops, alloc)?;
        let idle = Idle::start(rt, alloc, gate, self.register.board(), part, list, pops)?;
        let worker = idle.begin(rt, self.register.lend(part));
        put_worker(&mut self.by_part, part, worker);
        Ok(())
    }

    /// Makes sure that the holding of a part is lent to a worker. It returns `Memory` or `Thread` if no worker could be
    /// started.
    fn call_out<G: Gate + 'static, R: Threads + Wait + Copy + Send + Sync + 'static>(
        &mut self,
        rt: &R,
        alloc: Global,
        gate: &Arc<G>,
        part: u8,
    ) -> Result<(), Refusal>
        requires { part < length self.old.jobs }
        ensures out { OnOk result (IsOut part self.old self.new) }
        ensures refused { OnErr result (self.new ≡ self.old) }
        ensures why { OnErr result ((result ≡ Err Refusal.Memory) ⊎ (result ≡ Err Refusal.Thread)) }
        ensures home { OnErr result (slice_index_or (homes_in self.old.register.owners) part false ≡ true) }
    {
        self.register.rules();
        if has_worker(&self.by_part, part) {
            return Ok(());
        }
        self.start(rt, alloc, gate, part)
    }

    /// Sends a numbered job to the worker of a part, which is started for its first job. It returns `Memory` or
    /// `Thread` if it could not be started.
    pub(crate) fn send<G: Gate + 'static, R: Threads + Wait + Copy + Send + Sync + 'static>(
        &mut self,
        rt: &R,
        alloc: Global,
        gate: &Arc<G>,
        part: u8,
        number: u64,
        task: Task,
    ) -> Result<(), Refusal>
        requires there { part < length self.old.jobs }
        requires of { IsJobOf self.old.register.regions part (job_of task) }
        requires room { length (slice_index_or self.old.jobs part []) < MOST_PENDING }
        ensures sent { OnOk result (IsSentTo part (number, job_of task) self.old self.new) }
        ensures refused { OnErr result (self.new ≡ self.old) }
        ensures why { OnErr result ((result ≡ Err Refusal.Memory) ⊎ (result ≡ Err Refusal.Thread)) }
        ensures home { OnErr result (slice_index_or (homes_in self.old.register.owners) part false ≡ true) }
    {
        self.call_out(rt, alloc, gate, part)?;
        self.register.rules();
        offer_before(
            rt,
            &mut self.by_part,
            lend_pops(&self.pops),
            usize::from(part),
        );
        send_to(rt, &mut self.by_part, part, number, task);
        Ok(())
    }

    /// Pushes the jobs that are held, if there are places in the queues of their workers.
    pub(crate) fn offer(&mut self)
        ensures { self.new ≡ self.old }
    {
        offer_all(&mut self.by_part);
    }

    /// Pushes all jobs that are held: first into queues that have a place, and then into the others once they have one.
    /// It may wait.
    pub(crate) fn hand_on<R: Wait>(&mut self, rt: &R)
        ensures { self.new ≡ self.old }
    {
        offer_all(&mut self.by_part);
        hand_on_all(rt, &mut self.by_part, lend_pops(&self.pops));
    }

    /// Tells the worker of a part to stop, if there is such a part and it is lent. It may wait.
    pub(crate) fn stop<R: Wait>(&mut self, rt: &R, part: u8)
        ensures { self.new ≡ self.old }
    {
        if usize::from(part) < self.by_part.len() {
            stop_at(rt, &mut self.by_part, usize::from(part));
        }
    }

    /// Tells the workers of parts to stop. It may wait.
    pub(crate) fn stop_parts<R: Wait>(&mut self, rt: &R, parts: Parts)
        ensures { self.new ≡ self.old }
    {
        for part in parts.first..parts.end {
            self.stop(rt, part);
        }
    }

    /// Tells the workers on both sides of each bound that a recut moves to stop. It may wait.
    pub(crate) fn stop_sides<R: Wait>(&mut self, rt: &R, moves: &[CutMove])
        ensures { self.new ≡ self.old }
    {
        for bound_move in moves {
            self.stop(rt, bound_move.bound.saturating_sub(1));
            self.stop(rt, bound_move.bound);
        }
    }

    /// Brings the holding of a part home, if there is such a part and it is lent, and returns the replies to its jobs.
    /// Its worker must have been told to stop. It may wait.
    pub(crate) fn bring_home<G: Gate, R: Threads + Wait>(
        &mut self,
        rt: &R,
        gate: &Arc<G>,
        part: u8,
    ) -> Option<Vec<(u64, Reply)>>
        ensures home { IsHomeAgain part self.old (option_map (λ answers. answers.items) result) self.new }
        ensures room { IfSome result (λ answers. MOST_PENDING ≤ vec_capacity answers) }
    {
        self.register.rules();
        let worker = take_worker(&mut self.by_part, part)?;
        let (holding, answers) = worker.join(rt, &**gate, part);
        self.register.back(holding);
        Some(answers)
    }

    /// Keeps a list for the replies of the next worker.
    pub(crate) fn keep(&mut self, list: EmptyList)
        ensures { self.new ≡ self.old }
    {
        let _full = self.lists.try_push(Some(list));
    }

    /// Has the register do an event. The parts on which it works must be home, and the workers stay with their parts.
    pub(crate) fn apply(&mut self, event: Event) -> Reply
        requires { IsHomeTo event self.old.register }
        ensures step { IsStepWhileOut event self.old.register result self.new.register }
        ensures changed { AreWorkersChanged (part_change_of result) self.old self.new }
        ensures spare { changes_parts event ≡ false → self.new.register.spare ≡ self.old.register.spare }
        ensures desk { IsLaterDesk self.old.register.spare self.new.register.spare }
    {
        self.register.rules();
        let reply = self.register.apply(event);
        part_workers(&mut self.by_part, &reply);
        reply
    }

    /// Has the register move the bounds between parts. The parts on both sides of each bound that moves must be home.
    pub(crate) fn recut_to(&mut self, bounds: &[u64]) -> Result<u8, Refusal>
        requires { IsHomeToCut bounds.now self.old.register }
        ensures recut { IsRecutWhileOut bounds.now self.old.register result self.new.register }
        ensures homes { HaveSameHomes self.old.register self.new.register }
        ensures jobs { self.new.jobs ≡ self.old.jobs }
    {
        self.register.recut_to(bounds)
    }

    /// Looks at the board, no matter which parts are lent, and returns a sight of its words.
    pub(crate) fn look(&mut self) -> Sight
        ensures right { IsSightOf (store_in self.old.register) result.words }
        ensures seen { self.new ≡ record self.old { register = record self.old.register { spare = with_view self.old.register.spare (looked self.old.register.spare.view result.words) } } }
    {
        self.register.look()
    }
}
