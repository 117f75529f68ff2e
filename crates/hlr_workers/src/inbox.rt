//! The inbox of a worker, which is its queue together with two ways to sleep: a worker that finds the queue empty
//! sleeps until a message is put in, and a thread that finds it full sleeps until one is taken out.
ghost use Rattle.std.specs.Prelude.{◌≡◌, true, false, [], ◌∷◌, ◌++◌, None, IfErr, IfSome, OnErr, OnOk};
ghost use Rattle.crossbeam_queue.specs.Passes.{view, IsPassOf};
ghost use Rattle.hlr_workers.specs.Relay.{log, IsWellSent};

use crate::message::{Log, Message};
use crate::rule::{Got, Queue, QueuePass, Rest, Sent};
use crossbeam_utils::Backoff;
use crossbeam_utils::sync::EventCount;
use std::alloc::Global;
use std::sync::{Arc, Wait};

/// How often a thread looks at a queue that is empty, or full, before it sleeps.
pub(crate) const LOOKS: u32 = 1_000;

/// The queue of a worker, with the count of pushes that wakes the worker, and the count of pops of all workers' queues
/// that wakes a thread which waits for a place.
#[derive(Drop)]
pub(crate) struct Inbox {
    pub(crate) queue: Queue,
    pub(crate) pushes: EventCount,
    pub(crate) pops: Arc<EventCount, Global>,
}

impl Inbox {
    /// Puts a message into the queue if there is a place, and wakes the worker if it sleeps. If there is no place, it
    /// gives the message back.
    pub(crate) fn offer(&self, pass: &mut QueuePass, message: Message) -> Result<(), Message>
        requires pass { IsPassOf self.now.queue pass.old }
        requires sends { view pass.old ≡ log true false (view pass.old).sent [] }
        requires right { IsWellSent ((view pass.old).sent ++ message ∷ []) }
        ensures pass { IsPassOf self.now.queue pass.new }
        ensures sent { OnOk result (view pass.new ≡ log true false ((view pass.old).sent ++ message ∷ []) []) }
        ensures back { IfErr result (λ back. back ≡ message) }
        ensures same { OnErr result (view pass.new ≡ view pass.old) }
    {
        self.queue.try_push_as::<Sent>(pass, message)?;
        self.pushes.notify_one();
        Ok(())
    }

    /// Tries once more to put a message in, and sleeps if there is no place. A pop after this try ends the sleep, or
    /// keeps it from beginning.
    fn offer_or_sleep<R: Wait>(
        &self,
        rt: &R,
        pass: &mut QueuePass,
        message: Message,
    ) -> Result<(), Message>
        requires pass { IsPassOf self.now.queue pass.old }
        requires sends { view pass.old ≡ log true false (view pass.old).sent [] }
        requires right { IsWellSent ((view pass.old).sent ++ message ∷ []) }
        ensures pass { IsPassOf self.now.queue pass.new }
        ensures sent { OnOk result (view pass.new ≡ log true false ((view pass.old).sent ++ message ∷ []) []) }
        ensures back { IfErr result (λ back. back ≡ message) }
        ensures same { OnErr result (view pass.new ≡ view pass.old) }
    {
        let wait = self.pops.prepare_wait();
        match self.offer(pass, message) {
            Ok(()) => Ok(()),
            Err(back) => {
                wait.wait(rt);
                Err(back)
            }
        }
    }

    /// Puts a message in once there is a place, and wakes the worker if it sleeps. While it waits for a place, it spins
    /// for a while, then yields, and then sleeps. It may wait.
    pub(crate) fn push<R: Wait>(&self, rt: &R, pass: &mut QueuePass, mut message: Message)
        requires pass { IsPassOf self.now.queue pass.old }
        requires sends { view pass.old ≡ log true false (view pass.old).sent [] }
        requires right { IsWellSent ((view pass.old).sent ++ message ∷ []) }
        ensures pass { IsPassOf self.now.queue pass.new }
        ensures sent { view pass.new ≡ log true false ((view pass.old).sent ++ message ∷ []) [] }
    {
        let backoff = Backoff::new();
        let mut looks = 0;
        for _ in rt.forever() {
            if looks < LOOKS {
                match self.offer(pass, message) {
                    Ok(()) => return,
                    Err(back) => message = back,
                }
                looks += 1;
                backoff.snooze();
            } else {
                match self.offer_or_sleep(rt, pass, message) {
                    Ok(()) => return,
                    Err(back) => message = back,
                }
            }
        }
        unreachable!()
    }

    /// Looks once more for a message, and sleeps if there is none. A push after this look ends the sleep, or keeps it
    /// from beginning.
    fn sleep<R: Wait>(&self, rt: &R, pass: &mut QueuePass) -> Option<Message>
        requires pass { IsPassOf self.now.queue pass.old }
        requires gets { view pass.old ≡ log false true [] (view pass.old).got }
        ensures pass { IsPassOf self.now.queue pass.new }
        ensures got { IfSome result (λ message. view pass.new ≡ log false true [] ((view pass.old).got ++ message ∷ [])) }
        ensures right { IfSome result (λ message. IsWellSent ((view pass.old).got ++ message ∷ [])) }
        ensures none { result ≡ None → view pass.new ≡ view pass.old }
    {
        let wait = self.pushes.prepare_wait();
        let message = self.queue.try_pop_as::<Got>(pass);
        if message.is_none() {
            wait.wait(rt);
        }
        message
    }

    /// Returns the next message, once there is one. While it waits, it spins for a while, then yields, and then sleeps.
    /// It may wait.
    fn next<R: Wait>(&self, rt: &R, pass: &mut QueuePass) -> Message
        requires pass { IsPassOf self.now.queue pass.old }
        requires gets { view pass.old ≡ log false true [] (view pass.old).got }
        ensures pass { IsPassOf self.now.queue pass.new }
        ensures got { view pass.new ≡ log false true [] ((view pass.old).got ++ result ∷ []) }
        ensures right { IsWellSent ((view pass.old).got ++ result ∷ []) }
    {
        let backoff = Backoff::new();
        let mut looks = 0;
        for _ in rt.forever() {
            if let Some(message) = self.queue.try_pop_as::<Got>(pass) {
                return message;
            }
            if looks < LOOKS {
                looks += 1;
                backoff.snooze();
            } else if let Some(message) = self.sleep(rt, pass) {
                return message;
            }
        }
        unreachable!()
    }

    /// Takes the next message out, once there is one, and wakes a thread that waits for a place. It may wait.
    pub(crate) fn pop<R: Wait>(&self, rt: &R, pass: &mut QueuePass) -> Message
        requires pass { IsPassOf self.now.queue pass.old }
        requires gets { view pass.old ≡ log false true [] (view pass.old).got }
        ensures pass { IsPassOf self.now.queue pass.new }
        ensures got { view pass.new ≡ log false true [] ((view pass.old).got ++ result ∷ []) }
        ensures right { IsWellSent ((view pass.old).got ++ result ∷ []) }
    {
        let message = self.next(rt, pass);
        self.pops.notify_one();
        message
    }

    /// Takes the next message out, or finds that none waits, in which case all that was sent has been received. It may
    /// wait.
    pub(crate) fn pop_rest<R: Wait>(&self, rt: &R, pass: &mut QueuePass) -> Option<Message>
        requires pass { IsPassOf self.now.queue pass.old }
        requires both { view pass.old ≡ log true true (view pass.old).sent (view pass.old).got }
        ensures pass { IsPassOf self.now.queue pass.new }
        ensures got { IfSome result (λ message. view pass.new ≡ log true true (view pass.old).sent ((view pass.old).got ++ message ∷ [])) }
        ensures right { IfSome result (λ message. IsWellSent ((view pass.old).got ++ message ∷ [])) }
        ensures none { result ≡ None → (view pass.old).got ≡ (view pass.old).sent }
    {
        self.queue.pop_as::<Rest, R>(rt, pass)
    }
}
