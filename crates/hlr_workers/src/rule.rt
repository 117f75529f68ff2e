//! The rule of the queue of a worker. One pass pushes and one pops, and the messages that were sent are those that were
//! received, followed by those that wait.
ghost use Rattle.std.specs.Prelude.{◌≡◌, true, false, [], ◌∷◌, ◌++◌};
ghost use Rattle.hlr_workers.specs.Relay.{log, IsRelayed, IsWellSent};

use crate::message::{Log, Message};
use crossbeam_queue::protocol::{Join, Lesson, Outcome, Protocol, Split};
use crossbeam_queue::{Pass, RuledArrayQueue};

/// The rule: messages are received in the order in which they were sent.
pub struct InOrder;

impl Protocol<Message, Log> for InOrder {
    ghost holds = { IsRelayed };

    ghost first = { log true true [] [] };
}

/// The step by which a pass that may both push and pop becomes the router's and the worker's, and by which these two
/// become one again.
pub struct Roles;

impl Split<Log> for Roles {
    ghost left = { λ v. log true false v.sent [] };

    ghost right = { λ v. log false true [] v.got };
}

impl Join<Log> for Roles {
    ghost both = { λ v w. log true true v.sent w.got };

    ghost spent = { log false false [] [] };
}

/// The step of a push.
pub struct Sent;

impl Outcome<Message, Log> for Sent {
    ghost then = { λ v x w. w ≡ log v.pushes v.pops (v.sent ++ x ∷ []) v.got };
}

/// The step of a pop. The message that is popped is in its place among those that may have been sent.
pub struct Got;

impl Outcome<Message, Log> for Got {
    ghost then = { λ v x w. (w ≡ log v.pushes v.pops v.sent (v.got ++ x ∷ [])) × IsWellSent (v.got ++ x ∷ []) };
}

/// The step of a pop that may find no message waiting; then all that was sent has been received.
pub struct Rest;

impl Outcome<Message, Log> for Rest {
    ghost then = { λ v x w. (w ≡ log v.pushes v.pops v.sent (v.got ++ x ∷ [])) × IsWellSent (v.got ++ x ∷ []) };
}

impl Lesson<Message, Log> for Rest {
    ghost fact = { λ v items. v.sent ≡ v.got ++ items };
}

/// The queue of a worker.
pub type Queue = RuledArrayQueue<Message, Log, InOrder>;

/// A pass of such a queue.
pub type QueuePass = Pass<Message, Log>;
