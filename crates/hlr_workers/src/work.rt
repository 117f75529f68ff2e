//! The work of a worker's thread.
ghost use Rattle.std.specs.Prelude.{◌≡◌, ◌≤◌, ◌+◌, true, false, [], ◌∷◌, length, vec_capacity};
ghost use Rattle.crossbeam_queue.specs.Passes.{view, IsPassOf};
ghost use Rattle.hlr_workers.specs.Finish.{IsAtWork, IsSessionMore};
ghost use Rattle.hlr_workers.specs.Relay.{AreWithin, jobs_in, log};
ghost use Rattle.hlr_workers.specs.declared.message.Message.TheVariants.{Begin};
ghost use Rattle.hlr_workers.specs.declared.work.TheConstants.{MOST_PENDING};

use crate::gate::Gate;
use crate::inbox::Inbox;
use crate::message::{Batch, Lent, Message};
use crate::rule::QueuePass;
use hlr_core::Reply;
use holding::Holding;
use std::sync::Wait;
use view_board::Board;

/// How many events may be pending at most, which is also the number of replies for which a worker has room.
pub const MOST_PENDING: usize = 4_096;

// The number that the condition of a submit means.
const _: () = prove!(MOST_PENDING == 4_096);

/// An empty list with room for the replies to as many events as may be pending.
#[derive(Drop)]
pub struct EmptyList {
    pub list: Vec<(u64, Reply)>,
    pub ghost none: { list.items ≡ [] },
    pub ghost room: { MOST_PENDING ≤ vec_capacity list },
}

/// What the thread hands back: its pass, the board, the holding as it is now, and the replies.
#[derive(Drop)]
pub(crate) struct Finished {
    pub(crate) pass: QueuePass,
    pub(crate) lent: Lent,
    pub(crate) replies: Vec<(u64, Reply)>,
}

/// Takes the first message, which is the holding.
fn first<R: Wait>(rt: &R, inbox: &Inbox, pass: &mut QueuePass) -> Lent
    requires { IsPassOf inbox.now.queue pass.old × (view pass.old ≡ log false true [] []) }
    ensures { IsPassOf inbox.now.queue pass.new × (view pass.new ≡ log false true [] (Begin result ∷ [])) }
{
    match inbox.pop(rt, pass) {
        Message::Begin(lent) => lent,
        _ => unreachable!(),
    }
}

/// Does the jobs of a message, one after another, and adds their replies to the list.
pub(crate) fn do_batch<G: Gate>(
    gate: &G,
    part: u8,
    board: &Board,
    holding: &mut Holding,
    replies: &mut Vec<(u64, Reply)>,
    batch: &Batch,
)
    requires board { holding.old.desk.board ≡ board.now }
    requires within { AreWithin holding.old (jobs_in batch.now) }
    requires room { length replies.old.items + length batch.now.items ≤ vec_capacity replies.old }
    ensures done { IsSessionMore (jobs_in batch.now) replies.old.items holding.old replies.new.items holding.new }
    ensures board { holding.new.desk.board ≡ board.now }
    ensures capacity { vec_capacity replies.new ≡ vec_capacity replies.old }
{
    for one in batch.as_slice() {
        gate.before(part, one.number);
        let reply = one.task.carry_out(holding, board);
        gate.after(part, one.number);
        replies.push_reserved((one.number, reply));
    }
}

/// Does the jobs that come until `Stop`, and returns the pass, the holding and the replies.
fn serve<G: Gate, R: Wait>(
    rt: &R,
    inbox: &Inbox,
    gate: &G,
    part: u8,
    mut pass: QueuePass,
    board: &Board,
    mut holding: Box<Holding>,
    mut replies: Vec<(u64, Reply)>,
) -> (QueuePass, Box<Holding>, Vec<(u64, Reply)>)
    requires pass { IsPassOf inbox.now.queue pass }
    requires board { holding.value.desk.board ≡ board.now }
    requires work { IsAtWork (view pass) replies.items holding.value }
    requires room { MOST_PENDING ≤ vec_capacity replies }
    ensures pass { IsPassOf inbox.now.queue result.0 }
    ensures board { result.1.value.desk.board ≡ board.now }
    ensures work { IsAtWork (view result.0) result.2.items result.1.value }
    ensures room { MOST_PENDING ≤ vec_capacity result.2 }
{
    for _ in rt.forever() {
        match inbox.pop(rt, &mut pass) {
            Message::Do(batch) => {
                do_batch(gate, part, board, &mut holding, &mut replies, &batch);
            }
            Message::Stop => return (pass, holding, replies),
            Message::Begin(_) => unreachable!(),
        }
    }
    unreachable!()
}

/// Runs the thread of a worker, from its start to its end.
pub(crate) fn live<G: Gate, R: Wait>(
    rt: &R,
    inbox: &Inbox,
    gate: &G,
    part: u8,
    mut pass: QueuePass,
    replies: Vec<(u64, Reply)>,
) -> Finished
    requires pass { IsPassOf inbox.now.queue pass × (view pass ≡ log false true [] []) }
    requires room { (MOST_PENDING ≤ vec_capacity replies) × (replies.items ≡ []) }
    ensures pass { IsPassOf inbox.now.queue result.pass }
    ensures work { IsAtWork (view result.pass) result.replies.items result.lent.holding.value }
    ensures room { MOST_PENDING ≤ vec_capacity result.replies }
{
    let Lent { holding, board } = first(rt, inbox, &mut pass);
    let (pass, holding, replies) = serve(rt, inbox, gate, part, pass, &board, holding, replies);
    Finished {
        pass,
        lent: Lent { holding, board },
        replies,
    }
}
