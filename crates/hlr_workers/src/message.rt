//! The messages through the queue of a worker, and what each end of the queue knows of them.
ghost use Rattle.std.specs.Prelude.{◌≡◌};
ghost use Rattle.std.specs.Arc.{arc_value};

use arrayvec::ArrayVec;
use hlr_core::Task;
use holding::Holding;
use std::collections::LinkedList;
use std::sync::Arc;
use view_board::Board;

/// A lent holding, with the board to which its desk belongs.
#[derive(Drop)]
pub struct Lent {
    pub holding: Box<Holding>,
    pub board: Arc<Board>,
    pub ghost same: { holding.value.desk.board ≡ arc_value board },
}

/// How many jobs a message has at most.
pub const MOST_JOBS: usize = 16;

/// A job, as a task, with the number of its event.
#[derive(Clone, Copy)]
pub struct Numbered {
    pub number: u64,
    pub task: Task,
}

impl Default for Numbered {
    fn default() -> Numbered {
        Numbered {
            number: 0,
            task: Task::Post(0),
        }
    }
}

/// The jobs of a message, in their order.
pub type Batch = ArrayVec<Numbered, MOST_JOBS>;

/// A message to a worker. The first one has the holding, and later ones have jobs. After `Stop`, the thread hands back
/// what it has.
#[derive(Drop)]
pub enum Message {
    Begin(Lent),
    Do(Batch),
    Stop,
}

/// What the owner of a pass may do (push, pop), what it has pushed, and what it has popped. The definitions use it, and
/// no value of it is ever made.
pub struct Log {
    pub pushes: bool,
    pub pops: bool,
    pub sent: LinkedList<Message>,
    pub got: LinkedList<Message>,
}
