//! The orders that a register carries out as a list, and its answers to them.
ghost use Rattle.hlr_core.specs.Kept.{RunsAreSameAtHome};

use crate::event::{Event, Reply};
use arrayvec::ArrayVec;
use tatp_rows::Refusal;

/// An order to a register: an event, or a recut.
#[derive(Debug, PartialEq, Eq, Drop)]
pub enum Order {
    /// An event, as `Register::apply` takes it.
    Event(Event),
    /// The bounds between parts, as `Register::recut_to` takes them.
    Recut(ArrayVec<u64, 15>),
}

/// The answer of a register to an order.
#[derive(Debug, PartialEq, Eq, Drop)]
pub enum Answer {
    /// The reply to an event.
    Reply(Reply),
    /// How many bounds a recut moved, or why it was refused.
    Recut(Result<u8, Refusal>),
}

/// States that gives, takes and recuts, and parts that come and go, change no reply except to `Moving`, in any right
/// run. That includes a run that is made of single calls of `Register::apply` and `Register::recut_to`, each of which
/// takes a right step, so what `Register::apply_all` says of its list holds for such a run too. The call does nothing.
pub fn no_reply_but_moving()
    ensures { RunsAreSameAtHome }
{}
