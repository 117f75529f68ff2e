//! The jobs of a holding.
use tatp_actions::Action;

/// A job for a holding: an action on its rows, or a posting of what is pending. A thread that works on a holding
/// receives its work as jobs.
#[derive(Clone, Copy, Debug, PartialEq, Eq)]
pub enum Job {
    /// Does this action.
    Act(Action),
    /// Posts at most this many cells.
    Post(u64),
}
