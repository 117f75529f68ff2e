//! What a journal stands for while orders are under way, and after a crash. The calls change nothing.
ghost use Rattle.hlr_owners.specs.Owners.{AllHome};
ghost use Rattle.hlr_kept.specs.Laws.{AppliedIsAhead, CrashesLeaveRuns, FrontsAreRuns, LosesNothing, RedoneIsRight, WrittenIsKept};

use hlr_core::Register;

/// States that each front of the lines that a run leaves stands for the rows after the first so many of its orders.
pub fn fronts_are_runs()
    ensures { FrontsAreRuns }
{}

/// States that a journal stands for the rows of the register once the lines of all orders are written.
pub fn written_is_kept()
    ensures { WrittenIsKept }
{}

/// States that a crash while lines are written leaves the rows after the first so many of the orders under way, with
/// all orders before them.
pub fn crashes_leave_runs()
    ensures { CrashesLeaveRuns }
{}

/// States that an order is under way once it was carried out, and the line of an event that was answered `Done` is put
/// behind the others.
pub fn applied_is_ahead()
    ensures { AppliedIsAhead }
{}

/// States that the events of lines, done again, lead to the rows that the lines stand for, or stop for want of memory.
pub fn redone_is_right()
    ensures { RedoneIsRight }
{}

/// States that a register which was opened from what a crash has left, at any moment of a call that serves orders, has
/// the rows after the first so many of them, with all that was answered before. For each cell, what is published and
/// what is unposted add up to the count over these rows.
pub fn loses_nothing(register: &Register)
    requires { AllHome register.now.owners }
    ensures { LosesNothing register.now }
{
    let _ = register.unposted();
}
