//! Which events have a line.
ghost use Rattle.edit_lines.specs.Done.{DoneIsChange};

/// Each event that a register answers `Done` changes rows, and its plain numbers are in their ranges, so `push_line` may
/// be called with it. The call does nothing.
pub fn done_is_change()
    ensures { DoneIsChange }
{}
