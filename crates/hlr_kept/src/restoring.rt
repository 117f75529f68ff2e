//! Does the events of a journal's lines again.
ghost use Rattle.std.specs.Prelude.{◌≡◌, ◌⊎◌, [], Some, None, IfSome};
ghost use Rattle.part_table.specs.Regions.{pieces_of};
ghost use Rattle.hlr_owners.specs.Owners.{AllHome, book_in};
ghost use Rattle.hlr_kept.specs.Rows.{HasOtherRows, book_after_line};
ghost use Rattle.hlr_kept.specs.Runs.{tells_done, wants_memory};

use edit_lines::read_line;
use hlr_core::{Refusal, Register, Reply, RowReply};
use journal::JournalFault;

/// Tells whether a reply says that rows were changed.
pub fn tells_done(reply: &Reply) -> bool
    ensures { result ≡ tells_done reply.now }
{
    matches!(reply, Reply::Rows(RowReply::Done))
}

/// Tells whether an event was refused for want of memory.
fn wants_memory(reply: &Reply) -> bool
    ensures { result ≡ wants_memory reply.now }
{
    matches!(reply, Reply::Refused(Refusal::Memory))
}

/// Does the event of a line again, in a register of which no part is lent and no piece is loose. Returns why that is
/// refused, if it is: `BadLine` if the line has no event, or if the event isn't answered `Done`, and `Memory`.
pub fn redo(register: &mut Register, line: &[u8]) -> Option<JournalFault>
    requires home { AllHome register.old.owners }
    requires pieces { pieces_of register.old.regions ≡ [] }
    ensures home { AllHome register.new.owners }
    ensures pieces { pieces_of register.new.regions ≡ [] }
    ensures stays { HasOtherRows register.old register.new }
    ensures done { result ≡ None → book_after_line line.now (Some (book_in register.old.owners)) ≡ Some (book_in register.new.owners) }
    ensures refused { IfSome result (λ why. (why ≡ JournalFault.Memory) ⊎ ((why ≡ JournalFault.BadLine) × (book_after_line line.now (Some (book_in register.old.owners)) ≡ None))) }
{
    let Ok(event) = read_line(line) else {
        return Some(JournalFault::BadLine);
    };
    let reply = register.apply(event);
    if tells_done(&reply) {
        return None;
    }
    if wants_memory(&reply) {
        return Some(JournalFault::Memory);
    }
    Some(JournalFault::BadLine)
}
