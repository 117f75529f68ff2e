//! Changes of a register with a journal.
ghost use Rattle.std.specs.Prelude.{◌≡◌, ◌+◌, ◌≤◌, true, Some, Ok, IfOk, vec_len, vec_capacity};
ghost use Rattle.hlr_c.specs.Call.{IsAnswer};
ghost use Rattle.hlr_c.specs.Held.{IsJournaled};
ghost use Rattle.hlr_c.specs.Inside.{changes_rows};
ghost use Rattle.hlr_c.specs.Journaled.{IsAdded, IsKeptAnswer, line_written};
ghost use Rattle.hlr_c.specs.Told.{code_told};
ghost use Rattle.hlr_c.specs.declared.codes.TheConstants.{AWAY};

use crate::codes::{AWAY, code_of_fault, code_of_reply};
use crate::opened::FileJournal;
use hlr_core::{Event, Refusal};
use hlr_lent::Lender;

/// Does a change for whose line there is room, and puts the line behind those that wait if the change was done.
fn change_and_write(lender: &mut Lender, journal: &mut FileJournal, event: Event) -> u8
    requires change { changes_rows event ≡ true }
    requires journaled { IsJournaled lender.old (Some journal.old) }
    requires room { vec_len journal.old.current.group + 44 ≤ vec_capacity journal.old.current.group }
    ensures journaled { IsJournaled lender.new (Some journal.new) }
    ensures answer { IsAnswer (Ok event) code_told AWAY lender.old result lender.new }
    ensures written { IsAdded (line_written (Ok event) result) journal.old journal.new }
{
    match lender.ask(event) {
        Some(reply) => {
            journal.current.put(&event, &reply);
            code_of_reply(&reply)
        }
        None => AWAY,
    }
}

/// Does what is asked for in a register with a journal, or returns the code of a refusal. First it makes room for the
/// longest line. If an earlier sync has failed, or memory is refused, it returns the code of that fault.
#[inline(never)]
pub(crate) fn change_kept(
    lender: &mut Lender,
    journal: &mut FileJournal,
    asked: Result<Event, Refusal>,
) -> u8
    requires change { IfOk asked (λ wanted. changes_rows wanted ≡ true) }
    requires journaled { IsJournaled lender.old (Some journal.old) }
    ensures journaled { IsJournaled lender.new (Some journal.new) }
    ensures answer { IsKeptAnswer asked lender.old journal.old result lender.new journal.new }
{
    if let Err(fault) = journal.current.make_room() {
        return code_of_fault(fault);
    }
    match asked {
        Ok(event) => change_and_write(lender, journal, event),
        Err(why) => why.code(),
    }
}
