//! The codes that are no refusal's, and the codes of replies.
ghost use Rattle.std.specs.Prelude.{◌≡◌};
ghost use Rattle.hlr_core.specs.Home.{IsHomeTo};
ghost use Rattle.hlr_core.specs.Step.{edited_reply};
ghost use Rattle.hlr_c.specs.Inside.{IsAwayCode};
ghost use Rattle.hlr_c.specs.Journaled.{fault_code};
ghost use Rattle.hlr_c.specs.Told.{code_told};

use hlr_core::{Event, Refusal, Reply};
use hlr_lent::Lender;
use journal::JournalFault;

/// The code of a call that was done.
pub const DONE: u8 = 0;

/// The code of a call that opens a file by its name when another process has it open. No call of this crate does.
pub const LOCKED: u8 = 247;

/// The code of a call on a file that is no journal, is damaged or is of another version, or that isn't empty where a
/// journal should begin.
pub const BAD_JOURNAL: u8 = 248;

/// The code of a call when the disk has failed, or has refused.
pub const FAILED: u8 = 249;

/// The code of a call that should lend a part of a register with a journal.
pub const JOURNALED: u8 = 250;

/// The code of a call that needs a journal when the register has none.
pub const NO_JOURNAL: u8 = 251;

/// The code of a call on a lent part whose range doesn't have the subscriber.
pub const ELSEWHERE: u8 = 252;

/// The code of a call that needs a part which is lent.
pub const AWAY: u8 = 253;

/// The code of a call whose handle has no register, or no part.
pub const NOT_OPEN: u8 = 254;

/// The code of a call that should open a handle, or lend a part to it, when the handle has a register or a part
/// already.
pub const STILL_OPEN: u8 = 255;

// Definitions name these constants, so their numbers are proved here.
const _: () = prove!(DONE == 0);

const _: () = prove!(LOCKED == 247);

const _: () = prove!(BAD_JOURNAL == 248);

const _: () = prove!(FAILED == 249);

const _: () = prove!(JOURNALED == 250);

const _: () = prove!(NO_JOURNAL == 251);

const _: () = prove!(ELSEWHERE == 252);

const _: () = prove!(AWAY == 253);

const _: () = prove!(NOT_OPEN == 254);

const _: () = prove!(STILL_OPEN == 255);

/// Returns the code of a change of rows, which was done or refused.
pub(crate) fn code_of_change(done: Result<(), Refusal>) -> u8
    ensures { result ≡ code_told (edited_reply done) }
{
    match done {
        Ok(()) => DONE,
        Err(why) => why.code(),
    }
}

/// Returns the code of a reply.
pub(crate) fn code_of_reply(reply: &Reply) -> u8
    ensures { result ≡ code_told reply.now }
{
    match reply {
        Reply::Refused(why) => why.code(),
        _ => DONE,
    }
}

/// Returns the code of an event that needs a lent part: that of a refusal if one is known without the part, and
/// otherwise `AWAY`.
#[inline(never)]
pub(crate) fn code_away(register: &Lender, event: &Event) -> u8
    requires { ¬ (IsHomeTo event.now register.now) }
    ensures { IsAwayCode event.now register.now result }
{
    match register.known(event) {
        Some(why) => why.code(),
        None => AWAY,
    }
}

/// Returns the code of a journal's fault.
pub(crate) fn code_of_fault(fault: JournalFault) -> u8
    ensures { result ≡ fault_code fault }
{
    match fault {
        JournalFault::Memory => Refusal::Memory.code(),
        JournalFault::Failed | JournalFault::Full => FAILED,
        JournalFault::Locked => LOCKED,
        JournalFault::NoJournal | JournalFault::BadLine => BAD_JOURNAL,
    }
}
