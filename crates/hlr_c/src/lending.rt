//! The calls that lend a part to a handle of its own, send it home, and take it in.
ghost use Rattle.std.specs.Prelude.{◌≡◌, IfErr, IfOk};
ghost use Rattle.hlr_owners.specs.Owners.{IsLent};
ghost use Rattle.hlr_c.specs.Call.{IsCall};
ghost use Rattle.hlr_c.specs.Inside.{IsSent};
ghost use Rattle.hlr_c.specs.Opened.{IsClosing, IsComing, IsKept, IsLending};
ghost use Rattle.hlr_c.specs.declared.codes.TheConstants.{NOT_OPEN};

use crate::codes::{AWAY, DONE, JOURNALED, NOT_OPEN, STILL_OPEN};
use crate::handle::{Hlr, with_opened};
use crate::part::HlrPart;
use hlr_core::Refusal;
use hlr_lent::{Lender, LentPart, Sent};
use std::alloc::Global;

/// Lends a part, or returns the code of the reason why it isn't lent.
fn lend(alloc: Global, register: &mut Lender, part: u64) -> Result<Box<LentPart>, u8>
    ensures lent { IfOk result (λ lent. IsLent part register.old lent.value register.new) }
    ensures kept { IfErr result (λ code. (register.new ≡ register.old) × IsKept part register.old code) }
{
    if part >= u64::from(register.register().regions().parts()) {
        return Err(Refusal::NoPart.code());
    }
    if !register.is_part_home(part) {
        return Err(AWAY);
    }
    match register.lend(alloc, part as u8) {
        Ok(lent) => Ok(lent),
        Err(why) => Err(why.code()),
    }
}

fn back(register: &mut Lender, part: u64) -> u8
    ensures { IsComing part register.old result register.new }
{
    if part >= u64::from(register.register().regions().parts()) {
        return Refusal::NoPart.code();
    }
    if register.is_part_home(part) || register.back(part as u8) {
        return DONE;
    }
    AWAY
}

/// Lends a part to a closed handle, for any thread. Its refusals, in order, are `NOT_OPEN`, `STILL_OPEN` if that handle
/// has a part, `JOURNALED` if the register has a journal, `NoPart`, `AWAY` if the part is lent, and `Memory`. Each of
/// them changes nothing.
#[unsafe(no_mangle)]
pub extern "C" fn hlr_lend(alloc: Global, handle: &mut Hlr, part: u64, lent: &mut HlrPart) -> u8
    ensures lending { IsLending part handle.old.kept.journal (handle.old.kept.register, lent.old.kept.part) result (handle.new.kept.register, lent.new.kept.part) }
    ensures journal { handle.new.kept.journal ≡ handle.old.kept.journal }
{
    let Some(mut opened) = handle.take(alloc) else {
        return NOT_OPEN;
    };
    if lent.is_open() {
        handle.put(opened);
        return STILL_OPEN;
    }
    if opened.journal.is_some() {
        handle.put(opened);
        return JOURNALED;
    }
    let out = lend(alloc, &mut opened.lender, part);
    handle.put(opened);
    match out {
        Ok(out) => {
            lent.put(out);
            DONE
        }
        Err(code) => code,
    }
}

/// Takes a part in that was sent home, and does nothing if the part is home already. Its refusals, in order, are
/// `NOT_OPEN`, `NoPart`, and `AWAY` if the part wasn't sent home yet.
#[unsafe(no_mangle)]
pub extern "C" fn hlr_back(alloc: Global, handle: &mut Hlr, part: u64) -> u8
    ensures answer { IsCall NOT_OPEN (IsComing part) handle.old.kept.register result handle.new.kept.register }
    ensures journal { handle.new.kept.journal ≡ handle.old.kept.journal }
{
    with_opened!(handle, alloc, |opened| { back(&mut opened.lender, part) })
}

/// Sends the part of a handle home as it is, if the handle has one, and closes the handle.
fn home(alloc: Global, part: &mut HlrPart) -> Option<Sent>
    ensures closed { part.new.kept.part ≡ None }
    ensures sent { IsSent part.old.kept.part result }
{
    let lent = part.take(alloc)?;
    Some(Box::into_inner(lent).send_home())
}

/// Sends a part home, from any thread, and closes its handle. It returns `NOT_OPEN` if the handle isn't open.
#[unsafe(no_mangle)]
pub extern "C" fn hlr_home(alloc: Global, part: &mut HlrPart) -> u8
    ensures { IsClosing part.old.kept.part result part.new.kept.part }
{
    match home(alloc, part) {
        None => NOT_OPEN,
        Some(_sent) => DONE,
    }
}
