//! The calls that open and close a register.
ghost use Rattle.std.specs.Prelude.{◌≡◌, ◌⊎◌, None, IfOk, IfErr};
ghost use Rattle.tatp_rows.specs.declared.refusal.Refusal.TheVariants as refusal;
ghost use Rattle.hlr_owners.specs.Owners.{AllHome, store_in};
ghost use Rattle.hlr_owners.specs.Store.{HasOpening, opening};
ghost use Rattle.hlr_c.specs.Opened.{IsClosing, IsOpening};

use crate::codes::{DONE, NOT_OPEN, STILL_OPEN};
use crate::handle::Hlr;
use crate::opened::Opened;
use hlr_core::{Refusal, Register};
use hlr_lent::Lender;
use std::alloc::Global;

/// Opens an empty register, with all of its parts home. Its refusals, in order, are `Field` if parts isn't in 1..=16 or
/// the width isn't in 1..=524,288, and `Memory`.
pub(crate) fn open_register(alloc: Global, parts: u64, width: u64) -> Result<Register, Refusal>
    ensures ok { IfOk result (λ register. HasOpening parts width × (store_in register ≡ opening parts width)) }
    ensures home { IfOk result (λ register. AllHome register.owners) }
    ensures err { IfErr result (λ why. ((why ≡ refusal.Field) × ¬ (HasOpening parts width)) ⊎ ((why ≡ refusal.Memory) × HasOpening parts width)) }
{
    let (Ok(parts), Ok(width)) = (u8::try_from(parts), u32::try_from(width)) else {
        return Err(Refusal::Field);
    };
    Register::open(alloc, parts, width)
}

/// Opens an empty register without a journal in a box, as `open_register` does.
fn open_boxed(alloc: Global, parts: u64, width: u64) -> Result<Box<Opened>, Refusal>
    ensures ok { IfOk result (λ opened. HasOpening parts width × (store_in opened.value.lender ≡ opening parts width)) }
    ensures home { IfOk result (λ opened. AllHome opened.value.lender.owners) }
    ensures journal { IfOk result (λ opened. opened.value.journal ≡ None) }
    ensures err { IfErr result (λ why. ((why ≡ refusal.Field) × ¬ (HasOpening parts width)) ⊎ ((why ≡ refusal.Memory) × HasOpening parts width)) }
{
    let register = open_register(alloc, parts, width)?;
    let opened = Opened {
        lender: Lender::of(register),
        journal: None,
    };
    Ok(Box::new(alloc, opened)?)
}

/// Opens an empty register without a journal in a closed handle, with 1..=16 parts that share its subscribers, and zones
/// of 1..=524,288 subscribers. Its refusals, in order, are `STILL_OPEN` if the handle has a register, `Field`, and
/// `Memory`. Each of them leaves the handle as it was.
#[unsafe(no_mangle)]
pub extern "C" fn hlr_open(alloc: Global, parts: u64, width: u64, handle: &mut Hlr) -> u8
    ensures register { IsOpening parts width handle.old.kept.register result handle.new.kept.register }
    ensures journal { handle.new.kept.journal ≡ handle.old.kept.journal }
{
    if handle.is_open() {
        return STILL_OPEN;
    }
    match open_boxed(alloc, parts, width) {
        Ok(opened) => {
            handle.put(opened);
            DONE
        }
        Err(why) => why.code(),
    }
}

/// Closes a handle, and gives back all memory of its register, except that of lent parts, which keep working. Of a
/// journal it writes nothing, so that what wasn't synced is lost, and the file stays open. It returns `NOT_OPEN` if the
/// handle has no register.
#[unsafe(no_mangle)]
pub extern "C" fn hlr_close(alloc: Global, handle: &mut Hlr) -> u8
    ensures register { IsClosing handle.old.kept.register result handle.new.kept.register }
    ensures journal { handle.new.kept.journal ≡ None }
{
    match handle.take(alloc) {
        None => NOT_OPEN,
        Some(opened) => {
            drop(opened);
            DONE
        }
    }
}
