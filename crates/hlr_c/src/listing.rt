//! The reads that no transaction makes, with which C can find who has a number, and write all rows out.
ghost use Rattle.std.specs.Prelude.{◌≡◌};
ghost use Rattle.tatp_actions.specs.Action.{is_typed};
ghost use Rattle.hlr_owners.specs.Owners.{AllHome};
ghost use Rattle.hlr_c.specs.Call.{IsAtHome, IsCall};
ghost use Rattle.hlr_c.specs.Listing.{IsRead, IsReadAt, IsReadWhileOut, bearer_in, facility_in, forwarding_in, forwarding_told, has_key, subscriber_from, value_told};
ghost use Rattle.hlr_c.specs.declared.codes.TheConstants.{AWAY, NOT_OPEN};

use crate::codes::{AWAY, DONE};
use crate::fields::is_typed;
use crate::handle::{Hlr, with_register, with_register_at_home};
use crate::reads::subscriber_for_c;
use crate::rows::{HlrFacility, HlrSubscriber};
use hlr_core::{Facility, Number, Refusal, Register};
use hlr_lent::Lender;
use std::alloc::Global;
use tatp_rows::is_start_time;

/// Makes a facility row as C has it.
pub(crate) fn facility_for_c(row: &Facility) -> HlrFacility
    ensures { result ≡ row.now }
{
    HlrFacility {
        s_id: u64::from(row.s_id()),
        sf_type: u64::from(row.sf_type()),
        is_active: u64::from(row.is_active()),
        error_cntrl: u64::from(row.error_cntrl()),
        data_a: u64::from(row.data_a()),
        data_b: row.data_b().bytes(),
    }
}

fn find(register: &Register, sub_nbr: u64) -> Result<u32, Refusal>
    ensures { IsReadWhileOut (bearer_in sub_nbr) (λ found. found) register.now result register.now }
{
    let sub_nbr = Number::try_new(sub_nbr)?;
    register.find(sub_nbr)
}

fn write_bearer(register: &Register, sub_nbr: u64, s_id: &mut u64) -> u8
    ensures { IsReadWhileOut (bearer_in sub_nbr) (value_told s_id.old) register.now (result, s_id.new) register.now }
{
    match find(register, sub_nbr) {
        Ok(found) => {
            *s_id = u64::from(found);
            DONE
        }
        Err(why) => why.code(),
    }
}

fn write_facility(register: &Lender, s_id: u64, sf_type: u64, row: &mut HlrFacility) -> u8
    ensures { IsReadAt s_id (is_typed s_id sf_type) (facility_in s_id sf_type) (value_told row.old) (AWAY, row.old) register.now (result, row.new) register.now }
{
    if !register.is_home_for(s_id) {
        if !is_typed(s_id, sf_type) {
            return Refusal::Field.code();
        }
        return AWAY;
    }
    match register.register().facility_data(s_id, sf_type) {
        Ok(found) => {
            *row = facility_for_c(&found);
            DONE
        }
        Err(why) => why.code(),
    }
}

fn write_forwarding(
    register: &Lender,
    s_id: u64,
    sf_type: u64,
    start_time: u64,
    end_time: &mut u64,
    numberx: &mut u64,
) -> u8
    ensures { IsReadAt s_id (has_key s_id sf_type start_time) (forwarding_in s_id sf_type start_time) (forwarding_told (end_time.old, numberx.old)) (AWAY, (end_time.old, numberx.old)) register.now (result, (end_time.new, numberx.new)) register.now }
{
    if !register.is_home_for(s_id) {
        if !is_typed(s_id, sf_type) || !is_start_time(start_time) {
            return Refusal::Field.code();
        }
        return AWAY;
    }
    match register.register().forwarding(s_id, sf_type, start_time) {
        Ok(found) => {
            *end_time = u64::from(found.end_time());
            *numberx = found.numberx().value();
            DONE
        }
        Err(why) => why.code(),
    }
}

fn write_next(register: &Register, from: u64, row: &mut HlrSubscriber) -> u8
    requires { AllHome register.now.owners }
    ensures { IsRead (subscriber_from from) (value_told row.old) register.now (result, row.new) register.now }
{
    match register.next_subscriber(from) {
        Some(found) => {
            *row = subscriber_for_c(&found);
            DONE
        }
        None => Refusal::NoSubscriber.code(),
    }
}

/// Finds the subscriber who has a number. It works no matter which parts are lent, because no part gives numbers to
/// subscribers. Its refusals, in order, are `NOT_OPEN`, `Field` if sub_nbr isn't below 10^15, and `NoNumber`.
#[unsafe(no_mangle)]
pub extern "C" fn hlr_find(alloc: Global, handle: &mut Hlr, sub_nbr: u64, s_id: &mut u64) -> u8
    ensures answer { IsCall (NOT_OPEN, s_id.old) (IsReadWhileOut (bearer_in sub_nbr) (value_told s_id.old))
        handle.old.kept.register (result, s_id.new) handle.new.kept.register }
    ensures journal { handle.new.kept.journal ≡ handle.old.kept.journal }
{
    with_register!(handle, alloc, |register| {
        write_bearer(register.register(), sub_nbr, s_id)
    })
}

/// Reads the row of a facility. Its refusals, in order, are `NOT_OPEN`, `Field` if s_id isn't in 1..=16,777,216 or
/// sf_type isn't in 1..=4, `Moving`, `AWAY`, and `NoFacility`, also if there is no such subscriber.
#[unsafe(no_mangle)]
pub extern "C" fn hlr_facility_data(
    alloc: Global,
    handle: &mut Hlr,
    s_id: u64,
    sf_type: u64,
    row: &mut HlrFacility,
) -> u8
    ensures answer { IsCall (NOT_OPEN, row.old) (IsReadAt s_id (is_typed s_id sf_type) (facility_in s_id sf_type) (value_told row.old) (AWAY, row.old))
        handle.old.kept.register (result, row.new) handle.new.kept.register }
    ensures journal { handle.new.kept.journal ≡ handle.old.kept.journal }
{
    with_register!(handle, alloc, |register| {
        write_facility(register, s_id, sf_type, row)
    })
}

/// Reads the end and the number of a facility's forwarding that starts at start_time. Its refusals, in order, are
/// `NOT_OPEN`, `Field` if s_id isn't in 1..=16,777,216, sf_type isn't in 1..=4 or start_time isn't 0, 8 or 16,
/// `Moving`, `AWAY`, and `NoForwarding`, also if there is no such subscriber.
#[unsafe(no_mangle)]
pub extern "C" fn hlr_forwarding(
    alloc: Global,
    handle: &mut Hlr,
    s_id: u64,
    sf_type: u64,
    start_time: u64,
    end_time: &mut u64,
    numberx: &mut u64,
) -> u8
    ensures answer { IsCall (NOT_OPEN, (end_time.old, numberx.old)) (IsReadAt s_id (has_key s_id sf_type start_time) (forwarding_in s_id sf_type start_time) (forwarding_told (end_time.old, numberx.old)) (AWAY, (end_time.old, numberx.old)))
        handle.old.kept.register (result, (end_time.new, numberx.new)) handle.new.kept.register }
    ensures journal { handle.new.kept.journal ≡ handle.old.kept.journal }
{
    with_register!(handle, alloc, |register| {
        write_forwarding(register, s_id, sf_type, start_time, end_time, numberx)
    })
}

/// Reads the first subscriber whose s_id is `from` or higher, also one in a loose piece. Its refusals, in order, are
/// `NOT_OPEN`, `AWAY` if any part is lent, and `NoSubscriber`.
#[unsafe(no_mangle)]
pub extern "C" fn hlr_next_subscriber(
    alloc: Global,
    handle: &mut Hlr,
    from: u64,
    row: &mut HlrSubscriber,
) -> u8
    ensures answer { IsCall (NOT_OPEN, row.old) (IsAtHome (AWAY, row.old) (IsRead (subscriber_from from) (value_told row.old)))
        handle.old.kept.register (result, row.new) handle.new.kept.register }
    ensures journal { handle.new.kept.journal ≡ handle.old.kept.journal }
{
    with_register_at_home!(handle, alloc, |register| {
        write_next(register, from, row)
    })
}
