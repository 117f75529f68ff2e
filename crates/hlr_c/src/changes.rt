//! The calls that change rows. Those of a register with a journal put the line of each change that was done behind those
//! that wait for `hlr_sync`. First they make room for it: they return `FAILED` if an earlier sync has failed, and `Memory`
//! if there is no room, and then nothing has changed.
ghost use Rattle.std.specs.Prelude.{◌≡◌, true, Ok, IfOk};
ghost use Rattle.tatp_rows.specs.Rows.{access_of, facility_of, subscriber_of};
ghost use Rattle.hlr_core.specs.declared.event.Event.TheVariants as event;
ghost use Rattle.hlr_c.specs.Asked.{access_asked, deletion_asked, facility_asked, insertion_asked, location_asked, number_asked, subscriber_asked};
ghost use Rattle.hlr_c.specs.Call.{IsAnswer, IsCall};
ghost use Rattle.hlr_c.specs.Inside.{changes_rows};
ghost use Rattle.hlr_c.specs.Journaled.{IsChange, opened_in};
ghost use Rattle.hlr_c.specs.Told.{code_told};
ghost use Rattle.hlr_c.specs.declared.codes.TheConstants.{AWAY, NOT_OPEN};

use crate::codes::{code_away, code_of_change};
use crate::handle::Hlr;
use crate::journaled::change_kept;
use crate::opened::Opened;
use crate::rows::{HlrAccess, HlrFacility, HlrSubscriber};
use hlr_core::{Access, Event, Facility, Letters, Number, Refusal, Subscriber, byte};
use hlr_lent::Lender;
use std::alloc::Global;

/// Does a change in the register of an open handle: as the work does it if the register has no journal, and otherwise
/// as `change_kept` does what is asked for. If the handle isn't open, it ends the call with `NOT_OPEN`.
macro_rules! change_register {
    ($handle:ident, $alloc:ident, $asked:expr, |$register:ident| $work:expr) => {{
        let Some(mut opened) = $handle.take($alloc) else {
            return $crate::codes::NOT_OPEN;
        };
        let place: &mut Opened = &mut opened;
        if let Some(journal) = &mut place.journal {
            let code = change_kept(&mut place.lender, journal, $asked);
            $handle.put(opened);
            return code;
        }
        let $register = &mut place.lender;
        let code = $work;
        $handle.put(opened);
        code
    }};
}

/// Checks the row that C hands in, and returns it.
fn subscriber_of(row: &HlrSubscriber) -> Result<Subscriber, Refusal>
    ensures { result ≡ subscriber_of row.now }
{
    let sub_nbr = Number::try_new(row.sub_nbr)?;
    Subscriber::try_new(
        row.s_id,
        sub_nbr,
        row.bits,
        row.hexes,
        row.bytes,
        row.msc_location,
        row.vlr_location,
    )
}

pub(crate) fn access_of(row: &HlrAccess) -> Result<Access, Refusal>
    ensures { result ≡ access_of row.now }
{
    let data1 = byte(row.data1)?;
    let data2 = byte(row.data2)?;
    let data3 = Letters::<3>::try_new(row.data3)?;
    let data4 = Letters::<5>::try_new(row.data4)?;
    Access::try_new(row.s_id, row.ai_type, data1, data2, data3, data4)
}

pub(crate) fn facility_of(row: &HlrFacility) -> Result<Facility, Refusal>
    ensures { result ≡ facility_of row.now }
{
    let error_cntrl = byte(row.error_cntrl)?;
    let data_a = byte(row.data_a)?;
    let data_b = Letters::<5>::try_new(row.data_b)?;
    Facility::try_new(
        row.s_id,
        row.sf_type,
        row.is_active,
        error_cntrl,
        data_a,
        data_b,
    )
}

fn location_asked(sub_nbr: u64, vlr_location: u64) -> Result<Event, Refusal>
    ensures asked { result ≡ location_asked sub_nbr vlr_location }
    ensures change { IfOk result (λ wanted. changes_rows wanted ≡ true) }
{
    Ok(Event::UpdateLocation {
        sub_nbr: Number::try_new(sub_nbr)?,
        vlr_location,
    })
}

fn insertion_asked(
    sub_nbr: u64,
    sf_type: u64,
    start_time: u64,
    end_time: u64,
    numberx: u64,
) -> Result<Event, Refusal>
    ensures asked { result ≡ insertion_asked sub_nbr sf_type start_time end_time numberx }
    ensures change { IfOk result (λ wanted. changes_rows wanted ≡ true) }
{
    let sub_nbr = Number::try_new(sub_nbr)?;
    let numberx = Number::try_new(numberx)?;
    Ok(Event::InsertForwarding {
        sub_nbr,
        sf_type,
        start_time,
        end_time,
        numberx,
    })
}

fn deletion_asked(sub_nbr: u64, sf_type: u64, start_time: u64) -> Result<Event, Refusal>
    ensures asked { result ≡ deletion_asked sub_nbr sf_type start_time }
    ensures change { IfOk result (λ wanted. changes_rows wanted ≡ true) }
{
    Ok(Event::DeleteForwarding {
        sub_nbr: Number::try_new(sub_nbr)?,
        sf_type,
        start_time,
    })
}

fn subscriber_asked(row: &HlrSubscriber) -> Result<Event, Refusal>
    ensures asked { result ≡ subscriber_asked row.now }
    ensures change { IfOk result (λ wanted. changes_rows wanted ≡ true) }
{
    Ok(Event::AddSubscriber(subscriber_of(row)?))
}

fn access_asked(row: &HlrAccess) -> Result<Event, Refusal>
    ensures asked { result ≡ access_asked row.now }
    ensures change { IfOk result (λ wanted. changes_rows wanted ≡ true) }
{
    Ok(Event::AddAccess(access_of(row)?))
}

fn facility_asked(row: &HlrFacility) -> Result<Event, Refusal>
    ensures asked { result ≡ facility_asked row.now }
    ensures change { IfOk result (λ wanted. changes_rows wanted ≡ true) }
{
    Ok(Event::AddFacility(facility_of(row)?))
}

fn number_asked(s_id: u64, sub_nbr: u64) -> Result<Event, Refusal>
    ensures asked { result ≡ number_asked s_id sub_nbr }
    ensures change { IfOk result (λ wanted. changes_rows wanted ≡ true) }
{
    Ok(Event::SetNumber {
        s_id,
        sub_nbr: Number::try_new(sub_nbr)?,
    })
}

fn update_subscriber(register: &mut Lender, s_id: u64, sf_type: u64, bit_1: u64, data_a: u64) -> u8
    ensures { IsAnswer (Ok (event.UpdateSubscriber s_id sf_type bit_1 data_a)) code_told AWAY register.old result register.new }
{
    if !register.is_home_for(s_id) {
        let event = Event::UpdateSubscriber {
            s_id,
            sf_type,
            bit_1,
            data_a,
        };
        return code_away(register, &event);
    }
    code_of_change(register.update_subscriber(s_id, sf_type, bit_1, data_a))
}

fn update_location(register: &mut Lender, sub_nbr: u64, vlr_location: u64) -> u8
    ensures { IsAnswer (location_asked sub_nbr vlr_location) code_told AWAY register.old result register.new }
{
    let sub_nbr = match Number::try_new(sub_nbr) {
        Ok(sub_nbr) => sub_nbr,
        Err(why) => return why.code(),
    };
    if !register.is_bearer_home(sub_nbr) {
        let event = Event::UpdateLocation {
            sub_nbr,
            vlr_location,
        };
        return code_away(register, &event);
    }
    code_of_change(register.update_location(sub_nbr, vlr_location))
}

/// Adds a forwarding to a number, for the subscriber who has another number.
fn insert_checked(
    register: &mut Lender,
    sub_nbr: Number,
    sf_type: u64,
    start_time: u64,
    end_time: u64,
    numberx: Number,
) -> u8
    ensures { IsAnswer (Ok (event.InsertForwarding sub_nbr sf_type start_time end_time numberx)) code_told AWAY register.old result register.new }
{
    if !register.is_bearer_home(sub_nbr) {
        let event = Event::InsertForwarding {
            sub_nbr,
            sf_type,
            start_time,
            end_time,
            numberx,
        };
        return code_away(register, &event);
    }
    code_of_change(register.insert_forwarding(sub_nbr, sf_type, start_time, end_time, numberx))
}

fn insert_forwarding(
    register: &mut Lender,
    sub_nbr: u64,
    sf_type: u64,
    start_time: u64,
    end_time: u64,
    numberx: u64,
) -> u8
    ensures { IsAnswer (insertion_asked sub_nbr sf_type start_time end_time numberx) code_told AWAY register.old result register.new }
{
    let sub_nbr = match Number::try_new(sub_nbr) {
        Ok(sub_nbr) => sub_nbr,
        Err(why) => return why.code(),
    };
    match Number::try_new(numberx) {
        Ok(numberx) => insert_checked(register, sub_nbr, sf_type, start_time, end_time, numberx),
        Err(why) => why.code(),
    }
}

fn delete_forwarding(register: &mut Lender, sub_nbr: u64, sf_type: u64, start_time: u64) -> u8
    ensures { IsAnswer (deletion_asked sub_nbr sf_type start_time) code_told AWAY register.old result register.new }
{
    let sub_nbr = match Number::try_new(sub_nbr) {
        Ok(sub_nbr) => sub_nbr,
        Err(why) => return why.code(),
    };
    if !register.is_bearer_home(sub_nbr) {
        let event = Event::DeleteForwarding {
            sub_nbr,
            sf_type,
            start_time,
        };
        return code_away(register, &event);
    }
    code_of_change(register.delete_forwarding(sub_nbr, sf_type, start_time))
}

fn add_subscriber(register: &mut Lender, row: &HlrSubscriber) -> u8
    ensures { IsAnswer (subscriber_asked row.now) code_told AWAY register.old result register.new }
{
    let row = match subscriber_of(row) {
        Ok(row) => row,
        Err(why) => return why.code(),
    };
    if !register.is_home_for(u64::from(row.s_id())) {
        return code_away(register, &Event::AddSubscriber(row));
    }
    code_of_change(register.add_subscriber(row))
}

fn add_access(register: &mut Lender, row: &HlrAccess) -> u8
    ensures { IsAnswer (access_asked row.now) code_told AWAY register.old result register.new }
{
    let row = match access_of(row) {
        Ok(row) => row,
        Err(why) => return why.code(),
    };
    if !register.is_home_for(u64::from(row.s_id())) {
        return code_away(register, &Event::AddAccess(row));
    }
    code_of_change(register.add_access(row))
}

fn add_facility(register: &mut Lender, row: &HlrFacility) -> u8
    ensures { IsAnswer (facility_asked row.now) code_told AWAY register.old result register.new }
{
    let row = match facility_of(row) {
        Ok(row) => row,
        Err(why) => return why.code(),
    };
    if !register.is_home_for(u64::from(row.s_id())) {
        return code_away(register, &Event::AddFacility(row));
    }
    code_of_change(register.add_facility(row))
}

fn set_active(register: &mut Lender, s_id: u64, sf_type: u64, is_active: u64) -> u8
    ensures { IsAnswer (Ok (event.SetActive s_id sf_type is_active)) code_told AWAY register.old result register.new }
{
    if !register.is_home_for(s_id) {
        let event = Event::SetActive {
            s_id,
            sf_type,
            is_active,
        };
        return code_away(register, &event);
    }
    code_of_change(register.set_active(s_id, sf_type, is_active))
}

fn set_number(register: &mut Lender, s_id: u64, sub_nbr: u64) -> u8
    ensures { IsAnswer (number_asked s_id sub_nbr) code_told AWAY register.old result register.new }
{
    let sub_nbr = match Number::try_new(sub_nbr) {
        Ok(sub_nbr) => sub_nbr,
        Err(why) => return why.code(),
    };
    if !register.is_home_for(s_id) {
        return code_away(register, &Event::SetNumber { s_id, sub_nbr });
    }
    code_of_change(register.set_number(s_id, sub_nbr))
}

/// Does UPDATE_SUBSCRIBER_DATA (TATP, section 3.4), which sets bit_1 of the subscriber and data_a of the facility, or
/// neither. Its refusals, in order, are `NOT_OPEN`, `Field` if s_id isn't in 1..=16,777,216, sf_type isn't in 1..=4,
/// bit_1 isn't in 0..=1 or data_a isn't in 0..=255, `Moving`, `AWAY` if the part that has the subscriber is lent,
/// `NoSubscriber`, and `NoFacility`.
#[unsafe(no_mangle)]
pub extern "C" fn hlr_update_subscriber(
    alloc: Global,
    handle: &mut Hlr,
    s_id: u64,
    sf_type: u64,
    bit_1: u64,
    data_a: u64,
) -> u8
    ensures { IsCall NOT_OPEN (IsChange (Ok (event.UpdateSubscriber s_id sf_type bit_1 data_a))) (opened_in handle.old.kept) result (opened_in handle.new.kept) }
{
    change_register!(
        handle,
        alloc,
        Ok(Event::UpdateSubscriber {
            s_id,
            sf_type,
            bit_1,
            data_a
        }),
        |register| { update_subscriber(register, s_id, sf_type, bit_1, data_a) }
    )
}

/// Does UPDATE_LOCATION (TATP, section 3.5), which sets the location of the subscriber who has a number. Its refusals,
/// in order, are `NOT_OPEN`, `Field` if sub_nbr isn't below 10^15 or vlr_location isn't in 1..=4,294,967,295,
/// `NoNumber`, `Moving`, and `AWAY`.
#[unsafe(no_mangle)]
pub extern "C" fn hlr_update_location(
    alloc: Global,
    handle: &mut Hlr,
    sub_nbr: u64,
    vlr_location: u64,
) -> u8
    ensures { IsCall NOT_OPEN (IsChange (location_asked sub_nbr vlr_location)) (opened_in handle.old.kept) result (opened_in handle.new.kept) }
{
    change_register!(
        handle,
        alloc,
        location_asked(sub_nbr, vlr_location),
        |register| { update_location(register, sub_nbr, vlr_location) }
    )
}

/// Does INSERT_CALL_FORWARDING (TATP, section 3.6), which adds a forwarding to a number. Its refusals, in order, are
/// `NOT_OPEN`, `Field` if a number isn't below 10^15, sf_type isn't in 1..=4, start_time isn't 0, 8 or 16 or end_time
/// isn't in 1..=24, `NoNumber`, `Moving`, `AWAY`, `NoFacility`, `Exists`, and `Memory`.
#[unsafe(no_mangle)]
pub extern "C" fn hlr_insert_forwarding(
    alloc: Global,
    handle: &mut Hlr,
    sub_nbr: u64,
    sf_type: u64,
    start_time: u64,
    end_time: u64,
    numberx: u64,
) -> u8
    ensures { IsCall NOT_OPEN (IsChange (insertion_asked sub_nbr sf_type start_time end_time numberx)) (opened_in handle.old.kept) result (opened_in handle.new.kept) }
{
    change_register!(
        handle,
        alloc,
        insertion_asked(sub_nbr, sf_type, start_time, end_time, numberx),
        |register| { insert_forwarding(register, sub_nbr, sf_type, start_time, end_time, numberx,) }
    )
}

/// Does DELETE_CALL_FORWARDING (TATP, section 3.7), which removes a forwarding. Its refusals, in order, are `NOT_OPEN`,
/// `Field` if sub_nbr isn't below 10^15, sf_type isn't in 1..=4 or start_time isn't 0, 8 or 16, `NoNumber`, `Moving`,
/// `AWAY`, and `NoForwarding`.
#[unsafe(no_mangle)]
pub extern "C" fn hlr_delete_forwarding(
    alloc: Global,
    handle: &mut Hlr,
    sub_nbr: u64,
    sf_type: u64,
    start_time: u64,
) -> u8
    ensures { IsCall NOT_OPEN (IsChange (deletion_asked sub_nbr sf_type start_time)) (opened_in handle.old.kept) result (opened_in handle.new.kept) }
{
    change_register!(
        handle,
        alloc,
        deletion_asked(sub_nbr, sf_type, start_time),
        |register| { delete_forwarding(register, sub_nbr, sf_type, start_time) }
    )
}

/// Adds a Subscriber row. Its refusals, in order, are `NOT_OPEN`, `Field` if a field is out of its range, `Moving`,
/// `AWAY` if the part that would have it is lent, `Exists`, `NumberTaken`, and `Memory`.
#[unsafe(no_mangle)]
pub extern "C" fn hlr_add_subscriber(alloc: Global, handle: &mut Hlr, row: &HlrSubscriber) -> u8
    ensures { IsCall NOT_OPEN (IsChange (subscriber_asked row.now)) (opened_in handle.old.kept) result (opened_in handle.new.kept) }
{
    change_register!(handle, alloc, subscriber_asked(row), |register| {
        add_subscriber(register, row)
    })
}

/// Adds an Access_Info row. Its refusals, in order, are `NOT_OPEN`, `Field` if a field is out of its range, `Moving`,
/// `AWAY`, `NoSubscriber`, `Exists`, and `Memory`.
#[unsafe(no_mangle)]
pub extern "C" fn hlr_add_access(alloc: Global, handle: &mut Hlr, row: &HlrAccess) -> u8
    ensures { IsCall NOT_OPEN (IsChange (access_asked row.now)) (opened_in handle.old.kept) result (opened_in handle.new.kept) }
{
    change_register!(handle, alloc, access_asked(row), |register| {
        add_access(register, row)
    })
}

/// Adds a Special_Facility row. Its refusals, in order, are `NOT_OPEN`, `Field` if a field is out of its range,
/// `Moving`, `AWAY`, `NoSubscriber`, `Exists`, and `Memory`.
#[unsafe(no_mangle)]
pub extern "C" fn hlr_add_facility(alloc: Global, handle: &mut Hlr, row: &HlrFacility) -> u8
    ensures { IsCall NOT_OPEN (IsChange (facility_asked row.now)) (opened_in handle.old.kept) result (opened_in handle.new.kept) }
{
    change_register!(handle, alloc, facility_asked(row), |register| {
        add_facility(register, row)
    })
}

/// Switches a facility on or off, and with it all of its forwardings. Its refusals, in order, are `NOT_OPEN`, `Field`
/// if s_id isn't in 1..=16,777,216, sf_type isn't in 1..=4 or is_active isn't in 0..=1, `Moving`, `AWAY`, and
/// `NoFacility`, also if there is no such subscriber.
#[unsafe(no_mangle)]
pub extern "C" fn hlr_set_active(
    alloc: Global,
    handle: &mut Hlr,
    s_id: u64,
    sf_type: u64,
    is_active: u64,
) -> u8
    ensures { IsCall NOT_OPEN (IsChange (Ok (event.SetActive s_id sf_type is_active))) (opened_in handle.old.kept) result (opened_in handle.new.kept) }
{
    change_register!(
        handle,
        alloc,
        Ok(Event::SetActive {
            s_id,
            sf_type,
            is_active
        }),
        |register| { set_active(register, s_id, sf_type, is_active) }
    )
}

/// Gives a subscriber another number, and changes nothing if the subscriber has this number already. Its refusals, in
/// order, are `NOT_OPEN`, `Field` if s_id isn't in 1..=16,777,216 or sub_nbr isn't below 10^15, `Moving`, `AWAY`,
/// `NoSubscriber`, `NumberTaken`, and `Memory`.
#[unsafe(no_mangle)]
pub extern "C" fn hlr_set_number(alloc: Global, handle: &mut Hlr, s_id: u64, sub_nbr: u64) -> u8
    ensures { IsCall NOT_OPEN (IsChange (number_asked s_id sub_nbr)) (opened_in handle.old.kept) result (opened_in handle.new.kept) }
{
    change_register!(handle, alloc, number_asked(s_id, sub_nbr), |register| {
        set_number(register, s_id, sub_nbr)
    })
}
