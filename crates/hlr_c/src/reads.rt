//! The calls of the three transactions that read.
ghost use Rattle.std.specs.Prelude.{◌≡◌, Ok, slice_index_or};
ghost use Rattle.hlr_core.specs.Home.{IsHomeTo};
ghost use Rattle.hlr_core.specs.Rows.{access_reply, numbers_reply, subscriber_reply};
ghost use Rattle.hlr_core.specs.declared.event.Event.TheVariants as event;
ghost use Rattle.hlr_c.specs.Call.{IsAnswer, IsCall};
ghost use Rattle.hlr_c.specs.Rows.{numbers_for_c};
ghost use Rattle.hlr_c.specs.Told.{access_told, numbers_told, subscriber_told};
ghost use Rattle.hlr_c.specs.declared.codes.TheConstants.{AWAY, NOT_OPEN};

use crate::codes::{DONE, code_away};
use crate::handle::{Hlr, with_register};
use crate::rows::{HlrAccess, HlrNumbers, HlrSubscriber};
use hlr_core::{Access, ArrayVec, Event, Number, Refusal, Register, Subscriber};
use hlr_lent::Lender;
use std::alloc::Global;

/// Makes a subscriber row as C has it.
pub(crate) fn subscriber_for_c(row: &Subscriber) -> HlrSubscriber
    ensures { result ≡ row.now }
{
    HlrSubscriber {
        s_id: u64::from(row.s_id()),
        sub_nbr: row.sub_nbr().value(),
        bits: row.bits(),
        hexes: row.hexes(),
        bytes: row.bytes(),
        msc_location: u64::from(row.msc_location()),
        vlr_location: u64::from(row.vlr_location()),
    }
}

/// Returns the number at a place, or 0 behind the last one.
fn number_at(numbers: &[Number], place: usize) -> u64
    ensures { result ≡ slice_index_or numbers.now place 0 }
{
    if place < numbers.len() {
        numbers[place].value()
    } else {
        0
    }
}

/// Makes numbers as C has them.
fn numbers_for_c(numbers: &ArrayVec<Number, 3>) -> HlrNumbers
    ensures { result ≡ numbers_for_c numbers.now.items }
{
    let list = numbers.as_slice();
    HlrNumbers {
        count: list.len() as u64,
        numbers: [number_at(list, 0), number_at(list, 1), number_at(list, 2)],
    }
}

/// Writes what was found of an access, as C has it.
fn write_access(found: &Access, s_id: u64, ai_type: u64, row: &mut HlrAccess)
    ensures { row.new ≡ record {
      s_id = s_id;
      ai_type = ai_type;
      data1 = found.now.data1;
      data2 = found.now.data2;
      data3 = found.now.data3;
      data4 = found.now.data4;
    } }
{
    *row = HlrAccess {
        s_id,
        ai_type,
        data1: u64::from(found.data1()),
        data2: u64::from(found.data2()),
        data3: found.data3().bytes(),
        data4: found.data4().bytes(),
    };
}

/// Writes what was found of a subscriber, as C has it. It returns `NoSubscriber` if nothing was found.
pub(crate) fn write_subscriber(found: &Option<Subscriber>, row: &mut HlrSubscriber) -> u8
    ensures { (result, row.new) ≡ subscriber_told row.old (subscriber_reply found.now) }
{
    match found {
        Some(found) => {
            *row = subscriber_for_c(found);
            DONE
        }
        None => Refusal::NoSubscriber.code(),
    }
}

/// Writes what was found of an access, as C has it. It returns `NoAccess` if nothing was found.
pub(crate) fn write_access_found(
    found: &Option<Access>,
    s_id: u64,
    ai_type: u64,
    row: &mut HlrAccess,
) -> u8
    ensures { (result, row.new) ≡ access_told s_id ai_type row.old (access_reply found.now) }
{
    match found {
        Some(found) => {
            write_access(found, s_id, ai_type, row);
            DONE
        }
        None => Refusal::NoAccess.code(),
    }
}

/// Writes the numbers that were found, as C has them. It returns `NoDestination` if there are none.
pub(crate) fn write_numbers(found: &ArrayVec<Number, 3>, numbers: &mut HlrNumbers) -> u8
    ensures { (result, numbers.new) ≡ numbers_told numbers.old (numbers_reply found.now.items) }
{
    if found.is_empty() {
        return Refusal::NoDestination.code();
    }
    *numbers = numbers_for_c(found);
    DONE
}

fn read_subscriber(register: &Register, s_id: u64, row: &mut HlrSubscriber) -> u8
    requires { IsHomeTo (event.SubscriberData s_id) register.now }
    ensures { IsAnswer (Ok (event.SubscriberData s_id)) (subscriber_told row.old) (AWAY, row.old) register.now (result, row.new) register.now }
{
    match register.lend_subscriber(s_id) {
        Ok(found) => {
            *row = subscriber_for_c(found);
            DONE
        }
        Err(why) => why.code(),
    }
}

fn read_access(register: &Register, s_id: u64, ai_type: u64, row: &mut HlrAccess) -> u8
    requires { IsHomeTo (event.AccessData s_id ai_type) register.now }
    ensures { IsAnswer (Ok (event.AccessData s_id ai_type)) (access_told s_id ai_type row.old) (AWAY, row.old) register.now (result, row.new) register.now }
{
    match register.lend_access(s_id, ai_type) {
        Ok(found) => {
            write_access(&found, s_id, ai_type, row);
            DONE
        }
        Err(why) => why.code(),
    }
}

fn read_destinations(
    register: &Register,
    s_id: u64,
    sf_type: u64,
    start_time: u64,
    end_time: u64,
    numbers: &mut HlrNumbers,
) -> u8
    requires { IsHomeTo (event.NewDestination s_id sf_type start_time end_time) register.now }
    ensures { IsAnswer (Ok (event.NewDestination s_id sf_type start_time end_time)) (numbers_told numbers.old) (AWAY, numbers.old) register.now (result, numbers.new) register.now }
{
    match register.destinations(s_id, sf_type, start_time, end_time) {
        Ok(found) => {
            *numbers = numbers_for_c(&found);
            DONE
        }
        Err(why) => why.code(),
    }
}

pub(crate) fn ask_subscriber(register: &Lender, s_id: u64, row: &mut HlrSubscriber) -> u8
    ensures { IsAnswer (Ok (event.SubscriberData s_id)) (subscriber_told row.old) (AWAY, row.old) register.now (result, row.new) register.now }
{
    if !register.is_home_for(s_id) {
        return code_away(register, &Event::SubscriberData { s_id });
    }
    read_subscriber(register.register(), s_id, row)
}

pub(crate) fn ask_access(register: &Lender, s_id: u64, ai_type: u64, row: &mut HlrAccess) -> u8
    ensures { IsAnswer (Ok (event.AccessData s_id ai_type)) (access_told s_id ai_type row.old) (AWAY, row.old) register.now (result, row.new) register.now }
{
    if !register.is_home_for(s_id) {
        return code_away(register, &Event::AccessData { s_id, ai_type });
    }
    read_access(register.register(), s_id, ai_type, row)
}

pub(crate) fn ask_destinations(
    register: &Lender,
    s_id: u64,
    sf_type: u64,
    start_time: u64,
    end_time: u64,
    numbers: &mut HlrNumbers,
) -> u8
    ensures { IsAnswer (Ok (event.NewDestination s_id sf_type start_time end_time)) (numbers_told numbers.old) (AWAY, numbers.old) register.now (result, numbers.new) register.now }
{
    if !register.is_home_for(s_id) {
        let event = Event::NewDestination {
            s_id,
            sf_type,
            start_time,
            end_time,
        };
        return code_away(register, &event);
    }
    read_destinations(
        register.register(),
        s_id,
        sf_type,
        start_time,
        end_time,
        numbers,
    )
}

/// Does GET_SUBSCRIBER_DATA (TATP, section 3.1), which reads the row of a subscriber. Its refusals, in order, are
/// `NOT_OPEN`, `Field` if s_id isn't in 1..=16,777,216, `Moving`, `AWAY` if the part that has the subscriber is lent,
/// and `NoSubscriber`.
#[unsafe(no_mangle)]
pub extern "C" fn hlr_subscriber_data(
    alloc: Global,
    handle: &mut Hlr,
    s_id: u64,
    row: &mut HlrSubscriber,
) -> u8
    ensures answer { IsCall (NOT_OPEN, row.old) (IsAnswer (Ok (event.SubscriberData s_id)) (subscriber_told row.old) (AWAY, row.old))
        handle.old.kept.register (result, row.new) handle.new.kept.register }
    ensures journal { handle.new.kept.journal ≡ handle.old.kept.journal }
{
    with_register!(handle, alloc, |register| {
        ask_subscriber(register, s_id, row)
    })
}

/// Does GET_ACCESS_DATA (TATP, section 3.3), which reads the row of an access. Its refusals, in order, are `NOT_OPEN`,
/// `Field` if s_id isn't in 1..=16,777,216 or ai_type isn't in 1..=4, `Moving`, `AWAY`, and `NoAccess`.
#[unsafe(no_mangle)]
pub extern "C" fn hlr_access_data(
    alloc: Global,
    handle: &mut Hlr,
    s_id: u64,
    ai_type: u64,
    row: &mut HlrAccess,
) -> u8
    ensures answer { IsCall (NOT_OPEN, row.old) (IsAnswer (Ok (event.AccessData s_id ai_type)) (access_told s_id ai_type row.old) (AWAY, row.old))
        handle.old.kept.register (result, row.new) handle.new.kept.register }
    ensures journal { handle.new.kept.journal ≡ handle.old.kept.journal }
{
    with_register!(handle, alloc, |register| {
        ask_access(register, s_id, ai_type, row)
    })
}

/// Does GET_NEW_DESTINATION (TATP, section 3.2), which reads the numbers to which an active facility forwards a call:
/// those of its forwardings that start by start_time and end after end_time. Its refusals, in order, are `NOT_OPEN`,
/// `Field` if s_id isn't in 1..=16,777,216, sf_type isn't in 1..=4, start_time isn't 0, 8 or 16 or end_time isn't in
/// 1..=24, `Moving`, `AWAY`, and `NoDestination`.
#[unsafe(no_mangle)]
pub extern "C" fn hlr_new_destination(
    alloc: Global,
    handle: &mut Hlr,
    s_id: u64,
    sf_type: u64,
    start_time: u64,
    end_time: u64,
    numbers: &mut HlrNumbers,
) -> u8
    ensures answer { IsCall (NOT_OPEN, numbers.old) (IsAnswer (Ok (event.NewDestination s_id sf_type start_time end_time)) (numbers_told numbers.old) (AWAY, numbers.old))
        handle.old.kept.register (result, numbers.new) handle.new.kept.register }
    ensures journal { handle.new.kept.journal ≡ handle.old.kept.journal }
{
    with_register!(handle, alloc, |register| {
        ask_destinations(register, s_id, sf_type, start_time, end_time, numbers)
    })
}
