//! Lines of events, as they are read.
ghost use Rattle.std.specs.Prelude.{◌≡◌, [], ◌∷◌, IfOk, OnErr, true};
ghost use Rattle.tatp_actions.specs.Action.{is_typed};
ghost use Rattle.hlr_core.specs.Step.{has_forwarding_key};
ghost use Rattle.edit_lines.specs.Lines.{line_of, has_line};
ghost use Rattle.edit_lines.specs.Reading.{fields_in, location_from, update_from, insert_from, delete_from, subscriber_from, access_from, facility_from, active_from, number_from, event_of};

use crate::digits::{check, join, number_at, unpack};
use crate::error::LineError;
use hlr_core::Event;
use tatp_rows::{Access, Facility, LAST_SUBSCRIBER, Letters, Number, Subscriber, is_start_time};

/// Returns whether there can be a row of a subscriber with this s_id and type.
fn is_typed(s_id: u64, kind: u64) -> bool
    ensures { result ≡ is_typed s_id kind }
{
    1 <= s_id && s_id <= u64::from(LAST_SUBSCRIBER) && 1 <= kind && kind <= 4
}

/// Reads the digits of `UpdateLocation`.
fn read_location(digits: &[u8]) -> Result<Event, LineError>
    ensures { result ≡ fields_in (8 ∷ 5 ∷ []) location_from digits.now }
{
    check(digits, 13)?;
    let (sub_nbr, rest) = number_at(digits, 8);
    let (vlr_location, _) = number_at(rest, 5);
    let sub_nbr = Number::try_new(sub_nbr)?;
    if vlr_location == 0 || vlr_location > 4_294_967_295 {
        return Err(LineError::Field);
    }
    Ok(Event::UpdateLocation {
        sub_nbr,
        vlr_location,
    })
}

/// Reads the digits of `UpdateSubscriber`.
fn read_update(digits: &[u8]) -> Result<Event, LineError>
    ensures { result ≡ fields_in (4 ∷ 1 ∷ 1 ∷ 2 ∷ []) update_from digits.now }
{
    check(digits, 8)?;
    let (s_id, rest) = number_at(digits, 4);
    let (sf_type, rest) = number_at(rest, 1);
    let (bit_1, rest) = number_at(rest, 1);
    let (data_a, _) = number_at(rest, 2);
    if !is_typed(s_id, sf_type) || bit_1 > 1 || data_a > 255 {
        return Err(LineError::Field);
    }
    Ok(Event::UpdateSubscriber {
        s_id,
        sf_type,
        bit_1,
        data_a,
    })
}

/// Returns whether there can be a forwarding with this type and start time.
fn has_forwarding_key(sf_type: u64, start_time: u64) -> bool
    ensures { result ≡ has_forwarding_key sf_type start_time }
{
    1 <= sf_type && sf_type <= 4 && is_start_time(start_time)
}

/// Reads the digits of `InsertForwarding`.
fn read_insert(digits: &[u8]) -> Result<Event, LineError>
    ensures { result ≡ fields_in (8 ∷ 1 ∷ 1 ∷ 1 ∷ 8 ∷ []) insert_from digits.now }
{
    check(digits, 19)?;
    let (sub_nbr, rest) = number_at(digits, 8);
    let (sf_type, rest) = number_at(rest, 1);
    let (start_time, rest) = number_at(rest, 1);
    let (end_time, rest) = number_at(rest, 1);
    let (numberx, _) = number_at(rest, 8);
    let sub_nbr = Number::try_new(sub_nbr)?;
    let numberx = Number::try_new(numberx)?;
    if !has_forwarding_key(sf_type, start_time) || end_time == 0 || end_time > 24 {
        return Err(LineError::Field);
    }
    Ok(Event::InsertForwarding {
        sub_nbr,
        sf_type,
        start_time,
        end_time,
        numberx,
    })
}

/// Reads the digits of `DeleteForwarding`.
fn read_delete(digits: &[u8]) -> Result<Event, LineError>
    ensures { result ≡ fields_in (8 ∷ 1 ∷ 1 ∷ []) delete_from digits.now }
{
    check(digits, 10)?;
    let (sub_nbr, rest) = number_at(digits, 8);
    let (sf_type, rest) = number_at(rest, 1);
    let (start_time, _) = number_at(rest, 1);
    let sub_nbr = Number::try_new(sub_nbr)?;
    if !has_forwarding_key(sf_type, start_time) {
        return Err(LineError::Field);
    }
    Ok(Event::DeleteForwarding {
        sub_nbr,
        sf_type,
        start_time,
    })
}

/// Reads the digits of `AddSubscriber`.
fn read_subscriber(digits: &[u8]) -> Result<Event, LineError>
    ensures { result ≡ fields_in (4 ∷ 8 ∷ 2 ∷ 6 ∷ 6 ∷ 6 ∷ 5 ∷ 5 ∷ []) subscriber_from digits.now }
{
    check(digits, 42)?;
    let (s_id, rest) = number_at(digits, 4);
    let (sub_nbr, rest) = number_at(rest, 8);
    let (bits, rest) = number_at(rest, 2);
    let (hexes, rest) = number_at(rest, 6);
    let (low, rest) = number_at(rest, 6);
    let (high, rest) = number_at(rest, 6);
    let (msc_location, rest) = number_at(rest, 5);
    let (vlr_location, _) = number_at(rest, 5);
    let sub_nbr = Number::try_new(sub_nbr)?;
    if bits >= 1 << 10 || hexes >= 1 << 40 || low >= 1 << 40 || high >= 1 << 40 {
        return Err(LineError::Field);
    }
    let row = Subscriber::try_new(
        s_id,
        sub_nbr,
        unpack(bits, 2),
        unpack(hexes, 16),
        join(&unpack(low, 256), &unpack(high, 256)),
        msc_location,
        vlr_location,
    )?;
    Ok(Event::AddSubscriber(row))
}

/// Reads the digits of `AddAccess`.
fn read_access(digits: &[u8]) -> Result<Event, LineError>
    ensures { result ≡ fields_in (4 ∷ 1 ∷ 2 ∷ 2 ∷ 3 ∷ 5 ∷ []) access_from digits.now }
{
    check(digits, 17)?;
    let (s_id, rest) = number_at(digits, 4);
    let (ai_type, rest) = number_at(rest, 1);
    let (data1, rest) = number_at(rest, 2);
    let (data2, rest) = number_at(rest, 2);
    let (data3, rest) = number_at(rest, 3);
    let (data4, _) = number_at(rest, 5);
    if data1 > 255 || data2 > 255 {
        return Err(LineError::Field);
    }
    let data3 = Letters::try_new(unpack(data3, 128))?;
    let data4 = Letters::try_new(unpack(data4, 128))?;
    let row = Access::try_new(s_id, ai_type, data1 as u8, data2 as u8, data3, data4)?;
    Ok(Event::AddAccess(row))
}

/// Reads the digits of `AddFacility`.
fn read_facility(digits: &[u8]) -> Result<Event, LineError>
    ensures { result ≡ fields_in (4 ∷ 1 ∷ 1 ∷ 2 ∷ 2 ∷ 5 ∷ []) facility_from digits.now }
{
    check(digits, 15)?;
    let (s_id, rest) = number_at(digits, 4);
    let (sf_type, rest) = number_at(rest, 1);
    let (is_active, rest) = number_at(rest, 1);
    let (error_cntrl, rest) = number_at(rest, 2);
    let (data_a, rest) = number_at(rest, 2);
    let (data_b, _) = number_at(rest, 5);
    if error_cntrl > 255 || data_a > 255 {
        return Err(LineError::Field);
    }
    let data_b = Letters::try_new(unpack(data_b, 128))?;
    let row = Facility::try_new(
        s_id,
        sf_type,
        is_active,
        error_cntrl as u8,
        data_a as u8,
        data_b,
    )?;
    Ok(Event::AddFacility(row))
}

/// Reads the digits of `SetActive`.
fn read_active(digits: &[u8]) -> Result<Event, LineError>
    ensures { result ≡ fields_in (4 ∷ 1 ∷ 1 ∷ []) active_from digits.now }
{
    check(digits, 6)?;
    let (s_id, rest) = number_at(digits, 4);
    let (sf_type, rest) = number_at(rest, 1);
    let (is_active, _) = number_at(rest, 1);
    if !is_typed(s_id, sf_type) || is_active > 1 {
        return Err(LineError::Field);
    }
    Ok(Event::SetActive {
        s_id,
        sf_type,
        is_active,
    })
}

/// Reads the digits of `SetNumber`.
fn read_number(digits: &[u8]) -> Result<Event, LineError>
    ensures { result ≡ fields_in (4 ∷ 8 ∷ []) number_from digits.now }
{
    check(digits, 12)?;
    let (s_id, rest) = number_at(digits, 4);
    let (sub_nbr, _) = number_at(rest, 8);
    let sub_nbr = Number::try_new(sub_nbr)?;
    if s_id == 0 || s_id > u64::from(LAST_SUBSCRIBER) {
        return Err(LineError::Field);
    }
    Ok(Event::SetNumber { s_id, sub_nbr })
}

/// Reads a line by its letter.
fn read(line: &[u8]) -> Result<Event, LineError>
    ensures { result ≡ event_of line.now }
{
    match line {
        [b'L', digits @ ..] => read_location(digits),
        [b'U', digits @ ..] => read_update(digits),
        [b'I', digits @ ..] => read_insert(digits),
        [b'D', digits @ ..] => read_delete(digits),
        [b'S', digits @ ..] => read_subscriber(digits),
        [b'A', digits @ ..] => read_access(digits),
        [b'F', digits @ ..] => read_facility(digits),
        [b'O', digits @ ..] => read_active(digits),
        [b'N', digits @ ..] => read_number(digits),
        _ => Err(LineError::Kind),
    }
}

/// Reads the event whose line this is, without its line feed. Its errors, in order, are `Kind`, `Length`, `Digit` and
/// `Field`, as `LineError` describes them.
pub fn read_line(line: &[u8]) -> Result<Event, LineError>
    // An event that is read has this line.
    ensures read { IfOk result (λ event. (has_line event ≡ true) × (line.now ≡ line_of event)) }
    // The line of an event is read as this event.
    ensures back { (event : Event) → has_line event ≡ true → line.now ≡ line_of event → result ≡ Ok event }
    // The definition says which error refuses a line.
    ensures exact { result ≡ event_of line.now }
{
    read(line)
}
