//! Lines of events, as they are written.
ghost use Rattle.std.specs.Prelude.{◌≡◌, ◌<◌, ◌≤◌, ◌+◌, ◌++◌, ◌∷◌, [], OnOk, OnErr, true, vec_len, vec_capacity};
ghost use Rattle.std.specs.List.{AllByRecursion};
ghost use Rattle.arrayvec.specs.ArrayVec.{array_vec_len};
ghost use Rattle.edit_lines.specs.Lines.{line_of, is_change, has_values, has_line};

use crate::digits::{Line, pack, pack_bytes, put};
use hlr_core::Event;
use std::alloc::AllocError;
use tatp_rows::{Access, Facility, Number, Subscriber};

/// Begins a line with the letter of an event.
#[inline(always)]
fn begin(letter: u8) -> Line
    ensures items { result.items ≡ letter ∷ [] }
    ensures len { array_vec_len result ≡ 1 }
{
    let mut line = Line::new();
    line.push(letter);
    line
}

/// Makes the line of `UpdateLocation`.
#[inline(always)]
fn location_line(sub_nbr: Number, vlr_location: u64) -> Line
    ensures items { result.items ≡ line_of (Event.UpdateLocation sub_nbr vlr_location) }
    ensures len { array_vec_len result ≤ 43 }
    ensures fits { has_values (Event.UpdateLocation sub_nbr vlr_location) ≡ true }
{
    let mut line = begin(b'L');
    put(&mut line, 8, sub_nbr.value());
    put(&mut line, 5, vlr_location);
    line
}

/// Makes the line of `UpdateSubscriber`.
#[inline(always)]
fn update_line(s_id: u64, sf_type: u64, bit_1: u64, data_a: u64) -> Line
    ensures items { result.items ≡ line_of (Event.UpdateSubscriber s_id sf_type bit_1 data_a) }
    ensures len { array_vec_len result ≤ 43 }
{
    let mut line = begin(b'U');
    put(&mut line, 4, s_id);
    put(&mut line, 1, sf_type);
    put(&mut line, 1, bit_1);
    put(&mut line, 2, data_a);
    line
}

/// Makes the line of `InsertForwarding`.
#[inline(always)]
fn insert_line(
    sub_nbr: Number,
    sf_type: u64,
    start_time: u64,
    end_time: u64,
    numberx: Number,
) -> Line
    ensures items { result.items ≡ line_of (Event.InsertForwarding sub_nbr sf_type start_time end_time numberx) }
    ensures len { array_vec_len result ≤ 43 }
    ensures fits { has_values (Event.InsertForwarding sub_nbr sf_type start_time end_time numberx) ≡ true }
{
    let mut line = begin(b'I');
    put(&mut line, 8, sub_nbr.value());
    put(&mut line, 1, sf_type);
    put(&mut line, 1, start_time);
    put(&mut line, 1, end_time);
    put(&mut line, 8, numberx.value());
    line
}

/// Makes the line of `DeleteForwarding`.
#[inline(always)]
fn delete_line(sub_nbr: Number, sf_type: u64, start_time: u64) -> Line
    ensures items { result.items ≡ line_of (Event.DeleteForwarding sub_nbr sf_type start_time) }
    ensures len { array_vec_len result ≤ 43 }
    ensures fits { has_values (Event.DeleteForwarding sub_nbr sf_type start_time) ≡ true }
{
    let mut line = begin(b'D');
    put(&mut line, 8, sub_nbr.value());
    put(&mut line, 1, sf_type);
    put(&mut line, 1, start_time);
    line
}

/// Makes the line of `AddSubscriber`.
#[inline(always)]
fn subscriber_line(row: &Subscriber) -> Line
    ensures items { result.items ≡ line_of (Event.AddSubscriber row.now) }
    ensures len { array_vec_len result ≤ 43 }
    ensures fits { has_values (Event.AddSubscriber row.now) ≡ true }
{
    let bytes = row.bytes();
    let (low, high) = bytes.split_at(5);
    let mut line = begin(b'S');
    put(&mut line, 4, u64::from(row.s_id()));
    put(&mut line, 8, row.sub_nbr().value());
    put(&mut line, 2, pack(&row.bits(), 2));
    put(&mut line, 6, pack(&row.hexes(), 16));
    put(&mut line, 6, pack_bytes(low));
    put(&mut line, 6, pack_bytes(high));
    put(&mut line, 5, u64::from(row.msc_location()));
    put(&mut line, 5, u64::from(row.vlr_location()));
    line
}

/// Makes the line of `AddAccess`.
#[inline(always)]
fn access_line(row: &Access) -> Line
    ensures items { result.items ≡ line_of (Event.AddAccess row.now) }
    ensures len { array_vec_len result ≤ 43 }
    ensures fits { has_values (Event.AddAccess row.now) ≡ true }
{
    let mut line = begin(b'A');
    put(&mut line, 4, u64::from(row.s_id()));
    put(&mut line, 1, u64::from(row.ai_type()));
    put(&mut line, 2, u64::from(row.data1()));
    put(&mut line, 2, u64::from(row.data2()));
    put(&mut line, 3, pack(&row.data3().bytes(), 128));
    put(&mut line, 5, pack(&row.data4().bytes(), 128));
    line
}

/// Makes the line of `AddFacility`.
#[inline(always)]
fn facility_line(row: &Facility) -> Line
    ensures items { result.items ≡ line_of (Event.AddFacility row.now) }
    ensures len { array_vec_len result ≤ 43 }
    ensures fits { has_values (Event.AddFacility row.now) ≡ true }
{
    let mut line = begin(b'F');
    put(&mut line, 4, u64::from(row.s_id()));
    put(&mut line, 1, u64::from(row.sf_type()));
    put(&mut line, 1, u64::from(row.is_active()));
    put(&mut line, 2, u64::from(row.error_cntrl()));
    put(&mut line, 2, u64::from(row.data_a()));
    put(&mut line, 5, pack(&row.data_b().bytes(), 128));
    line
}

/// Makes the line of `SetActive`.
#[inline(always)]
fn active_line(s_id: u64, sf_type: u64, is_active: u64) -> Line
    ensures items { result.items ≡ line_of (Event.SetActive s_id sf_type is_active) }
    ensures len { array_vec_len result ≤ 43 }
{
    let mut line = begin(b'O');
    put(&mut line, 4, s_id);
    put(&mut line, 1, sf_type);
    put(&mut line, 1, is_active);
    line
}

/// Makes the line of `SetNumber`.
#[inline(always)]
fn number_line(s_id: u64, sub_nbr: Number) -> Line
    ensures items { result.items ≡ line_of (Event.SetNumber s_id sub_nbr) }
    ensures len { array_vec_len result ≤ 43 }
    ensures fits { has_values (Event.SetNumber s_id sub_nbr) ≡ true }
{
    let mut line = begin(b'N');
    put(&mut line, 4, s_id);
    put(&mut line, 8, sub_nbr.value());
    line
}

/// Appends a line, and a line feed.
#[inline(always)]
fn push(lines: &mut Vec<u8>, line: Line) -> Result<(), AllocError>
    requires { array_vec_len line ≤ 43 }
    ensures ok { OnOk result (lines.new.items ≡ lines.old.items ++ (line.items ++ 10 ∷ [])) }
    ensures err { OnErr result (lines.new.items ≡ lines.old.items) }
    ensures full { OnErr result (vec_capacity lines.old < vec_len lines.old + 44) }
{
    let mut line = line;
    line.push(b'\n');
    lines.extend_from_slice(&line)
}

/// Appends the line of an event that changes rows, and a line feed.
#[inline(always)]
fn push_event(lines: &mut Vec<u8>, event: &Event) -> Result<(), AllocError>
    requires { is_change event.now ≡ true }
    ensures ok { OnOk result (lines.new.items ≡ lines.old.items ++ (line_of event.now ++ 10 ∷ [])) }
    ensures err { OnErr result (lines.new.items ≡ lines.old.items) }
    ensures full { OnErr result (vec_capacity lines.old < vec_len lines.old + 44) }
    ensures fits { has_line event.now ≡ true }
{
    let event = *event;
    // Each arm appends by itself, so that the compiler knows the length of its line.
    match event {
        Event::UpdateLocation {
            sub_nbr,
            vlr_location,
        } => push(lines, location_line(sub_nbr, vlr_location)),
        Event::UpdateSubscriber {
            s_id,
            sf_type,
            bit_1,
            data_a,
        } => push(lines, update_line(s_id, sf_type, bit_1, data_a)),
        Event::InsertForwarding {
            sub_nbr,
            sf_type,
            start_time,
            end_time,
            numberx,
        } => push(
            lines,
            insert_line(sub_nbr, sf_type, start_time, end_time, numberx),
        ),
        Event::DeleteForwarding {
            sub_nbr,
            sf_type,
            start_time,
        } => push(lines, delete_line(sub_nbr, sf_type, start_time)),
        Event::AddSubscriber(row) => push(lines, subscriber_line(&row)),
        Event::AddAccess(row) => push(lines, access_line(&row)),
        Event::AddFacility(row) => push(lines, facility_line(&row)),
        Event::SetActive {
            s_id,
            sf_type,
            is_active,
        } => push(lines, active_line(s_id, sf_type, is_active)),
        Event::SetNumber { s_id, sub_nbr } => push(lines, number_line(s_id, sub_nbr)),
        _ => unreachable!(),
    }
}

/// Appends the line of an event that changes rows, and a line feed. It appends nothing if the system refuses memory,
/// which can't happen if the vector has room for `LONGEST` more bytes. The plain numbers of the event have to be in
/// their ranges, as they are if a register answered `Done`.
pub fn push_line(lines: &mut Vec<u8>, event: &Event) -> Result<(), AllocError>
    requires { is_change event.now ≡ true }
    ensures ok { OnOk result (lines.new.items ≡ lines.old.items ++ (line_of event.now ++ 10 ∷ [])) }
    ensures err { OnErr result (lines.new.items ≡ lines.old.items) }
    ensures full { OnErr result (vec_capacity lines.old < vec_len lines.old + 44) }
    ensures fits { has_line event.now ≡ true }
    // The line has neither a zero nor a line feed in it.
    ensures plain { AllByRecursion (λ byte. 10 < byte) (line_of event.now) }
{
    push_event(lines, event)
}
