//! The numbers to which a call is forwarded, asked for row by row, and found in a group of forwardings.
ghost use Rattle.std.specs.Prelude.{◌≡◌, ◌+◌, ◌<◌, ◌≤◌, ◌++◌, option_map};
ghost use Rattle.std.specs.Option.{option_to_list};
ghost use Rattle.arrayvec.specs.ArrayVec.{array_vec_len};
ghost use Rattle.tatp_actions.specs.Action.{destinations};
ghost use Rattle.tatp_actions.specs.Book.{forwarding_at, has_active};
ghost use Rattle.tatp_actions.specs.Inside.{destination, number_in_time, numbers_in, IsOnlyAsked};
ghost use Rattle.tatp_actions.specs.Part.{IsPart};

use crate::part::Part;
use crate::rows::Rows;
use arrayvec::ArrayVec;
use row_groups::Forwardings;
use tatp_rows::{Facility, Forwarding, Number};

/// Returns the numbers of the forwardings of an active facility that start by one hour and end after another, in the
/// order of their start times. There are at most three, and none if the facility isn't active. It asks for the facility
/// and for each of the three start times once at most.
#[inline(always)]
pub(crate) fn find_destinations<R: Rows>(
    part: &mut Part<R>,
    s_id: u32,
    sf_type: u8,
    start_time: u8,
    end_time: u8,
) -> ArrayVec<Number, 3>
    requires { IsPart part.old }
    ensures found { result.items ≡ destinations part.old.book s_id sf_type start_time end_time }
    ensures asked { IsOnlyAsked 4 part.old part.new }
{
    if !is_active(part.facility(s_id, sf_type)) {
        return ArrayVec::new();
    }
    let first = find_destination(part, s_id, sf_type, 0, start_time, end_time);
    let second = find_destination(part, s_id, sf_type, 8, start_time, end_time);
    let third = find_destination(part, s_id, sf_type, 16, start_time, end_time);
    numbers_of(first, second, third)
}

/// Returns the number of the forwarding that starts at an hour, if that is no later than the start of the call, and if
/// it ends after the call.
fn find_destination<R: Rows>(
    part: &mut Part<R>,
    s_id: u32,
    sf_type: u8,
    hour: u8,
    start_time: u8,
    end_time: u8,
) -> Option<Number>
    requires { IsPart part.old }
    ensures found { result ≡ destination s_id sf_type start_time end_time (forwarding_at part.old.book s_id sf_type hour) }
    ensures asked { IsOnlyAsked 1 part.old part.new }
{
    if start_time < hour {
        return None;
    }
    let found = part.forwarding(s_id, sf_type, hour);
    number_of(found, hour, start_time, end_time)
}

/// Returns the number of a forwarding that was found at an hour, if it takes a call of these times.
#[inline(always)]
fn number_of(found: Option<Forwarding>, hour: u8, start_time: u8, end_time: u8) -> Option<Number>
    ensures { result ≡ number_in_time hour start_time end_time found }
{
    let row = found?;
    if hour <= start_time && end_time < row.end_time() {
        Some(row.numberx())
    } else {
        None
    }
}

/// Returns whether a facility was found and is active.
#[inline(always)]
pub(crate) fn is_active(found: Option<Facility>) -> bool
    ensures { result ≡ has_active found }
{
    match found {
        Some(facility) => facility.is_active(),
        None => false,
    }
}

/// Returns the numbers of the forwardings of a group that start by one hour and end after another, and none if no group
/// was found.
#[inline(always)]
pub(crate) fn numbers_within(
    found: Option<&Forwardings>,
    start_time: u8,
    end_time: u8,
) -> ArrayVec<Number, 3>
    ensures { result.items ≡ numbers_in start_time end_time (option_map (λ group. group.now) found.entry) }
{
    match found {
        Some(group) => group.destinations(start_time, end_time),
        None => ArrayVec::new(),
    }
}

/// Returns the numbers that were found, in order.
fn numbers_of(
    first: Option<Number>,
    second: Option<Number>,
    third: Option<Number>,
) -> ArrayVec<Number, 3>
    ensures { result.items ≡ (option_to_list first ++ option_to_list second) ++ option_to_list third }
{
    let mut numbers = ArrayVec::new();
    push_found(&mut numbers, first);
    push_found(&mut numbers, second);
    push_found(&mut numbers, third);
    numbers
}

/// Appends a number, if one was found.
fn push_found(numbers: &mut ArrayVec<Number, 3>, found: Option<Number>)
    requires { array_vec_len numbers.old < 3 }
    ensures { numbers.new.items ≡ numbers.old.items ++ option_to_list found }
{
    if let Some(number) = found {
        numbers.push(number);
    }
}
