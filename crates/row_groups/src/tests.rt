//! What no clause says: that each call can succeed. Groups with every pattern of places, put in by several orders, are
//! compared with plain rows.
ghost use Rattle.std.specs.Prelude.{IsTrue};
ghost use Rattle.tatp_rows.specs.Rows.{is_between};

use super::*;
use arrayvec::ArrayVec;
use std::process::Abort;
use std::test::*;
use tatp_rows::{Access, Facility, Forwarding, Letters, Number, Refusal};

const S_ID: u32 = 7;

/// The types, each with its bit in a pattern, in three orders.
const ORDERS: [[(u8, u8); 4]; 3] = [
    [(1, 1), (2, 2), (3, 4), (4, 8)],
    [(4, 8), (3, 4), (2, 2), (1, 1)],
    [(3, 4), (1, 1), (4, 8), (2, 2)],
];

/// The start times, each with its bit in a pattern, in three orders.
const HOURS: [[(u8, u8); 3]; 3] = [
    [(0, 1), (8, 2), (16, 4)],
    [(16, 4), (8, 2), (0, 1)],
    [(8, 2), (16, 4), (0, 1)],
];

/// A row whose fields tell its type, and which is marked or not.
fn access(ai_type: u8, marked: bool) -> Result<Access, Refusal> {
    let letter = 65 + ai_type % 26;
    Access::try_new(
        u64::from(S_ID),
        u64::from(ai_type),
        ai_type,
        u8::from(marked),
        Letters::try_new([letter; 3])?,
        Letters::try_new([letter; 5])?,
    )
}

fn facility(sf_type: u8, marked: bool) -> Result<Facility, Refusal> {
    let letter = 65 + sf_type % 26;
    Facility::try_new(
        u64::from(S_ID),
        u64::from(sf_type),
        u64::from(marked),
        sf_type,
        255,
        Letters::try_new([letter; 5])?,
    )
}

fn forwarding(sf_type: u8, start_time: u8, marked: bool) -> Result<Forwarding, Refusal> {
    let number = if marked { 999_999_999_999_999 } else { 0 };
    Forwarding::try_new(
        u64::from(S_ID),
        u64::from(sf_type),
        u64::from(start_time),
        if marked {
            24
        } else {
            1 + u64::from(start_time % 24)
        },
        Number::try_new(number)?,
    )
}

/// The row of a type, if the pattern has it, marked or not.
fn plain_access(pattern: u8, marked: u8, ai_type: u8) -> Result<Option<Access>, Refusal> {
    for (kind, bit) in ORDERS[0] {
        if kind == ai_type && pattern & bit != 0 {
            return Ok(Some(access(ai_type, marked & bit != 0)?));
        }
    }
    Ok(None)
}

fn plain_facility(pattern: u8, marked: u8, sf_type: u8) -> Result<Option<Facility>, Refusal> {
    for (kind, bit) in ORDERS[0] {
        if kind == sf_type && pattern & bit != 0 {
            return Ok(Some(facility(sf_type, marked & bit != 0)?));
        }
    }
    Ok(None)
}

/// The rows of the start times in a pattern, of which some are marked.
fn plain_forwardings(
    sf_type: u8,
    pattern: u8,
    marked: u8,
) -> Result<ArrayVec<Forwarding, 3>, Refusal> {
    let mut rows = ArrayVec::new();
    for (start_time, bit) in HOURS[0] {
        if pattern & bit != 0 {
            let _ = rows.try_push(forwarding(sf_type, start_time, marked & bit != 0)?);
        }
    }
    Ok(rows)
}

/// Whether a group has the rows of a pattern, by each of the calls that read.
fn has_access(group: &Accesses, pattern: u8, marked: u8) -> Result<bool, Refusal> {
    let mut same = group.len() == pattern.count_ones() as usize;
    for ai_type in 0..7_u8 {
        same &= group.get(S_ID, ai_type) == plain_access(pattern, marked, ai_type)?;
    }
    Ok(same)
}

/// Whether a group of the types in a pattern, which come in an order, is right before and after each change.
fn is_access_right(order: &[(u8, u8); 4], pattern: u8) -> Result<bool, Refusal> {
    let mut group = Accesses::default();
    for (ai_type, bit) in *order {
        if pattern & bit != 0 {
            group.insert(&access(ai_type, false)?)?;
        }
    }
    let mut right = has_access(&group, pattern, 0)?;
    for (ai_type, bit) in *order {
        let (row, other) = (access(ai_type, false)?, access(ai_type, true)?);
        let there = pattern & bit != 0;
        let old = if there { Some(row) } else { None };
        let mut changed = group;
        right &= changed.insert(&other).is_ok() != there;
        right &= has_access(&changed, pattern | bit, bit & !pattern)?;
        let mut changed = group;
        right &= changed.replace(&other) == old;
        right &= has_access(&changed, pattern, bit & pattern)?;
        let mut changed = group;
        right &= changed.remove(S_ID, ai_type) == old;
        right &= has_access(&changed, pattern & !bit, 0)?;
        right &= has_access(&Accesses::of(&other), bit, bit)?;
    }
    Ok(right)
}

#[test]
fn patterns_of_access(rt: HostRuntime) -> Result<(), Fail> {
    let mut wrong = 0_u8;
    for order in &ORDERS {
        for pattern in 0..16_u8 {
            if !is_access_right(order, pattern)? {
                wrong = wrong.saturating_add(1);
            }
        }
    }
    assert_eq!(rt; wrong, 0);
    Ok(())
}

/// Whether a group has the rows of a pattern, by each of the calls that read.
fn has_facilities(group: &Facilities, pattern: u8, marked: u8) -> Result<bool, Refusal> {
    let mut same = group.len() == pattern.count_ones() as usize;
    for sf_type in 0..7_u8 {
        same &= group.get(S_ID, sf_type) == plain_facility(pattern, marked, sf_type)?;
    }
    Ok(same)
}

/// Whether a group of the types in a pattern, which come in an order, is right before and after each change.
fn are_facilities_right(order: &[(u8, u8); 4], pattern: u8) -> Result<bool, Refusal> {
    let mut group = Facilities::default();
    for (sf_type, bit) in *order {
        if pattern & bit != 0 {
            group.insert(&facility(sf_type, false)?)?;
        }
    }
    let mut right = has_facilities(&group, pattern, 0)?;
    for (sf_type, bit) in *order {
        let (row, other) = (facility(sf_type, false)?, facility(sf_type, true)?);
        let there = pattern & bit != 0;
        let old = if there { Some(row) } else { None };
        let mut changed = group;
        right &= changed.insert(&other).is_ok() != there;
        right &= has_facilities(&changed, pattern | bit, bit & !pattern)?;
        let mut changed = group;
        right &= changed.replace(&other) == old;
        right &= has_facilities(&changed, pattern, bit & pattern)?;
        let mut changed = group;
        right &= changed.remove(S_ID, sf_type) == old;
        right &= has_facilities(&changed, pattern & !bit, 0)?;
        right &= has_facilities(&Facilities::of(&other), bit, bit)?;
    }
    Ok(right)
}

#[test]
fn patterns_of_facilities(rt: HostRuntime) -> Result<(), Fail> {
    let mut wrong = 0_u8;
    for order in &ORDERS {
        for pattern in 0..16_u8 {
            if !are_facilities_right(order, pattern)? {
                wrong = wrong.saturating_add(1);
            }
        }
    }
    assert_eq!(rt; wrong, 0);
    Ok(())
}

/// The numbers of the rows that take a call.
fn plain_numbers(
    rows: &ArrayVec<Forwarding, 3>,
    start_time: u8,
    end_time: u8,
) -> ArrayVec<Number, 3> {
    let mut numbers = ArrayVec::new();
    for row in rows.as_slice() {
        if row.start_time() <= start_time && end_time < row.end_time() {
            let _ = numbers.try_push(row.numberx());
        }
    }
    numbers
}

/// Whether a group has the rows of a pattern, by each of the calls that read.
fn has_forwardings(
    group: &Forwardings,
    sf_type: u8,
    pattern: u8,
    marked: u8,
) -> Result<bool, Refusal>
    requires { IsTrue (is_between 1 4 sf_type) }
{
    let all = plain_forwardings(sf_type, pattern, marked)?;
    let mut same = group.len() == all.len();
    for start_time in 0..26_u8 {
        let found = all
            .as_slice()
            .iter()
            .copied()
            .find(|row| row.start_time() == start_time);
        same &= group.get(S_ID, sf_type, start_time) == found;
        for end_time in 0..26_u8 {
            let numbers = plain_numbers(&all, start_time, end_time);
            same &= group.destinations(start_time, end_time).as_slice() == numbers.as_slice();
        }
    }
    Ok(same)
}

/// Whether a group of the start times in a pattern, which come in an order, is right before and after each change.
fn are_forwardings_right(order: &[(u8, u8); 3], sf_type: u8, pattern: u8) -> Result<bool, Refusal>
    requires { IsTrue (is_between 1 4 sf_type) }
{
    let mut group = Forwardings::default();
    for (start_time, bit) in *order {
        if pattern & bit != 0 {
            group.insert(&forwarding(sf_type, start_time, false)?)?;
        }
    }
    let mut right = has_forwardings(&group, sf_type, pattern, 0)?;
    for (start_time, bit) in *order {
        let row = forwarding(sf_type, start_time, false)?;
        let other = forwarding(sf_type, start_time, true)?;
        let there = pattern & bit != 0;
        let old = if there { Some(row) } else { None };
        let mut changed = group;
        right &= changed.insert(&other).is_ok() != there;
        right &= has_forwardings(&changed, sf_type, pattern | bit, bit & !pattern)?;
        let mut changed = group;
        right &= changed.replace(&other) == old;
        right &= has_forwardings(&changed, sf_type, pattern, bit & pattern)?;
        let mut changed = group;
        right &= changed.remove(S_ID, sf_type, start_time) == old;
        right &= has_forwardings(&changed, sf_type, pattern & !bit, 0)?;
        right &= has_forwardings(&Forwardings::of(&other), sf_type, bit, bit)?;
    }
    Ok(right)
}

#[test]
fn patterns_of_forwardings(rt: HostRuntime) -> Result<(), Fail> {
    let mut wrong = 0_u8;
    for order in &HOURS {
        for sf_type in 1..5_u8 {
            for pattern in 0..8_u8 {
                if !are_forwardings_right(order, sf_type, pattern)? {
                    wrong = wrong.saturating_add(1);
                }
            }
        }
    }
    assert_eq!(rt; wrong, 0);
    Ok(())
}
