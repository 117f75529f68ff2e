//! The rows that the tests put in, and rows that hold some of them.
ghost use Rattle.std.specs.Prelude.{◌≡◌, IfOk, IsSome};
ghost use Rattle.tatp_actions.specs.Book.{IsRowsOf, subscriber_at, facility_at};
ghost use Rattle.tatp_actions.specs.Tables.{AreKeyed, stored_book, empty_tables};

use crate::Rows;
use std::process::Abort;
use tatp_rows::{Access, Facility, Forwarding, Letters, Number, Refusal, Subscriber};

/// A number.
pub(crate) fn number(rt: &impl Abort, value: u64) -> Number {
    Number::try_new(value).expect(rt, "a number")
}

/// Letters that a row of the table Access_Info or Special_Facility has.
pub(crate) fn five(rt: &impl Abort) -> Letters<5> {
    Letters::from_bytes(b"VWXYZ").expect(rt, "letters")
}

/// A row of the table Subscriber, whose number is its s_id.
pub(crate) fn subscriber(rt: &impl Abort, s_id: u64, vlr_location: u64) -> Subscriber
    ensures { result.s_id ≡ s_id }
{
    Subscriber::try_new(
        s_id,
        number(rt, s_id),
        [1, 0, 1, 0, 1, 0, 1, 0, 1, 0],
        [15, 0, 1, 2, 3, 4, 5, 6, 7, 8],
        [255, 0, 1, 2, 3, 4, 5, 6, 7, 8],
        7,
        vlr_location,
    )
    .expect(rt, "a row")
}

/// A row of the table Access_Info.
pub(crate) fn access(rt: &impl Abort, s_id: u64, ai_type: u64) -> Access {
    let three = Letters::from_bytes(b"ABC").expect(rt, "letters");
    Access::try_new(s_id, ai_type, 255, 0, three, five(rt)).expect(rt, "a row")
}

/// A row of the table Special_Facility.
pub(crate) fn facility(rt: &impl Abort, s_id: u64, sf_type: u64, is_active: u64) -> Facility
    ensures subscriber { result.s_id ≡ s_id }
    ensures kind { result.sf_type ≡ sf_type }
{
    Facility::try_new(s_id, sf_type, is_active, 0, 9, five(rt)).expect(rt, "a row")
}

/// A row of the table Call_Forwarding, to the number that its end names.
pub(crate) fn forwarding(
    rt: &impl Abort,
    s_id: u64,
    sf_type: u64,
    start_time: u64,
    end_time: u64,
) -> Forwarding
    ensures subscriber { result.s_id ≡ s_id }
    ensures kind { result.sf_type ≡ sf_type }
{
    let number = number(rt, end_time);
    Forwarding::try_new(s_id, sf_type, start_time, end_time, number).expect(rt, "a row")
}

/// Puts subscriber 7 into empty rows.
fn put_subscriber<R: Rows>(rows: &mut R, row: Subscriber) -> Result<(), Refusal>
    requires empty { R.tables rows.old ≡ empty_tables }
    requires subscriber { row.s_id ≡ 7 }
    ensures rows { IfOk result (λ _. IsRowsOf 1 10 (stored_book (R.tables rows.new))) }
    ensures keys { IfOk result (λ _. AreKeyed (R.tables rows.new)) }
    ensures there { IfOk result (λ _. IsSome (subscriber_at (stored_book (R.tables rows.new)) 7)) }
{
    // The reader says that the row is in range.
    let _s_id = row.s_id();
    if let Err(back) = rows.insert_s(row.key(), row) {
        return Err(back.why);
    }
    Ok(())
}

/// Puts a facility of type 2 into rows that have its subscriber 7.
fn put_facility<R: Rows>(rows: &mut R, row: Facility) -> Result<(), Refusal>
    requires rows { IsRowsOf 1 10 (stored_book (R.tables rows.old)) }
    requires keys { AreKeyed (R.tables rows.old) }
    requires there { IsSome (subscriber_at (stored_book (R.tables rows.old)) 7) }
    requires subscriber { row.s_id ≡ 7 }
    requires kind { row.sf_type ≡ 2 }
    ensures rows { IfOk result (λ _. IsRowsOf 1 10 (stored_book (R.tables rows.new))) }
    ensures keys { IfOk result (λ _. AreKeyed (R.tables rows.new)) }
    ensures there { IfOk result (λ _. IsSome (facility_at (stored_book (R.tables rows.new)) 7 2)) }
{
    // The reader says that the row is in range.
    let _s_id = row.s_id();
    if let Err(back) = rows.insert_f(row) {
        return Err(back.why);
    }
    Ok(())
}

/// Puts a forwarding into rows that have its facility of type 2 of subscriber 7.
fn put_forwarding<R: Rows>(rows: &mut R, row: Forwarding) -> Result<(), Refusal>
    requires rows { IsRowsOf 1 10 (stored_book (R.tables rows.old)) }
    requires keys { AreKeyed (R.tables rows.old) }
    requires there { IsSome (facility_at (stored_book (R.tables rows.old)) 7 2) }
    requires subscriber { row.s_id ≡ 7 }
    requires kind { row.sf_type ≡ 2 }
    ensures rows { IfOk result (λ _. IsRowsOf 1 10 (stored_book (R.tables rows.new))) }
    ensures keys { IfOk result (λ _. AreKeyed (R.tables rows.new)) }
    ensures there { IfOk result (λ _. IsSome (facility_at (stored_book (R.tables rows.new)) 7 2)) }
{
    // The reader says that the row is in range.
    let _s_id = row.s_id();
    if let Err(back) = rows.insert_c(row) {
        return Err(back.why);
    }
    Ok(())
}

/// Puts subscriber 7, an active facility and its three forwardings into empty rows.
pub(crate) fn fill<R: Rows>(rt: &impl Abort, rows: &mut R)
    requires { R.tables rows.old ≡ empty_tables }
    ensures rows { IsRowsOf 1 10 (stored_book (R.tables rows.new)) }
    ensures keys { AreKeyed (R.tables rows.new) }
{
    put_subscriber(rows, subscriber(rt, 7, 5)).expect(rt, "room");
    put_facility(rows, facility(rt, 7, 2, 1)).expect(rt, "room");
    put_forwarding(rows, forwarding(rt, 7, 2, 0, 8)).expect(rt, "room");
    put_forwarding(rows, forwarding(rt, 7, 2, 8, 16)).expect(rt, "room");
    put_forwarding(rows, forwarding(rt, 7, 2, 16, 24)).expect(rt, "room");
}
