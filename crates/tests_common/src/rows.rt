//! Rows with fixed fields but for those that a test names.
use tatp_rows::{Access, Facility, Letters, Number, Refusal, Subscriber};

/// Makes a number, or answers `Field` where it is out of range.
pub fn number(value: u64) -> Result<Number, Refusal> {
    Number::try_new(value)
}

/// Makes a row of the table Subscriber, or answers `Field`.
pub fn row(s_id: u64, number_value: u64, vlr_location: u64) -> Result<Subscriber, Refusal> {
    Subscriber::try_new(
        s_id,
        number(number_value)?,
        [1, 0, 1, 0, 1, 0, 1, 0, 1, 0],
        [15, 0, 1, 2, 3, 4, 5, 6, 7, 8],
        [255, 0, 1, 2, 3, 4, 5, 6, 7, 8],
        9,
        vlr_location,
    )
}

/// Makes a row of the table Access_Info, or answers `Field`.
pub fn access_row(s_id: u64, ai_type: u64, data1: u8) -> Result<Access, Refusal> {
    let three = Letters::try_new(*b"ABC")?;
    let five = Letters::try_new(*b"ABCDE")?;
    Access::try_new(s_id, ai_type, data1, 4, three, five)
}

/// Makes a row of the table Special_Facility, or answers `Field`.
pub fn facility_row(s_id: u64, sf_type: u64, is_active: u64) -> Result<Facility, Refusal> {
    let five = Letters::try_new(*b"ABCDE")?;
    Facility::try_new(s_id, sf_type, is_active, 0, 0, five)
}
