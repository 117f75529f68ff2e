//! What no clause says: that calls succeed, the bytes of a line of each kind, and lines that are refused.
ghost use Rattle.std.specs.Prelude.{◌≡◌, IfOk, true};
ghost use Rattle.tatp_rows.specs.Rows.{is_between};
ghost use Rattle.edit_lines.specs.Lines.{is_change};

use super::*;
use std::alloc::Global;
use std::test::*;
use tatp_rows::{Access, Facility, Letters, Number, Subscriber};

/// The number that most events have.
const NUMBER: u64 = 123_456_789_012_345;

/// The lines of one event of each kind, as the format has them.
const LOCATION: [u8; 15] = [
    76, 249, 190, 183, 176, 136, 137, 156, 128, 255, 255, 255, 255, 143, 10,
];

const UPDATE: [u8; 10] = [85, 128, 128, 128, 136, 132, 129, 255, 129, 10];

const INSERT: [u8; 21] = [
    73, 129, 128, 128, 128, 128, 128, 128, 128, 130, 144, 152, 255, 255, 153, 166, 234, 175, 227,
    129, 10,
];

const DELETE: [u8; 12] = [68, 128, 128, 128, 128, 128, 128, 128, 128, 129, 136, 10];

const SUBSCRIBER: [u8; 44] = [
    83, 172, 130, 128, 128, 249, 190, 183, 176, 136, 137, 156, 128, 141, 133, 161, 134, 149, 187,
    152, 159, 129, 132, 140, 160, 240, 159, 134, 142, 160, 200, 160, 129, 129, 128, 128, 128, 128,
    128, 129, 128, 128, 128, 10,
];

const ACCESS: [u8; 19] = [
    65, 129, 128, 128, 128, 131, 128, 128, 255, 129, 193, 194, 218, 209, 215, 197, 210, 212, 10,
];

const FACILITY: [u8; 17] = [
    70, 130, 128, 128, 128, 132, 129, 128, 129, 135, 128, 209, 215, 197, 210, 212, 10,
];

const ACTIVE: [u8; 8] = [79, 129, 129, 128, 128, 131, 128, 10];

const RENAME: [u8; 14] = [
    78, 128, 128, 129, 128, 128, 128, 129, 128, 128, 128, 128, 128, 10,
];

/// Returns whether an event's line has these bytes, and is read as this event.
fn is_line(alloc: Global, event: Event, expected: &[u8]) -> Result<bool, Fail>
    requires { is_change event ≡ true }
{
    let mut lines = Vec::new(alloc);
    push_line(&mut lines, &event)?;
    let line = lines.as_slice();
    let end = line.len().saturating_sub(1);
    Ok(line == expected && read_line(&line[..end]) == Ok(event))
}

#[test]
fn events_by_number(rt: HostRuntime) -> Result<(), Fail> {
    let alloc = rt.alloc();
    let location = Event::UpdateLocation {
        sub_nbr: Number::try_new(NUMBER)?,
        vlr_location: 4_294_967_295,
    };
    let insert = Event::InsertForwarding {
        sub_nbr: Number::try_new(1)?,
        sf_type: 2,
        start_time: 16,
        end_time: 24,
        numberx: Number::try_new(999_999_999_999_999)?,
    };
    let delete = Event::DeleteForwarding {
        sub_nbr: Number::default(),
        sf_type: 1,
        start_time: 8,
    };
    assert!(rt; is_line(alloc, location, &LOCATION)?);
    assert!(rt; is_line(alloc, insert, &INSERT)?);
    assert!(rt; is_line(alloc, delete, &DELETE)?);
    Ok(())
}

#[test]
fn events_by_s_id(rt: HostRuntime) -> Result<(), Fail> {
    let alloc = rt.alloc();
    let update = Event::UpdateSubscriber {
        s_id: 16_777_216,
        sf_type: 4,
        bit_1: 1,
        data_a: 255,
    };
    let active = Event::SetActive {
        s_id: 129,
        sf_type: 3,
        is_active: 0,
    };
    let rename = Event::SetNumber {
        s_id: 16_384,
        sub_nbr: Number::try_new(16_384)?,
    };
    assert!(rt; is_line(alloc, update, &UPDATE)?);
    assert!(rt; is_line(alloc, active, &ACTIVE)?);
    assert!(rt; is_line(alloc, rename, &RENAME)?);
    Ok(())
}

#[test]
fn events_with_rows(rt: HostRuntime) -> Result<(), Fail> {
    let alloc = rt.alloc();
    let five = Letters::from_bytes(b"QWERT")?;
    let subscriber = Subscriber::try_new(
        300,
        Number::try_new(NUMBER)?,
        [1, 0, 1, 1, 0, 0, 0, 1, 0, 1],
        [1, 2, 3, 4, 5, 6, 7, 8, 9, 15],
        [1, 2, 3, 4, 255, 6, 7, 8, 9, 10],
        1,
        128,
    )?;
    let access = Access::try_new(1, 3, 0, 255, Letters::from_bytes(b"ABZ")?, five)?;
    let facility = Facility::try_new(2, 4, 1, 128, 7, five)?;
    assert!(rt; is_line(alloc, Event::AddSubscriber(subscriber), &SUBSCRIBER)?);
    assert!(rt; is_line(alloc, Event::AddAccess(access), &ACCESS)?);
    assert!(rt; is_line(alloc, Event::AddFacility(facility), &FACILITY)?);
    Ok(())
}

/// Returns why a line is refused, if one of its bytes is another.
fn fault_with(line: &[u8], at: usize, byte: u8) -> Option<LineError> {
    let mut changed = [0u8; 43];
    let end = line.len().saturating_sub(1);
    if end > 43 || at >= end {
        return None;
    }
    changed[..end].copy_from_slice(&line[..end]);
    changed[at] = byte;
    read_line(&changed[..end]).err()
}

#[test]
fn refused_lines(rt: HostRuntime) {
    assert_eq!(rt;
        [
            read_line(b"").err(),
            read_line(b"Z").err(),
            read_line(b"L").err(),
            read_line(&UPDATE).err(),
            read_line(&UPDATE[..8]).err(),
        ],
        [
            Some(LineError::Kind),
            Some(LineError::Kind),
            Some(LineError::Length),
            Some(LineError::Length),
            Some(LineError::Length),
        ]
    );
    assert_eq!(rt;
        [
            fault_with(&LOCATION, 0, 85),
            fault_with(&LOCATION, 8, 127),
            fault_with(&LOCATION, 13, 144),
            fault_with(&UPDATE, 5, 133),
            fault_with(&SUBSCRIBER, 14, 136),
            fault_with(&SUBSCRIBER, 32, 160),
            fault_with(&ACCESS, 10, 192),
            fault_with(&FACILITY, 8, 130),
            fault_with(&ACTIVE, 6, 130),
        ],
        [
            Some(LineError::Length),
            Some(LineError::Digit),
            Some(LineError::Field),
            Some(LineError::Field),
            Some(LineError::Field),
            Some(LineError::Field),
            Some(LineError::Field),
            Some(LineError::Field),
            Some(LineError::Field),
        ]
    );
}

#[test]
fn first_lines(rt: HostRuntime) -> Result<(), Fail> {
    let mut lines = Vec::new(rt.alloc());
    push_first_line(&mut lines)?;
    assert_eq!(rt; lines.as_slice(), b"hlr journal 1\n".as_slice());
    assert_eq!(rt;
        [
            check_first_line(b"hlr journal 1"),
            check_first_line(b"hlr journal 2"),
            check_first_line(b"hlr journal 10"),
            check_first_line(b"hlr journal"),
            check_first_line(b""),
        ],
        [
            Ok(()),
            Err(LineError::Version),
            Err(LineError::Version),
            Err(LineError::Format),
            Err(LineError::Format),
        ]
    );
    Ok(())
}

/// Draws numbers, the same ones in each run.
#[derive(Drop)]
struct Draws {
    state: u64,
}

impl Draws {
    /// Draws any number below 2^32.
    fn next(&mut self) -> u64 {
        self.state = self
            .state
            .wrapping_mul(6_364_136_223_846_793_005)
            .wrapping_add(1_442_695_040_888_963_407);
        self.state >> 32
    }

    /// Draws an s_id.
    fn s_id(&mut self) -> u64
        ensures { is_between 1 16777216 result ≡ true }
    {
        self.next() % 16_777_216 + 1
    }

    /// Draws a type.
    fn kind(&mut self) -> u64
        ensures { is_between 1 4 result ≡ true }
    {
        self.next() % 4 + 1
    }

    /// Draws a location.
    fn location(&mut self) -> u64
        ensures { is_between 1 4294967295 result ≡ true }
    {
        self.next() % 4_294_967_295 + 1
    }

    /// Draws a number of 15 digits.
    fn number(&mut self) -> Result<Number, Fail> {
        let high = self.next() % 1_000_000_000;
        Ok(Number::try_new(high * 1_000_000 + self.next() % 1_000_000)?)
    }

    /// Draws bytes, each of which is one of the `count` values from `least` on.
    fn list<const N: usize>(&mut self, least: u8, count: u8) -> [u8; N] {
        let mut bytes = [0u8; N];
        for i in 0..N {
            let drawn = self.next().to_le_bytes()[0];
            bytes[i] = least.wrapping_add(drawn.checked_rem(count).unwrap_or(drawn));
        }
        bytes
    }

    /// Draws a Subscriber row.
    fn subscriber(&mut self) -> Result<Subscriber, Fail> {
        let sub_nbr = self.number()?;
        Ok(Subscriber::try_new(
            self.s_id(),
            sub_nbr,
            self.list(0, 2),
            self.list(0, 16),
            self.list(0, 0),
            self.location(),
            self.location(),
        )?)
    }

    /// Draws an Access_Info row.
    fn access(&mut self) -> Result<Access, Fail> {
        let [data1, data2] = self.list::<2>(0, 0);
        let data3 = Letters::try_new(self.list(b'A', 26))?;
        let data4 = Letters::try_new(self.list(b'A', 26))?;
        Ok(Access::try_new(self.s_id(), self.kind(), data1, data2, data3, data4)?)
    }

    /// Draws a Special_Facility row.
    fn facility(&mut self) -> Result<Facility, Fail> {
        let [error_cntrl, data_a] = self.list::<2>(0, 0);
        let data_b = Letters::try_new(self.list(b'A', 26))?;
        let is_active = self.next() % 2;
        Ok(Facility::try_new(
            self.s_id(),
            self.kind(),
            is_active,
            error_cntrl,
            data_a,
            data_b,
        )?)
    }

    /// Draws an event with a row.
    fn with_row(&mut self) -> Result<Event, Fail>
        ensures { IfOk result (λ event. is_change event ≡ true) }
    {
        match self.next() % 3 {
            0 => Ok(Event::AddSubscriber(self.subscriber()?)),
            1 => Ok(Event::AddAccess(self.access()?)),
            _ => Ok(Event::AddFacility(self.facility()?)),
        }
    }

    /// Draws an event by the number of a subscriber.
    fn by_number(&mut self) -> Result<Event, Fail>
        ensures { IfOk result (λ event. is_change event ≡ true) }
    {
        let sub_nbr = self.number()?;
        let numberx = self.number()?;
        Ok(match self.next() % 3 {
            0 => Event::UpdateLocation {
                sub_nbr,
                vlr_location: self.location(),
            },
            1 => Event::DeleteForwarding {
                sub_nbr,
                sf_type: self.kind(),
                start_time: 16,
            },
            _ => Event::InsertForwarding {
                sub_nbr,
                sf_type: self.kind(),
                start_time: 8,
                end_time: self.next() % 24 + 1,
                numberx,
            },
        })
    }

    /// Draws an event by the s_id of a subscriber.
    fn by_s_id(&mut self) -> Result<Event, Fail>
        ensures { IfOk result (λ event. is_change event ≡ true) }
    {
        let s_id = self.s_id();
        let sub_nbr = self.number()?;
        Ok(match self.next() % 3 {
            0 => Event::SetNumber { s_id, sub_nbr },
            1 => Event::SetActive {
                s_id,
                sf_type: self.kind(),
                is_active: self.next() % 2,
            },
            _ => Event::UpdateSubscriber {
                s_id,
                sf_type: self.kind(),
                bit_1: self.next() % 2,
                data_a: self.next() % 256,
            },
        })
    }
}

/// Appends an event's line, and returns whether it is read as this event and has neither a zero nor a line feed in it.
fn is_read_back(lines: &mut Vec<u8>, event: Event) -> Result<bool, Fail>
    requires { is_change event ≡ true }
{
    let start = lines.len();
    push_line(lines, &event)?;
    let line = lines.as_slice();
    let end = line.len().saturating_sub(1);
    if start > end {
        return Ok(false);
    }
    let line = &line[start..end];
    let is_plain = line.iter().all(|byte| *byte != 0 && *byte != b'\n');
    Ok(is_plain && read_line(line) == Ok(event))
}

#[test]
fn drawn_events(rt: HostRuntime) -> Result<(), Fail> {
    let mut draws = Draws { state: 1 };
    let mut lines = Vec::new(rt.alloc());
    for _ in 0..300 {
        let event = draws.with_row()?;
        assert!(rt; is_read_back(&mut lines, event)?);
        let event = draws.by_number()?;
        assert!(rt; is_read_back(&mut lines, event)?);
        let event = draws.by_s_id()?;
        assert!(rt; is_read_back(&mut lines, event)?);
    }
    Ok(())
}
