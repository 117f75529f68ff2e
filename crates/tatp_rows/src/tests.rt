//! What no clause says: that each call can succeed, what it answers then, and what is written. Many values are compared
//! at once, since each assertion is a branch that is proved.
use super::*;
use std::test::*;

const TEXT: [u8; 15] = *b"000000000000042";

#[test]
fn numbers(rt: HostRuntime) -> Result<(), Fail> {
    let forty_two = Number::try_new(42)?;
    let refused = [
        "00000000000042",
        "0000000000000042",
        "00000000000004x",
        "+00000000000042",
    ];
    assert_eq!(rt;
        refused.map(|text| Number::from_digits(text.as_bytes())),
        [Err(Refusal::Field); 4]
    );
    assert_eq!(rt;
        [
            Number::from_digits(&TEXT),
            Number::try_new(1_000_000_000_000_000)
        ],
        [Ok(forty_two), Err(Refusal::Field)]
    );
    assert_eq!(rt;
        (
            forty_two.value(),
            Number::default().value(),
            Number::try_new(41)? < forty_two
        ),
        (42, 0, true)
    );
    assert_eq!(rt;
        format!(in rt.alloc(); "{forty_two}")?.as_bytes(),
        TEXT.as_slice()
    );
    Ok(())
}

#[test]
fn letters(rt: HostRuntime) -> Result<(), Fail> {
    let amz = Letters::try_new(*b"AMZ")?;
    let qwert = Letters::<5>::from_bytes(b"QWERT")?;
    let refused = ["", "AB", "ABCD", "AbC", "A@C", "A[C"];
    assert_eq!(rt;
        refused.map(|text| Letters::<3>::from_bytes(text.as_bytes())),
        [Err(Refusal::Field); 6]
    );
    assert_eq!(rt; (amz.bytes(), qwert.bytes()), (*b"AMZ", *b"QWERT"));
    assert_eq!(rt;
        format!(in rt.alloc(); "{amz}")?.as_bytes(),
        b"AMZ".as_slice()
    );
    Ok(())
}

#[test]
fn subscribers(rt: HostRuntime) -> Result<(), Fail> {
    let number = Number::try_new(42)?;
    let other = Number::try_new(43)?;
    let bits = [1, 0, 1, 0, 1, 0, 1, 0, 1, 0];
    let hexes = [15, 0, 1, 2, 3, 4, 5, 6, 7, 8];
    let bytes = [255, 0, 1, 2, 3, 4, 5, 6, 7, 8];
    let row = Subscriber::try_new(1, number, bits, hexes, bytes, 7, 4_294_967_295)?;
    assert_eq!(rt;
        (
            row.s_id(),
            row.sub_nbr(),
            row.key(),
            row.msc_location(),
            row.vlr_location()
        ),
        (1, number, 65_536, 7, 4_294_967_295)
    );
    assert_eq!(rt;
        (row.bits(), row.hexes(), row.bytes()),
        (bits, hexes, bytes)
    );
    assert_eq!(rt;
        (
            row.with_vlr_location(9).vlr_location(),
            row.with_bit_1(0).bits(),
            row.with_sub_nbr(other).sub_nbr()
        ),
        (9, [0, 0, 1, 0, 1, 0, 1, 0, 1, 0], other)
    );
    Ok(())
}

/// Rows with their fields at both ends of the ranges, and with digits that tell their places: s_id, number, bits,
/// hexes, bytes and both locations.
const ENDS: [(u64, u64, [u8; 10], [u8; 10], [u8; 10], u64); 5] = [
    (1, 0, [0; 10], [0; 10], [0; 10], 1),
    (
        16_777_216,
        999_999_999_999_999,
        [1; 10],
        [15; 10],
        [255; 10],
        4_294_967_295,
    ),
    (
        1,
        999_999_999_999_999,
        [1, 0, 0, 0, 0, 0, 0, 0, 0, 0],
        [15, 0, 0, 0, 0, 0, 0, 0, 0, 0],
        [255, 0, 0, 0, 0, 0, 0, 0, 0, 0],
        4_294_967_295,
    ),
    (
        16_777_216,
        0,
        [0, 0, 0, 0, 0, 0, 0, 0, 0, 1],
        [0, 0, 0, 0, 0, 0, 0, 0, 0, 15],
        [0, 0, 0, 0, 0, 0, 0, 0, 0, 255],
        1,
    ),
    (
        8_388_608,
        123_456_789_012_345,
        [0, 1, 1, 0, 1, 0, 0, 1, 1, 0],
        [1, 2, 3, 4, 5, 6, 7, 8, 9, 10],
        [1, 2, 3, 4, 5, 6, 7, 8, 9, 10],
        2_147_483_648,
    ),
];

#[test]
fn subscribers_at_the_ends_of_their_ranges(rt: HostRuntime) -> Result<(), Fail> {
    for (s_id, number, bits, hexes, bytes, location) in ENDS {
        let number = Number::try_new(number)?;
        let row = Subscriber::try_new(s_id, number, bits, hexes, bytes, location, location)?;
        assert_eq!(rt;
            (
                u64::from(row.s_id()),
                row.sub_nbr(),
                u64::from(row.msc_location()),
                u64::from(row.vlr_location())
            ),
            (s_id, number, location, location)
        );
        assert_eq!(rt;
            (row.bits(), row.hexes(), row.bytes()),
            (bits, hexes, bytes)
        );
        assert_eq!(rt;
            (
                row.with_bit_1(bits[0].min(1)) == row,
                row.with_bit_1(0).bits()[0],
                row.with_bit_1(1).bits()[0],
                row.with_bit_1(1).hexes()
            ),
            (true, 0, 1, hexes)
        );
    }
    Ok(())
}

#[test]
fn accesses(rt: HostRuntime) -> Result<(), Fail> {
    let three = Letters::from_bytes(b"ABZ")?;
    let five = Letters::from_bytes(b"QWERT")?;
    let row = Access::try_new(1, 4, 255, 7, three, five)?;
    assert_eq!(rt;
        (
            row.s_id(),
            row.ai_type(),
            row.key(),
            row.data1(),
            row.data2()
        ),
        (1, 4, 66_560, 255, 7)
    );
    assert_eq!(rt; (row.data3(), row.data4()), (three, five));
    assert_eq!(rt;
        Access::try_new(1, 5, 255, 7, three, five),
        Err(Refusal::Field)
    );
    Ok(())
}

#[test]
fn facilities(rt: HostRuntime) -> Result<(), Fail> {
    let five = Letters::from_bytes(b"QWERT")?;
    let row = Facility::try_new(1, 4, 0, 255, 7, five)?;
    assert_eq!(rt;
        (row.s_id(), row.sf_type(), row.key(), row.is_active()),
        (1, 4, 66_560, false)
    );
    assert_eq!(rt;
        (row.error_cntrl(), row.data_a(), row.data_b()),
        (255, 7, five)
    );
    assert_eq!(rt;
        (
            row.with_is_active(true).is_active(),
            row.with_data_a(9).data_a()
        ),
        (true, 9)
    );
    assert_eq!(rt;
        Facility::try_new(1, 4, 256, 255, 7, five),
        Err(Refusal::Field)
    );
    Ok(())
}

#[test]
fn forwardings(rt: HostRuntime) -> Result<(), Fail> {
    let number = Number::try_new(42)?;
    let row = Forwarding::try_new(1, 4, 16, 3, number)?;
    assert_eq!(rt;
        (
            row.s_id(),
            row.sf_type(),
            row.key(),
            row.start_time(),
            row.end_time(),
            row.numberx()
        ),
        (1, 4, 66_576, 16, 3, number)
    );
    assert_eq!(rt;
        Forwarding::try_new(1, 4, 264, 3, number),
        Err(Refusal::Field)
    );
    Ok(())
}

#[test]
fn keys_and_ranges(rt: HostRuntime) {
    assert_eq!(rt;
        [
            in_range(16_777_216, LAST_SUBSCRIBER),
            in_range(16_777_217, LAST_SUBSCRIBER)
        ],
        [Ok(16_777_216), Err(Refusal::Field)]
    );
    assert_eq!(rt;
        [0, 1, 4, 5].map(|value| is_between(value, 1, 4)),
        [false, true, true, false]
    );
    assert_eq!(rt;
        [0, 8, 16, 24].map(|hour| is_start_time(hour)),
        [true, true, true, false]
    );
    assert_eq!(rt;
        (row_key(16_777_216, 255, 255), subscriber_key(2)),
        (1_099_511_693_311, 131_072)
    );
}

#[test]
fn zones_and_areas(rt: HostRuntime) {
    assert_eq!(rt;
        [
            zone(100, 100),
            zone(101, 100),
            zone(9_000, 100),
            zone(5, 0),
            zone(0, 10)
        ],
        [0, 1, 31, 0, 0]
    );
    assert_eq!(rt;
        [
            zone(16_777_216, GREATEST_WIDTH),
            zone(16_252_928, GREATEST_WIDTH)
        ],
        [31, 30]
    );
    assert_eq!(rt;
        [area(268_435_455), area(268_435_456), area(4_294_967_295)],
        [0, 1, 15]
    );
}

/// The reason of a call that handed a value back.
fn reason_of(refused: Result<(), Back<u32>>) -> Result<(), Refusal> {
    refused?;
    Ok(())
}

#[test]
fn refusals(rt: HostRuntime) -> Result<(), Fail> {
    assert_eq!(rt;
        (
            Refusal::Memory.code(),
            Refusal::ManyParts.code(),
            Refusal::NoDestination.name()
        ),
        (1, 22, "NoDestination")
    );
    let back = Back {
        why: Refusal::Exists,
        item: 7u32,
    };
    assert!(rt; back.clone()? == back);
    assert_eq!(rt; reason_of(Err(back)), Err(Refusal::Exists));
    Ok(())
}
