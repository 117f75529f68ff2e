//! The rows and lists that C hands in, and gets by reference.
use std::marker::Model;

/// A Subscriber row (TATP, section 2.1).
#[repr(C)]
#[derive(Clone, Copy, Debug, PartialEq, Eq)]
pub struct HlrSubscriber {
    /// The subscriber, 1..=16,777,216.
    pub s_id: u64,
    /// The number, below 10^15.
    pub sub_nbr: u64,
    /// bit_1 to bit_10, each 0 or 1.
    pub bits: [u8; 10],
    /// hex_1 to hex_10, each 0..=15.
    pub hexes: [u8; 10],
    /// byte2_1 to byte2_10.
    pub bytes: [u8; 10],
    /// The msc_location, 1..=4,294,967,295.
    pub msc_location: u64,
    /// The vlr_location, 1..=4,294,967,295.
    pub vlr_location: u64,
}

impl Model for HlrSubscriber {
    ghost use Rattle.tatp_rows.specs.Rows.{SubscriberRow};

    ghost Value = { SubscriberRow };

    ghost view = { λ s. record {
      s_id = s.s_id;
      sub_nbr = s.sub_nbr;
      bits = s.bits;
      hexes = s.hexes;
      bytes = s.bytes;
      msc_location = s.msc_location;
      vlr_location = s.vlr_location;
    } };

    ghost inverse = { λ s. record {
      s_id = s.s_id;
      sub_nbr = s.sub_nbr;
      bits = s.bits;
      hexes = s.hexes;
      bytes = s.bytes;
      msc_location = s.msc_location;
      vlr_location = s.vlr_location;
    } };
}

/// An Access_Info row (TATP, section 2.2).
#[repr(C)]
#[derive(Clone, Copy, Debug, PartialEq, Eq)]
pub struct HlrAccess {
    /// The subscriber, 1..=16,777,216.
    pub s_id: u64,
    /// The type of the access, 1..=4.
    pub ai_type: u64,
    /// data1, 0..=255.
    pub data1: u64,
    /// data2, 0..=255.
    pub data2: u64,
    /// data3, three letters A to Z.
    pub data3: [u8; 3],
    /// data4, five letters A to Z.
    pub data4: [u8; 5],
}

impl Model for HlrAccess {
    ghost use Rattle.tatp_rows.specs.Rows.{AccessInfoRow};

    ghost Value = { AccessInfoRow };

    ghost view = { λ a. record {
      s_id = a.s_id;
      ai_type = a.ai_type;
      data1 = a.data1;
      data2 = a.data2;
      data3 = a.data3;
      data4 = a.data4;
    } };

    ghost inverse = { λ a. record {
      s_id = a.s_id;
      ai_type = a.ai_type;
      data1 = a.data1;
      data2 = a.data2;
      data3 = a.data3;
      data4 = a.data4;
    } };
}

/// A Special_Facility row (TATP, section 2.3).
#[repr(C)]
#[derive(Clone, Copy, Debug, PartialEq, Eq)]
pub struct HlrFacility {
    /// The subscriber, 1..=16,777,216.
    pub s_id: u64,
    /// The type of the facility, 1..=4.
    pub sf_type: u64,
    /// Whether it is active, 0 or 1.
    pub is_active: u64,
    /// error_cntrl, 0..=255.
    pub error_cntrl: u64,
    /// data_a, 0..=255.
    pub data_a: u64,
    /// data_b, five letters A to Z.
    pub data_b: [u8; 5],
}

impl Model for HlrFacility {
    ghost use Rattle.tatp_rows.specs.Rows.{SpecialFacilityRow};

    ghost Value = { SpecialFacilityRow };

    ghost view = { λ f. record {
      s_id = f.s_id;
      sf_type = f.sf_type;
      is_active = f.is_active;
      error_cntrl = f.error_cntrl;
      data_a = f.data_a;
      data_b = f.data_b;
    } };

    ghost inverse = { λ f. record {
      s_id = f.s_id;
      sf_type = f.sf_type;
      is_active = f.is_active;
      error_cntrl = f.error_cntrl;
      data_a = f.data_a;
      data_b = f.data_b;
    } };
}

/// A Call_Forwarding row (TATP, section 2.4).
#[repr(C)]
#[derive(Clone, Copy, Debug, PartialEq, Eq)]
pub struct HlrForwardingRow {
    /// The subscriber, 1..=16,777,216.
    pub s_id: u64,
    /// The type of the facility, 1..=4.
    pub sf_type: u64,
    /// The hour at which it starts, 0, 8 or 16.
    pub start_time: u64,
    /// The hour at which it ends, 1..=24.
    pub end_time: u64,
    /// The number to which calls are forwarded, below 10^15.
    pub numberx: u64,
}

impl Model for HlrForwardingRow {
    ghost use Rattle.tatp_rows.specs.Rows.{CallForwardingRow};

    ghost Value = { CallForwardingRow };

    ghost view = { λ f. record {
      s_id = f.s_id;
      sf_type = f.sf_type;
      start_time = f.start_time;
      end_time = f.end_time;
      numberx = f.numberx;
    } };

    ghost inverse = { λ f. record {
      s_id = f.s_id;
      sf_type = f.sf_type;
      start_time = f.start_time;
      end_time = f.end_time;
      numberx = f.numberx;
    } };
}

/// A query for an access.
#[repr(C)]
#[derive(Clone, Copy, Debug, PartialEq, Eq)]
pub struct HlrAccessAsked {
    /// The subscriber, 1..=16,777,216.
    pub s_id: u64,
    /// The type of the access, 1..=4.
    pub ai_type: u64,
}

/// A query for the numbers to which a call is forwarded.
#[repr(C)]
#[derive(Clone, Copy, Debug, PartialEq, Eq)]
pub struct HlrDestinationAsked {
    /// The subscriber, 1..=16,777,216.
    pub s_id: u64,
    /// The type of the facility, 1..=4.
    pub sf_type: u64,
    /// The hour by which forwardings start: 0, 8 or 16.
    pub start_time: u64,
    /// The hour after which they end, 1..=24.
    pub end_time: u64,
}

/// The numbers to which a call is forwarded.
#[repr(C)]
#[derive(Clone, Copy, Debug, PartialEq, Eq)]
pub struct HlrNumbers {
    /// How many, 1..=3.
    pub count: u64,
    /// The numbers; 0 in the places behind them.
    pub numbers: [u64; 3],
}

/// A range of subscribers, and the part or the loose piece that has it.
#[repr(C)]
#[derive(Clone, Copy, Debug, PartialEq, Eq)]
pub struct HlrRegion {
    /// The first subscriber, 1..=16,777,216.
    pub lo: u64,
    /// The number behind the last subscriber, at most 16,777,217.
    pub hi: u64,
    /// 0 for a part, 1 for a loose piece.
    pub is_piece: u64,
    /// The number of the part, 0..=15, or of the piece, 1..=16.
    pub number: u64,
}

/// Regions, in the order of their ranges.
#[repr(C)]
#[derive(Clone, Copy, Debug, PartialEq, Eq)]
pub struct HlrRegions {
    /// How many, 1..=32.
    pub count: u64,
    /// The regions, in the first places. In the places behind them all fields are 0.
    pub regions: [HlrRegion; 32],
}

/// Bounds between parts, in order.
#[repr(C)]
#[derive(Clone, Copy, Debug, PartialEq, Eq)]
pub struct HlrBounds {
    /// How many, 0..=15.
    pub count: u64,
    /// The bounds, in the first places.
    pub bounds: [u64; 15],
}

/// A call on the file of a journal, which C has to make.
#[repr(C)]
#[derive(Clone, Copy, Debug, PartialEq, Eq)]
pub struct HlrCall {
    /// What to do: `WRITE`, `ZEROS` or `SYNC`, or 0 if no call is owed.
    pub kind: u32,
    /// The descriptor of the file.
    pub fd: i32,
    /// Where the call begins to write.
    pub from: u64,
    /// Where it ends.
    pub to: u64,
}

// hlr.h declares these for C, where they have the same sizes.
const _: () = prove!(size_of::<HlrSubscriber>() == 64);

const _: () = prove!(size_of::<HlrAccess>() == 40);

const _: () = prove!(size_of::<HlrFacility>() == 48);

const _: () = prove!(size_of::<HlrForwardingRow>() == 40);

const _: () = prove!(size_of::<HlrAccessAsked>() == 16);

const _: () = prove!(size_of::<HlrDestinationAsked>() == 32);

const _: () = prove!(size_of::<HlrNumbers>() == 32);

const _: () = prove!(size_of::<HlrRegion>() == 32);

const _: () = prove!(size_of::<HlrRegions>() == 1032);

const _: () = prove!(size_of::<HlrBounds>() == 128);

const _: () = prove!(size_of::<HlrCall>() == 24);
