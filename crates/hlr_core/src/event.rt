//! The events that a register takes, and its replies to them.
ghost use Rattle.std.specs.Prelude.{◌≡◌};
ghost use Rattle.hlr_core.specs.Step.{posted_reply, reply_of};

use part_table::Side;
use tatp_actions::RowReply;
use tatp_rows::{Access, Facility, Number, Refusal, Subscriber};

/// An event: a request to read or change rows, to post, to give or take a piece, or to divide or dissolve a part. Its
/// plain numbers are checked when the event is applied. An event on rows is refused with `Moving` before any row is
/// asked, if its subscriber is in a loose piece.
#[derive(Clone, Copy, Debug, PartialEq, Eq)]
pub enum Event {
    /// GET_SUBSCRIBER_DATA (TATP, section 3.1). Its refusals, in order, are `Field`, `Moving`, and `NoSubscriber`.
    SubscriberData {
        /// The subscriber, 1..=16,777,216.
        s_id: u64,
    },
    /// GET_NEW_DESTINATION (TATP, section 3.2). Its refusals, in order, are `Field`, `Moving`, and `NoDestination`.
    NewDestination {
        /// The subscriber, 1..=16,777,216.
        s_id: u64,
        /// The type of the facility, 1..=4.
        sf_type: u64,
        /// The hour by which the forwardings start: 0, 8 or 16.
        start_time: u64,
        /// The hour after which they end, 1..=24.
        end_time: u64,
    },
    /// GET_ACCESS_DATA (TATP, section 3.3). Its refusals, in order, are `Field`, `Moving`, and `NoAccess`.
    AccessData {
        /// The subscriber, 1..=16,777,216.
        s_id: u64,
        /// The type of the access, 1..=4.
        ai_type: u64,
    },
    /// UPDATE_SUBSCRIBER_DATA (TATP, section 3.4). Its refusals, in order, are `Field`, `Moving`, `NoSubscriber`, and
    /// `NoFacility`.
    UpdateSubscriber {
        /// The subscriber, 1..=16,777,216.
        s_id: u64,
        /// The type of the facility, 1..=4.
        sf_type: u64,
        /// The new bit_1, 0 or 1.
        bit_1: u64,
        /// The new data_a, 0..=255.
        data_a: u64,
    },
    /// UPDATE_LOCATION (TATP, section 3.5). Its refusals, in order, are `Field`, `NoNumber`, and `Moving`.
    UpdateLocation {
        /// The subscriber's number.
        sub_nbr: Number,
        /// The new location, 1..=4,294,967,295.
        vlr_location: u64,
    },
    /// INSERT_CALL_FORWARDING (TATP, section 3.6). Its refusals, in order, are `Field`, `NoNumber`, `Moving`,
    /// `NoFacility`, `Exists`, and `Memory`.
    InsertForwarding {
        /// The subscriber's number.
        sub_nbr: Number,
        /// The type of the facility, 1..=4.
        sf_type: u64,
        /// The hour from which calls are forwarded: 0, 8 or 16.
        start_time: u64,
        /// The hour at which that ends, 1..=24.
        end_time: u64,
        /// The number that calls are forwarded to.
        numberx: Number,
    },
    /// DELETE_CALL_FORWARDING (TATP, section 3.7). Its refusals, in order, are `Field`, `NoNumber`, `Moving`, and
    /// `NoForwarding`.
    DeleteForwarding {
        /// The subscriber's number.
        sub_nbr: Number,
        /// The type of the facility, 1..=4.
        sf_type: u64,
        /// The hour from which calls are forwarded: 0, 8 or 16.
        start_time: u64,
    },
    /// Adds a Subscriber row. Its refusals, in order, are `Moving`, `Exists`, `NumberTaken`, and `Memory`.
    AddSubscriber(Subscriber),
    /// Adds an Access_Info row. Its refusals, in order, are `Moving`, `NoSubscriber`, `Exists`, and `Memory`.
    AddAccess(Access),
    /// Adds a Special_Facility row. Its refusals, in order, are `Moving`, `NoSubscriber`, `Exists`, and `Memory`.
    AddFacility(Facility),
    /// Switches a facility on or off. Its refusals, in order, are `Field`, `Moving`, and `NoFacility`.
    SetActive {
        /// The subscriber, 1..=16,777,216.
        s_id: u64,
        /// The type of the facility, 1..=4.
        sf_type: u64,
        /// The new is_active, 0 or 1.
        is_active: u64,
    },
    /// Gives a subscriber another number, and changes nothing if the subscriber has this number already. Its refusals,
    /// in order, are `Field`, `Moving`, `NoSubscriber`, `NumberTaken`, and `Memory`.
    SetNumber {
        /// The subscriber, 1..=16,777,216.
        s_id: u64,
        /// The new number.
        sub_nbr: Number,
    },
    /// Posts the first `limit` unposted cells of a part, in ascending order. Its refusals, in order, are `NoPart` and
    /// `Worn`.
    Post {
        /// The part, from 0 on.
        part: u64,
        /// How many cells are posted at most.
        limit: u64,
    },
    /// Cuts a loose piece off a part, which is all of it on one side of `at`. Its refusals, in order, are `NoPart`,
    /// `OutOfRange`, `ManyPieces`, and `Memory`.
    Give {
        /// The part, from 0 on.
        part: u64,
        /// The side of `at` that is given away.
        side: Side,
        /// The first subscriber of the high side, strictly inside the part.
        at: u64,
    },
    /// Joins a loose piece to a part that touches it. Its refusals, in order, are `NoPiece`, `NoPart`, `NotAdjacent`,
    /// and `Memory`.
    Take {
        /// The loose piece, 1..=16.
        piece: u64,
        /// The part, from 0 on.
        part: u64,
    },
    /// Divides a part at a subscriber: the part keeps what is below, a new part with the next number gets the rest, and
    /// the numbers of later parts rise by one. Its refusals, in order, are `NoPart`, `OutOfRange`, `ManyParts`, and
    /// `Memory`.
    Divide {
        /// The part, from 0 on.
        part: u64,
        /// The first subscriber of the new part, strictly inside the part.
        at: u64,
    },
    /// Dissolves a part: the part in front gets its rows, what it has published is taken back, and the numbers of later
    /// parts fall by one. Its refusals, in order, are `NoPart`, `NotAdjacent` if the part is the first one or a loose
    /// piece lies in front of it, and `Memory`.
    Dissolve {
        /// The part, from 0 on.
        part: u64,
    },
}

/// A register's reply to an event.
#[derive(Debug, PartialEq, Eq, Drop)]
pub enum Reply {
    /// The reply of the rows, which is no refusal.
    Rows(RowReply),
    /// How many cells were posted, at most `CELLS` of `tatp_actions`.
    Posted(u8),
    /// A part gave a piece away.
    Given {
        /// The number of the loose piece, 1..=16.
        piece: u8,
        /// The first subscriber of the piece.
        lo: u32,
        /// The number behind its last subscriber.
        hi: u32,
    },
    /// A part took a piece.
    Taken {
        /// The number that the piece had, 1..=16.
        piece: u8,
        /// The part, 0..=15.
        part: u8,
    },
    /// A part was divided.
    Divided {
        /// The new part, 1..=15.
        part: u8,
        /// The first subscriber of the new part.
        lo: u32,
        /// The number behind its last subscriber.
        hi: u32,
    },
    /// A part was dissolved.
    Dissolved {
        /// The part in front, which has its rows now, 0..=14.
        part: u8,
        /// The first subscriber of the part in front.
        lo: u32,
        /// The number behind its last subscriber.
        hi: u32,
    },
    /// The event was refused.
    Refused(Refusal),
}

impl Reply {
    /// Makes the reply to an event from the reply of the rows.
    pub fn of_rows(answer: RowReply) -> Reply
        ensures { result ≡ reply_of answer }
    {
        match answer {
            RowReply::Refused(why) => Reply::Refused(why),
            answered => Reply::Rows(answered),
        }
    }

    /// Makes the reply to an event from the result of a posting.
    pub fn of_posting(posted: Result<u8, Refusal>) -> Reply
        ensures { result ≡ posted_reply posted }
    {
        match posted {
            Ok(count) => Reply::Posted(count),
            Err(why) => Reply::Refused(why),
        }
    }
}
