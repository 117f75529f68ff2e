//! The actions on the rows of one subscriber, and the replies to them.
ghost use Rattle.std.specs.Prelude.{◌≡◌, ◌&&◌};
ghost use Rattle.tatp_rows.specs.Number.{is_number};
ghost use Rattle.tatp_rows.specs.Rows.{is_between, is_start_time};
ghost use Rattle.tatp_actions.specs.Action.{is_typed, is_in_range, s_id_of};

use arrayvec::ArrayVec;
use tatp_rows::{
    Access, Facility, Forwarding, LAST_SUBSCRIBER, Letters, Number, Refusal, Subscriber,
    is_between, is_start_time,
};

/// An action on the rows of one subscriber, whose s_id it has. Its plain numbers are checked when it is done.
#[derive(Clone, Copy, Debug, PartialEq, Eq)]
pub enum Action {
    /// GET_SUBSCRIBER_DATA (TATP, section 3.1): reads the row.
    SubscriberData {
        /// The subscriber.
        s_id: u32,
    },
    /// GET_NEW_DESTINATION (TATP, section 3.2): reads the numbers of the forwardings of an active facility that start
    /// by one hour and end after another.
    NewDestination {
        /// The subscriber.
        s_id: u32,
        /// The type of the facility, 1..=4.
        sf_type: u8,
        /// The hour by which the forwardings start: 0, 8 or 16.
        start_time: u8,
        /// The hour after which they end, 1..=24.
        end_time: u8,
    },
    /// GET_ACCESS_DATA (TATP, section 3.3): reads data1 to data4.
    AccessData {
        /// The subscriber.
        s_id: u32,
        /// The type of the access, 1..=4.
        ai_type: u8,
    },
    /// UPDATE_SUBSCRIBER_DATA (TATP, section 3.4): sets bit_1 of the subscriber and data_a of the facility, or neither.
    UpdateSubscriber {
        /// The subscriber.
        s_id: u32,
        /// The type of the facility, 1..=4.
        sf_type: u8,
        /// The new bit_1, 0 or 1.
        bit_1: u8,
        /// The new data_a.
        data_a: u8,
    },
    /// UPDATE_LOCATION (TATP, section 3.5) by s_id: sets vlr_location.
    UpdateLocation {
        /// The subscriber.
        s_id: u32,
        /// The new location, at least 1.
        vlr_location: u32,
    },
    /// INSERT_CALL_FORWARDING (TATP, section 3.6) by s_id: adds a Call_Forwarding row.
    InsertForwarding(Forwarding),
    /// DELETE_CALL_FORWARDING (TATP, section 3.7) by s_id: removes a Call_Forwarding row.
    DeleteForwarding {
        /// The subscriber.
        s_id: u32,
        /// The type of the facility, 1..=4.
        sf_type: u8,
        /// The hour at which the forwarding starts: 0, 8 or 16.
        start_time: u8,
    },
    /// Adds a Subscriber row.
    AddSubscriber(Subscriber),
    /// Adds an Access_Info row.
    AddAccess(Access),
    /// Adds a Special_Facility row.
    AddFacility(Facility),
    /// Switches a facility on or off.
    SetActive {
        /// The subscriber.
        s_id: u32,
        /// The type of the facility, 1..=4.
        sf_type: u8,
        /// The new is_active, 0 or 1.
        is_active: u8,
    },
    /// Gives a subscriber another number.
    SetNumber {
        /// The subscriber.
        s_id: u32,
        /// The new number.
        sub_nbr: Number,
    },
}

/// Returns whether there can be a subscriber with this s_id.
fn is_subscriber(s_id: u32) -> bool
    ensures { result ≡ is_between 1 LAST_SUBSCRIBER s_id }
{
    (1..=LAST_SUBSCRIBER).contains(&s_id)
}

/// Returns whether there can be a row of a subscriber with this s_id and type.
fn is_typed(s_id: u32, kind: u8) -> bool
    ensures { result ≡ is_typed s_id kind }
{
    is_subscriber(s_id) && is_between(kind, 1, 4)
}

/// Returns whether there can be a subscriber with this s_id and number.
fn is_numbered(s_id: u32, sub_nbr: Number) -> bool
    ensures { result ≡ (is_between 1 LAST_SUBSCRIBER s_id && is_number sub_nbr) }
{
    // For the prover: the number is in range, as its reader says.
    let _ = sub_nbr.value();
    is_subscriber(s_id)
}

/// Returns whether a call can ask for forwardings that start by one hour and end after another.
fn are_hours_of_call(start_time: u8, end_time: u8) -> bool
    ensures { result ≡ (is_start_time start_time && is_between 1 24 end_time) }
{
    is_start_time(u64::from(start_time)) && is_between(end_time, 1, 24)
}

impl Action {
    /// Returns the subscriber whose rows the action is on.
    pub fn s_id(&self) -> u32
        ensures { result ≡ s_id_of self.now }
    {
        match *self {
            Action::SubscriberData { s_id }
            | Action::NewDestination { s_id, .. }
            | Action::AccessData { s_id, .. }
            | Action::UpdateSubscriber { s_id, .. }
            | Action::UpdateLocation { s_id, .. }
            | Action::DeleteForwarding { s_id, .. }
            | Action::SetActive { s_id, .. }
            | Action::SetNumber { s_id, .. } => s_id,
            Action::InsertForwarding(row) => row.s_id(),
            Action::AddSubscriber(row) => row.s_id(),
            Action::AddAccess(row) => row.s_id(),
            Action::AddFacility(row) => row.s_id(),
        }
    }

    /// Returns whether all fields of the action are in their ranges. If not, the action is refused with `Field`. The
    /// fields of a row always are.
    pub fn is_in_range(&self) -> bool
        ensures { result ≡ is_in_range self.now }
    {
        match *self {
            Action::SubscriberData { s_id } => is_subscriber(s_id),
            Action::NewDestination {
                s_id,
                sf_type,
                start_time,
                end_time,
            } => is_typed(s_id, sf_type) && are_hours_of_call(start_time, end_time),
            Action::AccessData { s_id, ai_type } => is_typed(s_id, ai_type),
            Action::UpdateSubscriber {
                s_id,
                sf_type,
                bit_1,
                data_a,
            } => is_typed(s_id, sf_type) && bit_1 <= 1 && is_between(data_a, 0, 255),
            Action::UpdateLocation { s_id, vlr_location } => {
                is_subscriber(s_id) && vlr_location != 0
            }
            Action::DeleteForwarding {
                s_id,
                sf_type,
                start_time,
            } => is_typed(s_id, sf_type) && is_start_time(u64::from(start_time)),
            Action::SetActive {
                s_id,
                sf_type,
                is_active,
            } => is_typed(s_id, sf_type) && is_active <= 1,
            Action::SetNumber { s_id, sub_nbr } => is_numbered(s_id, sub_nbr),
            Action::InsertForwarding(row) => is_subscriber(row.s_id()),
            Action::AddSubscriber(row) => is_subscriber(row.s_id()),
            Action::AddAccess(row) => is_subscriber(row.s_id()),
            Action::AddFacility(row) => is_subscriber(row.s_id()),
        }
    }
}

/// The reply to an action.
#[derive(Debug, PartialEq, Eq, Drop)]
pub enum RowReply {
    /// The action was done.
    Done,
    /// The row that was read.
    Row(Subscriber),
    /// The numbers that were found, one to three.
    Numbers(ArrayVec<Number, 3>),
    /// The data of the access that was read.
    AccessRow {
        /// data1.
        data1: u8,
        /// data2.
        data2: u8,
        /// data3.
        data3: Letters<3>,
        /// data4.
        data4: Letters<5>,
    },
    /// The action was refused, and the rows are as before.
    Refused(Refusal),
}
