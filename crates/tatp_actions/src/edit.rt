//! The actions that change rows, each as a type of its own, so that no code on the way to the rows has to test which
//! action it is.
ghost use Rattle.std.specs.Prelude.{◌≡◌};
ghost use Rattle.tatp_actions.specs.Action.{done_reply, s_id_of};
ghost use Rattle.tatp_actions.specs.Book.{IsWithin};
ghost use Rattle.tatp_actions.specs.Edit.{Acts, notes_of};
ghost use Rattle.tatp_actions.specs.Part.{IsPart};
ghost use Rattle.tatp_actions.specs.declared.action.Action.{Action};
ghost use Rattle.tatp_actions.specs.declared.action.Action.TheVariants as action;

use crate::action::Action;
use crate::change::Change;
use crate::part::Part;
use crate::rows::Rows;
use std::num::NonZeroU32;
use tatp_rows::{Access, Facility, Forwarding, Number, Refusal, Subscriber};

/// An action that changes the rows of one subscriber.
pub trait Edit: Copy {
    ghost action: { Self → Action };

    /// Returns the subscriber whose rows the edit changes.
    fn s_id(&self) -> u32
        ensures { result ≡ s_id_of (action self.now) };

    /// Returns the action that the edit is.
    fn to_action(&self) -> Action
        ensures { result ≡ action self.now };

    /// Does the edit on a part that has its subscriber in its range. It returns the change of the cells, or why it was
    /// refused.
    fn make<R: Rows>(self, part: &mut Part<R>) -> Result<Change, Refusal>
        requires { IsWithin part.old.lo part.old.hi (s_id_of (action self)) }
        ensures acts { Acts (action self) part.old (done_reply result) (notes_of result) part.new }
        ensures after { IsPart part.new };
}

/// UPDATE_SUBSCRIBER_DATA (TATP, section 3.4): sets bit_1 of the subscriber and data_a of the facility, or neither.
#[derive(Clone, Copy, Debug, PartialEq, Eq)]
pub struct UpdateSubscriber {
    /// The subscriber.
    pub s_id: u32,
    /// The type of the facility, 1..=4.
    pub sf_type: u8,
    /// The new bit_1, 0 or 1.
    pub bit_1: u8,
    /// The new data_a.
    pub data_a: u8,
}

impl Edit for UpdateSubscriber {
    ghost action = { λ edit. action.UpdateSubscriber edit.s_id edit.sf_type edit.bit_1 edit.data_a };

    fn s_id(&self) -> u32 {
        self.s_id
    }

    fn to_action(&self) -> Action {
        Action::UpdateSubscriber {
            s_id: self.s_id,
            sf_type: self.sf_type,
            bit_1: self.bit_1,
            data_a: self.data_a,
        }
    }

    fn make<R: Rows>(self, part: &mut Part<R>) -> Result<Change, Refusal> {
        let done = part.update_subscriber(self.s_id, self.sf_type, self.bit_1, self.data_a);
        // Opens the part for the prover: its rules are known.
        let _ = &part.rows;
        done
    }
}

/// UPDATE_LOCATION (TATP, section 3.5) by s_id: sets vlr_location.
#[derive(Clone, Copy, Debug, PartialEq, Eq)]
pub struct UpdateLocation {
    /// The subscriber.
    pub s_id: u32,
    /// The new location.
    pub vlr_location: NonZeroU32,
}

impl Edit for UpdateLocation {
    ghost action = { λ edit. action.UpdateLocation edit.s_id edit.vlr_location.value };

    fn s_id(&self) -> u32 {
        self.s_id
    }

    fn to_action(&self) -> Action {
        Action::UpdateLocation {
            s_id: self.s_id,
            vlr_location: self.vlr_location.get(),
        }
    }

    fn make<R: Rows>(self, part: &mut Part<R>) -> Result<Change, Refusal> {
        let done = part.update_location(self.s_id, self.vlr_location);
        // Opens the part for the prover: its rules are known.
        let _ = &part.rows;
        done
    }
}

/// INSERT_CALL_FORWARDING (TATP, section 3.6) by s_id: adds a Call_Forwarding row.
#[derive(Clone, Copy, Debug, PartialEq, Eq)]
pub struct InsertForwarding {
    /// The new row.
    pub row: Forwarding,
}

impl Edit for InsertForwarding {
    ghost action = { λ edit. action.InsertForwarding edit.row };

    fn s_id(&self) -> u32 {
        self.row.s_id()
    }

    fn to_action(&self) -> Action {
        Action::InsertForwarding(self.row)
    }

    fn make<R: Rows>(self, part: &mut Part<R>) -> Result<Change, Refusal> {
        let done = part.insert_forwarding(self.row);
        // Opens the part for the prover: its rules are known.
        let _ = &part.rows;
        done
    }
}

/// DELETE_CALL_FORWARDING (TATP, section 3.7) by s_id: removes a Call_Forwarding row.
#[derive(Clone, Copy, Debug, PartialEq, Eq)]
pub struct DeleteForwarding {
    /// The subscriber.
    pub s_id: u32,
    /// The type of the facility, 1..=4.
    pub sf_type: u8,
    /// The hour at which the forwarding starts: 0, 8 or 16.
    pub start_time: u8,
}

impl Edit for DeleteForwarding {
    ghost action = { λ edit. action.DeleteForwarding edit.s_id edit.sf_type edit.start_time };

    fn s_id(&self) -> u32 {
        self.s_id
    }

    fn to_action(&self) -> Action {
        Action::DeleteForwarding {
            s_id: self.s_id,
            sf_type: self.sf_type,
            start_time: self.start_time,
        }
    }

    fn make<R: Rows>(self, part: &mut Part<R>) -> Result<Change, Refusal> {
        let done = part.delete_forwarding(self.s_id, self.sf_type, self.start_time);
        // Opens the part for the prover: its rules are known.
        let _ = &part.rows;
        done
    }
}

/// Adds a Subscriber row.
#[derive(Clone, Copy, Debug, PartialEq, Eq)]
pub struct AddSubscriber {
    /// The new row.
    pub row: Subscriber,
}

impl Edit for AddSubscriber {
    ghost action = { λ edit. action.AddSubscriber edit.row };

    fn s_id(&self) -> u32 {
        self.row.s_id()
    }

    fn to_action(&self) -> Action {
        Action::AddSubscriber(self.row)
    }

    fn make<R: Rows>(self, part: &mut Part<R>) -> Result<Change, Refusal> {
        let done = part.add_subscriber(self.row);
        // Opens the part for the prover: its rules are known.
        let _ = &part.rows;
        done
    }
}

/// Adds an Access_Info row.
#[derive(Clone, Copy, Debug, PartialEq, Eq)]
pub struct AddAccess {
    /// The new row.
    pub row: Access,
}

impl Edit for AddAccess {
    ghost action = { λ edit. action.AddAccess edit.row };

    fn s_id(&self) -> u32 {
        self.row.s_id()
    }

    fn to_action(&self) -> Action {
        Action::AddAccess(self.row)
    }

    fn make<R: Rows>(self, part: &mut Part<R>) -> Result<Change, Refusal> {
        let done = part.add_access(self.row);
        // Opens the part for the prover: its rules are known.
        let _ = &part.rows;
        done
    }
}

/// Adds a Special_Facility row.
#[derive(Clone, Copy, Debug, PartialEq, Eq)]
pub struct AddFacility {
    /// The new row.
    pub row: Facility,
}

impl Edit for AddFacility {
    ghost action = { λ edit. action.AddFacility edit.row };

    fn s_id(&self) -> u32 {
        self.row.s_id()
    }

    fn to_action(&self) -> Action {
        Action::AddFacility(self.row)
    }

    fn make<R: Rows>(self, part: &mut Part<R>) -> Result<Change, Refusal> {
        let done = part.add_facility(self.row);
        // Opens the part for the prover: its rules are known.
        let _ = &part.rows;
        done
    }
}

/// Switches a facility on or off.
#[derive(Clone, Copy, Debug, PartialEq, Eq)]
pub struct SetActive {
    /// The subscriber.
    pub s_id: u32,
    /// The type of the facility, 1..=4.
    pub sf_type: u8,
    /// The new is_active, 0 or 1.
    pub is_active: u8,
}

impl Edit for SetActive {
    ghost action = { λ edit. action.SetActive edit.s_id edit.sf_type edit.is_active };

    fn s_id(&self) -> u32 {
        self.s_id
    }

    fn to_action(&self) -> Action {
        Action::SetActive {
            s_id: self.s_id,
            sf_type: self.sf_type,
            is_active: self.is_active,
        }
    }

    fn make<R: Rows>(self, part: &mut Part<R>) -> Result<Change, Refusal> {
        let done = part.set_active(self.s_id, self.sf_type, self.is_active);
        // Opens the part for the prover: its rules are known.
        let _ = &part.rows;
        done
    }
}

/// Gives a subscriber another number.
#[derive(Clone, Copy, Debug, PartialEq, Eq)]
pub struct SetNumber {
    /// The subscriber.
    pub s_id: u32,
    /// The new number.
    pub sub_nbr: Number,
}

impl Edit for SetNumber {
    ghost action = { λ edit. action.SetNumber edit.s_id edit.sub_nbr };

    fn s_id(&self) -> u32 {
        self.s_id
    }

    fn to_action(&self) -> Action {
        Action::SetNumber {
            s_id: self.s_id,
            sub_nbr: self.sub_nbr,
        }
    }

    fn make<R: Rows>(self, part: &mut Part<R>) -> Result<Change, Refusal> {
        let done = part.set_number(self.s_id, self.sub_nbr);
        // Opens the part for the prover: its rules are known.
        let _ = &part.rows;
        done
    }
}
