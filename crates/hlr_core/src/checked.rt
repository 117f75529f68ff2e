//! The checks of an event's plain numbers, which make the edit that the event asks for, or narrower numbers for a read.
ghost use Rattle.std.specs.Prelude.{◌≡◌, ◌&&◌, ◌+◌, ℕ, Some, IfOk, OnErr, true, false, Option, option_map};
ghost use Rattle.tatp_rows.specs.Rows.{between, is_between};
ghost use Rattle.tatp_rows.specs.declared.ranges.TheConstants.{LAST_SUBSCRIBER};
ghost use Rattle.tatp_actions.specs.Action.{is_in_range};
ghost use Rattle.tatp_actions.specs.Book.{IsWithin};
ghost use Rattle.tatp_actions.specs.declared.action.Action.TheVariants as action;
ghost use Rattle.hlr_core.specs.Edits.{IsAsked, IsAskedAlone, IsRowAction, action_asked};
ghost use Rattle.hlr_core.specs.Step.{has_forwarding_key};

use std::num::NonZeroU32;
use tatp_actions::Edit;
use tatp_actions::edit::{
    AddAccess, AddFacility, DeleteForwarding, InsertForwarding, SetActive, UpdateLocation,
    UpdateSubscriber,
};
use tatp_rows::{
    Access, Facility, Forwarding, LAST_SUBSCRIBER, Number, Refusal, byte_in_range, in_range,
    is_between, is_start_time,
};

/// Makes a byte of a field. It returns `Field` if the value is above 255, which is out of the range of every such
/// field.
pub fn byte(value: u64) -> Result<u8, Refusal>
    ensures { result ≡ between 0 255 value }
{
    u8::try_from(value).map_err(|_| Refusal::Field)
}

/// Makes a location. It returns `Field` if the value is 0 or above 4,294,967,295.
pub fn location(value: u64) -> Result<NonZeroU32, Refusal>
    ensures ok { IfOk result (λ location. (location.value ≡ value) × (is_between 1 4294967295 value ≡ true)) }
    ensures err { OnErr result ((is_between 1 4294967295 value ≡ false) × (result ≡ Err Refusal.Field)) }
{
    let small = u32::try_from(value).map_err(|_| Refusal::Field)?;
    NonZeroU32::new(small).ok_or(Refusal::Field)
}

/// Makes the narrower numbers of GET_NEW_DESTINATION. It returns `Field` if s_id isn't in 1..=16,777,216, sf_type isn't
/// in 1..=4, start_time isn't 0, 8 or 16, or end_time isn't in 1..=24.
pub(crate) fn new_destination(
    s_id: u64,
    sf_type: u64,
    start_time: u64,
    end_time: u64,
) -> Result<(u32, u8, u8, u8), Refusal>
    ensures ok { IfOk result (λ call. (call ≡ (s_id, sf_type, start_time, end_time)) × (is_in_range (action.NewDestination s_id sf_type start_time end_time) ≡ true)) }
    ensures err { OnErr result ((is_in_range (action.NewDestination s_id sf_type start_time end_time) ≡ false) × (result ≡ Err Refusal.Field)) }
{
    let s_id = in_range(s_id, LAST_SUBSCRIBER)?;
    let sf_type = byte_in_range(sf_type, 4)?;
    if !is_start_time(start_time) {
        return Err(Refusal::Field);
    }
    let end_time = byte_in_range(end_time, 24)?;
    Ok((s_id, sf_type, start_time as u8, end_time))
}

/// Makes the edit of UPDATE_SUBSCRIBER_DATA. It returns `Field` if s_id isn't in 1..=16,777,216, or if sf_type, bit_1
/// or data_a is above 255. The edit itself checks the narrower ranges when it is done.
pub fn update_subscriber(
    s_id: u64,
    sf_type: u64,
    bit_1: u64,
    data_a: u64,
) -> Result<UpdateSubscriber, Refusal>
    ensures action { IfOk result (λ edit. IsRowAction (⟦<UpdateSubscriber as Edit>⟧.action edit)) }
    ensures asked { IsAskedAlone (action.UpdateSubscriber s_id sf_type bit_1 data_a) (action_asked ⟦<UpdateSubscriber as Edit>⟧.action result) }
{
    Ok(UpdateSubscriber {
        s_id: in_range(s_id, LAST_SUBSCRIBER)?,
        sf_type: byte(sf_type)?,
        bit_1: byte(bit_1)?,
        data_a: byte(data_a)?,
    })
}

/// Makes the edit that switches a facility on or off. It returns `Field` if s_id isn't in 1..=16,777,216, or if sf_type
/// or is_active is above 255. The edit itself checks the narrower ranges when it is done.
pub fn set_active(s_id: u64, sf_type: u64, is_active: u64) -> Result<SetActive, Refusal>
    ensures action { IfOk result (λ edit. IsRowAction (⟦<SetActive as Edit>⟧.action edit)) }
    ensures asked { IsAskedAlone (action.SetActive s_id sf_type is_active) (action_asked ⟦<SetActive as Edit>⟧.action result) }
{
    Ok(SetActive {
        s_id: in_range(s_id, LAST_SUBSCRIBER)?,
        sf_type: byte(sf_type)?,
        is_active: byte(is_active)?,
    })
}

/// Makes the edit of UPDATE_LOCATION for the subscriber who has the number. Its refusals, in order, are `Field` if
/// vlr_location isn't in 1..=4,294,967,295, and `NoNumber` if nobody has it.
pub(crate) fn update_location(
    bearer_id: Option<u32>,
    vlr_location: u64,
) -> Result<UpdateLocation, Refusal>
    requires { (s_id : ℕ) → bearer_id ≡ Some s_id → IsWithin 1 (LAST_SUBSCRIBER + 1) s_id }
    ensures action { IfOk result (λ edit. IsRowAction (⟦<UpdateLocation as Edit>⟧.action edit)) }
    ensures fit { IfOk result (λ edit. is_in_range (⟦<UpdateLocation as Edit>⟧.action edit) ≡ true) }
    ensures asked { IsAsked (is_between 1 4294967295 vlr_location) (option_map (λ s_id. action.UpdateLocation s_id vlr_location) bearer_id) (action_asked ⟦<UpdateLocation as Edit>⟧.action result) }
{
    let vlr_location = location(vlr_location)?;
    let s_id = bearer_id.ok_or(Refusal::NoNumber)?;
    Ok(UpdateLocation { s_id, vlr_location })
}

/// Makes the edit of INSERT_CALL_FORWARDING for the subscriber who has the number. Its refusals, in order, are `Field`
/// if sf_type isn't in 1..=4, start_time isn't 0, 8 or 16, or end_time isn't in 1..=24, and `NoNumber` if nobody has
/// it.
pub(crate) fn insert_forwarding(
    bearer_id: Option<u32>,
    sf_type: u64,
    start_time: u64,
    end_time: u64,
    numberx: Number,
) -> Result<InsertForwarding, Refusal>
    requires { (s_id : ℕ) → bearer_id ≡ Some s_id → IsWithin 1 (LAST_SUBSCRIBER + 1) s_id }
    ensures action { IfOk result (λ edit. IsRowAction (⟦<InsertForwarding as Edit>⟧.action edit)) }
    ensures fit { IfOk result (λ edit. is_in_range (⟦<InsertForwarding as Edit>⟧.action edit) ≡ true) }
    ensures asked { IsAsked (has_forwarding_key sf_type start_time && is_between 1 24 end_time)
        (option_map (λ s_id. action.InsertForwarding (record { s_id = s_id; sf_type = sf_type; start_time = start_time; end_time = end_time; numberx = numberx })) bearer_id) (action_asked ⟦<InsertForwarding as Edit>⟧.action result) }
{
    let Some(s_id) = bearer_id else {
        // The fields are checked before the number is looked up, so any subscriber will do here.
        Forwarding::try_new(1, sf_type, start_time, end_time, numberx)?;
        return Err(Refusal::NoNumber);
    };
    let row = Forwarding::try_new(u64::from(s_id), sf_type, start_time, end_time, numberx)?;
    Ok(InsertForwarding { row })
}

/// Makes the edit of DELETE_CALL_FORWARDING for the subscriber who has the number. Its refusals, in order, are `Field`
/// if sf_type isn't in 1..=4 or start_time isn't 0, 8 or 16, and `NoNumber` if nobody has it.
pub(crate) fn delete_forwarding(
    bearer_id: Option<u32>,
    sf_type: u64,
    start_time: u64,
) -> Result<DeleteForwarding, Refusal>
    requires { (s_id : ℕ) → bearer_id ≡ Some s_id → IsWithin 1 (LAST_SUBSCRIBER + 1) s_id }
    ensures action { IfOk result (λ edit. IsRowAction (⟦<DeleteForwarding as Edit>⟧.action edit)) }
    ensures fit { IfOk result (λ edit. is_in_range (⟦<DeleteForwarding as Edit>⟧.action edit) ≡ true) }
    ensures asked { IsAsked (has_forwarding_key sf_type start_time) (option_map (λ s_id. action.DeleteForwarding s_id sf_type start_time) bearer_id) (action_asked ⟦<DeleteForwarding as Edit>⟧.action result) }
{
    let sf_type = byte(sf_type)?;
    let start_time = byte(start_time)?;
    if !is_between(sf_type, 1, 4) || !is_start_time(u64::from(start_time)) {
        return Err(Refusal::Field);
    }
    let s_id = bearer_id.ok_or(Refusal::NoNumber)?;
    Ok(DeleteForwarding {
        s_id,
        sf_type,
        start_time,
    })
}

/// Makes the edit that adds an Access_Info row. It refuses no row.
pub(crate) fn add_access(row: Access) -> Result<AddAccess, Refusal>
    ensures action { IfOk result (λ edit. IsRowAction (⟦<AddAccess as Edit>⟧.action edit)) }
    ensures asked { IsAsked true (Some (action.AddAccess row)) (action_asked ⟦<AddAccess as Edit>⟧.action result) }
{
    // For the prover: the row is in range, as its reader says.
    let _s_id = row.s_id();
    Ok(AddAccess { row })
}

/// Makes the edit that adds a Special_Facility row. It refuses no row.
pub(crate) fn add_facility(row: Facility) -> Result<AddFacility, Refusal>
    ensures action { IfOk result (λ edit. IsRowAction (⟦<AddFacility as Edit>⟧.action edit)) }
    ensures asked { IsAsked true (Some (action.AddFacility row)) (action_asked ⟦<AddFacility as Edit>⟧.action result) }
{
    // For the prover: the row is in range, as its reader says.
    let _s_id = row.s_id();
    Ok(AddFacility { row })
}
