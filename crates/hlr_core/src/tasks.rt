//! The tasks that events ask a part's holding for, made of the events' plain numbers, which are checked here.
ghost use Rattle.std.specs.Prelude.{◌≡◌, ◌&&◌, ◌+◌, ℕ, Ok, Some, option_map};
ghost use Rattle.tatp_rows.specs.Rows.{is_between};
ghost use Rattle.tatp_rows.specs.declared.ranges.TheConstants.{LAST_SUBSCRIBER};
ghost use Rattle.tatp_actions.specs.Book.{IsWithin};
ghost use Rattle.tatp_actions.specs.declared.action.Action.TheVariants as action;
ghost use Rattle.hlr_core.specs.Inside.Routed.{IsTaskFor};
ghost use Rattle.hlr_core.specs.Step.{checked, has_forwarding_key, if_in_range};

use crate::checked;
use crate::task::Task;
use tatp_actions::edit::{AddAccess, AddFacility};
use tatp_rows::{
    Access, Facility, LAST_SUBSCRIBER, Number, Refusal, byte_in_range, in_range, is_between,
};

/// Makes the task of GET_SUBSCRIBER_DATA. It returns `Field` if s_id isn't in 1..=16,777,216.
pub(crate) fn subscriber_data(s_id: u64) -> Result<Task, Refusal>
    ensures { IsTaskFor (if_in_range (action.SubscriberData s_id)) result }
{
    let s_id = in_range(s_id, LAST_SUBSCRIBER)?;
    Ok(Task::SubscriberData { s_id })
}

/// Makes the task of GET_NEW_DESTINATION. It returns `Field` if s_id isn't in 1..=16,777,216, sf_type isn't in 1..=4,
/// start_time isn't 0, 8 or 16, or end_time isn't in 1..=24.
pub(crate) fn new_destination(
    s_id: u64,
    sf_type: u64,
    start_time: u64,
    end_time: u64,
) -> Result<Task, Refusal>
    ensures { IsTaskFor (if_in_range (action.NewDestination s_id sf_type start_time end_time)) result }
{
    let (s_id, sf_type, start_time, end_time) = checked::new_destination(
        s_id, sf_type, start_time, end_time,
    )?;
    Ok(Task::NewDestination {
        s_id,
        sf_type,
        start_time,
        end_time,
    })
}

/// Makes the task of GET_ACCESS_DATA. It returns `Field` if s_id isn't in 1..=16,777,216 or ai_type isn't in 1..=4.
pub(crate) fn access_data(s_id: u64, ai_type: u64) -> Result<Task, Refusal>
    ensures { IsTaskFor (if_in_range (action.AccessData s_id ai_type)) result }
{
    let s_id = in_range(s_id, LAST_SUBSCRIBER)?;
    let ai_type = byte_in_range(ai_type, 4)?;
    Ok(Task::AccessData { s_id, ai_type })
}

/// Makes the task of UPDATE_SUBSCRIBER_DATA. It returns `Field` if s_id isn't in 1..=16,777,216, sf_type isn't in
/// 1..=4, bit_1 isn't 0 or 1, or data_a is above 255.
pub(crate) fn update_subscriber(
    s_id: u64,
    sf_type: u64,
    bit_1: u64,
    data_a: u64,
) -> Result<Task, Refusal>
    ensures { IsTaskFor (if_in_range (action.UpdateSubscriber s_id sf_type bit_1 data_a)) result }
{
    let edit = checked::update_subscriber(s_id, sf_type, bit_1, data_a)?;
    if !is_between(edit.sf_type, 1, 4) || edit.bit_1 > 1 {
        return Err(Refusal::Field);
    }
    Ok(Task::UpdateSubscriber(edit))
}

/// Makes the task that switches a facility on or off. It returns `Field` if s_id isn't in 1..=16,777,216, sf_type isn't
/// in 1..=4, or is_active isn't 0 or 1.
pub(crate) fn set_active(s_id: u64, sf_type: u64, is_active: u64) -> Result<Task, Refusal>
    ensures { IsTaskFor (if_in_range (action.SetActive s_id sf_type is_active)) result }
{
    let edit = checked::set_active(s_id, sf_type, is_active)?;
    if !is_between(edit.sf_type, 1, 4) || edit.is_active > 1 {
        return Err(Refusal::Field);
    }
    Ok(Task::SetActive(edit))
}

/// Makes the task of UPDATE_LOCATION for the subscriber who has the number. Its refusals, in order, are `Field` if
/// vlr_location isn't in 1..=4,294,967,295, and `NoNumber` if nobody has it.
pub(crate) fn update_location(bearer_id: Option<u32>, vlr_location: u64) -> Result<Task, Refusal>
    requires { (s_id : ℕ) → bearer_id ≡ Some s_id → IsWithin 1 (LAST_SUBSCRIBER + 1) s_id }
    ensures { IsTaskFor (checked (is_between 1 4294967295 vlr_location) (option_map (λ s_id. action.UpdateLocation s_id vlr_location) bearer_id)) result }
{
    let edit = checked::update_location(bearer_id, vlr_location)?;
    Ok(Task::UpdateLocation(edit))
}

/// Makes the task of INSERT_CALL_FORWARDING for the subscriber who has the number. Its refusals, in order, are `Field`
/// if sf_type isn't in 1..=4, start_time isn't 0, 8 or 16, or end_time isn't in 1..=24, and `NoNumber` if nobody has
/// it.
pub(crate) fn insert_forwarding(
    bearer_id: Option<u32>,
    sf_type: u64,
    start_time: u64,
    end_time: u64,
    numberx: Number,
) -> Result<Task, Refusal>
    requires { (s_id : ℕ) → bearer_id ≡ Some s_id → IsWithin 1 (LAST_SUBSCRIBER + 1) s_id }
    ensures { IsTaskFor (checked (has_forwarding_key sf_type start_time && is_between 1 24 end_time)
        (option_map (λ s_id. action.InsertForwarding (record { s_id = s_id; sf_type = sf_type; start_time = start_time; end_time = end_time; numberx = numberx })) bearer_id)) result }
{
    let edit = checked::insert_forwarding(bearer_id, sf_type, start_time, end_time, numberx)?;
    Ok(Task::InsertForwarding(edit))
}

/// Makes the task of DELETE_CALL_FORWARDING for the subscriber who has the number. Its refusals, in order, are `Field`
/// if sf_type isn't in 1..=4 or start_time isn't 0, 8 or 16, and `NoNumber` if nobody has it.
pub(crate) fn delete_forwarding(
    bearer_id: Option<u32>,
    sf_type: u64,
    start_time: u64,
) -> Result<Task, Refusal>
    requires { (s_id : ℕ) → bearer_id ≡ Some s_id → IsWithin 1 (LAST_SUBSCRIBER + 1) s_id }
    ensures { IsTaskFor (checked (has_forwarding_key sf_type start_time) (option_map (λ s_id. action.DeleteForwarding s_id sf_type start_time) bearer_id)) result }
{
    let edit = checked::delete_forwarding(bearer_id, sf_type, start_time)?;
    Ok(Task::DeleteForwarding(edit))
}

/// Makes the task that adds an Access_Info row. It refuses no row.
pub(crate) fn add_access(row: Access) -> Result<Task, Refusal>
    ensures { IsTaskFor (Ok (action.AddAccess row)) result }
{
    // For the prover: the row is in range, as its reader says.
    let _s_id = row.s_id();
    Ok(Task::AddAccess(AddAccess { row }))
}

/// Makes the task that adds a Special_Facility row. It refuses no row.
pub(crate) fn add_facility(row: Facility) -> Result<Task, Refusal>
    ensures { IsTaskFor (Ok (action.AddFacility row)) result }
{
    // For the prover: the row is in range, as its reader says.
    let _s_id = row.s_id();
    Ok(Task::AddFacility(AddFacility { row }))
}
