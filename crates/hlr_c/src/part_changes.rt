//! The calls that change rows of a lent part, and the one that posts its cells.
ghost use Rattle.std.specs.Prelude.{◌≡◌, true, false, None, Ok, IfOk, OnErr};
ghost use Rattle.tatp_rows.specs.Rows.{is_between};
ghost use Rattle.tatp_actions.specs.declared.action.Action.TheVariants as action;
ghost use Rattle.holding.specs.Held.{IsHolding};
ghost use Rattle.hlr_core.specs.Edits.{IsAskedAlone, action_asked};
ghost use Rattle.hlr_core.specs.Step.{given_number, posted_reply};
ghost use Rattle.hlr_c.specs.Asked.{part_access_asked, part_facility_asked, part_insertion_asked};
ghost use Rattle.hlr_c.specs.Call.{IsCall};
ghost use Rattle.hlr_c.specs.Parts.{IsPartEdit, IsPartPost, code_elsewhere};
ghost use Rattle.hlr_c.specs.Told.{posted_told};
ghost use Rattle.hlr_c.specs.declared.codes.TheConstants.{NOT_OPEN};

use crate::changes::{access_of, facility_of};
use crate::codes::{DONE, ELSEWHERE, code_of_change};
use crate::part::{HlrPart, with_part};
use crate::part_reads::has;
use crate::rows::{HlrAccess, HlrFacility};
use hlr_core::{Forwarding, Number, Refusal, byte, checked};
use hlr_lent::LentPart;
use std::alloc::Global;
use tatp_actions::Edit;
use tatp_actions::edit::{
    AddAccess, AddFacility, DeleteForwarding, InsertForwarding, UpdateLocation,
};
use tatp_rows::{LAST_SUBSCRIBER, in_range};

fn location_update(s_id: u64, vlr_location: u64) -> Result<UpdateLocation, Refusal>
    ensures { IsAskedAlone (action.UpdateLocation s_id vlr_location) (action_asked ⟦<UpdateLocation as Edit>⟧.action result) }
{
    Ok(UpdateLocation {
        s_id: in_range(s_id, LAST_SUBSCRIBER)?,
        vlr_location: checked::location(vlr_location)?,
    })
}

fn insertion(
    s_id: u64,
    sf_type: u64,
    start_time: u64,
    end_time: u64,
    numberx: Number,
) -> Result<InsertForwarding, Refusal>
    ensures { IsAskedAlone (action.InsertForwarding (record { s_id = s_id; sf_type = sf_type; start_time = start_time; end_time = end_time; numberx = numberx })) (action_asked ⟦<InsertForwarding as Edit>⟧.action result) }
{
    let row = Forwarding::try_new(s_id, sf_type, start_time, end_time, numberx)?;
    Ok(InsertForwarding { row })
}

fn deletion(s_id: u64, sf_type: u64, start_time: u64) -> Result<DeleteForwarding, Refusal>
    ensures { IsAskedAlone (action.DeleteForwarding s_id sf_type start_time) (action_asked ⟦<DeleteForwarding as Edit>⟧.action result) }
{
    Ok(DeleteForwarding {
        s_id: in_range(s_id, LAST_SUBSCRIBER)?,
        sf_type: byte(sf_type)?,
        start_time: byte(start_time)?,
    })
}

/// Returns the code of a change for a subscriber who isn't in the part's range.
#[inline(never)]
fn code_elsewhere<E: Edit>(edit: E) -> u8
    ensures { result ≡ code_elsewhere (E.action edit) }
{
    if edit.to_action().is_in_range() {
        ELSEWHERE
    } else {
        Refusal::Field.code()
    }
}

/// Does a change that gives no number to a subscriber, unless a field was refused.
fn edit<E: Edit>(part: &mut LentPart, asked: Result<E, Refusal>) -> u8
    requires { IfOk asked (λ edit. given_number (E.action edit) ≡ None) }
    ensures edit { IsPartEdit (action_asked E.action asked) part.old result part.new }
    ensures rules { IsHolding part.old }
{
    part.rules();
    let edit = match asked {
        Ok(edit) => edit,
        Err(why) => return why.code(),
    };
    if !has(part, u64::from(edit.s_id())) {
        return code_elsewhere(edit);
    }
    code_of_change(part.edit(edit))
}

fn update_subscriber(part: &mut LentPart, s_id: u64, sf_type: u64, bit_1: u64, data_a: u64) -> u8
    ensures { IsPartEdit (Ok (action.UpdateSubscriber s_id sf_type bit_1 data_a)) part.old result part.new }
{
    edit(
        part,
        checked::update_subscriber(s_id, sf_type, bit_1, data_a),
    )
}

fn update_location(part: &mut LentPart, s_id: u64, vlr_location: u64) -> u8
    ensures { IsPartEdit (Ok (action.UpdateLocation s_id vlr_location)) part.old result part.new }
{
    edit(part, location_update(s_id, vlr_location))
}

fn insert_forwarding(
    part: &mut LentPart,
    s_id: u64,
    sf_type: u64,
    start_time: u64,
    end_time: u64,
    numberx: u64,
) -> u8
    ensures { IsPartEdit (part_insertion_asked s_id sf_type start_time end_time numberx) part.old result part.new }
{
    match Number::try_new(numberx) {
        Ok(numberx) => edit(
            part,
            insertion(s_id, sf_type, start_time, end_time, numberx),
        ),
        Err(why) => why.code(),
    }
}

fn delete_forwarding(part: &mut LentPart, s_id: u64, sf_type: u64, start_time: u64) -> u8
    ensures { IsPartEdit (Ok (action.DeleteForwarding s_id sf_type start_time)) part.old result part.new }
{
    edit(part, deletion(s_id, sf_type, start_time))
}

fn set_active(part: &mut LentPart, s_id: u64, sf_type: u64, is_active: u64) -> u8
    ensures { IsPartEdit (Ok (action.SetActive s_id sf_type is_active)) part.old result part.new }
{
    edit(part, checked::set_active(s_id, sf_type, is_active))
}

fn add_access(part: &mut LentPart, row: &HlrAccess) -> u8
    ensures { IsPartEdit (part_access_asked row.now) part.old result part.new }
{
    match access_of(row) {
        Ok(row) => edit(part, Ok(AddAccess { row })),
        Err(why) => why.code(),
    }
}

fn add_facility(part: &mut LentPart, row: &HlrFacility) -> u8
    ensures { IsPartEdit (part_facility_asked row.now) part.old result part.new }
{
    match facility_of(row) {
        Ok(row) => edit(part, Ok(AddFacility { row })),
        Err(why) => why.code(),
    }
}

fn post(part: &mut LentPart, limit: u64, posted: &mut u64) -> u8
    ensures { IsPartPost limit posted.old part.old (result, posted.new) part.new }
{
    match part.post(limit) {
        Ok(count) => {
            *posted = u64::from(count);
            DONE
        }
        Err(why) => why.code(),
    }
}

/// Does UPDATE_SUBSCRIBER_DATA (TATP, section 3.4) on a lent part. Its refusals, in order, are `NOT_OPEN`, `Field` if
/// s_id isn't in 1..=16,777,216, sf_type isn't in 1..=4, bit_1 isn't in 0..=1 or data_a isn't in 0..=255, `ELSEWHERE`
/// if s_id isn't in the part's range, `NoSubscriber`, and `NoFacility`.
#[unsafe(no_mangle)]
pub extern "C" fn hlr_part_update_subscriber(
    alloc: Global,
    part: &mut HlrPart,
    s_id: u64,
    sf_type: u64,
    bit_1: u64,
    data_a: u64,
) -> u8
    ensures { IsCall NOT_OPEN (IsPartEdit (Ok (action.UpdateSubscriber s_id sf_type bit_1 data_a)))
        part.old.kept.part result part.new.kept.part }
{
    with_part!(part, alloc, |lent| {
        update_subscriber(&mut lent, s_id, sf_type, bit_1, data_a)
    })
}

/// Does UPDATE_LOCATION (TATP, section 3.5) on a lent part, by s_id. Its refusals, in order, are `NOT_OPEN`, `Field` if
/// s_id isn't in 1..=16,777,216 or vlr_location isn't in 1..=4,294,967,295, `ELSEWHERE`, and `NoSubscriber`.
#[unsafe(no_mangle)]
pub extern "C" fn hlr_part_update_location(
    alloc: Global,
    part: &mut HlrPart,
    s_id: u64,
    vlr_location: u64,
) -> u8
    ensures { IsCall NOT_OPEN (IsPartEdit (Ok (action.UpdateLocation s_id vlr_location)))
        part.old.kept.part result part.new.kept.part }
{
    with_part!(part, alloc, |lent| {
        update_location(&mut lent, s_id, vlr_location)
    })
}

/// Does INSERT_CALL_FORWARDING (TATP, section 3.6) on a lent part, by s_id. Its refusals, in order, are `NOT_OPEN`,
/// `Field` if s_id isn't in 1..=16,777,216, sf_type isn't in 1..=4, start_time isn't 0, 8 or 16, end_time isn't in
/// 1..=24 or numberx isn't below 10^15, `ELSEWHERE`, `NoFacility`, also if there is no such subscriber, `Exists`, and
/// `Memory`.
#[unsafe(no_mangle)]
pub extern "C" fn hlr_part_insert_forwarding(
    alloc: Global,
    part: &mut HlrPart,
    s_id: u64,
    sf_type: u64,
    start_time: u64,
    end_time: u64,
    numberx: u64,
) -> u8
    ensures { IsCall NOT_OPEN (IsPartEdit (part_insertion_asked s_id sf_type start_time end_time numberx))
        part.old.kept.part result part.new.kept.part }
{
    with_part!(part, alloc, |lent| {
        insert_forwarding(&mut lent, s_id, sf_type, start_time, end_time, numberx)
    })
}

/// Does DELETE_CALL_FORWARDING (TATP, section 3.7) on a lent part, by s_id. Its refusals, in order, are `NOT_OPEN`,
/// `Field` if s_id isn't in 1..=16,777,216, sf_type isn't in 1..=4 or start_time isn't 0, 8 or 16, `ELSEWHERE`, and
/// `NoForwarding`, also if there is no such subscriber.
#[unsafe(no_mangle)]
pub extern "C" fn hlr_part_delete_forwarding(
    alloc: Global,
    part: &mut HlrPart,
    s_id: u64,
    sf_type: u64,
    start_time: u64,
) -> u8
    ensures { IsCall NOT_OPEN (IsPartEdit (Ok (action.DeleteForwarding s_id sf_type start_time)))
        part.old.kept.part result part.new.kept.part }
{
    with_part!(part, alloc, |lent| {
        delete_forwarding(&mut lent, s_id, sf_type, start_time)
    })
}

/// Switches a facility of a lent part on or off, and with it all of its forwardings. Its refusals, in order, are
/// `NOT_OPEN`, `Field` if s_id isn't in 1..=16,777,216, sf_type isn't in 1..=4 or is_active isn't in 0..=1,
/// `ELSEWHERE`, and `NoFacility`, also if there is no such subscriber.
#[unsafe(no_mangle)]
pub extern "C" fn hlr_part_set_active(
    alloc: Global,
    part: &mut HlrPart,
    s_id: u64,
    sf_type: u64,
    is_active: u64,
) -> u8
    ensures { IsCall NOT_OPEN (IsPartEdit (Ok (action.SetActive s_id sf_type is_active)))
        part.old.kept.part result part.new.kept.part }
{
    with_part!(part, alloc, |lent| {
        set_active(&mut lent, s_id, sf_type, is_active)
    })
}

/// Adds an Access_Info row to a lent part. Its refusals, in order, are `NOT_OPEN`, `Field` if a field is out of its
/// range, `ELSEWHERE`, `NoSubscriber`, `Exists`, and `Memory`.
#[unsafe(no_mangle)]
pub extern "C" fn hlr_part_add_access(alloc: Global, part: &mut HlrPart, row: &HlrAccess) -> u8
    ensures { IsCall NOT_OPEN (IsPartEdit (part_access_asked row.now))
        part.old.kept.part result part.new.kept.part }
{
    with_part!(part, alloc, |lent| { add_access(&mut lent, row) })
}

/// Adds a Special_Facility row to a lent part. Its refusals, in order, are `NOT_OPEN`, `Field` if a field is out of its
/// range, `ELSEWHERE`, `NoSubscriber`, `Exists`, and `Memory`.
#[unsafe(no_mangle)]
pub extern "C" fn hlr_part_add_facility(alloc: Global, part: &mut HlrPart, row: &HlrFacility) -> u8
    ensures { IsCall NOT_OPEN (IsPartEdit (part_facility_asked row.now))
        part.old.kept.part result part.new.kept.part }
{
    with_part!(part, alloc, |lent| { add_facility(&mut lent, row) })
}

/// Posts the first `limit` unposted cells of a lent part, in ascending order, and writes how many it posted. Its
/// refusals, in order, are `NOT_OPEN` and `Worn`, after which the cells that were posted before stay posted.
#[unsafe(no_mangle)]
pub extern "C" fn hlr_part_post(
    alloc: Global,
    part: &mut HlrPart,
    limit: u64,
    posted: &mut u64,
) -> u8
    ensures { IsCall (NOT_OPEN, posted.old) (IsPartPost limit posted.old)
        part.old.kept.part (result, posted.new) part.new.kept.part }
{
    with_part!(part, alloc, |lent| { post(&mut lent, limit, posted) })
}
