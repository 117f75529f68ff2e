//! The tasks of a part's holding, in few bytes.
ghost use Rattle.std.specs.Prelude.{◌≡◌, true, Result};
ghost use Rattle.holding.specs.declared.job.Job.TheVariants as job;
ghost use Rattle.tatp_actions.specs.Action.{s_id_of};
ghost use Rattle.tatp_actions.specs.Book.{IsWithin};
ghost use Rattle.tatp_actions.specs.declared.action.Action.{Action as Actions};
ghost use Rattle.tatp_actions.specs.declared.action.Action.TheVariants as action;
ghost use Rattle.tatp_rows.specs.declared.refusal.Refusal.{Refusal as Refusals};
ghost use Rattle.hlr_core.specs.Inside.Routed.{AsksFor, IsOn, administers, changes_rows};
ghost use Rattle.hlr_core.specs.Session.{IsActed, IsJobDone, IsWithinJob};
ghost use Rattle.hlr_core.specs.Tasks.{job_of};

use crate::event::Reply;
use crate::register::{access_reply, edited_reply, row_reply};
use holding::{Holding, Job};
use std::mem::size_of;
use tatp_actions::edit::{
    AddAccess, AddFacility, DeleteForwarding, InsertForwarding, SetActive, UpdateLocation,
    UpdateSubscriber,
};
use tatp_actions::{Action, Edit, RowReply};
use tatp_rows::{Refusal, is_between, is_start_time};
use view_board::Board;

/// A task for the holding of a part: an action that gives no number to a subscriber, or a posting. It takes 24 bytes,
/// while a `Job`, which has room for a Subscriber row, takes 72.
#[derive(Clone, Copy, Debug, PartialEq, Eq)]
pub enum Task {
    /// GET_SUBSCRIBER_DATA (TATP, section 3.1): reads the row.
    SubscriberData {
        /// The subscriber.
        s_id: u32,
    },
    /// GET_NEW_DESTINATION (TATP, section 3.2): reads the numbers of the forwardings of an active facility that start
    /// by one hour and end after another.
    NewDestination {
        /// The subscriber.
        s_id: u32,
        /// The type of the facility, 1..=4.
        sf_type: u8,
        /// The hour by which the forwardings start: 0, 8 or 16.
        start_time: u8,
        /// The hour after which they end, 1..=24.
        end_time: u8,
    },
    /// GET_ACCESS_DATA (TATP, section 3.3): reads data1 to data4.
    AccessData {
        /// The subscriber.
        s_id: u32,
        /// The type of the access, 1..=4.
        ai_type: u8,
    },
    /// UPDATE_SUBSCRIBER_DATA (TATP, section 3.4): sets bit_1 of the subscriber and data_a of the facility, or neither.
    UpdateSubscriber(UpdateSubscriber),
    /// UPDATE_LOCATION (TATP, section 3.5) by s_id: sets vlr_location.
    UpdateLocation(UpdateLocation),
    /// INSERT_CALL_FORWARDING (TATP, section 3.6) by s_id: adds a Call_Forwarding row.
    InsertForwarding(InsertForwarding),
    /// DELETE_CALL_FORWARDING (TATP, section 3.7) by s_id: removes a Call_Forwarding row.
    DeleteForwarding(DeleteForwarding),
    /// Adds an Access_Info row.
    AddAccess(AddAccess),
    /// Adds a Special_Facility row.
    AddFacility(AddFacility),
    /// Switches a facility on or off.
    SetActive(SetActive),
    /// Posts at most so many cells.
    Post(u64),
}

const _: () = prove!(size_of::<Task>() == 24);

/// Makes the reply to a read of the Subscriber row of one of the holding's subscribers.
fn read_subscriber(holding: &Holding, s_id: u32) -> Reply
    requires { IsWithin holding.now.part.lo holding.now.part.hi s_id }
    ensures { IsActed (action.SubscriberData s_id) holding.now result holding.now }
{
    holding.rules();
    row_reply(holding.lend_subscriber(s_id).ok_or(Refusal::NoSubscriber))
}

/// Makes the reply to a read of an access of such a subscriber. It is refused with `Field` if ai_type isn't in 1..=4.
fn read_access(holding: &Holding, s_id: u32, ai_type: u8) -> Reply
    requires { IsWithin holding.now.part.lo holding.now.part.hi s_id }
    ensures { IsActed (action.AccessData s_id ai_type) holding.now result holding.now }
{
    holding.rules();
    if !is_between(ai_type, 1, 4) {
        return Reply::Refused(Refusal::Field);
    }
    access_reply(holding.lend_access(s_id, ai_type).ok_or(Refusal::NoAccess))
}

/// Makes the reply to a read of the numbers to which a facility of such a subscriber forwards a call. It is refused
/// with `Field` if sf_type isn't in 1..=4, start_time isn't 0, 8 or 16, or end_time isn't in 1..=24.
fn read_destinations(
    holding: &Holding,
    s_id: u32,
    sf_type: u8,
    start_time: u8,
    end_time: u8,
) -> Reply
    requires { IsWithin holding.now.part.lo holding.now.part.hi s_id }
    ensures { IsActed (action.NewDestination s_id sf_type start_time end_time) holding.now result holding.now }
{
    holding.rules();
    if !is_between(sf_type, 1, 4)
        || !is_start_time(u64::from(start_time))
        || !is_between(end_time, 1, 24)
    {
        return Reply::Refused(Refusal::Field);
    }
    let numbers = holding.destinations(s_id, sf_type, start_time, end_time);
    if numbers.is_empty() {
        return Reply::Refused(Refusal::NoDestination);
    }
    Reply::Rows(RowReply::Numbers(numbers))
}

/// Does an edit of the holding's rows, and makes the reply to it.
fn edited<E: Edit>(holding: &mut Holding, edit: E) -> Reply
    requires { IsWithin holding.old.part.lo holding.old.part.hi (s_id_of (E.action edit)) }
    ensures { IsActed (E.action edit) holding.old result holding.new }
{
    edited_reply(holding.edit(edit))
}

impl Task {
    /// Makes the job that this task is.
    pub fn to_job(&self) -> Job
        ensures { result ≡ job_of self.now }
    {
        match *self {
            Task::SubscriberData { s_id } => Job::Act(Action::SubscriberData { s_id }),
            Task::NewDestination {
                s_id,
                sf_type,
                start_time,
                end_time,
            } => Job::Act(Action::NewDestination {
                s_id,
                sf_type,
                start_time,
                end_time,
            }),
            Task::AccessData { s_id, ai_type } => Job::Act(Action::AccessData { s_id, ai_type }),
            Task::Post(limit) => Job::Post(limit),
            _ => Job::Act(self.to_change()),
        }
    }

    /// Makes the action of a task that changes rows.
    fn to_change(&self) -> Action
        requires { changes_rows self.now ≡ true }
        ensures { job.Act result ≡ job_of self.now }
    {
        match *self {
            Task::UpdateSubscriber(edit) => Action::UpdateSubscriber {
                s_id: edit.s_id,
                sf_type: edit.sf_type,
                bit_1: edit.bit_1,
                data_a: edit.data_a,
            },
            Task::UpdateLocation(edit) => Action::UpdateLocation {
                s_id: edit.s_id,
                vlr_location: edit.vlr_location.get(),
            },
            Task::InsertForwarding(edit) => Action::InsertForwarding(edit.row),
            Task::DeleteForwarding(edit) => Action::DeleteForwarding {
                s_id: edit.s_id,
                sf_type: edit.sf_type,
                start_time: edit.start_time,
            },
            _ => self.to_administration(),
        }
    }

    /// Makes the action of a task that is an administrative command.
    fn to_administration(&self) -> Action
        requires { administers self.now ≡ true }
        ensures { job.Act result ≡ job_of self.now }
    {
        match *self {
            Task::AddAccess(edit) => Action::AddAccess(edit.row),
            Task::AddFacility(edit) => Action::AddFacility(edit.row),
            Task::SetActive(edit) => Action::SetActive {
                s_id: edit.s_id,
                sf_type: edit.sf_type,
                is_active: edit.is_active,
            },
            // No other task is an administrative command.
            _ => unreachable!(),
        }
    }

    /// Returns the subscriber whose rows an action is on.
    pub(crate) fn s_id(&self) -> u32
        requires { (wanted : Result Actions Refusals) × AsksFor wanted (job_of self.now) }
        ensures { IsOn result (job_of self.now) }
    {
        match *self {
            Task::SubscriberData { s_id }
            | Task::NewDestination { s_id, .. }
            | Task::AccessData { s_id, .. } => s_id,
            Task::UpdateSubscriber(edit) => edit.s_id,
            Task::UpdateLocation(edit) => edit.s_id,
            Task::InsertForwarding(edit) => edit.row.s_id(),
            Task::DeleteForwarding(edit) => edit.s_id,
            Task::AddAccess(edit) => edit.row.s_id(),
            Task::AddFacility(edit) => edit.row.s_id(),
            Task::SetActive(edit) => edit.s_id,
            Task::Post(_) => unreachable!(),
        }
    }

    /// Has a holding do the task, as the job that it is, and returns the reply. Its refusals, in order, are `Field` if
    /// a field is out of its range, and then those of the rows, where `Memory` comes only if a row is added; a posting
    /// may return `Worn`. After any refusal except `Worn` the holding is as before.
    pub fn carry_out(self, holding: &mut Holding, board: &Board) -> Reply
        requires board { holding.old.desk.board ≡ board.now }
        requires within { IsWithinJob holding.old (job_of self) }
        ensures { IsJobDone (job_of self) holding.old result holding.new }
    {
        match self {
            Task::SubscriberData { s_id } => read_subscriber(holding, s_id),
            Task::NewDestination {
                s_id,
                sf_type,
                start_time,
                end_time,
            } => read_destinations(holding, s_id, sf_type, start_time, end_time),
            Task::AccessData { s_id, ai_type } => read_access(holding, s_id, ai_type),
            Task::Post(limit) => Reply::of_posting(holding.post(board, limit)),
            _ => self.change(holding),
        }
    }

    /// Has a holding do a task that changes rows.
    fn change(self, holding: &mut Holding) -> Reply
        requires rows { changes_rows self ≡ true }
        requires within { IsWithinJob holding.old (job_of self) }
        ensures { IsJobDone (job_of self) holding.old result holding.new }
    {
        match self {
            Task::UpdateSubscriber(edit) => edited(holding, edit),
            Task::UpdateLocation(edit) => edited(holding, edit),
            Task::InsertForwarding(edit) => edited(holding, edit),
            Task::DeleteForwarding(edit) => edited(holding, edit),
            _ => self.administer(holding),
        }
    }

    /// Has a holding do a task that is an administrative command.
    fn administer(self, holding: &mut Holding) -> Reply
        requires rows { administers self ≡ true }
        requires within { IsWithinJob holding.old (job_of self) }
        ensures { IsJobDone (job_of self) holding.old result holding.new }
    {
        match self {
            Task::AddAccess(edit) => edited(holding, edit),
            Task::AddFacility(edit) => edited(holding, edit),
            Task::SetActive(edit) => edited(holding, edit),
            // No other task is an administrative command.
            _ => unreachable!(),
        }
    }
}
