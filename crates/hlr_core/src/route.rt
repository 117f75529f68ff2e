//! Decides where an event goes while parts are lent: some replies are known at once, some events are done by the
//! holding of a part, wherever that is, and the others by the register itself.
ghost use Rattle.std.specs.Prelude.{◌≡◌, ◌↔◌, ◌≤◌, Result, true, false, length};
ghost use Rattle.hlr_core.specs.Home.{AreHome, IsBearerHome, WorksOn, is_by_number};
ghost use Rattle.hlr_core.specs.Inside.Routed.{IsTaskFor, makes_change};
ghost use Rattle.hlr_core.specs.Kept.{is_on_rows};
ghost use Rattle.hlr_core.specs.Route.{IsRouted, is_here};
ghost use Rattle.hlr_core.specs.Step.{action_for};
ghost use Rattle.hlr_core.specs.Tasks.{route_of};
ghost use Rattle.hlr_core.specs.declared.event.Event.{Event as Events};
ghost use Rattle.hlr_core.specs.declared.event.Event.TheVariants as event;
ghost use Rattle.part_table.specs.Regions.{parts_of};
ghost use Rattle.hlr_owners.specs.Owners.{AreOwners, IsHomeFor, IsHomeFrom, IsPartHome, OwnersState, book_in};
ghost use Rattle.tatp_actions.specs.declared.action.Action.{Action as Actions};
ghost use Rattle.tatp_rows.specs.declared.refusal.Refusal.{Refusal as Refusals};

use crate::event::{Event, Reply};
use crate::register::Register;
use crate::task::Task;
use crate::tasks;
use holding::Job;
use part_table::Place;
use tatp_rows::{LAST_SUBSCRIBER, Number, Refusal, in_range};

/// The way of an event.
#[derive(Debug, PartialEq, Eq, Drop)]
pub enum Route {
    /// The reply is known at once, and the event changes nothing.
    Now(Reply),
    /// The holding of this part does the event, as this job.
    To(u8, Job),
    /// The register itself does the event, which gives a number to a subscriber, moves regions, or makes or dissolves a
    /// part.
    Here,
}

/// The way of an event, with a task in place of a job, so that it takes few bytes.
#[derive(Clone, Copy, Debug, PartialEq, Eq)]
pub enum TaskRoute {
    /// The event is refused at once, and changes nothing.
    Refused(Refusal),
    /// The holding of this part does the event, as this task.
    To(u8, Task),
    /// The register itself does the event, which gives a number to a subscriber, moves regions, or makes or dissolves a
    /// part.
    Here,
}

/// A row of parts: those with the numbers `first..end`, or none if `end` isn't above `first`.
#[derive(Clone, Copy, Debug, PartialEq, Eq)]
pub struct Parts {
    /// The first of them.
    pub first: u8,
    /// The number behind the last of them, which is at most the number of parts.
    pub end: u8,
}

impl Parts {
    /// No part.
    const NONE: Parts = Parts { first: 0, end: 0 };
}

impl TaskRoute {
    /// Makes the route whose job the task is.
    pub fn to_route(&self) -> Route
        ensures { result ≡ route_of self.now }
    {
        match self {
            TaskRoute::Refused(why) => Route::Now(Reply::Refused(*why)),
            TaskRoute::To(part, task) => Route::To(*part, task.to_job()),
            TaskRoute::Here => Route::Here,
        }
    }
}

impl Register {
    /// Returns the parts on which an event works, and which `apply` needs home, no matter which parts are lent: the
    /// part of its subscriber; the part that posts, gives or takes; or the part that is divided, or that lies in front
    /// of one that is dissolved, and all parts behind it. There is no such part if the s_id is out of range, nobody has
    /// the number, a loose piece has the subscriber, or no part has this number or a higher one. It takes no memory.
    pub fn parts_for(&self, event: &Event) -> Parts
        ensures now { WorksOn event.now result self.now }
        ensures same { (h : OwnersState) → AreOwners h → h.regions ≡ self.now.regions → (book_in h.owners).subscribers ≡ (book_in self.now.owners).subscribers → WorksOn event.now result h }
        ensures here { is_by_number event.now ≡ false → (h : OwnersState) → AreOwners h → h.regions ≡ self.now.regions → WorksOn event.now result h }
        ensures few { result.end ≤ length (parts_of self.now.regions) }
    {
        self.owners.rules();
        let event = *event;
        match event {
            Event::SubscriberData { s_id }
            | Event::NewDestination { s_id, .. }
            | Event::AccessData { s_id, .. }
            | Event::UpdateSubscriber { s_id, .. }
            | Event::SetActive { s_id, .. }
            | Event::SetNumber { s_id, .. } => self.part_of(s_id),
            Event::UpdateLocation { sub_nbr, .. }
            | Event::InsertForwarding { sub_nbr, .. }
            | Event::DeleteForwarding { sub_nbr, .. } => self.part_of_bearer(sub_nbr),
            Event::AddSubscriber(row) => self.part_of(u64::from(row.s_id())),
            Event::AddAccess(row) => self.part_of(u64::from(row.s_id())),
            Event::AddFacility(row) => self.part_of(u64::from(row.s_id())),
            Event::Post { part, .. } | Event::Give { part, .. } | Event::Take { part, .. } => {
                self.part_numbered(part)
            }
            Event::Divide { part, .. } => self.parts_from(part),
            Event::Dissolve { part } => self.parts_from(part.saturating_sub(1)),
        }
    }

    /// Returns the part with this number, if there is one.
    fn part_numbered(&self, part: u64) -> Parts
        ensures home { (h : OwnersState) → AreOwners h → h.regions ≡ self.now.regions → AreHome result h ↔ IsPartHome part h }
        ensures few { result.end ≤ length (parts_of self.now.regions) }
    {
        if part >= u64::from(self.owners.parts()) {
            return Parts::NONE;
        }
        Parts {
            first: part as u8,
            end: part as u8 + 1,
        }
    }

    /// Returns the parts with this number and higher ones.
    fn parts_from(&self, part: u64) -> Parts
        ensures home { (h : OwnersState) → AreOwners h → h.regions ≡ self.now.regions → AreHome result h ↔ IsHomeFrom part h }
        ensures few { result.end ≤ length (parts_of self.now.regions) }
    {
        let end = self.owners.parts();
        if part >= u64::from(end) {
            return Parts::NONE;
        }
        Parts {
            first: part as u8,
            end,
        }
    }

    /// Returns the part that has a subscriber. There is none if a loose piece has the subscriber, or if the s_id is out
    /// of range.
    fn part_of(&self, s_id: u64) -> Parts
        ensures home { (h : OwnersState) → AreOwners h → h.regions ≡ self.now.regions → AreHome result h ↔ IsHomeFor s_id h }
        ensures few { result.end ≤ length (parts_of self.now.regions) }
    {
        let Ok(s_id) = in_range(s_id, LAST_SUBSCRIBER) else {
            return Parts::NONE;
        };
        match self.owners.regions().place(s_id) {
            Place::Part(part) => self.part_numbered(u64::from(part)),
            Place::Piece(_) => Parts::NONE,
        }
    }

    /// Returns the part that has the subscriber with a number, if there is one.
    fn part_of_bearer(&self, sub_nbr: Number) -> Parts
        ensures home { (h : OwnersState) → AreOwners h → h.regions ≡ self.now.regions → (book_in h.owners).subscribers ≡ (book_in self.now.owners).subscribers → AreHome result h ↔ IsBearerHome sub_nbr h }
        ensures few { result.end ≤ length (parts_of self.now.regions) }
    {
        self.owners.rules();
        match self.bearer(sub_nbr) {
            Some(s_id) => self.part_of(u64::from(s_id)),
            None => Parts::NONE,
        }
    }

    /// Returns where an event goes. A reply that is known at once is right, and changes nothing, regardless of what the
    /// holdings of the parts do meanwhile. A job that goes to a part is right regardless of what the other parts do. It
    /// takes no memory, no matter which parts are lent.
    pub fn route(&self, event: &Event) -> Route
        ensures { IsRouted event.now self.now result }
    {
        self.route_task(event).to_route()
    }

    /// Returns where an event goes, as `route` does, with a task in place of the job. A task has no room for a whole
    /// Subscriber row.
    pub fn route_task(&self, event: &Event) -> TaskRoute
        ensures { IsRouted event.now self.now (route_of result) }
    {
        let asked = *event;
        match asked {
            Event::SubscriberData { s_id } => self.route_asked(tasks::subscriber_data(s_id)),
            Event::NewDestination {
                s_id,
                sf_type,
                start_time,
                end_time,
            } => self.route_asked(tasks::new_destination(s_id, sf_type, start_time, end_time)),
            Event::AccessData { s_id, ai_type } => {
                self.route_asked(tasks::access_data(s_id, ai_type))
            }
            Event::Post { part, limit } => self.route_post(part, limit),
            _ => self.route_change(event),
        }
    }

    /// Returns where an event goes that changes rows, regions or parts: to a part if it changes the rows of that part
    /// alone, and otherwise to the register itself.
    fn route_change(&self, event: &Event) -> TaskRoute
        requires { makes_change event.now ≡ true }
        ensures { IsRouted event.now self.now (route_of result) }
    {
        let event = *event;
        match event {
            Event::UpdateSubscriber {
                s_id,
                sf_type,
                bit_1,
                data_a,
            } => self.route_asked(tasks::update_subscriber(s_id, sf_type, bit_1, data_a)),
            Event::UpdateLocation { .. }
            | Event::InsertForwarding { .. }
            | Event::DeleteForwarding { .. } => self.route_by_number(event),
            Event::AddAccess(row) => self.route_asked(tasks::add_access(row)),
            Event::AddFacility(row) => self.route_asked(tasks::add_facility(row)),
            Event::SetActive {
                s_id,
                sf_type,
                is_active,
            } => self.route_asked(tasks::set_active(s_id, sf_type, is_active)),
            _ => TaskRoute::Here,
        }
    }

    /// Returns where an event goes that names its subscriber by a number: to the part that has the subscriber. It is
    /// refused if nobody has the number, or if a loose piece has the subscriber.
    fn route_by_number(&self, event: Event) -> TaskRoute
        requires { is_by_number event ≡ true }
        ensures { IsRouted event self.now (route_of result) }
    {
        match event {
            Event::UpdateLocation {
                sub_nbr,
                vlr_location,
            } => self.route_asked(tasks::update_location(self.bearer(sub_nbr), vlr_location)),
            Event::InsertForwarding {
                sub_nbr,
                sf_type,
                start_time,
                end_time,
                numberx,
            } => {
                let s_id = self.bearer(sub_nbr);
                self.route_asked(tasks::insert_forwarding(
                    s_id, sf_type, start_time, end_time, numberx,
                ))
            }
            Event::DeleteForwarding {
                sub_nbr,
                sf_type,
                start_time,
            } => {
                let s_id = self.bearer(sub_nbr);
                self.route_asked(tasks::delete_forwarding(s_id, sf_type, start_time))
            }
            // No other event names its subscriber by a number.
            _ => unreachable!(),
        }
    }

    /// Sends a posting to its part, if there is such a part.
    fn route_post(&self, part: u64, limit: u64) -> TaskRoute
        ensures { IsRouted (event.Post part limit) self.now (route_of result) }
    {
        self.owners.rules();
        if part >= u64::from(self.owners.regions().parts()) {
            return TaskRoute::Refused(Refusal::NoPart);
        }
        TaskRoute::To(part as u8, Task::Post(limit))
    }

    /// Sends a task to the part that has its subscriber, or refuses it if a loose piece has the subscriber.
    fn route_asked(&self, asked: Result<Task, Refusal>) -> TaskRoute
        requires { (wanted : Result Actions Refusals) × IsTaskFor wanted asked }
        ensures { (event : Events) → is_on_rows event ≡ true → is_here event ≡ false → IsTaskFor (action_for event (book_in self.now.owners)) asked → IsRouted event self.now (route_of result) }
    {
        self.owners.rules();
        match asked {
            Ok(task) => match self.owners.regions().place(task.s_id()) {
                Place::Part(part) => TaskRoute::To(part, task),
                Place::Piece(_) => TaskRoute::Refused(Refusal::Moving),
            },
            Err(why) => TaskRoute::Refused(why),
        }
    }
}
