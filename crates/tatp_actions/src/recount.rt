//! The counts of a part, made anew from its rows, and its first subscriber from an s_id on.
ghost use Rattle.std.specs.Prelude.{◌≡◌, ℕ, ◌-◌, ◌<◌, ◌≤◌, true, slice_index, replicate, option_copied};
ghost use Rattle.tatp_rows.specs.Rows.{forwarding_in_range};
ghost use Rattle.tatp_rows.specs.Zones.{area_of};
ghost use Rattle.tatp_actions.specs.Book.{first_subscriber};
ghost use Rattle.tatp_actions.specs.Cell.{cell};
ghost use Rattle.tatp_actions.specs.Recount.{one_more_in, one_more_from, with_row_of, with_subscriber, is_active_at, is_active_in, with_forwarding};

use crate::cells::{CELLS, Cells, FIRST_AREA, FIRST_ZONE};
use crate::part::Part;
use crate::trees::KEY_SHIFT;
use group_tree::GroupTree;
use row_groups::Facilities;
use std::marker::Model;
use tatp_rows::{
    Facility, Forwarding, LAST_SUBSCRIBER, Subscriber, area, row_key, subscriber_key, zone,
};

/// The counts of the rows so far, given a zone width and the facilities of a part. Rows come in the order of their
/// keys. So the zone of the last subscriber, and whether the last facility that was asked for is active, can be used
/// again for the rows that follow.
#[derive(Drop)]
pub(crate) struct Tally<'a> {
    cells: Cells,
    facilities: &'a GroupTree<Facility, Facilities>,
    width: u32,
    s_id: u32,
    zone: u8,
    facility: u64,
    is_active: bool,
}

impl<'a> Model for Tally<'a> {
    ghost use Rattle.std.specs.Prelude.{◌≡◌};
    ghost use Rattle.tatp_rows.specs.Zones.{zone_of};
    ghost use Rattle.tatp_actions.specs.Recount.{Tallied, is_active_at};

    ghost Value = { Tallied };

    ghost view = { λ t. record { cells = t.cells; facilities = t.facilities.now.rows; width = t.width } };

    ghost invariant = { λ t. (t.zone ≡ zone_of t.width t.s_id) × (t.is_active ≡ is_active_at t.facility t.facilities.now.rows) };
}

/// Adds one to the count of a cell, if the count has room.
fn count_with_room(cells: &mut Cells, cell: u8)
    requires { cell < CELLS }
    ensures { cells.new ≡ one_more_in cell cells.old }
{
    if cells.get(cell) < u64::MAX {
        cells.count_one(cell);
    }
}

/// Adds one to the count of each hour from one up to another. The second hour isn't included.
fn count_hours(cells: &mut Cells, from: u8, to: u8)
    requires { to ≤ FIRST_AREA }
    ensures { cells.new ≡ one_more_from from (to - from) cells.old }
{
    for hour in from..to {
        count_with_room(cells, hour);
    }
}

/// Returns whether there is a facility at a key, and it is active.
fn is_active(facilities: &GroupTree<Facility, Facilities>, key: u64) -> bool
    ensures { result ≡ is_active_at key facilities.now.rows }
{
    match facilities.get_by_guess(key, KEY_SHIFT) {
        Some(facility) => facility.is_active(),
        None => false,
    }
}

impl<'a> Tally<'a> {
    /// Makes a tally in which no row is counted yet.
    pub(crate) fn zero(facilities: &'a GroupTree<Facility, Facilities>, width: u32) -> Self
        ensures { result ≡ record { cells = replicate CELLS 0; facilities = facilities.now.rows; width = width } }
    {
        Tally {
            cells: Cells::zero(),
            facilities,
            width,
            s_id: 0,
            zone: zone(0, width),
            facility: 0,
            is_active: is_active(facilities, 0),
        }
    }

    /// Returns the count of each cell.
    pub(crate) fn cells(&self) -> Cells
        ensures { result ≡ self.now.cells }
    {
        self.cells
    }

    /// Counts a row of a subscriber in the cell of its zone, which is the only cell of a row of Access_Info or
    /// Special_Facility.
    pub(crate) fn count_row(&mut self, s_id: u32)
        ensures { self.new ≡ record self.old { cells = with_row_of self.old.width s_id self.old.cells } }
    {
        if s_id != self.s_id {
            self.s_id = s_id;
            self.zone = zone(s_id, self.width);
        }
        count_with_room(&mut self.cells, FIRST_ZONE + self.zone);
    }

    /// Counts a Subscriber row.
    fn count_subscriber(&mut self, row: &Subscriber)
        ensures area { area_of row.now.vlr_location < 16 }
        ensures counts { self.new ≡ record self.old { cells = with_subscriber self.old.width row.now self.old.cells } }
    {
        count_with_room(&mut self.cells, FIRST_AREA + area(row.vlr_location()));
        self.count_row(row.s_id());
    }

    /// Counts a Call_Forwarding row.
    pub(crate) fn count_forwarding(&mut self, row: &Forwarding)
        ensures range { forwarding_in_range row.now ≡ true }
        ensures counts { self.new ≡ record self.old { cells = with_forwarding self.old.width (is_active_in self.old.facilities row.now) row.now self.old.cells } }
    {
        let facility = row_key(row.s_id(), row.sf_type(), 0);
        if facility != self.facility {
            self.facility = facility;
            self.is_active = is_active(self.facilities, facility);
        }
        if self.is_active {
            count_hours(&mut self.cells, row.start_time(), row.end_time());
        }
        self.count_row(row.s_id());
    }
}

impl Part {
    /// Counts each cell by a walk over all rows.
    pub fn recount(&self) -> Cells
        ensures { (c : ℕ) → c < CELLS → slice_index result c ≡ cell self.now.width c self.now.book }
    {
        let rows = &self.rows;
        let mut tally = Tally::zero(&rows.facilities, self.width);
        rows.subscribers
            .walk(&mut tally, &|tally, _, row| tally.count_subscriber(row));
        rows.access
            .walk(&mut tally, &|tally, _, row| tally.count_row(row.s_id()));
        rows.facilities
            .walk(&mut tally, &|tally, _, row| tally.count_row(row.s_id()));
        rows.forwardings
            .walk(&mut tally, &|tally, _, row| tally.count_forwarding(row));
        tally.cells()
    }

    /// Finds the first Subscriber row of the part whose s_id is this one or higher. It returns `None` if there is none,
    /// for example past 16,777,216.
    pub fn first_sub_from(&self, s_id: u64) -> Option<&Subscriber>
        ensures { option_copied result ≡ first_subscriber s_id self.now.book.subscribers }
    {
        let tree = &self.rows.subscribers;
        let last = u64::from(LAST_SUBSCRIBER);
        if s_id > last {
            return None;
        }
        let (_, row) = tree.first_from(subscriber_key(s_id as u32))?;
        Some(row)
    }
}
