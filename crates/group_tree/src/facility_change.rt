//! The change of a facility where it lies in its group.
ghost use Rattle.std.specs.Prelude.{◌≡◌};
ghost use Rattle.group_tree.specs.Revised.{facility_in, group_changed, change_spent, row_made};

use crate::keys::{checked_s_id_in, start_time_in, type_in};
use mr_node::Revise;
use row_groups::Facilities;
use tatp_rows::Facility;

/// Returns the facility at a key in the group of its subscriber, or `None` if there is none.
fn facility_in(group: &Facilities, key: u64) -> Option<Facility>
    ensures { result ≡ facility_in key group.now }
{
    if start_time_in(key) != 0 {
        return None;
    }
    group.get(checked_s_id_in(key)?, type_in(key))
}

/// A change of the facility at a key, as a change of the group in which it lies. It keeps the row that it made.
#[derive(Drop)]
pub(crate) struct FacilityChange<'a, E> {
    pub(crate) key: u64,
    pub(crate) change: &'a mut E,
    pub(crate) made: Option<Facility>,
}

impl<'a, E: Revise<Facility>> Revise<Facilities> for FacilityChange<'a, E> {
    ghost revised = { λ within group. group_changed (E.revised within.change.now) (facility_in within.key group) group };

    ghost spent = { λ within group. record within {
      change = record within.change { now = change_spent E.spent within.change.now (facility_in within.key group) };
      made = row_made (E.revised within.change.now) within.made (facility_in within.key group);
    } };

    fn revise(&mut self, group: &mut Facilities) {
        let Some(mut row) = facility_in(group, self.key) else {
            return;
        };
        self.change.revise(&mut row);
        let _ = group.replace(&row);
        self.made = Some(row);
    }
}
