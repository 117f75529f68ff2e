//! The facilities of a subscriber as a group.
ghost use Rattle.std.specs.Prelude.{◌≡◌, is_some, IfSome};
ghost use Rattle.tatp_rows.specs.Keys.{facility_key};
ghost use Rattle.mr_node.specs.Revisions.{revised_at, spent_at};
ghost use Rattle.mr_node.specs.Rows.{value_at};

use crate::facility_change::FacilityChange;
use crate::group::{Group, Row};
use crate::keys::{checked_s_id_in, s_id_in, start_time_in, type_in};
use crate::tree::GroupTree;
use mr_node::Revise;
use row_groups::Facilities;
use tatp_rows::Facility;

impl Row for Facility {
    ghost use Rattle.tatp_rows.specs.Keys.{facility_key};

    ghost row_key = { facility_key };

    fn key(&self) -> u64 {
        Facility::key(self)
    }
}

impl Group<Facility> for Facilities {
    ghost use Rattle.group_tree.specs.Tables.{HoldsFacilities, facilities_listed, subscriber_span, typed_key_in};

    ghost span = { subscriber_span };

    ghost listed = { facilities_listed };

    ghost key_in = { typed_key_in };

    ghost Holds = { HoldsFacilities };

    fn base(key: u64) -> u64 {
        key / 65_536 * 65_536
    }

    fn of(row: &Facility) -> Self {
        // For the prover: a row is in range, as its reader says.
        let _s_id = row.s_id();
        Facilities::of(row)
    }

    fn len(&self) -> usize {
        Facilities::len(self)
    }

    fn find(&self, key: u64) -> Option<Facility> {
        if start_time_in(key) != 0 {
            return None;
        }
        self.get(s_id_in(key), type_in(key))
    }

    fn row_in(&self, base: u64, place: u8) -> Option<(u64, Facility)> {
        let sf_type = place + 1;
        let row = self.get(checked_s_id_in(base)?, sf_type)?;
        Some((base + 256 * u64::from(sf_type), row))
    }

    fn insert(&mut self, row: &Facility) -> bool {
        // For the prover: a row is in range, as its reader says.
        let _s_id = row.s_id();
        Facilities::insert(self, row).is_ok()
    }

    fn replace(&mut self, row: &Facility) -> Option<Facility> {
        // For the prover: a row is in range, as its reader says.
        let _s_id = row.s_id();
        Facilities::replace(self, row)
    }

    fn remove(&mut self, key: u64) -> Option<Facility> {
        if start_time_in(key) != 0 {
            return None;
        }
        Facilities::remove(self, s_id_in(key), type_in(key))
    }

    ghost use Rattle.group_tree.specs.Rules.{facility_laws};

    ghost laws = { facility_laws };
}

impl GroupTree<Facility, Facilities> {
    /// Changes the row at a key where it lies, which keeps its key. It returns false if there is none, and then nothing
    /// has changed. It first looks where the group is in a dense tree, as `get_by_guess` does. It takes no memory.
    pub fn revise_by_guess<E: Revise<Facility>>(
        &mut self,
        key: u64,
        shift: u32,
        revision: &mut E,
    ) -> bool
        requires { IfSome (value_at key self.old.rows) (λ row. facility_key (E.revised revision.old row) ≡ key) }
        ensures rows { self.new ≡ record self.old { rows = revised_at key (E.revised revision.old) self.old.rows } }
        ensures spent { revision.new ≡ spent_at key E.spent revision.old self.old.rows }
        ensures found { result ≡ is_some (value_at key self.old.rows) }
    {
        let mut within = FacilityChange {
            key,
            change: revision,
            made: None,
        };
        let _ = self
            .groups
            .revise_by_guess(Facilities::base(key), shift, &mut within);
        match within.made {
            Some(row) => {
                // For the prover: a row is in range, as its reader says.
                let _s_id = row.s_id();
                true
            }
            None => false,
        }
    }
}
