//! The accesses of a subscriber as a group.

use crate::group::{Group, Row};
use crate::keys::{checked_s_id_in, s_id_in, start_time_in, type_in};
use row_groups::Accesses;
use tatp_rows::Access;

impl Row for Access {
    ghost use Rattle.tatp_rows.specs.Keys.{access_key};

    ghost row_key = { access_key };

    fn key(&self) -> u64 {
        Access::key(self)
    }
}

impl Group<Access> for Accesses {
    ghost use Rattle.group_tree.specs.Tables.{HoldsAccesses, accesses_listed, subscriber_span, typed_key_in};

    ghost span = { subscriber_span };

    ghost listed = { accesses_listed };

    ghost key_in = { typed_key_in };

    ghost Holds = { HoldsAccesses };

    fn base(key: u64) -> u64 {
        key / 65_536 * 65_536
    }

    fn of(row: &Access) -> Self {
        // For the prover: a row is in range, as its reader says.
        let _s_id = row.s_id();
        Accesses::of(row)
    }

    fn len(&self) -> usize {
        Accesses::len(self)
    }

    fn find(&self, key: u64) -> Option<Access> {
        if start_time_in(key) != 0 {
            return None;
        }
        self.get(s_id_in(key), type_in(key))
    }

    fn row_in(&self, base: u64, place: u8) -> Option<(u64, Access)> {
        let ai_type = place + 1;
        let row = self.get(checked_s_id_in(base)?, ai_type)?;
        Some((base + 256 * u64::from(ai_type), row))
    }

    fn insert(&mut self, row: &Access) -> bool {
        // For the prover: a row is in range, as its reader says.
        let _s_id = row.s_id();
        Accesses::insert(self, row).is_ok()
    }

    fn replace(&mut self, row: &Access) -> Option<Access> {
        // For the prover: a row is in range, as its reader says.
        let _s_id = row.s_id();
        Accesses::replace(self, row)
    }

    fn remove(&mut self, key: u64) -> Option<Access> {
        if start_time_in(key) != 0 {
            return None;
        }
        Accesses::remove(self, s_id_in(key), type_in(key))
    }

    ghost use Rattle.group_tree.specs.Rules.{access_laws};

    ghost laws = { access_laws };
}
