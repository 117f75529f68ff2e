//! The forwardings of a facility as a group.

use crate::group::{Group, Row};
use crate::keys::{checked_s_id_in, s_id_in, start_time_in, type_in};
use row_groups::Forwardings;
use tatp_rows::{Forwarding, is_between};

impl Row for Forwarding {
    ghost use Rattle.tatp_rows.specs.Keys.{forwarding_key};

    ghost row_key = { forwarding_key };

    fn key(&self) -> u64 {
        Forwarding::key(self)
    }
}

impl Group<Forwarding> for Forwardings {
    ghost use Rattle.group_tree.specs.Tables.{HoldsForwardings, facility_span, forwardings_listed, started_key_in};

    ghost span = { facility_span };

    ghost listed = { forwardings_listed };

    ghost key_in = { started_key_in };

    ghost Holds = { HoldsForwardings };

    fn base(key: u64) -> u64 {
        key / 256 * 256
    }

    fn of(row: &Forwarding) -> Self {
        // For the prover: a row is in range, as its reader says.
        let _s_id = row.s_id();
        Forwardings::of(row)
    }

    fn len(&self) -> usize {
        Forwardings::len(self)
    }

    fn find(&self, key: u64) -> Option<Forwarding> {
        self.get(s_id_in(key), type_in(key), start_time_in(key))
    }

    fn row_in(&self, base: u64, place: u8) -> Option<(u64, Forwarding)> {
        let s_id = checked_s_id_in(base)?;
        let sf_type = type_in(base);
        if !is_between(sf_type, 1, 4) {
            return None;
        }
        let start_time = 8 * place;
        let row = self.get(s_id, sf_type, start_time)?;
        Some((base + u64::from(start_time), row))
    }

    fn insert(&mut self, row: &Forwarding) -> bool {
        // For the prover: a row is in range, as its reader says.
        let _s_id = row.s_id();
        Forwardings::insert(self, row).is_ok()
    }

    fn replace(&mut self, row: &Forwarding) -> Option<Forwarding> {
        // For the prover: a row is in range, as its reader says.
        let _s_id = row.s_id();
        Forwardings::replace(self, row)
    }

    fn remove(&mut self, key: u64) -> Option<Forwarding> {
        Forwardings::remove(self, s_id_in(key), type_in(key), start_time_in(key))
    }

    ghost use Rattle.group_tree.specs.Rules.{forwarding_laws};

    ghost laws = { forwarding_laws };
}
