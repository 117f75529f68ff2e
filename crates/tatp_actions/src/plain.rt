//! The rows of a part in sorted vectors, which are the plain program of the definition, for tests.
ghost use Rattle.std.specs.Prelude.{◌≡◌, ℕ, ◌<◌, [], option_copied, ok_or, ⊤};
ghost use Rattle.std.specs.Borrow.{sem, follows_so};
ghost use Rattle.tatp_actions.specs.Heights.{zero_heights};
ghost use Rattle.tatp_actions.specs.Tables.{once_more};

use crate::rows::Rows;
use crate::table::Table;
use std::alloc::Global;
use tatp_rows::{Access, Back, Facility, Forwarding, Subscriber};

/// The rows of a part, each of the four tables in a sorted vector of its own, and how often they were asked.
#[derive(Drop)]
pub struct PlainRows {
    pub(crate) subscribers: Table<Subscriber>,
    pub(crate) access: Table<Access>,
    pub(crate) facilities: Table<Facility>,
    pub(crate) forwardings: Table<Forwarding>,
    asked: u64,
}

impl PlainRows {
    /// Makes rows that were never asked, with empty tables that have room for so many rows each.
    pub fn new(alloc: Global, room: usize) -> Self
        ensures { result ≡ record { subscribers = []; access = []; facilities = []; forwardings = []; asked = 0 } }
    {
        PlainRows {
            subscribers: Table::new(alloc, room),
            access: Table::new(alloc, room),
            facilities: Table::new(alloc, room),
            forwardings: Table::new(alloc, room),
            asked: 0,
        }
    }

    fn ask(&mut self)
        ensures { self.new ≡ record self.old { asked = once_more self.old.asked } }
    {
        self.asked = self.asked.saturating_add(1);
    }
}

impl Rows for PlainRows {
    ghost tables = { λ t. record {
      subscribers = t.subscribers;
      access = t.access;
      facilities = t.facilities;
      forwardings = t.forwardings;
    } };

    ghost times_asked = { λ t. t.asked };

    // A table has no tree, so its height is 0.
    ghost heights = { λ t. zero_heights };

    fn asked(&self) -> u64 {
        self.asked
    }

    fn get_s(&mut self, key: u64) -> Option<&Subscriber> {
        self.ask();
        self.subscribers.get(key)
    }

    fn replace_s(&mut self, key: u64, value: Subscriber) -> Result<Subscriber, Subscriber> {
        self.ask();
        self.subscribers.replace(key, value)
    }

    fn insert_s(&mut self, key: u64, value: Subscriber) -> Result<(), Back<Subscriber>> {
        self.ask();
        self.subscribers.insert(key, value)
    }

    fn remove_s(&mut self, key: u64) -> Option<Subscriber> {
        self.ask();
        self.subscribers.remove(key)
    }

    fn get_a(&mut self, key: u64) -> Option<Access> {
        self.ask();
        self.access.get(key).copied()
    }

    fn replace_a(&mut self, row: Access) -> Result<Access, Access> {
        self.ask();
        self.access.replace(row.key(), row)
    }

    fn insert_a(&mut self, row: Access) -> Result<(), Back<Access>> {
        self.ask();
        self.access.insert(row.key(), row)
    }

    fn remove_a(&mut self, key: u64) -> Option<Access> {
        self.ask();
        self.access.remove(key)
    }

    fn get_f(&mut self, key: u64) -> Option<Facility> {
        self.ask();
        self.facilities.get(key).copied()
    }

    fn replace_f(&mut self, row: Facility) -> Result<Facility, Facility> {
        self.ask();
        self.facilities.replace(row.key(), row)
    }

    fn insert_f(&mut self, row: Facility) -> Result<(), Back<Facility>> {
        self.ask();
        self.facilities.insert(row.key(), row)
    }

    fn remove_f(&mut self, key: u64) -> Option<Facility> {
        self.ask();
        self.facilities.remove(key)
    }

    fn get_c(&mut self, key: u64) -> Option<Forwarding> {
        self.ask();
        self.forwardings.get(key).copied()
    }

    fn replace_c(&mut self, row: Forwarding) -> Result<Forwarding, Forwarding> {
        self.ask();
        self.forwardings.replace(row.key(), row)
    }

    fn insert_c(&mut self, row: Forwarding) -> Result<(), Back<Forwarding>> {
        self.ask();
        self.forwardings.insert(row.key(), row)
    }

    fn remove_c(&mut self, key: u64) -> Option<Forwarding> {
        self.ask();
        self.forwardings.remove(key)
    }
}
