//! A table of rows over a sorted vector, which is the plain program that tests compare the trees with.
ghost use Rattle.std.specs.Prelude.{◌≡◌, ℕ, ◌+◌, ◌<◌, [], ◌∷◌, List, length, Option, Some, None, nat_lt, ◌≤◌, IsSome, IsNone, IsErrAnd, IfOk, IfErr, OnOk, OnErr, option_copied, ok_or};
ghost use Rattle.std.specs.List.{prefix_len};
ghost use Rattle.tatp_rows.specs.Ordered.{IsOrderedBy, row_at, with_row_at, with_row, without_row};
ghost use Rattle.mr_node.specs.Rows.{key_limit, key_of_pair, value_at};
ghost use Rattle.mr_subtree.specs.Trees.{IsInserted};

use std::alloc::Global;
use std::marker::Model;
use std::mem;
use tatp_rows::{Back, Refusal};

/// A table of values by key, in one vector that is sorted by key, with room for so many.
///
/// It is seen as the list of its pairs (key, value), ordered by key.
#[derive(Drop)]
pub struct Table<V> {
    entries: Vec<(u64, V)>,
    room: usize,
}

impl<V> Model for Table<V> {
    ghost use Rattle.std.specs.Prelude.{ℕ, List};
    ghost use Rattle.std.specs.Coded.{coded_list, coded×, coded_ℕ};
    ghost use Rattle.tatp_rows.specs.Ordered.{IsOrderedBy};

    ghost Value = { List (ℕ × V) };

    ghost coded = { coded_list (coded× coded_ℕ V.code) };

    ghost view = { λ t. t.entries.items };

    ghost invariant = { λ t. IsOrderedBy (λ pair. pair.0) t.entries.items };
}

impl<V> Table<V> {
    /// Makes a table with no entry.
    pub fn new(alloc: Global, room: usize) -> Self
        ensures { result ≡ [] }
    {
        Table {
            entries: Vec::new(alloc),
            room,
        }
    }

    /// Returns how many entries have a lower key than this one, which is where its entry is, or would be.
    fn place_of(&self, key: u64) -> usize
        ensures place { result ≡ prefix_len (λ pair. nat_lt pair.0 key) self.now }
        ensures within { result ≤ length self.now }
        ensures ordered { IsOrderedBy (λ pair. pair.0) self.now }
    {
        self.entries.partition_point(|entry| entry.0 < key)
    }

    /// Finds the value at a key.
    pub fn get(&self, key: u64) -> Option<&V>
        ensures { option_copied result ≡ value_at key self.now }
    {
        let at = self.place_of(key);
        let entry = self.entries.get(at)?;
        if entry.0 == key { Some(&entry.1) } else { None }
    }

    /// Replaces the value at a key, and hands back the old one; if there is none, hands back the value.
    pub fn replace(&mut self, key: u64, value: V) -> Result<V, V>
        ensures value { result ≡ ok_or (value_at key self.old) value }
        ensures rows { self.new ≡ with_row_at key_of_pair key (key, value) self.old }
    {
        let at = self.place_of(key);
        if at == self.entries.len() || self.entries[at].0 != key {
            return Err(value);
        }
        Ok(mem::replace(&mut self.entries[at].1, value))
    }

    /// Adds an entry. Its refusals, in order, are `Exists` if the key has one, and `Memory` if there is no room, and
    /// then the table is as before, and the value is handed back.
    pub fn insert(&mut self, key: u64, value: V) -> Result<(), Back<V>>
        requires { key < key_limit }
        ensures { IsInserted key value self.old self.new result }
    {
        let at = self.place_of(key);
        if at < self.entries.len() && self.entries[at].0 == key {
            return Err(Back {
                why: Refusal::Exists,
                item: value,
            });
        }
        if self.entries.len() >= self.room {
            return Err(Back {
                why: Refusal::Memory,
                item: value,
            });
        }
        match self.entries.insert(at, (key, value)) {
            Ok(()) => Ok(()),
            Err(refused) => Err(Back {
                why: Refusal::Memory,
                item: refused.value.1,
            }),
        }
    }

    /// Removes the entry at a key, if there is one.
    pub fn remove(&mut self, key: u64) -> Option<V>
        ensures value { result ≡ value_at key self.old }
        ensures rows { self.new ≡ without_row key_of_pair key self.old }
    {
        let at = self.place_of(key);
        if at == self.entries.len() || self.entries[at].0 != key {
            return None;
        }
        let (_, value) = self.entries.remove(at);
        Some(value)
    }
}
