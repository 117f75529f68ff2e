//! The rows of a part in trees.
ghost use Rattle.std.specs.Prelude.{◌≡◌, ℕ, ◌<◌, [], IfOk, IfErr, option_copied, ok_or, ⊤};
ghost use Rattle.std.specs.Borrow.{sem, follows_so};
ghost use Rattle.tatp_actions.specs.Tables.{once_more};

use crate::rows::Rows;
use group_tree::{Group, GroupTree, Row};
use mr_node::Revise;
use mr_subtree::SubTree;
use row_groups::{Accesses, Facilities, Forwardings};
use std::alloc::Global;
use tatp_rows::{Access, Back, Facility, Forwarding, Refusal, Subscriber};

/// The keys of two successive subscribers are 2^16 apart.
pub(crate) const KEY_SHIFT: u32 = 16;

/// The rows of a part, each of the four tables in a tree of its own, and how often they were asked. The accesses and
/// the facilities of a subscriber lie in groups, and so do the forwardings of a facility.
#[derive(Drop)]
pub struct Trees {
    pub(crate) subscribers: SubTree<Subscriber>,
    pub(crate) access: GroupTree<Access, Accesses>,
    pub(crate) facilities: GroupTree<Facility, Facilities>,
    pub(crate) forwardings: GroupTree<Forwarding, Forwardings>,
    pub(crate) asked: u64,
}

/// Makes a tree without rows.
fn empty<V: Default>(alloc: Global) -> SubTree<V>
    ensures rows { result.rows ≡ [] }
    ensures height { result.height ≡ 0 }
{
    match SubTree::new(alloc) {
        Ok(tree) => tree,
        Err(_) => unreachable!(),
    }
}

/// Makes a tree of groups without rows.
fn no_groups<R: Row, G: Group<R>>(alloc: Global) -> GroupTree<R, G>
    ensures rows { result.rows ≡ [] }
    ensures height { result.height ≡ 0 }
{
    match GroupTree::new(alloc) {
        Ok(tree) => tree,
        Err(_) => unreachable!(),
    }
}

impl Trees {
    /// Makes rows with empty trees, never asked. An empty tree takes no memory, so this always returns `Ok`.
    pub fn new(alloc: Global) -> Result<Self, Refusal>
        ensures subscribers { IfOk result (λ t. (t.subscribers.rows ≡ []) × (t.subscribers.height ≡ 0)) }
        ensures access { IfOk result (λ t. (t.access.rows ≡ []) × (t.access.height ≡ 0)) }
        ensures facilities { IfOk result (λ t. (t.facilities.rows ≡ []) × (t.facilities.height ≡ 0)) }
        ensures forwardings { IfOk result (λ t. (t.forwardings.rows ≡ []) × (t.forwardings.height ≡ 0)) }
        ensures asked { IfOk result (λ t. t.asked ≡ 0) }
        ensures ok { IfErr result (λ _. ⊥) }
    {
        Ok(Trees {
            subscribers: empty(alloc),
            access: no_groups(alloc),
            facilities: no_groups(alloc),
            forwardings: no_groups(alloc),
            asked: 0,
        })
    }

    fn ask(&mut self)
        ensures { self.new ≡ record self.old { asked = once_more self.old.asked } }
    {
        self.asked = self.asked.saturating_add(1);
    }
}

impl Rows for Trees {
    ghost tables = { λ t. record {
      subscribers = t.subscribers.rows;
      access = t.access.rows;
      facilities = t.facilities.rows;
      forwardings = t.forwardings.rows;
    } };

    ghost times_asked = { λ t. t.asked };

    ghost heights = { λ t. record {
      subscribers = t.subscribers.height;
      access = t.access.height;
      facilities = t.facilities.height;
      forwardings = t.forwardings.height;
    } };

    fn asked(&self) -> u64 {
        self.asked
    }

    fn get_s(&mut self, key: u64) -> Option<&Subscriber> {
        self.ask();
        self.subscribers.get_by_guess(key, KEY_SHIFT)
    }

    fn replace_s(&mut self, key: u64, value: Subscriber) -> Result<Subscriber, Subscriber> {
        self.ask();
        self.subscribers.replace(key, value)
    }

    fn revise_s<E: Revise<Subscriber>>(&mut self, key: u64, revision: &mut E) -> bool {
        self.ask();
        self.subscribers.revise_by_guess(key, KEY_SHIFT, revision)
    }

    fn insert_s(&mut self, key: u64, value: Subscriber) -> Result<(), Back<Subscriber>> {
        self.ask();
        self.subscribers.insert(key, value)
    }

    fn remove_s(&mut self, key: u64) -> Option<Subscriber> {
        self.ask();
        self.subscribers.remove(key)
    }

    fn get_a(&mut self, key: u64) -> Option<Access> {
        self.ask();
        self.access.get_by_guess(key, KEY_SHIFT)
    }

    fn replace_a(&mut self, row: Access) -> Result<Access, Access> {
        self.ask();
        self.access.replace(row)
    }

    fn insert_a(&mut self, row: Access) -> Result<(), Back<Access>> {
        self.ask();
        self.access.insert(row)
    }

    fn remove_a(&mut self, key: u64) -> Option<Access> {
        self.ask();
        self.access.remove(key)
    }

    fn get_f(&mut self, key: u64) -> Option<Facility> {
        self.ask();
        self.facilities.get_by_guess(key, KEY_SHIFT)
    }

    fn replace_f(&mut self, row: Facility) -> Result<Facility, Facility> {
        self.ask();
        self.facilities.replace(row)
    }

    fn revise_f<E: Revise<Facility>>(&mut self, key: u64, revision: &mut E) -> bool {
        self.ask();
        self.facilities.revise_by_guess(key, KEY_SHIFT, revision)
    }

    fn insert_f(&mut self, row: Facility) -> Result<(), Back<Facility>> {
        self.ask();
        self.facilities.insert(row)
    }

    fn remove_f(&mut self, key: u64) -> Option<Facility> {
        self.ask();
        self.facilities.remove(key)
    }

    fn get_c(&mut self, key: u64) -> Option<Forwarding> {
        self.ask();
        self.forwardings.get(key)
    }

    fn replace_c(&mut self, row: Forwarding) -> Result<Forwarding, Forwarding> {
        self.ask();
        self.forwardings.replace(row)
    }

    fn insert_c(&mut self, row: Forwarding) -> Result<(), Back<Forwarding>> {
        self.ask();
        self.forwardings.insert(row)
    }

    fn remove_c(&mut self, key: u64) -> Option<Forwarding> {
        self.ask();
        self.forwardings.remove(key)
    }
}
