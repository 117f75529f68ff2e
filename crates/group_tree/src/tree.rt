//! The tree of groups.
ghost use Rattle.std.specs.Prelude.{◌≡◌, ◌<◌, ◌≤◌, [], length, ok_or, None, IfErr, IfOk, IfSome, OnErr};
ghost use Rattle.tatp_rows.specs.Ordered.{with_row_at, without_row};
ghost use Rattle.mr_node.specs.Rows.{key_of_pair, value_at};
ghost use Rattle.mr_subtree.specs.Trees.{IsInserted};
ghost use Rattle.group_tree.specs.Groups.{IsHeightOfGroups, base_of, rows_beside};

use crate::group::{Group, Row};
use mr_subtree::SubTree;
use std::alloc::Global;
use std::marker::{Model, PhantomData};
use tatp_rows::{Back, Refusal};

/// A tree of groups, seen as its height and the list of the pairs of key and row of all groups. The keys rise.
#[derive(Drop)]
pub struct GroupTree<R: Row, G: Group<R>> {
    pub(crate) groups: SubTree<G>,
    of: PhantomData<R>,
}

impl<R: Row, G: Group<R>> Model for GroupTree<R, G> {
    ghost use Rattle.group_tree.specs.Groups.{Grouped, grouped_code};

    ghost Value = { Grouped R };

    ghost coded = { grouped_code R.code };

    ghost use Rattle.group_tree.specs.Groups.{AreGroups, rows_of};

    ghost view = { λ t. record { height = t.groups.height; rows = rows_of G.listed t.groups.rows } };

    ghost invariant = { λ t. AreGroups G.listed G.Holds t.groups.rows };
}

impl<R: Row, G: Group<R>> GroupTree<R, G> {
    /// Makes a tree without rows. The root lies in the tree itself, so this always returns `Ok`.
    pub fn new(alloc: Global) -> Result<Self, Refusal>
        ensures tree { IfOk result (λ tree. (tree.rows ≡ []) × (tree.height ≡ 0)) }
        ensures ok { IfErr result (λ _. ⊥) }
    {
        Ok(GroupTree {
            groups: SubTree::new(alloc)?,
            of: PhantomData,
        })
    }

    /// Returns the height, which is 0 for a root that is a leaf.
    pub fn height(&self) -> u64
        ensures value { result ≡ self.now.height }
        ensures bounds { IsHeightOfGroups result (length self.now.rows) }
        ensures low { result < 16 }
    {
        self.groups.height()
    }

    /// Returns the row at a key, or `None` if there is none.
    pub fn get(&self, key: u64) -> Option<R>
        ensures { result ≡ value_at key self.now.rows }
    {
        let group = self.groups.get(G::base(key))?;
        group.find(key)
    }

    /// Returns the row at a key, or `None` if there is none. It first looks where the group is in a dense tree, whose
    /// groups are 2^`shift` apart and came in rising order. In such a tree it is quicker than `get`, and in others it
    /// is slower.
    pub fn get_by_guess(&self, key: u64, shift: u32) -> Option<R>
        ensures { result ≡ value_at key self.now.rows }
    {
        let group = self.groups.get_by_guess(G::base(key), shift)?;
        group.find(key)
    }

    /// Lends the group to which a key belongs, or returns `None` if it has no row. The group has all rows whose keys
    /// lie in its span.
    pub fn group(&self, key: u64) -> Option<&G>
        ensures found { IfSome result (λ group. G.listed (base_of G.span key) group.now ≡ rows_beside G.span key self.now.rows) }
        ensures none { result ≡ None → rows_beside G.span key self.now.rows ≡ [] }
    {
        self.groups.get(G::base(key))
    }

    /// Replaces the row with the key of this one, and returns the old one. If there is none, it hands the new one back.
    /// It takes no memory.
    pub fn replace(&mut self, row: R) -> Result<R, R>
        ensures rows { self.new ≡ record self.old { rows = with_row_at key_of_pair (R.row_key row) (R.row_key row, row) self.old.rows } }
        ensures value { result ≡ ok_or (value_at (R.row_key row) self.old.rows) row }
    {
        let base = G::base(row.key());
        let Some(mut group) = self.groups.get(base).copied() else {
            return Err(row);
        };
        match group.replace(&row) {
            Some(old) => {
                let _ = self.groups.replace(base, group);
                Ok(old)
            }
            None => Err(row),
        }
    }

    /// Removes the row at a key, and returns it. A group whose last row goes is removed from the tree. It takes no
    /// memory.
    pub fn remove(&mut self, key: u64) -> Option<R>
        ensures rows { self.new.rows ≡ without_row key_of_pair key self.old.rows }
        ensures value { result ≡ value_at key self.old.rows }
    {
        let base = G::base(key);
        let mut group = *self.groups.get(base)?;
        let row = group.remove(key)?;
        if group.len() == 0 {
            let _ = self.groups.remove(base);
        } else {
            let _ = self.groups.replace(base, group);
        }
        Some(row)
    }

    /// Adds a row. Its refusals, in order, are `Exists` if a row with its key is there, and `Memory` if the system
    /// refuses memory for the blank nodes. After a refusal the tree is as it was, and the row is handed back. Only the
    /// first row of a group may need memory, and none in a tree of fewer than 32 rows.
    pub fn insert(&mut self, row: R) -> Result<(), Back<R>>
        ensures answer { IsInserted (R.row_key row) row self.old.rows self.new.rows result }
        ensures kept { OnErr result (self.new ≡ self.old) }
        ensures first { IfErr result (λ back. back.why ≡ Refusal.Memory → rows_beside G.span (R.row_key row) self.old.rows ≡ []) }
        ensures memory { IfErr result (λ back. back.why ≡ Refusal.Memory → 32 ≤ length self.old.rows) }
        ensures height { length self.old.rows < 32 → self.new.height ≡ self.old.height }
    {
        let base = G::base(row.key());
        let Some(mut group) = self.groups.get(base).copied() else {
            return match self.groups.insert(base, G::of(&row)) {
                Ok(()) => Ok(()),
                Err(back) => Err(Back {
                    why: back.why,
                    item: row,
                }),
            };
        };
        if group.insert(&row) {
            let _ = self.groups.replace(base, group);
            return Ok(());
        }
        Err(Back {
            why: Refusal::Exists,
            item: row,
        })
    }
}
