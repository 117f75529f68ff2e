//! The tree over the nodes of `mr_node`.
ghost use Rattle.std.specs.Prelude.{◌≡◌, ◌+◌, ◌<◌, ◌≤◌, ℕ, None, [], length, nat_le, option_map, is_some, ok_or, Err, IsSome, IfSome, IfOk, IfErr, OnErr};
ghost use Rattle.std.specs.List.{find};
ghost use Rattle.tatp_rows.specs.Ordered.{row_at, with_row, with_row_at, without_row};
ghost use Rattle.mr_node.specs.Rows.{key_limit, key_of_pair, value_at};
ghost use Rattle.mr_node.specs.Folds.{FoldsRows, WalksRows};
ghost use Rattle.mr_node.specs.Pages.{IsPage};
ghost use Rattle.mr_node.specs.Revisions.{revised_at, spent_at};
ghost use Rattle.mr_subtree.specs.Trees.{IsRoot, IsHeightOf, IsInserted};

use arrayvec::ArrayVec;
use mr_node::{Meter, Node, Revise, Room, Stock};
use std::alloc::Global;
use std::marker::Model;
use tatp_rows::{Back, Refusal};

/// A tree of rows, seen as its height, the width of its root, and the list of its pairs of key and value. Its keys
/// rise, and are below 18446744073709551614.
#[derive(Drop)]
pub struct SubTree<V> {
    root: Node<V>,
    // The blank nodes that splits took and didn't use, which the next split can use.
    spare: Stock<V>,
}

impl<V> Model for SubTree<V> {
    ghost use Rattle.mr_node.specs.Rows.{Seen, seen_code};

    ghost Value = { Seen V };

    ghost coded = { seen_code V.code };

    ghost use Rattle.mr_subtree.specs.Trees.{IsRoot};

    ghost view = { λ a. a.root };

    ghost invariant = { λ a. IsRoot a.root };
}

impl<V: Default> SubTree<V> {
    /// Makes a tree without rows. The root lies in the tree itself, so this always returns `Ok`.
    pub fn new(alloc: Global) -> Result<Self, Refusal>
        ensures tree { IfOk result (λ tree. (tree.rows ≡ []) × (tree.height ≡ 0)) }
        ensures ok { IfErr result (λ _. ⊥) }
    {
        Ok(SubTree {
            root: Node::new(),
            spare: Stock::none(alloc),
        })
    }
}

impl<V> SubTree<V> {
    /// Makes the tree of a root that keeps the rules.
    pub fn from_root(alloc: Global, root: Node<V>) -> Self
        requires { IsRoot root }
        ensures { result ≡ root }
    {
        SubTree {
            root,
            spare: Stock::none(alloc),
        }
    }

    /// Returns the root, to be looked at.
    pub(crate) fn root(&self) -> &Node<V>
        ensures { result.now ≡ self.now }
    {
        &self.root
    }

    /// Returns the allocator from which the tree takes memory.
    pub fn alloc(&self) -> Global {
        self.spare.alloc()
    }

    /// Finds the value at a key, or returns `None` if there is none.
    pub fn get(&self, key: u64) -> Option<&V>
        ensures { option_map (λ r. r.now) result ≡ value_at key self.now.rows }
    {
        self.root.find(key)
    }

    /// Finds the value at a key, or returns `None` if there is none. It first looks where the key is in a dense tree,
    /// whose keys are 2^`shift` apart and came in rising order. In such a tree it is quicker than `get`, and in others
    /// it is slower.
    pub fn get_by_guess(&self, key: u64, shift: u32) -> Option<&V>
        ensures { option_map (λ r. r.now) result ≡ value_at key self.now.rows }
    {
        self.root.find_by_guess(key, shift)
    }

    /// Returns the number of rows.
    pub fn len(&self) -> u64
        ensures { result ≡ length self.now.rows }
    {
        self.root.len()
    }

    /// Returns the height, which is 0 for a root that is a leaf. A tree of a height h of at least 1 has 2 * 16^h to
    /// 32^(h+1) rows.
    pub fn height(&self) -> u64
        ensures value { result ≡ self.now.height }
        ensures bounds { IsHeightOf result (length self.now.rows) }
        ensures low { result < 16 }
    {
        self.root.height()
    }

    /// Finds the first row whose key is this one or higher, or returns `None` if there is none.
    pub fn first_from(&self, key: u64) -> Option<(u64, &V)>
        ensures { option_map (λ r. (r.0, r.1.now)) result ≡ find (λ p. nat_le key p.0) self.now.rows }
    {
        self.root.first_from(key)
    }

    /// Folds the rows in the order of keys. Each call is given what was folded so far, a key, and its value.
    pub fn fold<A, F: Fn(A, u64, &V) -> A>(&self, init: A, f: &F) -> A
        requires { F.IsAlwaysCallable f.now }
        ensures { FoldsRows (λ a k r b. F.post f.now a k r b) init self.now.rows result }
    {
        self.root.fold(init, f)
    }

    /// Hands each row, in the order of keys, to a closure, together with what the closure writes to.
    pub fn walk<A, F: Fn(&mut A, u64, &V)>(&self, so_far: &mut A, f: &F)
        requires { F.IsAlwaysCallable f.now }
        ensures { WalksRows (λ a k r b. F.post f.now a k r tt b) so_far.old self.now.rows so_far.new }
    {
        self.root.walk(so_far, f)
    }
}

impl<V: Copy> SubTree<V> {
    /// Puts the next rows, from a key on, into an empty page, as many as one leaf has. It puts at least one if there is
    /// one.
    pub fn page_from(&self, key: u64, page: &mut ArrayVec<(u64, V), 32>)
        requires { page.old.items ≡ [] }
        ensures { IsPage key self.now.rows page.new.items }
    {
        self.root.page_from(key, page)
    }
}

impl<V: Drop> SubTree<V> {
    /// Returns the root, which keeps the rules. Blank nodes that the tree has kept are dropped.
    pub fn into_root(self) -> Node<V>
        ensures same { result ≡ self }
        ensures root { IsRoot result }
    {
        self.root
    }

    /// Replaces the value at a key, and returns the old one. If the key isn't there, it hands the new one back. It
    /// takes no memory.
    pub fn replace(&mut self, key: u64, value: V) -> Result<V, V>
        ensures rows { self.new ≡ record self.old { rows = with_row_at key_of_pair key (key, value) self.old.rows } }
        ensures value { result ≡ ok_or (value_at key self.old.rows) value }
    {
        self.root.replace(key, value)
    }

    /// Changes the value at a key where it lies. It returns false if the key isn't there, and then nothing has changed.
    /// It takes no memory.
    pub fn revise<E: Revise<V>>(&mut self, key: u64, revision: &mut E) -> bool
        ensures rows { self.new ≡ record self.old { rows = revised_at key (E.revised revision.old) self.old.rows } }
        ensures spent { revision.new ≡ spent_at key E.spent revision.old self.old.rows }
        ensures found { result ≡ is_some (value_at key self.old.rows) }
    {
        self.root.revise(key, revision)
    }

    /// Changes the value at a key where it lies, as `revise` does. It is quicker than that in a dense tree, in the same
    /// way as `get_by_guess`. It takes no memory.
    pub fn revise_by_guess<E: Revise<V>>(&mut self, key: u64, shift: u32, revision: &mut E) -> bool
        ensures rows { self.new ≡ record self.old { rows = revised_at key (E.revised revision.old) self.old.rows } }
        ensures spent { revision.new ≡ spent_at key E.spent revision.old self.old.rows }
        ensures found { result ≡ is_some (value_at key self.old.rows) }
    {
        self.root.revise_by_guess(key, shift, revision)
    }
}

impl<V: Drop + Default> SubTree<V> {
    /// Removes the row at a key, and returns its value. It takes no memory.
    pub fn remove(&mut self, key: u64) -> Option<V>
        ensures rows { self.new.rows ≡ without_row key_of_pair key self.old.rows }
        ensures value { result ≡ value_at key self.old.rows }
    {
        let mut meter = Meter::new();
        let gone = self.root.remove(key, &mut meter);
        self.root.lower(&mut meter);
        gone
    }

    /// Adds a row. Its refusals, in order, are `Exists` if a row with the key is there, and `Memory` if the system
    /// refuses memory for the blank nodes. After a refusal the tree is as it was, and the value is handed back. A tree
    /// of fewer than 32 rows never needs blank nodes, because its height doesn't grow. The key has to be below
    /// 18446744073709551614.
    pub fn insert(&mut self, key: u64, value: V) -> Result<(), Back<V>>
        requires { key < key_limit }
        ensures answer { IsInserted key value self.old.rows self.new.rows result }
        ensures kept { OnErr result (self.new ≡ self.old) }
        ensures memory { IfErr result (λ back. back.why ≡ Refusal.Memory → 32 ≤ length self.old.rows) }
        ensures height { length self.old.rows < 32 → self.new.height ≡ self.old.height }
    {
        let mut item = Some(value);
        match self.root.insert_room(key, &mut item) {
            Room::Done => Ok(()),
            Room::Exists => refused(Refusal::Exists, item),
            Room::Full => self.insert_full(key, item),
        }
    }

    /// Adds a row whose leaf is full. All blank nodes are taken before the tree changes.
    #[cold]
    #[inline(never)]
    fn insert_full(&mut self, key: u64, mut item: Option<V>) -> Result<(), Back<V>>
        requires small { key < key_limit }
        requires some { IsSome item }
        requires missing { row_at key_of_pair key self.old.rows ≡ None }
        ensures answer { IfSome item (λ value. IsInserted key value self.old.rows self.new.rows result) }
        ensures kept { OnErr result (self.new ≡ self.old) }
    {
        let wanted = blanks_wanted(&self.root);
        if self.spare.fill(wanted).is_err() {
            return refused(Refusal::Memory, item);
        }
        grow(&mut self.root, key, &mut item, &mut self.spare);
        Ok(())
    }
}

/// Returns how many blank nodes at most are needed to add a row whose leaf is full: one for each level, and three more
/// under a full root.
fn blanks_wanted<V>(root: &Node<V>) -> usize
    requires { IsRoot root.now }
    ensures each { root.now.height ≤ result }
    ensures full { root.now.width ≡ 32 → root.now.height + 3 ≤ result }
    ensures most { result ≤ root.now.height + 3 }
{
    let levels = root.height() as usize;
    if root.width() == 32 {
        return levels + 3;
    }
    levels
}

/// Adds a row whose leaf is full, with the blank nodes for it in the stock.
fn grow<V: Drop + Default>(root: &mut Node<V>, key: u64, item: &mut Option<V>, stock: &mut Stock<V>)
    requires root { IsRoot root.old }
    requires small { key < key_limit }
    requires some { IsSome item.old }
    requires missing { row_at key_of_pair key root.old.rows ≡ None }
    requires each { root.old.height ≤ stock.old }
    requires full { root.old.width ≡ 32 → root.old.height + 3 ≤ stock.old }
    ensures root { IsRoot root.new }
    ensures rows { IfSome item.old (λ value. root.new.rows ≡ with_row key_of_pair (key, value) root.old.rows) }
{
    let mut meter = Meter::new();
    if root.width() == 32 {
        root.add_root(stock, &mut meter);
        root.insert_split(key, item, stock, &mut meter);
        return;
    }
    root.insert_split(key, item, stock, &mut meter);
}

/// Returns the refusal of a row, with its value.
fn refused<V>(why: Refusal, item: Option<V>) -> Result<(), Back<V>>
    requires { IsSome item }
    ensures { IfSome item (λ value. result ≡ Err (record { why = why; item = value })) }
{
    match item {
        Some(item) => Err(Back { why, item }),
        None => unreachable!(),
    }
}
