//! The nodes of trees.
ghost use Rattle.std.specs.Prelude.{◌≡◌, ◌+◌, ◌-◌, ◌*◌, ◌<◌, ◌≤◌, ℕ, None, IsSome, IfSome, min, [], ◌++◌, length, nat_le, option_map, is_some, ok_or, Ok, Err, if◌then◌else◌, true, false};
ghost use Rattle.std.specs.List.{find};
ghost use Rattle.tatp_rows.specs.Ordered.{IsOrderedBy, row_at, with_row_at};
ghost use Rattle.mr_node.specs.Rows.{key_limit, key_of_pair, value_at, StartsWith};
ghost use Rattle.mr_node.specs.Levels.{seen, IsNode, IsWell, IsLeaf, IsInner, seen_leaf, seen_inner};
ghost use Rattle.mr_node.specs.Folds.{FoldsRows, WalksRows};
ghost use Rattle.mr_node.specs.Pages.{IsPage};
ghost use Rattle.mr_node.specs.Revisions.{revised_at, spent_at};
ghost use Rattle.mr_node.specs.EntryLists.{AreEntries};
ghost use Rattle.mr_node.specs.Growth.{IsGrown, IsRoomAnswer, is_done};
ghost use Rattle.mr_node.specs.Pairs.{IsChildNode, IsHalved, IsShare, AreEvened};
ghost use Rattle.mr_node.specs.Changes.{IsShrunk, HasNewRoot, IsLowered};
ghost use Rattle.mr_node.specs.Parts.{HasOneMoreChild};
ghost use Rattle.mr_node.specs.Steps.{after_steps, IsRoomMade};

use crate::children::{
    child_place, child_place_at, empty_inner, put_child, sum_counts, take_child,
};
use crate::entries::{
    empty_leaf, find_entry_at, first_entry, fold_entries, insert_entry, insert_new, page_entries,
    remove_entry, revise_entry_at, walk_entries,
};
use crate::entry_lists::{even, low_of, share};
use crate::guess::{child_behind, rows_before};
use crate::rebalancing::{make_room, rebalance};
use crate::revise::Swap;
use crate::{Body, Child, Inner, Leaf, Meter, Revise, Room, Stock};
use arrayvec::ArrayVec;
use std::marker::Model;
use std::mem;

/// A node of a tree, seen as its height, its width and its rows. Each child of an inner node is at least half full.
#[derive(Drop)]
pub struct Node<V> {
    body: Body<V, Box<Node<V>>>,
}

impl<V> Model for Node<V> {
    ghost use Rattle.mr_node.specs.Rows.{Seen, seen_code};

    ghost Value = { Seen V };

    ghost coded = { seen_code V.code };

    ghost use Rattle.mr_node.specs.Levels.{seen, IsNode};

    ghost view = { λ a. seen a.body };

    ghost invariant = { λ a. IsNode a.body };

    ghost size = { λ s. s.height };

    ghost use Rattle.mr_node.specs.Falls.{depth_le_height};

    ghost size_decreases = { λ a h. depth_le_height V a.body h };
}

impl<V: Default> Node<V> {
    /// Makes a leaf without entries.
    pub fn new() -> Self
        ensures { result ≡ record { height = 0; width = 0; rows = [] } }
    {
        Node {
            body: Body::Leaf(empty_leaf()),
        }
    }
}

impl<V> Node<V> {
    /// Returns how far the node is above the leaves, which is 0 for a leaf.
    pub fn height(&self) -> u64
        ensures value { result ≡ self.now.height }
        ensures well { IsWell self.now }
    {
        match &self.body {
            Body::Leaf(_) => 0,
            Body::Inner(inner) => inner.height,
        }
    }

    /// Counts the entries of a leaf, or the children of an inner node, at most 32.
    pub fn width(&self) -> usize
        ensures value { result ≡ self.now.width }
        ensures well { IsWell self.now }
    {
        match &self.body {
            Body::Leaf(leaf) => leaf.values.len(),
            Body::Inner(inner) => inner.len,
        }
    }

    /// Returns the number of rows in and below the node.
    pub fn len(&self) -> u64
        ensures { result ≡ length self.now.rows }
    {
        match &self.body {
            Body::Leaf(leaf) => leaf.values.len() as u64,
            Body::Inner(inner) => sum_counts(inner),
        }
    }

    /// Returns the least key of a node that has any row.
    pub(crate) fn least(&self) -> u64
        ensures { 0 < self.now.width → StartsWith result self.now.rows }
    {
        match &self.body {
            Body::Leaf(leaf) => leaf.keys[0],
            Body::Inner(inner) => inner.leasts[0],
        }
    }

    /// Finds the value at a key, or returns `None` if there is none. A look counts as no step.
    pub fn find(&self, key: u64) -> Option<&V>
        ensures { option_map (λ r. r.now) result ≡ value_at key self.now.rows }
    {
        self.find_row::<false>(key, 0, 0)
    }

    /// Finds the value at a key as `find` does. It first looks where the key is in a dense tree, whose keys are
    /// 2^`shift` apart and came in rising order. In such a tree it is quicker than `find`, and in others it is slower.
    pub fn find_by_guess(&self, key: u64, shift: u32) -> Option<&V>
        ensures { option_map (λ r. r.now) result ≡ value_at key self.now.rows }
    {
        self.find_row::<true>(key, shift, self.least())
    }

    /// Finds the value at a key. If `GUESSED`, it first looks where a dense tree would have the key, and `least` is the
    /// node's least key, or any number. If not, `shift` and `least` don't matter.
    fn find_row<const GUESSED: bool>(&self, key: u64, shift: u32, least: u64) -> Option<&V>
        ensures { option_map (λ r. r.now) result ≡ value_at key self.now.rows }
    {
        let rows = rows_before(key, least, shift);
        match &self.body {
            Body::Leaf(leaf) => find_entry_at::<V, GUESSED>(leaf, key, rows as usize),
            Body::Inner(inner) => {
                let guess = child_behind(rows, inner.height);
                let place = child_place_at::<Box<Node<V>>, GUESSED>(inner, key, guess);
                match &inner.children[place] {
                    Some(child) => child
                        .node
                        .find_row::<GUESSED>(key, shift, inner.leasts[place]),
                    None => unreachable!(),
                }
            }
        }
    }

    /// Finds the child to which a key belongs, or the node itself if it is a leaf. A look counts as no step.
    #[inline]
    pub fn towards(&self, key: u64) -> &Node<V>
        ensures same { value_at key result.now.rows ≡ value_at key self.now.rows }
        ensures level { result.now.height ≡ self.now.height - 1 }
    {
        match &self.body {
            Body::Leaf(_) => self,
            Body::Inner(inner) => {
                let place = child_place(inner, key);
                match &inner.children[place] {
                    Some(child) => &*child.node,
                    None => unreachable!(),
                }
            }
        }
    }

    /// Finds the first row whose key is this one or higher, or returns `None` if there is none. A look counts as no
    /// step.
    pub fn first_from(&self, key: u64) -> Option<(u64, &V)>
        ensures { option_map (λ r. (r.0, r.1.now)) result ≡ find (λ p. nat_le key p.0) self.now.rows }
    {
        match &self.body {
            Body::Leaf(leaf) => first_entry(leaf, key),
            Body::Inner(inner) => {
                let place = child_place(inner, key);
                match &inner.children[place] {
                    Some(child) => match child.node.first_from(key) {
                        Some(row) => Some(row),
                        None => {
                            if place + 1 >= inner.len {
                                return None;
                            }
                            match &inner.children[place + 1] {
                                Some(next) => next.node.first_from(key),
                                None => unreachable!(),
                            }
                        }
                    },
                    None => unreachable!(),
                }
            }
        }
    }

    /// Folds the rows in the order of keys. A look counts as no step.
    pub fn fold<A, F: Fn(A, u64, &V) -> A>(&self, init: A, f: &F) -> A
        requires { F.IsAlwaysCallable f.now }
        ensures { FoldsRows (λ a k r b. F.post f.now a k r b) init self.now.rows result }
    {
        match &self.body {
            Body::Leaf(leaf) => fold_entries(leaf, init, f),
            Body::Inner(inner) => {
                let mut folded = init;
                for place in 0..inner.len {
                    match &inner.children[place] {
                        Some(child) => {
                            folded = child.node.fold(folded, f);
                        }
                        None => unreachable!(),
                    }
                }
                folded
            }
        }
    }

    /// Hands each row, in the order of keys, to a closure, together with what the closure writes to. A look counts as
    /// no step.
    pub fn walk<A, F: Fn(&mut A, u64, &V)>(&self, so_far: &mut A, f: &F)
        requires { F.IsAlwaysCallable f.now }
        ensures { WalksRows (λ a k r b. F.post f.now a k r tt b) so_far.old self.now.rows so_far.new }
    {
        match &self.body {
            Body::Leaf(leaf) => walk_entries(leaf, so_far, f),
            Body::Inner(inner) => {
                for place in 0..inner.len {
                    match &inner.children[place] {
                        Some(child) => child.node.walk(so_far, f),
                        None => unreachable!(),
                    }
                }
            }
        }
    }

    /// Takes a node apart, and returns its parts.
    fn into_body(self) -> Body<V, Box<Node<V>>>
        ensures seen { seen result ≡ self }
        ensures whole { IsNode result }
    {
        self.body
    }
}

impl<V: Copy> Node<V> {
    /// Puts the next rows, from a key on, into an empty page, as many as one leaf has. It puts at least one if there is
    /// one. A look counts as no step.
    pub fn page_from(&self, key: u64, page: &mut ArrayVec<(u64, V), 32>)
        requires { page.old.items ≡ [] }
        ensures { IsPage key self.now.rows page.new.items }
    {
        match &self.body {
            Body::Leaf(leaf) => page_entries(leaf, key, page),
            Body::Inner(inner) => {
                for place in child_place(inner, key)..inner.len {
                    match &inner.children[place] {
                        Some(child) => child.node.page_from(key, page),
                        None => unreachable!(),
                    }
                    if !page.is_empty() {
                        return;
                    }
                }
            }
        }
    }
}

impl<V: Drop> Node<V> {
    /// Replaces the value at a key in place, and returns the old one, or `Err` with the new one if the key isn't there.
    pub fn replace(&mut self, key: u64, value: V) -> Result<V, V>
        ensures rows { self.new ≡ record self.old { rows = with_row_at key_of_pair key (key, value) self.old.rows } }
        ensures well { IsWell self.new }
        ensures value { result ≡ ok_or (value_at key self.old.rows) value }
    {
        let mut swap = Swap { value };
        if self.revise(key, &mut swap) {
            return Ok(swap.value);
        }
        Err(swap.value)
    }

    /// Changes the value at a key where it lies. It returns false if the key isn't there, and then nothing has changed.
    /// A look counts as no step.
    pub fn revise<E: Revise<V>>(&mut self, key: u64, revision: &mut E) -> bool
        ensures rows { self.new ≡ record self.old { rows = revised_at key (E.revised revision.old) self.old.rows } }
        ensures well { IsWell self.new }
        ensures spent { revision.new ≡ spent_at key E.spent revision.old self.old.rows }
        ensures found { result ≡ is_some (value_at key self.old.rows) }
    {
        self.revise_row::<E, false>(key, 0, 0, revision)
    }

    /// Changes the value at a key where it lies, as `revise` does. It is quicker than that in a dense tree, in the same
    /// way as `find_by_guess`.
    pub fn revise_by_guess<E: Revise<V>>(&mut self, key: u64, shift: u32, revision: &mut E) -> bool
        ensures rows { self.new ≡ record self.old { rows = revised_at key (E.revised revision.old) self.old.rows } }
        ensures well { IsWell self.new }
        ensures spent { revision.new ≡ spent_at key E.spent revision.old self.old.rows }
        ensures found { result ≡ is_some (value_at key self.old.rows) }
    {
        let least = self.least();
        self.revise_row::<E, true>(key, shift, least, revision)
    }

    /// Changes the value at a key, for which it looks as `find_row` does.
    fn revise_row<E: Revise<V>, const GUESSED: bool>(
        &mut self,
        key: u64,
        shift: u32,
        least: u64,
        revision: &mut E,
    ) -> bool
        ensures rows { self.new ≡ record self.old { rows = revised_at key (E.revised revision.old) self.old.rows } }
        ensures well { IsWell self.new }
        ensures spent { revision.new ≡ spent_at key E.spent revision.old self.old.rows }
        ensures found { result ≡ is_some (value_at key self.old.rows) }
    {
        let rows = rows_before(key, least, shift);
        match &mut self.body {
            Body::Leaf(leaf) => revise_entry_at::<V, E, GUESSED>(
                leaf,
                key,
                rows as usize,
                revision,
            ),
            Body::Inner(inner) => {
                let guess = child_behind(rows, inner.height);
                let place = child_place_at::<Box<Node<V>>, GUESSED>(inner, key, guess);
                let child_least = inner.leasts[place];
                match &mut inner.children[place] {
                    Some(child) => {
                        let node = &mut *child.node;
                        node.revise_row::<E, GUESSED>(key, shift, child_least, revision)
                    }
                    None => unreachable!(),
                }
            }
        }
    }

    /// Adds a row in place if its leaf has room, without a new node. The value is taken if the row went in.
    pub fn insert_room(&mut self, key: u64, value: &mut Option<V>) -> Room
        requires small { key < key_limit }
        requires some { IsSome value.old }
        ensures answer { IfSome value.old (λ v. IsRoomAnswer key v self.old self.new result) }
        ensures value { value.new ≡ (if is_done result then None else value.old) }
    {
        match &mut self.body {
            Body::Leaf(leaf) => insert_entry(leaf, key, value),
            Body::Inner(inner) => {
                let place = child_place(inner, key);
                match &mut inner.children[place] {
                    Some(child) => {
                        let node = &mut *child.node;
                        let answer = node.insert_room(key, value);
                        let is_in = answer.is_done();
                        child.count += u64::from(is_in);
                        inner.leasts[place] = least_after(inner.leasts[place], key, is_in);
                        answer
                    }
                    None => unreachable!(),
                }
            }
        }
    }
}

impl<V: Drop + Default> Node<V> {
    /// Removes the row at a key in place, and evens out nodes that are less than half full. It takes two steps for each
    /// level, and four for each two neighbours that are evened out. A root may be left with one child.
    pub fn remove(&mut self, key: u64, meter: &mut Meter) -> Option<V>
        requires { 0 < self.old.height → 2 ≤ self.old.width }
        ensures new { IsShrunk key self.old self.new }
        ensures value { result ≡ value_at key self.old.rows }
        ensures no_fewer { after_steps (2 * (self.old.height + 1)) meter.old ≤ meter.new }
        ensures steps { meter.new ≤ meter.old + (2 * (self.old.height + 1) + 4 * self.old.height) }
    {
        let mut gone = None;
        self.take_at(key, &mut gone, meter);
        gone
    }

    /// Removes the row at a key in place, and puts its value into `gone`. The value moves only once.
    fn take_at(&mut self, key: u64, gone: &mut Option<V>, meter: &mut Meter)
        requires { 0 < self.old.height → 2 ≤ self.old.width }
        ensures new { IsShrunk key self.old self.new }
        ensures value { gone.new ≡ value_at key self.old.rows }
        ensures no_fewer { after_steps (2 * (self.old.height + 1)) meter.old ≤ meter.new }
        ensures steps { meter.new ≤ meter.old + (2 * (self.old.height + 1) + 4 * self.old.height) }
    {
        meter.tick(2);
        match &mut self.body {
            Body::Leaf(leaf) => put(gone, remove_entry(leaf, key)),
            Body::Inner(inner) => {
                let place = child_place(inner, key);
                match &mut inner.children[place] {
                    Some(child) => {
                        let node = &mut *child.node;
                        node.take_at(key, gone, meter);
                        let least = note_gone(child, gone.is_some());
                        inner.leasts[place] = least;
                        rebalance(inner, place, meter);
                    }
                    None => unreachable!(),
                }
            }
        }
    }

    /// Adds a row whose key isn't there, in place. Each full node on the path first gives entries to the one before it,
    /// if that has much room, in four steps, and is otherwise halved, in three steps and with one blank node. In
    /// addition, there are two steps for each level.
    pub fn insert_split(
        &mut self,
        key: u64,
        value: &mut Option<V>,
        stock: &mut Stock<V>,
        meter: &mut Meter,
    )
        requires small { key < key_limit }
        requires some { IsSome value.old }
        requires missing { row_at key_of_pair key self.old.rows ≡ None }
        requires room { self.old.width < 32 }
        requires stock { self.old.height ≤ stock.old }
        ensures grown { IfSome value.old (λ v. IsGrown key v self.old self.new) }
        ensures value { value.new ≡ None }
        ensures stock { stock.new ≤ stock.old }
        ensures used { stock.old ≤ stock.new + self.old.height }
        ensures no_fewer { after_steps (2 * (self.old.height + 1) + 3 * (stock.old - stock.new)) meter.old ≤ meter.new }
        ensures steps { meter.new ≤ meter.old + (2 * (self.old.height + 1) + 3 * (stock.old - stock.new) + 4 * (self.old.height - (stock.old - stock.new))) }
        ensures made { IsRoomMade self.old.height (stock.old - stock.new) (after_steps (2 * (self.old.height + 1)) meter.old) meter.new }
    {
        meter.tick(2);
        match &mut self.body {
            Body::Leaf(leaf) => insert_new(leaf, key, value),
            Body::Inner(inner) => {
                let place = make_room(inner, key, stock, meter);
                match &mut inner.children[place] {
                    Some(child) => {
                        let node = &mut *child.node;
                        node.insert_split(key, value, stock, meter);
                        child.count += 1;
                        inner.leasts[place] = inner.leasts[place].min(key);
                    }
                    None => unreachable!(),
                }
            }
        }
    }

    /// Puts a full node under a new root of two halves, which takes two blank nodes. It takes four steps.
    #[cold]
    #[inline(never)]
    pub fn add_root(&mut self, stock: &mut Stock<V>, meter: &mut Meter)
        requires full { self.old.width ≡ 32 }
        requires well { IsWell self.old }
        requires stock { 2 ≤ stock.old }
        ensures root { HasNewRoot self.old self.new }
        ensures stock { stock.old ≡ stock.new + 2 }
        ensures steps { meter.new ≡ after_steps 4 meter.old }
    {
        let mut low = stock.give();
        let high = stock.give();
        *low = mem::replace(self, Node::new());
        *self = root_over(low, high, meter);
    }

    /// Removes an inner root that has one child, and with it a level. It takes one step.
    pub fn lower(&mut self, meter: &mut Meter)
        requires well { IsWell self.old }
        requires some { 0 < self.old.height → 0 < self.old.width }
        ensures lowered { IsLowered self.old self.new }
        ensures level { (self.new.height ≤ self.old.height) × (self.old.height ≤ self.new.height + 1) }
        ensures kept { 2 ≤ self.old.width → self.new ≡ self.old }
        ensures no_fewer { after_steps (self.old.height - self.new.height) meter.old ≤ meter.new }
        ensures steps { meter.new ≤ meter.old + (self.old.height - self.new.height) }
    {
        if self.height() == 0 {
            return;
        }
        if self.width() >= 2 {
            return;
        }
        drop_root(self, meter);
    }

    /// Moves the upper half of a full node into another one, whose own rows are dropped.
    pub(crate) fn halve_into(&mut self, high: &mut Node<V>)
        requires { self.old.width ≡ 32 }
        ensures { IsHalved self.old self.new high.new }
    {
        make_blank(high);
        match &mut self.body {
            Body::Leaf(left) => match &mut high.body {
                Body::Leaf(right) => share(left, right, 16),
                Body::Inner(_) => unreachable!(),
            },
            Body::Inner(left) => {
                let mut right = empty_inner(left.height);
                share(left, &mut right, 16);
                put_inner(high, right)
            }
        }
    }

    /// Evens out a node and its next neighbour of the same height in place. It returns true if the first has all rows
    /// then, and otherwise both are half full. It takes four steps.
    pub fn even_with(&mut self, next: &mut Node<V>, meter: &mut Meter) -> bool
        requires level { self.old.height ≡ next.old.height }
        requires ordered { IsOrderedBy key_of_pair (self.old.rows ++ next.old.rows) }
        ensures nodes { AreEvened result self.old next.old self.new next.new }
        ensures steps { meter.new ≡ after_steps 4 meter.old }
    {
        let low = low_of(self.width() + next.width());
        self.share_with(next, low, meter)
    }

    /// Moves entries between a node and its next neighbour of the same height until the first has `low`. It returns
    /// true if the first has all rows then, and otherwise both are half full. It takes four steps.
    pub(crate) fn share_with(&mut self, next: &mut Node<V>, low: usize, meter: &mut Meter) -> bool
        requires level { self.old.height ≡ next.old.height }
        requires ordered { IsOrderedBy key_of_pair (self.old.rows ++ next.old.rows) }
        requires share { IsShare (self.old.width + next.old.width) low }
        ensures nodes { AreEvened result self.old next.old self.new next.new }
        ensures width { self.new.width ≡ low }
        ensures steps { meter.new ≡ after_steps 4 meter.old }
    {
        meter.tick(4);
        match &mut self.body {
            Body::Leaf(left) => match &mut next.body {
                Body::Leaf(right) => even(left, right, low),
                Body::Inner(_) => unreachable!(),
            },
            Body::Inner(left) => match &mut next.body {
                Body::Leaf(_) => unreachable!(),
                Body::Inner(right) => {
                    let all = even(left, right, low);
                    let_go(&mut next.body, all);
                    all
                }
            },
        }
    }
}

/// Puts a value into a place, and drops what was there.
fn put<V: Drop>(gone: &mut Option<V>, value: Option<V>)
    ensures { gone.new ≡ value }
{
    *gone = value;
}

/// Updates the count of a child after a removal below it, which removed a row or not, and returns the child's least
/// key.
fn note_gone<V>(child: &mut Child<Box<Node<V>>>, is_gone: bool) -> u64
    ensures node { child.new.node ≡ child.old.node }
    ensures least { 0 < child.old.node.value.width → StartsWith result child.old.node.value.rows }
    ensures count { child.new.count ≡ child.old.count - (if is_gone then 1 else 0) }
{
    child.count = child.count.saturating_sub(u64::from(is_gone));
    child.node.least()
}

/// Returns the least key of a child after an insertion below it, which added a row or not.
fn least_after(least: u64, key: u64, is_in: bool) -> u64
    ensures { result ≡ (if is_in then min least key else least) }
{
    if is_in {
        return least.min(key);
    }
    least
}

/// Makes a node a leaf without entries, if it isn't one.
fn make_blank<V: Drop + Default>(node: &mut Node<V>)
    ensures { node.new ≡ record { height = 0; width = 0; rows = [] } }
{
    if node.height() == 0 && node.width() == 0 {
        return;
    }
    *node = Node::new();
}

/// Replaces the parts of a node with those of a leaf without entries, if no child is left.
fn let_go<V: Drop + Default>(body: &mut Body<V, Box<Node<V>>>, none: bool)
    ensures gone { none ≡ true → IsNode body.new }
    ensures kept { none ≡ false → body.new ≡ body.old }
{
    if !none {
        return;
    }
    *body = Body::Leaf(empty_leaf());
}

/// Makes a node a leaf with these entries.
fn put_leaf<V: Drop>(node: &mut Node<V>, leaf: Leaf<V>)
    requires { IsLeaf leaf }
    ensures { node.new ≡ seen_leaf leaf }
{
    *node = Node {
        body: Body::Leaf(leaf),
    };
}

/// Makes a node an inner node with these children.
fn put_inner<V: Drop>(node: &mut Node<V>, inner: Inner<Box<Node<V>>>)
    requires { IsInner inner }
    ensures { node.new ≡ seen_inner inner }
{
    *node = Node {
        body: Body::Inner(inner),
    };
}

/// Puts a node into an inner node's part at a place, with its least key and its count.
pub fn insert_child<V: Drop>(inner: &mut Inner<Box<Node<V>>>, place: usize, node: Box<Node<V>>)
    requires entries { AreEntries inner.old.len inner.old.leasts inner.old.children }
    requires room { inner.old.len < 32 }
    requires within { place ≤ inner.old.len }
    requires node { IsChildNode node.value.height node.value }
    ensures height { inner.new.height ≡ inner.old.height }
    ensures len { inner.new.len ≡ inner.old.len + 1 }
    ensures entries { AreEntries inner.new.len inner.new.leasts inner.new.children }
    ensures children { HasOneMoreChild place node.value inner.old inner.new }
{
    let least = node.least();
    let count = node.len();
    put_child(inner, place, least, Child { count, node });
}

/// Makes a new root over the halves of a full node.
fn root_over<V: Drop + Default>(
    mut node: Box<Node<V>>,
    mut blank: Box<Node<V>>,
    meter: &mut Meter,
) -> Node<V>
    requires full { node.value.width ≡ 32 }
    requires well { IsWell node.value }
    ensures root { HasNewRoot node.value result }
    ensures steps { meter.new ≡ after_steps 4 meter.old }
{
    meter.tick(4);
    let mut root = empty_inner(node.height() + 1);
    node.halve_into(&mut *blank);
    insert_child(&mut root, 0, node);
    insert_child(&mut root, 1, blank);
    Node {
        body: Body::Inner(root),
    }
}

/// Puts the only child of an inner root in the place of the root.
#[cold]
#[inline(never)]
fn drop_root<V: Drop + Default>(root: &mut Node<V>, meter: &mut Meter)
    requires above_leaves { 0 < root.old.height }
    requires one { root.old.width ≡ 1 }
    ensures lowered { IsLowered root.old root.new }
    ensures level { root.old.height ≡ root.new.height + 1 }
    ensures steps { meter.new ≡ after_steps 1 meter.old }
{
    let node = mem::replace(root, Node::new());
    *root = only_child(node, meter);
}

/// Takes an inner node apart, and returns its only child.
fn only_child<V: Drop + Default>(node: Node<V>, meter: &mut Meter) -> Node<V>
    requires above_leaves { 0 < node.height }
    requires one { node.width ≡ 1 }
    ensures rows { result.rows ≡ node.rows }
    ensures well { IsWell result }
    ensures two { 2 ≤ result.width }
    ensures level { node.height ≡ result.height + 1 }
    ensures steps { meter.new ≡ after_steps 1 meter.old }
{
    meter.tick(1);
    match node.into_body() {
        Body::Leaf(_) => unreachable!(),
        Body::Inner(mut inner) => {
            let child = take_child(&mut inner, 0);
            Box::into_inner(child.node)
        }
    }
}

/// Takes a node apart, and returns its parts, and its box, which is blank now. It takes one step.
pub fn open<V: Drop + Default>(
    mut node: Box<Node<V>>,
    meter: &mut Meter,
) -> (Body<V, Box<Node<V>>>, Box<Node<V>>)
    ensures seen { seen result.0 ≡ node.value }
    ensures whole { IsNode result.0 }
    ensures blank { result.1.value ≡ record { height = 0; width = 0; rows = [] } }
    ensures steps { meter.new ≡ after_steps 1 meter.old }
{
    meter.tick(1);
    let body = mem::replace(&mut *node, Node::new()).into_body();
    (body, node)
}

/// Builds a leaf with these entries in a box. It takes one step.
pub fn build_leaf<V: Drop>(
    leaf: Leaf<V>,
    mut blank: Box<Node<V>>,
    meter: &mut Meter,
) -> Box<Node<V>>
    requires { IsLeaf leaf }
    ensures seen { result.value ≡ seen_leaf leaf }
    ensures steps { meter.new ≡ after_steps 1 meter.old }
{
    meter.tick(1);
    put_leaf(&mut *blank, leaf);
    blank
}

/// Builds an inner node with these children in a box. It takes one step.
pub fn build_inner<V: Drop>(
    inner: Inner<Box<Node<V>>>,
    mut blank: Box<Node<V>>,
    meter: &mut Meter,
) -> Box<Node<V>>
    requires { IsInner inner }
    ensures seen { result.value ≡ seen_inner inner }
    ensures steps { meter.new ≡ after_steps 1 meter.old }
{
    meter.tick(1);
    put_inner(&mut *blank, inner);
    blank
}
