//! The cut of a part in two, and the join of two parts.
ghost use Rattle.std.specs.Prelude.{◌≡◌, ◌<◌, ◌≤◌, ℕ, [], Err, IfOk, IfErr, OnOk, OnErr};
ghost use Rattle.group_tree.specs.Groups.{IsBase};
ghost use Rattle.group_tree.specs.Tables.{subscriber_span};
ghost use Rattle.mr_cut.specs.Bounds.{most_of_slice, fewest_of_slice, most_of_meld, fewest_of_meld};
ghost use Rattle.tatp_actions.specs.Book.{empty_book};
ghost use Rattle.tatp_actions.specs.Cut.{given_part, kept_part, melded, Touch, AreHeightsOf, slice_bound, slice_least, meld_bound, meld_least};
ghost use Rattle.tatp_actions.specs.CutTables.{AreApartAt, AreGroupsApartAt, kept_rows, given_rows, joined_rows, kept_tables, given_tables, joined_tables, TablesApartAt, tables_of, heights_of, IsForSlice, IsForMeld, AreForSlice, AreForMeld};
ghost use Rattle.tatp_actions.specs.Heights.{zero_heights};
ghost use Rattle.tatp_actions.specs.Part.{IsPart};
ghost use Rattle.tatp_actions.specs.Tables.{empty_tables};

use crate::part::Part;
use crate::stocks::Stocks;
use crate::trees::Trees;
use group_tree::{Group, GroupTree, Row};
use mr_cut::{meld_from, slice_into};
use mr_node::Stock;
use mr_subtree::SubTree;
use part_table::Side;
use std::mem;
use tatp_rows::{Back, Refusal, subscriber_key};

/// Cuts a tree at a key. It keeps the rows of one side, and moves those of the side that is named into another tree, in
/// place of the rows there. It returns how many steps it took.
fn cut_tree<V: Drop + Default>(
    tree: &mut SubTree<V>,
    given: &mut SubTree<V>,
    side: Side,
    key: u64,
    mut stock: Stock<V>,
) -> u64
    requires { IsForSlice tree.old.height stock }
    ensures kept { tree.new.rows ≡ kept_rows side key tree.old.rows }
    ensures given { given.new.rows ≡ given_rows side key tree.old.rows }
    ensures steps { result ≤ most_of_slice tree.old.height }
    ensures no_fewer { fewest_of_slice tree.old.height ≤ result }
{
    let (steps, _) = slice_into(tree, given, key, &mut stock);
    match side {
        Side::Low => {
            exchange(tree, given);
            steps
        }
        Side::High => steps,
    }
}

/// Cuts a tree of groups at a key at which a group may begin, as `cut_tree` does. No group is cut.
fn cut_groups<R: Row, G: Group<R>>(
    tree: &mut GroupTree<R, G>,
    given: &mut GroupTree<R, G>,
    side: Side,
    key: u64,
    mut stock: Stock<G>,
) -> u64
    requires key { IsBase G.span key }
    requires stock { IsForSlice tree.old.height stock }
    ensures kept { tree.new.rows ≡ kept_rows side key tree.old.rows }
    ensures given { given.new.rows ≡ given_rows side key tree.old.rows }
    ensures steps { result ≤ most_of_slice tree.old.height }
    ensures no_fewer { fewest_of_slice tree.old.height ≤ result }
{
    let (steps, _) = tree.slice_into(given, key, &mut stock);
    match side {
        Side::Low => {
            exchange(tree, given);
            steps
        }
        Side::High => steps,
    }
}

/// Exchanges two trees. The function is not inlined, so that no tree is on the stack of a cut or a join.
#[inline(never)]
fn exchange<T: Drop>(one: &mut T, two: &mut T)
    ensures one { one.new ≡ two.old }
    ensures two { two.new ≡ one.old }
{
    mem::swap(one, two);
}

/// Joins a tree with another one, whose keys are all higher or all lower. The tree has the rows of both afterwards, and
/// the other one has none. It returns how many steps it took.
fn join_tree<V: Drop + Default>(
    tree: &mut SubTree<V>,
    other: &mut SubTree<V>,
    side: Side,
    mut stock: Stock<V>,
) -> u64
    requires apart { AreApartAt side tree.old.rows other.old.rows }
    requires stock { IsForMeld tree.old.height other.old.height stock }
    ensures rows { tree.new.rows ≡ joined_rows side tree.old.rows other.old.rows }
    ensures other { other.new.rows ≡ [] }
    ensures other_height { other.new.height ≡ 0 }
    ensures steps { result ≤ most_of_meld tree.old.height other.old.height }
    ensures no_fewer { fewest_of_meld tree.old.height other.old.height ≤ result }
{
    match side {
        Side::Low => {
            let steps = meld_from(other, tree, &mut stock);
            exchange(tree, other);
            steps
        }
        Side::High => meld_from(tree, other, &mut stock),
    }
}

/// Joins a tree of groups with another one, whose groups all lie behind or all lie in front, as `join_tree` does.
fn join_groups<R: Row, G: Group<R>>(
    tree: &mut GroupTree<R, G>,
    other: &mut GroupTree<R, G>,
    side: Side,
    mut stock: Stock<G>,
) -> u64
    requires apart { AreGroupsApartAt G.span side tree.old.rows other.old.rows }
    requires stock { IsForMeld tree.old.height other.old.height stock }
    ensures rows { tree.new.rows ≡ joined_rows side tree.old.rows other.old.rows }
    ensures other { other.new.rows ≡ [] }
    ensures other_height { other.new.height ≡ 0 }
    ensures steps { result ≤ most_of_meld tree.old.height other.old.height }
    ensures no_fewer { fewest_of_meld tree.old.height other.old.height ≤ result }
{
    match side {
        Side::Low => {
            let steps = other.meld_from(tree, &mut stock);
            exchange(tree, other);
            steps
        }
        Side::High => tree.meld_from(other, &mut stock),
    }
}

impl Trees {
    /// Cuts the trees at a key between two subscribers. They keep one side, and the side that is named goes into other
    /// trees, which were not asked yet. It returns how many steps it took.
    fn cut_into(&mut self, given: &mut Trees, side: Side, key: u64, stocks: Stocks) -> u64
        requires key { IsBase subscriber_span key }
        requires stocks { AreForSlice (heights_of self.old) stocks }
        ensures kept { tables_of self.new ≡ kept_tables side key (tables_of self.old) }
        ensures given { tables_of given.new ≡ given_tables side key (tables_of self.old) }
        ensures asked { self.new.asked ≡ self.old.asked }
        ensures given_asked { given.new.asked ≡ 0 }
        ensures steps { result ≤ slice_bound (heights_of self.old) }
        ensures no_fewer { slice_least (heights_of self.old) ≤ result }
    {
        let Stocks {
            subscribers,
            access,
            facilities,
            forwardings,
        } = stocks;
        given.asked = 0;
        cut_tree(
            &mut self.subscribers,
            &mut given.subscribers,
            side,
            key,
            subscribers,
        ) + cut_groups(&mut self.access, &mut given.access, side, key, access)
            + cut_groups(
                &mut self.facilities,
                &mut given.facilities,
                side,
                key,
                facilities,
            )
            + cut_groups(
                &mut self.forwardings,
                &mut given.forwardings,
                side,
                key,
                forwardings,
            )
    }

    /// Joins the trees with others, whose keys are all higher or all lower, and which have no row afterwards. It
    /// returns how many steps it took.
    fn join_from(&mut self, other: &mut Trees, side: Side, stocks: Stocks) -> u64
        requires apart { TablesApartAt side (tables_of self.old) (tables_of other.old) }
        requires stocks { AreForMeld (heights_of self.old) (heights_of other.old) stocks }
        ensures rows { tables_of self.new ≡ joined_tables side (tables_of self.old) (tables_of other.old) }
        ensures other { tables_of other.new ≡ empty_tables }
        ensures other_heights { heights_of other.new ≡ zero_heights }
        ensures asked { (self.new.asked ≡ self.old.asked) × (other.new.asked ≡ other.old.asked) }
        ensures steps { result ≤ meld_bound (heights_of self.old) (heights_of other.old) }
        ensures no_fewer { meld_least (heights_of self.old) (heights_of other.old) ≤ result }
    {
        let Stocks {
            subscribers,
            access,
            facilities,
            forwardings,
        } = stocks;
        join_tree(
            &mut self.subscribers,
            &mut other.subscribers,
            side,
            subscribers,
        ) + join_groups(&mut self.access, &mut other.access, side, access)
            + join_groups(
                &mut self.facilities,
                &mut other.facilities,
                side,
                facilities,
            )
            + join_groups(
                &mut self.forwardings,
                &mut other.forwardings,
                side,
                forwardings,
            )
    }
}

impl Part {
    /// Cuts the part at a subscriber strictly inside its range. It keeps one half, and returns the other one, on the
    /// side that is named, as a part that was never asked, cut or joined.
    ///
    /// It returns `Memory` if the system refuses memory for the blank nodes, all of which are taken first, and then the
    /// part is as before.
    pub fn slice(&mut self, at: u32, side: Side) -> Result<Part, Refusal>
        requires inside { (self.old.lo < at) × (at < self.old.hi) }
        ensures given { IfOk result (λ given. given ≡ record (given_part side at self.old) {
          asked = 0;
          steps = 0;
          heights = given.heights;
        }) }
        ensures kept { OnOk result (self.new ≡ record (kept_part side at self.old) {
          steps = self.new.steps;
          heights = self.new.heights;
        }) }
        ensures steps { OnOk result
            ((self.new.steps ≤ slice_bound self.old.heights) × (slice_least self.old.heights ≤ self.new.steps)) }
        ensures heights { OnOk result (AreHeightsOf self.old.heights self.old.book) }
        ensures refused { OnErr result ((result ≡ Err Refusal.Memory) × (self.new ≡ self.old)) }
        ensures before { IsPart self.old }
        ensures after { IsPart self.new }
        ensures rules { IfOk result IsPart }
    {
        let Ok(mut given) = Part::new(self.alloc, 1, 2, 1) else {
            unreachable!()
        };
        match self.slice_into(at, side, &mut given) {
            Ok(()) => Ok(given),
            Err(why) => {
                drop(given);
                Err(why)
            }
        }
    }

    /// Cuts the part at a subscriber strictly inside its range, as `slice` does, and puts the half that it gives away
    /// in the place of another part, whose own rows are dropped.
    ///
    /// It returns `Memory` if the system refuses memory for the blank nodes, all of which are taken first, and then
    /// both are as before.
    pub fn slice_into(&mut self, at: u32, side: Side, given: &mut Part) -> Result<(), Refusal>
        requires inside { (self.old.lo < at) × (at < self.old.hi) }
        ensures given { OnOk result (given.new ≡ record (given_part side at self.old) {
          asked = 0;
          steps = 0;
          heights = given.new.heights;
        }) }
        ensures kept { OnOk result (self.new ≡ record (kept_part side at self.old) {
          steps = self.new.steps;
          heights = self.new.heights;
        }) }
        ensures steps { OnOk result
            ((self.new.steps ≤ slice_bound self.old.heights) × (slice_least self.old.heights ≤ self.new.steps)) }
        ensures heights { OnOk result (AreHeightsOf self.old.heights self.old.book) }
        ensures refused { OnErr result ((result ≡ Err Refusal.Memory) × (self.new ≡ self.old) × (given.new ≡ given.old)) }
        ensures before { IsPart self.old }
        ensures after { IsPart self.new }
        ensures rules { IsPart given.new }
    {
        // Opens the other part for the prover: it keeps its rules where this one is refused.
        let _ = &given.rows;
        let stocks = Stocks::for_slice(self.alloc, &self.rows)?;
        let steps = self
            .rows
            .cut_into(&mut given.rows, side, subscriber_key(at), stocks);
        self.last_steps = steps;
        given.width = self.width;
        given.last_steps = 0;
        match side {
            Side::Low => {
                given.lo = self.lo;
                given.hi = at;
                self.lo = at;
                Ok(())
            }
            Side::High => {
                given.lo = at;
                given.hi = self.hi;
                self.hi = at;
                Ok(())
            }
        }
    }

    /// Takes the rows and the range of another part with the same zone width, which begins where this one ends, or ends
    /// where it begins.
    ///
    /// It returns `Memory` if the system refuses memory for the blank nodes, all of which are taken first. Then the
    /// part is as before, and the other one is handed back as it was.
    pub fn meld(&mut self, mut other: Part) -> Result<(), Back<Part>>
        requires touch { Touch self.old other }
        requires width { self.old.width ≡ other.width }
        ensures melded { OnOk result (self.new ≡ record (melded self.old other) {
          steps = self.new.steps;
          heights = self.new.heights;
        }) }
        ensures steps { OnOk result ((self.new.steps ≤ meld_bound self.old.heights other.heights)
            × (meld_least self.old.heights other.heights ≤ self.new.steps)) }
        ensures heights { OnOk result (AreHeightsOf self.old.heights self.old.book) }
        ensures other_heights { OnOk result (AreHeightsOf other.heights other.book) }
        ensures refused { IfErr result (λ back. back ≡ record { why = Refusal.Memory; item = other }) }
        ensures unchanged { OnErr result (self.new ≡ self.old) }
        ensures before { IsPart self.old }
        ensures other { IsPart other }
        ensures after { IsPart self.new }
    {
        match self.meld_from(&mut other) {
            Ok(()) => {
                drop(other);
                Ok(())
            }
            Err(why) => Err(Back { why, item: other }),
        }
    }

    /// Takes the rows and the range of another part, as `meld` does, and leaves it without rows.
    ///
    /// It returns `Memory` if the system refuses memory for the blank nodes, all of which are taken first, and then
    /// both are as before.
    pub fn meld_from(&mut self, other: &mut Part) -> Result<(), Refusal>
        requires touch { Touch self.old other.old }
        requires width { self.old.width ≡ other.old.width }
        ensures melded { OnOk result (self.new ≡ record (melded self.old other.old) {
          steps = self.new.steps;
          heights = self.new.heights;
        }) }
        ensures left { OnOk result (other.new ≡ record other.old { book = empty_book; heights = zero_heights }) }
        ensures steps { OnOk result ((self.new.steps ≤ meld_bound self.old.heights other.old.heights)
            × (meld_least self.old.heights other.old.heights ≤ self.new.steps)) }
        ensures heights { OnOk result (AreHeightsOf self.old.heights self.old.book) }
        ensures other_heights { OnOk result (AreHeightsOf other.old.heights other.old.book) }
        ensures refused { OnErr result ((result ≡ Err Refusal.Memory) × (self.new ≡ self.old) × (other.new ≡ other.old)) }
        ensures before { IsPart self.old }
        ensures other { IsPart other.old }
        ensures after { IsPart self.new }
        ensures rest { IsPart other.new }
    {
        let stocks = Stocks::for_meld(self.alloc, &self.rows, &other.rows)?;
        if self.hi == other.lo {
            let steps = self.rows.join_from(&mut other.rows, Side::High, stocks);
            self.hi = other.hi;
            self.last_steps = steps;
            return Ok(());
        }
        let steps = self.rows.join_from(&mut other.rows, Side::Low, stocks);
        self.lo = other.lo;
        self.last_steps = steps;
        Ok(())
    }

    /// Returns how many steps the last cut or join of the part took, or 0 if there was none.
    pub fn last_steps(&self) -> u64
        ensures { result ≡ self.now.steps }
    {
        self.last_steps
    }
}
