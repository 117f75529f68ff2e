//! The cut of a tree of groups in two, and the join of two trees.
ghost use Rattle.std.specs.Prelude.{◌≡◌, ◌+◌, ◌-◌, ◌*◌, ◌≤◌, max, ◌++◌, []};
ghost use Rattle.std.specs.Int.{abs_diff};
ghost use Rattle.mr_cut.specs.Bounds.{join_steps, blanks_for_slice, most_of_joins, most_of_slice, blanks_for_meld, most_of_meld, fewest_of_meld};
ghost use Rattle.mr_cut.specs.Cuts.{rows_below, rows_from};
ghost use Rattle.group_tree.specs.Groups.{AreGroupsApart, IsBase};

use crate::group::{Group, Row};
use crate::tree::GroupTree;
use mr_cut::{meld_from, slice_into};
use mr_node::Stock;

impl<R: Row, G: Group<R>> GroupTree<R, G> {
    /// Cuts the tree at a key at which a group may begin, so that no group is cut. It keeps the rows with keys below
    /// the key, and the others replace the rows of another tree. It returns how many steps it took, and how many of
    /// them were on the path. It takes no memory except the blank nodes of the stock (`need_slice`).
    pub fn slice_into(&mut self, high: &mut Self, key: u64, stock: &mut Stock<G>) -> (u64, u64)
        requires key { IsBase G.span key }
        requires stock { blanks_for_slice self.old.height ≤ stock.old }
        ensures low { self.new.rows ≡ rows_below key self.old.rows }
        ensures high { high.new.rows ≡ rows_from key self.old.rows }
        ensures apart { AreGroupsApart G.span self.new.rows high.new.rows }
        ensures heights { (self.new.height ≤ self.old.height) × (high.new.height ≤ self.old.height) }
        ensures path { result.1 ≤ 3 * (self.old.height + 1) }
        ensures path_no_fewer { self.old.height + 3 ≤ result.1 }
        ensures joins { result.0 ≤ result.1 + most_of_joins self.old.height }
        ensures steps { result.0 ≤ most_of_slice self.old.height }
        ensures no_fewer { result.1 + 8 * self.old.height ≤ result.0 }
    {
        slice_into(&mut self.groups, &mut high.groups, key, stock)
    }

    /// Takes the rows of another tree, whose groups all come behind those of this one, and which has none then. It
    /// returns how many steps it took. It takes no memory except the blank nodes of the stock (`need_meld`).
    pub fn meld_from(&mut self, high: &mut Self, stock: &mut Stock<G>) -> u64
        requires apart { AreGroupsApart G.span self.old.rows high.old.rows }
        requires stock { blanks_for_meld self.old.height high.old.height ≤ stock.old }
        ensures rows { self.new.rows ≡ self.old.rows ++ high.old.rows }
        ensures stock { stock.new + 2 ≤ stock.old }
        ensures used { stock.old ≤ stock.new + blanks_for_meld self.old.height high.old.height }
        ensures count { result ≡ join_steps (abs_diff self.old.height high.old.height) (stock.old - stock.new - 2) (self.new.height - max self.old.height high.old.height) }
        ensures steps { result ≤ most_of_meld self.old.height high.old.height }
        ensures no_fewer { fewest_of_meld self.old.height high.old.height ≤ result }
        ensures left { (high.new.rows ≡ []) × (high.new.height ≡ 0) }
    {
        meld_from(&mut self.groups, &mut high.groups, stock)
    }
}
