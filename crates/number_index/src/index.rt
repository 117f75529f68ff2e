//! The index of numbers, as a sub-tree that maps numbers to subscribers.
ghost use Rattle.std.specs.Prelude.{◌≡◌, ◌<◌, ◌≤◌, ℕ, [], length, nat_le, option_map, IfOk, IfErr, Err};
ghost use Rattle.std.specs.List.{find};
ghost use Rattle.tatp_rows.specs.Ordered.{without_row};
ghost use Rattle.tatp_rows.specs.Number.{IsNumber};
ghost use Rattle.mr_node.specs.Pages.{IsPage};
ghost use Rattle.mr_node.specs.Rows.{key_of_pair};
ghost use Rattle.number_index.specs.Pairs.{ArePairs, bearer_in, IsAdded, IsRenamed};

use arrayvec::ArrayVec;
use mr_subtree::SubTree;
use std::alloc::Global;
use std::marker::Model;
use tatp_rows::{Number, Refusal};

/// At most 32 successive pairs of a number and a subscriber.
pub type Page = ArrayVec<(u64, u32), 32>;

/// The index of numbers, seen as the list of its pairs (number, s_id), whose numbers rise.
#[derive(Drop)]
pub struct NumberIndex {
    tree: SubTree<u32>,
}

impl Model for NumberIndex {
    ghost use Rattle.std.specs.Prelude.{ℕ, List};
    ghost use Rattle.number_index.specs.Pairs.{ArePairs};

    ghost Value = { List (ℕ × ℕ) };

    ghost view = { λ index. index.tree.rows };

    ghost invariant = { λ index. ArePairs index.tree.rows };
}

impl NumberIndex {
    /// Makes an index without a pair. Its tree takes no memory, so this always returns `Ok`.
    pub fn new(alloc: Global) -> Result<Self, Refusal>
        ensures index { IfOk result (λ index. index ≡ []) }
        ensures ok { IfErr result (λ _. ⊥) }
    {
        let tree = SubTree::new(alloc)?;
        Ok(NumberIndex { tree })
    }

    /// Finds the subscriber who has a number, or returns `None` if nobody has it.
    pub fn find(&self, number: Number) -> Option<u32>
        ensures { result ≡ bearer_in number self.now }
    {
        // The guess is right where numbers follow one another without a gap.
        self.tree.get_by_guess(number.value(), 0).copied()
    }

    /// Counts the pairs.
    pub fn len(&self) -> u64
        ensures { result ≡ length self.now }
    {
        self.tree.len()
    }

    /// Finds the first pair whose number is this one or higher, or returns `None` if there is none.
    pub fn first_from(&self, number: u64) -> Option<(Number, u32)>
        ensures first { result ≡ find (λ pair. nat_le number pair.0) self.now }
        ensures pairs { ArePairs self.now }
    {
        let (value, s_id) = self.tree.first_from(number)?;
        Some((as_number(value), *s_id))
    }

    /// Puts the next pairs, from a number on, into a page, in place of what it held. It puts at least one if there is
    /// one.
    pub fn page_from(&self, number: u64, page: &mut Page)
        ensures page { IsPage number self.now page.new.items }
        ensures pairs { ArePairs self.now }
    {
        page.clear();
        self.tree.page_from(number, page);
    }

    /// Adds a pair. Its refusals, in order, are `NumberTaken` if a subscriber has the number, and `Memory` if the index
    /// can't grow, and then it is as before.
    pub fn add(&mut self, number: Number, s_id: u32) -> Result<(), Refusal>
        ensures added { IsAdded number s_id self.old self.new result }
        ensures memory { IfErr result (λ why. why ≡ Refusal.Memory → 32 ≤ length self.old) }
    {
        let Err(back) = self.tree.insert(number.value(), s_id) else {
            return Ok(());
        };
        match back.why {
            Refusal::Exists => Err(Refusal::NumberTaken),
            _ => Err(Refusal::Memory),
        }
    }

    /// Removes a number, and returns the subscriber who had it. It takes no memory.
    pub fn remove(&mut self, number: Number) -> Option<u32>
        ensures pairs { self.new ≡ without_row key_of_pair number self.old }
        ensures owner { result ≡ bearer_in number self.old }
    {
        self.tree.remove(number.value())
    }

    /// Gives the subscriber who has a number another one, and changes nothing if the two are equal. Its refusals, in
    /// order, are `NoNumber` if no subscriber has the number, `NumberTaken` if one has the other, and `Memory` if the
    /// index can't grow. After a refusal the index is as before, because the new pair goes in before the old one comes
    /// out.
    pub fn rename(&mut self, from: Number, to: Number) -> Result<(), Refusal>
        ensures renamed { IsRenamed from to self.old self.new result (bearer_in from self.old) }
        ensures memory { IfErr result (λ why. why ≡ Refusal.Memory → 32 ≤ length self.old) }
    {
        let Some(s_id) = self.find(from) else {
            return Err(Refusal::NoNumber);
        };
        if from == to {
            return Ok(());
        }
        self.add(to, s_id)?;
        self.remove(from);
        Ok(())
    }
}

/// Returns a value, which must be a number, as one.
fn as_number(value: u64) -> Number
    requires { IsNumber value }
    ensures { result ≡ value }
{
    match Number::try_new(value) {
        Ok(number) => number,
        Err(_) => unreachable!(),
    }
}
