//! The blank nodes, which are taken ahead of a change.
ghost use Rattle.std.specs.Prelude.{◌≡◌, ◌+◌, ◌<◌, ◌≤◌, ℕ, max, MatchResult, OnErr};

use crate::Node;
use std::alloc::Global;
use std::marker::Model;
use tatp_rows::Refusal;

/// Blank nodes in boxes, seen as their number. Trees grow from them, so that a change of a tree takes no memory.
pub type Stock<V> = Blanks<Node<V>>;

/// Boxes, seen as their number.
#[derive(Drop)]
pub struct Blanks<N> {
    boxes: Vec<Box<N>>,
}

impl<N> Model for Blanks<N> {
    ghost use Rattle.std.specs.Prelude.{ℕ, vec_len};

    ghost Value = { ℕ };

    ghost view = { λ a. vec_len a.boxes };
}

impl<N> Blanks<N> {
    /// Makes a stock of no blank nodes. It takes no memory.
    pub fn none(alloc: Global) -> Self
        ensures { result ≡ 0 }
    {
        Blanks {
            boxes: Vec::new(alloc),
        }
    }

    /// Returns the allocator from which blank nodes are taken.
    pub fn alloc(&self) -> Global {
        *self.boxes.allocator()
    }
}

impl<V: Drop + Default> Blanks<Node<V>> {
    /// Takes `count` blank nodes. It returns `Memory` if the system refuses memory for them, and then none is kept.
    pub fn take(alloc: Global, count: usize) -> Result<Stock<V>, Refusal>
        ensures { MatchResult result (λ stock. stock ≡ count) (λ why. why ≡ Refusal.Memory) }
    {
        let mut stock = Stock::none(alloc);
        stock.fill(count)?;
        Ok(stock)
    }

    /// Takes blank nodes until there are `count`. It returns `Memory` if the system refuses memory for them, and keeps
    /// those that it took before.
    pub fn fill(&mut self, count: usize) -> Result<(), Refusal>
        ensures filled { MatchResult result (λ _. self.new ≡ max self.old count) (λ why. why ≡ Refusal.Memory) }
        ensures short { OnErr result ((self.old ≤ self.new) × (self.new < count)) }
    {
        let alloc = *self.boxes.allocator();
        let have = self.boxes.len();
        if count <= have {
            return Ok(());
        }
        if self.boxes.reserve(count - have).is_err() {
            return Err(Refusal::Memory);
        }
        while self.boxes.len() < count {
            let Ok(blank) = Box::new(alloc, Node::new()) else {
                return Err(Refusal::Memory);
            };
            self.boxes.push_reserved(blank);
        }
        Ok(())
    }

    /// Counts the blank nodes.
    pub fn count(&self) -> usize
        ensures { result ≡ self.now }
    {
        self.boxes.len()
    }

    /// Returns one of the blank nodes. There must be one.
    pub fn give(&mut self) -> Box<Node<V>>
        requires { 0 < self.old }
        ensures { self.new + 1 ≡ self.old }
    {
        match self.boxes.pop() {
            Some(blank) => blank,
            None => unreachable!(),
        }
    }
}
