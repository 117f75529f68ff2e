//! The parts of a node.
use arrayvec::ArrayVec;

/// A child of an inner node.
#[derive(Drop)]
pub struct Child<B> {
    /// The number of rows in and below the child.
    pub count: u64,
    /// The child.
    pub node: B,
}

/// The part of an inner node, which has its children and their least keys in the first `len` places.
#[derive(Drop)]
pub struct Inner<B> {
    /// How far the node is above the leaves, 1 or more.
    pub height: u64,
    /// The number of children, 1..=32.
    pub len: usize,
    /// The least keys of the children, followed by 18446744073709551615 in the unused places.
    pub leasts: [u64; 32],
    /// The children, in the order of their least keys.
    pub children: [Option<Child<B>>; 32],
}

/// The part of a leaf, which has its keys, and the values in the same order.
#[derive(Drop)]
pub struct Leaf<V> {
    /// The keys in rising order, followed by 18446744073709551615 in the unused places.
    pub keys: [u64; 32],
    /// The values, in the order of their keys.
    pub values: ArrayVec<V, 32>,
}

/// A node taken apart.
#[derive(Drop)]
pub enum Body<V, B> {
    /// A leaf.
    Leaf(Leaf<V>),
    /// An inner node.
    Inner(Inner<B>),
}
