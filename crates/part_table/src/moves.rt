//! The move of a bound between two parts.

/// A bound between two parts that moves. The part that loses subscribers gives them away, and its neighbour takes them.
#[derive(Clone, Copy, Debug, Default, PartialEq, Eq)]
pub struct CutMove {
    /// The number of the part that begins at the bound, 1..=15.
    pub bound: u8,
    /// Where the bound was.
    pub from: u32,
    /// Where the bound will be.
    pub to: u32,
}
