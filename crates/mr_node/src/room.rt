//! The result of an insertion that takes no memory.

ghost use Rattle.std.specs.Prelude.{◌≡◌};
ghost use Rattle.mr_node.specs.Growth.{is_done};

/// The result of adding a row to a node without a new node.
#[derive(Drop)]
pub enum Room {
    /// The row was added.
    Done,
    /// A row with the key is there already.
    Exists,
    /// The leaf to which the key belongs is full.
    Full,
}

impl Room {
    /// Returns whether the row was added.
    pub(crate) fn is_done(&self) -> bool
        ensures { result ≡ is_done self.now }
    {
        match self {
            Room::Done => true,
            Room::Exists => false,
            Room::Full => false,
        }
    }
}
