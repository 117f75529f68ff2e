//! What a tree asks of its groups.
ghost use Rattle.std.specs.Prelude.{◌≡◌, ◌∷◌, [], ◌<◌, ℕ, List, length};
ghost use Rattle.tatp_rows.specs.Ordered.{row_at, without_row};
ghost use Rattle.mr_node.specs.Rows.{key_limit, key_of_pair, value_at};
ghost use Rattle.group_tree.specs.Groups.{HaveLaws, IsPutAt, IsReplacedAt, base_of};

/// A row, which tells its key.
pub trait Row: Copy + Default {
    ghost row_key: { Self → ℕ };

    /// Returns the key, which is below 18446744073709551614.
    fn key(&self) -> u64
        ensures value { result ≡ row_key self.now }
        ensures small { result < key_limit };
}

/// Rows that lie together in one value of a tree, each in one of four places. The keys of a group's rows lie in one
/// span: from a multiple of `span`, which is the key of the group in its tree, up to the next one. In contracts,
/// `listed` is the list of the rows with their keys, for a group that lies at a key, `key_in` is the key in one of its
/// places, and `Holds` has the rules of such a group. No call takes memory.
pub trait Group<R: Row>: Copy + Default {
    ghost span: { ℕ };

    ghost listed: { ℕ → Self → List (ℕ × R) };

    ghost key_in: { ℕ → ℕ → ℕ };

    ghost Holds: { ℕ → Self → Type 0 };

    /// Returns the key at which the group of a row with this key lies in its tree.
    fn base(key: u64) -> u64
        ensures { result ≡ base_of span key };

    /// Makes the group that has one row.
    fn of(row: &R) -> Self
        ensures rows { listed (base_of span (R.row_key row.now)) result ≡ (R.row_key row.now, row.now) ∷ [] }
        ensures rules { Holds (base_of span (R.row_key row.now)) result };

    /// Returns the number of rows.
    fn len(&self) -> usize
        ensures { (base : ℕ) → result ≡ length (listed base self.now) };

    /// Returns the row at a key, or `None` if there is none.
    fn find(&self, key: u64) -> Option<R>
        requires { Holds (base_of span key) self.now }
        ensures { result ≡ value_at key (listed (base_of span key) self.now) };

    /// Returns the row in one of the four places of a group that lies at a key, with the row's key, or `None` if there
    /// is none. Places are counted from 0, and keys rise with them. If the group can't lie at that key, any row may be
    /// returned.
    fn row_in(&self, base: u64, place: u8) -> Option<(u64, R)>
        requires { place < 4 }
        ensures { Holds base self.now → result ≡ row_at key_of_pair (key_in base place) (listed base self.now) };

    /// Puts a row among the others. It returns false if there is one with its key, and then the group is as it was.
    fn insert(&mut self, row: &R) -> bool
        requires { Holds (base_of span (R.row_key row.now)) self.old }
        ensures rows { IsPutAt (R.row_key row.now) row.now (listed (base_of span (R.row_key row.now)) self.old) (listed (base_of span (R.row_key row.now)) self.new) result }
        ensures rules { Holds (base_of span (R.row_key row.now)) self.new };

    /// Replaces the row with the same key, and returns it. If there is none, it returns `None`, and the group is as it
    /// was.
    fn replace(&mut self, row: &R) -> Option<R>
        requires { Holds (base_of span (R.row_key row.now)) self.old }
        ensures rows { IsReplacedAt (R.row_key row.now) row.now (listed (base_of span (R.row_key row.now)) self.old) (listed (base_of span (R.row_key row.now)) self.new) result }
        ensures rules { Holds (base_of span (R.row_key row.now)) self.new };

    /// Removes the row at a key, and returns it. If there is none, it returns `None`.
    fn remove(&mut self, key: u64) -> Option<R>
        requires { Holds (base_of span key) self.old }
        ensures value { result ≡ value_at key (listed (base_of span key) self.old) }
        ensures rows { listed (base_of span key) self.new ≡ without_row key_of_pair key (listed (base_of span key) self.old) }
        ensures rules { Holds (base_of span key) self.new };

    ghost laws: { HaveLaws listed Holds span key_in };
}
