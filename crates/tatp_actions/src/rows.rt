//! The calls that a part makes on its rows.
ghost use Rattle.std.specs.Prelude.{◌≡◌, ℕ, ◌+◌, ◌<◌, ◌≤◌, IfSome, is_some, option_copied, ok_or, ⊤};
ghost use Rattle.std.specs.Borrow.{sem, follows_so};
ghost use mathlib.Core.Option.{none};
ghost use Rattle.tatp_rows.specs.Keys.{access_key, facility_key, forwarding_key};
ghost use Rattle.tatp_rows.specs.Ordered.{with_row_at, without_row};
ghost use Rattle.mr_node.specs.Rows.{key_limit, key_of_pair, value_at};
ghost use Rattle.mr_node.specs.Revisions.{revised_at, spent_at};
ghost use Rattle.mr_subtree.specs.Trees.{IsInserted};
ghost use Rattle.tatp_actions.specs.Heights.{Heights};
ghost use Rattle.tatp_actions.specs.Tables.{Tables, once_more};

use mr_node::Revise;
use tatp_rows::{Access, Back, Facility, Forwarding, Subscriber};

/// The rows of a part, by key, and how often they were asked.
///
/// Each of the four tables is seen as the list of its pairs (key, row). Each call is by key and raises `asked` by one
/// (saturating), except that `revise_s` and `revise_f` may ask twice. So the cost of an action is bounded by how often
/// it asks. A store needs to have only sixteen calls: where it has no better way, those two are made of two of the
/// others each.
///
/// `heights` is the height of the trees that hold the rows. A call that reads doesn't change it. `get_s` lends its row,
/// so its clause `after` says what it leaves, which is the same tables, asked once more, for the time when the row is
/// given back. A row of the other three tables may lie in a group with others, without the fields that they share, so
/// it is returned as a value, and is stored at its own key.
pub trait Rows {
    ghost tables: { Self → Tables };

    ghost times_asked: { Self → ℕ };

    ghost heights: { Self → Heights };

    /// Returns how often the rows were asked.
    fn asked(&self) -> u64
        ensures { result ≡ times_asked self.now };

    /// Finds the Subscriber row at a key.
    fn get_s(&mut self, key: u64) -> Option<&Subscriber>
        ensures* after { sem 𝓛 (follows_so Self.row Self.row self.entry.ghost_name none (λ _ _. ⊤)
            (λ rows. (tables rows ≡ tables self.old) × (times_asked rows ≡ once_more (times_asked self.old))
            × (heights rows ≡ heights self.old))) }
        ensures value { option_copied result ≡ value_at key (tables self.old).subscribers };

    /// Replaces the Subscriber row at a key, and hands back the old one; if there is none, hands back the value.
    fn replace_s(&mut self, key: u64, value: Subscriber) -> Result<Subscriber, Subscriber>
        ensures value { result ≡ ok_or (value_at key (tables self.old).subscribers) value }
        ensures rows { tables self.new ≡ record (tables self.old) { subscribers = with_row_at key_of_pair key (key, value) (tables self.old).subscribers } }
        ensures asked { times_asked self.new ≡ once_more (times_asked self.old) };

    /// Changes the Subscriber row at a key where it lies, and returns false if there is none. It may ask twice, because
    /// the default calls `get_s` and `replace_s`.
    fn revise_s<E: Revise<Subscriber>>(&mut self, key: u64, revision: &mut E) -> bool
        ensures rows { tables self.new ≡ record (tables self.old) { subscribers = revised_at key (E.revised revision.old) (tables self.old).subscribers } }
        ensures spent { revision.new ≡ spent_at key E.spent revision.old (tables self.old).subscribers }
        ensures found { result ≡ is_some (value_at key (tables self.old).subscribers) }
        ensures counted { once_more (times_asked self.old) ≤ times_asked self.new }
        ensures asked { times_asked self.new ≤ times_asked self.old + 2 }
    {
        let Some(mut row) = self.get_s(key).copied() else {
            return false;
        };
        revision.revise(&mut row);
        let _ = self.replace_s(key, row);
        true
    }

    /// Adds a Subscriber row. Its refusals, in order, are `Exists` if the key has a row, and `Memory` if the system
    /// refuses memory, and then the rows are as before, and the row is handed back.
    fn insert_s(&mut self, key: u64, value: Subscriber) -> Result<(), Back<Subscriber>>
        requires { key < key_limit }
        ensures table { IsInserted key value (tables self.old).subscribers (tables self.new).subscribers result }
        ensures others { tables self.new ≡ record (tables self.old) { subscribers = (tables self.new).subscribers } }
        ensures asked { times_asked self.new ≡ once_more (times_asked self.old) };

    /// Removes the Subscriber row at a key, if there is one.
    fn remove_s(&mut self, key: u64) -> Option<Subscriber>
        ensures value { result ≡ value_at key (tables self.old).subscribers }
        ensures rows { tables self.new ≡ record (tables self.old) { subscribers = without_row key_of_pair key (tables self.old).subscribers } }
        ensures asked { times_asked self.new ≡ once_more (times_asked self.old) };

    /// Returns the Access_Info row at a key.
    fn get_a(&mut self, key: u64) -> Option<Access>
        ensures value { result ≡ value_at key (tables self.old).access }
        ensures rows { tables self.new ≡ tables self.old }
        ensures asked { times_asked self.new ≡ once_more (times_asked self.old) }
        ensures heights { heights self.new ≡ heights self.old };

    /// Replaces the Access_Info row with the key of this one, and hands back the old one; if there is none, hands back
    /// this one.
    fn replace_a(&mut self, row: Access) -> Result<Access, Access>
        ensures value { result ≡ ok_or (value_at (access_key row) (tables self.old).access) row }
        ensures rows { tables self.new ≡ record (tables self.old) { access = with_row_at key_of_pair (access_key row) (access_key row, row) (tables self.old).access } }
        ensures asked { times_asked self.new ≡ once_more (times_asked self.old) };

    /// Adds an Access_Info row. Its refusals, in order, are `Exists` if its key has a row, and `Memory` if the system
    /// refuses memory, and then the rows are as before, and the row is handed back.
    fn insert_a(&mut self, row: Access) -> Result<(), Back<Access>>
        ensures table { IsInserted (access_key row) row (tables self.old).access (tables self.new).access result }
        ensures others { tables self.new ≡ record (tables self.old) { access = (tables self.new).access } }
        ensures asked { times_asked self.new ≡ once_more (times_asked self.old) };

    /// Removes the Access_Info row at a key, if there is one.
    fn remove_a(&mut self, key: u64) -> Option<Access>
        ensures value { result ≡ value_at key (tables self.old).access }
        ensures rows { tables self.new ≡ record (tables self.old) { access = without_row key_of_pair key (tables self.old).access } }
        ensures asked { times_asked self.new ≡ once_more (times_asked self.old) };

    /// Returns the Special_Facility row at a key.
    fn get_f(&mut self, key: u64) -> Option<Facility>
        ensures value { result ≡ value_at key (tables self.old).facilities }
        ensures rows { tables self.new ≡ tables self.old }
        ensures asked { times_asked self.new ≡ once_more (times_asked self.old) }
        ensures heights { heights self.new ≡ heights self.old };

    /// Replaces the Special_Facility row with the key of this one, and hands back the old one; if there is none, hands
    /// back this one.
    fn replace_f(&mut self, row: Facility) -> Result<Facility, Facility>
        ensures value { result ≡ ok_or (value_at (facility_key row) (tables self.old).facilities) row }
        ensures rows { tables self.new ≡ record (tables self.old) { facilities = with_row_at key_of_pair (facility_key row) (facility_key row, row) (tables self.old).facilities } }
        ensures asked { times_asked self.new ≡ once_more (times_asked self.old) };

    /// Changes the Special_Facility row at a key where it lies, and returns false if there is none. The change must not
    /// give the row another key. It may ask twice, because the default calls `get_f` and `replace_f`.
    fn revise_f<E: Revise<Facility>>(&mut self, key: u64, revision: &mut E) -> bool
        requires { IfSome (value_at key (tables self.old).facilities) (λ row. facility_key (E.revised revision.old row) ≡ key) }
        ensures rows { tables self.new ≡ record (tables self.old) { facilities = revised_at key (E.revised revision.old) (tables self.old).facilities } }
        ensures spent { revision.new ≡ spent_at key E.spent revision.old (tables self.old).facilities }
        ensures found { result ≡ is_some (value_at key (tables self.old).facilities) }
        ensures counted { once_more (times_asked self.old) ≤ times_asked self.new }
        ensures asked { times_asked self.new ≤ times_asked self.old + 2 }
    {
        let Some(mut row) = self.get_f(key) else {
            return false;
        };
        revision.revise(&mut row);
        let _ = self.replace_f(row);
        true
    }

    /// Adds a Special_Facility row. Its refusals, in order, are `Exists` if its key has a row, and `Memory` if the
    /// system refuses memory, and then the rows are as before, and the row is handed back.
    fn insert_f(&mut self, row: Facility) -> Result<(), Back<Facility>>
        ensures table { IsInserted (facility_key row) row (tables self.old).facilities (tables self.new).facilities result }
        ensures others { tables self.new ≡ record (tables self.old) { facilities = (tables self.new).facilities } }
        ensures asked { times_asked self.new ≡ once_more (times_asked self.old) };

    /// Removes the Special_Facility row at a key, if there is one.
    fn remove_f(&mut self, key: u64) -> Option<Facility>
        ensures value { result ≡ value_at key (tables self.old).facilities }
        ensures rows { tables self.new ≡ record (tables self.old) { facilities = without_row key_of_pair key (tables self.old).facilities } }
        ensures asked { times_asked self.new ≡ once_more (times_asked self.old) };

    /// Returns the Call_Forwarding row at a key.
    fn get_c(&mut self, key: u64) -> Option<Forwarding>
        ensures value { result ≡ value_at key (tables self.old).forwardings }
        ensures rows { tables self.new ≡ tables self.old }
        ensures asked { times_asked self.new ≡ once_more (times_asked self.old) }
        ensures heights { heights self.new ≡ heights self.old };

    /// Replaces the Call_Forwarding row with the key of this one, and hands back the old one; if there is none, hands
    /// back this one.
    fn replace_c(&mut self, row: Forwarding) -> Result<Forwarding, Forwarding>
        ensures value { result ≡ ok_or (value_at (forwarding_key row) (tables self.old).forwardings) row }
        ensures rows { tables self.new ≡ record (tables self.old) { forwardings = with_row_at key_of_pair (forwarding_key row) (forwarding_key row, row) (tables self.old).forwardings } }
        ensures asked { times_asked self.new ≡ once_more (times_asked self.old) };

    /// Adds a Call_Forwarding row. Its refusals, in order, are `Exists` if its key has a row, and `Memory` if the
    /// system refuses memory, and then the rows are as before, and the row is handed back.
    fn insert_c(&mut self, row: Forwarding) -> Result<(), Back<Forwarding>>
        ensures table { IsInserted (forwarding_key row) row (tables self.old).forwardings (tables self.new).forwardings result }
        ensures others { tables self.new ≡ record (tables self.old) { forwardings = (tables self.new).forwardings } }
        ensures asked { times_asked self.new ≡ once_more (times_asked self.old) };

    /// Removes the Call_Forwarding row at a key, if there is one.
    fn remove_c(&mut self, key: u64) -> Option<Forwarding>
        ensures value { result ≡ value_at key (tables self.old).forwardings }
        ensures rows { tables self.new ≡ record (tables self.old) { forwardings = without_row key_of_pair key (tables self.old).forwardings } }
        ensures asked { times_asked self.new ≡ once_more (times_asked self.old) };
}
