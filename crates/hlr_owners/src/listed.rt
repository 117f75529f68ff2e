//! Rows of a table from a key on, of all owners in the order of their regions, written into a list of the caller's.
ghost use Rattle.std.specs.Prelude.{◌≡◌, ◌≤◌, true, length, map};
ghost use Rattle.tatp_actions.specs.Listed.{AreFilled, AreWritten, rows_listed};
ghost use Rattle.hlr_owners.specs.Owners.{AllHome, book_in, is_home, state_of};

use crate::owners::Owners;
use crate::part_owner::RegionOwner;
use tatp_actions::{FromRow, KeyFields, TableRow};

/// Writes the rows of an owner from a key on into a list from a place on.
fn write_rows_of<V: TableRow, T: FromRow<V>>(
    owner: &RegionOwner,
    from: &KeyFields,
    rows: &mut [T],
    place: usize,
) -> usize
    requires home { is_home owner.now ≡ true }
    requires room { place ≤ length rows.old }
    ensures { AreWritten (map T.of_row (rows_listed V.fields from.now (V.table (state_of owner.now).part.book))) place rows.old result rows.new }
{
    match owner {
        RegionOwner::Part(part_owner) => {
            part_owner.holding().write_rows::<V, T>(from, rows, place)
        }
        RegionOwner::Piece(piece) => piece.write_rows::<V, T>(from, rows, place),
    }
}

/// The same of all owners, one after another until the list is full.
fn write_rows_in<V: TableRow, T: FromRow<V>>(
    owners: &[RegionOwner],
    from: &KeyFields,
    rows: &mut [T],
) -> usize
    requires { AllHome owners.now }
    ensures { AreWritten (map T.of_row (rows_listed V.fields from.now (V.table (book_in owners.now)))) 0 rows.old result rows.new }
{
    let mut behind = 0;
    for owner in owners {
        if behind == rows.len() {
            return behind;
        }
        behind = write_rows_of::<V, T>(owner, from, rows, behind);
    }
    behind
}

impl Owners {
    /// Writes the first rows of a table from a key on into a list, in key order: as many as there are, and as it has
    /// room for, and tells how many. Behind them the list stays as it was. It takes no memory.
    pub fn write_rows<V: TableRow, T: FromRow<V>>(&self, from: &KeyFields, rows: &mut [T]) -> usize
        requires { AllHome self.now.owners }
        ensures { AreFilled (map T.of_row (rows_listed V.fields from.now (V.table (book_in self.now.owners)))) rows.old result rows.new }
    {
        write_rows_in::<V, T>(&self.owners, from, rows)
    }
}
