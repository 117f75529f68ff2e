//! Rows of a table from a key on, in key order, written into a list of the caller's: as many as there are, and as the
//! list has room for. The tables whose rows lie in groups go through the same functions.
ghost use Rattle.std.specs.Prelude.{◌≡◌, ◌+◌, ◌-◌, ◌<◌, ◌≤◌, ℕ, List, [], ◌++◌, length, map, min};
ghost use Rattle.tatp_rows.specs.Rows.{SubscriberRow, AccessInfoRow, SpecialFacilityRow, CallForwardingRow};
ghost use Rattle.tatp_rows.specs.Spans.{keys_from};
ghost use Rattle.mr_node.specs.Rows.{KeysBelow, key_limit, key_of_pair};
ghost use Rattle.tatp_rows.specs.Ordered.{IsOrderedBy};
ghost use Rattle.tatp_actions.specs.Book.{Book, IsBook, empty_book};
ghost use Rattle.tatp_actions.specs.CutTables.{tables_of};
ghost use Rattle.tatp_actions.specs.Joined.{join_books};
ghost use Rattle.tatp_actions.specs.Listed.{AreListed, AreWritten, packed_from, rows_listed, subscriber_fields, access_fields, facility_fields, forwarding_fields};
ghost use Rattle.tatp_actions.specs.Tables.{AreKeyed, Tables, stored_book, values_of};

use crate::part::Part;
use arrayvec::ArrayVec;
use group_tree::{Group, GroupTree, Row};
use mr_subtree::SubTree;
use tatp_rows::{Access, Facility, Forwarding, LAST_SUBSCRIBER, Subscriber, row_key};

/// The fields of a row's key: the subscriber, the type, and the start time. Those that a table lacks are 0. Any numbers
/// are allowed, so a key may lie behind all rows.
#[derive(Clone, Copy, Debug, PartialEq, Eq)]
pub struct KeyFields {
    /// The subscriber.
    pub s_id: u64,
    /// The type of the access or the facility.
    pub kind: u64,
    /// The hour at which a forwarding starts.
    pub start_time: u64,
}

/// What a row is written as.
pub trait FromRow<V>: Copy {
    ghost of_row: { V → Self };

    /// Makes it of a row.
    fn from_row(row: &V) -> Self
        ensures { result ≡ of_row row.now };
}

/// A row of one of the four tables.
pub trait TableRow: Copy {
    ghost use Rattle.tatp_actions.specs.declared.listed.KeyFields.{KeyFields};

    ghost table: { Book → List Self };

    ghost fields: { Self → KeyFields };

    /// Writes the rows of its table from a key on, in key order, into a list from a place on, as many as it has room
    /// for, and gives the place behind them. It takes no memory.
    fn write_rows<T: FromRow<Self>>(
        part: &Part,
        from: &KeyFields,
        rows: &mut [T],
        place: usize,
    ) -> usize
        requires { place ≤ length rows.old }
        ensures { AreWritten (map T.of_row (rows_listed fields from.now (table part.now.book))) place rows.old result rows.new };

    ghost joined: { (low high : Book) → table (join_books low high) ≡ table low ++ table high };

    ghost none: { table empty_book ≡ [] };
}

impl TableRow for Subscriber {
    ghost table = { λ book. book.subscribers };

    ghost fields = { subscriber_fields };

    fn write_rows<T: FromRow<Subscriber>>(
        part: &Part,
        from: &KeyFields,
        rows: &mut [T],
        place: usize,
    ) -> usize {
        let mut page = ArrayVec::new();
        write_from(
            &part.rows.subscribers,
            from.packed(),
            &mut page,
            rows,
            place,
        )
    }

    ghost use Rattle.std.specs.Prelude.{refl};

    ghost joined = { λ low high. refl };

    ghost none = { refl };
}

impl TableRow for Access {
    ghost table = { λ book. book.access };

    ghost fields = { access_fields };

    fn write_rows<T: FromRow<Access>>(
        part: &Part,
        from: &KeyFields,
        rows: &mut [T],
        place: usize,
    ) -> usize {
        let mut groups = ArrayVec::new();
        let mut page = ArrayVec::new();
        write_groups_from(
            &part.rows.access,
            from.packed(),
            &mut groups,
            &mut page,
            rows,
            place,
        )
    }

    ghost use Rattle.std.specs.Prelude.{refl};

    ghost joined = { λ low high. refl };

    ghost none = { refl };
}

impl TableRow for Facility {
    ghost table = { λ book. book.facilities };

    ghost fields = { facility_fields };

    fn write_rows<T: FromRow<Facility>>(
        part: &Part,
        from: &KeyFields,
        rows: &mut [T],
        place: usize,
    ) -> usize {
        let mut groups = ArrayVec::new();
        let mut page = ArrayVec::new();
        write_groups_from(
            &part.rows.facilities,
            from.packed(),
            &mut groups,
            &mut page,
            rows,
            place,
        )
    }

    ghost use Rattle.std.specs.Prelude.{refl};

    ghost joined = { λ low high. refl };

    ghost none = { refl };
}

impl TableRow for Forwarding {
    ghost table = { λ book. book.forwardings };

    ghost fields = { forwarding_fields };

    fn write_rows<T: FromRow<Forwarding>>(
        part: &Part,
        from: &KeyFields,
        rows: &mut [T],
        place: usize,
    ) -> usize {
        let mut groups = ArrayVec::new();
        let mut page = ArrayVec::new();
        write_groups_from(
            &part.rows.forwardings,
            from.packed(),
            &mut groups,
            &mut page,
            rows,
            place,
        )
    }

    ghost use Rattle.std.specs.Prelude.{refl};

    ghost joined = { λ low high. refl };

    ghost none = { refl };
}

impl FromRow<Subscriber> for Subscriber {
    ghost of_row = { λ row. row };

    fn from_row(row: &Subscriber) -> Subscriber {
        *row
    }
}

impl FromRow<Access> for Access {
    ghost of_row = { λ row. row };

    fn from_row(row: &Access) -> Access {
        *row
    }
}

impl FromRow<Facility> for Facility {
    ghost of_row = { λ row. row };

    fn from_row(row: &Facility) -> Facility {
        *row
    }
}

impl FromRow<Forwarding> for Forwarding {
    ghost of_row = { λ row. row };

    fn from_row(row: &Forwarding) -> Forwarding {
        *row
    }
}

/// The lesser of a number and a limit.
fn at_most(value: u64, limit: u64) -> u64
    ensures { result ≡ min value limit }
{
    if value < limit { value } else { limit }
}

impl KeyFields {
    /// Returns the key as one number. A field past its range is packed as the least number above its range.
    fn packed(&self) -> u64
        ensures { result ≡ packed_from self.now }
    {
        let s_id = at_most(self.s_id, u64::from(LAST_SUBSCRIBER) + 1) as u32;
        let kind = at_most(self.kind, 255) as u8;
        let start_time = at_most(self.start_time, 255) as u8;
        row_key(s_id, kind, start_time)
    }
}

/// Writes the rows of a page into a list from a place on, as many as it has room for, and gives the place behind them.
fn write_page<V, T: FromRow<V>>(page: &[(u64, V)], rows: &mut [T], place: usize) -> usize
    requires { place ≤ length rows.old }
    ensures { AreWritten (map (λ pair. T.of_row pair.1) page.now) place rows.old result rows.new }
{
    let room = rows.len() - place;
    let count = if page.len() < room { page.len() } else { room };
    for at in 0..count {
        rows[place + at] = T::from_row(&page[at].1);
    }
    place + count
}

/// Writes the rows of a tree from a key on into a list from a place on, as many as it has room for, and gives the place
/// behind them. It goes down from the root once for each leaf, and copies that leaf's rows into `page`.
fn write_from<V: Copy + Default, T: FromRow<V>>(
    tree: &SubTree<V>,
    key: u64,
    page: &mut ArrayVec<(u64, V), 32>,
    rows: &mut [T],
    place: usize,
) -> usize
    requires room { place ≤ length rows.old }
    requires ordered { IsOrderedBy key_of_pair tree.now.rows }
    requires small { KeysBelow key_limit tree.now.rows }
    ensures { AreWritten (map (λ pair. T.of_row pair.1) (keys_from key_of_pair key tree.now.rows)) place rows.old result rows.new }
{
    let mut from = key;
    let mut behind = place;
    while behind < rows.len() {
        page.clear();
        tree.page_from(from, page);
        let pairs = page.as_slice();
        if pairs.is_empty() {
            return behind;
        }
        from = pairs[pairs.len() - 1].0 + 1;
        behind = write_page(pairs, rows, behind);
    }
    behind
}

/// Writes the rows of a tree of groups, as `write_from` does. It copies the groups of a leaf into `groups`, and their
/// rows into `page`.
fn write_groups_from<R: Row, G: Group<R>, T: FromRow<R>>(
    tree: &GroupTree<R, G>,
    key: u64,
    groups: &mut ArrayVec<(u64, G), 32>,
    page: &mut ArrayVec<(u64, R), 132>,
    rows: &mut [T],
    place: usize,
) -> usize
    requires room { place ≤ length rows.old }
    requires ordered { IsOrderedBy key_of_pair tree.now.rows }
    requires small { KeysBelow key_limit tree.now.rows }
    ensures { AreWritten (map (λ pair. T.of_row pair.1) (keys_from key_of_pair key tree.now.rows)) place rows.old result rows.new }
{
    let mut from = key;
    let mut behind = place;
    while behind < rows.len() {
        groups.clear();
        page.clear();
        tree.page_from(from, groups, page);
        let found = page.as_slice();
        if found.is_empty() {
            return behind;
        }
        from = found[found.len() - 1].0 + 1;
        behind = write_page(found, rows, behind);
    }
    behind
}
