//! The accesses of a subscriber.
ghost use Rattle.std.specs.Prelude.{◌≡◌, ◌∷◌, [], ◌<◌, ◌+◌, ◌≤◌, length, option_map, IfSome, IsTrue};
ghost use Rattle.tatp_rows.specs.Ordered.{row_at, with_row_at, without_row};
ghost use Rattle.tatp_rows.specs.Rows.{is_between};
ghost use Rattle.tatp_rows.specs.declared.ranges.TheConstants.{LAST_SUBSCRIBER};
ghost use Rattle.row_groups.specs.Groups.{AreAccesses, IsPut, access_type, access_with};
ghost use Rattle.row_groups.specs.AccessPlaces.{access_data, access_row};

use crate::places::count_taken;
use std::marker::Model;
use tatp_rows::{Access, Letters, Refusal, is_between};

/// The fields of an Access_Info row that aren't in its key.
#[derive(Clone, Copy, Debug)]
struct AccessData {
    data1: u8,
    data2: u8,
    data3: Letters<3>,
    data4: Letters<5>,
}

impl AccessData {
    /// Returns the fields of a row.
    fn of(row: &Access) -> Self
        ensures { result ≡ access_data row.now }
    {
        AccessData {
            data1: row.data1(),
            data2: row.data2(),
            data3: row.data3(),
            data4: row.data4(),
        }
    }

    /// Makes the row with these fields and a key.
    fn row(&self, s_id: u32, ai_type: u8) -> Access
        requires s_id { IsTrue (is_between 1 LAST_SUBSCRIBER s_id) }
        requires ai_type { IsTrue (is_between 1 4 ai_type) }
        ensures { result ≡ access_with s_id (access_row ai_type self.now) }
    {
        // For the prover: letters are in range, as their reader says.
        let _three = self.data3.bytes();
        let _five = self.data4.bytes();
        match Access::try_new(
            u64::from(s_id),
            u64::from(ai_type),
            self.data1,
            self.data2,
            self.data3,
            self.data4,
        ) {
            Ok(row) => row,
            Err(_) => unreachable!(),
        }
    }
}

/// The Access_Info rows of a subscriber, at most one for each of the types 1 to 4, seen as their list in the order of
/// the types. The group doesn't keep the s_id.
#[derive(Clone, Copy, Debug)]
pub struct Accesses {
    // The place of a type is the type less 1.
    places: [Option<AccessData>; 4],
}

impl Model for Accesses {
    ghost use Rattle.std.specs.Prelude.{◌≡◌, List, length, refl};
    ghost use Rattle.tatp_rows.specs.Rows.{AccessInfoRow};
    ghost use Rattle.row_groups.specs.AccessPlaces.{access_back, access_places, access_row};
    ghost use Rattle.row_groups.specs.Places.{filled};

    ghost Value = { List AccessInfoRow };

    ghost view = { λ g. filled access_row 1 g.places };

    ghost invariant = { λ g. length g.places ≡ 4 };

    ghost inverse = { λ rows. record { places = access_places rows } };

    ghost inverse_ok = { λ a h. rw (access_back a.places h) refl };
}

impl Default for Accesses {
    ghost is_default = { λ rows. rows ≡ [] };

    /// Makes a group without rows.
    fn default() -> Self {
        Accesses { places: [None; 4] }
    }
}

/// Returns the place of a row, which is its type less 1.
fn place_of(row: &Access) -> usize
    ensures place { result + 1 ≡ row.now.ai_type }
    ensures within { result < 4 }
{
    // For the prover: a row is in range, as its reader says.
    let _s_id = row.s_id();
    usize::from(row.ai_type() - 1)
}

impl Accesses {
    /// Makes the group that has one row.
    pub fn of(row: &Access) -> Self
        ensures { result ≡ access_with 0 row.now ∷ [] }
    {
        let mut group = Accesses::default();
        let _ = group.insert(row);
        group
    }

    /// Returns the number of rows, at most 4.
    pub fn len(&self) -> usize
        ensures value { result ≡ length self.now }
        ensures rules { AreAccesses self.now }
    {
        count_taken(&self.places)
    }

    /// Returns the fields in the place of a type, or `None` if there are none.
    fn data_at(&self, ai_type: u8) -> Option<AccessData>
        ensures found { option_map (access_row ai_type) result ≡ row_at access_type ai_type self.now }
        ensures within { IfSome result (λ _. (1 ≤ ai_type) × (ai_type ≤ 4)) }
    {
        let places = &self.places;
        if !is_between(ai_type, 1, 4) {
            return None;
        }
        places[usize::from(ai_type) - 1]
    }

    /// Returns the row of a type, as a row of the subscriber `s_id`, which is in 1..=16,777,216, or `None` if there is
    /// none.
    pub fn get(&self, s_id: u32, ai_type: u8) -> Option<Access>
        requires { IsTrue (is_between 1 LAST_SUBSCRIBER s_id) }
        ensures { result ≡ option_map (access_with s_id) (row_at access_type ai_type self.now) }
    {
        let data = self.data_at(ai_type)?;
        Some(data.row(s_id, ai_type))
    }

    /// Puts a row among the others. It returns `Exists` if there is one of its type, and then the group is as it was.
    /// It takes no memory.
    pub fn insert(&mut self, row: &Access) -> Result<(), Refusal>
        ensures { IsPut access_type (access_with 0 row.now) self.old self.new result }
    {
        let place = place_of(row);
        if self.places[place].is_some() {
            return Err(Refusal::Exists);
        }
        self.places[place] = Some(AccessData::of(row));
        Ok(())
    }

    /// Replaces the row of the same type, and returns it. If there is none, it returns `None`, and the group is as it
    /// was. It takes no memory.
    pub fn replace(&mut self, row: &Access) -> Option<Access>
        ensures value { result ≡ option_map (access_with row.now.s_id) (row_at access_type row.now.ai_type self.old) }
        ensures rows { self.new ≡ with_row_at access_type row.now.ai_type (access_with 0 row.now) self.old }
    {
        let old = self.get(row.s_id(), row.ai_type())?;
        self.places[place_of(row)] = Some(AccessData::of(row));
        Some(old)
    }

    /// Removes the row of a type, and returns it as a row of the subscriber `s_id`, which is in 1..=16,777,216. If
    /// there is none, it returns `None`. It takes no memory.
    pub fn remove(&mut self, s_id: u32, ai_type: u8) -> Option<Access>
        requires { IsTrue (is_between 1 LAST_SUBSCRIBER s_id) }
        ensures value { result ≡ option_map (access_with s_id) (row_at access_type ai_type self.old) }
        ensures rows { self.new ≡ without_row access_type ai_type self.old }
    {
        let data = self.data_at(ai_type)?;
        self.places[usize::from(ai_type) - 1] = None;
        Some(data.row(s_id, ai_type))
    }
}
