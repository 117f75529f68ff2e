//! The facilities of a subscriber.
ghost use Rattle.std.specs.Prelude.{◌≡◌, ◌∷◌, [], ◌<◌, ◌+◌, ◌≤◌, length, option_map, IfSome, IsTrue};
ghost use Rattle.tatp_rows.specs.Ordered.{row_at, with_row_at, without_row};
ghost use Rattle.tatp_rows.specs.Rows.{is_between};
ghost use Rattle.tatp_rows.specs.declared.ranges.TheConstants.{LAST_SUBSCRIBER};
ghost use Rattle.row_groups.specs.Groups.{AreFacilities, IsPut, facility_type, facility_with};
ghost use Rattle.row_groups.specs.FacilityPlaces.{facility_data, facility_row};

use crate::places::count_taken;
use std::marker::Model;
use tatp_rows::{Facility, Letters, Refusal, is_between};

/// The fields of a Special_Facility row that aren't in its key.
#[derive(Clone, Copy, Debug)]
struct FacilityData {
    is_active: bool,
    error_cntrl: u8,
    data_a: u8,
    data_b: Letters<5>,
}

impl FacilityData {
    /// Returns the fields of a row.
    fn of(row: &Facility) -> Self
        ensures value { result ≡ facility_data row.now }
        ensures back { facility_row row.now.sf_type result ≡ facility_with 0 row.now }
    {
        // For the prover: a row is in range, as its reader says.
        let _s_id = row.s_id();
        FacilityData {
            is_active: row.is_active(),
            error_cntrl: row.error_cntrl(),
            data_a: row.data_a(),
            data_b: row.data_b(),
        }
    }

    /// Makes the row with these fields and a key.
    fn row(&self, s_id: u32, sf_type: u8) -> Facility
        requires s_id { IsTrue (is_between 1 LAST_SUBSCRIBER s_id) }
        requires sf_type { IsTrue (is_between 1 4 sf_type) }
        ensures { result ≡ facility_with s_id (facility_row sf_type self.now) }
    {
        // For the prover: letters are in range, as their reader says.
        let _letters = self.data_b.bytes();
        match Facility::try_new(
            u64::from(s_id),
            u64::from(sf_type),
            u64::from(self.is_active),
            self.error_cntrl,
            self.data_a,
            self.data_b,
        ) {
            Ok(row) => row,
            Err(_) => unreachable!(),
        }
    }
}

/// The Special_Facility rows of a subscriber, at most one for each of the types 1 to 4, seen as their list in the order
/// of the types. The group doesn't keep the s_id.
#[derive(Clone, Copy, Debug)]
pub struct Facilities {
    // The place of a type is the type less 1.
    places: [Option<FacilityData>; 4],
}

impl Model for Facilities {
    ghost use Rattle.std.specs.Prelude.{◌≡◌, List, length, refl};
    ghost use Rattle.tatp_rows.specs.Rows.{SpecialFacilityRow};
    ghost use Rattle.row_groups.specs.FacilityPlaces.{facility_back, facility_places, facility_row};
    ghost use Rattle.row_groups.specs.Places.{filled};

    ghost Value = { List SpecialFacilityRow };

    ghost view = { λ g. filled facility_row 1 g.places };

    ghost invariant = { λ g. length g.places ≡ 4 };

    ghost inverse = { λ rows. record { places = facility_places rows } };

    ghost inverse_ok = { λ a h. rw (facility_back a.places h) refl };
}

impl Default for Facilities {
    ghost is_default = { λ rows. rows ≡ [] };

    /// Makes a group without rows.
    fn default() -> Self {
        Facilities { places: [None; 4] }
    }
}

/// Returns the place of a row, which is its type less 1.
fn place_of(row: &Facility) -> usize
    ensures place { result + 1 ≡ row.now.sf_type }
    ensures within { result < 4 }
{
    // For the prover: a row is in range, as its reader says.
    let _s_id = row.s_id();
    usize::from(row.sf_type() - 1)
}

impl Facilities {
    /// Makes the group that has one row.
    pub fn of(row: &Facility) -> Self
        ensures { result ≡ facility_with 0 row.now ∷ [] }
    {
        let mut group = Facilities::default();
        let _ = group.insert(row);
        group
    }

    /// Returns the number of rows, at most 4.
    pub fn len(&self) -> usize
        ensures value { result ≡ length self.now }
        ensures rules { AreFacilities self.now }
    {
        count_taken(&self.places)
    }

    /// Returns the fields in the place of a type, or `None` if there are none.
    fn data_at(&self, sf_type: u8) -> Option<FacilityData>
        ensures found { option_map (facility_row sf_type) result ≡ row_at facility_type sf_type self.now }
        ensures within { IfSome result (λ _. (1 ≤ sf_type) × (sf_type ≤ 4)) }
    {
        let places = &self.places;
        if !is_between(sf_type, 1, 4) {
            return None;
        }
        places[usize::from(sf_type) - 1]
    }

    /// Returns the row of a type, as a row of the subscriber `s_id`, which is in 1..=16,777,216, or `None` if there is
    /// none.
    pub fn get(&self, s_id: u32, sf_type: u8) -> Option<Facility>
        requires { IsTrue (is_between 1 LAST_SUBSCRIBER s_id) }
        ensures { result ≡ option_map (facility_with s_id) (row_at facility_type sf_type self.now) }
    {
        let data = self.data_at(sf_type)?;
        Some(data.row(s_id, sf_type))
    }

    /// Puts a row among the others. It returns `Exists` if there is one of its type, and then the group is as it was.
    /// It takes no memory.
    pub fn insert(&mut self, row: &Facility) -> Result<(), Refusal>
        ensures { IsPut facility_type (facility_with 0 row.now) self.old self.new result }
    {
        let place = place_of(row);
        if self.places[place].is_some() {
            return Err(Refusal::Exists);
        }
        self.places[place] = Some(FacilityData::of(row));
        Ok(())
    }

    /// Replaces the row of the same type, and returns it. If there is none, it returns `None`, and the group is as it
    /// was. It takes no memory.
    pub fn replace(&mut self, row: &Facility) -> Option<Facility>
        ensures value { result ≡ option_map (facility_with row.now.s_id) (row_at facility_type row.now.sf_type self.old) }
        ensures rows { self.new ≡ with_row_at facility_type row.now.sf_type (facility_with 0 row.now) self.old }
    {
        let old = self.get(row.s_id(), row.sf_type())?;
        self.places[place_of(row)] = Some(FacilityData::of(row));
        Some(old)
    }

    /// Removes the row of a type, and returns it as a row of the subscriber `s_id`, which is in 1..=16,777,216. If
    /// there is none, it returns `None`. It takes no memory.
    pub fn remove(&mut self, s_id: u32, sf_type: u8) -> Option<Facility>
        requires { IsTrue (is_between 1 LAST_SUBSCRIBER s_id) }
        ensures value { result ≡ option_map (facility_with s_id) (row_at facility_type sf_type self.old) }
        ensures rows { self.new ≡ without_row facility_type sf_type self.old }
    {
        let data = self.data_at(sf_type)?;
        self.places[usize::from(sf_type) - 1] = None;
        Some(data.row(s_id, sf_type))
    }
}
