//! The forwardings of a facility.
ghost use Rattle.std.specs.Prelude.{◌≡◌, ◌∷◌, [], ◌<◌, ◌+◌, ◌*◌, ◌≤◌, ◌++◌, length, map, option_map, IfSome, IsTrue};
ghost use Rattle.std.specs.List.{filter};
ghost use Rattle.std.specs.Option.{option_to_list};
ghost use Rattle.arrayvec.specs.ArrayVec.{array_vec_len};
ghost use Rattle.tatp_rows.specs.Ordered.{row_at, with_row_at, without_row};
ghost use Rattle.tatp_rows.specs.Rows.{is_between, is_start_time};
ghost use Rattle.tatp_rows.specs.declared.ranges.TheConstants.{LAST_SUBSCRIBER};
ghost use Rattle.row_groups.specs.Groups.{AreForwardings, IsPut, forwarding_start, forwarding_with, is_in_time};
ghost use Rattle.row_groups.specs.ForwardingPlaces.{forwarding_at};

use crate::forwarding_word::{ForwardingData, ForwardingWord, count_taken};
use arrayvec::ArrayVec;
use std::marker::Model;
use tatp_rows::{Forwarding, Number, Refusal, is_start_time};

/// The Call_Forwarding rows of a facility, at most one for each of the start times 0, 8 and 16, seen as their list in
/// the order of the start times. The group keeps neither the s_id nor the sf_type.
#[derive(Clone, Copy, Debug)]
pub struct Forwardings {
    // The place of a start time is an eighth of it.
    words: [ForwardingWord; 3],
}

impl Model for Forwardings {
    ghost use Rattle.std.specs.Prelude.{◌≡◌, List, length, refl};
    ghost use Rattle.tatp_rows.specs.Rows.{CallForwardingRow};
    ghost use Rattle.row_groups.specs.ForwardingPlaces.{forwarding_back, forwarding_places, forwarding_row};
    ghost use Rattle.row_groups.specs.Places.{filled};

    ghost Value = { List CallForwardingRow };

    ghost view = { λ g. filled forwarding_row 0 g.words };

    ghost invariant = { λ g. length g.words ≡ 3 };

    ghost inverse = { λ rows. record { words = forwarding_places rows } };

    ghost inverse_ok = { λ a h. rw (forwarding_back a.words h) refl };
}

impl Default for Forwardings {
    ghost is_default = { λ rows. rows ≡ [] };

    /// Makes a group without rows.
    fn default() -> Self {
        Forwardings {
            words: [ForwardingWord::none(); 3],
        }
    }
}

/// Returns the place of a start time, which is an eighth of it.
fn place_at(start_time: u8) -> usize
    requires { IsTrue (is_start_time start_time) }
    ensures place { 8 * result ≡ start_time }
    ensures within { result < 3 }
{
    usize::from(start_time) / 8
}

/// Returns the place of a row.
fn place_of(row: &Forwarding) -> usize
    ensures place { 8 * result ≡ row.now.start_time }
    ensures within { result < 3 }
{
    // For the prover: a row is in range, as its reader says.
    let _s_id = row.s_id();
    place_at(row.start_time())
}

/// Appends a number, if there is one.
fn push_number(numbers: &mut ArrayVec<Number, 3>, found: Option<Number>)
    requires { array_vec_len numbers.old < 3 }
    ensures items { numbers.new.items ≡ numbers.old.items ++ option_to_list found }
    ensures few { array_vec_len numbers.new ≤ array_vec_len numbers.old + 1 }
{
    if let Some(number) = found {
        numbers.push(number);
    }
}

impl Forwardings {
    /// Makes the group that has one row.
    pub fn of(row: &Forwarding) -> Self
        ensures { result ≡ forwarding_with 0 0 row.now ∷ [] }
    {
        let mut group = Forwardings::default();
        let _ = group.insert(row);
        group
    }

    /// Returns the number of rows, at most 3.
    pub fn len(&self) -> usize
        ensures value { result ≡ length self.now }
        ensures rules { AreForwardings self.now }
    {
        count_taken(&self.words)
    }

    /// Returns the fields in the place of a start time, or `None` if there are none.
    fn fields_at(&self, start_time: u8) -> Option<ForwardingData>
        ensures found { option_map (forwarding_at start_time) result ≡ row_at forwarding_start start_time self.now }
        ensures start_time { IfSome result (λ _. IsTrue (is_start_time start_time)) }
        ensures end_time { IfSome result (λ fields. IsTrue (is_between 1 24 fields.end_time)) }
    {
        let words = &self.words;
        if !is_start_time(u64::from(start_time)) {
            return None;
        }
        words[place_at(start_time)].fields()
    }

    /// Returns the row of a start time, as a row of the facility `sf_type`, which is in 1..=4, of the subscriber `s_id`,
    /// which is in 1..=16,777,216, or `None` if there is none.
    pub fn get(&self, s_id: u32, sf_type: u8, start_time: u8) -> Option<Forwarding>
        requires s_id { IsTrue (is_between 1 LAST_SUBSCRIBER s_id) }
        requires sf_type { IsTrue (is_between 1 4 sf_type) }
        ensures { result ≡ option_map (forwarding_with s_id sf_type) (row_at forwarding_start start_time self.now) }
    {
        let fields = self.fields_at(start_time)?;
        Some(fields.row(s_id, sf_type, start_time))
    }

    /// Returns the number of the row in a place, if it starts by one hour and ends after another.
    fn number_at(&self, place: u8, start_time: u8, end_time: u8) -> Option<Number>
        requires { place < 3 }
        ensures { option_to_list result ≡ map (λ row. row.numberx) (filter (is_in_time start_time end_time) (option_to_list (row_at forwarding_start (8 * place) self.now))) }
    {
        let fields = self.words[usize::from(place)].fields()?;
        if 8 * place <= start_time && end_time < fields.end_time {
            return Some(fields.numberx);
        }
        None
    }

    /// Returns the numbers of the rows that start by one hour and end after another, in the order of their start times.
    pub fn destinations(&self, start_time: u8, end_time: u8) -> ArrayVec<Number, 3>
        ensures { result.items ≡ map (λ row. row.numberx) (filter (is_in_time start_time end_time) self.now) }
    {
        // Opens the group for the prover.
        let _ = &self.words;
        let mut numbers = ArrayVec::new();
        for place in 0..3_u8 {
            push_number(&mut numbers, self.number_at(place, start_time, end_time));
        }
        numbers
    }

    /// Puts a row among the others. It returns `Exists` if there is one of its start time, and then the group is as it
    /// was. It takes no memory.
    pub fn insert(&mut self, row: &Forwarding) -> Result<(), Refusal>
        ensures { IsPut forwarding_start (forwarding_with 0 0 row.now) self.old self.new result }
    {
        let place = place_of(row);
        if self.words[place].is_taken() {
            return Err(Refusal::Exists);
        }
        self.words[place] = ForwardingWord::of(row);
        Ok(())
    }

    /// Replaces the row of the same start time, and returns it. If there is none, it returns `None`, and the group is
    /// as it was. It takes no memory.
    pub fn replace(&mut self, row: &Forwarding) -> Option<Forwarding>
        ensures value { result ≡ option_map (forwarding_with row.now.s_id row.now.sf_type) (row_at forwarding_start row.now.start_time self.old) }
        ensures rows { self.new ≡ with_row_at forwarding_start row.now.start_time (forwarding_with 0 0 row.now) self.old }
    {
        let old = self.get(row.s_id(), row.sf_type(), row.start_time())?;
        self.words[place_of(row)] = ForwardingWord::of(row);
        Some(old)
    }

    /// Removes the row of a start time, and returns it as a row of the facility `sf_type` of the subscriber `s_id`,
    /// whose ranges are those of `get`. If there is none, it returns `None`. It takes no memory.
    pub fn remove(&mut self, s_id: u32, sf_type: u8, start_time: u8) -> Option<Forwarding>
        requires s_id { IsTrue (is_between 1 LAST_SUBSCRIBER s_id) }
        requires sf_type { IsTrue (is_between 1 4 sf_type) }
        ensures value { result ≡ option_map (forwarding_with s_id sf_type) (row_at forwarding_start start_time self.old) }
        ensures rows { self.new ≡ without_row forwarding_start start_time self.old }
    {
        let fields = self.fields_at(start_time)?;
        self.words[place_at(start_time)] = ForwardingWord::none();
        Some(fields.row(s_id, sf_type, start_time))
    }
}
