//! The changes of the cells by actions.
ghost use Rattle.std.specs.Prelude.{◌≡◌, ◌≢◌, ℕ, ◌+◌, ◌<◌, ◌≤◌, true, [], ◌++◌, length, pos, negsuc, ◌+ℤ◌, ◌≤ℤ◌, slice_set, if◌then◌else◌};
ghost use Rattle.std.specs.Int.RustNames.{FitsSigned};
ghost use Rattle.std.specs.List.{AllByRecursion};
ghost use mir.Syntax.{w64};
ghost use Rattle.tatp_rows.specs.Zones.{area_of};
ghost use Rattle.tatp_actions.specs.Change.{IsNote, NoteEachOnce, NotesFit, change_at, delta_at, hour_notes, note_of};
ghost use Rattle.tatp_actions.specs.Inside.{area_moved, subscriber_added, signed, row_moved, in_span, covering, span_amount, AreSpans, AreHours, AreForwardingNotes, IsCellNote};
ghost use Rattle.tatp_actions.specs.declared.cells.TheConstants.{CELLS, FIRST_AREA, FIRST_ZONE};

use crate::cells::{CELLS, FIRST_AREA, FIRST_ZONE};
use arrayvec::ArrayVec;
use std::marker::Model;
use tatp_rows::{Forwarding, area};

/// The greatest number of notes in one change: one for each hour, and one for a zone.
pub const NOTES: usize = FIRST_AREA as usize + 1;

/// Returns a count, negated if `up` is false.
fn signed(up: bool, count: u8) -> i8
    requires { count ≤ 3 }
    ensures value { result ≡ signed up count }
    ensures low { negsuc 7 ≤ℤ result }
    ensures high { result ≤ℤ pos 8 }
    ensures moves { 0 < count → result ≢ pos 0 }
{
    let count = count as i8;
    if up { count } else { -count }
}

/// The hours at which the forwardings of a facility that start at 0, at 8 and at 16 end, or 0 for one that isn't there.
#[derive(Clone, Copy, Debug)]
pub(crate) struct Spans {
    pub(crate) from_0: u8,
    pub(crate) from_8: u8,
    pub(crate) from_16: u8,
}

impl Spans {
    /// Makes the spans of one forwarding alone.
    fn of(row: &Forwarding) -> Self
        ensures ends { AreSpans result }
        ensures covering { (hour : ℕ) → covering result hour ≡ in_span row.now.start_time row.now.end_time hour }
    {
        // For the prover: a row is in range, as its reader says.
        let _s_id = row.s_id();
        let none = Spans {
            from_0: 0,
            from_8: 0,
            from_16: 0,
        };
        let until = row.end_time();
        match row.start_time() {
            0 => Spans {
                from_0: until,
                ..none
            },
            8 => Spans {
                from_8: until,
                ..none
            },
            _ => Spans {
                from_16: until,
                ..none
            },
        }
    }

    /// Returns how many of the forwardings cover an hour.
    fn covering(&self, hour: u8) -> u8
        ensures value { result ≡ covering self.now hour }
        ensures few { result ≤ 3 }
    {
        let first = u8::from(hour < self.from_0);
        let second = u8::from(8 <= hour && hour < self.from_8);
        let third = u8::from(16 <= hour && hour < self.from_16);
        first + second + third
    }
}

/// A note: a cell, and the amount by which it moves, which is 0 if it doesn't.
#[derive(Clone, Copy, Debug)]
struct Note {
    cell: u8,
    amount: i8,
}

/// The change of the cells by an action, seen as its notes. There are at most `NOTES` of them, each with a cell and the
/// amount by which it moves, and no cell comes twice.
#[derive(Debug, Drop)]
pub struct Change {
    up: bool,
    hours: Spans,
    first: Note,
    second: Note,
}

impl Model for Change {
    ghost use Rattle.std.specs.Prelude.{ℕ, List, ℤ};
    ghost use Rattle.tatp_actions.specs.Inside.{IsCompact, notes_in};

    ghost Value = { List (ℕ × ℤ) };

    ghost view = { λ c. notes_in c };

    ghost invariant = { λ c. IsCompact c };
}

/// Appends a note of a cell to others, unless its amount is 0.
fn push_note(notes: &mut ArrayVec<(u8, i8), NOTES>, cell: u8, amount: i8)
    requires { amount ≢ pos 0 → length notes.old.items < NOTES }
    ensures { notes.new.items ≡ notes.old.items ++ note_of cell amount }
{
    if amount != 0 {
        notes.push((cell, amount));
    }
}

/// Moves the deltas of the hours from one up to another by one each, up or down. The second hour isn't included.
fn add_span(deltas: &mut [i64; CELLS as usize], up: bool, from: u8, to: u8)
    requires to { to ≤ FIRST_AREA }
    requires fit { (c : ℕ) → c < CELLS → FitsSigned w64 (delta_at deltas.old c) }
    requires fits { (c : ℕ) → c < CELLS → FitsSigned w64 (delta_at deltas.old c +ℤ signed up (in_span from to c)) }
    ensures { (c : ℕ) → c < CELLS → delta_at deltas.new c ≡ delta_at deltas.old c +ℤ signed up (in_span from to c) }
{
    let amount = i64::from(signed(up, 1));
    for hour in from..to {
        deltas[usize::from(hour)] += amount;
    }
}

/// Moves the delta of a cell by its amount.
fn add_note(deltas: &mut [i64; CELLS as usize], note: Note)
    requires cell { note.cell < CELLS }
    requires fits { FitsSigned w64 (delta_at deltas.old note.cell +ℤ note.amount) }
    ensures { deltas.new ≡ slice_set deltas.old note.cell (delta_at deltas.old note.cell +ℤ note.amount) }
{
    deltas[usize::from(note.cell)] += i64::from(note.amount);
}

/// Returns the hours that a forwarding covers if its facility is active, and none otherwise.
fn row_spans(active: bool, row: &Forwarding) -> Spans
    ensures ends { AreSpans result }
    ensures covering { (hour : ℕ) → covering result hour ≡ (if active then in_span row.now.start_time row.now.end_time hour else 0) }
{
    if active {
        return Spans::of(row);
    }
    Spans {
        from_0: 0,
        from_8: 0,
        from_16: 0,
    }
}

/// Makes the note of an area that doesn't move.
fn no_area() -> Note
    ensures { result ≡ record { cell = FIRST_AREA; amount = pos 0 } }
{
    Note {
        cell: FIRST_AREA,
        amount: 0,
    }
}

/// Makes the note of a zone that moves by an amount.
fn zone_note(zone: u8, amount: i8) -> Note
    requires { zone < 32 }
    ensures { result ≡ record { cell = FIRST_ZONE + zone; amount = amount } }
{
    Note {
        cell: FIRST_ZONE + zone,
        amount,
    }
}

impl Change {
    /// Makes the change of two cells.
    fn of_notes(first: Note, second: Note) -> Self
        requires first { IsCellNote first }
        requires second { IsCellNote second }
        requires two { first.cell ≢ second.cell }
        ensures { result ≡ note_of first.cell first.amount ++ note_of second.cell second.amount }
    {
        Change {
            up: true,
            hours: Spans {
                from_0: 0,
                from_8: 0,
                from_16: 0,
            },
            first,
            second,
        }
    }

    /// Makes the change of the hours that forwardings cover, and of a zone.
    fn of_hours(up: bool, hours: Spans, zone: Note) -> Self
        requires ends { AreSpans hours }
        requires zone { IsCellNote zone }
        requires two { FIRST_AREA < zone.cell }
        ensures { result ≡ hour_notes (span_amount up hours) FIRST_AREA 0 ++ note_of zone.cell zone.amount }
    {
        Change {
            up,
            hours,
            first: no_area(),
            second: zone,
        }
    }

    /// Makes the change that moves no cell.
    pub fn none() -> Self
        ensures { result ≡ [] }
    {
        Change::of_notes(no_area(), zone_note(0, 0))
    }

    /// Returns the notes, each with a cell and the amount by which it moves.
    pub fn notes(&self) -> ArrayVec<(u8, i8), NOTES>
        ensures value { result.items ≡ self.now }
        ensures few { length self.now ≤ NOTES }
        ensures small { AllByRecursion IsNote self.now }
        ensures once { NoteEachOnce self.now }
    {
        let mut notes = ArrayVec::new();
        for hour in 0..FIRST_AREA {
            push_note(&mut notes, hour, signed(self.up, self.hours.covering(hour)));
        }
        push_note(&mut notes, self.first.cell, self.first.amount);
        push_note(&mut notes, self.second.cell, self.second.amount);
        notes
    }

    /// Adds to the delta of each cell what the notes say of it. Each sum has to fit into 64 bits.
    pub fn add_to(&self, deltas: &mut [i64; CELLS as usize])
        requires { NotesFit deltas.old self.now }
        ensures { (c : ℕ) → c < CELLS → delta_at deltas.new c ≡ delta_at deltas.old c +ℤ change_at self.now c }
    {
        add_span(deltas, self.up, 0, self.hours.from_0);
        add_span(deltas, self.up, 8, self.hours.from_8);
        add_span(deltas, self.up, 16, self.hours.from_16);
        add_note(deltas, self.first);
        add_note(deltas, self.second);
    }

    /// Returns the change when a subscriber moves from one location to another. It is empty if both are in one area.
    pub(crate) fn location_moved(from: u32, to: u32) -> Self
        ensures { result ≡ area_moved (area_of from) (area_of to) }
    {
        let old = area(from);
        let new = area(to);
        if old == new {
            return Change::none();
        }
        let left = Note {
            cell: FIRST_AREA + old,
            amount: -1,
        };
        let entered = Note {
            cell: FIRST_AREA + new,
            amount: 1,
        };
        Change::of_notes(left, entered)
    }

    /// Returns the change when a subscriber is added at a location, in a zone.
    pub(crate) fn subscriber_added(vlr_location: u32, zone: u8) -> Self
        requires { zone < 32 }
        ensures { result ≡ subscriber_added (area_of vlr_location) zone }
    {
        let entered = Note {
            cell: FIRST_AREA + area(vlr_location),
            amount: 1,
        };
        Change::of_notes(entered, zone_note(zone, 1))
    }

    /// Returns the change when a row of a table other than Subscriber is added in a zone.
    pub(crate) fn row_added(zone: u8) -> Self
        requires { zone < 32 }
        ensures { result ≡ row_moved true zone }
    {
        Change::of_notes(no_area(), zone_note(zone, 1))
    }

    /// Returns the change of the hours when forwardings of an active facility are added, removed or switched: each hour
    /// moves by the number of them that cover it.
    pub(crate) fn hours_moved(up: bool, spans: &Spans) -> Self
        requires { AreSpans spans.now }
        ensures { AreHours (span_amount up spans.now) FIRST_AREA result }
    {
        Change::of_hours(up, *spans, zone_note(0, 0))
    }

    /// Returns the change when a forwarding is added or removed, given whether its facility is active.
    pub(crate) fn forwarding_moved(up: bool, active: bool, row: &Forwarding, zone: u8) -> Self
        requires { zone < 32 }
        ensures { AreForwardingNotes up active row.now zone result }
    {
        Change::of_hours(up, row_spans(active, row), zone_note(zone, signed(up, 1)))
    }
}
