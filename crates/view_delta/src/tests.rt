//! What no clause says: what each call answers on a worked example.
ghost use Rattle.std.specs.Prelude.{◌≡◌, ℕ, ◌<◌, ◌≤◌, slice_index};

use super::*;
use std::process::Abort;
use std::test::Fail;
use tatp_actions::{Action, FIRST_AREA, FIRST_ZONE, Part};
use tatp_rows::{Number, Subscriber};

// The cell of zone 1.
const ZONE: u8 = FIRST_ZONE + 1;

// The counts of one row in a cell.
fn counts_of(cell: u8) -> Cells
    requires { cell < CELLS }
    ensures { (c : ℕ) → c < CELLS → slice_index result c ≤ 1 }
{
    let mut counts = Cells::zero();
    counts.count_one(cell);
    counts
}

#[test]
fn counts_go_in_and_out(rt: HostRuntime) {
    let counts = counts_of(ZONE);
    let mut pending = Pending::zero();
    assert!(rt; pending.is_zero());
    pending.add(&counts);
    assert!(rt; !pending.is_zero());
    assert_eq!(rt; pending.get(ZONE), 1);
    assert_eq!(rt; pending.next_nonzero(0), Some(ZONE));
    assert_eq!(rt; pending.next_nonzero(ZONE), Some(ZONE));
    assert_eq!(rt; pending.next_nonzero(ZONE + 1), None);
    pending.subtract(&counts);
    pending.subtract(&counts);
    assert_eq!(rt; pending.get(ZONE), -1);
    assert_eq!(rt; pending.deltas()[usize::from(ZONE)], -1);
    pending.clear(ZONE);
    assert!(rt; pending.is_zero());
}

// The deltas after a subscriber in area 1 was added, in zone 1.
fn expect_added(rt: &impl Abort, part: &mut Part, row: Subscriber) {
    assert!(rt; part.lo() <= row.s_id());
    assert!(rt; row.s_id() < part.hi());
    let (_, change) = part.act(Action::AddSubscriber(row));
    let _notes = change.notes();
    let mut pending = Pending::zero();
    pending.note(&change);
    assert_eq!(rt; (pending.get(FIRST_AREA + 1), pending.get(ZONE)), (1, 1));
    assert_eq!(rt; pending.next_nonzero(FIRST_AREA + 2), Some(ZONE));
}

#[test]
fn a_change_is_noted(rt: HostRuntime) -> Result<(), Fail> {
    let number = Number::try_new(7)?;
    let row = Subscriber::try_new(7, number, [0; 10], [0; 10], [0; 10], 1, 268_435_456)?;
    let mut part = Part::new(rt.alloc(), 1, 65, 4)?;
    expect_added(&rt, &mut part, row);
    Ok(())
}
