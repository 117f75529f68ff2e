//! Calls that take no memory, once all memory is refused.
use crate::call_tests::answers_so;
use crate::gather_tests::{apart, gathered};
use crate::lent_tests::works_outside;
use crate::parting_tests::{are_added, dissolved, dissolving, divided, dividing};
use crate::plain::Plain;
use crate::plain_tests::Draws;
use crate::region_tests::{giving, has_regions, proposes, region, scans, sees};
use crate::tests::{
    AREA_1, DONE, MEMORY, ask, moved, number, opened, posting, read, recut, replies, row, stands,
};
use hlr_core::{Event, Register, Reply, Route};
use holding::Job;
use part_table::{END, Place};
use std::alloc::Global;
use std::process::Abort;
use std::test::Fail;
use tatp_actions::{Action, FIRST_AREA, FIRST_ZONE, RowReply};
use tatp_rows::Refusal;

/// A size that nothing else asks for: where `refuse_memory.sh` refuses all memory, it does so from a piece of it on.
const SIGNAL: usize = 7_654_321;

/// Whether all memory is refused from here on. One refused piece alone doesn't tell.
fn is_all_refused(alloc: Global) -> bool {
    Vec::<u8>::with_capacity(alloc, SIGNAL).is_err()
        && Vec::<u8>::with_capacity(alloc, SIGNAL).is_err()
}

/// How many kinds of events take no memory.
const KINDS: usize = 9;

/// The kind of an event that takes no memory. None where it adds a row, moves regions, or gives another number.
fn kind_of(plain: &Plain, event: &Event) -> Option<usize> {
    match *event {
        Event::SubscriberData { .. } => Some(0),
        Event::NewDestination { .. } => Some(1),
        Event::AccessData { .. } => Some(2),
        Event::UpdateSubscriber { .. } => Some(3),
        Event::UpdateLocation { .. } => Some(4),
        Event::DeleteForwarding { .. } => Some(5),
        Event::SetActive { .. } => Some(6),
        Event::SetNumber { s_id, sub_nbr } if plain.is_own(s_id, sub_nbr) => Some(7),
        Event::Post { .. } => Some(8),
        _ => None,
    }
}

/// Has a register answer an event, as the event or by the call for it: whether it replies as the plain one does,
/// and agrees with it.
fn is_answered(register: &mut Register, plain: &mut Plain, event: &Event, is_call: bool) -> bool {
    let want = plain.apply(*event);
    let is_right = if is_call {
        answers_so(register, event, &want)
    } else {
        ask(register, *event) == want
    };
    is_right && plain.agrees(register)
}

/// Applies drawn events to a register and a plain one: whether they reply alike.
fn are_filled_alike(
    register: &mut Register,
    plain: &mut Plain,
    draws: &mut Draws,
) -> Result<bool, Refusal> {
    let mut are_alike = true;
    for _ in 0..4_000u32 {
        let event = draws.event(plain)?;
        are_alike = is_answered(register, plain, &event, false) && are_alike;
    }
    Ok(are_alike)
}

/// How many of 4,000 drawn events are of each kind that takes no memory, and how many of these are answered wrong.
fn answered(
    register: &mut Register,
    plain: &mut Plain,
    draws: &mut Draws,
) -> Result<([u64; KINDS], u64), Refusal> {
    let mut counts = [0u64; KINDS];
    let mut wrong = 0u64;
    for step in 0..4_000u32 {
        let event = draws.event(plain)?;
        let Some(kind) = kind_of(plain, &event) else {
            continue;
        };
        let is_right = is_answered(register, plain, &event, step % 2 == 0);
        wrong = wrong.wrapping_add(u64::from(!is_right));
        if let Some(count) = counts.get_mut(kind) {
            *count = count.wrapping_add(1);
        }
    }
    Ok((counts, wrong))
}

/// Asserts that a register of three parts answers drawn events that take no memory, of each kind more than ten.
fn expect_answered(rt: &impl Abort, alloc: Global, register: &mut Register) -> Result<(), Refusal> {
    let mut plain = Plain::new(3, 8, 7);
    let mut draws = Draws::new(88_172_645_463_325_252, 7);
    let are_alike = are_filled_alike(register, &mut plain, &mut draws)?;
    let is_refused = is_all_refused(alloc);
    let (counts, wrong) = answered(register, &mut plain, &mut draws)?;
    let fewest = counts.iter().min().copied().unwrap_or(0);
    let none = opened(alloc, 1, 4);
    let is_wanting = none.is_err();
    drop(none);
    assert_eq!(rt;
        (are_alike, wrong, fewest > 10, is_wanting),
        (true, 0, true, is_refused)
    );
    Ok(())
}

// Run with all memory refused once the register is filled (`refuse_memory.sh`).
#[test]
fn events_all_refused_2(rt: HostRuntime) -> Result<(), Fail> {
    let mut register = opened(rt.alloc(), 3, 8)?;
    let answered = expect_answered(&rt, rt.alloc(), &mut register);
    drop(register);
    Ok(answered?)
}

/// Whether a register of two parts, with subscribers 3 and 100, shows itself as it should.
fn is_shown(register: &mut Register) -> bool {
    let regions = [
        region(Place::Part(0), 1, 65),
        region(Place::Part(1), 65, END),
    ];
    let to = Route::To(0, Job::Act(Action::SubscriberData { s_id: 3 }));
    let zone_of_100 = FIRST_ZONE + 24;
    has_regions(register, &regions)
        && stands(
            register,
            &[(FIRST_AREA, 1), (FIRST_ZONE, 1)],
            &[(FIRST_AREA, 1), (zone_of_100, 1)],
        )
        && scans(
            register,
            &[(FIRST_AREA, 2), (FIRST_ZONE, 1), (zone_of_100, 1)],
        )
        && proposes(register, &[5])
        && sees(
            register,
            &[(usize::from(FIRST_AREA), 1), (usize::from(FIRST_ZONE), 1)],
        )
        && register.index().len() == 2
        && register.route(&read(3)) == to
}

/// Asserts what calls of that register answer that take no memory, while its second part is lent and at home again, and
/// that a re-cut and a give want some.
fn expect_calls(rt: &impl Abort, register: &mut Register, is_refused: bool) {
    let shown = is_shown(register);
    let outside = works_outside(register);
    let kept = stands(
        register,
        &[
            (FIRST_AREA, 1),
            (AREA_1, 1),
            (FIRST_ZONE, 1),
            (FIRST_ZONE + 24, 1),
        ],
        &[],
    );
    let given = Reply::Given {
        piece: 1,
        lo: 5,
        hi: 65,
    };
    let want = if is_refused {
        (Err(Refusal::Memory), Ok(0), MEMORY)
    } else {
        (Ok(1), Ok(1), given)
    };
    let found = (
        recut(register, &[60]),
        recut(register, &[65]),
        ask(register, giving(0, 5)),
    );
    assert_eq!(rt; (shown, kept), (true, true));
    assert!(rt; found == want);
    assert_eq!(rt;
        outside,
        Some(([true, false, false, false], true, (true, Ok(2))))
    );
}

/// Asserts that a register is taken apart, and made anew unless all memory is refused, when all is handed back.
fn expect_apart(rt: &impl Abort, alloc: Global, register: Register, is_refused: bool) {
    let scattered = apart(rt, register);
    let is_made = match gathered(alloc, scattered) {
        Ok(register) => {
            drop(register);
            true
        }
        Err(back) => {
            let is_right = back.why == Refusal::Memory && back.item.holdings.len() == 2;
            drop(back);
            assert!(rt; is_right);
            false
        }
    };
    assert_eq!(rt; is_made, !is_refused);
}

/// A register of two parts with subscribers 3 and 100, of which the first is posted.
fn two_posted(rt: &impl Abort, alloc: Global) -> Register {
    let mut register = opened(alloc, 2, 4).expect(rt, "a register");
    let (three, hundred) = (
        row(3, 3, 1).expect(rt, "a row"),
        row(100, 100, 1).expect(rt, "a row"),
    );
    let is_right = replies(&mut register, Event::AddSubscriber(three), DONE)
        && replies(&mut register, Event::AddSubscriber(hundred), DONE)
        && ask(&mut register, posting(0, 51)) == Reply::Posted(2);
    assert!(rt; is_right);
    register
}

// Run with all memory refused once the register stands (`refuse_memory.sh`).
#[test]
fn calls_all_refused_4(rt: HostRuntime) {
    let mut register = two_posted(&rt, rt.alloc());
    let is_refused = is_all_refused(rt.alloc());
    expect_calls(&rt, &mut register, is_refused);
    expect_apart(&rt, rt.alloc(), register, is_refused);
}

/// Asserts that in a register with many rows in two parts none comes or goes where all memory is refused, when all
/// stays as it was, and else that both do.
fn expect_parts(rt: &impl Abort, register: &mut Register, is_refused: bool) {
    let (come, gone) = if is_refused {
        (MEMORY, MEMORY)
    } else {
        (divided(1, 20, 60), dissolved(0, 1, 60))
    };
    let comes = replies(register, dividing(0, 20), come);
    let goes = replies(register, dissolving(1), gone);
    assert_eq!(rt; (comes, goes), (true, true));
}

// Run with all memory refused once the register is filled (`refuse_memory.sh`).
#[test]
fn parts_all_refused_4(rt: HostRuntime) {
    let mut register = opened(rt.alloc(), 1, 4).expect(&rt, "a register");
    let are_added = are_added(&rt, &mut register, 100);
    let comes = replies(&mut register, dividing(0, 60), divided(1, 60, END));
    let is_refused = is_all_refused(rt.alloc());
    expect_parts(&rt, &mut register, is_refused);
    drop(register);
    assert_eq!(rt; (are_added, comes), (true, true));
}
