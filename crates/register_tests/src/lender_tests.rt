//! A part that a lender lends, what is answered meanwhile, and its way home. Each call that wants memory is tried again
//! where it is refused.
use crate::tests::{
    DONE, FIELD, NO_NUMBER, NO_PART, NO_PIECE, NOT_ADJACENT, OUT_OF_RANGE, moved, number, posting,
    read, row,
};
use hlr_core::{Event, Register, Reply, Side};
use hlr_lent::{Lender, LentPart};
use std::alloc::Global;
use std::num::NonZeroU32;
use std::process::Abort;
use tatp_actions::RowReply;
use tatp_actions::edit::UpdateLocation;
use tatp_rows::Refusal;

/// What adds a subscriber whose number is the s_id.
fn adding(rt: &impl Abort, s_id: u64) -> Event {
    Event::AddSubscriber(row(s_id, s_id, 1).expect(rt, "a row"))
}

/// What moves a subscriber to a location.
fn moving(rt: &impl Abort, sub_nbr: u64, vlr_location: u64) -> Event {
    moved(number(sub_nbr).expect(rt, "a number"), vlr_location)
}

/// What is answered to an event, at the second try where a growth was refused.
fn answer(lender: &mut Lender, event: &Event) -> Option<Reply> {
    match lender.ask(*event) {
        Some(Reply::Refused(Refusal::Memory)) => lender.ask(*event),
        told => told,
    }
}

/// A lender over two parts, each of which has a subscriber.
fn opened(rt: &impl Abort, alloc: Global) -> Lender {
    let register = match Register::open(alloc, 2, 4) {
        Err(Refusal::Memory) => Register::open(alloc, 2, 4),
        opened => opened,
    };
    let mut lender = Lender::of(register.expect(rt, "a register"));
    let low = answer(&mut lender, &adding(rt, 7));
    let high = answer(&mut lender, &adding(rt, 70));
    assert!(rt; low == Some(DONE) && high == Some(DONE));
    lender
}

/// The owner of a part that is at home.
fn lent(rt: &impl Abort, alloc: Global, lender: &mut Lender, part: u8) -> Box<LentPart> {
    if !lender.register().at_home(part) {
        panic!(rt; "the part is out")
    }
    match lender.lend(alloc, part) {
        Ok(owner) => owner,
        Err(_) => lent_again(rt, alloc, lender, part),
    }
}

/// The same at the second try: a lend that was refused has left the part at home.
fn lent_again(rt: &impl Abort, alloc: Global, lender: &mut Lender, part: u8) -> Box<LentPart> {
    if !lender.register().at_home(part) {
        panic!(rt; "a lend that was refused keeps the part")
    }
    lender.lend(alloc, part).expect(rt, "an owner")
}

/// An owner moves its subscriber 7 to location 9, and posts.
fn work(rt: &impl Abort, owner: &mut LentPart) {
    if !owner.has(7) {
        panic!(rt; "the part has the subscriber")
    }
    let edit = UpdateLocation {
        s_id: 7,
        vlr_location: NonZeroU32::new(268_435_456).expect(rt, "a location"),
    };
    let is_done = owner.edit(edit).is_ok();
    let posted = owner.post(51);
    assert!(rt; is_done && posted == Ok(2));
}

/// Asserts what is refused by the regions while the first part is out, and what isn't.
fn expect_barred(rt: &impl Abort, lender: &mut Lender) {
    let told = [
        answer(
            lender,
            &Event::Give {
                part: 0,
                side: Side::Low,
                at: 1,
            },
        ),
        answer(
            lender,
            &Event::Give {
                part: 0,
                side: Side::Low,
                at: 7,
            },
        ),
        answer(lender, &Event::Take { piece: 1, part: 0 }),
        answer(lender, &Event::Divide { part: 0, at: 65 }),
        answer(lender, &Event::Divide { part: 0, at: 7 }),
        answer(lender, &Event::Dissolve { part: 0 }),
        answer(lender, &Event::Dissolve { part: 1 }),
        answer(lender, &Event::Dissolve { part: 2 }),
    ];
    let wanted = [
        Some(OUT_OF_RANGE),
        None,
        Some(NO_PIECE),
        Some(OUT_OF_RANGE),
        None,
        Some(NOT_ADJACENT),
        None,
        Some(NO_PART),
    ];
    assert!(rt; told == wanted);
}

/// Asserts what is answered while the first part is out: what is known without it, and what the second one has.
fn expect_beside(rt: &impl Abort, lender: &mut Lender) {
    let told = [
        answer(lender, &moving(rt, 7, 2)),
        answer(lender, &moving(rt, 7, 0)),
        answer(lender, &moving(rt, 9, 2)),
        answer(lender, &moving(rt, 70, 2)),
        answer(lender, &posting(0, 1)),
        answer(lender, &posting(2, 1)),
    ];
    let wanted = [
        None,
        Some(FIELD),
        Some(NO_NUMBER),
        Some(DONE),
        None,
        Some(NO_PART),
    ];
    assert!(rt; told == wanted);
}

#[test]
fn part_comes_home_each_refused(rt: HostRuntime) {
    let alloc = rt.alloc();
    let mut lender = opened(&rt, alloc);
    let mut owner = lent(&rt, alloc, &mut lender, 0);
    expect_beside(&rt, &mut lender);
    expect_barred(&rt, &mut lender);
    work(&rt, &mut owner);
    let early = lender.back(0);
    let owner = Box::into_inner(owner);
    owner.send_home();
    let backs = [lender.back(0), lender.back(0), lender.back(1)];
    let read = lender.ask(read(7));
    let moved = row(7, 7, 268_435_456).expect(&rt, "a row");
    assert_eq!(rt;
        (early, backs, read),
        (
            false,
            [true, false, false],
            Some(Reply::Rows(RowReply::Row(moved)))
        )
    );
    drop(lender);
}
