//! A part whose holding is lent, and where events go.
ghost use Rattle.std.specs.Prelude.{◌≡◌, Some, false};
ghost use Rattle.hlr_core.specs.Later.{IsBackWith};
ghost use Rattle.hlr_owners.specs.declared.part_owner.RegionOwner.TheVariants as owner;

use crate::parting_tests::{dissolving, dividing};
use crate::region_tests::{giving, has_regions, region, sees, taking};
use crate::tests::{
    ALL_CELLS, AREA_1, DONE, FIELD, MOVING, NO_NUMBER, NO_PART, access_row, facility_row, moved,
    number, opened, posting, read, replies, row, stands,
};
use hlr_core::{Event, Register, Reply, Route};
use holding::{Holding, Job};
use part_table::{END, Place, Side};
use std::process::Abort;
use tatp_actions::{Action, FIRST_ZONE, RowReply};
use tatp_rows::Refusal;
use view_board::{Board, SLOT_WORDS};

/// Whether each of two parts is at home, whether a third is, and whether all are.
fn homes(register: &Register) -> [bool; 4] {
    [
        register.at_home(0),
        register.at_home(1),
        register.at_home(2),
        register.all_at_home(),
    ]
}

/// Whether the regions are those of two parts at opening.
fn has_two_regions(register: &Register) -> bool {
    let regions = [
        region(Place::Part(0), 1, 65),
        region(Place::Part(1), 65, END),
    ];
    has_regions(register, &regions)
}

/// A holding that is out moves a subscriber, and posts; whether the subscriber was moved, and what the posting
/// answered.
fn works(holding: &mut Holding, board: &Board, s_id: u32) -> (bool, Result<u8, Refusal>)
    requires { holding.old.desk.board ≡ board.now }
    ensures { IsBackWith (Some (owner.Part (record { holding = holding.old; home = false }))) holding.new }
{
    if s_id < holding.lo() || holding.hi() <= s_id {
        return (false, Err(Refusal::Thread));
    }
    let moving = Action::UpdateLocation {
        s_id,
        vlr_location: 268_435_456,
    };
    let is_moved = holding.act(moving) == RowReply::Done;
    (is_moved, holding.post(board, ALL_CELLS))
}

/// What the second part does outside, and then comes home: where the parts are meanwhile, whether the regions are as
/// before, whether it moved subscriber 100, and what its posting answered. `None` where it isn't at home.
pub fn works_outside(
    register: &mut Register,
) -> Option<([bool; 4], bool, (bool, Result<u8, Refusal>))> {
    if !register.at_home(1) {
        return None;
    }
    let mut holding = register.lend(1);
    let are_home = homes(register);
    let has_regions = has_two_regions(register);
    let worked = works(&mut holding, register.board(), 100);
    register.back(holding);
    Some((are_home, has_regions, worked))
}

/// Where the parts are once the first one is lent, and whether the regions and the words that are seen are as before.
/// `None` where it isn't at home.
fn first_is_lent(register: &mut Register, words: &[(usize, u64)]) -> Option<([bool; 4], bool)> {
    if !register.at_home(0) {
        return None;
    }
    drop(register.lend(0));
    let are_home = homes(register);
    Some((are_home, has_two_regions(register) && sees(register, words)))
}

/// Asserts what a register of two parts shows while a part is lent, and once it is home again.
fn expect_lent(rt: &impl Abort, register: &mut Register) {
    let (added, moved) = (
        row(100, 100, 1).expect(rt, "a row"),
        row(100, 100, 268_435_456).expect(rt, "a row"),
    );
    let is_added = replies(register, Event::AddSubscriber(added), DONE);
    let outside = works_outside(register);
    let are_home = homes(register);
    let row = Reply::Rows(RowReply::Row(moved));
    let zone = FIRST_ZONE + 24;
    let shows = replies(register, read(100), row)
        && stands(register, &[(AREA_1, 1), (zone, 1)], &[]);
    let area_word = SLOT_WORDS + usize::from(AREA_1);
    let zone_word = SLOT_WORDS + usize::from(zone);
    let lent = first_is_lent(register, &[(area_word, 1), (zone_word, 1)]);
    assert_eq!(rt;
        (is_added, outside, are_home, shows, lent),
        (
            true,
            Some(([true, false, false, false], true, (true, Ok(2)))),
            [true, true, false, true],
            true,
            Some(([false, true, false, false], true)),
        )
    );
}

#[test]
fn part_is_lent_each_refused(rt: HostRuntime) {
    let mut register = opened(rt.alloc(), 2, 4).expect(&rt, "a register");
    expect_lent(&rt, &mut register);
    drop(register);
}

/// What the first part answers while the second one is out, and where a read of each one's subscribers goes then:
/// a posting, a give, and a take of what was given. `None` where one of them isn't at home before.
fn works_beside(register: &mut Register) -> Option<([Route; 2], [Reply; 3])> {
    if !register.at_home(1) {
        return None;
    }
    drop(register.lend(1));
    let routes = [register.route(&read(3)), register.route(&read(100))];
    if !register.at_home(0) {
        return None;
    }
    let posted = register.apply(Event::Post {
        part: 0,
        limit: ALL_CELLS,
    });
    let given = register.apply(Event::Give {
        part: 0,
        side: Side::High,
        at: 5,
    });
    let taken = register.apply(Event::Take { piece: 1, part: 0 });
    Some((routes, [posted, given, taken]))
}

/// Asserts what the first of two parts does beside a part that is out.
fn expect_beside(rt: &impl Abort, register: &mut Register) {
    let is_added = replies(
        register,
        Event::AddSubscriber(row(3, 3, 1).expect(rt, "a row")),
        DONE,
    );
    let beside = works_beside(register);
    let given = Reply::Given {
        piece: 1,
        lo: 5,
        hi: 65,
    };
    let taken = Reply::Taken { piece: 1, part: 0 };
    assert_eq!(rt;
        (is_added, beside),
        (
            true,
            Some((
                [
                    Route::To(0, Job::Act(Action::SubscriberData { s_id: 3 })),
                    Route::To(1, Job::Act(Action::SubscriberData { s_id: 100 })),
                ],
                [Reply::Posted(2), given, taken],
            ))
        )
    );
}

#[test]
fn others_go_on(rt: HostRuntime) {
    let mut register = opened(rt.alloc(), 2, 4).expect(&rt, "a register");
    expect_beside(&rt, &mut register);
    drop(register);
}

/// Asserts where events go in a register that has subscriber 3 in its first part, and the next ones in a loose piece.
fn expect_routes(rt: &impl Abort, register: &Register) {
    let (three, nine) = (
        number(3).expect(rt, "a number"),
        number(9).expect(rt, "a number"),
    );
    let routes = [
        register.route(&read(3)),
        register.route(&moved(three, 5)),
        register.route(&posting(1, 51)),
        register.route(&read(7)),
        register.route(&moved(nine, 5)),
        register.route(&read(0)),
        register.route(&posting(2, 51)),
    ];
    let moving = Action::UpdateLocation {
        s_id: 3,
        vlr_location: 5,
    };
    let want = [
        Route::To(0, Job::Act(Action::SubscriberData { s_id: 3 })),
        Route::To(0, Job::Act(moving)),
        Route::To(1, Job::Post(51)),
        Route::Now(MOVING),
        Route::Now(NO_NUMBER),
        Route::Now(FIELD),
        Route::Now(NO_PART),
    ];
    assert_eq!(rt; routes, want);
}

/// Asserts where events go there that add rows, switch a facility, give numbers, move regions, or have a part come or
/// go.
fn expect_more_routes(rt: &impl Abort, register: &Register) {
    let (access, facility) = (
        access_row(3, 1, 7).expect(rt, "a row"),
        facility_row(3, 2, 1).expect(rt, "a row"),
    );
    let (s_id, sub_nbr) = (3, number(9).expect(rt, "a number"));
    let routes = [
        register.route(&Event::AddAccess(access)),
        register.route(&Event::AddFacility(facility)),
        register.route(&Event::SetActive {
            s_id,
            sf_type: 2,
            is_active: 0,
        }),
        register.route(&Event::AddSubscriber(row(8, 8, 1).expect(rt, "a row"))),
        register.route(&Event::SetNumber { s_id, sub_nbr }),
        register.route(&giving(1, 100)),
        register.route(&taking(1, 0)),
        register.route(&dividing(1, 100)),
        register.route(&dissolving(7)),
    ];
    let switching = Action::SetActive {
        s_id: 3,
        sf_type: 2,
        is_active: 0,
    };
    let want = [
        Route::To(0, Job::Act(Action::AddAccess(access))),
        Route::To(0, Job::Act(Action::AddFacility(facility))),
        Route::To(0, Job::Act(switching)),
        Route::Here,
        Route::Here,
        Route::Here,
        Route::Here,
        Route::Here,
        Route::Here,
    ];
    assert_eq!(rt; routes, want);
}

/// Asserts where events go once subscriber 3 is there, and the next ones are given away.
fn expect_all_routes(rt: &impl Abort, register: &mut Register) {
    let given = Reply::Given {
        piece: 1,
        lo: 5,
        hi: 65,
    };
    let there = Event::AddSubscriber(row(3, 3, 1).expect(rt, "a row"));
    let is_right = replies(register, there, DONE) && replies(register, giving(0, 5), given);
    assert!(rt; is_right);
    expect_routes(rt, register);
    expect_more_routes(rt, register);
}

#[test]
fn events_go_each_refused(rt: HostRuntime) {
    let mut register = opened(rt.alloc(), 2, 4).expect(&rt, "a register");
    expect_all_routes(&rt, &mut register);
    drop(register);
}
