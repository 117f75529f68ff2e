//! Pages of a register's rows, where there are more than a node and a level of nodes has, and at the borders of parts
//! and of loose pieces.
use crate::tests::{ask, opened};
use hlr_core::{Event, Register, Reply, Side};
use std::alloc::Global;
use std::process::Abort;
use std::test::Fail;
use tatp_actions::RowReply;
use tatp_rows::{Forwarding, Subscriber};
use tests_common::{facility_row, number, row};

/// How many subscribers there are: more than a tree of one level over its leaves can have.
const COUNT: u64 = 1_100;

/// Adds the subscribers 1 to `COUNT`, each with an active facility of type 1 to 4 in turn that is forwarded from 8
/// o'clock on: how many of the events were done.
fn fill(register: &mut Register) -> u64 {
    let mut done = 0u64;
    for turn in 0..COUNT {
        let s_id = COUNT - turn;
        let kind = 1 + s_id % 4;
        let (Ok(subscriber), Ok(facility), Ok(sub_nbr)) = (
            row(s_id, s_id, 1),
            facility_row(s_id, kind, 1),
            number(s_id),
        ) else {
            return 0;
        };
        let replies = [
            ask(register, Event::AddSubscriber(subscriber)),
            ask(register, Event::AddFacility(facility)),
            ask(
                register,
                Event::InsertForwarding {
                    sub_nbr,
                    sf_type: kind,
                    start_time: 8,
                    end_time: 16,
                    numberx: sub_nbr,
                },
            ),
        ];
        for reply in &replies {
            done = done.wrapping_add(u64::from(*reply == Reply::Rows(RowReply::Done)));
        }
    }
    done
}

/// Reads all Subscriber rows, page by page: how many there are, if those of 1, 2, 3 and so on come in this order.
fn count_by_pages(register: &Register, rows: &mut [Subscriber]) -> Option<u64> {
    if !register.all_at_home() {
        return None;
    }
    let mut shown = 0u64;
    for _ in 0..=COUNT {
        let count = register.next_subscribers(shown.wrapping_add(1), rows);
        for row in rows.iter().take(count) {
            shown = shown.wrapping_add(1);
            if u64::from(row.s_id()) != shown {
                return None;
            }
        }
        if count < rows.len() {
            return Some(shown);
        }
    }
    None
}

/// The same of the Call_Forwarding rows, of which each subscriber has one.
fn count_forwardings(register: &Register, rows: &mut [Forwarding]) -> Option<u64> {
    if !register.all_at_home() {
        return None;
    }
    let mut shown = 0u64;
    for _ in 0..=COUNT {
        let kind = 1 + shown % 4;
        let count = register.next_forwardings(shown, kind, 9, rows);
        for row in rows.iter().take(count) {
            shown = shown.wrapping_add(1);
            let key = (
                u64::from(row.s_id()),
                u64::from(row.sf_type()),
                row.start_time(),
            );
            if key != (shown, 1 + shown % 4, 8) {
                return None;
            }
        }
        if count < rows.len() {
            return Some(shown);
        }
    }
    None
}

/// Asserts that pages of each of these sizes show every row once.
fn expect_all(rt: &impl Abort, register: &Register) {
    let mut rows = [Subscriber::default(); 64];
    let mut forwardings = [Forwarding::default(); 64];
    for room in [1, 31, 32, 33, 64] {
        assert_eq!(rt;
            (
                count_by_pages(register, &mut rows[..room]),
                count_forwardings(register, &mut forwardings[..room])
            ),
            (Some(COUNT), Some(COUNT)),
            "by {room}"
        );
    }
}

/// Gives rows of two parts away as three pieces: how many of the events were done.
fn give_pieces(register: &mut Register) -> u64 {
    let mut done = 0u64;
    for (part, side, at) in [
        (0, Side::High, 200),
        (1, Side::Low, 300),
        (2, Side::High, 1_100),
    ] {
        let reply = ask(register, Event::Give { part, side, at });
        done = done.wrapping_add(u64::from(matches!(reply, Reply::Given { .. })));
    }
    done
}

#[test]
fn pages_of_parts_and_pieces(rt: HostRuntime) -> Result<(), Fail> {
    let alloc: Global = rt.alloc();
    let Ok(mut register) = opened(alloc, 3, 25) else {
        panic!(&rt; "a register is opened")
    };
    let added = fill(&mut register);
    expect_all(&rt, &register);
    let given = give_pieces(&mut register);
    expect_all(&rt, &register);
    let mut rows = [Subscriber::default(); 4];
    let ends = if register.all_at_home() {
        [
            register.next_subscribers(0, &mut []),
            register.next_subscribers(COUNT, &mut rows),
            register.next_subscribers(COUNT + 1, &mut rows),
            register.next_subscribers(u64::MAX, &mut rows),
        ]
    } else {
        [9; 4]
    };
    drop(register);
    assert_eq!(&rt; (added, given, ends), (3 * COUNT, 3, [0, 1, 0, 0]));
    Ok(())
}
