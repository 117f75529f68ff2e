//! Actions of all twelve kinds, drawn by seeds.
ghost use Rattle.std.specs.Prelude.{◌<◌};

use crate::Action;
use crate::tests::makers::{access, facility, forwarding, number, subscriber};
use std::process::Abort;

/// A linear congruential generator's next state.
pub(crate) fn after(seed: u64) -> u64 {
    seed.wrapping_mul(6364136223846793005)
        .wrapping_add(1442695040888963407)
}

/// A number below a count, drawn by a seed, which moves on.
fn below(seed: &mut u64, count: u64) -> u64
    requires { 0 < count }
    ensures { result < count }
{
    *seed = after(*seed);
    (*seed >> 33) % count
}

/// One of the five administrative actions on a subscriber, drawn by a seed.
fn administration(rt: &impl Abort, s_id: u32, mut seed: u64) -> Action {
    let own = u64::from(s_id);
    let kind = below(&mut seed, 4) + 1;
    match below(&mut seed, 5) {
        0 => {
            let location = (seed >> 16) % 4_294_967_295 + 1;
            Action::AddSubscriber(subscriber(rt, own, location))
        }
        1 => Action::AddAccess(access(rt, own, kind)),
        2 => {
            let is_active = below(&mut seed, 2);
            Action::AddFacility(facility(rt, own, kind, is_active))
        }
        3 => Action::SetActive {
            s_id,
            sf_type: below(&mut seed, 5) as u8,
            is_active: (below(&mut seed, 9) / 4) as u8,
        },
        _ => Action::SetNumber {
            s_id,
            sub_nbr: number(rt, below(&mut seed, 26)),
        },
    }
}

/// One of the seven transactions on a subscriber, drawn by a seed: some of its plain numbers are out of their ranges.
fn transaction(rt: &impl Abort, s_id: u32, mut seed: u64) -> Action {
    let sf_type = below(&mut seed, 5) as u8;
    let start_time = (below(&mut seed, 10) / 3 * 8) as u8;
    match below(&mut seed, 7) {
        0 => Action::SubscriberData { s_id },
        1 => Action::NewDestination {
            s_id,
            sf_type,
            start_time,
            end_time: below(&mut seed, 12) as u8,
        },
        2 => Action::AccessData {
            s_id,
            ai_type: sf_type,
        },
        3 => Action::UpdateSubscriber {
            s_id,
            sf_type,
            bit_1: (below(&mut seed, 9) / 4) as u8,
            data_a: below(&mut seed, 256) as u8,
        },
        4 => Action::UpdateLocation {
            s_id,
            vlr_location: (below(&mut seed, 30) * 140_000_000) as u32,
        },
        5 => Action::DeleteForwarding {
            s_id,
            sf_type,
            start_time,
        },
        _ => drawn_insertion(rt, s_id, seed),
    }
}

/// A forwarding that is inserted for a subscriber, drawn by a seed: it may end before it starts, and most often covers
/// the hour 16.
fn drawn_insertion(rt: &impl Abort, s_id: u32, mut seed: u64) -> Action {
    let sf_type = below(&mut seed, 4) + 1;
    let start_time = below(&mut seed, 3) * 8;
    let end_time = 24 - below(&mut seed, 10);
    let row = forwarding(rt, u64::from(s_id), sf_type, start_time, end_time);
    Action::InsertForwarding(row)
}

/// An action of one of the twelve kinds on one of the subscribers 1..=40, drawn by a seed.
pub(crate) fn draw(rt: &impl Abort, seed: u64) -> Action {
    let s_id = ((seed >> 33) % 40) as u32 + 1;
    let mut own = seed;
    if below(&mut own, 12) < 7 {
        transaction(rt, s_id, own)
    } else {
        administration(rt, s_id, own)
    }
}
