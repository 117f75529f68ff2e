//! Which places of groups had rows at once.
use super::rows_of;
use crate::Part;

/// The patterns of places that had rows: of the accesses and of the facilities of a subscriber, a bit for each type, and
/// of the forwardings of a facility, a bit for each start time.
#[derive(Drop)]
pub(crate) struct Patterns {
    accesses: [bool; 16],
    facilities: [bool; 16],
    forwardings: [bool; 8],
}

/// A pattern with one place more.
fn with(pattern: usize, is_taken: bool) -> usize {
    pattern.wrapping_mul(2).wrapping_add(usize::from(is_taken))
}

/// Whether each of them is true.
fn all(seen: &[bool]) -> bool {
    let mut all = true;
    for one in seen {
        all &= *one;
    }
    all
}

impl Patterns {
    pub(crate) fn none() -> Self {
        Patterns {
            accesses: [false; 16],
            facilities: [false; 16],
            forwardings: [false; 8],
        }
    }

    /// Notes those of a subscriber.
    pub(crate) fn note(&mut self, part: &mut Part, s_id: u32) {
        let (mut accesses, mut facilities) = (0, 0);
        for kind in 1..5u8 {
            let (access, facility, hours) = rows_of(part, s_id, kind);
            accesses = with(accesses, access.is_some());
            facilities = with(facilities, facility.is_some());
            let first = with(with(0, hours[0].is_some()), hours[1].is_some());
            self.forwardings[with(first, hours[2].is_some()) % 8] = true;
        }
        self.accesses[accesses % 16] = true;
        self.facilities[facilities % 16] = true;
    }

    /// Whether each pattern was noted.
    pub(crate) fn are_all(&self) -> bool {
        all(&self.accesses) && all(&self.facilities) && all(&self.forwardings)
    }
}
