//! How often each kind of reply came, and by how much each cell moved.
use super::patterns::Patterns;
use crate::tests::counts_of;
use crate::{Action, CELLS, FIRST_AREA, Part, RowReply};
use std::process::Abort;
use tatp_rows::Refusal;

/// A kind of reply: a row, so many numbers, done, or refused; of what is done, how far the first note goes that goes
/// farthest, and whether an hour is noted.
#[derive(Clone, Copy, PartialEq, Eq)]
enum Kind {
    Read,
    Numbers(usize),
    Done(i8, bool),
    Refused(Refusal),
}

/// How far the first note goes that goes farthest: 0 where there is none.
fn farthest(notes: &[(u8, i8)]) -> i8 {
    let mut far = 0i8;
    for (_, amount) in notes {
        if far.unsigned_abs() < amount.unsigned_abs() {
            far = *amount;
        }
    }
    far
}

/// The kind of a reply with these notes.
fn kind_of(reply: &RowReply, notes: &[(u8, i8)]) -> Kind {
    match reply {
        RowReply::Row(_) | RowReply::AccessRow { .. } => Kind::Read,
        RowReply::Numbers(numbers) => Kind::Numbers(numbers.len()),
        RowReply::Refused(why) => Kind::Refused(*why),
        RowReply::Done => {
            let hours = matches!(notes.first(), Some((cell, _)) if *cell < FIRST_AREA);
            Kind::Done(farthest(notes), hours)
        }
    }
}

/// The name of an action.
fn name_of(action: &Action) -> &'static str {
    match action {
        Action::SubscriberData { .. } => "SubscriberData",
        Action::NewDestination { .. } => "NewDestination",
        Action::AccessData { .. } => "AccessData",
        Action::UpdateSubscriber { .. } => "UpdateSubscriber",
        Action::UpdateLocation { .. } => "UpdateLocation",
        Action::InsertForwarding(_) => "InsertForwarding",
        Action::DeleteForwarding { .. } => "DeleteForwarding",
        Action::AddSubscriber(_) => "AddSubscriber",
        Action::AddAccess(_) => "AddAccess",
        Action::AddFacility(_) => "AddFacility",
        Action::SetActive { .. } => "SetActive",
        Action::SetNumber { .. } => "SetNumber",
    }
}

/// Each kind of reply that an action gives.
const KINDS: [(&str, Kind); 45] = [
    ("SubscriberData", Kind::Read),
    ("SubscriberData", Kind::Refused(Refusal::NoSubscriber)),
    ("NewDestination", Kind::Numbers(1)),
    ("NewDestination", Kind::Numbers(2)),
    ("NewDestination", Kind::Numbers(3)),
    ("NewDestination", Kind::Refused(Refusal::Field)),
    ("NewDestination", Kind::Refused(Refusal::NoDestination)),
    ("AccessData", Kind::Read),
    ("AccessData", Kind::Refused(Refusal::Field)),
    ("AccessData", Kind::Refused(Refusal::NoAccess)),
    ("UpdateSubscriber", Kind::Done(0, false)),
    ("UpdateSubscriber", Kind::Refused(Refusal::Field)),
    ("UpdateSubscriber", Kind::Refused(Refusal::NoSubscriber)),
    ("UpdateSubscriber", Kind::Refused(Refusal::NoFacility)),
    ("UpdateLocation", Kind::Done(0, false)),
    ("UpdateLocation", Kind::Done(-1, false)),
    ("UpdateLocation", Kind::Refused(Refusal::Field)),
    ("UpdateLocation", Kind::Refused(Refusal::NoSubscriber)),
    ("InsertForwarding", Kind::Done(1, false)),
    ("InsertForwarding", Kind::Done(1, true)),
    ("InsertForwarding", Kind::Refused(Refusal::NoFacility)),
    ("InsertForwarding", Kind::Refused(Refusal::Exists)),
    ("DeleteForwarding", Kind::Done(-1, false)),
    ("DeleteForwarding", Kind::Done(-1, true)),
    ("DeleteForwarding", Kind::Refused(Refusal::Field)),
    ("DeleteForwarding", Kind::Refused(Refusal::NoForwarding)),
    ("AddSubscriber", Kind::Done(1, false)),
    ("AddSubscriber", Kind::Refused(Refusal::Exists)),
    ("AddAccess", Kind::Done(1, false)),
    ("AddAccess", Kind::Refused(Refusal::NoSubscriber)),
    ("AddAccess", Kind::Refused(Refusal::Exists)),
    ("AddFacility", Kind::Done(1, false)),
    ("AddFacility", Kind::Refused(Refusal::NoSubscriber)),
    ("AddFacility", Kind::Refused(Refusal::Exists)),
    ("SetActive", Kind::Done(0, false)),
    ("SetActive", Kind::Done(1, true)),
    ("SetActive", Kind::Done(2, true)),
    ("SetActive", Kind::Done(3, true)),
    ("SetActive", Kind::Done(-1, true)),
    ("SetActive", Kind::Done(-2, true)),
    ("SetActive", Kind::Done(-3, true)),
    ("SetActive", Kind::Refused(Refusal::Field)),
    ("SetActive", Kind::Refused(Refusal::NoFacility)),
    ("SetNumber", Kind::Done(0, false)),
    ("SetNumber", Kind::Refused(Refusal::NoSubscriber)),
];

/// How often each kind of reply came, by how much each cell moved in all, and which places had rows at once.
#[derive(Drop)]
pub(crate) struct Tally {
    counts: [u32; KINDS.len()],
    sums: [u64; CELLS as usize],
    patterns: Patterns,
}

impl Tally {
    /// No reply, and no cell moved.
    pub(crate) fn new() -> Self {
        Tally {
            counts: [0; KINDS.len()],
            sums: [0; CELLS as usize],
            patterns: Patterns::none(),
        }
    }

    /// Notes which places of a subscriber have rows.
    pub(crate) fn note_patterns(&mut self, part: &mut Part, s_id: u32) {
        self.patterns.note(part, s_id);
    }

    /// Whether each pattern of places was noted.
    pub(crate) fn has_all_patterns(&self) -> bool {
        self.patterns.are_all()
    }

    /// Counts a reply to an action, and sums its notes.
    pub(crate) fn note(
        &mut self,
        rt: &impl Abort,
        action: &Action,
        reply: &RowReply,
        notes: &[(u8, i8)],
    ) {
        let name = name_of(action);
        let kind = kind_of(reply, notes);
        for (at, known) in KINDS.iter().enumerate() {
            if known.0 == name && known.1 == kind {
                self.counts[at] = self.counts[at].wrapping_add(1);
            }
        }
        for (cell, amount) in notes {
            assert!(rt; *cell < CELLS);
            let sum = &mut self.sums[usize::from(*cell)];
            *sum = sum.wrapping_add_signed(i64::from(*amount));
        }
    }

    /// Asserts that each kind of reply came often, and no other one in so many turns.
    pub(crate) fn expect_all_kinds(&self, rt: &impl Abort, turns: u32) {
        let (mut rare, mut others) = (0u32, turns);
        for count in self.counts {
            rare = rare.wrapping_add(u32::from(count < 20));
            others = others.wrapping_sub(count);
        }
        assert_eq!(rt; [rare, others], [0, 0]);
    }

    /// Asserts that the cells have moved from zero to what a part counts.
    pub(crate) fn expect_sums(&self, rt: &impl Abort, part: &Part) {
        assert_eq!(rt; self.sums, counts_of(&part.recount()));
    }
}
