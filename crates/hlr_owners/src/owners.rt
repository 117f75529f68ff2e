//! The owners, one for each region.
ghost use Rattle.std.specs.Prelude.{◌≡◌, ◌+◌, ◌<◌, ◌≤◌, true, false, Some, IfOk, OnErr, position, length, if◌then◌else◌, option_map};
ghost use Rattle.std.specs.Arc.{arc_value};
ghost use Rattle.part_table.specs.Region.{lies_in};
ghost use Rattle.part_table.specs.Regions.{AreRegions, parts_of};
ghost use Rattle.part_table.specs.declared.region.TheConstants.{MOST_PARTS};
ghost use Rattle.hlr_owners.specs.Read.{HasRowsOf};
ghost use Rattle.hlr_owners.specs.Sight.{IsSightOf};
ghost use Rattle.hlr_owners.specs.Answered.{IsAnswered, is_loose};
ghost use Rattle.hlr_owners.specs.WhileOut.{HasRowsWhileOut, IsAnsweredWhileOut};
ghost use Rattle.hlr_owners.specs.Out.{outs_in};
ghost use Rattle.tatp_actions.specs.Action.{s_id_of, is_in_range, done_reply};
ghost use Rattle.tatp_actions.specs.Book.{IsRowsOf, IsWithin, subscriber_at};
ghost use Rattle.tatp_actions.specs.Part.{IsWidth};
ghost use Rattle.view_board.specs.Desks.{with_view};
ghost use Rattle.view_board.specs.Views.{looked};
ghost use Rattle.hlr_owners.specs.Desks.{AreDesks};
ghost use Rattle.hlr_owners.specs.Owners.{AreOwners, IsHomeFor, book_in, desks_in, homes_in, store_in};

use crate::part_owner::RegionOwner;
use crate::prepared::Rooms;
use holding::Holding;
use part_table::Regions;
use std::marker::Model;
use std::sync::Arc;
use tatp_actions::{Action, Edit};
use tatp_rows::{LAST_SUBSCRIBER, Number, Refusal};
use view_board::{Board, Desk, Sight, WORDS};

/// The regions, with their owners in the same order, and the board to which the parts post, with the desk of the slots
/// that no part has.
#[derive(Drop)]
pub struct Owners {
    pub(crate) regions: Regions,
    pub(crate) owners: Vec<RegionOwner>,
    pub(crate) rooms: Rooms,
    pub(crate) board: Arc<Board>,
    pub(crate) spare: Desk,
    pub(crate) width: u32,
}

impl Model for Owners {
    ghost use Rattle.std.specs.Prelude.{◌≤◌, vec_capacity};
    ghost use Rattle.std.specs.Arc.{arc_value};
    ghost use Rattle.hlr_owners.specs.Desks.{AreDesks};
    ghost use Rattle.hlr_owners.specs.Owners.{OwnersState, AreOwners, desks_in};

    ghost Value = { OwnersState };

    ghost view = { λ h. record { regions = h.regions; owners = h.owners.items; spare = h.spare; width = h.width } };

    ghost invariant = { λ h. AreOwners (record { regions = h.regions; owners = h.owners.items; spare = h.spare; width = h.width })
        × AreDesks (arc_value h.board) h.spare (desks_in h.owners.items) × (32 ≤ vec_capacity h.owners) };
}

/// Returns the reason why a loose piece refuses an action.
fn moving(action: &Action) -> Refusal
    ensures { result ≡ (if is_in_range action.now then Refusal.Moving else Refusal.Field) }
{
    if action.is_in_range() {
        Refusal::Moving
    } else {
        Refusal::Field
    }
}

/// Returns the number of a subscriber of a part, or `None` if there is no such row.
fn number_of(holding: &Holding, s_id: u32) -> Option<Number>
    ensures { result ≡ option_map (λ row. row.sub_nbr) (subscriber_at holding.now.part.book s_id) }
{
    let row = holding.lend_subscriber(s_id)?;
    Some(row.sub_nbr())
}

impl Owners {
    /// Tells the prover that each region and its owner have the same place in their lists, and that the desks belong to
    /// the board and share its slots. The call does nothing.
    #[inline(always)]
    pub fn rules(&self)
        ensures ruled { AreOwners self.now }
        ensures desks { AreDesks self.now.spare.board self.now.spare (desks_in self.now.owners) }
    {
        let _ = &self.board;
    }

    /// Finds the place of the region that has an s_id.
    pub fn owner_of(&self, s_id: u32) -> usize
        requires { IsWithin 1 (LAST_SUBSCRIBER + 1) s_id }
        ensures at { position (lies_in s_id) self.now.regions ≡ Some result }
        ensures there { result < length self.now.owners }
    {
        self.regions.index(s_id)
    }

    /// Lends the holding of a subscriber, to be read, or returns `Moving` if a loose piece has the subscriber.
    pub fn holding_of(&self, s_id: u32) -> Result<&Holding, Refusal>
        requires within { IsWithin 1 (LAST_SUBSCRIBER + 1) s_id }
        requires home { IsHomeFor s_id self.now }
        ensures home { IfOk result (λ holding. HasRowsOf s_id (store_in self.now) holding.now) }
        ensures while_out { IfOk result (λ holding. HasRowsWhileOut s_id self.now holding.now) }
        ensures moving { OnErr result ((result ≡ Err Refusal.Moving) × (is_loose s_id self.now.regions ≡ true)) }
    {
        match &self.owners[self.owner_of(s_id)] {
            RegionOwner::Part(part_owner) => Ok(part_owner.holding()),
            RegionOwner::Piece(_) => Err(Refusal::Moving),
        }
    }

    /// Returns the number of a subscriber in the region at this place, or `None` if there is no such row. It returns
    /// `Moving` if the region is a loose piece's.
    pub fn number_in(&self, i: usize, s_id: u32) -> Result<Option<Number>, Refusal>
        requires owner { position (lies_in s_id) self.now.regions ≡ Some i }
        requires home { IsHomeFor s_id self.now }
        ensures number { IfOk result (λ number. number ≡ option_map (λ row. row.sub_nbr) (subscriber_at (book_in self.now.owners) s_id)) }
        ensures home { IfOk result (λ _. is_loose s_id self.now.regions ≡ false) }
        ensures moving { OnErr result ((result ≡ Err Refusal.Moving) × (is_loose s_id self.now.regions ≡ true)) }
    {
        match &self.owners[i] {
            RegionOwner::Part(part_owner) => Ok(number_of(part_owner.holding(), s_id)),
            RegionOwner::Piece(_) => Err(Refusal::Moving),
        }
    }

    /// Does an edit for a subscriber in the region at this place. If the region is a loose piece's, its refusals, in
    /// order, are `Field` and `Moving`.
    pub fn edit_in<E: Edit>(&mut self, i: usize, edit: E) -> Result<(), Refusal>
        requires owner { position (lies_in (s_id_of (E.action edit))) self.old.regions ≡ Some i }
        requires home { IsHomeFor (s_id_of (E.action edit)) self.old }
        ensures answer { IsAnswered (is_loose (s_id_of (E.action edit)) self.old.regions) (E.action edit) (book_in self.old.owners) (done_reply result) (book_in self.new.owners) }
        ensures store { store_in self.new ≡ record (store_in self.old) { book = book_in self.new.owners } }
        ensures rows { IsRowsOf 1 (LAST_SUBSCRIBER + 1) (book_in self.new.owners) }
        ensures same { self.new ≡ record self.old { owners = self.new.owners } }
        ensures homes { homes_in self.new.owners ≡ homes_in self.old.owners }
        ensures outs { outs_in self.new.owners ≡ outs_in self.old.owners }
        ensures while_out { IsAnsweredWhileOut (E.action edit) self.old (done_reply result) self.new }
    {
        match &mut self.owners[i] {
            RegionOwner::Part(part_owner) => part_owner.holding_mut().edit(edit),
            RegionOwner::Piece(_) => Err(moving(&edit.to_action())),
        }
    }

    /// Does an edit. If a loose piece has its subscriber, its refusals, in order, are `Field` and `Moving`.
    pub fn edit<E: Edit>(&mut self, edit: E) -> Result<(), Refusal>
        requires within { IsWithin 1 (LAST_SUBSCRIBER + 1) (s_id_of (E.action edit)) }
        requires home { IsHomeFor (s_id_of (E.action edit)) self.old }
        ensures answer { IsAnswered (is_loose (s_id_of (E.action edit)) self.old.regions) (E.action edit) (book_in self.old.owners) (done_reply result) (book_in self.new.owners) }
        ensures store { store_in self.new ≡ record (store_in self.old) { book = book_in self.new.owners } }
        ensures rows { IsRowsOf 1 (LAST_SUBSCRIBER + 1) (book_in self.new.owners) }
        ensures same { self.new ≡ record self.old { owners = self.new.owners } }
        ensures homes { homes_in self.new.owners ≡ homes_in self.old.owners }
        ensures outs { outs_in self.new.owners ≡ outs_in self.old.owners }
        ensures while_out { IsAnsweredWhileOut (E.action edit) self.old (done_reply result) self.new }
    {
        let i = self.owner_of(edit.s_id());
        self.edit_in(i, edit)
    }

    /// Returns the regions of all subscribers.
    pub fn regions(&self) -> &Regions
        ensures value { result.now ≡ self.now.regions }
        ensures regions { AreRegions result.now }
    {
        // For the prover: the list tells that they are right.
        let _list = self.regions.list();
        &self.regions
    }

    /// Counts the parts.
    pub fn parts(&self) -> u8
        ensures value { result ≡ length (parts_of self.now.regions) }
        ensures some { 1 ≤ result }
        ensures few { result ≤ MOST_PARTS }
    {
        self.regions.parts()
    }

    /// Returns the zone width, 1..=524,288.
    pub fn width(&self) -> u32
        ensures value { result ≡ self.now.width }
        ensures range { IsWidth result }
    {
        self.width
    }

    /// Returns the board to which the parts post.
    pub fn board(&self) -> &Arc<Board>
        ensures { arc_value result.now ≡ self.now.spare.board }
    {
        &self.board
    }

    /// Looks at the board with the desk of the slots that no part has: it loads all words, one after another, and
    /// returns a sight of them.
    pub fn look(&mut self) -> Sight
        ensures right { IsSightOf (store_in self.old) result.words }
        ensures seen { store_in self.new ≡ record (store_in self.old) { sight = result.words } }
        ensures same { self.new ≡ record self.old { spare = with_view self.old.spare (looked self.old.spare.view result.words) } }
    {
        let mut sight = Sight { words: [0; WORDS] };
        self.look_into(&mut sight);
        sight
    }

    /// Looks as `look` does, into a sight of the caller's, so that its 18 KB needn't be moved.
    pub fn look_into(&mut self, sight: &mut Sight)
        ensures right { IsSightOf (store_in self.old) sight.new.words }
        ensures seen { store_in self.new ≡ record (store_in self.old) { sight = sight.new.words } }
        ensures same { self.new ≡ record self.old { spare = with_view self.old.spare (looked self.old.spare.view sight.new.words) } }
    {
        let board: &Board = &self.board;
        board.look_into(&mut self.spare, sight);
    }
}
