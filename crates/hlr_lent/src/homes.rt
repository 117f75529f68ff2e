//! The tests whether the parts on which something works are home.
ghost use Rattle.std.specs.Prelude.{◌≡◌, ◌↔◌, IsTrue};
ghost use Rattle.hlr_owners.specs.Recut.{IsHomeToCut};
ghost use Rattle.hlr_owners.specs.Owners.{AllHome, IsHomeFor, IsPartHome};
ghost use Rattle.hlr_core.specs.Home.{AreHome, IsBearerHome, IsHomeTo};

use crate::lender::Lender;
use hlr_core::{Event, Number, Parts, Place};
use part_table::MOST_PARTS;
use tatp_rows::{LAST_SUBSCRIBER, in_range};

impl Lender {
    /// Returns whether a part is home. It returns true also if there is no such part.
    pub fn is_part_home(&self, part: u64) -> bool
        ensures { IsTrue result ↔ IsPartHome part self.now }
    {
        let rings = self.rings.as_slice();
        if part >= u64::from(MOST_PARTS) {
            return true;
        }
        rings[part as usize].is_none()
    }

    /// Returns whether all parts are home.
    pub fn is_all_home(&self) -> bool
        ensures { IsTrue result ↔ AllHome self.now.owners }
    {
        !self.lends || self.register.all_at_home()
    }

    /// Returns whether the owner of a subscriber's region is home. It returns true also if s_id isn't in
    /// 1..=16,777,216, because nobody has such an s_id.
    pub fn is_home_for(&self, s_id: u64) -> bool
        ensures { IsTrue result ↔ IsHomeFor s_id self.now }
    {
        !self.lends || self.is_place_home(s_id)
    }

    /// Returns whether the owner of a subscriber's region is home, by a look at the regions.
    #[inline(never)]
    fn is_place_home(&self, s_id: u64) -> bool
        ensures { IsTrue result ↔ IsHomeFor s_id self.now }
    {
        self.register.rules();
        let Ok(s_id) = in_range(s_id, LAST_SUBSCRIBER) else {
            return true;
        };
        match self.register.regions().place(s_id) {
            Place::Part(part) => self.is_part_home(u64::from(part)),
            Place::Piece(_) => true,
        }
    }

    /// Returns whether the owner of the region of the subscriber who has a number is home. It returns true also if
    /// nobody has the number.
    pub fn is_bearer_home(&self, sub_nbr: Number) -> bool
        ensures { IsTrue result ↔ IsBearerHome sub_nbr self.now }
    {
        !self.lends || self.is_bearer_place_home(sub_nbr)
    }

    /// Returns whether that owner is home, by a look at the index and the regions.
    #[inline(never)]
    fn is_bearer_place_home(&self, sub_nbr: Number) -> bool
        ensures { IsTrue result ↔ IsBearerHome sub_nbr self.now }
    {
        match self.register.bearer(sub_nbr) {
            Some(s_id) => self.is_home_for(u64::from(s_id)),
            None => true,
        }
    }

    /// Returns whether each of some parts is home.
    fn are_home(&self, parts: Parts) -> bool
        ensures { IsTrue result ↔ AreHome parts self.now }
    {
        for part in parts.first..parts.end {
            if !self.is_part_home(u64::from(part)) {
                return false;
            }
        }
        true
    }

    /// Returns whether the parts on which an event works are home.
    pub fn is_home_to(&self, event: &Event) -> bool
        ensures { IsTrue result ↔ IsHomeTo event.now self.now }
    {
        self.are_home(self.register.parts_for(event))
    }

    /// Returns whether the parts on both sides of each bound that a recut moves are home. It returns true also for
    /// bounds that a recut refuses.
    pub fn is_home_to_cut(&self, bounds: &[u64]) -> bool
        ensures { IsTrue result ↔ IsHomeToCut bounds.now self.now }
    {
        let Ok(moves) = self.register.regions().moves_to(bounds) else {
            return true;
        };
        for bound_move in moves.as_slice() {
            let above = u64::from(bound_move.bound);
            if !self.is_part_home(above.saturating_sub(1)) || !self.is_part_home(above) {
                return false;
            }
        }
        true
    }
}
