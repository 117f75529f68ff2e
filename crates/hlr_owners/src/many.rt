//! The part that has several subscribers, so that their rows can be looked up with overlapping memory accesses.
ghost use Rattle.std.specs.Prelude.{◌≡◌, ◌+◌, IfSome};
ghost use Rattle.std.specs.List.{All, list_all};
ghost use Rattle.tatp_rows.specs.declared.ranges.TheConstants.{LAST_SUBSCRIBER};
ghost use Rattle.part_table.specs.Region.{lies_in};
ghost use Rattle.tatp_actions.specs.Book.{IsWithin};
ghost use Rattle.hlr_owners.specs.WhileOut.{HasRowsWhileOut};
ghost use Rattle.hlr_owners.specs.Read.{HasRowsOf};
ghost use Rattle.hlr_owners.specs.Owners.{IsHomeFor, store_in};

use crate::owners::Owners;
use crate::part_owner::RegionOwner;
use holding::Holding;
use part_table::Region;

/// Returns whether a region has a subscriber in its range.
fn lies_in(region: &Region, s_id: u32) -> bool
    ensures { result ≡ lies_in s_id region.now }
{
    region.lo <= s_id && s_id < region.hi
}

/// Returns whether a region has all of these subscribers in its range.
fn all_lie_in(region: &Region, s_ids: &[u32]) -> bool
    ensures { result ≡ list_all (λ s_id. lies_in s_id region.now) s_ids.now }
{
    for s_id in s_ids {
        if !lies_in(region, *s_id) {
            return false;
        }
    }
    true
}

impl Owners {
    /// Lends the holding of all of these subscribers, to be read, if one part has all of them. It takes no memory.
    pub fn holding_of_all(&self, s_ids: &[u32]) -> Option<&Holding>
        requires within { All (IsWithin 1 (LAST_SUBSCRIBER + 1)) s_ids.now }
        requires home { All (λ s_id. IsHomeFor s_id self.now) s_ids.now }
        ensures home { IfSome result (λ holding. All (λ s_id. HasRowsOf s_id (store_in self.now) holding.now) s_ids.now) }
        ensures while_out { IfSome result (λ holding. All (λ s_id. HasRowsWhileOut s_id self.now holding.now) s_ids.now) }
    {
        let i = self.owner_of(*s_ids.first()?);
        let region = self.regions.list()[i];
        if !all_lie_in(&region, s_ids) {
            return None;
        }
        match &self.owners[i] {
            RegionOwner::Part(part_owner) => Some(part_owner.holding()),
            RegionOwner::Piece(_) => None,
        }
    }
}
