//! The test whether all parts are home.
ghost use Rattle.std.specs.Prelude.{◌≡◌, ◌↔◌, IsTrue};
ghost use Rattle.std.specs.List.{list_all};
ghost use Rattle.hlr_owners.specs.Owners.{AllHome, is_home};

use crate::owners::Owners;
use crate::part_owner::RegionOwner;

/// Returns whether an owner is home.
fn is_home(owner: &RegionOwner) -> bool
    ensures { result ≡ is_home owner.now }
{
    match owner {
        RegionOwner::Part(part_owner) => part_owner.is_home(),
        RegionOwner::Piece(_) => true,
    }
}

/// Returns whether no owner is lent.
fn are_home(owners: &[RegionOwner]) -> bool
    ensures { result ≡ list_all is_home owners.now }
{
    for owner in owners {
        if !is_home(owner) {
            return false;
        }
    }
    true
}

impl Owners {
    /// Returns whether all parts are home.
    pub fn all_at_home(&self) -> bool
        ensures { IsTrue result ↔ AllHome self.now.owners }
    {
        are_home(&self.owners)
    }
}
