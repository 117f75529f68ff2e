//! The owner of a region: the holding of a part, which is home or lent, or a loose piece.
ghost use Rattle.std.specs.Prelude.{◌≡◌, true, false, Some, IsSome};
ghost use Rattle.std.specs.Option.Follows.{option_follows_value};
ghost use Rattle.std.specs.Borrow.{sem};
ghost use Rattle.holding.specs.Held.{IsHolding};
ghost use Rattle.hlr_owners.specs.Lends.{lends_holding};

use holding::{Holding, Piece};
use std::marker::Model;
use std::snapshot::Snapshot;

/// The holding of a part, home or lent. Of a lent one, this knows how it was when it was lent.
#[derive(Drop)]
pub struct PartOwner {
    holding: Option<Box<Holding>>,
    lent: Snapshot<Holding>,
}

/// The owner of a region.
#[derive(Drop)]
pub enum RegionOwner {
    /// The holding of a part.
    Part(PartOwner),
    /// A loose piece.
    Piece(Box<Piece>),
}

impl Model for PartOwner {
    ghost use Rattle.hlr_owners.specs.PartOwnerState.{PartOwnerState, part_owner_state};

    ghost Value = { PartOwnerState };

    ghost view = { λ s. part_owner_state s.holding s.lent.value };
}

/// Lends the value in a place, to be changed.
fn value_mut<T>(place: &mut Option<T>) -> &mut T
    requires { IsSome place.old }
    ensures* writes_back { sem 𝓛 (option_follows_value T.row place.entry result) }
    ensures value { place.old ≡ Some result.now }
{
    match place {
        Some(value) => value,
        None => unreachable!(),
    }
}

impl PartOwner {
    /// Makes the owner of a part from its holding, which is home.
    pub fn of(holding: Box<Holding>) -> PartOwner
        ensures { (result.holding ≡ holding.value) × (result.home ≡ true) }
    {
        let lent = Snapshot::of(&*holding);
        PartOwner {
            holding: Some(holding),
            lent,
        }
    }

    /// Returns whether the holding is home.
    pub fn is_home(&self) -> bool
        ensures { result ≡ self.now.home }
    {
        self.holding.is_some()
    }

    /// Lends the holding.
    pub fn lend(&mut self) -> Box<Holding>
        requires { self.old.home ≡ true }
        ensures holding { result.value ≡ self.old.holding }
        ensures owner { self.new ≡ record self.old { home = false } }
        ensures rules { IsHolding result.value }
    {
        match self.holding.take() {
            Some(holding) => {
                holding.rules();
                self.lent = Snapshot::of(&*holding);
                holding
            }
            None => unreachable!(),
        }
    }

    /// Takes the lent holding home.
    pub fn back(&mut self, holding: Box<Holding>)
        requires { self.old.home ≡ false }
        ensures owner { (self.new.holding ≡ holding.value) × (self.new.home ≡ true) }
        ensures rules { IsHolding holding.value }
    {
        holding.rules();
        self.holding = Some(holding);
    }

    /// Lends the holding, which is home, to be read.
    pub fn holding(&self) -> &Holding
        requires { self.now.home ≡ true }
        ensures value { result.now ≡ self.now.holding }
    {
        match &self.holding {
            Some(holding) => &**holding,
            None => unreachable!(),
        }
    }

    /// Lends the holding, which is home, to be changed.
    pub fn holding_mut(&mut self) -> &mut Holding
        requires { self.old.home ≡ true }
        ensures* writes_back { sem 𝓛 (lends_holding self.entry result) }
        ensures value { result.now ≡ self.old.holding }
    {
        let holding = value_mut(&mut self.holding);
        &mut **holding
    }
}
