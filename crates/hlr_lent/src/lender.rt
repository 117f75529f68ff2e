//! A register that lends its parts.
ghost use Rattle.std.specs.Prelude.{◌≡◌, ◌<◌, true, false, IsTrue, None, Some, IfOk, IfSome, OnErr, length, slice_index_or, slice_set};
ghost use Rattle.view_board.specs.Desks.{with_view};
ghost use Rattle.view_board.specs.Views.{looked};
ghost use Rattle.hlr_owners.specs.Recut.{IsHomeToCut};
ghost use Rattle.hlr_owners.specs.Owners.{AllHome, AreOwners, IsLent, homes_in, store_in};
ghost use Rattle.hlr_owners.specs.Sight.{IsSightOf};
ghost use Rattle.hlr_core.specs.WhileOut.{IsRegisterRecut, IsRegisterStep};
ghost use Rattle.hlr_core.specs.Home.{IsHomeTo};
ghost use Rattle.hlr_lent.specs.Away.{IsAsking, IsAway, allowed};
ghost use Rattle.hlr_lent.specs.Jobs.{IsBack};

use crate::lent_part::LentPart;
use crate::ring::{LenderEnd, arrived, ring, tell};
use arrayvec::ArrayVec;
use hlr_core::{Event, Regions, Register, Reply, Sight, TaskRoute};
use part_table::MOST_PARTS;
use std::alloc::Global;
use std::marker::Model;
use std::sync::Arc;
use tatp_rows::Refusal;

/// A register that lends its parts, seen as the register, in which a lent part is as it was when it was lent.
#[derive(Drop)]
pub struct Lender {
    pub(crate) register: Register,
    // For each part, by its number, the ring through which it comes home while it is lent.
    pub(crate) rings: ArrayVec<Option<LenderEnd>, 16>,
    // If this is false, no part is lent, so that a call needs to look at no ring.
    pub(crate) lends: bool,
}

impl Model for Lender {
    ghost use Rattle.std.specs.Prelude.{◌≡◌, false, length};
    ghost use Rattle.part_table.specs.declared.region.TheConstants.{MOST_PARTS};
    ghost use Rattle.hlr_owners.specs.Out.{outs_in};
    ghost use Rattle.hlr_owners.specs.Owners.{AllHome, OwnersState};
    ghost use Rattle.hlr_lent.specs.Rings.{HaveRings};

    ghost Value = { OwnersState };

    ghost view = { λ l. l.register };

    ghost invariant = { λ l. HaveRings (outs_in l.register.owners) l.rings.items × (length l.rings.items ≡ MOST_PARTS) × (l.lends ≡ false → AllHome l.register.owners) };
}

/// Takes the ring of a part out of its place, if there is one.
fn take_ring(rings: &mut ArrayVec<Option<LenderEnd>, 16>, part: u8) -> Option<LenderEnd>
    ensures items { rings.new.items ≡ slice_set rings.old.items part None }
    ensures ring { result ≡ slice_index_or rings.old.items part None }
{
    if usize::from(part) >= rings.len() {
        return None;
    }
    rings.as_mut_slice()[usize::from(part)].take()
}

/// Puts the ring of a part in its place.
fn put_ring(rings: &mut ArrayVec<Option<LenderEnd>, 16>, part: u8, ring: LenderEnd)
    requires { part < length rings.old.items }
    ensures { rings.new.items ≡ slice_set rings.old.items part (Some ring) }
{
    rings.as_mut_slice()[usize::from(part)] = Some(ring);
}

/// Checks whether the regions allow an event that moves them, or that makes or dissolves a part, and otherwise returns
/// the refusal.
fn allowed(regions: &Regions, event: &Event) -> Result<(), Refusal>
    ensures { result ≡ allowed event.now regions.now }
{
    match *event {
        Event::Give { part, side, at } => {
            regions.give_answer(part, side, at)?;
        }
        Event::Take { piece, part } => {
            regions.take_answer(piece, part)?;
        }
        Event::Divide { part, at } => {
            regions.dividing(part, at)?;
        }
        Event::Dissolve { part } => {
            regions.dissolving(part)?;
        }
        _ => {}
    }
    Ok(())
}

impl Lender {
    /// Makes a lender of a register whose parts are all home. It takes no memory.
    pub fn of(register: Register) -> Lender
        requires { AllHome register.owners }
        ensures { result ≡ register }
    {
        let mut rings = ArrayVec::new();
        for _ in 0..MOST_PARTS {
            rings.push(None);
        }
        Lender {
            register,
            rings,
            lends: false,
        }
    }

    /// Returns the register, in which a lent part is as it was when it was lent.
    pub fn register(&self) -> &Register
        ensures value { result.now ≡ self.now }
        ensures ruled { AreOwners self.now }
    {
        self.register.rules();
        &self.register
    }

    /// Returns the register alone. A part that is lent then can't come home to it any more; `is_all_home` says
    /// beforehand whether there is one.
    pub fn into_register(self) -> Register
        ensures { result ≡ self }
    {
        let Lender {
            register,
            rings: _rings,
            lends: _lends,
        } = self;
        register
    }

    /// Lends a part that is home, for any thread. It returns `Memory` if the system refuses memory, and then nothing
    /// has changed.
    pub fn lend(&mut self, alloc: Global, part: u8) -> Result<Box<LentPart>, Refusal>
        requires { slice_index_or (homes_in self.old.owners) part false ≡ true }
        ensures lent { IfOk result (λ lent. IsLent part self.old lent.value self.new) }
        ensures refused { OnErr result ((self.new ≡ self.old) × (result ≡ Err Refusal.Memory)) }
    {
        self.register.rules();
        let Ok((mut part_end, mut lender_end)) = ring(alloc) else {
            return Err(Refusal::Memory);
        };
        let Ok(board) = Arc::try_clone(self.register.board()) else {
            return Err(Refusal::Memory);
        };
        let holding = self.register.lend(part);
        tell(&mut part_end, &mut lender_end, &holding);
        match Box::new(alloc, LentPart::of(holding, board, part_end)) {
            Ok(lent) => {
                put_ring(&mut self.rings, part, lender_end);
                self.lends = true;
                Ok(lent)
            }
            Err(refused) => {
                self.register.back(refused.value.into_holding());
                Err(Refusal::Memory)
            }
        }
    }

    /// Takes in a part that was sent home, and returns whether it did. It returns false for a part that is home
    /// already, or that doesn't exist. It takes no memory, and never waits.
    pub fn back(&mut self, part: u8) -> bool
        ensures come { IsTrue result → IsBack part self.old self.new }
        ensures none { result ≡ false → self.new ≡ self.old }
    {
        self.register.rules();
        let Some(mut ring) = take_ring(&mut self.rings, part) else {
            return false;
        };
        match arrived(&mut ring) {
            Some(holding) => {
                self.register.back(holding);
                self.lends = !self.register.all_at_home();
                true
            }
            None => {
                put_ring(&mut self.rings, part, ring);
                false
            }
        }
    }

    /// Applies an event whose parts are home, and returns the reply, as `Register::apply`. The reply is right
    /// regardless of what jobs have done to the lent holdings.
    pub fn apply(&mut self, event: Event) -> Reply
        requires { IsHomeTo event self.old }
        ensures { IsRegisterStep event self.old result self.new }
    {
        self.register.apply(event)
    }

    /// Returns the refusal of an event if it is known without the lent parts. For an event on rows, that is a field out
    /// of its range, a number that nobody has, or a subscriber in a loose piece. For a posting, it is a part that
    /// doesn't exist. For other events, it is any refusal that depends on the regions alone.
    pub fn known(&self, event: &Event) -> Option<Refusal>
        ensures step { IfSome result (λ why. IsRegisterStep event.now self.now (Reply.Refused why) self.now) }
        ensures here { IfSome result (λ why. ¬ (IsAway event.now self.now)) }
        ensures asking { result ≡ None → IsAsking event.now self.now }
    {
        match self.register.route_task(event) {
            TaskRoute::Refused(why) => Some(why),
            TaskRoute::Here => allowed(self.register.regions(), event).err(),
            TaskRoute::To(..) => None,
        }
    }

    /// Applies an event, or returns `None` if it needs a lent part, and then nothing has changed. A refusal that is
    /// `known` is returned even then, and an event that needs no lent part always gets its reply.
    pub fn ask(&mut self, event: Event) -> Option<Reply>
        ensures step { IfSome result (λ reply. IsRegisterStep event self.old reply self.new) }
        ensures here { IfSome result (λ reply. ¬ (IsAway event self.old)) }
        ensures away { result ≡ None → IsAway event self.old }
        ensures same { result ≡ None → self.new ≡ self.old }
    {
        if !self.is_home_to(&event) {
            return match self.known(&event) {
                Some(why) => Some(Reply::Refused(why)),
                None => None,
            };
        }
        Some(self.apply(event))
    }

    /// Moves the bounds between parts, as `Register::recut_to`. The parts on both sides of each bound that moves must
    /// be home.
    pub fn recut_to(&mut self, bounds: &[u64]) -> Result<u8, Refusal>
        requires { IsHomeToCut bounds.now self.old }
        ensures { IsRegisterRecut bounds.now self.old result self.new }
    {
        self.register.recut_to(bounds)
    }

    /// Returns a sight of the board's words, no matter which parts are lent, as `Register::look`. It takes no memory,
    /// and never waits.
    pub fn look(&mut self) -> Sight
        ensures right { IsSightOf (store_in self.old) result.words }
        ensures seen { store_in self.new ≡ record (store_in self.old) { sight = result.words } }
        ensures same { self.new ≡ record self.old { spare = with_view self.old.spare (looked self.old.spare.view result.words) } }
    {
        self.register.look()
    }

    /// Looks as `look` does, into a sight of the caller's, so that its 18 KB needn't be moved.
    pub fn look_into(&mut self, sight: &mut Sight)
        ensures right { IsSightOf (store_in self.old) sight.new.words }
        ensures seen { store_in self.new ≡ record (store_in self.old) { sight = sight.new.words } }
        ensures same { self.new ≡ record self.old { spare = with_view self.old.spare (looked self.old.spare.view sight.new.words) } }
    {
        self.register.look_into(sight);
    }
}
