//! The memory for owners that are made of what comes home, and for owners that are taken apart.
ghost use Rattle.std.specs.Prelude.{◌≡◌, IfOk, OnErr};

use crate::part_owner::RegionOwner;
use crate::room::places;
use holding::{Holding, Piece};
use part_table::{MOST_PARTS, MOST_PIECES, Regions};
use std::alloc::Global;
use std::marker::Model;
use tatp_rows::Refusal;

/// Two empty lists, with room for the holdings and the loose pieces of owners that are taken apart.
#[derive(Drop)]
pub(crate) struct Rooms {
    pub(crate) holdings: Vec<Box<Holding>>,
    pub(crate) pieces: Vec<Box<Piece>>,
}

impl Model for Rooms {
    ghost use Rattle.std.specs.Prelude.{◌≡◌, ◌≤◌, [], ⊤, vec_capacity};
    ghost use Rattle.hlr_owners.specs.declared.room.TheConstants.{PLACES};

    ghost Value = { ⊤ };

    ghost view = { λ _. tt };

    ghost invariant = { λ r. (r.holdings.items ≡ []) × (r.pieces.items ≡ []) × (PLACES ≤ vec_capacity r.holdings) × (PLACES ≤ vec_capacity r.pieces) };
}

impl Rooms {
    /// Takes room for as many as there can be, or returns `Memory` if the system refuses it.
    pub(crate) fn new(alloc: Global) -> Result<Rooms, Refusal>
        ensures { OnErr result (result ≡ Err Refusal.Memory) }
    {
        Ok(Rooms {
            holdings: places(alloc)?,
            pieces: places(alloc)?,
        })
    }
}

/// How many owners there is room for, which is the greatest number of regions that there can be.
pub(crate) const MOST_OWNERS: usize = MOST_PARTS as usize + MOST_PIECES as usize;

/// Everything that owners need in addition to what is handed in: the regions, as which this is seen, and room for what
/// is moved.
#[derive(Drop)]
pub struct Prepared {
    pub(crate) regions: Regions,
    pub(crate) room: Vec<RegionOwner>,
    pub(crate) rooms: Rooms,
}

impl Model for Prepared {
    ghost use Rattle.std.specs.Prelude.{◌≡◌, ◌≤◌, [], List, vec_capacity};
    ghost use Rattle.part_table.specs.declared.region.Region.{Region};
    ghost use Rattle.hlr_owners.specs.declared.prepared.TheConstants.{MOST_OWNERS};

    ghost Value = { List Region };

    ghost view = { λ p. p.regions };

    ghost invariant = { λ p. (p.room.items ≡ []) × (MOST_OWNERS ≤ vec_capacity p.room) };
}

impl Prepared {
    /// Takes room for the owners of these regions, or returns `Memory` if the system refuses it.
    pub(crate) fn over(alloc: Global, regions: Regions) -> Result<Prepared, Refusal>
        ensures ok { IfOk result (λ prepared. prepared ≡ regions) }
        ensures err { OnErr result (result ≡ Err Refusal.Memory) }
    {
        let room = Vec::with_capacity(alloc, MOST_OWNERS)?;
        let rooms = Rooms::new(alloc)?;
        Ok(Prepared {
            regions,
            room,
            rooms,
        })
    }
}
