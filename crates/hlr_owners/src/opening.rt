//! The opening of owners, whose parts have no row.
ghost use Rattle.std.specs.Prelude.{◌≡◌, ◌<◌, ◌⊎◌, true, Err, IfOk, OnErr};
ghost use Rattle.tatp_actions.specs.Part.{IsRange, IsWidth};
ghost use Rattle.view_board.specs.Desks.{with_view};
ghost use Rattle.view_board.specs.Views.{Owns, alone, first_view, without};
ghost use Rattle.view_board.specs.Words.{AreSmall, HasGreat};
ghost use Rattle.view_board.specs.declared.words.TheConstants.{SLOTS};
ghost use Rattle.holding.specs.Held.{HasSmallNets};
ghost use Rattle.hlr_owners.specs.Desks.{AreLevel};
ghost use Rattle.hlr_owners.specs.Inside.{IsOpened};
ghost use Rattle.hlr_owners.specs.Store.{HasOpening, opening_from};
ghost use Rattle.hlr_owners.specs.Owners.{AllHome, store_in};

use crate::owners::Owners;
use crate::part_owner::{PartOwner, RegionOwner};
use crate::prepared::{MOST_OWNERS, Rooms};
use holding::Holding;
use part_table::{Region, Regions};
use std::alloc::Global;
use std::sync::Arc;
use tatp_actions::Part;
use tatp_rows::Refusal;
use view_board::{Board, Desk, WORDS};

/// Makes a board of these words, and the desk that owns all of it, as `Board::open` does. The function is not inlined,
/// so that its copy of the words has left the stack before a part is made.
#[inline(never)]
fn opened_board(alloc: Global, words: &[u64; WORDS]) -> Result<(Board, Desk), Refusal>
    ensures ok { IfOk result (λ opened. AreSmall words.now × (opened.1.board ≡ opened.0) × (opened.1.view ≡ first_view words.now)) }
    ensures err { OnErr result (((result ≡ Err Refusal.Field) × HasGreat words.now) ⊎ ((result ≡ Err Refusal.Memory) × AreSmall words.now)) }
{
    Board::open(alloc, words)
}

/// Splits a slot off a desk, as `Board::split` does. The function is not inlined, so that its copy of the numbers has
/// left the stack before a part is made.
#[inline(never)]
pub(crate) fn split_off(board: &Board, desk: &mut Desk, slot: u8) -> Result<Desk, Refusal>
    requires board { desk.old.board ≡ board.now }
    requires own { Owns desk.old.view slot }
    ensures ok { IfOk result (λ new. (new ≡ with_view desk.old (alone desk.old.view slot)) × (desk.new ≡ with_view desk.old (without desk.old.view slot))) }
    ensures once { desk.old.view.was_apart ≡ true }
    ensures err { OnErr result ((desk.new ≡ desk.old) × (result ≡ Err Refusal.Memory)) }
{
    board.split(desk, slot)
}

/// Puts a holding into a box, or returns `Memory` if the system refuses memory for it.
#[inline(never)]
fn boxed(alloc: Global, holding: Holding) -> Result<Box<Holding>, Refusal>
    ensures ok { IfOk result (λ boxed. boxed.value ≡ holding) }
    ensures err { OnErr result (result ≡ Err Refusal.Memory) }
{
    Ok(Box::new(alloc, holding)?)
}

/// Makes a holding without rows, over a slot that is split off the desk of those that no part has yet. It returns
/// `Memory` if the system refuses memory.
#[inline(never)]
fn opened(
    alloc: Global,
    board: &Board,
    spare: &mut Desk,
    slot: u8,
    region: Region,
    width: u32,
) -> Result<Box<Holding>, Refusal>
    requires board { spare.old.board ≡ board.now }
    requires slot { slot < SLOTS }
    requires own { Owns spare.old.view slot }
    requires small { HasSmallNets (alone spare.old.view slot) }
    requires range { IsRange region.lo region.hi }
    requires width { IsWidth width }
    ensures ok { IfOk result (λ holding. IsOpened region width holding.value × (holding.value.desk ≡ with_view spare.old (alone spare.old.view slot))
        × (spare.new ≡ with_view spare.old (without spare.old.view slot))) }
    ensures err { OnErr result (result ≡ Err Refusal.Memory) }
{
    let desk = split_off(board, spare, slot)?;
    let part = Part::new(alloc, region.lo, region.hi, width)?;
    boxed(alloc, Holding::of(alloc, part, desk))
}

impl Owners {
    /// Makes empty parts that share all subscribers, no loose piece, and a board of these words, of which each part
    /// gets one slot. There have to be 1..=16 parts and a zone width of 1..=524,288, and each slot has to have a net of
    /// 0 for each cell. It returns `Field` if a word passes `LIMIT`, and otherwise `Memory` if the system refuses
    /// memory.
    pub fn open(alloc: Global, parts: u8, width: u32, words: &[u64; WORDS]) -> Result<Self, Refusal>
        requires can { HasOpening parts width }
        requires level { AreLevel words.now }
        ensures ok { IfOk result (λ owners. AreSmall words.now × (store_in owners ≡ opening_from parts width words.now)) }
        ensures home { IfOk result (λ owners. AllHome owners.owners) }
        ensures err { OnErr result (((result ≡ Err Refusal.Field) × HasGreat words.now) ⊎ ((result ≡ Err Refusal.Memory) × AreSmall words.now)) }
    {
        let regions = Regions::opening(parts, width)?;
        let (board, mut spare) = opened_board(alloc, words)?;
        let board = Arc::new(alloc, board)?;
        let mut owners = Vec::with_capacity(alloc, MOST_OWNERS)?;
        let rooms = Rooms::new(alloc)?;
        for region in regions.list() {
            let slot = owners.len() as u8;
            let holding = opened(alloc, &board, &mut spare, slot, *region, width)?;
            owners.push_reserved(RegionOwner::Part(PartOwner::of(holding)));
        }
        Ok(Owners {
            regions,
            owners,
            rooms,
            board,
            spare,
            width,
        })
    }
}
