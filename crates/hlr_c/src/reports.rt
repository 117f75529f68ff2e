//! The calls that read counts, regions and proposed bounds.
ghost use Rattle.std.specs.Prelude.{◌≡◌, ◌<◌, ◌≤◌, ℕ, length, pos, slice_index, slice_index_or};
ghost use Rattle.view_board.specs.Nets.{net_of};
ghost use Rattle.view_board.specs.Views.{first_view};
ghost use Rattle.hlr_owners.specs.Owners.{AllHome};
ghost use Rattle.tatp_actions.specs.declared.cells.TheConstants.{CELLS};
ghost use Rattle.hlr_c.specs.Call.{IsAtHome, IsCall};
ghost use Rattle.hlr_c.specs.Reports.{AreCounts, AreListed, AreProposed, AreViews, IsLook, IsReport, nearest};
ghost use Rattle.hlr_c.specs.declared.codes.TheConstants.{AWAY, NOT_OPEN};

use crate::codes::DONE;
use crate::handle::{Hlr, with_opened, with_register, with_register_at_home};
use crate::lists::{bounds_for_c, regions_for_c};
use crate::rows::{HlrBounds, HlrRegions};
use hlr_core::{CELLS, Cells, Register, Sight, WORDS};
use hlr_lent::Lender;
use std::alloc::Global;

/// Returns the counts of all cells.
pub(crate) fn counts_of(cells: &Cells) -> [u64; CELLS as usize]
    ensures { (c : ℕ) → c < CELLS → slice_index_or result c 0 ≡ slice_index cells.now c }
{
    let mut counts = [0; CELLS as usize];
    for cell in 0..CELLS {
        counts[usize::from(cell)] = cells.get(cell);
    }
    counts
}

/// Returns what a sight has published of a cell, or the nearest number of 64 bits if that doesn't fit.
fn published_of(sight: &Sight, cell: u8) -> i64
    requires { cell < CELLS }
    ensures { result ≡ nearest (net_of (first_view sight.now.words) cell) }
{
    let published = sight.published(cell);
    published
        .min(i128::from(i64::MAX))
        .max(i128::from(i64::MIN)) as i64
}

/// Returns what a sight has published of each cell.
fn cells_of(sight: &Sight) -> [i64; CELLS as usize]
    ensures { (c : ℕ) → c < CELLS → slice_index_or result c (pos 0) ≡ nearest (net_of (first_view sight.now.words) c) }
{
    let mut published = [0; CELLS as usize];
    for cell in 0..CELLS {
        published[usize::from(cell)] = published_of(sight, cell);
    }
    published
}

fn look(register: &mut Lender, published: &mut [i64; CELLS as usize]) -> u8
    ensures { IsLook register.old (result, published.new) register.new }
{
    let mut sight = Sight { words: [0; WORDS] };
    register.look_into(&mut sight);
    *published = cells_of(&sight);
    DONE
}

fn write_views(
    register: &Register,
    published: &mut [i64; CELLS as usize],
    unposted: &mut [i64; CELLS as usize],
)
    requires { AllHome register.now.owners }
    ensures { AreViews register.now (published.new, unposted.new) }
{
    *published = register.published();
    *unposted = register.unposted();
}

fn write_counts(register: &Register, counts: &mut [u64; CELLS as usize])
    requires { AllHome register.now.owners }
    ensures { AreCounts register.now counts.new }
{
    *counts = counts_of(&register.recount());
}

fn write_regions(register: &Register, regions: &mut HlrRegions)
    ensures { AreListed register.now regions.new }
{
    *regions = regions_for_c(register.regions().list());
}

fn write_proposal(register: &Register, bounds: &mut HlrBounds)
    requires { AllHome register.now.owners }
    ensures { AreProposed register.now bounds.new }
{
    *bounds = bounds_for_c(register.propose().list());
}

/// Reads what is published and what is unposted of each cell; the two add up to the count over the rows now. Its
/// refusals, in order, are `NOT_OPEN` and `AWAY` if any part is lent.
#[unsafe(no_mangle)]
pub extern "C" fn hlr_views(
    alloc: Global,
    handle: &mut Hlr,
    published: &mut [i64; CELLS as usize],
    unposted: &mut [i64; CELLS as usize],
) -> u8
    ensures answer { IsCall (NOT_OPEN, (published.old, unposted.old)) (IsAtHome (AWAY, (published.old, unposted.old)) (λ before. IsReport (AreViews before) before))
        handle.old.kept.register (result, (published.new, unposted.new)) handle.new.kept.register }
    ensures journal { handle.new.kept.journal ≡ handle.old.kept.journal }
{
    with_register_at_home!(handle, alloc, |register| {
        write_views(register, published, unposted);
        DONE
    })
}

/// Reads what is published of each cell now, no matter which parts are lent. The words of the board are loaded one
/// after another, so the cells don't belong to one moment, but no word is ever less than in an earlier look. It returns
/// `NOT_OPEN` if the handle isn't open.
#[unsafe(no_mangle)]
pub extern "C" fn hlr_look(
    alloc: Global,
    handle: &mut Hlr,
    published: &mut [i64; CELLS as usize],
) -> u8
    ensures answer { IsCall (NOT_OPEN, published.old) IsLook handle.old.kept.register (result, published.new) handle.new.kept.register }
    ensures journal { handle.new.kept.journal ≡ handle.old.kept.journal }
{
    with_opened!(handle, alloc, |opened| {
        look(&mut opened.lender, published)
    })
}

/// Counts each cell anew by a walk over all rows. Its refusals, in order, are `NOT_OPEN` and `AWAY` if any part is
/// lent.
#[unsafe(no_mangle)]
pub extern "C" fn hlr_scan(
    alloc: Global,
    handle: &mut Hlr,
    counts: &mut [u64; CELLS as usize],
) -> u8
    ensures answer { IsCall (NOT_OPEN, counts.old) (IsAtHome (AWAY, counts.old) (λ before. IsReport (AreCounts before) before))
        handle.old.kept.register (result, counts.new) handle.new.kept.register }
    ensures journal { handle.new.kept.journal ≡ handle.old.kept.journal }
{
    with_register_at_home!(handle, alloc, |register| {
        write_counts(register, counts);
        DONE
    })
}

/// Reads all regions in order, each of them of a part or of a loose piece. It returns `NOT_OPEN` if the handle isn't
/// open.
#[unsafe(no_mangle)]
pub extern "C" fn hlr_regions(alloc: Global, handle: &mut Hlr, regions: &mut HlrRegions) -> u8
    ensures answer { IsCall (NOT_OPEN, regions.old) (λ before. IsReport (AreListed before) before)
        handle.old.kept.register (result, regions.new) handle.new.kept.register }
    ensures journal { handle.new.kept.journal ≡ handle.old.kept.journal }
{
    with_register!(handle, alloc, |register| {
        write_regions(register.register(), regions);
        DONE
    })
}

/// Proposes bounds between zones by which each part would have about its share of the rows, going by what is published
/// of the zones. Its refusals, in order, are `NOT_OPEN` and `AWAY` if any part is lent.
#[unsafe(no_mangle)]
pub extern "C" fn hlr_propose(alloc: Global, handle: &mut Hlr, bounds: &mut HlrBounds) -> u8
    ensures answer { IsCall (NOT_OPEN, bounds.old) (IsAtHome (AWAY, bounds.old) (λ before. IsReport (AreProposed before) before))
        handle.old.kept.register (result, bounds.new) handle.new.kept.register }
    ensures journal { handle.new.kept.journal ≡ handle.old.kept.journal }
{
    with_register_at_home!(handle, alloc, |register| {
        write_proposal(register, bounds);
        DONE
    })
}
