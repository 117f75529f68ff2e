//! The blank nodes that a cut or a join of the four trees uses, all of them taken ahead.
ghost use Rattle.std.specs.Prelude.{◌≡◌, ◌<◌, MatchResult, OnOk};
ghost use Rattle.tatp_actions.specs.Cut.{AreHeightsOf};
ghost use Rattle.tatp_actions.specs.CutTables.{AreForSlice, AreForMeld, IsForMeld, tables_of, heights_of};
ghost use Rattle.tatp_actions.specs.Tables.{stored_book};

use crate::trees::Trees;
use mr_cut::{stock_for_meld, stock_for_slice};
use mr_node::Stock;
use row_groups::{Accesses, Facilities, Forwardings};
use std::alloc::Global;
use tatp_rows::{Refusal, Subscriber};

/// Blank nodes for each of the four trees.
#[derive(Drop)]
pub(crate) struct Stocks {
    pub(crate) subscribers: Stock<Subscriber>,
    pub(crate) access: Stock<Accesses>,
    pub(crate) facilities: Stock<Facilities>,
    pub(crate) forwardings: Stock<Forwardings>,
}

impl Stocks {
    /// Takes the blank nodes for a slice of these trees. It returns `Memory` if the system refuses memory for them.
    pub(crate) fn for_slice(alloc: Global, rows: &Trees) -> Result<Self, Refusal>
        ensures stocks { MatchResult result (λ stocks. AreForSlice (heights_of rows.now) stocks) (λ why. why ≡ Refusal.Memory) }
        ensures heights { OnOk result (AreHeightsOf (heights_of rows.now) (stored_book (tables_of rows.now))) }
    {
        Ok(Stocks {
            subscribers: stock_for_slice(alloc, rows.subscribers.height())?,
            access: stock_for_slice(alloc, rows.access.height())?,
            facilities: stock_for_slice(alloc, rows.facilities.height())?,
            forwardings: stock_for_slice(alloc, rows.forwardings.height())?,
        })
    }

    /// Takes the blank nodes for a meld of these trees. It returns `Memory` if the system refuses memory for them.
    pub(crate) fn for_meld(alloc: Global, rows: &Trees, other: &Trees) -> Result<Self, Refusal>
        ensures stocks { MatchResult result (λ stocks. AreForMeld (heights_of rows.now) (heights_of other.now) stocks) (λ why. why ≡ Refusal.Memory) }
        ensures heights { OnOk result (AreHeightsOf (heights_of rows.now) (stored_book (tables_of rows.now))) }
        ensures other_heights { OnOk result (AreHeightsOf (heights_of other.now) (stored_book (tables_of other.now))) }
    {
        Ok(Stocks {
            subscribers: meld_stock(alloc, rows.subscribers.height(), other.subscribers.height())?,
            access: meld_stock(alloc, rows.access.height(), other.access.height())?,
            facilities: meld_stock(alloc, rows.facilities.height(), other.facilities.height())?,
            forwardings: meld_stock(alloc, rows.forwardings.height(), other.forwardings.height())?,
        })
    }
}

/// Takes the blank nodes for a meld of two trees of these heights. It returns `Memory` if the system refuses memory for
/// them.
fn meld_stock<V: Drop + Default>(
    alloc: Global,
    height: u64,
    other: u64,
) -> Result<Stock<V>, Refusal>
    requires low { height < 16 }
    requires other_low { other < 16 }
    ensures { MatchResult result (λ stock. IsForMeld height other stock) (λ why. why ≡ Refusal.Memory) }
{
    stock_for_meld(alloc, height, other)
}
