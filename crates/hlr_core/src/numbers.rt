//! The index of numbers, built from all rows that `gather` takes.
ghost use Rattle.std.specs.Prelude.{◌≡◌, ◌⊎◌, List, OnOk, IfOk, IfErr, option_copied};
ghost use Rattle.tatp_rows.specs.Keys.{subscriber_key};
ghost use Rattle.tatp_rows.specs.Ordered.{IsOrderedBy};
ghost use Rattle.tatp_rows.specs.Rows.{SubscriberRow};
ghost use Rattle.tatp_actions.specs.Book.{first_subscriber};
ghost use Rattle.hlr_core.specs.Inside.Noted.{AreNoted, HasTwin, IsIndexed};
ghost use Rattle.std.specs.List.{flat_map};
ghost use Rattle.hlr_core.specs.Gather.{HasTwins};

use hlr_owners::Scattered;
use holding::{Holding, Piece};
use number_index::NumberIndex;
use std::alloc::Global;
use tatp_rows::{Refusal, Subscriber};

/// An owner that has Subscriber rows: a holding, or a loose piece.
trait HasSubscribers {
    ghost rows_of: { Self → List SubscriberRow };

    /// Returns the first Subscriber row whose s_id is this one or higher.
    fn first_row(&self, s_id: u64) -> Option<&Subscriber>
        ensures value { option_copied result ≡ first_subscriber s_id (rows_of self.now) }
        ensures ordered { IsOrderedBy subscriber_key (rows_of self.now) };
}

impl HasSubscribers for Holding {
    ghost rows_of = { λ holding. holding.part.book.subscribers };

    fn first_row(&self, s_id: u64) -> Option<&Subscriber> {
        self.rules();
        self.first_sub_from(s_id)
    }
}

impl HasSubscribers for Piece {
    ghost rows_of = { λ piece. piece.part.book.subscribers };

    fn first_row(&self, s_id: u64) -> Option<&Subscriber> {
        self.rules();
        self.first_sub_from(s_id)
    }
}

/// Puts the numbers of an owner's rows into the index. Its refusals are `NumberTaken` if a number is there
/// already, and `Memory` if the index can't grow.
fn add_numbers_of<O: HasSubscribers>(index: &mut NumberIndex, owner: &O) -> Result<(), Refusal>
    ensures ok { OnOk result (AreNoted (O.rows_of owner.now) index.old index.new) }
    ensures err { IfErr result (λ why. ((why ≡ Refusal.NumberTaken) × HasTwin (O.rows_of owner.now) index.old) ⊎ (why ≡ Refusal.Memory)) }
{
    let mut from = 0;
    while let Some(row) = owner.first_row(from) {
        index.add(row.sub_nbr(), row.s_id())?;
        from = u64::from(row.s_id()) + 1;
    }
    Ok(())
}

/// Puts the numbers of all rows of the owners in a list into the index, in the same way.
fn add_numbers_of_all<O: HasSubscribers>(
    index: &mut NumberIndex,
    owners: &[Box<O>],
) -> Result<(), Refusal>
    ensures ok { OnOk result (AreNoted (flat_map (λ owner. O.rows_of owner.value) owners.now) index.old index.new) }
    ensures err { IfErr result (λ why. ((why ≡ Refusal.NumberTaken) × HasTwin (flat_map (λ owner. O.rows_of owner.value) owners.now) index.old) ⊎ (why ≡ Refusal.Memory)) }
{
    for owner in owners {
        add_numbers_of::<O>(index, owner)?;
    }
    Ok(())
}

/// Makes the index of the numbers of all rows. Its refusals are `NumberTaken` if two rows have the same
/// number, and `Memory` if the system refuses memory.
pub(crate) fn index_of(alloc: Global, scattered: &Scattered) -> Result<NumberIndex, Refusal>
    ensures ok { IfOk result (IsIndexed scattered.now) }
    ensures err { IfErr result (λ why. ((why ≡ Refusal.NumberTaken) × HasTwins scattered.now) ⊎ (why ≡ Refusal.Memory)) }
{
    let mut index = NumberIndex::new(alloc)?;
    add_numbers_of_all(&mut index, &scattered.holdings)?;
    add_numbers_of_all(&mut index, &scattered.pieces)?;
    // For the prover: an index tells by its first pair that its pairs are in order.
    let _first = index.first_from(0);
    Ok(index)
}
