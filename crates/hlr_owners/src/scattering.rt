//! The owners, taken apart so that each may go to a thread of its own, and made of what comes home.
ghost use Rattle.std.specs.Prelude.{◌≡◌, ◌+◌, ◌<◌, ℕ, None};
ghost use Rattle.tatp_actions.specs.Book.{IsRowsOf};
ghost use Rattle.part_table.specs.Numbered.{numbered};
ghost use Rattle.tatp_actions.specs.declared.cells.TheConstants.{CELLS};
ghost use Rattle.hlr_owners.specs.Boxed.{unboxed};
ghost use Rattle.hlr_owners.specs.Store.{unpublished};
ghost use Rattle.hlr_owners.specs.Apart.{loose_pieces};
ghost use Rattle.hlr_owners.specs.Scattered.{holdings_in, pieces_in, pending_together, MayBeGathered, IsSurveyed, misfit_of, owners_in, store_by, store_from, AreOfRegions};
ghost use Rattle.hlr_owners.specs.Owners.{AllHome, book_in, store_in, unposted, part_holdings};

use crate::owners::Owners;
use crate::prepared::{Prepared, Rooms};
use crate::scatter::{owners_of, split_owners};
use crate::scattered::{Frame, Scattered};
use tatp_rows::LAST_SUBSCRIBER;

impl Owners {
    /// Takes the owners apart, into the holdings by the numbers of their parts, the loose pieces in the order of their
    /// ranges, and the frame. What `gathered` makes of them is the same store again, with its loose pieces numbered
    /// from 1 in the order of their ranges. It takes no memory.
    pub fn scatter(self) -> Scattered
        requires home { AllHome self.owners }
        ensures holdings { holdings_in result ≡ part_holdings self.owners }
        ensures pieces { pieces_in result ≡ unboxed (loose_pieces self.owners) }
        ensures store { store_by self.regions result ≡ store_in self }
        ensures held { AreOfRegions self.regions self.width result }
        ensures frame { (result.frame.spare ≡ self.spare) × (result.frame.width ≡ self.width) }
        ensures desks { MayBeGathered result }
        ensures again { store_from result ≡ record (store_in self) { regions = numbered 0 1 self.regions } }
        ensures fits { misfit_of result ≡ None }
        ensures pending { (c : ℕ) → pending_together result c ≡ unposted self.owners c }
        ensures difference { (c : ℕ) → c < CELLS → pending_together result c ≡ unpublished (store_in self) c }
    {
        let Owners {
            owners,
            rooms,
            board,
            spare,
            width,
            ..
        } = self;
        let Rooms { holdings, pieces } = rooms;
        let (holdings, pieces) = split_owners(owners, holdings, pieces);
        Scattered {
            frame: Frame {
                board,
                spare,
                width,
            },
            holdings,
            pieces,
        }
    }

    /// Makes owners of everything that is handed in, over these regions, with each holding and each piece in the place
    /// of its region. It takes no memory.
    pub fn gathered(scattered: Scattered, prepared: Prepared) -> Owners
        requires surveyed { IsSurveyed scattered prepared }
        requires desks { MayBeGathered scattered }
        ensures store { store_in result ≡ store_from scattered }
        ensures owners { result.owners ≡ owners_in scattered }
        ensures home { AllHome result.owners }
        ensures rows { IsRowsOf 1 (LAST_SUBSCRIBER + 1) (book_in result.owners) }
        ensures pending { (c : ℕ) → unposted result.owners c ≡ pending_together scattered c }
        ensures difference { (c : ℕ) → c < CELLS → unposted result.owners c ≡ unpublished (store_in result) c }
    {
        let Scattered {
            frame,
            holdings,
            pieces,
        } = scattered;
        let Frame {
            board,
            spare,
            width,
        } = frame;
        // For the prover: a desk tells by its net that its view is as wide as the board.
        let _net = spare.net(0);
        let Prepared {
            regions,
            room,
            rooms,
        } = prepared;
        Owners {
            regions,
            owners: owners_of(holdings, pieces, room),
            rooms,
            board,
            spare,
            width,
        }
    }
}
