//! The address of a register and its journal, without its type, as a handle keeps it.
ghost use Rattle.std.specs.Prelude.{◌≡◌, ◌≢◌, Option, None, Some};
ghost use Rattle.hlr_owners.specs.Owners.{OwnersState};
ghost use Rattle.hlr_c.specs.Held.{IsJournaled, held_open};
ghost use Rattle.hlr_c.specs.declared.opened.FileJournal.{FileJournal};

use crate::opened::Opened;
use c_handle::BoxParts;
use std::alloc::Global;
use std::marker::Model;
use std::ptr;

/// The address of a register and its journal, without its type, so that C can have it, or the address of none. It owns
/// what lies there.
///
/// It has no `Drop`, so that no register can be lost by accident. `let_go` is only for the address of none.
#[repr(C)]
pub struct Kept {
    address: *mut u8,
    /// The register that lies there, if one does.
    pub ghost register: { Option OwnersState },
    /// The journal of the register, if it has one.
    pub ghost journal: { Option FileJournal },
}

impl Model for Kept {
    ghost also_owns = { λ kept. held_open kept.address kept.register kept.journal };
}

/// What lies at the address owns nothing that belongs to the thread that made it.
unsafe impl Send for Kept {}

impl Kept {
    /// Makes the address of no register.
    pub(crate) fn none() -> Kept
        ensures { (result.register ≡ None) × (result.journal ≡ None) }
    {
        Kept {
            address: ptr::null_mut(),
        }
    }

    /// Drops the address of no register.
    pub(crate) fn let_go(self)
        requires { self.register ≡ None }
    {
        let Kept { address: _ } = self;
    }

    /// Makes an address without a type from that of a register and the journal that keeps it.
    pub(crate) fn seal(parts: BoxParts<Opened, Global>) -> Kept
        requires { IsJournaled parts.value.lender parts.value.journal }
        ensures { (result.register ≡ Some parts.value.lender) × (result.journal ≡ parts.value.journal) }
    {
        let BoxParts { address, alloc: _ } = parts;
        Kept {
            address: address as *mut u8,
        }
    }

    /// Returns the address of the register and its journal with its type.
    pub(crate) fn unseal(self, alloc: Global) -> BoxParts<Opened, Global>
        requires { self.register ≢ None }
        ensures { (self.register ≡ Some result.value.lender) × (self.journal ≡ result.value.journal) × IsJournaled result.value.lender result.value.journal }
    {
        let Kept { address } = self;
        BoxParts {
            address: address as *mut Opened,
            alloc,
        }
    }
}
