//! The address of a lent part, without its type, as its handle keeps it.
ghost use Rattle.std.specs.Prelude.{◌≡◌, ◌≢◌, Option, None, Some};
ghost use Rattle.holding.specs.Held.{HoldingState};
ghost use Rattle.hlr_lent.specs.contracts.lent_part.LentPart.{the_row};
ghost use Rattle.hlr_c.specs.Held.{held};

use c_handle::BoxParts;
use hlr_lent::LentPart;
use std::alloc::Global;
use std::marker::Model;
use std::ptr;

/// The address of a lent part, without its type, so that C can have it, or the address of none. It owns the part that
/// lies there.
///
/// It has no `Drop`, so that no part can be lost by accident. `let_go` is only for the address of none.
#[repr(C)]
pub struct KeptPart {
    address: *mut u8,
    /// The part that lies there, if one does.
    pub ghost part: { Option HoldingState },
}

impl Model for KeptPart {
    ghost also_owns = { λ kept. held the_row kept.address kept.part };
}

/// The part that lies at the address owns nothing that belongs to the thread that made it.
unsafe impl Send for KeptPart {}

impl KeptPart {
    /// Makes the address of no part.
    pub(crate) fn none() -> KeptPart
        ensures { result.part ≡ None }
    {
        KeptPart {
            address: ptr::null_mut(),
        }
    }

    /// Drops the address of no part.
    pub(crate) fn let_go(self)
        requires { self.part ≡ None }
    {
        let KeptPart { address: _ } = self;
    }

    /// Makes an address without a type from that of a part.
    pub(crate) fn seal(parts: BoxParts<LentPart, Global>) -> KeptPart
        ensures { result.part ≡ Some parts.value }
    {
        let BoxParts { address, alloc: _ } = parts;
        KeptPart {
            address: address as *mut u8,
        }
    }

    /// Returns the address of the part with its type.
    pub(crate) fn unseal(self, alloc: Global) -> BoxParts<LentPart, Global>
        requires { self.part ≢ None }
        ensures { self.part ≡ Some result.value }
    {
        let KeptPart { address } = self;
        BoxParts {
            address: address as *mut LentPart,
            alloc,
        }
    }
}
