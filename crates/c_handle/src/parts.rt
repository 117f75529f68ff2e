//! The parts of a box.
ghost use Rattle.std.specs.Prelude.{◌≡◌};
ghost use Rattle.std.specs.Box.Ownership.{box_owns};

use std::alloc::Allocator;
use std::marker::Model;

/// The parts of a box. They own what the box did: the value, and the right to free its block. Only `into_box` gives
/// this up.
pub struct BoxParts<T, A: Allocator> {
    /// The address of the value.
    pub address: *mut T,
    /// The allocator that gave the memory.
    pub alloc: A,
    /// The value that lies there.
    pub ghost value: { T },
}

impl<T, A: Allocator> Model for BoxParts<T, A> {
    ghost also_owns = { λ parts. box_owns (A.dealloc_token parts.alloc) T.row parts.address parts.value };
}

impl<T: Drop, A: Allocator> BoxParts<T, A> {
    /// Takes a box apart.
    pub fn of(boxed: Box<T, A>) -> BoxParts<T, A>
        ensures { result.value ≡ boxed.value }
    {
        let (address, alloc) = Box::into_raw_with_allocator(boxed);
        BoxParts { address, alloc }
    }

    /// Puts the box together again.
    pub fn into_box(self) -> Box<T, A>
        ensures { result.value ≡ self.value }
    {
        let BoxParts { address, alloc } = self;
        unsafe { Box::from_raw(alloc, address) }
    }
}
