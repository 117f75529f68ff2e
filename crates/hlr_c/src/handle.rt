//! The handle of a register, as C has it.
ghost use Rattle.std.specs.Prelude.{◌≡◌, ◌≢◌, ◌↔◌, Option, None, Some, IfSome, IsTrue, MatchOption};
ghost use Rattle.hlr_c.specs.Held.{IsJournaled};
ghost use Rattle.hlr_c.specs.declared.handle.TheConstants.{OPEN};

use crate::kept::Kept;
use crate::opened::Opened;
use c_handle::BoxParts;
use std::alloc::Global;
use std::mem;

/// Works on what an open handle has, a register with its journal, and returns what the work returns. The handle has
/// both again afterwards. If it isn't open, it ends the call with `NOT_OPEN`.
///
/// It is a macro, because the work of each call has a contract of its own, and writes its results by reference.
macro_rules! with_opened {
    ($handle:ident, $alloc:ident, |$opened:ident| $work:expr) => {{
        let Some(mut $opened) = $handle.take($alloc) else {
            return $crate::codes::NOT_OPEN;
        };
        let answer = $work;
        $handle.put($opened);
        answer
    }};
}

/// Works on the register of an open handle, as `with_opened` does, without a change of it.
macro_rules! with_register {
    ($handle:ident, $alloc:ident, |$register:ident| $work:expr) => {{
        let Some(opened) = $handle.take($alloc) else {
            return $crate::codes::NOT_OPEN;
        };
        let $register = &opened.lender;
        let answer = $work;
        $handle.put(opened);
        answer
    }};
}

/// Works on the register of an open handle, as `with_register` does, if all parts of the register are home. If one is
/// lent, it ends the call with `AWAY`.
macro_rules! with_register_at_home {
    ($handle:ident, $alloc:ident, |$register:ident| $work:expr) => {{
        let Some(opened) = $handle.take($alloc) else {
            return $crate::codes::NOT_OPEN;
        };
        if !opened.lender.is_all_home() {
            $handle.put(opened);
            return $crate::codes::AWAY;
        }
        let $register = opened.lender.register();
        let answer = $work;
        $handle.put(opened);
        answer
    }};
}

pub(crate) use with_opened;
pub(crate) use with_register;
pub(crate) use with_register_at_home;

/// The mark of an open handle. Any other mark is that of a closed one.
pub const OPEN: u64 = 1;

// Definitions name this constant, so its number is proved here.
const _: () = prove!(OPEN == 1);

/// The handle of a register, as C has it. It is open and has a register, whose parts may be lent or which may have a
/// journal, or it is closed. A handle that C fills with zeros is closed.
#[repr(C)]
pub struct Hlr {
    /// The mark, which is `OPEN` if the handle is open.
    pub mark: u64,
    /// The register with its journal, if the handle is open.
    pub kept: Kept,
    ghost marked: { mark ≡ OPEN ↔ kept.register ≢ None },
    ghost journaled: { kept.journal ≢ None → kept.register ≢ None },
}

// hlr.h declares the handle for C, where it has the same size.
const _: () = prove!(size_of::<Hlr>() == 16);

impl Hlr {
    /// Makes a closed handle.
    pub fn closed() -> Hlr
        ensures register { result.kept.register ≡ None }
        ensures journal { result.kept.journal ≡ None }
    {
        Hlr {
            mark: 0,
            kept: Kept::none(),
        }
    }

    /// Returns whether the handle is open.
    pub fn is_open(&self) -> bool
        ensures open { IsTrue result ↔ (self.now.kept.register ≢ None) }
        ensures closed { ¬ (IsTrue result) → self.now.kept.journal ≡ None }
    {
        self.mark == OPEN
    }

    /// Takes the register with its journal out of the handle, if it is open, and closes it.
    pub(crate) fn take(&mut self, alloc: Global) -> Option<Box<Opened>>
        ensures taken { MatchOption result (self.old.kept.register ≡ None) (λ opened. self.old.kept.register ≡ Some opened.value.lender) }
        ensures journal { MatchOption result (self.old.kept.journal ≡ None) (λ opened. self.old.kept.journal ≡ opened.value.journal) }
        ensures journaled { IfSome result (λ opened. IsJournaled opened.value.lender opened.value.journal) }
        ensures closed { self.new.kept.register ≡ None }
        ensures ended { self.new.kept.journal ≡ None }
    {
        if !self.is_open() {
            return None;
        }
        let Hlr { mark: _, kept } = mem::replace(self, Hlr::closed());
        Some(kept.unseal(alloc).into_box())
    }

    /// Puts a register and the journal that keeps it into a closed handle, and opens it.
    pub(crate) fn put(&mut self, opened: Box<Opened>)
        requires closed { self.old.kept.register ≡ None }
        requires journaled { IsJournaled opened.value.lender opened.value.journal }
        ensures register { self.new.kept.register ≡ Some opened.value.lender }
        ensures journal { self.new.kept.journal ≡ opened.value.journal }
    {
        let open = Hlr {
            mark: OPEN,
            kept: Kept::seal(BoxParts::of(opened)),
        };
        let Hlr { mark: _, kept } = mem::replace(self, open);
        kept.let_go();
    }
}
