//! The handle of a lent part, as C has it.
ghost use Rattle.std.specs.Prelude.{◌≡◌, ◌≢◌, ◌↔◌, Option, None, Some, IsTrue, MatchOption};
ghost use Rattle.hlr_c.specs.declared.handle.TheConstants.{OPEN};

use crate::handle::OPEN;
use crate::kept_part::KeptPart;
use c_handle::BoxParts;
use hlr_lent::LentPart;
use std::alloc::Global;
use std::mem;

/// Works on the part of an open handle, which has the part again afterwards, and returns what the work returns. If the
/// handle isn't open, it ends the call with `NOT_OPEN`.
macro_rules! with_part {
    ($handle:ident, $alloc:ident, |$part:ident| $work:expr) => {{
        let Some(mut $part) = $handle.take($alloc) else {
            return $crate::codes::NOT_OPEN;
        };
        let answer = $work;
        $handle.put($part);
        answer
    }};
}

pub(crate) use with_part;

/// The handle of a lent part, as C has it. It is open and has a lent part, or it is closed. A handle that C fills with
/// zeros is closed.
#[repr(C)]
pub struct HlrPart {
    /// The mark, which is `OPEN` if the handle is open.
    pub mark: u64,
    /// The part, if the handle is open.
    pub kept: KeptPart,
    ghost marked: { mark ≡ OPEN ↔ kept.part ≢ None },
}

// hlr.h declares the handle for C, where it has the same size.
const _: () = prove!(size_of::<HlrPart>() == 16);

impl HlrPart {
    /// Makes a closed handle.
    pub fn closed() -> HlrPart
        ensures { result.kept.part ≡ None }
    {
        HlrPart {
            mark: 0,
            kept: KeptPart::none(),
        }
    }

    /// Returns whether the handle is open.
    pub fn is_open(&self) -> bool
        ensures { IsTrue result ↔ (self.now.kept.part ≢ None) }
    {
        self.mark == OPEN
    }

    /// Takes the part out of the handle, if it is open, and closes it.
    pub(crate) fn take(&mut self, alloc: Global) -> Option<Box<LentPart>>
        ensures taken { MatchOption result (self.old.kept.part ≡ None) (λ part. self.old.kept.part ≡ Some part.value) }
        ensures closed { self.new.kept.part ≡ None }
    {
        if !self.is_open() {
            return None;
        }
        let HlrPart { mark: _, kept } = mem::replace(self, HlrPart::closed());
        Some(kept.unseal(alloc).into_box())
    }

    /// Puts a part into a closed handle, and opens it.
    pub(crate) fn put(&mut self, part: Box<LentPart>)
        requires { self.old.kept.part ≡ None }
        ensures { self.new.kept.part ≡ Some part.value }
    {
        let open = HlrPart {
            mark: OPEN,
            kept: KeptPart::seal(BoxParts::of(part)),
        };
        let HlrPart { mark: _, kept } = mem::replace(self, open);
        kept.let_go();
    }
}
