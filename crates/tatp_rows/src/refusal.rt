//! The refusals of the store.
ghost use Rattle.std.specs.Prelude.{◌≡◌};
ghost use Rattle.tatp_rows.specs.Refusal.{code_of, name_of};

use std::alloc::{AllocError, AllocFailed};

/// The reason why the store refused a request. A refusal changes nothing, except that after `Worn` the cells that were
/// posted before stay posted.
#[derive(Clone, Copy, Debug, PartialEq, Eq)]
pub enum Refusal {
    /// The system refused memory.
    Memory,
    /// A field's text or value is out of its range.
    Field,
    /// No Subscriber row has the s_id.
    NoSubscriber,
    /// No Subscriber row has the sub_nbr.
    NoNumber,
    /// No Access_Info row has the key.
    NoAccess,
    /// No Special_Facility row has the key.
    NoFacility,
    /// No Call_Forwarding row has the key.
    NoForwarding,
    /// No forwarding of an active facility takes the call.
    NoDestination,
    /// A row with the key is there already.
    Exists,
    /// Another subscriber has the number.
    NumberTaken,
    /// The subscriber is in a loose piece; for a recut, some piece is loose.
    Moving,
    /// No part has the number.
    NoPart,
    /// No loose piece has the number.
    NoPiece,
    /// The cut isn't strictly inside the part.
    OutOfRange,
    /// The piece doesn't touch the part; for a dissolve, no part ends where this one begins.
    NotAdjacent,
    /// Sixteen pieces are loose already.
    ManyPieces,
    /// A word of the board would pass 9223372036854775807.
    Worn,
    /// The system refused to start a thread.
    Thread,
    /// The record has no form of a command.
    Syntax,
    /// The reader failed, or had more than 1,048,576 records.
    Read,
    /// The writer failed.
    Write,
    /// Sixteen parts are there already.
    ManyParts,
}

impl Refusal {
    /// Returns the number of the refusal in the replies, 1..=22.
    pub fn code(self) -> u8
        ensures { result ≡ code_of self }
    {
        match self {
            Refusal::Memory => 1,
            Refusal::Field => 2,
            Refusal::NoSubscriber => 3,
            Refusal::NoNumber => 4,
            Refusal::NoAccess => 5,
            Refusal::NoFacility => 6,
            Refusal::NoForwarding => 7,
            Refusal::NoDestination => 8,
            Refusal::Exists => 9,
            Refusal::NumberTaken => 10,
            Refusal::Moving => 11,
            Refusal::NoPart => 12,
            Refusal::NoPiece => 13,
            Refusal::OutOfRange => 14,
            Refusal::NotAdjacent => 15,
            Refusal::ManyPieces => 16,
            Refusal::Worn => 17,
            Refusal::Thread => 18,
            Refusal::Syntax => 19,
            Refusal::Read => 20,
            Refusal::Write => 21,
            Refusal::ManyParts => 22,
        }
    }

    /// Returns the name of the refusal in the replies, at most 13 letters.
    pub fn name(self) -> &'static str
        ensures { result.now ≡ name_of self }
    {
        match self {
            Refusal::Memory => "Memory",
            Refusal::Field => "Field",
            Refusal::NoSubscriber => "NoSubscriber",
            Refusal::NoNumber => "NoNumber",
            Refusal::NoAccess => "NoAccess",
            Refusal::NoFacility => "NoFacility",
            Refusal::NoForwarding => "NoForwarding",
            Refusal::NoDestination => "NoDestination",
            Refusal::Exists => "Exists",
            Refusal::NumberTaken => "NumberTaken",
            Refusal::Moving => "Moving",
            Refusal::NoPart => "NoPart",
            Refusal::NoPiece => "NoPiece",
            Refusal::OutOfRange => "OutOfRange",
            Refusal::NotAdjacent => "NotAdjacent",
            Refusal::ManyPieces => "ManyPieces",
            Refusal::Worn => "Worn",
            Refusal::Thread => "Thread",
            Refusal::Syntax => "Syntax",
            Refusal::Read => "Read",
            Refusal::Write => "Write",
            Refusal::ManyParts => "ManyParts",
        }
    }
}

/// Makes the refusal `Memory` of the error that the system refused memory.
impl From<AllocError> for Refusal {
    ghost use Rattle.std.specs.Prelude.{◌≡◌};
    ghost use Rattle.tatp_rows.specs.declared.refusal.Refusal.TheVariants.{Memory};

    ghost from_gives = { λ _ why. why ≡ Memory };

    fn from(_: AllocError) -> Refusal {
        Refusal::Memory
    }
}

/// Makes the same refusal of an error that hands a value back, which is dropped.
impl<T: Drop> From<AllocFailed<T>> for Refusal {
    ghost use Rattle.std.specs.Prelude.{◌≡◌};
    ghost use Rattle.tatp_rows.specs.declared.refusal.Refusal.TheVariants.{Memory};

    ghost from_gives = { λ _ why. why ≡ Memory };

    fn from(_: AllocFailed<T>) -> Refusal {
        Refusal::Memory
    }
}

/// The refusal of a call that was given a value, which it hands back as it was.
#[derive(Clone, Copy, Debug, PartialEq, Eq, Drop)]
pub struct Back<T> {
    /// The reason why the call refused.
    pub why: Refusal,
    /// The value that the call was given.
    pub item: T,
}

/// Returns the reason alone and drops the value, so that `?` can pass the reason on.
impl<T: Drop> From<Back<T>> for Refusal {
    ghost use Rattle.std.specs.Prelude.{◌≡◌};

    ghost from_gives = { λ back why. why ≡ back.why };

    fn from(back: Back<T>) -> Refusal {
        back.why
    }
}
