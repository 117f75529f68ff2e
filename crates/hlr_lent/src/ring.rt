//! The ring of a lent part. First it gets the state of the holding as it is lent, and then the holding itself as it
//! comes home.
ghost use Rattle.std.specs.Prelude.{◌≡◌, ◌<◌, [], None, Some, IfOk, IfSome};
ghost use Rattle.rtrb.specs.Ring.{IsPair, known_free, known_items, received, sent};
ghost use Rattle.holding.specs.Held.{HoldingState};
ghost use Rattle.hlr_lent.specs.Rings.{MayComeHome, MayFollow, lent_as};
ghost use Rattle.hlr_lent.specs.Sent.{gone_home};

use holding::Holding;
use rtrb::{Consumer, Producer, Protocol, RingBuffer};
use std::alloc::{AllocError, Global};
use std::snapshot::Snapshot;

/// A message through the ring of a lent part.
#[derive(Drop)]
pub enum Message {
    /// The state of the holding as it is lent, which takes no bytes.
    Lent(Snapshot<Holding>),
    /// The holding as it comes home.
    Home(Box<Holding>),
}

/// The rule of such a ring: the holding that comes home is the one that was lent, as jobs have made it.
pub struct ReturnRule;

impl Protocol<Message> for ReturnRule {
    ghost allows = { MayFollow };
}

/// The end of the ring that the lent part has, and through which it sends the holding home.
pub type PartEnd = Producer<Message, Global, ReturnRule>;

/// The end of the ring that the lender has, and from which it takes the holding in.
pub type LenderEnd = Consumer<Message, Global, ReturnRule>;

/// Makes a ring through which nothing has gone yet.
pub(crate) fn ring(alloc: Global) -> Result<(PartEnd, LenderEnd), AllocError>
    ensures pair { IfOk result (λ ends. IsPair ends.0 ends.1) }
    ensures part { IfOk result (λ ends. (sent ends.0 ≡ []) × (known_free ends.0 ≡ 2)) }
    ensures lender { IfOk result (λ ends. (received ends.1 ≡ []) × (known_items ends.1 ≡ [])) }
{
    RingBuffer::with_protocol::<Global, ReturnRule>(alloc, 2)
}

/// Tells both ends of the ring the state of the holding that is lent.
pub(crate) fn tell(part: &mut PartEnd, lender: &mut LenderEnd, holding: &Holding)
    requires pair { IsPair part.old lender.old }
    requires part { (sent part.old ≡ []) × (known_free part.old ≡ 2) }
    requires lender { (received lender.old ≡ []) × (known_items lender.old ≡ []) }
    ensures part { lent_as (sent part.new) ≡ Some holding.now }
    ensures room { 0 < known_free part.new }
    ensures lender { lent_as (received lender.new) ≡ Some holding.now }
{
    part.push_reserved(Message::Lent(Snapshot::of(holding)));
    lender.slots_beside(part);
    let _lent = lender.pop_known();
}

/// Takes the holding out of the ring, if it has come.
pub(crate) fn arrived(lender: &mut LenderEnd) -> Option<Box<Holding>>
    requires { (lent : HoldingState) × (lent_as (received lender.old) ≡ Some lent) }
    ensures come { IfSome result (λ holding. MayComeHome (received lender.old) holding.value) }
    ensures received { IfSome result (λ holding. gone_home (received lender.new) ≡ Some holding.value) }
    ensures none { result ≡ None → received lender.new ≡ received lender.old }
{
    match lender.pop() {
        Ok(Message::Home(holding)) => Some(holding),
        Ok(Message::Lent(_)) => unreachable!(),
        Err(_) => None,
    }
}
