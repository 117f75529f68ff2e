//! An engine over a register. While a part has jobs, a worker in a thread of its own has the part. A settle brings all
//! parts home, and returns the replies that one thread would have given, in the order of the events. An event costs a
//! lookup of its part and a place in a message of up to 16 jobs, and the first job of a part after a settle costs the
//! start of a thread. A call waits if the queue of a worker is full or a part has to come home, and no reply comes
//! before `settle` or `close`.
#![tactic(auto)]

mod engine;
mod gate;
mod inbox;
mod message;
mod rule;
mod work;
mod worker;
mod workers;

pub use engine::Engine;
pub use gate::Gate;
pub use work::MOST_PENDING;
