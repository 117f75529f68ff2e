//! The owners of all regions, in the order of keys, with the board and the spare desk. Edits and reads go to the owner
//! of their subscriber's region, and postings to the holding of their part. Gives, takes, recuts, divides and dissolves
//! move rows from owner to owner. A call looks at up to 32 regions, and then costs what it costs the holding or the
//! piece. The rows of a lent part are elsewhere until it comes home, so calls that work on a part require that it is
//! home.
#![tactic(auto)]

mod counts;
mod homes;
mod lending;
mod lent;
mod listed;
mod listing;
mod many;
mod moving;
mod opening;
mod owners;
mod part_owner;
mod parting;
mod posting;
mod prepared;
mod range_owner;
mod recut;
mod room;
mod scatter;
mod scattered;
mod scattering;

pub use owners::Owners;
pub use part_owner::{PartOwner, RegionOwner};
pub use prepared::Prepared;
pub use scattered::{Frame, Scattered};
