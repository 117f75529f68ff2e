//! The register: the rows of all parts, the index of numbers, and the live counts. For each cell, what is published and
//! what is unposted add up to the count over the rows now. An event goes down one or two paths for each row that it
//! touches, and scans nothing, except that gives and divides count the rows that they cut off. A reply of Memory or
//! Moving says that the event wasn't done, so a caller who ignores such a reply loses the event.
#![tactic(auto)]

pub mod checked;
mod event;
mod lent;
mod level;
mod listing;
mod many;
mod numbers;
mod order;
mod pages;
mod register;
mod route;
mod task;
mod tasks;
mod transactions;
mod weights;

pub use checked::byte;
pub use event::{Event, Reply};
pub use order::{Answer, Order, no_reply_but_moving};
pub use register::Register;
pub use route::{Parts, Route, TaskRoute};
pub use task::Task;

// The types that the calls of a register take and return, so that a caller needs no other crate.
pub use arrayvec::ArrayVec;
pub use hlr_owners::{Frame, Scattered};
pub use holding::{Holding, Job, Piece};
pub use number_index::{NumberIndex, Page};
pub use part_table::{Bounds, Place, Region, Regions, Side};
pub use tatp_actions::{
    Action, CELLS, Cells, FIRST_AREA, FIRST_ZONE, FromRow, KeyFields, RowReply, TableRow,
};
pub use tatp_rows::{Access, Back, Facility, Forwarding, Letters, Number, Refusal, Subscriber};
pub use view_board::{Board, Desk, LIMIT, Sight, WORDS};
