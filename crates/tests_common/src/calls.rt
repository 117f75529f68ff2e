//! Calls of a register that ask for all parts at home, and answer in their own words where one is away.
use hlr_core::{Event, Register, Reply};
use std::alloc::Global;
use tatp_actions::{CELLS, Cells};
use tatp_rows::Refusal;

/// What `ask` replies where a part is away; no register does, and no test wants it.
pub const AWAY: Reply = Reply::Refused(Refusal::Thread);

/// What is told of the cells where a part is away.
const NO_COUNTS: [i64; CELLS as usize] = [i64::MIN; CELLS as usize];

/// Has a register do an event, if all parts are at home.
pub fn ask(register: &mut Register, event: Event) -> Reply {
    if register.all_at_home() {
        register.apply(event)
    } else {
        AWAY
    }
}

/// Moves the bounds between parts, if all are at home.
pub fn recut(register: &mut Register, bounds: &[u64]) -> Result<u8, Refusal> {
    if register.all_at_home() {
        register.recut_to(bounds)
    } else {
        Err(Refusal::Thread)
    }
}

/// Tells the cells as published, if all parts are at home.
pub fn published(register: &Register) -> [i64; CELLS as usize] {
    if register.all_at_home() {
        register.published()
    } else {
        NO_COUNTS
    }
}

/// Tells what is not posted yet of each cell, if all parts are at home.
pub fn unposted(register: &Register) -> [i64; CELLS as usize] {
    if register.all_at_home() {
        register.unposted()
    } else {
        NO_COUNTS
    }
}

/// Counts each cell by a walk over all rows, if all parts are at home.
pub fn recounted(register: &Register) -> Option<Cells> {
    if register.all_at_home() {
        Some(register.recount())
    } else {
        None
    }
}

/// Opens a register of so many parts; where a growth was refused, at the second try.
pub fn opened(alloc: Global, parts: u8, width: u32) -> Result<Register, Refusal> {
    match Register::open(alloc, parts, width) {
        Err(Refusal::Memory) => Register::open(alloc, parts, width),
        opened => opened,
    }
}
