//! A run with a journal that a file in memory has.
use super::Tape;
use crate::journaled::run_journaled;
use crate::sink::Out;
use hlr_core::Register;
use journal_file::{Memory, UnreadMemory};
use std::cell::Cell;

/// Records of each way to be answered: by events, by a refusal, by reports and by a recut.
const RECORDS: &[u8] = b"sub,7,000000000000007,0000000000,0000000000,00000000000000000000,1,5
sub,7,000000000000007,0000000000,0000000000,00000000000000000000,1,5
ul,000000000000008,6
gsd
recut,5
views
gsd,7
";

const TOLD: &[u8] = b"ok
refused,9,Exists
refused,4,NoNumber
refused,19,Syntax
recut,1
cell,24,0,1
cell,41,0,1
views,2
subscriber,7,000000000000007,0000000000,0000000000,00000000000000000000,1,5
";

#[test]
fn records_are_answered_with_a_journal(rt: HostRuntime) {
    let alloc = rt.alloc();
    let register = Register::open(alloc, 2, 4).expect(&rt, "memory");
    let mut blank = Vec::new(alloc);
    blank.resize(64, 0).expect(&rt, "memory");
    let unread = UnreadMemory::new(Memory::new(alloc, blank));
    let mut journaled = match hlr_kept::open(alloc, register, unread) {
        Ok(journaled) => journaled,
        Err(_) => panic!(rt; "memory"),
    };
    let pending = Cell::new(false);
    let mut tape = Tape::new(&pending);
    let done = run_journaled(alloc, RECORDS, &mut journaled, &mut Out::new(&mut tape));
    drop(journaled);
    assert_eq!(rt; (done, tape.text()), (Ok(()), TOLD));
}
