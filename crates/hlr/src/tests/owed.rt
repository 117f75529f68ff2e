//! What a run with threads has answered when memory is refused.
ghost use Rattle.hlr.specs.Source.{Seen};

use super::Tape;
use crate::fault::Fault;
use crate::owed::{OpenGate, answer_all_by};
use crate::sink::Out;
use crate::source::{Records, Source};
use csv::ByteRecord;
use hlr_core::Register;
use hlr_workers::Engine;
use std::cell::Cell;
use std::sync::Arc;

/// A source that counts the records which it has given, and remembers whether a read failed.
#[derive(Drop)]
struct Counted<T> {
    source: T,
    given: usize,
    has_failed: bool,
}

impl<T: Source> Source for Counted<T> {
    ghost seen = { record {
      unread = λ s. T.seen.unread s.source;
      begun = λ s. T.seen.begun s.source;
      fails = λ s t. T.seen.fails s.source t.source;
    } };

    ghost is_open = { λ s. T.is_open s.source };

    fn read(&mut self, row: &mut ByteRecord) -> Result<bool, Fault> {
        match self.source.read(row) {
            Ok(found) => {
                self.given = self.given.saturating_add(usize::from(found));
                Ok(found)
            }
            Err(why) => {
                self.has_failed = true;
                Err(why)
            }
        }
    }

    fn has_record(&self) -> bool {
        self.source.has_record()
    }
}

/// Records that ask for an event each, for both of two parts with zones of 4 subscribers, so that each has one line.
const EVENTS: &[u8] = b"sub,1,1,0000000000,0000000000,00000000000000000000,1,268435456
sub,70,70,0000000000,0000000000,00000000000000000000,1,268435456
acc,1,1,1,2,ABC,ABCDE
acc,70,1,1,2,ABC,ABCDE
fac,1,1,1,2,3,ABCDE
fac,70,2,1,2,3,ABCDE
icf,1,1,0,8,5
icf,70,2,8,24,6
ul,1,536870912
ul,70,805306368
gnd,1,1,0,7
gad,70,1
usd,1,1,1,9
sub,2,2,0000000000,0000000000,00000000000000000000,1,268435456
sub,71,71,0000000000,0000000000,00000000000000000000,1,268435456
active,70,2,0
dcf,1,1,0
gsd,2
number,2,3
post,0,72
post,1,72
gsd,000000000000000000000000000000000000000000000000000000000000000000000000000000000000000000000000000071
";

/// Any allocation, and the start of any thread, may be refused here: then all records that were read are answered, but
/// for the last one where its event was refused. The last record is so long that reading it takes memory, while replies
/// are owed.
#[test]
fn records_that_were_read_are_answered_each_refused(rt: HostRuntime) {
    let pending = Cell::new(false);
    let mut tape = Tape::new(&pending);
    let Ok(register) = Register::open(rt.alloc(), 2, 4) else {
        return;
    };
    let Ok(gate) = Arc::new(rt.alloc(), OpenGate) else {
        return;
    };
    let Ok(source) = Records::of(rt.alloc(), EVENTS) else {
        return;
    };
    let mut engine = Engine::new(rt.alloc(), register, gate);
    let mut source = Counted {
        source,
        given: 0,
        has_failed: false,
    };
    let mut row = ByteRecord::new(rt.alloc());
    let done = answer_all_by(
        &rt,
        &mut source,
        &mut row,
        &mut engine,
        &mut Out::new(&mut tape),
    );
    let (register, _replies) = engine.close(&rt);
    drop(register);
    let answered = tape.text().iter().filter(|byte| **byte == b'\n').count();
    let refused_event = usize::from(done.is_err() && !source.has_failed);
    assert_eq!(rt; answered + refused_event, source.given);
    assert!(rt; done.is_err() || answered == 22);
}
