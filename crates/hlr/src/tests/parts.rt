//! Parts that come and go: what the records of both commands may look like, and what they are answered.
use super::{Feed, Tape, WAYS, answer_feed};
use std::cell::Cell;

/// Each form of both commands, for two parts.
const FORMS: &[u8] = b"divide
divide,0
divide,0,5,6
Divide,0,5
divides,0,5
dissolve
dissolve,1,0
DISSOLVE,1
dissolv,1
divide,x,5
divide,0,x
divide,,5
divide,0,
divide,-1,5
divide,0,+5
divide,0, 5
divide,18446744073709551616,5
divide,0,18446744073709551616
dissolve,x
dissolve,
dissolve,-1
dissolve, 1
dissolve,18446744073709551616
divide,2,70
divide,18446744073709551615,5
divide,0,1
divide,0,65
divide,1,18446744073709551615
dissolve,2
dissolve,18446744073709551615
dissolve,0
\"divide\",\"00\",\"0005\"
dissolve,001
";

/// The answers to them: no such command, then a field out of range, then what the register refuses, and two that are
/// done.
const TOLD: &[u8] = b"refused,19,Syntax
refused,19,Syntax
refused,19,Syntax
refused,19,Syntax
refused,19,Syntax
refused,19,Syntax
refused,19,Syntax
refused,19,Syntax
refused,19,Syntax
refused,2,Field
refused,2,Field
refused,2,Field
refused,2,Field
refused,2,Field
refused,2,Field
refused,2,Field
refused,2,Field
refused,2,Field
refused,2,Field
refused,2,Field
refused,2,Field
refused,2,Field
refused,2,Field
refused,12,NoPart
refused,12,NoPart
refused,14,OutOfRange
refused,14,OutOfRange
refused,14,OutOfRange
refused,12,NoPart
refused,12,NoPart
refused,15,NotAdjacent
divided,1,5,65
dissolved,0,1,65
";

/// Parts that come and go, for two parts at first: who has a subscriber, and what is published of them.
const SCRIPT: &[u8] = b"sub,7,000000000000007,0000000000,0000000000,00000000000000000000,1,268435456
sub,66,000000000000066,0000000000,0000000000,00000000000000000000,1,268435456
post,0,72
post,1,72
divide,0,5
gsd,7
regions
views
post,1,72
views
post,2,72
dissolve,1
views
give,1,low,70
dissolve,1
take,1,1
dissolve,1
ul,000000000000066,536870912
post,0,72
views
scan
regions
dissolve,1
propose
";

/// The answers to them.
const ANSWERS: &[u8] = b"ok
ok
posted,2
posted,2
divided,1,5,65
subscriber,7,000000000000007,0000000000,0000000000,00000000000000000000,1,268435456
part,0,1,5
part,1,5,65
part,2,65,16777217
regions,3
cell,25,2,0
cell,41,1,0
cell,56,1,0
views,3
posted,2
cell,25,3,-1
cell,41,2,-1
cell,56,1,0
views,3
posted,0
dissolved,0,1,65
cell,25,2,0
cell,41,1,0
cell,56,1,0
views,3
piece,1,65,70
refused,15,NotAdjacent
taken,1,1
dissolved,0,1,16777217
ok
posted,2
cell,25,1,0
cell,26,1,0
cell,41,1,0
cell,56,1,0
views,4
cell,25,1
cell,26,1
cell,41,1
cell,56,1
scan,4
part,0,1,16777217
regions,1
refused,12,NoPart
bounds
";

#[test]
fn parts_come_and_go(rt: HostRuntime) {
    let pending = Cell::new(false);
    for threads in WAYS {
        for (text, wanted) in [(FORMS, TOLD), (SCRIPT, ANSWERS)] {
            let mut tape = Tape::new(&pending);
            let done = answer_feed(&rt, Feed::new(&pending, text, 8192), &mut tape, threads);
            assert_eq!(rt; (done, tape.text()), (Ok(()), wanted));
        }
    }
}
