//! A run with threads, in which an engine takes the events. Their replies are owed until the engine is settled.
ghost use Rattle.std.specs.Prelude.{◌≡◌, ◌≢◌, ◌⊎◌, ◌<◌, [], List, ℕ, Bool, Option, true, Some, Ok, Err, IfSome, OnErr, OnOk, MatchResult, length};
ghost use Rattle.csv.specs.Records.{fields_of};
ghost use Rattle.csv.specs.declared.parser.State.TheVariants as state;
ghost use Rattle.hlr_owners.specs.Owners.{store_in};
ghost use Rattle.hlr.specs.Command.{Command as command};
ghost use Rattle.hlr.specs.Inside.{AddsAnswer, AnswersNext, AreBrokenOff, HasCome, IsAtRest, IsUnderway, TakesNext, WritesOwed, replies_text, word_of_report};
ghost use Rattle.hlr.specs.Lines.{refused_line};
ghost use Rattle.hlr.specs.Records.{bounds_of, command_of, field, word_named};
ghost use Rattle.hlr.specs.Outgoing.{Adds, Outgoing, outgoing};
ghost use Rattle.hlr.specs.Run.{RanUntil};
ghost use Rattle.hlr.specs.Source.{StopsBehind};
ghost use Rattle.hlr.specs.Written.{HasRoom};
ghost use Rattle.hlr.specs.declared.fault.Fault.TheVariants as fault;
ghost use Rattle.hlr_workers.specs.declared.work.TheConstants.{MOST_PENDING};

use crate::events::event_of;
use crate::fault::Fault;
use crate::lines::{Line, build_recut, build_refused, build_reply, empty_line};
use crate::records::{Kind, Report, Word, field, kind_of, read_bounds, word_of};
use crate::run::{RECORDS, answer_report};
use crate::sink::{Sink, Stalled, flush_line, hand_on, make_room};
use crate::source::Source;
use csv::ByteRecord;
use hlr_core::{Event, Reply};
use hlr_workers::{Engine, Gate, MOST_PENDING};
use std::sync::Wait;
use std::thread::Threads;
use tatp_rows::Refusal;

/// A gate that holds no job up.
#[derive(Drop)]
pub struct OpenGate;

impl Gate for OpenGate {
    fn before(&self, _part: u8, _seq: u64) {}

    fn after(&self, _part: u8, _seq: u64) {}
}

/// Writes the lines of replies, one after another, and leaves room for a further line.
fn write_replies<S: Sink>(
    replies: &[(u64, Reply)],
    line: &mut Line,
    sink: &mut S,
) -> Result<(), Stalled>
    ensures text { Adds (replies_text replies.now) (outgoing line.old.items (S.taken sink.old)) (outgoing line.new.items (S.taken sink.new)) (S.has_stalled sink.new) result }
    ensures room { OnOk result (HasRoom line.new.items) }
{
    for one in replies {
        make_room(line, sink)?;
        build_reply(line, &one.1);
    }
    make_room(line, sink)
}

/// Settles an engine, and writes the replies that are owed, in order. It leaves room for a further line.
fn write_owed<H: Threads + Wait, S: Sink>(
    rt: &H,
    engine: &mut Engine<OpenGate>,
    line: &mut Line,
    sink: &mut S,
) -> Result<(), Stalled>
    ensures text { WritesOwed engine.old engine.new.register (outgoing line.old.items (S.taken sink.old)) (outgoing line.new.items (S.taken sink.new)) (S.has_stalled sink.new) result }
    ensures told { OnErr result (S.has_stalled sink.new ≡ true) }
    ensures rest { IsAtRest engine.new }
    ensures room { OnOk result (HasRoom line.new.items) }
{
    let replies = engine.settle(rt);
    write_replies(replies.as_slice(), line, sink)
}

/// Takes an event, whose reply is owed from then on.
fn owe_event<H: Threads + Wait + Copy + Send + Sync + 'static>(
    rt: &H,
    event: Event,
    engine: &mut Engine<OpenGate>,
) -> Result<(), Fault>
    requires { length engine.old.replies < MOST_PENDING }
    ensures { (fields : List (List ℕ)) (taken : Outgoing) (stalled : Bool) → command_of fields ≡ Ok (command.Ask event)
        → TakesNext fields engine.old engine.new taken taken stalled result }
{
    match engine.submit(rt, event) {
        Ok(_) => Ok(()),
        Err(Refusal::Thread) => Err(Fault::Thread),
        Err(_) => Err(Fault::Memory),
    }
}

/// Replies to a record that is no command with its refusal, once no reply is owed.
fn refuse<H: Threads + Wait, S: Sink>(
    rt: &H,
    why: Refusal,
    engine: &mut Engine<OpenGate>,
    line: &mut Line,
    sink: &mut S,
) -> Result<(), Stalled>
    ensures { (fields : List (List ℕ)) → command_of fields ≡ Err why
        → AnswersNext fields engine.old engine.new (outgoing line.old.items (S.taken sink.old)) (outgoing line.new.items (S.taken sink.new)) (S.has_stalled sink.new) result }
{
    write_owed(rt, engine, line, sink)?;
    build_refused(line, why);
    Ok(())
}

/// Replies to a record that asks for a report, once no reply is owed.
fn report<H: Threads + Wait, S: Sink>(
    rt: &H,
    report: Report,
    row: &ByteRecord,
    engine: &mut Engine<OpenGate>,
    line: &mut Line,
    sink: &mut S,
) -> Result<(), Stalled>
    requires named { Some (word_of_report report) ≡ word_named (field (fields_of row.now) 0) }
    ensures { AnswersNext (fields_of row.now) engine.old engine.new (outgoing line.old.items (S.taken sink.old)) (outgoing line.new.items (S.taken sink.new)) (S.has_stalled sink.new) result }
{
    write_owed(rt, engine, line, sink)?;
    answer_report(report, row, engine.register(), line, sink)
}

/// Has an engine without pending events do a recut, and builds the reply: how many bounds it moved, or why it was
/// refused.
///
/// The function is not inlined, because its list of bounds would otherwise be filled with zeros for each event.
#[inline(never)]
fn build_recut_by<H: Threads + Wait>(
    rt: &H,
    row: &ByteRecord,
    engine: &mut Engine<OpenGate>,
    line: &mut Line,
)
    requires rest { IsAtRest engine.old }
    requires room { HasRoom line.old.items }
    ensures text { AddsAnswer (fields_of row.now) (Ok command.Recut) (store_in engine.old.register) (store_in engine.new.register) line.old.items line.new.items }
    ensures rest { IsAtRest engine.new }
{
    match read_bounds(row) {
        Ok(bounds) => {
            build_recut(line, engine.recut_to(rt, bounds.as_slice()));
            // For the prover: nothing is pending, so the re-cut led to the register.
            let _register = engine.register();
        }
        Err(why) => build_refused(line, why),
    }
}

/// Replies to a recut, once no reply is owed.
fn recut<H: Threads + Wait, S: Sink>(
    rt: &H,
    row: &ByteRecord,
    engine: &mut Engine<OpenGate>,
    line: &mut Line,
    sink: &mut S,
) -> Result<(), Stalled>
    requires named { command_of (fields_of row.now) ≡ Ok command.Recut }
    ensures { AnswersNext (fields_of row.now) engine.old engine.new (outgoing line.old.items (S.taken sink.old)) (outgoing line.new.items (S.taken sink.new)) (S.has_stalled sink.new) result }
{
    write_owed(rt, engine, line, sink)?;
    build_recut_by(rt, row, engine, line);
    Ok(())
}

/// Returns the fault of a run whose sink has stalled.
pub fn sink_fault(done: Result<(), Stalled>) -> Result<(), Fault>
    ensures { MatchResult done (λ unit. result ≡ Ok unit) (λ why. result ≡ Err fault.Write) }
{
    match done {
        Ok(()) => Ok(()),
        Err(_) => Err(Fault::Write),
    }
}

/// Takes a record whose first field is this word.
fn take_word<H: Threads + Wait + Copy + Send + Sync + 'static, S: Sink>(
    rt: &H,
    word: Word,
    row: &ByteRecord,
    engine: &mut Engine<OpenGate>,
    line: &mut Line,
    sink: &mut S,
) -> Result<(), Fault>
    requires named { Some word ≡ word_named (field (fields_of row.now) 0) }
    requires room { length engine.old.replies < MOST_PENDING }
    ensures { TakesNext (fields_of row.now) engine.old engine.new (outgoing line.old.items (S.taken sink.old)) (outgoing line.new.items (S.taken sink.new)) (S.has_stalled sink.new) result }
{
    match kind_of(word) {
        Kind::Event => match event_of(word, row) {
            Ok(event) => owe_event(rt, event, engine),
            Err(why) => sink_fault(refuse(rt, why, engine, line, sink)),
        },
        Kind::Report(asked) => sink_fault(report(rt, asked, row, engine, line, sink)),
        Kind::Recut => sink_fault(recut(rt, row, engine, line, sink)),
    }
}

/// Takes a record. If it asks for an event, the reply is owed from then on. Any other record gets its reply once no
/// reply is owed.
fn take_record<H: Threads + Wait + Copy + Send + Sync + 'static, S: Sink>(
    rt: &H,
    row: &ByteRecord,
    engine: &mut Engine<OpenGate>,
    line: &mut Line,
    sink: &mut S,
) -> Result<(), Fault>
    requires room { length engine.old.replies < MOST_PENDING }
    ensures { TakesNext (fields_of row.now) engine.old engine.new (outgoing line.old.items (S.taken sink.old)) (outgoing line.new.items (S.taken sink.new)) (S.has_stalled sink.new) result }
{
    match word_of(field(row, 0)) {
        Some(word) => take_word(rt, word, row, engine, line, sink),
        None => sink_fault(refuse(rt, Refusal::Syntax, engine, line, sink)),
    }
}

/// Writes the replies that are owed, and flushes the sink.
fn flush_owed<H: Threads + Wait, S: Sink>(
    rt: &H,
    engine: &mut Engine<OpenGate>,
    line: &mut Line,
    sink: &mut S,
) -> Result<(), Stalled>
    ensures text { WritesOwed engine.old engine.new.register (outgoing line.old.items (S.taken sink.old)) (outgoing line.new.items (S.taken sink.new)) (S.has_stalled sink.new) result }
    ensures empty { OnOk result (line.new.items ≡ []) }
    ensures rest { IsAtRest engine.new }
{
    write_owed(rt, engine, line, sink)?;
    flush_line(line, sink)
}

/// Writes the replies that are owed, and hands them on.
fn hand_on_owed<H: Threads + Wait, S: Sink>(
    rt: &H,
    engine: &mut Engine<OpenGate>,
    line: &mut Line,
    sink: &mut S,
) -> Result<(), Stalled>
    ensures text { WritesOwed engine.old engine.new.register (outgoing line.old.items (S.taken sink.old)) (outgoing line.new.items (S.taken sink.new)) (S.has_stalled sink.new) result }
    ensures told { OnErr result (S.has_stalled sink.new ≡ true) }
    ensures empty { OnOk result (line.new.items ≡ []) }
    ensures rest { IsAtRest engine.new }
{
    write_owed(rt, engine, line, sink)?;
    hand_on(line, sink)
}

/// Takes the record that was read last. The replies that are owed are written when 4,096 events are pending. They are
/// also written, and the sink is flushed, before a read that may wait, which is one that finds no whole record in what
/// was read.
fn take_in_time<T: Source, H: Threads + Wait + Copy + Send + Sync + 'static, S: Sink>(
    rt: &H,
    source: &T,
    row: &ByteRecord,
    engine: &mut Engine<OpenGate>,
    line: &mut Line,
    sink: &mut S,
) -> Result<(), Fault>
    requires room { length engine.old.replies < MOST_PENDING }
    ensures text { TakesNext (fields_of row.now) engine.old engine.new (outgoing line.old.items (S.taken sink.old)) (outgoing line.new.items (S.taken sink.new)) (S.has_stalled sink.new) result }
    ensures room { OnOk result (length engine.new.replies < MOST_PENDING) }
{
    take_record(rt, row, engine, line, sink)?;
    if !source.has_record() {
        return sink_fault(flush_owed(rt, engine, line, sink));
    }
    if engine.pending() < MOST_PENDING {
        return Ok(());
    }
    sink_fault(write_owed(rt, engine, line, sink))
}

/// Takes the records of a source in turn. Its faults are `Read` if the source fails or has more than
/// 1,048,576 records, `Memory` if the source or an event needs memory that is refused, `Thread` if the system refuses
/// to start a thread, and `Write` if the sink fails. Unless the sink failed, replies may be owed afterwards. Records
/// are read into the row.
fn take_all<T: Source, H: Threads + Wait + Copy + Send + Sync + 'static, S: Sink>(
    rt: &H,
    source: &mut T,
    row: &mut ByteRecord,
    engine: &mut Engine<OpenGate>,
    line: &mut Line,
    sink: &mut S,
) -> Result<(), Fault>
    requires open { T.is_open source.old }
    requires start { (T.seen.unread source.old).state ≡ state.StartRecord }
    requires rest { IsAtRest engine.old }
    ensures text { IfSome (T.seen.unread source.old).bytes
        (λ bytes. HasCome (StopsBehind T.seen true bytes source.new) bytes
        (λ rows. IsUnderway rows (store_in engine.old.register) engine.new (outgoing line.old.items (S.taken sink.old)) (outgoing line.new.items (S.taken sink.new)))
        (λ rows. AreBrokenOff rows (store_in engine.old.register) (outgoing line.old.items (S.taken sink.old)) (outgoing line.new.items (S.taken sink.new)) (S.has_stalled sink.new)) result) }
    ensures write { result ≡ Err fault.Write → S.has_stalled sink.new ≡ true }
    ensures field { result ≢ Err fault.Field }
{
    for count in 0..RECORDS + 1 {
        match source.read(row) {
            Ok(false) => return Ok(()),
            Ok(true) => {
                if count == RECORDS {
                    return Err(Fault::Read);
                }
                take_in_time(rt, source, row, engine, line, sink)?;
            }
            Err(why) => return Err(why),
        }
    }
    Err(Fault::Read)
}

/// Replies to all records of a source with an engine that has no pending events. Its faults are `Read` if
/// the source fails or has more than 1,048,576 records, `Memory` if the source or an event needs memory that is
/// refused, `Thread` if the system refuses to start a thread, and `Write` if the sink fails. Unless the sink failed,
/// all records that were read before have their replies, except for the one whose event was refused. Records are read
/// into the row.
pub fn answer_all_by<T: Source, H: Threads + Wait + Copy + Send + Sync + 'static, S: Sink>(
    rt: &H,
    source: &mut T,
    row: &mut ByteRecord,
    engine: &mut Engine<OpenGate>,
    sink: &mut S,
) -> Result<(), Fault>
    requires open { T.is_open source.old }
    requires start { (T.seen.unread source.old).state ≡ state.StartRecord }
    requires rest { IsAtRest engine.old }
    ensures text { IfSome (T.seen.unread source.old).bytes
        (λ bytes. RanUntil (StopsBehind T.seen true bytes source.new) (store_in engine.old.register) bytes (S.taken sink.old) (S.taken sink.new) result) }
    ensures write { result ≡ Err fault.Write → S.has_stalled sink.new ≡ true }
    ensures field { result ≢ Err fault.Field }
{
    let mut line = empty_line();
    let done = take_all(rt, source, row, engine, &mut line, sink);
    match done {
        Err(Fault::Write) => Err(Fault::Write),
        _ => match hand_on_owed(rt, engine, &mut line, sink) {
            Ok(()) => done,
            Err(_) => Err(Fault::Write),
        },
    }
}
