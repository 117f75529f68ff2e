//! A run, which replies to every record of a reader.
ghost use Rattle.std.specs.Prelude.{◌≡◌, ◌≢◌, ◌⊎◌, ◌↔◌, true, false, Some, Err, Ok, IfOk, IfSome, OnOk, option_map};
ghost use Rattle.std.specs.Result.{is_err};
ghost use Rattle.std.specs.Io.KnownBytes.{Keeps};
ghost use Rattle.csv.specs.Reading.{strip_bom};
ghost use Rattle.csv.specs.Records.{fields_of};
ghost use Rattle.csv.specs.declared.parser.State.TheVariants as state;
ghost use Rattle.hlr_owners.specs.Owners.{AllHome, store_in};
ghost use Rattle.hlr_owners.specs.Store.{HasOpening, opening};
ghost use Rattle.hlr.specs.Records.{command_of, field, word_named};
ghost use Rattle.hlr.specs.Run.{IsFlushedAfter, Ran, RanUntil};
ghost use Rattle.hlr.specs.Command.{Command as command};
ghost use Rattle.hlr.specs.Inside.{AddsAnswer, Answers, AreAnswered, AreBrokenOff, HasCome, IsAtRest, report_on, word_of_report};
ghost use Rattle.hlr.specs.Outgoing.{Adds, outgoing};
ghost use Rattle.hlr.specs.Source.{StopsBehind};
ghost use Rattle.hlr.specs.Written.{HasRoom};
ghost use Rattle.tatp_rows.specs.declared.refusal.Refusal.TheVariants as refusal;
ghost use Rattle.hlr.specs.declared.fault.Fault.TheVariants as fault;

use crate::answers::{build_gad, build_gnd, build_gsd};
use crate::edits::{
    add_access, add_facility, add_subscriber, delete_forwarding, insert_forwarding, set_active,
    set_number, update_location, update_subscriber,
};
use crate::fault::Fault;
use crate::lines::{Line, build_done, build_recut, build_refused, empty_line};
use crate::owed::{OpenGate, answer_all_by};
use crate::parts::{build_moved, build_post};
use crate::records::{Report, Word, field, read_bounds, word_of};
use crate::reports::{build_proposal, build_scan, build_views, write_index, write_regions};
use crate::sink::{Sink, Stalled, flush_line, hand_on, make_room};
use crate::source::{Records, Source};
use csv::ByteRecord;
use hlr_core::Register;
use hlr_workers::Engine;
use std::alloc::Global;
use std::io::Read;
use std::sync::{Arc, Wait};
use std::thread::Threads;
use tatp_rows::Refusal;

/// How many records a run takes at most.
pub const RECORDS: u32 = 1_048_576;

// The definition of a run uses this number.
const _: () = prove!(RECORDS == 1_048_576);

/// Replies to a recut: how many bounds it moved, or why it was refused.
///
/// The function is not inlined, because its list of bounds would otherwise be filled with zeros for each event.
#[inline(never)]
fn recut(row: &ByteRecord, register: &mut Register, line: &mut Line)
    requires home { AllHome register.old.owners }
    requires room { HasRoom line.old.items }
    ensures text { AddsAnswer (fields_of row.now) (Ok command.Recut) (store_in register.old) (store_in register.new) line.old.items line.new.items }
    ensures home { AllHome register.new.owners }
{
    match read_bounds(row) {
        Ok(bounds) => build_recut(line, register.recut_to(bounds.as_slice())),
        Err(why) => build_refused(line, why),
    }
}

/// Writes a report.
fn write_report<S: Sink>(
    report: Report,
    register: &Register,
    line: &mut Line,
    sink: &mut S,
) -> Result<(), Stalled>
    requires home { AllHome register.now.owners }
    requires room { HasRoom line.old.items }
    ensures { Adds (report_on report (store_in register.now)) (outgoing line.old.items (S.taken sink.old)) (outgoing line.new.items (S.taken sink.new)) (S.has_stalled sink.new) result }
{
    match report {
        Report::Views => build_views(register, line),
        Report::Scan => build_scan(register, line),
        Report::Index => return write_index(register.index(), line, sink),
        Report::Regions => return write_regions(register.regions(), line, sink),
        Report::Propose => build_proposal(register, line),
    }
    Ok(())
}

/// Replies to a record that asks for a report. It returns `Syntax` if the record has a further field.
pub fn answer_report<S: Sink>(
    report: Report,
    row: &ByteRecord,
    register: &Register,
    line: &mut Line,
    sink: &mut S,
) -> Result<(), Stalled>
    requires named { Some (word_of_report report) ≡ word_named (field (fields_of row.now) 0) }
    requires home { AllHome register.now.owners }
    requires room { HasRoom line.old.items }
    ensures { Answers (fields_of row.now) (store_in register.now) (store_in register.now) (outgoing line.old.items (S.taken sink.old)) (outgoing line.new.items (S.taken sink.new)) (S.has_stalled sink.new) result }
{
    if row.len() != 1 {
        build_refused(line, Refusal::Syntax);
        return Ok(());
    }
    write_report(report, register, line, sink)
}

/// Replies to a record whose first field is this word.
fn answer_word<S: Sink>(
    word: Word,
    row: &ByteRecord,
    register: &mut Register,
    line: &mut Line,
    sink: &mut S,
) -> Result<(), Stalled>
    requires named { Some word ≡ word_named (field (fields_of row.now) 0) }
    requires home { AllHome register.old.owners }
    requires room { HasRoom line.old.items }
    ensures text { Answers (fields_of row.now) (store_in register.old) (store_in register.new) (outgoing line.old.items (S.taken sink.old)) (outgoing line.new.items (S.taken sink.new)) (S.has_stalled sink.new) result }
    ensures home { AllHome register.new.owners }
{
    match word {
        Word::Gsd => build_gsd(row, register, line),
        Word::Gad => build_gad(row, register, line),
        Word::Gnd => build_gnd(row, register, line),
        Word::Usd => build_done(line, update_subscriber(row, register)),
        Word::Ul => build_done(line, update_location(row, register)),
        Word::Icf => build_done(line, insert_forwarding(row, register)),
        Word::Dcf => build_done(line, delete_forwarding(row, register)),
        Word::Sub => build_done(line, add_subscriber(row, register)),
        Word::Acc => build_done(line, add_access(row, register)),
        Word::Fac => build_done(line, add_facility(row, register)),
        Word::Active => build_done(line, set_active(row, register)),
        Word::Number => build_done(line, set_number(row, register)),
        Word::Post => build_post(row, register, line),
        Word::Give | Word::Take | Word::Divide | Word::Dissolve => {
            build_moved(word, row, register, line)
        }
        Word::Views => return answer_report(Report::Views, row, register, line, sink),
        Word::Scan => return answer_report(Report::Scan, row, register, line, sink),
        Word::Index => return answer_report(Report::Index, row, register, line, sink),
        Word::Regions => return answer_report(Report::Regions, row, register, line, sink),
        Word::Propose => return answer_report(Report::Propose, row, register, line, sink),
        Word::Recut => recut(row, register, line),
    }
    Ok(())
}

/// Replies to a record, behind the replies in the line. If the sink fails, some beginning of them and of this one was
/// taken.
#[tactic(auto, unfolding(crate::specs::Records::command_of))]
fn answer<S: Sink>(
    row: &ByteRecord,
    register: &mut Register,
    line: &mut Line,
    sink: &mut S,
) -> Result<(), Stalled>
    requires home { AllHome register.old.owners }
    requires room { HasRoom line.old.items }
    ensures text { Answers (fields_of row.now) (store_in register.old) (store_in register.new) (outgoing line.old.items (S.taken sink.old)) (outgoing line.new.items (S.taken sink.new)) (S.has_stalled sink.new) result }
    ensures home { AllHome register.new.owners }
{
    match word_of(field(row, 0)) {
        Some(word) => answer_word(word, row, register, line, sink),
        None => {
            build_refused(line, Refusal::Syntax);
            Ok(())
        }
    }
}

/// Replies to the record that was read last. The replies so far are handed on and flushed before a read that may wait,
/// which is one that finds no whole record in what was read, and handed on if there are many. If the sink fails, some
/// beginning of them was taken.
fn answer_in_time<T: Source, S: Sink>(
    source: &T,
    row: &ByteRecord,
    register: &mut Register,
    line: &mut Line,
    sink: &mut S,
) -> Result<(), Stalled>
    requires home { AllHome register.old.owners }
    requires room { HasRoom line.old.items }
    ensures text { Answers (fields_of row.now) (store_in register.old) (store_in register.new) (outgoing line.old.items (S.taken sink.old)) (outgoing line.new.items (S.taken sink.new)) (S.has_stalled sink.new) result }
    ensures home { AllHome register.new.owners }
    ensures room { OnOk result (HasRoom line.new.items) }
{
    if answer(row, register, line, sink).is_err() {
        return Err(Stalled);
    }
    if source.has_record() {
        return make_room(line, sink);
    }
    flush_line(line, sink)
}

/// Replies to the records of a source in turn, as `answer_all` does. Unless the sink failed, the last replies are left
/// in the line.
fn answer_records<T: Source, S: Sink>(
    source: &mut T,
    row: &mut ByteRecord,
    register: &mut Register,
    line: &mut Line,
    sink: &mut S,
) -> Result<(), Fault>
    requires open { T.is_open source.old }
    requires start { (T.seen.unread source.old).state ≡ state.StartRecord }
    requires home { AllHome register.old.owners }
    requires room { HasRoom line.old.items }
    ensures text { IfSome (T.seen.unread source.old).bytes
        (λ bytes. HasCome (StopsBehind T.seen false bytes source.new) bytes
        (λ rows. AreAnswered rows (store_in register.old) register.new (outgoing line.old.items (S.taken sink.old)) (outgoing line.new.items (S.taken sink.new)))
        (λ rows. AreBrokenOff rows (store_in register.old) (outgoing line.old.items (S.taken sink.old)) (outgoing line.new.items (S.taken sink.new)) (S.has_stalled sink.new)) result) }
    ensures write { result ≡ Err fault.Write → S.has_stalled sink.new ≡ true }
    ensures field { result ≢ Err fault.Field }
    ensures thread { result ≢ Err fault.Thread }
{
    for count in 0..RECORDS + 1 {
        match source.read(row) {
            Ok(false) => return Ok(()),
            Ok(true) => {
                if count == RECORDS {
                    return Err(Fault::Read);
                }
                if answer_in_time(source, row, register, line, sink).is_err() {
                    return Err(Fault::Write);
                }
            }
            Err(why) => return Err(why),
        }
    }
    Err(Fault::Read)
}

/// Replies to the records of a source in turn, each before the next read may wait. Its faults are `Read` if
/// the source fails or has more than 1,048,576 records, `Memory` if the source needs memory that is refused, and
/// `Write` if the sink fails. Unless the sink failed, all records that were read before have their replies. Records are
/// read into the row.
pub fn answer_all<T: Source, S: Sink>(
    source: &mut T,
    row: &mut ByteRecord,
    register: &mut Register,
    sink: &mut S,
) -> Result<(), Fault>
    requires open { T.is_open source.old }
    requires start { (T.seen.unread source.old).state ≡ state.StartRecord }
    requires home { AllHome register.old.owners }
    ensures text { IfSome (T.seen.unread source.old).bytes
        (λ bytes. RanUntil (StopsBehind T.seen false bytes source.new) (store_in register.old) bytes (S.taken sink.old) (S.taken sink.new) result) }
    ensures write { result ≡ Err fault.Write → S.has_stalled sink.new ≡ true }
    ensures field { result ≢ Err fault.Field }
    ensures thread { result ≢ Err fault.Thread }
{
    let mut line = empty_line();
    let done = answer_records(source, row, register, &mut line, sink);
    match done {
        Err(Fault::Write) => Err(Fault::Write),
        _ => match hand_on(&mut line, sink) {
            Ok(()) => done,
            Err(_) => Err(Fault::Write),
        },
    }
}

/// Flushes the sink at the end of a run, unless the sink failed already. It returns `Write` if that fails, and
/// otherwise the result of the run.
pub fn finish<S: Sink>(sink: &mut S, done: Result<(), Fault>) -> Result<(), Fault>
    requires { done ≢ Err fault.Field }
    ensures bytes { Keeps (S.taken sink.old) (S.taken sink.new) }
    ensures answer { (result ≡ done) ⊎ (result ≡ Err fault.Write) }
    ensures kept { done ≡ Err fault.Write → sink.new ≡ sink.old }
    ensures told { result ≡ Err fault.Write → (done ≡ Err fault.Write) ⊎ (S.has_stalled sink.new ≡ true) }
    ensures flushed { IsFlushedAfter result (S.is_flushed sink.new) }
{
    match done {
        Err(Fault::Write) => Err(Fault::Write),
        _ => match sink.flush() {
            Ok(()) => done,
            Err(_) => Err(Fault::Write),
        },
    }
}

/// Replies to all records of a reader with a register, and flushes the sink.
fn run_store<R: Read + Drop, S: Sink>(
    alloc: Global,
    reader: R,
    register: &mut Register,
    sink: &mut S,
) -> Result<(), Fault>
    requires { AllHome register.old.owners }
    ensures text { IfSome (R.remaining reader)
        (λ bytes. Ran (store_in register.old) (strip_bom bytes) (S.taken sink.old) (S.taken sink.new) result) }
    ensures write { result ≡ Err fault.Write → S.has_stalled sink.new ≡ true }
    ensures field { result ≢ Err fault.Field }
    ensures thread { result ≢ Err fault.Thread }
    ensures flushed { IsFlushedAfter result (S.is_flushed sink.new) }
{
    let Ok(mut records) = Records::of(alloc, reader) else {
        return finish(sink, Err(Fault::Memory));
    };
    let mut row = ByteRecord::new(alloc);
    let done = answer_all(&mut records, &mut row, register, sink);
    finish(sink, done)
}

/// Ends a run whose store was refused.
fn refuse_start<S: Sink>(sink: &mut S, why: Refusal) -> Result<(), Fault>
    ensures fault { is_err result ≡ true }
    ensures bytes { Keeps (S.taken sink.old) (S.taken sink.new) }
    ensures write { result ≡ Err fault.Write → S.has_stalled sink.new ≡ true }
    ensures field { (result ≡ Err fault.Field) ↔ (why ≡ refusal.Field) }
    ensures untouched { result ≡ Err fault.Field → sink.new ≡ sink.old }
    ensures thread { result ≢ Err fault.Thread }
    ensures flushed { IsFlushedAfter result (S.is_flushed sink.new) }
{
    match why {
        Refusal::Field => Err(Fault::Field),
        _ => finish(sink, Err(Fault::Memory)),
    }
}

/// Replies to all records of a reader, without a thread, with a register that has no row at first. The records are
/// those of CSV without a header row, with any number of fields, and a byte order mark before them is skipped. The
/// number of parts and the zone width are those of `Register::open`.
///
/// It returns `Field` if parts isn't in 1..=16 or width isn't in 1..=524,288, and then it writes nothing. It returns
/// `Memory` if the system refuses the memory to start or to read a record, `Read` if the reader fails or has more than
/// 1,048,576 records, and `Write` if the sink fails.
///
/// Every reply is flushed before a read that may wait: the sink is flushed after each record behind which the reader
/// has returned no whole one so far. It is also flushed at the end, unless the run ended with `Field` or `Write`.
pub fn run_alone<R: Read + Drop, S: Sink>(
    alloc: Global,
    reader: R,
    sink: &mut S,
    parts: u8,
    width: u32,
) -> Result<(), Fault>
    ensures text { IfSome (R.remaining reader)
        (λ bytes. Ran (opening parts width) (strip_bom bytes) (S.taken sink.old) (S.taken sink.new) result) }
    ensures write { result ≡ Err fault.Write → S.has_stalled sink.new ≡ true }
    ensures field { (result ≡ Err fault.Field) ↔ (¬ HasOpening parts width) }
    ensures untouched { result ≡ Err fault.Field → sink.new ≡ sink.old }
    ensures thread { result ≢ Err fault.Thread }
    ensures flushed { IsFlushedAfter result (S.is_flushed sink.new) }
{
    match Register::open(alloc, parts, width) {
        Ok(mut register) => {
            let done = run_store(alloc, reader, &mut register, sink);
            drop(register);
            done
        }
        Err(why) => refuse_start(sink, why),
    }
}

/// Replies to all records of a reader with an engine that has no pending events, and flushes the sink.
///
/// The reader is borrowed, so that the calls of `csv` are compiled once for this run and once for a run without
/// threads, and are inlined into the loop of each.
fn run_engine<R: Read + Drop, H: Threads + Wait + Copy + Send + Sync + 'static, S: Sink>(
    rt: &H,
    alloc: Global,
    mut reader: R,
    engine: &mut Engine<OpenGate>,
    sink: &mut S,
) -> Result<(), Fault>
    requires rest { IsAtRest engine.old }
    ensures text { IfSome (R.remaining reader)
        (λ bytes. Ran (store_in engine.old.register) (strip_bom bytes) (S.taken sink.old) (S.taken sink.new) result) }
    ensures write { result ≡ Err fault.Write → S.has_stalled sink.new ≡ true }
    ensures field { result ≢ Err fault.Field }
    ensures flushed { IsFlushedAfter result (S.is_flushed sink.new) }
{
    let Ok(mut records) = Records::of(alloc, &mut reader) else {
        return finish(sink, Err(Fault::Memory));
    };
    let mut row = ByteRecord::new(alloc);
    let done = answer_all_by(rt, &mut records, &mut row, engine, sink);
    finish(sink, done)
}

/// Replies to all records of a reader with an engine over a register, and flushes the sink.
fn run_threads<R: Read + Drop, H: Threads + Wait + Copy + Send + Sync + 'static, S: Sink>(
    rt: &H,
    alloc: Global,
    reader: R,
    register: Register,
    sink: &mut S,
) -> Result<(), Fault>
    requires { AllHome register.owners }
    ensures text { IfSome (R.remaining reader)
        (λ bytes. Ran (store_in register) (strip_bom bytes) (S.taken sink.old) (S.taken sink.new) result) }
    ensures write { result ≡ Err fault.Write → S.has_stalled sink.new ≡ true }
    ensures field { result ≢ Err fault.Field }
    ensures flushed { IsFlushedAfter result (S.is_flushed sink.new) }
{
    match Arc::new(alloc, OpenGate) {
        Ok(gate) => {
            let mut engine = Engine::new(alloc, register, gate);
            let done = run_engine(rt, alloc, reader, &mut engine, sink);
            let (register, _replies) = engine.close(rt);
            drop(register);
            done
        }
        Err(_) => {
            drop(register);
            refuse_start(sink, Refusal::Memory)
        }
    }
}

/// Replies to all records of a reader as `run_alone` does, and with threads if they are asked for, in which case each
/// part has a worker that does its events in a thread of its own. The replies are the same. It may wait.
///
/// It returns `Field`, `Memory`, `Read` and `Write` as `run_alone` does. It also returns `Memory` if there is no memory
/// to hand an event on, and `Thread` if the system refuses to start a thread, and then the replies to all records
/// before that one have been written.
pub fn run<R: Read + Drop, H: Threads + Wait + Copy + Send + Sync + 'static, S: Sink>(
    rt: &H,
    alloc: Global,
    reader: R,
    sink: &mut S,
    parts: u8,
    width: u32,
    threads: bool,
) -> Result<(), Fault>
    ensures text { IfSome (R.remaining reader)
        (λ bytes. Ran (opening parts width) (strip_bom bytes) (S.taken sink.old) (S.taken sink.new) result) }
    ensures write { result ≡ Err fault.Write → S.has_stalled sink.new ≡ true }
    ensures field { (result ≡ Err fault.Field) ↔ (¬ HasOpening parts width) }
    ensures untouched { result ≡ Err fault.Field → sink.new ≡ sink.old }
    ensures thread { result ≡ Err fault.Thread → threads ≡ true }
    ensures flushed { IsFlushedAfter result (S.is_flushed sink.new) }
{
    if !threads {
        return run_alone(alloc, reader, sink, parts, width);
    }
    match Register::open(alloc, parts, width) {
        Ok(register) => run_threads(rt, alloc, reader, register, sink),
        Err(why) => refuse_start(sink, why),
    }
}
