//! A run with a journal. The replies wait in the line until the journal has the events that they tell of.
ghost use Rattle.std.specs.Prelude.{◌≡◌, ◌≢◌, ◌⊎◌, [], List, ℕ, Bool, true, Some, Err, Ok, Result, OnErr, OnOk, MatchResult, option_map};
ghost use Rattle.csv.specs.Reading.{strip_bom};
ghost use Rattle.csv.specs.Records.{fields_of};
ghost use Rattle.csv.specs.declared.parser.State.TheVariants as state;
ghost use Rattle.hlr_owners.specs.Owners.{store_in};
ghost use Rattle.hlr_kept.specs.Runs.{IsOnDisk};
ghost use Rattle.hlr_kept.specs.UnderWay.{IsReady, IsUnchanged, IsUnderWay};
ghost use Rattle.hlr.specs.Command.{Command as command};
ghost use Rattle.hlr.specs.Inside.{word_of_report};
ghost use Rattle.hlr.specs.Journaled.{RanJournaled};
ghost use Rattle.hlr.specs.JournaledInside.{HasComeKept, JoinsAnswer, KeepsNext, Syncs, has_stopped};
ghost use Rattle.hlr.specs.Outgoing.{Outgoing, outgoing};
ghost use Rattle.hlr.specs.Records.{field, word_named};
ghost use Rattle.hlr.specs.Run.{IsFlushedAfter, IsStop};
ghost use Rattle.hlr.specs.Source.{StopsBehind};
ghost use Rattle.hlr.specs.Written.{HasRoom};
ghost use Rattle.hlr.specs.declared.fault.Fault.{Fault};
ghost use Rattle.hlr.specs.declared.fault.Fault.TheVariants as fault;

use crate::events::event_of;
use crate::fault::Fault;
use crate::lines::{Line, build_recut, build_refused, build_reply, empty_line};
use crate::owed::sink_fault;
use crate::records::{Kind, Report, Word, field, kind_of, read_bounds, word_of};
use crate::run::{RECORDS, answer_report, finish};
use crate::sink::{Sink, Stalled, flush_line, hand_on};
use crate::source::{Records, Source};
use csv::ByteRecord;
use hlr_core::Event;
use hlr_kept::{Journaled, NextTape};
use std::alloc::Global;
use std::io::Read;
use tatp_rows::Refusal;

/// How many bytes of lines may wait for a sync. They are those of 4,369 location updates.
const MOST_UNSYNCED: usize = 65_536;

/// Puts the events so far on the disk, so that the replies to them may be handed on. If a snapshot is due, it takes the
/// place of the journal.
fn sync<D: NextTape>(journaled: &mut Journaled<D>) -> Result<(), Stalled>
    requires ready { IsReady D.Device.seen D.Device.may_leave journaled.old }
    ensures ready { IsReady D.Device.seen D.Device.may_leave journaled.new }
    ensures register { journaled.new.register ≡ journaled.old.register }
    ensures synced { (sent : Outgoing) (stalled : Bool) → Syncs D.Device.seen D.Device.may_leave D.Device.moment D.Device.left_since journaled.old journaled.new sent sent (has_stopped stalled journaled.new.journal.fault) result }
    // From an `Ok` on, the journal stands for the rows of the register.
    ensures kept { OnOk result (IsOnDisk D.Device.seen D.Device.may_leave (store_in journaled.new.register) journaled.new.journal.tape) }
{
    match journaled.sync_or_compact() {
        Ok(()) => Ok(()),
        Err(_) => Err(Stalled),
    }
}

/// Hands all replies on, once the events that they tell of are on the disk.
fn hand_on_synced<D: NextTape, S: Sink>(
    journaled: &mut Journaled<D>,
    line: &mut Line,
    sink: &mut S,
) -> Result<(), Stalled>
    requires ready { IsReady D.Device.seen D.Device.may_leave journaled.old }
    ensures ready { IsReady D.Device.seen D.Device.may_leave journaled.new }
    ensures text { Syncs D.Device.seen D.Device.may_leave D.Device.moment D.Device.left_since journaled.old journaled.new (outgoing line.old.items (S.taken sink.old)) (outgoing line.new.items (S.taken sink.new)) (has_stopped (S.has_stalled sink.new) journaled.new.journal.fault) result }
    ensures empty { OnOk result (line.new.items ≡ []) }
    // Nothing is handed on, or the journal stands for the rows after all events that the replies tell of.
    ensures kept { (sink.new ≡ sink.old) ⊎ IsOnDisk D.Device.seen D.Device.may_leave (store_in journaled.new.register) journaled.new.journal.tape }
    ensures done { OnOk result (IsOnDisk D.Device.seen D.Device.may_leave (store_in journaled.new.register) journaled.new.journal.tape) }
{
    sync(journaled)?;
    hand_on(line, sink)
}

/// Hands all replies on as `hand_on_synced` does, and flushes the sink.
fn flush_synced<D: NextTape, S: Sink>(
    journaled: &mut Journaled<D>,
    line: &mut Line,
    sink: &mut S,
) -> Result<(), Stalled>
    requires ready { IsReady D.Device.seen D.Device.may_leave journaled.old }
    ensures ready { IsReady D.Device.seen D.Device.may_leave journaled.new }
    ensures text { Syncs D.Device.seen D.Device.may_leave D.Device.moment D.Device.left_since journaled.old journaled.new (outgoing line.old.items (S.taken sink.old)) (outgoing line.new.items (S.taken sink.new)) (has_stopped (S.has_stalled sink.new) journaled.new.journal.fault) result }
    ensures empty { OnOk result (line.new.items ≡ []) }
    // Nothing is handed on, or the journal stands for the rows after all events that the replies tell of.
    ensures kept { (sink.new ≡ sink.old) ⊎ IsOnDisk D.Device.seen D.Device.may_leave (store_in journaled.new.register) journaled.new.journal.tape }
    ensures done { OnOk result (IsOnDisk D.Device.seen D.Device.may_leave (store_in journaled.new.register) journaled.new.journal.tape) }
{
    hand_on_synced(journaled, line, sink)?;
    flush_line(line, sink)
}

/// Replies to an event. It returns `Memory` if there is no memory for its line, and then the event isn't done.
fn answer_event<D: NextTape>(
    event: Event,
    journaled: &mut Journaled<D>,
    line: &mut Line,
) -> Result<(), Fault>
    requires ready { IsReady D.Device.seen D.Device.may_leave journaled.old }
    requires room { HasRoom line.old.items }
    ensures ready { IsReady D.Device.seen D.Device.may_leave journaled.new }
    ensures joins { OnOk result ((fields : List (List ℕ)) → JoinsAnswer D.Device.seen D.Device.may_leave fields (Ok (command.Ask event)) journaled.old journaled.new line.old.items line.new.items) }
    ensures refused { OnErr result ((result ≡ Err fault.Memory) × IsUnchanged journaled.old journaled.new × (line.new.items ≡ line.old.items)) }
{
    match journaled.apply(event) {
        Ok(reply) => {
            build_reply(line, &reply);
            Ok(())
        }
        Err(_) => Err(Fault::Memory),
    }
}

/// Replies to a record that asks for a report. The replies so far are handed on first, because a long report hands on by
/// itself what is in the line.
fn report<D: NextTape, S: Sink>(
    report: Report,
    row: &ByteRecord,
    journaled: &mut Journaled<D>,
    line: &mut Line,
    sink: &mut S,
) -> Result<(), Stalled>
    requires named { Some (word_of_report report) ≡ word_named (field (fields_of row.now) 0) }
    requires ready { IsReady D.Device.seen D.Device.may_leave journaled.old }
    requires room { HasRoom line.old.items }
    ensures ready { IsReady D.Device.seen D.Device.may_leave journaled.new }
    ensures text { (r : Result (Unit {0}) Fault) → MatchResult result (λ unit. r ≡ Ok unit) (λ why. r ≡ Err fault.Write)
        → KeepsNext D.Device.seen D.Device.may_leave D.Device.moment D.Device.left_since (fields_of row.now) journaled.old journaled.new (outgoing line.old.items (S.taken sink.old)) (outgoing line.new.items (S.taken sink.new)) (has_stopped (S.has_stalled sink.new) journaled.new.journal.fault) r }
    // Nothing is handed on, or the journal stands for the rows after all events that the replies tell of.
    ensures kept { (sink.new ≡ sink.old) ⊎ IsOnDisk D.Device.seen D.Device.may_leave (store_in journaled.new.register) journaled.new.journal.tape }
{
    hand_on_synced(journaled, line, sink)?;
    answer_report(report, row, journaled.register(), line, sink)
}

/// Replies to a recut: how many bounds it moved, or why it was refused.
///
/// The function is not inlined, because its list of bounds would otherwise be filled with zeros for each event.
#[inline(never)]
fn recut<D: NextTape>(row: &ByteRecord, journaled: &mut Journaled<D>, line: &mut Line)
    requires ready { IsReady D.Device.seen D.Device.may_leave journaled.old }
    requires room { HasRoom line.old.items }
    ensures ready { IsReady D.Device.seen D.Device.may_leave journaled.new }
    ensures joins { JoinsAnswer D.Device.seen D.Device.may_leave (fields_of row.now) (Ok command.Recut) journaled.old journaled.new line.old.items line.new.items }
{
    match read_bounds(row) {
        Ok(bounds) => build_recut(line, journaled.recut_to(bounds.as_slice())),
        Err(why) => build_refused(line, why),
    }
}

/// Replies to a record whose first field is this word.
fn answer_word<D: NextTape, S: Sink>(
    word: Word,
    row: &ByteRecord,
    journaled: &mut Journaled<D>,
    line: &mut Line,
    sink: &mut S,
) -> Result<(), Fault>
    requires named { Some word ≡ word_named (field (fields_of row.now) 0) }
    requires ready { IsReady D.Device.seen D.Device.may_leave journaled.old }
    requires room { HasRoom line.old.items }
    ensures ready { IsReady D.Device.seen D.Device.may_leave journaled.new }
    ensures text { KeepsNext D.Device.seen D.Device.may_leave D.Device.moment D.Device.left_since (fields_of row.now) journaled.old journaled.new (outgoing line.old.items (S.taken sink.old)) (outgoing line.new.items (S.taken sink.new)) (has_stopped (S.has_stalled sink.new) journaled.new.journal.fault) result }
{
    match kind_of(word) {
        Kind::Event => match event_of(word, row) {
            Ok(event) => return answer_event(event, journaled, line),
            Err(why) => build_refused(line, why),
        },
        Kind::Report(asked) => return sink_fault(report(asked, row, journaled, line, sink)),
        Kind::Recut => recut(row, journaled, line),
    }
    Ok(())
}

/// Replies to a record, behind the replies in the line.
fn answer<D: NextTape, S: Sink>(
    row: &ByteRecord,
    journaled: &mut Journaled<D>,
    line: &mut Line,
    sink: &mut S,
) -> Result<(), Fault>
    requires ready { IsReady D.Device.seen D.Device.may_leave journaled.old }
    requires room { HasRoom line.old.items }
    ensures ready { IsReady D.Device.seen D.Device.may_leave journaled.new }
    ensures text { KeepsNext D.Device.seen D.Device.may_leave D.Device.moment D.Device.left_since (fields_of row.now) journaled.old journaled.new (outgoing line.old.items (S.taken sink.old)) (outgoing line.new.items (S.taken sink.new)) (has_stopped (S.has_stalled sink.new) journaled.new.journal.fault) result }
{
    match word_of(field(row, 0)) {
        Some(word) => answer_word(word, row, journaled, line, sink),
        None => {
            build_refused(line, Refusal::Syntax);
            Ok(())
        }
    }
}

/// Replies to the record that was read last. The replies so far are handed on and flushed before a read that may wait,
/// and handed on if there are many of them, or if many bytes of lines wait for a sync.
fn answer_in_time<T: Source, D: NextTape, S: Sink>(
    source: &T,
    row: &ByteRecord,
    journaled: &mut Journaled<D>,
    line: &mut Line,
    sink: &mut S,
) -> Result<(), Fault>
    requires ready { IsReady D.Device.seen D.Device.may_leave journaled.old }
    requires room { HasRoom line.old.items }
    ensures ready { IsReady D.Device.seen D.Device.may_leave journaled.new }
    ensures text { KeepsNext D.Device.seen D.Device.may_leave D.Device.moment D.Device.left_since (fields_of row.now) journaled.old journaled.new (outgoing line.old.items (S.taken sink.old)) (outgoing line.new.items (S.taken sink.new)) (has_stopped (S.has_stalled sink.new) journaled.new.journal.fault) result }
    ensures room { OnOk result (HasRoom line.new.items) }
{
    answer(row, journaled, line, sink)?;
    if !source.has_record() {
        return sink_fault(flush_synced(journaled, line, sink));
    }
    if line.has_room() && journaled.unsynced() < MOST_UNSYNCED {
        return Ok(());
    }
    sink_fault(hand_on_synced(journaled, line, sink))
}

/// Replies to the records of a source in turn, as `answer_all_kept` does. Unless the run ended with `Write`, the last
/// replies are left in the line.
fn answer_records<T: Source, D: NextTape, S: Sink>(
    source: &mut T,
    row: &mut ByteRecord,
    journaled: &mut Journaled<D>,
    line: &mut Line,
    sink: &mut S,
) -> Result<(), Fault>
    requires open { T.is_open source.old }
    requires start { (T.seen.unread source.old).state ≡ state.StartRecord }
    requires ready { IsReady D.Device.seen D.Device.may_leave journaled.old }
    requires settled { IsUnderWay D.Device.seen D.Device.may_leave (store_in journaled.old.register) [] [] journaled.old }
    requires room { HasRoom line.old.items }
    ensures ready { IsReady D.Device.seen D.Device.may_leave journaled.new }
    ensures text { HasComeKept D.Device.seen D.Device.may_leave D.Device.moment D.Device.left_since (λ bytes. StopsBehind T.seen true bytes source.new) (T.seen.unread source.old).bytes (store_in journaled.old.register) journaled.old.journal.tape.device journaled.new (outgoing line.old.items (S.taken sink.old)) (outgoing line.new.items (S.taken sink.new)) (has_stopped (S.has_stalled sink.new) journaled.new.journal.fault) result }
    ensures write { result ≡ Err fault.Write → has_stopped (S.has_stalled sink.new) journaled.new.journal.fault ≡ true }
    ensures field { result ≢ Err fault.Field }
    ensures thread { result ≢ Err fault.Thread }
{
    for count in 0..RECORDS + 1 {
        match source.read(row) {
            Ok(false) => return Ok(()),
            Ok(true) => {
                if count == RECORDS {
                    return Err(Fault::Read);
                }
                answer_in_time(source, row, journaled, line, sink)?;
            }
            Err(why) => return Err(why),
        }
    }
    Err(Fault::Read)
}

/// Replies to the records of a source in turn. Its faults are `Read` if the source fails or has more than 1,048,576
/// records, `Memory` if the source or the line of an event needs memory that is refused, and `Write` if the journal or
/// the sink fails. Unless one of these failed, all records that were read before have their replies, except for the one
/// whose event was refused. Records are read into the row.
fn answer_all<T: Source, D: NextTape, S: Sink>(
    source: &mut T,
    row: &mut ByteRecord,
    journaled: &mut Journaled<D>,
    sink: &mut S,
) -> Result<(), Fault>
    requires open { T.is_open source.old }
    requires start { (T.seen.unread source.old).state ≡ state.StartRecord }
    requires ready { IsReady D.Device.seen D.Device.may_leave journaled.old }
    requires settled { IsUnderWay D.Device.seen D.Device.may_leave (store_in journaled.old.register) [] [] journaled.old }
    ensures ready { IsReady D.Device.seen D.Device.may_leave journaled.new }
    ensures text { RanJournaled D.Device.may_leave D.Device.moment D.Device.left_since (λ bytes. StopsBehind T.seen true bytes source.new) (T.seen.unread source.old).bytes (store_in journaled.old.register) journaled.old.journal.tape.device journaled.new.journal.tape.device (S.taken sink.old) (S.taken sink.new) result }
    ensures kept { result ≢ Err fault.Write → IsOnDisk D.Device.seen D.Device.may_leave (store_in journaled.new.register) journaled.new.journal.tape }
    ensures write { result ≡ Err fault.Write → has_stopped (S.has_stalled sink.new) journaled.new.journal.fault ≡ true }
    ensures field { result ≢ Err fault.Field }
    ensures thread { result ≢ Err fault.Thread }
{
    let mut line = empty_line();
    let done = answer_records(source, row, journaled, &mut line, sink);
    match done {
        Err(Fault::Write) => Err(Fault::Write),
        _ => match hand_on_synced(journaled, &mut line, sink) {
            Ok(()) => done,
            Err(_) => Err(Fault::Write),
        },
    }
}

/// Replies to all records of a reader with a register that has a journal, and flushes the sink. No reply is handed on
/// before the journal has all events up to it, so that no crash takes back what a reply told.
///
/// The faults are those of `run_alone`, except that `Memory` is also returned if there is no memory for the line of an
/// event, and `Write` if the journal can't be written. After `Write`, replies may be missing whose events are in the
/// journal.
///
/// The reader is borrowed twice, so that the calls of `csv` are compiled once for this run, and are inlined into its
/// loop and into those of the other runs.
pub fn run_journaled<R: Read + Drop, D: NextTape, S: Sink>(
    alloc: Global,
    mut reader: R,
    journaled: &mut Journaled<D>,
    sink: &mut S,
) -> Result<(), Fault>
    requires ready { IsReady D.Device.seen D.Device.may_leave journaled.old }
    requires settled { IsUnderWay D.Device.seen D.Device.may_leave (store_in journaled.old.register) [] [] journaled.old }
    ensures ready { IsReady D.Device.seen D.Device.may_leave journaled.new }
    // Records are answered from the rows of the journal on. A crash at any moment leaves the rows after the first so many.
    ensures text { RanJournaled D.Device.may_leave D.Device.moment D.Device.left_since IsStop (option_map strip_bom (R.remaining reader)) (store_in journaled.old.register) journaled.old.journal.tape.device journaled.new.journal.tape.device (S.taken sink.old) (S.taken sink.new) result }
    // All rows of the register are on the disk then.
    ensures kept { result ≢ Err fault.Write → IsOnDisk D.Device.seen D.Device.may_leave (store_in journaled.new.register) journaled.new.journal.tape }
    ensures write { result ≡ Err fault.Write → has_stopped (S.has_stalled sink.new) journaled.new.journal.fault ≡ true }
    ensures field { result ≢ Err fault.Field }
    ensures thread { result ≢ Err fault.Thread }
    ensures flushed { IsFlushedAfter result (S.is_flushed sink.new) }
{
    let mut lent = &mut reader;
    let Ok(mut records) = Records::of(alloc, &mut lent) else {
        return finish(sink, Err(Fault::Memory));
    };
    let mut row = ByteRecord::new(alloc);
    let done = answer_all(&mut records, &mut row, journaled, sink);
    finish(sink, done)
}
