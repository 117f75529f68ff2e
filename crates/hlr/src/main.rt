//! A home location register that reads commands from standard input, and writes a reply to each to standard output. A
//! record costs its reading by `csv` and its event, and its reply waits for no later record. All rows are in memory, and
//! are lost when the program ends, unless a journal keeps them.
#![tactic(auto)]

ghost use Rattle.std.specs.Prelude.{◌≡◌, [], IfErr, IfOk};
ghost use Rattle.hlr_kept.specs.Opened.{HasItsRows, IsGivenBack};
ghost use Rattle.hlr_kept.specs.UnderWay.{IsReady, IsUnderWay};
ghost use Rattle.hlr_owners.specs.Owners.{book_in, store_in};

mod answers;
mod edits;
mod events;
mod fault;
mod fields;
mod journaled;
mod lines;
mod options;
mod owed;
mod parts;
mod records;
mod reports;
mod run;
mod sink;
mod source;
#[cfg(test)]
mod tests;
mod whole_records;

use clap::error::ErrorKind;
use fault::{Fault, UNWRITTEN, opening_words};
use hlr_core::Register;
use hlr_kept::{GivenBack, Journaled, NotOpened};
use journal_file::{JournalFault, Unread};
use journaled::run_journaled;
use options::{Options, read_options};
use run::run;
use sink::Out;
use std::alloc::Global;
use std::env::{self, Env};
use std::io;
use std::process::ExitCode;
use std::sync::Wait;
use std::thread::Threads;

/// Writes the line of a fault to standard error, and returns the program's status for it.
fn fail(rt: &impl Eprint, fault: Fault) -> ExitCode {
    let words = fault.words();
    let _ = eprintln!(rt; "hlr: {words}");
    ExitCode::FAILURE
}

/// Writes why the options were refused: to standard output if help or the version was asked for, and otherwise to
/// standard error.
fn refuse<R: Print + Eprint>(rt: &R, error: &clap::Error) -> ExitCode {
    if error.kind() == ErrorKind::OutOfMemory {
        return fail(rt, Fault::Memory);
    }
    if error.print(rt).is_err() {
        return fail(rt, Fault::Write);
    }
    if error.use_stderr() {
        ExitCode::from(2)
    } else {
        ExitCode::SUCCESS
    }
}

/// Reads the words with which the program was started.
#[inline(never)]
fn words_of<R: Env + AllocGlobal + Eprint>(rt: &R) -> Result<Vec<String>, ExitCode> {
    match env::args(rt) {
        Ok(args) => args
            .collect::<Vec<String>>(rt.alloc())
            .map_err(|_| fail(rt, Fault::Memory)),
        Err(error) if error.kind() == io::ErrorKind::OutOfMemory => Err(fail(rt, Fault::Memory)),
        Err(_) => {
            let _ = eprintln!(rt; "hlr: an option is no text");
            Err(ExitCode::from(2))
        }
    }
}

/// Lends the texts of words.
fn texts_of<'a, R: AllocGlobal + Eprint>(
    rt: &R,
    words: &'a [String],
) -> Result<Vec<&'a str>, ExitCode> {
    let mut texts = Vec::new(rt.alloc());
    for word in words {
        if texts.push(word.as_str()).is_err() {
            return Err(fail(rt, Fault::Memory));
        }
    }
    Ok(texts)
}

/// Reads the options from these words. `--journal` and `--threads` are refused together.
#[inline(never)]
fn options_of<'a, R: AllocGlobal + Print + Eprint>(
    rt: &R,
    words: &'a [&'a str],
) -> Result<Options<'a>, ExitCode> {
    let options = read_options(rt.alloc(), words).map_err(|error| refuse(rt, &error))?;
    if options.threads && options.journal.is_some() {
        let _ = eprintln!(rt; "hlr: --journal can't be used with --threads");
        return Err(ExitCode::from(2));
    }
    Ok(options)
}

/// Replies to standard input on standard output. The replies so far are flushed before a read that may wait, and at the
/// end, unless the run ended with `Field` or `Write`.
#[inline(never)]
fn answer_input<R: AllocGlobal + Input + Print + Threads + Wait + Copy + Send + Sync + 'static>(
    rt: &R,
    options: &Options<'_>,
) -> Result<(), Fault> {
    let mut sink = Out::new(io::writer(rt));
    run(
        rt,
        rt.alloc(),
        rt.reader(),
        &mut sink,
        options.parts,
        options.width,
        options.threads,
    )
}

/// How many bytes a megabyte of `--snapshot-at` has.
const MEGABYTE: usize = 1 << 20;

/// Opens a register as the options say, with its rows from a journal.
#[inline(never)]
fn open_journaled<U: Unread + Drop>(
    alloc: Global,
    options: &Options<'_>,
    unread: U,
) -> Result<Journaled<U::File>, NotOpened<U, U::File>>
    requires unread { U.read unread ≡ [] }
    ensures ready { IfOk result (λ now. IsReady U.File.seen U.File.may_leave now) }
    ensures settled { IfOk result (λ now. IsUnderWay U.File.seen U.File.may_leave (store_in now.register) [] [] now) }
    ensures rows { IfOk result (λ now. HasItsRows U.IsReadOn U.IsRead U.read U.file U.File.moment U.File.left_since unread (book_in now.register.owners) now.journal.tape.device) }
    ensures given_back { IfErr result (λ back. IsGivenBack U.IsReadOn U.IsRead U.read U.file U.File.moment U.File.left_since U.faults U.File.faults unread back.why back.file) }
{
    match Register::open(alloc, options.parts, options.width) {
        Ok(register) => hlr_kept::open(alloc, register, unread),
        Err(_) => {
            let file = GivenBack::Unread(unread);
            Err(NotOpened {
                why: JournalFault::Memory,
                file,
            })
        }
    }
}

/// Prints why a journal can't be used, and returns the status of a failure.
fn refuse_journal<R: Eprint>(rt: &R, why: JournalFault) -> ExitCode {
    let words = opening_words(why);
    let _ = eprintln!(rt; "hlr: {words}");
    ExitCode::FAILURE
}

/// Replies to standard input as `answer_input` does, with a register that keeps its rows in the journal at a path, which
/// is made if there is none. Returns the program's status.
#[inline(never)]
fn answer_kept(rt: &HostRuntime, options: &Options<'_>, path: &str) -> ExitCode {
    let unread = match journal_file::open(rt, path) {
        Ok(unread) => unread,
        Err(why) => return refuse_journal(rt, why),
    };
    let mut journaled = match open_journaled(rt.alloc(), options, unread) {
        Ok(journaled) => journaled,
        Err(back) => return refuse_journal(rt, back.why),
    };
    journaled.compact_from((options.snapshot_at as usize).saturating_mul(MEGABYTE));
    let mut sink = Out::new(io::writer(rt));
    match run_journaled(rt.alloc(), rt.reader(), &mut journaled, &mut sink) {
        Ok(()) => ExitCode::SUCCESS,
        // A journal that failed gives up at each call from then on.
        Err(Fault::Write) if journaled.sync().is_err() => {
            let words = UNWRITTEN;
            let _ = eprintln!(rt; "hlr: {words}");
            ExitCode::FAILURE
        }
        Err(fault) => fail(rt, fault),
    }
}

fn main(rt: HostRuntime) -> ExitCode {
    let words = match words_of(&rt) {
        Ok(words) => words,
        Err(status) => return status,
    };
    let texts = match texts_of(&rt, words.as_slice()) {
        Ok(texts) => texts,
        Err(status) => return status,
    };
    let options = match options_of(&rt, texts.as_slice()) {
        Ok(options) => options,
        Err(status) => return status,
    };
    if let Some(path) = options.journal {
        return answer_kept(&rt, &options, path);
    }
    match answer_input(&rt, &options) {
        Ok(()) => ExitCode::SUCCESS,
        Err(fault) => fail(&rt, fault),
    }
}
