ghost use Rattle.std.specs.Prelude.{⊤, ◌≡◌, ◌<◌, ◌≤◌, ◌++◌, [], ◌∷◌, length, IfOk};
ghost use Rattle.std.proofs.Common.{arith};
ghost use Rattle.journal.specs.Lines.{text, IsWhole};
ghost use Rattle.journal.specs.Tape.{IsOpen};

use super::*;
use std::alloc::Global;
use std::fs;
use std::test::Fail;

/// Keeps the lines that it was given.
#[derive(Drop)]
struct Lines {
    bytes: Vec<u8>,
}

impl Machine for Lines {
    ghost IsReady = { λ _. ⊤ };

    ghost moves = { λ line old new. new.bytes.items ≡ old.bytes.items ++ line ++ 10 ∷ [] };

    ghost IsBad = { λ line at. 4096 ≤ length line };

    ghost too_long = { 4096 };

    fn too_long() -> usize {
        4_096
    }

    fn apply(&mut self, line: &[u8]) -> Result<(), JournalFault> {
        self.bytes.extend_from_slice(line)?;
        self.bytes.push(b'\n')?;
        Ok(())
    }

    ghost some = { omega arith };

    ghost long_is_bad = { λ line at long. long };
}

/// Recovers a file, and returns its journal with its lines.
fn recovered<U: Unread + Drop>(
    alloc: Global,
    mut unread: U,
) -> Result<(Tape<U::File>, Lines), JournalFault>
    requires unread { U.read unread ≡ [] }
    ensures is_open { IfOk result (λ r. IsOpen U.File.seen U.File.may_leave r.0) }
    ensures acknowledged { IfOk result (λ r. r.0.synced ≡ r.0.end) }
    ensures whole { IfOk result (λ r. IsWhole (text (U.File.seen r.0.device))) }
{
    let mut lines = Lines {
        bytes: Vec::new(alloc),
    };
    let ends = replay(alloc, &mut unread, &mut lines)?;
    let mut tape = Tape::new(unread.into_device());
    tape.recover(ends)?;
    Ok((tape, lines))
}

fn in_memory(alloc: Global, image: Vec<u8>) -> Result<(Tape<Memory>, Lines), JournalFault> {
    recovered(alloc, UnreadMemory::new(Memory::new(alloc, image)))
}

#[test]
fn a_torn_line_is_dropped(rt: HostRuntime) -> Result<(), Fail> {
    let alloc = rt.alloc();
    let (tape, lines) = in_memory(alloc, b"one\ntw\0o\n\0\0\0".to_vec(alloc)?)?;
    assert_eq!(rt; lines.bytes.as_slice(), b"one\n".as_slice());
    assert_eq!(rt; tape.device.bytes(), b"one\n\0\0\0\0\0\0\0\0".as_slice());
    Ok(())
}

#[test]
fn bytes_at_hand_are_replayed(rt: HostRuntime) -> Result<(), Fail> {
    let alloc = rt.alloc();
    let mut lines = Lines {
        bytes: Vec::new(alloc),
    };
    let ends = replay_bytes(alloc, b"one\ntw\0o\n\0\0\0", &mut lines)?;
    assert_eq!(rt; lines.bytes.as_slice(), b"one\n".as_slice());
    assert_eq!(rt; (ends.whole, ends.text, ends.len), (4, 6, 12));
    Ok(())
}

#[test]
fn a_text_with_no_fence_is_no_journal(rt: HostRuntime) -> Result<(), Fail> {
    let alloc = rt.alloc();
    let answer = in_memory(alloc, b"one\n".to_vec(alloc)?);
    assert!(rt; matches!(answer, Err(JournalFault::NoJournal)));
    let answer = in_memory(alloc, Vec::new(alloc));
    assert!(rt; matches!(answer, Err(JournalFault::NoJournal)));
    Ok(())
}

/// A file with a line of 50,000 bytes, and some bytes behind it.
fn long_line(alloc: Global, end: &[u8]) -> Result<Vec<u8>, Fail> {
    let mut image = Vec::new(alloc);
    image.resize(50_000, b'a')?;
    image.extend_from_slice(end)?;
    Ok(image)
}

// The line lies in more than one piece of the file.
#[test]
fn a_line_that_is_too_long_counts_only_with_a_line_feed(rt: HostRuntime) -> Result<(), Fail> {
    let alloc = rt.alloc();
    let answer = in_memory(alloc, long_line(alloc, b"\n\0")?);
    assert!(rt; matches!(answer, Err(JournalFault::BadLine)));
    let (tape, lines) = in_memory(alloc, long_line(alloc, b"\0")?)?;
    assert!(rt; lines.bytes.is_empty());
    assert!(rt; tape.device.bytes().iter().all(|byte| *byte == 0));
    Ok(())
}

#[test]
fn only_whole_lines_are_a_group(rt: HostRuntime) {
    let groups = [
        (b"".as_slice(), true),
        (b"\n".as_slice(), true),
        (b"one\ntwo\n".as_slice(), true),
        (b"one\ntwo".as_slice(), false),
        (b"one\n\0\n".as_slice(), false),
    ];
    for (bytes, is) in groups {
        assert!(rt; is_group(bytes) == is);
    }
}

/// What is left of two lines of four bytes each, if the first lost byte is this one.
fn left_of(lost: u32) -> &'static [u8] {
    match lost {
        0..4 => b"one\n",
        4..8 => b"one\ntwo\n",
        _ => b"one\ntwo\nsix\n",
    }
}

// A crash may lose each byte of a group by itself.
#[test]
fn each_subset_of_a_group_is_lost(rt: HostRuntime) -> Result<(), Fail> {
    let alloc = rt.alloc();
    for lost in 0..256u32 {
        let mut image = b"one\ntwo\nsix\n\0\0".to_vec(alloc)?;
        let mut rest = lost;
        for byte in &mut image[4..12] {
            if rest % 2 == 1 {
                *byte = 0;
            }
            rest /= 2;
        }
        let want = left_of(lost.trailing_zeros());
        let (tape, lines) = in_memory(alloc, image)?;
        assert_eq!(rt; lines.bytes.as_slice(), want);
        assert!(rt; tape.device.bytes().starts_with(want));
    }
    Ok(())
}

const FOLDER: &str = "journal_test";

const PATH: &str = "journal_test/a";

#[test]
fn lines_are_there_after_a_restart(rt: HostRuntime) -> Result<(), Fail> {
    let alloc = rt.alloc();
    let _ = fs::remove_dir_all(&rt, FOLDER);
    fs::create_dir(&rt, FOLDER)?;
    let (mut tape, lines) = recovered(alloc, open(&rt, PATH)?)?;
    assert!(rt; lines.bytes.is_empty());
    tape.commit(b"one\n")?;
    tape.commit(b"two\nsix\n")?;
    drop(tape);
    let (mut tape, lines) = recovered(alloc, open(&rt, PATH)?)?;
    assert_eq!(rt; lines.bytes.as_slice(), b"one\ntwo\nsix\n".as_slice());
    tape.append(b"seven\n")?;
    drop((tape, lines));
    let (_, lines) = recovered(alloc, open(&rt, PATH)?)?;
    assert_eq!(rt;
        lines.bytes.as_slice(),
        b"one\ntwo\nsix\nseven\n".as_slice()
    );
    fs::remove_dir_all(&rt, FOLDER)?;
    Ok(())
}

const SHORT: &str = "journal_test_short";

const LONG: &str = "journal_test_short/a";

#[test]
fn a_short_journal_takes_the_place_of_a_long_one(rt: HostRuntime) -> Result<(), Fail> {
    let alloc = rt.alloc();
    let _ = fs::remove_dir_all(&rt, SHORT);
    fs::create_dir(&rt, SHORT)?;
    let (mut tape, _) = recovered(alloc, open(&rt, LONG)?)?;
    tape.commit(b"one\ntwo\n")?;
    let (mut next, _) = recovered(alloc, open_next(&tape.device)?)?;
    next.commit(b"three\n")?;
    compact(&mut tape, next)?;
    assert!(rt; matches!(open(&rt, LONG), Err(JournalFault::Locked)));
    assert!(rt; !fs::exists(&rt, "journal_test_short/a.next")?);
    tape.append(b"four\n")?;
    tape.sync()?;
    drop(tape);
    let (_, lines) = recovered(alloc, open(&rt, LONG)?)?;
    assert_eq!(rt; lines.bytes.as_slice(), b"three\nfour\n".as_slice());
    fs::remove_dir_all(&rt, SHORT)?;
    Ok(())
}
