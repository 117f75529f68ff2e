use super::*;
use std::fs;
use std::os::unix::fs::symlink;
use std::test::Fail;

const FOLDER: &str = "journal_file_test";

const PATH: &str = "journal_file_test/a";

/// Reads a file to its end and tells how many bytes it has.
fn read_all(unread: &mut UnreadDisk) -> Result<usize, JournalFault> {
    let mut buffer = [0; 1000];
    let mut len = 0usize;
    for _ in 0..1000 {
        let n = unread.read_on(&mut buffer)?;
        if n == 0 {
            return Ok(len);
        }
        len = len.saturating_add(n);
    }
    Err(JournalFault::Full)
}

#[test]
fn a_file_is_made_with_zeros_and_locked(rt: HostRuntime) -> Result<(), Fail> {
    let _ = fs::remove_dir_all(&rt, FOLDER);
    fs::create_dir(&rt, FOLDER)?;
    let mut unread = open(&rt, PATH)?;
    assert_eq!(rt; read_all(&mut unread)?, 65_536);
    assert!(rt; matches!(open(&rt, PATH), Err(JournalFault::Locked)));
    drop(unread);
    let zeros = fs::read(&rt, PATH)?;
    assert!(rt; zeros.iter().all(|byte| *byte == 0));
    assert!(rt; !fs::exists(&rt, "journal_file_test/a.new")?);
    fs::write(&rt, "journal_file_test/a.next", b"left".as_slice())?;
    let mut unread = open(&rt, PATH)?;
    assert_eq!(rt; read_all(&mut unread)?, 65_536);
    assert!(rt; !fs::exists(&rt, "journal_file_test/a.next")?);
    assert!(rt; matches!(open(&rt, FOLDER), Err(JournalFault::NoJournal)));
    assert!(rt; matches!(open(&rt, "no_such_folder/a"), Err(JournalFault::Failed)));
    fs::remove_dir_all(&rt, FOLDER)?;
    Ok(())
}

const LINKS: &str = "journal_file_links";

#[test]
fn no_link_is_written_to(rt: HostRuntime) -> Result<(), Fail> {
    let _ = fs::remove_dir_all(&rt, LINKS);
    fs::create_dir(&rt, LINKS)?;
    fs::write(&rt, "journal_file_links/other", b"other".as_slice())?;
    symlink(&rt, "other", "journal_file_links/a.new")?;
    assert!(rt; matches!(open(&rt, "journal_file_links/a"), Err(JournalFault::Failed)));
    let other = fs::read(&rt, "journal_file_links/other")?;
    assert_eq!(rt; other.as_slice(), b"other".as_slice());
    assert!(rt; !fs::exists(&rt, "journal_file_links/a")?);
    fs::remove_dir_all(&rt, LINKS)?;
    Ok(())
}

#[test]
fn an_owner_is_handed_each_call_in_order(rt: HostRuntime) -> Result<(), Fail> {
    let mut file = Relayed::new(rt.alloc(), 3, b"one\n");
    file.reserve(2)?;
    file.write_at(2, b"xy")?;
    file.blank(0)?;
    file.grow(8)?;
    file.sync()?;
    assert_eq!(rt; file.fd(), 3);
    assert_eq!(rt; file.owed().len(), 4);
    let [write, blank, grow, sync] = file.owed() else {
        return Ok(());
    };
    assert!(rt;
        matches!(
            write.step,
            Step::Wrote {
                at: 2,
                is_done: true
            }
        )
    );
    assert_eq!(rt; (write.from, write.to), (2, 4));
    assert_eq!(rt; write.bytes.as_slice(), b"xy".as_slice());
    assert!(rt;
        matches!(
            blank.step,
            Step::Blanked {
                from: 0,
                is_done: true
            }
        )
    );
    assert_eq!(rt; (blank.from, blank.to), (0, 4));
    assert!(rt;
        matches!(
            grow.step,
            Step::Grew {
                more: 8,
                is_done: true
            }
        )
    );
    assert_eq!(rt; (grow.from, grow.to), (4, 12));
    assert!(rt; matches!(sync.step, Step::Synced { is_done: true }));
    file.note_made();
    assert!(rt; file.owed().is_empty());
    Ok(())
}
