//! Opens, makes and locks files. A lock belongs to an open file, so the system lets it go when a process ends, and no
//! lock is ever stale.
ghost use Rattle.std.specs.Prelude.{◌≡◌, [], IfOk};
ghost use Rattle.journal_file.specs.Noted.{noted_read};

use crate::JournalFault;
use crate::disk::{Disk, NamedFile, Place, UnreadDisk};
use crate::noted::{ROOM, UnreadNoted, write_zeros};
use std::fs::{self, File, OpenOptions, TryLockError};
use std::io::{self, ErrorKind};
use std::os::unix::fs::MetadataExt;
use std::path::PathBuf;

impl From<io::Error> for JournalFault {
    fn from(error: io::Error) -> Self {
        if error.kind() == ErrorKind::OutOfMemory {
            return JournalFault::Memory;
        }
        JournalFault::Failed
    }
}

/// Opens the file at a path, and makes it with zeros if there is none. It is locked until it is dropped. A file that
/// [`open_next`] left in its folder is removed. Gives up with `Locked` if another handle has the file, with `NoJournal`
/// if it is no regular file, and with `Memory` or `Failed`.
pub fn open(runtime: &HostRuntime, path: &str) -> Result<UnreadDisk, JournalFault>
    ensures read { IfOk result (λ unread. noted_read unread ≡ []) }
{
    let place = place_of(runtime, find_or_make(runtime, path)?)?;
    let file = open_locked(&place)?;
    let _ = fs::remove_file(runtime, next_path(&place)?.as_str());
    file.sync_all()?;
    place.folder.sync_all()?;
    Ok(UnreadNoted::new(NamedFile { file, place }))
}

/// Makes a file of zeros in the folder of another one, under its name with `.next` behind it, so that it can take the
/// other's place. Gives up as [`open`] does.
pub fn open_next(file: &Disk) -> Result<UnreadDisk, JournalFault>
    ensures read { IfOk result (λ unread. noted_read unread ≡ []) }
{
    let place = &file.file.place;
    let path = next_path(place)?;
    let file = make_blank(&place.runtime, path.as_str())?;
    let place = place_of(&place.runtime, path)?;
    Ok(UnreadNoted::new(NamedFile { file, place }))
}

fn next_path(place: &Place) -> Result<PathBuf, JournalFault> {
    let path = format!(in place.runtime.alloc(); "{}.next", place.path.as_str())?;
    Ok(PathBuf::from(path))
}

fn place_of(runtime: &HostRuntime, path: PathBuf) -> Result<Place, JournalFault> {
    let mut folder = PathBuf::from_str(runtime.alloc(), path.as_str())?;
    folder.pop();
    Ok(Place {
        runtime: *runtime,
        folder: File::open(runtime, folder.as_str())?,
        path,
    })
}

/// Returns the path with no link in it.
fn find_or_make(runtime: &HostRuntime, path: &str) -> Result<PathBuf, JournalFault> {
    match fs::canonicalize(runtime, path) {
        Err(error) if error.kind() == ErrorKind::NotFound => make(runtime, path)?,
        found => return Ok(found?),
    }
    Ok(fs::canonicalize(runtime, path)?)
}

/// Makes a file whose zeros are on the disk before it has its name. Another process may have made it meanwhile.
fn make(runtime: &HostRuntime, path: &str) -> Result<(), JournalFault> {
    let new_path = format!(in runtime.alloc(); "{path}.new")?;
    let file = open_or_create(runtime, new_path.as_str())?;
    lock(&file)?;
    if fs::exists(runtime, path)? {
        let _ = fs::remove_file(runtime, new_path.as_str());
        return Ok(());
    }
    fill(&file)?;
    fs::rename(runtime, new_path.as_str(), path)?;
    Ok(())
}

fn make_blank(runtime: &HostRuntime, path: &str) -> Result<File, JournalFault> {
    let file = open_or_create(runtime, path)?;
    lock(&file)?;
    fill(&file)?;
    Ok(file)
}

fn fill(file: &File) -> Result<(), JournalFault> {
    file.set_len(0)?;
    write_zeros(file, 0, ROOM)?;
    file.sync_all()?;
    Ok(())
}

/// Opens a file, or makes it. Gives up with `Failed` if the path is a link, which may lead to any file, or no regular
/// file, and as [`open`] does.
fn open_or_create(runtime: &HostRuntime, path: &str) -> Result<File, JournalFault> {
    if let Ok(found) = fs::symlink_metadata(runtime, path) {
        if !found.is_file() {
            return Err(JournalFault::Failed);
        }
    }
    let file = OpenOptions::new()
        .read(true)
        .write(true)
        .create(true)
        .open(runtime, path)?;
    Ok(file)
}

/// Opens and locks the file that has the name by then.
fn open_locked(place: &Place) -> Result<File, JournalFault> {
    let path = place.path.as_str();
    if !fs::metadata(&place.runtime, path)?.is_file() {
        return Err(JournalFault::NoJournal);
    }
    let file = OpenOptions::new()
        .read(true)
        .write(true)
        .open(&place.runtime, path)?;
    lock(&file)?;
    let (opened, named) = (file.metadata()?, fs::metadata(&place.runtime, path)?);
    if opened.dev() != named.dev() || opened.ino() != named.ino() {
        return Err(JournalFault::Locked);
    }
    Ok(file)
}

fn lock(file: &File) -> Result<(), JournalFault> {
    match file.try_lock() {
        Ok(()) => Ok(()),
        Err(TryLockError::WouldBlock) => Err(JournalFault::Locked),
        Err(TryLockError::Error(_)) => Err(JournalFault::Failed),
    }
}
