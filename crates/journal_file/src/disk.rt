//! A file that this crate has opened by its name, over `std::fs`.
ghost use Rattle.std.specs.Prelude.{◌≡◌, ◌<◌, ◌≤◌, length, IfOk};

use crate::noted::{Noted, SystemFile, UnreadNoted};
use crate::record::{Record, Step};
use crate::{JournalFault, Replace};
use std::fs::{File, rename};
use std::io;
use std::os::unix::fs::FileExt;
use std::path::PathBuf;

const MAX_OFFSET: usize = (1 << 63) - 1;

/// Reads a file of the operating system from its front to its end. It is locked until it is dropped.
pub type UnreadDisk = UnreadNoted<NamedFile>;

/// Writes a file of the operating system. It stays locked until it is dropped.
pub type Disk = Noted<NamedFile>;

/// The name of a file, and the folder that it stands in. A renaming is on the disk once the folder is synced.
#[derive(Drop)]
pub(crate) struct Place {
    pub runtime: HostRuntime,
    pub path: PathBuf,
    pub folder: File,
}

/// A file with its name.
#[derive(Drop)]
pub struct NamedFile {
    pub(crate) file: File,
    pub(crate) place: Place,
}

impl SystemFile for File {
    fn read_some(&self, at: usize, buffer: &mut [u8]) -> Result<usize, JournalFault> {
        if at > MAX_OFFSET {
            return Err(JournalFault::Failed);
        }
        Ok(self.read_at(buffer, at as u64)?)
    }

    fn write_some(&self, at: usize, bytes: &[u8]) -> Result<usize, JournalFault> {
        if at > MAX_OFFSET {
            return Err(JournalFault::Failed);
        }
        let put = self.write_at(bytes, at as u64)?;
        if put == 0 {
            return Err(JournalFault::Failed);
        }
        Ok(put)
    }

    fn sync(&self) -> Result<(), JournalFault> {
        Ok(self.sync_data()?)
    }
}

impl SystemFile for NamedFile {
    fn read_some(&self, at: usize, buffer: &mut [u8]) -> Result<usize, JournalFault> {
        self.file.read_some(at, buffer)
    }

    fn write_some(&self, at: usize, bytes: &[u8]) -> Result<usize, JournalFault> {
        self.file.write_some(at, bytes)
    }

    fn sync(&self) -> Result<(), JournalFault> {
        self.file.sync()
    }
}

/// Gives the name of a file to another one, whose own name is then gone, and syncs the folder.
fn take_place(place: &Place, next: &Place) -> io::Result<()> {
    rename(&place.runtime, next.path.as_str(), place.path.as_str())?;
    place.folder.sync_all()
}

impl Replace for Disk {
    fn replace(&mut self, next: Disk) -> Result<(), JournalFault> {
        if take_place(&self.file.place, &next.file.place).is_err() {
            let step = Step::Replaced { is_done: false };
            self.log = Record::with(&self.log, &step, &next.log);
            return Err(JournalFault::Failed);
        }
        let step = Step::Replaced { is_done: true };
        self.log = Record::with(&self.log, &step, &next.log);
        self.file.file = next.file.file;
        self.len = next.len;
        Ok(())
    }
}
