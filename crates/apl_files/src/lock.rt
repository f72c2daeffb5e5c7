//! One run at a time.

use crate::error::FileError;
use std::fs::{self, File, OpenOptions, TryLockError};
use std::io;
use std::os::unix::fs::MetadataExt;
use std::path::PathBuf;

/// How often a lock's file is looked for that another run removes at the same time.
const TRIES: u32 = 1_000;

/// A file that this run locks, and that it made or found. No byte of it counts.
#[derive(Drop)]
pub(crate) struct Lock {
    file: File,
    path: PathBuf,
    is_made: bool,
}

/// Opens the file, which is made if it isn't there; `None` where it goes at the same time.
fn opened(rt: &HostRuntime, path: &PathBuf) -> io::Result<Option<(File, bool)>> {
    let mut options = OpenOptions::new();
    options.write(true).create_new(true);
    match options.open(rt, path.as_path()) {
        Ok(file) => return Ok(Some((file, true))),
        Err(error) if error.kind() == io::ErrorKind::AlreadyExists => {}
        Err(error) => return Err(error),
    }
    if !fs::symlink_metadata(rt, path.as_path()).is_ok_and(|found| found.is_file()) {
        return Ok(None);
    }
    match File::open(rt, path.as_path()) {
        Ok(file) => Ok(Some((file, false))),
        Err(error) if error.kind() == io::ErrorKind::NotFound => Ok(None),
        Err(error) => Err(error),
    }
}

/// Whether the file still has this path.
fn stands(rt: &HostRuntime, file: &File, path: &PathBuf) -> bool {
    match (file.metadata(), fs::symlink_metadata(rt, path.as_path())) {
        (Ok(open), Ok(found)) => open.ino() == found.ino() && open.dev() == found.dev(),
        _ => false,
    }
}

/// Locks the file of this path. Where the file system knows no locks it is held all the same.
pub(crate) fn take_lock(rt: &HostRuntime, path: PathBuf) -> Result<Lock, FileError> {
    for _ in 0..TRIES {
        let found = opened(rt, &path).map_err(|error| FileError::refused(&error))?;
        let Some((file, is_made)) = found else {
            continue
        };
        if let Err(TryLockError::WouldBlock) = file.try_lock() {
            return Err(FileError::InUse);
        }
        if stands(rt, &file, &path) {
            return Ok(Lock {
                file,
                path,
                is_made,
            });
        }
    }
    Err(FileError::Refused)
}

impl Lock {
    /// Lets it go. The file is removed if this run made it, before another can lock it.
    pub(crate) fn release(self, rt: &HostRuntime) {
        if self.is_made && stands(rt, &self.file, &self.path) {
            let _ = fs::remove_file(rt, self.path.as_path());
        }
    }
}
