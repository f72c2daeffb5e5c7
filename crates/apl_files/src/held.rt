//! A file that one run holds until it has saved in it.

use crate::content::{content, may_replace};
use crate::error::FileError;
use crate::fresh::make_fresh;
use crate::keeping::{keep, sync_folder, write_whole};
use crate::lock::{Lock, take_lock};
use crate::place::{Place, place_of};
use crate::rights::give;
use std::alloc::AllocError;
use std::fs::{self, File, OpenOptions};
use std::io;
use std::path::Path;

/// A file that this run alone may save in.
#[derive(Drop)]
pub struct Held {
    place: Place,
    lock: Lock,
    /// What it held as the run began.
    before: Option<[u8; 32]>,
}

/// The name of a file beside the one of this name that users don't see in a listing.
fn hidden(rt: &HostRuntime, name: &str, end: &str) -> Result<String, AllocError> {
    format!(in rt.alloc(); ".{name}.apl-{end}").map_err(|_| AllocError)
}

/// What the file of a place holds, where new bytes may take its place: what stands there may be read and written, and a new file can
/// be made beside it.
fn content_to_replace(rt: &HostRuntime, place: &Place) -> io::Result<Option<[u8; 32]>> {
    let path = place.path(rt)?;
    let before = content(rt, path.as_path())?;
    if before.is_some() {
        OpenOptions::new().write(true).open(rt, path.as_path())?;
    }
    let name = hidden(rt, place.name.as_str(), "new-")?;
    make_fresh(rt, place.folder.as_path(), name.as_str())?.remove(rt);
    Ok(before)
}

/// Writes bytes to a file, which gets the rights of the one that stands at this path, if one does.
fn write_alike(rt: &HostRuntime, file: &mut File, path: Path<'_>, bytes: &[u8]) -> io::Result<()> {
    if let Ok(old) = fs::symlink_metadata(rt, path) {
        give(file, &old)?;
    }
    write_whole(file, bytes)
}

impl Held {
    /// Holds the file that a path names through links, before any of the run's input is read.
    ///
    /// # Errors
    ///
    /// `InUse` where another run holds it; `Refused` where it can't be saved in; `Memory`.
    pub fn hold(rt: &HostRuntime, path: &str) -> Result<Held, FileError> {
        let place = place_of(rt, path).map_err(|error| FileError::refused(&error))?;
        let name = hidden(rt, place.name.as_str(), "lock")?;
        let lock = take_lock(rt, place.folder.as_path().join(rt.alloc(), name.as_str())?)?;
        match content_to_replace(rt, &place) {
            Ok(before) => Ok(Held {
                place,
                lock,
                before,
            }),
            Err(error) => {
                lock.release(rt);
                Err(FileError::refused(&error))
            }
        }
    }

    /// Has a new file that is written whole take the place of the old one, unless that has changed: then it tells `false`.
    fn put(&self, rt: &HostRuntime, new: Path<'_>, path: Path<'_>) -> io::Result<bool> {
        let is_same = may_replace(&self.before, &content(rt, path)?);
        if is_same {
            fs::rename(rt, new, path)?;
        }
        Ok(is_same)
    }

    /// Has bytes stand in the file, whole or not at all, unless it has changed: then it tells `false`.
    fn replace(&self, rt: &HostRuntime, bytes: &[u8]) -> io::Result<bool> {
        let (path, folder) = (self.place.path(rt)?, self.place.folder.as_path());
        let name = hidden(rt, self.place.name.as_str(), "new-")?;
        let mut new = make_fresh(rt, folder, name.as_str())?;
        let written = write_alike(rt, &mut new.file, path.as_path(), bytes);
        match written.and_then(|()| self.put(rt, new.path.as_path(), path.as_path())) {
            Ok(true) => sync_folder(rt, folder).map(|()| true),
            other => {
                new.remove(rt);
                other
            }
        }
    }

    /// Has these bytes stand in the file.
    ///
    /// # Errors
    ///
    /// `Changed` where it no longer holds what it held as the run began, and `Failed` where the bytes can't be written: they stand in
    /// another file, which the error names. `Lost` where no other takes them. The file itself holds what it held.
    pub fn save(&self, rt: &HostRuntime, bytes: &[u8]) -> Result<(), FileError> {
        let error = match self.replace(rt, bytes) {
            Ok(true) => return Ok(()),
            Ok(false) => None,
            Err(error) => Some(error),
        };
        match (error, keep(rt, &self.place, bytes)) {
            (None, Some(path)) => Err(FileError::Changed(path)),
            (Some(error), Some(path)) => Err(FileError::Failed(error, path)),
            (Some(error), None) => Err(FileError::Lost(error)),
            (None, None) => Err(FileError::Lost(io::Error::from(io::ErrorKind::ResourceBusy))),
        }
    }

    /// Lets the file go.
    pub fn release(self, rt: &HostRuntime) {
        self.lock.release(rt);
    }
}
