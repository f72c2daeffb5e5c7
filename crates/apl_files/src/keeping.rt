//! Bytes that are kept elsewhere.

use crate::fresh::{Fresh, make_fresh};
use crate::place::Place;
use std::env;
use std::fs::{self, File};
use std::io::{self, Write};
use std::path::{Path, PathBuf};

/// Writes bytes to the disk.
pub(crate) fn write_whole(file: &mut File, bytes: &[u8]) -> io::Result<()> {
    file.write_all(bytes)?;
    file.sync_all()
}

/// Has the disk know which names a folder holds. Where a folder can't be opened for that, it is left to the system.
pub(crate) fn sync_folder(rt: &HostRuntime, folder: Path<'_>) -> io::Result<()> {
    match File::open(rt, folder) {
        Ok(opened) => opened.sync_all(),
        Err(_) => Ok(()),
    }
}

/// Keeps bytes in a new file of a folder, and gives its path.
fn keep_in(rt: &HostRuntime, folder: Path<'_>, name: &str, bytes: &[u8]) -> io::Result<String> {
    let Fresh { mut file, path } = make_fresh(rt, folder, name)?;
    match write_whole(&mut file, bytes).and_then(|()| sync_folder(rt, folder)) {
        Ok(()) => Ok(path.into_string()),
        Err(error) => {
            let _ = fs::remove_file(rt, path.as_path());
            Err(error)
        }
    }
}

/// The folders in which bytes may be kept beside the file's own: the one for what is temporary, the user's, and where the run is.
fn others(rt: &HostRuntime) -> [Option<PathBuf>; 3] {
    [
        env::temp_dir(rt).ok(),
        env::home_dir(rt).ok().flatten(),
        env::current_dir(rt).ok(),
    ]
}

/// Keeps bytes in a new file beside the one of this place, or else in the first folder that takes them, and gives its path.
pub(crate) fn keep(rt: &HostRuntime, place: &Place, bytes: &[u8]) -> Option<String> {
    let name = format!(in rt.alloc(); "{}.kept-", place.name).ok()?;
    if let Ok(path) = keep_in(rt, place.folder.as_path(), name.as_str(), bytes) {
        return Some(path);
    }
    for folder in others(rt).iter().flatten() {
        if let Ok(path) = keep_in(rt, folder.as_path(), name.as_str(), bytes) {
            return Some(path);
        }
    }
    None
}
