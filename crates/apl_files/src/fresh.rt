//! New files, under names that no file has.

use std::fs::{self, File, OpenOptions};
use std::io;
use std::os::unix::fs::OpenOptionsExt;
use std::path::{Path, PathBuf};

/// The most names that are tried.
const TRIES: u32 = 10_000;

/// A file that this run made.
#[derive(Drop)]
pub(crate) struct Fresh {
    pub(crate) file: File,
    pub(crate) path: PathBuf,
}

impl Fresh {
    /// Removes it.
    pub(crate) fn remove(self, rt: &HostRuntime) {
        let _ = fs::remove_file(rt, self.path.as_path());
    }
}

/// Makes a file in a folder, under the name that begins with these words and ends with the first number whose name no file has.
/// No other user may read it.
pub(crate) fn make_fresh(rt: &HostRuntime, folder: Path<'_>, name: &str) -> io::Result<Fresh> {
    for number in 1..=TRIES {
        let numbered = format!(in rt.alloc(); "{name}{number}")?;
        let path = folder.join(rt.alloc(), numbered.as_str())?;
        let mut options = OpenOptions::new();
        options.write(true).create_new(true).mode(0o600);
        match options.open(rt, path.as_path()) {
            Ok(file) => return Ok(Fresh { file, path }),
            Err(error) if error.kind() == io::ErrorKind::AlreadyExists => {}
            Err(error) => return Err(error),
        }
    }
    Err(io::Error::from(io::ErrorKind::AlreadyExists))
}
