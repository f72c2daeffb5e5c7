//! Where a file stands.

use std::path::{Path, PathBuf};
use std::{fs, io};

/// The most links that are followed one after the other.
const LINKS: usize = 40;

/// Where a file stands, or would: the folder, in whose path no link is, and the name in it.
#[derive(Drop)]
pub(crate) struct Place {
    pub(crate) folder: PathBuf,
    pub(crate) name: String,
}

impl Place {
    /// The path of the file.
    pub(crate) fn path(&self, rt: &HostRuntime) -> io::Result<PathBuf> {
        Ok(self.folder.as_path().join(rt.alloc(), self.name.as_str())?)
    }
}

/// What a link names, from the folder that it stands in.
fn followed(rt: &HostRuntime, link: &PathBuf, named: &PathBuf) -> io::Result<PathBuf> {
    match link.as_path().parent() {
        Some(folder) => Ok(folder.join(rt.alloc(), named.as_str())?),
        None => Ok(PathBuf::from_str(rt.alloc(), named.as_str())?),
    }
}

/// The place of a path whose last part is no link.
fn placed(rt: &HostRuntime, path: Path<'_>) -> io::Result<Place> {
    let (Some(parent), Some(name)) = (path.parent(), path.file_name()) else {
        return Err(io::Error::from(io::ErrorKind::IsADirectory));
    };
    let parent = if parent.as_str().is_empty() {
        "."
    } else {
        parent.as_str()
    };
    Ok(Place {
        folder: fs::canonicalize(rt, parent)?,
        name: String::from_str(rt.alloc(), name)?,
    })
}

/// The place of a path, through links, also of one whose file doesn't stand there.
pub(crate) fn place_of(rt: &HostRuntime, path: &str) -> io::Result<Place> {
    let mut path = PathBuf::from_str(rt.alloc(), path)?;
    for _ in 0..LINKS {
        if path.as_str().ends_with('/') {
            break;
        }
        match fs::read_link(rt, path.as_path()) {
            Ok(named) => path = followed(rt, &path, &named)?,
            Err(error) if error.kind() == io::ErrorKind::OutOfMemory => return Err(error),
            Err(_) => return placed(rt, path.as_path()),
        }
    }
    Err(io::Error::from(io::ErrorKind::NotFound))
}
