//! Who may read and write a file.
ghost use Rattle.std.specs.Prelude.{◌≡◌};
ghost use Rattle.apl_files.specs.Rights as spec;

use std::fs::{File, Metadata, Permissions};
use std::io;
use std::os::unix::fs::{MetadataExt, PermissionsExt, fchown};

/// The rights of a new file that takes the place of one with these. Where the group can't be kept, the new one gets the rights of
/// all others, so that it gets none that it hadn't.
fn rights_after(mode: u32, has_group: bool) -> u32
    ensures { result ≡ spec.rights_after mode has_group }
{
    if has_group {
        mode & 0o777
    } else {
        (mode & 0o707) | ((mode & 0o007) << 3)
    }
}

/// Gives a file the group, the rights and, where it may, the owner of an old one.
pub(crate) fn give(file: &File, old: &Metadata) -> io::Result<()> {
    let has_group = fchown(file, None, Some(old.gid())).is_ok();
    let _ = fchown(file, Some(old.uid()), None);
    file.set_permissions(Permissions::from_mode(rights_after(old.mode(), has_group)))
}
