//! What a file holds.
ghost use Rattle.std.specs.Prelude.{◌≡◌, ◌↔◌, ℕ, List, IfOk, IfSome, IsTrue};
ghost use Rattle.std.specs.Io.KnownBytes.{IsAtEnd};
ghost use Rattle.sha2.specs.Sha256.{sha256};
ghost use Rattle.apl_files.specs.Content.{IsFed, MayReplace};

use sha2::{Digest, Sha256};
use std::fs::{self, File};
use std::io::{self, Read};
use std::path::Path;

/// How many bytes are read at once.
const BLOCK: usize = 8_192;

/// Feeds a hasher with what one read gives, and tells how many bytes that are.
fn feed<R: Read>(reader: &mut R, hasher: &mut Sha256) -> io::Result<usize>
    ensures fed { (bytes : List ℕ) → IsFed bytes (R.remaining reader.old) hasher.old → IsFed bytes (R.remaining reader.new) hasher.new }
    ensures end { IfOk result (λ n. n ≡ 0 → IsAtEnd (R.remaining reader.new)) }
{
    let mut block = [0u8; BLOCK];
    let count = reader.read(&mut block)?;
    let (prefix, _) = block.split_at(count);
    hasher.update(prefix);
    Ok(count)
}

/// The digest of all that a reader has left. It takes the same memory for any file.
fn digest_of<R: Read>(reader: &mut R) -> io::Result<[u8; 32]>
    ensures { IfSome (R.remaining reader.old) (λ bytes. IfOk result (λ digest. digest ≡ sha256 bytes)) }
{
    let mut hasher = Sha256::new();
    for _ in 0..u64::MAX {
        match feed(reader, &mut hasher) {
            Ok(0) => return Ok(hasher.finalize()),
            Ok(_) => {}
            Err(error) if error.kind() == io::ErrorKind::Interrupted => {}
            Err(error) => return Err(error),
        }
    }
    Err(io::Error::from(io::ErrorKind::Other))
}

/// The digest of a regular file's bytes, or `None` where nothing stands there.
///
/// # Errors
///
/// `InvalidInput` where what stands there is no regular file, and whatever refuses to read it.
pub(crate) fn content(rt: &HostRuntime, path: Path<'_>) -> io::Result<Option<[u8; 32]>> {
    match fs::symlink_metadata(rt, path) {
        Ok(metadata) if metadata.is_file() => {
            let mut file = File::open(rt, path)?;
            Ok(Some(digest_of(&mut file)?))
        }
        Ok(_) => Err(io::Error::from(io::ErrorKind::InvalidInput)),
        Err(error) if error.kind() == io::ErrorKind::NotFound => Ok(None),
        Err(error) => Err(error),
    }
}

/// Whether nobody's work is lost where new bytes take the place of what stands there now.
pub(crate) fn may_replace(before: &Option<[u8; 32]>, now: &Option<[u8; 32]>) -> bool
    ensures { IsTrue result ↔ MayReplace before.now now.now }
{
    match now {
        None => true,
        Some(_) => now == before,
    }
}
