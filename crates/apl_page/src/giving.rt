//! How a call gives bytes in a buffer.
ghost use Rattle.std.specs.Prelude.{◌≡◌, ◌≤◌, length};
ghost use Rattle.apl_page.specs.Answers.{Gives, laid};

use crate::refusal::Refusal;
use apl_session::Bytes;

/// The number of a call whose buffer is too small.
const TOO_SMALL: u32 = 9;

/// Lays bytes at the start of a buffer.
pub(crate) fn lay_prefix(bytes: &[u8], buffer: &mut [u8])
    requires { length bytes.now ≤ length buffer.old }
    ensures { buffer.new ≡ laid bytes.now buffer.old }
{
    let (prefix, _) = buffer.split_at_mut(bytes.len());
    prefix.copy_from_slice(bytes);
}

/// Lays the bytes that a call comes to at the start of a buffer, if that has room, and tells how many they are.
pub(crate) fn give(outcome: Result<Bytes, Refusal>, buffer: &mut [u8], size: &mut usize) -> u32
    ensures { Gives outcome result buffer.old buffer.new size.old size.new }
{
    let bytes = match outcome {
        Ok(bytes) => bytes,
        Err(refusal) => return refusal.number(),
    };
    let bytes = bytes.as_slice();
    *size = bytes.len();
    if bytes.len() > buffer.len() {
        return TOO_SMALL;
    }
    lay_prefix(bytes, buffer);
    0
}
