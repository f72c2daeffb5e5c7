// Lines that are decoded into a buffer, which serves for one after the other.
ghost use Rattle.std.specs.Prelude.{◌≡◌, ◌++◌, ◌<◌, true, Some, IfSome, encode_utf8, length};
ghost use Rattle.apl_charset.specs.Decoding.{decoded};
ghost use Rattle.apl_charset.specs.Set.{is_member};

use apl_charset::{Ch, one_decoding};

/// The most bytes of a line that is decoded into the buffer, which so stays short.
const MOST: usize = 2000;

/// The code point of a character of two or three bytes, where these are one.
fn code_of(line: &[u8]) -> Option<u32> {
    match line {
        [a, b, c, ..] if *a >= 0xE0 => {
            Some((*a as u32 & 15) << 12 | (*b as u32 & 63) << 6 | (*c as u32 & 63))
        }
        [a, b, ..] => Some((*a as u32 & 31) << 6 | (*b as u32 & 63)),
        _ => None,
    }
}

/// The character beyond ASCII that a line begins with, where it is one of the set, and what stands behind it. It is read loosely, and then
/// spelled again: so it is the right one.
fn symbol(line: &[u8]) -> Option<(Ch, &[u8])>
    ensures set { IfSome result (λ it. is_member it.0 ≡ true) }
    ensures parts { IfSome result (λ it. line.now ≡ encode_utf8 it.0 ++ it.1.now) }
    ensures shorter { IfSome result (λ it. length it.1.now < length line.now) }
{
    let c = char::from_u32(code_of(line)?)?;
    let ch = Ch::new(c)?;
    let mut buffer = [0u8; 4];
    let spelled = c.encode_utf8(&mut buffer).as_bytes();
    if spelled.len() > line.len() {
        return None;
    }
    let (front, rest) = line.split_at(spelled.len());
    if front == spelled {
        Some((ch, rest))
    } else {
        None
    }
}

/// The character that a line begins with, where it is one of the set, and what stands behind it.
#[inline(always)]
fn first_of(line: &[u8]) -> Option<(Ch, &[u8])>
    ensures set { IfSome result (λ it. is_member it.0 ≡ true) }
    ensures parts { IfSome result (λ it. line.now ≡ encode_utf8 it.0 ++ it.1.now) }
    ensures shorter { IfSome result (λ it. length it.1.now < length line.now) }
{
    let (first, rest) = line.split_first()?;
    if *first >= 128 {
        return symbol(line);
    }
    Some((Ch::new(*first as char)?, rest))
}

/// Decodes a line in place of what the buffer holds. False: it has a fault, it is long, or there is no memory.
pub(crate) fn decode_into(text: &mut Vec<Ch>, line: &[u8]) -> bool
    ensures { result ≡ true → decoded line.now ≡ Some text.new.items }
{
    // By this law a line that is spelled so decodes so.
    one_decoding();
    text.clear();
    if line.len() > MOST {
        return false;
    }
    let mut rest = line;
    while !rest.is_empty() {
        let Some(found) = first_of(rest) else {
            return false;
        };
        if text.push(found.0).is_err() {
            return false;
        }
        rest = found.1;
    }
    true
}
