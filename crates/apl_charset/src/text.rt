// Texts: lists of characters.
ghost use Rattle.std.specs.Prelude.{◌≡◌, ◌==◌, true, ◌++◌, decimal, IfOk, OnOk};
ghost use Rattle.std.proofs.Common.{rules};
ghost use Rattle.std.specs.Cmp.Lexicographic.{pointwise};
ghost use Rattle.std.specs.Cmp.Rules.{comparing};
ghost use Rattle.std.specs.Int.{is_in_range};
ghost use Rattle.std.specs.List.{list_all};
ghost use Rattle.std.specs.Str.{bytes_eq};
ghost use Rattle.apl_charset.specs.Text.{IsText};

use crate::character::Ch;
use itoa::Buffer;
use std::alloc::{AllocError, Global};
use std::marker::Model;

/// A text, such as a line that the machine keeps or writes.
/// Contracts see it as the list of its code points.
#[derive(Drop, Debug)]
pub struct Text {
    chars: Vec<Ch>,
}

impl Model for Text {
    ghost use Rattle.std.specs.Prelude.{List, ℕ};

    ghost Value = { List ℕ };

    ghost view = { λ t. t.chars.items };
}

impl Text {
    /// The text of these characters.
    pub fn new(chars: Vec<Ch>) -> Text
        ensures { result ≡ chars.items }
    {
        Text { chars }
    }

    /// The characters, first to last.
    pub fn as_slice(&self) -> &[Ch]
        ensures { result.now ≡ self.now }
    {
        &self.chars
    }

    /// The same text again.
    pub fn copy(&self, alloc: Global) -> Result<Text, AllocError>
        ensures { IfOk result (λ t. t ≡ self.now) }
    {
        let mut chars = Vec::with_capacity(alloc, self.chars.len())?;
        chars.extend_from_slice(&self.chars)?;
        Ok(Text::new(chars))
    }

    /// Its characters, without memory.
    pub fn into_chars(self) -> Vec<Ch>
        ensures { result.items ≡ self }
    {
        self.chars
    }
}

impl PartialEq for Text {
    ghost eq = { pointwise ◌==◌ };

    ghost laws = { Prim.search (comparing, rules) };

    fn eq(&self, other: &Text) -> bool {
        self.as_slice() == other.as_slice()
    }
}

impl Eq for Text {
    ghost laws = { Prim.search (comparing, rules) };
}

/// That each character of a text is in the set.
pub fn in_set(text: &[Ch])
    ensures { IsText text.now }
{
    for c in text {
        let _code = c.code();
    }
}

/// Adds ASCII text at the end. After an error a prefix of it may have been added.
pub fn push_ascii(out: &mut Vec<Ch>, text: &[u8]) -> Result<(), AllocError>
    requires { list_all (λ b. is_in_range 32 126 b) text.now ≡ true }
    ensures { OnOk result (out.new.items ≡ out.old.items ++ text.now) }
{
    for b in text {
        out.push(Ch::ascii(*b))?;
    }
    Ok(())
}

/// Adds a number in decimal at the end: its digits, the first of them a zero for 0 alone. After an
/// error a prefix of it may have been added.
pub fn push_number(out: &mut Vec<Ch>, number: u64) -> Result<(), AllocError>
    ensures { OnOk result (out.new.items ≡ out.old.items ++ decimal number) }
{
    let mut digits = Buffer::new();
    push_ascii(out, digits.format(number).as_bytes())?;
    Ok(())
}

/// Whether the characters of a text are those of a word in ASCII.
pub fn is_word(text: &[Ch], word: &[u8]) -> bool
    ensures { result ≡ bytes_eq text.now word.now }
{
    if text.len() != word.len() {
        return false;
    }
    for i in 0..text.len() {
        if text[i].code() != word[i] as char {
            return false;
        }
    }
    true
}
