//! Blanks round a text.
ghost use Rattle.std.specs.Prelude.{◌≡◌, reverse};
ghost use Rattle.apl_defn.specs.Blanks.{trimmed, without_leading};

use apl_charset::Ch;

/// The text without its leading blanks.
fn without_leading(text: &[Ch]) -> &[Ch]
    ensures { result.now ≡ without_leading text.now }
{
    let mut rest = text;
    while let Some((first, behind)) = rest.split_first() {
        if *first != Ch::default() {
            break;
        }
        rest = behind;
    }
    rest
}

/// The text without the blanks behind it.
fn without_back(text: &[Ch]) -> &[Ch]
    ensures { result.now ≡ reverse (without_leading (reverse text.now)) }
{
    let mut rest = text;
    while let Some((last, prefix)) = rest.split_last() {
        if *last != Ch::default() {
            break;
        }
        rest = prefix;
    }
    rest
}

/// The text without the blanks at both ends.
pub fn trimmed(text: &[Ch]) -> &[Ch]
    ensures { result.now ≡ trimmed text.now }
{
    without_back(without_leading(text))
}
