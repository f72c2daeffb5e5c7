// How wide a line is.
ghost use Rattle.std.specs.Prelude.{◌≡◌, ◌+◌, ◌≤◌, ◌<◌, ℕ, List, length, map, slice_index, IfOk, IfErr};
ghost use Rattle.apl_arrays.specs.Numbers.{values};
ghost use Rattle.apl_format.specs.Display.{number_text};
ghost use Rattle.apl_format.specs.Formatted.{line_width};

use crate::number::number_width;
use apl_arrays::{MAX_ELEMENTS, NumberSlice};
use apl_faults::Fault;

/// What stands in a line with one blank between any two: numbers, or columns by their widths.
pub(crate) trait Wide: Copy {
    ghost widths: { Self → List ℕ };

    /// How many there are.
    fn count(self) -> usize
        ensures { result ≡ length (widths self) };

    /// How many characters the one at a place takes.
    fn width_at(self, place: usize) -> usize
        requires { place < length (widths self) }
        ensures { result ≡ slice_index (widths self) place };
}

impl<'a> Wide for NumberSlice<'a> {
    ghost widths = { λ numbers. map (λ z. length (number_text z)) (values numbers) };

    fn count(self) -> usize {
        self.len()
    }

    fn width_at(self, place: usize) -> usize {
        number_width(self.at(place))
    }
}

impl<'a> Wide for &'a [usize] {
    ghost widths = { λ widths. widths.now };

    fn count(self) -> usize {
        self.len()
    }

    fn width_at(self, place: usize) -> usize {
        self[place]
    }
}

/// A length and what is added to it, or a limit fault where no axis is so long.
fn longer(so_far: usize, more: usize) -> Result<usize, Fault>
    requires { so_far ≤ MAX_ELEMENTS }
    ensures sum { IfOk result (λ n. n ≡ so_far + more) }
    ensures small { IfOk result (λ n. n ≤ MAX_ELEMENTS) }
    ensures limit { IfErr result (λ fault. fault ≡ Fault.Limit) }
    ensures over { IfErr result (λ _. MAX_ELEMENTS < so_far + more) }
{
    if more > MAX_ELEMENTS - so_far {
        return Err(Fault::Limit);
    }
    Ok(so_far + more)
}

/// How long a line of these is with one blank between any two, or a limit fault where no axis is so long.
pub(crate) fn line_width<W: Wide>(items: W) -> Result<usize, Fault>
    ensures sum { IfOk result (λ n. n ≡ line_width (W.widths items)) }
    ensures small { IfOk result (λ n. n ≤ MAX_ELEMENTS) }
    ensures limit { IfErr result (λ fault. fault ≡ Fault.Limit) }
    ensures over { IfErr result (λ _. MAX_ELEMENTS < line_width (W.widths items)) }
{
    let mut so_far = 0usize;
    for place in 0..items.count() {
        so_far = longer(so_far, items.width_at(place))?;
    }
    longer(so_far, items.count().saturating_sub(1))
}
