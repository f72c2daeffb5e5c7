// Functions of one array.
ghost use Rattle.std.specs.Prelude.{◌≡◌, option_copied};
ghost use Rattle.apl_arrays.specs.Answers.{Answers};
ghost use Rattle.apl_arrays.specs.Origins.{origin_number};
ghost use Rattle.apl_struct.specs.Structure.{along1, plain1, structural1};

use apl_arrays::{Along, Array, Origin, Stop};
use apl_faults::Fault;
use apl_reshape::{ravel, shape};
use apl_search::{grade_down, grade_up, iota};
use apl_symbols::Primitive;
use apl_turns::{reverse, transpose};
use std::alloc::Global;

/// `F B`.
fn plain1(alloc: Global, function: Primitive, b: &Array, origin: Origin) -> Result<Array, Stop>
    ensures { Answers (λ r. r) (plain1 function b.now (origin_number origin)) result }
{
    match function {
        Primitive::Rho => shape(alloc, b),
        Primitive::Comma => ravel(alloc, b),
        Primitive::Iota => iota(alloc, b, origin),
        Primitive::CircleStile => reverse(alloc, Along::Last, b, origin),
        Primitive::CircleBar => reverse(alloc, Along::First, b, origin),
        Primitive::CircleSlope => transpose(alloc, b),
        Primitive::GradeUp => grade_up(alloc, b, origin),
        Primitive::GradeDown => grade_down(alloc, b, origin),
        _ => Err(Stop::Fault(Fault::Syntax)),
    }
}

/// `F K B`.
fn along1(
    alloc: Global,
    function: Primitive,
    slots: &[Option<Array>],
    b: &Array,
    origin: Origin,
) -> Result<Array, Stop>
    ensures { Answers (λ r. r) (along1 function slots.now b.now (origin_number origin)) result }
{
    match function {
        Primitive::CircleStile => reverse(alloc, Along::Named(slots), b, origin),
        Primitive::CircleBar => reverse(alloc, Along::Named(slots), b, origin),
        _ => Err(Stop::Fault(Fault::Syntax)),
    }
}

/// A function of structure of one array, along the axis that index slots name if there are any: `⍴ , ⍳ ⌽ ⊖ ⍉ ⍋ ⍒`.
///
/// Indices, axes and places count from the index origin. Another function is a syntax fault, and so is an axis but for `⌽` and `⊖`.
/// Every other fault is the function's own.
pub fn structural1(
    alloc: Global,
    function: Primitive,
    axis: Option<&[Option<Array>]>,
    b: &Array,
    origin: Origin,
) -> Result<Array, Stop>
    ensures { Answers (λ r. r) (structural1 function (option_copied axis.entry) b.now (origin_number origin)) result }
{
    match axis {
        Some(slots) => along1(alloc, function, slots, b, origin),
        None => plain1(alloc, function, b, origin),
    }
}
