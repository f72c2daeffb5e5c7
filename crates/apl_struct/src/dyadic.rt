// Functions of two arrays.
ghost use Rattle.std.specs.Prelude.{◌≡◌, option_copied};
ghost use Rattle.apl_arrays.specs.Answers.{Answers};
ghost use Rattle.apl_arrays.specs.Origins.{origin_number};
ghost use Rattle.apl_struct.specs.Structure.{along2, plain2, structural2};

use apl_arrays::{Along, Array, Origin, Stop};
use apl_faults::Fault;
use apl_reshape::{catenate, drop_items, reshape, take_items};
use apl_search::{decode, encode, index_of, member};
use apl_select::{compress, expand};
use apl_symbols::Primitive;
use apl_turns::{rotate, transpose_by};
use std::alloc::Global;

/// `B F B`.
fn plain2(
    alloc: Global,
    function: Primitive,
    a: &Array,
    b: &Array,
    origin: Origin,
) -> Result<Array, Stop>
    ensures { Answers (λ r. r) (plain2 function a.now b.now (origin_number origin)) result }
{
    match function {
        Primitive::Rho => reshape(alloc, a, b),
        Primitive::Comma => catenate(alloc, Along::Last, a, b, origin),
        Primitive::CircleStile => rotate(alloc, Along::Last, a, b, origin),
        Primitive::CircleBar => rotate(alloc, Along::First, a, b, origin),
        Primitive::CircleSlope => transpose_by(alloc, a, b, origin),
        Primitive::UpArrow => take_items(alloc, a, b),
        Primitive::DownArrow => drop_items(alloc, a, b),
        Primitive::Slash => compress(alloc, Along::Last, a, b, origin),
        Primitive::SlashBar => compress(alloc, Along::First, a, b, origin),
        Primitive::Slope => expand(alloc, Along::Last, a, b, origin),
        Primitive::SlopeBar => expand(alloc, Along::First, a, b, origin),
        Primitive::Iota => index_of(alloc, a, b, origin),
        Primitive::Epsilon => member(alloc, a, b),
        Primitive::UpTack => decode(alloc, a, b),
        Primitive::DownTack => encode(alloc, a, b),
        _ => Err(Stop::Fault(Fault::Syntax)),
    }
}

/// `B F K B`.
fn along2(
    alloc: Global,
    function: Primitive,
    slots: &[Option<Array>],
    a: &Array,
    b: &Array,
    origin: Origin,
) -> Result<Array, Stop>
    ensures { Answers (λ r. r) (along2 function slots.now a.now b.now (origin_number origin)) result }
{
    match function {
        Primitive::Comma => catenate(alloc, Along::Named(slots), a, b, origin),
        Primitive::CircleStile => rotate(alloc, Along::Named(slots), a, b, origin),
        Primitive::CircleBar => rotate(alloc, Along::Named(slots), a, b, origin),
        Primitive::Slash => compress(alloc, Along::Named(slots), a, b, origin),
        Primitive::SlashBar => compress(alloc, Along::Named(slots), a, b, origin),
        Primitive::Slope => expand(alloc, Along::Named(slots), a, b, origin),
        Primitive::SlopeBar => expand(alloc, Along::Named(slots), a, b, origin),
        _ => Err(Stop::Fault(Fault::Syntax)),
    }
}

/// A function of structure or selection of two arrays, along the axis that index slots name if there are any:
/// `⍴ , ⌽ ⊖ ⍉ ↑ ↓ / ⌿ \ ⍀ ⍳ ∊ ⊥ ⊤`.
///
/// Indices, axes and places count from the index origin. Another function is a syntax fault, and so is an axis but for
/// `, ⌽ ⊖ / ⌿ \ ⍀`. Every other fault is the function's own.
pub fn structural2(
    alloc: Global,
    function: Primitive,
    axis: Option<&[Option<Array>]>,
    a: &Array,
    b: &Array,
    origin: Origin,
) -> Result<Array, Stop>
    ensures { Answers (λ r. r) (structural2 function (option_copied axis.entry) a.now b.now (origin_number origin)) result }
{
    match axis {
        Some(slots) => along2(alloc, function, slots, a, b, origin),
        None => plain2(alloc, function, a, b, origin),
    }
}
