// Operators and the functions that they take.
ghost use Rattle.std.specs.Prelude.{◌≡◌};
ghost use Rattle.apl_arrays.specs.Answers.{Answers};
ghost use Rattle.apl_arrays.specs.Origins.{origin_number};
ghost use Rattle.apl_primitives.specs.Values.{derived, derived_along, inner_by, outer_by, own_axis};

use apl_arrays::{Along, Array, Origin, Stop};
use apl_faults::Fault;
use apl_folds::{reduce, scan};
use apl_operators::{inner, outer};
use apl_scalar::Dyadic;
use apl_symbols::Operator;
use std::alloc::Global;

/// The axis of an operator beside which none is named.
pub(crate) fn own_axis(operator: Operator) -> Along<'static>
    ensures { result ≡ own_axis operator }
{
    match operator {
        Operator::Slash => Along::Last,
        Operator::SlashBar => Along::First,
        Operator::Slope => Along::Last,
        Operator::SlopeBar => Along::First,
    }
}

/// A reduction or a scan along an axis.
fn derived_along(
    alloc: Global,
    operator: Operator,
    function: Dyadic,
    along: Along<'_>,
    b: &Array,
    origin: Origin,
) -> Result<Array, Stop>
    ensures { Answers (λ r. r) (derived_along operator function along.entry b.now (origin_number origin)) result }
{
    match operator {
        Operator::Slash => reduce(alloc, function, along, b, origin),
        Operator::SlashBar => reduce(alloc, function, along, b, origin),
        Operator::Slope => scan(alloc, function, along, b, origin),
        Operator::SlopeBar => scan(alloc, function, along, b, origin),
    }
}

/// A reduction or a scan along an axis, where there is a function to take.
pub(crate) fn derived(
    alloc: Global,
    operator: Operator,
    function: Option<Dyadic>,
    along: Along<'_>,
    b: &Array,
    origin: Origin,
) -> Result<Array, Stop>
    ensures { Answers (λ r. r) (derived operator function along.entry b.now (origin_number origin)) result }
{
    match function {
        Some(function) => derived_along(alloc, operator, function, along, b, origin),
        None => Err(Stop::Fault(Fault::Syntax)),
    }
}

/// An outer product, where there is a function to take. It stands apart, so that what is frequent makes no room for it.
#[inline(never)]
pub(crate) fn outer_by(
    alloc: Global,
    function: Option<Dyadic>,
    a: &Array,
    b: &Array,
) -> Result<Array, Stop>
    ensures { Answers (λ r. r) (outer_by function a.now b.now) result }
{
    match function {
        Some(function) => outer(alloc, function, a, b),
        None => Err(Stop::Fault(Fault::Syntax)),
    }
}

/// An inner product, where there are two functions to take. It stands apart too.
#[inline(never)]
pub(crate) fn inner_by(
    alloc: Global,
    first: Option<Dyadic>,
    second: Option<Dyadic>,
    a: &Array,
    b: &Array,
) -> Result<Array, Stop>
    ensures { Answers (λ r. r) (inner_by first second a.now b.now) result }
{
    let Some(first) = first else {
        return Err(Stop::Fault(Fault::Syntax));
    };
    match second {
        Some(second) => inner(alloc, first, second, a, b),
        None => Err(Stop::Fault(Fault::Syntax)),
    }
}
