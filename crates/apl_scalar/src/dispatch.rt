// A scalar function that is chosen when the program runs, as one that the compiler knows.
ghost use Rattle.std.specs.Prelude.{◌≡◌, ℤ, Result, length, pos, slice_index_or};
ghost use Rattle.std.specs.List.{range_with_len};
ghost use Rattle.apl_faults.specs.declared.fault.Fault.{Fault};
ghost use Rattle.apl_arrays.specs.Answers.{Answers};
ghost use Rattle.apl_arrays.specs.Numbers.{kept_values, values};
ghost use Rattle.apl_arrays.specs.Results.{all_ok};
ghost use Rattle.apl_scalar.specs.Functions.{monadic_of, dyadic_of};
ghost use Rattle.apl_scalar.specs.Operands.{number_at, shown, values_of, Covers};

use crate::arithmetic::{
    Difference, Identity, Magnitude, Maximum, Minimum, Negation, Product, Sign, Sum,
};
use crate::comparison::{Compared, Equal, Less, NotEqual, NotGreater, Swapped};
use crate::division::{Quotient, Reciprocal, Residue};
use crate::function::{Dyadic, Monadic, Scalar};
use crate::logic::{And, Logical, Nand, Nor, Not, Or};
use crate::powers::{Factorial, Power};
use crate::values::Places;
use apl_arrays::{NumberSlice, NumberVec, Stop};
use std::alloc::Global;

/// What is done by a scalar function, made anew for each function that the compiler knows, so that no loop in it dispatches.
/// [`Dyadic::apply`] and [`Monadic::apply`] do it by a function that is chosen when the program runs.
pub trait ByFunction {
    /// What it answers.
    type Output;

    /// It may be done by a function of this meaning.
    ghost can: { Self → (ℤ → ℤ → Result ℤ Fault) → Type 0 };

    /// What it answers by a function of this meaning.
    ghost gives: { Self → (ℤ → ℤ → Result ℤ Fault) → Self.Output → Type 0 };

    /// Does it by a function.
    fn with<F: Scalar>(self) -> Self::Output
        requires { can self F.meaning }
        ensures { gives self F.meaning result };
}

impl Dyadic {
    /// Does by this function what a visitor does by any.
    #[inline(always)]
    pub fn apply<V: ByFunction>(self, visitor: V) -> V::Output
        requires { V.can visitor (dyadic_of self) }
        ensures { V.gives visitor (dyadic_of self) result }
    {
        match self {
            Dyadic::Plus => visitor.with::<Sum>(),
            Dyadic::Minus => visitor.with::<Difference>(),
            Dyadic::Times => visitor.with::<Product>(),
            Dyadic::Divide => visitor.with::<Quotient>(),
            Dyadic::Power => visitor.with::<Power>(),
            Dyadic::Maximum => visitor.with::<Maximum>(),
            Dyadic::Minimum => visitor.with::<Minimum>(),
            Dyadic::Residue => visitor.with::<Residue>(),
            Dyadic::Less => visitor.with::<Compared<Less>>(),
            Dyadic::NotGreater => visitor.with::<Compared<NotGreater>>(),
            Dyadic::Equal => visitor.with::<Compared<Equal>>(),
            Dyadic::NotLess => visitor.with::<Compared<Swapped<NotGreater>>>(),
            Dyadic::Greater => visitor.with::<Compared<Swapped<Less>>>(),
            Dyadic::NotEqual => visitor.with::<Compared<NotEqual>>(),
            Dyadic::And => visitor.with::<Logical<And>>(),
            Dyadic::Or => visitor.with::<Logical<Or>>(),
            Dyadic::Nand => visitor.with::<Logical<Nand>>(),
            Dyadic::Nor => visitor.with::<Logical<Nor>>(),
        }
    }

    /// The values of this function at places.
    pub(crate) fn at_places(self, places: &Places<'_>) -> Result<NumberVec, Stop>
        ensures { Answers kept_values (values_of (dyadic_of self) (number_at (shown places.now.a)) (number_at (shown places.now.b)) places.now.count) result }
    {
        match self {
            Dyadic::Plus => places.in_lanes::<Sum>(),
            Dyadic::Minus => places.in_lanes::<Difference>(),
            Dyadic::Times => places.in_lanes::<Product>(),
            Dyadic::Divide => places.divided::<Quotient>(),
            Dyadic::Power => places.in_wide::<Power>(),
            Dyadic::Maximum => places.in_lanes::<Maximum>(),
            Dyadic::Minimum => places.in_lanes::<Minimum>(),
            Dyadic::Residue => places.divided::<Residue>(),
            Dyadic::Less => places.told::<Compared<Less>>(),
            Dyadic::NotGreater => places.told::<Compared<NotGreater>>(),
            Dyadic::Equal => places.told::<Compared<Equal>>(),
            Dyadic::NotLess => places.swapped().told::<Compared<NotGreater>>(),
            Dyadic::Greater => places.swapped().told::<Compared<Less>>(),
            Dyadic::NotEqual => places.told::<Compared<NotEqual>>(),
            Dyadic::And => places.told::<Logical<And>>(),
            Dyadic::Or => places.told::<Logical<Or>>(),
            Dyadic::Nand => places.told::<Logical<Nand>>(),
            Dyadic::Nor => places.told::<Logical<Nor>>(),
        }
    }
}

impl Monadic {
    /// Does by this function, whose argument is on the right, what a visitor does by any.
    #[inline]
    pub(crate) fn apply<V: ByFunction>(self, visitor: V) -> V::Output
        requires { V.can visitor (λ _ y. monadic_of self y) }
        ensures { V.gives visitor (λ _ y. monadic_of self y) result }
    {
        match self {
            Monadic::Plus => visitor.with::<Identity>(),
            Monadic::Minus => visitor.with::<Negation>(),
            Monadic::Times => visitor.with::<Sign>(),
            Monadic::Divide => visitor.with::<Reciprocal>(),
            Monadic::Ceiling => visitor.with::<Identity>(),
            Monadic::Floor => visitor.with::<Identity>(),
            Monadic::Magnitude => visitor.with::<Magnitude>(),
            Monadic::Not => visitor.with::<Not>(),
            Monadic::Factorial => visitor.with::<Factorial>(),
        }
    }

    /// The values of this function of numbers.
    pub(crate) fn of_numbers(
        self,
        alloc: Global,
        numbers: NumberSlice<'_>,
    ) -> Result<NumberVec, Stop>
        ensures { Answers kept_values (all_ok (λ k. monadic_of self (slice_index_or (values numbers.entry) k (pos 0))) (range_with_len 0 (length (values numbers.entry)))) result }
    {
        let places = Places::of_one(alloc, numbers);
        match self {
            Monadic::Plus | Monadic::Ceiling | Monadic::Floor => Ok(numbers.to_vec(alloc)?),
            Monadic::Minus => places.in_lanes::<Negation>(),
            Monadic::Times => places.in_lanes::<Sign>(),
            Monadic::Divide => places.in_wide::<Reciprocal>(),
            Monadic::Magnitude => places.in_lanes::<Magnitude>(),
            Monadic::Not => places.told::<Not>(),
            Monadic::Factorial => places.in_wide::<Factorial>(),
        }
    }
}
