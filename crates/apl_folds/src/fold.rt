// Folds of rows of numbers.
ghost use Rattle.std.specs.Prelude.{◌≡◌, ◌<◌, map, length, drop, Ok};
ghost use Rattle.apl_arrays.specs.declared.cell.Cell.TheVariants.{Num};
ghost use Rattle.apl_scalar.specs.Functions.{dyadic_of};
ghost use Rattle.apl_folds.specs.Folds.{folded, identity};
ghost use Rattle.apl_folds.specs.Lines.{fold_by};

use crate::lanes::number_at;
use crate::quarters::choose;
use crate::sums::sum_row;
use crate::truths::fold_connected;
use apl_arrays::Lane;
use apl_faults::Fault;
use apl_scalar::{And, ByFunction, Dyadic, Maximum, Minimum, Nand, Nor, Or, Scalar};

/// The fold of no number, which [`Dyadic::Nand`] and [`Dyadic::Nor`] have not.
pub(crate) fn identity_of(function: Dyadic) -> Result<i64, Fault>
    ensures { result ≡ identity function }
{
    match function {
        Dyadic::Plus => Ok(0),
        Dyadic::Minus => Ok(0),
        Dyadic::Times => Ok(1),
        Dyadic::Divide => Ok(1),
        Dyadic::Power => Ok(1),
        Dyadic::Maximum => Ok(i64::MIN),
        Dyadic::Minimum => Ok(i64::MAX),
        Dyadic::Residue => Ok(0),
        Dyadic::Less => Ok(0),
        Dyadic::NotGreater => Ok(1),
        Dyadic::Equal => Ok(1),
        Dyadic::NotLess => Ok(1),
        Dyadic::Greater => Ok(0),
        Dyadic::NotEqual => Ok(0),
        Dyadic::And => Ok(1),
        Dyadic::Or => Ok(0),
        Dyadic::Nand => Err(Fault::Domain),
        Dyadic::Nor => Err(Fault::Domain),
    }
}

/// The fold of numbers from the right, each step tested, where that of those from a place on is known.
pub(crate) fn fold_from<F: Scalar, L: Lane>(
    numbers: &[L],
    from: usize,
    known: i64,
) -> Result<i64, Fault>
    requires within { from < length numbers.now }
    requires known { fold_by F.meaning (drop from (L.numbers numbers.now)) ≡ Ok known }
    ensures { result ≡ fold_by F.meaning (L.numbers numbers.now) }
{
    let mut all = known;
    for k in (0..from).rev() {
        match F::apply(number_at(numbers, k), all) {
            Ok(value) => all = value,
            Err(fault) => return Err(fault),
        }
    }
    Ok(all)
}

/// The fold of one or more numbers from the right, each step tested.
pub(crate) fn fold_right<F: Scalar, L: Lane>(numbers: &[L]) -> Result<i64, Fault>
    requires { 0 < length numbers.now }
    ensures { result ≡ fold_by F.meaning (L.numbers numbers.now) }
{
    let last = numbers.len() - 1;
    fold_from::<F, L>(numbers, last, number_at(numbers, last))
}

/// One or more numbers, to be folded by a scalar function.
#[derive(Clone, Copy)]
struct Row<'a, L> {
    numbers: &'a [L],
}

impl<'a, L: Lane> ByFunction for Row<'a, L> {
    type Output = Result<i64, Fault>;

    ghost can = { λ s f. 0 < length s.numbers.now };

    ghost gives = { λ s f result. result ≡ fold_by f (L.numbers s.numbers.now) };

    fn with<F: Scalar>(self) -> Result<i64, Fault> {
        fold_right::<F, L>(self.numbers)
    }
}

/// The fold of one or more numbers.
pub(crate) fn fold_some<L: Lane>(function: Dyadic, numbers: &[L]) -> Result<i64, Fault>
    requires { 0 < length numbers.now }
    ensures { result ≡ fold_by (dyadic_of function) (L.numbers numbers.now) }
{
    match function {
        Dyadic::Plus => sum_row(numbers),
        Dyadic::Maximum => choose::<Maximum, L>(numbers),
        Dyadic::Minimum => choose::<Minimum, L>(numbers),
        Dyadic::And => fold_connected::<And, L>(numbers),
        Dyadic::Or => fold_connected::<Or, L>(numbers),
        Dyadic::Nand => fold_connected::<Nand, L>(numbers),
        Dyadic::Nor => fold_connected::<Nor, L>(numbers),
        _ => function.apply(Row { numbers }),
    }
}

/// The fold of numbers from the right: of none the identity, of one the number, of more the function of the first and the fold of the
/// others. The function's fault is the fold's, and [`Dyadic::Nand`] and [`Dyadic::Nor`] of none are a domain fault.
pub fn fold_numbers<L: Lane>(function: Dyadic, numbers: &[L]) -> Result<i64, Fault>
    ensures { result ≡ folded function (map Num (L.numbers numbers.now)) }
{
    if numbers.is_empty() {
        identity_of(function)
    } else {
        fold_some(function, numbers)
    }
}
