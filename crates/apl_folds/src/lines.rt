// Folds of all lines along an axis.
ghost use Rattle.std.specs.Prelude.{◌≡◌, ◌^◌, ◌<◌, length, IfSome, IsTrue};
ghost use Rattle.std.specs.Int.{w64};
ghost use Rattle.apl_scalar.specs.declared.function.Dyadic.TheVariants as two;
ghost use Rattle.apl_arrays.specs.Answers.{Answers};
ghost use Rattle.apl_arrays.specs.Numbers.{values};
ghost use Rattle.apl_arrays.specs.Strides.{reach_of};
ghost use Rattle.apl_scalar.specs.Functions.{dyadic_of};
ghost use Rattle.apl_folds.specs.Folds.{identity};
ghost use Rattle.apl_folds.specs.Rooms.{HaveRoom};
ghost use Rattle.apl_folds.specs.Lines.{made_of, line_fold, line_folds, line_comparisons, AreLines, IsLine, OfEach};

use crate::characters::Comparison;
use crate::columns::push_columns;
use crate::fold::identity_of;
use crate::lanes::{has_room, most};
use crate::line::fold_line;
use crate::steps::{Sure, Tried};
use crate::walk::{Leaf, Start, walk};
use apl_arrays::{Axis, Lane, NumberSlice, Stop};
use apl_charset::Ch;
use apl_faults::Fault;
use apl_scalar::{ByFunction, Dyadic, Scalar};
use std::alloc::Global;
use std::marker::PhantomData;

/// The lines to which the index lists of some axes lead, and room for as many values.
#[derive(Clone, Copy)]
pub(crate) struct Lines<'a> {
    pub start: Start,
    pub axes: &'a [Axis],
    pub inner: Axis,
    pub room: usize,
}

/// What a leaf makes of each line, or the first fault.
fn walked<L: Leaf>(alloc: Global, leaf: &L, lines: &Lines<'_>) -> Result<Vec<i64>, Stop>
    requires depth { IfSome lines.now.start.depth (λ depth. depth < length lines.now.axes.now) }
    requires lines { OfEach (L.has leaf.now) lines.now.start lines.now.axes.now }
    requires near { reach_of lines.now.start.at lines.now.axes.now < 2 ^ 63 }
    ensures { Answers (λ v. v.items) (made_of (L.gives leaf.now) lines.now) result }
{
    let mut out = Vec::with_capacity(alloc, lines.room)?;
    walk(leaf, lines.start, lines.axes, &mut out)?;
    Ok(out)
}

/// Whether a function adds, and 64 bits have room for the sum of so many numbers.
fn adds_with_room<L: Lane>(function: Dyadic, numbers: &[L], count: usize) -> bool
    ensures plus { IsTrue result → function ≡ two.Plus }
    ensures room { IsTrue result → HaveRoom w64 (L.numbers numbers.now) count }
{
    match function {
        Dyadic::Plus => has_room::<i64>(most(numbers), count),
        _ => false,
    }
}

/// The numbers along an axis, to be folded by a scalar function, which is also named.
#[derive(Drop)]
struct Numbers<'a, F: Scalar, L> {
    function: Dyadic,
    numbers: &'a [L],
    axis: Axis,
    by: PhantomData<F>,
}

impl<'a, F: Scalar, L: Lane> Leaf for Numbers<'a, F, L> {
    ghost has = { λ s p count. (F.meaning ≡ dyadic_of s.function) × IsLine (length s.numbers.now) s.axis p count };

    ghost gives = { λ s p count. line_fold F.meaning (L.numbers s.numbers.now) s.axis p count };

    fn value(&self, at: usize, count: usize) -> Result<i64, Fault> {
        fold_line::<F, L>(self.function, self.numbers, &self.axis, at, count)
    }

    fn push_columns(
        &self,
        from: usize,
        till: usize,
        count: usize,
        out: &mut Vec<i64>,
    ) -> Result<(), Stop> {
        if adds_with_room(self.function, self.numbers, count) {
            return push_columns::<F, Sure, L>(self.numbers, &self.axis, from, till, count, out);
        }
        push_columns::<F, Tried<F>, L>(self.numbers, &self.axis, from, till, count, out)
    }
}

/// The numbers of each line, to be folded by a scalar function.
#[derive(Clone, Copy)]
struct Folds<'a, L> {
    alloc: Global,
    function: Dyadic,
    numbers: &'a [L],
    lines: &'a Lines<'a>,
}

impl<'a, L: Lane> ByFunction for Folds<'a, L> {
    type Output = Result<Vec<i64>, Stop>;

    ghost can = { λ s f. (f ≡ dyadic_of s.function) × AreLines (length s.numbers.now) s.lines.now };

    ghost gives = { λ s f result. Answers (λ v. v.items) (line_folds f (L.numbers s.numbers.now) s.lines.now) result };

    fn with<F: Scalar>(self) -> Result<Vec<i64>, Stop> {
        let leaf: Numbers<'_, F, L> = Numbers {
            function: self.function,
            numbers: self.numbers,
            axis: self.lines.inner,
            by: PhantomData,
        };
        walked(self.alloc, &leaf, self.lines)
    }
}

/// The folds of the numbers of each line, or the first fault.
fn folds_in<L: Lane>(
    alloc: Global,
    function: Dyadic,
    numbers: &[L],
    lines: &Lines<'_>,
) -> Result<Vec<i64>, Stop>
    requires { AreLines (length numbers.now) lines.now }
    ensures { Answers (λ v. v.items) (line_folds (dyadic_of function) (L.numbers numbers.now) lines.now) result }
{
    function.apply(Folds {
        alloc,
        function,
        numbers,
        lines,
    })
}

/// The same of numbers of any type.
pub(crate) fn folds_of_numbers(
    alloc: Global,
    function: Dyadic,
    numbers: NumberSlice<'_>,
    lines: &Lines<'_>,
) -> Result<Vec<i64>, Stop>
    requires { AreLines (length (values numbers)) lines.now }
    ensures { Answers (λ v. v.items) (line_folds (dyadic_of function) (values numbers.entry) lines.now) result }
{
    match numbers {
        NumberSlice::I8(numbers) => folds_in(alloc, function, numbers, lines),
        NumberSlice::I32(numbers) => folds_in(alloc, function, numbers, lines),
        NumberSlice::I64(numbers) => folds_in(alloc, function, numbers, lines),
    }
}

/// The folds of the characters of each line, of two or more, or the first fault.
pub(crate) fn folds_of_characters(
    alloc: Global,
    function: Dyadic,
    characters: &[Ch],
    lines: &Lines<'_>,
) -> Result<Vec<i64>, Stop>
    requires { AreLines (length characters.now) lines.now }
    ensures { Answers (λ v. v.items) (line_comparisons function characters.now lines.now) result }
{
    let leaf = Comparison {
        characters,
        axis: lines.inner,
        same: function.compared(true),
        other: function.compared(false),
    };
    walked(alloc, &leaf, lines)
}

/// The same value, or the same fault, for each line.
#[derive(Drop)]
struct Constant {
    value: Result<i64, Fault>,
}

impl Leaf for Constant {
    ghost has = { λ s p count. Unit {0} };

    ghost gives = { λ s p count. s.value };

    fn value(&self, _at: usize, _count: usize) -> Result<i64, Fault> {
        self.value
    }
}

/// The folds of lines without items.
pub(crate) fn folds_of_none(
    alloc: Global,
    function: Dyadic,
    lines: &Lines<'_>,
) -> Result<Vec<i64>, Stop>
    requires depth { IfSome lines.now.start.depth (λ depth. depth < length lines.now.axes.now) }
    requires near { reach_of lines.now.start.at lines.now.axes.now < 2 ^ 63 }
    ensures { Answers (λ v. v.items) (made_of (λ p count. identity function) lines.now) result }
{
    let leaf = Constant {
        value: identity_of(function),
    };
    walked(alloc, &leaf, lines)
}
