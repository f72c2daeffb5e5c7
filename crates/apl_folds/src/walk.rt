// Walks over the index lists of axes, each of which leads to the beginning of a line.
ghost use Rattle.std.specs.Prelude.{◌≡◌, ◌^◌, ◌<◌, ◌≤◌, ◌+◌, ◌-◌, ◌*◌, ℕ, ℤ, IsTrue};
ghost use Rattle.std.specs.Prelude.{List, [], ◌∷◌, length, Result, IfSome, Some, None};
ghost use Rattle.std.specs.List.{range_with_len};
ghost use Rattle.apl_faults.specs.declared.fault.Fault.{Fault};
ghost use Rattle.apl_arrays.specs.Answers.{Appends};
ghost use Rattle.apl_arrays.specs.Results.{all_ok};
ghost use Rattle.apl_arrays.specs.Strides.{reach_of};
ghost use Rattle.apl_arrays.specs.declared.axis.Axis.{Axis};
ghost use Rattle.apl_folds.specs.Lines.{start_at, count_at, made, OfEach};

use apl_arrays::{Axis, Stop, along};
use apl_faults::Fault;

/// What is made of the first items of a line.
pub(crate) trait Leaf {
    /// The places and counts for which it may be asked.
    ghost has: { Self → ℕ → ℕ → Type 0 };

    /// What it makes of so many items from a place on.
    ghost gives: { Self → ℕ → ℕ → Result ℤ Fault };

    fn value(&self, at: usize, count: usize) -> Result<i64, Fault>
        requires { has self.now at count }
        ensures { result ≡ gives self.now at count };

    /// Appends what it makes of so many items of each of the lines that begin from one place to another, side by side.
    fn push_columns(
        &self,
        from: usize,
        till: usize,
        count: usize,
        out: &mut Vec<i64>,
    ) -> Result<(), Stop>
        requires order { from ≤ till }
        requires lines { (p : ℕ) → from ≤ p → p < till → has self.now p count }
        ensures { Appends out.old.items out.new.items (all_ok (λ p. gives self.now p count) (range_with_len from (till - from))) result }
    {
        for at in from..till {
            match self.value(at, count) {
                Ok(value) => out.push(value)?,
                Err(fault) => return Err(Stop::Fault(fault)),
            }
        }
        Ok(())
    }
}

/// Where a walk is: the place at which the line begins so far, how many of its items are asked for, and how many axes before the one whose
/// index says so, if there is one to come.
#[derive(Clone, Copy)]
pub(crate) struct Start {
    pub at: usize,
    pub count: usize,
    pub depth: Option<usize>,
}

/// Where an index of the next axis leads.
fn stepped(start: Start, axis: &Axis, index: usize) -> Start
    requires within { index < axis.now.length }
    requires near { start.at + (axis.now.up + axis.now.down) * axis.now.length < 2 ^ 63 }
    requires few { index < usize.MAX }
    ensures at { (xs : List Axis) (is : List ℕ) → start_at result.at result.depth xs is ≡ start_at start.at start.depth (axis.now ∷ xs) (index ∷ is) }
    ensures count { (is : List ℕ) → count_at result.count result.depth is ≡ count_at start.count start.depth (index ∷ is) }
    ensures depth { (n : ℕ) → IfSome start.depth (λ depth. depth < n + 1) → IfSome result.depth (λ depth. depth < n) }
    ensures near { (xs : List Axis) → reach_of result.at xs ≤ reach_of start.at (axis.now ∷ xs) }
{
    match start.depth {
        None => Start {
            at: along(start.at, axis, index),
            ..start
        },
        Some(0) => Start {
            count: index + 1,
            depth: None,
            ..start
        },
        Some(depth) => Start {
            at: along(start.at, axis, index),
            depth: Some(depth - 1),
            ..start
        },
    }
}

/// Below this many lines side by side each is taken alone.
const FEW: usize = 8;

/// Whether the next axis is the last one, and the lines begin side by side along it, and many of them.
fn is_beside(start: Start, axis: &Axis, rest: &[Axis]) -> bool
    ensures { IsTrue result → (rest.now ≡ []) × (start.depth ≡ None) × (axis.now.up ≡ 1) × (axis.now.down ≡ 0) }
{
    match start.depth {
        None => { rest.is_empty() && axis.up == 1 && axis.down == 0 && FEW <= axis.length }
        Some(_) => false,
    }
}

/// Appends what a leaf makes of each line, in the order of the indices of the one axis that is left.
fn walk_last<L: Leaf>(leaf: &L, start: Start, axis: &Axis, out: &mut Vec<i64>) -> Result<(), Stop>
    requires depth { IfSome start.depth (λ depth. depth < 1) }
    requires lines { OfEach (L.has leaf.now) start (axis.now ∷ []) }
    requires near { reach_of start.at (axis.now ∷ []) < 2 ^ 63 }
    ensures { Appends out.old.items out.new.items (made (L.gives leaf.now) start.at start.count start.depth (axis.now ∷ [])) result }
{
    for index in 0..axis.length {
        let line = stepped(start, axis, index);
        match leaf.value(line.at, line.count) {
            Ok(value) => out.push(value)?,
            Err(fault) => return Err(Stop::Fault(fault)),
        }
    }
    Ok(())
}

/// Appends what a leaf makes of each line, in the order of the index lists.
pub(crate) fn walk<L: Leaf>(
    leaf: &L,
    start: Start,
    axes: &[Axis],
    out: &mut Vec<i64>,
) -> Result<(), Stop>
    requires depth { IfSome start.depth (λ depth. depth < length axes.now) }
    requires lines { OfEach (L.has leaf.now) start axes.now }
    requires near { reach_of start.at axes.now < 2 ^ 63 }
    ensures { Appends out.old.items out.new.items (made (L.gives leaf.now) start.at start.count start.depth axes.now) result }
{
    match axes {
        [] => match leaf.value(start.at, start.count) {
            Ok(value) => {
                out.push(value)?;
                Ok(())
            }
            Err(fault) => Err(Stop::Fault(fault)),
        },
        [axis, rest @ ..] => {
            if is_beside(start, axis, rest) {
                leaf.push_columns(start.at, start.at + axis.length, start.count, out)?;
                return Ok(());
            }
            if rest.is_empty() {
                return walk_last(leaf, start, axis, out);
            }
            for index in 0..axis.length {
                match walk(leaf, stepped(start, axis, index), rest, out) {
                    Ok(()) => {}
                    Err(stop) => return Err(stop),
                }
            }
            Ok(())
        }
    }
}
