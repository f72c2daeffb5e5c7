// A scalar function along a line of numbers.
ghost use Rattle.std.specs.Prelude.{◌≡◌, ◌<◌, ◌+◌, ◌*◌, ◌≤ℤ◌, ℕ, ℤ, length, slice_index_or, SomeIndex, pos, IsTrue, IsFalse, Ok};
ghost use Rattle.std.specs.List.{range_with_len};
ghost use Rattle.apl_arrays.specs.Results.{all_ok, ok_map};

use crate::attempt::Attempt;
use apl_faults::Fault;
use apl_scalar::either;

/// Numbers by the places of a line.
pub(crate) trait Line {
    ghost number: { Self → ℕ → ℤ };

    /// There is a number at a place.
    ghost has: { Self → ℕ → Type 0 };

    /// The number at a place.
    fn at(&self, place: usize) -> i64
        requires { has self.now place }
        ensures { result ≡ number self.now place };
}

/// One number, which serves at each place.
#[derive(Clone, Copy)]
pub(crate) struct Same(pub(crate) i64);

impl Same {
    /// The number at a place of others.
    pub(crate) fn new(numbers: &[i64], place: usize) -> Same
        requires { place < length numbers.now }
        ensures { result.0 ≡ slice_index_or numbers.now place (pos 0) }
    {
        Same(numbers[place])
    }
}

impl Line for Same {
    ghost number = { λ line _. line.0 };

    ghost has = { λ _ _. Unit {0} };

    #[inline(always)]
    fn at(&self, _place: usize) -> i64 {
        self.0
    }
}

/// A number for each place.
#[derive(Clone, Copy)]
pub(crate) struct Each<'a>(pub(crate) &'a [i64]);

impl<'a> Line for Each<'a> {
    ghost number = { λ line place. slice_index_or line.0.now place (pos 0) };

    ghost has = { λ line place. place < length line.0.now };

    #[inline(always)]
    fn at(&self, place: usize) -> i64 {
        self.0[place]
    }
}

/// Numbers at places that are a step apart, or one number, where the step is 0.
#[derive(Clone, Copy)]
pub(crate) struct Stepped<'a> {
    pub(crate) numbers: &'a [i64],
    pub(crate) from: usize,
    pub(crate) step: usize,
}

impl<'a> Line for Stepped<'a> {
    ghost number = { λ line place. slice_index_or line.numbers.now (line.from + place * line.step) (pos 0) };

    ghost has = { λ line place. line.from + place * line.step < length line.numbers.now };

    #[inline(always)]
    fn at(&self, place: usize) -> i64 {
        self.numbers[self.from + place * self.step]
    }
}

/// Writes a number at each place, and says whether all are values that were found, by one test of the flags of all.
#[inline(always)]
fn fill<F: Attempt, X: Line, Y: Line>(x: &X, y: &Y, out: &mut [i64]) -> bool
    requires x { (k : ℕ) → k < length out.old → X.has x.now k }
    requires y { (k : ℕ) → k < length out.old → Y.has y.now k }
    ensures values { IsTrue result → (k : ℕ) → k < length out.new → F.meaning (X.number x.now k) (Y.number y.now k) ≡ Ok (slice_index_or out.new k (pos 0)) }
    ensures missed { IsFalse result → SomeIndex out.new (λ k. F.finds (X.number x.now k) (Y.number y.now k) → ⊥) }
{
    let mut flags = 0i64;
    for i in 0..out.len() {
        let (value, flag) = F::attempt(x.at(i), y.at(i));
        out[i] = value;
        flags = either(flags, flag);
    }
    0 <= flags
}

/// Writes the value at each place, each tested before the next.
fn test<F: Attempt, X: Line, Y: Line>(x: &X, y: &Y, out: &mut [i64]) -> Result<(), Fault>
    requires x { (k : ℕ) → k < length out.old → X.has x.now k }
    requires y { (k : ℕ) → k < length out.old → Y.has y.now k }
    ensures { all_ok (λ k. F.meaning (X.number x.now k) (Y.number y.now k)) (range_with_len 0 (length out.old)) ≡ ok_map (λ u. out.new) result }
{
    for i in 0..out.len() {
        match F::apply(x.at(i), y.at(i)) {
            Ok(value) => out[i] = value,
            Err(fault) => return Err(fault),
        }
    }
    Ok(())
}

/// Writes the value at each place. Only where a flag is raised is there a test at each, and then the first fault decides.
#[inline(always)]
pub(crate) fn meet<F: Attempt, X: Line, Y: Line>(x: &X, y: &Y, out: &mut [i64]) -> Result<(), Fault>
    requires x { (k : ℕ) → k < length out.old → X.has x.now k }
    requires y { (k : ℕ) → k < length out.old → Y.has y.now k }
    ensures { all_ok (λ k. F.meaning (X.number x.now k) (Y.number y.now k)) (range_with_len 0 (length out.old)) ≡ ok_map (λ u. out.new) result }
{
    if fill::<F, X, Y>(x, y, out) {
        return Ok(());
    }
    test::<F, X, Y>(x, y, out)
}
