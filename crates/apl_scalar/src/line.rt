// Numbers of a lane by places, in a form that the compiler knows.
ghost use Rattle.std.specs.Prelude.{◌≡◌, ◌<◌, ◌+◌, ℕ, ℤ, length, pos, slice_index_or, IfSome};

use apl_arrays::Lane;

/// Numbers by places where they lie: one that serves at each place, or one for each place.
#[derive(Clone, Copy)]
pub(crate) enum Laid<'a, L> {
    One(L),
    Many(&'a [L]),
}

/// Numbers by places.
pub(crate) trait Line<L: Lane>: Copy {
    /// The number for a place.
    ghost number: { Self → ℕ → ℤ };

    /// There is a number for a place.
    ghost has: { Self → ℕ → Type 0 };

    /// The number for a place.
    fn at(self, place: usize) -> L
        requires { has self place }
        ensures { L.value result ≡ number self place };

    /// The numbers for the places from one on.
    fn after(self, from: usize) -> Self
        requires { has self from }
        ensures has { (k : ℕ) → has self (from + k) → has result k }
        ensures number { (k : ℕ) → number result k ≡ number self (from + k) };

    /// The number that serves at each place, if there is one.
    fn only(self) -> Option<L>
        ensures { IfSome result (λ x. (k : ℕ) → number self k ≡ L.value x) };
}

/// One number, which serves at each place.
#[derive(Clone, Copy)]
pub(crate) struct Same<L>(pub(crate) L);

impl<L: Lane> Line<L> for Same<L> {
    ghost number = { λ line _. L.value line.0 };

    ghost has = { λ _ _. Unit {0} };

    #[inline(always)]
    fn at(self, _place: usize) -> L {
        self.0
    }

    #[inline(always)]
    fn after(self, _from: usize) -> Same<L> {
        self
    }

    #[inline(always)]
    fn only(self) -> Option<L> {
        Some(self.0)
    }
}

/// A number for each place.
#[derive(Clone, Copy)]
pub(crate) struct Each<'a, L>(pub(crate) &'a [L]);

impl<'a, L: Lane> Line<L> for Each<'a, L> {
    ghost number = { λ line place. slice_index_or (L.numbers line.0.now) place (pos 0) };

    ghost has = { λ line place. place < length line.0.now };

    #[inline(always)]
    fn at(self, place: usize) -> L {
        self.0[place]
    }

    #[inline(always)]
    fn after(self, from: usize) -> Each<'a, L> {
        Each(&self.0[from..])
    }

    #[inline(always)]
    fn only(self) -> Option<L> {
        None
    }
}
