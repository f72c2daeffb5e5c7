// The numbers of operands, as if at random and the same in each run.
use Numbers::{Divisor, Factor, Few, Index, Member, Multiple, One, Term, Truth, Weight};
use Width::{I8, I32, I64};

/// The first place of a second operand, far from those of a first one.
pub(crate) const APART: u64 = 1_000_000_007;

/// A type that stores numbers.
#[derive(Clone, Copy, PartialEq, Eq)]
pub(crate) enum Width {
    I64,
    I32,
    I8,
}

/// The types with which kernels are timed.
pub(crate) const WIDTHS: &[Width] = &[I64, I32, I8];

impl Width {
    pub(crate) fn name(self) -> &'static str {
        match self {
            I64 => "i64",
            I32 => "i32",
            I8 => "i8",
        }
    }
}

/// The numbers of an operand. Most kinds have others in a row of each type, such that no narrower type holds all of them.
#[derive(Clone, Copy)]
pub(crate) enum Numbers {
    /// Either way from 0, such that the sum of two stays in the type.
    Term,
    /// Such that the product of two stays in the type.
    Factor,
    /// Such that 1000 products with factors have a sum.
    Weight,
    /// One of eight, so that two are often equal.
    Few,
    /// From 1.
    Divisor,
    /// At each place a multiple of 7 and of the second operand's divisor there.
    Multiple,
    /// From a number to twice the number of elements above it, so that about half of those of one operand are in the other one; in bytes 0 to
    /// 127.
    Member,
    /// 0 and 1, in bytes.
    Truth,
    /// 1 alone, in bytes.
    One,
    /// 1 to the number of elements, in 32 bits.
    Index,
}

/// So many numbers, from the first in equal steps.
#[derive(Clone, Copy)]
struct Range {
    first: i64,
    step: i64,
    count: u64,
}

fn among(first: i64, step: i64, count: u64) -> Range {
    Range { first, step, count }
}

/// A number below 2^31 for a place, spread as if at random.
fn spread(place: u64) -> u32 {
    let once = place.wrapping_mul(0x9E37_79B9_7F4A_7C15);
    let twice = (once ^ once / 0x1_0000_0000).wrapping_mul(0xD6E8_FEB8_6659_FD93);
    (twice / 0x2_0000_0000) as u32
}

impl Range {
    /// The one of its numbers that a place has.
    fn at(self, place: u64) -> i64 {
        let chosen = u64::from(spread(place)) % self.count.max(1);
        self.first
            .wrapping_add(self.step.wrapping_mul(chosen as i64))
    }
}

impl Numbers {
    /// Whether they are only 0 and 1.
    pub(crate) fn are_booleans(self) -> bool {
        matches!(self, Truth | One)
    }

    /// The type that stores them in a row of this type.
    pub(crate) fn stored(self, width: Width) -> Width {
        match self {
            Truth | One => I8,
            Index => I32,
            _ => width,
        }
    }

    /// Which numbers there are, where a vector has so many elements.
    fn range(self, width: Width, size: u64) -> Range {
        match (self, width) {
            (Term, I64) => among(-1_000_000_000_000, 1000, 2_000_000_000),
            (Term, I32) => among(-1_000_000, 1, 2_000_001),
            (Term, I8) => among(-64, 1, 128),
            (Factor, I64) => among(-3_000_000_000, 3, 2_000_000_000),
            (Factor, I32) => among(-46_340, 1, 92_681),
            (Factor | Weight, I8) => among(-11, 1, 23),
            (Weight, I64) => among(-3_000_000, 1, 6_000_001),
            (Weight, I32) => among(-400, 1, 801),
            (Few, I64) => among(0, 10_000_000_000, 8),
            (Few, I32) => among(0, 100_000_000, 8),
            (Few, I8) => among(0, 1, 8),
            (Divisor, I64) => among(1, 5, 2_000_000_000),
            (Divisor, I32) => among(1, 1, 1000),
            (Divisor, I8) => among(1, 1, 9),
            (Multiple, I64 | I32) => among(0, 7, 65_536),
            (Multiple, I8) => among(0, 7, 3),
            (Member, I64) => among(1_000_000_000_000, 1, size.saturating_mul(2)),
            (Member, I32) => among(0, 1, size.saturating_mul(2)),
            (Member, I8) => among(0, 1, 128),
            (Truth, _) => among(0, 1, 2),
            (One, _) => among(1, 1, 1),
            (Index, _) => among(1, 1, size),
        }
    }

    /// The number for a place in a row of this type, where a vector has so many elements.
    pub(crate) fn at(self, width: Width, place: u64, size: u64) -> i64 {
        let number = self.range(width, size).at(place);
        match self {
            Multiple => {
                let divisor = Divisor.range(width, size).at(place.wrapping_add(APART));
                number.wrapping_mul(divisor)
            }
            _ => number,
        }
    }
}
