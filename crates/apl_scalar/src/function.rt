// The scalar functions.
ghost use Rattle.std.specs.Prelude.{◌≡◌, ◌≤ℤ◌, ◌<ℤ◌, ℤ, Result, pos, Ok, IsErr};
ghost use Rattle.apl_faults.specs.declared.fault.Fault.{Fault};

use apl_faults::Fault;

/// The scalar functions of one argument.
#[derive(Clone, Copy, Debug, PartialEq, Eq)]
pub enum Monadic {
    /// The number itself.
    Plus,
    /// The negation.
    Minus,
    /// The sign: -1, 0 or 1.
    Times,
    /// The reciprocal, which 1 and -1 alone have. Any other number is a domain fault.
    Divide,
    /// The number rounded up, which is itself.
    Ceiling,
    /// The number rounded down, which is itself.
    Floor,
    /// The number without its sign.
    Magnitude,
    /// 1 for 0, and 0 for 1. Any other number is a domain fault.
    Not,
    /// The product of the numbers from 1 to the argument. A negative one is a domain fault.
    Factorial,
}

/// The scalar functions of two arguments.
#[derive(Clone, Copy, Debug, PartialEq, Eq)]
pub enum Dyadic {
    /// The sum.
    Plus,
    /// The difference.
    Minus,
    /// The product.
    Times,
    /// The exact quotient. That of 0 by 0 is 1; by another zero, or where there is none, it is a domain fault.
    Divide,
    /// The first argument to the power of the second. A negative power of another number than 1 and -1 is a domain fault.
    Power,
    /// The greater one.
    Maximum,
    /// The lesser one.
    Minimum,
    /// What is left of the second argument when it is divided by the first. It has the first one's sign.
    Residue,
    /// Whether the first argument is less, as 1 or 0.
    Less,
    /// Whether the first argument is not greater.
    NotGreater,
    /// Whether the arguments are the same. They may be characters, and a character is no number.
    Equal,
    /// Whether the first argument is not less.
    NotLess,
    /// Whether the first argument is greater.
    Greater,
    /// Whether the arguments differ. They may be characters.
    NotEqual,
    /// Whether both truth values are 1. Another number than 0 and 1 is a domain fault.
    And,
    /// Whether a truth value is 1.
    Or,
    /// Whether a truth value is 0.
    Nand,
    /// Whether both truth values are 0.
    Nor,
}

/// A scalar function that the compiler knows, so that a loop over it needs no dispatch. One of a single argument takes it on the right.
pub trait Scalar {
    /// The function of numbers without bounds.
    ghost meaning: { ℤ → ℤ → Result ℤ Fault };

    /// Its value, or its fault.
    fn apply(x: i64, y: i64) -> Result<i64, Fault>
        ensures { result ≡ meaning x y };

    /// A number and a flag, which is negative exactly where the numbers have no value. Else the number is the value.
    #[inline(always)]
    fn tried(x: i64, y: i64) -> (i64, i64)
        ensures value { pos 0 ≤ℤ result.1 → meaning x y ≡ Ok result.0 }
        ensures none { result.1 <ℤ pos 0 → IsErr (meaning x y) }
    {
        match Self::apply(x, y) {
            Ok(value) => (value, 0),
            Err(_) => (0, -1),
        }
    }
}
