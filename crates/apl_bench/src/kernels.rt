// What is timed: the table of kernels.
use crate::numbers::Numbers::{
    Divisor, Factor, Few, Index, Member, Multiple, One, Term, Truth, Weight,
};
use crate::numbers::{APART, Width};
use crate::operands::Operand::{Cube, Edge, Seven, Square, Vector};
use crate::operands::{Operand, Place};
use Phrase::{Derived, Dyadic, Inner, Monadic, Outer, Select};
use Phrases::{After, Once};
use apl_arrays::{Array, Origin, Stop};
use apl_code::{Function, Row};
use apl_primitives::{Arguments, phrase_value};
use apl_symbols::Operator::{Slash, SlashBar, Slope};
use apl_symbols::Primitive::{
    And, CircleSlope, CircleStile, Divide, Epsilon, Equal, GradeUp, Iota, Minus, NotGreater, Plus,
    Stile, Tilde, Times, Upstile,
};
use apl_symbols::{Operator, Primitive};
use std::alloc::Global;

/// The index origin.
const ORIGIN: Origin = Origin::One;

/// A phrase without its operands. It is a [`Row`] that names no variable.
#[derive(Clone, Copy)]
pub(crate) enum Phrase {
    Monadic(Primitive),
    Dyadic(Primitive),
    /// A reduction or a scan.
    Derived(Primitive, Operator),
    Outer(Primitive),
    Inner(Primitive, Primitive),
    Select,
}

/// The phrases of an expression.
#[derive(Clone, Copy)]
pub(crate) enum Phrases {
    Once(Phrase),
    /// A phrase of what another one gives.
    After(Phrase, Phrase),
}

/// The expression by which the tables show a kernel, where a small letter is a vector, a capital one a table and a digit a scalar; its
/// phrases; and its operands A and B, of which a function of one array takes B. Each has a row for each type that stores their numbers, and one
/// where B has Booleans.
pub(crate) struct Kernel(&'static str, Phrases, Option<Operand>, Operand);

/// Each kernel that is timed, a line each. The operands are such that each element has a value.
pub(crate) const KERNELS: &[Kernel] = &[
    Kernel("a+b", Once(Dyadic(Plus)), Some(Vector(Term)), Vector(Term)),
    Kernel("a-b", Once(Dyadic(Minus)), Some(Vector(Term)), Vector(Term)),
    Kernel(
        "a×b",
        Once(Dyadic(Times)),
        Some(Vector(Factor)),
        Vector(Factor),
    ),
    Kernel(
        "a÷b",
        Once(Dyadic(Divide)),
        Some(Vector(Multiple)),
        Vector(Divisor),
    ),
    Kernel(
        "a|b",
        Once(Dyadic(Stile)),
        Some(Vector(Divisor)),
        Vector(Term),
    ),
    Kernel(
        "a⌈b",
        Once(Dyadic(Upstile)),
        Some(Vector(Term)),
        Vector(Term),
    ),
    Kernel(
        "a≤b",
        Once(Dyadic(NotGreater)),
        Some(Vector(Term)),
        Vector(Term),
    ),
    Kernel("a=b", Once(Dyadic(Equal)), Some(Vector(Few)), Vector(Few)),
    Kernel("a∧b", Once(Dyadic(And)), Some(Vector(Truth)), Vector(Truth)),
    Kernel("~b", Once(Monadic(Tilde)), None, Vector(Truth)),
    Kernel("7+b", Once(Dyadic(Plus)), Some(Seven), Vector(Term)),
    Kernel("7×b", Once(Dyadic(Times)), Some(Seven), Vector(Factor)),
    Kernel("a÷7", Once(Dyadic(Divide)), Some(Vector(Multiple)), Seven),
    Kernel("7|b", Once(Dyadic(Stile)), Some(Seven), Vector(Term)),
    Kernel("7≤b", Once(Dyadic(NotGreater)), Some(Seven), Vector(Term)),
    Kernel("-b", Once(Monadic(Minus)), None, Vector(Term)),
    Kernel("|b", Once(Monadic(Stile)), None, Vector(Term)),
    Kernel("+/b", Once(Derived(Plus, Slash)), None, Vector(Term)),
    Kernel("⌈/b", Once(Derived(Upstile, Slash)), None, Vector(Term)),
    Kernel("∧/b", Once(Derived(And, Slash)), None, Vector(One)),
    Kernel("+⌿B", Once(Derived(Plus, SlashBar)), None, Square(Term)),
    Kernel(
        "+/⍉B",
        After(Monadic(CircleSlope), Derived(Plus, Slash)),
        None,
        Square(Term),
    ),
    Kernel(
        "+/A×B",
        After(Dyadic(Times), Derived(Plus, Slash)),
        Some(Square(Factor)),
        Square(Weight),
    ),
    Kernel("+\\b", Once(Derived(Plus, Slope)), None, Vector(Term)),
    Kernel("⌈\\b", Once(Derived(Upstile, Slope)), None, Vector(Term)),
    Kernel("⌽b", Once(Monadic(CircleStile)), None, Vector(Term)),
    Kernel("⍉B", Once(Monadic(CircleSlope)), None, Square(Term)),
    Kernel("⍋b", Once(Monadic(GradeUp)), None, Vector(Term)),
    Kernel(
        "a/b",
        Once(Dyadic(Primitive::Slash)),
        Some(Vector(Truth)),
        Vector(Term),
    ),
    Kernel("b[a]", Once(Select), Some(Vector(Index)), Vector(Term)),
    Kernel(
        "a⍳b",
        Once(Dyadic(Iota)),
        Some(Vector(Member)),
        Vector(Member),
    ),
    Kernel(
        "a∊b",
        Once(Dyadic(Epsilon)),
        Some(Vector(Member)),
        Vector(Member),
    ),
    Kernel(
        "a∘.×b",
        Once(Outer(Times)),
        Some(Edge(Factor)),
        Edge(Factor),
    ),
    Kernel(
        "A+.×B",
        Once(Inner(Plus, Times)),
        Some(Cube(Factor)),
        Cube(Weight),
    ),
];

/// The operands of a kernel, the first one, if there is one, as the one item of an index list.
#[derive(Drop)]
pub(crate) struct Operands {
    left: [Option<Array>; 1],
    right: Array,
}

impl Phrase {
    fn row(self) -> Row {
        match self {
            Monadic(function) => Row::Monadic(Function::Primitive(function)),
            Dyadic(function) => Row::Dyadic(Function::Primitive(function)),
            Derived(function, operator) => Row::Reduce(Function::Primitive(function), operator),
            Outer(function) => Row::Outer(Function::Primitive(function)),
            Inner(first, second) => {
                Row::Inner(Function::Primitive(first), Function::Primitive(second))
            }
            Select => Row::Select,
        }
    }

    fn value(self, alloc: Global, arguments: Arguments<'_>) -> Result<Array, Stop> {
        phrase_value(alloc, &self.row(), arguments, ORIGIN)
    }
}

impl Operands {
    /// What a phrase takes of them.
    fn arguments(&self, phrase: Phrase) -> Arguments<'_> {
        if let Select = phrase {
            return Arguments::Selected(&self.right, &self.left);
        }
        match &self.left {
            [Some(left)] => Arguments::Two(left, &self.right),
            [None] => Arguments::One(&self.right),
        }
    }
}

impl Kernel {
    pub(crate) fn name(&self) -> &'static str {
        self.0
    }

    /// Whether it has a row with numbers of this type.
    pub(crate) fn has(&self, width: Width) -> bool {
        width == Width::I8 || !self.3.has_booleans()
    }

    /// The operands in a row of this type, where a vector has so many elements.
    pub(crate) fn operands(
        &self,
        alloc: Global,
        width: Width,
        size: u64,
    ) -> Result<Operands, Stop> {
        let at = |from| Place { width, from, size };
        let left = match self.2 {
            Some(left) => Some(left.array(alloc, at(0))?),
            None => None,
        };
        let right = self.3.array(alloc, at(APART))?;
        Ok(Operands {
            left: [left],
            right,
        })
    }

    /// The result.
    pub(crate) fn apply(&self, alloc: Global, operands: &Operands) -> Result<Array, Stop> {
        match self.1 {
            Once(phrase) => phrase.value(alloc, operands.arguments(phrase)),
            After(first, second) => {
                let made = first.value(alloc, operands.arguments(first))?;
                second.value(alloc, Arguments::One(&made))
            }
        }
    }
}
