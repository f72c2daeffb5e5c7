// The scalar functions of primitives.
ghost use Rattle.std.specs.Prelude.{◌≡◌};
ghost use Rattle.apl_primitives.specs.Tables.{monadic_of, dyadic_of};

use apl_scalar::{Dyadic, Monadic};
use apl_symbols::Primitive;

/// The monadic scalar function of a primitive.
pub(crate) fn monadic_of(primitive: Primitive) -> Option<Monadic>
    ensures { result ≡ monadic_of primitive }
{
    match primitive {
        Primitive::Plus => Some(Monadic::Plus),
        Primitive::Minus => Some(Monadic::Minus),
        Primitive::Times => Some(Monadic::Times),
        Primitive::Divide => Some(Monadic::Divide),
        Primitive::Upstile => Some(Monadic::Ceiling),
        Primitive::Downstile => Some(Monadic::Floor),
        Primitive::Stile => Some(Monadic::Magnitude),
        Primitive::Tilde => Some(Monadic::Not),
        Primitive::Bang => Some(Monadic::Factorial),
        _ => None,
    }
}

/// The dyadic scalar function of a primitive.
pub(crate) fn dyadic_of(primitive: Primitive) -> Option<Dyadic>
    ensures { result ≡ dyadic_of primitive }
{
    match primitive {
        Primitive::Plus => Some(Dyadic::Plus),
        Primitive::Minus => Some(Dyadic::Minus),
        Primitive::Times => Some(Dyadic::Times),
        Primitive::Divide => Some(Dyadic::Divide),
        Primitive::Star => Some(Dyadic::Power),
        Primitive::Upstile => Some(Dyadic::Maximum),
        Primitive::Downstile => Some(Dyadic::Minimum),
        Primitive::Stile => Some(Dyadic::Residue),
        Primitive::Less => Some(Dyadic::Less),
        Primitive::NotGreater => Some(Dyadic::NotGreater),
        Primitive::Equal => Some(Dyadic::Equal),
        Primitive::NotLess => Some(Dyadic::NotLess),
        Primitive::Greater => Some(Dyadic::Greater),
        Primitive::NotEqual => Some(Dyadic::NotEqual),
        Primitive::And => Some(Dyadic::And),
        Primitive::Or => Some(Dyadic::Or),
        Primitive::Nand => Some(Dyadic::Nand),
        Primitive::Nor => Some(Dyadic::Nor),
        _ => None,
    }
}
