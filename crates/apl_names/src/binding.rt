//! What a name stands for.
ghost use Rattle.std.specs.Prelude.{◌≡◌, ◌≢◌, ℕ, pos, is_some, unwrap_or, option_copied, MatchOption, Some, IfOk};
ghost use Rattle.apl_arrays.specs.declared.cell.Cell.TheVariants.{Num};
ghost use Rattle.apl_arrays.specs.Simple.{single};
ghost use Rattle.apl_names.specs.declared.binding.Binding.TheVariants.{Label};
ghost use Rattle.apl_names.specs.Maps.{value_in, number_in, class_in, is_function, set_value, takes_value, with_value};

use crate::function::DefinedFunction;
use apl_arrays::Array;
use apl_symbols::Class;
use std::mem;

/// What a map says of a name that it has.
#[derive(Drop)]
pub enum Binding {
    /// No value, as of a local that isn't assigned yet.
    Unset,
    /// A label: the number of its line.
    Label(u16),
    /// A variable.
    Value(Array),
    /// A defined function.
    Function(DefinedFunction),
}

impl Binding {
    /// Its value, if it has one.
    pub(crate) fn value(&self) -> Option<&Array>
        ensures { option_copied result ≡ value_in (Some self.now) }
    {
        match self {
            Binding::Value(value) => Some(value),
            Binding::Unset => None,
            Binding::Label(_) => None,
            Binding::Function(_) => None,
        }
    }

    /// The number that it gives where it is read: that which its value is, or of its line.
    #[inline(always)]
    pub(crate) fn number(&self) -> Option<i64>
        ensures { result ≡ number_in (Some self.now) }
    {
        match self {
            Binding::Value(value) => value.as_number(),
            other => other.line(),
        }
    }

    /// The number of its line, where it is a label. It stands apart, since most names that are read have a value.
    #[inline(never)]
    fn line(&self) -> Option<i64>
        ensures { MatchOption result ((line : ℕ) → self.now ≢ Label line) (λ number. (line : ℕ) × (self.now ≡ Label line) × (number ≡ pos line)) }
    {
        match self {
            Binding::Label(line) => Some(i64::from(*line)),
            _ => None,
        }
    }

    /// Its value, moved out of it, if it has one.
    pub(crate) fn into_value(self) -> Option<Array>
        ensures { result ≡ value_in (Some self) }
    {
        match self {
            Binding::Value(value) => Some(value),
            Binding::Unset => None,
            Binding::Label(_) => None,
            Binding::Function(_) => None,
        }
    }

    /// Swaps its value, if it has one, with another, and says whether it has one.
    pub(crate) fn swap(&mut self, value: &mut Array) -> bool
        ensures told { result ≡ is_some (value_in (Some self.old)) }
        ensures taken { value.new ≡ unwrap_or (value_in (Some self.old)) value.old }
        ensures put { Some self.new ≡ with_value value.old (Some self.old) }
    {
        match self {
            Binding::Value(own) => {
                mem::swap(own, value);
                true
            }
            Binding::Unset | Binding::Label(_) | Binding::Function(_) => false,
        }
    }

    /// Writes a number in place over its value, or where it is unset, and says whether it did: a label or a function takes none.
    pub(crate) fn put_number(&mut self, number: i64) -> bool
        ensures told { result ≡ takes_value (Some self.old) }
        ensures put { Some self.new ≡ set_value (single (Num number)) (Some self.old) }
    {
        match self {
            Binding::Value(own) => {
                own.put_number(number);
                true
            }
            Binding::Unset => {
                *self = Binding::Value(Array::number(number));
                true
            }
            _ => false,
        }
    }

    /// The class of a name that stands for it.
    pub(crate) fn class(&self) -> Class
        ensures { result ≡ class_in (Some self.now) }
    {
        match self {
            Binding::Function(function) => function.definition().class(),
            Binding::Unset => Class::Variable,
            Binding::Label(_) => Class::Variable,
            Binding::Value(_) => Class::Variable,
        }
    }

    /// Whether it is a function.
    pub(crate) fn is_function(&self) -> bool
        ensures { result ≡ is_function self.now }
    {
        matches!(self, Binding::Function(_))
    }
}
