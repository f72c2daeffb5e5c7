//! The lists and texts of a file.
ghost use Rattle.std.specs.Prelude.{◌≡◌, string_bytes};

use std::alloc::Global;
use std::marker::Model;

/// A list of a file. Contracts see it as the list of its items.
#[derive(Drop)]
pub struct ListField<T> {
    items: Vec<T>,
}

impl<T> Model for ListField<T> {
    ghost use Rattle.std.specs.Prelude.{List};

    ghost Value = { List T };

    ghost view = { λ l. l.items.items };
}

impl<T> ListField<T> {
    /// The list of these items. It takes no memory.
    pub fn new(items: Vec<T>) -> ListField<T>
        ensures { result ≡ items.items }
    {
        ListField { items }
    }

    /// Its items.
    pub fn as_slice(&self) -> &[T]
        ensures { result.now ≡ self.now }
    {
        self.items.as_slice()
    }
}

/// A text of a file. Contracts see it as the bytes of its UTF-8.
#[derive(Drop)]
pub struct TextField {
    text: String,
}

impl Model for TextField {
    ghost use Rattle.std.specs.Prelude.{List, ℕ, string_bytes};

    ghost Value = { List ℕ };

    ghost view = { λ t. string_bytes t.text };
}

impl TextField {
    /// This text. It takes no memory.
    pub fn new(text: String) -> TextField
        ensures { result ≡ string_bytes text }
    {
        TextField { text }
    }

    /// It, as Rust has a text.
    pub fn as_str(&self) -> &str
        ensures { result.now ≡ self.now }
    {
        self.text.as_str()
    }
}
