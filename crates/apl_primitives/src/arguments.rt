// What a phrase takes.

use apl_arrays::Array;

/// The values and index lists that a phrase takes, in the order of its text.
#[derive(Clone, Copy)]
pub enum Arguments<'a> {
    /// `B`
    One(&'a Array),
    /// `B B`
    Two(&'a Array, &'a Array),
    /// `K B`
    ListAndOne(&'a [Option<Array>], &'a Array),
    /// `B K B`
    AlongTwo(&'a Array, &'a [Option<Array>], &'a Array),
    /// `B K`
    Selected(&'a Array, &'a [Option<Array>]),
    /// Anything else.
    Other,
}
