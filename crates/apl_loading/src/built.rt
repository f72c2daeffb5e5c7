//! What is made of a field beside its part.

/// The part that is made of a context or of its line, what that awaits, and the listing that the line has.
#[derive(Drop)]
pub(crate) struct Built<P: Drop, A: Drop> {
    pub(crate) part: P,
    pub(crate) awaits: A,
    pub(crate) listing: Vec<u8>,
}
