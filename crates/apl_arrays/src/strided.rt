// What a view reads.
use crate::axis::Axis;
use crate::elements::Elements;

/// Elements, and where among them each index list stands: the offset, and for each axis its steps more.
#[derive(Clone, Copy)]
pub struct Strided<'v> {
    pub items: Elements<'v>,
    pub offset: usize,
    pub axes: &'v [Axis],
}
