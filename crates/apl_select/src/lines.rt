// An array along an axis.
ghost use Rattle.std.specs.Prelude.{◌≡◌, ◌+◌, ◌*◌, ◌^◌, ◌<◌, ◌≤◌, max, length, take, drop, slice_index_or, IfOk, ◌++◌, map, replicate, OnOk};
ghost use Rattle.std.specs.List.{All};
ghost use Rattle.std.specs.Option.{option_map};
ghost use Rattle.apl_arrays.specs.Along.{axis_along};
ghost use Rattle.apl_arrays.specs.Answers.{Answers};
ghost use Rattle.apl_arrays.specs.Cells.{cells_of};
ghost use Rattle.apl_arrays.specs.Index.{bound_of, size_of};
ghost use Rattle.apl_arrays.specs.Left.{listed};
ghost use Rattle.apl_arrays.specs.Origins.{origin_number};
ghost use Rattle.apl_arrays.specs.Results.{ok_map};
ghost use Rattle.apl_arrays.specs.Views.{on_axis};
ghost use Rattle.apl_select.specs.inside.Laying.{IsBelow, block_of, plane_of};
ghost use Rattle.apl_select.specs.Lined.{laid_within, lined_shape, or_first, item_or};

use apl_arrays::{
    Along, Array, Elements, MAX_ELEMENTS, Origin, Stop, Structural, size, within_limits,
};
use apl_faults::Fault;
use std::alloc::{AllocError, Global};

/// The lengths of the axes, where a scalar has one of length 1.
pub(crate) fn lined_shape(shape: &[usize]) -> &[usize]
    ensures { result.now ≡ lined_shape shape.now }
{
    if shape.is_empty() { &[1] } else { shape }
}

/// The axis to go along, from 0. That of a scalar is its only one.
pub(crate) fn axis_in(along: Along, rank: usize, origin: Origin) -> Result<usize, Fault>
    ensures value { result ≡ ok_map or_first (axis_along along.entry rank (origin_number origin)) }
    ensures within { IfOk result (λ axis. axis < max rank 1) }
{
    match along.axis(rank, origin)? {
        Some(axis) => Ok(axis),
        None => Ok(0),
    }
}

/// The lengths of the axes, where one axis gets another length.
fn with_length(
    alloc: Global,
    shape: &[usize],
    axis: usize,
    len: usize,
) -> Result<Vec<usize>, AllocError>
    requires { axis < length shape.now }
    ensures { IfOk result (λ v. v.items ≡ on_axis axis (λ n. len) shape.now) }
{
    let mut lengths = Vec::from_slice(alloc, shape)?;
    lengths[axis] = len;
    Ok(lengths)
}

/// How elements lie around an axis.
fn layout_of(shape: &[usize], axis: usize) -> Layout
    requires axis { axis < length shape.now }
    requires small { bound_of shape.now ≤ MAX_ELEMENTS }
    ensures planes { result.planes ≡ size_of (take axis shape.now) }
    ensures length { result.length ≡ slice_index_or shape.now axis 0 }
    ensures block { result.block ≡ size_of (drop (axis + 1) shape.now) }
    ensures near { result.planes * result.length < 2 ^ 62 }
{
    Layout {
        planes: size(shape.split_at(axis).0),
        length: shape[axis],
        block: size(shape.split_at(axis + 1).1),
    }
}

/// The array of the elements at places along an axis, with fills where there is no place. It is a limit fault where there is no such array.
pub(crate) fn laid(
    alloc: Global,
    items: Elements<'_>,
    shape: &[usize],
    axis: usize,
    places: &[Option<usize>],
) -> Result<Array, Stop>
    requires axis { axis < length shape.now }
    requires full { length (cells_of (listed items)) ≡ size_of shape.now }
    requires small { bound_of shape.now ≤ MAX_ELEMENTS }
    requires places { All (IsBelow (slice_index_or shape.now axis 0)) places.now }
    ensures { Answers (λ r. r) (laid_within axis places.now (record { shape = shape.now; items = listed items.entry })) result }
{
    let lengths = with_length(alloc, shape, axis, places.len())?;
    within_limits(lengths.as_slice())?;
    let laying = Laying {
        layout: layout_of(shape, axis),
        places,
        room: size(lengths.as_slice()),
    };
    let ravel = items.made_by(alloc, laying)?;
    Ok(Array::in_shape(alloc, lengths.as_slice(), ravel)?)
}

/// How the elements of an array lie around an axis: so many planes, each of so many blocks of elements along the axis.
#[derive(Clone, Copy)]
pub(crate) struct Layout {
    pub(crate) planes: usize,
    pub(crate) length: usize,
    pub(crate) block: usize,
}

/// The element at a place, counted from the row `first` on, or the fill.
#[inline(always)]
fn element<T: Copy>(raw: &[T], fill: T, first: usize, place: Option<usize>) -> T
    requires { IsBelow (length raw.now) (option_map (λ k. first + k) place) }
    ensures { result ≡ item_or fill raw.now (option_map (λ k. first + k) place) }
{
    match place {
        Some(place) => raw[first + place],
        None => fill,
    }
}

/// Appends the elements at places along an axis of which nothing lies behind, counted from the row `first` on.
fn lay_line<T: Copy>(
    raw: &[T],
    fill: T,
    first: usize,
    places: &[Option<usize>],
    out: &mut Vec<T>,
) -> Result<(), AllocError>
    requires { All (λ o. IsBelow (length raw.now) (option_map (λ k. first + k) o)) places.now }
    ensures { OnOk result (out.new.items ≡ out.old.items ++ map (λ o. item_or fill raw.now (option_map (λ k. first + k) o)) places.now) }
{
    for place in places {
        out.push(element(raw, fill, first, *place))?;
    }
    Ok(())
}

/// Appends so many fills.
fn push_fills<T: Copy>(fill: T, count: usize, out: &mut Vec<T>) -> Result<(), AllocError>
    ensures { OnOk result (out.new.items ≡ out.old.items ++ replicate count fill) }
{
    for _ in 0..count {
        out.push(fill)?;
    }
    Ok(())
}

/// Appends the block of elements at a place, or as many fills.
fn lay_block<T: Copy>(
    raw: &[T],
    fill: T,
    first: usize,
    block: usize,
    place: Option<usize>,
    out: &mut Vec<T>,
) -> Result<(), AllocError>
    requires within { IsBelow (length raw.now + 1) (option_map (λ k. (first + k) * block + block) place) }
    requires near { IsBelow (2 ^ 63) (option_map (λ k. first + k) place) }
    ensures { OnOk result (out.new.items ≡ out.old.items ++ block_of (item_or fill raw.now) first block place) }
{
    match place {
        Some(place) => {
            let start = (first + place) * block;
            out.extend_from_slice(&raw[start..start + block])?;
            Ok(())
        }
        None => {
            push_fills(fill, block, out)?;
            Ok(())
        }
    }
}

/// Appends what lies at places along an axis, counted from the row `first` on. Single elements have a loop of their own.
fn lay_plane<T: Copy>(
    raw: &[T],
    fill: T,
    first: usize,
    block: usize,
    places: &[Option<usize>],
    out: &mut Vec<T>,
) -> Result<(), AllocError>
    requires within { All (λ o. IsBelow (length raw.now + 1) (option_map (λ k. (first + k) * block + block) o)) places.now }
    requires near { All (λ o. IsBelow (2 ^ 63) (option_map (λ k. first + k) o)) places.now }
    ensures { OnOk result (out.new.items ≡ out.old.items ++ plane_of (item_or fill raw.now) first block places.now) }
{
    if block == 1 {
        lay_line(raw, fill, first, places, out)?;
        return Ok(());
    }
    for place in places {
        lay_block(raw, fill, first, block, *place, out)?;
    }
    Ok(())
}

/// Elements at places along the axis, plane by plane, with fills where there is no place, and the room for them.
#[derive(Clone, Copy)]
pub(crate) struct Laying<'p> {
    pub(crate) layout: Layout,
    pub(crate) places: &'p [Option<usize>],
    pub(crate) room: usize,
}

impl<'p> Structural for Laying<'p> {
    ghost use Rattle.apl_select.specs.inside.Laying.{planes_of, IsLaid};
    ghost use Rattle.apl_select.specs.Lined.{item_or};

    ghost takes = { IsLaid };

    ghost makes = { λ A l d fill xs. planes_of (item_or fill xs) l.layout.length l.layout.block l.places.now l.layout.planes };

    fn make<T: Copy>(self, alloc: Global, items: &[T], fill: T) -> Result<Vec<T>, AllocError> {
        let mut out = Vec::with_capacity(alloc, self.room)?;
        let Layout {
            planes,
            length,
            block,
        } = self.layout;
        for plane in 0..planes {
            lay_plane(items, fill, plane * length, block, self.places, &mut out)?;
        }
        Ok(out)
    }
}
