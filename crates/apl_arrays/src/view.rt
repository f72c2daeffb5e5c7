// Views of arrays, without memory of their own.
ghost use Rattle.std.specs.Prelude.{◌≡◌, ◌+◌, ◌<◌, ◌≤◌, length, slice_index_or, IfOk};
ghost use Rattle.std.specs.List.{All};

use crate::array::Array;
use crate::axis::{Axis, axes_of, copy_axes, lengths_of, place_in, replaced, skip};
use crate::cell::Cell;
use crate::cells::Cells;
use crate::elements::Elements;
use crate::gather::gathered;
use crate::join::turn;
use crate::shape::{MAX_RANK, size};
use crate::strided::Strided;
use crate::view_elements::ViewElements;
use arrayvec::ArrayVec;
use std::alloc::{AllocError, Global};
use std::marker::Model;

/// An array that is shown by steps over the elements of another. None of its calls but [`View::copied`] takes memory.
#[derive(Drop)]
pub struct View<'a> {
    axes: ArrayVec<Axis, MAX_RANK>,
    offset: usize,
    items: Elements<'a>,
}

impl<'a> Model for View<'a> {
    ghost use Rattle.apl_arrays.specs.Cells.{Arr};

    ghost Value = { Arr };

    ghost use Rattle.apl_arrays.specs.Left.{listed};
    ghost use Rattle.apl_arrays.specs.Strides.{lengths, seen, IsView};

    ghost view = { λ v. record { shape = lengths v.axes.items; items = seen (listed v.items) v.offset v.axes.items } };

    ghost invariant = { λ v. IsView (listed v.items) v.offset v.axes.items };
}

impl<'a> View<'a> {
    ghost use Rattle.apl_arrays.specs.Cells.{IsArray, cell_at};
    ghost use Rattle.apl_arrays.specs.Strides.{Shows};
    ghost use Rattle.apl_arrays.specs.Views.{reversed, cut, turned};
    ghost use Rattle.apl_arrays.specs.Kinds.{are_numbers};

    /// The whole of an array.
    pub fn whole(array: &'a Array) -> View<'a>
        ensures value { result ≡ array.now }
        ensures array { IsArray array.now.shape array.now.items }
    {
        View {
            axes: axes_of(array.shape()),
            offset: 0,
            items: array.items(),
        }
    }

    /// The axis taken the other way, counted from 0.
    pub fn reversed(&self, axis: usize) -> View<'a>
        requires { axis < length self.now.shape }
        ensures { result ≡ reversed axis self.now }
    {
        let old = self.axes.as_slice()[axis];
        let turned_back = Axis {
            length: old.length,
            up: old.down,
            down: old.up,
        };
        View {
            axes: replaced(self.axes.as_slice(), axis, turned_back),
            offset: self.offset,
            items: self.items,
        }
    }

    /// So many elements along the axis, beginning with the element `from`. Axes and elements are counted from 0.
    pub fn cut(&self, axis: usize, from: usize, len: usize) -> View<'a>
        requires axis { axis < length self.now.shape }
        requires within { from + len ≤ slice_index_or self.now.shape axis 0 }
        ensures { result ≡ cut axis from len self.now }
    {
        let old = self.axes.as_slice()[axis];
        let part = Axis { length: len, ..old };
        View {
            axes: replaced(self.axes.as_slice(), axis, part),
            offset: self.offset + skip(&old, from, len),
            items: self.items,
        }
    }

    /// Axis m as axis `axes[m]`, counted from 0. Axes that become one show the elements whose indices on them are equal, and what becomes
    /// of no axis is of length 0.
    pub fn turned(&self, axes: &[usize]) -> View<'a>
        requires each { length axes.now ≡ length self.now.shape }
        requires within { All (λ m. m < length self.now.shape) axes.now }
        ensures { result ≡ turned axes.now self.now }
    {
        let (turned, skipped) = turn(self.axes.as_slice(), axes);
        View {
            axes: turned,
            offset: self.offset + skipped,
            items: self.items,
        }
    }

    /// The lengths of the axes.
    pub fn shape(&self) -> ArrayVec<usize, MAX_RANK>
        ensures value { result.items ≡ self.now.shape }
        ensures array { IsArray self.now.shape self.now.items }
    {
        lengths_of(self.axes.as_slice())
    }

    /// How many axes there are.
    pub fn rank(&self) -> usize
        ensures value { result ≡ length self.now.shape }
        ensures few { result ≤ MAX_RANK }
    {
        self.axes.len()
    }

    /// Whether the elements are numbers, also where there are none.
    pub fn is_numeric(&self) -> bool
        ensures { result ≡ are_numbers self.now.items }
    {
        self.items.is_numeric()
    }

    /// The element at an index list, which is one just within the shape.
    pub fn at(&self, index: &[usize]) -> Option<Cell>
        ensures { result ≡ cell_at self.now index.now }
    {
        match place_in(self.offset, self.axes.as_slice(), index) {
            Some(place) => self.items.cell(place),
            None => None,
        }
    }

    /// The array that it shows.
    pub fn copied(&self, alloc: Global) -> Result<Array, AllocError>
        ensures { IfOk result (λ array. array ≡ self.now) }
    {
        let shape = self.shape();
        let room = size(shape.as_slice());
        let ravel = gathered(alloc, room, self.items, self.offset, self.axes.as_slice())?;
        Array::formed(alloc, shape, ravel)
    }

    /// The elements in row-major order, one after another.
    pub fn iter(&self) -> ViewElements<'_>
        ensures { result ≡ self.now.items }
    {
        let shape = self.shape();
        ViewElements::new(self.strided(), size(shape.as_slice()))
    }

    /// What it reads, for loops over its places.
    pub fn strided(&self) -> Strided<'_>
        ensures { Shows self.now result }
    {
        Strided {
            items: self.items,
            offset: self.offset,
            axes: self.axes.as_slice(),
        }
    }
}

impl<'a> Cells for View<'a> {
    ghost array = { λ v. v };

    fn view(&self) -> View<'_> {
        View {
            axes: copy_axes(self.axes.as_slice()),
            offset: self.offset,
            items: self.items,
        }
    }
}
