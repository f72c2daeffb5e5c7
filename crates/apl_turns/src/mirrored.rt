// Lines along the last axis, each the other way in a ravel.
ghost use Rattle.std.specs.Prelude.{◌≡◌, ◌+◌, ◌*◌, ◌%◌, ◌≤◌, ◌++◌, length, reverse, vec_capacity, vec_len, Ok};
ghost use Rattle.apl_arrays.specs.Answers.{Answers};
ghost use Rattle.apl_arrays.specs.Views.{reversed};

use crate::lines::{extent_along, piece};
use apl_arrays::{Array, Stop, Structural};
use std::alloc::{AllocError, Global};

/// How many elements are taken the other way at once.
const BLOCK: usize = 16;

/// Appends elements the other way, for which there is room, one by one.
#[inline(always)]
fn put_each<T: Copy>(out: &mut Vec<T>, line: &[T])
    requires { vec_len out.old + length line.now ≤ vec_capacity out.old }
    ensures items { out.new.items ≡ out.old.items ++ reverse line.now }
    ensures count { vec_len out.new ≡ vec_len out.old + length line.now }
    ensures room { vec_capacity out.new ≡ vec_capacity out.old }
{
    for k in 0..line.len() {
        out.push_reserved(line[line.len() - 1 - k]);
    }
}

/// Appends four elements the other way, for which there is room. All are read before one is written, so that they can go in pairs.
#[inline(always)]
fn put_four<T: Copy>(out: &mut Vec<T>, four: &[T])
    requires size { length four.now ≡ 4 }
    requires room { vec_len out.old + 4 ≤ vec_capacity out.old }
    ensures items { out.new.items ≡ out.old.items ++ reverse four.now }
    ensures count { vec_len out.new ≡ vec_len out.old + 4 }
    ensures room { vec_capacity out.new ≡ vec_capacity out.old }
{
    let (first, second, third, fourth) = (four[0], four[1], four[2], four[3]);
    out.push_reserved(fourth);
    out.push_reserved(third);
    out.push_reserved(second);
    out.push_reserved(first);
}

/// The same of eight.
#[inline(always)]
fn put_eight<T: Copy>(out: &mut Vec<T>, eight: &[T])
    requires size { length eight.now ≡ 8 }
    requires room { vec_len out.old + 8 ≤ vec_capacity out.old }
    ensures items { out.new.items ≡ out.old.items ++ reverse eight.now }
    ensures count { vec_len out.new ≡ vec_len out.old + 8 }
    ensures room { vec_capacity out.new ≡ vec_capacity out.old }
{
    let (prefix, back) = eight.split_at(4);
    put_four(out, back);
    put_four(out, prefix);
}

/// The same of a block.
#[inline(always)]
fn put_block<T: Copy>(out: &mut Vec<T>, block: &[T])
    requires size { length block.now ≡ BLOCK }
    requires room { vec_len out.old + BLOCK ≤ vec_capacity out.old }
    ensures items { out.new.items ≡ out.old.items ++ reverse block.now }
    ensures count { vec_len out.new ≡ vec_len out.old + BLOCK }
    ensures room { vec_capacity out.new ≡ vec_capacity out.old }
{
    let (prefix, back) = block.split_at(8);
    put_eight(out, back);
    put_eight(out, prefix);
}

/// Appends whole blocks the other way, for which there is room.
#[inline(always)]
fn put_blocks<T: Copy>(out: &mut Vec<T>, blocks: &[T])
    requires whole { length blocks.now % BLOCK ≡ 0 }
    requires room { vec_len out.old + length blocks.now ≤ vec_capacity out.old }
    ensures items { out.new.items ≡ out.old.items ++ reverse blocks.now }
    ensures count { vec_len out.new ≡ vec_len out.old + length blocks.now }
    ensures room { vec_capacity out.new ≡ vec_capacity out.old }
{
    let mut rest = blocks;
    while rest.len() >= BLOCK {
        let (prefix, block) = rest.split_at(rest.len() - BLOCK);
        put_block(out, block);
        rest = prefix;
    }
}

/// Appends a line the other way, for which there is room, in one pass. What is no whole block goes first, so that the loop over the blocks has
/// nothing to keep for it.
#[inline(always)]
fn put_line<T: Copy>(out: &mut Vec<T>, line: &[T])
    requires { vec_len out.old + length line.now ≤ vec_capacity out.old }
    ensures items { out.new.items ≡ out.old.items ++ reverse line.now }
    ensures count { vec_len out.new ≡ vec_len out.old + length line.now }
    ensures room { vec_capacity out.new ≡ vec_capacity out.old }
{
    let (blocks, last) = line.split_at(line.len() - line.len() % BLOCK);
    put_each(out, last);
    put_blocks(out, blocks);
}

/// So many lines of a ravel, which are so long, each the other way.
#[derive(Clone, Copy)]
struct Mirror {
    lines: usize,
    size: usize,
}

impl Structural for Mirror {
    ghost use Rattle.std.specs.Prelude.{◌≡◌, ◌*◌};
    ghost use Rattle.apl_turns.specs.inside.Mirrored.{mirrored_list};

    ghost takes = { λ m n. n ≡ m.lines * m.size };

    ghost makes = { λ A m d fill xs. mirrored_list m.size xs d };

    fn make<T: Copy>(self, alloc: Global, items: &[T], _fill: T) -> Result<Vec<T>, AllocError> {
        let mut out = Vec::with_capacity(alloc, items.len())?;
        for line in 0..self.lines {
            put_line(&mut out, piece(items, line, self.size));
        }
        Ok(out)
    }
}

/// An array with its last axis taken the other way.
pub(crate) fn reverse_last(alloc: Global, b: &Array, axis: usize) -> Result<Array, Stop>
    requires { axis + 1 ≡ length b.now.shape }
    ensures { Answers (λ turned. turned) (Ok (reversed axis b.now)) result }
{
    let extent = extent_along(b.shape(), axis);
    let mirror = Mirror {
        lines: extent.planes,
        size: extent.rows,
    };
    let turned = b.items().made_by(alloc, mirror)?;
    Ok(Array::in_shape(alloc, b.shape(), turned)?)
}
