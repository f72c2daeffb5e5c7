//! The lines of a function that numbers name.
ghost use Rattle.std.specs.Prelude.{◌≡◌, ◌≤◌, IfOk, length};
ghost use Rattle.apl_arrays.specs.Numbers.{values};
ghost use Rattle.apl_machine_state.specs.Watching.{lines_among};
ghost use Rattle.apl_phrases.specs.inside.Marks.{marked, marked_lines, marks_of};

use apl_arrays::NumberSlice;
use apl_defn::Definition;
use std::alloc::{AllocError, Global};

/// Marks the line of that number, where there is one. The first mark is that of line 1.
fn mark(marks: &mut [bool], number: i64)
    ensures { marks.new ≡ marked number 1 marks.old }
{
    if number < 1 {
        return;
    }
    let line = number as usize;
    if line <= marks.len() {
        marks[line - 1] = true;
    }
}

/// For each line of a function whether it is among these numbers.
fn marks(alloc: Global, numbers: &[i64], definition: &Definition) -> Result<Vec<bool>, AllocError>
    ensures value { IfOk result (λ marks. marks.items ≡ marks_of numbers.now 1 definition.now.lines) }
    ensures few { IfOk result (λ marks. length marks.items ≤ 999) }
{
    let mut marks = vec![in alloc; false; definition.len()]?;
    for number in numbers {
        mark(marks.as_mut_slice(), *number);
    }
    Ok(marks)
}

/// The numbers of the marked lines.
fn marked_lines(alloc: Global, marks: &[bool]) -> Result<Vec<usize>, AllocError>
    ensures { IfOk result (λ lines. lines.items ≡ marked_lines 1 marks.now) }
{
    let room = marks.iter().filter(|mark| **mark).count();
    let mut lines = Vec::with_capacity(alloc, room)?;
    for (index, mark) in marks.iter().enumerate() {
        if *mark {
            lines.push(index + 1)?;
        }
    }
    Ok(lines)
}

/// The lines of a function that are among these numbers, ascending.
pub fn lines_among(
    alloc: Global,
    numbers: NumberSlice<'_>,
    definition: &Definition,
) -> Result<Vec<usize>, AllocError>
    ensures value { IfOk result (λ lines. lines.items ≡ lines_among (values numbers.entry) definition.now) }
    ensures few { IfOk result (λ lines. length lines.items ≤ 999) }
{
    let numbers = numbers.wide(alloc)?;
    let marks = marks(alloc, numbers.as_slice(), definition)?;
    marked_lines(alloc, marks.as_slice())
}
