//! Arrays, operands, classes and lines of output, as they are written.

use crate::page::{Page, Shown};
use apl_arrays::{Array, Cell, Elements, NumberSlice};
use apl_machine::{LineKind, Operand, OutLine, Slots};
use apl_symbols::Class;

/// Writes lines of output; those that report a stop behind another mark.
pub fn write_output(page: &mut Page, lines: &[OutLine]) {
    for line in lines {
        let mark = if line.kind == LineKind::Stop {
            '!'
        } else {
            '|'
        };
        page.text(mark, line.text.as_slice());
    }
}

/// Writes an element behind a blank.
fn write_element(page: &mut Page, cell: Cell) {
    page.mark(' ');
    match cell {
        Cell::Num(number) => page.show(&number),
        Cell::Char(c) => page.mark(c.code()),
    }
}

/// Writes an element behind a blank, if there is one.
pub fn write_cell(page: &mut Page, cell: Option<Cell>) {
    match cell {
        Some(cell) => write_element(page, cell),
        None => page.put(" none"),
    }
}

/// Writes elements, one after another.
pub fn write_cells(page: &mut Page, cells: &[Cell]) {
    for cell in cells {
        write_element(page, *cell);
    }
    page.end();
}

/// Writes an array as rows do: `2 3:1 2 3 4 5 6`, or `2:'AB` for characters.
fn write_array(page: &mut Page, array: &Array) {
    page.numbers(array.shape());
    page.mark(':');
    match array.items() {
        Elements::Nums(NumberSlice::I8(numbers)) => page.numbers(numbers),
        Elements::Nums(NumberSlice::I32(numbers)) => page.numbers(numbers),
        Elements::Nums(NumberSlice::I64(numbers)) => page.numbers(numbers),
        Elements::Chars(text) => {
            page.mark('\'');
            page.spell(text);
        }
    }
}

/// An array as a line.
impl Shown for Array {
    fn show_on(&self, page: &mut Page) {
        write_array(page, self);
        page.end();
    }
}

/// Writes an array, if there is one, as a line.
pub fn write_value(page: &mut Page, value: Option<&Array>) {
    match value {
        Some(array) => array.show_on(page),
        None => page.line("no value"),
    }
}

/// Writes the slots of an index list, `-` for a whole axis.
fn write_slots(page: &mut Page, slots: &Slots) {
    page.put("slots");
    for slot in slots.as_slice() {
        page.mark(' ');
        match slot {
            Some(array) => write_array(page, array),
            None => page.mark('-'),
        }
    }
}

/// Writes operands, a line each.
pub fn write_operands(page: &mut Page, operands: &[Operand]) {
    for operand in operands {
        page.put("operand ");
        match operand {
            Operand::Value(array) => write_array(page, array),
            Operand::Slots(slots) => write_slots(page, slots),
        }
        page.end();
    }
}

/// Writes a class.
pub fn write_class(page: &mut Page, class: Class) {
    page.put(match class {
        Class::Variable => "variable",
        Class::Niladic => "niladic",
        Class::Function => "function",
    });
}
