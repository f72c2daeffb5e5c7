//! Listings, written.
ghost use Rattle.std.specs.Prelude.{◌≡◌, ◌<◌, ◌++◌, ◌∷◌, [], length, slice_get, map, Some, true, IfOk, OnOk};
ghost use Rattle.std.specs.Int.{is_in_range};
ghost use Rattle.std.specs.List.{list_all};
ghost use Rattle.apl_charset.specs.Text.{bytes};
ghost use Rattle.apl_symbols.specs.Glyphs.{glyph_of};
ghost use Rattle.apl_listing.specs.Listing.{fields, system_word, function_word, variable_word, operator_glyph, operator_name, operator_words};
ghost use Rattle.apl_listing.specs.Listing.{row_words, ending_words, action_words, action_list, list_place, without};
ghost use Rattle.apl_listing.specs.Listing.{operand, operand_words, body, line, listed};

use apl_charset::{Ch, push_ascii, push_number};
use apl_code::{Action, Code, Ending, Function, Instr, Row, Source, Variable};
use apl_symbols::{Operator, Primitive, Symbol, SystemName};
use std::alloc::{AllocError, Global};

/// Adds a system name, the quad before its letters.
fn push_system(out: &mut Vec<Ch>, name: SystemName) -> Result<(), AllocError>
    ensures { OnOk result (out.new.items ≡ out.old.items ++ system_word name) }
{
    out.push(Symbol::Quad.glyph())?;
    push_ascii(out, name.letters())?;
    Ok(())
}

/// Adds a function and a blank.
fn push_function(out: &mut Vec<Ch>, function: Function) -> Result<(), AllocError>
    ensures { OnOk result (out.new.items ≡ out.old.items ++ fields (function_word function ∷ []) []) }
{
    match function {
        Function::Primitive(primitive) => {
            out.push(Symbol::Primitive(primitive).glyph())?;
            push_ascii(out, b" ")
        }
        Function::Name(name) => {
            out.extend_from_slice(name.as_slice())?;
            push_ascii(out, b" ")
        }
        Function::System(name) => {
            push_system(out, name)?;
            push_ascii(out, b" ")
        }
    }
}

/// Adds a variable and a blank.
fn push_variable(out: &mut Vec<Ch>, variable: Variable) -> Result<(), AllocError>
    ensures { OnOk result (out.new.items ≡ out.old.items ++ fields (variable_word variable ∷ []) []) }
{
    match variable {
        Variable::Name(name) => {
            out.extend_from_slice(name.as_slice())?;
            push_ascii(out, b" ")
        }
        Variable::System(name) => {
            push_system(out, name)?;
            push_ascii(out, b" ")
        }
    }
}

/// The symbol of an operator.
fn symbol(operator: Operator) -> Symbol
    ensures { glyph_of result ≡ operator_glyph operator }
{
    match operator {
        Operator::Slash => Symbol::Primitive(Primitive::Slash),
        Operator::SlashBar => Symbol::Primitive(Primitive::SlashBar),
        Operator::Slope => Symbol::Primitive(Primitive::Slope),
        Operator::SlopeBar => Symbol::Primitive(Primitive::SlopeBar),
    }
}

/// What an operator does.
fn operator_name(operator: Operator) -> &'static [u8]
    ensures value { result.now ≡ operator_name operator }
    ensures ascii { list_all (λ b. is_in_range 32 126 b) result.now ≡ true }
{
    match operator {
        Operator::Slash | Operator::SlashBar => b"RED",
        Operator::Slope | Operator::SlopeBar => b"SCN",
    }
}

/// Adds what an operator does, a function and the operator, a blank behind each.
fn push_operator(
    out: &mut Vec<Ch>,
    function: Function,
    operator: Operator,
) -> Result<(), AllocError>
    ensures { OnOk result (out.new.items ≡ out.old.items ++ fields (operator_words function operator) []) }
{
    push_ascii(out, operator_name(operator))?;
    push_ascii(out, b" ")?;
    push_function(out, function)?;
    out.push(symbol(operator).glyph())?;
    push_ascii(out, b" ")
}

/// Adds a name and a function, a blank behind each.
fn push_named(out: &mut Vec<Ch>, name: &[u8], function: Function) -> Result<(), AllocError>
    requires { list_all (λ b. is_in_range 32 126 b) name.now ≡ true }
    ensures { OnOk result (out.new.items ≡ out.old.items ++ fields (name.now ∷ function_word function ∷ []) []) }
{
    push_ascii(out, name)?;
    push_ascii(out, b" ")?;
    push_function(out, function)
}

/// Adds a name and a variable, a blank behind each.
fn push_about(out: &mut Vec<Ch>, name: &[u8], variable: Variable) -> Result<(), AllocError>
    requires { list_all (λ b. is_in_range 32 126 b) name.now ≡ true }
    ensures { OnOk result (out.new.items ≡ out.old.items ++ fields (name.now ∷ variable_word variable ∷ []) []) }
{
    push_ascii(out, name)?;
    push_ascii(out, b" ")?;
    push_variable(out, variable)
}

/// Adds the words of a row, a blank behind each.
fn push_row(out: &mut Vec<Ch>, row: Row) -> Result<(), AllocError>
    ensures { OnOk result (out.new.items ≡ out.old.items ++ fields (row_words row) []) }
{
    match row {
        Row::Group => push_ascii(out, b"GRP "),
        Row::Index(_) => push_ascii(out, b"BOX "),
        Row::Read(v) => push_about(out, b"VAR", v),
        Row::Call(v) => push_about(out, b"NIL", v),
        Row::Select => push_ascii(out, b"IDX "),
        Row::Monadic(f) => push_named(out, b"MON", f),
        Row::MonadicAxis(f) => {
            push_named(out, b"MON", f)?;
            push_ascii(out, b"K ")
        }
        Row::Reduce(f, m) => push_operator(out, f, m),
        Row::ReduceAxis(f, m) => {
            push_operator(out, f, m)?;
            push_ascii(out, b"K ")
        }
        Row::Dyadic(f) => push_named(out, b"DYA", f),
        Row::DyadicAxis(f) => {
            push_named(out, b"DYA", f)?;
            push_ascii(out, b"K ")
        }
        Row::Inner(f, g) => {
            push_named(out, b"INN", f)?;
            push_function(out, g)
        }
        Row::Outer(g) => push_named(out, b"OUT", g),
        Row::Assign(v) => push_about(out, b"SET", v),
        Row::AssignIndexed(v) => push_about(out, b"SETX", v),
        Row::Show => push_ascii(out, b"SHOW "),
    }
}

/// Adds how a line ends, a blank behind each word.
fn push_ending(out: &mut Vec<Ch>, ending: Ending) -> Result<(), AllocError>
    ensures { OnOk result (out.new.items ≡ out.old.items ++ fields (ending_words ending) []) }
{
    match ending {
        Ending::Branch => push_ascii(out, b"BRA "),
        Ending::Escape => push_ascii(out, b"ESC "),
        Ending::Shown => push_ascii(out, b"END SHOW "),
        Ending::Hidden => push_ascii(out, b"END HIDE "),
        Ending::Nothing => push_ascii(out, b"END NONE "),
        Ending::Fail => push_ascii(out, b"FAIL "),
    }
}

/// Adds what an instruction does.
pub(crate) fn push_action(out: &mut Vec<Ch>, action: Action) -> Result<(), AllocError>
    ensures { OnOk result (out.new.items ≡ out.old.items ++ fields (action_words action) []) }
{
    match action {
        Action::Box => push_ascii(out, b"BOX "),
        Action::Phrase(row) => push_row(out, row),
        Action::End(ending) => push_ending(out, ending),
    }
}

/// Adds an operand and a blank.
fn push_operand(out: &mut Vec<Ch>, source: Option<Source>) -> Result<(), AllocError>
    ensures { OnOk result (out.new.items ≡ out.old.items ++ fields (operand source ∷ []) []) }
{
    match source {
        None => push_ascii(out, b"- "),
        Some(Source::Stack) => push_ascii(out, b"S "),
        Some(Source::Constant(k)) => {
            push_ascii(out, b"#")?;
            push_number(out, k as u64)?;
            push_ascii(out, b" ")
        }
    }
}

/// Adds operands, a blank behind each.
fn push_each(out: &mut Vec<Ch>, sources: &[Option<Source>]) -> Result<(), AllocError>
    ensures { OnOk result (out.new.items ≡ out.old.items ++ fields (map operand sources.now) []) }
{
    for source in sources {
        push_operand(out, *source)?;
    }
    Ok(())
}

/// Where among the operands the index list of an action stands, which isn't written.
pub(crate) fn index_list(action: Action) -> Option<usize>
    ensures { result ≡ action_list action }
{
    match action {
        Action::Phrase(Row::MonadicAxis(_) | Row::ReduceAxis(_, _)) => Some(0),
        Action::Phrase(Row::AssignIndexed(_)) => Some(0),
        Action::Phrase(Row::Select | Row::DyadicAxis(_)) => Some(1),
        _ => None,
    }
}

/// Adds the operands that are written, a blank behind each.
fn push_operands(out: &mut Vec<Ch>, instr: &Instr) -> Result<(), AllocError>
    ensures { OnOk result (out.new.items ≡ out.old.items ++ fields (operand_words instr.now.action instr.now.arguments) []) }
{
    let sources = instr.arguments.as_slice();
    match index_list(instr.action) {
        Some(place) if place < sources.len() => {
            push_each(out, &sources[..place])?;
            push_each(out, &sources[place + 1..])
        }
        _ => push_each(out, sources),
    }
}

/// Adds a line without its end.
pub(crate) fn push_body(out: &mut Vec<Ch>, number: usize, instr: &Instr) -> Result<(), AllocError>
    ensures { OnOk result (out.new.items ≡ out.old.items ++ body number instr.now) }
{
    push_number(out, number as u64)?;
    push_ascii(out, b" ")?;
    push_action(out, instr.action)?;
    push_operands(out, instr)?;
    push_ascii(out, b"@")?;
    push_number(out, instr.at as u64)?;
    Ok(())
}

/// Adds a text in UTF-8.
fn push_text(out: &mut Vec<u8>, text: &[Ch]) -> Result<(), AllocError>
    ensures { OnOk result (out.new.items ≡ out.old.items ++ bytes text.now) }
{
    for c in text {
        let mut utf8 = [0; 4];
        out.extend_from_slice(c.code().encode_utf8(&mut utf8).as_bytes())?;
    }
    Ok(())
}

/// The instruction of this number.
pub(crate) fn instruction(code: &Code, number: usize) -> &Instr
    requires { number < length code.now }
    ensures { slice_get code.now number ≡ Some result.now }
{
    let Some(instr) = code.instr(number) else {
        unreachable!()
    };
    instr
}

/// Adds a line in UTF-8; `text` is room for its characters.
fn push_line(
    out: &mut Vec<u8>,
    text: &mut Vec<Ch>,
    number: usize,
    instr: &Instr,
) -> Result<(), AllocError>
    ensures { OnOk result (out.new.items ≡ out.old.items ++ line number instr.now) }
{
    text.clear();
    push_body(text, number, instr)?;
    push_text(out, text.as_slice())?;
    out.push(b'\n')?;
    Ok(())
}

/// The listing of a code, in UTF-8: a line for each instruction, with its number from 0, a blank,
/// what it does and with what operands, a blank, `@` and its place, and a line feed.
pub fn listing(alloc: Global, code: &Code) -> Result<Vec<u8>, AllocError>
    ensures { IfOk result (λ v. v.items ≡ listed 0 code.now) }
{
    let mut out = Vec::new(alloc);
    let mut text = Vec::new(alloc);
    for number in 0..code.len() {
        push_line(&mut out, &mut text, number, instruction(code, number))?;
    }
    Ok(out)
}
