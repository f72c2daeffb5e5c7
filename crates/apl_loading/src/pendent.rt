//! Lines that await an answer.
ghost use Rattle.std.specs.Prelude.{◌≡◌, ◌≢◌, ◌-◌, ◌≤◌, length, List, ℕ, IfOk, IfErr, Option, Some, slice_get};
ghost use Rattle.apl_code.specs.declared.instr.Instr.{Instr as AnInstr};
ghost use Rattle.apl_saved.specs.Rules.{IsPendentLine};
ghost use Rattle.apl_translate.specs.Binding.{names_of};
ghost use Rattle.apl_defn.specs.Definitions.{Text as Line};
ghost use Rattle.apl_parts.specs.Pieces.{Waiting};
ghost use Rattle.apl_loading.specs.inside.Made.{Agrees, AreOfText, IsMade, IsMadeOf, IsRestBy, IsRestMade, IsStatementBy, IsStatementLine, IsWaitingBy};
ghost use Rattle.apl_loading.specs.Numbers.{Refuses};
ghost use Rattle.apl_loading.specs.declared.error.LoadFault.TheVariants as fault;

use crate::built::Built;
use crate::error::LoadFault;
use crate::lines::{StatementLine, code_of, read_classes, read_statement_line};
use crate::stack::has_stack;
use apl_code::{Action, Code};
use apl_listing::listing;
use apl_machine_state::Operand;
use apl_parts::{RestPart, StatementPart};
use apl_symbols::Class;
use apl_tokens::Token;
use apl_translate::Cache;
use apl_workspace_file::{RestField, StatementField};
use std::alloc::Global;

/// What the last of so many instructions does.
fn last_action(code: &Code, done: usize) -> Action
    requires begun { 1 ≤ done }
    requires runs { done ≤ length code.now }
    ensures { (last : AnInstr) × (slice_get code.now (done - 1) ≡ Some last) × (last.action ≡ result) }
{
    let Some(instr) = code.instr(done - 1) else {
        unreachable!()
    };
    instr.action
}

/// The line of these tokens under these classes, where so many of its instructions are done and leave
/// these operands.
fn bound_rest(
    alloc: Global,
    tokens: &[Token],
    classes: Vec<Class>,
    done: usize,
    operands: Vec<Operand>,
    cache: &mut Cache,
) -> Result<Built<RestPart, Action>, LoadFault>
    requires text { AreOfText tokens.now }
    requires classes { length classes.items ≡ length (names_of tokens.now) }
    ensures rest { IfOk result (λ l. l.part ≡ record { classes = classes.items; done = done; operands = operands.items }) }
    ensures made { IfOk result (λ l. IsMade tokens.now l.part l.awaits l.listing.items) }
    ensures refused { IfErr result (λ e. e ≢ fault.Memory → (e ≡ fault.Context) × ((code : List AnInstr) →
        ¬ IsPendentLine tokens.now (record { classes = classes.items; done = done; operands = operands.items }) code)) }
{
    let kept = code_of(alloc, tokens, classes.as_slice(), cache)?;
    let code: &Code = &kept;
    if !has_stack(alloc, code, done, operands.as_slice())? {
        return Err(LoadFault::Context);
    }
    let awaits = last_action(code, done);
    let listing = listing(alloc, code)?;
    Ok(Built {
        part: RestPart::new(classes, done, operands),
        awaits,
        listing,
    })
}

/// The line of these tokens, a text's, as a field says that it awaits an answer, but for the listing.
pub(crate) fn read_rest(
    alloc: Global,
    tokens: &[Token],
    field: &RestField,
    operands: Vec<Operand>,
    cache: &mut Cache,
) -> Result<Built<RestPart, Action>, LoadFault>
    requires { AreOfText tokens.now }
    ensures rest { IfOk result (λ l. Agrees field.now operands.items l.part) }
    ensures made { IfOk result (λ l. IsMade tokens.now l.part l.awaits l.listing.items) }
    ensures refused { IfErr result (Refuses fault.Context (λ w. IsWaitingBy tokens.now field.now operands.items w)) }
{
    let classes = read_classes(alloc, tokens, &field.classes)?;
    bound_rest(alloc, tokens, classes, field.done, operands, cache)
}

/// The statement, or the text that is executed, that a field is, but for the listing.
pub(crate) fn read_statement(
    alloc: Global,
    field: &StatementField,
    operands: Vec<Operand>,
    cache: &mut Cache,
) -> Result<Built<StatementPart, Action>, LoadFault>
    ensures found { IfOk result (λ s. IsStatementBy field.now operands.items s.part.text s.part.rest) }
    ensures made { IfOk result (λ s. IsMadeOf s.part.text s.part.rest s.awaits s.listing.items) }
    ensures refused { IfErr result (λ e. e ≢ fault.Memory →
        (e ≡ fault.Context) × ((text : Line) (w : Waiting) → ¬ IsStatementBy field.now operands.items text w)) }
{
    let StatementLine { text, tokens } = read_statement_line(alloc, &field.line)?;
    let line = read_rest(alloc, tokens.as_slice(), &field.rest, operands, cache)?;
    let rest = line.part;
    Ok(Built {
        part: StatementPart { text, rest },
        awaits: line.awaits,
        listing: line.listing,
    })
}

/// The line of these tokens, a text's, as a field says that it awaits an answer, if it does, but for
/// the listing.
pub(crate) fn read_call_line(
    alloc: Global,
    tokens: &[Token],
    field: &Option<RestField>,
    operands: Vec<Operand>,
    cache: &mut Cache,
) -> Result<Built<Option<RestPart>, Option<Action>>, LoadFault>
    requires { AreOfText tokens.now }
    ensures rest { IfOk result (λ l. IsRestBy tokens.now field.now operands.items l.part) }
    ensures made { IfOk result (λ l. IsRestMade tokens.now l.part l.awaits l.listing.items) }
    ensures refused { IfErr result (Refuses fault.Context (λ rest. IsRestBy tokens.now field.now operands.items rest)) }
{
    match field {
        None => Ok(Built {
            part: None,
            awaits: None,
            listing: Vec::new(alloc),
        }),
        Some(field) => {
            let line = read_rest(alloc, tokens, field, operands, cache)?;
            Ok(Built {
                part: Some(line.part),
                awaits: Some(line.awaits),
                listing: line.listing,
            })
        }
    }
}
