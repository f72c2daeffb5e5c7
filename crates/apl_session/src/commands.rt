// Commands, as they are typed behind `)`.
ghost use Rattle.std.specs.Prelude.{◌≡◌, map, IfOk, OnErr, OnOk};
ghost use Rattle.apl_machine_state.specs.Objects.{globals, levels};
ghost use Rattle.apl_session.specs.Commands as model;
ghost use Rattle.apl_session.specs.Defining.{answered};

use crate::definition::refuse;
use crate::words::{names_in, next_word, split_blank};
use apl_charset::{Ch, Text, push_ascii};
use apl_debug::{Level, state_indicator};
use apl_faults::{Call, Fault, place};
use apl_machine::{LineKind, Machine};
use apl_symbols::Name;
use std::alloc::{AllocError, Global};

/// A command, by its word.
#[derive(Clone, Copy, PartialEq, Eq, Debug)]
pub enum Command {
    /// `SI`: the standing calls are shown.
    StateIndicator,
    /// `FNS`: the names of the functions are shown.
    Functions,
    /// `VARS`: the names of the variables are shown.
    Variables,
    /// `ERASE`: the objects of the names behind it are erased.
    Erase,
    /// `CLEAR`: the workspace is cleared.
    Clear,
}

/// Whether a word is this command's, in letters of either case.
fn is_word(word: &[Ch], command: &[u8]) -> bool
    ensures { result ≡ model.is_word word.now command.now }
{
    let mut due = command;
    for c in word {
        let letter = c.code().to_ascii_uppercase();
        match due.split_first() {
            Some((first, others)) if *first as char == letter => due = others,
            _ => return false,
        }
    }
    due.is_empty()
}

/// The command that a word names, in letters of either case.
pub fn command_of(word: &[Ch]) -> Option<Command>
    ensures { result ≡ model.command_of word.now }
{
    if is_word(word, b"SI") {
        Some(Command::StateIndicator)
    } else if is_word(word, b"FNS") {
        Some(Command::Functions)
    } else if is_word(word, b"VARS") {
        Some(Command::Variables)
    } else if is_word(word, b"ERASE") {
        Some(Command::Erase)
    } else if is_word(word, b"CLEAR") {
        Some(Command::Clear)
    } else {
        None
    }
}

/// A standing call as a state indicator shows it: `FACT[3]`, and ` *` behind it where the call is
/// suspended.
fn level_line(alloc: Global, level: &Level) -> Result<Text, AllocError>
    ensures { IfOk result (λ line. line ≡ model.shown_level level.now) }
{
    let call = Call {
        name: level.name.as_slice(),
        line: level.line,
    };
    let line = place(alloc, call)?;
    if !level.suspended {
        return Ok(line);
    }
    let mut line = line.into_chars();
    push_ascii(&mut line, b" *")?;
    Ok(Text::new(line))
}

/// Standing calls, a line each.
fn level_lines(alloc: Global, levels: &[Level]) -> Result<Vec<Text>, AllocError>
    ensures { IfOk result (λ lines. lines.items ≡ map model.shown_level levels.now) }
{
    let mut lines = Vec::with_capacity(alloc, levels.len())?;
    for level in levels {
        lines.push(level_line(alloc, level)?)?;
    }
    Ok(lines)
}

/// A name as a line.
fn name_line(alloc: Global, name: &Name) -> Result<Text, AllocError>
    ensures { IfOk result (λ line. line ≡ name.now) }
{
    Ok(Text::new(Vec::from_slice(alloc, name.as_slice())?))
}

/// Of these names, those of functions, a line each.
fn function_lines(alloc: Global, names: &[(Name, bool)]) -> Result<Vec<Text>, AllocError>
    ensures { IfOk result (λ lines. lines.items ≡ model.function_names names.now) }
{
    let mut lines = Vec::new(alloc);
    for (name, is_function) in names {
        if *is_function {
            lines.push(name_line(alloc, name)?)?;
        }
    }
    Ok(lines)
}

/// Of these names, those of variables, a line each.
fn variable_lines(alloc: Global, names: &[(Name, bool)]) -> Result<Vec<Text>, AllocError>
    ensures { IfOk result (λ lines. lines.items ≡ model.variable_names names.now) }
{
    let mut lines = Vec::new(alloc);
    for (name, is_function) in names {
        if !*is_function {
            lines.push(name_line(alloc, name)?)?;
        }
    }
    Ok(lines)
}

/// Shows the standing calls, newest first.
fn show_levels(alloc: Global, machine: &mut Machine) -> Result<(), AllocError>
    ensures ok { OnOk result (machine.new ≡ answered (map model.shown_level (levels machine.old.contexts)) machine.old) }
    ensures err { OnErr result (machine.new ≡ machine.old) }
{
    let levels = state_indicator(machine)?;
    let lines = level_lines(alloc, &levels)?;
    machine.say_lines(LineKind::Answer, lines)
}

/// Shows the names of the functions, ascending.
fn show_functions(alloc: Global, machine: &mut Machine) -> Result<(), AllocError>
    ensures ok { OnOk result (machine.new ≡ answered (model.function_names (globals machine.old)) machine.old) }
    ensures err { OnErr result (machine.new ≡ machine.old) }
{
    let names = machine.globals()?;
    let lines = function_lines(alloc, &names)?;
    machine.say_lines(LineKind::Answer, lines)
}

/// Shows the names of the variables, ascending.
fn show_variables(alloc: Global, machine: &mut Machine) -> Result<(), AllocError>
    ensures ok { OnOk result (machine.new ≡ answered (model.variable_names (globals machine.old)) machine.old) }
    ensures err { OnErr result (machine.new ≡ machine.old) }
{
    let names = machine.globals()?;
    let lines = variable_lines(alloc, &names)?;
    machine.say_lines(LineKind::Answer, lines)
}

/// Obeys a command behind which no words stand.
fn obey_alone(alloc: Global, machine: &mut Machine, command: Command) -> Result<(), AllocError>
    ensures ok { OnOk result (machine.new ≡ model.obeyed machine.old command) }
    ensures err { OnErr result (machine.new ≡ machine.old) }
{
    match command {
        Command::StateIndicator => show_levels(alloc, machine),
        Command::Functions => show_functions(alloc, machine),
        Command::Variables => show_variables(alloc, machine),
        Command::Erase => refuse(alloc, machine, Fault::Command),
        Command::Clear => {
            machine.clear();
            Ok(())
        }
    }
}

/// Erases the global objects of the names behind `ERASE`, or reports that they are no names or
/// that there is none.
fn erase(alloc: Global, machine: &mut Machine, text: &[Ch]) -> Result<(), AllocError>
    ensures ok { OnOk result (machine.new ≡ model.erasing machine.old (model.names_in (model.words_of text.now))) }
    ensures err { OnErr result (machine.new ≡ machine.old) }
{
    match names_in(alloc, text)? {
        Some(names) if !names.is_empty() => {
            machine.erase(&names);
            Ok(())
        }
        _ => refuse(alloc, machine, Fault::Command),
    }
}

/// Obeys the command that a text behind `)` is, or reports that it is none. After an error the
/// machine is as before.
pub fn obey(alloc: Global, machine: &mut Machine, text: &[Ch]) -> Result<(), AllocError>
    ensures ok { OnOk result (machine.new ≡ model.commanded machine.old text.now) }
    ensures err { OnErr result (machine.new ≡ machine.old) }
{
    let (word, behind) = split_blank(text);
    match command_of(word) {
        Some(Command::Erase) => erase(alloc, machine, behind),
        Some(command) if next_word(behind).is_none() => obey_alone(alloc, machine, command),
        _ => refuse(alloc, machine, Fault::Command),
    }
}
