// Definitions of functions, as their lines are typed.
ghost use Rattle.std.specs.Prelude.{◌≡◌, ◌==◌, [], ◌∷◌, true, Some, None, IfOk, OnOk, OnErr};
ghost use Rattle.std.specs.List.{position};
ghost use Rattle.std.specs.Str.{bytes_eq};
ghost use Rattle.apl_machine_state.specs.State.{is_idle, definition_of};
ghost use Rattle.apl_defn.specs.Reading.{header_of};
ghost use Rattle.apl_defn.specs.Defining.{defined_of};
ghost use Rattle.apl_session.specs.Defining as model;

use apl_charset::{Ch, Text};
use apl_defn::{DefnError, copy_lines, define, header, show, trimmed};
use apl_faults::{Fault, fault_line};
use apl_machine::{Blame, LineKind, Machine};
use apl_symbols::Name;
use std::alloc::{AllocError, Global};
use std::marker::Model;

/// The most lines that are kept of a definition, its header among them.
const MOST_LINES: usize = 1001;

/// The lines of an open definition, its header first. Contracts see their list.
#[derive(Drop)]
pub struct OpenDefinition {
    lines: Vec<Text>,
}

impl Model for OpenDefinition {
    ghost use Rattle.std.specs.Prelude.{List, ℕ};

    ghost Value = { List (List ℕ) };

    ghost view = { λ d. d.lines.items };
}

/// The same text again.
fn copied(alloc: Global, text: &[Ch]) -> Result<Text, AllocError>
    ensures { IfOk result (λ t. t ≡ text.now) }
{
    Ok(Text::new(Vec::from_slice(alloc, text)?))
}

impl OpenDefinition {
    /// A definition of which only the header is there.
    pub fn new(alloc: Global, header: &[Ch]) -> Result<OpenDefinition, AllocError>
        ensures { IfOk result (λ d. d ≡ header.now ∷ []) }
    {
        let mut lines = Vec::new(alloc);
        lines.push(copied(alloc, header)?)?;
        Ok(OpenDefinition { lines })
    }

    /// Adds a line, unless 1,000 stand behind the header.
    pub fn add(&mut self, alloc: Global, line: &[Ch]) -> Result<(), AllocError>
        ensures ok { OnOk result (self.new ≡ model.kept self.old line.now) }
        ensures err { OnErr result (self.new ≡ self.old) }
    {
        if self.lines.len() >= MOST_LINES {
            return Ok(());
        }
        let line = copied(alloc, line)?;
        self.lines.push(line)?;
        Ok(())
    }

    /// Its lines.
    pub fn as_slice(&self) -> &[Text]
        ensures { result.now ≡ self.now }
    {
        self.lines.as_slice()
    }
}

/// What stands behind the first character that is no blank.
pub fn behind_mark(text: &[Ch]) -> &[Ch]
    ensures { result.now ≡ model.behind_mark text.now }
{
    let mut rest = text;
    while let Some((first, behind)) = rest.split_first() {
        if *first != Ch::default() {
            return behind;
        }
        rest = behind;
    }
    rest
}

/// Whether a line closes a definition.
#[tactic(auto, unfolding(apl_charset::specs::Set::is_member))]
pub fn is_close(line: &[Ch]) -> bool
    ensures { result ≡ bytes_eq line.now model.del }
{
    line == [Ch::member('∇')].as_slice()
}

/// Whether a text is these marks, with any blanks before, between and behind them.
fn spells(text: &[Ch], marks: &[Ch]) -> bool
    ensures { result ≡ model.spells text.now marks.now }
{
    let mut rest = text;
    let mut due = marks;
    while let Some((first, behind)) = rest.split_first() {
        rest = behind;
        if *first == Ch::default() {
            continue;
        }
        match due.split_first() {
            Some((mark, others)) if *mark == *first => due = others,
            _ => return false,
        }
    }
    due.is_empty()
}

/// Whether a text asks for a function to be shown, behind its name.
#[tactic(auto, unfolding(apl_charset::specs::Set::is_member))]
fn is_request(text: &[Ch]) -> bool
    ensures { result ≡ model.spells text.now model.request }
{
    let request = [
        Ch::ascii(b'['),
        Ch::member('⎕'),
        Ch::ascii(b']'),
        Ch::member('∇'),
    ];
    spells(text, &request)
}

/// The place of the first `[`.
fn bracket_at(text: &[Ch]) -> Option<usize>
    ensures { result ≡ position (λ c. c == 0x5B) text.now }
{
    text.iter().position(|c| *c == Ch::ascii(b'['))
}

/// The name of the function that a text behind `∇` asks to be shown.
fn shown_name(text: &[Ch]) -> Option<Name>
    ensures { result ≡ model.shown_name text.now }
{
    let Some(at) = bracket_at(text) else {
        return None;
    };
    let (name, request) = text.split_at(at);
    if !is_request(request) {
        return None;
    }
    Name::new(trimmed(name))
}

/// Reports a fault by its name alone.
pub fn refuse(alloc: Global, machine: &mut Machine, fault: Fault) -> Result<(), AllocError>
    ensures ok { OnOk result (machine.new ≡ model.refused machine.old fault) }
    ensures err { OnErr result (machine.new ≡ machine.old) }
{
    let line = fault_line(alloc, fault)?;
    machine.say(LineKind::Report(fault, Blame::Nothing), line)
}

/// Shows the function of a name, or reports that there is none.
fn show_function(alloc: Global, machine: &mut Machine, name: &Name) -> Result<(), AllocError>
    ensures ok { OnOk result (machine.new ≡ model.shown machine.old (definition_of machine.old name.now)) }
    ensures err { OnErr result (machine.new ≡ machine.old) }
{
    match machine.definition(name) {
        Some(definition) => {
            let lines = show(alloc, definition)?;
            machine.say_lines(LineKind::Answer, lines)
        }
        None => refuse(alloc, machine, Fault::Defn),
    }
}

/// Opens the definition that a text behind `∇` is the header of, or reports that it is none.
fn open(
    alloc: Global,
    machine: &mut Machine,
    text: &[Ch],
) -> Result<Option<OpenDefinition>, AllocError>
    ensures ok { IfOk result (λ opened. record machine.new { definition = opened } ≡ model.opened_by (model.closed machine.old) text.now (header_of text.now)) }
    ensures err { OnErr result (machine.new ≡ machine.old) }
{
    match header(alloc, text) {
        Ok(header) => {
            if !machine.is_variable(&header.name) {
                return Ok(Some(OpenDefinition::new(alloc, text)?));
            }
        }
        Err(DefnError::Memory) => return Err(AllocError),
        Err(_) => {}
    }
    refuse(alloc, machine, Fault::Defn)?;
    Ok(None)
}

/// Shows the function that a text behind `∇` asks for, or opens the definition that it is the
/// header of.
pub fn show_or_open(
    alloc: Global,
    machine: &mut Machine,
    text: &[Ch],
) -> Result<Option<OpenDefinition>, AllocError>
    ensures ok { IfOk result (λ opened. record machine.new { definition = opened } ≡ model.typed_behind_del (model.closed machine.old) text.now) }
    ensures err { OnErr result (machine.new ≡ machine.old) }
{
    let Some(name) = shown_name(text) else {
        return open(alloc, machine, text);
    };
    show_function(alloc, machine, &name)?;
    Ok(None)
}

/// Defines the function of these lines, or reports that they define none.
pub fn close(alloc: Global, machine: &mut Machine, lines: &[Text]) -> Result<(), AllocError>
    requires { is_idle machine.old ≡ true }
    ensures ok { OnOk result (machine.new ≡ model.defined_by machine.old (defined_of lines.now)) }
    ensures err { OnErr result (machine.new ≡ machine.old) }
{
    // The lines stay with the session, in case memory runs out.
    match define(alloc, copy_lines(alloc, lines)?) {
        Ok(definition) => {
            if !machine.is_variable(&definition.header().name) {
                return machine.define(definition);
            }
        }
        Err(DefnError::Memory) => return Err(AllocError),
        Err(_) => {}
    }
    refuse(alloc, machine, Fault::Defn)
}
