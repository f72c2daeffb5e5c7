//! How a held session stands.
ghost use Rattle.std.specs.Prelude.{◌≡◌, option_copied, true};
ghost use Rattle.apl_machine_state.specs.State.{is_idle};
ghost use Rattle.apl_kept.specs.Standing.{blamed_place, kind_place, kind_told, line_place, line_told, suspended_at};

use apl_faults::Fault;
use apl_machine::{Blame, LineKind, Machine, OutLine};
use apl_symbols::Name;

/// How a session stands, by the last line that is written and nobody has taken.
#[derive(Clone, Copy, Debug, PartialEq, Eq)]
pub enum Told {
    /// A statement runs.
    Running,
    /// It came to a stop before a line.
    Stopped,
    /// What was typed ended with this fault; where it was interrupted, with that.
    Fault(Fault),
    /// Nothing runs.
    Idle,
}

/// Where a fault or a stop is. Columns count from 1.
#[derive(Clone, Copy, Debug, PartialEq, Eq)]
pub enum Place {
    /// A fault at a column of the typed text.
    Typed(usize),
    /// At the line before which the newest call is suspended, and for a fault at a column of it.
    Call {
        name: Name,
        line: usize,
        column: Option<usize>,
    },
}

/// What a line of this kind tells where it is the last.
fn kind_told(kind: LineKind) -> Told
    ensures { result ≡ kind_told kind }
{
    match kind {
        LineKind::Report(fault, _) => Told::Fault(fault),
        LineKind::Stop => Told::Stopped,
        LineKind::Shown | LineKind::Trace | LineKind::Answer => Told::Idle,
    }
}

/// What the last line tells, if there is one.
pub(crate) fn line_told(line: Option<&OutLine>) -> Told
    ensures { result ≡ line_told (option_copied line.entry) }
{
    match line {
        Some(line) => kind_told(line.kind),
        None => Told::Idle,
    }
}

/// The line before which the newest call is suspended, if one is, with this column.
fn suspended_at(machine: &Machine, column: Option<usize>) -> Option<Place>
    requires { is_idle machine.now ≡ true }
    ensures { result ≡ suspended_at column machine.now.contexts }
{
    let Some(call) = machine.call(0) else {
        return None;
    };
    Some(Place::Call {
        name: call.definition.header().name,
        line: call.line,
        column,
    })
}

/// The place of a fault that is blamed on this.
fn blamed_place(machine: &Machine, blame: Blame) -> Option<Place>
    requires { is_idle machine.now ≡ true }
    ensures { result ≡ blamed_place blame machine.now.contexts }
{
    match blame {
        Blame::Nothing => None,
        Blame::Typed(column) => Some(Place::Typed(column)),
        Blame::Call(column) => suspended_at(machine, Some(column)),
    }
}

/// The place that a line of this kind tells where it is the last.
fn kind_place(machine: &Machine, kind: LineKind) -> Option<Place>
    requires { is_idle machine.now ≡ true }
    ensures { result ≡ kind_place kind machine.now.contexts }
{
    match kind {
        LineKind::Report(_, blame) => blamed_place(machine, blame),
        LineKind::Stop => suspended_at(machine, None),
        LineKind::Shown | LineKind::Trace | LineKind::Answer => None,
    }
}

/// The place that the last line tells, on a machine where nothing runs.
pub(crate) fn line_place(machine: &Machine, line: Option<&OutLine>) -> Option<Place>
    requires { is_idle machine.now ≡ true }
    ensures { result ≡ line_place (option_copied line.entry) machine.now.contexts }
{
    match line {
        Some(line) => kind_place(machine, line.kind),
        None => None,
    }
}
