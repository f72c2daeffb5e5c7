// The faults.
ghost use Rattle.std.specs.Prelude.{◌≡◌, true, Some};
ghost use Rattle.std.specs.Int.{is_in_range};
ghost use Rattle.std.specs.List.{list_all};
ghost use Rattle.apl_faults.specs.Report.{number_of, name_of, is_alone};

use std::fmt;
use thiserror::Error;

/// What stops a statement, a definition or a command. Its text is its name in a report.
#[derive(Clone, Copy, PartialEq, Eq, Debug, Error)]
pub enum Fault {
    Syntax = 1,
    Value,
    Domain,
    Rank,
    Length,
    Index,
    Axis,
    Limit,
    Defn,
    Interrupt,
    Character,
    Command,
}

impl Fault {
    /// Its number, from 1 to 12.
    pub fn number(self) -> u8
        ensures { result ≡ number_of self }
    {
        self as u8
    }

    /// Its name in a report, in ASCII.
    #[tactic(auto, unfolding(crate::specs::Report::name_of))]
    fn text(self) -> &'static str
        ensures is { result.now ≡ name_of self }
        ensures ascii { list_all (λ b. is_in_range 32 126 b) result.now ≡ true }
    {
        match self {
            Fault::Syntax => "SYNTAX ERROR",
            Fault::Value => "VALUE ERROR",
            Fault::Domain => "DOMAIN ERROR",
            Fault::Rank => "RANK ERROR",
            Fault::Length => "LENGTH ERROR",
            Fault::Index => "INDEX ERROR",
            Fault::Axis => "AXIS ERROR",
            Fault::Limit => "LIMIT ERROR",
            Fault::Defn => "DEFN ERROR",
            Fault::Interrupt => "INTERRUPT",
            Fault::Character => "CHARACTER ERROR",
            Fault::Command => "INCORRECT COMMAND",
        }
    }

    /// The bytes of its name in a report, in ASCII.
    pub fn name(self) -> &'static [u8]
        ensures is { result.now ≡ name_of self }
        ensures ascii { list_all (λ b. is_in_range 32 126 b) result.now ≡ true }
    {
        self.text().as_bytes()
    }

    /// Whether its report is its name alone: a bad line, definition or command has no column.
    pub fn is_alone(self) -> bool
        ensures { result ≡ is_alone self }
    {
        matches!(self, Fault::Defn | Fault::Character | Fault::Command)
    }
}

/// Writes its name in a report.
impl fmt::Display for Fault {
    ghost output = { λ fault. Some (name_of fault) };

    fn fmt<W: fmt::Write>(&self, f: &mut fmt::Formatter<W>) -> fmt::Result {
        f.write_str(self.text())
    }
}
