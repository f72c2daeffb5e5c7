//! The numbers of what a call refuses, and of faults.
ghost use Rattle.std.specs.Prelude.{◌≡◌};
ghost use Rattle.apl_page.specs.Numbers.{refusal_number};
ghost use Rattle.apl_page.specs.Places.{told_fault};

use apl_kept::Told;

/// Why a call gives nothing.
#[derive(Clone, Copy, Debug, PartialEq, Eq)]
pub enum Refusal {
    /// Memory has run out.
    Memory,
    /// A statement runs.
    Running,
    /// There is no such function.
    NoFunction,
}

impl Refusal {
    /// Its number.
    pub fn number(self) -> u32
        ensures { result ≡ refusal_number self }
    {
        match self {
            Refusal::Memory => 8,
            Refusal::Running => 16,
            Refusal::NoFunction => 18,
        }
    }
}

/// The number of the fault that a session tells, 0 where it tells none.
pub(crate) fn told_fault(told: Told) -> u32
    ensures { result ≡ told_fault told }
{
    match told {
        Told::Fault(fault) => u32::from(fault.number()),
        Told::Running | Told::Stopped | Told::Idle => 0,
    }
}
