//! System names.
ghost use Rattle.std.specs.Prelude.{◌≡◌, ◌<◌, ◌≤◌, true, length};
ghost use Rattle.std.specs.Int.{is_in_range};
ghost use Rattle.std.specs.List.{list_all};
ghost use Rattle.apl_symbols.specs.SystemNames.{letters_of, system_named};

use apl_charset::{Ch, is_word};

/// A name that begins with `⎕`.
#[derive(Clone, Copy, PartialEq, Eq, Hash, Debug)]
pub enum SystemName {
    /// `⎕IO`, the index origin
    Origin,
    /// `⎕LC`, the line counter
    LineCounter,
    /// `⎕NC`, the class of a name
    NameClass,
    /// `⎕STOP`, the stop vector of a function
    Stop,
    /// `⎕TRACE`, the trace vector of a function
    Trace,
}

impl SystemName {
    /// The system name of these letters, which stand after the quad, if there is one.
    #[tactic(auto, unfolding(crate::specs::SystemNames::system_named))]
    pub fn new(letters: &[Ch]) -> Option<SystemName>
        ensures { result ≡ system_named letters.now }
    {
        if is_word(letters, b"IO") {
            Some(SystemName::Origin)
        } else if is_word(letters, b"LC") {
            Some(SystemName::LineCounter)
        } else if is_word(letters, b"NC") {
            Some(SystemName::NameClass)
        } else if is_word(letters, b"STOP") {
            Some(SystemName::Stop)
        } else if is_word(letters, b"TRACE") {
            Some(SystemName::Trace)
        } else {
            None
        }
    }

    /// Its letters after the quad, in ASCII.
    pub fn letters(self) -> &'static [u8]
        ensures value { result.now ≡ letters_of self }
        ensures ascii { list_all (λ b. is_in_range 32 126 b) result.now ≡ true }
    {
        match self {
            SystemName::Origin => b"IO",
            SystemName::LineCounter => b"LC",
            SystemName::NameClass => b"NC",
            SystemName::Stop => b"STOP",
            SystemName::Trace => b"TRACE",
        }
    }
}
