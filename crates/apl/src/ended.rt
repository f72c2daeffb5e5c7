//! How the program ends where it does not run all its input.

use apl_files::FileError;
use apl_runs::RunError;
use apl_serve::ServeError;
use apl_words::WordsError;
use apl_workspace::LoadError;
use std::alloc::{AllocError, Global};
use std::io;
use thiserror::Error;

/// Why the program ends before all its input is run. Its `Display` is the text for the user, with
/// its last line feed.
#[derive(Debug, Drop, Error)]
pub(crate) enum Ended {
    /// The help or the version is asked for: its text.
    #[error("{0}")]
    Helped(String),
    /// The words of the command line are wrong: what is.
    #[error("{0}")]
    Words(String),
    /// The workspace to begin with is refused, for the reason of this number.
    #[error("apl: load: {0}\n")]
    Load(u8),
    /// Its file can't be read.
    #[error("apl: load: file\n")]
    LoadFile,
    #[error("apl: memory\n")]
    Memory,
    /// The run ended with the error of this number.
    #[error("apl: run: {0}\n")]
    Run(u8),
    /// The workspace isn't saved in its file.
    #[error("{0}\n")]
    Save(FileError),
}

impl From<WordsError> for Ended {
    fn from(error: WordsError) -> Ended {
        match error {
            WordsError::Help(text) => Ended::Helped(text),
            WordsError::Wrong(text) => Ended::Words(text),
            WordsError::Memory => Ended::Memory,
        }
    }
}

impl From<LoadError> for Ended {
    fn from(error: LoadError) -> Ended {
        match error {
            LoadError::Memory => Ended::Memory,
            _ => Ended::Load(error.number()),
        }
    }
}

impl From<FileError> for Ended {
    fn from(error: FileError) -> Ended {
        Ended::Save(error)
    }
}

impl From<AllocError> for Ended {
    fn from(_error: AllocError) -> Ended {
        Ended::Memory
    }
}

impl From<RunError> for Ended {
    fn from(error: RunError) -> Ended {
        match error {
            RunError::Memory => Ended::Memory,
            _ => Ended::Run(error.number()),
        }
    }
}

impl From<ServeError> for Ended {
    fn from(error: ServeError) -> Ended {
        Ended::Run(error.number())
    }
}

impl Ended {
    /// What is wrong with the words.
    pub(crate) fn words(alloc: Global, wrong: &str) -> Ended {
        match format!(in alloc; "apl: {wrong}\n") {
            Ok(text) => Ended::Words(text),
            Err(_) => Ended::Memory,
        }
    }

    /// The exit status.
    pub(crate) fn status(&self) -> u8 {
        match self {
            Ended::Helped(_) => 0,
            Ended::Words(_) => 1,
            Ended::Load(_) | Ended::LoadFile => 2,
            Ended::Memory => 3,
            Ended::Save(error) if error.is_memory() => 3,
            Ended::Run(_) | Ended::Save(_) => 4,
        }
    }

    /// Writes the text: the help on standard output, the others on standard error.
    pub(crate) fn print<R: Print + Eprint>(&self, rt: &R) -> io::Result<()> {
        match self {
            Ended::Helped(_) => rt.print(self),
            _ => rt.eprint(self),
        }
    }
}
