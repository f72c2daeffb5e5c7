//! Why serving ends early, and why a request is refused.
ghost use Rattle.std.specs.Prelude.{◌≡◌};
ghost use Rattle.apl_serve.specs.Refusals.{refusal_tree};
ghost use Rattle.apl_serve.specs.Serving.{serve_number};
ghost use Rattle.apl_serve.specs.Trees.{line_of};

use apl_workspace::LoadError;
use std::alloc::{AllocError, AllocFailed};
use thiserror::Error;

/// Why serving ends before the end of the input. The session stands after the requests that were read.
#[derive(Clone, Copy, Debug, PartialEq, Eq, Error)]
pub enum ServeError {
    /// The reader failed. The answers to all requests before are written.
    #[error("the reader failed")]
    Read = 1,
    /// The writer failed, or took no byte of some. A prefix of the answers is written.
    #[error("the writer failed, or took no byte")]
    Write = 2,
    /// So many requests were read, or so many bytes without a line feed: 18,446,744,073,709,551,615. The answers to all requests before are
    /// written.
    #[error("there are too many requests, or bytes of one")]
    TooMany = 5,
}

impl ServeError {
    /// Its number, 1, 2 or 5: that of the same error of a run.
    pub fn number(self) -> u8
        ensures { result ≡ serve_number self }
    {
        self as u8
    }
}

/// Why a request is refused. The session is as before, but for Memory and Answer.
#[derive(Clone, Copy, Debug, PartialEq, Eq, Error)]
pub(crate) enum Refusal {
    /// It is no JSON.
    #[error("the request isn't JSON")]
    Json,
    /// It is JSON, but none of the requests.
    #[error("there is no such request")]
    Request,
    /// The line to type has over 2,000 bytes or a line feed.
    #[error("the line is too long, or has a line feed")]
    Line,
    /// Something runs.
    #[error("the session runs")]
    Running,
    /// There is no such function.
    #[error("there is no such function")]
    Function,
    /// The name has no value.
    #[error("the name has no value")]
    Value,
    /// Memory has run out. Where steps were to be made, the session stands after those that are done.
    #[error("out of memory")]
    Memory,
    /// The request is done, but there was no memory to tell it. What was written is told later.
    #[error("out of memory for the answer")]
    Answer,
    /// The request has over 100,000,000 bytes.
    #[error("the request is too long")]
    Length,
    /// The tree is no workspace, for this reason.
    #[error("the workspace is refused: {0}")]
    Load(LoadError),
}

impl From<AllocError> for Refusal {
    ghost use Rattle.std.specs.Prelude.{◌≡◌};
    ghost use Rattle.apl_serve.specs.declared.error.Refusal.TheVariants.{Memory};

    ghost from_gives = { λ _ e. e ≡ Memory };

    fn from(_error: AllocError) -> Refusal {
        Refusal::Memory
    }
}

impl<T: Drop> From<AllocFailed<T>> for Refusal {
    ghost use Rattle.std.specs.Prelude.{◌≡◌};
    ghost use Rattle.apl_serve.specs.declared.error.Refusal.TheVariants.{Memory};

    ghost from_gives = { λ _ e. e ≡ Memory };

    fn from(_error: AllocFailed<T>) -> Refusal {
        Refusal::Memory
    }
}

/// The answer to a workspace that is refused for this reason.
fn load_text(error: LoadError) -> &'static str
    ensures { result.now ≡ line_of (refusal_tree (Refusal.Load error)) }
{
    match error {
        LoadError::NotJson => "{\"number\":1,\"refused\":\"load\"}\n",
        LoadError::Form => "{\"number\":2,\"refused\":\"load\"}\n",
        LoadError::Array => "{\"number\":3,\"refused\":\"load\"}\n",
        LoadError::Definition => "{\"number\":4,\"refused\":\"load\"}\n",
        LoadError::Context => "{\"number\":5,\"refused\":\"load\"}\n",
        LoadError::Code => "{\"number\":6,\"refused\":\"load\"}\n",
        LoadError::Limit => "{\"number\":7,\"refused\":\"load\"}\n",
        LoadError::Memory => "{\"number\":8,\"refused\":\"load\"}\n",
    }
}

impl Refusal {
    /// The answer that tells it, with its line feed. It takes no memory.
    pub(crate) fn text(self) -> &'static str
        ensures { result.now ≡ line_of (refusal_tree self) }
    {
        match self {
            Refusal::Json => "{\"refused\":\"json\"}\n",
            Refusal::Request => "{\"refused\":\"request\"}\n",
            Refusal::Line => "{\"refused\":\"line\"}\n",
            Refusal::Running => "{\"refused\":\"running\"}\n",
            Refusal::Function => "{\"refused\":\"function\"}\n",
            Refusal::Value => "{\"refused\":\"value\"}\n",
            Refusal::Memory => "{\"refused\":\"memory\"}\n",
            Refusal::Answer => "{\"refused\":\"answer\"}\n",
            Refusal::Length => "{\"refused\":\"length\"}\n",
            Refusal::Load(error) => load_text(error),
        }
    }
}
