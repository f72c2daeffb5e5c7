//! What errors say that no other row meets.
//!
//! | Line | What is written |
//! |---|---|
//! | `errors CRATE` | the texts of errors of a crate, a line each |

use crate::page::Page;
use apl_arrays::Stop;
use apl_charset::CharFault;
use apl_defn::DefnError;
use apl_kept::KeptError;
use apl_listing::AsmError;
use apl_loading::LoadFault;
use apl_machine::BeginError;
use apl_played::PlayError;
use apl_runs::{Failed, RunError};
use apl_session::FeedError;
use apl_tokens::TokenError;
use apl_workspace::{LoadError, SaveError};
use apl_workspace_file::ReadError;
use std::fmt::Display;

/// Writes what errors say.
fn write_errors<E: Display>(page: &mut Page, errors: &[E]) {
    for error in errors {
        page.refuse(error);
    }
}

/// Writes why a call of the whole machine plays nothing.
fn write_play_errors(page: &mut Page) {
    page.refuse(&PlayError::Workspace(LoadError::NotJson));
    page.refuse(&PlayError::LineTooLong(Vec::new(page.alloc)));
    page.refuse(&PlayError::TooManyLines(Vec::new(page.alloc)));
    page.refuse(&PlayError::Memory);
}

/// Writes why the parts of a workspace aren't read from its file.
fn write_load_faults(page: &mut Page) {
    let faults = [
        LoadFault::Array,
        LoadFault::Definition,
        LoadFault::Context,
        LoadFault::Code,
        LoadFault::Limit,
        LoadFault::Memory,
    ];
    write_errors(page, &faults);
}

/// Writes why a held session does nothing.
fn write_kept_errors(page: &mut Page) {
    let errors = [
        KeptError::Running,
        KeptError::LineTooLong,
        KeptError::LineFeed,
        KeptError::Memory,
    ];
    write_errors(page, &errors);
}

/// Writes why a workspace isn't saved or loaded for lack of memory.
fn write_workspace_errors(page: &mut Page) {
    page.refuse(&SaveError::Memory);
    page.refuse(&LoadError::Memory);
}

/// Does what a line asks for, if its word is this one.
pub fn play(page: &mut Page, word: &str, text: &str) -> bool {
    if word != "errors" {
        return false;
    }
    match text {
        "charset" => page.refuse(&CharFault::Memory),
        "tokens" => page.refuse(&TokenError::Memory),
        "arrays" => page.refuse(&Stop::Memory),
        "defn" => page.refuse(&DefnError::Memory),
        "listing" => page.refuse(&AsmError::Memory),
        "machine" => write_errors(page, &[BeginError::Busy, BeginError::Memory]),
        "session" => page.refuse(&FeedError::Memory),
        "devices" => page.refuse(&Failed),
        "runs" => write_errors(page, &[RunError::Memory, RunError::TooManyLines]),
        "workspace_file" => write_errors(
            page,
            &[ReadError::NotJson, ReadError::Form, ReadError::Memory],
        ),
        "loading" => write_load_faults(page),
        "workspace" => write_workspace_errors(page),
        "kept" => write_kept_errors(page),
        "played" => write_play_errors(page),
        _ => page.unknown(),
    }
    true
}
