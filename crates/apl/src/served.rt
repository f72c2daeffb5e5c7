//! A session that is served.

use crate::ended::Ended;
use crate::files::read_file;
use crate::{Input, Output};
use apl_kept::{Kept, open};
use apl_serve::serve;
use apl_workspace::LoadError;

/// A session on the workspace of a file. No bytes are no workspace here.
fn session_of(rt: &HostRuntime, path: &str) -> Result<Kept, Ended> {
    let bytes = read_file(rt, path)?;
    if bytes.is_empty() {
        return Err(Ended::from(LoadError::NotJson));
    }
    Ok(open(rt.alloc(), &bytes)?)
}

/// A session on the workspace of a file, or on a clear one without a file.
fn session_on(rt: &HostRuntime, workspace: &Option<String>) -> Result<Kept, Ended> {
    match workspace {
        Some(path) => session_of(rt, path.as_str()),
        None => Ok(open(rt.alloc(), &[])?),
    }
}

/// Answers the requests of the input.
pub(crate) fn serve_requests(
    rt: &HostRuntime,
    workspace: &Option<String>,
    input: &mut Input,
    output: &mut Output,
) -> Result<(), Ended> {
    let mut kept = session_on(rt, workspace)?;
    Ok(serve(rt.alloc(), &mut kept, input, output)?)
}
