//! The APL interpreter as a program: it runs the lines of standard input on a workspace, which it may
//! begin with and keep, and writes what they give; or it shows the code of a function; or it runs many
//! sessions side by side; or it answers requests for one.
#![tactic(auto)]

ghost use Rattle.std.specs.Prelude.{◌≡◌, [], IfOk, IsTrue};
ghost use Rattle.apl_machine_state.specs.State.{is_idle};

mod ended;
mod files;
mod served;
mod sessions;
mod shown;

use apl_files::Held;
use apl_machine::Machine;
use apl_runs::{Device, run, run_resumed};
use apl_words::{Plan, Running, Way, planned};
use ended::Ended;
use files::{load_file, save_file};
use served::serve_requests;
use sessions::run_sessions;
use shown::show;
use std::alloc::Global;
use std::env;
use std::io::{self, BufReader, Stdin, Stdout};
use std::process::ExitCode;
use std::rt::Env;

type Input = Device<BufReader<Stdin, Global>>;

type Output = Device<Stdout>;

/// The words that the program was called with, its name first. Words that are no UTF-8 are wrong.
fn words<R: Env + AllocGlobal>(rt: &R) -> Result<Vec<String>, Ended> {
    match env::args(rt) {
        Ok(words) => words.collect(rt.alloc()).map_err(|_| Ended::Memory),
        Err(error) if error.kind() == io::ErrorKind::OutOfMemory => Err(Ended::Memory),
        Err(_) => Err(Ended::words(rt.alloc(), "a word is no text")),
    }
}

/// The workspace to begin with.
fn first_workspace(rt: &HostRuntime, running: &Running) -> Result<Machine, Ended>
    ensures idle { IfOk result (λ m. IsTrue (is_idle m)) }
    ensures quiet { IfOk result (λ m. m.output ≡ []) }
{
    match &running.workspace {
        Some(path) => load_file(rt, path.as_str()),
        None => Ok(Machine::new(rt.alloc())),
    }
}

/// Runs the input on that workspace.
fn run_on(
    rt: &HostRuntime,
    running: &Running,
    input: &mut Input,
    output: &mut Output,
) -> Result<Machine, Ended>
    ensures { IfOk result (λ m. IsTrue (is_idle m)) }
{
    let ws = first_workspace(rt, running)?;
    let ran = match running.way {
        Way::Plain => run(rt.alloc(), ws, input, output, running.steps)?,
        Way::Resumed => run_resumed(rt.alloc(), ws, input, output, running.steps)?,
    };
    Ok(ran)
}

/// Runs the input on a workspace, and saves that in this file.
fn run_saved(
    rt: &HostRuntime,
    running: &Running,
    path: &str,
    input: &mut Input,
    output: &mut Output,
) -> Result<(), Ended> {
    let held = Held::hold(rt, path)?;
    let saved = match run_on(rt, running, input, output) {
        Ok(ws) => save_file(rt, &held, &ws),
        Err(ended) => Err(ended),
    };
    held.release(rt);
    saved
}

/// Runs the input on a workspace, and saves that where it is asked for.
fn run_workspace(
    rt: &HostRuntime,
    running: &Running,
    input: &mut Input,
    output: &mut Output,
) -> Result<(), Ended> {
    match &running.save {
        Some(path) => run_saved(rt, running, path.as_str(), input, output),
        None => run_on(rt, running, input, output).map(|_| ()),
    }
}

/// Does what the words ask for.
fn run_as(
    rt: &HostRuntime,
    words: &[String],
    input: &mut Input,
    output: &mut Output,
) -> Result<(), Ended> {
    match planned(rt.alloc(), words)? {
        Plan::Run(running) => run_workspace(rt, &running, input, output),
        Plan::Show(shown) => {
            let ws = load_file(rt, shown.workspace.as_str())?;
            show(rt.alloc(), &ws, shown.function.as_str(), output)
        }
        Plan::Desk(steps) => run_sessions(rt.alloc(), input, output, steps),
        Plan::Serve(workspace) => serve_requests(rt, &workspace, input, output),
    }
}

/// Runs standard input.
fn run_program(rt: &HostRuntime) -> Result<(), Ended> {
    let words = words(rt)?;
    let reader = BufReader::new(rt.alloc(), rt.stdin()).map_err(|_| Ended::Memory)?;
    let (mut input, mut output) = (Device::new(reader), Device::new(rt.stdout()));
    run_as(rt, words.as_slice(), &mut input, &mut output)
}

fn main(rt: HostRuntime) -> ExitCode {
    match run_program(&rt) {
        Ok(()) => ExitCode::SUCCESS,
        Err(ended) => {
            let _ = ended.print(&rt);
            ExitCode::from(ended.status())
        }
    }
}
