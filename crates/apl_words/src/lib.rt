//! The words of the command line of the program `apl`.
#![tactic(auto)]

ghost use Rattle.std.specs.Prelude.{◌≡◌, IfOk, codes, false, map, option_map, string_bytes};
ghost use Rattle.clap.specs.Words.{app_of, first_of, found_of, kind_of, one_of, rows_of, rule_of};
ghost use Rattle.apl_words.specs.Arguments as spec;
ghost use Rattle.apl_words.specs.Planning.{IsFlag, IsPlan, IsSteps, IsTold, is_resumed};
ghost use Rattle.apl_words.specs.declared.WordsError.TheVariants.{Memory};

use clap::error::ErrorKind;
use clap::{Arg, ArgAction, ArgMatches, Command, value_parser};
use std::alloc::{AllocError, Global};
use thiserror::Error;

/// How the input is run.
#[derive(Clone, Copy, PartialEq, Eq, Debug)]
pub enum Way {
    /// Line by line, each to its end or for as many steps as it is given.
    Plain,
    /// The same, and each stop is answered by the line `→⎕LC`.
    Resumed,
}

/// A run of the input.
#[derive(Debug, Drop)]
pub struct Running {
    /// The file of the workspace to begin with; without one that is clear.
    pub workspace: Option<String>,
    /// The file that the workspace is saved in at the end.
    pub save: Option<String>,
    pub way: Way,
    /// The most steps of a line: 1 to 1,000,000,000; 1,000,000 where the words don't say.
    pub steps: u64,
}

/// A function whose code is shown.
#[derive(Debug, Drop)]
pub struct Shown {
    /// The file of the workspace.
    pub workspace: String,
    pub function: String,
}

/// What the words ask for.
#[derive(Debug, Drop)]
pub enum Plan {
    Run(Running),
    Show(Shown),
    /// A run of the input on a desk of clear sessions, with at most so many steps a line.
    Desk(u64),
    /// One session is served, on the workspace of this file; without one that is clear.
    Serve(Option<String>),
}

/// Why the words ask for no run.
#[derive(Debug, Drop, Error)]
pub enum WordsError {
    /// The help or the version is asked for; this is its text.
    #[error("{0}")]
    Help(String),
    /// The words are wrong; this tells what is.
    #[error("{0}")]
    Wrong(String),
    #[error("out of memory")]
    Memory,
}

impl From<AllocError> for WordsError {
    ghost from_gives = { λ _ e. e ≡ Memory };

    fn from(_error: AllocError) -> WordsError {
        WordsError::Memory
    }
}

/// The file of the workspace.
fn workspace<'a>(alloc: Global) -> Arg<'a>
    ensures { (rule_of result ≡ spec.workspace_rule) × (result.global ≡ false) }
{
    Arg::new(alloc, "WS").index(1).help("The file of the workspace to begin with, else a clear one")
}

/// The option `--save`.
fn save<'a>(alloc: Global) -> Arg<'a>
    ensures { (rule_of result ≡ spec.save_rule) × (result.global ≡ false) }
{
    Arg::new(alloc, "save")
        .long("save")
        .value_name("FILE")
        .help("Save the workspace in FILE at the end")
}

/// The option `--steps`.
fn steps<'a>(alloc: Global) -> Arg<'a>
    ensures { (rule_of result ≡ spec.steps_rule) × (result.global ≡ false) }
{
    Arg::new(alloc, "steps")
        .long("steps")
        .value_name("N")
        .help("The most steps of a line, 1 to 1000000000, else 1000000")
        .value_parser(value_parser!(u64).range(1..=1_000_000_000))
}

/// The option `--code`.
fn code<'a>(alloc: Global) -> Result<Arg<'a>, AllocError>
    ensures { IfOk result (λ arg. (rule_of arg ≡ spec.code_rule) × (arg.global ≡ false)) }
{
    Arg::new(alloc, "code")
        .long("code")
        .value_name("F")
        .help("Show the code of the function F of WS, and read no input")
        .requires_arg("WS")?
        .conflicts_with("save")?
        .conflicts_with("resume")
}

/// The flag `--resume`.
fn resume<'a>(alloc: Global) -> Arg<'a>
    ensures { (rule_of result ≡ spec.resume_rule) × (result.global ≡ false) }
{
    Arg::new(alloc, "resume")
        .long("resume")
        .help("Answer each stop by the line →⎕LC")
        .action(ArgAction::SetTrue)
}

/// The flag `--desk`.
fn desk<'a>(alloc: Global) -> Result<Arg<'a>, AllocError>
    ensures { IfOk result (λ arg. (rule_of arg ≡ spec.desk_rule) × (arg.global ≡ false)) }
{
    Arg::new(alloc, "desk")
        .long("desk")
        .help("Run 64 clear sessions: each line begins with a number from 0 to 63 and a blank")
        .action(ArgAction::SetTrue)
        .conflicts_with("WS")?
        .conflicts_with("save")?
        .conflicts_with("code")?
        .conflicts_with("resume")
}

/// The flag `--serve`.
fn serve<'a>(alloc: Global) -> Result<Arg<'a>, AllocError>
    ensures { IfOk result (λ arg. (rule_of arg ≡ spec.serve_rule) × (arg.global ≡ false)) }
{
    Arg::new(alloc, "serve")
        .long("serve")
        .help("Answer requests for one session, one JSON value a line")
        .action(ArgAction::SetTrue)
        .conflicts_with("save")?
        .conflicts_with("steps")?
        .conflicts_with("code")?
        .conflicts_with("resume")?
        .conflicts_with("desk")
}

/// The day of the newest changes that CHANGELOG.md tells of, and the program logic in which the program
/// is proved, which several kits of the toolchain share.
const VERSION: &str = "2026-12-01 (logic dac8208d650f15bf)";

/// An example of each word.
const EXAMPLES: &str = "Examples:
  apl <lines                        Run the lines of a file
  apl ledger --save ledger <lines   Go on with a workspace, and keep it
  apl --steps 5000 <lines           Interrupt each line that has made 5000 steps
  apl ledger --code SUM             Show what each line of SUM was translated to
  apl --resume <lines               Go on at each stop
  apl --desk <lines                 Run sessions side by side
  apl --serve <requests             Answer requests, as a program makes them";

/// The command line.
fn command<'a>(alloc: Global) -> Result<Command<'a>, AllocError>
    ensures { IfOk result (λ command. app_of command ≡ spec.apl) }
{
    Command::new(alloc, "apl")
        .version(VERSION)
        .after_help(EXAMPLES)
        .arg(workspace(alloc))?
        .arg(save(alloc))?
        .arg(steps(alloc))?
        .arg(code(alloc)?)?
        .arg(resume(alloc))?
        .arg(desk(alloc)?)?
        .arg(serve(alloc)?)
}

/// The value of an argument, if it has one.
fn given(alloc: Global, matches: &ArgMatches<'_>, name: &str) -> Result<Option<String>, AllocError>
    ensures { IfOk result (λ value. option_map string_bytes value ≡ first_of name.now (rows_of (found_of matches.now))) }
{
    match matches.get_str(name) {
        Some(value) => Ok(Some(String::from_str(alloc, value)?)),
        None => Ok(None),
    }
}

/// Whether a flag is given.
fn has_flag(matches: &ArgMatches<'_>, name: &str) -> bool
    ensures { IsFlag (one_of name.now (rows_of (found_of matches.now))) result }
{
    matches.get_flag(name)
}

/// The most steps of a line.
fn steps_of(matches: &ArgMatches<'_>) -> u64
    ensures { IsSteps (one_of (codes "steps") (rows_of (found_of matches.now))) result }
{
    matches.get_one::<u64>("steps").unwrap_or(1_000_000)
}

fn way_of(matches: &ArgMatches<'_>) -> Way
    ensures { IsFlag (one_of (codes "resume") (rows_of (found_of matches.now))) (is_resumed result) }
{
    if has_flag(matches, "resume") {
        Way::Resumed
    } else {
        Way::Plain
    }
}

/// What is asked for where no desk is and no session is served. A function stands beside a workspace alone.
fn plan_of(alloc: Global, matches: &ArgMatches<'_>) -> Result<Plan, AllocError>
    requires desk { IsFlag (one_of (codes "desk") (rows_of (found_of matches.now))) false }
    requires serve { IsFlag (one_of (codes "serve") (rows_of (found_of matches.now))) false }
    ensures { IfOk result (IsPlan (rows_of (found_of matches.now))) }
{
    let workspace = given(alloc, matches, "WS")?;
    let function = given(alloc, matches, "code")?;
    match (workspace, function) {
        (Some(workspace), Some(function)) => Ok(Plan::Show(Shown {
            workspace,
            function,
        })),
        (workspace, _) => Ok(Plan::Run(Running {
            workspace,
            save: given(alloc, matches, "save")?,
            way: way_of(matches),
            steps: steps_of(matches),
        })),
    }
}

/// What the words ask for that the parser takes.
fn parsed<'a>(alloc: Global, words: &'a [String]) -> Result<Plan, clap::Error>
    ensures { IfOk result (IsPlan (spec.found_in (map string_bytes words.entry.now))) }
{
    let matches = command(alloc)?.try_get_matches_from(words)?;
    if has_flag(&matches, "desk") {
        return Ok(Plan::Desk(steps_of(&matches)));
    }
    if has_flag(&matches, "serve") {
        return Ok(Plan::Serve(given(alloc, &matches, "WS")?));
    }
    Ok(plan_of(alloc, &matches)?)
}

/// What the parser has to say.
fn told(alloc: Global, error: &clap::Error) -> WordsError
    ensures { IsTold (kind_of error.now) result }
{
    if error.kind() == ErrorKind::OutOfMemory {
        return WordsError::Memory;
    }
    match format!(in alloc; "{error}") {
        Err(_) => WordsError::Memory,
        Ok(text) if error.use_stderr() => WordsError::Wrong(text),
        Ok(text) => WordsError::Help(text),
    }
}

/// What these words ask for, of which the first is the program's name.
pub fn planned(alloc: Global, words: &[String]) -> Result<Plan, WordsError>
    ensures { IfOk result (IsPlan (spec.found_in (map string_bytes words.now))) }
{
    parsed(alloc, words).map_err(|error| told(alloc, &error))
}
