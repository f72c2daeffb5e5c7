// The words of the command line.
use crate::Ended;
use apl_arrays::Stop;
use clap::error::ErrorKind;
use clap::{Arg, Command, Error, value_parser};
use std::alloc::{AllocError, Global};
use std::env;
use std::rt::Env;

/// What the words ask for.
#[derive(Clone, Copy)]
pub(crate) struct Plan<'a> {
    /// The kernel that is to be timed, or each where none is named.
    pub(crate) kernel: Option<&'a str>,
    /// How many elements a vector has.
    pub(crate) size: u64,
    /// How many applications are timed.
    pub(crate) repeats: u64,
}

fn command<'a>(alloc: Global) -> Result<Command<'a>, AllocError> {
    let kernel = Arg::new(alloc, "kernel")
        .value_name("KERNEL")
        .help("The kernel that is to be timed, as a+b; else each");
    let size = Arg::new(alloc, "size")
        .long("size")
        .value_name("N")
        .help("How many elements a vector has, 1 to 1000000, else 1000000")
        .value_parser(value_parser!(u64).range(1..=1_000_000));
    let repeats = Arg::new(alloc, "repeats")
        .long("repeats")
        .value_name("N")
        .help("How many applications of a kernel are timed, 1 to 1000000, else 50")
        .value_parser(value_parser!(u64).range(1..=1_000_000));
    Command::new(alloc, "apl_bench")
        .arg(kernel)?
        .arg(size)?
        .arg(repeats)
}

/// The words that the program was called with.
pub(crate) fn words<R: Env + AllocGlobal>(rt: &R) -> Result<Vec<String>, Ended> {
    match env::args(rt) {
        Ok(words) => Ok(words.collect(rt.alloc())?),
        Err(_) => Err(Ended::System),
    }
}

fn planned_in<'a>(alloc: Global, words: &'a [String]) -> Result<Plan<'a>, Error> {
    let matches = command(alloc)?.try_get_matches_from(words)?;
    Ok(Plan {
        kernel: matches.get_str("kernel"),
        size: matches.get_one::<u64>("size").unwrap_or(1_000_000),
        repeats: matches.get_one::<u64>("repeats").unwrap_or(50),
    })
}

/// What the words ask for. Where they are wrong, or ask for help, it writes what the command line's parser has to say.
pub(crate) fn planned<'a, R: Print + Eprint + AllocGlobal>(
    rt: &R,
    words: &'a [String],
) -> Result<Plan<'a>, Ended> {
    match planned_in(rt.alloc(), words) {
        Ok(plan) => Ok(plan),
        Err(error) if error.kind() == ErrorKind::OutOfMemory => Err(Ended::Stopped(Stop::Memory)),
        Err(error) => {
            let _ = error.print(rt);
            if error.use_stderr() {
                Err(Ended::Words)
            } else {
                Err(Ended::Helped)
            }
        }
    }
}
