//! Times primitive functions and operators. For each kernel and each type that stores its operands it writes a checksum of the result on standard
//! output, and on standard error the nanoseconds of processor time that one application takes, on the average of so many.
#![tactic(auto)]

mod kernels;
mod numbers;
mod operands;
mod words;

use crate::kernels::{KERNELS, Kernel};
use crate::numbers::{WIDTHS, Width};
use crate::words::{Plan, planned, words};
use apl_arrays::{Array, Elements, Stop};
use std::alloc::AllocError;
use std::io;
use std::process::ExitCode;
use std::rt::Env;
use std::time::CpuClock;

/// Why the program ends before all is timed.
#[derive(Debug, Drop)]
pub(crate) enum Ended {
    /// The help was asked for, and has been written.
    Helped,
    /// The words of the command line are wrong; what is wrong has been written.
    Words,
    /// There is no memory for an operand or a result, or a kernel's operands are at fault.
    Stopped(Stop),
    /// A clock, a word or an output failed.
    System,
}

impl From<Stop> for Ended {
    fn from(stop: Stop) -> Ended {
        Ended::Stopped(stop)
    }
}

impl From<AllocError> for Ended {
    fn from(_error: AllocError) -> Ended {
        Ended::Stopped(Stop::Memory)
    }
}

impl From<io::Error> for Ended {
    fn from(_error: io::Error) -> Ended {
        Ended::System
    }
}

/// A number that tells results apart: each element weighs in by its place.
fn checksum(array: &Array) -> i64 {
    let mut sum = 0i64;
    if let Elements::Nums(numbers) = array.items() {
        for number in numbers {
            sum = sum.wrapping_mul(31).wrapping_add(number);
        }
    }
    sum
}

/// Times one kernel with operands of one type. The first application, from which the checksum is taken, is not timed.
fn time<R: CpuClock + Print + Eprint + AllocGlobal>(
    rt: &R,
    kernel: &Kernel,
    width: Width,
    plan: &Plan<'_>,
) -> Result<(), Ended> {
    let alloc = rt.alloc();
    let operands = kernel.operands(alloc, width, plan.size)?;
    let mut result = kernel.apply(alloc, &operands)?;
    println!(rt; "{} {} {}", kernel.name(), width.name(), checksum(&result))?;
    let start = rt.thread_cpu_time()?;
    for _ in 0..plan.repeats {
        result = kernel.apply(alloc, &operands)?;
    }
    let spent = rt.thread_cpu_time()?.saturating_sub(start);
    eprintln!(rt;
        "{} {} {}",
        kernel.name(),
        width.name(),
        spent.as_nanos() / u128::from(plan.repeats.max(1))
    )?;
    Ok(())
}

/// Times one kernel with operands of each type that it has.
fn time_each<R: CpuClock + Print + Eprint + AllocGlobal>(
    rt: &R,
    kernel: &Kernel,
    plan: &Plan<'_>,
) -> Result<(), Ended> {
    for width in WIDTHS {
        if kernel.has(*width) {
            time(rt, kernel, *width, plan)?;
        }
    }
    Ok(())
}

/// Whether a kernel is the one that is asked for, or each is.
fn is_asked(name: Option<&str>, kernel: &Kernel) -> bool {
    match name {
        Some(name) => name == kernel.name(),
        None => true,
    }
}

/// Times the kernels that the words ask for.
fn run<R: CpuClock + Env + Print + Eprint + AllocGlobal>(rt: &R) -> Result<(), Ended> {
    let words = words(rt)?;
    let plan = planned(rt, words.as_slice())?;
    let mut found = false;
    for kernel in KERNELS {
        if is_asked(plan.kernel, kernel) {
            found = true;
            time_each(rt, kernel, &plan)?;
        }
    }
    if !found {
        eprintln!(rt; "apl_bench: there is no such kernel")?;
        return Err(Ended::Words);
    }
    Ok(())
}

fn main(rt: HostRuntime) -> ExitCode {
    match run(&rt) {
        Ok(()) | Err(Ended::Helped) => ExitCode::SUCCESS,
        Err(Ended::Words) => ExitCode::from(1),
        Err(ended) => {
            let _ = eprintln!(rt; "apl_bench: {ended:?}");
            ExitCode::from(2)
        }
    }
}
