//! Steps, one at a time or until a line ends or nothing runs.
ghost use Rattle.std.specs.Prelude.{◌≡◌, IfErr, IfOk, OnErr, OnOk};
ghost use Rattle.apl_machine_state.specs.State.{progress, step, turn};
ghost use Rattle.apl_debug.specs.Stepping.{StandsAfter, StandsWithin, ends_at, is_over, leaves_line, run};

use apl_machine::{Machine, Progress};
use std::alloc::AllocError;

/// Whether a run of steps ends after a step with this answer: where nothing runs, and with
/// `at_lines` also where a line ended or was left.
fn is_end(at_lines: bool, progress: Progress) -> bool
    ensures { result ≡ ends_at at_lines progress }
{
    match progress {
        Progress::Idle => true,
        Progress::Stopped => true,
        Progress::LineEnd => at_lines,
        Progress::Running => false,
    }
}

/// At most `count` steps, through the first that ends the run, and what the last one answered.
/// Out of memory it gives the number of those that are done.
#[tactic(auto, using(crate::proofs::Stepped::runs))]
fn advance(machine: &mut Machine, count: u64, at_lines: bool) -> Result<Progress, u64>
    ensures ok { OnOk result (machine.new ≡ (run (ends_at at_lines) count machine.old).state) }
    ensures progress { IfOk result (λ p. p ≡ (run (ends_at at_lines) count machine.old).answer) }
    ensures err { IfErr result (λ done. StandsAfter done (ends_at at_lines) count machine.old machine.new) }
{
    let mut progress = if machine.is_idle() {
        Progress::Idle
    } else {
        Progress::Running
    };
    for done in 0..count {
        if machine.is_idle() {
            return Ok(progress);
        }
        match machine.step() {
            Ok(next) => progress = next,
            Err(AllocError) => return Err(done),
        }
        if is_end(at_lines, progress) {
            return Ok(progress);
        }
    }
    Ok(progress)
}

/// Steps a machine.
#[derive(Drop)]
pub struct Stepper<'a> {
    machine: &'a mut Machine,
}

impl<'a> Stepper<'a> {
    /// A stepper of this machine.
    pub fn new(machine: &'a mut Machine) -> Self
        ensures same { result.machine.ghost_name ≡ machine.entry.ghost_name }
        ensures as_it_stands { result.machine.now ≡ machine.old }
    {
        Stepper { machine }
    }

    /// One step, as `Machine::step` makes it.
    pub fn one(&mut self) -> Result<Progress, AllocError>
        ensures same { self.new.machine.ghost_name ≡ self.old.machine.ghost_name }
        ensures ok { OnOk result (self.new.machine.now ≡ step self.old.machine.now) }
        ensures progress { IfOk result (λ p. p ≡ progress (turn self.old.machine.now)) }
        ensures err { OnErr result (self.new.machine.now ≡ self.old.machine.now) }
    {
        self.machine.step()
    }

    /// At most `count` steps, until a line has ended, was left by a branch or abandoned, or nothing
    /// runs. Out of memory the machine stands after the steps that are done.
    pub fn line(&mut self, count: u64) -> Result<Progress, AllocError>
        ensures same { self.new.machine.ghost_name ≡ self.old.machine.ghost_name }
        ensures ok { OnOk result (self.new.machine.now ≡ (run leaves_line count self.old.machine.now).state) }
        ensures progress { IfOk result (λ p. p ≡ (run leaves_line count self.old.machine.now).answer) }
        ensures err { OnErr result (StandsWithin leaves_line count self.old.machine.now self.new.machine.now) }
    {
        match advance(self.machine, count, true) {
            Ok(progress) => Ok(progress),
            Err(_) => Err(AllocError),
        }
    }

    /// At most `count` steps, until nothing runs. Out of memory the machine stands after the
    /// steps that are done.
    pub fn until_idle(&mut self, count: u64) -> Result<Progress, AllocError>
        ensures same { self.new.machine.ghost_name ≡ self.old.machine.ghost_name }
        ensures ok { OnOk result (self.new.machine.now ≡ (run is_over count self.old.machine.now).state) }
        ensures progress { IfOk result (λ p. p ≡ (run is_over count self.old.machine.now).answer) }
        ensures err { OnErr result (StandsWithin is_over count self.old.machine.now self.new.machine.now) }
    {
        match advance(self.machine, count, false) {
            Ok(progress) => Ok(progress),
            Err(_) => Err(AllocError),
        }
    }
}
