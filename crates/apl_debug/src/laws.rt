// Laws of runs.
ghost use Rattle.std.specs.Prelude.{◌≡◌, ℕ};
ghost use Rattle.apl_machine_state.specs.State.{State, steps};
ghost use Rattle.apl_debug.specs.Stepping.{is_over, run};

/// The law that a run of at most `n` steps until nothing runs stands where `n` steps lead.
pub fn runs()
    ensures { (n : ℕ) (s : State) → (run is_over n s).state ≡ steps n s }
{}
