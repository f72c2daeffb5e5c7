// The law of listings.
ghost use Rattle.std.specs.Prelude.{◌≡◌, ℕ, List, Option};
ghost use Rattle.apl_defn.specs.Definitions.{Definition};
ghost use Rattle.apl_machine_state.specs.State.{State};
ghost use Rattle.apl_listed.specs.Listings.{AreListings};

/// The law that a function has one list of listings in a state.
pub fn one_list()
    ensures { (s : State) (function : Option Definition) (some others : Option (List (List ℕ))) →
        AreListings s function some → AreListings s function others → some ≡ others }
{}
