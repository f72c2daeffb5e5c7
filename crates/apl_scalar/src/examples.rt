// Values by the definitions.
ghost use Rattle.std.specs.Prelude.{◌≡◌, ◌≢◌, ℤ, pos, negsuc, codes, [], ◌∷◌, Ok, Err};
ghost use Rattle.apl_arrays.specs.Cells.{Numbers, Characters};
ghost use Rattle.apl_arrays.specs.Simple.{simple};
ghost use Rattle.apl_scalar.specs.Functions.{monadic_of, dyadic_of, residue, IsLeft};
ghost use Rattle.apl_scalar.specs.Extension.{dyadic};

use crate::function::{Dyadic, Monadic};
use apl_faults::Fault;

/// The law that these values are as they come out by hand.
pub fn worked_values()
    ensures reciprocal { monadic_of Monadic.Divide (pos 2) ≡ Err Fault.Domain }
    ensures factorial_of_20 { monadic_of Monadic.Factorial (pos 20) ≡ Ok (pos 2432902008176640000) }
    ensures factorial_of_21 { monadic_of Monadic.Factorial (pos 21) ≡ Err Fault.Limit }
    ensures factorial_of_minus_1 { monadic_of Monadic.Factorial (negsuc 0) ≡ Err Fault.Domain }
    ensures zeros { dyadic_of Dyadic.Divide (pos 0) (pos 0) ≡ Ok (pos 1) }
    ensures inexact { dyadic_of Dyadic.Divide (pos 7) (pos 2) ≡ Err Fault.Domain }
    ensures least_by_minus_1 { dyadic_of Dyadic.Divide (negsuc 9223372036854775807) (negsuc 0) ≡ Err Fault.Limit }
    ensures power_62 { dyadic_of Dyadic.Power (pos 2) (pos 62) ≡ Ok (pos 4611686018427387904) }
    ensures power_63 { dyadic_of Dyadic.Power (pos 2) (pos 63) ≡ Err Fault.Limit }
    ensures negative_power_63 { dyadic_of Dyadic.Power (negsuc 1) (pos 63) ≡ Ok (negsuc 9223372036854775807) }
    ensures power_of_minus_1 { dyadic_of Dyadic.Power (negsuc 0) (negsuc 2) ≡ Ok (negsuc 0) }
    ensures sign_of_residue { dyadic_of Dyadic.Residue (negsuc 4) (pos 3) ≡ Ok (negsuc 1) }
{}

/// The law that these arrays give what they give by hand.
pub fn worked_arrays()
    ensures residues { dyadic Dyadic.Residue (simple (Numbers (pos 0 ∷ negsuc 2 ∷ pos 3 ∷ []))) (simple (Numbers (negsuc 6 ∷ [])))
        ≡ Ok (simple (Numbers (negsuc 6 ∷ negsuc 0 ∷ pos 2 ∷ []))) }
    ensures characters { dyadic Dyadic.Equal (simple (Characters (codes "AB"))) (simple (Characters (codes "AC")))
        ≡ Ok (simple (Numbers (pos 1 ∷ pos 0 ∷ []))) }
    ensures no_number { dyadic Dyadic.NotEqual (simple (Numbers (pos 2 ∷ []))) (simple (Characters (codes "A"))) ≡ Ok (simple (Numbers (pos 1 ∷ []))) }
    ensures no_characters { dyadic Dyadic.Plus (simple (Characters [])) (simple (Numbers (pos 5 ∷ []))) ≡ Ok (simple (Numbers [])) }
    ensures lengths { dyadic Dyadic.Plus (simple (Characters [])) (simple (Numbers (pos 1 ∷ pos 2 ∷ []))) ≡ Err Fault.Length }
    ensures first_fault { dyadic Dyadic.Divide (simple (Numbers (pos 7 ∷ []))) (simple (Numbers (pos 7 ∷ pos 0 ∷ pos 2 ∷ []))) ≡ Err Fault.Domain }
{}

/// The law that a residue by another number than 0 differs from the dividend by a multiple of the divisor, and lies between 0 and it.
pub fn residues()
    ensures { (x y : ℤ) → x ≢ pos 0 → IsLeft x y (residue x y) }
{}
