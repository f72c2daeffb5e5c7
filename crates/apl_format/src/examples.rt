// Displays and arrays as characters by the definitions.
ghost use Rattle.std.specs.Prelude.{◌≡◌, pos, negsuc, codes, [], ◌∷◌, ◌++◌, replicate, Ok, Err};
ghost use Rattle.apl_format.specs.Display.{display};
ghost use Rattle.apl_format.specs.Examples.{four_numbers, of_characters, of_numbers};
ghost use Rattle.apl_format.specs.Formatted.{formatted};

/// The law that these arrays show as they do by hand.
pub fn worked_displays()
    ensures scalar { display (of_numbers [] (negsuc 11 ∷ [])) ≡ (0xAF ∷ codes "12") ∷ [] }
    ensures vector { display (of_numbers (3 ∷ []) (pos 20 ∷ pos 0 ∷ pos 5 ∷ [])) ≡ codes "20 0 5" ∷ [] }
    ensures empty { display (of_numbers (0 ∷ []) []) ≡ [] ∷ [] }
    ensures matrix { display (of_numbers (2 ∷ 2 ∷ []) four_numbers) ≡ codes "  1 20" ∷ codes "300  4" ∷ [] }
    ensures planes { display (of_numbers (2 ∷ 2 ∷ 1 ∷ []) four_numbers) ≡ codes "  1" ∷ codes " 20" ∷ [] ∷ codes "300" ∷ codes "  4" ∷ [] }
    ensures characters { display (of_characters (2 ∷ 1 ∷ []) (codes "AB")) ≡ codes "A" ∷ codes "B" ∷ [] }
    ensures no_rows { display (of_numbers (2 ∷ 0 ∷ 3 ∷ []) []) ≡ [] }
    ensures no_columns { display (of_numbers (2 ∷ 0 ∷ []) []) ≡ [] ∷ [] ∷ [] }
{}

/// The law that these arrays are as characters what they are by hand.
pub fn worked_formats()
    ensures scalar { formatted (of_numbers [] (pos 5 ∷ [])) ≡ Ok (of_characters (1 ∷ []) (codes "5")) }
    ensures vector { formatted (of_numbers (2 ∷ []) (pos 1 ∷ negsuc 1 ∷ [])) ≡ Ok (of_characters (4 ∷ []) (codes "1 " ++ 0xAF ∷ codes "2")) }
    ensures empty { formatted (of_numbers (0 ∷ []) []) ≡ Ok (of_characters (0 ∷ []) []) }
    ensures matrix { formatted (of_numbers (2 ∷ 2 ∷ []) four_numbers) ≡ Ok (of_characters (2 ∷ 6 ∷ []) (codes "  1 20300  4")) }
    ensures planes { formatted (of_numbers (2 ∷ 2 ∷ 1 ∷ []) four_numbers) ≡ Ok (of_characters (2 ∷ 2 ∷ 3 ∷ []) (codes "  1 20300  4")) }
    ensures characters { formatted (of_characters (2 ∷ 1 ∷ []) (codes "AB")) ≡ Ok (of_characters (2 ∷ 1 ∷ []) (codes "AB")) }
    ensures no_rows { formatted (of_numbers (0 ∷ 3 ∷ []) []) ≡ Ok (of_characters (0 ∷ 2 ∷ []) []) }
    ensures no_columns { formatted (of_numbers (2 ∷ 0 ∷ []) []) ≡ Ok (of_characters (2 ∷ 0 ∷ []) []) }
{}
