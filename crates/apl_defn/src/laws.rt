// Laws of headers and definitions.
ghost use Rattle.std.specs.Prelude.{◌≡◌, ℕ, List, ◌∷◌, ◌⊎◌, Ok, Err};
ghost use Rattle.apl_defn.specs.declared.error.DefnError.{DefnError};
ghost use Rattle.apl_defn.specs.declared.error.DefnError.TheVariants as error;
ghost use Rattle.apl_defn.specs.Definitions.{Header, Definition};
ghost use Rattle.apl_defn.specs.Headers.{Heads, EachOnce, names_of};
ghost use Rattle.apl_defn.specs.Reading.{header_of};
ghost use Rattle.apl_defn.specs.Defining.{defined_of, IsDefined};
ghost use Rattle.apl_defn.specs.Defines.{Defines, IsRefused};
ghost use Rattle.apl_defn.specs.Listing.{canonical};

use apl_tokens::one_reading;

/// The law that a text is read as a header just where its tokens are a header's and no name stands
/// twice, and that it is one header at most.
pub fn headers()
    ensures read { (text : List ℕ) (h : Header) → header_of text ≡ Ok h → Heads text h × EachOnce (names_of h) }
    ensures reads { (text : List ℕ) (h : Header) → Heads text h → EachOnce (names_of h) → header_of text ≡ Ok h }
    // Twice is answered just where the tokens are a header's and a name stands twice.
    ensures twice { (text : List ℕ) → header_of text ≡ Err error.Twice → (h : Header) × Heads text h × (EachOnce (names_of h) → ⊥) }
    ensures is_twice { (text : List ℕ) (h : Header) → Heads text h → (EachOnce (names_of h) → ⊥) → header_of text ≡ Err error.Twice }
    // Header is answered just where they are no header's.
    ensures none { (text : List ℕ) → header_of text ≡ Err error.Header → (h : Header) → Heads text h → ⊥ }
    ensures is_none { (text : List ℕ) → ((h : Header) → Heads text h → ⊥) → header_of text ≡ Err error.Header }
    ensures errors { (text : List ℕ) (e : DefnError) → header_of text ≡ Err e → (e ≡ error.Header) ⊎ (e ≡ error.Twice) }
    ensures one { (text : List ℕ) (g h : Header) → Heads text g → Heads text h → g ≡ h }
    // The canonical text of a header is read as that header.
    ensures again { (text : List ℕ) (h : Header) → header_of text ≡ Ok h → header_of (canonical h) ≡ Ok h }
{
    one_reading();
}

/// The law that lines define a function just where the first is a header, at most 999 others stand
/// behind it, each has tokens, and no name stands twice; and that others are refused for the first
/// of these that doesn't hold.
pub fn definitions()
    ensures read { (lines : List (List ℕ)) (d : Definition) → defined_of lines ≡ Ok d → Defines lines d }
    ensures reads { (lines : List (List ℕ)) (d : Definition) → Defines lines d → defined_of lines ≡ Ok d }
    ensures refused { (lines : List (List ℕ)) (e : DefnError) → defined_of lines ≡ Err e → IsRefused e lines }
    ensures refuses { (lines : List (List ℕ)) (e : DefnError) → IsRefused e lines → defined_of lines ≡ Err e }
    // What is defined is defined again by its canonical header and its lines.
    ensures again { (d : Definition) → IsDefined d → defined_of (canonical d.header ∷ d.lines) ≡ Ok d }
{
    one_reading();
}
