// The law of the phrase table.
ghost use Rattle.std.specs.Prelude.{◌≡◌, ℕ, List, Option, Some, None};
ghost use Rattle.apl_code.specs.declared.row.Row.{Row};
ghost use Rattle.apl_translate.specs.Phrase.{Kind, phrase, row};
ghost use Rattle.apl_translate.specs.Table.{Begins, HasSize, IsFurthest, IsPhrase, NoneBegins};

/// The law that a row is found at an item just where the table has a phrase of it begin there, that no two rows
/// begin at one item, and that of the phrases of some items the one that begins furthest right is chosen.
pub fn phrases_of_the_table()
    ensures begins { (before : Option Kind) (items : List Kind) (r : Row) → row before items ≡ Some r → Begins before items r }
    ensures found { (before : Option Kind) (items : List Kind) (r : Row) → Begins before items r → row before items ≡ Some r }
    ensures one { (before : Option Kind) (items : List Kind) (r s : Row) → Begins before items r → Begins before items s → r ≡ s }
    ensures placed { (before : Option Kind) (behind items : List Kind) (r : Row) (at : ℕ) → IsPhrase before behind items r at → HasSize items r at }
    ensures furthest { (before : Option Kind) (items : List Kind) (n : ℕ) (r : Row) → phrase before items ≡ Some (n, r) → IsFurthest before items n r }
    ensures chosen { (before : Option Kind) (items : List Kind) (n : ℕ) (r : Row) → IsFurthest before items n r → phrase before items ≡ Some (n, r) }
    ensures none { (before : Option Kind) (items : List Kind) → phrase before items ≡ None → NoneBegins before items }
    ensures none_chosen { (before : Option Kind) (items : List Kind) → NoneBegins before items → phrase before items ≡ None }
{
    // Nothing is done: the law is of the definitions.
}
