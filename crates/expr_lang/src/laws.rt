// What the definitions imply.
ghost use Rattle.std.specs.Prelude.{◌≡◌, ◌≢◌, ◌↔◌, ℕ, List, Some, true};
ghost use Rattle.entry_model.specs.Datum.{Datum};
ghost use Rattle.expr_lang.specs.Equality.{same};
ghost use Rattle.expr_lang.specs.Grammar.{IsExpression, Spells, Level, Disjoined};
ghost use Rattle.expr_lang.specs.declared.read.ExprReadFault.{ExprReadFault};
ghost use Rattle.expr_lang.specs.declared.read.ExprReadFault.TheVariants.{Memory};
ghost use Rattle.expr_lang.specs.Machine.{finished, start};
ghost use Rattle.expr_lang.specs.Outcome.{IsReadFault};
ghost use Rattle.expr_lang.specs.Row.{Placed};
ghost use Rattle.expr_lang.specs.Tree.{Tree};

/// Words spell one tree at most.
pub fn words_spell_one_tree()
    ensures { (row : List Placed) (tree other : Tree) → Spells 32 Disjoined row tree → Spells 32 Disjoined row other → tree ≡ other }
{}

/// Words lead to a tree exactly where they spell it.
pub fn words_lead_to_their_tree()
    ensures { (row : List Placed) (tree : Tree) → (finished start row ≡ Some tree) ↔ Spells 32 Disjoined row tree }
{}

/// A text has one tree at most.
pub fn text_has_one_tree()
    ensures { (text : List ℕ) (tree other : Tree) → IsExpression text tree → IsExpression text other → tree ≡ other }
{}

/// A text that is no expression has one fault, but for want of memory.
pub fn text_has_one_fault()
    ensures { (text : List ℕ) (fault other : ExprReadFault) → IsReadFault text fault → IsReadFault text other → fault ≢ Memory → other ≢ Memory → fault ≡ other }
{}

/// Values are the same exactly where they are equal, with the same kind.
pub fn same_values_are_equal()
    ensures { (one other : Datum) → (same one other ≡ true) ↔ (one ≡ other) }
{}
