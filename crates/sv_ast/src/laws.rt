// What follows from the definitions of texts, as contracts of functions that do nothing.
ghost use Rattle.std.specs.Prelude.{◌≡◌, ℕ, List};
ghost use Rattle.sv_ast.specs.GrammarMeaning.{Means, BreaksSyntax};
ghost use Rattle.sv_ast.specs.Tree.{TextTree};
ghost use Rattle.sv_num.specs.declared.faults.Place.{Place};

/// A text that means a tree breaks no rule on tokens or on the grammar.
pub fn meanings_break_no_rule()
    ensures { (bytes : List ℕ) (text : TextTree) → Means bytes text
        → (number : ℕ) (names : List (List ℕ)) (place : Place)
        → BreaksSyntax number names place bytes → ⊥ }
{}

/// A text breaks at most one rule on tokens or on the grammar first, at one place.
pub fn syntax_is_broken_once()
    ensures { (bytes : List ℕ) (number other : ℕ) (names others : List (List ℕ))
        (place elsewhere : Place)
        → BreaksSyntax number names place bytes → BreaksSyntax other others elsewhere bytes
        → (number ≡ other) × (place ≡ elsewhere) }
{}
