// What follows from the grammar for all tokens, as the contract of a function that does nothing.
ghost use Rattle.std.specs.Prelude.{◌≡◌, ℕ, List, ◌⊎◌, IsTrue};
ghost use Rattle.sv_num.specs.declared.faults.Place.{Place};
ghost use Rattle.sv_token.specs.Lexemes.{Placed};
ghost use Rattle.sv_ast.specs.Tree.{TextTree};
ghost use Rattle.sv_ast.specs.Views.{text_tree};
ghost use Rattle.sv_ast.specs.Shape.{is_shaped};
ghost use Rattle.sv_ast.specs.declared.modules.Text.{Text};
ghost use Rattle.sv_ast.specs.GrammarMeaning.{Means, BreaksSyntax};
ghost use Rattle.sv_ast.specs.GrammarRules.{TokensMean, BreaksGrammar};

/// Tokens mean a text, or else they break a rule of 201 to 204 first at some place (this project's
/// profile, over the grammar of IEEE 1364-2005).
pub fn tokens_mean_a_text_or_break_a_rule()
    ensures { (tokens : List Placed) (stop : Place) →
        ((text : TextTree) × TokensMean tokens text)
        ⊎ ((number : ℕ) × (names : List (List ℕ)) × (place : Place)
        × BreaksGrammar number names place stop tokens) }
{}

/// Tokens that mean a text break no rule of 201 to 204.
pub fn tokens_that_mean_a_text_break_no_rule()
    ensures { (tokens : List Placed) (text : TextTree) → TokensMean tokens text →
        (number : ℕ) (names : List (List ℕ)) (place stop : Place) →
        BreaksGrammar number names place stop tokens → ⊥ }
{}

/// Tokens break one rule of 201 to 204 first, with one list of names, at one place.
pub fn tokens_break_one_rule()
    ensures { (number other : ℕ) (names others : List (List ℕ)) (place elsewhere stop : Place)
        (tokens : List Placed) →
        BreaksGrammar number names place stop tokens →
        BreaksGrammar other others elsewhere stop tokens →
        (number ≡ other) × (names ≡ others) × (place ≡ elsewhere) }
{}

/// Bytes mean a text, and one alone, or else they break a rule on tokens or on the grammar, and one
/// rule first, with one list of names, at one place. Memories, invariants and releases are parts of
/// the text here.
pub fn bytes_mean_a_text_or_break_one_rule()
    ensures means_or_breaks { (bytes : List ℕ) →
        ((text : TextTree) × Means bytes text)
        ⊎ ((number : ℕ) × (names : List (List ℕ)) × (place : Place)
        × BreaksSyntax number names place bytes) }
    ensures never_both { (bytes : List ℕ) (text : TextTree) → Means bytes text →
        (number : ℕ) (names : List (List ℕ)) (place : Place) →
        BreaksSyntax number names place bytes → ⊥ }
    ensures one_text { (bytes : List ℕ) (one other : TextTree) →
        Means bytes one → Means bytes other → one ≡ other }
    ensures one_rule { (bytes : List ℕ) (number other : ℕ) (names others : List (List ℕ))
        (place elsewhere : Place) →
        BreaksSyntax number names place bytes → BreaksSyntax other others elsewhere bytes →
        (number ≡ other) × (names ≡ others) × (place ≡ elsewhere) }
{}

/// Tokens mean at most one text (this project's profile, over the grammar of IEEE 1364-2005).
pub fn tokens_mean_at_most_one_text()
    ensures { (tokens : List Placed) (one other : TextTree) →
        TokensMean tokens one → TokensMean tokens other → one ≡ other }
{}

/// A text whose tree tokens mean passes `Text::is_shaped`.
pub fn what_tokens_mean_is_shaped()
    ensures { (tokens : List Placed) (text : Text) →
        TokensMean tokens (text_tree text) → IsTrue (is_shaped (text_tree text)) }
{}
