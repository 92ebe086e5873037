// What follows from the rules on tokens for all texts, as the contract of a function that does
// nothing.
ghost use Rattle.std.specs.Prelude.{◌≡◌, ℕ, List, ◌⊎◌};
ghost use Rattle.sv_num.specs.declared.faults.Place.{Place};
ghost use Rattle.sv_token.specs.Lexemes.{Placed};
ghost use Rattle.sv_token.specs.Tokens.{AreTokensOf, BreaksLexis};

/// Bytes have tokens, or else they break a rule of 101 to 104 first at some place (IEEE 1364-2005,
/// clause 3, and this project's profile): the one or the other, never both; one list of tokens, or
/// one rule with one list of names at one place.
pub fn bytes_have_tokens_or_break_a_rule()
    ensures tokens_or_broken { (bytes : List ℕ) →
        ((tokens : List Placed) × AreTokensOf bytes tokens)
        ⊎ ((number : ℕ) × (names : List (List ℕ)) × (place : Place)
        × BreaksLexis number names place bytes) }
    ensures never_both { (bytes : List ℕ) (tokens : List Placed) → AreTokensOf bytes tokens →
        (number : ℕ) (names : List (List ℕ)) (place : Place) →
        BreaksLexis number names place bytes → ⊥ }
    ensures one_list { (bytes : List ℕ) (one other : List Placed) →
        AreTokensOf bytes one → AreTokensOf bytes other → one ≡ other }
    ensures one_rule { (bytes : List ℕ) (number other : ℕ) (names others : List (List ℕ))
        (place elsewhere : Place) →
        BreaksLexis number names place bytes → BreaksLexis other others elsewhere bytes →
        (number ≡ other) × (names ≡ others) × (place ≡ elsewhere) }
{}
