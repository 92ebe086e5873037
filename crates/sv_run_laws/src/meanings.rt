// What bytes mean, as the contract of a function that does nothing.
ghost use Rattle.std.specs.Prelude.{◌≡◌, ℕ, List};
ghost use Rattle.sv_ast.specs.Tree.{TextTree};
ghost use Rattle.sv_ast.specs.GrammarMeaning.{Means};

/// Bytes mean at most one text (IEEE 1364-2005, annex A, within this project's profile).
pub fn bytes_mean_at_most_one_text()
    ensures { (bytes : List ℕ) (one other : TextTree) →
        Means bytes one → Means bytes other → one ≡ other }
{}
