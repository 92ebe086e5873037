// Where a budget is never told as spent, as contracts of functions that do nothing.
ghost use Rattle.std.specs.Prelude.{ℕ, ◌≤◌, ◌^◌, List, All};
ghost use Rattle.sv_clause.specs.Logs.{Step};
ghost use Rattle.sv_flat.specs.Design.{FlatDesign};
ghost use Rattle.sv_obl.specs.Asked.{asked};
ghost use Rattle.sv_obl.specs.Noninterference.{IsChecked};
ghost use Rattle.sv_judge.specs.Answers.{HasAtMost, HasUnitConflict};
ghost use Rattle.sv_judge.specs.Verdicts.{IsSpent};

/// A budget of at least 3^n is spent on no obligation of a checked design none of whose encodings
/// has more than n variables.
pub fn large_budgets_decide()
    ensures { (design : FlatDesign) (budget number most : ℕ) (steps : List Step) →
        IsChecked design → All (HasAtMost design most) (asked design) →
        3 ^ most ≤ budget → IsSpent design budget number steps → ⊥ }
{}

/// No budget is spent on an obligation of a design where unit resolution alone refutes each
/// encoding.
pub fn unit_conflicts_decide()
    ensures { (design : FlatDesign) (budget number : ℕ) (steps : List Step) →
        All (HasUnitConflict design) (asked design) →
        IsSpent design budget number steps → ⊥ }
{}
