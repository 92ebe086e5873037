// What spent logs show of a budget, as contracts of functions that do nothing.
ghost use Rattle.std.specs.Prelude.{ℕ, ℤ, ◌<◌, ◌^◌, List, All};
ghost use Rattle.sv_clause.specs.Logs.{Step};
ghost use Rattle.sv_clause.specs.Units.{IsUnitConflict, IsSpentLog};
ghost use Rattle.sv_gates.specs.Formulas.{IsWithin};

/// A log that spends a budget on clauses over n variables has fewer than 3^n steps, one for each
/// way in which a variable stands in a clause, negated, or not at all. So a budget of 3^n is never
/// spent, whoever made the log and however its steps are written.
pub fn spent_logs_are_shorter_than_all_clauses()
    ensures { (variables budget : ℕ) (clauses : List (List ℤ)) (steps : List Step) →
        All (IsWithin variables) clauses → IsSpentLog clauses steps budget →
        budget < 3 ^ variables }
{}

/// No budget is spent on clauses that have a unit conflict, whoever made the log.
pub fn units_are_never_spent()
    ensures { (budget : ℕ) (clauses : List (List ℤ)) (steps : List Step) (literals : List ℤ) →
        IsUnitConflict clauses literals → IsSpentLog clauses steps budget → ⊥ }
{}
