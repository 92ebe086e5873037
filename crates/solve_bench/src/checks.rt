// Checks of clauses, and of values that were found for them.
ghost use Rattle.std.specs.Prelude.{All, IsTrue};
ghost use Rattle.sv_solve.specs.Answers.{IsWithin};

use sv_clause::Clause;
use sv_solve::is_within;

/// Whether all clauses are of variables up to this one.
pub fn are_within(variables: u32, clauses: &[Clause]) -> bool
    ensures { IsTrue result → All (IsWithin variables) clauses.now }
{
    clauses.iter().all(|clause| is_within(variables, clause))
}

/// Whether values make all clauses true.
pub fn are_true(values: &[bool], clauses: &[Clause]) -> bool {
    clauses
        .iter()
        .all(|clause| is_true(values, clause.literals()))
}

// Whether values make one of these literals true.
fn is_true(values: &[bool], literals: &[i32]) -> bool {
    literals.iter().any(|literal| holds(values, *literal))
}

// Whether values make a literal true.
fn holds(values: &[bool], literal: i32) -> bool {
    let variable = literal.unsigned_abs() as usize;
    0 < variable && variable <= values.len() && values[variable - 1] == (literal > 0)
}
