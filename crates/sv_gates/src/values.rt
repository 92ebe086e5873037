// Values of variables, and what they make true.
ghost use Rattle.std.specs.Prelude.{◌≡◌};
ghost use Rattle.sv_clause.specs.Literals.{clause_true, literal_true};
ghost use Rattle.sv_gates.specs.Formulas.{value_of};

use sv_clause::Clause;

/// Whether values make a clause true.
pub fn is_met(values: &[bool], clause: &Clause) -> bool
    ensures { result ≡ clause_true (value_of values.now) clause.now }
{
    clause
        .literals()
        .iter()
        .any(|literal| is_true(values, literal))
}

// Whether values make a literal true.
fn is_true(values: &[bool], literal: &i32) -> bool
    ensures { result ≡ literal_true (value_of values.now) literal.now }
{
    if *literal == 0 {
        return false;
    }
    let variable = literal.unsigned_abs() as usize;
    let value = values.get(variable - 1).copied().unwrap_or(false);
    if *literal < 0 { !value } else { value }
}
