// The unit clauses at the end of an encoding.
ghost use Rattle.std.specs.Prelude.{◌≡◌, OnOk, All, map, if◌then◌else◌, neg_ℤ};
ghost use Rattle.sv_gates.specs.Extending.{Begins};
ghost use Rattle.sv_gates.specs.Formulas.{IsLiteral};
ghost use Rattle.sv_gates.specs.Gates.{with_unit};
ghost use Rattle.sv_encoding.specs.Encoding.{path_units, with_units};
ghost use Rattle.sv_obl.specs.Views.{step_form};
ghost use Rattle.sv_blast.specs.Steps.{units_of};

use std::alloc::AllocError;
use sv_gates::{Gates, Literal};
use sv_obl::PathStep;

// Adds the clause of each literal alone.
fn add_facts(gates: &mut Gates, facts: &[Literal]) -> Result<(), AllocError>
    requires { All (IsLiteral gates.old.variables) facts.now }
    ensures made { OnOk result (gates.new ≡ units_of facts.now gates.old) }
    ensures begins { Begins gates.old gates.new }
{
    for literal in facts {
        gates.unit_clause(*literal)?;
    }
    Ok(())
}

// A condition's literal, negated where the path has the condition as false.
fn unit_of(step: &PathStep, literal: Literal) -> Literal
    ensures { result ≡ (if step.now.truth then literal else neg_ℤ literal) }
{
    if step.truth {
        literal
    } else {
        literal.negated()
    }
}

// Adds the clause of each condition's literal alone, negated where the path has it as false.
fn add_conditions(
    gates: &mut Gates,
    path: &[PathStep],
    conditions: &[Literal],
) -> Result<(), AllocError>
    requires { All (IsLiteral gates.old.variables) conditions.now }
    ensures made { OnOk result (gates.new
        ≡ units_of (path_units (map step_form path.now) conditions.now) gates.old) }
    ensures begins { Begins gates.old gates.new }
{
    for (step, literal) in path.iter().zip(conditions) {
        let unit = unit_of(step, *literal);
        gates.unit_clause(unit)?;
    }
    Ok(())
}

/// Adds a unit clause for each fact, for each condition and for the violation.
/// An error says that memory ran out.
pub fn add_units(
    gates: &mut Gates,
    facts: &[Literal],
    path: &[PathStep],
    conditions: &[Literal],
    fails: Literal,
) -> Result<(), AllocError>
    requires facts { All (IsLiteral gates.old.variables) facts.now }
    requires conditions { All (IsLiteral gates.old.variables) conditions.now }
    requires fails { IsLiteral gates.old.variables fails }
    ensures made { OnOk result (gates.new
        ≡ with_units facts.now (map step_form path.now) conditions.now fails gates.old) }
{
    add_facts(gates, facts)?;
    add_conditions(gates, path, conditions)?;
    gates.unit_clause(fails)
}
