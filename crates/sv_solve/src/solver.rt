// Conflict-driven clause learning, up to a budget of conflict clauses.
ghost use Rattle.std.specs.Prelude.{◌≡◌, ◌↔◌, ℕ, ℤ, ◌+◌, ◌^◌, ◌<◌, ◌≤◌, List, All, IfOk, IsTrue};
ghost use Rattle.std.specs.Prelude.{[], length, min, unsigned_abs};
ghost use Rattle.sv_clause.specs.Literals.{Satisfies};
ghost use Rattle.sv_clause.specs.Logs.{Refutes};
ghost use Rattle.sv_clause.specs.Units.{IsSpentLog, IsUnitConflict};
ghost use Rattle.sv_solve.specs.Answers.{IsWithin, value_of, OnlyLastIsEmpty, AreDifferent};
ghost use Rattle.sv_solve.specs.Answers.{WhereFound, WhereRefuted, WhereSpent};
ghost use Rattle.sv_solve.specs.Answers.{IsNotSpent, IsAnswer};
ghost use Rattle.sv_solve.specs.Values.{AreValues};
ghost use Rattle.sv_solve.specs.Outcomes.{IsSpending};

use crate::OutOfMemory;
use crate::lists::LiteralList;
use crate::literal::Literal;
use crate::order::Order;
use crate::search::{SearchOutcome, search};
use crate::state::{Begun, SolverState};
use crate::trail::AssignmentTrail;
use std::alloc::Global;
use sv_clause::{Clause, Log};

/// What became of some clauses.
#[derive(Debug, Drop)]
pub enum Solved {
    /// Values that make every clause true, the first for variable 1.
    Found(Vec<bool>),
    /// Steps of which the last one alone is empty.
    Refuted(Log),
    /// As many steps as the budget allows, each new to the clauses and the steps before it.
    Spent(Log),
}

// The value of each variable under a trail.
fn values_under(
    alloc: Global,
    variables: u32,
    trail: &AssignmentTrail,
) -> Result<Vec<bool>, OutOfMemory>
    requires small { trail.now.variables < 2 ^ 31 }
    ensures { IfOk result (λ values. AreValues variables trail.now values.items) }
{
    let mut values: Vec<bool> = Vec::new(alloc);
    'variables: for before in 0..variables {
        if before >= trail.variables() {
            values.push(false)?;
            continue 'variables;
        }
        values.push(trail.contains(&Literal::of_variable(before + 1)))?;
    }
    Ok(values)
}

// Answers where the budget is spent: backjumps over all decision levels, and propagates once more
// without decisions.
fn spend(
    alloc: Global,
    state: SolverState,
    seen: &mut LiteralList,
    order: &mut Order,
) -> Result<Solved, OutOfMemory>
    requires { seen.old.variables ≡ state.known.variables }
    ensures { IfOk result (IsSpending state.known) }
{
    let (state, found) = state.backjump(order, 0).propagate()?;
    match found {
        Some(conflict) => Ok(Solved::Refuted(state.refute(alloc, seen, conflict)?)),
        None => Ok(Solved::Spent(state.finish())),
    }
}

// Learns until the clauses are decided or the budget is spent.
fn answer(
    alloc: Global,
    variables: u32,
    clauses: &[Clause],
    budget: u32,
) -> Result<Solved, OutOfMemory>
    requires { All (IsWithin variables) clauses.now }
    ensures { IfOk result (IsAnswer variables clauses.now budget) }
{
    // no literal of 32 bits is of a variable above this
    let bound = variables.min(2_147_483_647);
    let mut seen = LiteralList::new(alloc, bound)?;
    let mut order = Order::new(alloc, bound)?;
    match SolverState::new(alloc, variables, clauses, &mut seen)? {
        Begun::Ready(state) => learn(alloc, variables, state, &mut seen, &mut order, budget),
        Begun::Refuted(log) => Ok(Solved::Refuted(log)),
    }
}

// Learns from a state before any conflict.
fn learn(
    alloc: Global,
    variables: u32,
    state: SolverState,
    seen: &mut LiteralList,
    order: &mut Order,
    budget: u32,
) -> Result<Solved, OutOfMemory>
    requires none { state.known.steps ≡ [] }
    requires variables { state.known.variables ≡ min variables 2147483647 }
    requires seen { seen.old.variables ≡ state.known.variables }
    ensures { IfOk result (IsAnswer variables state.known.given budget) }
{
    let mut state = state;
    let mut learned = 0;
    'budget: while learned < budget {
        match search(alloc, state, seen, order)? {
            SearchOutcome::Found(trail) => {
                return Ok(Solved::Found(values_under(alloc, variables, &trail)?));
            }
            SearchOutcome::Refuted(log) => return Ok(Solved::Refuted(log)),
            SearchOutcome::Learned(next) => state = next,
        }
        learned += 1;
    }
    spend(alloc, state, seen, order)
}

/// Decides clauses over variables from 1 on, with at most `budget` conflict clauses.
///
/// Nothing says how long it takes; it keeps all that it learns.
pub fn solve(
    alloc: Global,
    variables: u32,
    clauses: &[Clause],
    budget: u32,
) -> Result<Solved, OutOfMemory>
    requires some { 1 ≤ budget }
    requires most { budget ≤ 4000000000 }
    requires within { All (IsWithin variables) clauses.now }
    ensures found_size { IfOk result (WhereFound (λ values. length values ≡ variables)) }
    ensures found { IfOk result (WhereFound (λ values. Satisfies (value_of values) clauses.now)) }
    ensures refuted { IfOk result (WhereRefuted (Refutes clauses.now)) }
    ensures refuted_last { IfOk result (WhereRefuted OnlyLastIsEmpty) }
    ensures refuted_size { IfOk result (WhereRefuted (λ steps. length steps ≤ budget + 1)) }
    ensures spent { IfOk result (WhereSpent (λ steps. IsSpentLog clauses.now steps budget)) }
    ensures spent_different { IfOk result (WhereSpent AreDifferent) }
    ensures large_budget_never_spent { 3 ^ variables ≤ budget → IfOk result IsNotSpent }
    ensures units_never_spent { (literals : List ℤ) → IsUnitConflict clauses.now literals →
        IfOk result IsNotSpent }
{
    answer(alloc, variables, clauses, budget)
}

/// Whether a clause is of variables up to this one.
pub fn is_within(variables: u32, clause: &Clause) -> bool
    ensures { IsTrue result ↔ IsWithin variables clause.now }
{
    are_within(variables, clause.literals())
}

fn are_within(variables: u32, literals: &[i32]) -> bool
    ensures { IsTrue result ↔ All (λ literal. unsigned_abs literal ≤ variables) literals.now }
{
    literals
        .iter()
        .all(|literal| literal.unsigned_abs() <= variables)
}
