// The search up to one conflict: decisions and unit propagation until a clause is false.
ghost use Rattle.std.specs.Prelude.{◌≡◌, IfOk, OnOk};
ghost use Rattle.sv_solve.specs.Known.{clauses_known};
ghost use Rattle.sv_solve.specs.Conflicts.{IsConflict};
ghost use Rattle.sv_solve.specs.Outcomes.{IsSearchOutcome};

use crate::lists::LiteralList;
use crate::order::Order;
use crate::state::SolverState;
use crate::trail::AssignmentTrail;
use std::alloc::{AllocError, Global};
use sv_clause::Log;

/// Outcome of the search up to one conflict.
#[derive(Drop)]
pub enum SearchOutcome {
    /// All clauses are true under these literals.
    Found(AssignmentTrail),
    /// The empty clause is derived.
    Refuted(Log),
    /// A conflict clause is learned.
    Learned(SolverState),
}

/// Decides and propagates until a clause is false, and learns from that, or until all variables are
/// assigned.
pub fn search(
    alloc: Global,
    state: SolverState,
    seen: &mut LiteralList,
    order: &mut Order,
) -> Result<SearchOutcome, AllocError>
    requires { seen.old.variables ≡ state.known.variables }
    ensures outcome { IfOk result (IsSearchOutcome state.known) }
    ensures variables { OnOk result (seen.new.variables ≡ seen.old.variables) }
{
    let mut state = state;
    'decisions: loop {
        let (next, found) = state.propagate()?;
        if let Some(conflict) = found {
            return conclude(alloc, next, seen, order, conflict);
        }
        let Some(literal) = order.pick(next.trail()) else {
            return Ok(SearchOutcome::Found(next.into_trail()));
        };
        state = next.decide(&literal)?;
    }
}

// What a false clause shows.
fn conclude(
    alloc: Global,
    state: SolverState,
    seen: &mut LiteralList,
    order: &mut Order,
    conflict: usize,
) -> Result<SearchOutcome, AllocError>
    requires variables { seen.old.variables ≡ state.known.variables }
    requires conflict { IsConflict (clauses_known state.known) state.trail.literals conflict }
    ensures outcome { IfOk result (IsSearchOutcome state.known) }
    ensures variables { OnOk result (seen.new.variables ≡ seen.old.variables) }
{
    if state.has_decided() {
        return Ok(SearchOutcome::Learned(state.learn(alloc, seen, order, conflict)?));
    }
    Ok(SearchOutcome::Refuted(state.refute(alloc, seen, conflict)?))
}
