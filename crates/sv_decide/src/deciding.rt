// The decision of an obligation.
ghost use Rattle.std.specs.Prelude.{◌+◌, ◌^◌, ◌≤◌, ℤ, List, length, IfOk, IsErrOf};
ghost use Rattle.sv_clause.specs.Units.{IsUnitConflict};
ghost use Rattle.sv_flat.specs.Views.{design_of};
ghost use Rattle.sv_obl.specs.DesignQueries.{IsQueryOf};
ghost use Rattle.sv_obl.specs.Validity.{Falsifies};
ghost use Rattle.sv_obl.specs.Valuations.{FitsDesign, valuation_of};
ghost use Rattle.sv_obl.specs.Views.{obligation_of};
ghost use Rattle.sv_encoding.specs.BothWays.{IsZeroOutside};
ghost use Rattle.sv_encoding.specs.Deciding.{Fits, IsTooLarge, IsRefutedBy, IsSpentBy};
ghost use Rattle.sv_encoding.specs.Encoding.{encoding};
ghost use Rattle.sv_blast.specs.Coders.{IsCoder};
ghost use Rattle.sv_solve.specs.Answers.{OnlyLastIsEmpty, AreDifferent};
ghost use Rattle.sv_decide.specs.Decisions.{WhereValid, WhereFails, WhereSpent, IsNotSpent};

use crate::spelling::spelled;
use std::alloc::Global;
use sv_blast::{BlastFault, Coder};
use sv_clause::Log;
use sv_design::Design;
use sv_obl::{Bodies, Query, Valuation, know_design};
use sv_solve::{Solved, solve};

/// What is decided of an obligation.
#[derive(Debug, Drop)]
pub enum Decided {
    /// It is valid: the log refutes the clauses of its encoding, and its last step alone is empty.
    Valid(Log),
    /// The valuation falsifies it, and is 0 where nothing that is asked hangs on it.
    Fails(Valuation),
    /// As many steps as the budget allows, each new to the clauses and the steps before it.
    Spent(Log),
}

/// Decides an obligation of a design, with at most `budget` conflict clauses. `TooLarge` says that
/// its encoding has more than 4,194,304 variables, which is found before any of it is made;
/// `OutOfMemory` that memory ran out.
///
/// Nothing says how long it takes. A log has at most one step more than the budget.
pub fn decide(
    alloc: Global,
    design: &Design,
    query: &Query,
    budget: u32,
) -> Result<Decided, BlastFault>
    requires query { IsQueryOf (design_of design.now) (obligation_of query.now) }
    requires some { 1 ≤ budget }
    requires most { budget ≤ 4000000000 }
    ensures fits { IfOk result (λ _. Fits (design_of design.now) (obligation_of query.now)) }
    ensures valid { IfOk result (WhereValid
        (IsRefutedBy (design_of design.now) (obligation_of query.now))) }
    ensures valid_last { IfOk result (WhereValid OnlyLastIsEmpty) }
    ensures valid_size { IfOk result (WhereValid (λ steps. length steps ≤ budget + 1)) }
    ensures fails { IfOk result (WhereFails (λ v. Falsifies (design_of design.now)
        (valuation_of (design_of design.now) v) (obligation_of query.now))) }
    ensures fails_fits { IfOk result (WhereFails (FitsDesign (design_of design.now))) }
    ensures fails_zero { IfOk result (WhereFails (λ v. IsZeroOutside (design_of design.now)
        (obligation_of query.now) (valuation_of (design_of design.now) v))) }
    ensures spent { IfOk result (WhereSpent
        (IsSpentBy (design_of design.now) budget (obligation_of query.now))) }
    ensures spent_different { IfOk result (WhereSpent AreDifferent) }
    ensures too_large { IsErrOf result BlastFault.TooLarge →
        IsTooLarge (design_of design.now) (obligation_of query.now) }
    ensures large_budget_never_spent { 3 ^ (encoding (design_of design.now)
        (obligation_of query.now)).variables ≤ budget → IfOk result IsNotSpent }
    ensures units_never_spent { (literals : List ℤ) → IsUnitConflict
        (encoding (design_of design.now) (obligation_of query.now)).clauses literals →
        IfOk result IsNotSpent }
{
    let bodies = Bodies::new(alloc, design)?;
    let mut coder = Coder::new(alloc, design, &bodies)?;
    decide_by(alloc, design, &mut coder, query, budget)
}

/// The same, by a coder of the design, which whoever decides many obligations keeps.
pub fn decide_by(
    alloc: Global,
    design: &Design,
    coder: &mut Coder,
    query: &Query,
    budget: u32,
) -> Result<Decided, BlastFault>
    requires coder { IsCoder (design_of design.now) coder.old }
    requires query { IsQueryOf (design_of design.now) (obligation_of query.now) }
    requires some { 1 ≤ budget }
    requires most { budget ≤ 4000000000 }
    ensures coder { IsCoder (design_of design.now) coder.new }
    ensures fits { IfOk result (λ _. Fits (design_of design.now) (obligation_of query.now)) }
    ensures valid { IfOk result (WhereValid
        (IsRefutedBy (design_of design.now) (obligation_of query.now))) }
    ensures valid_last { IfOk result (WhereValid OnlyLastIsEmpty) }
    ensures valid_size { IfOk result (WhereValid (λ steps. length steps ≤ budget + 1)) }
    ensures fails { IfOk result (WhereFails (λ v. Falsifies (design_of design.now)
        (valuation_of (design_of design.now) v) (obligation_of query.now))) }
    ensures fails_fits { IfOk result (WhereFails (FitsDesign (design_of design.now))) }
    ensures fails_zero { IfOk result (WhereFails (λ v. IsZeroOutside (design_of design.now)
        (obligation_of query.now) (valuation_of (design_of design.now) v))) }
    ensures spent { IfOk result (WhereSpent
        (IsSpentBy (design_of design.now) budget (obligation_of query.now))) }
    ensures spent_different { IfOk result (WhereSpent AreDifferent) }
    ensures too_large { IsErrOf result BlastFault.TooLarge →
        IsTooLarge (design_of design.now) (obligation_of query.now) }
    ensures large_budget_never_spent { 3 ^ (encoding (design_of design.now)
        (obligation_of query.now)).variables ≤ budget → IfOk result IsNotSpent }
    ensures units_never_spent { (literals : List ℤ) → IsUnitConflict
        (encoding (design_of design.now) (obligation_of query.now)).clauses literals →
        IfOk result IsNotSpent }
{
    know_design(design);
    coder.encode(design, query)?;
    match solve(alloc, coder.variables(), coder.clauses(), budget)? {
        Solved::Found(values) => Ok(Decided::Fails(spelled(alloc, design, coder.bits(), &values)?)),
        Solved::Refuted(log) => Ok(Decided::Valid(log)),
        Solved::Spent(log) => Ok(Decided::Spent(log)),
    }
}
