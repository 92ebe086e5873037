// Conflict analysis: the conflict clause that a false clause gives at the first unique implication
// point, with the chain that derives it, or the empty clause where no decision is left.
ghost use Rattle.std.specs.Prelude.{◌≡◌, ◌+◌, ◌-◌, ◌<◌, ◌≤◌, ◌^◌, ◌&&◌, ◌||◌, ℤ, pos, neg_ℤ, []};
ghost use Rattle.std.specs.Prelude.{◌∷◌, ◌++◌, length, take, All, IsTrue, IfOk, OnOk, MatchOption};
ghost use Rattle.std.specs.Prelude.{slice_index_or};
ghost use Rattle.std.specs.Bool.{IsFalse};
ghost use Rattle.sv_clause.specs.Literals.{stands, IsClause, SameLiterals, MakeNoClause};
ghost use Rattle.sv_clause.specs.Units.{IsAtRest, IsNew};
ghost use Rattle.sv_clause.specs.Logs.{plain_step, IsDerived};
ghost use Rattle.sv_solve.specs.Codes.{IsOf};
ghost use Rattle.sv_solve.specs.ConflictClauses.{IsAsserting};
ghost use Rattle.sv_solve.specs.Search.{IsClauseOf, AllFalse, ImpliedFrom, IsImpliedAt, Derives};
ghost use Rattle.sv_solve.specs.Search.{HasLater, NoneSeen, SomeSeen};

use crate::kept::KeptClause;
use crate::lists::LiteralList;
use crate::literal::Literal;
use crate::minimization::{ImplicationPoint, minimize};
use crate::trail::AssignmentTrail;
use std::alloc::{AllocError, Global};
use sv_clause::{Clause, Derived};

/// Conflict clause: what is learned from a false clause.
#[derive(Drop)]
pub struct ConflictClause {
    /// The clause, and the chain that derives it.
    pub step: Derived,
    /// Asserting literal: the negation of the first unique implication point, which becomes true
    /// after the backjump.
    pub asserting: Literal,
    /// Of its other literals the one that became false last, at the decision level that the
    /// backjump goes to.
    pub other: Option<Literal>,
    /// Backjump: how many literals of the trail it takes to make the other literals false.
    pub keep: usize,
}

// Marks the false literals of a clause as seen: they stand in the resolvent so far.
fn see(
    trail: &AssignmentTrail,
    seen: &mut LiteralList,
    clause: &[Literal],
) -> Result<(), AllocError>
    requires clause { IsClauseOf trail.now.variables clause.now }
    requires variables { seen.old.variables ≡ trail.now.variables }
    ensures seen { OnOk result ((literal : ℤ) → stands literal seen.new.literals ≡
        (stands literal seen.old.literals ||
        (stands literal clause.now && stands (neg_ℤ literal) trail.now.literals))) }
    ensures variables { OnOk result (seen.new.variables ≡ seen.old.variables) }
{
    let mut place = 0;
    'literals: while place < clause.len() {
        let literal = clause[place];
        place += 1;
        if seen.contains(&literal) {
            continue 'literals;
        }
        if !trail.contains(&literal.negated()) {
            continue 'literals;
        }
        seen.push(&literal)?;
    }
    Ok(())
}

// Whether the negation of some literal of the trail from one place to another is seen.
fn is_some_seen(trail: &AssignmentTrail, seen: &LiteralList, from: usize, to: usize) -> bool
    requires from { from ≤ to }
    requires to { to ≤ length trail.now.literals }
    requires variables { seen.now.variables ≡ trail.now.variables }
    ensures some { IsTrue result → SomeSeen seen.now.literals trail.now.literals from to }
    ensures none { IsFalse result → NoneSeen seen.now.literals trail.now.literals from to }
{
    trail
        .between(from, to)
        .iter()
        .rev()
        .any(|literal| seen.contains(&literal.negated()))
}

// Resolution step: resolves on the literal of the trail at a place with its reason.
fn resolve_at(
    clauses: &[KeptClause],
    trail: &AssignmentTrail,
    seen: &mut LiteralList,
    chain: &mut Vec<u64>,
    place: usize,
) -> Result<(), AllocError>
    requires clauses { All (IsClauseOf trail.now.variables) clauses.now }
    requires variables { seen.old.variables ≡ trail.now.variables }
    requires place { place < length trail.now.literals }
    requires implied { IsImpliedAt clauses.now trail.now place }
    ensures chain { OnOk result (chain.new.items ≡ chain.old.items ++
        slice_index_or trail.now.reasons place 0 ∷ []) }
    ensures seen { OnOk result ((literal : ℤ) → stands literal seen.new.literals ≡
        (stands literal seen.old.literals ||
        (stands literal (slice_index_or clauses.now (slice_index_or trail.now.reasons place 0 - 1)
        []) && stands (neg_ℤ literal) trail.now.literals))) }
    ensures variables { OnOk result (seen.new.variables ≡ seen.old.variables) }
{
    let number = trail.reason(place);
    chain.push(number)?;
    see(trail, seen, clauses[number as usize - 1].literals())
}

// First unique implication point: resolves back from the trail's end until one seen literal alone
// is false that was not false below the mark, which is the place of the newest decision, and gives
// its place.
fn resolve_to_first_uip(
    clauses: &[KeptClause],
    trail: &AssignmentTrail,
    seen: &mut LiteralList,
    chain: &mut Vec<u64>,
    mark: usize,
) -> Result<usize, AllocError>
    requires clauses { All (IsClauseOf trail.now.variables) clauses.now }
    requires variables { seen.old.variables ≡ trail.now.variables }
    requires implied { ImpliedFrom clauses.now trail.now (mark + 1) }
    requires rest { IsAtRest clauses.now (take mark trail.now.literals) }
    requires derives { Derives clauses.now chain.old.items [] seen.old.literals trail.now.literals
        (length trail.now.literals) }
    requires later { HasLater seen.old.literals trail.now.literals mark
        (length trail.now.literals) }
    ensures from { IfOk result (λ place. mark ≤ place) }
    ensures to { IfOk result (λ place. place < length trail.now.literals) }
    ensures derives { IfOk result (λ place.
        Derives clauses.now chain.new.items [] seen.new.literals trail.now.literals (place + 1)) }
    ensures here { IfOk result (λ place.
        IsTrue (stands (neg_ℤ (slice_index_or trail.now.literals place (pos 0)))
        seen.new.literals)) }
    ensures none { IfOk result (λ place. NoneSeen seen.new.literals trail.now.literals mark place) }
    ensures variables { OnOk result (seen.new.variables ≡ seen.old.variables) }
{
    let mut bound = trail.len();
    'back: loop {
        bound -= 1;
        if !seen.contains(&trail.at(bound).negated()) {
            continue 'back;
        }
        if !is_some_seen(trail, seen, mark, bound) {
            return Ok(bound);
        }
        resolve_at(clauses, trail, seen, chain, bound)?;
    }
}

// Resolves back from the trail's end until no seen literal is false: the empty clause is left.
fn resolve_to_none(
    clauses: &[KeptClause],
    trail: &AssignmentTrail,
    seen: &mut LiteralList,
    chain: &mut Vec<u64>,
) -> Result<(), AllocError>
    requires clauses { All (IsClauseOf trail.now.variables) clauses.now }
    requires variables { seen.old.variables ≡ trail.now.variables }
    requires implied { ImpliedFrom clauses.now trail.now 0 }
    requires derives { Derives clauses.now chain.old.items [] seen.old.literals trail.now.literals
        (length trail.now.literals) }
    ensures derives { OnOk result (Derives clauses.now chain.new.items [] seen.new.literals
        trail.now.literals 0) }
    ensures variables { OnOk result (seen.new.variables ≡ seen.old.variables) }
{
    let mut bound = trail.len();
    'back: while bound > 0 {
        bound -= 1;
        if !seen.contains(&trail.at(bound).negated()) {
            continue 'back;
        }
        resolve_at(clauses, trail, seen, chain, bound)?;
    }
    Ok(())
}

// Begins with a false clause: its literals alone are seen, and a chain starts with its number.
fn begin(
    clauses: &[KeptClause],
    trail: &AssignmentTrail,
    seen: &mut LiteralList,
    chain: &mut Vec<u64>,
    conflict: usize,
) -> Result<(), AllocError>
    requires clauses { All (IsClauseOf trail.now.variables) clauses.now }
    requires variables { seen.old.variables ≡ trail.now.variables }
    requires conflict { conflict < length clauses.now }
    requires empty { chain.old.items ≡ [] }
    ensures chain { OnOk result (chain.new.items ≡ (conflict + 1) ∷ []) }
    ensures seen { OnOk result ((literal : ℤ) → stands literal seen.new.literals ≡
        (stands literal (slice_index_or clauses.now conflict []) &&
        stands (neg_ℤ literal) trail.now.literals)) }
    ensures variables { OnOk result (seen.new.variables ≡ seen.old.variables) }
{
    seen.truncate(0);
    chain.push(conflict as u64 + 1)?;
    see(trail, seen, clauses[conflict].literals())
}

// The last of the first literals of the trail, negated: the literal that became false last.
fn last_of(trail: &AssignmentTrail, keep: usize) -> Option<Literal>
    requires { keep ≤ length trail.now.literals }
    ensures { MatchOption result (keep ≡ 0) (λ last. (0 < keep) ×
        (last ≡ neg_ℤ (slice_index_or trail.now.literals (keep - 1) (pos 0)))) }
{
    if keep == 0 {
        return None;
    }
    Some(trail.at(keep - 1).negated())
}

// The clause of literals that make one.
fn clause_of(alloc: Global, literals: &[i32]) -> Result<Clause, AllocError>
    requires { MakeNoClause literals.now → ⊥ }
    ensures same { IfOk result (λ clause. SameLiterals clause literals.now) }
    ensures normal { IfOk result IsClause }
{
    match Clause::new(alloc, literals)? {
        Some(clause) => Ok(clause),
        None => unreachable!(),
    }
}

/// Learns a conflict clause from a false clause: resolves to the first unique implication point,
/// and minimizes. The trail below the mark is at rest, and all above the decision there is implied.
pub fn learn(
    alloc: Global,
    clauses: &[KeptClause],
    trail: &AssignmentTrail,
    seen: &mut LiteralList,
    conflict: usize,
    mark: usize,
) -> Result<ConflictClause, AllocError>
    requires clauses { All (IsClauseOf trail.now.variables) clauses.now }
    requires small { trail.now.variables < 2 ^ 31 }
    requires variables { seen.old.variables ≡ trail.now.variables }
    requires implied { ImpliedFrom clauses.now trail.now (mark + 1) }
    requires rest { IsAtRest clauses.now (take mark trail.now.literals) }
    requires conflict { conflict < length clauses.now }
    requires all_false { AllFalse trail.now.literals (slice_index_or clauses.now conflict []) }
    ensures derived { IfOk result (λ learned. IsDerived clauses.now (plain_step learned.step)) }
    ensures new { IfOk result (λ learned. IsNew clauses.now learned.step.clause) }
    ensures of { IfOk result (λ learned. IsClauseOf trail.now.variables learned.step.clause) }
    ensures first { IfOk result (λ learned. IsOf trail.now.variables learned.asserting) }
    ensures asserting { IfOk result (λ learned.
        IsAsserting trail.now.literals mark learned.step.clause learned.asserting learned.other
        learned.keep) }
    ensures variables { OnOk result (seen.new.variables ≡ seen.old.variables) }
{
    // brings that the trail is consistent, that each literal was open in those before, and that all
    // are of its variables
    let _len = trail.len();
    let mut chain: Vec<u64> = Vec::new(alloc);
    begin(clauses, trail, seen, &mut chain, conflict)?;
    let place = resolve_to_first_uip(clauses, trail, seen, &mut chain, mark)?;
    let first = trail.at(place).negated();
    let point = ImplicationPoint {
        asserting: first,
        mark,
    };
    let minimized = minimize(alloc, clauses, trail, seen, &mut chain, &point)?;
    let clause = clause_of(alloc, &minimized.literals)?;
    let keep = minimized.keep;
    let other = last_of(trail, keep);
    chain.shrink_to_fit();
    Ok(ConflictClause {
        step: Derived { clause, chain },
        asserting: first,
        other,
        keep,
    })
}

/// Derives the empty clause from a false one, where all of the trail is implied.
pub fn refute(
    alloc: Global,
    clauses: &[KeptClause],
    trail: &AssignmentTrail,
    seen: &mut LiteralList,
    conflict: usize,
) -> Result<Derived, AllocError>
    requires clauses { All (IsClauseOf trail.now.variables) clauses.now }
    requires variables { seen.old.variables ≡ trail.now.variables }
    requires implied { ImpliedFrom clauses.now trail.now 0 }
    requires conflict { conflict < length clauses.now }
    requires all_false { AllFalse trail.now.literals (slice_index_or clauses.now conflict []) }
    ensures derived { IfOk result (λ step. IsDerived clauses.now (plain_step step)) }
    ensures empty { IfOk result (λ step. step.clause ≡ []) }
    ensures variables { OnOk result (seen.new.variables ≡ seen.old.variables) }
{
    let mut chain: Vec<u64> = Vec::new(alloc);
    begin(clauses, trail, seen, &mut chain, conflict)?;
    resolve_to_none(clauses, trail, seen, &mut chain)?;
    let clause = Clause::from_normal(Vec::new(alloc));
    Ok(Derived { clause, chain })
}
