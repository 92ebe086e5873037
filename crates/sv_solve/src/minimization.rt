// Minimization: drops the literals of a conflict clause that its other literals imply by their
// reasons.
ghost use Rattle.std.specs.Prelude.{◌≡◌, ◌+◌, ◌-◌, ◌<◌, ◌≤◌, pos, neg_ℤ, [], ◌∷◌, length, take};
ghost use Rattle.std.specs.Prelude.{All, AllPairs, IsTrue, IfOk, IfNone, IfSome, slice_index_or};
ghost use Rattle.std.specs.Bool.{IsFalse};
ghost use Rattle.sv_clause.specs.Literals.{stands};
ghost use Rattle.sv_clause.specs.Units.{IsOpen};
ghost use Rattle.sv_clause.specs.Logs.{ChainGives};
ghost use Rattle.sv_solve.specs.Codes.{IsOf};
ghost use Rattle.sv_solve.specs.ConflictClauses.{IsMinimized, OthersSeen, ArePlaces};
ghost use Rattle.sv_solve.specs.Search.{IsClauseOf, OthersFalse, IsImpliedAt, Derives};

use crate::kept::KeptClause;
use crate::lists::LiteralList;
use crate::literal::Literal;
use crate::trail::AssignmentTrail;
use std::alloc::{AllocError, Global};

// The place below the mark at which a literal became false.
fn place_below(trail: &AssignmentTrail, literal: &Literal, mark: usize) -> Option<usize>
    requires of { IsOf trail.now.variables literal.now }
    requires mark { mark ≤ length trail.now.literals }
    ensures none { IfNone result (IsFalse
        (stands (neg_ℤ literal.now) (take mark trail.now.literals))) }
    ensures some { IfSome result (λ place. (place < mark) ×
        (slice_index_or trail.now.literals place (pos 0) ≡ neg_ℤ literal.now)) }
{
    // brings that each literal of the trail was open in those before it
    let _len = trail.len();
    let negation = literal.negated();
    if !trail.contains(&negation) {
        return None;
    }
    let place = trail.place_of(&negation);
    if place >= mark {
        return None;
    }
    Some(place)
}

// Whether a clause makes the literal at a place true, and all its other literals are seen and
// became false before it.
fn adds_none(clause: &[Literal], trail: &AssignmentTrail, seen: &LiteralList, place: usize) -> bool
    requires clause { IsClauseOf trail.now.variables clause.now }
    requires variables { seen.now.variables ≡ trail.now.variables }
    requires place { place < length trail.now.literals }
    ensures member { IsTrue result →
        IsTrue (stands (slice_index_or trail.now.literals place (pos 0)) clause.now) }
    ensures others { IsTrue result →
        OthersFalse (take place trail.now.literals) clause.now
        (slice_index_or trail.now.literals place (pos 0)) }
    ensures seen { IsTrue result →
        OthersSeen seen.now.literals clause.now (slice_index_or trail.now.literals place (pos 0)) }
{
    let literal = trail.at(place);
    let mut is_member = false;
    let mut index = 0;
    'literals: while index < clause.len() {
        let other = clause[index];
        index += 1;
        if other.is(&literal) {
            is_member = true;
            continue 'literals;
        }
        if !seen.contains(&other) {
            return false;
        }
        let Some(_before) = place_below(trail, &other, place) else {
            return false;
        };
    }
    is_member
}

// Redundancy: whether the literal at a place has a reason that makes it true, of which all other
// literals are seen.
fn is_redundant(
    clauses: &[KeptClause],
    trail: &AssignmentTrail,
    seen: &LiteralList,
    place: usize,
) -> bool
    requires clauses { All (IsClauseOf trail.now.variables) clauses.now }
    requires variables { seen.now.variables ≡ trail.now.variables }
    requires place { place < length trail.now.literals }
    ensures implied { IsTrue result → IsImpliedAt clauses.now trail.now place }
    ensures seen { IsTrue result →
        OthersSeen seen.now.literals (slice_index_or clauses.now
        (slice_index_or trail.now.reasons place 0 - 1) [])
        (slice_index_or trail.now.literals place (pos 0)) }
{
    let number = trail.reason(place);
    if number == 0 || number > clauses.len() as u64 {
        return false;
    }
    adds_none(clauses[number as usize - 1].literals(), trail, seen, place)
}

// The places below the mark at which seen literals became false, in the trail's order.
fn seen_places(
    alloc: Global,
    trail: &AssignmentTrail,
    seen: &LiteralList,
    mark: usize,
) -> Result<Vec<usize>, AllocError>
    requires variables { seen.now.variables ≡ trail.now.variables }
    requires mark { mark ≤ length trail.now.literals }
    ensures places { IfOk result (λ places.
        ArePlaces seen.now.literals trail.now.literals places.items mark) }
    ensures ascending { IfOk result (λ places. AllPairs ◌<◌ places.items) }
{
    // brings that each literal of the trail was open in those before it
    let _len = trail.len();
    let mut places: Vec<usize> = Vec::new(alloc);
    let mut index = 0;
    'literals: while index < seen.len() {
        let literal = seen.at(index);
        index += 1;
        let Some(place) = place_below(trail, &literal, mark) else {
            continue 'literals;
        };
        places.push(place)?;
    }
    places.sort_unstable();
    Ok(places)
}

/// First unique implication point, where resolution ends and minimization begins.
#[derive(Clone, Copy)]
pub struct ImplicationPoint {
    /// Asserting literal: the negation of the literal there.
    pub asserting: Literal,
    /// Mark: the place of the newest decision.
    pub mark: usize,
}

/// Minimized conflict clause.
#[derive(Drop)]
pub struct MinimizedClause {
    /// The asserting literal, and the others.
    pub literals: Vec<i32>,
    /// How many literals of the trail make all but the first false.
    pub keep: usize,
}

/// Minimization: resolves on from the mark back, but only with reasons that bring no new literal,
/// and keeps the other seen literals beside the asserting one. It goes from the last place to the
/// first since a literal has to go before those that its reason brings back.
pub fn minimize(
    alloc: Global,
    clauses: &[KeptClause],
    trail: &AssignmentTrail,
    seen: &LiteralList,
    chain: &mut Vec<u64>,
    point: &ImplicationPoint,
) -> Result<MinimizedClause, AllocError>
    requires clauses { All (IsClauseOf trail.now.variables) clauses.now }
    requires variables { seen.now.variables ≡ trail.now.variables }
    requires mark { point.now.mark ≤ length trail.now.literals }
    requires first { IsTrue (stands (neg_ℤ point.now.asserting) trail.now.literals) }
    requires open_first { IsOpen (take point.now.mark trail.now.literals) point.now.asserting }
    requires derives { Derives clauses.now chain.old.items (point.now.asserting ∷ [])
        seen.now.literals trail.now.literals point.now.mark }
    ensures derives { IfOk result (λ clause.
        ChainGives clauses.now chain.new.items clause.literals.items) }
    ensures minimized { IfOk result (λ clause.
        IsMinimized trail.now.literals point.now.asserting clause.literals.items 0 clause.keep
        point.now.mark) }
{
    // brings that the trail is consistent, and that each literal was open in those before it
    let _len = trail.len();
    let mut literals: Vec<i32> = Vec::new(alloc);
    literals.push(point.asserting.signed())?;
    let mut places = seen_places(alloc, trail, seen, point.mark)?;
    let mut keep = 0;
    'back: while let Some(place) = places.pop() {
        if is_redundant(clauses, trail, seen, place) {
            chain.push(trail.reason(place))?;
            continue 'back;
        }
        literals.push(trail.at(place).negated().signed())?;
        if keep > 0 {
            continue 'back;
        }
        keep = place + 1;
    }
    Ok(MinimizedClause { literals, keep })
}
