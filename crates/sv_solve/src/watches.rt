// Watched literals: two of each clause, and for each literal the clauses to look at once it is
// false.
ghost use Rattle.std.specs.Prelude.{◌≡◌, ◌≢◌, ℕ, ◌+◌, ◌<◌, ◌≤◌, ◌^◌, [], ◌∷◌, ◌++◌, length, take};
ghost use Rattle.std.specs.Prelude.{All, IsTrue, IfOk, OnOk, IfSome, IfNone, Some, slice_index};
ghost use Rattle.std.specs.Prelude.{slice_index_or, slice_set, neg_ℤ};
ghost use Rattle.std.specs.Bool.{IsFalse};
ghost use Rattle.std.specs.List.{swap_remove};
ghost use Rattle.sv_clause.specs.Literals.{stands};
ghost use Rattle.sv_solve.specs.Search.{IsClauseOf, ImpliedFrom, OthersFalse, IsConsistent};
ghost use Rattle.sv_solve.specs.Conflicts.{IsConflict};
ghost use Rattle.sv_solve.specs.Codes.{IsOf};
ghost use Rattle.sv_solve.specs.Watching.{IsListed, IsFitting, IsPairWithin, AllHeld, IsSettledAt};
ghost use Rattle.sv_solve.specs.Watching.{HasInPair, ArePair, watching_list, pair_at, Proceeds};
ghost use Rattle.sv_solve.specs.Watching.{IsDemand};

use crate::kept::KeptClause;
use crate::literal::Literal;
use crate::trail::AssignmentTrail;
use std::alloc::{AllocError, Global};
use std::marker::Model;

/// Watched literals: the two of a clause.
#[derive(Clone, Copy, Debug)]
pub struct Pair {
    /// One of them.
    pub one: Literal,
    /// The other one.
    pub other: Literal,
}

impl Pair {
    // The other one of the two.
    fn beside(&self, literal: &Literal) -> Literal
        requires { HasInPair self.now literal.now }
        ensures { ArePair self.now literal.now result }
    {
        if self.one.is(literal) {
            self.other
        } else {
            self.one
        }
    }
}

// The places of the clauses that watch one literal.
#[derive(Drop)]
struct WatchList {
    places: Vec<usize>,
}

impl Model for WatchList {
    ghost use Rattle.std.specs.Prelude.{List, ℕ};

    ghost Value = { List ℕ };

    ghost view = { λ l. l.places.items };
}

impl WatchList {
    fn new(alloc: Global) -> WatchList
        ensures { result ≡ [] }
    {
        WatchList {
            places: Vec::new(alloc),
        }
    }

    fn len(&self) -> usize
        ensures { result ≡ length self.now }
    {
        self.places.len()
    }

    fn at(&self, index: usize) -> usize
        requires { index < length self.now }
        ensures { result ≡ slice_index self.now index }
    {
        self.places[index]
    }

    fn push(&mut self, place: usize) -> Result<(), AllocError>
        ensures { OnOk result (self.new ≡ self.old ++ place ∷ []) }
    {
        self.places.push(place)?;
        Ok(())
    }

    fn swap_remove(&mut self, index: usize)
        requires { index < length self.old }
        ensures { self.new ≡ swap_remove self.old index 0 }
    {
        self.places.swap_remove(index);
    }
}

/// Watched literals of all clauses: for each clause of two or more literals the two that it
/// watches, and for each literal the clauses that watch it.
#[derive(Drop)]
pub struct Watches {
    pairs: Vec<Option<Pair>>,
    lists: Vec<WatchList>,
    variables: u32,
}

impl Model for Watches {
    ghost use Rattle.sv_solve.specs.Watching.{Watching};

    ghost Value = { Watching };

    ghost view = { λ w. record {
      pairs = w.pairs.items;
      lists = w.lists.items;
      variables = w.variables;
    } };
}

// Whether a literal is another one than the kept one, and not false.
fn is_watchable(literal: &Literal, trail: &AssignmentTrail, kept: &Literal) -> bool
    requires { IsOf trail.now.variables literal.now }
    ensures another { IsTrue result → literal.now ≢ kept.now }
    ensures not_false { IsTrue result → IsFalse (stands (neg_ℤ literal.now) trail.now.literals) }
    ensures neither { IsFalse result → literal.now ≢ kept.now →
        IsTrue (stands (neg_ℤ literal.now) trail.now.literals) }
{
    !literal.is(kept) && !trail.contains(&literal.negated())
}

// A literal of the clause other than the kept one that is not false, if there is one.
fn next_watch(clause: &[Literal], trail: &AssignmentTrail, kept: &Literal) -> Option<Literal>
    requires { IsClauseOf trail.now.variables clause.now }
    ensures member { IfSome result (λ literal. IsTrue (stands literal clause.now)) }
    ensures another { IfSome result (λ literal. literal ≢ kept.now) }
    ensures not_false { IfSome result (λ literal.
        IsFalse (stands (neg_ℤ literal) trail.now.literals)) }
    ensures none { IfNone result (OthersFalse trail.now.literals clause.now kept.now) }
{
    clause
        .iter()
        .find(|literal| is_watchable(literal, trail, kept))
        .copied()
}

// What a clause asks for when one of its two watched literals became false.
enum Demand {
    // Nothing: the other watched literal is true.
    Held,
    // To watch this literal in its place.
    Next(Literal),
    // To make the other watched literal true, as no third one may become so.
    Forced,
    // To give up: all its literals are false.
    Conflict,
}

// Looks at a clause of which one watched literal became false and the other one is kept.
fn demand_of(clause: &[Literal], trail: &AssignmentTrail, kept: &Literal) -> Demand
    requires of { IsClauseOf trail.now.variables clause.now }
    requires member { IsTrue (stands kept.now clause.now) }
    ensures { IsDemand trail.now.literals clause.now kept.now result }
{
    if trail.contains(kept) {
        return Demand::Held;
    }
    if let Some(next) = next_watch(clause, trail, kept) {
        return Demand::Next(next);
    }
    if trail.contains(&kept.negated()) {
        return Demand::Conflict;
    }
    Demand::Forced
}

impl Watches {
    /// No clause yet.
    pub fn new(alloc: Global, variables: u32) -> Result<Watches, AllocError>
        requires { variables < 2 ^ 31 }
        ensures pairs { IfOk result (λ watches. watches.pairs ≡ []) }
        ensures listed { IfOk result IsListed }
        ensures variables { IfOk result (λ watches. watches.variables ≡ variables) }
    {
        let mut lists: Vec<WatchList> = Vec::new(alloc);
        'literals: for _literal in 0..2 * variables as usize + 2 {
            lists.push(WatchList::new(alloc))?;
        }
        Ok(Watches {
            pairs: Vec::new(alloc),
            lists,
            variables,
        })
    }

    /// Takes up one more clause with the pair that it watches.
    pub fn attach(&mut self, pair: Option<Pair>) -> Result<(), AllocError>
        requires listed { IsListed self.old }
        requires of { IsPairWithin self.old.variables pair }
        ensures pairs { OnOk result (self.new.pairs ≡ self.old.pairs ++ pair ∷ []) }
        ensures listed { OnOk result (IsListed self.new) }
        ensures variables { OnOk result (self.new.variables ≡ self.old.variables) }
    {
        let Some(watched) = &pair else {
            self.pairs.push(None)?;
            return Ok(());
        };
        let place = self.pairs.len();
        self.lists[watched.one.index()].push(place)?;
        self.lists[watched.other.index()].push(place)?;
        self.pairs.push(pair)?;
        Ok(())
    }

    // Lets the clause at an index of a literal's list watch another literal instead.
    fn rewatch(&mut self, falsified: &Literal, index: usize, pair: Pair) -> Result<(), AllocError>
        requires listed { IsListed self.old }
        requires falsified { IsOf self.old.variables falsified.now }
        requires index { index < length (watching_list self.old falsified.now) }
        requires one { (pair.one ≢ falsified.now) × IsOf self.old.variables pair.one }
        requires other { IfSome (pair_at self.old.pairs
            (slice_index (watching_list self.old falsified.now) index)) (λ old.
            ArePair old falsified.now pair.other) }
        ensures pairs { OnOk result (self.new.pairs ≡
            slice_set self.old.pairs (slice_index (watching_list self.old falsified.now) index)
            (Some pair)) }
        ensures list { OnOk result (watching_list self.new falsified.now ≡
            swap_remove (watching_list self.old falsified.now) index 0) }
        ensures listed { OnOk result (IsListed self.new) }
        ensures variables { OnOk result (self.new.variables ≡ self.old.variables) }
    {
        let code = falsified.index();
        let place = self.lists[code].at(index);
        self.lists[pair.one.index()].push(place)?;
        self.lists[code].swap_remove(index);
        self.pairs[place] = Some(pair);
        Ok(())
    }

    // Looks at the clauses in the list of a literal that became false: gives the place of a false
    // one, if it meets one.
    fn visit(
        &mut self,
        clauses: &[KeptClause],
        trail: &mut AssignmentTrail,
        falsified: &Literal,
    ) -> Result<Option<usize>, AllocError>
        requires clauses { All (IsClauseOf trail.old.variables) clauses.now }
        requires variables { self.old.variables ≡ trail.old.variables }
        requires fitting { IsFitting clauses.now self.old.pairs }
        requires listed { IsListed self.old }
        requires of { IsOf self.old.variables falsified.now }
        requires falsified { IsTrue (stands (neg_ℤ falsified.now) trail.old.literals) }
        requires consistent { IsConsistent trail.old.literals }
        ensures proceeds { OnOk result
            (Proceeds clauses.now self.old trail.old self.new trail.new) }
        ensures visited { IfOk result (λ found.
            IfNone found (AllHeld self.new.pairs (neg_ℤ falsified.now ∷ []) trail.new.literals)) }
        ensures conflict { IfOk result (λ found.
            IfSome found (IsConflict clauses.now trail.new.literals)) }
    {
        let code = falsified.index();
        let mut index = 0;
        'visited: while index < self.lists[code].len() {
            let place = self.lists[code].at(index);
            let Some(pair) = self.pairs[place] else {
                index += 1;
                continue 'visited;
            };
            let kept = pair.beside(falsified);
            match demand_of(clauses[place].literals(), trail, &kept) {
                Demand::Held => index += 1,
                Demand::Next(next) => {
                    let pair = Pair {
                        one: next,
                        other: kept,
                    };
                    self.rewatch(falsified, index, pair)?;
                    continue 'visited;
                }
                Demand::Forced => {
                    trail.push(&kept, place as u64 + 1)?;
                    index += 1;
                }
                Demand::Conflict => return Ok(Some(place)),
            }
        }
        Ok(None)
    }

    /// Unit propagation: looks at the clauses that watch a negation of the trail's literals from a
    /// place on, and makes true what they imply. Gives the place of a false clause, if it meets
    /// one.
    pub fn propagate(
        &mut self,
        clauses: &[KeptClause],
        trail: &mut AssignmentTrail,
        from: usize,
    ) -> Result<Option<usize>, AllocError>
        requires clauses { All (IsClauseOf trail.old.variables) clauses.now }
        requires variables { self.old.variables ≡ trail.old.variables }
        requires fitting { IsFitting clauses.now self.old.pairs }
        requires listed { IsListed self.old }
        requires from { from ≤ length trail.old.literals }
        requires held { AllHeld self.old.pairs (take from trail.old.literals) trail.old.literals }
        ensures fitting { OnOk result (IsFitting clauses.now self.new.pairs) }
        ensures listed { OnOk result (IsListed self.new) }
        ensures variables { OnOk result (self.new.variables ≡ self.old.variables) }
        ensures held { OnOk result (AllHeld self.new.pairs (take from trail.new.literals)
            trail.new.literals) }
        ensures settled { OnOk result ((place : ℕ) → place ≤ from →
            IsSettledAt self.old.pairs trail.old.literals place →
            IsSettledAt self.new.pairs trail.new.literals place) }
        ensures rest { IfOk result (λ found.
            IfNone found (AllHeld self.new.pairs trail.new.literals trail.new.literals)) }
        ensures conflict { IfOk result (λ found.
            IfSome found (IsConflict clauses.now trail.new.literals)) }
        ensures older { OnOk result (take (length trail.old.literals) trail.new.literals ≡
            trail.old.literals) }
        ensures longer { OnOk result (length trail.old.literals ≤ length trail.new.literals) }
        ensures reasons { OnOk result ((place : ℕ) → place < length trail.old.literals →
            slice_index_or trail.new.reasons place 0 ≡ slice_index_or trail.old.reasons place 0) }
        ensures implied { OnOk result (ImpliedFrom clauses.now trail.new
            (length trail.old.literals)) }
        ensures trail_variables { OnOk result (trail.new.variables ≡ trail.old.variables) }
    {
        let mut head = from;
        'literals: while head < trail.len() {
            let falsified = trail.at(head).negated();
            if let Some(place) = self.visit(clauses, trail, &falsified)? {
                return Ok(Some(place));
            }
            head += 1;
        }
        Ok(None)
    }
}
