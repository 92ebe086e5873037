// The state of the search: the known clauses, the trail with its decision levels, and the watched
// literals.
ghost use Rattle.std.specs.Prelude.{◌≡◌, ℕ, ◌+◌, ◌*◌, ◌<◌, ◌≤◌, ◌^◌, [], ◌∷◌, ◌++◌, length, take};
ghost use Rattle.std.specs.Prelude.{All, AllPairs, IsTrue, IfOk, OnOk, IfSome, IfNone, MatchOption};
ghost use Rattle.std.specs.Prelude.{min, slice_index_or};
ghost use Rattle.std.specs.Bool.{IsFalse};
ghost use Rattle.sv_clause.specs.Literals.{IsClause};
ghost use Rattle.sv_clause.specs.Logs.{plain_step, IsDerived};
ghost use Rattle.sv_clause.specs.Units.{IsAtRest, IsNew, IsOpen};
ghost use Rattle.sv_solve.specs.Codes.{IsOf};
ghost use Rattle.sv_solve.specs.Search.{IsClauseOf, ImpliedFrom};
ghost use Rattle.sv_solve.specs.ConflictClauses.{IsAsserting};
ghost use Rattle.sv_solve.specs.Watching.{IsListed, IsPairOf, IsFitting, UnitsTrue};
ghost use Rattle.sv_solve.specs.Conflicts.{IsConflict};
ghost use Rattle.sv_solve.specs.Known.{clauses_known};
ghost use Rattle.sv_solve.specs.Answers.{IsWithin};
ghost use Rattle.sv_solve.specs.Outcomes.{IsBegun, IsRefutation, IsSpent};

use crate::analysis::{ConflictClause, learn, refute};
use crate::kept::KeptClause;
use crate::knowledge::Knowledge;
use crate::lists::LiteralList;
use crate::literal::Literal;
use crate::order::Order;
use crate::trail::AssignmentTrail;
use crate::watches::{Pair, Watches};
use std::alloc::{AllocError, Global};
use std::marker::Model;
use sv_clause::{Clause, Log};

/// State of the search: the clauses that are known, the trail, the places on it of the decisions,
/// and the watched literals. A decision level is what stands on the trail from one decision to the
/// next.
#[derive(Drop)]
pub struct SolverState {
    known: Knowledge,
    trail: AssignmentTrail,
    // one decision a level, the newest last
    decisions: Vec<usize>,
    watches: Watches,
    // how many literals of the trail have been propagated
    propagated: usize,
}

impl Model for SolverState {
    ghost use Rattle.sv_solve.specs.States.{Searching, IsSearching};

    ghost Value = { Searching };

    ghost view = { λ s. record {
      known = s.known;
      trail = s.trail;
      decisions = s.decisions.items;
      propagated = s.propagated;
    } };

    ghost invariant = { λ s. IsSearching (record {
      known = s.known;
      trail = s.trail;
      decisions = s.decisions.items;
      watching = s.watches;
      propagated = s.propagated;
    }) };
}

/// How a search begins.
#[derive(Drop)]
pub enum Begun {
    /// No clause is empty, and the literal of each clause of one literal is true.
    Ready(SolverState),
    /// A clause is empty, or two of one literal contradict each other.
    Refuted(Log),
}

// The first two literals of a clause, if it has two.
fn first_pair(clause: &[Literal]) -> Option<Pair>
    requires { IsClause clause.now }
    ensures { IsPairOf clause.now result }
{
    if clause.len() < 2 {
        return None;
    }
    Some(Pair {
        one: clause[0],
        other: clause[1],
    })
}

// The watched literals of a conflict clause: the asserting one, and of its others the one that
// became false last.
fn pair_of(first: Literal, other: Option<Literal>) -> Option<Pair>
    ensures { MatchOption other (result ≡ None) (λ literal. result ≡
        Some (record { one = first; other = literal })) }
{
    other.map(|other| Pair { one: first, other })
}

// Watched literals: the first two of each clause.
fn watch_all(alloc: Global, variables: u32, clauses: &[KeptClause]) -> Result<Watches, AllocError>
    requires small { variables < 2 ^ 31 }
    requires clauses { All (IsClauseOf variables) clauses.now }
    ensures fitting { IfOk result (λ watches. IsFitting clauses.now watches.pairs) }
    ensures listed { IfOk result IsListed }
    ensures variables { IfOk result (λ watches. watches.variables ≡ variables) }
{
    let mut watches = Watches::new(alloc, variables)?;
    'clauses: for clause in clauses {
        watches.attach(first_pair(clause.literals()))?;
    }
    Ok(watches)
}

// Unit clauses: makes the literal of each true, and gives the place of a clause that is false, if
// there is one.
fn assume_units(
    clauses: &[KeptClause],
    trail: &mut AssignmentTrail,
) -> Result<Option<usize>, AllocError>
    requires clauses { All (IsClauseOf trail.old.variables) clauses.now }
    requires empty { trail.old.literals ≡ [] }
    ensures conflict { IfOk result (λ found.
        IfSome found (IsConflict clauses.now trail.new.literals)) }
    ensures units { IfOk result (λ found. IfNone found (UnitsTrue clauses.now trail.new.literals)) }
    ensures implied { OnOk result (ImpliedFrom clauses.now trail.new 0) }
    ensures variables { OnOk result (trail.new.variables ≡ trail.old.variables) }
{
    let mut place = 0;
    'clauses: while place < clauses.len() {
        let clause = clauses[place].literals();
        place += 1;
        if clause.len() >= 2 {
            continue 'clauses;
        }
        if clause.len() == 0 || trail.contains(&clause[0].negated()) {
            return Ok(Some(place - 1));
        }
        if trail.contains(&clause[0]) {
            continue 'clauses;
        }
        trail.push(&clause[0], place as u64)?;
    }
    Ok(None)
}

// The log that refutes the known clauses, of which one is false, where all of the trail is implied.
fn refute_known(
    alloc: Global,
    known: Knowledge,
    trail: &AssignmentTrail,
    seen: &mut LiteralList,
    conflict: usize,
) -> Result<Log, AllocError>
    requires trail_variables { trail.now.variables ≡ known.variables }
    requires variables { seen.old.variables ≡ known.variables }
    requires implied { ImpliedFrom (clauses_known known) trail.now 0 }
    requires conflict { IsConflict (clauses_known known) trail.now.literals conflict }
    ensures refutation { IfOk result (IsRefutation known) }
    ensures variables { OnOk result (seen.new.variables ≡ seen.old.variables) }
{
    let step = refute(alloc, known.clauses(), trail, seen, conflict)?;
    known.finish_with(step)
}

// The lowest decision level whose decision stands from a place of the trail on.
fn first_from(decisions: &[usize], keep: usize) -> usize
    requires { AllPairs ◌<◌ decisions.now }
    ensures within { result ≤ length decisions.now }
    ensures below { All (λ decision. decision < keep) (take result decisions.now) }
    ensures from { result < length decisions.now → keep ≤ slice_index_or decisions.now result 0 }
{
    decisions.partition_point(|decision| *decision < keep)
}

impl SolverState {
    /// The state before any decision, where the literals of the clauses of one literal are true.
    pub fn new(
        alloc: Global,
        variables: u32,
        clauses: &[Clause],
        seen: &mut LiteralList,
    ) -> Result<Begun, AllocError>
        requires within { All (IsWithin variables) clauses.now }
        requires variables { seen.old.variables ≡ min variables 2147483647 }
        ensures begun { IfOk result (IsBegun (min variables 2147483647) clauses.now) }
        ensures variables { OnOk result (seen.new.variables ≡ seen.old.variables) }
    {
        let known = Knowledge::new(alloc, variables, clauses)?;
        let mut trail = AssignmentTrail::new(alloc, known.variables())?;
        if let Some(conflict) = assume_units(known.clauses(), &mut trail)? {
            let log = refute_known(alloc, known, &trail, seen, conflict)?;
            return Ok(Begun::Refuted(log));
        }
        Ok(Begun::Ready(SolverState::watching(alloc, known, trail)?))
    }

    // The state before any decision, where the first two literals of each clause are watched.
    fn watching(
        alloc: Global,
        known: Knowledge,
        trail: AssignmentTrail,
    ) -> Result<SolverState, AllocError>
        requires small { known.variables < 2 ^ 31 }
        requires variables { trail.variables ≡ known.variables }
        requires units { UnitsTrue (clauses_known known) trail.literals }
        requires implied { ImpliedFrom (clauses_known known) trail 0 }
        ensures { IfOk result (λ state. state.known ≡ known) }
    {
        let watches = watch_all(alloc, known.variables(), known.clauses())?;
        Ok(SolverState {
            known,
            trail,
            decisions: Vec::new(alloc),
            watches,
            propagated: 0,
        })
    }

    /// The trail.
    pub fn trail(&self) -> &AssignmentTrail
        ensures value { result.now ≡ self.now.trail }
        ensures small { self.now.trail.variables < 2 ^ 31 }
        ensures room { length self.now.trail.literals ≤ 2 * self.now.known.variables + 2 }
        ensures variables { self.now.trail.variables ≡ self.now.known.variables }
        ensures clauses { All (IsClauseOf self.now.known.variables) (clauses_known self.now.known) }
        ensures rest { self.now.propagated ≡ length self.now.trail.literals →
            IsAtRest (clauses_known self.now.known) self.now.trail.literals }
    {
        // brings that the trail is consistent and has no more literals than there are
        let _len = self.trail.len();
        // brings that each known clause is of the variables
        let _clauses = self.known.clauses();
        &self.trail
    }

    /// Whether there is a decision level.
    pub fn has_decided(&self) -> bool
        ensures some { IsTrue result → 0 < length self.now.decisions }
        ensures none { IsFalse result → self.now.decisions ≡ [] }
    {
        self.decisions.len() > 0
    }

    /// Unit propagation until all literals of the trail are propagated, or a clause is false: gives
    /// its place.
    pub fn propagate(mut self) -> Result<(SolverState, Option<usize>), AllocError>
        ensures known { IfOk result (λ pair. pair.0.known ≡ self.known) }
        ensures decisions { IfOk result (λ pair. pair.0.decisions ≡ self.decisions) }
        ensures older { IfOk result (λ pair.
            take (length self.trail.literals) pair.0.trail.literals ≡ self.trail.literals) }
        ensures longer { IfOk result (λ pair.
            length self.trail.literals ≤ length pair.0.trail.literals) }
        ensures rest { IfOk result (λ pair.
            IfNone pair.1 (pair.0.propagated ≡ length pair.0.trail.literals)) }
        ensures conflict { IfOk result (λ pair.
            IfSome pair.1 (IsConflict (clauses_known self.known) pair.0.trail.literals)) }
    {
        let conflict = self
            .watches
            .propagate(self.known.clauses(), &mut self.trail, self.propagated)?;
        if conflict.is_none() {
            self.propagated = self.trail.len();
        }
        Ok((self, conflict))
    }

    /// Decision: makes an open literal true, at a new decision level.
    pub fn decide(mut self, literal: &Literal) -> Result<SolverState, AllocError>
        requires of { IsOf self.trail.variables literal.now }
        requires new { IsOpen self.trail.literals literal.now }
        requires propagated { self.propagated ≡ length self.trail.literals }
        ensures known { IfOk result (λ state. state.known ≡ self.known) }
        ensures literals { IfOk result (λ state. state.trail.literals ≡ self.trail.literals ++
            literal.now ∷ []) }
        ensures decisions { IfOk result (λ state. state.decisions ≡ self.decisions ++
            length self.trail.literals ∷ []) }
    {
        self.decisions.push(self.trail.len())?;
        self.trail.push(literal, 0)?;
        Ok(self)
    }

    /// Backjump: takes the decision levels back whose decisions stand from a place of the trail on.
    pub fn backjump(mut self, order: &mut Order, keep: usize) -> SolverState
        requires { keep ≤ length self.trail.literals }
        ensures known { result.known ≡ self.known }
        ensures trail_variables { result.trail.variables ≡ self.trail.variables }
        ensures older { result.trail.literals ≡
            take (length result.trail.literals) self.trail.literals }
        ensures keeps { keep ≤ length result.trail.literals }
        ensures goes { All (λ decision. keep ≤ decision →
            length result.trail.literals ≤ decision) self.decisions }
        ensures decisions { All (λ decision. decision < keep) result.decisions }
    {
        let first = first_from(&self.decisions, keep);
        if first == self.decisions.len() {
            return self;
        }
        let back = self.decisions[first];
        self.decisions.truncate(first);
        order.release(&self.trail, back);
        self.trail.truncate(back);
        self.propagated = self.propagated.min(back);
        self
    }

    // Takes up a conflict clause, and makes its asserting literal true by it.
    fn take_up(mut self, alloc: Global, learned: ConflictClause) -> Result<SolverState, AllocError>
        requires derived { IsDerived (clauses_known self.known) (plain_step learned.step) }
        requires new { IsNew (clauses_known self.known) learned.step.clause }
        requires of { IsClauseOf self.known.variables learned.step.clause }
        requires asserting { IsAsserting self.trail.literals (length self.trail.literals)
            learned.step.clause learned.asserting learned.other learned.keep }
        requires decisions { All (λ decision. decision < learned.keep) self.decisions }
        ensures given { IfOk result (λ state. state.known.given ≡ self.known.given) }
        ensures steps { IfOk result (λ state. length state.known.steps ≡
            length self.known.steps + 1) }
        ensures variables { IfOk result (λ state. state.known.variables ≡ self.known.variables) }
    {
        let ConflictClause {
            step,
            asserting,
            other,
            ..
        } = learned;
        self.watches.attach(pair_of(asserting, other))?;
        self.known = self.known.learn(alloc, step)?;
        self.trail
            .push(&asserting, self.known.clauses().len() as u64)?;
        Ok(self)
    }

    /// Learns a conflict clause from a false clause, and backjumps to where it makes its asserting
    /// literal true.
    pub fn learn(
        self,
        alloc: Global,
        seen: &mut LiteralList,
        order: &mut Order,
        conflict: usize,
    ) -> Result<SolverState, AllocError>
        requires decided { 0 < length self.decisions }
        requires conflict { IsConflict (clauses_known self.known) self.trail.literals conflict }
        requires variables { seen.old.variables ≡ self.known.variables }
        ensures given { IfOk result (λ state. state.known.given ≡ self.known.given) }
        ensures steps { IfOk result (λ state. length state.known.steps ≡
            length self.known.steps + 1) }
        ensures variables { IfOk result (λ state. state.known.variables ≡ self.known.variables) }
        ensures seen { OnOk result (seen.new.variables ≡ seen.old.variables) }
    {
        let mark = self.decisions[self.decisions.len() - 1];
        let learned = learn(
            alloc,
            self.known.clauses(),
            &self.trail,
            seen,
            conflict,
            mark,
        )?;
        order.bump(seen);
        self.backjump(order, learned.keep).take_up(alloc, learned)
    }

    /// The log that refutes the clauses, where one is false and nothing was decided.
    pub fn refute(
        self,
        alloc: Global,
        seen: &mut LiteralList,
        conflict: usize,
    ) -> Result<Log, AllocError>
        requires decided { self.decisions ≡ [] }
        requires conflict { IsConflict (clauses_known self.known) self.trail.literals conflict }
        requires variables { seen.old.variables ≡ self.known.variables }
        ensures refutation { IfOk result (IsRefutation self.known) }
        ensures variables { OnOk result (seen.new.variables ≡ seen.old.variables) }
    {
        let SolverState { known, trail, .. } = self;
        refute_known(alloc, known, &trail, seen, conflict)
    }

    /// The trail alone.
    pub fn into_trail(self) -> AssignmentTrail
        ensures { result ≡ self.trail }
    {
        self.trail
    }

    /// The log of all conflict clauses, where all clauses are at rest.
    pub fn finish(self) -> Log
        requires { self.propagated ≡ length self.trail.literals }
        ensures { IsSpent self.known result }
    {
        let SolverState { known, trail, .. } = self;
        // brings that the trail is consistent
        let _len = trail.len();
        known.finish()
    }
}
