// The check of a log.
ghost use Rattle.std.specs.Prelude.{◌≡◌, ◌↔◌, ◌<◌, ◌^◌, ℤ, List, ◌++◌, length, map, IsTrue, IfOk};
ghost use Rattle.std.specs.Prelude.{IfErr, OnOk};
ghost use Rattle.std.specs.Bool.{IsFalse};
ghost use Rattle.std.specs.Option.{option_copied};
ghost use Rattle.sv_clause.specs.Literals.{IsClause, SameLiterals, HaveNoSolution};
ghost use Rattle.sv_clause.specs.Logs.{plain_step, plain_log, clauses_of, numbered, ResolvesTo};
ghost use Rattle.sv_clause.specs.Logs.{IsDerived, EndsEmpty, Refutes};
ghost use Rattle.sv_proof.specs.Checking.{HasFault};
ghost use Rattle.sv_proof.specs.declared.check.LogFault.TheVariants.{OutOfMemory};

use std::alloc::{AllocError, Global};
use std::mem;
use sv_clause::{Clause, Derived, Log, resolve_into};
use thiserror::Error;

/// Why a log does not refute clauses.
#[derive(Clone, Copy, Debug, PartialEq, Eq, Error)]
pub enum LogFault {
    /// This step, counted from 0, is the first that is not derived.
    #[error("step {0} is not derived")]
    Step(u32),
    /// Every step is derived, and there is none or the last clause is not empty.
    #[error("the log does not end with the empty clause")]
    NotEmpty,
    /// Memory ran out.
    #[error("out of memory")]
    OutOfMemory,
}

impl From<AllocError> for LogFault {
    ghost from_gives = { λ _ fault. fault ≡ OutOfMemory };

    fn from(_error: AllocError) -> LogFault {
        LogFault::OutOfMemory
    }
}

/// Whether the log refutes the clauses: each step is derived from them and the steps before it, and
/// the last one is empty. Then no values make all the clauses true, whoever made the log.
pub fn check_log(alloc: Global, clauses: &[Clause], log: &Log) -> Result<(), LogFault>
    requires { length log.now.steps.items < 2 ^ 32 }
    ensures refutes { OnOk result (Refutes clauses.now (plain_log log.now)) }
    ensures no_solution { OnOk result (HaveNoSolution clauses.now) }
    ensures fault { IfErr result (HasFault clauses.now (plain_log log.now)) }
{
    let steps = log.steps.as_slice();
    let mut work = Vec::new(alloc);
    let mut spare = Vec::new(alloc);
    'steps: for (i, step) in steps.iter().enumerate() {
        let known = KnownClauses {
            given: clauses,
            earlier: &steps[..i],
        };
        if !is_derived(&known, step, &mut work, &mut spare)? {
            return Err(LogFault::Step(i as u32));
        }
    }
    if !ends_empty(steps) {
        return Err(LogFault::NotEmpty);
    }
    Ok(())
}

fn ends_empty(steps: &[Derived]) -> bool
    ensures { IsTrue result ↔ EndsEmpty (map plain_step steps.now) }
{
    match steps.last() {
        Some(last) => last.clause.literals().is_empty(),
        None => false,
    }
}

// The clauses that a chain cites by their numbers: those that are given, and those of the earlier
// steps.
#[derive(Clone, Copy)]
struct KnownClauses<'a> {
    given: &'a [Clause],
    earlier: &'a [Derived],
}

// Whether the step is derived from the known clauses. The two buffers hold the clauses on the way.
fn is_derived(
    known: &KnownClauses,
    step: &Derived,
    work: &mut Vec<i32>,
    spare: &mut Vec<i32>,
) -> Result<bool, AllocError>
    ensures { IfOk result (λ yes. IsTrue yes ↔
        IsDerived (known.now.given.now ++ clauses_of (map plain_step known.now.earlier.now))
        (plain_step step.now)) }
{
    let [first, rest @ ..] = step.chain.as_slice() else {
        return Ok(false);
    };
    let Some(from) = numbered(known, *first) else {
        return Ok(false);
    };
    resolves_to(known, from, rest, &step.clause, work, spare)
}

// Whether resolving from a clause along a chain gives a clause.
fn resolves_to(
    known: &KnownClauses,
    from: &Clause,
    chain: &[u64],
    clause: &Clause,
    work: &mut Vec<i32>,
    spare: &mut Vec<i32>,
) -> Result<bool, AllocError>
    ensures { IfOk result (λ yes. IsTrue yes ↔
        ResolvesTo (known.now.given.now ++ clauses_of (map plain_step known.now.earlier.now))
        from.now chain.now clause.now) }
{
    work.clear();
    work.extend_from_slice(from.literals())?;
    if !resolve_chain(known, chain, work, spare)? {
        return Ok(false);
    }
    Ok(is_same(work.as_slice(), clause.literals()))
}

fn is_same(first: &[i32], second: &[i32]) -> bool
    requires first { IsClause first.now }
    requires second { IsClause second.now }
    ensures { IsTrue result ↔ SameLiterals first.now second.now }
{
    first == second
}

// Resolves the clause in `work` with each numbered one in turn, as far as that can be done.
fn resolve_chain(
    known: &KnownClauses,
    chain: &[u64],
    work: &mut Vec<i32>,
    spare: &mut Vec<i32>,
) -> Result<bool, AllocError>
    requires { IsClause work.old.items }
    ensures normal { IfOk result (λ done. IsTrue done → IsClause work.new.items) }
    ensures done { IfOk result (λ done. IsTrue done → (clause : List ℤ) →
        SameLiterals work.new.items clause ↔
        ResolvesTo (known.now.given.now ++ clauses_of (map plain_step known.now.earlier.now))
        work.old.items chain.now clause) }
    ensures stuck { IfOk result (λ done. IsFalse done → (clause : List ℤ) →
        ResolvesTo (known.now.given.now ++ clauses_of (map plain_step known.now.earlier.now))
        work.old.items chain.now clause → ⊥) }
{
    'chain: for number in chain {
        let Some(next) = numbered(known, *number) else {
            return Ok(false);
        };
        let Some(_pivot) = resolve_into(work.as_slice(), next.literals(), spare)? else {
            return Ok(false);
        };
        mem::swap(work, spare);
    }
    Ok(true)
}

// The clause of a number: from 1, those that are given and then those of the earlier steps.
fn numbered<'a>(known: &KnownClauses<'a>, number: u64) -> Option<&'a Clause>
    ensures { option_copied result ≡
        numbered (known.now.given.now ++ clauses_of (map plain_step known.now.earlier.now)) number }
{
    if number == 0 {
        return None;
    }
    let given = known.given;
    let earlier = known.earlier;
    let place = (number - 1) as usize;
    if place < given.len() {
        return Some(&given[place]);
    }
    let place = place - given.len();
    if place < earlier.len() {
        return Some(&earlier[place].clause);
    }
    None
}
