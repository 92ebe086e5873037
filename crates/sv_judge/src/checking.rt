// What `check` comes to: the obligations decided in order.
ghost use Rattle.std.specs.Prelude.{◌≡◌, ◌+◌, ◌-◌, ◌^◌, ◌<◌, ◌≤◌, [], None, Some, length};
ghost use Rattle.std.specs.Prelude.{ℕ, All, IsTrue, IsFalse, IfOk, IfErr, OnOk, slice_get};
ghost use Rattle.sv_clause.specs.Logs.{plain_log};
ghost use Rattle.sv_flat.specs.Views.{design_of};
ghost use Rattle.sv_obl.specs.Asked.{asked};
ghost use Rattle.sv_obl.specs.DesignQueries.{IsQueryOf, IsPlaced};
ghost use Rattle.sv_paths.specs.Limits.{excess};
ghost use Rattle.sv_paths.specs.ListParts.{IsAt, obligations_on};
ghost use Rattle.sv_obl.specs.Views.{obligation_of};
ghost use Rattle.sv_blast.specs.Coders.{IsCoder};
ghost use Rattle.sv_proof.specs.Certificate.{AreLogs};
ghost use Rattle.sv_judge.specs.Answers.{WhereAccepted, WhereFails, WhereTooLarge, WhereUnknown};
ghost use Rattle.sv_judge.specs.Answers.{IsNotUnknown, HasAtMost, HasUnitConflict};
ghost use Rattle.sv_judge.specs.Progress.{HasDone, IsEarlyStop, verdict_of};
ghost use Rattle.sv_judge.specs.Verdicts.{IsAccepted, AreRefutations, AreWithin, IsFalsified};
ghost use Rattle.sv_judge.specs.Verdicts.{EndsTooLarge, IsSpent};
ghost use Rattle.sv_judge.specs.Walking.{IsNext, AreNext, ComeNext};

use crate::progress::{EarlyStop, Progress};
use crate::verdicts::{Checked, Failure};
use crate::walk::{selector_part, target_part};
use crate::writable::know_writable;
use std::alloc::{AllocError, Global};
use sv_blast::{BlastFault, Coder};
use sv_decide::{Decided, decide_by, is_valid_by_labels};
use sv_design::Design;
use sv_flat::SigId;
use sv_obl::{Bodies, Query};
use sv_paths::{Listing, TargetPaths};

/// What the obligations of a design come to, each with at most `budget` conflict clauses: at most
/// 4,000,000,000. They are decided in order, until one is falsified or too large; one on which the
/// budget is spent ends nothing. Where `keeps` is false no log is kept, and an accepted design is
/// given none. An error says that memory ran out. Nothing says how long it takes.
pub fn check(
    alloc: Global,
    design: &Design,
    budget: u32,
    keeps: bool,
) -> Result<Checked, AllocError>
    requires few { excess (design_of design.now) ≡ None }
    requires some { 1 ≤ budget }
    requires most { budget ≤ 4000000000 }
    ensures accepted { IfOk result (WhereAccepted (λ count logs.
        IsAccepted (design_of design.now) budget count)) }
    ensures refutations { IsTrue keeps → IfOk result (WhereAccepted (λ count logs.
        AreRefutations (design_of design.now) logs)) }
    ensures within { IsTrue keeps → IfOk result (WhereAccepted (λ count logs.
        AreWithin budget logs)) }
    ensures writable { IsTrue keeps → IfOk result (WhereAccepted (λ count logs. AreLogs logs)) }
    ensures none_kept { IsFalse keeps → IfOk result (WhereAccepted (λ count logs. logs ≡ [])) }
    ensures fails { IfOk result (WhereFails (λ failure.
        IsFalsified (design_of design.now) budget failure.number failure.valuation)) }
    ensures query { IfOk result (WhereFails (λ failure.
        slice_get (asked (design_of design.now)) (failure.number - 1)
        ≡ Some (obligation_of failure.query))) }
    ensures of_design { IfOk result (WhereFails (λ failure.
        IsQueryOf (design_of design.now) (obligation_of failure.query))) }
    ensures placed { IfOk result (WhereFails (λ failure. IsPlaced (obligation_of failure.query))) }
    ensures too_large { IfOk result (WhereTooLarge (EndsTooLarge (design_of design.now) budget)) }
    ensures unknown { IfOk result (WhereUnknown (λ spent.
        IsSpent (design_of design.now) budget spent.obligation (plain_log spent.log))) }
    ensures large_budget { (most : ℕ) →
        All (HasAtMost (design_of design.now) most) (asked (design_of design.now)) →
        3 ^ most ≤ budget → IfOk result IsNotUnknown }
    ensures units { All (HasUnitConflict (design_of design.now))
        (asked (design_of design.now)) → IfOk result IsNotUnknown }
{
    match decide_all(alloc, design, budget, keeps) {
        Ok(progress) => Ok(verdict(progress)),
        Err(EarlyStop::Fails(failure)) => Ok(Checked::Fails(failure)),
        Err(EarlyStop::TooLarge(number)) => Ok(Checked::TooLarge(number)),
        Err(EarlyStop::OutOfMemory) => Err(AllocError),
    }
}

// What a check comes to that reached the last obligation.
fn verdict(progress: Progress) -> Checked
    ensures { result ≡ verdict_of progress.count progress.logs progress.spent }
{
    let Progress {
        count,
        spent,
        logs,
        ..
    } = progress;
    match spent {
        Some(spent) => Checked::Unknown(spent),
        None => Checked::Accepted(count, logs),
    }
}

// Decides all obligations.
fn decide_all(
    alloc: Global,
    design: &Design,
    budget: u32,
    keeps: bool,
) -> Result<Progress, EarlyStop>
    requires some { 1 ≤ budget }
    requires most { budget ≤ 4000000000 }
    ensures done { IfOk result (HasDone (design_of design.now) budget) }
    ensures all { IfOk result (λ progress.
        progress.count ≡ length (asked (design_of design.now))) }
    ensures few { IfOk result (λ progress. progress.count < 2 ^ 32) }
    ensures keeps { IfOk result (λ progress. progress.keeps ≡ keeps) }
    ensures stop { IfErr result (IsEarlyStop (design_of design.now) budget) }
{
    let mut progress = Progress::new(alloc, keeps);
    let bodies = Bodies::new(alloc, design)?;
    let mut listing = Listing::new(design, &bodies);
    let mut coder = Coder::new(alloc, design, &bodies)?;
    decide_targets(
        alloc,
        design,
        &mut coder,
        budget,
        &mut listing,
        &mut progress,
    )?;
    let queries = selector_part(alloc, design, &listing)?;
    decide_part(alloc, design, &mut coder, budget, queries, &mut progress)?;
    Ok(progress)
}

// Decides the obligations of all targets.
fn decide_targets(
    alloc: Global,
    design: &Design,
    coder: &mut Coder,
    budget: u32,
    listing: &mut Listing,
    progress: &mut Progress,
) -> Result<(), EarlyStop>
    requires coder { IsCoder (design_of design.now) coder.old }
    requires some { 1 ≤ budget }
    requires most { budget ≤ 4000000000 }
    requires at { IsAt (design_of design.now) 0 listing.old }
    requires same { progress.old.count ≡ listing.old.count }
    requires done { HasDone (design_of design.now) budget progress.old }
    ensures coder { OnOk result (IsCoder (design_of design.now) coder.new) }
    ensures at { OnOk result
        (IsAt (design_of design.now) (length design.now.signals.items) listing.new) }
    ensures same { OnOk result (progress.new.count ≡ listing.new.count) }
    ensures done { OnOk result (HasDone (design_of design.now) budget progress.new) }
    ensures keeps { OnOk result (progress.new.keeps ≡ progress.old.keeps) }
    ensures stop { IfErr result (IsEarlyStop (design_of design.now) budget) }
{
    for s in 0..design.signals().len() {
        let paths = target_part(alloc, design, listing, SigId(s as u32))?;
        decide_paths(alloc, design, coder, budget, &paths, progress)?;
    }
    Ok(())
}

// Decides the obligations of a target's paths, which come next. One of them at a time is in memory.
fn decide_paths(
    alloc: Global,
    design: &Design,
    coder: &mut Coder,
    budget: u32,
    paths: &TargetPaths,
    progress: &mut Progress,
) -> Result<(), EarlyStop>
    requires coder { IsCoder (design_of design.now) coder.old }
    requires some { 1 ≤ budget }
    requires most { budget ≤ 4000000000 }
    requires next { ComeNext (design_of design.now) progress.old.count paths.now }
    requires done { HasDone (design_of design.now) budget progress.old }
    ensures coder { OnOk result (IsCoder (design_of design.now) coder.new) }
    ensures count { OnOk result (progress.new.count
        ≡ progress.old.count + length (obligations_on (design_of design.now) paths.now)) }
    ensures done { OnOk result (HasDone (design_of design.now) budget progress.new) }
    ensures keeps { OnOk result (progress.new.keeps ≡ progress.old.keeps) }
    ensures stop { IfErr result (IsEarlyStop (design_of design.now) budget) }
{
    for place in 0..paths.len() {
        let query = paths.query(alloc, design, place)?;
        decide_next(alloc, design, coder, budget, query, progress)?;
    }
    Ok(())
}

// Decides these obligations, which come next.
fn decide_part(
    alloc: Global,
    design: &Design,
    coder: &mut Coder,
    budget: u32,
    queries: Vec<Query>,
    progress: &mut Progress,
) -> Result<(), EarlyStop>
    requires coder { IsCoder (design_of design.now) coder.old }
    requires some { 1 ≤ budget }
    requires most { budget ≤ 4000000000 }
    requires next { AreNext (design_of design.now) progress.old.count queries.items }
    requires done { HasDone (design_of design.now) budget progress.old }
    ensures coder { OnOk result (IsCoder (design_of design.now) coder.new) }
    ensures count { OnOk result
        (progress.new.count ≡ progress.old.count + length queries.items) }
    ensures done { OnOk result (HasDone (design_of design.now) budget progress.new) }
    ensures keeps { OnOk result (progress.new.keeps ≡ progress.old.keeps) }
    ensures stop { IfErr result (IsEarlyStop (design_of design.now) budget) }
{
    for query in queries {
        decide_next(alloc, design, coder, budget, query, progress)?;
    }
    Ok(())
}

// Decides the obligation that comes next: by labels alone, where they show it valid and no log is
// wanted, else by clauses.
fn decide_next(
    alloc: Global,
    design: &Design,
    coder: &mut Coder,
    budget: u32,
    query: Query,
    progress: &mut Progress,
) -> Result<(), EarlyStop>
    requires coder { IsCoder (design_of design.now) coder.old }
    requires some { 1 ≤ budget }
    requires most { budget ≤ 4000000000 }
    requires next { IsNext (design_of design.now) progress.old.count query }
    requires done { HasDone (design_of design.now) budget progress.old }
    ensures coder { OnOk result (IsCoder (design_of design.now) coder.new) }
    ensures count { OnOk result (progress.new.count ≡ progress.old.count + 1) }
    ensures done { OnOk result (HasDone (design_of design.now) budget progress.new) }
    ensures keeps { OnOk result (progress.new.keeps ≡ progress.old.keeps) }
    ensures stop { IfErr result (IsEarlyStop (design_of design.now) budget) }
{
    if progress.wants_log() {
        return decide_by_clauses(alloc, design, coder, budget, query, progress);
    }
    match is_valid_by_labels(design, coder, &query) {
        Ok(true) => {
            progress.add_valid();
            Ok(())
        }
        Ok(false) => decide_by_clauses(alloc, design, coder, budget, query, progress),
        Err(BlastFault::TooLarge) => Err(EarlyStop::TooLarge(progress.count + 1)),
        Err(BlastFault::OutOfMemory) => Err(EarlyStop::OutOfMemory),
    }
}

// Decides the obligation that comes next by the clauses of its encoding.
fn decide_by_clauses(
    alloc: Global,
    design: &Design,
    coder: &mut Coder,
    budget: u32,
    query: Query,
    progress: &mut Progress,
) -> Result<(), EarlyStop>
    requires coder { IsCoder (design_of design.now) coder.old }
    requires some { 1 ≤ budget }
    requires most { budget ≤ 4000000000 }
    requires next { IsNext (design_of design.now) progress.old.count query }
    requires done { HasDone (design_of design.now) budget progress.old }
    ensures coder { OnOk result (IsCoder (design_of design.now) coder.new) }
    ensures count { OnOk result (progress.new.count ≡ progress.old.count + 1) }
    ensures done { OnOk result (HasDone (design_of design.now) budget progress.new) }
    ensures keeps { OnOk result (progress.new.keeps ≡ progress.old.keeps) }
    ensures stop { IfErr result (IsEarlyStop (design_of design.now) budget) }
{
    let number = progress.count + 1;
    match decide_by(alloc, design, coder, &query, budget) {
        Ok(Decided::Valid(log)) => {
            know_writable(&log);
            Ok(progress.add_refuted(log)?)
        }
        Ok(Decided::Fails(valuation)) => Err(EarlyStop::Fails(Failure {
            number,
            query,
            valuation,
        })),
        Ok(Decided::Spent(log)) => {
            progress.add_spent(log);
            Ok(())
        }
        Err(BlastFault::TooLarge) => Err(EarlyStop::TooLarge(number)),
        Err(BlastFault::OutOfMemory) => Err(EarlyStop::OutOfMemory),
    }
}
