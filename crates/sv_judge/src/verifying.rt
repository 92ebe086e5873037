// What `verify` comes to: the logs of a certificate checked in order.
ghost use Rattle.std.specs.Prelude.{◌≡◌, ◌+◌, ◌^◌, ◌<◌, None, length, IfOk, IfErr, OnOk};
ghost use Rattle.sv_flat.specs.Views.{design_of};
ghost use Rattle.sv_obl.specs.Asked.{asked};
ghost use Rattle.sv_paths.specs.Limits.{excess};
ghost use Rattle.sv_paths.specs.ListParts.{IsAt, obligations_on};
ghost use Rattle.sv_blast.specs.Coders.{IsCoder};
ghost use Rattle.sv_proof.specs.Certificate.{AreLogs, plain_logs, proof_lines, proof_text};
ghost use Rattle.sv_judge.specs.Answers.{WhereVerified, WhereFault, WhereLarge};
ghost use Rattle.sv_judge.specs.Certified.{EarlierAreShown, IsVerified, IsFaultLine};
ghost use Rattle.sv_judge.specs.Certified.{IsTooLargeToVerify};
ghost use Rattle.sv_judge.specs.Verifying.{AreMatched, IsFlaw, IsVerdict, broken_verdict};
ghost use Rattle.sv_judge.specs.Verifying.{flawed_verdict};
ghost use Rattle.sv_judge.specs.Walking.{IsNext, AreNext, ComeNext};
ghost use Rattle.sv_judge.specs.declared.verifying.Flaw.TheVariants.{OutOfMemory};

use crate::verdicts::Verified;
use crate::walk::{selector_part, target_part};
use std::alloc::{AllocError, Global};
use sv_accept::{QueryFault, check_query};
use sv_blast::Coder;
use sv_clause::Log;
use sv_design::Design;
use sv_flat::SigId;
use sv_obl::{Bodies, Query};
use sv_paths::{Listing, TargetPaths};
use sv_proof::{ProofFault, line_of_fault, read_proof};

// The line of the number of obligations.
const COUNT_LINE: u64 = 2;

/// What ends the check of a certificate's logs before the last one.
#[derive(Clone, Copy)]
pub enum Flaw {
    /// The log whose fault is told on this line refutes nothing.
    Fault(u64),
    /// The encoding of the obligation of this number has more than 4,194,304 variables.
    TooLarge(u32),
    /// Memory ran out.
    OutOfMemory,
}

impl From<AllocError> for Flaw {
    ghost from_gives = { λ _ flaw. flaw ≡ OutOfMemory };

    fn from(_error: AllocError) -> Flaw {
        Flaw::OutOfMemory
    }
}

/// What a certificate comes to for a design of `count` obligations: each of its logs refutes the
/// encoding of its obligation, which is made anew, in order; or the line of the first fault. An
/// error says that memory ran out.
pub fn verify(
    alloc: Global,
    design: &Design,
    count: u32,
    bytes: &[u8],
) -> Result<Verified, AllocError>
    requires few { excess (design_of design.now) ≡ None }
    requires count { count ≡ length (asked (design_of design.now)) }
    ensures accepted { IfOk result (WhereVerified (λ _.
        IsVerified (design_of design.now) bytes.now)) }
    ensures count { IfOk result (WhereVerified (λ accepted. accepted ≡ count)) }
    ensures fault { IfOk result (WhereFault (IsFaultLine (design_of design.now) bytes.now)) }
    ensures too_large { IfOk result
        (WhereLarge (IsTooLargeToVerify (design_of design.now) bytes.now)) }
{
    match read_proof(alloc, bytes) {
        Ok(logs) => verify_logs(alloc, design, count, &logs),
        Err(fault) => broken(fault),
    }
}

// What bytes come to that are no certificate.
fn broken(fault: ProofFault) -> Result<Verified, AllocError>
    ensures { result ≡ broken_verdict fault }
{
    match fault {
        ProofFault::Text(line) => Ok(Verified::Fault(line)),
        ProofFault::OutOfMemory => Err(AllocError),
    }
}

// The same for the logs that a certificate holds.
fn verify_logs(
    alloc: Global,
    design: &Design,
    count: u32,
    logs: &[Log],
) -> Result<Verified, AllocError>
    requires count { count ≡ length (asked (design_of design.now)) }
    requires logs { AreLogs (plain_logs logs.now) }
    requires lines { length (proof_lines (plain_logs logs.now)) < 2 ^ 63 }
    ensures { IfOk result
        (IsVerdict (design_of design.now) (proof_text (plain_logs logs.now)) count) }
{
    if logs.len() != count as usize {
        return Ok(Verified::Fault(COUNT_LINE));
    }
    match verify_all(alloc, design, logs) {
        Ok(()) => Ok(Verified::Accepted(count)),
        Err(flaw) => flawed(flaw),
    }
}

// What logs come to that have a flaw.
fn flawed(flaw: Flaw) -> Result<Verified, AllocError>
    ensures { result ≡ flawed_verdict flaw }
{
    match flaw {
        Flaw::Fault(line) => Ok(Verified::Fault(line)),
        Flaw::TooLarge(number) => Ok(Verified::TooLarge(number)),
        Flaw::OutOfMemory => Err(AllocError),
    }
}

// Checks all logs.
fn verify_all(alloc: Global, design: &Design, logs: &[Log]) -> Result<(), Flaw>
    requires { AreMatched (design_of design.now) (plain_logs logs.now) }
    ensures shown { OnOk result (EarlierAreShown (design_of design.now)
        (length (asked (design_of design.now))) (plain_logs logs.now)) }
    ensures flaw { IfErr result (IsFlaw (design_of design.now) (plain_logs logs.now)) }
{
    let bodies = Bodies::new(alloc, design)?;
    let mut coder = Coder::new(alloc, design, &bodies)?;
    let mut listing = Listing::new(design, &bodies);
    verify_targets(alloc, design, &mut coder, logs, &mut listing)?;
    let queries = selector_part(alloc, design, &listing)?;
    verify_part(alloc, design, &mut coder, logs, listing.count, &queries)
}

// Checks the logs of the obligations of all targets.
fn verify_targets(
    alloc: Global,
    design: &Design,
    coder: &mut Coder,
    logs: &[Log],
    listing: &mut Listing,
) -> Result<(), Flaw>
    requires coder { IsCoder (design_of design.now) coder.old }
    requires logs { AreMatched (design_of design.now) (plain_logs logs.now) }
    requires at { IsAt (design_of design.now) 0 listing.old }
    ensures coder { OnOk result (IsCoder (design_of design.now) coder.new) }
    ensures at { OnOk result
        (IsAt (design_of design.now) (length design.now.signals.items) listing.new) }
    ensures shown { OnOk result
        (EarlierAreShown (design_of design.now) listing.new.count (plain_logs logs.now)) }
    ensures flaw { IfErr result (IsFlaw (design_of design.now) (plain_logs logs.now)) }
{
    for s in 0..design.signals().len() {
        let first = listing.count;
        let paths = target_part(alloc, design, listing, SigId(s as u32))?;
        verify_paths(alloc, design, coder, logs, first, &paths)?;
    }
    Ok(())
}

// Checks the logs of the obligations of a target's paths, which come next. One of them at a time is
// in memory.
fn verify_paths(
    alloc: Global,
    design: &Design,
    coder: &mut Coder,
    logs: &[Log],
    first: u32,
    paths: &TargetPaths,
) -> Result<(), Flaw>
    requires coder { IsCoder (design_of design.now) coder.old }
    requires logs { AreMatched (design_of design.now) (plain_logs logs.now) }
    requires next { ComeNext (design_of design.now) first paths.now }
    requires shown { EarlierAreShown (design_of design.now) first (plain_logs logs.now) }
    ensures coder { OnOk result (IsCoder (design_of design.now) coder.new) }
    ensures shown { OnOk result (EarlierAreShown (design_of design.now)
        (first + length (obligations_on (design_of design.now) paths.now)) (plain_logs logs.now)) }
    ensures flaw { IfErr result (IsFlaw (design_of design.now) (plain_logs logs.now)) }
{
    for path in 0..paths.len() {
        let query = paths.query(alloc, design, path)?;
        verify_next(alloc, design, coder, logs, first + path as u32, &query)?;
    }
    Ok(())
}

// Checks the logs of these obligations, which come next.
fn verify_part(
    alloc: Global,
    design: &Design,
    coder: &mut Coder,
    logs: &[Log],
    first: u32,
    queries: &[Query],
) -> Result<(), Flaw>
    requires coder { IsCoder (design_of design.now) coder.old }
    requires logs { AreMatched (design_of design.now) (plain_logs logs.now) }
    requires next { AreNext (design_of design.now) first queries.now }
    requires shown { EarlierAreShown (design_of design.now) first (plain_logs logs.now) }
    ensures coder { OnOk result (IsCoder (design_of design.now) coder.new) }
    ensures shown { OnOk result (EarlierAreShown (design_of design.now)
        (first + length queries.now) (plain_logs logs.now)) }
    ensures flaw { IfErr result (IsFlaw (design_of design.now) (plain_logs logs.now)) }
{
    let mut place = first;
    for query in queries {
        verify_next(alloc, design, coder, logs, place, query)?;
        place += 1;
    }
    Ok(())
}

// Checks the log of the obligation that comes next.
fn verify_next(
    alloc: Global,
    design: &Design,
    coder: &mut Coder,
    logs: &[Log],
    place: u32,
    query: &Query,
) -> Result<(), Flaw>
    requires coder { IsCoder (design_of design.now) coder.old }
    requires logs { AreMatched (design_of design.now) (plain_logs logs.now) }
    requires next { IsNext (design_of design.now) place query.now }
    requires shown { EarlierAreShown (design_of design.now) place (plain_logs logs.now) }
    ensures coder { OnOk result (IsCoder (design_of design.now) coder.new) }
    ensures shown { OnOk result
        (EarlierAreShown (design_of design.now) (place + 1) (plain_logs logs.now)) }
    ensures flaw { IfErr result (IsFlaw (design_of design.now) (plain_logs logs.now)) }
{
    match check_query(alloc, design, coder, query, &logs[place as usize]) {
        Ok(()) => Ok(()),
        Err(QueryFault::Log(fault)) => Err(Flaw::Fault(line_of_fault(logs, place, fault))),
        Err(QueryFault::TooLarge) => Err(Flaw::TooLarge(place + 1)),
        Err(QueryFault::OutOfMemory) => Err(Flaw::OutOfMemory),
    }
}
