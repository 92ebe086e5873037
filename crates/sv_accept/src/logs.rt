// The check of logs against the obligations of a design.
ghost use Rattle.std.specs.Prelude.{◌≡◌, ◌<◌, ◌^◌, List, length, map, All, IfErr, OnOk};
ghost use Rattle.std.specs.List.{AllZip};
ghost use Rattle.sv_clause.specs.Logs.{plain_log};
ghost use Rattle.sv_flat.specs.Design.{TypedTree};
ghost use Rattle.sv_flat.specs.Views.{design_of};
ghost use Rattle.sv_obl.specs.DesignQueries.{IsQueryOf};
ghost use Rattle.sv_obl.specs.Noninterference.{NoninterferentUnder};
ghost use Rattle.sv_obl.specs.Validity.{IsValid, AllValid};
ghost use Rattle.sv_obl.specs.Views.{obligation_of};
ghost use Rattle.sv_blast.specs.Coders.{IsCoder};
ghost use Rattle.sv_proof.specs.Certificate.{plain_logs};
ghost use Rattle.sv_accept.specs.Accepting.{IsAccepted, HasQueryFault, HasAcceptFault};
ghost use Rattle.sv_accept.specs.Accepting.{numbered_fault, BeginsWithObligations};

use crate::faults::{AcceptFault, QueryFault};
use crate::laws::refuted_obligations_are_valid;
use std::alloc::Global;
use sv_blast::{BlastFault, Coder};
use sv_clause::Log;
use sv_design::Design;
use sv_obl::{Bodies, Query, know_design, valid_obligations_mean_noninterference};
use sv_proof::{LogFault, check_log};

/// Checks that a log of fewer than 2 ^ 32 steps refutes the encoding of an obligation of a design,
/// which the design's coder makes anew. `TooLarge` says that it has more than 4,194,304 variables,
/// `Log` how the log fails, `OutOfMemory` that memory ran out.
pub fn check_query(
    alloc: Global,
    design: &Design,
    coder: &mut Coder,
    query: &Query,
    log: &Log,
) -> Result<(), QueryFault>
    requires coder { IsCoder (design_of design.now) coder.old }
    requires query { IsQueryOf (design_of design.now) (obligation_of query.now) }
    requires steps { length log.now.steps.items < 2 ^ 32 }
    ensures coder { IsCoder (design_of design.now) coder.new }
    ensures refuted { OnOk result
        (IsAccepted (design_of design.now) (obligation_of query.now) (plain_log log.now)) }
    ensures fault { IfErr result
        (HasQueryFault (design_of design.now) (obligation_of query.now) (plain_log log.now)) }
{
    match coder.encode(design, query) {
        Ok(()) => {}
        Err(BlastFault::TooLarge) => return Err(QueryFault::TooLarge),
        Err(BlastFault::OutOfMemory) => return Err(QueryFault::OutOfMemory),
    }
    match check_log(alloc, coder.clauses(), log) {
        Ok(()) => Ok(()),
        Err(LogFault::Step(i)) => Err(QueryFault::Log(LogFault::Step(i))),
        Err(LogFault::NotEmpty) => Err(QueryFault::Log(LogFault::NotEmpty)),
        Err(LogFault::OutOfMemory) => Err(QueryFault::OutOfMemory),
    }
}

/// Checks that each log refutes the encoding of its query, one log for each query in order. `Count`
/// comes before any log is looked at; then the first query at fault is told by its number from 1:
/// `TooLarge` where its encoding has more than 4,194,304 variables, else `Log`. `OutOfMemory` says
/// that memory ran out on the way.
pub fn accept(
    alloc: Global,
    design: &Design,
    queries: &[Query],
    logs: &[Log],
) -> Result<(), AcceptFault>
    requires queries { All (IsQueryOf (design_of design.now)) (map obligation_of queries.now) }
    requires count { length queries.now < 2 ^ 32 }
    requires steps { All (λ steps. length steps < 2 ^ 32) (plain_logs logs.now) }
    ensures refuted { OnOk result (AllZip (IsAccepted (design_of design.now))
        (map obligation_of queries.now) (plain_logs logs.now)) }
    ensures fault { IfErr result (HasAcceptFault (design_of design.now)
        (map obligation_of queries.now) (plain_logs logs.now)) }
    ensures each_valid { OnOk result
        (All (IsValid (design_of design.now)) (map obligation_of queries.now)) }

    // What that means where the queries are the design's obligations, with any facts in them, and
    // maybe further ones.
    ensures all_valid { (facts : List TypedTree)
        → BeginsWithObligations facts (design_of design.now) (map obligation_of queries.now)
        → OnOk result (AllValid facts (design_of design.now)) }
    ensures noninterferent { (facts : List TypedTree)
        → BeginsWithObligations facts (design_of design.now) (map obligation_of queries.now)
        → OnOk result (NoninterferentUnder facts (design_of design.now)) }
{
    know_design(design);
    refuted_obligations_are_valid();
    valid_obligations_mean_noninterference();
    check_queries(alloc, design, queries, logs)
}

// Checks the log of each query in turn.
fn check_queries(
    alloc: Global,
    design: &Design,
    queries: &[Query],
    logs: &[Log],
) -> Result<(), AcceptFault>
    requires queries { All (IsQueryOf (design_of design.now)) (map obligation_of queries.now) }
    requires count { length queries.now < 2 ^ 32 }
    requires steps { All (λ steps. length steps < 2 ^ 32) (plain_logs logs.now) }
    ensures refuted { OnOk result (AllZip (IsAccepted (design_of design.now))
        (map obligation_of queries.now) (plain_logs logs.now)) }
    ensures fault { IfErr result (HasAcceptFault (design_of design.now)
        (map obligation_of queries.now) (plain_logs logs.now)) }
{
    if queries.len() != logs.len() {
        return Err(AcceptFault::Count);
    }
    let bodies = Bodies::new(alloc, design)?;
    let mut coder = Coder::new(alloc, design, &bodies)?;
    'queries: for (i, query) in queries.iter().enumerate() {
        match check_query(alloc, design, &mut coder, query, &logs[i]) {
            Ok(()) => {}
            Err(fault) => return Err(fault_of(i as u32 + 1, fault)),
        }
    }
    Ok(())
}

// The fault of the obligation with this number.
fn fault_of(number: u32, fault: QueryFault) -> AcceptFault
    ensures { result ≡ numbered_fault number fault }
{
    match fault {
        QueryFault::TooLarge => AcceptFault::TooLarge(number),
        QueryFault::Log(fault) => AcceptFault::Log(number, fault),
        QueryFault::OutOfMemory => AcceptFault::OutOfMemory,
    }
}
