// The logs of certificates against the obligations of a design.
use crate::texts::design;
use crate::views::TURNS;
use std::alloc::Global;
use std::test::Fail;
use sv_accept::{AcceptFault, accept};
use sv_design::Design;
use sv_paths::obligations;
use sv_proof::{LogFault, read_proof};

// A log for each of the two obligations.
const WHOLE: &[u8] = b"secv-proof 1\nobligations 2\no 1 1\n0 3 5 6 0\no 2 1\n0 1 3 0\nend\n";

// The first log clashes on two variables at once.
const CLASHING: &[u8] = b"secv-proof 1\nobligations 2\no 1 1\n0 4 3 1 0\no 2 1\n0 1 3 0\nend\n";

const ONE_LOG: &[u8] = b"secv-proof 1\nobligations 1\no 1 1\n0 3 5 6 0\nend\n";

// Whether the logs of a certificate are accepted.
fn accepted(
    alloc: Global,
    design: &Design,
    certificate: &[u8],
) -> Result<Result<(), AcceptFault>, Fail> {
    let queries = obligations(alloc, design)?;
    let logs = read_proof(alloc, certificate)?;
    Ok(accept(alloc, design, &queries, &logs))
}

#[test]
fn accepts_a_log_for_each_obligation(rt: HostRuntime) -> Result<(), Fail> {
    let alloc = rt.alloc();
    let design = design(&rt, alloc, TURNS)?;
    assert!(rt; accepted(alloc, &design, WHOLE)? == Ok(()));
    let clash = Err(AcceptFault::Log(1, LogFault::Step(0)));
    assert!(rt; accepted(alloc, &design, CLASHING)? == clash);
    assert!(rt; accepted(alloc, &design, ONE_LOG)? == Err(AcceptFault::Count));
    Ok(())
}
