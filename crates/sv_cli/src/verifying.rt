// What `verify` does with an admitted design: it fetches the certificate, and checks it.
ghost use Rattle.std.specs.Prelude.{◌≡◌, ◌≤◌, ◌∷◌, [], None, IfOk, length};
ghost use Rattle.sv_flat.specs.Views.{design_of};
ghost use Rattle.sv_io.specs.Traffic.{files_by};
ghost use Rattle.sv_obl.specs.Asked.{asked};
ghost use Rattle.sv_paths.specs.Limits.{excess};
ghost use Rattle.sv_obl.specs.Obligations.{obligations};
ghost use Rattle.sv_cli.specs.Verifies.{Verifies, Judges, largest_proof};
ghost use Rattle.sv_cli.specs.Prepared.{Readies, Reports, Says, MayFetchOwn, VerifiesFetched};

use crate::fetching::fetch_once;
use crate::listing::report_of_fault;
use crate::prepared::{NoReport, Prepared};
use crate::report::{
    Report, report_of_acceptance, report_of_bare_limit, report_of_large, report_of_line,
};
use std::alloc::{AllocError, Global};
use sv_design::Design;
use sv_io::{Cabinet, FetchFault};
use sv_judge::{Verified, verify};
use sv_num::Rule;
use sv_paths::check_limits;
use sv_report::Style;

// The bytes of the largest certificate.
const LARGEST_PROOF: u64 = 268_435_456;

/// What is prepared of an admitted design to say whether the certificate under a name shows that
/// its obligations hold.
pub fn verify_design<C: Cabinet>(
    alloc: Global,
    design: &Design,
    proof: &str,
    cabinet: &mut C,
) -> Result<Prepared, NoReport>
    ensures { Readies (MayFetchOwn proof.now (design_of design.now))
        (λ exchanges. Reports (Verifies proof.now (design_of design.now) exchanges)) C.tells
        (files_by C.exchanges C.held C.fetch_faults C.store_faults cabinet.old)
        (files_by C.exchanges C.held C.fetch_faults C.store_faults cabinet.new) result }
{
    match check_limits(alloc, design) {
        Ok(count) => Ok(Prepared::Whole(verify_fetched(alloc, design, count, proof, cabinet)?)),
        Err(fault) => Ok(Prepared::Whole(report_of_fault(alloc, Style::Lines, design, fault)?)),
    }
}

// What the certificate comes to for a design that exceeds no limit, with so many obligations.
fn verify_fetched<C: Cabinet>(
    alloc: Global,
    design: &Design,
    count: u32,
    proof: &str,
    cabinet: &mut C,
) -> Result<Report, NoReport>
    requires few { excess (design_of design.now) ≡ None }
    requires count { count ≡ length (asked (design_of design.now)) }
    ensures { Readies (MayFetchOwn proof.now (design_of design.now))
        (λ exchanges. Says (VerifiesFetched proof.now (design_of design.now) exchanges)) C.tells
        (files_by C.exchanges C.held C.fetch_faults C.store_faults cabinet.old)
        (files_by C.exchanges C.held C.fetch_faults C.store_faults cabinet.new) result }
{
    match fetch_once(alloc, proof, LARGEST_PROOF, cabinet) {
        Ok(bytes) => Ok(report_of_proof(alloc, design, count, &bytes)?),
        Err(FetchFault::Long(_)) => Ok(report_of_bare_limit(alloc, Style::Lines, Rule::ProofSize)?),
        Err(FetchFault::Failed) => Err(NoReport::Unread),
        Err(FetchFault::OutOfMemory) => Err(NoReport::OutOfMemory),
    }
}

// What the bytes of a certificate within the limit come to.
fn report_of_proof(
    alloc: Global,
    design: &Design,
    count: u32,
    bytes: &[u8],
) -> Result<Report, AllocError>
    requires few { excess (design_of design.now) ≡ None }
    requires count { count ≡ length (asked (design_of design.now)) }
    ensures { IfOk result (Says (Judges (design_of design.now) bytes.now)) }
{
    match verify(alloc, design, count, bytes)? {
        Verified::Accepted(count) => report_of_acceptance(alloc, Style::Lines, count),
        Verified::Fault(line) => report_of_line(alloc, line),
        Verified::TooLarge(number) => report_of_large(alloc, Style::Lines, number),
    }
}
