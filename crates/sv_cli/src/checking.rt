// What `check` does with an admitted design: it decides its obligations, and stores the certificate
// where one is asked for.
ghost use Rattle.std.specs.Prelude.{◌≡◌, ◌≤◌, Some, None, IsSome, IfOk};
ghost use Rattle.std.specs.Option.{option_copied};
ghost use Rattle.sv_flat.specs.Views.{design_of};
ghost use Rattle.sv_io.specs.Traffic.{files_by};
ghost use Rattle.sv_obl.specs.DesignQueries.{IsQueryOf};
ghost use Rattle.sv_paths.specs.Limits.{excess};
ghost use Rattle.sv_obl.specs.Validity.{Falsifies as IsFalsifiedBy};
ghost use Rattle.sv_obl.specs.Valuations.{FitsDesign, valuation_of};
ghost use Rattle.sv_obl.specs.Views.{obligation_of};
ghost use Rattle.sv_proof.specs.Certificate.{plain_logs, proof_text};
ghost use Rattle.sv_report.specs.FlowText.{AsksFlow};
ghost use Rattle.sv_report.specs.Styles.{accepted_in, IsFlowTextIn};
ghost use Rattle.sv_cli.specs.Answer.{done, falsified};
ghost use Rattle.sv_cli.specs.Checks.{Checks, Decides};
ghost use Rattle.sv_cli.specs.Prepared.{Readies, Reports, Says, MayStoreOwn, MayStoreBytes};
ghost use Rattle.sv_cli.specs.Prepared.{StoresBytes};

use crate::listing::report_of_fault;
use crate::outcome::Outcome;
use crate::prepared::{NoReport, Prepared};
use crate::report::{Report, report_of_acceptance, report_of_large, report_of_spent};
use std::alloc::{AllocError, Global};
use sv_clause::Log;
use sv_design::Design;
use sv_io::{Cabinet, StoreFault};
use sv_judge::{Checked, Failure, check};
use sv_paths::check_limits;
use sv_proof::write_proof;
use sv_report::{Broken, Style, flow_text_in};

/// What is prepared of an admitted design to say its verdict, with the name under which the
/// certificate is to be stored, if any.
pub fn check_design<C: Cabinet>(
    alloc: Global,
    style: Style,
    design: &Design,
    proof: Option<&str>,
    budget: u32,
    cabinet: &mut C,
) -> Result<Prepared, NoReport>
    requires some { 1 ≤ budget }
    requires most { budget ≤ 4000000000 }
    ensures { Readies (MayStoreOwn (option_copied proof.entry) (design_of design.now) budget)
        (λ exchanges. Reports
        (Checks style (option_copied proof.entry) budget (design_of design.now) exchanges)) C.tells
        (files_by C.exchanges C.held C.fetch_faults C.store_faults cabinet.old)
        (files_by C.exchanges C.held C.fetch_faults C.store_faults cabinet.new) result }
{
    match check_limits(alloc, design) {
        Ok(_) => Ok(Prepared::Whole(decide_design(alloc, style, design, proof, budget, cabinet)?)),
        Err(fault) => Ok(Prepared::Whole(report_of_fault(alloc, style, design, fault)?)),
    }
}

// The verdict of a design that exceeds no limit on obligations.
fn decide_design<C: Cabinet>(
    alloc: Global,
    style: Style,
    design: &Design,
    proof: Option<&str>,
    budget: u32,
    cabinet: &mut C,
) -> Result<Report, NoReport>
    requires some { 1 ≤ budget }
    requires most { budget ≤ 4000000000 }
    requires few { excess (design_of design.now) ≡ None }
    ensures { Readies (MayStoreOwn (option_copied proof.entry) (design_of design.now) budget)
        (λ exchanges. Says
        (Decides style (option_copied proof.entry) budget (design_of design.now) exchanges)) C.tells
        (files_by C.exchanges C.held C.fetch_faults C.store_faults cabinet.old)
        (files_by C.exchanges C.held C.fetch_faults C.store_faults cabinet.new) result }
{
    match check(alloc, design, budget, proof.is_some())? {
        Checked::Accepted(count, logs) => {
            report_of_proved(alloc, style, proof, count, &logs, cabinet)
        }
        Checked::Fails(failure) => Ok(report_of_failure(alloc, style, design, failure)?),
        Checked::TooLarge(number) => Ok(report_of_large(alloc, style, number)?),
        Checked::Unknown(spent) => Ok(report_of_spent(alloc, style, spent, budget)?),
    }
}

// That so many obligations hold, which are all; their logs are stored where a name is given.
fn report_of_proved<C: Cabinet>(
    alloc: Global,
    style: Style,
    proof: Option<&str>,
    count: u32,
    logs: &[Log],
    cabinet: &mut C,
) -> Result<Report, NoReport>
    ensures { Readies
        (MayStoreBytes (option_copied proof.entry) (proof_text (plain_logs logs.now)))
        (λ exchanges. Says (λ answer printed.
        StoresBytes (option_copied proof.entry) (proof_text (plain_logs logs.now)) exchanges
        × (answer ≡ done) × (printed ≡ accepted_in style count))) C.tells
        (files_by C.exchanges C.held C.fetch_faults C.store_faults cabinet.old)
        (files_by C.exchanges C.held C.fetch_faults C.store_faults cabinet.new) result }
{
    store_proof(alloc, proof, logs, cabinet)?;
    Ok(report_of_acceptance(alloc, style, count)?)
}

// Stores the certificate of logs, where a name is given.
fn store_proof<C: Cabinet>(
    alloc: Global,
    proof: Option<&str>,
    logs: &[Log],
    cabinet: &mut C,
) -> Result<(), NoReport>
    ensures { Readies
        (MayStoreBytes (option_copied proof.entry) (proof_text (plain_logs logs.now)))
        (λ exchanges _.
        StoresBytes (option_copied proof.entry) (proof_text (plain_logs logs.now)) exchanges)
        C.tells
        (files_by C.exchanges C.held C.fetch_faults C.store_faults cabinet.old)
        (files_by C.exchanges C.held C.fetch_faults C.store_faults cabinet.new) result }
{
    match proof {
        Some(name) => store_logs(alloc, name, logs, cabinet),
        None => Ok(()),
    }
}

// Stores it under this name.
fn store_logs<C: Cabinet>(
    alloc: Global,
    name: &str,
    logs: &[Log],
    cabinet: &mut C,
) -> Result<(), NoReport>
    ensures { Readies (MayStoreBytes (Some name.now) (proof_text (plain_logs logs.now)))
        (λ exchanges _.
        StoresBytes (Some name.now) (proof_text (plain_logs logs.now)) exchanges) C.tells
        (files_by C.exchanges C.held C.fetch_faults C.store_faults cabinet.old)
        (files_by C.exchanges C.held C.fetch_faults C.store_faults cabinet.new) result }
{
    let bytes = write_proof(alloc, logs)?;
    match cabinet.store(name, &bytes) {
        Ok(()) => Ok(()),
        Err(StoreFault::Failed) => Err(NoReport::Unwritten),
        Err(StoreFault::OutOfMemory) => Err(NoReport::OutOfMemory),
    }
}

// That an obligation of the design is falsified, and by which values.
fn report_of_failure(
    alloc: Global,
    style: Style,
    design: &Design,
    failure: Failure,
) -> Result<Report, AllocError>
    requires query { IsQueryOf (design_of design.now) (obligation_of failure.query) }
    requires asks { AsksFlow (obligation_of failure.query).goal }
    requires fits { FitsDesign (design_of design.now) failure.valuation }
    requires falsifies { IsFalsifiedBy (design_of design.now)
        (valuation_of (design_of design.now) failure.valuation) (obligation_of failure.query) }
    ensures { IfOk result (Says (λ answer printed.
        (answer ≡ falsified failure.number failure.valuation)
        × IsFlowTextIn style (design_of design.now) failure.number (obligation_of failure.query)
        failure.valuation printed)) }
{
    let text = flow_text_in(
        alloc,
        style,
        design,
        failure.number,
        &failure.query,
        &failure.valuation,
    )?;
    Ok(Report {
        outcome: Outcome::Refused(Broken::Fails(failure.number, failure.valuation)),
        text,
    })
}
