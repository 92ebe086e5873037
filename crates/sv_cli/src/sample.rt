// What `gen` does: it prints the sample design of so many lanes, or judges it.
ghost use Rattle.std.specs.Prelude.{◌≡◌, ◌≤◌, [], length};
ghost use Rattle.sv_io.specs.Traffic.{files_by};
ghost use Rattle.sv_gen.specs.Sample.{sample_text};
ghost use Rattle.sv_cli.specs.Generates.{Generates, ChecksSample};
ghost use Rattle.sv_cli.specs.Prepared.{Readies, Reports};
ghost use Rattle.sv_cli.specs.Texts.{largest_file};

use crate::checking::check_design;
use crate::designs::design_of_text;
use crate::outcome::Outcome;
use crate::prepared::{NoReport, Prepared};
use crate::report::{Report, report_of_bare_limit, report_of_refusal};
use std::alloc::Global;
use sv_gen::{GenFault, generate};
use sv_io::Cabinet;
use sv_num::{Fault, Rule};
use sv_report::Style;

// The budget of `gen --check`, in learned clauses for each obligation.
const DEFAULT_BUDGET: u32 = 20_000;

/// What is prepared for so many lanes: the text of the sample, or the verdict on it.
pub fn prepare_sample<C: Cabinet>(
    alloc: Global,
    lanes: u32,
    checks: bool,
    cabinet: &mut C,
) -> Result<Prepared, NoReport>
    ensures { Readies (λ exchanges. exchanges ≡ []) (λ _. Reports (Generates lanes checks)) C.tells
        (files_by C.exchanges C.held C.fetch_faults C.store_faults cabinet.old)
        (files_by C.exchanges C.held C.fetch_faults C.store_faults cabinet.new) result }
{
    match generate(alloc, lanes) {
        Ok(text) if checks => check_sample(alloc, lanes, &text, cabinet),
        Ok(text) => Ok(Prepared::Whole(Report {
            outcome: Outcome::Done,
            text,
        })),
        Err(GenFault::Range) => {
            Ok(Prepared::Whole(report_of_bare_limit(alloc, Style::Lines, Rule::Gen)?))
        }
        Err(GenFault::OutOfMemory) => Err(NoReport::OutOfMemory),
    }
}

// What is prepared to say the verdict on the sample, whose text this is.
fn check_sample<C: Cabinet>(
    alloc: Global,
    lanes: u32,
    text: &[u8],
    cabinet: &mut C,
) -> Result<Prepared, NoReport>
    requires text { text.now ≡ sample_text lanes }
    requires small { length text.now ≤ largest_file }
    ensures { Readies (λ exchanges. exchanges ≡ []) (λ _. Reports (ChecksSample lanes)) C.tells
        (files_by C.exchanges C.held C.fetch_faults C.store_faults cabinet.old)
        (files_by C.exchanges C.held C.fetch_faults C.store_faults cabinet.new) result }
{
    match design_of_text(alloc, text, None) {
        Ok(design) => check_design(alloc, Style::Lines, &design, None, DEFAULT_BUDGET, cabinet),
        Err(Fault::Rule(refusal)) => {
            Ok(Prepared::Whole(report_of_refusal(alloc, Style::Lines, refusal)?))
        }
        Err(Fault::OutOfMemory) => Err(NoReport::OutOfMemory),
    }
}
