// What `compare` does with an admitted design: it fetches both stimuli, and compares the runs that
// they ask for.
ghost use Rattle.std.specs.Prelude.{◌≡◌, ◌≤◌, ◌<◌, ◌⊎◌, ◌∷◌, [], ℕ, List, IfOk, length};
ghost use Rattle.sv_flat.specs.Views.{design_of};
ghost use Rattle.sv_io.specs.Exchange.{fetched, whole};
ghost use Rattle.sv_io.specs.Traffic.{files_by};
ghost use Rattle.sv_trace.specs.Forms.{form_of, name_in};
ghost use Rattle.sv_tworun.specs.Forms.{finding};
ghost use Rattle.sv_compare.specs.ComparedTexts.{named};
ghost use Rattle.sv_report.specs.declared.styles.Style.TheVariants.{Lines};
ghost use Rattle.sv_cli.specs.Compares.{ComparesStimuli, finding_text, largest_compared};
ghost use Rattle.sv_cli.specs.Comparing.{ComparesDesign, ComparesAt, ComparesSecond, FindsAt};
ghost use Rattle.sv_cli.specs.Comparing.{MayFetchStimuli, MayFetchSecond, HasSignal};
ghost use Rattle.sv_cli.specs.Dialogues.{MayFetchBoth};
ghost use Rattle.sv_cli.specs.Limits.{TellsLimit};
ghost use Rattle.sv_cli.specs.Prepared.{Readies, Reports, Says};

use crate::fetching::fetch_once;
use crate::prepared::{NoReport, Prepared};
use crate::report::{
    Report, outcome_of_finding, report_of_bare_limit, report_of_limit, report_of_stimulus,
};
use std::alloc::{AllocError, Global};
use sv_compare::{CompareFault, compare_stimuli};
use sv_design::Design;
use sv_flat::SigId;
use sv_io::{Cabinet, FetchFault};
use sv_lattice::Point;
use sv_num::{Name, Rule};
use sv_report::{StimSource, Style, equal_text, input_text, lengths_text, view_text};
use sv_tworun::Compared;

// The bytes of the largest stimulus file.
const LARGEST_STIMULUS: u64 = 67_108_864;

/// What is prepared of an admitted design to say what the level of this name tells apart of its
/// runs on the stimuli of two files.
pub fn compare_design<C: Cabinet>(
    alloc: Global,
    design: &Design,
    a: &str,
    b: &str,
    level: &str,
    cabinet: &mut C,
) -> Result<Prepared, NoReport>
    ensures { Readies (MayFetchStimuli a.now b.now level.now (design_of design.now))
        (λ exchanges. Reports
        (ComparesDesign a.now b.now level.now (design_of design.now) exchanges)) C.tells
        (files_by C.exchanges C.held C.fetch_faults C.store_faults cabinet.old)
        (files_by C.exchanges C.held C.fetch_faults C.store_faults cabinet.new) result }
{
    match design.point_named(level) {
        Some(point) => Ok(Prepared::Whole(compare_files(alloc, design, a, b, point, cabinet)?)),
        None => Ok(Prepared::Whole(report_of_bare_limit(alloc, Style::Lines, Rule::Level)?)),
    }
}

// What is found at a point of the design.
fn compare_files<C: Cabinet>(
    alloc: Global,
    design: &Design,
    a: &str,
    b: &str,
    level: Point,
    cabinet: &mut C,
) -> Result<Report, NoReport>
    requires { level.0 < length design.now.lattice }
    ensures { Readies (λ exchanges. (exchanges ≡ []) ⊎ MayFetchBoth a.now b.now exchanges)
        (λ exchanges. Says
        (ComparesAt a.now b.now (design_of design.now) level exchanges)) C.tells
        (files_by C.exchanges C.held C.fetch_faults C.store_faults cabinet.old)
        (files_by C.exchanges C.held C.fetch_faults C.store_faults cabinet.new) result }
{
    match fetch_once(alloc, a, LARGEST_STIMULUS, cabinet) {
        Ok(first) => compare_second(alloc, design, &first, b, level, cabinet),
        Err(FetchFault::Long(_)) => Ok(report_of_size(alloc, "A")?),
        Err(FetchFault::Failed) => Err(NoReport::Unread),
        Err(FetchFault::OutOfMemory) => Err(NoReport::OutOfMemory),
    }
}

// The same once the first stimulus is fetched.
fn compare_second<C: Cabinet>(
    alloc: Global,
    design: &Design,
    first: &[u8],
    b: &str,
    level: Point,
    cabinet: &mut C,
) -> Result<Report, NoReport>
    requires level { level.0 < length design.now.lattice }
    requires within { length first.now ≤ largest_compared }
    ensures { (a : List ℕ) → Readies (MayFetchSecond b.now)
        (λ exchanges. Says
        (ComparesSecond first.now a b.now (design_of design.now) level exchanges)) C.tells
        (files_by C.exchanges C.held C.fetch_faults C.store_faults cabinet.old)
        (files_by C.exchanges C.held C.fetch_faults C.store_faults cabinet.new) result }
{
    match fetch_once(alloc, b, LARGEST_STIMULUS, cabinet) {
        Ok(second) => Ok(compare_bytes(alloc, design, first, &second, level)?),
        Err(FetchFault::Long(_)) => Ok(report_of_size(alloc, "B")?),
        Err(FetchFault::Failed) => Err(NoReport::Unread),
        Err(FetchFault::OutOfMemory) => Err(NoReport::OutOfMemory),
    }
}

// That the stimulus file that is so called is too large.
fn report_of_size(alloc: Global, file: &str) -> Result<Report, AllocError>
    ensures { IfOk result (Says (TellsLimit Lines 711 (file.now ∷ []))) }
{
    let name = Name::new(alloc, file.as_bytes())?;
    report_of_limit(
        alloc,
        Style::Lines,
        Rule::StimulusFile,
        vec![in alloc; name]?,
    )
}

// What is found of the bytes of both stimuli.
fn compare_bytes(
    alloc: Global,
    design: &Design,
    first: &[u8],
    second: &[u8],
    level: Point,
) -> Result<Report, AllocError>
    requires level { level.0 < length design.now.lattice }
    requires first { length first.now ≤ largest_compared }
    requires second { length second.now ≤ largest_compared }
    ensures { IfOk result (Says (ComparesStimuli (form_of (design_of design.now))
        (FindsAt (design_of design.now) level) first.now second.now)) }
{
    match compare_stimuli(alloc, design, level, first, second) {
        Ok(found) => Ok(Report {
            outcome: outcome_of_finding(found),
            text: finding_text(alloc, design, found)?,
        }),
        Err(CompareFault::First(line, kind)) => {
            report_of_stimulus(alloc, StimSource::FileA, line, kind)
        }
        Err(CompareFault::Second(line, kind)) => {
            report_of_stimulus(alloc, StimSource::FileB, line, kind)
        }
        Err(CompareFault::OutOfMemory) => Err(AllocError),
    }
}

// The line that tells what is found.
fn finding_text(alloc: Global, design: &Design, found: Compared) -> Result<Vec<u8>, AllocError>
    requires { HasSignal (length design.now.signals.items) (finding found) }
    ensures { IfOk result (λ text. text.items ≡
        finding_text (named (name_in (design_of design.now).signals) (finding found))) }
{
    match found {
        Compared::Equal(cycles) => equal_text(alloc, cycles),
        Compared::InputsDiffer(cycle, signal) => {
            input_text(alloc, cycle, name_of(design, signal))
        }
        Compared::ViewsDiffer(cycle, signal) => view_text(alloc, cycle, name_of(design, signal)),
        Compared::LengthsDiffer(cycles) => lengths_text(alloc, cycles),
    }
}

// The name of a signal.
fn name_of(design: &Design, signal: SigId) -> &[u8]
    requires { signal.0 < length design.now.signals.items }
    ensures { result.now ≡ name_in (design_of design.now).signals signal.0 }
{
    design.signals()[signal.0 as usize].name.bytes()
}
