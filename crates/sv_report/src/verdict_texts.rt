// The text of any verdict.
ghost use Rattle.std.specs.Prelude.{◌≡◌, IfOk};
ghost use Rattle.std.specs.Option.{option_copied};
ghost use Rattle.sv_report.specs.Verdicts.{IsGivenFailing, IsGivenSignal, HasCause, IsTellable};
ghost use Rattle.sv_report.specs.Verdicts.{IsGivenFlowText, IsRefusalText, given_name};
ghost use Rattle.sv_report.specs.Verdicts.{IsVerdictText};

use crate::flow_texts::flow_text;
use crate::names::name_at;
use crate::texts::{accepted_text, fault_text, input_text, lengths_text, unknown_text, view_text};
use crate::verdicts::{Broken, Verdict};
use std::alloc::{AllocError, Global};
use sv_design::Design;
use sv_flat::SigId;
use sv_obl::{Query, Valuation};
use sv_texts::{limit_text, refusal_text, stimulus_text};

/// The lines that tell a verdict. With an obligation that fails come its design and itself, and
/// with a signal its design. It fails where memory runs out.
pub fn verdict_text(
    alloc: Global,
    design: Option<&Design>,
    query: Option<&Query>,
    verdict: &Verdict,
) -> Result<Vec<u8>, AllocError>
    requires { IsTellable (option_copied design) (option_copied query) verdict.now }
    ensures { IfOk result (λ text.
        IsVerdictText (option_copied design.entry) (option_copied query.entry) verdict.now
        text.items) }
{
    match verdict {
        Verdict::Accepted(count) => accepted_text(alloc, *count),
        Verdict::Refused(broken) => broken_text(alloc, design, query, broken),
        Verdict::Unknown { obligation, budget } => unknown_text(alloc, *obligation, *budget),
    }
}

// The lines that tell why something is refused.
fn broken_text(
    alloc: Global,
    design: Option<&Design>,
    query: Option<&Query>,
    broken: &Broken,
) -> Result<Vec<u8>, AllocError>
    requires { HasCause (option_copied design) (option_copied query) broken.now }
    ensures { IfOk result (λ text.
        IsRefusalText (option_copied design.entry) (option_copied query.entry) broken.now
        text.items) }
{
    match broken {
        Broken::Rule(refusal) => refusal_text(alloc, refusal),
        Broken::Limit(number, names) => limit_text(alloc, *number, names),
        Broken::Fails(number, v) => fails_text(alloc, design, query, *number, v),
        Broken::Proof(line) => fault_text(alloc, *line),
        Broken::Stimulus(source, line, kind) => stimulus_text(alloc, *source, *line, *kind),
        Broken::Input(cycle, signal) => input_text(alloc, *cycle, given_name(design, *signal)),
        Broken::View(cycle, signal) => view_text(alloc, *cycle, given_name(design, *signal)),
        Broken::Lengths(cycles) => lengths_text(alloc, *cycles),
    }
}

// The lines that tell an obligation that fails.
fn fails_text(
    alloc: Global,
    design: Option<&Design>,
    query: Option<&Query>,
    number: u32,
    v: &Valuation,
) -> Result<Vec<u8>, AllocError>
    requires { IsGivenFailing (option_copied design) (option_copied query) v.now }
    ensures { IfOk result (λ text.
        IsGivenFlowText (option_copied design.entry) (option_copied query.entry) number v.now
        text.items) }
{
    let Some(design) = design else { unreachable!() };
    let Some(query) = query else { unreachable!() };
    flow_text(alloc, design, number, query, v)
}

// The name of a signal of the design that is given.
fn given_name(design: Option<&Design>, signal: SigId) -> &[u8]
    requires { IsGivenSignal (option_copied design) signal.0 }
    ensures { result.now ≡ given_name (option_copied design.entry) signal.0 }
{
    let Some(design) = design else { unreachable!() };
    name_at(design.signals(), signal)
}
