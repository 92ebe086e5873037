// The text of a verdict for machines.
ghost use Rattle.std.specs.Prelude.{IfOk};
ghost use Rattle.std.specs.Option.{option_copied};
ghost use Rattle.sv_report.specs.JsonVerdicts.{IsOfText, HasJson, IsGivenFlowJson};
ghost use Rattle.sv_report.specs.JsonVerdicts.{IsRefusalJson, IsVerdictJson};
ghost use Rattle.sv_report.specs.Verdicts.{IsGivenFailing, HasCause, IsTellable};

use crate::json_flows::flow_json;
use crate::json_texts::{accepted_json, limit_json, refusal_json, unknown_json};
use crate::verdicts::{Broken, Verdict};
use std::alloc::{AllocError, Global};
use sv_design::Design;
use sv_obl::{Query, Valuation};

/// The line of JSON that tells a verdict on a text, and not on a certificate or on two runs. With
/// an obligation that fails come its design and itself. It fails where memory runs out.
pub fn verdict_json(
    alloc: Global,
    design: Option<&Design>,
    query: Option<&Query>,
    verdict: &Verdict,
) -> Result<Vec<u8>, AllocError>
    requires tellable { IsTellable (option_copied design) (option_copied query) verdict.now }
    requires json { HasJson verdict.now }
    ensures { IfOk result (λ text.
        IsVerdictJson (option_copied design.entry) (option_copied query.entry) verdict.now
        text.items) }
{
    match verdict {
        Verdict::Accepted(count) => accepted_json(alloc, *count),
        Verdict::Refused(broken) => broken_json(alloc, design, query, broken),
        Verdict::Unknown { obligation, budget } => unknown_json(alloc, *obligation, *budget),
    }
}

// The line that tells why a text is refused.
fn broken_json(
    alloc: Global,
    design: Option<&Design>,
    query: Option<&Query>,
    broken: &Broken,
) -> Result<Vec<u8>, AllocError>
    requires cause { HasCause (option_copied design) (option_copied query) broken.now }
    requires text { IsOfText broken.now }
    ensures { IfOk result (λ text.
        IsRefusalJson (option_copied design.entry) (option_copied query.entry) broken.now
        text.items) }
{
    match broken {
        Broken::Rule(refusal) => refusal_json(alloc, refusal),
        Broken::Limit(number, names) => limit_json(alloc, *number, names),
        Broken::Fails(number, v) => fails_json(alloc, design, query, *number, v),
        _ => unreachable!(),
    }
}

// The line that tells an obligation that fails.
fn fails_json(
    alloc: Global,
    design: Option<&Design>,
    query: Option<&Query>,
    number: u32,
    v: &Valuation,
) -> Result<Vec<u8>, AllocError>
    requires { IsGivenFailing (option_copied design) (option_copied query) v.now }
    ensures { IfOk result (λ text.
        IsGivenFlowJson (option_copied design.entry) (option_copied query.entry) number v.now
        text.items) }
{
    let Some(design) = design else { unreachable!() };
    let Some(query) = query else { unreachable!() };
    flow_json(alloc, design, number, query, v)
}
