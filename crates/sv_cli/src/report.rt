// What is answered, and the text that says so.
ghost use Rattle.std.specs.Prelude.{◌≡◌, ◌∷◌, [], Some, IfOk, decimal};
ghost use Rattle.sv_num.specs.Rules.{rule_number};
ghost use Rattle.sv_clause.specs.Logs.{plain_log};
ghost use Rattle.sv_cli.specs.Answer.{answer_of, done, rule_broken, undecided, wrong_proof};
ghost use Rattle.sv_cli.specs.Answer.{misused, stimulus_refused};
ghost use Rattle.sv_cli.specs.Limits.{TellsLimit};
ghost use Rattle.sv_cli.specs.Prepared.{Says};
ghost use Rattle.sv_cli.specs.Text.{usage_text};
ghost use Rattle.sv_cli.specs.Compares.{answer_of_finding};
ghost use Rattle.sv_report.specs.Styles.{accepted_in, refusal_in, unknown_in};
ghost use Rattle.sv_report.specs.Text.{fault_text};
ghost use Rattle.sv_texts.specs.Texts.{stimulus_text};
ghost use Rattle.sv_tworun.specs.Forms.{finding};

use crate::outcome::Outcome;
use crate::text::usage_text;
use std::alloc::{AllocError, Global};
use sv_judge::Spent;
use sv_num::{Name, Refusal, Rule};
use sv_report::{
    Broken, StimSource, Style, accepted_in, fault_text, limit_in, refusal_in, stimulus_text,
    unknown_in,
};
use sv_texts::StimKind;
use sv_tworun::Compared;
use sv_words::UsageKind;

/// An outcome, and all that is to be written with it.
#[derive(Drop)]
pub struct Report {
    pub outcome: Outcome,
    pub text: Vec<u8>,
}

/// Of words that are no command.
pub fn report_of_misuse(alloc: Global, kind: UsageKind) -> Result<Report, AllocError>
    ensures answer { IfOk result (λ report. answer_of report.outcome ≡ Some (misused kind)) }
    ensures text { IfOk result (λ report. report.text.items ≡ usage_text kind) }
{
    let text = usage_text(alloc, kind)?;
    Ok(Report {
        outcome: Outcome::Usage(kind),
        text,
    })
}

/// Of a limit that is exceeded, with the names that go with it.
pub fn report_of_limit(
    alloc: Global,
    style: Style,
    limit: Rule,
    names: Vec<Name>,
) -> Result<Report, AllocError>
    ensures { IfOk result (Says (TellsLimit style (rule_number limit) names.items)) }
{
    let number = limit.number();
    let text = limit_in(alloc, style, number, &names)?;
    Ok(Report {
        outcome: Outcome::Refused(Broken::Limit(number, names)),
        text,
    })
}

/// Of a limit that is exceeded, without names.
pub fn report_of_bare_limit(alloc: Global, style: Style, limit: Rule) -> Result<Report, AllocError>
    ensures { IfOk result (Says (TellsLimit style (rule_number limit) [])) }
{
    report_of_limit(alloc, style, limit, Vec::new(alloc))
}

/// That the encoding of the obligation of this number takes too many variables.
pub fn report_of_large(alloc: Global, style: Style, number: u32) -> Result<Report, AllocError>
    ensures { IfOk result (Says (TellsLimit style 709 (decimal number ∷ []))) }
{
    let name = Name::new(alloc, format!(in alloc; "{number}")?.as_bytes())?;
    report_of_limit(alloc, style, Rule::Encoding, vec![in alloc; name]?)
}

/// Of a broken rule.
pub fn report_of_refusal(
    alloc: Global,
    style: Style,
    refusal: Refusal,
) -> Result<Report, AllocError>
    ensures answer { IfOk result
        (λ report. answer_of report.outcome ≡
        Some (rule_broken refusal.number refusal.place refusal.names.items)) }
    ensures text { IfOk result
        (λ report. report.text.items ≡
        refusal_in style refusal.number refusal.place refusal.names.items) }
{
    let text = refusal_in(alloc, style, &refusal)?;
    Ok(Report {
        outcome: Outcome::Refused(Broken::Rule(refusal)),
        text,
    })
}

/// That so many obligations hold.
pub fn report_of_acceptance(alloc: Global, style: Style, count: u32) -> Result<Report, AllocError>
    ensures answer { IfOk result (λ report. answer_of report.outcome ≡ Some done) }
    ensures text { IfOk result (λ report. report.text.items ≡ accepted_in style count) }
{
    let text = accepted_in(alloc, style, count)?;
    Ok(Report {
        outcome: Outcome::Done,
        text,
    })
}

/// That the budget is spent on an obligation.
pub fn report_of_spent(
    alloc: Global,
    style: Style,
    spent: Spent,
    budget: u32,
) -> Result<Report, AllocError>
    ensures answer { IfOk result (λ report. answer_of report.outcome ≡
        Some (undecided spent.obligation (plain_log spent.log))) }
    ensures text { IfOk result (λ report.
        report.text.items ≡ unknown_in style spent.obligation budget) }
{
    let text = unknown_in(alloc, style, spent.obligation, budget)?;
    Ok(Report {
        outcome: Outcome::Unknown(spent),
        text,
    })
}

/// Of a line of a certificate that is at fault.
pub fn report_of_line(alloc: Global, line: u64) -> Result<Report, AllocError>
    ensures answer { IfOk result (λ report. answer_of report.outcome ≡ Some (wrong_proof line)) }
    ensures text { IfOk result (λ report. report.text.items ≡ fault_text line) }
{
    let text = fault_text(alloc, line)?;
    Ok(Report {
        outcome: Outcome::Refused(Broken::Proof(line)),
        text,
    })
}

/// Of a line of a stimulus file that is wrong.
pub fn report_of_stimulus(
    alloc: Global,
    source: StimSource,
    line: u64,
    kind: StimKind,
) -> Result<Report, AllocError>
    ensures answer { IfOk result
        (λ report. answer_of report.outcome ≡ Some (stimulus_refused source line kind)) }
    ensures text { IfOk result (λ report. report.text.items ≡ stimulus_text source line kind) }
{
    let text = stimulus_text(alloc, source, line, kind)?;
    Ok(Report {
        outcome: Outcome::Refused(Broken::Stimulus(source, line, kind)),
        text,
    })
}

/// What the comparison of two runs comes to.
pub fn outcome_of_finding(found: Compared) -> Outcome
    ensures { answer_of result ≡ Some (answer_of_finding (finding found)) }
{
    match found {
        Compared::Equal(_) => Outcome::Done,
        Compared::InputsDiffer(cycle, signal) => Outcome::Refused(Broken::Input(cycle, signal)),
        Compared::ViewsDiffer(cycle, signal) => Outcome::Refused(Broken::View(cycle, signal)),
        Compared::LengthsDiffer(cycles) => Outcome::Refused(Broken::Lengths(cycles)),
    }
}
