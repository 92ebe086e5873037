// The text of a verdict, as lines or as JSON.
ghost use Rattle.std.specs.Prelude.{◌≡◌, IfOk};
ghost use Rattle.sv_flat.specs.Views.{design_of};
ghost use Rattle.sv_obl.specs.DesignQueries.{IsQueryOf};
ghost use Rattle.sv_obl.specs.Validity.{Falsifies};
ghost use Rattle.sv_obl.specs.Valuations.{FitsDesign, valuation_of};
ghost use Rattle.sv_obl.specs.Views.{goal_form, obligation_of};
ghost use Rattle.sv_report.specs.FlowText.{AsksFlow};
ghost use Rattle.sv_report.specs.Styles.{accepted_in, refusal_in, limit_in, unknown_in};
ghost use Rattle.sv_report.specs.Styles.{IsFlowTextIn};

use crate::flow_texts::flow_text;
use crate::json_flows::flow_json;
use crate::json_texts::{accepted_json, limit_json, refusal_json, unknown_json};
use crate::texts::{accepted_text, unknown_text};
use std::alloc::{AllocError, Global};
use sv_design::Design;
use sv_num::{Name, Refusal};
use sv_obl::{Query, Valuation};
use sv_texts::{limit_text, refusal_text};

/// How a verdict is told.
#[derive(Clone, Copy, Debug, PartialEq, Eq)]
pub enum Style {
    /// By lines for a reader.
    Lines,
    /// By one line of JSON for a machine.
    Json,
}

/// That so many obligations hold.
pub fn accepted_in(alloc: Global, style: Style, count: u32) -> Result<Vec<u8>, AllocError>
    ensures { IfOk result (λ text. text.items ≡ accepted_in style count) }
{
    match style {
        Style::Lines => accepted_text(alloc, count),
        Style::Json => accepted_json(alloc, count),
    }
}

/// A broken rule, where it is broken, and the names that go with it.
pub fn refusal_in(alloc: Global, style: Style, refusal: &Refusal) -> Result<Vec<u8>, AllocError>
    ensures { IfOk result
        (λ text. text.items ≡
        refusal_in style refusal.now.number refusal.now.place refusal.now.names.items) }
{
    match style {
        Style::Lines => refusal_text(alloc, refusal),
        Style::Json => refusal_json(alloc, refusal),
    }
}

/// A limit that is exceeded, and the names that go with it.
pub fn limit_in(
    alloc: Global,
    style: Style,
    number: u16,
    names: &[Name],
) -> Result<Vec<u8>, AllocError>
    ensures { IfOk result (λ text. text.items ≡ limit_in style number names.now) }
{
    match style {
        Style::Lines => limit_text(alloc, number, names),
        Style::Json => limit_json(alloc, number, names),
    }
}

/// That the budget was spent on the obligation of this number.
pub fn unknown_in(
    alloc: Global,
    style: Style,
    obligation: u32,
    budget: u32,
) -> Result<Vec<u8>, AllocError>
    ensures { IfOk result (λ text. text.items ≡ unknown_in style obligation budget) }
{
    match style {
        Style::Lines => unknown_text(alloc, obligation, budget),
        Style::Json => unknown_json(alloc, obligation, budget),
    }
}

/// The obligation of this number, the first read whose label does not flow, and the values at which
/// it fails. It fails where memory runs out.
pub fn flow_text_in(
    alloc: Global,
    style: Style,
    design: &Design,
    number: u32,
    query: &Query,
    v: &Valuation,
) -> Result<Vec<u8>, AllocError>
    requires query { IsQueryOf (design_of design.now) (obligation_of query.now) }
    requires flow { AsksFlow (goal_form query.now.goal) }
    requires fits { FitsDesign (design_of design.now) v.now }
    requires fails { Falsifies (design_of design.now) (valuation_of (design_of design.now) v.now)
        (obligation_of query.now) }
    ensures { IfOk result (λ text. IsFlowTextIn style (design_of design.now) number
        (obligation_of query.now) v.now text.items) }
{
    match style {
        Style::Lines => flow_text(alloc, design, number, query, v),
        Style::Json => flow_json(alloc, design, number, query, v),
    }
}
