// The text for machines of an obligation that fails.
ghost use Rattle.std.specs.Prelude.{◌≡◌, ◌<◌, length, IfOk};
ghost use Rattle.serde_json.specs.View.{view};
ghost use Rattle.sv_flat.specs.Views.{design_of};
ghost use Rattle.sv_obl.specs.DesignQueries.{IsQueryOf};
ghost use Rattle.sv_obl.specs.Validity.{Falsifies};
ghost use Rattle.sv_obl.specs.Valuations.{FitsDesign, valuation_of};
ghost use Rattle.sv_obl.specs.Views.{goal_form, obligation_of};
ghost use Rattle.sv_report.specs.FlowText.{AsksFlow};
ghost use Rattle.sv_report.specs.JsonTexts.{flow_data, IsFlowJson};

use crate::json_texts::line_of;
use crate::json_values::{inputs_value, next_value, registers_value, signal_value};
use crate::reads::{asked_by, first_to_stay};
use serde_json::{Map, Value, put};
use std::alloc::{AllocError, Global};
use sv_design::Design;
use sv_flat::SigId;
use sv_obl::{Query, Valuation};

/// The obligation of this number, the first read whose label does not flow, and the values at which
/// it fails: those of the registers, of the inputs, and for the label of a register those of the
/// next inputs. It fails where memory runs out.
pub fn flow_json(
    alloc: Global,
    design: &Design,
    number: u32,
    query: &Query,
    v: &Valuation,
) -> Result<Vec<u8>, AllocError>
    requires query { IsQueryOf (design_of design.now) (obligation_of query.now) }
    requires flow { AsksFlow (goal_form query.now.goal) }
    requires fits { FitsDesign (design_of design.now) v.now }
    requires fails { Falsifies (design_of design.now) (valuation_of (design_of design.now) v.now)
        (obligation_of query.now) }
    ensures { IfOk result (λ text. IsFlowJson (design_of design.now) number
        (obligation_of query.now) v.now text.items) }
{
    let read = first_to_stay(alloc, design, query, v)?;
    let value = flow_value(alloc, design, number, query, read, v)?;
    line_of(alloc, &value)
}

// The object that is told.
fn flow_value(
    alloc: Global,
    design: &Design,
    number: u32,
    query: &Query,
    read: SigId,
    v: &Valuation,
) -> Result<Value, AllocError>
    requires query { IsQueryOf (design_of design.now) (obligation_of query.now) }
    requires flow { AsksFlow (goal_form query.now.goal) }
    requires fits { FitsDesign (design_of design.now) v.now }
    requires read { read.0 < length design.now.signals.items }
    ensures { IfOk result (λ value. view value ≡
        flow_data (design_of design.now) number (goal_form query.now.goal) read.0 v.now) }
{
    let asked = asked_by(&query.goal);
    let mut members = Map::new(alloc);
    let from = signal_value(alloc, design, read)?;
    put(&mut members, alloc, "from", from)?;
    let inputs = inputs_value(alloc, design, &v.inputs)?;
    put(&mut members, alloc, "in", inputs)?;
    let next = next_value(alloc, design, asked.frame, v)?;
    put(&mut members, alloc, "next", next)?;
    put(&mut members, alloc, "obligation", Value::from(number))?;
    let regs = registers_value(alloc, design, &v.regs)?;
    put(&mut members, alloc, "reg", regs)?;
    let target = signal_value(alloc, design, asked.signal)?;
    put(&mut members, alloc, "target", target)?;
    let refused = Value::try_from_str(alloc, "refused")?;
    put(&mut members, alloc, "verdict", refused)?;
    Ok(Value::Object(members))
}
