// The texts for machines that name no values.
ghost use Rattle.std.specs.Prelude.{◌≡◌, false, IfOk};
ghost use Rattle.serde_json.specs.View.{view};
ghost use Rattle.serde_json.specs.Written.{has_float};
ghost use Rattle.sv_report.specs.JsonTexts.{accepted_data, refusal_data, limit_data};
ghost use Rattle.sv_report.specs.JsonTexts.{unknown_data, json_line, accepted_json, refusal_json};
ghost use Rattle.sv_report.specs.JsonTexts.{limit_json, unknown_json};

use crate::json_values::names_value;
use serde_json::{Value, json};
use std::alloc::{AllocError, Global};
use sv_num::{Name, Place, Refusal};

/// The line with a value.
pub fn line_of(alloc: Global, value: &Value) -> Result<Vec<u8>, AllocError>
    requires { has_float (view value.now) ≡ false }
    ensures { IfOk result (λ text. text.items ≡ json_line (view value.now)) }
{
    let mut text = value.to_vec(alloc)?;
    text.push(b'\n')?;
    Ok(text)
}

// The object that tells that so many obligations hold.
fn accepted_value(alloc: Global, count: u32) -> Result<Value, AllocError>
    ensures { IfOk result (λ value. view value ≡ accepted_data count) }
{
    json!(in alloc; {"obligations": count, "verdict": "accepted"})
}

/// That so many obligations hold.
pub fn accepted_json(alloc: Global, count: u32) -> Result<Vec<u8>, AllocError>
    ensures { IfOk result (λ text. text.items ≡ accepted_json count) }
{
    line_of(alloc, &accepted_value(alloc, count)?)
}

// The object that tells a broken rule.
fn refusal_value(alloc: Global, refusal: &Refusal) -> Result<Value, AllocError>
    ensures { IfOk result
        (λ value. view value ≡
        refusal_data refusal.now.number refusal.now.place refusal.now.names.items) }
{
    let rule = refusal.number;
    let Place { line, column } = refusal.place;
    let names = names_value(alloc, &refusal.names)?;
    json!(in alloc; {
        "column": column, "line": line, "names": names, "rule": rule, "verdict": "refused"
    })
}

/// A broken rule, where it is broken, and the names that go with it.
pub fn refusal_json(alloc: Global, refusal: &Refusal) -> Result<Vec<u8>, AllocError>
    ensures { IfOk result
        (λ text. text.items ≡
        refusal_json refusal.now.number refusal.now.place refusal.now.names.items) }
{
    line_of(alloc, &refusal_value(alloc, refusal)?)
}

// The object that tells a limit.
fn limit_value(alloc: Global, number: u16, names: &[Name]) -> Result<Value, AllocError>
    ensures { IfOk result (λ value. view value ≡ limit_data number names.now) }
{
    let names = names_value(alloc, names)?;
    json!(in alloc; {"names": names, "rule": number, "verdict": "refused"})
}

/// A limit that is exceeded, and the names that go with it.
pub fn limit_json(alloc: Global, number: u16, names: &[Name]) -> Result<Vec<u8>, AllocError>
    ensures { IfOk result (λ text. text.items ≡ limit_json number names.now) }
{
    line_of(alloc, &limit_value(alloc, number, names)?)
}

// The object that tells that the budget was spent.
fn unknown_value(alloc: Global, obligation: u32, budget: u32) -> Result<Value, AllocError>
    ensures { IfOk result (λ value. view value ≡ unknown_data obligation budget) }
{
    json!(in alloc; {"budget": budget, "obligation": obligation, "verdict": "unknown"})
}

/// That the budget was spent on the obligation of this number.
pub fn unknown_json(alloc: Global, obligation: u32, budget: u32) -> Result<Vec<u8>, AllocError>
    ensures { IfOk result (λ text. text.items ≡ unknown_json obligation budget) }
{
    line_of(alloc, &unknown_value(alloc, obligation, budget)?)
}
