// Names and values of signals as JSON.
ghost use Rattle.std.specs.Prelude.{◌≡◌, ◌<◌, false, All, length, IfOk, OnOk};
ghost use Rattle.std.specs.Fmt.{digits};
ghost use Rattle.std.specs.Str.Lossy.{utf8_lossy};
ghost use Rattle.serde_json.specs.Data.{string, put};
ghost use Rattle.serde_json.specs.View.{view, members_view};
ghost use Rattle.sv_flat.specs.ByNumber.{signal_forms};
ghost use Rattle.sv_flat.specs.SignalLists.{registers, inputs};
ghost use Rattle.sv_flat.specs.Views.{design_of};
ghost use Rattle.sv_design.specs.Numbers.{numbers};
ghost use Rattle.sv_obl.specs.SignalNames.{name_of};
ghost use Rattle.sv_obl.specs.Valuations.{FitsDesign};
ghost use Rattle.sv_report.specs.JsonTexts.{name_data, names_data, values_data, next_data};

use crate::names::name_at;
use serde_json::{Map, Value};
use std::alloc::{AllocError, Global};
use sv_design::Design;
use sv_flat::{SigId, Signal};
use sv_num::Name;
use sv_obl::{Frame, Valuation};

// A name.
fn name_value(alloc: Global, name: &[u8]) -> Result<Value, AllocError>
    ensures { IfOk result (λ value. view value ≡ name_data name.now) }
{
    Ok(Value::String(String::from_utf8_lossy(alloc, name)?))
}

/// A list of names.
pub fn names_value(alloc: Global, names: &[Name]) -> Result<Value, AllocError>
    ensures { IfOk result (λ value. view value ≡ names_data names.now) }
{
    let mut listed = Vec::new(alloc);
    for name in names {
        listed.push(name_value(alloc, name.bytes())?)?;
    }
    Ok(Value::Array(listed))
}

/// The name of a signal.
pub fn signal_value(alloc: Global, design: &Design, signal: SigId) -> Result<Value, AllocError>
    requires { signal.0 < length design.now.signals.items }
    ensures { IfOk result
        (λ value. view value ≡ name_data (name_of (design_of design.now).signals signal.0)) }
{
    name_value(alloc, name_at(design.signals(), signal))
}

// Puts a signal with its value among the members.
fn put_value(
    members: &mut Map<String, Value>,
    alloc: Global,
    signals: &[Signal],
    signal: SigId,
    value: u64,
) -> Result<(), AllocError>
    requires { signal.0 < length signals.now }
    ensures { OnOk result (members_view members.new.entries ≡
        put (utf8_lossy (name_of (signal_forms signals.now) signal.0))
        (string (digits 16 false value)) (members_view members.old.entries)) }
{
    let name = String::from_utf8_lossy(alloc, name_at(signals, signal))?;
    let digits = Value::String(format!(in alloc; "{value:x}")?);
    drop(members.insert(name, digits)?);
    Ok(())
}

// An object that gives each listed signal its value.
fn values_value(
    alloc: Global,
    signals: &[Signal],
    listed: &[SigId],
    values: &[u64],
) -> Result<Value, AllocError>
    requires known { All (λ s. s < length signals.now) (numbers listed.now) }
    requires count { length values.now ≡ length (numbers listed.now) }
    ensures { IfOk result (λ value. view value ≡
        values_data (signal_forms signals.now) (numbers listed.now) values.now) }
{
    let mut members = Map::new(alloc);
    for (i, signal) in listed.iter().enumerate() {
        put_value(&mut members, alloc, signals, *signal, values[i])?;
    }
    Ok(Value::Object(members))
}

/// An object that gives each register its value.
pub fn registers_value(alloc: Global, design: &Design, values: &[u64]) -> Result<Value, AllocError>
    requires { length values.now ≡ length (registers (design_of design.now)) }
    ensures { IfOk result (λ value. view value ≡
        values_data (design_of design.now).signals (registers (design_of design.now)) values.now) }
{
    values_value(alloc, design.signals(), design.registers(), values)
}

/// An object that gives each input its value.
pub fn inputs_value(alloc: Global, design: &Design, values: &[u64]) -> Result<Value, AllocError>
    requires { length values.now ≡ length (inputs (design_of design.now)) }
    ensures { IfOk result (λ value. view value ≡
        values_data (design_of design.now).signals (inputs (design_of design.now)) values.now) }
{
    values_value(alloc, design.signals(), design.inputs(), values)
}

/// An object of the next inputs, which has members only where the label is that of the next cycle.
pub fn next_value(
    alloc: Global,
    design: &Design,
    frame: Frame,
    v: &Valuation,
) -> Result<Value, AllocError>
    requires { FitsDesign (design_of design.now) v.now }
    ensures { IfOk result
        (λ value. view value ≡ next_data (design_of design.now) frame v.now) }
{
    match frame {
        Frame::Now => Ok(Value::Object(Map::new(alloc))),
        Frame::Next => inputs_value(alloc, design, &v.next_inputs),
    }
}
