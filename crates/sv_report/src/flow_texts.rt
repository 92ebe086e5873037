// The text of an obligation that fails.
ghost use Rattle.std.specs.Prelude.{◌≡◌, ◌<◌, ◌++◌, length, All, codes, IfOk, OnOk};
ghost use Rattle.sv_flat.specs.ByNumber.{signal_forms};
ghost use Rattle.sv_flat.specs.Views.{design_of};
ghost use Rattle.sv_design.specs.Numbers.{numbers};
ghost use Rattle.sv_obl.specs.DesignQueries.{IsQueryOf};
ghost use Rattle.sv_obl.specs.SignalNames.{name_of};
ghost use Rattle.sv_obl.specs.Validity.{Falsifies};
ghost use Rattle.sv_obl.specs.Valuations.{FitsDesign, valuation_of};
ghost use Rattle.sv_obl.specs.Views.{goal_form, obligation_of};
ghost use Rattle.sv_report.specs.FlowText.{AsksFlow, value_line, value_lines, flow_line};
ghost use Rattle.sv_report.specs.FlowText.{next_lines, IsFlowText};

use crate::reads::{asked_by, first_to_stay};
use std::alloc::{AllocError, Global};
use sv_design::Design;
use sv_flat::{SigId, Signal};
use sv_obl::{Frame, Query, Valuation};

/// The obligation of this number, the first read whose label does not flow, and the values at which
/// it fails: those of the registers, of the inputs, and for the label of a register those of the
/// next inputs. It fails where memory runs out.
pub fn flow_text(
    alloc: Global,
    design: &Design,
    number: u32,
    query: &Query,
    v: &Valuation,
) -> Result<Vec<u8>, AllocError>
    requires query { IsQueryOf (design_of design.now) (obligation_of query.now) }
    requires flow { AsksFlow (goal_form query.now.goal) }
    requires fits { FitsDesign (design_of design.now) v.now }
    requires fails { Falsifies (design_of design.now) (valuation_of (design_of design.now) v.now)
        (obligation_of query.now) }
    ensures { IfOk result (λ text. IsFlowText (design_of design.now) number
        (obligation_of query.now) v.now text.items) }
{
    let asked = asked_by(&query.goal);
    let read = first_to_stay(alloc, design, query, v)?;
    let signals = design.signals();
    let mut text = Vec::new(alloc);
    push_flow_line(&mut text, alloc, signals, number, asked.signal, read)?;
    push_value_lines(
        &mut text,
        alloc,
        signals,
        "reg ",
        design.registers(),
        &v.regs,
    )?;
    push_value_lines(&mut text, alloc, signals, "in ", design.inputs(), &v.inputs)?;
    push_next_lines(&mut text, alloc, design, asked.frame, v)?;
    Ok(text)
}

// Writes something, and then the name of a signal.
fn push_name(
    text: &mut Vec<u8>,
    before: &[u8],
    signals: &[Signal],
    signal: SigId,
) -> Result<(), AllocError>
    requires { signal.0 < length signals.now }
    ensures { OnOk result (text.new.items ≡
        text.old.items ++ before.now ++ name_of (signal_forms signals.now) signal.0) }
{
    text.extend_from_slice(before)?;
    text.extend_from_slice(signals[signal.0 as usize].name.bytes())?;
    Ok(())
}

// Writes the first line.
fn push_flow_line(
    text: &mut Vec<u8>,
    alloc: Global,
    signals: &[Signal],
    number: u32,
    signal: SigId,
    read: SigId,
) -> Result<(), AllocError>
    requires signal { signal.0 < length signals.now }
    requires read { read.0 < length signals.now }
    ensures { OnOk result (text.new.items ≡
        text.old.items ++ flow_line (signal_forms signals.now) number signal.0 read.0) }
{
    let before = format!(in alloc; "refused flow {number} ")?;
    push_name(text, before.as_bytes(), signals, signal)?;
    push_name(text, b" from ", signals, read)?;
    text.push(b'\n')?;
    Ok(())
}

// Writes the line of a signal and its value.
fn push_value_line(
    text: &mut Vec<u8>,
    alloc: Global,
    signals: &[Signal],
    word: &str,
    signal: SigId,
    value: u64,
) -> Result<(), AllocError>
    requires { signal.0 < length signals.now }
    ensures { OnOk result (text.new.items ≡
        text.old.items ++ value_line (signal_forms signals.now) word.now signal.0 value) }
{
    push_name(text, word.as_bytes(), signals, signal)?;
    text.extend_from_slice(format!(in alloc; " {value:x}\n")?.as_bytes())?;
    Ok(())
}

// Writes a line for each listed signal with its value.
fn push_value_lines(
    text: &mut Vec<u8>,
    alloc: Global,
    signals: &[Signal],
    word: &str,
    listed: &[SigId],
    values: &[u64],
) -> Result<(), AllocError>
    requires known { All (λ s. s < length signals.now) (numbers listed.now) }
    requires count { length values.now ≡ length (numbers listed.now) }
    ensures { OnOk result (text.new.items ≡ text.old.items
        ++ value_lines (signal_forms signals.now) word.now (numbers listed.now) values.now) }
{
    for (i, signal) in listed.iter().enumerate() {
        push_value_line(text, alloc, signals, word, *signal, values[i])?;
    }
    Ok(())
}

// Writes the lines of the next inputs, where the label is that of the next cycle.
fn push_next_lines(
    text: &mut Vec<u8>,
    alloc: Global,
    design: &Design,
    frame: Frame,
    v: &Valuation,
) -> Result<(), AllocError>
    requires { FitsDesign (design_of design.now) v.now }
    ensures { OnOk result
        (text.new.items ≡ text.old.items ++ next_lines (design_of design.now) frame v.now) }
{
    match frame {
        Frame::Now => Ok(()),
        Frame::Next => {
            let signals = design.signals();
            let inputs = design.inputs();
            push_value_lines(text, alloc, signals, "next ", inputs, &v.next_inputs)
        }
    }
}
