// What a stimulus has to know of a design.
ghost use Rattle.std.specs.Prelude.{◌≡◌, ◌<◌, ◌++◌, false, map, flat_map, length, codes, IfOk};
ghost use Rattle.std.specs.Prelude.{All, OnOk};
ghost use Rattle.sv_flat.specs.ByNumber.{signal_forms};
ghost use Rattle.sv_flat.specs.Values.{signal_of, signal_width};
ghost use Rattle.sv_flat.specs.Views.{design_of};
ghost use Rattle.sv_design.specs.Numbers.{numbers};
ghost use Rattle.sv_trace.specs.Forms.{form_of, name_in, register_in};
ghost use Rattle.sv_trace.specs.Stimulus.{is_start};

use std::alloc::{AllocError, Global};
use std::marker::Model;
use sv_design::Design;
use sv_flat::{SigId, Signal};
use sv_num::Name;

/// A register that may start, and its width in bits.
#[derive(Debug, Drop)]
pub struct Register {
    pub name: Name,
    pub width: u8,
}

/// The line before the cycles, the widths of the inputs, and the registers.
#[derive(Debug, Drop)]
pub struct StimulusForm {
    pub header: Vec<u8>,
    pub inputs: Vec<u8>,
    pub registers: Vec<Register>,
}

impl Model for StimulusForm {
    ghost use Rattle.sv_trace.specs.Forms.{StimForm};

    ghost Value = { StimForm };

    ghost view = { λ f. record {
      header = f.header.items;
      inputs = f.inputs.items;
      registers = f.registers.items;
    } };
}

impl StimulusForm {
    /// The form of a design. It fails where memory runs out.
    pub fn new(alloc: Global, design: &Design) -> Result<StimulusForm, AllocError>
        ensures form { IfOk result (λ form. form ≡ form_of (design_of design.now)) }
        ensures plain { IfOk result (λ form. is_start form.header ≡ false) }
    {
        let signals = design.signals();
        let inputs = design.inputs();
        let registers = design.registers();
        Ok(StimulusForm {
            header: header_line(alloc, signals, inputs)?,
            inputs: widths_of(alloc, signals, inputs)?,
            registers: registers_of(alloc, signals, registers)?,
        })
    }
}

fn name_of(signals: &[Signal], s: SigId) -> &[u8]
    requires known { s.0 < length signals.now }
    ensures { result.now ≡ name_in (signal_forms signals.now) s.0 }
{
    signals[s.0 as usize].name.bytes()
}

fn width_of(signals: &[Signal], s: SigId) -> u8
    requires known { s.0 < length signals.now }
    ensures { result ≡ signal_width (signal_forms signals.now) s.0 }
{
    signals[s.0 as usize].width
}

fn register_of(alloc: Global, signals: &[Signal], s: SigId) -> Result<Register, AllocError>
    requires known { s.0 < length signals.now }
    ensures { IfOk result (λ register. register ≡ register_in (signal_forms signals.now) s.0) }
{
    Ok(Register {
        name: Name::new(alloc, name_of(signals, s))?,
        width: width_of(signals, s),
    })
}

// The word `inputs` and the names.
#[tactic(auto, using(crate::proofs::FormFacts::known_at))]
fn header_line(alloc: Global, signals: &[Signal], inputs: &[SigId]) -> Result<Vec<u8>, AllocError>
    requires known { All (λ s. s < length signals.now) (numbers inputs.now) }
    ensures { IfOk result (λ line. line.items ≡ codes "inputs"
        ++ flat_map (λ s. codes " " ++ name_in (signal_forms signals.now) s) (numbers inputs.now)) }
{
    let mut line = Vec::from_slice(alloc, b"inputs")?;
    'inputs: for input in inputs {
        push_word(&mut line, name_of(signals, *input))?;
    }
    Ok(line)
}

// A blank and a word.
fn push_word(line: &mut Vec<u8>, word: &[u8]) -> Result<(), AllocError>
    ensures { OnOk result (line.new.items ≡ line.old.items ++ (codes " " ++ word.now)) }
{
    line.push(b' ')?;
    line.extend_from_slice(word)?;
    Ok(())
}

#[tactic(auto, using(crate::proofs::FormFacts::known_at))]
fn widths_of(alloc: Global, signals: &[Signal], listed: &[SigId]) -> Result<Vec<u8>, AllocError>
    requires known { All (λ s. s < length signals.now) (numbers listed.now) }
    ensures { IfOk result (λ widths. widths.items ≡
        map (signal_width (signal_forms signals.now)) (numbers listed.now)) }
{
    let mut widths = Vec::with_capacity(alloc, listed.len())?;
    'listed: for s in listed {
        widths.push(width_of(signals, *s))?;
    }
    Ok(widths)
}

#[tactic(auto, using(crate::proofs::FormFacts::known_at))]
fn registers_of(
    alloc: Global,
    signals: &[Signal],
    listed: &[SigId],
) -> Result<Vec<Register>, AllocError>
    requires known { All (λ s. s < length signals.now) (numbers listed.now) }
    ensures { IfOk result (λ registers. registers.items ≡
        map (register_in (signal_forms signals.now)) (numbers listed.now)) }
{
    let mut registers = Vec::with_capacity(alloc, listed.len())?;
    'listed: for s in listed {
        registers.push(register_of(alloc, signals, *s)?)?;
    }
    Ok(registers)
}
