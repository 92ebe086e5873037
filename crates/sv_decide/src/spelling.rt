// The valuation that values of an encoding's variables spell.
ghost use Rattle.std.specs.Prelude.{length, map, IfOk};
ghost use Rattle.sv_flat.specs.Views.{design_of};
ghost use Rattle.sv_gates.specs.Formulas.{value_of};
ghost use Rattle.sv_obl.specs.Valuations.{FitsDesign};
ghost use Rattle.sv_encoding.specs.Valuations.{decoded};
ghost use Rattle.sv_blast.specs.Coded.{place_form};
ghost use Rattle.sv_blast.specs.Decoded.{IsDecodable, HasSizes, ListsValues};

use std::alloc::{AllocError, Global};
use sv_blast::{BitPlace, decode_places};
use sv_design::Design;
use sv_obl::Valuation;

// A value for each register and for each input of both cycles, all of them 0.
fn zeros(alloc: Global, design: &Design) -> Result<Valuation, AllocError>
    ensures { IfOk result (HasSizes (design_of design.now)) }
{
    let registers = design.registers().len();
    let inputs = design.inputs().len();
    Ok(Valuation {
        regs: vec![in alloc; 0; registers]?,
        inputs: vec![in alloc; 0; inputs]?,
        next_inputs: vec![in alloc; 0; inputs]?,
    })
}

/// The values of registers and inputs that values of an encoding's variables spell. An error says
/// that memory ran out.
pub fn spelled(
    alloc: Global,
    design: &Design,
    bits: &[BitPlace],
    values: &[bool],
) -> Result<Valuation, AllocError>
    requires bits { IsDecodable (design_of design.now) (length values.now)
        (map place_form bits.now) }
    ensures spelled { IfOk result (ListsValues (design_of design.now)
        (decoded (design_of design.now) (map place_form bits.now) (value_of values.now))) }
    ensures fits { IfOk result (FitsDesign (design_of design.now)) }
{
    let mut valuation = zeros(alloc, design)?;
    decode_places(bits, design, values, &mut valuation);
    Ok(valuation)
}
