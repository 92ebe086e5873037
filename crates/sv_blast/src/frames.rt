// The words of a cycle's signals.
ghost use Rattle.std.specs.Prelude.{◌≡◌, ℕ, ◌<◌, OnOk, IsErrOf, IsTrue, All, Contains, length};
ghost use Rattle.sv_flat.specs.Processes.{is_register};
ghost use Rattle.sv_flat.specs.Reads.{is_read_for};
ghost use Rattle.sv_flat.specs.Views.{design_of};
ghost use Rattle.sv_design.specs.Numbers.{numbers};
ghost use Rattle.sv_obl.specs.MarkedBodies.{AreBodiesOf};
ghost use Rattle.sv_gates.specs.Extending.{Begins};
ghost use Rattle.sv_gates.specs.Formulas.{most_variables};
ghost use Rattle.sv_encoding.specs.Encoding.{fresh_words};
ghost use Rattle.sv_blast.specs.Steps.{AreReady, settled_in_turn, next_in_turn};
ghost use Rattle.sv_blast.specs.WordTables.{words_of, StandsOf};

use crate::bodies::settled;
use crate::fan_in::FanIn;
use crate::tables::WordTable;
use std::alloc::Global;
use sv_circuits::fresh;
use sv_design::Design;
use sv_flat::SigId;
use sv_gates::{GateFault, Gates};
use sv_obl::Bodies;

/// Gives each of these signals a word of new variables, one for each bit.
/// `Full` says that variables ran out, `OutOfMemory` that memory did; then some gates may stay.
pub fn make_fresh(
    alloc: Global,
    gates: &mut Gates,
    design: &Design,
    signals: &[SigId],
    words: &mut WordTable,
) -> Result<(), GateFault>
    requires known { All (λ s. s < length design.now.signals.items) (numbers signals.now) }
    ensures made { OnOk result (fresh_words (design_of design.now) (numbers signals.now)
        (words_of words.old) gates.old ≡ (gates.new, words_of words.new)) }
    ensures begins { Begins gates.old gates.new }
    ensures full { IsErrOf result GateFault.Full → most_variables
        < ((fresh_words (design_of design.now) (numbers signals.now) (words_of words.old)
        gates.old).0).variables }
{
    for signal in signals {
        let width = design.signals()[signal.0 as usize].width;
        let word = fresh(alloc, gates, width as usize)?;
        words.put(alloc, *signal, word)?;
    }
    Ok(())
}

/// Gives each of these signals its word, from the words before it.
/// `Full` says that variables ran out, `OutOfMemory` that memory did; then some gates may stay.
pub fn make_settled(
    alloc: Global,
    gates: &mut Gates,
    design: &Design,
    bodies: &Bodies,
    signals: &[SigId],
    words: &mut WordTable,
) -> Result<(), GateFault>
    requires bodies { AreBodiesOf (design_of design.now) bodies.now }
    requires ready { AreReady (design_of design.now)
        (StandsOf (design_of design.now).signals gates.old.variables (words_of words.old))
        (numbers signals.now) }
    ensures made { OnOk result (settled_in_turn (design_of design.now) (numbers signals.now)
        (words_of words.old) gates.old ≡ (gates.new, words_of words.new)) }
    ensures begins { Begins gates.old gates.new }
    ensures full { IsErrOf result GateFault.Full → most_variables
        < ((settled_in_turn (design_of design.now) (numbers signals.now) (words_of words.old)
        gates.old).0).variables }
{
    for signal in signals {
        let fan_in = FanIn {
            design,
            bodies,
            words: &*words,
        };
        let word = settled(alloc, gates, &fan_in, *signal)?;
        words.put(alloc, *signal, word)?;
    }
    Ok(())
}

/// Gives each of these registers its word in the next cycle, from the words of this one.
/// `Full` says that variables ran out, `OutOfMemory` that memory did; then some gates may stay.
pub fn make_next(
    alloc: Global,
    gates: &mut Gates,
    fan_in: &FanIn,
    registers: &[SigId],
    words: &mut WordTable,
) -> Result<(), GateFault>
    requires bodies { AreBodiesOf (design_of fan_in.now.design.now) fan_in.now.bodies.now }
    requires registers { All (λ s. IsTrue (is_register (design_of fan_in.now.design.now) s))
        (numbers registers.now) }
    requires read { (s t : ℕ) → Contains (numbers registers.now) s →
        IsTrue (is_read_for (design_of fan_in.now.design.now) s t) →
        StandsOf (design_of fan_in.now.design.now).signals gates.old.variables
        (words_of fan_in.now.words.now) t }
    ensures made { OnOk result (next_in_turn (design_of fan_in.now.design.now)
        (words_of fan_in.now.words.now) (numbers registers.now) (words_of words.old) gates.old
        ≡ (gates.new, words_of words.new)) }
    ensures begins { Begins gates.old gates.new }
    ensures full { IsErrOf result GateFault.Full → most_variables
        < ((next_in_turn (design_of fan_in.now.design.now) (words_of fan_in.now.words.now)
        (numbers registers.now) (words_of words.old) gates.old).0).variables }
{
    for register in registers {
        let word = settled(alloc, gates, fan_in, *register)?;
        words.put(alloc, *register, word)?;
    }
    Ok(())
}
