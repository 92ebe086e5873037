// The lists of signals of a design.
ghost use Rattle.std.specs.Prelude.{◌≡◌, ◌&&◌, not, length, IsTrue, IfOk};
ghost use Rattle.sv_flat.specs.Processes.{is_register};
ghost use Rattle.sv_flat.specs.SignalLists.{system_signals, inputs, registers, top_clock};
ghost use Rattle.sv_flat.specs.Soundness.{sound};
ghost use Rattle.sv_flat.specs.Views.{design_of};
ghost use Rattle.sv_rules.specs.DriverTables.{AreClocks};
ghost use Rattle.sv_graph.specs.Marks.{IsTable};
ghost use Rattle.sv_design.specs.Numbers.{numbers, number_if_any};

use std::alloc::{AllocError, Global};
use sv_flat::{Flat, SigId};
use sv_graph::listed;
use sv_rules::is_top;

/// The signals that are no clocks, in order. It fails where memory runs out.
pub fn seen_of(alloc: Global, flat: &Flat, clocks: &[bool]) -> Result<Vec<SigId>, AllocError>
    requires sound { IsTrue (sound (design_of flat.now)) }
    requires clocks { AreClocks (design_of flat.now) clocks.now }
    ensures { IfOk result (λ signals. numbers signals.items ≡ system_signals (design_of flat.now)) }
{
    let mut table = Vec::with_capacity(alloc, clocks.len())?;
    for s in 0..clocks.len() {
        table.push(!clocks[s])?;
    }
    let signals = listed(alloc, &table)?;
    Ok(signals)
}

// Whether a signal is an input of the top module and no clock.
fn is_input(is_top: bool, is_clock: bool) -> bool
    ensures { result ≡ (is_top && not is_clock) }
{
    is_top & !is_clock
}

/// The inputs of the top module that are no clocks, in order. It fails where memory runs out.
pub fn inputs_of(alloc: Global, flat: &Flat, clocks: &[bool]) -> Result<Vec<SigId>, AllocError>
    requires sound { IsTrue (sound (design_of flat.now)) }
    requires clocks { AreClocks (design_of flat.now) clocks.now }
    ensures { IfOk result (λ signals. numbers signals.items ≡ inputs (design_of flat.now)) }
{
    let mut table = Vec::with_capacity(alloc, clocks.len())?;
    for (s, signal) in flat.signals.iter().enumerate() {
        table.push(is_input(is_top(signal.kind), clocks[s]))?;
    }
    let signals = listed(alloc, &table)?;
    Ok(signals)
}

/// The registers, in order. It fails where memory runs out.
pub fn registers_of(alloc: Global, flat: &Flat, table: &[bool]) -> Result<Vec<SigId>, AllocError>
    requires sound { IsTrue (sound (design_of flat.now)) }
    requires table { IsTable (length flat.now.signals.items) table.now
        (is_register (design_of flat.now)) }
    ensures { IfOk result (λ signals. numbers signals.items ≡ registers (design_of flat.now)) }
{
    let signals = listed(alloc, table)?;
    Ok(signals)
}

/// The first clock that is an input of the top module, or None where there is none.
pub fn top_clock(flat: &Flat, clocks: &[bool]) -> Option<SigId>
    requires sound { IsTrue (sound (design_of flat.now)) }
    requires clocks { AreClocks (design_of flat.now) clocks.now }
    ensures { number_if_any result ≡ top_clock (design_of flat.now) }
{
    let found = flat
        .signals
        .iter()
        .zip(clocks)
        .position(|(signal, is_clock)| *is_clock & is_top(signal.kind));
    match found {
        Some(place) => Some(SigId(place as u32)),
        None => None,
    }
}
