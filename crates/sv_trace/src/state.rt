// What the lines of a stimulus say, line by line.
ghost use Rattle.std.specs.Prelude.{◌≡◌, ℕ, ◌+◌, ◌^◌, ◌<◌, ◌≤◌, false, List, [], ◌∷◌, ◌++◌, map};
ghost use Rattle.std.specs.Prelude.{length, slice_index_or, OnErr, OnOk, IfErr, IsTrue};
ghost use Rattle.std.specs.Str.Parse.{digits_value};
ghost use Rattle.sv_trace.specs.Reading.{said_of, IsSaid, HaveRead, KeepsCycles};
ghost use Rattle.sv_trace.specs.Steps.{LineRead, IsFaultAt, IsPut, cycle_fault, early_fault};
ghost use Rattle.sv_trace.specs.Stimulus.{words};

use crate::cycles::read_cycle;
use crate::faults::StimFault;
use crate::forms::StimulusForm;
use crate::starts::{read_start, start_rest};
use std::alloc::Global;
use std::collections::VecDeque;
use sv_texts::StimKind;

/// What the lines so far say: whether the header was there, which registers were started and their
/// values, the cycles, and the number of the next line.
#[derive(Drop)]
pub struct ReaderState {
    pub begun: bool,
    pub given: Vec<bool>,
    pub start: Vec<u64>,
    pub cycles: VecDeque<Vec<u64>>,
    pub line: u64,
}

/// Reads a whole line.
pub fn read_line(
    alloc: Global,
    form: &StimulusForm,
    state: &mut ReaderState,
    line: &[u8],
) -> Result<(), StimFault>
    requires said { IsSaid form.now (said_of state.old) }
    requires room { state.old.line + 1 < 2 ^ 64 }
    requires short { length line.now ≤ 1048576 }
    ensures said { IsSaid form.now (said_of state.new) }
    ensures next { OnOk result (state.new.line ≡ state.old.line + 1) }
    ensures same { OnErr result (state.new.line ≡ state.old.line) }
    ensures start { IsTrue state.old.begun →
        (state.new.start.items ≡ state.old.start.items) × IsTrue state.new.begun }
    ensures cycles { KeepsCycles (said_of state.old) (said_of state.new) }
    ensures read { (right taken : List (List ℕ)) →
        HaveRead form.now right taken (said_of state.old) →
        LineRead form.now right taken line.now result (said_of state.new) }
{
    if state.begun {
        return push_cycle(alloc, form, state, line);
    }
    if line == form.header.as_slice() {
        state.begun = true;
        state.line += 1;
        return Ok(());
    }
    put_start(form, state, line)
}

// Reads the line of a cycle.
fn push_cycle(
    alloc: Global,
    form: &StimulusForm,
    state: &mut ReaderState,
    line: &[u8],
) -> Result<(), StimFault>
    requires said { IsSaid form.now (said_of state.old) }
    requires room { state.old.line + 1 < 2 ^ 64 }
    ensures said { IsSaid form.now (said_of state.new) }
    ensures right { OnOk result (cycle_fault form.now line.now ≡ None) }
    ensures pushed { OnOk result (said_of state.new ≡ record (said_of state.old) {
      cycles = (said_of state.old).cycles ++ map (digits_value 16) (words line.now) ∷ [];
      line = state.old.line + 1;
    }) }
    ensures wrong { IfErr result (IsFaultAt state.old.line (cycle_fault form.now line.now)) }
    ensures same { OnErr result (said_of state.new ≡ said_of state.old) }
    ensures start { state.new.start.items ≡ state.old.start.items }
    ensures begun { state.new.begun ≡ state.old.begun }
{
    let Some(values) = read_cycle(alloc, form.inputs.as_slice(), line)? else {
        return Err(StimFault::Line(state.line, StimKind::Value));
    };
    state.cycles.push_back(values)?;
    state.line += 1;
    Ok(())
}

// Reads a line before the header.
fn put_start(form: &StimulusForm, state: &mut ReaderState, line: &[u8]) -> Result<(), StimFault>
    requires said { IsSaid form.now (said_of state.old) }
    requires room { state.old.line + 1 < 2 ^ 64 }
    ensures said { IsSaid form.now (said_of state.new) }
    ensures right { OnOk result (early_fault form.now
        (λ k. slice_index_or state.old.given.items k false) line.now ≡ None) }
    ensures put { OnOk result (IsPut form.now.registers line.now (said_of state.old)
        (said_of state.new)) }
    ensures wrong { IfErr result (IsFaultAt state.old.line (early_fault form.now
        (λ k. slice_index_or state.old.given.items k false) line.now)) }
    ensures same { OnErr result (said_of state.new ≡ said_of state.old) }
{
    let Some(rest) = start_rest(line) else {
        return Err(StimFault::Line(state.line, StimKind::Header));
    };
    match read_start(form.registers.as_slice(), state.given.as_slice(), rest) {
        Ok(start) => {
            state.given[start.place] = true;
            state.start[start.place] = start.value;
            state.line += 1;
            Ok(())
        }
        Err(kind) => Err(StimFault::Line(state.line, kind)),
    }
}
