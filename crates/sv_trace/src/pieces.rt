// Lines out of pieces.
ghost use Rattle.std.specs.Prelude.{◌≡◌, ℕ, ◌+◌, ◌^◌, ◌<◌, ◌≤◌, List, ◌++◌, length, OnOk, Ok, Err};
ghost use Rattle.std.specs.Prelude.{OnErr, IfErr, IsTrue, if◌then◌else◌};
ghost use Rattle.sv_trace.specs.Reading.{said_of, IsSaid, Lacks, KeepsCycles};
ghost use Rattle.sv_trace.specs.Steps.{IsTooLong, Stands, LineEnded, PieceRead, EndRead};

use crate::faults::StimFault;
use crate::fields::split_first;
use crate::forms::StimulusForm;
use crate::state::{ReaderState, read_line};
use std::alloc::Global;
use sv_texts::StimKind;

// The most bytes of a line before its line feed.
const MAX_LINE: usize = 1_048_576;

/// Reads the lines that end in a piece, the first of them with what is kept of it, and keeps the
/// rest.
pub fn read_piece(
    alloc: Global,
    form: &StimulusForm,
    state: &mut ReaderState,
    kept: &mut Vec<u8>,
    piece: &[u8],
) -> Result<(), StimFault>
    requires said { IsSaid form.now (said_of state.old) }
    requires room { state.old.line + length kept.old.items + length piece.now < 2 ^ 64 }
    requires short { length kept.old.items ≤ 1048576 }
    ensures said { IsSaid form.now (said_of state.new) }
    ensures room { state.new.line + length kept.new.items < 2 ^ 64 }
    ensures short { length kept.new.items ≤ 1048576 }
    ensures start { IsTrue state.old.begun →
        (state.new.start.items ≡ state.old.start.items) × IsTrue state.new.begun }
    ensures cycles { KeepsCycles (said_of state.old) (said_of state.new) }
    ensures read { (bytes : List ℕ) (taken : List (List ℕ)) →
        Stands form.now bytes taken (said_of state.old) kept.old.items →
        PieceRead form.now (bytes ++ piece.now) taken result (said_of state.new) kept.new.items }
{
    let mut left = piece;
    'lines: while let Some(parts) = split_first(left, b'\n') {
        end_line(alloc, form, state, kept, parts.0)?;
        left = parts.1;
    }
    keep(kept, left, state.line)
}

// Reads a line that ends with these bytes.
fn end_line(
    alloc: Global,
    form: &StimulusForm,
    state: &mut ReaderState,
    kept: &mut Vec<u8>,
    line: &[u8],
) -> Result<(), StimFault>
    requires said { IsSaid form.now (said_of state.old) }
    requires room { state.old.line + 1 < 2 ^ 64 }
    requires short { length kept.old.items ≤ 1048576 }
    requires bytes { Lacks 10 line.now }
    ensures said { IsSaid form.now (said_of state.new) }
    ensures next { OnOk result (state.new.line ≡ state.old.line + 1) }
    ensures none { OnOk result (length kept.new.items ≡ 0) }
    ensures same { OnErr result (state.new.line ≡ state.old.line) }
    ensures kept { length kept.new.items ≤ length kept.old.items + length line.now }
    ensures short { length kept.new.items ≤ 1048576 }
    ensures start { IsTrue state.old.begun →
        (state.new.start.items ≡ state.old.start.items) × IsTrue state.new.begun }
    ensures cycles { KeepsCycles (said_of state.old) (said_of state.new) }
    ensures read { (bytes : List ℕ) (taken : List (List ℕ)) →
        Stands form.now bytes taken (said_of state.old) kept.old.items →
        LineEnded form.now bytes line.now taken result (said_of state.new) kept.new.items }
{
    keep(kept, line, state.line)?;
    read_line(alloc, form, state, kept.as_slice())?;
    kept.clear();
    Ok(())
}

// Keeps more of a line, unless it gets too long.
fn keep(kept: &mut Vec<u8>, bytes: &[u8], line: u64) -> Result<(), StimFault>
    ensures kept { OnOk result (kept.new.items ≡ kept.old.items ++ bytes.now) }
    ensures short { OnOk result (length kept.new.items ≤ 1048576) }
    ensures long { IfErr result (IsTooLong line (length kept.old.items + length bytes.now)) }
    ensures same { OnErr result (kept.new.items ≡ kept.old.items) }
{
    if kept.len() + bytes.len() > MAX_LINE {
        return Err(StimFault::Line(line, StimKind::TooLong));
    }
    kept.extend_from_slice(bytes)?;
    Ok(())
}

/// Reads what is kept as the last line, if it has a byte, and asks for the header.
pub fn read_end(
    alloc: Global,
    form: &StimulusForm,
    state: &mut ReaderState,
    kept: &[u8],
) -> Result<(), StimFault>
    requires said { IsSaid form.now (said_of state.old) }
    requires room { state.old.line + length kept.now < 2 ^ 64 }
    requires short { length kept.now ≤ 1048576 }
    ensures said { IsSaid form.now (said_of state.new) }
    ensures line { state.new.line ≤ state.old.line + length kept.now }
    ensures start { IsTrue state.old.begun →
        (state.new.start.items ≡ state.old.start.items) × IsTrue state.new.begun }
    ensures cycles { KeepsCycles (said_of state.old) (said_of state.new) }
    ensures read { (bytes : List ℕ) (taken : List (List ℕ)) →
        Stands form.now bytes taken (said_of state.old) kept.now →
        EndRead form.now bytes taken result (said_of state.new) }
{
    if kept.is_empty() {
        return ask_header(state);
    }
    read_line(alloc, form, state, kept)?;
    ask_header(state)
}

// Whether the header was read; a text that ends before it lacks it in the next line.
fn ask_header(state: &ReaderState) -> Result<(), StimFault>
    ensures { result ≡
        (if state.now.begun then Ok tt else Err (StimFault.Line state.now.line StimKind.Header)) }
{
    if !state.begun {
        return Err(StimFault::Line(state.line, StimKind::Header));
    }
    Ok(())
}
