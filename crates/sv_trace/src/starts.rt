// The lines that start registers.
ghost use Rattle.std.specs.Prelude.{◌≡◌, ◌^◌, ◌<◌, true, false, length, drop, MatchOption, IfOk};
ghost use Rattle.std.specs.Prelude.{IfSome, slice_index_or};
ghost use Rattle.std.specs.List.{before_first, after_first};
ghost use Rattle.std.specs.Str.Parse.{digits_value};
ghost use Rattle.sv_trace.specs.Stimulus.{is_blank, is_start, width_at, start_fault};
ghost use Rattle.sv_trace.specs.Stimulus.{place_of as place_in};
ghost use Rattle.std.specs.Result.{result_err};

use crate::fields::{read_value, split_first};
use crate::forms::Register;
use sv_texts::StimKind;

/// What follows the word `start` and its blank.
pub fn start_rest(line: &[u8]) -> Option<&[u8]>
    ensures { MatchOption result (is_start line.now ≡ false)
        (λ rest. (is_start line.now ≡ true) × (rest.now ≡ drop 6 line.now)) }
{
    line.strip_prefix(b"start ")
}

// The name up to the next blank, and what follows that blank.
fn name_and_digits(rest: &[u8]) -> (&[u8], &[u8])
    ensures name { result.0.now ≡ before_first is_blank rest.now }
    ensures digits { result.1.now ≡ after_first is_blank rest.now }
{
    match split_first(rest, b' ') {
        Some(parts) => parts,
        None => (rest, &[]),
    }
}

// The place of the register with the name.
fn place_of(registers: &[Register], name: &[u8]) -> Option<usize>
    ensures place { result ≡ place_in registers.now name.now }
    ensures inside { IfSome result (λ place. place < length registers.now) }
{
    registers.iter().position(|r| r.name.bytes() == name)
}

/// A register by its place among the registers, and its starting value.
#[derive(Clone, Copy, Debug)]
pub struct Start {
    pub place: usize,
    pub value: u64,
}

/// The start that follows the word `start`.
pub fn read_start(registers: &[Register], given: &[bool], rest: &[u8]) -> Result<Start, StimKind>
    requires { length given.now ≡ length registers.now }
    ensures place { IfOk result (λ start.
        place_in registers.now (before_first is_blank rest.now) ≡ Some start.place) }
    ensures inside { IfOk result (λ start. start.place < length registers.now) }
    ensures value { IfOk result (λ start.
        start.value ≡ digits_value 16 (after_first is_blank rest.now)) }
    ensures fits { IfOk result (λ start.
        start.value < 2 ^ width_at registers.now start.place) }
    ensures fault { start_fault registers.now (λ k. slice_index_or given.now k false)
        (after_first is_blank rest.now) (place_in registers.now (before_first is_blank rest.now))
        ≡ result_err result }
{
    let (name, digits) = name_and_digits(rest);
    let place = match place_of(registers, name) {
        Some(place) => place,
        None => return Err(StimKind::Name),
    };
    if given[place] {
        return Err(StimKind::Name);
    }
    match read_value(digits, registers[place].width) {
        Some(value) => Ok(Start { place, value }),
        None => Err(StimKind::Value),
    }
}
