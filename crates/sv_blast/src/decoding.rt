// The valuation that values of an encoding's variables spell.
ghost use Rattle.std.specs.Prelude.{◌≡◌, ◌≢◌, ℕ, ◌<◌, ◌≤◌, ◌^◌, ◌==◌, if◌then◌else◌, IsNone};
ghost use Rattle.std.specs.Prelude.{IfSome, All, AllPairs, length, map, slice_index, bit_or};
ghost use Rattle.std.specs.List.Sorted.{IsStrictlyIncreasing};
ghost use Rattle.sv_flat.specs.Views.{design_of};
ghost use Rattle.sv_design.specs.Numbers.{numbers};
ghost use Rattle.sv_gates.specs.Formulas.{value_of};
ghost use Rattle.sv_obl.specs.Valuations.{FitsDesign};
ghost use Rattle.sv_encoding.specs.BothWays.{AreOfOneBit};
ghost use Rattle.sv_encoding.specs.Valuations.{decoded, placed_value};
ghost use Rattle.sv_blast.specs.Coded.{place_form, encoding_of};
ghost use Rattle.sv_blast.specs.Decoded.{IsDecodable, HasSizes, ListsValues};

use crate::coded::{BitPlace, Coded};
use sv_design::Design;
use sv_flat::SigId;
use sv_obl::Valuation;

// The place of a signal among listed ones, which ascend.
fn place_of(listed: &[SigId], signal: SigId) -> Option<usize>
    requires { IsStrictlyIncreasing (numbers listed.now) }
    ensures found { IfSome result (λ at. (at < length listed.now)
        × (slice_index (numbers listed.now) at ≡ signal.0)) }
    ensures absent { IsNone result → (k : ℕ) → k < length listed.now →
        slice_index (numbers listed.now) k ≢ signal.0 }
{
    listed.binary_search_by_key(&signal.0, |s| s.0).ok()
}

// Sets a bit of the value of a signal, where the signal is listed.
fn set_bit(listed: &[SigId], signal: SigId, bit: u8, values: &mut [u64])
    requires ascending { IsStrictlyIncreasing (numbers listed.now) }
    requires count { length values.old ≡ length listed.now }
    requires bit { bit < 64 }
    ensures each { (k : ℕ) → k < length listed.now → slice_index values.new k
        ≡ (if signal.0 == slice_index (numbers listed.now) k
        then bit_or (slice_index values.old k) (2 ^ bit) else slice_index values.old k) }
{
    if let Some(at) = place_of(listed, signal) {
        values[at] |= 1 << bit;
    }
}

// The values of listed signals in a cycle, by the places of their bits; a bit without a place is 0.
fn decode_listed(bits: &[BitPlace], next: bool, listed: &[SigId], values: &[bool], into: &mut [u64])
    requires ascending { IsStrictlyIncreasing (numbers listed.now) }
    requires count { length into.old ≡ length listed.now }
    requires small { All (λ place. place.bit < 64) bits.now }
    requires variables { All (λ place. (1 ≤ place.variable)
        × (place.variable ≤ length values.now)) bits.now }
    requires apart { AllPairs (λ a b. ¬ AreOfOneBit a b) (map place_form bits.now) }
    ensures { into.new ≡ map (placed_value (value_of values.now) (map place_form bits.now) next)
        (numbers listed.now) }
{
    into.fill(0);
    'bits: for place in bits {
        if place.next == next && values[place.variable as usize - 1] {
            set_bit(listed, place.signal, place.bit, into);
        }
    }
}

/// Gives a valuation the values that values of an encoding's variables spell, the first for
/// variable 1, by the places of its bits: each bit by its place, and 0 where it has none. Takes no
/// memory. Who has the whole encoding calls `decode`.
pub fn decode_places(bits: &[BitPlace], design: &Design, values: &[bool], into: &mut Valuation)
    requires bits { IsDecodable (design_of design.now) (length values.now)
        (map place_form bits.now) }
    requires sizes { HasSizes (design_of design.now) into.old }
    ensures decoded { ListsValues (design_of design.now) (decoded (design_of design.now)
        (map place_form bits.now) (value_of values.now)) into.new }
    ensures fits { FitsDesign (design_of design.now) into.new }
{
    let registers = design.registers();
    let inputs = design.inputs();
    decode_listed(bits, false, registers, values, into.regs.as_mut_slice());
    decode_listed(bits, false, inputs, values, into.inputs.as_mut_slice());
    decode_listed(bits, true, inputs, values, into.next_inputs.as_mut_slice());
}

/// Gives a valuation the values that values of an encoding's variables spell, one for each, the
/// first for variable 1: each bit by its place, and 0 where it has none. Takes no memory.
pub fn decode(coded: &Coded, design: &Design, values: &[bool], into: &mut Valuation)
    requires values { length values.now ≡ coded.now.variables }
    requires bits { IsDecodable (design_of design.now) coded.now.variables
        (encoding_of coded.now).bits }
    requires sizes { HasSizes (design_of design.now) into.old }
    ensures decoded { ListsValues (design_of design.now) (decoded (design_of design.now)
        (encoding_of coded.now).bits (value_of values.now)) into.new }
    ensures fits { FitsDesign (design_of design.now) into.new }
{
    decode_places(&coded.bits, design, values, into);
}
