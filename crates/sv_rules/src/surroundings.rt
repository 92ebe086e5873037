// Bits that are assigned around a statement.
ghost use Rattle.std.specs.Prelude.{◌≡◌, ℕ};
ghost use Rattle.sv_graph.specs.BitSets.{is_set};
ghost use Rattle.sv_rules.specs.Surroundings.{in_surrounding};

use sv_flat::SigId;
use sv_graph::BitSet;

/// Sets of bits: those of a block inside of those around it.
#[derive(Clone, Copy)]
pub enum Surrounding<'a> {
    Nothing,
    Inside(&'a BitSet, &'a Surrounding<'a>),
}

impl<'a> Surrounding<'a> {
    /// The bits of a signal that are in some of the sets.
    pub fn of(&self, signal: SigId) -> u64
        ensures { (b : ℕ) → is_set result b ≡ in_surrounding self.now signal.0 b }
    {
        match self {
            Surrounding::Nothing => 0,
            Surrounding::Inside(bits, around) => bits.of(signal) | around.of(signal),
        }
    }
}
