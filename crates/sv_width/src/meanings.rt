// What names stand for.
ghost use Rattle.std.specs.Prelude.{◌≤◌};

use sv_flat::SigId;
use sv_num::Bits;

/// A signal as an expression knows it: its number, its length of 1 to 64 bits, and its signedness.
#[derive(Clone, Copy, Debug, PartialEq, Eq)]
pub struct KnownSignal {
    pub signal: SigId,
    pub width: u8,
    pub signed: bool,
    pub ghost in_range: { (1 ≤ width) × (width ≤ 64) },
}

/// What a name stands for (IEEE 1364-2005, clause 12.7).
#[derive(Clone, Copy, Debug, PartialEq, Eq)]
pub enum Meaning {
    /// A parameter, with its value.
    Param(Bits),
    /// A signal.
    Signal(KnownSignal),
}
