// The bits that a target has.
ghost use Rattle.std.specs.Prelude.{◌≡◌, ◌≤◌, ◌<◌};

use sv_flat::{Piece, SigId};
use sv_num::Place;

/// The bits of a signal that a target has, from `high` down to `low`, with the place of the
/// target's name.
#[derive(Clone, Copy, Debug)]
pub struct TargetPart {
    pub signal: SigId,
    pub place: Place,
    pub high: u8,
    pub low: u8,
    pub ghost in_order: { (low ≤ high) × (high < 64) },
}

impl TargetPart {
    ghost use Rattle.sv_flat.specs.Views.{piece_form};
    ghost use Rattle.sv_num.specs.Parts.{span_of};
    ghost use Rattle.sv_elab_stmt.specs.Targets.{piece_at};

    /// How many bits there are, 1 to 64.
    pub fn width(self) -> u8
        ensures width { result ≡ span_of self.high self.low }
        ensures few { result ≤ 64 }
    {
        self.high - self.low + 1
    }

    /// The piece of a value that gives these bits its own, from so many up.
    pub fn piece(self, from: u8) -> Piece
        ensures { piece_form result ≡ piece_at from self }
    {
        Piece {
            signal: self.signal,
            place: self.place,
            high: self.high,
            low: self.low,
            from,
        }
    }
}
