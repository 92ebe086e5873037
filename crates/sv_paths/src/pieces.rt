// What an assignment does to one signal.
ghost use Rattle.std.specs.Prelude.{◌≡◌, ◌<◌, ◌==◌, length};
ghost use Rattle.sv_flat.specs.ByNumber.{signal_forms};
ghost use Rattle.sv_flat.specs.Soundness.{is_whole};
ghost use Rattle.sv_flat.specs.Values.{signal_of, signal_width};
ghost use Rattle.sv_flat.specs.Views.{piece_form};
ghost use Rattle.sv_obl.specs.Paths.{pieces_of, covers};
ghost use Rattle.sv_obl.specs.Routes.{first_place};
ghost use Rattle.sv_obl.specs.Views.{piece_forms};

use sv_flat::{Piece, SigId, Signal};
use sv_num::Place;

/// The width of a signal, and 0 where there is none.
pub fn width_of(signals: &[Signal], signal: SigId) -> u8
    ensures { result ≡ signal_width (signal_forms signals.now) signal.0 }
{
    match signals.get(signal.0 as usize) {
        Some(known) => known.width,
        None => 0,
    }
}

/// Whether a signal is signed, as none is that is not there.
pub fn is_signed(signals: &[Signal], signal: SigId) -> bool
    ensures { result ≡ (signal_of (signal_forms signals.now) signal.0).signed }
{
    match signals.get(signal.0 as usize) {
        Some(known) => known.signed,
        None => false,
    }
}

/// Whether the piece has all bits of its signal.
pub fn is_whole(signals: &[Signal], piece: &Piece) -> bool
    ensures { result ≡ is_whole (signal_forms signals.now) (piece_form piece.now) }
{
    piece.low == 0 && u32::from(piece.high) + 1 == u32::from(width_of(signals, piece.signal))
}

/// Whether one of the pieces is the whole target.
pub fn covers(signals: &[Signal], target: SigId, pieces: &[Piece]) -> bool
    requires { target.0 < length signals.now }
    ensures { result ≡ covers (signal_forms signals.now) target.0 (piece_forms pieces.now) }
{
    pieces
        .iter()
        .any(|piece| piece.signal == target && is_whole(signals, piece))
}

/// How many of the pieces are bits of the target.
pub fn count_of(target: SigId, pieces: &[Piece]) -> usize
    ensures { result ≡ length (pieces_of target.0 (piece_forms pieces.now)) }
{
    pieces.iter().filter(|piece| piece.signal == target).count()
}

/// The place of the first piece that is bits of the target, where there is one.
pub fn first_place(target: SigId, pieces: &[Piece]) -> Option<Place>
    ensures { result ≡ first_place target.0 (piece_forms pieces.now) }
{
    pieces
        .iter()
        .find(|piece| piece.signal == target)
        .map(|piece| piece.place)
}
