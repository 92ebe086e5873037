// Whether an assignment is one to a signal.
ghost use Rattle.std.specs.Prelude.{◌≡◌, ◌==◌};
ghost use Rattle.std.specs.List.{list_any};
ghost use Rattle.sv_flat.specs.Design.{PieceForm};
ghost use Rattle.sv_obl.specs.Views.{piece_forms};

use sv_flat::{Piece, SigId};

/// Whether some piece is bits of the target.
pub fn is_some_of(target: SigId, pieces: &[Piece]) -> bool
    ensures { result ≡ list_any (λ (piece : PieceForm).
        piece.signal == target.0) (piece_forms pieces.now) }
{
    pieces.iter().any(|piece| piece.signal == target)
}
