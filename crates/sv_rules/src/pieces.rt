// Pieces as sets of bits.
ghost use Rattle.std.specs.Prelude.{◌≡◌, ℕ, ◌||◌, OnOk};
ghost use Rattle.std.specs.List.{list_any};
ghost use Rattle.sv_flat.specs.Assigned.{has_bit};
ghost use Rattle.sv_graph.specs.BitSets.{in_bits};
ghost use Rattle.sv_rules.specs.Pieces.{piece_forms, AreOrdered};

use std::alloc::AllocError;
use sv_flat::Piece;
use sv_graph::{BitSet, mask};

/// Puts the bits of pieces into a set.
pub fn add_pieces(set: &mut BitSet, pieces: &[Piece]) -> Result<(), AllocError>
    requires { AreOrdered (piece_forms pieces.now) }
    ensures { OnOk result ((s b : ℕ) →
        in_bits set.new s b ≡
        (in_bits set.old s b || list_any (has_bit s b) (piece_forms pieces.now))) }
{
    for piece in pieces {
        set.add(piece.signal, mask(piece.high, piece.low))?;
    }
    Ok(())
}
