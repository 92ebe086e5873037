// Encodings that begin with the words of both frames, and with literals of facts and conditions.
ghost use Rattle.std.specs.Prelude.{◌≡◌};
ghost use Rattle.sv_blast.specs.Framed.{mark_behind};

use crate::coded::BitPlace;
use crate::tables::WordTable;
use sv_flat::{FExpr, SigId};
use sv_gates::{Gates, Literal, Mark};

/// A fact or condition, the literal that says whether it is not 0, and the mark behind the clauses
/// that were made for it.
#[derive(Drop)]
pub struct Truth {
    pub expr: FExpr,
    pub literal: Literal,
    pub mark: Mark,
}

/// An encoding, with what the next one may begin with: the cones, the words that the frames of
/// these cones have, the places of the frames' bits, how many variables they have, and the mark
/// behind the frames' clauses; then the facts and the conditions, in this order.
#[derive(Drop)]
pub struct Framed {
    pub now_cone: Vec<SigId>,
    pub next_cone: Vec<SigId>,
    pub now_words: WordTable,
    pub next_words: WordTable,
    pub bits: Vec<BitPlace>,
    pub size: u32,
    pub mark: Mark,
    pub truths: Vec<Truth>,
    pub gates: Gates,
}

/// The mark behind the last fact or condition, and behind the frames where there is none.
pub fn last_mark(made: &Framed) -> Mark
    ensures { result ≡ mark_behind made.now.mark made.now.truths.items }
{
    match made.truths.last() {
        Some(truth) => truth.mark,
        None => made.mark,
    }
}
