// How many gates the word takes that a process with an earlier read gives a signal, up to one over
// the most variables.
ghost use Rattle.std.specs.Prelude.{◌≡◌, ◌+◌, ◌<◌, min, length, map, filter, Some, is_some};
ghost use Rattle.std.specs.Prelude.{IfOk, IsTrue};
ghost use Rattle.std.specs.Prelude.{if◌then◌else◌};
ghost use Rattle.std.specs.BTreeSet.{IsOrdered};
ghost use Rattle.std.specs.List.{list_any};
ghost use Rattle.std.specs.Ordering.{nat_cmp};
ghost use Rattle.sv_flat.specs.Design.{PieceForm};
ghost use Rattle.sv_flat.specs.SignalLists.{driver_of};
ghost use Rattle.sv_flat.specs.Views.{design_of, piece_form, typed_tree};
ghost use Rattle.sv_graph.specs.Marks.{is_marked};
ghost use Rattle.sv_obl.specs.MarkedBodies.{marked_statement, TellsTargets, IsMarkedFor};
ghost use Rattle.sv_obl.specs.MarkedBodies.{HasCopies};
ghost use Rattle.sv_obl.specs.Wanted.{with_copies};
ghost use Rattle.sv_encoding.specs.Sizes.{expression_size, signal_size, statement_size, truth_size};
ghost use Rattle.sv_encoding.specs.Sizes.{widths_of};
ghost use Rattle.sv_blast.specs.FollowedWords.{forms_in, follows_in, IsFollowed};

use crate::followed::Followed;
use crate::sizes_of_expressions::{expression_size, truth_size, width_of};
use crate::sizes_of_operators::sum;
use std::alloc::{AllocError, Global};
use std::collections::BTreeSet;
use sv_design::Design;
use sv_flat::{FExpr, Piece, SigId};
use sv_graph::has_mark;
use sv_obl::{Bodies, Marked};

impl Followed<'_> {
    // The choices after a branch that assigns these signals: one for each bit of a followed one.
    fn widths(&self, targets: &BTreeSet<u32>) -> u32
        ensures widths { result ≡ min (widths_of (forms_in self.now)
            (filter (is_marked self.now.follows.now) targets.now.keys)) 4194305 }
        ensures ordered { IsOrdered nat_cmp targets.now }
    {
        let mut total = 0;
        for target in targets {
            let target = SigId(*target);
            if has_mark(self.follows, target) {
                total = sum(total, u32::from(width_of(self.signals, target)));
            }
        }
        total
    }

    // A branch that assigns a followed signal, by the size of its first arm.
    fn branch_size(&self, targets: &BTreeSet<u32>, cond: &FExpr, arm: u32) -> u32
        requires held { IsFollowed self.now }
        ensures size { result ≡ min (truth_size (with_copies (forms_in self.now))
            (typed_tree cond.now) + arm + widths_of (forms_in self.now)
            (filter (is_marked self.now.follows.now) targets.now.keys)) 4194305 }
        ensures ordered { IsOrdered nat_cmp targets.now }
    {
        sum(sum(truth_size(self.twice, cond), arm), self.widths(targets))
    }

    // An assignment: its right side, where it assigns a followed signal.
    fn assignment_size(&self, pieces: &[Piece], right: &FExpr) -> u32
        requires held { IsFollowed self.now }
        ensures { result ≡ min (if list_any (λ (piece : PieceForm).
            is_marked self.now.follows.now piece.signal) (map piece_form pieces.now)
            then expression_size (with_copies (forms_in self.now)) (typed_tree right.now)
            else 0) 4194305 }
    {
        if self.has_piece(pieces) {
            expression_size(self.twice, right)
        } else {
            0
        }
    }

    // A statement. What assigns no followed signal is passed over. No call goes down a chain of
    // branches.
    #[cycle(followed_size)]
    fn size(&self, stmt: &Marked) -> u32
        requires held { IsFollowed self.now }
        requires tells { TellsTargets stmt.now }
        ensures { result ≡ min (statement_size (forms_in self.now) (follows_in self.now)
            (marked_statement stmt.now)) 4194305 }
    {
        let mut total = 0;
        let mut rest = stmt;
        'parts: loop {
            match rest {
                Marked::Nothing => return total,
                Marked::Assign { pieces, right, .. } => {
                    return sum(total, self.assignment_size(*pieces, right));
                }
                Marked::Chain {
                    targets,
                    first,
                    second,
                } => {
                    if !self.follows_some(targets) {
                        return total;
                    }
                    total = sum(total, self.size(first));
                    rest = second;
                }
                Marked::Branch {
                    targets,
                    cond,
                    yes,
                    no,
                    ..
                } => {
                    if !self.follows_some(targets) {
                        return total;
                    }
                    let arm = self.size(yes);
                    total = sum(total, self.branch_size(targets, cond, arm));
                    rest = no;
                }
            }
        }
    }
}

/// The gates of the word that its process gives a signal, where the process has this body with its
/// earlier reads wanted. An error says that memory ran out.
pub fn followed_size(
    alloc: Global,
    design: &Design,
    bodies: &Bodies,
    body: &Marked,
    target: SigId,
) -> Result<u32, AllocError>
    requires known { target.0 < length design.now.signals.items }
    requires driven { IsTrue (is_some (driver_of (design_of design.now) target.0)) }
    requires body { IsMarkedFor (design_of design.now) target.0 (Some body) }
    requires copies { HasCopies (design_of design.now) bodies.now }
    ensures { IfOk result (λ size. size ≡
        min (signal_size (design_of design.now) target.0) 4194305) }
{
    let follows = design.follows(alloc, target)?;
    let followed = Followed::new(alloc, design, bodies, &follows, target);
    Ok(followed.size(body))
}
