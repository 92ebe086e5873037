// How deep expressions nest.
ghost use Rattle.std.specs.Prelude.{◌≡◌, nat_le};
ghost use Rattle.sv_flat.specs.Views.{typed_tree, typed_trees, node_tree, parts_of};
ghost use Rattle.sv_paths.specs.Levels.{levels, levels_under, levels_of_parts};

use sv_flat::{FExpr, FNode};

/// Whether the expression nests so many levels at most. What is deeper is not walked.
#[cycle(is_within)]
#[tactic(auto, using(crate::proofs::LevelFacts::deeper, crate::proofs::LevelFacts::none_within))]
pub fn is_within(expr: &FExpr, most: u32) -> bool
    ensures { result ≡ nat_le (levels (typed_tree expr.now)) most }
{
    most > 0 && is_node_within(&expr.node, most - 1)
}

#[cycle(is_within)]
#[tactic(auto, using(crate::proofs::LevelFacts::both_within))]
fn is_node_within(node: &FNode, most: u32) -> bool
    ensures { result ≡ nat_le (levels_under (node_tree node.now)) most }
{
    match node {
        FNode::Number(_) => true,
        FNode::Signal(_, _) => true,
        FNode::Bit(_, _, index) => is_within(index, most),
        FNode::Part(_, _, _, _) => true,
        FNode::Unary(_, operand) => is_within(operand, most),
        FNode::Binary(_, left, right) => is_within(left, most) && is_within(right, most),
        FNode::Choice(_, cond, yes, no) => {
            is_within(cond, most) && is_within(yes, most) && is_within(no, most)
        }
        FNode::Join(parts) => are_within(parts, most),
        FNode::Repeat(_, parts) => are_within(parts, most),
        FNode::Held(_, value) => is_within(value, most),
        FNode::HeldBit(_, _, value, index) => is_within(value, most) && is_within(index, most),
        FNode::HeldPart(_, _, value, _, _) => is_within(value, most),
        FNode::Mend(_, old, _, _, piece) => is_within(old, most) && is_within(piece, most),
        FNode::Slice(value, _, _) => is_within(value, most),
    }
}

#[cycle(is_within)]
#[tactic(auto, using(crate::proofs::LevelFacts::both_within))]
fn are_within(parts: &[FExpr], most: u32) -> bool
    ensures { result ≡ nat_le (levels_of_parts (parts_of (typed_trees parts.now))) most }
{
    for part in parts {
        if !is_within(part, most) {
            return false;
        }
    }
    true
}
