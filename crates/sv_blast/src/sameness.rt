// Whether expressions are equal.
ghost use Rattle.std.specs.Prelude.{◌≡◌, IsTrue};
ghost use Rattle.sv_flat.specs.Views.{node_tree, typed_tree, typed_trees};

use sv_flat::{FExpr, FNode};

/// Whether two expressions are equal, with the places of the names in them. It ends at the first
/// difference.
// The calls go as deep as the tree.
#[cycle(same_expressions)]
pub fn is_same(one: &FExpr, other: &FExpr) -> bool
    ensures { IsTrue result → typed_tree one.now ≡ typed_tree other.now }
{
    one.width == other.width && one.signed == other.signed && is_same_node(&one.node, &other.node)
}

// The same of two nodes.
#[cycle(same_expressions)]
fn is_same_node(one: &FNode, other: &FNode) -> bool
    ensures { IsTrue result → node_tree one.now ≡ node_tree other.now }
{
    match (one, other) {
        (FNode::Number(number), FNode::Number(its)) => number == its,
        (FNode::Signal(signal, place), FNode::Signal(its, at)) => signal == its && place == at,
        (FNode::Bit(signal, place, index), FNode::Bit(its, at, by)) => {
            signal == its && place == at && is_same(index, by)
        }
        (FNode::Part(signal, place, high, low), FNode::Part(its, at, upper, lower)) => {
            signal == its && place == at && high == upper && low == lower
        }
        (FNode::Unary(op, operand), FNode::Unary(its, of)) => op == its && is_same(operand, of),
        (FNode::Binary(op, left, right), FNode::Binary(its, first, second)) => {
            op == its && is_same(left, first) && is_same(right, second)
        }
        (FNode::Choice(place, cond, yes, no), FNode::Choice(at, when, then, otherwise)) => {
            place == at && is_same(cond, when) && is_same(yes, then) && is_same(no, otherwise)
        }
        (FNode::Join(parts), FNode::Join(its)) => are_same(parts, its),
        (FNode::Repeat(count, parts), FNode::Repeat(times, its)) => {
            count == times && are_same(parts, its)
        }
        (FNode::Held(signal, value), FNode::Held(its, of)) => signal == its && is_same(value, of),
        (FNode::HeldBit(signal, place, value, index), FNode::HeldBit(its, at, of, by)) => {
            signal == its && place == at && is_same(value, of) && is_same(index, by)
        }
        (
            FNode::HeldPart(signal, place, value, high, low),
            FNode::HeldPart(its, at, of, upper, lower),
        ) => { signal == its && place == at && is_same(value, of) && high == upper && low == lower }
        (FNode::Mend(signal, old, high, low, piece), FNode::Mend(its, of, upper, lower, by)) => {
            signal == its && is_same(old, of) && high == upper && low == lower && is_same(piece, by)
        }
        (FNode::Slice(value, high, low), FNode::Slice(its, upper, lower)) => {
            is_same(value, its) && high == upper && low == lower
        }
        _ => false,
    }
}

// The same of as many expressions one by one.
#[cycle(same_expressions)]
fn are_same(ones: &[FExpr], others: &[FExpr]) -> bool
    ensures { IsTrue result → typed_trees ones.now ≡ typed_trees others.now }
{
    if ones.len() != others.len() {
        return false;
    }
    for (one, other) in ones.iter().zip(others) {
        if !is_same(one, other) {
            return false;
        }
    }
    true
}
