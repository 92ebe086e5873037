// The facts and conditions of an obligation, and the literals that say whether they are not 0.
ghost use Rattle.std.specs.Prelude.{◌≡◌, suc, [], ◌∷◌, ◌++◌, IfOk, OnOk, IsTrue};
ghost use Rattle.std.specs.Prelude.{take, drop, slice_get, option_map};
ghost use Rattle.sv_flat.specs.Views.{typed_tree};
ghost use Rattle.sv_obl.specs.Views.{obligation_of};
ghost use Rattle.sv_encoding.specs.Cones.{conditions_of};
ghost use Rattle.sv_blast.specs.Framed.{AreFirst, literals_of};

use crate::framed::Truth;
use crate::operators::append;
use crate::sameness::is_same;
use std::alloc::{AllocError, Global};
use sv_flat::FExpr;
use sv_gates::Literal;
use sv_obl::Query;

/// The fact or condition at a place: the facts come first.
pub fn asked(query: &Query, place: usize) -> Option<&FExpr>
    ensures { option_map (λ e. typed_tree e.now) result
        ≡ slice_get (conditions_of (obligation_of query.now)) place }
{
    let facts = query.facts.as_slice();
    if place < facts.len() {
        return Some(&facts[place]);
    }
    let path = query.path.as_slice();
    let behind = place - facts.len();
    if behind < path.len() {
        Some(&path[behind].cond)
    } else {
        None
    }
}

// Whether the fact or condition at a place is this expression.
fn asks(query: &Query, place: usize, expr: &FExpr) -> bool
    ensures { IsTrue result → drop place (conditions_of (obligation_of query.now))
        ≡ typed_tree expr.now ∷ drop (suc place) (conditions_of (obligation_of query.now)) }
{
    match asked(query, place) {
        Some(its) => is_same(its, expr),
        None => false,
    }
}

/// With how many of these an obligation's facts and conditions begin.
pub fn same_truths(query: &Query, truths: &[Truth]) -> usize
    ensures { AreFirst (take result truths.now) (conditions_of (obligation_of query.now)) }
{
    'truths: for place in 0..truths.len() {
        if !asks(query, place, &truths[place].expr) {
            return place;
        }
    }
    truths.len()
}

/// Puts one more at the end. An error says that memory ran out.
pub fn add(truths: &mut Vec<Truth>, truth: Truth) -> Result<(), AllocError>
    ensures { OnOk result (truths.new.items ≡ truths.old.items ++ truth ∷ []) }
{
    truths.push(truth)?;
    Ok(())
}

/// The literals. An error says that memory ran out.
pub fn literals(alloc: Global, truths: &[Truth]) -> Result<Vec<Literal>, AllocError>
    ensures { IfOk result (λ literals. literals.items ≡ literals_of truths.now) }
{
    let mut literals = Vec::with_capacity(alloc, truths.len())?;
    for truth in truths {
        append(&mut literals, truth.literal)?;
    }
    Ok(literals)
}
