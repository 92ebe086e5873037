// What an assignment changes.
ghost use Rattle.std.specs.Prelude.{◌≡◌, ◌≤◌, ◌<◌, false, min, List, Ok, map};
ghost use Rattle.std.specs.Prelude.{IfOk, IfErr, MatchOption, IsTrue};
ghost use Rattle.std.specs.List.{list_all};
ghost use Rattle.sv_num.specs.Vectors.{number_of as whole_number_of};
ghost use Rattle.sv_ast.specs.Scopes.{width_of};
ghost use Rattle.sv_ast.specs.Shape.{is_shaped_expression, is_shaped_target, is_whole_target};
ghost use Rattle.sv_ast.specs.Values.{natural};
ghost use Rattle.sv_ast.specs.Views.{expression_tree, selection_of, target_tree};
ghost use Rattle.sv_flat.specs.Design.{SignalForm};
ghost use Rattle.sv_flat.specs.Soundness.{statement_sound, is_one_assignment};
ghost use Rattle.sv_flat.specs.Views.{piece_form, flat_statement};
ghost use Rattle.sv_elab_rules.specs.Walks.{each};
ghost use Rattle.sv_elab_rules.specs.ExpressionSteps.{is_below};
ghost use Rattle.sv_elab_rules.specs.Targets.{selection_steps, target_steps, assignment_walk};
ghost use Rattle.sv_width.specs.Agreement.{HaveSignals};
ghost use Rattle.sv_width.specs.Answers.{IsBreach};
ghost use Rattle.sv_width.specs.Scopes.{names_of, bindings_of};
ghost use Rattle.sv_elab_stmt.specs.Targets.{IsSelected, piece_at, IsPart, AreParts, parts_width};
ghost use Rattle.sv_elab_stmt.specs.Targets.{placed};

use crate::parts::TargetPart;
use std::alloc::Global;
use sv_ast::{Expr, Select, Target};
use sv_flat::{FStmt, Piece};
use sv_num::{Bits, Fault, OutOfMemory, Place, Rule};
use sv_width::{
    Meaning, Scope, constant_in_reach, natural, part_inside, refusal, typed, unknown_name,
};

// The bit that an index takes from so many, if it is one of them.
fn bit_inside(width: u8, index: Bits) -> Option<u8>
    ensures { MatchOption result
        (is_below width (whole_number_of index) ≡ false)
        (λ bit. (bit < width) × IsTrue (is_below width (whole_number_of index))
        × (bit ≡ natural (whole_number_of index))) }
{
    let bit = natural(index)?;
    if bit < u64::from(width) {
        Some(bit as u8)
    } else {
        None
    }
}

// The highest and the lowest bit that a target takes from a signal of so many bits. Rule 403
// refuses bits outside of it, or in the wrong order.
fn selected(alloc: Global, target: &Target, width: u8, scope: &Scope) -> Result<(u8, u8), Fault>
    requires known { width ≡ width_of (bindings_of scope.now target.now.name) }
    requires some { 1 ≤ width }
    requires shaped { IsTrue (is_shaped_target (target_tree target.now)) }
    ensures found { IfOk result (λ bits.
        IsSelected (names_of scope.now) (target_tree target.now) bits.0 bits.1) }
    ensures broken { IfErr result
        (IsBreach (selection_steps (names_of scope.now) target.now.name target.now.place
        (selection_of target.now.select)).end) }
{
    match &target.select {
        Select::Whole => Ok((width - 1, 0)),
        Select::Bit(index) => {
            let bits = constant_in_reach(alloc, index, scope)?;
            match bit_inside(width, bits) {
                Some(bit) => Ok((bit, bit)),
                None => Err(refusal(alloc, Rule::BadSelect, index.place())),
            }
        }
        Select::Part(high, low) => {
            let high = constant_in_reach(alloc, high, scope)?;
            let low = constant_in_reach(alloc, low, scope)?;
            match part_inside(width, high, low) {
                Some(bounds) => Ok(bounds),
                None => Err(refusal(alloc, Rule::BadSelect, target.place)),
            }
        }
    }
}

// The part of a signal that a target has. Rules 401 and 403 to 408 refuse it.
fn part_of(alloc: Global, target: &Target, scope: &Scope) -> Result<TargetPart, Fault>
    requires { IsTrue (is_shaped_target (target_tree target.now)) }
    ensures found { IfOk result (IsPart (names_of scope.now) (target_tree target.now)) }
    ensures broken { IfErr result
        (IsBreach (target_steps (names_of scope.now) (target_tree target.now)).end) }
{
    match scope.find(&target.name) {
        Some(Meaning::Signal(known)) => {
            let (high, low) = selected(alloc, target, known.width, scope)?;
            Ok(TargetPart {
                signal: known.signal,
                place: target.place,
                high,
                low,
            })
        }
        Some(Meaning::Param(_)) => Err(unknown_name(alloc, &target.name, target.place)),
        None => Err(unknown_name(alloc, &target.name, target.place)),
    }
}

// The parts of all targets, in order.
fn parts_of(alloc: Global, targets: &[Target], scope: &Scope) -> Result<Vec<TargetPart>, Fault>
    requires { IsTrue (list_all is_shaped_target (map target_tree targets.now)) }
    ensures found { IfOk result (λ parts.
        AreParts (names_of scope.now) (map target_tree targets.now) parts.items) }
    ensures broken { IfErr result
        (IsBreach (each (target_steps (names_of scope.now)) (map target_tree targets.now)).end) }
{
    let mut parts = Vec::with_capacity(alloc, targets.len())?;
    for target in targets {
        parts.push(part_of(alloc, target, scope)?)?;
    }
    Ok(parts)
}

// How many bits the parts have together, or `u32::MAX` if it is less.
fn total_width(parts: &[TargetPart]) -> u32
    ensures { result ≡ min (parts_width parts.now) u32.MAX }
{
    let mut total: u32 = 0;
    for part in parts {
        total = total.saturating_add(u32::from(part.width()));
    }
    total
}

// The pieces of a value of as many bits as the parts have together: the last part gets the lowest
// bits.
fn pieces(alloc: Global, parts: &[TargetPart], width: u8) -> Result<Vec<Piece>, OutOfMemory>
    requires { width ≡ parts_width parts.now }
    ensures { IfOk result (λ pieces. map piece_form pieces.items ≡ placed parts.now) }
{
    let mut pieces = Vec::with_capacity(alloc, parts.len())?;
    let mut left = width;
    for part in parts {
        left -= part.width();
        pieces.push(part.piece(left))?;
    }
    Ok(pieces)
}

/// The flat form of an assignment, which has the place of its first target: `=` where it is
/// blocking, else `<=`. Rules 401 to 408 refuse its targets from left to right, then rule 402 more
/// than 64 bits of all targets together, at the place, then rules 401 to 408 its right side (IEEE
/// 1364-2005, clauses 5.4.1, 6.1 and 9.2).
pub fn assignment(
    alloc: Global,
    targets: &[Target],
    place: Place,
    blocking: bool,
    value: &Expr,
    scope: &Scope,
) -> Result<FStmt, Fault>
    requires targets { IsTrue (list_all is_shaped_target (map target_tree targets.now)) }
    requires value { IsTrue (is_shaped_expression (expression_tree value.now)) }
    ensures found { IfOk result (λ f.
        (assignment_walk (names_of scope.now) (map target_tree targets.now) place blocking
        (expression_tree value.now)).end ≡ Ok (flat_statement f)) }
    ensures sound { IfOk result (λ f.
        (signals : List SignalForm) → HaveSignals (names_of scope.now) signals
        → IsTrue (statement_sound signals (flat_statement f))) }
    ensures one { IfOk result (λ f.
        (signals : List SignalForm) → HaveSignals (names_of scope.now) signals
        → IsTrue blocking → IsTrue (list_all is_whole_target (map target_tree targets.now))
        → IsTrue (is_one_assignment signals (flat_statement f))) }
    ensures broken { IfErr result (IsBreach
        (assignment_walk (names_of scope.now) (map target_tree targets.now) place blocking
        (expression_tree value.now)).end) }
{
    let parts = parts_of(alloc, targets, scope)?;
    let width = total_width(&parts);
    if width > 64 {
        return Err(refusal(alloc, Rule::TooWide, place));
    }
    let width = width as u8;
    let value = typed(alloc, value, scope, width)?;
    Ok(FStmt::Assign {
        pieces: pieces(alloc, &parts, width)?,
        place,
        blocking,
        value,
    })
}
