// Tables that say of each signal whether it is marked.
ghost use Rattle.std.specs.Prelude.{◌≡◌, ℕ, ◌==◌, [], false, filter, length, replicate, IfOk};
ghost use Rattle.sv_flat.specs.Processes.{is_top_kind, is_top_input};
ghost use Rattle.sv_flat.specs.Readings.{names_signal};
ghost use Rattle.sv_flat.specs.Sets.{holds};
ghost use Rattle.sv_flat.specs.Views.{design_of, typed_tree, typed_trees};
ghost use Rattle.sv_design.specs.Designs.{IsDesign};
ghost use Rattle.sv_graph.specs.Marks.{is_marked, Marks};
ghost use Rattle.sv_design.specs.Numbers.{numbers};
ghost use Rattle.sv_blast.specs.NamedMarks.{is_named_in};

use std::alloc::{AllocError, Global};
use sv_design::Design;
use sv_flat::{FExpr, FNode, SigId, SigKind};
use sv_graph::{has_mark, push_if};

/// A table in which no signal of the design is marked. An error says that memory ran out.
pub fn unmarked(alloc: Global, design: &Design) -> Result<Vec<bool>, AllocError>
    ensures table { IfOk result (λ table.
        table.items ≡ replicate (length design.now.signals.items) false) }
    ensures design { IsDesign (design_of design.now) }
{
    vec![in alloc; false; design.signals().len()]
}

// Whether a signal of the kind is an input of the top module.
fn is_top(kind: SigKind) -> bool
    ensures { result ≡ is_top_kind kind }
{
    matches!(kind, SigKind::TopInput)
}

/// A table in which the inputs of the top module are marked. An error says that memory ran out.
pub fn marked_inputs(alloc: Global, design: &Design) -> Result<Vec<bool>, AllocError>
    ensures size { IfOk result (λ table. length table.items ≡ length design.now.signals.items) }
    ensures marked { IfOk result (λ table. (s : ℕ) →
        is_marked table.items s ≡ is_top_input (design_of design.now) s) }
{
    let mut table = Vec::new(alloc);
    for signal in design.signals() {
        table.push(is_top(signal.kind))?;
    }
    Ok(table)
}

/// Marks a signal, where the table is long enough.
pub fn mark(table: &mut [bool], signal: SigId)
    ensures { Marks table.old table.new (λ s. signal.0 == s) }
{
    let number = signal.0 as usize;
    if number < table.len() {
        table[number] = true;
    }
}

/// Marks signals.
pub fn mark_all(table: &mut [bool], signals: &[SigId])
    ensures { Marks table.old table.new (holds (numbers signals.now)) }
{
    for signal in signals {
        mark(table, *signal);
    }
}

/// Marks the signals that an expression names.
#[cycle(mark_names)]
pub fn mark_names(table: &mut [bool], expr: &FExpr)
    ensures { Marks table.old table.new (names_signal [] (typed_tree expr.now)) }
{
    match &expr.node {
        FNode::Number(_) => {}
        FNode::Signal(signal, _) => mark(table, *signal),
        FNode::Bit(signal, _, index) => {
            mark(table, *signal);
            mark_names(table, index);
        }
        FNode::Part(signal, _, _, _) => mark(table, *signal),
        FNode::Unary(_, operand) => mark_names(table, operand),
        FNode::Binary(_, left, right) => {
            mark_names(table, left);
            mark_names(table, right);
        }
        FNode::Choice(_, cond, yes, no) => {
            mark_names(table, cond);
            mark_names(table, yes);
            mark_names(table, no);
        }
        FNode::Join(parts) => mark_all_names(table, parts),
        FNode::Repeat(_, parts) => mark_all_names(table, parts),
        FNode::Held(_, value) => mark_names(table, value),
        FNode::HeldBit(_, _, value, index) => {
            mark_names(table, value);
            mark_names(table, index);
        }
        FNode::HeldPart(_, _, value, _, _) => mark_names(table, value),
        FNode::Mend(_, old, _, _, piece) => {
            mark_names(table, old);
            mark_names(table, piece);
        }
        FNode::Slice(value, _, _) => mark_names(table, value),
    }
}

/// Marks the signals that some expressions name.
#[cycle(mark_names)]
pub fn mark_all_names(table: &mut [bool], exprs: &[FExpr])
    ensures { Marks table.old table.new (is_named_in (typed_trees exprs.now)) }
{
    for expr in exprs {
        mark_names(table, expr);
    }
}

/// Those of the signals that a table has. An error says that memory ran out.
pub fn kept(alloc: Global, table: &[bool], signals: &[SigId]) -> Result<Vec<SigId>, AllocError>
    ensures { IfOk result (λ found.
        numbers found.items ≡ filter (is_marked table.now) (numbers signals.now)) }
{
    let mut found = Vec::new(alloc);
    for signal in signals {
        push_if(has_mark(table, *signal), *signal, &mut found)?;
    }
    Ok(found)
}
