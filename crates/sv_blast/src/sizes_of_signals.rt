// How many gates the words that processes give signals take, up to one over the most variables.
ghost use Rattle.std.specs.Prelude.{◌≡◌, ◌+◌, ◌<◌, min, length, IfOk};
ghost use Rattle.sv_flat.specs.ByNumber.{signal_forms};
ghost use Rattle.sv_flat.specs.Views.{design_of, typed_tree};
ghost use Rattle.sv_obl.specs.BodySlices.{slice_statement};
ghost use Rattle.sv_obl.specs.MarkedBodies.{AreBodiesOf};
ghost use Rattle.sv_encoding.specs.Sizes.{signal_size, truth_size};
ghost use Rattle.sv_blast.specs.ConeSizes.{AreSizes};
ghost use Rattle.sv_blast.specs.SliceSizes.{slice_size};

use crate::followed_sizes::followed_size;
use crate::sizes_of_expressions::{expression_size, truth_size, width_of};
use crate::sizes_of_operators::sum;
use std::alloc::{AllocError, Global};
use sv_design::Design;
use sv_flat::{FExpr, SigId, Signal};
use sv_obl::{Bodies, BodySlice};

// A branch, by its condition and the size of its first arm: the condition, the arm, and the choice
// for each bit.
fn branch_size(signals: &[Signal], width: u8, cond: &FExpr, arm: u32) -> u32
    ensures { result ≡ min (truth_size (signal_forms signals.now) (typed_tree cond.now) + arm
        + width) 4194305 }
{
    sum(sum(truth_size(signals, cond), arm), u32::from(width))
}

// What of a statement matters to a target of a width. No call goes down a chain of arms, since a
// `case` may have many.
fn slice_size(signals: &[Signal], width: u8, slice: &BodySlice) -> u32
    ensures { result ≡ min (slice_size (signal_forms signals.now) width
        (slice_statement slice.now)) 4194305 }
{
    let mut total = 0;
    let mut rest = slice;
    'parts: loop {
        match rest {
            BodySlice::Nothing => return total,
            BodySlice::Assign { value, .. } => return sum(total, expression_size(signals, *value)),
            BodySlice::Chain { first, second } => {
                total = sum(total, slice_size(signals, width, first));
                rest = second;
            }
            BodySlice::Branch { cond, yes, no, .. } => {
                let arm = slice_size(signals, width, yes);
                total = sum(total, branch_size(signals, width, *cond, arm));
                rest = no;
            }
        }
    }
}

// The gates of the word that its process gives a signal, and none where no process assigns it. An
// error says that memory ran out.
fn signal_size(
    alloc: Global,
    design: &Design,
    bodies: &Bodies,
    signal: SigId,
) -> Result<u32, AllocError>
    requires known { signal.0 < length design.now.signals.items }
    requires bodies { AreBodiesOf (design_of design.now) bodies.now }
    ensures { IfOk result (λ size. size ≡
        min (signal_size (design_of design.now) signal.0) 4194305) }
{
    let signals = design.signals();
    if design.driver(signal).is_none() {
        return Ok(0);
    }
    if let Some(body) = bodies.marked(design, signal) {
        return followed_size(alloc, design, bodies, body, signal);
    }
    let slice = bodies.slice(alloc, design, signal)?;
    Ok(slice_size(signals, width_of(signals, signal), &slice))
}

/// The gates of the words that processes give the signals of a design, in signal order. An error
/// says that memory ran out.
pub fn signal_sizes(alloc: Global, design: &Design, bodies: &Bodies) -> Result<Vec<u32>, AllocError>
    requires bodies { AreBodiesOf (design_of design.now) bodies.now }
    ensures { IfOk result (λ sizes. AreSizes (design_of design.now) sizes.items) }
{
    let count = design.signals().len();
    let mut sizes = Vec::with_capacity(alloc, count)?;
    for number in 0..count {
        sizes.push(signal_size(alloc, design, bodies, SigId(number as u32))?)?;
    }
    Ok(sizes)
}
