// How many variables an encoding has, told before any of it is made; as far as one over the most
// that there may be.
ghost use Rattle.std.specs.Prelude.{◌≡◌, ◌+◌, ◌<◌, ◌||◌, min, sum, map, length, All};
ghost use Rattle.sv_flat.specs.ByNumber.{signal_forms};
ghost use Rattle.sv_flat.specs.Processes.{is_clocked, is_top_input, is_register};
ghost use Rattle.sv_flat.specs.Views.{design_of, process_kind};
ghost use Rattle.sv_design.specs.Numbers.{numbers};
ghost use Rattle.sv_obl.specs.DesignQueries.{IsQueryOf};
ghost use Rattle.sv_obl.specs.Views.{obligation_of};
ghost use Rattle.sv_encoding.specs.Cones.{now_cone, next_cone, conditions_of};
ghost use Rattle.sv_encoding.specs.Sizes.{encoding_size, label_size, label_of_signal, stays_size};
ghost use Rattle.sv_encoding.specs.Sizes.{target_size, violation_size, truth_size};
ghost use Rattle.sv_blast.specs.ConeSizes.{AreSizes, now_size, next_size, now_sizes, next_sizes};
ghost use Rattle.sv_blast.specs.Framed.{frames_size};

use crate::sizes_of_expressions::{conditions_size, truth_size, truths_size, width_of};
use crate::sizes_of_labels::{label_size, labels_size, stays_size};
use crate::sizes_of_operators::sum;
use sv_design::Design;
use sv_flat::{ProcKind, SigId, SigKind, Signal};
use sv_obl::{Goal, Query, know_design};

// ---- cones

// Whether the signal is an input of the top module.
fn is_top_input(design: &Design, signal: SigId) -> bool
    requires { signal.0 < length design.now.signals.items }
    ensures { result ≡ is_top_input (design_of design.now) signal.0 }
{
    matches!(design.signals()[signal.0 as usize].kind, SigKind::TopInput)
}

fn is_clocked(kind: ProcKind) -> bool
    ensures { result ≡ is_clocked (process_kind kind) }
{
    matches!(kind, ProcKind::Clocked(_))
}

// Whether the signal is an input of the top module or a register: the process that drives it tells.
fn is_given(design: &Design, signal: SigId) -> bool
    requires { signal.0 < length design.now.signals.items }
    ensures { result ≡ (is_top_input (design_of design.now) signal.0
        || is_register (design_of design.now) signal.0) }
{
    match design.driver(signal) {
        Some(place) => is_clocked(design.processes()[place].kind),
        None => is_top_input(design, signal),
    }
}

// What a signal takes in this cycle: a variable for each bit where it is given, else its gates.
fn now_size(design: &Design, sizes: &[u32], signal: SigId) -> u32
    requires known { signal.0 < length design.now.signals.items }
    requires sizes { AreSizes (design_of design.now) sizes.now }
    ensures { result ≡ min (now_size (design_of design.now) signal.0) 4194305 }
{
    if is_given(design, signal) {
        u32::from(width_of(design.signals(), signal))
    } else {
        sizes[signal.0 as usize]
    }
}

// What a signal takes in the next cycle: a variable for each bit of an input, else its gates.
fn next_size(design: &Design, sizes: &[u32], signal: SigId) -> u32
    requires known { signal.0 < length design.now.signals.items }
    requires sizes { AreSizes (design_of design.now) sizes.now }
    ensures { result ≡ min (next_size (design_of design.now) signal.0) 4194305 }
{
    if is_top_input(design, signal) {
        u32::from(width_of(design.signals(), signal))
    } else {
        sizes[signal.0 as usize]
    }
}

// What this cycle's cone takes.
fn now_sizes(design: &Design, sizes: &[u32], cone: &[SigId]) -> u32
    requires known { All (λ s. s < length design.now.signals.items) (numbers cone.now) }
    requires sizes { AreSizes (design_of design.now) sizes.now }
    ensures { result ≡ min (now_sizes (design_of design.now) (numbers cone.now)) 4194305 }
{
    let mut total = 0;
    for signal in cone {
        total = sum(total, now_size(design, sizes, *signal));
    }
    total
}

// What the next cycle's cone takes.
fn next_sizes(design: &Design, sizes: &[u32], cone: &[SigId]) -> u32
    requires known { All (λ s. s < length design.now.signals.items) (numbers cone.now) }
    requires sizes { AreSizes (design_of design.now) sizes.now }
    ensures { result ≡ min (next_sizes (design_of design.now) (numbers cone.now)) 4194305 }
{
    let mut total = 0;
    for signal in cone {
        total = sum(total, next_size(design, sizes, *signal));
    }
    total
}

/// What the frames of two cones take, and variable 1, by the sizes of the design's signals;
/// 4,194,305 where that is more than 4,194,304.
pub fn frames_size(design: &Design, sizes: &[u32], now: &[SigId], next: &[SigId]) -> u32
    requires sizes { AreSizes (design_of design.now) sizes.now }
    requires now { All (λ s. s < length design.now.signals.items) (numbers now.now) }
    requires next { All (λ s. s < length design.now.signals.items) (numbers next.now) }
    ensures { result ≡
        min (frames_size (design_of design.now) (numbers now.now) (numbers next.now)) 4194305 }
{
    let here = now_sizes(design, sizes, now);
    let later = next_sizes(design, sizes, next);
    sum(sum(1, here), later)
}

// ---- obligations

// A target's label, and whether some read's label does not flow to it.
fn flow_size(design: &Design, reads: &[SigId], target: SigId) -> u32
    requires known { All (λ s. s < length design.now.signals.items) (numbers reads.now) }
    requires target { target.0 < length design.now.signals.items }
    ensures { result ≡ min (label_size (design_of design.now)
        (label_of_signal (design_of design.now) target.0)
        + stays_size (design_of design.now) (numbers reads.now) target.0) 4194305 }
{
    sum(
        label_size(design, target),
        stays_size(design, reads, target),
    )
}

// The target's label and the violation.
fn goal_size(design: &Design, query: &Query) -> u32
    requires { IsQueryOf (design_of design.now) (obligation_of query.now) }
    ensures { let o = obligation_of query.now in result ≡
        min (target_size (design_of design.now) o.goal
        + violation_size (design_of design.now) o.reads o.goal) 4194305 }
{
    let signals = design.signals();
    match &query.goal {
        Goal::Flow { target, .. } => flow_size(design, &query.reads, *target),
        Goal::Holds { expr, .. } => truth_size(signals, expr),
        Goal::Selector { signal } => flow_size(design, &query.reads, *signal),
    }
}

// The facts and the conditions of the path.
fn asked_size(signals: &[Signal], query: &Query) -> u32
    ensures { result ≡ min (sum (map (truth_size (signal_forms signals.now))
        (conditions_of (obligation_of query.now)))) 4194305 }
{
    sum(
        truths_size(signals, &query.facts),
        conditions_size(signals, &query.path),
    )
}

/// The number of an encoding's variables, where its frames have so many; 4,194,305 where there are
/// more than 4,194,304.
pub fn size_with(design: &Design, query: &Query, frames: u32) -> u32
    requires query { IsQueryOf (design_of design.now) (obligation_of query.now) }
    requires frames { frames ≡ min (frames_size (design_of design.now)
        (now_cone (design_of design.now) (obligation_of query.now))
        (next_cone (design_of design.now) (obligation_of query.now))) 4194305 }
    ensures { result ≡
        min (encoding_size (design_of design.now) (obligation_of query.now)) 4194305 }
{
    let signals = design.signals();
    let labels = labels_size(design, &query.reads);
    let conditions = asked_size(signals, query);
    let goal = goal_size(design, query);
    sum(frames, sum(sum(conditions, labels), goal))
}

/// The number of an encoding's variables, by the sizes of the design's signals and the obligation's
/// cones in this cycle and the next one; 4,194,305 where there are more than 4,194,304.
pub fn encoding_size(
    design: &Design,
    sizes: &[u32],
    query: &Query,
    now: &[SigId],
    next: &[SigId],
) -> u32
    requires sizes { AreSizes (design_of design.now) sizes.now }
    requires query { IsQueryOf (design_of design.now) (obligation_of query.now) }
    requires now { numbers now.now ≡ now_cone (design_of design.now) (obligation_of query.now) }
    requires next { numbers next.now ≡ next_cone (design_of design.now) (obligation_of query.now) }
    ensures { result ≡
        min (encoding_size (design_of design.now) (obligation_of query.now)) 4194305 }
{
    know_design(design);
    let frames = frames_size(design, sizes, now, next);
    size_with(design, query, frames)
}
