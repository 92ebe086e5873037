// The lines of `secv list`.
ghost use Rattle.std.specs.Prelude.{◌≡◌, ◌<◌, ◌∷◌, [], ◌++◌, map, length, All, codes, decimal};
ghost use Rattle.std.specs.Prelude.{IfOk, OnOk};
ghost use Rattle.sv_flat.specs.ByNumber.{signal_forms};
ghost use Rattle.sv_flat.specs.Views.{design_of};
ghost use Rattle.sv_obl.specs.DesignQueries.{IsQueryOf, IsPlaced};
ghost use Rattle.sv_paths.specs.ListLines.{blanked, frame_word, step_word};
ghost use Rattle.sv_obl.specs.SignalNames.{name_of};
ghost use Rattle.sv_paths.specs.ListLines.{right_word, goal_words, list_line as line_of};
ghost use Rattle.sv_obl.specs.Obligations.{flow, selector};
ghost use Rattle.sv_obl.specs.Views.{step_form, goal_form, number_of, obligation_of, IsAmong};
ghost use Rattle.sv_paths.specs.Written.{mark_word};

use std::alloc::{AllocError, Global};
use sv_design::Design;
use sv_flat::{Process, SigId, Signal};
use sv_num::Place;
use sv_obl::{Frame, Goal, PathStep, Query};
use sv_texts::push_place;

/// A condition as a line shows it: whether it holds, and its place.
#[derive(Clone, Copy, Debug)]
pub struct StepMark {
    pub truth: bool,
    pub place: Place,
}

/// The obligation of a path as its line shows it: the target and its frame, the conditions, where
/// the path ends in an assignment, and the reads.
#[derive(Clone, Copy)]
pub struct FlowLine<'a> {
    pub target: SigId,
    pub frame: Frame,
    pub marks: &'a [StepMark],
    pub right: Option<Place>,
    pub reads: &'a [SigId],
}

/// A target among the signals of a design, with the process that drives it.
#[derive(Clone, Copy)]
pub struct DrivenTarget<'a> {
    pub signals: &'a [Signal],
    pub process: &'a Process,
    pub target: SigId,
}

/// The line of an obligation of a design, with its number, as `secv list` prints it; an error where
/// memory runs out.
pub fn list_line(
    alloc: Global,
    design: &Design,
    number: u32,
    query: &Query,
) -> Result<Vec<u8>, AllocError>
    requires query { IsQueryOf (design_of design.now) (obligation_of query.now) }
    requires placed { IsPlaced (obligation_of query.now) }
    ensures { IfOk result (λ line.
        line.items ≡ line_of (design_of design.now).signals number (obligation_of query.now)) }
{
    let mut line = Vec::new(alloc);
    push_line(alloc, &mut line, design.signals(), number, query)?;
    Ok(line)
}

/// Adds the line of an obligation, with its number.
pub fn push_line(
    alloc: Global,
    text: &mut Vec<u8>,
    signals: &[Signal],
    number: u32,
    query: &Query,
) -> Result<(), AllocError>
    requires among { IsAmong (length signals.now) (obligation_of query.now) }
    ensures { OnOk result (text.new.items ≡ text.old.items
        ++ line_of (signal_forms signals.now) number (obligation_of query.now)) }
{
    push_number(text, number)?;
    push_goal(alloc, text, signals, query)?;
    text.push(b'\n')?;
    Ok(())
}

// What stands after the number.
fn push_goal(
    alloc: Global,
    line: &mut Vec<u8>,
    signals: &[Signal],
    query: &Query,
) -> Result<(), AllocError>
    requires among { IsAmong (length signals.now) (obligation_of query.now) }
    ensures { OnOk result (line.new.items ≡ line.old.items
        ++ blanked (goal_words (signal_forms signals.now) (obligation_of query.now)
        (goal_form query.now.goal))) }
{
    match &query.goal {
        Goal::Flow { target, frame } => push_query_path(
            alloc, line, signals, *target, *frame, query,
        ),
        Goal::Holds { frame, .. } => push_holds(line, *frame, query.right),
        Goal::Selector { signal } => push_selector(line, signals, *signal, query),
    }
}

fn push_query_path(
    alloc: Global,
    line: &mut Vec<u8>,
    signals: &[Signal],
    target: SigId,
    frame: Frame,
    query: &Query,
) -> Result<(), AllocError>
    requires target { target.0 < length signals.now }
    requires reads { All (λ s. s < length signals.now) (map number_of query.now.reads.items) }
    ensures { OnOk result (line.new.items ≡ line.old.items
        ++ blanked (goal_words (signal_forms signals.now) (obligation_of query.now)
        (flow target.0 frame))) }
{
    let marks = marks_of(alloc, query.path.as_slice())?;
    let flow = FlowLine {
        target,
        frame,
        marks: &marks,
        right: query.right,
        reads: query.reads.as_slice(),
    };
    push_flow(line, signals, flow)
}

// The conditions as a line shows them.
fn marks_of(alloc: Global, steps: &[PathStep]) -> Result<Vec<StepMark>, AllocError>
    ensures { IfOk result (λ marks.
        map mark_word marks.items ≡ map step_word (map step_form steps.now)) }
{
    let mut marks = Vec::with_capacity(alloc, steps.len())?;
    for step in steps {
        marks.push(StepMark {
            truth: step.truth,
            place: step.place,
        })?;
    }
    Ok(marks)
}

/// Adds what stands after the number in the line of a path's obligation.
#[tactic(auto, using(crate::proofs::ListLineFacts::flow_words))]
pub fn push_flow(line: &mut Vec<u8>, signals: &[Signal], flow: FlowLine) -> Result<(), AllocError>
    requires target { flow.target.0 < length signals.now }
    requires reads { All (λ s. s < length signals.now) (map number_of flow.reads.now) }
    ensures { OnOk result (line.new.items ≡ line.old.items
        ++ blanked (name_of (signal_forms signals.now) flow.entry.target.0
        ∷ frame_word flow.entry.frame
        ∷ map mark_word flow.entry.marks.now ++ right_word flow.entry.right
        ∷ codes "reads" ∷ map (name_of (signal_forms signals.now))
        (map number_of flow.entry.reads.now))) }
{
    push_name(line, signals, flow.target)?;
    push_word(line, frame_bytes(flow.frame))?;
    push_marks(line, flow.marks)?;
    push_right(line, flow.right)?;
    push_reads(line, signals, flow.reads)
}

fn push_holds(line: &mut Vec<u8>, frame: Frame, right: Option<Place>) -> Result<(), AllocError>
    ensures { OnOk result (line.new.items ≡
        line.old.items ++ blanked (codes "invariant" ∷ frame_word frame ∷ right_word right ∷ [])) }
{
    push_word(line, b"invariant")?;
    push_word(line, frame_bytes(frame))?;
    push_right(line, right)
}

#[tactic(auto, using(crate::proofs::ListLineFacts::selector_words))]
fn push_selector(
    line: &mut Vec<u8>,
    signals: &[Signal],
    signal: SigId,
    query: &Query,
) -> Result<(), AllocError>
    requires signal { signal.0 < length signals.now }
    requires reads { All (λ s. s < length signals.now) (map number_of query.now.reads.items) }
    ensures { OnOk result (line.new.items ≡ line.old.items
        ++ blanked (goal_words (signal_forms signals.now) (obligation_of query.now)
        (selector signal.0))) }
{
    push_name(line, signals, signal)?;
    push_word(line, b"now")?;
    push_word(line, b"selector")?;
    push_reads(line, signals, query.reads.as_slice())
}

// The word of a frame.
fn frame_bytes(frame: Frame) -> &'static [u8]
    ensures { result.now ≡ frame_word frame }
{
    match frame {
        Frame::Now => b"now",
        Frame::Next => b"next",
    }
}

/// Adds the number of an obligation.
pub fn push_number(line: &mut Vec<u8>, number: u32) -> Result<(), AllocError>
    ensures { OnOk result (line.new.items ≡ line.old.items ++ decimal number) }
{
    sv_texts::push_number(line, u64::from(number))
}

// Adds a blank and a word.
fn push_word(line: &mut Vec<u8>, word: &[u8]) -> Result<(), AllocError>
    ensures { OnOk result (line.new.items ≡ line.old.items ++ codes " " ++ word.now) }
{
    line.push(b' ')?;
    line.extend_from_slice(word)?;
    Ok(())
}

// Adds the name of a signal.
fn push_name(line: &mut Vec<u8>, signals: &[Signal], signal: SigId) -> Result<(), AllocError>
    requires known { signal.0 < length signals.now }
    ensures { OnOk result
        (line.new.items ≡ line.old.items ++ codes " "
        ++ name_of (signal_forms signals.now) signal.0) }
{
    push_word(line, signals[signal.0 as usize].name.bytes())
}

fn push_mark(line: &mut Vec<u8>, mark: StepMark) -> Result<(), AllocError>
    ensures { OnOk result (line.new.items ≡ line.old.items ++ codes " " ++ mark_word mark) }
{
    let sign: &[u8] = if mark.truth { b"+" } else { b"-" };
    push_word(line, sign)?;
    push_place(line, mark.place)?;
    Ok(())
}

fn push_marks(line: &mut Vec<u8>, marks: &[StepMark]) -> Result<(), AllocError>
    ensures { OnOk result
        (line.new.items ≡ line.old.items ++ blanked (map mark_word marks.now)) }
{
    'marks: for mark in marks {
        push_mark(line, *mark)?;
    }
    Ok(())
}

// Adds where the path ends in an assignment, or that the target is held.
fn push_right(line: &mut Vec<u8>, right: Option<Place>) -> Result<(), AllocError>
    ensures { OnOk result (line.new.items ≡ line.old.items ++ codes " " ++ right_word right) }
{
    match right {
        Some(place) => {
            push_word(line, b"=")?;
            push_place(line, place)?;
        }
        None => push_word(line, b"hold")?,
    }
    Ok(())
}

// Adds the word `reads` and the names.
#[tactic(auto, using(crate::proofs::ListLineFacts::known_at))]
fn push_reads(line: &mut Vec<u8>, signals: &[Signal], reads: &[SigId]) -> Result<(), AllocError>
    requires known { All (λ s. s < length signals.now) (map number_of reads.now) }
    ensures { OnOk result (line.new.items ≡ line.old.items
        ++ blanked (codes "reads" ∷ map (name_of (signal_forms signals.now))
        (map number_of reads.now))) }
{
    push_word(line, b"reads")?;
    'reads: for read in reads {
        push_name(line, signals, *read)?;
    }
    Ok(())
}
