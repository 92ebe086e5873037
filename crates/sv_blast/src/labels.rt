// The labels of signals as literals, and whether one does not flow.
ghost use Rattle.std.specs.Prelude.{◌≡◌, ℕ, ◌<◌, ◌≤◌, ◌==◌, ◌++◌, ◌∷◌, [], Contains, All, length};
ghost use Rattle.std.specs.Prelude.{map, IfOk, OnOk, IfSome, IsErrOf};
ghost use Rattle.std.specs.List.{list_any};
ghost use Rattle.sv_lattice.specs.declared.points.Point.{Point};
ghost use Rattle.sv_flat.specs.Views.{design_of};
ghost use Rattle.sv_design.specs.Numbers.{numbers};
ghost use Rattle.sv_gates.specs.Extending.{Begins};
ghost use Rattle.sv_gates.specs.Formulas.{IsLiteral, most_variables};
ghost use Rattle.sv_gates.specs.Gates.{true_literal, and_gate};
ghost use Rattle.sv_circuits.specs.Words.{equals_number_bit};
ghost use Rattle.sv_circuits.specs.Circuits.{IsWord};
ghost use Rattle.sv_encoding.specs.Cones.{label_selectors};
ghost use Rattle.sv_encoding.specs.Labels.{selector_word, point_bit, point_literals};
ghost use Rattle.sv_encoding.specs.Labels.{signal_label, signal_labels, some_stays_bit};
ghost use Rattle.sv_blast.specs.WordTables.{words_of, StandsOf};
ghost use Rattle.sv_blast.specs.LabelViews.{point_form, label_form, AreWithin, AreBelow};
ghost use Rattle.sv_blast.specs.LabelSteps.{points_below, joined_member, chain_with, chain_end};
ghost use Rattle.sv_blast.specs.LabelSteps.{point_stays, label_stays};

use crate::tables::WordTable;
use std::alloc::{AllocError, Global};
use sv_circuits::{BitGate, equal_number, falsity, joined_to, truth};
use sv_design::Design;
use sv_flat::SigId;
use sv_gates::{GateFault, Gates, Literal};
use sv_lattice::{Label, LabelMap, Lattice, Point};

/// A point that a label may be, with the literal that says that it is.
#[derive(Clone, Copy, Debug)]
pub struct PointLiteral {
    pub point: Point,
    pub literal: Literal,
}

// ---- chains

// An OR chain with one more member: a word is this number.
#[tactic(auto, using(sv_gates::proofs::ExtendingLaws::begins_trans))]
fn or_equal(
    gates: &mut Gates,
    chain: Option<Literal>,
    word: &[Literal],
    number: u64,
) -> Result<Literal, GateFault>
    requires chain { IfSome chain (IsLiteral gates.old.variables) }
    requires word { IsWord gates.old.variables word.now }
    ensures made { IfOk result (λ g.
        joined_member chain (equals_number_bit word.now number) gates.old ≡ (gates.new, g)) }
    ensures within { IfOk result (IsLiteral gates.new.variables) }
    ensures begins { Begins gates.old gates.new }
    ensures full { IsErrOf result GateFault.Full → most_variables
        < ((joined_member chain (equals_number_bit word.now number) gates.old).0).variables }
{
    let here = equal_number(gates, word, number)?;
    joined_to(gates, chain, BitGate::Or, here)
}

// An OR chain with one more member: both literals are true.
#[tactic(auto, using(sv_gates::proofs::ExtendingLaws::begins_trans))]
fn or_both(
    gates: &mut Gates,
    chain: Option<Literal>,
    a: Literal,
    b: Literal,
) -> Result<Literal, GateFault>
    requires chain { IfSome chain (IsLiteral gates.old.variables) }
    requires a { IsLiteral gates.old.variables a }
    requires b { IsLiteral gates.old.variables b }
    ensures made { IfOk result (λ g.
        joined_member chain (and_gate a b) gates.old ≡ (gates.new, g)) }
    ensures within { IfOk result (IsLiteral gates.new.variables) }
    ensures begins { Begins gates.old gates.new }
    ensures full { IsErrOf result GateFault.Full
        → most_variables < ((joined_member chain (and_gate a b) gates.old).0).variables }
{
    let both = gates.and_gate(a, b)?;
    joined_to(gates, chain, BitGate::Or, both)
}

// The literal of an OR chain: false where it has no member.
fn chain_end(gates: &Gates, chain: Option<Literal>) -> Literal
    requires { IfSome chain (IsLiteral gates.now.variables) }
    ensures value { result ≡ chain_end chain }
    ensures within { IsLiteral gates.now.variables result }
{
    match chain {
        Some(literal) => literal,
        None => falsity(gates),
    }
}

// ---- one label

// The word that selects a row: the bits of the second selector first.
// An error says that memory ran out.
fn selector_word(
    alloc: Global,
    words: &WordTable,
    first: u32,
    second: Option<u32>,
) -> Result<Vec<Literal>, AllocError>
    ensures { IfOk result (λ word.
        word.items ≡ selector_word (words_of words.now) first second) }
{
    let mut word = Vec::new(alloc);
    if let Some(second) = second {
        word.extend_from_slice(words.word(SigId(second)))?;
    }
    word.extend_from_slice(words.word(SigId(first)))?;
    Ok(word)
}

// The point is one of the rows.
fn has_row(table: &LabelMap, point: Point) -> bool
    ensures { result ≡ list_any (λ (row : Point). row.0 == point.0) table.now.rows }
{
    table.rows().iter().any(|row| row.0 == point.0)
}

// The literal that says whether the selector selects the point.
#[tactic(auto, using(sv_gates::proofs::ExtendingLaws::begins_trans))]
fn point_literal(
    gates: &mut Gates,
    table: &LabelMap,
    selector: &[Literal],
    point: Point,
) -> Result<Literal, GateFault>
    requires { IsWord gates.old.variables selector.now }
    ensures made { IfOk result (λ g.
        point_bit table.now selector.now point.0 gates.old ≡ (gates.new, g)) }
    ensures within { IfOk result (IsLiteral gates.new.variables) }
    ensures begins { Begins gates.old gates.new }
    ensures full { IsErrOf result GateFault.Full
        → most_variables < ((point_bit table.now selector.now point.0 gates.old).0).variables }
{
    let mut chain = None;
    'keys: for (key, row) in table.rows().iter().enumerate() {
        if row.0 != point.0 {
            continue;
        }
        let member = or_equal(gates, chain, selector, key as u64)?;
        chain = Some(member);
    }
    Ok(chain_end(gates, chain))
}

// Puts one more literal at the end.
fn append_literal(
    label: &mut Vec<PointLiteral>,
    point: Point,
    literal: Literal,
) -> Result<(), AllocError>
    ensures { OnOk result (label_form label.new.items
        ≡ label_form label.old.items ++ record { point = point.0; literal = literal } ∷ []) }
{
    label.push(PointLiteral { point, literal })?;
    Ok(())
}

// The literals of the points below a number that are among the rows, in point order.
#[tactic(auto, using(sv_gates::proofs::ExtendingLaws::begins_trans))]
fn point_literals(
    alloc: Global,
    gates: &mut Gates,
    points: u32,
    table: &LabelMap,
    selector: &[Literal],
) -> Result<Vec<PointLiteral>, GateFault>
    requires few { points ≤ 256 }
    requires word { IsWord gates.old.variables selector.now }
    ensures made { IfOk result (λ label. point_literals table.now selector.now
        (points_below points table.now) gates.old ≡ (gates.new, label_form label.items)) }
    ensures within { IfOk result (λ label.
        AreWithin gates.new.variables (label_form label.items)) }
    ensures below { IfOk result (λ label. AreBelow points (label_form label.items)) }
    ensures begins { Begins gates.old gates.new }
    ensures full { IsErrOf result GateFault.Full → most_variables
        < ((point_literals table.now selector.now (points_below points table.now)
        gates.old).0).variables }
{
    let mut label = Vec::new(alloc);
    'points: for number in 0..points {
        let point = Point(number as u8);
        if !has_row(table, point) {
            continue;
        }
        let literal = point_literal(gates, table, selector, point)?;
        append_literal(&mut label, point, literal)?;
    }
    Ok(label)
}

// The label that is always one point.
// An error says that memory ran out.
fn declared_label(
    alloc: Global,
    gates: &Gates,
    point: Point,
) -> Result<Vec<PointLiteral>, AllocError>
    ensures made { IfOk result (λ label. label_form label.items
        ≡ record { point = point.0; literal = true_literal } ∷ []) }
    ensures within { IfOk result (λ label.
        AreWithin gates.now.variables (label_form label.items)) }
{
    let mut label = Vec::new(alloc);
    append_literal(&mut label, point, truth(gates))?;
    Ok(label)
}

/// The literals of a signal's label (SecVerilog, ASPLOS 2015, dependent labels), from the words of
/// its selectors.
/// `Full` says that variables ran out, `OutOfMemory` that memory did; then some gates may stay.
#[tactic(auto, using(sv_gates::proofs::ExtendingLaws::begins_trans))]
pub fn signal_label(
    alloc: Global,
    gates: &mut Gates,
    design: &Design,
    words: &WordTable,
    signal: SigId,
) -> Result<Vec<PointLiteral>, GateFault>
    requires known { signal.0 < length design.now.signals.items }
    requires words { (t : ℕ) → Contains (label_selectors (design_of design.now) signal.0) t →
        StandsOf (design_of design.now).signals gates.old.variables (words_of words.now) t }
    ensures made { IfOk result (λ label. signal_label (design_of design.now) (words_of words.now)
        signal.0 gates.old ≡ (gates.new, label_form label.items)) }
    ensures within { IfOk result (λ label.
        AreWithin gates.new.variables (label_form label.items)) }
    ensures points { IfOk result (λ label.
        All (λ p. p.point.0 < length design.now.lattice) label.items) }
    ensures begins { Begins gates.old gates.new }
    ensures full { IsErrOf result GateFault.Full → most_variables
        < ((signal_label (design_of design.now) (words_of words.now) signal.0
        gates.old).0).variables }
{
    let label = design.signals()[signal.0 as usize].label;
    match label {
        Label::Point(point) => Ok(declared_label(alloc, gates, point)?),
        Label::Table { map, first, second } => {
            let selector = selector_word(alloc, words, first, second)?;
            let table = &design.maps()[map as usize];
            point_literals(alloc, gates, design.lattice().size(), table, &selector)
        }
    }
}

// Puts one more label at the end.
fn append_label(
    labels: &mut Vec<Vec<PointLiteral>>,
    label: Vec<PointLiteral>,
) -> Result<(), AllocError>
    ensures { OnOk result (labels.new.items ≡ labels.old.items ++ label ∷ []) }
{
    labels.push(label)?;
    Ok(())
}

/// The literals of the labels of signals, one after the other.
/// `Full` says that variables ran out, `OutOfMemory` that memory did; then some gates may stay.
#[tactic(auto, using(sv_gates::proofs::ExtendingLaws::begins_trans))]
pub fn signal_labels(
    alloc: Global,
    gates: &mut Gates,
    design: &Design,
    words: &WordTable,
    signals: &[SigId],
) -> Result<Vec<Vec<PointLiteral>>, GateFault>
    requires known { All (λ s. s < length design.now.signals.items) (numbers signals.now) }
    requires words { (s t : ℕ) → Contains (numbers signals.now) s →
        Contains (label_selectors (design_of design.now) s) t →
        StandsOf (design_of design.now).signals gates.old.variables (words_of words.now) t }
    ensures made { IfOk result (λ labels. signal_labels (design_of design.now) (words_of words.now)
        (numbers signals.now) gates.old
        ≡ (gates.new, map (λ label. label_form label.items) labels.items)) }
    ensures within { IfOk result (λ labels. All (AreWithin gates.new.variables)
        (map (λ label. label_form label.items) labels.items)) }
    ensures points { IfOk result (λ labels.
        All (All (λ p. p.point.0 < length design.now.lattice))
        (map (λ label. label.items) labels.items)) }
    ensures begins { Begins gates.old gates.new }
    ensures full { IsErrOf result GateFault.Full → most_variables
        < ((signal_labels (design_of design.now) (words_of words.now) (numbers signals.now)
        gates.old).0).variables }
{
    let mut labels = Vec::with_capacity(alloc, signals.len())?;
    'signals: for signal in signals {
        let label = signal_label(alloc, gates, design, words, *signal)?;
        append_label(&mut labels, label)?;
    }
    Ok(labels)
}

// ---- flows

// An OR chain that goes on with each point of the target that a point does not flow to: the labels
// are both points.
#[tactic(auto, using(sv_gates::proofs::ExtendingLaws::begins_trans))]
fn point_stays(
    gates: &mut Gates,
    lattice: &Lattice,
    chain: Option<Literal>,
    from: PointLiteral,
    target: &[PointLiteral],
) -> Result<Option<Literal>, GateFault>
    requires point { from.point.0 < length lattice.now }
    requires target_points { All (λ p. p.point.0 < length lattice.now) target.now }
    requires chain { IfSome chain (IsLiteral gates.old.variables) }
    requires literal { IsLiteral gates.old.variables from.literal }
    requires target { AreWithin gates.old.variables (label_form target.now) }
    ensures made { IfOk result (λ after. chain_with chain
        (point_stays lattice.now (point_form from) (label_form target.now)) gates.old
        ≡ (gates.new, after)) }
    ensures within { IfOk result (λ after. IfSome after (IsLiteral gates.new.variables)) }
    ensures begins { Begins gates.old gates.new }
    ensures full { IsErrOf result GateFault.Full → most_variables < ((chain_with chain
        (point_stays lattice.now (point_form from) (label_form target.now))
        gates.old).0).variables }
{
    let mut after = chain;
    'targets: for to in target {
        if lattice.flows(from.point, to.point) {
            continue;
        }
        let member = or_both(gates, after, from.literal, to.literal)?;
        after = Some(member);
    }
    Ok(after)
}

// An OR chain that goes on with each point of a label and each of the target that it does not flow
// to.
#[tactic(auto, using(sv_gates::proofs::ExtendingLaws::begins_trans))]
fn label_stays(
    gates: &mut Gates,
    lattice: &Lattice,
    chain: Option<Literal>,
    label: &[PointLiteral],
    target: &[PointLiteral],
) -> Result<Option<Literal>, GateFault>
    requires points { All (λ p. p.point.0 < length lattice.now) label.now }
    requires target_points { All (λ p. p.point.0 < length lattice.now) target.now }
    requires chain { IfSome chain (IsLiteral gates.old.variables) }
    requires label { AreWithin gates.old.variables (label_form label.now) }
    requires target { AreWithin gates.old.variables (label_form target.now) }
    ensures made { IfOk result (λ after. chain_with chain
        (label_stays lattice.now (label_form label.now) (label_form target.now)) gates.old
        ≡ (gates.new, after)) }
    ensures within { IfOk result (λ after. IfSome after (IsLiteral gates.new.variables)) }
    ensures begins { Begins gates.old gates.new }
    ensures full { IsErrOf result GateFault.Full → most_variables < ((chain_with chain
        (label_stays lattice.now (label_form label.now) (label_form target.now))
        gates.old).0).variables }
{
    let mut after = chain;
    'points: for from in label {
        after = point_stays(gates, lattice, after, *from, target)?;
    }
    Ok(after)
}

/// The literal that says whether some label does not flow to the target's.
/// `Full` says that variables ran out, `OutOfMemory` that memory did; then some gates may stay.
#[tactic(auto, using(sv_gates::proofs::ExtendingLaws::begins_trans))]
pub fn some_stays(
    gates: &mut Gates,
    design: &Design,
    labels: &[Vec<PointLiteral>],
    target: &[PointLiteral],
) -> Result<Literal, GateFault>
    requires points { All (All (λ p. p.point.0 < length design.now.lattice))
        (map (λ label. label.items) labels.now) }
    requires target_points { All (λ p. p.point.0 < length design.now.lattice) target.now }
    requires labels { All (AreWithin gates.old.variables)
        (map (λ label. label_form label.items) labels.now) }
    requires target { AreWithin gates.old.variables (label_form target.now) }
    ensures made { IfOk result (λ literal. some_stays_bit (design_of design.now)
        (map (λ label. label_form label.items) labels.now) (label_form target.now) gates.old
        ≡ (gates.new, literal)) }
    ensures within { IfOk result (IsLiteral gates.new.variables) }
    ensures begins { Begins gates.old gates.new }
    ensures full { IsErrOf result GateFault.Full → most_variables
        < ((some_stays_bit (design_of design.now)
        (map (λ label. label_form label.items) labels.now) (label_form target.now)
        gates.old).0).variables }
{
    let mut chain = None;
    'labels: for label in labels {
        chain = label_stays(gates, design.lattice(), chain, label, target)?;
    }
    Ok(chain_end(gates, chain))
}
