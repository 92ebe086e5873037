// The obligations of selectors.
ghost use Rattle.std.specs.Prelude.{◌≡◌, ◌<◌, [], ◌∷◌, ◌++◌, map, length, OnOk, IfOk, All, IsTrue};
ghost use Rattle.std.specs.Prelude.{IfSome, option_to_list, flat_map};
ghost use Rattle.std.specs.List.{list_all};
ghost use Rattle.sv_flat.specs.Soundness.{label_sound};
ghost use Rattle.sv_flat.specs.Processes.{signal_numbers};
ghost use Rattle.sv_flat.specs.Views.{design_of};
ghost use Rattle.sv_design.specs.Designs.{IsDesign};
ghost use Rattle.sv_lattice.specs.Labels.{map_of};
ghost use Rattle.sv_lattice.specs.Tables.{flow_test};
ghost use Rattle.sv_lattice.specs.declared.points.Point.{Point};
ghost use Rattle.sv_paths.specs.Answers.{asked_of, asked_by};
ghost use Rattle.sv_flat.specs.Selectors.{flows_to_rows};
ghost use Rattle.sv_obl.specs.Obligations.{selector_obligation};
ghost use Rattle.sv_obl.specs.Obligations.{selector_obligations};
ghost use Rattle.sv_obl.specs.Views.{obligation_of};

use crate::targets::count_of;
use std::alloc::{AllocError, Global};
use sv_design::Design;
use sv_flat::SigId;
use sv_lattice::{Label, Lattice, Point};
use sv_obl::{Goal, Query};

// Whether the point flows to every row.
fn flows_to_rows(lattice: &Lattice, point: Point, rows: &[Point]) -> bool
    requires point { point.0 < length lattice.now }
    requires rows { All (λ (row : Point). row.0 < length lattice.now) rows.now }
    ensures { result ≡
        list_all (λ (row : Point). flow_test lattice.now point.0 row.0) rows.now }
{
    rows.iter().all(|row| lattice.flows(point, *row))
}

// Whether the label is a point that flows to every row of the map.
fn flows_to_map(design: &Design, label: Label, rows: u32) -> bool
    requires rows { rows < length design.now.maps.items }
    requires label { IsTrue (label_sound (design_of design.now) label) }
    ensures { result ≡ flows_to_rows (design_of design.now).lattice
        (map_of (design_of design.now).maps rows) label }
{
    match label {
        Label::Point(point) => {
            flows_to_rows(design.lattice(), point, design.maps()[rows as usize].rows())
        }
        Label::Table { .. } => false,
    }
}

// The obligation of a selector of the signal's label.
fn selector_query(alloc: Global, signal: SigId, selector: SigId) -> Result<Query, AllocError>
    ensures { IfOk result (λ query.
        obligation_of query ≡ selector_obligation [] signal.0 selector.0) }
{
    let mut reads = Vec::new(alloc);
    reads.push(selector)?;
    Ok(Query {
        facts: Vec::new(alloc),
        path: Vec::new(alloc),
        right: None,
        reads,
        goal: Goal::Selector { signal },
    })
}

// Adds the obligation of a selector by a map, unless it always flows.
fn add_selector(
    alloc: Global,
    design: &Design,
    signal: SigId,
    rows: u32,
    selector: u32,
    queries: &mut Vec<Query>,
) -> Result<(), AllocError>
    requires rows { rows < length design.now.maps.items }
    requires selector { selector < length design.now.signals.items }
    ensures { OnOk result (map obligation_of queries.new.items ≡ map obligation_of queries.old.items
        ++ asked_of (design_of design.now) signal.0 rows (selector ∷ [])) }
{
    let label = design.signals()[selector as usize].label;
    if flows_to_map(design, label, rows) {
        return Ok(());
    }
    queries.push(selector_query(alloc, signal, SigId(selector))?)?;
    Ok(())
}

// The same of the second selector, where there is one.
fn add_second(
    alloc: Global,
    design: &Design,
    signal: SigId,
    rows: u32,
    second: Option<u32>,
    queries: &mut Vec<Query>,
) -> Result<(), AllocError>
    requires rows { rows < length design.now.maps.items }
    requires selector { IfSome second (λ t. t < length design.now.signals.items) }
    ensures { OnOk result (map obligation_of queries.new.items ≡ map obligation_of queries.old.items
        ++ asked_of (design_of design.now) signal.0 rows (option_to_list second)) }
{
    match second {
        Some(second) => add_selector(alloc, design, signal, rows, second, queries),
        None => Ok(()),
    }
}

// Adds the obligations of the selectors of a signal's label.
fn add_of_label(
    alloc: Global,
    design: &Design,
    signal: SigId,
    label: Label,
    queries: &mut Vec<Query>,
) -> Result<(), AllocError>
    requires { IsTrue (label_sound (design_of design.now) label) }
    ensures { OnOk result (map obligation_of queries.new.items ≡ map obligation_of queries.old.items
        ++ asked_by (design_of design.now) signal.0 label) }
{
    match label {
        Label::Point(_) => Ok(()),
        Label::Table { map, first, second } => {
            add_selector(alloc, design, signal, map, first, queries)?;
            add_second(alloc, design, signal, map, second, queries)
        }
    }
}

// Adds the obligations of the selectors of a signal's label.
fn add_selectors(
    alloc: Global,
    design: &Design,
    signal: SigId,
    queries: &mut Vec<Query>,
) -> Result<(), AllocError>
    requires { signal.0 < length design.now.signals.items }
    ensures { OnOk result (map obligation_of queries.new.items ≡ map obligation_of queries.old.items
        ++ selector_obligations [] (design_of design.now) signal.0) }
{
    let label = design.signals()[signal.0 as usize].label;
    add_of_label(alloc, design, signal, label, queries)
}

/// The obligations of the selectors of all labels; an error where memory runs out.
pub fn all_selectors(alloc: Global, design: &Design) -> Result<Vec<Query>, AllocError>
    ensures design { IsDesign (design_of design.now) }
    ensures listed { IfOk result (λ queries. map obligation_of queries.items
        ≡ flat_map (selector_obligations [] (design_of design.now))
        (signal_numbers (design_of design.now))) }
{
    let mut queries = Vec::new(alloc);
    for s in 0..count_of(design) {
        add_selectors(alloc, design, SigId(s), &mut queries)?;
    }
    Ok(queries)
}
