// What `list` writes: the line of each obligation, or why there are none.
ghost use Rattle.std.specs.Prelude.{◌≡◌, ◌≤◌, ◌<◌, ◌++◌, ◌∷◌, [], IfOk, IsErrOf, OnOk, OnErr};
ghost use Rattle.std.specs.Prelude.{◌+◌, None, length};
ghost use Rattle.sv_flat.specs.Views.{design_of};
ghost use Rattle.sv_io.specs.Count.{Rose};
ghost use Rattle.sv_io.specs.Sink.{WritesFront};
ghost use Rattle.sv_paths.specs.Answers.{Told};
ghost use Rattle.sv_paths.specs.Limits.{excess};
ghost use Rattle.sv_obl.specs.SignalNames.{name_of};
ghost use Rattle.sv_paths.specs.ListLines.{list_text};
ghost use Rattle.sv_paths.specs.ListParts.{IsAt, lines_left};
ghost use Rattle.sv_cli.specs.Limits.{ExceedsLimit};
ghost use Rattle.sv_cli.specs.Prepared.{LeavesOf, ListsDesign, Says};

use crate::prepared::Prepared;
use crate::report::{Report, report_of_limit};
use std::alloc::{AllocError, Global};
use sv_design::Design;
use sv_flat::SigId;
use sv_io::{PutFault, Sink, put_all};
use sv_num::{Name, Rule};
use sv_obl::Bodies;
use sv_paths::{Listing, OblFault, check_limits};
use sv_report::Style;

/// What is prepared of an admitted design to list its obligations.
pub fn lines_of_design(alloc: Global, design: Design) -> Result<Prepared, AllocError>
    ensures { IfOk result (ListsDesign (design_of design)) }
{
    match check_limits(alloc, &design) {
        Ok(_) => Ok(Prepared::Lines(design)),
        Err(fault) => Ok(Prepared::Whole(report_of_fault(alloc, Style::Lines, &design, fault)?)),
    }
}

/// The report of the first limit that a design exceeds.
pub fn report_of_fault(
    alloc: Global,
    style: Style,
    design: &Design,
    fault: OblFault,
) -> Result<Report, AllocError>
    requires { Told (excess (design_of design.now)) fault }
    ensures { IfOk result (Says (ExceedsLimit style (design_of design.now))) }
{
    match fault {
        OblFault::Paths(target) => {
            report_of_limit(
                alloc,
                style,
                Rule::Paths,
                name_alone(alloc, design, target)?,
            )
        }
        OblFault::Large(target) => {
            report_of_limit(
                alloc,
                style,
                Rule::ObligationSize,
                name_alone(alloc, design, target)?,
            )
        }
        OblFault::Many => report_of_limit(alloc, style, Rule::Obligations, Vec::new(alloc)),
        OblFault::OutOfMemory => Err(AllocError),
    }
}

// The name of a signal, as the only one.
fn name_alone(alloc: Global, design: &Design, signal: SigId) -> Result<Vec<Name>, AllocError>
    requires { signal.0 < length design.now.signals.items }
    ensures { IfOk result
        (λ names. names.items ≡ name_of (design_of design.now).signals signal.0 ∷ []) }
{
    let name = design.signals()[signal.0 as usize].name.copy(alloc)?;
    Ok(vec![in alloc; name]?)
}

/// Puts the lines of the obligations of a design that exceeds no limit, each target's as they are
/// made. Refused, the front of all lines was accepted.
pub fn put_lines<K: Sink>(alloc: Global, out: &mut K, design: &Design) -> Result<(), PutFault>
    requires { excess (design_of design.now) ≡ None }
    ensures whole { OnOk result
        (K.accepted out.new ≡ K.accepted out.old ++ list_text (design_of design.now)) }
    ensures refused { OnErr result
        (WritesFront (K.accepted out.old) (list_text (design_of design.now)) (K.accepted out.new)) }
    ensures failed { IsErrOf result PutFault.Failed → Rose (K.faults out.old) (K.faults out.new) }
    ensures kept { OnOk result (K.faults out.new ≡ K.faults out.old) }
{
    match Bodies::new(alloc, design) {
        Ok(bodies) => {
            let mut listing = Listing::new(design, &bodies);
            put_targets(alloc, out, design, &mut listing)?;
            put_selectors(alloc, out, design, &listing)
        }
        Err(_) => Err(PutFault::OutOfMemory),
    }
}

// Puts the lines of all targets.
fn put_targets<K: Sink>(
    alloc: Global,
    out: &mut K,
    design: &Design,
    listing: &mut Listing,
) -> Result<(), PutFault>
    requires at { IsAt (design_of design.now) 0 listing.old }
    ensures whole { OnOk result
        (LeavesOf (K.accepted out.old) (lines_left (design_of design.now) 0)
        (lines_left (design_of design.now) (length design.now.signals.items))
        (K.accepted out.new)) }
    ensures next { OnOk result
        (IsAt (design_of design.now) (length design.now.signals.items) listing.new) }
    ensures refused { OnErr result
        (WritesFront (K.accepted out.old) (lines_left (design_of design.now) 0)
        (K.accepted out.new)) }
    ensures failed { IsErrOf result PutFault.Failed → Rose (K.faults out.old) (K.faults out.new) }
    ensures kept { OnOk result (K.faults out.new ≡ K.faults out.old) }
    ensures counts { K.faults out.old ≤ K.faults out.new }
{
    for s in 0..design.signals().len() {
        put_target(alloc, out, design, listing, SigId(s as u32))?;
    }
    Ok(())
}

// Puts the lines of the target that comes next.
fn put_target<K: Sink>(
    alloc: Global,
    out: &mut K,
    design: &Design,
    listing: &mut Listing,
    target: SigId,
) -> Result<(), PutFault>
    requires known { target.0 < length design.now.signals.items }
    requires at { IsAt (design_of design.now) target.0 listing.old }
    ensures whole { OnOk result
        (LeavesOf (K.accepted out.old) (lines_left (design_of design.now) target.0)
        (lines_left (design_of design.now) (target.0 + 1)) (K.accepted out.new)) }
    ensures next { OnOk result (IsAt (design_of design.now) (target.0 + 1) listing.new) }
    ensures refused { OnErr result
        (WritesFront (K.accepted out.old) (lines_left (design_of design.now) target.0)
        (K.accepted out.new)) }
    ensures failed { IsErrOf result PutFault.Failed → Rose (K.faults out.old) (K.faults out.new) }
    ensures kept { OnOk result (K.faults out.new ≡ K.faults out.old) }
    ensures counts { K.faults out.old ≤ K.faults out.new }
{
    match listing.target_lines(alloc, design, target) {
        Ok(part) => put_all(out, &part),
        Err(_) => Err(PutFault::OutOfMemory),
    }
}

// Puts the lines of selectors, behind those of all targets.
fn put_selectors<K: Sink>(
    alloc: Global,
    out: &mut K,
    design: &Design,
    listing: &Listing,
) -> Result<(), PutFault>
    requires at { IsAt (design_of design.now) (length design.now.signals.items) listing.now }
    ensures whole { OnOk result (K.accepted out.new ≡ K.accepted out.old
        ++ lines_left (design_of design.now) (length design.now.signals.items)) }
    ensures refused { OnErr result
        (WritesFront (K.accepted out.old)
        (lines_left (design_of design.now) (length design.now.signals.items))
        (K.accepted out.new)) }
    ensures failed { IsErrOf result PutFault.Failed → Rose (K.faults out.old) (K.faults out.new) }
    ensures kept { OnOk result (K.faults out.new ≡ K.faults out.old) }
    ensures counts { K.faults out.old ≤ K.faults out.new }
{
    match listing.selector_lines(alloc, design) {
        Ok(lines) => put_all(out, &lines),
        Err(_) => Err(PutFault::OutOfMemory),
    }
}
