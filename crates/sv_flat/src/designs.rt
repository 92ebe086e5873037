// Whole designs.
ghost use Rattle.std.specs.Prelude.{◌≡◌, map, IfOk};
ghost use Rattle.sv_flat.specs.Design.{ProcessForm};
ghost use Rattle.sv_flat.specs.Views.{process_form, invariant_form, design_of};

use crate::expressions::FExpr;
use crate::signals::{SigId, Signal};
use crate::statements::FStmt;
use std::alloc::{AllocError, Global};
use sv_lattice::{LabelMap, Lattice, Point};
use sv_num::{Copied, Name, Place};

/// What a process is.
#[derive(Clone, Copy, Debug, PartialEq, Eq)]
pub enum ProcKind {
    /// An `assign`, or the value of a `wire`.
    Assign,
    /// A link of an expression to an instance's input.
    PortIn,
    /// A link of an instance's output to a net.
    PortOut,
    /// An `always @*`.
    Comb,
    /// An `always` at the positive edge of this clock.
    Clocked(SigId),
    /// An `assign` that releases its value to this point.
    Release(Point),
}

/// A process, with the place of its `always`, of the target of its `assign`, of its `wire`, or of
/// its link's expression.
#[derive(Debug, Drop)]
pub struct Process {
    pub place: Place,
    pub kind: ProcKind,
    pub body: FStmt,
}

/// A whole instance tree, flattened: its signals and processes in the order of the walk through it,
/// its lattice with the points' names, its label maps, and its declared invariants.
#[derive(Debug, Drop)]
pub struct Flat {
    pub signals: Vec<Signal>,
    pub processes: Vec<Process>,
    pub lattice: Lattice,
    pub points: Vec<Name>,
    pub maps: Vec<LabelMap>,
    pub invariants: Vec<(Place, FExpr)>,
}

impl Process {
    /// A second process that is equal. It fails where memory runs out.
    pub fn copy(&self, alloc: Global) -> Result<Process, AllocError>
        ensures { IfOk result (λ copy. process_form copy ≡ process_form self.now) }
    {
        Ok(Process {
            place: self.place,
            kind: self.kind,
            body: self.body.copy(alloc)?,
        })
    }
}

impl Copied for Process {
    ghost Plain = { ProcessForm };

    ghost plain = { process_form };

    fn copy(&self, alloc: Global) -> Result<Process, AllocError> {
        Process::copy(self, alloc)
    }
}

// A copy of each map, in order.
fn maps_copy(maps: &[LabelMap], alloc: Global) -> Result<Vec<LabelMap>, AllocError>
    ensures { IfOk result (λ copies. copies.items ≡ maps.now) }
{
    let mut copies = Vec::with_capacity(alloc, maps.len())?;
    for map in maps {
        copies.push(map.copy(alloc)?)?;
    }
    Ok(copies)
}

// A copy of each invariant, in order.
fn invariants_copy(
    invariants: &[(Place, FExpr)],
    alloc: Global,
) -> Result<Vec<(Place, FExpr)>, AllocError>
    ensures { IfOk result (λ copies.
        map invariant_form copies.items ≡ map invariant_form invariants.now) }
{
    let mut copies = Vec::with_capacity(alloc, invariants.len())?;
    for invariant in invariants {
        copies.push((invariant.0, invariant.1.copy(alloc)?))?;
    }
    Ok(copies)
}

impl Flat {
    /// A second design that is equal. It fails where memory runs out.
    pub fn copy(&self, alloc: Global) -> Result<Flat, AllocError>
        ensures { IfOk result (λ copy. design_of copy ≡ design_of self.now) }
    {
        Ok(Flat {
            signals: self.signals.copy(alloc)?,
            processes: self.processes.copy(alloc)?,
            lattice: self.lattice.copy(alloc)?,
            points: self.points.copy(alloc)?,
            maps: maps_copy(&self.maps, alloc)?,
            invariants: invariants_copy(&self.invariants, alloc)?,
        })
    }
}
