// Admitted designs.
ghost use Rattle.std.specs.Prelude.{◌≡◌, ◌<◌, length, map, position, option_map, IfSome};
ghost use Rattle.std.specs.Prelude.{Contains, IfOk, IsTrue};
ghost use Rattle.std.specs.Str.{bytes_eq};
ghost use Rattle.sv_flat.specs.Assigned.{assigns};
ghost use Rattle.sv_flat.specs.Design.{ProcessForm};
ghost use Rattle.sv_flat.specs.Views.{design_of, process_form};
ghost use Rattle.sv_flat.specs.Clocks.{is_clock, processes_of};
ghost use Rattle.sv_flat.specs.FlatSystem.{combinational_processes, clocked_processes};
ghost use Rattle.sv_flat.specs.SignalLists.{system_signals, inputs, registers, top_clock};
ghost use Rattle.sv_flat.specs.SignalLists.{driver_of};
ghost use Rattle.sv_flat.specs.Reads.{reads_for, order, followed};
ghost use Rattle.sv_design.specs.Designs.{IsDesign};
ghost use Rattle.sv_graph.specs.Marks.{followed_in};
ghost use Rattle.sv_design.specs.Numbers.{numbers, number_if_any};

use crate::tables::Tables;
use std::alloc::{AllocError, Global};
use std::marker::Model;
use sv_flat::{Flat, Process, SigId, Signal};
use sv_graph::reached;
use sv_lattice::{LabelMap, Lattice, Point};
use sv_num::Name;

/// A flat design that breaks no rule. A contract sees it as the flat design that was admitted.
#[derive(Debug, Drop)]
pub struct Design {
    pub(crate) flat: Flat,
    pub(crate) tables: Tables,
}

impl Model for Design {
    ghost use Rattle.std.specs.Coded.{codes};
    ghost use Rattle.sv_flat.specs.contracts.expressions.FNode as node;
    ghost use Rattle.sv_flat.specs.contracts.statements.FStmt as statement;
    ghost use Rattle.sv_flat.specs.declared.designs.Flat.{Flat};

    ghost Value = { Flat };

    ghost coded = { Prim.hlevel (codes, node.the_row.coded, statement.the_row.coded) };

    ghost use Rattle.sv_flat.specs.Views.{design_of};
    ghost use Rattle.sv_design.specs.Designs.{IsDesign};
    ghost use Rattle.sv_design.specs.Tables.{AreTables};

    ghost view = { λ d. d.flat };

    ghost invariant = { λ d. IsDesign (design_of d.flat) × AreTables (design_of d.flat) d.tables };
}

impl Design {
    /// All signals, in order: signal `k` has the number `k`.
    pub fn signals(&self) -> &[Signal]
        ensures signals { result.now ≡ self.now.signals.items }
        ensures design { IsDesign (design_of self.now) }
    {
        self.flat.signals.as_slice()
    }

    /// The names of the points of the lattice, by the points' numbers.
    pub fn points(&self) -> &[Name]
        ensures points { result.now ≡ self.now.points.items }
        ensures design { IsDesign (design_of self.now) }
    {
        self.flat.points.as_slice()
    }

    /// The lattice.
    pub fn lattice(&self) -> &Lattice
        ensures lattice { result.now ≡ self.now.lattice }
        ensures design { IsDesign (design_of self.now) }
    {
        &self.flat.lattice
    }

    /// The label maps, by their numbers.
    pub fn maps(&self) -> &[LabelMap]
        ensures maps { result.now ≡ self.now.maps.items }
        ensures design { IsDesign (design_of self.now) }
    {
        self.flat.maps.as_slice()
    }

    /// The processes in order. Links to clocks are no processes.
    pub fn processes(&self) -> &[Process]
        ensures processes { map process_form result.now ≡ processes_of (design_of self.now) }
        ensures design { IsDesign (design_of self.now) }
    {
        self.tables.processes.as_slice()
    }

    /// The one clock that is an input of the top module, or None where no clock is one, as in each
    /// design of a text without a clock.
    pub fn clock(&self) -> Option<SigId>
        ensures clock { number_if_any result ≡ top_clock (design_of self.now) }
        ensures design { IsDesign (design_of self.now) }
    {
        self.tables.clock
    }

    /// Whether the signal is a clock. A clock has no value, and stands in none of the lists of
    /// signals.
    pub fn is_clock(&self, s: SigId) -> bool
        requires { s.0 < length self.now.signals.items }
        ensures clock { result ≡ is_clock (design_of self.now) s.0 }
        ensures design { IsDesign (design_of self.now) }
    {
        let clocks = self.tables.clocks.as_slice();
        clocks[s.0 as usize]
    }

    /// All signals but the clocks, in order.
    pub fn seen(&self) -> &[SigId]
        ensures seen { numbers result.now ≡ system_signals (design_of self.now) }
        ensures design { IsDesign (design_of self.now) }
    {
        self.tables.seen.as_slice()
    }

    /// The inputs of the top module that are no clocks, in order.
    pub fn inputs(&self) -> &[SigId]
        ensures inputs { numbers result.now ≡ inputs (design_of self.now) }
        ensures design { IsDesign (design_of self.now) }
    {
        self.tables.inputs.as_slice()
    }

    /// The registers: the signals that a clocked process assigns, in order.
    pub fn registers(&self) -> &[SigId]
        ensures registers { numbers result.now ≡ registers (design_of self.now) }
        ensures design { IsDesign (design_of self.now) }
    {
        self.tables.registers.as_slice()
    }

    /// The combinational signals, those of lower depth first, and of one depth in signal order.
    /// Inputs and registers have depth 0, a combinational signal one more than the greatest depth
    /// of what is read for it, and 1 where nothing is.
    pub fn order(&self) -> &[SigId]
        ensures order { numbers result.now ≡ order (design_of self.now) }
        ensures design { IsDesign (design_of self.now) }
    {
        self.tables.order.as_slice()
    }

    /// How many processes are combinational. They are numbered in the order of the processes.
    pub fn combs(&self) -> usize
        ensures combs { result ≡ length (combinational_processes (design_of self.now)) }
        ensures design { IsDesign (design_of self.now) }
    {
        self.tables.combs
    }

    /// How many processes are clocked. They are numbered in the order of the processes.
    pub fn clocked(&self) -> usize
        ensures clocked { result ≡ length (clocked_processes (design_of self.now)) }
        ensures design { IsDesign (design_of self.now) }
    {
        self.tables.clocked
    }

    /// The place in `processes` of the process that assigns the signal, or None for an input of the
    /// top module and for a clock.
    pub fn driver(&self, s: SigId) -> Option<usize>
        requires { s.0 < length self.now.signals.items }
        ensures driver { result ≡ driver_of (design_of self.now) s.0 }
        ensures design { IsDesign (design_of self.now) }
    {
        let drivers = self.tables.drivers.as_slice();
        drivers[s.0 as usize]
    }

    /// The signals read for the signal, in order: those named in the right sides of its assignments
    /// and in the conditions of the branches with an arm that assigns it, for an earlier read what
    /// is read for its signal, and for a register itself too. None are read for an input or a
    /// clock.
    pub fn reads_for(&self, s: SigId) -> &[SigId]
        requires { s.0 < length self.now.signals.items }
        ensures reads { numbers result.now ≡ reads_for (design_of self.now) s.0 }
        ensures design { IsDesign (design_of self.now) }
    {
        let reads = self.tables.reads.as_slice();
        reads[s.0 as usize].as_slice()
    }

    /// For each signal, whether the signal follows it: itself, each signal of which an earlier
    /// value is read for it, each of which one is read for those, and so on. An error says that
    /// memory ran out.
    pub fn follows(&self, alloc: Global, s: SigId) -> Result<Vec<bool>, AllocError>
        requires { s.0 < length self.now.signals.items }
        ensures follows { IfOk result (λ table. (process : ProcessForm)
            → Contains (processes_of (design_of self.now)) process
            → IsTrue (assigns process.body s.0)
            → followed_in table.items ≡ followed (design_of self.now) process s.0) }
        ensures size { IfOk result (λ table. length table.items ≡ length self.now.signals.items) }
        ensures design { IsDesign (design_of self.now) }
    {
        reached(alloc, &self.tables.wants, &[s])
    }

    /// The first point with the name, or None where no point has it.
    pub fn point_named(&self, name: &str) -> Option<Point>
        ensures point { option_map (λ p. p.0) result ≡ position (λ point.
            bytes_eq point name.now) self.now.points.items }
        ensures design { IsDesign (design_of self.now) }
    {
        let size = self.flat.lattice.size();
        match place_of(self.flat.points.as_slice(), name.as_bytes()) {
            Some(place) => {
                prove!(place < size as usize);
                Some(Point(place as u8))
            }
            None => None,
        }
    }
}

// The place of the first name with these bytes.
fn place_of(names: &[Name], bytes: &[u8]) -> Option<usize>
    ensures place { result ≡ position (λ name. bytes_eq name bytes.now) names.now }
    ensures within { IfSome result (λ place. place < length names.now) }
{
    names.iter().position(|name| name.bytes() == bytes)
}
