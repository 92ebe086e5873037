// Environments that are run process by process.
ghost use Rattle.std.specs.Prelude.{◌≡◌, ◌↔◌, ◌<◌, ◌≤◌, ◌+◌, ℕ, All, IsTrue, IfOk, Contains};
ghost use Rattle.std.specs.Prelude.{length, replicate};
ghost use Rattle.sv_flat.specs.ByNumber.{by_number};
ghost use Rattle.sv_flat.specs.FlatSystem.{flat_system};
ghost use Rattle.sv_flat.specs.Schedules.{numbered_run, after_schedule, is_quiet, process_count};
ghost use Rattle.sv_flat.specs.Schedules.{IsRoundCount, after_rounds, is_order, after_tick};
ghost use Rattle.sv_flat.specs.SignalLists.{system_signals, inputs as inputs_of};
ghost use Rattle.sv_flat.specs.Views.{design_of};
ghost use Rattle.sv_system.specs.Schedules.{IsTheSettled, combinational};
ghost use Rattle.sv_flat.specs.Given.{FitListed, with_given};

use crate::orders::is_order;
use crate::places::places_of;
use crate::rounds::run_rounds;
use crate::runs::{is_quiet, run_all, run_numbered};
use crate::ticks::tick_all;
use std::alloc::{AllocError, Global};
use std::marker::Model;
use std::mem::swap;
use sv_design::Design;
use sv_flat::SigId;
use sv_sim::put_listed;

/// An environment of a design whose processes are run one by one. A contract sees it as the design
/// and the values by the signals' numbers.
#[derive(Drop)]
pub struct Event<'a> {
    design: &'a Design,
    // The places of the combinational processes and of the clocked ones among all processes.
    combs: Vec<usize>,
    clocked: Vec<usize>,
    values: Vec<u64>,
    // Room for other values: those of runs that are tried, and those after the clock edge.
    other: Vec<u64>,
    // Room for the order of one round.
    order: Vec<usize>,
}

impl<'a> Model for Event<'a> {
    ghost use Rattle.std.specs.Prelude.{ℕ, List, refl};
    ghost use Rattle.std.specs.Coded.{codes, code_by};
    ghost use Rattle.sv_flat.specs.contracts.expressions.FNode as node;
    ghost use Rattle.sv_flat.specs.contracts.statements.FStmt as statement;
    ghost use Rattle.sv_flat.specs.declared.designs.Flat.{Flat};
    ghost use Rattle.sv_flat.specs.Views.{design_of};
    ghost use Rattle.sv_event.specs.Events.{EventState, IsEvent};

    ghost Value = { EventState };

    ghost coded = { code_by (Flat × List ℕ)
        (Prim.hlevel (codes, node.the_row.coded, statement.the_row.coded))
        (λ s. (s.design, s.values))
        (λ p. record { design = p.0; values = p.1 })
        (λ _. refl) };

    ghost view = { λ s. record { design = s.design.now; values = s.values.items } };

    ghost invariant = { λ s.
        IsEvent (design_of s.design.now) s.combs.items s.clocked.items s.values.items
        s.other.items s.order.items };
}

impl<'a> Event<'a> {
    /// An environment in which every value is 0. It fails where memory runs out; no later call
    /// takes any.
    pub fn new(alloc: Global, design: &'a Design) -> Result<Event<'a>, AllocError>
        ensures design { IfOk result (λ event. event.design ≡ design.now) }
        ensures values { IfOk result (λ event.
            event.values ≡ replicate (length design.now.signals.items) 0) }
    {
        let count = design.signals().len();
        Ok(Event {
            design,
            combs: places_of(alloc, design, false)?,
            clocked: places_of(alloc, design, true)?,
            values: vec![in alloc; 0; count]?,
            other: vec![in alloc; 0; count]?,
            order: vec![in alloc; 0; design.combs()]?,
        })
    }

    /// Gives each signal that is no clock its value.
    pub fn put_values(&mut self, values: &[u64])
        requires { let design = design_of self.old.design in
            FitListed design.signals (system_signals design) values.now }
        ensures values { by_number self.new.values ≡
            with_given (system_signals (design_of self.old.design)) values.now
            (by_number self.old.values) }
        ensures design { self.new.design ≡ self.old.design }
    {
        put_listed(
            values,
            self.design.seen(),
            self.design.signals(),
            &mut self.values,
        );
    }

    /// Gives each input its value.
    pub fn set_inputs(&mut self, inputs: &[u64])
        requires { let design = design_of self.old.design in
            FitListed design.signals (inputs_of design) inputs.now }
        ensures values { by_number self.new.values ≡
            with_given (inputs_of (design_of self.old.design)) inputs.now
            (by_number self.old.values) }
        ensures design { self.new.design ≡ self.old.design }
    {
        put_listed(
            inputs,
            self.design.inputs(),
            self.design.signals(),
            &mut self.values,
        );
    }

    /// Runs one combinational process.
    pub fn run_one(&mut self, process: usize)
        requires { process < process_count (design_of self.old.design) }
        ensures values { by_number self.new.values ≡
            numbered_run (design_of self.old.design) process (by_number self.old.values) }
        ensures design { self.new.design ≡ self.old.design }
    {
        run_numbered(self.design, &self.combs, process, &mut self.values);
    }

    /// Runs the listed combinational processes, one after the other.
    pub fn run_schedule(&mut self, schedule: &[usize])
        requires { All (λ k. k < process_count (design_of self.old.design)) schedule.now }
        ensures values { by_number self.new.values ≡
            after_schedule (design_of self.old.design) schedule.now (by_number self.old.values) }
        ensures design { self.new.design ≡ self.old.design }
    {
        run_all(self.design, &self.combs, schedule, &mut self.values);
    }

    /// Whether no run of a combinational process would change a value: whether the values are the
    /// one settled environment of their registers and inputs.
    pub fn quiet(&mut self) -> bool
        ensures quiet { result ≡
            is_quiet (design_of self.old.design) (by_number self.old.values) }
        ensures settled { let environment = by_number self.old.values in
            IsTrue result ↔ IsTheSettled (flat_system (design_of self.old.design)) environment
            environment environment }
        ensures same { self.new ≡ self.old }
    {
        is_quiet(self.design, &self.combs, &self.values, &mut self.other)
    }

    /// Runs drawn rounds of all combinational processes until the first after which no run would
    /// change a value, and gives how many it ran: at least 1, and at most one more than there are
    /// combinational signals. The number says what is drawn. The values are then the one settled
    /// environment of their registers and inputs.
    pub fn rounds(&mut self, number: u64) -> u32
        ensures count { IsRoundCount (design_of self.old.design) number
            (by_number self.old.values) result }
        ensures most { result ≤
            length (combinational (flat_system (design_of self.old.design))) + 1 }
        ensures values { by_number self.new.values ≡
            after_rounds (design_of self.old.design) number result (by_number self.old.values) }
        ensures settled { IsTheSettled (flat_system (design_of self.old.design))
            (by_number self.old.values) (by_number self.old.values) (by_number self.new.values) }
        ensures design { self.new.design ≡ self.old.design }
    {
        run_rounds(
            self.design,
            &self.combs,
            number,
            &mut self.order,
            &mut self.values,
            &mut self.other,
        )
    }

    /// Whether the list has the number of each clocked process once, and no other number.
    pub fn is_order(&self, order: &[usize]) -> bool
        ensures { result ≡ is_order (design_of self.now.design) order.now }
    {
        is_order(self.clocked.len(), order)
    }

    /// Runs the clocked processes in this order on the values as they stand, and then makes all
    /// their updates (IEEE 1364-2005, clause 11). Every order gives the registers the same values.
    pub fn tick(&mut self, order: &[usize])
        requires { IsTrue (is_order (design_of self.old.design) order.now) }
        ensures values { by_number self.new.values ≡
            after_tick (design_of self.old.design) order.now (by_number self.old.values) }
        ensures next { by_number self.new.values ≡
            (flat_system (design_of self.old.design)).next (by_number self.old.values) }
        ensures design { self.new.design ≡ self.old.design }
    {
        self.other.copy_from_slice(&self.values);
        tick_all(
            self.design,
            &self.clocked,
            order,
            &self.values,
            &mut self.other,
        );
        swap(&mut self.values, &mut self.other);
    }

    /// The value of a signal that is no clock.
    pub fn value(&self, s: SigId) -> u64
        requires { Contains (system_signals (design_of self.now.design)) s.0 }
        ensures { result ≡ by_number self.now.values s.0 }
    {
        let values = self.values.as_slice();
        values[s.0 as usize]
    }
}
