// Simulations.
ghost use Rattle.std.specs.Prelude.{◌≡◌, ◌↔◌, ℕ, IsTrue, IsFalse, IfOk, Contains, length};
ghost use Rattle.std.specs.Prelude.{replicate};
ghost use Rattle.sv_flat.specs.ByNumber.{by_number, FitSignals};
ghost use Rattle.sv_flat.specs.Clocks.{is_clock};
ghost use Rattle.sv_flat.specs.FlatSystem.{flat_system};
ghost use Rattle.sv_flat.specs.SignalLists.{system_signals, inputs as inputs_of, registers};
ghost use Rattle.sv_flat.specs.Views.{design_of};
ghost use Rattle.sv_system.specs.Schedules.{IsTheSettled};
ghost use Rattle.sv_system.specs.System.{IsStill};
ghost use Rattle.sv_flat.specs.Given.{FitListed, with_given, given};

use crate::edges::clock_edge;
use crate::listed::{fits, put_listed};
use crate::plans::plan_of;
use crate::settling::settle;
use std::alloc::{AllocError, Global};
use std::marker::Model;
use std::mem::swap;
use sv_design::Design;
use sv_flat::SigId;

/// A simulation of a design: a value for each signal, and whether they are those of a settled
/// environment. A contract sees it as the design, the values by the signals' numbers, and that.
#[derive(Drop)]
pub struct Sim<'a> {
    design: &'a Design,
    values: Vec<u64>,
    // Room for the values after the clock edge.
    next: Vec<u64>,
    // The combinational signals in the order in which settling runs their processes.
    plan: Vec<SigId>,
    is_settled: bool,
}

impl<'a> Model for Sim<'a> {
    ghost use Rattle.std.specs.Prelude.{◌≡◌, ℕ, Bool, List, length, refl};
    ghost use Rattle.std.specs.Coded.{codes, code_by};
    ghost use Rattle.sv_flat.specs.contracts.expressions.FNode as node;
    ghost use Rattle.sv_flat.specs.contracts.statements.FStmt as statement;
    ghost use Rattle.sv_flat.specs.declared.designs.Flat.{Flat};
    ghost use Rattle.sv_flat.specs.Views.{design_of};
    ghost use Rattle.sv_design.specs.Numbers.{numbers};
    ghost use Rattle.sv_sim.specs.Settling.{IsPlan};
    ghost use Rattle.sv_sim.specs.Simulations.{Simulation, IsSimulation};

    ghost Value = { Simulation };

    ghost coded = { code_by (Flat × List ℕ × Bool)
        (Prim.hlevel (codes, node.the_row.coded, statement.the_row.coded))
        (λ s. (s.design, s.values, s.is_settled))
        (λ p. record { design = p.0; values = p.1; is_settled = p.2 })
        (λ _. refl) };

    ghost view = { λ s. record {
      design = s.design.now;
      values = s.values.items;
      is_settled = s.is_settled;
    } };

    ghost invariant = { λ s.
        IsSimulation (design_of s.design.now) s.values.items s.is_settled
        × (length s.next.items ≡ length s.values.items)
        × IsPlan (design_of s.design.now) (numbers s.plan.items) };
}

impl<'a> Sim<'a> {
    /// A simulation in which every value is 0, and that is not settled. It fails where memory runs
    /// out; no later call takes any.
    pub fn new(alloc: Global, design: &'a Design) -> Result<Sim<'a>, AllocError>
        ensures design { IfOk result (λ sim. sim.design ≡ design.now) }
        ensures values { IfOk result (λ sim.
            sim.values ≡ replicate (length design.now.signals.items) 0) }
        ensures settled { IfOk result (λ sim. IsFalse sim.is_settled) }
    {
        let count = design.signals().len();
        Ok(Sim {
            design,
            values: vec![in alloc; 0; count]?,
            next: vec![in alloc; 0; count]?,
            plan: plan_of(alloc, design)?,
            is_settled: false,
        })
    }

    /// The design that is simulated.
    pub fn design(&self) -> &'a Design
        ensures { result.now ≡ self.now.design }
    {
        self.design
    }

    /// Whether there is one value for each register and one for each input, in order, each of its
    /// signal's width.
    pub fn fits(&self, regs: &[u64], inputs: &[u64]) -> bool
        ensures { let design = design_of self.now.design in
            IsTrue result ↔ (FitListed design.signals (registers design) regs.now
            × FitListed design.signals (inputs_of design) inputs.now) }
    {
        let signals = self.design.signals();
        fits(regs, self.design.registers(), signals) && fits(inputs, self.design.inputs(), signals)
    }

    /// Gives each register its value. Then the simulation is not settled.
    pub fn load(&mut self, regs: &[u64])
        requires { let design = design_of self.old.design in
            FitListed design.signals (registers design) regs.now }
        ensures values { by_number self.new.values ≡
            with_given (registers (design_of self.old.design)) regs.now
            (by_number self.old.values) }
        ensures settled { IsFalse self.new.is_settled }
        ensures design { self.new.design ≡ self.old.design }
    {
        let signals = self.design.signals();
        put_listed(regs, self.design.registers(), signals, &mut self.values);
        self.is_settled = false;
    }

    /// Gives each input its value, and each other signal that of the one settled environment of the
    /// registers and the inputs.
    pub fn settle(&mut self, inputs: &[u64])
        requires { let design = design_of self.old.design in
            FitListed design.signals (inputs_of design) inputs.now }
        ensures values { let design = design_of self.old.design in
            IsTheSettled (flat_system design) (by_number self.old.values)
            (given (inputs_of design) inputs.now) (by_number self.new.values) }
        ensures settled { IsTrue self.new.is_settled }
        ensures design { self.new.design ≡ self.old.design }
    {
        let signals = self.design.signals();
        put_listed(inputs, self.design.inputs(), signals, &mut self.values);
        settle(self.design, &self.plan, &mut self.values);
        self.is_settled = true;
    }

    /// Whether the values are those of a settled environment: from `settle` on to the next `load`
    /// or `tick`.
    pub fn settled(&self) -> bool
        ensures settled { result ≡ self.now.is_settled }
        ensures still { IsTrue result →
            IsStill (flat_system (design_of self.now.design)) (by_number self.now.values) }
    {
        self.is_settled
    }

    /// Gives each register its next value. Then the simulation is not settled.
    pub fn tick(&mut self)
        requires { IsTrue self.old.is_settled }
        ensures values { by_number self.new.values ≡
            (flat_system (design_of self.old.design)).next (by_number self.old.values) }
        ensures settled { IsFalse self.new.is_settled }
        ensures design { self.new.design ≡ self.old.design }
    {
        self.next.copy_from_slice(&self.values);
        clock_edge(self.design, &self.values, &mut self.next);
        swap(&mut self.values, &mut self.next);
        self.is_settled = false;
    }

    /// The value of a signal that is no clock.
    pub fn value(&self, s: SigId) -> u64
        requires settled { IsTrue self.now.is_settled }
        requires seen { Contains (system_signals (design_of self.now.design)) s.0 }
        ensures { result ≡ by_number self.now.values s.0 }
    {
        let values = self.values.as_slice();
        values[s.0 as usize]
    }

    /// The value of each signal, by the signals' numbers; 0 for a clock.
    pub fn values(&self) -> &[u64]
        requires { IsTrue self.now.is_settled }
        ensures values { result.now ≡ self.now.values }
        ensures count { length result.now ≡ length self.now.design.signals.items }
        ensures fit { FitSignals (design_of self.now.design).signals result.now }
        ensures clocks { (s : ℕ) → IsTrue (is_clock (design_of self.now.design) s) →
            by_number result.now s ≡ 0 }
    {
        self.values.as_slice()
    }
}
