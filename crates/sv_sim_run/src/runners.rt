// What runs the cycles of a design.
ghost use Rattle.std.specs.Prelude.{◌≡◌, ◌+◌, ◌%◌, ◌<◌, ◌≤◌, ◌^◌, ℕ, IfOk, IfSome, OnOk};
ghost use Rattle.std.specs.Prelude.{Contains, map, length, reverse, vec_len};
ghost use Rattle.std.specs.List.{range_with_len};
ghost use Rattle.sv_design.specs.Designs.{IsDesign};
ghost use Rattle.sv_flat.specs.FlatSystem.{flat_system};
ghost use Rattle.sv_flat.specs.ByNumber.{by_number};
ghost use Rattle.sv_flat.specs.Schedules.{starting, after_tick, tick_order};
ghost use Rattle.sv_flat.specs.SignalLists.{system_signals, inputs as inputs_of, registers};
ghost use Rattle.sv_flat.specs.Views.{design_of};
ghost use Rattle.sv_flat.specs.Given.{FitListed, given};
ghost use Rattle.sv_system.specs.System.{Settled};
ghost use Rattle.sv_sim_run.specs.Runners.{design_in, values_in, order_in, rounds_in};
ghost use Rattle.sv_sim_run.specs.Runners.{IsDrawn, IsRunner, IsReady, RunsRounds};
ghost use Rattle.sv_sim_run.specs.Runners.{CountsRounds};

use std::alloc::{AllocError, Global};
use sv_design::Design;
use sv_event::Event;
use sv_flat::SigId;
use sv_sim::{Sim, put_listed};

/// A design that runs cycle by cycle.
#[derive(Drop)]
pub enum Runner<'a> {
    /// Each cycle is settled by the computed order of the signals.
    Plain(Sim<'a>),
    /// Each cycle is settled by rounds in drawn orders of the processes.
    Drawn(Drawn<'a>),
}

/// A design that runs in drawn orders: the order number, both orders of its clocked processes, and
/// the rounds so far.
#[derive(Drop)]
pub struct Drawn<'a> {
    event: Event<'a>,
    number: u64,
    ascending: Vec<usize>,
    descending: Vec<usize>,
    rounds: u64,
}

impl<'a> Runner<'a> {
    /// A runner of the design, by an order number if there is one.
    pub fn new(
        alloc: Global,
        design: &'a Design,
        order: Option<u64>,
    ) -> Result<Runner<'a>, AllocError>
        ensures design { IfOk result (λ runner. design_in runner ≡ design.now) }
        ensures order { IfOk result (λ runner. order_in runner ≡ order) }
        ensures rounds { IfOk result (λ runner. IfSome (rounds_in runner) (λ n. n ≡ 0)) }
        ensures made { IfOk result IsRunner }
    {
        match order {
            None => Ok(Runner::Plain(Sim::new(alloc, design)?)),
            Some(number) => Ok(Runner::Drawn(Drawn::new(alloc, design, number)?)),
        }
    }

    /// Gives each register its value.
    pub fn load(&mut self, alloc: Global, design: &Design, start: &[u64]) -> Result<(), AllocError>
        requires made { IsRunner self.old }
        requires design { design_in self.old ≡ design.now }
        requires fit { let flat = design_of design.now in
            FitListed flat.signals (registers flat) start.now }
        ensures made { IsRunner self.new }
        ensures registers { let flat = design_of design.now in OnOk result
            (map (values_in self.new) (registers flat) ≡ start.now) }
        ensures start { let flat = design_of design.now in OnOk result
            (IfSome (order_in self.new) (λ _. (s : ℕ) → values_in self.new s ≡
            starting flat (given (registers flat) start.now) s)) }
        ensures design { design_in self.new ≡ design_in self.old }
        ensures order { order_in self.new ≡ order_in self.old }
        ensures rounds { rounds_in self.new ≡ rounds_in self.old }
    {
        match self {
            Runner::Plain(sim) => sim.load(start),
            Runner::Drawn(drawn) => drawn.event.put_values(&started(alloc, design, start)?),
        }
        Ok(())
    }

    /// Gives each input its value, and each other signal that of the settled environment.
    pub fn settle(&mut self, cycle: u64, inputs: &[u64])
        requires made { IsRunner self.old }
        requires fit { let flat = design_of (design_in self.old) in
            FitListed flat.signals (inputs_of flat) inputs.now }
        requires room { IfSome (rounds_in self.old) (λ n. n + 2 ^ 32 ≤ 2 ^ 64) }
        ensures made { IsRunner self.new }
        ensures settled { let flat = design_of (design_in self.old) in
            Settled (flat_system flat) (values_in self.old)
            (given (inputs_of flat) inputs.now) (values_in self.new) }
        ensures ready { IsReady self.new }
        ensures counted { CountsRounds (design_of (design_in self.old)) (order_in self.old) cycle
            inputs.now (values_in self.old) (values_in self.new) (rounds_in self.old)
            (rounds_in self.new) }
        ensures design { design_in self.new ≡ design_in self.old }
        ensures order { order_in self.new ≡ order_in self.old }
    {
        match self {
            Runner::Plain(sim) => sim.settle(inputs),
            Runner::Drawn(drawn) => drawn.settle(cycle, inputs),
        }
    }

    /// Gives each register its next value. In a drawn order the clocked processes run in ascending
    /// order in even cycles, and in descending order in odd ones.
    pub fn tick(&mut self, cycle: u64)
        requires made { IsRunner self.old }
        requires settled { IsReady self.old }
        ensures made { IsRunner self.new }
        ensures values { values_in self.new ≡
            (flat_system (design_of (design_in self.old))).next (values_in self.old) }
        ensures design { design_in self.new ≡ design_in self.old }
        ensures order { order_in self.new ≡ order_in self.old }
        ensures rounds { rounds_in self.new ≡ rounds_in self.old }
        ensures ticked { IfSome (order_in self.old) (λ _.
            let flat = design_of (design_in self.old) in
            values_in self.new ≡ after_tick flat (tick_order flat cycle) (values_in self.old)) }
    {
        match self {
            Runner::Plain(sim) => sim.tick(),
            Runner::Drawn(drawn) => drawn.tick(cycle),
        }
    }

    /// The value of a signal that is no clock.
    pub fn value(&self, s: SigId) -> u64
        requires seen { Contains (system_signals (design_of (design_in self.now))) s.0 }
        requires settled { IsReady self.now }
        ensures { result ≡ values_in self.now s.0 }
    {
        match self {
            Runner::Plain(sim) => sim.value(s),
            Runner::Drawn(drawn) => drawn.event.value(s),
        }
    }

    /// How many rounds were run, where there is an order.
    pub fn rounds(&self) -> Option<u64>
        ensures { result ≡ rounds_in self.now }
    {
        match self {
            Runner::Plain(_) => None,
            Runner::Drawn(drawn) => Some(drawn.rounds),
        }
    }
}

impl<'a> Drawn<'a> {
    fn new(alloc: Global, design: &'a Design, number: u64) -> Result<Drawn<'a>, AllocError>
        ensures design { IfOk result (λ drawn. drawn.event.design ≡ design.now) }
        ensures number { IfOk result (λ drawn. drawn.number ≡ number) }
        ensures rounds { IfOk result (λ drawn. drawn.rounds ≡ 0) }
        ensures made { IfOk result IsDrawn }
    {
        let ascending = numbers_below(alloc, design.clocked())?;
        let descending = reversed(alloc, ascending.as_slice())?;
        Ok(Drawn {
            event: Event::new(alloc, design)?,
            number,
            ascending,
            descending,
            rounds: 0,
        })
    }

    // Runs the rounds of a cycle.
    fn settle(&mut self, cycle: u64, inputs: &[u64])
        requires made { IsDrawn self.old }
        requires fit { let flat = design_of self.old.event.design in
            FitListed flat.signals (inputs_of flat) inputs.now }
        requires room { self.old.rounds + 2 ^ 32 ≤ 2 ^ 64 }
        ensures made { IsDrawn self.new }
        ensures settled { let flat = design_of self.old.event.design in
            Settled (flat_system flat) (by_number self.old.event.values)
            (given (inputs_of flat) inputs.now) (by_number self.new.event.values) }
        ensures counted { (count : ℕ) × RunsRounds (design_of self.old.event.design)
            self.old.number cycle inputs.now (by_number self.old.event.values)
            (by_number self.new.event.values) count
            × (self.new.rounds ≡ self.old.rounds + count) × (count < 2 ^ 32) }
        ensures rest { self.new ≡ record self.old {
          event = self.new.event;
          rounds = self.new.rounds;
        } }
        ensures design { self.new.event.design ≡ self.old.event.design }
    {
        self.event.set_inputs(inputs);
        let count = self.event.rounds(order_of_cycle(self.number, cycle));
        self.rounds = with_rounds(self.rounds, count);
    }

    // Runs the clocked processes by a cycle's order.
    fn tick(&mut self, cycle: u64)
        requires { IsDrawn self.old }
        ensures made { IsDrawn self.new }
        ensures values { by_number self.new.event.values ≡
            after_tick (design_of self.old.event.design)
            (tick_order (design_of self.old.event.design) cycle)
            (by_number self.old.event.values) }
        ensures next { by_number self.new.event.values ≡
            (flat_system (design_of self.old.event.design)).next
            (by_number self.old.event.values) }
        ensures rest { self.new ≡ record self.old { event = self.new.event } }
        ensures design { self.new.event.design ≡ self.old.event.design }
    {
        if cycle % 2 == 0 {
            self.event.tick(self.ascending.as_slice());
        } else {
            self.event.tick(self.descending.as_slice());
        }
    }
}

// The number that the orders of a cycle are drawn from.
fn order_of_cycle(number: u64, cycle: u64) -> u64
    ensures { result ≡ (number + cycle) % 2 ^ 64 }
{
    number.wrapping_add(cycle)
}

// The rounds so far and those of one more cycle.
fn with_rounds(rounds: u64, count: u32) -> u64
    requires { rounds + 2 ^ 32 ≤ 2 ^ 64 }
    ensures { result ≡ rounds + count }
{
    rounds + u64::from(count)
}

// The numbers below a count, in ascending order.
fn numbers_below(alloc: Global, count: usize) -> Result<Vec<usize>, AllocError>
    ensures { IfOk result (λ numbers. numbers.items ≡ range_with_len 0 count) }
{
    (0..count).collect(alloc)
}

// The numbers from the last to the first.
fn reversed(alloc: Global, numbers: &[usize]) -> Result<Vec<usize>, AllocError>
    ensures { IfOk result (λ found. found.items ≡ reverse numbers.now) }
{
    numbers.iter().rev().copied().collect(alloc)
}

// The values of all signals but clocks: those of the registers as given, and 0 for the others.
fn started(alloc: Global, design: &Design, start: &[u64]) -> Result<Vec<u64>, AllocError>
    requires fit { let flat = design_of design.now in
        FitListed flat.signals (registers flat) start.now }
    ensures values { let flat = design_of design.now in IfOk result (λ values.
        values.items ≡ map (given (registers flat) start.now) (system_signals flat)) }
    ensures design { IsDesign (design_of design.now) }
{
    let seen = design.seen();
    let table = starting_table(alloc, design, start)?;
    let mut values = Vec::with_capacity(alloc, seen.len())?;
    for s in seen {
        values.push(table[s.0 as usize])?;
    }
    Ok(values)
}

// A value for each signal by its number: those of the registers as given, and 0 for the others.
fn starting_table(alloc: Global, design: &Design, start: &[u64]) -> Result<Vec<u64>, AllocError>
    requires fit { let flat = design_of design.now in
        FitListed flat.signals (registers flat) start.now }
    ensures values { let flat = design_of design.now in IfOk result (λ table.
        by_number table.items ≡ given (registers flat) start.now) }
    ensures count { let flat = design_of design.now in IfOk result (λ table.
        vec_len table ≡ length flat.signals) }
{
    let signals = design.signals();
    let mut table = vec![in alloc; 0; signals.len()]?;
    put_listed(start, design.registers(), signals, &mut table);
    Ok(table)
}
