// Reading a stimulus and running its cycles.
ghost use Rattle.std.specs.Prelude.{◌≡◌, ℕ, ◌+◌, ◌*◌, ◌<◌, ◌≤◌, ◌^◌, ◌⊎◌, [], List, ◌∷◌, ◌++◌};
ghost use Rattle.std.specs.Prelude.{true};
ghost use Rattle.std.specs.Prelude.{length, map, Ok, IfOk, OnOk, OnErr, IfSome, IsErrOf, IsFalse};
ghost use Rattle.std.specs.Option.{ForSome};
ghost use Rattle.sv_flat.specs.SignalLists.{system_signals, inputs as inputs_of};
ghost use Rattle.sv_flat.specs.Views.{design_of};
ghost use Rattle.sv_design.specs.Designs.{IsDesign};
ghost use Rattle.sv_io.specs.Count.{Rose};
ghost use Rattle.sv_flat.specs.Given.{FitListed};
ghost use Rattle.sv_trace.specs.Reading.{HasFed, HasRead, answer_of};
ghost use Rattle.sv_trace.specs.Stimulus.{LinesRead, read_front, read_whole};
ghost use Rattle.sv_sim_run.specs.Progress.{IsSimulating, IsSameAs, HasRunCycles, HasRoom};
ghost use Rattle.sv_sim_run.specs.Progress.{HasCome, HasEnded, HasFailed, LeavesRoom, flat_of};
ghost use Rattle.sv_sim_run.specs.Runners.{design_in, values_in, order_in, rounds_in, IsReady};
ghost use Rattle.sv_sim_run.specs.Runs.{ending_from, WritesRun};
ghost use Rattle.sv_sim_run.specs.Simulated.{ending_of};

use crate::endings::{Ending, SimFault};
use crate::lines::{put_line, put_waiting};
use crate::runners::Runner;
use std::alloc::{AllocError, Global};
use sv_design::Design;
use sv_io::Sink;
use sv_lattice::Point;
use sv_trace::{StimFault, StimReader, trace_line};

/// A stimulus that is read, and a design that runs its cycles.
#[derive(Drop)]
pub struct Simulation<'a> {
    design: &'a Design,
    level: Option<Point>,
    reader: StimReader,
    runner: Runner<'a>,
    is_started: bool,
    // The number of the next cycle.
    cycle: u64,
    // Room for the values of a cycle: one for each signal that is no clock.
    values: Vec<u64>,
    // Lines that were not put yet.
    waiting: Vec<u8>,
}

impl<'a> Simulation<'a> {
    /// A simulation of which nothing was read.
    pub fn new(
        alloc: Global,
        design: &'a Design,
        level: Option<Point>,
        order: Option<u64>,
    ) -> Result<Simulation<'a>, AllocError>
        requires { ForSome level (λ point. point.0 < length design.now.lattice) }
        ensures admitted { IsDesign (design_of design.now) }
        ensures made { IfOk result IsSimulating }
        ensures come { (before : List ℕ) → IfOk result (HasCome [] before before) }
        ensures design { IfOk result (λ simulation. simulation.design.now ≡ design.now) }
        ensures level { IfOk result (λ simulation. simulation.level ≡ level) }
        ensures order { IfOk result (λ simulation. order_in simulation.runner ≡ order) }
        ensures open { IfOk result (λ simulation. IsFalse simulation.reader.finished) }
    {
        let count = design.seen().len();
        Ok(Simulation {
            design,
            level,
            reader: StimReader::new(alloc, design)?,
            runner: Runner::new(alloc, design, order)?,
            is_started: false,
            cycle: 0,
            values: vec![in alloc; 0; count]?,
            waiting: Vec::new(alloc),
        })
    }

    /// Reads the next piece of the stimulus, and writes the lines of its cycles. It gives the
    /// ending where a line is wrong.
    pub fn read<K: Sink>(
        &mut self,
        alloc: Global,
        out: &mut K,
        piece: &[u8],
    ) -> Result<Option<Ending>, SimFault>
        requires made { IsSimulating self.old }
        requires open { IsFalse self.old.reader.finished }
        requires room { self.old.reader.said.line + length self.old.reader.rest
            + length piece.now < 2 ^ 64 }
        requires within { LeavesRoom (length piece.now) (K.accepted out.old) self.old }
        ensures made { IsSimulating self.new }
        ensures same { IsSameAs self.old self.new }
        ensures open { IsFalse self.new.reader.finished }
        ensures come { IfOk result (λ found. (bytes before : List ℕ) →
            HasCome bytes before (K.accepted out.old) self.old →
            HasCome (bytes ++ piece.now) before (K.accepted out.new) self.new) }
        ensures found { IfOk result (λ found.
            ending_from (answer_of self.new.reader.fault) ≡ Ok found) }
        ensures front { OnErr result ((bytes before : List ℕ) →
            HasCome bytes before (K.accepted out.old) self.old →
            (first rest : List ℕ) × (bytes ++ piece.now ≡ first ++ rest)
            × HasFailed (read_front self.old.reader.form first) before (K.accepted out.new)
            self.old) }
        ensures failed { IsErrOf result SimFault.Write →
            Rose (K.faults out.old) (K.faults out.new) }
        ensures counts { K.faults out.old ≤ K.faults out.new }
        ensures kept { OnOk result (K.faults out.new ≡ K.faults out.old) }
        ensures read { IsErrOf result SimFault.Read → ⊥ }
    {
        let found = ending_from(self.reader.feed(piece))?;
        self.write_cycles(alloc, out)?;
        Ok(found)
    }

    /// Reads the end of the stimulus, and writes the line of a cycle that it brings.
    pub fn end<K: Sink>(&mut self, alloc: Global, out: &mut K) -> Result<Ending, SimFault>
        requires made { IsSimulating self.old }
        requires open { IsFalse self.old.reader.finished }
        requires within { LeavesRoom 0 (K.accepted out.old) self.old }
        ensures made { IfOk result (λ ending. IsSimulating self.new) }
        ensures same { IsSameAs self.old self.new }
        ensures ended { IfOk result (λ ending. (bytes before : List ℕ) →
            HasCome bytes before (K.accepted out.old) self.old →
            HasEnded (read_whole self.new.reader.form bytes) before (K.accepted out.new) self.new
            × (ending ≡ ending_of true (read_whole self.new.reader.form bytes))) }
        ensures front { OnErr result ((bytes before : List ℕ) →
            HasCome bytes before (K.accepted out.old) self.old →
            HasFailed (read_front self.old.reader.form bytes) before (K.accepted out.new) self.old
            ⊎ HasFailed (read_whole self.old.reader.form bytes) before (K.accepted out.new)
            self.old) }
        ensures failed { IsErrOf result SimFault.Write →
            Rose (K.faults out.old) (K.faults out.new) }
        ensures counts { K.faults out.old ≤ K.faults out.new }
        ensures kept { OnOk result (K.faults out.new ≡ K.faults out.old) }
        ensures read { IsErrOf result SimFault.Read → ⊥ }
    {
        let found = ending_from(self.reader.finish())?;
        self.write_cycles(alloc, out)?;
        Ok(found.unwrap_or(Ending::Done))
    }

    /// How many rounds were run, where there is an order.
    pub fn rounds(&self) -> Option<u64>
        ensures { result ≡ rounds_in self.now.runner }
    {
        self.runner.rounds()
    }

    // Runs the cycles that were read, and writes their lines.
    fn write_cycles<K: Sink>(&mut self, alloc: Global, out: &mut K) -> Result<(), SimFault>
        requires made { IsSimulating self.old }
        requires room { HasRoom self.old }
        ensures made { IsSimulating self.new }
        ensures same { IsSameAs self.old self.new }
        ensures fed { OnOk result ((bytes before : List ℕ) (taken : List (List ℕ)) →
            HasFed bytes taken self.old.reader →
            HasRunCycles taken before (K.accepted out.old) self.old →
            HasCome bytes before (K.accepted out.new) self.new) }
        ensures read_all { OnOk result ((read : LinesRead) (before : List ℕ)
            (taken : List (List ℕ)) → HasRead read taken self.old.reader →
            HasRunCycles taken before (K.accepted out.old) self.old →
            HasEnded read before (K.accepted out.new) self.new) }
        ensures front { OnErr result ((read : LinesRead) (before : List ℕ)
            (taken : List (List ℕ)) → HasRead read taken self.old.reader →
            HasRunCycles taken before (K.accepted out.old) self.old →
            HasFailed read before (K.accepted out.new) self.old) }
        ensures fault { self.new.reader.fault ≡ self.old.reader.fault }
        ensures open { self.new.reader.finished ≡ self.old.reader.finished }
        ensures failed { IsErrOf result SimFault.Write →
            Rose (K.faults out.old) (K.faults out.new) }
        ensures counts { K.faults out.old ≤ K.faults out.new }
        ensures kept { OnOk result (K.faults out.new ≡ K.faults out.old) }
        ensures read { IsErrOf result SimFault.Read → ⊥ }
    {
        self.start(alloc)?;
        while let Some(inputs) = self.reader.next_cycle() {
            self.write_cycle(alloc, out, inputs.as_slice())?;
        }
        put_waiting(out, &mut self.waiting)
    }

    // Gives the registers their starting values, once they are known.
    fn start(&mut self, alloc: Global) -> Result<(), AllocError>
        requires made { IsSimulating self.old }
        ensures made { IsSimulating self.new }
        ensures started { OnOk result (self.old.reader.said.begun ≡ true →
            self.new.is_started ≡ true) }
        ensures ran { OnOk result ((taken : List (List ℕ)) (before accepted : List ℕ) →
            HasRunCycles taken before accepted self.old →
            HasRunCycles taken before accepted self.new) }
        ensures rounds { rounds_in self.new.runner ≡ rounds_in self.old.runner }
        ensures order { order_in self.new.runner ≡ order_in self.old.runner }
        ensures rest { self.new ≡ record self.old {
          runner = self.new.runner;
          is_started = self.new.is_started;
        } }
    {
        if self.is_started {
            return Ok(());
        }
        if let Some(start) = self.reader.start() {
            self.runner.load(alloc, self.design, start)?;
            self.is_started = true;
        }
        Ok(())
    }

    // Runs a cycle, and writes its line.
    fn write_cycle<K: Sink>(
        &mut self,
        alloc: Global,
        out: &mut K,
        inputs: &[u64],
    ) -> Result<(), SimFault>
        requires made { IsSimulating self.old }
        requires started { self.old.is_started ≡ true }
        requires fit { let flat = flat_of self.old in
            FitListed flat.signals (inputs_of flat) inputs.now }
        requires room { self.old.cycle + 1 < 2 ^ 64 }
        requires rounds { IfSome (rounds_in self.old.runner) (λ n. n + 2 ^ 32 ≤ 2 ^ 64) }
        ensures made { IsSimulating self.new }
        ensures same { IsSameAs self.old self.new }
        ensures ran { OnOk result ((taken : List (List ℕ)) (before : List ℕ) →
            HasRunCycles taken before (K.accepted out.old) self.old →
            HasRunCycles (taken ++ inputs.now ∷ []) before (K.accepted out.new) self.new) }
        ensures front { OnErr result ((taken : List (List ℕ)) (before : List ℕ) →
            HasRunCycles taken before (K.accepted out.old) self.old →
            WritesRun (flat_of self.old) self.old.level self.old.reader.said.start
            (taken ++ inputs.now ∷ []) before (K.accepted out.new)) }
        ensures reader { self.new.reader ≡ self.old.reader }
        ensures counted { OnOk result (self.new.cycle ≡ self.old.cycle + 1) }
        ensures rounds { IfSome (rounds_in self.old.runner) (λ n. n ≤ self.old.cycle * 4294967295)
            → OnOk result (IfSome (rounds_in self.new.runner)
            (λ n. n ≤ self.new.cycle * 4294967295)) }
        ensures started { self.new.is_started ≡ true }
        ensures failed { IsErrOf result SimFault.Write →
            Rose (K.faults out.old) (K.faults out.new) }
        ensures counts { K.faults out.old ≤ K.faults out.new }
        ensures kept { OnOk result (K.faults out.new ≡ K.faults out.old) }
        ensures read { IsErrOf result SimFault.Read → ⊥ }
    {
        self.runner.settle(self.cycle, inputs);
        take_values(self.design, &self.runner, &mut self.values);
        let line = trace_line(alloc, self.design, self.cycle, &self.values, self.level)?;
        self.runner.tick(self.cycle);
        self.cycle = cycle_after(self.cycle);
        put_line(out, &mut self.waiting, line.as_slice())
    }
}

// The number of the cycle after one.
fn cycle_after(cycle: u64) -> u64
    requires { cycle + 1 < 2 ^ 64 }
    ensures { result ≡ cycle + 1 }
{
    cycle + 1
}

// The values of all signals but clocks, in order.
fn take_values(design: &Design, runner: &Runner<'_>, values: &mut [u64])
    requires runner { design_in runner.now ≡ design.now }
    requires ready { IsReady runner.now }
    requires room { length values.old ≡ length (system_signals (design_of design.now)) }
    ensures { values.new ≡ map (values_in runner.now) (system_signals (design_of design.now)) }
{
    let seen = design.seen();
    for k in 0..seen.len() {
        values[k] = runner.value(seen[k]);
    }
}

// How a simulation ends by an answer of the reader, if it does.
fn ending_from(answer: Result<(), StimFault>) -> Result<Option<Ending>, SimFault>
    ensures { result ≡ ending_from answer }
{
    match answer {
        Ok(()) => Ok(None),
        Err(StimFault::Line(line, kind)) => Ok(Some(Ending::WrongLine(line, kind))),
        Err(StimFault::OutOfMemory) => Err(SimFault::OutOfMemory),
    }
}
