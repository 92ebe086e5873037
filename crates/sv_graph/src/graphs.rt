// Graphs over signals.
ghost use Rattle.std.specs.Prelude.{◌≡◌, ◌<◌, ◌^◌, [], ◌==◌, ℕ};
ghost use Rattle.std.specs.Prelude.{Contains, OnOk, IfOk};
ghost use Rattle.sv_graph.specs.Graphs.{size, row, AddsEdge, AddsOnce, AddsSources};
ghost use Rattle.sv_graph.specs.Graphs.{IsWhole, IsTurned, ends_in};
ghost use Rattle.sv_graph.specs.Numbers.{numbers};

use std::alloc::{AllocError, Global};
use sv_flat::SigId;

/// A graph over signals: for each signal, by its number, those that its edges lead to.
#[derive(Debug, Drop)]
pub struct Graph {
    pub rows: Vec<Vec<SigId>>,
}

impl Graph {
    /// So many signals without edges. It fails where memory runs out.
    pub fn new(alloc: Global, count: usize) -> Result<Graph, AllocError>
        ensures size { IfOk result (λ graph. size graph ≡ count) }
        ensures edges { IfOk result (λ graph. (a : ℕ) → row graph a ≡ []) }
    {
        let rows = vec![in alloc; Vec::new(alloc); count]?;
        Ok(Graph { rows })
    }

    /// Adds an edge. It fails where memory runs out.
    pub fn add(&mut self, from: SigId, to: SigId) -> Result<(), AllocError>
        requires { from.0 < size self.old }
        ensures size { size self.new ≡ size self.old }
        ensures adds { OnOk result (AddsEdge self.old self.new from.0 to.0) }
    {
        let row = &mut self.rows[from.0 as usize];
        row.push(to)?;
        Ok(())
    }

    // Adds an edge, where it is not the last one of its signal.
    fn add_once(&mut self, from: SigId, to: SigId) -> Result<(), AllocError>
        requires { from.0 < size self.old }
        ensures size { size self.new ≡ size self.old }
        ensures adds { OnOk result (AddsOnce self.old self.new from.0 to.0) }
    {
        let row = self.rows[from.0 as usize].as_slice();
        if ends_in(row, to) {
            return Ok(());
        }
        self.add(from, to)?;
        Ok(())
    }

    /// Adds an edge from each of some signals, where it is not the last one of that signal. What it
    /// adds is said only where all edges so far lead to lower signals. It fails where memory runs
    /// out.
    pub fn add_sources(&mut self, sources: &[SigId], to: SigId) -> Result<(), AllocError>
        requires { (k : ℕ) → Contains (numbers sources.now) k → k < size self.old }
        ensures size { size self.new ≡ size self.old }
        ensures adds { OnOk result (AddsSources self.old self.new (numbers sources.now) to.0) }
    {
        for from in sources {
            self.add_once(*from, to)?;
        }
        Ok(())
    }

    /// The graph with each edge turned round, each edge once, and those of a signal in signal
    /// order. It fails where memory runs out.
    pub fn turned(&self, alloc: Global) -> Result<Graph, AllocError>
        requires whole { IsWhole self.now }
        requires few { size self.now < 2 ^ 32 }
        ensures size { IfOk result (λ turned. size turned ≡ size self.now) }
        ensures turned { IfOk result (IsTurned self.now) }
    {
        let mut turned = Graph::new(alloc, self.rows.len())?;
        for (from, row) in self.rows.iter().enumerate() {
            turned.add_sources(row, SigId(from as u32))?;
        }
        Ok(turned)
    }
}

// Whether the signal is the last of a list.
fn ends_in(signals: &[SigId], signal: SigId) -> bool
    ensures { result ≡ ends_in (numbers signals.now) signal.0 }
{
    match signals.last() {
        Some(last) => last.0 == signal.0,
        None => false,
    }
}
