// Signals in an order in which each stands behind those that edges lead to it from.
ghost use Rattle.std.specs.Prelude.{◌≡◌, ◌<◌, ℕ, length, Contains, IsTrue, OnOk};
ghost use Rattle.sv_flat.specs.Loops.{all_differ};
ghost use Rattle.sv_graph.specs.Numbers.{numbers};
ghost use Rattle.sv_graph.specs.Queues.{open_at, SettlesOne, Settles};

use crate::lists::push_if;
use std::alloc::AllocError;
use sv_flat::SigId;

/// Signals in an order, and for each signal how many edges to it come from signals that are not
/// settled yet.
#[derive(Drop)]
pub struct Queue {
    pub order: Vec<SigId>,
    pub counts: Vec<usize>,
}

impl Queue {
    // One edge less to a signal is open: with its last one it goes into the order.
    fn settle(&mut self, reader: SigId) -> Result<(), AllocError>
        requires within { reader.0 < length self.old.counts.items }
        requires some { 0 < open_at self.old reader.0 }
        ensures { OnOk result (SettlesOne self.old self.new reader.0) }
    {
        let r = reader.0 as usize;
        let left = self.counts[r] - 1;
        self.counts[r] = left;
        push_if(left == 0, reader, &mut self.order)?;
        Ok(())
    }

    /// Settles an edge to each of some signals: with its last one a signal goes into the order. It
    /// fails where memory runs out.
    pub fn settle_all(&mut self, readers: &[SigId]) -> Result<(), AllocError>
        requires within { (s : ℕ) → Contains (numbers readers.now) s →
            s < length self.old.counts.items }
        requires some { (s : ℕ) → Contains (numbers readers.now) s → 0 < open_at self.old s }
        requires differ { IsTrue (all_differ (numbers readers.now)) }
        ensures { OnOk result (Settles self.old self.new (numbers readers.now)) }
    {
        for reader in readers {
            self.settle(*reader)?;
        }
        Ok(())
    }
}
