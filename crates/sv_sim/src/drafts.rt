// Drafts of a plan: a process is taken once all that it reads is settled (A. B. Kahn, Topological
// sorting of large networks, 1962). Where the processes that are left wait for each other, the
// lowest signal that is left is taken alone. A process stands here as its head, the last of its
// signals in the order by depth. No proof speaks of a draft, so each index is asked about: whether
// it is a plan is asked of it.
use std::alloc::{AllocError, Global};
use sv_design::Design;
use sv_flat::SigId;
use sv_graph::{Graph, Queue};

// What is taken into a plan, and what waits for it.
#[derive(Drop)]
struct Draft {
    // From each signal to the heads of the other processes that read it, once for each signal that
    // it is read for.
    readers: Graph,
    // The heads that wait for nothing, in the order in which they came to that; and for each head
    // how much it waits for: such reads, and one thing more until all reads are noted.
    queue: Queue,
    is_taken: Vec<bool>,
    plan: Vec<SigId>,
}

impl Draft {
    fn new(alloc: Global, count: usize) -> Result<Draft, AllocError> {
        Ok(Draft {
            readers: Graph::new(alloc, count)?,
            queue: Queue {
                order: Vec::new(alloc),
                counts: vec![in alloc; 1; count]?,
            },
            is_taken: vec![in alloc; false; count]?,
            plan: Vec::new(alloc),
        })
    }

    // Lets a head wait for a read, where that is of another process.
    fn add_read(
        &mut self,
        head: SigId,
        other: Option<SigId>,
        read: SigId,
    ) -> Result<(), AllocError> {
        let h = head.0 as usize;
        if other.is_some() && other != Some(head) && h < self.queue.counts.len() {
            self.queue.counts[h] = self.queue.counts[h].saturating_add(1);
            add_edge(read, head, &mut self.readers)?;
        }
        Ok(())
    }

    // Lets each head wait for what is read for the signals of its process, and for nothing else.
    fn add_all_reads(
        &mut self,
        design: &Design,
        heads: &[Option<SigId>],
    ) -> Result<(), AllocError> {
        for signal in design.order() {
            self.add_reads(design, heads, *signal)?;
        }
        for head in heads {
            if let Some(head) = *head {
                settle(head, &mut self.queue)?;
            }
        }
        Ok(())
    }

    // Lets the head of a signal's process wait for what is read for the signal.
    fn add_reads(
        &mut self,
        design: &Design,
        heads: &[Option<SigId>],
        signal: SigId,
    ) -> Result<(), AllocError> {
        if let Some(head) = head_of(design, heads, signal) {
            for read in reads_for(design, signal) {
                let other = head_of(design, heads, *read);
                self.add_read(head, other, *read)?;
            }
        }
        Ok(())
    }

    // Takes a signal where it is not taken yet: the heads of what reads it no longer wait for it.
    fn take(&mut self, signal: SigId) -> Result<(), AllocError> {
        let s = signal.0 as usize;
        if s < self.is_taken.len() && !self.is_taken[s] {
            self.is_taken[s] = true;
            self.plan.push(signal)?;
            settle_all(row_of(signal, &self.readers), &mut self.queue)?;
        }
        Ok(())
    }

    fn take_all(&mut self, signals: &[SigId]) -> Result<(), AllocError> {
        for signal in signals {
            self.take(*signal)?;
        }
        Ok(())
    }

    // Takes all signals of the order, in so many steps: each takes a process, which is ready once,
    // or goes on by a signal of the order.
    fn take_by_order(
        &mut self,
        order: &[SigId],
        targets: &Graph,
        steps: usize,
    ) -> Result<(), AllocError> {
        let mut taken: usize = 0;
        let mut next: usize = 0;
        for _ in 0..steps {
            if taken < self.queue.order.len() {
                let head = self.queue.order[taken];
                self.take_all(row_of(head, targets))?;
                taken += 1;
            } else if next < order.len() {
                // What is read for the lowest signal that is left is lower, and so it is taken.
                self.take(order[next])?;
                next += 1;
            }
        }
        Ok(())
    }
}

/// A list of the combinational signals in which those of one process stand together, where no
/// processes wait for each other. It fails where memory runs out.
pub fn draft_of(alloc: Global, design: &Design) -> Result<Vec<SigId>, AllocError> {
    let heads = heads_of(alloc, design)?;
    let targets = targets_of(alloc, design, &heads)?;
    let mut draft = Draft::new(alloc, design.signals().len())?;
    draft.add_all_reads(design, &heads)?;
    let order = design.order();
    draft.take_by_order(order, &targets, order.len().saturating_add(heads.len()))?;
    Ok(draft.plan)
}

// For each process its head; none where it assigns no combinational signal.
fn heads_of(alloc: Global, design: &Design) -> Result<Vec<Option<SigId>>, AllocError> {
    let mut heads = vec![in alloc; None; design.processes().len()]?;
    for signal in design.order() {
        put_head(design, *signal, &mut heads);
    }
    Ok(heads)
}

// Makes a signal the head of its process, in place of the one before.
fn put_head(design: &Design, signal: SigId, heads: &mut [Option<SigId>]) {
    if let Some(process) = driver_of(design, signal) {
        if process < heads.len() {
            heads[process] = Some(signal);
        }
    }
}

// The head of a signal's process; none where the signal is not combinational.
fn head_of(design: &Design, heads: &[Option<SigId>], signal: SigId) -> Option<SigId> {
    match driver_of(design, signal) {
        Some(process) => heads.get(process).copied().flatten(),
        None => None,
    }
}

fn driver_of(design: &Design, signal: SigId) -> Option<usize> {
    if (signal.0 as usize) < design.signals().len() {
        design.driver(signal)
    } else {
        None
    }
}

fn reads_for(design: &Design, signal: SigId) -> &[SigId] {
    if (signal.0 as usize) < design.signals().len() {
        design.reads_for(signal)
    } else {
        &[]
    }
}

// From each head to the signals of its process.
fn targets_of(
    alloc: Global,
    design: &Design,
    heads: &[Option<SigId>],
) -> Result<Graph, AllocError> {
    let mut targets = Graph::new(alloc, design.signals().len())?;
    for signal in design.order() {
        if let Some(head) = head_of(design, heads, *signal) {
            add_edge(head, *signal, &mut targets)?;
        }
    }
    Ok(targets)
}

// Adds an edge to a graph that has the signal that it leads from.
fn add_edge(from: SigId, to: SigId, graph: &mut Graph) -> Result<(), AllocError> {
    if (from.0 as usize) < graph.rows.len() {
        graph.add(from, to)?;
    }
    Ok(())
}

// The signals that a signal's edges lead to.
fn row_of(signal: SigId, graph: &Graph) -> &[SigId] {
    match graph.rows.get(signal.0 as usize) {
        Some(row) => row.as_slice(),
        None => &[],
    }
}

// A head waits for one thing less.
fn settle(head: SigId, queue: &mut Queue) -> Result<(), AllocError> {
    let h = head.0 as usize;
    if h < queue.counts.len() && queue.counts[h] > 0 {
        queue.settle_all(&[head])?;
    }
    Ok(())
}

fn settle_all(heads: &[SigId], queue: &mut Queue) -> Result<(), AllocError> {
    for head in heads {
        settle(*head, queue)?;
    }
    Ok(())
}
