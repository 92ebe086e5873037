// Orders in which combinational signals read only earlier ones.
ghost use Rattle.std.specs.Prelude.{◌≡◌, ◌<◌, ◌≤◌, ◌^◌, ◌&&◌, ℕ, length, map, filter, Contains};
ghost use Rattle.std.specs.Prelude.{IsTrue, OnOk, IfOk};
ghost use Rattle.std.specs.List.{range_with_len};
ghost use Rattle.sv_flat.specs.Design.{FlatDesign};
ghost use Rattle.sv_flat.specs.Processes.{signal_numbers};
ghost use Rattle.sv_flat.specs.Reads.{is_combinational, reads_for};
ghost use Rattle.sv_graph.specs.Graphs.{size, row, rows_of, has_edge, IsWhole};
ghost use Rattle.sv_graph.specs.Marks.{is_marked, IsTable};
ghost use Rattle.sv_design.specs.Numbers.{numbers};
ghost use Rattle.sv_design.specs.Orders.{AreReads, HasDesign, IsLongestOrder};
ghost use Rattle.sv_design.specs.Orders.{Begins};

use std::alloc::{AllocError, Global};
use sv_flat::SigId;
use sv_graph::{Graph, Queue, has_mark, push_if};

/// Which signals are combinational; for each signal those that are read for it; and for each
/// combinational signal the combinational ones that it is read for.
#[derive(Drop)]
pub struct SignalReads {
    pub combs: Vec<bool>,
    pub reads: Graph,
    pub readers: Graph,
}

// The combinational ones of what is read for a signal, where that is combinational too.
fn combs_among(
    alloc: Global,
    combs: &[bool],
    signals: &[SigId],
    is_comb: bool,
) -> Result<Vec<SigId>, AllocError>
    requires { (k : ℕ) → Contains (numbers signals.now) k → k < length combs.now }
    ensures { IfOk result (λ among. numbers among.items ≡ filter (λ a.
        is_marked combs.now a && is_comb) (numbers signals.now)) }
{
    let mut among = Vec::new(alloc);
    for signal in signals {
        let is_source = combs[signal.0 as usize] & is_comb;
        push_if(is_source, *signal, &mut among)?;
    }
    Ok(among)
}

// The combinational signals that each combinational signal is read for.
fn comb_readers(alloc: Global, combs: &[bool], reads: &Graph) -> Result<Graph, AllocError>
    requires size { length combs.now ≡ size reads.now }
    requires whole { IsWhole reads.now }
    requires few { size reads.now < 2 ^ 32 }
    ensures size { IfOk result (λ readers. size readers ≡ size reads.now) }
    ensures rows { IfOk result (λ readers. (a : ℕ) → row readers a ≡ filter (λ b.
        is_marked combs.now b && (is_marked combs.now a && has_edge reads.now b a))
        (range_with_len 0 (size reads.now))) }
{
    let mut readers = Graph::new(alloc, combs.len())?;
    for (reader, row) in reads.rows.iter().enumerate() {
        let sources = combs_among(alloc, combs, row, combs[reader])?;
        readers.add_sources(&sources, SigId(reader as u32))?;
    }
    Ok(readers)
}

/// The tables that orders are found with, from the combinational signals and what is read for each
/// signal. It fails where memory runs out.
pub fn reads_table(alloc: Global, combs: Vec<bool>, reads: Graph) -> Result<SignalReads, AllocError>
    requires size { length combs.items ≡ size reads }
    requires whole { IsWhole reads }
    requires few { size reads < 2 ^ 32 }
    ensures { IfOk result (λ tables. (design : FlatDesign) →
        IsTable (length design.signals) combs.items (is_combinational design) →
        rows_of reads ≡ map (reads_for design) (signal_numbers design) →
        AreReads design tables) }
{
    let readers = comb_readers(alloc, &combs, &reads)?;
    Ok(SignalReads {
        combs,
        reads,
        readers,
    })
}

// How many of some signals are combinational.
fn comb_count_among(combs: &[bool], signals: &[SigId]) -> usize
    ensures { result ≡ length (filter (is_marked combs.now) (numbers signals.now)) }
{
    signals
        .iter()
        .filter(|signal| has_mark(combs, **signal))
        .count()
}

// The combinational signals that read no combinational one.
fn first_queue(alloc: Global, reads: &SignalReads) -> Result<Queue, AllocError>
    requires { HasDesign reads.now }
    ensures { IfOk result (Begins reads.now) }
{
    let mut order = Vec::new(alloc);
    let mut counts = Vec::new(alloc);
    for (s, row) in reads.reads.rows.iter().enumerate() {
        let count = comb_count_among(&reads.combs, row);
        counts.push(count)?;
        let is_first = reads.combs[s] & (count == 0);
        push_if(is_first, SigId(s as u32), &mut order)?;
    }
    Ok(Queue { order, counts })
}

/// Combinational signals in an order in which each reads only earlier ones: as many as can stand in
/// one. It fails where memory runs out.
pub fn read_order(alloc: Global, reads: &SignalReads) -> Result<Vec<SigId>, AllocError>
    requires { HasDesign reads.now }
    ensures { IfOk result (λ order. (design : FlatDesign) → AreReads design reads.now →
        IsLongestOrder design (numbers order.items)) }
{
    let mut queue = first_queue(alloc, reads)?;
    let mut next = 0;
    while next < queue.order.len() {
        let signal = queue.order[next];
        let readers = reads.readers.rows[signal.0 as usize].as_slice();
        queue.settle_all(readers)?;
        next += 1;
    }
    Ok(queue.order)
}
