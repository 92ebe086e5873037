// The signals read for each signal.
ghost use Rattle.std.specs.Prelude.{◌≡◌, ◌<◌, ◌≤◌, ◌^◌, ◌==◌, ◌&&◌, nat_lt, ℕ, [], length, map};
ghost use Rattle.std.specs.Prelude.{IsTrue, OnOk, IfOk};
ghost use Rattle.sv_flat.specs.Assigned.{can_assign};
ghost use Rattle.sv_flat.specs.Clocks.{processes_of};
ghost use Rattle.sv_flat.specs.Drivers.{driver_faults};
ghost use Rattle.sv_flat.specs.Processes.{is_block, is_register, signal_numbers};
ghost use Rattle.sv_flat.specs.Readings.{no_bits};
ghost use Rattle.sv_flat.specs.Reads.{reads_for};
ghost use Rattle.sv_flat.specs.Soundness.{sound, statement_sound, well_formed};
ghost use Rattle.sv_flat.specs.Views.{design_of, typed_tree, process_kind, process_form};
ghost use Rattle.sv_flat.specs.Views.{flat_statement, flat_statements, chain_of};
ghost use Rattle.sv_graph.specs.BitGraphs.{in_row, IsRow, size, has_edge, IsOver, GainsEdges};
ghost use Rattle.sv_graph.specs.BitSets.{in_bits, has_some, HasTargetsBelow};
ghost use Rattle.sv_design.specs.Feeds.{is_sought, names_sought, feeds, sought_in, feeds_in};
ghost use Rattle.sv_graph.specs.BitGraphs.{leads_through};
ghost use Rattle.sv_design.specs.Feeds.{AreWants};
ghost use Rattle.sv_graph.specs.Graphs.{rows_of};
ghost use Rattle.sv_graph.specs.Marks.{is_marked, IsTable};
ghost use Rattle.sv_rules.specs.Phases.{SameBits};
ghost use Rattle.sv_rules.specs.ReadForms.{read_form};
ghost use Rattle.sv_rules.specs.Surroundings.{in_surrounding};

use std::alloc::{AllocError, Global};
use sv_flat::{FExpr, FStmt, Flat, ProcKind, Process, SigId};
use sv_graph::{BitGraph, BitSet, Graph, row_of, share};
use sv_rules::{Read, Surrounding, add_pieces, bits_read, names_in};

/// Which reads of a process are sought: the earlier ones of an `always @*`, where an assignment to
/// a bit that is read can follow the read, or all others.
#[derive(Clone, Copy)]
pub struct Sought {
    pub in_block: bool,
    pub earlier: bool,
}

// Whether a read is sought, where some bits can be assigned after it.
fn is_sought(flat: &Flat, sought: Sought, read: &Read, later: &Surrounding) -> bool
    requires sound { IsTrue (sound (design_of flat.now)) }
    requires known { read.now.signal.0 < length flat.now.signals.items }
    ensures { result ≡ is_sought (design_of flat.now).signals sought (in_surrounding later.now)
        (read_form read.now) }
{
    let bits = bits_read(flat.signals[read.signal.0 as usize].width, read);
    let is_earlier = sought.in_block & share(bits, later.of(read.signal));
    if sought.earlier {
        is_earlier
    } else {
        !is_earlier
    }
}

// Adds edges from a name to each signal of a row, where the name is sought.
fn add_name(
    flat: &Flat,
    graph: &mut BitGraph,
    sought: Sought,
    name: &Read,
    later: &Surrounding,
    targets: &[u64],
)
    requires sound { IsTrue (sound (design_of flat.now)) }
    requires over { IsOver (length flat.now.signals.items) graph.old }
    requires known { name.now.signal.0 < length flat.now.signals.items }
    requires targets { IsRow (length flat.now.signals.items) targets.now }
    ensures over { IsOver (length flat.now.signals.items) graph.new }
    ensures gains { GainsEdges graph.old graph.new (λ a b.
        ((name.now.signal.0 == a) && is_sought (design_of flat.now).signals sought
        (in_surrounding later.now) (read_form name.now)) && in_row targets.now b) }
{
    if is_sought(flat, sought, name, later) {
        graph.add_row(name.signal, targets);
    }
}

// What an expression is read for: the signals with a bit in `targets`, where the bits in `later`
// can be assigned after it.
#[derive(Clone, Copy)]
struct Served<'a> {
    targets: &'a BitSet,
    later: &'a Surrounding<'a>,
}

// Adds edges from the names in an expression that are sought to each signal that it is read for.
fn add_reads(
    alloc: Global,
    flat: &Flat,
    graph: &mut BitGraph,
    sought: Sought,
    expr: &FExpr,
    served: &Served,
) -> Result<(), AllocError>
    requires sound { IsTrue (sound (design_of flat.now)) }
    requires formed { IsTrue (well_formed (design_of flat.now).signals (typed_tree expr.now)) }
    requires over { IsOver (length flat.now.signals.items) graph.old }
    requires targets { HasTargetsBelow (length flat.now.signals.items) served.now.targets.now }
    ensures over { IsOver (length flat.now.signals.items) graph.new }
    ensures gains { OnOk result (GainsEdges graph.old graph.new (λ a b.
        names_sought (design_of flat.now).signals sought (in_surrounding served.now.later.now)
        (typed_tree expr.now) a && has_some served.now.targets.now b)) }
{
    let names = names_in(alloc, flat.signals.as_slice(), expr)?;
    let row = row_of(alloc, flat.signals.len(), served.targets)?;
    for name in &names {
        add_name(flat, graph, sought, name, served.later, &row);
    }
    Ok(())
}

// Adds an edge from each signal that a statement reads, as it is sought, to each that it is read
// for there, and gives the bits that the statement can assign. Some bits can be assigned after it.
#[cycle(follow)]
fn follow(
    alloc: Global,
    flat: &Flat,
    graph: &mut BitGraph,
    sought: Sought,
    stmt: &FStmt,
    later: &Surrounding,
) -> Result<BitSet, AllocError>
    requires sound { IsTrue (sound (design_of flat.now)) }
    requires body { IsTrue
        (statement_sound (design_of flat.now).signals (flat_statement stmt.now)) }
    requires over { IsOver (length flat.now.signals.items) graph.old }
    ensures over { IsOver (length flat.now.signals.items) graph.new }
    ensures bits { IfOk result (λ bits.
        SameBits (in_bits bits) (can_assign (flat_statement stmt.now))) }
    ensures gains { OnOk result
        (GainsEdges graph.old graph.new
        (feeds (design_of flat.now).signals sought (flat_statement stmt.now)
        (in_surrounding later.now))) }
{
    match stmt {
        FStmt::Assign { pieces, value, .. } => {
            let mut bits = BitSet::new(alloc);
            add_pieces(&mut bits, pieces)?;
            let inside = Surrounding::Inside(&bits, &*later);
            let served = Served {
                targets: &bits,
                later: &inside,
            };
            add_reads(alloc, flat, graph, sought, value, &served)?;
            Ok(bits)
        }
        FStmt::Block(stmts) => follow_all(alloc, flat, graph, sought, stmts, later),
        FStmt::If { cond, yes, no, .. } => {
            let by_yes = follow(alloc, flat, graph, sought, yes, later)?;
            let mut bits = follow(alloc, flat, graph, sought, no, later)?;
            bits.add_all(&by_yes)?;
            let inside = Surrounding::Inside(&bits, &*later);
            let served = Served {
                targets: &bits,
                later: &inside,
            };
            add_reads(alloc, flat, graph, sought, cond, &served)?;
            Ok(bits)
        }
    }
}

// The same of some statements, one after the other.
#[cycle(follow)]
fn follow_all(
    alloc: Global,
    flat: &Flat,
    graph: &mut BitGraph,
    sought: Sought,
    stmts: &[FStmt],
    later: &Surrounding,
) -> Result<BitSet, AllocError>
    requires sound { IsTrue (sound (design_of flat.now)) }
    requires body { IsTrue
        (statement_sound (design_of flat.now).signals (chain_of (flat_statements stmts.now))) }
    requires over { IsOver (length flat.now.signals.items) graph.old }
    ensures over { IsOver (length flat.now.signals.items) graph.new }
    ensures bits { IfOk result (λ bits.
        SameBits (in_bits bits) (can_assign (chain_of (flat_statements stmts.now)))) }
    ensures gains { OnOk result
        (GainsEdges graph.old graph.new
        (feeds (design_of flat.now).signals sought (chain_of (flat_statements stmts.now))
        (in_surrounding later.now))) }
{
    let mut here = BitSet::new(alloc);
    for i in 0..stmts.len() {
        let stmt = &stmts[stmts.len() - 1 - i];
        let inside = Surrounding::Inside(&here, &*later);
        let bits = follow(alloc, flat, graph, sought, stmt, &inside)?;
        here.add_all(&bits)?;
    }
    Ok(here)
}

// Adds an edge from a register to itself.
fn add_register(graph: &mut BitGraph, signal: SigId, is_register: bool)
    requires signal { signal.0 < size graph.old }
    requires over { IsOver (size graph.old) graph.old }
    ensures over { IsOver (size graph.old) graph.new }
    ensures gains { GainsEdges graph.old graph.new (λ a b.
        is_register && ((signal.0 == a) && (signal.0 == b))) }
{
    if is_register {
        graph.add(signal, signal);
    }
}

// Whether a process is an `always @*`.
fn is_block(kind: ProcKind) -> bool
    ensures { result ≡ is_block (process_kind kind) }
{
    matches!(kind, ProcKind::Comb)
}

// Adds an edge from each signal that a process reads, by an earlier read or by any other, to each
// that it is read for there.
fn follow_process(
    alloc: Global,
    flat: &Flat,
    graph: &mut BitGraph,
    process: &Process,
    earlier: bool,
) -> Result<(), AllocError>
    requires sound { IsTrue (sound (design_of flat.now)) }
    requires body { IsTrue
        (statement_sound (design_of flat.now).signals (flat_statement process.now.body)) }
    requires over { IsOver (length flat.now.signals.items) graph.old }
    ensures over { IsOver (length flat.now.signals.items) graph.new }
    ensures gains { OnOk result
        (GainsEdges graph.old graph.new
        (feeds (design_of flat.now).signals (sought_in earlier (process_form process.now))
        (flat_statement process.now.body) no_bits)) }
{
    let in_block = is_block(process.kind);
    let has_none = earlier & !in_block;
    if has_none {
        return Ok(());
    }
    let nothing = Surrounding::Nothing;
    let sought = Sought { in_block, earlier };
    follow(alloc, flat, graph, sought, &process.body, &nothing)?;
    Ok(())
}

// The graph that leads from each signal to those that it is read for in the processes by an earlier
// read, or by any other: those that are assigned by its name, or in an arm of a condition with its
// name.
fn readers_of(
    alloc: Global,
    flat: &Flat,
    processes: &[Process],
    earlier: bool,
) -> Result<BitGraph, AllocError>
    requires sound { IsTrue (sound (design_of flat.now)) }
    requires processes { map process_form processes.now ≡ processes_of (design_of flat.now) }
    ensures over { IfOk result (IsOver (length flat.now.signals.items)) }
    ensures edges { IfOk result (λ graph.
        (a b : ℕ) → has_edge graph a b ≡
        feeds_in (design_of flat.now).signals earlier (processes_of (design_of flat.now)) a b) }
{
    let mut graph = BitGraph::new(alloc, flat.signals.len())?;
    for process in processes {
        follow_process(alloc, flat, &mut graph, process, earlier)?;
    }
    Ok(graph)
}

// Adds an edge from each register to itself.
fn add_registers(graph: &mut BitGraph, registers: &[bool])
    requires size { length registers.now ≡ size graph.old }
    requires few { length registers.now ≤ 2 ^ 32 }
    requires over { IsOver (size graph.old) graph.old }
    ensures over { IsOver (size graph.old) graph.new }
    ensures gains { GainsEdges graph.old graph.new (λ a b.
        nat_lt b (length registers.now) && (is_marked registers.now b && (b == a))) }
{
    for (s, is_register) in registers.iter().enumerate() {
        add_register(graph, SigId(s as u32), *is_register);
    }
}

// From the graph of settled reads that of all reads: a signal is read for what it is read for by a
// settled read, and for what that is read for by an earlier one, to the end.
fn follow_earlier(
    alloc: Global,
    graph: &mut BitGraph,
    mut earlier: BitGraph,
) -> Result<(), AllocError>
    requires few { size graph.old < 2 ^ 32 }
    requires over { IsOver (size graph.old) graph.old }
    requires earlier { IsOver (size graph.old) earlier }
    ensures over { IsOver (size graph.old) graph.new }
    ensures edges { OnOk result ((a b : ℕ) → b < size graph.old →
        has_edge graph.new a b ≡
        leads_through (size graph.old) (has_edge graph.old) (has_edge earlier) a b) }
{
    if !earlier.has_edges() {
        return Ok(());
    }
    earlier.close(alloc)?;
    graph.follow(alloc, &earlier)?;
    Ok(())
}

/// What the processes read for each signal.
#[derive(Drop)]
pub struct ReadGraphs {
    /// For each signal those read for it, in signal order.
    pub reads: Graph,
    /// For each signal those of which an earlier value is read for it.
    pub wants: Graph,
}

/// For each signal the signals read for it, in signal order, of a design whose signals have one
/// driver each: those that it is assigned by, those in a condition with an arm that assigns it, for
/// an earlier read what is read for its signal, and a register itself; and for each the signals of
/// its earlier reads. It fails where memory runs out.
pub fn reads_of(
    alloc: Global,
    flat: &Flat,
    processes: &[Process],
    registers: &[bool],
) -> Result<ReadGraphs, AllocError>
    requires sound { IsTrue (sound (design_of flat.now)) }
    requires processes { map process_form processes.now ≡ processes_of (design_of flat.now) }
    requires registers { IsTable (length flat.now.signals.items) registers.now
        (is_register (design_of flat.now)) }
    requires drivers { driver_faults (design_of flat.now) ≡ [] }
    ensures reads { IfOk result (λ graphs.
        rows_of graphs.reads ≡ map (reads_for (design_of flat.now))
        (signal_numbers (design_of flat.now))) }
    ensures wants { IfOk result (λ graphs. AreWants (design_of flat.now) graphs.wants) }
{
    let mut readers = readers_of(alloc, flat, processes, false)?;
    let earlier = readers_of(alloc, flat, processes, true)?;
    let wants = earlier.turned(alloc)?;
    follow_earlier(alloc, &mut readers, earlier)?;
    add_registers(&mut readers, registers);
    let reads = readers.turned(alloc)?;
    Ok(ReadGraphs { reads, wants })
}
