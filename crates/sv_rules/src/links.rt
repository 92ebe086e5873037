// Links of ports by whole names.
ghost use Rattle.std.specs.Prelude.{◌≡◌, ℕ, option_map, length, IsTrue, OnOk, IfOk};
ghost use Rattle.sv_flat.specs.Clocks.{whole_name, whole_link, link_in, link_out, links_in};
ghost use Rattle.sv_flat.specs.Clocks.{lists_pair, makes_clock};
ghost use Rattle.sv_flat.specs.Soundness.{sound};
ghost use Rattle.sv_flat.specs.Views.{design_of, process_form, typed_tree, flat_statement};
ghost use Rattle.sv_graph.specs.Graphs.{size, has_edge, GainsEdges, IsWhole};
ghost use Rattle.sv_rules.specs.Links.{link_of, turned, is_pair, IsBelow, edge_of, edges_of};

use std::alloc::{AllocError, Global};
use sv_flat::{FExpr, FNode, FStmt, Flat, ProcKind, Process, SigId};
use sv_graph::Graph;

/// A link by a whole name: the signal that is assigned, and the signal that is read.
#[derive(Clone, Copy)]
pub struct Link {
    pub target: SigId,
    pub source: SigId,
}

// The signal, where the expression is a whole name.
fn whole_name(expr: &FExpr) -> Option<SigId>
    ensures { option_map (λ s. s.0) result ≡ whole_name (typed_tree expr.now) }
{
    match &expr.node {
        FNode::Signal(signal, _) => Some(*signal),
        _ => None,
    }
}

// The link of a signal to another, where there is one.
fn link_to(target: SigId, source: Option<SigId>) -> Option<Link>
    ensures { link_of result ≡ option_map (λ s. (target.0, s.0)) source }
{
    source.map(|source| Link { target, source })
}

// The link, where a statement is one by a whole name.
fn whole_link(body: &FStmt) -> Option<Link>
    ensures { link_of result ≡ whole_link (flat_statement body.now) }
{
    match body {
        FStmt::Assign { pieces, value, .. } => match pieces.as_slice() {
            [piece] => link_to(piece.signal, whole_name(value)),
            _ => None,
        },
        FStmt::Block(_) => None,
        FStmt::If { .. } => None,
    }
}

/// The link to an input port, where a process is one by a whole name: of a port and the name that
/// is linked to it.
pub fn link_in(process: &Process) -> Option<Link>
    ensures { link_of result ≡ link_in (process_form process.now) }
{
    match process.kind {
        ProcKind::PortIn => whole_link(&process.body),
        _ => None,
    }
}

// The link of an output port, where a process is one by a whole name: of a net and the port that is
// linked to it.
fn link_out(process: &Process) -> Option<Link>
    ensures { link_of result ≡ link_out (process_form process.now) }
{
    match process.kind {
        ProcKind::PortOut => whole_link(&process.body),
        _ => None,
    }
}

// A link read the other way.
fn turned(link: Option<Link>) -> Option<Link>
    ensures { link_of result ≡ option_map turned (link_of link) }
{
    link.map(|link| Link {
        target: link.source,
        source: link.target,
    })
}

/// Which edges links give: from input ports to the names that are linked to them, from names to
/// these ports, or from output ports to the nets that are linked to them.
#[derive(Clone, Copy)]
pub enum Edges {
    ToNames,
    ToInputs,
    ToNets,
}

// The edge that a process gives, as a link of what it leads from and what it leads to.
fn edge_of(edges: Edges, process: &Process) -> Option<Link>
    ensures { link_of result ≡ edge_of edges (process_form process.now) }
{
    match edges {
        Edges::ToNames => link_in(process),
        Edges::ToInputs => turned(link_in(process)),
        Edges::ToNets => turned(link_out(process)),
    }
}

// Adds an edge, where there is one.
fn add_edge(graph: &mut Graph, edge: Option<Link>) -> Result<(), AllocError>
    requires { IsBelow (size graph.old) (link_of edge) }
    ensures size { size graph.new ≡ size graph.old }
    ensures gains { OnOk result (GainsEdges graph.old graph.new (is_pair (link_of edge))) }
    ensures whole { OnOk result (IsWhole graph.old → IsWhole graph.new) }
{
    match edge {
        Some(edge) => graph.add(edge.target, edge.source),
        None => Ok(()),
    }
}

// Adds the edges that links give.
fn add_edges(graph: &mut Graph, flat: &Flat, edges: Edges) -> Result<(), AllocError>
    requires sound { IsTrue (sound (design_of flat.now)) }
    requires size { size graph.old ≡ length flat.now.signals.items }
    ensures size { size graph.new ≡ length flat.now.signals.items }
    ensures gains { OnOk result (GainsEdges graph.old graph.new
        (lists_pair (edges_of edges (design_of flat.now).processes))) }
    ensures whole { OnOk result (IsWhole graph.old → IsWhole graph.new) }
{
    for process in &flat.processes {
        add_edge(graph, edge_of(edges, process))?;
    }
    Ok(())
}

/// The graph that leads from each input port to the whole names that are linked to it. It fails
/// where memory runs out.
pub fn origins_of(alloc: Global, flat: &Flat) -> Result<Graph, AllocError>
    requires { IsTrue (sound (design_of flat.now)) }
    ensures size { IfOk result (λ graph. size graph ≡ length flat.now.signals.items) }
    ensures edges { IfOk result (λ graph.
        (a b : ℕ) → has_edge graph a b ≡ lists_pair (links_in (design_of flat.now)) a b) }
    ensures whole { IfOk result IsWhole }
{
    let mut graph = Graph::new(alloc, flat.signals.len())?;
    add_edges(&mut graph, flat, Edges::ToNames)?;
    Ok(graph)
}

/// The graph that leads from each signal to those that are clocks where it is one. It fails where
/// memory runs out.
pub fn clock_graph(alloc: Global, flat: &Flat) -> Result<Graph, AllocError>
    requires { IsTrue (sound (design_of flat.now)) }
    ensures size { IfOk result (λ graph. size graph ≡ length flat.now.signals.items) }
    ensures edges { IfOk result (λ graph.
        (a b : ℕ) → has_edge graph a b ≡ makes_clock (design_of flat.now) a b) }
    ensures whole { IfOk result IsWhole }
{
    let mut graph = origins_of(alloc, flat)?;
    add_edges(&mut graph, flat, Edges::ToNets)?;
    add_edges(&mut graph, flat, Edges::ToInputs)?;
    Ok(graph)
}
