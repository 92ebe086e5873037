// How many nodes are put into a path, as far as the limit.
ghost use Rattle.std.specs.Prelude.{◌≡◌, ◌≤◌, ◌*◌, ◌+◌, min};
ghost use Rattle.std.specs.List.{list_any};
ghost use Rattle.sv_flat.specs.Views.{typed_tree, typed_trees, node_tree, parts_of};
ghost use Rattle.sv_paths.specs.Alongs.{is_large_trail};
ghost use Rattle.sv_obl.specs.Nodes.{nodes_in, nodes_under, nodes_in_parts};
ghost use Rattle.sv_obl.specs.Routes.{with_nodes};
ghost use Rattle.sv_paths.specs.RouteObligations.{is_large};
ghost use Rattle.sv_paths.specs.RouteViews.{route_form, route_forms};
ghost use Rattle.sv_paths.specs.TrailViews.{trail_form, trail_forms};

use crate::faults::MOST_NODES;
use crate::routes::Route;
use crate::trails::Trail;
use sv_flat::{FExpr, FNode};

/// The sum of two counts, up to one over the limit.
pub fn sum(first: u32, second: u32) -> u32
    ensures { result ≡ min (first + second) 65537 }
{
    first.saturating_add(second).min(MOST_NODES + 1)
}

// The nodes of an expression, up to one over the limit.
#[cycle(nodes_in)]
fn nodes_in(expr: &FExpr) -> u32
    ensures { result ≡ min (nodes_in (typed_tree expr.now)) 65537 }
{
    sum(1, nodes_under(&expr.node))
}

#[cycle(nodes_in)]
fn nodes_under(node: &FNode) -> u32
    ensures { result ≡ min (nodes_under (node_tree node.now)) 65537 }
{
    match node {
        FNode::Number(_) => 0,
        FNode::Signal(_, _) => 0,
        FNode::Bit(_, _, index) => nodes_in(index),
        FNode::Part(_, _, _, _) => 0,
        FNode::Unary(_, operand) => nodes_in(operand),
        FNode::Binary(_, left, right) => sum(nodes_in(left), nodes_in(right)),
        FNode::Choice(_, cond, yes, no) => { sum(sum(nodes_in(cond), nodes_in(yes)), nodes_in(no)) }
        FNode::Join(parts) => nodes_in_parts(parts),
        FNode::Repeat(_, parts) => nodes_in_parts(parts),
        FNode::Held(_, value) => nodes_in(value),
        FNode::HeldBit(_, _, value, index) => sum(nodes_in(value), nodes_in(index)),
        FNode::HeldPart(_, _, value, _, _) => nodes_in(value),
        FNode::Mend(_, old, _, _, piece) => sum(nodes_in(old), nodes_in(piece)),
        FNode::Slice(value, _, _) => nodes_in(value),
    }
}

#[cycle(nodes_in)]
fn nodes_in_parts(parts: &[FExpr]) -> u32
    ensures { result ≡ min (nodes_in_parts (parts_of (typed_trees parts.now))) 65537 }
{
    let mut total = 0;
    for part in parts {
        total = sum(total, nodes_in(part));
    }
    total
}

// So many times so many nodes, up to one over the limit.
fn times(count: usize, nodes: u32) -> u32
    requires few { nodes ≤ 65537 }
    ensures { result ≡ min (count * nodes) 65537 }
{
    if nodes == 0 {
        return 0;
    }
    let most = MOST_NODES + 1;
    if count > most as usize {
        return most;
    }
    (count as u64 * u64::from(nodes)).min(u64::from(most)) as u32
}

// The nodes of a right side, as often as they count, up to one over the limit.
fn nodes_of(count: usize, right: &FExpr) -> u32
    ensures { result ≡ min (count * nodes_in (typed_tree right.now)) 65537 }
{
    if count == 0 {
        return 0;
    }
    times(count, nodes_in(right))
}

/// So many nodes, and those of a right side that is put in, as often as they count: up to one over
/// the limit.
pub fn with_nodes(nodes: u32, count: usize, right: &FExpr) -> u32
    ensures { result ≡ with_nodes nodes count (typed_tree right.now) }
{
    sum(nodes, nodes_of(count, right))
}

// Whether over 65,536 nodes are put into the path.
fn is_large(route: &Route) -> bool
    ensures { result ≡ is_large (route_form route.now) }
{
    route.nodes > MOST_NODES
}

/// Whether over 65,536 nodes are put into one of the paths.
pub fn some_large(routes: &[Route]) -> bool
    ensures { result ≡ list_any is_large (route_forms routes.now) }
{
    routes.iter().any(is_large)
}

// Whether over 65,536 nodes are put into the path, where several names are wanted at once.
fn is_large_trail(trail: &Trail) -> bool
    ensures { result ≡ is_large_trail (trail_form trail.now) }
{
    trail.nodes > MOST_NODES
}

/// Whether over 65,536 nodes are put into one of such paths.
pub fn some_trail_large(trails: &[Trail]) -> bool
    ensures { result ≡ list_any is_large_trail (trail_forms trails.now) }
{
    trails.iter().any(is_large_trail)
}
