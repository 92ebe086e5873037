// The first two points that break what a lattice asks for, found in its table.
ghost use Rattle.std.specs.Prelude.{◌↔◌, ◌<◌, ◌≤◌, length, IsTrue};
ghost use Rattle.sv_lattice.specs.Tables.{FlowsTo, IsWithin, IsPreorder, FindsNumber, FindsPair};
ghost use Rattle.sv_lattice.specs.Tables.{AreApart, HaveJoin};

use crate::flow_table::has;

/// The first two different points that flow to each other.
pub fn first_circle(table: &[u32]) -> Option<(u32, u32)>
    requires { length table.now ≤ 32 }
    ensures { FindsPair (length table.now) (AreApart table.now) result }
{
    (0..table.len()).find_map(|first| {
        circle_with(table, first).map(|second| (first as u32, second as u32))
    })
}

fn circle_with(table: &[u32], first: usize) -> Option<usize>
    requires count { length table.now ≤ 32 }
    requires first { first < length table.now }
    ensures { FindsNumber (length table.now) (AreApart table.now first) result }
{
    (0..table.len()).find(|second| {
        *second != first && has(table[first], *second) && has(table[*second], first)
    })
}

/// The first two points without a least upper point.
pub fn first_unjoined(table: &[u32]) -> Option<(u32, u32)>
    requires count { length table.now ≤ 32 }
    requires within { IsWithin (length table.now) table.now }
    requires preorder { IsPreorder (length table.now) (FlowsTo table.now) }
    ensures { FindsPair (length table.now) (HaveJoin table.now) result }
{
    (0..table.len()).find_map(|first| {
        unjoined_with(table, first).map(|second| (first as u32, second as u32))
    })
}

fn unjoined_with(table: &[u32], first: usize) -> Option<usize>
    requires within { IsWithin (length table.now) table.now }
    requires preorder { IsPreorder (length table.now) (FlowsTo table.now) }
    requires first { first < length table.now }
    ensures { FindsNumber (length table.now) (HaveJoin table.now first) result }
{
    (0..table.len()).find(|second| !have_join(table, first, *second))
}

// The upper points of two points are those that both rows have, and they are the row of the least
// of them.
fn have_join(table: &[u32], first: usize, second: usize) -> bool
    requires within { IsWithin (length table.now) table.now }
    requires preorder { IsPreorder (length table.now) (FlowsTo table.now) }
    requires first { first < length table.now }
    requires second { second < length table.now }
    ensures { IsTrue result ↔ HaveJoin table.now first second }
{
    table.contains(&(table[first] & table[second]))
}
