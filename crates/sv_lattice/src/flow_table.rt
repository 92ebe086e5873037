// The table of a lattice while it is made.
ghost use Rattle.std.specs.Prelude.{◌≡◌, ℕ, ◌^◌, ◌<◌, ◌≤◌, ◌==◌, [], length, IfOk, MatchOption};
ghost use Rattle.std.specs.Int.{bit_at};
ghost use Rattle.std.specs.List.{All};
ghost use Rattle.sv_lattice.specs.Flows.{IsKnown, IsFirstUnknown, IsDeclared, EachPair};
ghost use Rattle.sv_lattice.specs.Tables.{flow_test, IsWithin, IsTableOf, GainsFlow, IsTurned};

use std::alloc::{AllocError, Global};

/// Whether a row has the point.
pub fn has(row: u32, point: usize) -> bool
    requires { point < 32 }
    ensures { result ≡ (bit_at row point == 1) }
{
    row >> point & 1 == 1
}

/// The first pair with a number that is no point.
pub fn first_unknown(points: u32, pairs: &[(u32, u32)]) -> Option<usize>
    ensures { MatchOption result (All (IsKnown points) pairs.now)
        (IsFirstUnknown points pairs.now) }
{
    pairs
        .iter()
        .position(|pair| pair.0 >= points || pair.1 >= points)
}

/// The table in which each point flows to itself alone.
pub fn alone(alloc: Global, points: u32) -> Result<Vec<u32>, AllocError>
    requires { points ≤ 32 }
    ensures { IfOk result (λ table. IsTableOf points [] table.items) }
{
    let mut table = Vec::with_capacity(alloc, points as usize)?;
    for point in 0..points {
        table.push(1 << point)?;
    }
    Ok(table)
}

/// Adds what follows where one point flows to another: whatever flows to the first flows to all
/// that the second does.
pub fn add_flow(table: &mut [u32], from: usize, to: usize)
    requires count { length table.old ≤ 32 }
    requires from { from < length table.old }
    requires to { to < length table.old }
    ensures exact { EachPair (length table.old) (GainsFlow table.old table.new from to) }
    ensures within { IsWithin (length table.old) table.old → IsWithin (length table.old) table.new }
{
    let gained = table[to];
    for row in table.iter_mut() {
        if has(*row, from) {
            *row |= gained;
        }
    }
}

/// The table of what the pairs declare.
pub fn closed(alloc: Global, points: u32, pairs: &[(u32, u32)]) -> Result<Vec<u32>, AllocError>
    requires { IsDeclared points pairs.now }
    ensures { IfOk result (λ table. IsTableOf points pairs.now table.items) }
{
    let mut table = alone(alloc, points)?;
    for pair in pairs {
        let from = pair.0 as usize;
        let to = pair.1 as usize;
        if !has(table[from], to) {
            add_flow(&mut table, from, to);
        }
    }
    Ok(table)
}

/// The points that flow to the given one, as a row.
pub fn column(table: &[u32], point: usize) -> u32
    requires count { length table.now ≤ 32 }
    requires point { point < length table.now }
    ensures exact { (a : ℕ) → a < length table.now →
        (bit_at result a == 1) ≡ flow_test table.now a point }
    ensures within { result < 2 ^ length table.now }
{
    let mut row = 0;
    for (a, other) in table.iter().enumerate() {
        if has(*other, point) {
            row |= 1 << a;
        }
    }
    row
}

/// The table of the flows the other way round.
pub fn transposed(alloc: Global, table: &[u32]) -> Result<Vec<u32>, AllocError>
    requires { length table.now ≤ 32 }
    ensures size { IfOk result (λ turned. length turned.items ≡ length table.now) }
    ensures turned { IfOk result (λ turned. IsTurned table.now turned.items) }
    ensures within { IfOk result (λ turned. IsWithin (length table.now) turned.items) }
{
    let mut turned = Vec::with_capacity(alloc, table.len())?;
    for point in 0..table.len() {
        turned.push(column(table, point))?;
    }
    Ok(turned)
}
