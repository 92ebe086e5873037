// Lattices.
ghost use Rattle.std.specs.Prelude.{◌≡◌, ℕ, ◌<◌, ◌≤◌, ◌^◌, length, OnOk, IfOk, IfErr, MatchResult};
ghost use Rattle.sv_lattice.specs.Flows.{Flows, EachPair, IsDeclared, IsFaultOf, IsLattice};
ghost use Rattle.sv_lattice.specs.Tables.{flow_test, FlowsTo, IsWithin, IsPreorder, IsTableOf};
ghost use Rattle.sv_lattice.specs.Tables.{IsLatticeTable, IsOrderFault, IsTurned};

use crate::bounds::{first_circle, first_unjoined};
use crate::flow_table::{closed, first_unknown, has, transposed};
use crate::points::{LatticeFault, Point};
use std::alloc::{AllocError, Global};
use std::marker::Model;

// The greatest number of points of a lattice.
const MAX_POINTS: u32 = 32;

/// A lattice of 1 to 32 points. One point flows to another where a list of points leads from the
/// one to the other by the declared pairs; no two different points flow to each other, and any two
/// have a least upper and a greatest lower point. A contract sees it as its table.
#[derive(Debug, Drop)]
pub struct Lattice {
    table: Vec<u32>,
}

impl Model for Lattice {
    ghost use Rattle.std.specs.Prelude.{ℕ, List};
    ghost use Rattle.sv_lattice.specs.Tables.{IsLatticeTable};

    ghost Value = { List ℕ };

    ghost view = { λ l. l.table.items };

    ghost invariant = { λ l. IsLatticeTable l.table.items };
}

// What the points of a table lack to be a lattice, given the table of the flows the other way
// round.
fn check_order(table: &[u32], turned: &[u32]) -> Result<(), LatticeFault>
    requires count { length table.now ≤ 32 }
    requires table { IsWithin (length table.now) table.now }
    requires preorder { IsPreorder (length table.now) (FlowsTo table.now) }
    requires size { length turned.now ≡ length table.now }
    requires within { IsWithin (length table.now) turned.now }
    requires turned { IsTurned table.now turned.now }
    ensures { MatchResult result (λ _.
        IsLattice (length table.now) (FlowsTo table.now))
        (IsOrderFault (length table.now) (FlowsTo table.now)) }
{
    if let Some((first, second)) = first_circle(table) {
        return Err(LatticeFault::Circle(first, second));
    }
    if let Some((first, second)) = first_unjoined(table) {
        return Err(LatticeFault::NoJoin(first, second));
    }
    if let Some((first, second)) = first_unjoined(turned) {
        return Err(LatticeFault::NoMeet(first, second));
    }
    Ok(())
}

impl Lattice {
    /// The lattice of so many points, numbered from 0, in which the first point of each pair flows
    /// to the second.
    ///
    /// A fault tells of the first thing that is wrong, in the order of the variants of
    /// [`LatticeFault`], and of the first pair of points in order of both numbers.
    pub fn build(alloc: Global, points: u32, pairs: &[(u32, u32)]) -> Result<Lattice, LatticeFault>
        requires { length pairs.now < 2 ^ 32 }
        ensures lattice { OnOk result (IsDeclared points pairs.now
            × IsLattice points (Flows pairs.now)) }
        ensures flows { IfOk result (IsTableOf points pairs.now) }
        ensures fault { IfErr result (IsFaultOf points pairs.now) }
    {
        if points == 0 || points > MAX_POINTS {
            return Err(LatticeFault::Size);
        }
        if let Some(pair) = first_unknown(points, pairs) {
            return Err(LatticeFault::Unknown(pair as u32));
        }
        let table = closed(alloc, points, pairs)?;
        let turned = transposed(alloc, &table)?;
        check_order(&table, &turned)?;
        Ok(Lattice { table })
    }

    /// Whether point `a` flows to point `b`.
    pub fn flows(&self, a: Point, b: Point) -> bool
        requires a { a.0 < length self.now }
        requires b { b.0 < length self.now }
        ensures flows { result ≡ flow_test self.now a.0 b.0 }
        ensures lattice { IsLatticeTable self.now }
    {
        has(self.table[a.0 as usize], b.0 as usize)
    }

    /// The point that flows to every point.
    pub fn least(&self) -> Point
        ensures point { result.0 < length self.now }
        ensures least { (b : ℕ) → b < length self.now → FlowsTo self.now result.0 b }
        ensures lattice { IsLatticeTable self.now }
    {
        let mut least = 0;
        for point in 0..self.table.len() {
            if has(self.table[point], least) {
                least = point;
            }
        }
        Point(least as u8)
    }

    /// How many points there are.
    pub fn size(&self) -> u32
        ensures size { result ≡ length self.now }
        ensures lattice { IsLatticeTable self.now }
    {
        self.table.len() as u32
    }

    /// A second lattice that is equal.
    pub fn copy(&self, alloc: Global) -> Result<Lattice, AllocError>
        ensures { IfOk result (λ lattice. lattice ≡ self.now) }
    {
        Ok(Lattice {
            table: self.table.as_slice().to_vec(alloc)?,
        })
    }
}
