// The lattice of a text.
ghost use Rattle.std.specs.Prelude.{◌≡◌, ℕ, nat_le, ◌&&◌, ◌≤◌, ◌<◌, ◌^◌, ◌∷◌, [], List, Result};
ghost use Rattle.std.specs.Prelude.{Option, Some, Ok, Err, map, option_map, unwrap_or, length};
ghost use Rattle.std.specs.Prelude.{slice_index_or, IfSome, IfOk, IfErr};
ghost use Rattle.std.specs.List.{All};
ghost use Rattle.sv_num.specs.Rules.{rule_number};
ghost use Rattle.sv_lattice.specs.Flows.{IsKnown, IsPointCount};
ghost use Rattle.sv_lattice.specs.Tables.{IsLatticeTable};
ghost use Rattle.sv_ast.specs.Views.{lattice_tree, pair_tree, text_tree};
ghost use Rattle.sv_elab_rules.specs.Walks.{WalkStep};
ghost use Rattle.sv_elab_rules.specs.Rules.{step};
ghost use Rattle.sv_elab_rules.specs.Lattices.{PointOrder, two_points, table_of, point_number};
ghost use Rattle.sv_elab_rules.specs.Lattices.{numbered_pair, checked_order, lattice_walk};
ghost use Rattle.sv_elab_rules.specs.Lattices.{least_point};
ghost use Rattle.sv_width.specs.Answers.{IsBreach};

use crate::wrong_names::distinct_names;
use indexmap::IndexSet;
use std::alloc::{AllocError, Global};
use std::marker::Model;
use sv_ast::{LatticeText, Text};
use sv_lattice::{Lattice, LatticeFault, Point};
use sv_num::{Fault, Name, OutOfMemory, Place, Rule};

// The most points that a lattice has.
const MOST_POINTS: usize = 32;

/// The points of a lattice by name, with the lattice. A contract sees the names by number, and the
/// lattice as its table.
#[derive(Drop)]
pub struct Points {
    names: IndexSet<Name>,
    lattice: Lattice,
}

impl Model for Points {
    ghost use Rattle.std.specs.Prelude.{◌≡◌, length};
    ghost use Rattle.sv_lattice.specs.Tables.{IsLatticeTable};
    ghost use Rattle.sv_elab_rules.specs.Lattices.{PointOrder};

    ghost Value = { PointOrder };

    ghost view = { λ p. record { points = p.names.keys; table = p.lattice } };

    ghost invariant = { λ p. (length p.names.keys ≡ length p.lattice) × IsLatticeTable p.lattice };
}

impl Points {
    /// The names of the points, each with the number of its point.
    pub fn names(&self) -> &IndexSet<Name>
        ensures names { result.now.keys ≡ self.now.points }
        ensures few { length result.now.keys ≤ 32 }
    {
        &self.names
    }

    /// The point that flows to every point.
    pub fn least(&self) -> Point
        ensures { result.0 ≡ least_point self.now.table }
    {
        self.lattice.least()
    }

    /// Copies of the names of the points by number, and the lattice.
    pub(crate) fn into_parts(self, alloc: Global) -> Result<(Vec<Name>, Lattice), OutOfMemory>
        ensures names { IfOk result (λ parts. parts.0.items ≡ self.points) }
        ensures table { IfOk result (λ parts. parts.1 ≡ self.table) }
    {
        let names = all_copies(alloc, self.names.as_slice())?;
        Ok((names, self.lattice))
    }

    /// The point of a name.
    pub fn find(&self, name: &Name) -> Option<Point>
        ensures { option_map (λ p. p.0) result ≡ point_number self.now.points name.now }
    {
        match self.names.get_index_of(name) {
            Some(index) => Some(Point(index as u8)),
            None => None,
        }
    }
}

// Copies of names, in order.
fn all_copies(alloc: Global, names: &[Name]) -> Result<Vec<Name>, OutOfMemory>
    ensures { IfOk result (λ copies. copies.items ≡ names.now) }
{
    let mut copies = Vec::with_capacity(alloc, names.len())?;
    for name in names {
        copies.push(name.copy(alloc)?)?;
    }
    Ok(copies)
}

// The number of a point, 0 where the name is none.
fn number(names: &IndexSet<Name>, name: &Name) -> u32
    requires { length names.now.keys ≤ 32 }
    ensures { result ≡ unwrap_or (point_number names.now.keys name.now) 0 }
{
    match names.get_index_of(name) {
        Some(index) => index as u32,
        None => 0,
    }
}

// The pairs by the numbers of their points.
fn numbered(
    alloc: Global,
    names: &IndexSet<Name>,
    pairs: &[(Name, Place, Name, Place)],
) -> Result<Vec<(u32, u32)>, OutOfMemory>
    requires { length names.now.keys ≤ 32 }
    ensures { IfOk result (λ found.
        found.items ≡ map (numbered_pair names.now.keys) (map pair_tree pairs.now)) }
{
    let mut found = Vec::new(alloc);
    for (lower, _, upper, _) in pairs {
        found.push((number(names, lower), number(names, upper)))?;
    }
    Ok(found)
}

// Copies of two names.
fn copies(alloc: Global, a: &Name, b: &Name) -> Result<Vec<Name>, OutOfMemory>
    ensures { IfOk result (λ names. names.items ≡ a.now ∷ b.now ∷ []) }
{
    let a = a.copy(alloc)?;
    let b = b.copy(alloc)?;
    Ok(vec![in alloc; a, b]?)
}

// The refusal by a rule that names two points.
fn two_points(
    alloc: Global,
    rule: Rule,
    place: Place,
    names: &IndexSet<Name>,
    a: u32,
    b: u32,
) -> Fault
    requires a { a < length names.now.keys }
    requires b { b < length names.now.keys }
    ensures { (end : Result PointOrder WalkStep)
        → end ≡ Err (step (rule_number rule) place
        (slice_index_or names.now.keys a [] ∷ slice_index_or names.now.keys b [] ∷ []))
        → IsBreach end result }
{
    let names = names.as_slice();
    match copies(alloc, &names[a as usize], &names[b as usize]) {
        Ok(names) => Fault::broken(rule, place, names),
        Err(error) => Fault::from(error),
    }
}

// The lattice of named points and numbered pairs. The first fault is refused by rules 303 to 305.
fn ordered(
    alloc: Global,
    place: Place,
    names: IndexSet<Name>,
    pairs: &[(u32, u32)],
) -> Result<Points, Fault>
    requires count { IsPointCount (length names.keys) }
    requires known { All (IsKnown (length names.keys)) pairs.now }
    requires few { length pairs.now < 2 ^ 32 }
    ensures found { IfOk result (λ p.
        (checked_order place (record {
          points = names.keys;
          table = table_of (length names.keys) pairs.now;
        })).end ≡ Ok p) }
    ensures broken { IfErr result
        (IsBreach (checked_order place (record {
          points = names.keys;
          table = table_of (length names.keys) pairs.now;
        })).end) }
{
    match Lattice::build(alloc, names.len() as u32, pairs) {
        Ok(lattice) => Ok(Points { names, lattice }),
        Err(LatticeFault::Circle(a, b)) => Err(two_points(
            alloc,
            Rule::Circle,
            place,
            &names,
            a,
            b,
        )),
        Err(LatticeFault::NoJoin(a, b)) => Err(two_points(
            alloc,
            Rule::NoJoin,
            place,
            &names,
            a,
            b,
        )),
        Err(LatticeFault::NoMeet(a, b)) => Err(two_points(
            alloc,
            Rule::NoMeet,
            place,
            &names,
            a,
            b,
        )),
        Err(LatticeFault::OutOfMemory) => Err(Fault::OutOfMemory),
        Err(LatticeFault::Size) => unreachable!(),
        Err(LatticeFault::Unknown(_)) => unreachable!(),
    }
}

// Whether there are 1 to 32 points.
fn is_count(points: &[(Name, Place)]) -> bool
    ensures { result ≡ (nat_le 1 (length points.now) && nat_le (length points.now) 32) }
{
    points.len() >= 1 && points.len() <= MOST_POINTS
}

// The points of a declared lattice.
fn declared(alloc: Global, text: &LatticeText) -> Result<Points, Fault>
    requires { length text.now.pairs.items < 2 ^ 32 }
    ensures found { IfOk result (λ p. (lattice_walk (Some (lattice_tree text.now))).end ≡ Ok p) }
    ensures broken { IfErr result (IsBreach (lattice_walk (Some (lattice_tree text.now))).end) }
{
    if !is_count(&text.points) {
        return Err(Fault::broken(Rule::LatticeSize, text.place, Vec::new(alloc)));
    }
    let names = distinct_names(alloc, text)?;
    let pairs = numbered(alloc, &names, &text.pairs)?;
    ordered(alloc, text.place, names, &pairs)
}

// The names `L` and `H`.
fn two_names(alloc: Global) -> Result<IndexSet<Name>, OutOfMemory>
    ensures { IfOk result (λ names. names.keys ≡ two_points.points) }
{
    let mut names = IndexSet::new(alloc);
    names.insert(Name::new(alloc, b"L")?)?;
    names.insert(Name::new(alloc, b"H")?)?;
    Ok(names)
}

// The lattice of a text that declares none.
fn default(alloc: Global) -> Result<Points, AllocError>
    ensures { IfOk result (λ p. p ≡ two_points) }
{
    let names = two_names(alloc)?;
    match Lattice::build(alloc, 2, &[(0, 1)]) {
        Ok(lattice) => Ok(Points { names, lattice }),
        Err(_) => Err(AllocError),
    }
}

/// The points of a text and their lattice: those that it declares, or else `L` and `H`, where `L`
/// flows to `H`.
pub fn lattice(alloc: Global, text: &Text) -> Result<Points, Fault>
    requires { IfSome text.now.lattice (λ l. length l.pairs.items < 2 ^ 32) }
    ensures found { IfOk result (λ p. (lattice_walk (text_tree text.now).lattice).end ≡ Ok p) }
    ensures broken { IfErr result (IsBreach (lattice_walk (text_tree text.now).lattice).end) }
{
    match &text.lattice {
        Some(lattice) => declared(alloc, lattice),
        None => Ok(default(alloc)?),
    }
}
