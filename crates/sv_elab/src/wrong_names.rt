// The first name of a lattice, in the order of the text, that breaks rule 302.
ghost use Rattle.std.specs.Prelude.{◌≡◌, ℕ, [], not, List, Ok, None, map, OnOk, IfOk, IfErr};
ghost use Rattle.std.specs.Str.{bytes_eq};
ghost use Rattle.indexmap.specs.IndexSet.{insert_key};
ghost use Rattle.sv_ast.specs.Views.{placed_name, pair_tree, lattice_tree};
ghost use Rattle.sv_elab_rules.specs.Rules.{lattice_name};
ghost use Rattle.sv_elab_rules.specs.Lattices.{stands_before, is_point, point_questions, pair_questions};
ghost use Rattle.sv_elab_rules.specs.Lattices.{point_names};
ghost use Rattle.sv_width.specs.Answers.{IsBreach};
ghost use Rattle.sv_elab.specs.Earliest.{broken_step, earlier, earliest, name_step, names_of};
ghost use Rattle.sv_elab.specs.Earliest.{name_steps};

use indexmap::IndexSet;
use std::alloc::Global;
use sv_ast::LatticeText;
use sv_num::{Fault, Name, OutOfMemory, Place, Rule};
use sv_width::refusal_naming;

/// A name that breaks rule 302, with its place.
#[derive(Clone, Copy)]
pub struct WrongName<'a> {
    pub name: &'a Name,
    pub place: Place,
}

// Whether a place stands before another one.
fn stands_before(a: Place, b: Place) -> bool
    ensures { result ≡ stands_before a b }
{
    a.line < b.line || a.line == b.line && a.column < b.column
}

// The one that stands first of a wrong name and a name that may be right.
fn earlier<'a>(
    found: Option<WrongName<'a>>,
    is_right: bool,
    name: &'a Name,
    place: Place,
) -> Option<WrongName<'a>>
    ensures { name_step result ≡
        earlier (name_step found.entry)
        (broken_step (record { holds = is_right; step = lattice_name place name.now })) }
{
    if is_right {
        return found;
    }
    match found {
        Some(other) if !stands_before(place, other.place) => Some(other),
        _ => Some(WrongName { name, place }),
    }
}

/// Puts a copy of the name last, and says whether it is new.
pub fn add_name(alloc: Global, names: &mut IndexSet<Name>, name: &Name) -> Result<bool, OutOfMemory>
    ensures new { IfOk result (λ new. new ≡ not (is_point names.old.keys name.now)) }
    ensures added { IfOk result (λ new.
        names.new.keys ≡ insert_key bytes_eq names.old.keys name.now) }
{
    Ok(names.insert(name.copy(alloc)?)?)
}

/// The names of points, each once, and the first one that is declared twice.
pub fn declared_names<'a>(
    alloc: Global,
    points: &'a [(Name, Place)],
) -> Result<(IndexSet<Name>, Option<WrongName<'a>>), OutOfMemory>
    ensures wrong { IfOk result (λ r.
        name_step r.1 ≡ earliest (point_questions [] (map placed_name points.now))) }
    ensures known { IfOk result (λ r.
        (n : List ℕ) → is_point r.0.keys n ≡ is_point (names_of points.now) n) }
    ensures all { IfOk result (λ r. name_step r.1 ≡ None → r.0.keys ≡ names_of points.now) }
{
    let mut names = IndexSet::new(alloc);
    let mut wrong = None;
    for (name, place) in points {
        let is_new = add_name(alloc, &mut names, name)?;
        wrong = earlier(wrong, is_new, name, *place);
    }
    Ok((names, wrong))
}

/// The first wrong name, where one was found before, and the names of the pairs have to be points.
pub fn with_pairs<'a>(
    names: &IndexSet<Name>,
    pairs: &'a [(Name, Place, Name, Place)],
    mut wrong: Option<WrongName<'a>>,
) -> Option<WrongName<'a>>
    ensures { name_step result ≡
        earlier (name_step wrong.entry)
        (earliest (pair_questions names.now.keys (map pair_tree pairs.now))) }
{
    for (lower, lower_place, upper, upper_place) in pairs {
        wrong = earlier(wrong, names.contains(lower), lower, *lower_place);
        wrong = earlier(wrong, names.contains(upper), upper, *upper_place);
    }
    wrong
}

/// The names of the points of a lattice. Rule 302 refuses the first name, in the order of the text,
/// that is declared twice or is in a pair but no point.
pub fn distinct_names(alloc: Global, text: &LatticeText) -> Result<IndexSet<Name>, Fault>
    ensures asked { OnOk result ((name_steps (lattice_tree text.now)).end ≡ Ok tt) }
    ensures names { IfOk result (λ names. names.keys ≡ point_names (lattice_tree text.now)) }
    ensures broken { IfErr result (IsBreach (name_steps (lattice_tree text.now)).end) }
{
    let (names, wrong) = declared_names(alloc, &text.points)?;
    match with_pairs(&names, &text.pairs, wrong) {
        Some(wrong) => Err(refusal_naming(alloc, Rule::LatticeName, wrong.place, wrong.name)),
        None => Ok(names),
    }
}
