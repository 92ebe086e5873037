// Lattices (SecVerilog, ASPLOS 2015).
ghost use Rattle.std.specs.Prelude.{map, [], ◌∷◌};
ghost use Rattle.sv_token.specs.declared.signs.SignKind.TheVariants as signs;
ghost use Rattle.sv_ast.specs.Tree.{PlacedName};
ghost use Rattle.sv_ast.specs.Views.{placed_name, pair_tree, lattice_tree};
ghost use Rattle.sv_ast.specs.GrammarForms.{◌⨾◌, a_sign, commas};
ghost use Rattle.sv_ast.specs.GrammarModules.{IsPlacedName, pair, IsLatticeLine, IsLattice};
ghost use Rattle.sv_parse.specs.ReadingItems.{IsOneMore, AreLines};
ghost use Rattle.sv_ast.specs.GrammarStatements.{IsNext};
ghost use Rattle.sv_parse_machine.specs.Symbols.{outer, punctuation, plain_name, more_names};
ghost use Rattle.sv_parse_machine.specs.Symbols.{perhaps_lattice, lattice_lines, less_equal};
ghost use Rattle.sv_parse_machine.specs.Reads.{NextIsNotWord};
ghost use Rattle.sv_parse_expr.specs.Parses.{placed, GivesAs, Gives, Shortens, Leads, HaltsOn};

use std::alloc::Global;
use sv_ast::LatticeText;
use sv_num::{BinOp, Name, Place};
use sv_parse_expr::cursor::{behind_word, expect_sign, expect_word, read_name, unexpected};
use sv_parse_expr::lists::{Listed, ListedFromFirst, read_list};
use sv_parse_expr::operators::operator_at;
use sv_parse_expr::stop::{Input, Read};
use sv_token::{SignKind, WordKind};

// A name with its place.
fn read_placed_name<'a>(alloc: Global, input: Input<'a>) -> Read<'a, (Name, Place)>
    ensures is { Gives result input.entry placed_name IsPlacedName }
    ensures shorter { Shortens result input.entry }
    ensures reads { Leads result input.entry (plain_name ∷ []) [] }
    ensures halts { HaltsOn result input.entry (plain_name ∷ []) }
{
    let (name, place, rest) = read_name(alloc, input)?;
    Ok(((name, place), rest))
}

// Points of one line.
struct Points;

impl Listed for Points {
    type Item = (Name, Place);

    ghost Tree = { PlacedName };

    ghost tree = { placed_name };

    ghost First = { λ n. IsPlacedName };

    ghost Later = { λ n before. IsPlacedName };

    ghost next = { λ n. outer plain_name ∷ [] };

    fn later<'a>(
        alloc: Global,
        input: Input<'a>,
        _open: usize,
        _before: &(Name, Place),
    ) -> Read<'a, (Name, Place)> {
        read_placed_name(alloc, input)
    }
}

impl ListedFromFirst for Points {
    ghost Begins = { λ ts. Unit {0} };

    ghost start = { λ n. outer plain_name ∷ [] };

    ghost behind = { λ n. [] };

    fn first<'a>(alloc: Global, input: Input<'a>, _open: usize) -> Read<'a, (Name, Place)> {
        read_placed_name(alloc, input)
    }
}

// A declared pair: the first point flows to the second.
type Pair = (Name, Place, Name, Place);

// A pair, and its `;`.
fn read_pair<'a>(alloc: Global, input: Input<'a>) -> Read<'a, Pair>
    ensures is { GivesAs result input.entry (λ x. IsLatticeLine (pair (pair_tree x))) }
    ensures shorter { Shortens result input.entry }
    ensures reads { Leads result input.entry
        (plain_name ∷ less_equal ∷ plain_name ∷ punctuation signs.Semicolon ∷ []) [] }
    ensures halts { HaltsOn result input.entry
        (plain_name ∷ less_equal ∷ plain_name ∷ punctuation signs.Semicolon ∷ []) }
{
    let (lower, place, rest) = read_name(alloc, input)?;
    let Some(rest) = operator_at(BinOp::Le, rest) else {
        return Err(unexpected(rest));
    };
    let (upper, upper_place, rest) = read_name(alloc, Input { rest, ..input })?;
    let rest = expect_sign(SignKind::Semicolon, rest)?;
    Ok(((lower, place, upper, upper_place), rest))
}

// The points of a line, behind `point`, and its `;`.
fn read_points<'a>(alloc: Global, input: Input<'a>) -> Read<'a, Vec<(Name, Place)>>
    ensures is { GivesAs result input.entry (λ x.
        commas IsPlacedName (map placed_name x.items) ⨾ a_sign signs.Semicolon) }
    ensures shorter { Shortens result input.entry }
    ensures reads { Leads result input.entry (plain_name ∷ more_names signs.Semicolon ∷ []) [] }
    ensures halts { HaltsOn result input.entry (plain_name ∷ more_names signs.Semicolon ∷ []) }
{
    let (points, rest) = read_list::<Points>(alloc, input, 0)?;
    let rest = expect_sign(SignKind::Semicolon, rest)?;
    Ok((points, rest))
}

// The points and the pairs of the lines.
#[derive(Drop)]
struct Lines {
    points: Vec<(Name, Place)>,
    pairs: Vec<Pair>,
}

// One more line.
fn read_line<'a>(alloc: Global, input: Input<'a>, lines: Lines) -> Read<'a, Lines>
    ensures is { GivesAs result input.entry (λ x.
        IsOneMore (map placed_name lines.points.items) (map pair_tree lines.pairs.items)
        (map placed_name x.points.items) (map pair_tree x.pairs.items)) }
    ensures shorter { Shortens result input.entry }
    ensures reads { NextIsNotWord WordKind.Endlattice (placed input.entry) →
        Leads result input.entry (lattice_lines ∷ []) (lattice_lines ∷ []) }
    ensures halts { NextIsNotWord WordKind.Endlattice (placed input.entry) →
        HaltsOn result input.entry (lattice_lines ∷ []) }
{
    let Lines {
        mut points,
        mut pairs,
    } = lines;
    match behind_word(WordKind::Point, input.rest) {
        Some(rest) => {
            let (mut more, rest) = read_points(alloc, Input { rest, ..input })?;
            points.append(&mut more)?;
            Ok((Lines { points, pairs }, rest))
        }
        None => {
            let (pair, rest) = read_pair(alloc, input)?;
            pairs.push(pair)?;
            Ok((Lines { points, pairs }, rest))
        }
    }
}

// The lines of a lattice, and its last word.
fn read_lines<'a>(alloc: Global, input: Input<'a>) -> Read<'a, Lines>
    ensures is { GivesAs result input.entry (λ x.
        AreLines (map placed_name x.points.items) (map pair_tree x.pairs.items)) }
    ensures shorter { Shortens result input.entry }
    ensures reads { Leads result input.entry (lattice_lines ∷ []) [] }
    ensures halts { HaltsOn result input.entry (lattice_lines ∷ []) }
{
    let mut lines = Lines {
        points: Vec::new(alloc),
        pairs: Vec::new(alloc),
    };
    let mut rest = input.rest;
    loop {
        if let Some(after) = behind_word(WordKind::Endlattice, rest) {
            return Ok((lines, after));
        }
        let (more, behind) = read_line(alloc, Input { rest, ..input }, lines)?;
        lines = more;
        rest = behind;
    }
}

/// A lattice.
pub fn read_lattice<'a>(alloc: Global, input: Input<'a>) -> Read<'a, LatticeText>
    ensures is { Gives result input.entry lattice_tree IsLattice }
    ensures shorter { Shortens result input.entry }
    ensures reads { IsNext WordKind.Lattice (placed input.entry) →
        Leads result input.entry (perhaps_lattice ∷ []) [] }
    ensures halts { IsNext WordKind.Lattice (placed input.entry) →
        HaltsOn result input.entry (perhaps_lattice ∷ []) }
{
    let (place, rest) = expect_word(WordKind::Lattice, input.rest)?;
    let (Lines { points, pairs }, rest) = read_lines(alloc, Input { rest, ..input })?;
    let lattice = LatticeText {
        place,
        points,
        pairs,
    };
    Ok((lattice, rest))
}
