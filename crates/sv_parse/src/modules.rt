// Modules and whole texts (IEEE 1364-2005, clause 12).
ghost use Rattle.std.specs.Prelude.{[], ◌∷◌, map, IfOk, IfErr};
ghost use Rattle.std.specs.Option.{option_map};
ghost use Rattle.sv_token.specs.declared.signs.SignKind.TheVariants as signs;
ghost use Rattle.sv_token.specs.declared.keywords.WordKind.TheVariants as words;
ghost use Rattle.sv_ast.specs.Views.{parameter_tree, declaration_tree, item_tree, module_tree};
ghost use Rattle.sv_ast.specs.Views.{lattice_tree, map_tree, text_tree};
ghost use Rattle.sv_ast.specs.GrammarForms.{◌⨾◌, perhaps, each, some, a_word, a_sign};
ghost use Rattle.sv_ast.specs.GrammarModules.{AreItems, IsModule, IsLattice, IsMap};
ghost use Rattle.sv_ast.specs.GrammarRules.{all_limits, TokensMean};
ghost use Rattle.sv_parse_machine.specs.Symbols.{outer, one_module, perhaps_header_parameters};
ghost use Rattle.sv_parse_machine.specs.Symbols.{perhaps_ports, ports, items, perhaps_lattice};
ghost use Rattle.sv_parse_machine.specs.Symbols.{perhaps_maps};
ghost use Rattle.sv_parse_machine.specs.Machine.{text_state};
ghost use Rattle.sv_parse_expr.specs.Parses.{placed, GivesAs, Gives, GivesAll, Shortens, NoLonger};
ghost use Rattle.sv_parse_expr.specs.Parses.{Leads, HaltsOn};
ghost use Rattle.sv_parse.specs.ReadingTexts.{FailsAs};
ghost use Rattle.sv_parse.specs.ReadingItems.{AreParameterList, AreOpenPorts, ArePortList};
ghost use Rattle.sv_parse.specs.ReadingItems.{IsHeaderOf};

use crate::declarations::read_ports;
use crate::items::read_item;
use crate::label_maps::read_label_map;
use crate::lattices::read_lattice;
use crate::parameters::read_header_params;
use std::alloc::Global;
use sv_ast::{Decl, Item, LatticeText, MapText, Module, Param, Text};
use sv_num::{Name, Place};
use sv_parse_expr::cursor::{behind, behind_word, expect_sign, expect_word, read_name};
use sv_parse_expr::stop::{Input, Read, Stop};
use sv_token::{SignKind, WordKind};

// The parameters of a header, if it has a list of them.
fn read_parameter_list<'a>(alloc: Global, input: Input<'a>) -> Read<'a, Vec<Param>>
    ensures is { GivesAll result input.entry parameter_tree AreParameterList }
    ensures shorter { NoLonger result input.entry }
    ensures reads { Leads result input.entry (perhaps_header_parameters ∷ []) [] }
    ensures halts { HaltsOn result input.entry (perhaps_header_parameters ∷ []) }
{
    match behind(SignKind::Hash, input.rest) {
        Some(rest) => {
            let rest = expect_sign(SignKind::OpenParenthesis, rest)?;
            let (params, rest) = read_header_params(alloc, Input { rest, ..input })?;
            let rest = expect_sign(SignKind::CloseParenthesis, rest)?;
            Ok((params, rest))
        }
        None => Ok((Vec::new(alloc), input.rest)),
    }
}

// The ports of a header, behind its `(`, and the `)`.
fn read_open_ports<'a>(alloc: Global, input: Input<'a>) -> Read<'a, Vec<Decl>>
    ensures is { GivesAs result input.entry (λ x.
        AreOpenPorts (map declaration_tree x.items) ⨾ a_sign signs.CloseParenthesis) }
    ensures shorter { Shortens result input.entry }
    ensures reads { Leads result input.entry (ports ∷ []) [] }
    ensures halts { HaltsOn result input.entry (ports ∷ []) }
{
    if let Some(rest) = behind(SignKind::CloseParenthesis, input.rest) {
        return Ok((Vec::new(alloc), rest));
    }
    let (ports, rest) = read_ports(alloc, input)?;
    let rest = expect_sign(SignKind::CloseParenthesis, rest)?;
    Ok((ports, rest))
}

// The ports of a header, if it has a list of them.
fn read_port_list<'a>(alloc: Global, input: Input<'a>) -> Read<'a, Vec<Decl>>
    ensures is { GivesAll result input.entry declaration_tree ArePortList }
    ensures shorter { NoLonger result input.entry }
    ensures reads { Leads result input.entry (perhaps_ports ∷ []) [] }
    ensures halts { HaltsOn result input.entry (perhaps_ports ∷ []) }
{
    match behind(SignKind::OpenParenthesis, input.rest) {
        Some(rest) => {
            let (ports, rest) = read_open_ports(alloc, Input { rest, ..input })?;
            Ok((ports, rest))
        }
        None => Ok((Vec::new(alloc), input.rest)),
    }
}

// What stands before the items of a module.
#[derive(Drop)]
struct Header {
    name: Name,
    place: Place,
    params: Vec<Param>,
    ports: Vec<Decl>,
}

fn read_header<'a>(alloc: Global, input: Input<'a>) -> Read<'a, Header>
    ensures is { GivesAs result input.entry (λ x.
        IsHeaderOf x.name x.place (map parameter_tree x.params.items)
        (map declaration_tree x.ports.items)) }
    ensures shorter { Shortens result input.entry }
    ensures reads { Leads result input.entry (one_module ∷ []) (items ∷ []) }
    ensures halts { HaltsOn result input.entry (one_module ∷ []) }
{
    let (_word, rest) = expect_word(WordKind::Module, input.rest)?;
    let (name, place, rest) = read_name(alloc, Input { rest, ..input })?;
    let (params, rest) = read_parameter_list(alloc, Input { rest, ..input })?;
    let (ports, rest) = read_port_list(alloc, Input { rest, ..input })?;
    let rest = expect_sign(SignKind::Semicolon, rest)?;
    let header = Header {
        name,
        place,
        params,
        ports,
    };
    Ok((header, rest))
}

// The items of a module, and its last word.
fn read_items<'a>(alloc: Global, input: Input<'a>) -> Read<'a, Vec<Item>>
    ensures is { GivesAs result input.entry (λ x.
        AreItems all_limits (map item_tree x.items) ⨾ a_word words.Endmodule) }
    ensures shorter { Shortens result input.entry }
    ensures reads { Leads result input.entry (items ∷ []) [] }
    ensures halts { HaltsOn result input.entry (items ∷ []) }
{
    let mut items = Vec::new(alloc);
    let mut rest = input.rest;
    loop {
        if let Some(after) = behind_word(WordKind::Endmodule, rest) {
            return Ok((items, after));
        }
        let (mut more, behind) = read_item(alloc, Input { rest, ..input })?;
        items.append(&mut more)?;
        rest = behind;
    }
}

// A module.
fn read_module<'a>(alloc: Global, input: Input<'a>) -> Read<'a, Module>
    ensures is { Gives result input.entry module_tree (IsModule all_limits) }
    ensures shorter { Shortens result input.entry }
    ensures reads { Leads result input.entry (one_module ∷ []) [] }
    ensures halts { HaltsOn result input.entry (one_module ∷ []) }
{
    let (header, rest) = read_header(alloc, input)?;
    let (items, rest) = read_items(alloc, Input { rest, ..input })?;
    let Header {
        name,
        place,
        params,
        ports,
    } = header;
    let module = Module {
        name,
        place,
        params,
        ports,
        items,
    };
    Ok((module, rest))
}

// The modules that the tokens are, at least one.
fn modules(alloc: Global, input: Input) -> Result<Vec<Module>, Stop>
    ensures are { IfOk result (λ modules.
        some (IsModule all_limits) (map module_tree modules.items) (placed input.entry) []) }
    ensures fails { IfErr result (λ e. FailsAs (outer one_module ∷ []) (placed input.entry) e) }
{
    let mut modules = Vec::new(alloc);
    let (first, mut rest) = read_module(alloc, input)?;
    modules.push(first)?;
    while !rest.is_empty() {
        let (next, more) = read_module(alloc, Input { rest, ..input })?;
        modules.push(next)?;
        rest = more;
    }
    Ok(modules)
}

// The lattice, if one comes.
fn read_first_lattice<'a>(alloc: Global, input: Input<'a>) -> Read<'a, Option<LatticeText>>
    ensures is { Gives result input.entry (option_map lattice_tree) (perhaps IsLattice) }
    ensures shorter { NoLonger result input.entry }
    ensures reads { Leads result input.entry (perhaps_lattice ∷ []) [] }
    ensures halts { HaltsOn result input.entry (perhaps_lattice ∷ []) }
{
    match behind_word(WordKind::Lattice, input.rest) {
        Some(_) => {
            let (lattice, rest) = read_lattice(alloc, input)?;
            Ok((Some(lattice), rest))
        }
        None => Ok((None, input.rest)),
    }
}

// The label maps.
fn read_maps<'a>(alloc: Global, input: Input<'a>) -> Read<'a, Vec<MapText>>
    ensures is { GivesAll result input.entry map_tree (each IsMap) }
    ensures shorter { NoLonger result input.entry }
    ensures reads { Leads result input.entry (perhaps_maps ∷ []) [] }
    ensures halts { HaltsOn result input.entry (perhaps_maps ∷ []) }
{
    let mut maps = Vec::new(alloc);
    let mut rest = input.rest;
    while let Some(_) = behind_word(WordKind::Labelmap, rest) {
        let (map, more) = read_label_map(alloc, Input { rest, ..input })?;
        maps.push(map)?;
        rest = more;
    }
    Ok((maps, rest))
}

/// The text that all of the tokens are.
pub fn text(alloc: Global, input: Input) -> Result<Text, Stop>
    ensures is { IfOk result (λ text. TokensMean (placed input.entry) (text_tree text)) }
    ensures fails { IfErr result (λ e. FailsAs text_state (placed input.entry) e) }
{
    let (lattice, rest) = read_first_lattice(alloc, input)?;
    let (maps, rest) = read_maps(alloc, Input { rest, ..input })?;
    let modules = modules(alloc, Input { rest, ..input })?;
    Ok(Text {
        lattice,
        maps,
        modules,
    })
}
