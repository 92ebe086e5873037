// What `cnf` writes: the clauses of an obligation, or why there are none.
ghost use Rattle.std.specs.Prelude.{◌≡◌, ◌≤◌, ◌<◌, ◌+◌, ◌++◌, ◌∷◌, [], Some, None, length};
ghost use Rattle.std.specs.Prelude.{IfOk, IfSome, OnOk, OnErr, IsErrOf, slice_get, flat_map};
ghost use Rattle.std.specs.Prelude.{option_map};
ghost use Rattle.sv_flat.specs.Views.{design_of};
ghost use Rattle.sv_io.specs.Count.{Rose};
ghost use Rattle.sv_io.specs.Sink.{WritesFront};
ghost use Rattle.sv_obl.specs.Asked.{asked};
ghost use Rattle.sv_obl.specs.DesignQueries.{IsQueryOf};
ghost use Rattle.sv_paths.specs.Limits.{excess};
ghost use Rattle.sv_paths.specs.ListParts.{IsAt, ArePathsOf, obligations_on};
ghost use Rattle.sv_obl.specs.Views.{obligation_of};
ghost use Rattle.sv_encoding.specs.CnfText.{clause_line, problem_line, cnf_text};
ghost use Rattle.sv_blast.specs.Coded.{encoding_of};
ghost use Rattle.sv_cli.specs.Clauses.{IsFoundOrNext};
ghost use Rattle.sv_cli.specs.Lists.{obligation_at};
ghost use Rattle.sv_cli.specs.Prepared.{EncodesDesign};

use crate::listing::report_of_fault;
use crate::prepared::Prepared;
use crate::report::{report_of_bare_limit, report_of_large};
use std::alloc::{AllocError, Global};
use sv_blast::{BlastFault, Coded, clause_lines, encode, problem_line};
use sv_clause::Clause;
use sv_design::Design;
use sv_flat::SigId;
use sv_io::{PutFault, Sink, put_all};
use sv_num::Rule;
use sv_obl::{Bodies, Query};
use sv_paths::{Listing, TargetPaths, check_limits};
use sv_report::Style;

// The clauses of one piece of the text: so many of at most three literals take less than 64 KiB.
const PIECE: usize = 2_048;

/// What is prepared of an admitted design to print the clauses of its obligation of a number.
pub fn clauses_of_design(
    alloc: Global,
    design: &Design,
    number: u32,
) -> Result<Prepared, AllocError>
    ensures { IfOk result (EncodesDesign (design_of design.now) number) }
{
    match check_limits(alloc, design) {
        Ok(_) => clauses_of_number(alloc, design, number),
        Err(fault) => Ok(Prepared::Whole(report_of_fault(alloc, Style::Lines, design, fault)?)),
    }
}

// The same of a design that exceeds no limit.
fn clauses_of_number(alloc: Global, design: &Design, number: u32) -> Result<Prepared, AllocError>
    requires { excess (design_of design.now) ≡ None }
    ensures { IfOk result (EncodesDesign (design_of design.now) number) }
{
    match query_of_number(alloc, design, number)? {
        Some(query) => clauses_of_query(alloc, design, number, &query),
        None => Ok(Prepared::Whole(report_of_bare_limit(alloc, Style::Lines, Rule::NoObligation)?)),
    }
}

// The same of the obligation that has the number.
fn clauses_of_query(
    alloc: Global,
    design: &Design,
    number: u32,
    query: &Query,
) -> Result<Prepared, AllocError>
    requires few { excess (design_of design.now) ≡ None }
    requires found { obligation_at (design_of design.now) number ≡ Some (obligation_of query.now) }
    requires query { IsQueryOf (design_of design.now) (obligation_of query.now) }
    ensures { IfOk result (EncodesDesign (design_of design.now) number) }
{
    match encode(alloc, design, query) {
        Ok(coded) => Ok(Prepared::Clauses(coded)),
        Err(BlastFault::TooLarge) => {
            Ok(Prepared::Whole(report_of_large(alloc, Style::Lines, number)?))
        }
        Err(BlastFault::OutOfMemory) => Err(AllocError),
    }
}

// The obligation of this number, if there is one.
fn query_of_number(alloc: Global, design: &Design, number: u32) -> Result<Option<Query>, AllocError>
    requires { excess (design_of design.now) ≡ None }
    ensures found { IfOk result (λ found.
        option_map obligation_of found ≡ obligation_at (design_of design.now) number) }
    ensures query { IfOk result (λ found.
        IfSome found (λ query. IsQueryOf (design_of design.now) (obligation_of query))) }
{
    match number.checked_sub(1) {
        Some(before) => query_behind(alloc, design, before),
        None => Ok(None),
    }
}

// The obligation that stands behind so many others, if there is one. No other is made of a target.
fn query_behind(alloc: Global, design: &Design, before: u32) -> Result<Option<Query>, AllocError>
    requires { excess (design_of design.now) ≡ None }
    ensures found { IfOk result (λ found. option_map obligation_of found
        ≡ slice_get (asked (design_of design.now)) before) }
    ensures query { IfOk result (λ found.
        IfSome found (λ query. IsQueryOf (design_of design.now) (obligation_of query))) }
{
    let bodies = Bodies::new(alloc, design)?;
    let mut listing = Listing::new(design, &bodies);
    match target_query(alloc, design, &mut listing, before)? {
        Some(query) => Ok(Some(query)),
        None => selector_query(alloc, design, &listing, before),
    }
}

// The same among those of all targets.
fn target_query(
    alloc: Global,
    design: &Design,
    listing: &mut Listing,
    before: u32,
) -> Result<Option<Query>, AllocError>
    requires at { IsAt (design_of design.now) 0 listing.old }
    ensures found { IfOk result (λ found. IsFoundOrNext (design_of design.now)
        (length design.now.signals.items) before listing.new found) }
{
    for s in 0..design.signals().len() {
        if let Some(query) = next_query(alloc, design, listing, SigId(s as u32), before)? {
            return Ok(Some(query));
        }
    }
    Ok(None)
}

// The same among those of the target that comes next.
fn next_query(
    alloc: Global,
    design: &Design,
    listing: &mut Listing,
    target: SigId,
    before: u32,
) -> Result<Option<Query>, AllocError>
    requires known { target.0 < length design.now.signals.items }
    requires at { IsAt (design_of design.now) target.0 listing.old }
    requires behind { listing.old.count ≤ before }
    ensures found { IfOk result (λ found. IsFoundOrNext (design_of design.now) (target.0 + 1)
        before listing.new found) }
{
    let first = listing.count;
    match listing.target_paths(alloc, design, target) {
        Ok(paths) => path_query(alloc, design, &paths, (before - first) as usize),
        Err(_) => Err(AllocError),
    }
}

// The obligation at a place of those of a target's paths, if there is one.
fn path_query(
    alloc: Global,
    design: &Design,
    paths: &TargetPaths,
    place: usize,
) -> Result<Option<Query>, AllocError>
    requires { ArePathsOf (design_of design.now) paths.now }
    ensures found { IfOk result (λ found. option_map obligation_of found
        ≡ slice_get (obligations_on (design_of design.now) paths.now) place) }
    ensures query { IfOk result (λ found.
        IfSome found (λ query. IsQueryOf (design_of design.now) (obligation_of query))) }
{
    if place < paths.len() {
        let query = paths.query(alloc, design, place)?;
        Ok(Some(query))
    } else {
        Ok(None)
    }
}

// The same among those of selectors, behind those of all targets.
fn selector_query(
    alloc: Global,
    design: &Design,
    listing: &Listing,
    before: u32,
) -> Result<Option<Query>, AllocError>
    requires at { IsAt (design_of design.now) (length design.now.signals.items) listing.now }
    requires behind { listing.now.count ≤ before }
    ensures found { IfOk result (λ found. option_map obligation_of found
        ≡ slice_get (asked (design_of design.now)) before) }
    ensures query { IfOk result (λ found.
        IfSome found (λ query. IsQueryOf (design_of design.now) (obligation_of query))) }
{
    match listing.selector_queries(alloc, design) {
        Ok(queries) => Ok(taken(queries, (before - listing.count) as usize)),
        Err(_) => Err(AllocError),
    }
}

// The obligation at a place of a list, if there is one.
fn taken(mut queries: Vec<Query>, place: usize) -> Option<Query>
    ensures { result ≡ slice_get queries.items place }
{
    if place < queries.len() {
        Some(queries.swap_remove(place))
    } else {
        None
    }
}

/// Puts the clauses of an obligation, piece by piece. Refused, a front of their text was accepted.
pub fn put_clauses<K: Sink>(alloc: Global, out: &mut K, coded: &Coded) -> Result<(), PutFault>
    ensures whole { OnOk result
        (K.accepted out.new ≡ K.accepted out.old ++ cnf_text (encoding_of coded.now)) }
    ensures refused { OnErr result
        (WritesFront (K.accepted out.old) (cnf_text (encoding_of coded.now))
        (K.accepted out.new)) }
    ensures failed { IsErrOf result PutFault.Failed → Rose (K.faults out.old) (K.faults out.new) }
    ensures kept { OnOk result (K.faults out.new ≡ K.faults out.old) }
{
    put_problem(alloc, out, coded)?;
    put_pieces(alloc, out, &coded.clauses)
}

// Puts the first line.
fn put_problem<K: Sink>(alloc: Global, out: &mut K, coded: &Coded) -> Result<(), PutFault>
    ensures whole { OnOk result
        (K.accepted out.new ≡ K.accepted out.old ++ problem_line (encoding_of coded.now)) }
    ensures refused { OnErr result
        (WritesFront (K.accepted out.old) (problem_line (encoding_of coded.now))
        (K.accepted out.new)) }
    ensures failed { IsErrOf result PutFault.Failed → Rose (K.faults out.old) (K.faults out.new) }
    ensures kept { OnOk result (K.faults out.new ≡ K.faults out.old) }
    ensures counts { K.faults out.old ≤ K.faults out.new }
{
    match problem_line(alloc, coded) {
        Ok(line) => put_all(out, &line),
        Err(_) => Err(PutFault::OutOfMemory),
    }
}

// Puts the lines of clauses, a piece after the other.
fn put_pieces<K: Sink>(alloc: Global, out: &mut K, clauses: &[Clause]) -> Result<(), PutFault>
    ensures whole { OnOk result (K.accepted out.new
        ≡ K.accepted out.old ++ flat_map clause_line clauses.now) }
    ensures refused { OnErr result
        (WritesFront (K.accepted out.old) (flat_map clause_line clauses.now)
        (K.accepted out.new)) }
    ensures failed { IsErrOf result PutFault.Failed → Rose (K.faults out.old) (K.faults out.new) }
    ensures kept { OnOk result (K.faults out.new ≡ K.faults out.old) }
    ensures counts { K.faults out.old ≤ K.faults out.new }
{
    let mut left = clauses;
    'pieces: while !left.is_empty() {
        let (piece, rest) = left.split_at(PIECE.min(left.len()));
        put_piece(alloc, out, piece)?;
        left = rest;
    }
    Ok(())
}

// Puts the lines of the clauses of a piece.
fn put_piece<K: Sink>(alloc: Global, out: &mut K, clauses: &[Clause]) -> Result<(), PutFault>
    ensures whole { OnOk result (K.accepted out.new
        ≡ K.accepted out.old ++ flat_map clause_line clauses.now) }
    ensures refused { OnErr result
        (WritesFront (K.accepted out.old) (flat_map clause_line clauses.now)
        (K.accepted out.new)) }
    ensures failed { IsErrOf result PutFault.Failed → Rose (K.faults out.old) (K.faults out.new) }
    ensures kept { OnOk result (K.faults out.new ≡ K.faults out.old) }
    ensures counts { K.faults out.old ≤ K.faults out.new }
{
    match clause_lines(alloc, clauses) {
        Ok(lines) => put_all(out, &lines),
        Err(_) => Err(PutFault::OutOfMemory),
    }
}
