// What is said of each rule that needs no flat design.
use crate::assigns::{circle as signal_circle, undriven, wrong_assign};
use crate::cases::{Case, owned};
use crate::forms::lexical_form;
use crate::links::{link, parameter};
use crate::modules::{no_top, too_many};
use crate::names::{label, twice, unknown_name};
use crate::numerals::bad_number;
use crate::sentences::{Hole, told};
use crate::syntax::{bad_byte, left_out, too_long, unexpected};
use crate::{maps, selects};
use std::alloc::{AllocError, Global};
use sv_ast::Text;
use sv_num::Rule;

/// What is said of a broken rule of the text, at the place of its refusal.
pub fn words_of(alloc: Global, rule: Rule, case: &Case) -> Result<String, AllocError> {
    if let Some(sentence) = sentence_of(rule) {
        return told(
            alloc,
            sentence,
            &[Hole::Name(case.name()), Hole::Name(case.other())],
        );
    }
    match rule {
        Rule::BadByte => bad_byte(alloc, case),
        Rule::BadNumber => bad_number(alloc, case),
        Rule::UnsupportedForm => owned(alloc, lexical_form(case.name())),
        Rule::Unexpected => unexpected(alloc, case),
        Rule::UnsupportedWord => left_out(alloc, case),
        Rule::TooLong => too_long(alloc, case),
        Rule::NotConstant => selects::not_constant(alloc, case),
        Rule::Loop => signal_circle(alloc, case),
        _ => {
            let text = case.origin.tree(alloc);
            by_tree(alloc, rule, case, text.as_ref())
        }
    }
}

// What is said of a rule by the tree of the text, where it has one.
fn by_tree(
    alloc: Global,
    rule: Rule,
    case: &Case,
    text: Option<&Text>,
) -> Result<String, AllocError> {
    match rule {
        Rule::LatticeSize => maps::lattice_size(alloc, text),
        Rule::LatticeName => maps::lattice_name(alloc, case, text),
        Rule::MapName => maps::map_name(alloc, case, text),
        Rule::MapRow => maps::map_row(alloc, case, text),
        Rule::MapHole => maps::map_hole(alloc, case, text),
        Rule::NoTop => no_top(alloc, case, text),
        Rule::Twice => twice(alloc, case, text),
        Rule::Port => link(alloc, case, text),
        Rule::TooMany => too_many(alloc, case, text),
        Rule::Parameter => parameter(alloc, case, text),
        Rule::UnknownName => unknown_name(alloc, case, text),
        Rule::TooWide | Rule::BadSelect | Rule::BadCount | Rule::BadRange => {
            selects::by_constants(alloc, rule, case, text)
        }
        Rule::Label => label(alloc, case, text),
        Rule::WrongAssign => wrong_assign(alloc, case, text),
        Rule::Undriven => undriven(alloc, case, text),
        _ => owned(alloc, "this breaks a rule"),
    }
}

// What is said of a rule of which the names that are told say all.
fn sentence_of(rule: Rule) -> Option<&'static str> {
    match rule {
        Rule::OpenComment => Some("this comment has no end: `*/` is missing"),
        Rule::TooDeep => Some(TOO_DEEP),
        Rule::Circle => Some(POINT_CIRCLE),
        Rule::NoJoin => Some(NO_JOIN),
        Rule::NoMeet => Some(NO_MEET),
        Rule::UnknownModule => Some(UNKNOWN_MODULE),
        Rule::Recursive => Some(RECURSIVE),
        Rule::ZeroDivisor => Some("this divisor is 0"),
        Rule::Division => Some(DIVISION),
        Rule::UnsizedPart => Some("a number directly in braces needs a size, as 4'd3 has"),
        Rule::Latch => Some(LATCH),
        Rule::Phase => Some(PHASE),
        _ => None,
    }
}

const TOO_DEEP: &str = "this opens a level too many: at most 64 brackets, operators and statements \
     may be open at once; name a part by a `wire`, or ask a chain of `else if` by a `case`";

const DIVISION: &str = "`/` and `%` are for constants alone: divide by a power of 2 by a shift, or \
     build a divider";

const POINT_CIRCLE: &str = "`{}` and `{}` flow to each other, so they are one point: take one of \
     them away, or a pair between them";

const NO_JOIN: &str = "`{}` and `{}` have no least point above both, for a signal that is made of \
     both: declare one, with a pair from each to it, and from it to each other point above both";

const NO_MEET: &str = "`{}` and `{}` have no greatest point below both: declare one, with a pair \
     from it to each, and to it from each other point below both";

const UNKNOWN_MODULE: &str =
    "there is no module `{}`: a design is one file, so join its files by `cat`";

const RECURSIVE: &str = "with this instance the module `{}` would stand inside itself, without end";

const LATCH: &str = "this block does not assign all bits of `{}` on every path, so it would be a \
     latch: give it a value at the block's begin, or in each `else` and `default`";

const PHASE: &str = "`{}` is read here before its block has assigned it on every path: assign it \
     above, or give it a value at the block's begin";
