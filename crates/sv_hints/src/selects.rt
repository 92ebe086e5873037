// What is said of bits and parts that lie outside of their signals, of ranges, and of lengths.
use crate::cases::{Case, owned};
use crate::constants::Constants;
use crate::contexts::{Spot, bytes_at, is_bound, last_open, spot_at};
use crate::links::NamedLink;
use crate::origins::{item_at, module_at};
use crate::sentences::{Hole, told};
use std::alloc::{AllocError, Global};
use sv_ast::{
    Arm, Decl, Expr, Instance, Item, Links, Module, Param, Select, Span, Stmt, Target, Text,
};
use sv_num::{Place, Rule};

// What is sought at a place: a bit, by the place of its index, or a part; what has too many bits;
// or a replication by the place of its count.
#[derive(Clone, Copy)]
enum SoughtPart {
    Select(Place),
    Length(Place),
    Count(Place),
}

// What is found there.
#[derive(Clone, Copy)]
enum FoundPart<'t> {
    Bit(&'t [u8], &'t Expr),
    Part(&'t [u8], &'t Expr, &'t Expr),
    Expr(&'t Expr),
    Targets(&'t [Target]),
    Count(&'t Expr),
}

// The first of two that there is.
fn first_of<'t>(
    first: Option<FoundPart<'t>>,
    second: Option<FoundPart<'t>>,
) -> Option<FoundPart<'t>> {
    match first {
        Some(found) => Some(found),
        None => second,
    }
}

// What is found in an expression, in its operands first.
#[cycle(in_expr)]
fn in_expr(expr: &Expr, sought: SoughtPart) -> Option<FoundPart<'_>> {
    let inside = match expr {
        Expr::Number(_, _) => None,
        Expr::Name(_, _) => None,
        Expr::Bit(_, _, index) => in_expr(index, sought),
        Expr::Part(_, _, high, low) => first_of(in_expr(high, sought), in_expr(low, sought)),
        Expr::Unary(_, _, operand) => in_expr(operand, sought),
        Expr::Binary(_, _, left, right) => first_of(in_expr(left, sought), in_expr(right, sought)),
        Expr::Choice(_, cond, yes, no) => {
            let in_values = first_of(in_expr(yes, sought), in_expr(no, sought));
            first_of(in_expr(cond, sought), in_values)
        }
        Expr::Join(_, parts) => in_exprs(parts, sought),
        Expr::Repeat(_, count, parts) => first_of(in_expr(count, sought), in_exprs(parts, sought)),
    };
    first_of(inside, as_sought(expr, sought))
}

#[cycle(in_expr)]
fn in_exprs(exprs: &[Expr], sought: SoughtPart) -> Option<FoundPart<'_>> {
    for expr in exprs {
        if let Some(found) = in_expr(expr, sought) {
            return Some(found);
        }
    }
    None
}

// The expression itself, where it is what is sought.
fn as_sought(expr: &Expr, sought: SoughtPart) -> Option<FoundPart<'_>> {
    match sought {
        SoughtPart::Select(place) => as_select(expr, place),
        SoughtPart::Length(place) => as_long(expr, place),
        SoughtPart::Count(place) => as_count(expr, place),
    }
}

fn as_select(expr: &Expr, place: Place) -> Option<FoundPart<'_>> {
    match expr {
        Expr::Bit(name, _, index) if index.place() == place => {
            Some(FoundPart::Bit(name.bytes(), index))
        }
        Expr::Part(name, at, high, low) if *at == place => {
            Some(FoundPart::Part(name.bytes(), high, low))
        }
        _ => None,
    }
}

fn as_long(expr: &Expr, place: Place) -> Option<FoundPart<'_>> {
    match expr {
        Expr::Join(at, _) if *at == place => Some(FoundPart::Expr(expr)),
        Expr::Repeat(at, _, _) if *at == place => Some(FoundPart::Expr(expr)),
        _ => None,
    }
}

fn as_count(expr: &Expr, place: Place) -> Option<FoundPart<'_>> {
    match expr {
        Expr::Repeat(_, count, _) if count.place() == place => Some(FoundPart::Count(count)),
        _ => None,
    }
}

// What is found in an assignment, its targets first.
fn in_assignment<'t>(
    targets: &'t [Target],
    at: Place,
    value: &'t Expr,
    sought: SoughtPart,
) -> Option<FoundPart<'t>> {
    let of_targets = match sought {
        SoughtPart::Select(place) => in_targets(targets, place),
        SoughtPart::Length(place) if at == place => Some(FoundPart::Targets(targets)),
        _ => None,
    };
    first_of(of_targets, in_expr(value, sought))
}

fn in_targets(targets: &[Target], place: Place) -> Option<FoundPart<'_>> {
    targets.iter().find_map(|target| in_target(target, place))
}

fn in_target(target: &Target, place: Place) -> Option<FoundPart<'_>> {
    match &target.select {
        Select::Bit(index) if index.place() == place => {
            Some(FoundPart::Bit(target.name.bytes(), index))
        }
        Select::Part(high, low) if target.place == place => {
            Some(FoundPart::Part(target.name.bytes(), high, low))
        }
        _ => None,
    }
}

// What is found in a statement.
#[cycle(in_statement)]
fn in_statement(stmt: &Stmt, sought: SoughtPart) -> Option<FoundPart<'_>> {
    match stmt {
        Stmt::Null => None,
        Stmt::Assign {
            targets,
            place,
            value,
            ..
        } => in_assignment(targets, *place, value, sought),
        Stmt::Block(stmts) => in_statements(stmts, sought),
        Stmt::If { cond, yes, no, .. } => {
            let in_no = match no {
                Some(no) => in_statement(no, sought),
                None => None,
            };
            let in_arms = first_of(in_statement(yes, sought), in_no);
            first_of(in_expr(cond, sought), in_arms)
        }
        Stmt::Case { selector, arms, .. } => {
            first_of(in_expr(selector, sought), in_arms(arms, sought))
        }
    }
}

#[cycle(in_statement)]
fn in_statements(stmts: &[Stmt], sought: SoughtPart) -> Option<FoundPart<'_>> {
    for stmt in stmts {
        if let Some(found) = in_statement(stmt, sought) {
            return Some(found);
        }
    }
    None
}

#[cycle(in_statement)]
fn in_arms(arms: &[Arm], sought: SoughtPart) -> Option<FoundPart<'_>> {
    for arm in arms {
        let in_arm = in_statement(&arm.body, sought);
        if let Some(found) = first_of(in_exprs(&arm.items, sought), in_arm) {
            return Some(found);
        }
    }
    None
}

// What is found in an item.
fn in_item(item: &Item, sought: SoughtPart) -> Option<FoundPart<'_>> {
    match item {
        Item::Param(param) => in_expr(&param.value, sought),
        Item::Decl(decl) => in_expr(decl.value.as_ref()?, sought),
        Item::Assign {
            targets,
            place,
            value,
        } => in_assignment(targets, *place, value, sought),
        Item::Always { body, .. } => in_statement(body, sought),
        Item::Instance(instance) => in_links(instance, sought),
        _ => None,
    }
}

// What is found in the links of an instance.
fn in_links(instance: &Instance, sought: SoughtPart) -> Option<FoundPart<'_>> {
    match &instance.links {
        Links::Ordered(links) => in_exprs(links, sought),
        Links::Named(links) => in_named_links(links, sought),
    }
}

fn in_named_links(links: &[NamedLink], sought: SoughtPart) -> Option<FoundPart<'_>> {
    for link in links {
        if let Some(expr) = &link.2 {
            if let Some(found) = in_expr(expr, sought) {
                return Some(found);
            }
        }
    }
    None
}

// What is found in the item around a place.
fn found_at(module: &Module, place: Place, sought: SoughtPart) -> Option<FoundPart<'_>> {
    in_item(item_at(module, place)?, sought)
}

const OUTSIDE: &str =
    "this bit or part lies outside of its signal, or its high bound is below its low one";

/// Of a rule on bits, parts, ranges and lengths, as far as the constants of the module tell.
pub fn by_constants(
    alloc: Global,
    rule: Rule,
    case: &Case,
    text: Option<&Text>,
) -> Result<String, AllocError> {
    if let Some(text) = text {
        if let Some(module) = module_at(text, case.place) {
            let constants = Constants::new(alloc, text, module)?;
            return in_module(alloc, rule, case.place, module, &constants);
        }
    }
    owned(alloc, usual_words(rule))
}

// What is said of such a rule where no more is known.
fn usual_words(rule: Rule) -> &'static str {
    match rule {
        Rule::TooWide => TOO_WIDE,
        Rule::BadCount => BAD_COUNT,
        Rule::BadRange => BAD_RANGE,
        _ => OUTSIDE,
    }
}

// What is said of such a rule at a place of a module.
fn in_module(
    alloc: Global,
    rule: Rule,
    place: Place,
    module: &Module,
    constants: &Constants,
) -> Result<String, AllocError> {
    match rule {
        Rule::TooWide => {
            let found = found_at(module, place, SoughtPart::Length(place));
            too_wide(alloc, number_of(constants, found))
        }
        Rule::BadCount => {
            let found = found_at(module, place, SoughtPart::Count(place));
            bad_count(alloc, number_of(constants, found))
        }
        Rule::BadRange => bad_range(alloc, bounds_of(constants, range_at(module, place))),
        _ => {
            let found = found_at(module, place, SoughtPart::Select(place));
            bad_select(alloc, constants, found)
        }
    }
}

// Of a bit or part outside of its signal, or with its bounds in the wrong order.
fn bad_select(
    alloc: Global,
    constants: &Constants,
    found: Option<FoundPart>,
) -> Result<String, AllocError> {
    match found {
        Some(FoundPart::Bit(name, index)) => outside(alloc, constants, name, index),
        Some(FoundPart::Part(name, high, low)) => {
            let bounds = (constants.value(high), constants.value(low));
            wrong_part(alloc, constants, name, bounds)
        }
        _ => owned(alloc, OUTSIDE),
    }
}

// That a signal has so many bits.
fn bits_of(alloc: Global, constants: &Constants, name: &[u8]) -> Result<String, AllocError> {
    let signal = Hole::Name(name);
    match constants.width(name) {
        Some(1) => told(alloc, "`{}` has 1 bit, whose number is 0", &[signal]),
        Some(width) => told(
            alloc,
            "`{}` has {} bits, whose numbers are 0 to {}",
            &[
                signal,
                Hole::Number(width),
                Hole::Number(width.saturating_sub(1)),
            ],
        ),
        None => told(alloc, "`{}` has fewer bits", &[signal]),
    }
}

// Of a bit that a signal has not.
fn outside(
    alloc: Global,
    constants: &Constants,
    name: &[u8],
    index: &Expr,
) -> Result<String, AllocError> {
    let bits = bits_of(alloc, constants, name)?;
    let bits = Hole::Words(bits.as_str());
    match constants.value(index) {
        Some(number) => told(
            alloc,
            "there is no bit {}: {}",
            &[Hole::Number(number), bits],
        ),
        None => told(alloc, "there is no such bit: {}", &[bits]),
    }
}

// Of a part, by its bounds, that a signal has not, or whose bounds are in the wrong order.
fn wrong_part(
    alloc: Global,
    constants: &Constants,
    name: &[u8],
    bounds: (Option<u64>, Option<u64>),
) -> Result<String, AllocError> {
    let (Some(above), Some(below)) = bounds else {
        return owned(alloc, OUTSIDE);
    };
    let high = Hole::Number(above);
    let low = Hole::Number(below);
    if above < below {
        return told(
            alloc,
            "the high bound of the part `[{}:{}]` is below its low one: write `[{}:{}]`",
            &[high, low, low, high],
        );
    }
    let bits = bits_of(alloc, constants, name)?;
    told(
        alloc,
        "there is no part `[{}:{}]`: {}",
        &[high, low, Hole::Words(bits.as_str())],
    )
}

/// Of a signal where a constant is wanted.
pub fn not_constant(alloc: Global, case: &Case) -> Result<String, AllocError> {
    let tokens = case.origin.tokens(alloc)?;
    let spot = spot_at(case.origin.text, &tokens, case.place);
    owned(alloc, constant_words(spot))
}

// Where a constant is wanted.
fn constant_words(spot: Spot) -> &'static str {
    let open = bytes_at(spot.text, spot.front, last_open(spot.text, spot.front));
    if open == b"case".as_slice() {
        "an item of a `case` is a constant, and this is a signal: ask it by `if`"
    } else if open == b"[".as_slice() && !is_bound(spot) {
        "a part's bounds, and the index of what is assigned, are constants, and this is a signal: \
         shift by it, or ask it by `case`"
    } else {
        "a constant is wanted here, and this is a signal: use a parameter"
    }
}

const TOO_WIDE: &str = "this has over 64 bits, which are the most: split it in two";

// Of what has over 64 bits.
fn too_wide(alloc: Global, length: Option<u64>) -> Result<String, AllocError> {
    match length {
        Some(length) if length > 64 => told(
            alloc,
            "this has {} bits, and 64 there may be: split it in two",
            &[Hole::Count(length)],
        ),
        _ => owned(alloc, TOO_WIDE),
    }
}

// How many bits has what is found to have too many, and the value of what is found to be a count.
fn number_of(constants: &Constants, found: Option<FoundPart>) -> Option<u64> {
    match found? {
        FoundPart::Expr(expr) => constants.length(expr),
        FoundPart::Targets(targets) => constants.targets_length(targets),
        FoundPart::Count(count) => constants.value(count),
        _ => None,
    }
}

const BAD_COUNT: &str = "a replication is written 1 to 64 times";

// Of a replication that is written too often, or not at all.
fn bad_count(alloc: Global, count: Option<u64>) -> Result<String, AllocError> {
    match count {
        Some(count) => told(
            alloc,
            "this replication is written {} times, and 1 to 64 times it may be",
            &[Hole::Number(count)],
        ),
        None => owned(alloc, BAD_COUNT),
    }
}

// The range of a module whose high bound is at a place.
fn range_at(module: &Module, place: Place) -> Option<&Span> {
    if let Some(span) = range_of_param(&module.params, place) {
        return Some(span);
    }
    if let Some(span) = range_of_port(&module.ports, place) {
        return Some(span);
    }
    for item in &module.items {
        if let Some(span) = range_of_item(item, place) {
            return Some(span);
        }
    }
    None
}

fn range_of_param(params: &[Param], place: Place) -> Option<&Span> {
    for param in params {
        if let Some(span) = range_if(&param.span, place) {
            return Some(span);
        }
    }
    None
}

fn range_of_port(ports: &[Decl], place: Place) -> Option<&Span> {
    for port in ports {
        if let Some(span) = range_if(&port.span, place) {
            return Some(span);
        }
    }
    None
}

fn range_of_item(item: &Item, place: Place) -> Option<&Span> {
    match item {
        Item::Param(param) => range_if(&param.span, place),
        Item::Decl(decl) => range_if(&decl.span, place),
        _ => None,
    }
}

fn range_if(span: &Option<Span>, place: Place) -> Option<&Span> {
    match span {
        Some(span) if span.high.place() == place => Some(span),
        _ => None,
    }
}

const BAD_RANGE: &str = "a range is `[m:0]` with m from 0 to 63";

// Of a range that is none of a signal.
fn bad_range(alloc: Global, bounds: Option<(u64, u64)>) -> Result<String, AllocError> {
    match bounds {
        Some((high, low)) => wrong_range(alloc, high, low),
        None => owned(alloc, BAD_RANGE),
    }
}

fn bounds_of(constants: &Constants, span: Option<&Span>) -> Option<(u64, u64)> {
    let span = span?;
    Some((constants.value(&span.high)?, constants.value(&span.low)?))
}

// Of a range between two numbers.
fn wrong_range(alloc: Global, high: u64, low: u64) -> Result<String, AllocError> {
    if low == 0 {
        return told(
            alloc,
            "the range `[{}:0]` has {} bits, and 64 there may be: split the signal in two",
            &[Hole::Number(high), Hole::Count(high.saturating_add(1))],
        );
    }
    let low = Hole::Number(low);
    if high == 0 {
        return told(
            alloc,
            "the range `[0:{}]` has its low bound first: write `[{}:0]`, with the highest bit \
             first",
            &[low, low],
        );
    }
    told(
        alloc,
        "the range `[{}:{}]` is to end at 0: `[m:0]`, with m from 0 to 63",
        &[Hole::Number(high), low],
    )
}
