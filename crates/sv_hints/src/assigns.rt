// What is said of assignments, of signals without a driver, and of circles of signals.
use crate::cases::{Case, owned};
use crate::instances::{instance_of, own_name};
use crate::named::names_in_row;
use crate::names::{NamedItem, first_declaration};
use crate::origins::{item_at, module_in};
use crate::sentences::{Hole, told};
use crate::syntax::is_blocking_at;
use std::alloc::{AllocError, Global};
use sv_ast::{Decl, DeclKind, Item, Module, Text};
use sv_num::Place;

/// Of a target that may not be assigned here, or not so.
pub fn wrong_assign(alloc: Global, case: &Case, text: Option<&Text>) -> Result<String, AllocError> {
    let Some(module) = module_in(text, case.place) else {
        return told(
            alloc,
            "`{}` may not be assigned here, or not by this sign, or a bit of it twice",
            &[Hole::Name(case.name())],
        );
    };
    let decl = signal_in(module, own_name(case.name()));
    match item_at(module, case.place) {
        Some(Item::Always { clock, .. }) => in_block(alloc, case, clock.is_some(), decl),
        _ => outside_blocks(alloc, case.name(), decl),
    }
}

// The declaration of a signal of a name in a module.
fn signal_in<'a>(module: &'a Module, name: &[u8]) -> Option<&'a Decl> {
    match first_declaration(module, name) {
        Some(NamedItem::Signal(decl)) => Some(decl),
        _ => None,
    }
}

// Whether a declaration is that of a register.
fn is_reg(decl: &Decl) -> bool {
    matches!(decl.kind, DeclKind::Reg | DeclKind::OutputReg)
}

// In an `always`, at a clock edge or not.
fn in_block(
    alloc: Global,
    case: &Case,
    is_clocked: bool,
    decl: Option<&Decl>,
) -> Result<String, AllocError> {
    match decl {
        Some(decl) if decl.kind == DeclKind::Input => told(
            alloc,
            "`{}` is an input, declared at {}, and is driven from outside: where the module is to \
             drive it, declare it an `output reg`",
            &[Hole::Name(case.name()), Hole::Place(decl.place)],
        ),
        _ => {
            let sign = is_blocking_at(alloc, case)?;
            by_sign(alloc, case.name(), is_clocked, sign, decl)
        }
    }
}

// The same of a signal that the module may drive, by the sign of its assignment, if that is found.
fn by_sign(
    alloc: Global,
    name: &[u8],
    is_clocked: bool,
    is_blocking: Option<bool>,
    decl: Option<&Decl>,
) -> Result<String, AllocError> {
    match (is_blocking, decl) {
        (Some(true), _) if is_clocked => told(
            alloc,
            "`{}` is assigned by `=` at a clock edge: write `<=`, by which all registers take \
             their values together",
            &[Hole::Name(name)],
        ),
        (Some(false), _) if !is_clocked => told(
            alloc,
            "`{}` is assigned by `<=` in an `always @*`: write `=`",
            &[Hole::Name(name)],
        ),
        (_, Some(decl)) if !is_reg(decl) => told(
            alloc,
            "`{}` is assigned in an `always`, so declare it a `reg`, at {}",
            &[Hole::Name(name), Hole::Place(decl.place)],
        ),
        _ => told(alloc, BIT_TWICE, &[Hole::Name(name)]),
    }
}

const BIT_TWICE: &str = "one assignment assigns a bit of `{}` twice";

// In an `assign`, or as the signal of an output's link.
fn outside_blocks(alloc: Global, name: &[u8], decl: Option<&Decl>) -> Result<String, AllocError> {
    match decl {
        Some(decl) if is_reg(decl) => told(
            alloc,
            "`{}` is a `reg`, which an `always` alone assigns: take `reg` away from its \
             declaration at {}, or assign it in an `always`",
            &[Hole::Name(name), Hole::Place(decl.place)],
        ),
        Some(decl) if decl.kind == DeclKind::Input => told(
            alloc,
            "`{}` is an input of the top, declared at {}, and is driven from outside",
            &[Hole::Name(name), Hole::Place(decl.place)],
        ),
        _ => told(alloc, BIT_TWICE, &[Hole::Name(name)]),
    }
}

/// The words that tell the instance in which the signal of a case stands.
pub fn instance_words(alloc: Global, case: &Case) -> Result<String, AllocError> {
    let text = case.origin.tree(alloc);
    words_of_instance(alloc, instance_around(text.as_ref(), case))
}

// The place of the name of the instance in which the signal of a case stands.
fn instance_around(text: Option<&Text>, case: &Case) -> Option<Place> {
    let instance = instance_of(text?, case.origin.top, case.name())?;
    Some(instance.name_place)
}

// The words that tell an instance, by the place of its name.
fn words_of_instance(alloc: Global, place: Option<Place>) -> Result<String, AllocError> {
    match place {
        Some(place) => told(alloc, " of the instance at {}", &[Hole::Place(place)]),
        None => owned(alloc, " of an instance"),
    }
}

/// Of a signal without a driver.
pub fn undriven(alloc: Global, case: &Case, text: Option<&Text>) -> Result<String, AllocError> {
    match declared_kind(text, case) {
        Some(DeclKind::Input) => {
            let at = words_of_instance(alloc, instance_around(text, case))?;
            told(
                alloc,
                "nothing drives `{}`, an input{}, which links nothing to it: link it there",
                &[Hole::Name(case.name()), Hole::Words(at.as_str())],
            )
        }
        Some(DeclKind::Reg | DeclKind::OutputReg) => told(
            alloc,
            "nothing drives the `reg` `{}`: assign it in an `always`",
            &[Hole::Name(case.name())],
        ),
        _ => told(
            alloc,
            "nothing drives `{}`: assign it, or link it to an output",
            &[Hole::Name(case.name())],
        ),
    }
}

// As what the signal of a case is declared.
fn declared_kind(text: Option<&Text>, case: &Case) -> Option<DeclKind> {
    Some(signal_in(module_in(text, case.place)?, own_name(case.name()))?.kind)
}

/// Of signals that read each other in a circle.
pub fn circle(alloc: Global, case: &Case) -> Result<String, AllocError> {
    if case.names.len() < 2 {
        return told(
            alloc,
            "`{}` reads itself without a register between, so it has no value: break the circle by \
             a register, or split the signal",
            &[Hole::Name(case.name())],
        );
    }
    let names = names_in_row(alloc, case.names)?;
    told(
        alloc,
        "these signals read each other in a circle without a register between, each the next and \
         the last `{}`: {}; break it by a register, or split a signal",
        &[Hole::Name(case.name()), Hole::Words(names.as_str())],
    )
}
