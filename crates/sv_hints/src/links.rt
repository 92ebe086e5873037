// What is said of links and overrides of an instance.
use crate::cases::Case;
use crate::instances::{instance_of, master_of, own_name};
use crate::named::names_in_row;
use crate::names::{NamedItem, first_declaration, port_named};
use crate::origins::{is_up_to, item_at, module_at};
use crate::rows::{Row, shown};
use crate::sentences::{Hole, told};
use std::alloc::{AllocError, Global};
use sv_ast::{DeclKind, Expr, Instance, Item, Links, Module, Overrides, Text};
use sv_num::{Name, Place};

/// A link of a port by its name, at a place, to an expression or to nothing.
pub type NamedLink = (Name, Place, Option<Expr>);

// The instance whose links are around a place: the last whose name stands before it.
fn linked_at(text: &Text, place: Place) -> Option<&Instance> {
    let mut found = None;
    for item in &module_at(text, place)?.items {
        if let Item::Instance(instance) = item {
            if is_up_to(instance.name_place, place) {
                found = Some(instance);
            }
        }
    }
    found
}

// An instance whose overrides are around a place: they are those of each in its item.
fn overridden_at(text: &Text, place: Place) -> Option<&Instance> {
    match item_at(module_at(text, place)?, place) {
        Some(Item::Instance(instance)) => Some(instance),
        _ => None,
    }
}

/// Of a wrong link.
pub fn link(alloc: Global, case: &Case, text: Option<&Text>) -> Result<String, AllocError> {
    if let Some(text) = text {
        if let Some(instance) = linked_at(text, case.place) {
            if let Some(master) = master_of(text, instance) {
                return link_of(alloc, case, text, instance, master);
            }
        }
    }
    told(
        alloc,
        "the link of `{}` is to no port, or a second one, or a part of a signal is linked to an \
         output",
        &[Hole::Name(case.name())],
    )
}

// Of a wrong link of an instance of a module.
fn link_of<'t>(
    alloc: Global,
    case: &Case,
    text: &'t Text,
    instance: &'t Instance,
    master: &Module,
) -> Result<String, AllocError> {
    if case.names.is_empty() {
        return link_too_many(alloc, master);
    }
    match port_named(master, case.name()) {
        Some(port) => link_to_port(alloc, case, text, instance, port.kind),
        None => no_port(alloc, case.name(), master),
    }
}

// Of a wrong link of a port of such a kind.
fn link_to_port<'t>(
    alloc: Global,
    case: &Case,
    text: &'t Text,
    instance: &'t Instance,
    kind: DeclKind,
) -> Result<String, AllocError> {
    if let Some(first) = earlier_link(&instance.links, case) {
        return told(
            alloc,
            "the port `{}` is linked twice, first at {}",
            &[Hole::Name(case.name()), Hole::Place(first)],
        );
    }
    if kind == DeclKind::Input {
        return told(
            alloc,
            "the port `{}` cannot be linked so",
            &[Hole::Name(case.name())],
        );
    }
    match (
        linked_name(&instance.links, case.place),
        module_at(text, case.place),
    ) {
        (Some(linked), Some(around)) => no_signal(alloc, around, case.name(), linked),
        _ => told(
            alloc,
            "the output `{}` is linked to what is no whole signal: link a `wire`, and take its \
             bits from that",
            &[Hole::Name(case.name())],
        ),
    }
}

// Of a link behind those of all ports.
fn link_too_many(alloc: Global, master: &Module) -> Result<String, AllocError> {
    let count = master.ports.len() as u64;
    told(
        alloc,
        "this is a link too many: the module `{}` has {} {}",
        &[
            Hole::Name(master.name.bytes()),
            Hole::Number(count),
            Hole::Words(if count == 1 { "port" } else { "ports" }),
        ],
    )
}

// Of a link of no port of a module.
fn no_port(alloc: Global, name: &[u8], master: &Module) -> Result<String, AllocError> {
    let ports = names_in_row(alloc, master.ports.as_slice())?;
    told(
        alloc,
        "the module `{}` has no port `{}`; its ports are {}",
        &[
            Hole::Name(master.name.bytes()),
            Hole::Name(name),
            Hole::Words(ports.as_str()),
        ],
    )
}

// The name at a place that is linked whole.
fn linked_name(links: &Links, place: Place) -> Option<&[u8]> {
    match links {
        Links::Named(links) => name_in_links(links, place),
        Links::Ordered(links) => name_in_exprs(links, place),
    }
}

fn name_in_links(links: &[NamedLink], place: Place) -> Option<&[u8]> {
    for link in links {
        if let Some(expr) = &link.2 {
            if let Some(name) = name_at(expr, place) {
                return Some(name);
            }
        }
    }
    None
}

fn name_in_exprs(exprs: &[Expr], place: Place) -> Option<&[u8]> {
    for expr in exprs {
        if let Some(name) = name_at(expr, place) {
            return Some(name);
        }
    }
    None
}

// The name that an expression at a place is.
fn name_at(expr: &Expr, place: Place) -> Option<&[u8]> {
    match expr {
        Expr::Name(name, at) if *at == place => Some(name.bytes()),
        _ => None,
    }
}

// Of an output that is linked to a name of no signal.
fn no_signal<'t>(
    alloc: Global,
    around: &'t Module,
    port: &[u8],
    linked: &'t [u8],
) -> Result<String, AllocError> {
    let port = shown(alloc, port)?;
    let port = Hole::Words(port.as_str());
    let name = Hole::Name(linked);
    match first_declaration(around, linked) {
        None => told(
            alloc,
            "there is no signal `{}` in module `{}`, to link the output `{}` to: declare it as \
             wide as that, as in `wire {};`",
            &[name, Hole::Name(around.name.bytes()), port, name],
        ),
        Some(NamedItem::Parameter(_)) => told(
            alloc,
            "the output `{}` is linked to the parameter `{}`: link a `wire`",
            &[port, name],
        ),
        Some(_) => told(
            alloc,
            "the output `{}` is linked to `{}`, which is no signal: link a `wire`",
            &[port, name],
        ),
    }
}

// The place of an earlier link of the port that is linked by name at the case's place.
fn earlier_link(links: &Links, case: &Case) -> Option<Place> {
    let Links::Named(links) = links else {
        return None;
    };
    let first = link_named(links, case.name())?.1;
    if is_link_at(links, case.place) && first != case.place {
        Some(first)
    } else {
        None
    }
}

// The first link of a port.
fn link_named<'t>(links: &'t [NamedLink], port: &[u8]) -> Option<&'t NamedLink> {
    for link in links {
        if link.0.bytes() == port {
            return Some(link);
        }
    }
    None
}

// Whether a port is linked at a place.
fn is_link_at(links: &[NamedLink], place: Place) -> bool {
    for link in links {
        if link.1 == place {
            return true;
        }
    }
    false
}

/// Of a wrong override.
pub fn parameter(alloc: Global, case: &Case, text: Option<&Text>) -> Result<String, AllocError> {
    if let Some(text) = text {
        if let Some(instance) = overridden_at(text, case.place) {
            if let Some(master) = master_of(text, instance) {
                return parameter_of(alloc, case, instance, master);
            }
        }
    }
    told(
        alloc,
        "`{}` is no parameter that may be set, or is set twice",
        &[Hole::Name(case.name())],
    )
}

// Of a wrong override of an instance of a module.
fn parameter_of(
    alloc: Global,
    case: &Case,
    instance: &Instance,
    master: &Module,
) -> Result<String, AllocError> {
    if case.names.is_empty() {
        return value_too_many(alloc, master);
    }
    match earlier_value(&instance.overrides, case) {
        Some(first) => told(
            alloc,
            "the parameter `{}` is set twice, first at {}",
            &[Hole::Name(case.name()), Hole::Place(first)],
        ),
        None => not_settable(alloc, case.name(), master),
    }
}

// Of a value behind those of all parameters.
fn value_too_many(alloc: Global, master: &Module) -> Result<String, AllocError> {
    let settable = settable_of(alloc, master)?;
    told(
        alloc,
        "this is a value too many: the parameters of the module `{}` that may be set are {}",
        &[
            Hole::Name(master.name.bytes()),
            Hole::Words(settable.as_str()),
        ],
    )
}

// Of a value of what no instance may set.
fn not_settable(alloc: Global, name: &[u8], master: &Module) -> Result<String, AllocError> {
    let module = shown(alloc, master.name.bytes())?;
    match first_declaration(master, name) {
        Some(NamedItem::Parameter(place)) => local_parameter(alloc, name, place, module.as_str()),
        _ => no_parameter(alloc, name, master, module.as_str()),
    }
}

// Of a parameter that its module alone sets, at a place.
fn local_parameter(
    alloc: Global,
    name: &[u8],
    place: Place,
    module: &str,
) -> Result<String, AllocError> {
    let name = shown(alloc, name)?;
    told(
        alloc,
        "the parameter `{}` is local, at {}, so no instance sets it: declare it in the header, \
         `module {} #(parameter {} = ..)`",
        &[
            Hole::Words(name.as_str()),
            hole_at(place),
            Hole::Words(module),
            Hole::Words(name.as_str()),
        ],
    )
}

// A place in a hole.
fn hole_at(place: Place) -> Hole<'static> {
    Hole::Place(place)
}

// Of a name that is no parameter of a module.
fn no_parameter(
    alloc: Global,
    name: &[u8],
    master: &Module,
    module: &str,
) -> Result<String, AllocError> {
    let name = shown(alloc, name)?;
    let settable = settable_of(alloc, master)?;
    told(
        alloc,
        "the module `{}` has no parameter `{}`; those that may be set are {}",
        &[
            Hole::Words(module),
            Hole::Words(name.as_str()),
            Hole::Words(settable.as_str()),
        ],
    )
}

// The parameters of a module that an instance may set, in a row: those of the header or, where it
// has none, those of the body.
fn settable_of(alloc: Global, master: &Module) -> Result<String, AllocError> {
    if master.params.is_empty() {
        settable_in_body(alloc, master)
    } else {
        settable_in_header(alloc, master)
    }
}

fn settable_in_header(alloc: Global, master: &Module) -> Result<String, AllocError> {
    let mut row = Row::new(alloc);
    for param in &master.params {
        if !param.local {
            row.add(param.name.bytes(), "")?;
        }
    }
    row.finish()
}

fn settable_in_body(alloc: Global, master: &Module) -> Result<String, AllocError> {
    let mut row = Row::new(alloc);
    for item in &master.items {
        match item {
            Item::Param(param) if !param.local => row.add(param.name.bytes(), "")?,
            _ => {}
        }
    }
    row.finish()
}

// The place of an earlier value of the parameter that is set by name at the case's place.
fn earlier_value(overrides: &Overrides, case: &Case) -> Option<Place> {
    let Overrides::Named(values) = overrides else {
        return None;
    };
    let first = first_value(values, case.name())?;
    if first != case.place {
        Some(first)
    } else {
        None
    }
}

// The place of the first value of a parameter.
fn first_value(values: &[(Name, Place, Expr)], name: &[u8]) -> Option<Place> {
    for value in values {
        if value.0.bytes() == name {
            return Some(value.1);
        }
    }
    None
}

/// How an instance links a port: to an expression, to nothing, or not at all.
#[derive(Clone, Copy)]
pub enum PortLink {
    Expr(Place),
    Nothing(Place),
    Missing(Place),
}

/// The link of the port that is the signal of a case, where it is one.
pub fn port_link(alloc: Global, case: &Case) -> Option<PortLink> {
    link_to(&case.origin.tree(alloc)?, case.origin.top, case.name())
}

// The link of the port that is the signal of a name.
fn link_to(text: &Text, top: Option<&str>, name: &[u8]) -> Option<PortLink> {
    let instance = instance_of(text, top, name)?;
    let port = own_name(name);
    let missing = PortLink::Missing(instance.name_place);
    match &instance.links {
        Links::Named(links) => Some(link_among(links, port, missing)),
        Links::Ordered(links) => {
            let at = number_of_port(master_of(text, instance)?, port)?;
            match links.get(at) {
                Some(expr) => Some(PortLink::Expr(expr.place())),
                None => Some(missing),
            }
        }
    }
}

// The number of the port of a name.
fn number_of_port(master: &Module, name: &[u8]) -> Option<usize> {
    for (number, port) in master.ports.iter().enumerate() {
        if port.name.bytes() == name {
            return Some(number);
        }
    }
    None
}

// The link of a port among those by name.
fn link_among(links: &[NamedLink], port: &[u8], missing: PortLink) -> PortLink {
    match link_named(links, port) {
        Some(link) => match &link.2 {
            Some(expr) => PortLink::Expr(expr.place()),
            None => PortLink::Nothing(link.1),
        },
        None => missing,
    }
}
