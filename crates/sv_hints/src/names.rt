// What is said of names: unknown ones, those declared twice, and labels.
use crate::cases::Case;
use crate::constants::Constants;
use crate::contexts::{Use, is_in_value, spot_at, use_at};
use crate::instances::module_named;
use crate::maps::{counts_of, map_named, no_point};
use crate::named::names_in_row;
use crate::origins::{is_up_to, module_at, module_in};
use crate::rows::shown;
use crate::sentences::{Hole, told};
use std::alloc::{AllocError, Global};
use sv_ast::{Decl, Item, LabelText, MapText, Module, Param, Text};
use sv_num::{Name, Place};

/// What a name in a module was declared as, first.
#[derive(Clone, Copy)]
pub enum NamedItem<'a> {
    Parameter(Place),
    Signal(&'a Decl),
    Other(Place),
}

impl<'a> NamedItem<'a> {
    /// Where.
    pub fn place(&self) -> Place {
        match self {
            NamedItem::Parameter(place) => *place,
            NamedItem::Signal(decl) => decl.place,
            NamedItem::Other(place) => *place,
        }
    }
}

/// What a name in a module is declared as first.
pub fn first_declaration<'a>(module: &'a Module, name: &[u8]) -> Option<NamedItem<'a>> {
    if let Some(place) = parameter_named(&module.params, name) {
        return Some(NamedItem::Parameter(place));
    }
    match port_named(module, name) {
        Some(port) => Some(NamedItem::Signal(port)),
        None => declared_in(&module.items, name),
    }
}

// The place of the parameter of a name in a header.
fn parameter_named(params: &[Param], name: &[u8]) -> Option<Place> {
    for param in params {
        if param.name.bytes() == name {
            return Some(param.place);
        }
    }
    None
}

/// The port of a name.
pub fn port_named<'a>(module: &'a Module, name: &[u8]) -> Option<&'a Decl> {
    module.ports.iter().find(|port| port.name.bytes() == name)
}

// What the items of a module declare a name as first.
fn declared_in<'a>(items: &'a [Item], name: &[u8]) -> Option<NamedItem<'a>> {
    for item in items {
        if let Some(found) = declared_by(item, name) {
            return Some(found);
        }
    }
    None
}

// What an item declares the name as.
fn declared_by<'a>(item: &'a Item, name: &[u8]) -> Option<NamedItem<'a>> {
    match item {
        Item::Param(param) if param.name.bytes() == name => Some(NamedItem::Parameter(param.place)),
        Item::Decl(decl) if decl.name.bytes() == name => Some(NamedItem::Signal(decl)),
        Item::Memory(memory) if memory.name.bytes() == name => Some(NamedItem::Other(memory.place)),
        Item::Instance(instance) if instance.name.bytes() == name => {
            Some(NamedItem::Other(instance.name_place))
        }
        _ => None,
    }
}

/// Of a name that is declared twice.
pub fn twice(alloc: Global, case: &Case, text: Option<&Text>) -> Result<String, AllocError> {
    let name = Hole::Name(case.name());
    if let Some(text) = text {
        if is_module_at(text, case.place) {
            return twice_a_module(alloc, case.name(), text);
        }
        if let Some(place) = first_place(text, case) {
            return told(
                alloc,
                "`{}` is declared twice in one module, first at {}",
                &[name, Hole::Place(place)],
            );
        }
    }
    told(alloc, "`{}` is declared twice", &[name])
}

// Whether a module begins at a place.
fn is_module_at(text: &Text, place: Place) -> bool {
    for module in &text.modules {
        if module.place == place {
            return true;
        }
    }
    false
}

// Where the name of a case is declared first in the module around its place.
fn first_place(text: &Text, case: &Case) -> Option<Place> {
    let module = module_at(text, case.place)?;
    Some(first_declaration(module, case.name())?.place())
}

// Of two modules of one name.
fn twice_a_module(alloc: Global, name: &[u8], text: &Text) -> Result<String, AllocError> {
    match module_named(text, name) {
        Some(first) => told(
            alloc,
            "there are two modules `{}`, the first at {}",
            &[Hole::Name(name), Hole::Place(first.place)],
        ),
        None => told(alloc, "there are two modules `{}`", &[Hole::Name(name)]),
    }
}

/// Of a name that stands for nothing here.
pub fn unknown_name(alloc: Global, case: &Case, text: Option<&Text>) -> Result<String, AllocError> {
    match module_in(text, case.place) {
        Some(module) => unknown_in(alloc, case, module),
        None => told(
            alloc,
            "no signal or parameter `{}` is in reach here",
            &[Hole::Name(case.name())],
        ),
    }
}

// Of a name that stands for nothing here, in a module.
fn unknown_in(alloc: Global, case: &Case, module: &Module) -> Result<String, AllocError> {
    match first_declaration(module, case.name()) {
        Some(NamedItem::Parameter(place)) if is_up_to(place, case.place) => {
            earlier_parameter(alloc, case, place)
        }
        Some(NamedItem::Parameter(place)) => told(
            alloc,
            "the parameter `{}` is declared later, at {}: declare it before it is used",
            &[Hole::Name(case.name()), Hole::Place(place)],
        ),
        Some(NamedItem::Other(_)) => told(
            alloc,
            "`{}` is an instance, and a signal is wanted here",
            &[Hole::Name(case.name())],
        ),
        _ => undeclared(alloc, case, module.name.bytes()),
    }
}

// Of a parameter that is declared before, where it cannot stand.
fn earlier_parameter(alloc: Global, case: &Case, place: Place) -> Result<String, AllocError> {
    let sentence = if is_own_value(alloc, case, place)? {
        "the parameter `{}` is used in its own value: write a number there, or a parameter that is \
         declared before"
    } else {
        "`{}` is a parameter, and a signal is wanted here"
    };
    told(alloc, sentence, &[Hole::Name(case.name())])
}

// Whether a name stands in the value of the parameter at a place.
fn is_own_value(alloc: Global, case: &Case, parameter: Place) -> Result<bool, AllocError> {
    let tokens = case.origin.tokens(alloc)?;
    Ok(is_in_value(case.origin.text, &tokens, parameter, case.place))
}

// Of a name that a module does not declare.
fn undeclared(alloc: Global, case: &Case, around: &[u8]) -> Result<String, AllocError> {
    let declaration = declaration_at(alloc, case)?;
    told(
        alloc,
        "there is no signal or parameter `{}` in module `{}`: declare it, as in {}",
        &[
            Hole::Name(case.name()),
            Hole::Name(around),
            Hole::Words(declaration.as_str()),
        ],
    )
}

// A declaration of the name of a case that makes it fit where it is used.
fn declaration_at(alloc: Global, case: &Case) -> Result<String, AllocError> {
    let tokens = case.origin.tokens(alloc)?;
    let spot = spot_at(case.origin.text, &tokens, case.place);
    let name = Hole::Name(case.name());
    told(alloc, declaration_for(use_at(spot)), &[name, name])
}

// How a name is declared for a use.
fn declaration_for(purpose: Use) -> &'static str {
    match purpose {
        Use::Clock => "`input {}`",
        Use::Bound => "`parameter {} = 8;`",
        Use::Register => "`reg {};`",
        Use::RegisterPart => "`reg [7:0] {};`",
        Use::Value => "`wire {};`, or `parameter {} = 8;` for a constant",
    }
}

// The label at a place of a module.
fn label_at(module: &Module, place: Place) -> Option<&LabelText> {
    match label_of_port(&module.ports, place) {
        Some(label) => Some(label),
        None => label_of_item(&module.items, place),
    }
}

fn label_of_port(ports: &[Decl], place: Place) -> Option<&LabelText> {
    for port in ports {
        if let Some(label) = label_of(port, place) {
            return Some(label);
        }
    }
    None
}

fn label_of_item(items: &[Item], place: Place) -> Option<&LabelText> {
    for item in items {
        if let Item::Decl(decl) = item {
            if let Some(label) = label_of(decl, place) {
                return Some(label);
            }
        }
    }
    None
}

// The label of a declaration, where it stands at the place.
fn label_of(decl: &Decl, place: Place) -> Option<&LabelText> {
    match &decl.label {
        Some(LabelText::Point(_, at)) if *at == place => decl.label.as_ref(),
        Some(LabelText::Table(_, _, _, at)) if *at == place => decl.label.as_ref(),
        _ => None,
    }
}

/// Of a label with an unknown name, or of selectors that do not fit.
pub fn label(alloc: Global, case: &Case, text: Option<&Text>) -> Result<String, AllocError> {
    if let Some(text) = text {
        if let Some(module) = module_at(text, case.place) {
            match label_at(module, case.place) {
                Some(LabelText::Point(_, _)) => return unknown_point(alloc, text, case.name()),
                Some(LabelText::Table(map, first, second, _)) => {
                    let label = Table {
                        map: map.bytes(),
                        first: first.bytes(),
                        second: bytes_in(second),
                    };
                    return table_label(alloc, text, module, case.name(), label);
                }
                None => {}
            }
        }
    }
    told(
        alloc,
        "`{}` does not fit in this label",
        &[Hole::Name(case.name())],
    )
}

// A label by a map: the names of the map, of its selector, and of a second one.
#[derive(Clone, Copy)]
struct Table<'a> {
    map: &'a [u8],
    first: &'a [u8],
    second: Option<&'a [u8]>,
}

fn bytes_in(name: &Option<Name>) -> Option<&[u8]> {
    match name {
        Some(name) => Some(name.bytes()),
        None => None,
    }
}

// Of a label by a name that is no point.
fn unknown_point(alloc: Global, text: &Text, name: &[u8]) -> Result<String, AllocError> {
    match map_named(text, name) {
        Some(map) => told(
            alloc,
            if map.second.is_some() {
                "`{}` is a label map: write `{}(SIGNAL, SIGNAL)`"
            } else {
                "`{}` is a label map: write `{}(SIGNAL)`"
            },
            &[Hole::Name(name), Hole::Name(name)],
        ),
        None => no_point(alloc, text, name),
    }
}

// Of a label by a map, of which the name that does not fit is given.
fn table_label<'t>(
    alloc: Global,
    text: &Text,
    module: &'t Module,
    name: &[u8],
    label: Table<'t>,
) -> Result<String, AllocError> {
    let Some(map) = map_named(text, label.map) else {
        return unknown_map(alloc, text, label.map);
    };
    if let Some(wrong) = wrong_selector(module, label) {
        return no_selector(alloc, module, wrong, label.map);
    }
    if map.second.is_some() != label.second.is_some() {
        return wrong_count(alloc, label.map, map.second.is_some());
    }
    let width = Constants::new(alloc, text, module)?.width(name);
    wrong_width(alloc, map, label, name, width)
}

// The first selector of a label that is no signal.
fn wrong_selector<'a>(module: &Module, label: Table<'a>) -> Option<&'a [u8]> {
    if !is_signal(module, label.first) {
        return Some(label.first);
    }
    match label.second {
        Some(second) if !is_signal(module, second) => Some(second),
        _ => None,
    }
}

// Of a selector of so many bits, which are not those of the map's range.
fn wrong_width(
    alloc: Global,
    found: &MapText,
    label: Table,
    name: &[u8],
    width: Option<u64>,
) -> Result<String, AllocError> {
    let selector = shown(alloc, name)?;
    match (count_at(found, name, label), counts_of(found)) {
        (Some(count), _) => told(
            alloc,
            "the range of the label map `{}` has {} {}, and `{}`, which picks its row, has {}",
            &[
                Hole::Name(label.map),
                bits_for(count),
                unit_for(count),
                Hole::Words(selector.as_str()),
                width_words(width),
            ],
        ),
        (None, Some((first, second))) => told(
            alloc,
            "the ranges of the label map `{}` have {} and {} bits, and `{}`, which picks its row \
             by both, has {}",
            &[
                Hole::Name(label.map),
                bits_for(first),
                bits_for(second),
                Hole::Words(selector.as_str()),
                width_words(width),
            ],
        ),
        (None, None) => told(
            alloc,
            "`{}` has not as many bits as the range of the label map `{}`, whose row it picks",
            &[Hole::Words(selector.as_str()), Hole::Name(label.map)],
        ),
    }
}

// How many bits a selector has, if that is known.
fn width_words(width: Option<u64>) -> Hole<'static> {
    match width {
        Some(width) => Hole::Number(width),
        None => Hole::Words("another number"),
    }
}

// How many bits tell so many numbers apart, a power of 2.
fn bits_for(count: u64) -> Hole<'static> {
    Hole::Number(count.trailing_zeros() as u64)
}

// The unit of these bits.
fn unit_for(count: u64) -> Hole<'static> {
    Hole::Words(if count == 2 { "bit" } else { "bits" })
}

// How many numbers the range of a map has of which a selector picks one; None where it stands for
// two of different ranges.
fn count_at(map: &MapText, name: &[u8], label: Table) -> Option<u64> {
    let counts = counts_of(map)?;
    let is_first = label.first == name;
    let is_second = match label.second {
        Some(second) => second == name,
        None => false,
    };
    match (is_first, is_second) {
        (true, true) if counts.0 != counts.1 => None,
        (true, _) => Some(counts.0),
        (false, true) => Some(counts.1),
        (false, false) => None,
    }
}

// Whether a name in a module is a signal's.
fn is_signal(module: &Module, name: &[u8]) -> bool {
    matches!(first_declaration(module, name), Some(NamedItem::Signal(_)))
}

// Of a map that there is not.
fn unknown_map(alloc: Global, text: &Text, map: &[u8]) -> Result<String, AllocError> {
    let maps = names_in_row(alloc, text.maps.as_slice())?;
    told(
        alloc,
        "there is no label map `{}`; the label maps are: {}",
        &[Hole::Name(map), Hole::Words(maps.as_str())],
    )
}

// Of a selector too many or too few.
fn wrong_count(alloc: Global, map: &[u8], is_double: bool) -> Result<String, AllocError> {
    told(
        alloc,
        if is_double {
            "the label map `{}` picks its row by two signals"
        } else {
            "the label map `{}` picks its row by one signal"
        },
        &[Hole::Name(map)],
    )
}

// Of a selector that is no signal.
fn no_selector<'a>(
    alloc: Global,
    module: &'a Module,
    name: &'a [u8],
    map: &'a [u8],
) -> Result<String, AllocError> {
    let declared = first_declaration(module, name);
    let name = Hole::Name(name);
    let map = Hole::Name(map);
    match declared {
        Some(NamedItem::Parameter(_)) => told(
            alloc,
            "a signal picks the row of the label map `{}`, and `{}` is a parameter: make it an \
             input, linked to a constant",
            &[map, name],
        ),
        Some(_) => told(
            alloc,
            "a signal picks the row of the label map `{}`, and `{}` is none",
            &[map, name],
        ),
        None => told(
            alloc,
            "there is no signal `{}` in module `{}`, to pick the row of the label map `{}`",
            &[name, Hole::Name(module.name.bytes()), map],
        ),
    }
}
