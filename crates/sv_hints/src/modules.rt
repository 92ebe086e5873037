// What is said of modules and instances.
use crate::cases::{Case, owned};
use crate::named::names_in_row;
use crate::origins::{item_at, module_in};
use crate::rows::Row;
use crate::sentences::{Hole, told};
use std::alloc::{AllocError, Global};
use sv_ast::{Item, Text};

/// Of a text without a top.
pub fn no_top(alloc: Global, case: &Case, text: Option<&Text>) -> Result<String, AllocError> {
    match (text, case.origin.top) {
        (Some(text), Some(top)) => no_such_top(alloc, text, top),
        (Some(text), None) => no_one_top(alloc, text),
        (None, _) => owned(alloc, "there is no top: name it by `--top MODULE`"),
    }
}

// Of a top that is asked for and is no module.
fn no_such_top(alloc: Global, text: &Text, top: &str) -> Result<String, AllocError> {
    let modules = names_in_row(alloc, text.modules.as_slice())?;
    told(
        alloc,
        "there is no module `{}`, which `--top` names; the modules are {}",
        &[Hole::Asked(top), Hole::Words(modules.as_str())],
    )
}

// Of a text of which no module, or more than one, stands in no other one.
fn no_one_top(alloc: Global, text: &Text) -> Result<String, AllocError> {
    let count = count_of_tops(text);
    if count == 0 {
        return owned(
            alloc,
            "there is no top, since each module stands in some module: name it by `--top MODULE`",
        );
    }
    let tops = all_tops(alloc, text)?;
    told(
        alloc,
        "{} modules stand in no other one: {}; name the top by `--top MODULE`",
        &[Hole::Number(count), Hole::Words(tops.as_str())],
    )
}

// How many modules stand in no other one.
fn count_of_tops(text: &Text) -> u64 {
    let mut count = 0u64;
    for module in &text.modules {
        if !is_instanced(text, module.name.bytes()) {
            count = count.saturating_add(1);
        }
    }
    count
}

// The modules that stand in no other one, in a row.
fn all_tops(alloc: Global, text: &Text) -> Result<String, AllocError> {
    let mut row = Row::new(alloc);
    for module in &text.modules {
        if !is_instanced(text, module.name.bytes()) {
            row.add(module.name.bytes(), "")?;
        }
    }
    row.finish()
}

/// Whether some module has an instance of this one.
pub fn is_instanced(text: &Text, name: &[u8]) -> bool {
    text.modules.iter().any(|module| module.items.iter().any(|item| is_instance(item, name)))
}

fn is_instance(item: &Item, name: &[u8]) -> bool {
    match item {
        Item::Instance(instance) => instance.module.bytes() == name,
        _ => false,
    }
}

/// Of a signal or an instance too many.
pub fn too_many(alloc: Global, case: &Case, text: Option<&Text>) -> Result<String, AllocError> {
    let words = if is_instance_at(text, case) {
        "this is the 1,025th instance of the whole design, and 1,024 there may be"
    } else {
        "this is the 4,097th signal of the whole design, its instances included, and 4,096 there \
         may be"
    };
    owned(alloc, words)
}

// Whether the place is that of an instance.
fn is_instance_at(text: Option<&Text>, case: &Case) -> bool {
    let Some(module) = module_in(text, case.place) else {
        return false;
    };
    match item_at(module, case.place) {
        Some(Item::Instance(instance)) => instance.place == case.place,
        _ => false,
    }
}
