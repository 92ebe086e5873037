// The instance in which a signal of a design stands.
use crate::modules::is_instanced;
use sv_ast::{Instance, Item, Module, Text};

/// A signal's name in its own module: what stands behind the last `.`.
pub fn own_name(name: &[u8]) -> &[u8] {
    let mut own = name;
    for (number, byte) in name.iter().enumerate() {
        if *byte == b'.' {
            own = name.get(number.saturating_add(1)..).unwrap_or(b"");
        }
    }
    own
}

/// The first module of a name.
pub fn module_named<'t>(text: &'t Text, name: &[u8]) -> Option<&'t Module> {
    text.modules
        .iter()
        .find(|module| module.name.bytes() == name)
}

/// The module of an instance.
pub fn master_of<'t>(text: &'t Text, instance: &Instance) -> Option<&'t Module> {
    module_named(text, instance.module.bytes())
}

// The top of a text: the module that is asked for, or else the first that no module holds.
fn top_of<'t>(text: &'t Text, asked: Option<&str>) -> Option<&'t Module> {
    match asked {
        Some(asked) => module_named(text, asked.as_bytes()),
        None => first_top(text),
    }
}

// The first module that no module holds.
fn first_top(text: &Text) -> Option<&Module> {
    for module in &text.modules {
        if !is_instanced(text, module.name.bytes()) {
            return Some(module);
        }
    }
    None
}

// The instance of a name in a module.
fn instance_in<'t>(module: &'t Module, name: &[u8]) -> Option<&'t Instance> {
    for item in &module.items {
        if let Item::Instance(instance) = item {
            if instance.name.bytes() == name {
                return Some(instance);
            }
        }
    }
    None
}

// What stands before and behind the first `.`.
fn cut(name: &[u8]) -> Option<(&[u8], &[u8])> {
    for (number, byte) in name.iter().enumerate() {
        if *byte == b'.' {
            return Some((name.get(..number)?, name.get(number.saturating_add(1)..)?));
        }
    }
    None
}

/// The instance in which the signal of a name stands; none where it stands in the top.
pub fn instance_of<'t>(text: &'t Text, top: Option<&str>, name: &[u8]) -> Option<&'t Instance> {
    let mut module = top_of(text, top)?;
    let mut found = None;
    let mut rest = name;
    for _ in 0..name.len() {
        let Some((part, behind)) = cut(rest) else {
            return found;
        };
        let instance = instance_in(module, part)?;
        module = master_of(text, instance)?;
        found = Some(instance);
        rest = behind;
    }
    found
}
