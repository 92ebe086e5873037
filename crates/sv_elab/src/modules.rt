// The modules of a text by name, and its top module.
ghost use Rattle.std.specs.Prelude.{◌≡◌, ℕ, [], not, ◌||◌, List, Ok, Some, map, flat_map, filter};
ghost use Rattle.std.specs.Prelude.{option_map, OnOk, IfOk, IfErr};
ghost use Rattle.std.specs.List.{list_any};
ghost use Rattle.std.specs.Str.{bytes_eq};
ghost use Rattle.sv_ast.specs.Instances.{masters, only, top_module};
ghost use Rattle.sv_ast.specs.Views.{module_tree};
ghost use Rattle.sv_elab_rules.specs.Walks.{found};
ghost use Rattle.sv_elab_rules.specs.Rules.{no_top};
ghost use Rattle.sv_elab_rules.specs.Texts.{module_names};
ghost use Rattle.sv_width.specs.Answers.{IsBreach};
ghost use Rattle.sv_elab.specs.Modules.{names_of, plain, asked_name, is_apart_from};

use crate::wrong_names::add_name;
use indexmap::IndexSet;
use std::alloc::Global;
use sv_ast::{Item, Module};
use sv_num::{Fault, Name, OutOfMemory, Place, Rule};
use sv_width::refusal_naming;

/// The names of modules, each with the number of its module. Rule 312 refuses the first name that
/// an earlier module has.
pub fn module_names(alloc: Global, modules: &[Module]) -> Result<IndexSet<Name>, Fault>
    ensures asked { OnOk result ((module_names [] (map module_tree modules.now)).end ≡ Ok tt) }
    ensures names { IfOk result (λ names. names.keys ≡ names_of modules.now) }
    ensures broken { IfErr result (IsBreach (module_names [] (map module_tree modules.now)).end) }
{
    let mut names = IndexSet::new(alloc);
    for module in modules {
        if !add_name(alloc, &mut names, &module.name)? {
            return Err(refusal_naming(alloc, Rule::Twice, module.place, &module.name));
        }
    }
    Ok(names)
}

// Adds the names of the modules that a module has instances of.
fn add_masters(
    alloc: Global,
    found: &mut IndexSet<Name>,
    module: &Module,
) -> Result<(), OutOfMemory>
    ensures { OnOk result ((n : List ℕ) → list_any (bytes_eq n) found.new.keys
        ≡ (list_any (bytes_eq n) found.old.keys
        || list_any (bytes_eq n) (masters (module_tree «module».now)))) }
{
    for item in &module.items {
        if let Item::Instance(instance) = item {
            add_name(alloc, found, &instance.module)?;
        }
    }
    Ok(())
}

// The names of the modules that some module has an instance of.
fn all_masters(alloc: Global, modules: &[Module]) -> Result<IndexSet<Name>, OutOfMemory>
    ensures { IfOk result (λ found. (n : List ℕ) → list_any (bytes_eq n) found.keys
        ≡ list_any (bytes_eq n) (flat_map masters (map module_tree modules.now))) }
{
    let mut found = IndexSet::new(alloc);
    for module in modules {
        add_masters(alloc, &mut found, module)?;
    }
    Ok(found)
}

// The module that is none of the given ones, where exactly one is.
fn only_other<'a>(modules: &'a [Module], masters: &IndexSet<Name>) -> Option<&'a Module>
    ensures { plain result ≡
        only (filter (is_apart_from masters.now.keys) (map module_tree modules.now)) }
{
    let mut found = None;
    for module in modules {
        if !masters.contains(&module.name) {
            if found.is_some() {
                return None;
            }
            found = Some(module);
        }
    }
    found
}

/// The module of a name.
pub fn module_named<'a>(
    modules: &'a [Module],
    names: &IndexSet<Name>,
    name: &Name,
) -> Option<&'a Module>
    requires { names.now.keys ≡ names_of modules.now }
    ensures { plain result ≡ top_module (map module_tree modules.now) (Some name.now) }
{
    let index = names.get_index_of(name)?;
    Some(&modules[index])
}

// The top module, if there is one.
fn find_top<'a>(
    alloc: Global,
    modules: &'a [Module],
    names: &IndexSet<Name>,
    asked: Option<&Name>,
) -> Result<Option<&'a Module>, OutOfMemory>
    requires { names.now.keys ≡ names_of modules.now }
    ensures { IfOk result (λ found.
        plain found ≡ top_module (map module_tree modules.now) (asked_name asked.entry)) }
{
    match asked {
        Some(name) => Ok(module_named(modules, names, name)),
        None => {
            let masters = all_masters(alloc, modules)?;
            Ok(only_other(modules, &masters))
        }
    }
}

/// The top module: the one that is asked for, or else the only one that no module has an instance
/// of. Rule 310 refuses a text that has none.
pub fn top_module<'a>(
    alloc: Global,
    modules: &'a [Module],
    names: &IndexSet<Name>,
    asked: Option<&Name>,
) -> Result<&'a Module, Fault>
    requires { names.now.keys ≡ names_of modules.now }
    ensures found { IfOk result (λ m.
        (found (top_module (map module_tree modules.now) (asked_name asked.entry)) no_top).end ≡
        Ok (module_tree m.now)) }
    ensures broken { IfErr result
        (IsBreach (found (top_module (map module_tree modules.now) (asked_name asked.entry))
        no_top).end) }
{
    match find_top(alloc, modules, names, asked)? {
        Some(module) => Ok(module),
        None => Err(Fault::broken(Rule::NoTop, Place { line: 1, column: 1 }, Vec::new(alloc))),
    }
}
