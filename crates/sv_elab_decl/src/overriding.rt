// What an instance sets parameters to.
ghost use Rattle.std.specs.Prelude.{◌≡◌, ℕ, ◌∷◌, [], ◌++◌, List, not, ◌&&◌, Ok, IfOk, IfErr, OnOk};
ghost use Rattle.std.specs.Prelude.{IsTrue, map, filter, is_some, option_to_list};
ghost use Rattle.std.specs.List.{list_any, list_all, filter_map};
ghost use Rattle.std.specs.Str.{bytes_eq};
ghost use Rattle.sv_ast.specs.Instances.{entry, parameter_of, open_parameters};
ghost use Rattle.sv_ast.specs.Shape.{is_shaped_expression, is_shaped_override};
ghost use Rattle.sv_ast.specs.Shape.{are_shaped_overrides};
ghost use Rattle.sv_ast.specs.Views.{expression_trees, parameter_tree, item_tree, named_override};
ghost use Rattle.sv_ast.specs.Views.{override_trees, module_tree};
ghost use Rattle.sv_elab_rules.specs.Overrides.{is_open, named_walk, ordered_walk, overrides_walk};
ghost use Rattle.sv_width.specs.Answers.{IsBreach};
ghost use Rattle.sv_width.specs.Scopes.{names_of};
ghost use Rattle.sv_elab_decl.specs.Overridden.{IsOverridden, is_free, parameter_trees};
ghost use Rattle.sv_elab_decl.specs.Sites.{settings_of};

use indexmap::{IndexMap, IndexSet};
use std::alloc::Global;
use sv_ast::{Expr, Item, Module, Overrides, Param};
use sv_num::{Bits, Fault, Name, OutOfMemory, Place, Rule};
use sv_width::{Scope, constant_in_reach, refusal, refusal_naming};

// The parameters of a header.
fn header_params<'a>(alloc: Global, params: &'a [Param]) -> Result<Vec<&'a Param>, OutOfMemory>
    ensures { IfOk result (λ free. parameter_trees free.items ≡ map parameter_tree params.now) }
{
    let mut free = Vec::new(alloc);
    for param in params {
        free.push(param)?;
    }
    Ok(free)
}

// The parameters among some items, without the local ones.
fn body_params<'a>(alloc: Global, items: &'a [Item]) -> Result<Vec<&'a Param>, OutOfMemory>
    ensures { IfOk result (λ free. parameter_trees free.items
        ≡ filter is_free (filter_map parameter_of (map item_tree items.now))) }
{
    let mut free = Vec::new(alloc);
    for item in items {
        push_open(&mut free, item)?;
    }
    Ok(free)
}

// Puts the parameter that an item is last, unless it is local.
fn push_open<'a>(free: &mut Vec<&'a Param>, item: &'a Item) -> Result<(), OutOfMemory>
    ensures { OnOk result (parameter_trees free.new.items ≡ parameter_trees free.old.items
        ++ filter is_free (option_to_list (parameter_of (item_tree item.now)))) }
{
    if let Item::Param(param) = item {
        if !param.local {
            free.push(param)?;
        }
    }
    Ok(())
}

// The parameters that an instance may set, in textual order.
fn open_params<'a>(alloc: Global, master: &'a Module) -> Result<Vec<&'a Param>, OutOfMemory>
    ensures { IfOk result (λ free.
        parameter_trees free.items ≡ open_parameters (module_tree master.now)) }
{
    if master.params.is_empty() {
        body_params(alloc, &master.items)
    } else {
        header_params(alloc, &master.params)
    }
}

// Their names.
fn open_names(alloc: Global, master: &Module) -> Result<IndexSet<Name>, OutOfMemory>
    ensures { IfOk result (λ names. (n : List ℕ) → list_any (bytes_eq n) names.keys
        ≡ is_open (module_tree master.now) n) }
{
    let mut names = IndexSet::new(alloc);
    let free = open_params(alloc, master)?;
    for param in &free {
        names.insert(param.name.copy(alloc)?)?;
    }
    Ok(names)
}

// Whether a name may be set that was not set before.
fn is_free_name(free: &IndexSet<Name>, set: &IndexMap<Name, Bits>, name: &Name) -> bool
    ensures { result ≡ (list_any (bytes_eq name.now) free.now.keys
        && not (is_some (entry (settings_of set.now.entries) name.now))) }
{
    free.contains(name) && !set.contains_key(name)
}

// The values that are set by name.
fn named(
    alloc: Global,
    outer: &Scope,
    master: &Module,
    values: &[(Name, Place, Expr)],
) -> Result<IndexMap<Name, Bits>, Fault>
    requires { IsTrue (list_all is_shaped_override (map named_override values.now)) }
    ensures found { IfOk result (λ set. (named_walk (names_of outer.now) (module_tree master.now) []
        (map named_override values.now)).end ≡ Ok (settings_of set.entries)) }
    ensures broken { IfErr result
        (IsBreach (named_walk (names_of outer.now) (module_tree master.now) []
        (map named_override values.now)).end) }
{
    let free = open_names(alloc, master)?;
    let mut set = IndexMap::new(alloc);
    for (name, place, value) in values {
        if !is_free_name(&free, &set, name) {
            return Err(refusal_naming(alloc, Rule::Parameter, *place, name));
        }
        let bits = constant_in_reach(alloc, value, outer)?;
        set.insert(name.copy(alloc)?, bits)?;
    }
    Ok(set)
}

// Sets a name, unless it was set before.
fn set_once(
    alloc: Global,
    set: &mut IndexMap<Name, Bits>,
    name: &Name,
    bits: Bits,
) -> Result<(), OutOfMemory>
    ensures { OnOk result ((n : List ℕ) → entry set.new.entries n
        ≡ entry (set.old.entries ++ (name.now, bits) ∷ []) n) }
{
    if set.contains_key(name) {
        return Ok(());
    }
    set.insert(name.copy(alloc)?, bits)?;
    Ok(())
}

// The values that are set by place.
fn ordered(
    alloc: Global,
    outer: &Scope,
    master: &Module,
    values: &[Expr],
) -> Result<IndexMap<Name, Bits>, Fault>
    requires { IsTrue (list_all is_shaped_expression (expression_trees values.now)) }
    ensures found { IfOk result (λ set. IsOverridden (ordered_walk (names_of outer.now)
        (open_parameters (module_tree master.now)) [] (expression_trees values.now)).end
        set.entries) }
    ensures broken { IfErr result (IsBreach (ordered_walk (names_of outer.now)
        (open_parameters (module_tree master.now)) [] (expression_trees values.now)).end) }
{
    let free = open_params(alloc, master)?;
    let mut set = IndexMap::new(alloc);
    for (index, value) in values.iter().enumerate() {
        if index >= free.len() {
            return Err(refusal(alloc, Rule::Parameter, value.place()));
        }
        let param = free[index];
        let bits = constant_in_reach(alloc, value, outer)?;
        set_once(alloc, &mut set, &param.name, bits)?;
    }
    Ok(set)
}

/// What an instance of a module sets parameters to (IEEE 1364-2005, clause 12.2): constants of the
/// module that it stands in, where all declarations are made. Rule 316 refuses a name that is no
/// parameter that may be set or was set before, and more values than there are such parameters;
/// then the value is asked.
pub fn overrides(
    alloc: Global,
    outer: &Scope,
    master: &Module,
    overrides: &Overrides,
) -> Result<IndexMap<Name, Bits>, Fault>
    requires { IsTrue (are_shaped_overrides (override_trees overrides.now)) }
    ensures found { IfOk result (λ set. IsOverridden (overrides_walk (names_of outer.now)
        (module_tree master.now) (override_trees overrides.now)).end set.entries) }
    ensures broken { IfErr result (IsBreach (overrides_walk (names_of outer.now)
        (module_tree master.now) (override_trees overrides.now)).end) }
{
    match overrides {
        Overrides::Named(values) => named(alloc, outer, master, values),
        Overrides::Ordered(values) => ordered(alloc, outer, master, values),
    }
}
