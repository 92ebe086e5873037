// The walk of the instances of a text (IEEE 1364-2005, clauses 12.1 to 12.3).
ghost use Rattle.std.specs.Prelude.{◌≡◌, ℕ, ◌+◌, ◌≤◌, ◌<◌, ◌^◌, false, [], ◌∷◌, ◌++◌, Ok, map};
ghost use Rattle.std.specs.Prelude.{length, OnOk, IfOk, IfErr, IsTrue};
ghost use Rattle.std.specs.List.{list_all, list_any};
ghost use Rattle.std.specs.Str.{bytes_eq};
ghost use Rattle.sv_ast.specs.Shape.{are_shaped_links, is_shaped_instance, is_shaped_item};
ghost use Rattle.sv_ast.specs.Shape.{is_shaped_module};
ghost use Rattle.sv_ast.specs.Views.{instance_tree, item_tree, link_trees, module_tree};
ghost use Rattle.sv_flat.specs.Views.{process_form};
ghost use Rattle.sv_elab_rules.specs.InstanceSteps.{ports_of, instance_names, items_from, site_walk};
ghost use Rattle.sv_elab_rules.specs.Links.{links_walk};
ghost use Rattle.sv_elab_rules.specs.Texts.{top_walk};
ghost use Rattle.sv_width.specs.Answers.{IsBreach};
ghost use Rattle.sv_width.specs.Scopes.{names_of};
ghost use Rattle.sv_elab_decl.specs.Sites.{tables_of, site_of, header_items};
ghost use Rattle.sv_elab_rules.specs.Declarations.{declarations_walk, nothing_declared};
ghost use Rattle.sv_elab_decl.specs.Steps.{AfterHeader};
ghost use Rattle.sv_elab.specs.Instances.{IsReady, built_form, declared_names, taken_in};
ghost use Rattle.sv_elab.specs.Instances.{master_walk, linked_walk, opened, opened_walk};
ghost use Rattle.sv_elab.specs.Instances.{set_up_walk, item_end, instance_end};
ghost use Rattle.sv_elab.specs.Instances.{nothing_built, top_site};
ghost use Rattle.sv_elab.specs.Nests.{site_at};

use crate::built::Built;
use crate::links::{Ports, add_links};
use crate::modules::module_named;
use crate::nests::InstanceNest;
use crate::processes::{add_always, add_assign, add_value};
use crate::shared::Shared;
use crate::wrong_names::add_name;
use indexmap::{IndexMap, IndexSet};
use std::alloc::Global;
use sv_ast::{Instance, Item, Links, Module};
use sv_elab_decl::{Declared, Header, Site, TextTables, body, header, labels, overrides};
use sv_flat::Process;
use sv_num::{Fault, Name, Rule};
use sv_width::{Scope, refusal_naming};

// The most instances that a text has, the top among them.
const MOST_INSTANCES: u32 = 1024;

/// An instance from inside: what its declarations stand for, and the names of the instances in it
/// so far.
#[derive(Drop)]
pub struct Interior<'a> {
    scope: &'a Scope,
    instances: IndexSet<Name>,
}

impl Interior<'_> {
    // Whether a name is taken.
    fn is_taken(&self, name: &Name) -> bool
        ensures { result ≡ list_any (bytes_eq name.now) (taken_in self.now) }
    {
        self.scope.find(name).is_some() || self.instances.contains(name)
    }
}

// The module of an instance. Rule 311 refuses an unknown one, 312 a name that is taken, 314 a
// module inside itself, and 315 the instance above the limit. What it needs stands in its own
// frame, since the walk calls itself for each instance in another.
#[inline(never)]
fn master_of<'a>(
    shared: &Shared<'a>,
    nest: &InstanceNest,
    inside: &Interior,
    built: &Built,
    instance: &Instance,
) -> Result<&'a Module, Fault>
    requires { IsReady shared.now }
    ensures found { IfOk result (λ m. (master_walk (tables_of shared.now.tables) nest.now.around
        (taken_in inside.now) built.now.instances (instance_tree instance.now)).end
        ≡ Ok (module_tree m.now)) }
    ensures shaped { IfOk result (λ m. IsTrue (is_shaped_module (module_tree m.now))) }
    ensures apart { OnOk result (list_any (bytes_eq instance.now.«module») nest.now.around ≡
        false) }
    ensures few { OnOk result (built.now.instances < 1024) }
    ensures broken { IfErr result
        (IsBreach (master_walk (tables_of shared.now.tables) nest.now.around
        (taken_in inside.now) built.now.instances (instance_tree instance.now)).end) }
{
    let alloc = shared.alloc;
    let Some(master) = module_named(shared.tables.modules, shared.names, &instance.module) else {
        return Err(refusal_naming(alloc, Rule::UnknownModule, instance.place, &instance.module));
    };
    if inside.is_taken(&instance.name) {
        return Err(refusal_naming(alloc, Rule::Twice, instance.name_place, &instance.name));
    }
    if nest.is_around(&instance.module) {
        return Err(refusal_naming(alloc, Rule::Recursive, instance.place, &instance.module));
    }
    if built.instances >= MOST_INSTANCES {
        return Err(Fault::broken(Rule::TooMany, instance.place, Vec::new(alloc)));
    }
    Ok(master)
}

// Adds the processes of an instance's links, and answers what its header declares. The links come
// first, and the header's own broken rule after them.
fn linked(
    alloc: Global,
    tables: &TextTables,
    site: &Site,
    outer: &Scope,
    links: &Links,
    processes: &mut Vec<Process>,
) -> Result<Declared, Fault>
    requires few { site.now.base ≤ 4096 }
    requires links { IsTrue (are_shaped_links (link_trees links.now)) }
    requires shaped { IsTrue (is_shaped_module (module_tree site.now.master.now)) }
    ensures found { OnOk result ((links_walk (names_of outer.now)
        (ports_of tables.now.least.0 (site_of site.now) site.now.base)
        (map process_form processes.old.items) (link_trees links.now)).end
        ≡ Ok (map process_form processes.new.items)) }
    ensures header { IfOk result (AfterHeader site.now.base tables.now.least.0 (site_of site.now)) }
    ensures broken { IfErr result (IsBreach (linked_walk (names_of outer.now) tables.now.least.0
        (site_of site.now) site.now.base (map process_form processes.old.items)
        (link_trees links.now)).end) }
{
    let Header { declared, broken } = header(alloc, tables, site)?;
    let ports = Ports::of(alloc, site.base, site.master, &declared.scope)?;
    add_links(alloc, outer, ports, links, processes)?;
    match broken {
        Some(refusal) => Err(Fault::Rule(refusal)),
        None => Ok(declared),
    }
}

// What the header of an instance declares, or the first rule that it breaks.
fn headed(alloc: Global, tables: &TextTables, site: &Site) -> Result<Declared, Fault>
    requires few { site.now.base ≤ 4096 }
    requires shaped { IsTrue (is_shaped_module (module_tree site.now.master.now)) }
    ensures header { IfOk result
        (AfterHeader site.now.base tables.now.least.0 (site_of site.now)) }
    ensures broken { IfErr result (IsBreach (declarations_walk site.now.base tables.now.least.0
        (site_of site.now) nothing_declared (header_items (module_tree site.now.master.now))).end) }
{
    let Header { declared, broken } = header(alloc, tables, site)?;
    match broken {
        Some(refusal) => Err(Fault::Rule(refusal)),
        None => Ok(declared),
    }
}

// Adds the signals of an instance whose header is declared, with their labels, and answers what its
// names stand for.
fn opened(
    alloc: Global,
    tables: &TextTables,
    site: &Site,
    declared: Declared,
    built: &mut Built,
) -> Result<Scope, Fault>
    requires base { site.now.base ≡ length built.old.signals.items }
    requires points { length tables.now.points.now.keys ≤ 32 }
    requires maps { length tables.now.maps.now.entries < 2 ^ 32 }
    requires shaped { IsTrue (is_shaped_module (module_tree site.now.master.now)) }
    requires header { AfterHeader site.now.base tables.now.least.0 (site_of site.now) declared }
    ensures found { IfOk result (λ scope. (opened_walk (tables_of tables.now) (site_of site.now)
        (built_form built.old)).end ≡ Ok (opened scope (built_form built.new))) }
    ensures instances { OnOk result (built.new.instances ≡ built.old.instances) }
    ensures broken { IfErr result (IsBreach (opened_walk (tables_of tables.now) (site_of site.now)
        (built_form built.old)).end) }
{
    let Declared { scope, signals } = body(alloc, tables, site, declared)?;
    let mut signals = labels(alloc, tables, &scope, site.master, signals)?;
    built.signals.append(&mut signals)?;
    Ok(scope)
}

// An instance up to its items: adds the processes of its links and its signals with their labels,
// and answers what its names stand for. The nest is that inside it. What it needs stands in its own
// frame, as that of `master_of`.
#[inline(never)]
fn set_up(
    shared: &Shared,
    outer: &Scope,
    nest: &InstanceNest,
    master: &Module,
    instance: &Instance,
    built: &mut Built,
) -> Result<Scope, Fault>
    requires ready { IsReady shared.now }
    requires master { IsTrue (is_shaped_module (module_tree master.now)) }
    requires shaped { IsTrue (is_shaped_instance (instance_tree instance.now)) }
    requires few { built.old.instances < 1024 }
    ensures found { IfOk result (λ scope. (set_up_walk (tables_of shared.now.tables)
        (names_of outer.now) nest.now.path (module_tree master.now) (built_form built.old)
        (instance_tree instance.now)).end ≡ Ok (opened scope (built_form built.new))) }
    ensures instances { OnOk result (built.new.instances ≡ built.old.instances + 1) }
    ensures broken { IfErr result (IsBreach (set_up_walk (tables_of shared.now.tables)
        (names_of outer.now) nest.now.path (module_tree master.now) (built_form built.old)
        (instance_tree instance.now)).end) }
{
    let alloc = shared.alloc;
    let tables = &shared.tables;
    let set = overrides(alloc, outer, master, &instance.overrides)?;
    let site = Site {
        path: nest.path(),
        master,
        set: &set,
        base: built.signals.len(),
    };
    let links = &instance.links;
    let declared = linked(alloc, tables, &site, outer, links, &mut built.processes)?;
    built.instances += 1;
    opened(alloc, tables, &site, declared, built)
}

// The same in a box, so that the walk, which calls itself in this instance, holds little of it.
#[inline(never)]
fn set_up_in_box(
    shared: &Shared,
    outer: &Scope,
    nest: &InstanceNest,
    master: &Module,
    instance: &Instance,
    built: &mut Built,
) -> Result<Box<Scope>, Fault>
    requires ready { IsReady shared.now }
    requires master { IsTrue (is_shaped_module (module_tree master.now)) }
    requires shaped { IsTrue (is_shaped_instance (instance_tree instance.now)) }
    requires few { built.old.instances < 1024 }
    ensures found { IfOk result (λ scope. (set_up_walk (tables_of shared.now.tables)
        (names_of outer.now) nest.now.path (module_tree master.now) (built_form built.old)
        (instance_tree instance.now)).end ≡ Ok (opened scope.value (built_form built.new))) }
    ensures instances { OnOk result (built.new.instances ≡ built.old.instances + 1) }
    ensures broken { IfErr result (IsBreach (set_up_walk (tables_of shared.now.tables)
        (names_of outer.now) nest.now.path (module_tree master.now) (built_form built.old)
        (instance_tree instance.now)).end) }
{
    let scope = set_up(shared, outer, nest, master, instance, built)?;
    Ok(Box::new(shared.alloc, scope)?)
}

// Walks the items of an instance in textual order, with at most so many levels of instances in it.
#[cycle(instances)]
fn add_items(
    shared: &Shared,
    nest: &mut InstanceNest,
    scope: &Scope,
    items: &[Item],
    built: &mut Built,
    levels: u32,
) -> Result<(), Fault>
    requires ready { IsReady shared.now }
    requires shaped { IsTrue (list_all is_shaped_item (map item_tree items.now)) }
    requires room { 1024 ≤ levels + built.old.instances }
    ensures found { OnOk result ((items_from (site_walk levels (tables_of shared.now.tables))
        (tables_of shared.now.tables) (site_at nest.old) (names_of scope.now)
        (declared_names scope.now)
        (built_form built.old) (map item_tree items.now)).end ≡ Ok (built_form built.new)) }
    ensures nest { OnOk result (nest.new ≡ nest.old) }
    ensures more { OnOk result (built.old.instances ≤ built.new.instances) }
    ensures broken { IfErr result
        (IsBreach (items_from (site_walk levels (tables_of shared.now.tables))
        (tables_of shared.now.tables) (site_at nest.old) (names_of scope.now)
        (declared_names scope.now)
        (built_form built.old) (map item_tree items.now)).end) }
{
    let mut inside = Interior {
        scope,
        instances: IndexSet::new(shared.alloc),
    };
    for item in items {
        add_item(shared, nest, &mut inside, item, built, levels)?;
    }
    Ok(())
}

// One item. A parameter has no process; memories, releases and invariants are refused before the
// walk.
#[tactic(auto, unfolding(sv_elab_rules::specs::InstanceSteps::item_walk))]
#[cycle(instances)]
fn add_item(
    shared: &Shared,
    nest: &mut InstanceNest,
    inside: &mut Interior,
    item: &Item,
    built: &mut Built,
    levels: u32,
) -> Result<(), Fault>
    requires ready { IsReady shared.now }
    requires shaped { IsTrue (is_shaped_item (item_tree item.now)) }
    requires room { 1024 ≤ levels + built.old.instances }
    ensures found { OnOk result (item_end levels shared.now nest.old inside.old built.old
        (item_tree item.now) ≡ Ok (built_form built.new)) }
    ensures taken { OnOk result (taken_in inside.new
        ≡ taken_in inside.old ++ instance_names (item_tree item.now)) }
    ensures scope { OnOk result (inside.new.scope ≡ inside.old.scope) }
    ensures nest { OnOk result (nest.new ≡ nest.old) }
    ensures more { OnOk result (built.old.instances ≤ built.new.instances) }
    ensures broken { IfErr result (IsBreach (item_end levels shared.now nest.old inside.old
        built.old (item_tree item.now))) }
{
    let alloc = shared.alloc;
    match item {
        Item::Decl(decl) => add_value(alloc, decl, inside.scope, built),
        Item::Assign {
            targets,
            place,
            value,
        } => add_assign(alloc, targets, *place, value, inside.scope, built),
        Item::Always { place, clock, body } => {
            add_always(alloc, *place, clock.as_ref(), body, inside.scope, built)
        }
        Item::Instance(instance) => add_instance(shared, nest, inside, instance, built, levels),
        Item::Param(_) | Item::Memory(_) | Item::Release { .. } | Item::Invariant(..) => Ok(()),
    }
}

// One instance with all that it holds.
#[cycle(instances)]
fn add_instance(
    shared: &Shared,
    nest: &mut InstanceNest,
    inside: &mut Interior,
    instance: &Instance,
    built: &mut Built,
    levels: u32,
) -> Result<(), Fault>
    requires ready { IsReady shared.now }
    requires shaped { IsTrue (is_shaped_instance (instance_tree instance.now)) }
    requires room { 1024 ≤ levels + built.old.instances }
    ensures found { OnOk result (instance_end levels shared.now nest.old inside.old built.old
        (instance_tree instance.now) ≡ Ok (built_form built.new)) }
    ensures taken { OnOk result (taken_in inside.new
        ≡ taken_in inside.old ++ instance.now.name ∷ []) }
    ensures scope { OnOk result (inside.new.scope ≡ inside.old.scope) }
    ensures nest { OnOk result (nest.new ≡ nest.old) }
    ensures more { OnOk result (built.old.instances ≤ built.new.instances) }
    ensures broken { IfErr result (IsBreach (instance_end levels shared.now nest.old inside.old
        built.old (instance_tree instance.now))) }
{
    let master = master_of(shared, nest, inside, built, instance)?;
    add_name(shared.alloc, &mut inside.instances, &instance.name)?;
    nest.enter(shared.alloc, &instance.name, &instance.module)?;
    let scope = set_up_in_box(shared, inside.scope, nest, master, instance, built)?;
    add_items(shared, nest, &scope, &master.items, built, levels - 1)?;
    nest.leave();
    Ok(())
}

// The top up to its items: adds its signals with their labels, and answers what its names stand
// for.
fn set_up_top(
    shared: &Shared,
    nest: &InstanceNest,
    master: &Module,
    built: &mut Built,
) -> Result<Scope, Fault>
    requires ready { IsReady shared.now }
    requires shaped { IsTrue (is_shaped_module (module_tree master.now)) }
    requires top { nest.now.path ≡ [] }
    requires first { built_form built.old ≡ nothing_built }
    ensures found { IfOk result (λ scope. (opened_walk (tables_of shared.now.tables)
        (top_site (module_tree master.now)) nothing_built).end
        ≡ Ok (opened scope (built_form built.new))) }
    ensures broken { IfErr result (IsBreach (opened_walk (tables_of shared.now.tables)
        (top_site (module_tree master.now)) nothing_built).end) }
{
    let alloc = shared.alloc;
    let set = IndexMap::new(alloc);
    let site = Site {
        path: nest.path(),
        master,
        set: &set,
        base: 0,
    };
    let declared = headed(alloc, &shared.tables, &site)?;
    opened(alloc, &shared.tables, &site, declared, built)
}

// Adds the signals and processes of the top and of all instances in it.
fn add_top(shared: &Shared, master: &Module, built: &mut Built) -> Result<(), Fault>
    requires ready { IsReady shared.now }
    requires shaped { IsTrue (is_shaped_module (module_tree master.now)) }
    requires first { built_form built.old ≡ nothing_built }
    ensures found { OnOk result ((top_walk (tables_of shared.now.tables)
        (module_tree master.now)).end ≡ Ok (built_form built.new)) }
    ensures broken { IfErr result
        (IsBreach (top_walk (tables_of shared.now.tables) (module_tree master.now)).end) }
{
    let mut nest = InstanceNest::top(shared.alloc, &master.name)?;
    let scope = set_up_top(shared, &nest, master, built)?;
    let items = &master.items;
    add_items(shared, &mut nest, &scope, items, built, MOST_INSTANCES)?;
    Ok(())
}

/// The signals and processes of the top and of all instances in it, in the order of the walk.
pub fn top_instance(shared: &Shared, master: &Module) -> Result<Built, Fault>
    requires ready { IsReady shared.now }
    requires shaped { IsTrue (is_shaped_module (module_tree master.now)) }
    ensures found { IfOk result (λ built.
        (top_walk (tables_of shared.now.tables) (module_tree master.now)).end
        ≡ Ok (built_form built)) }
    ensures broken { IfErr result
        (IsBreach (top_walk (tables_of shared.now.tables) (module_tree master.now)).end) }
{
    let mut built = Built {
        signals: Vec::new(shared.alloc),
        processes: Vec::new(shared.alloc),
        instances: 1,
    };
    add_top(shared, master, &mut built)?;
    Ok(built)
}
