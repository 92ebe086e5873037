// The declarations of an instance, in textual order.
ghost use Rattle.std.specs.Prelude.{◌≡◌, ℕ, ◌+◌, ◌≤◌, ◌||◌, [], List, Ok, Err, IfOk, IfErr, OnOk};
ghost use Rattle.std.specs.Prelude.{IsOk, IsTrue, MatchOption, map, length};
ghost use Rattle.std.specs.List.{list_any, list_all};
ghost use Rattle.std.specs.Str.{bytes_eq};
ghost use Rattle.sv_ast.specs.Instances.{all_items};
ghost use Rattle.sv_ast.specs.Shape.{is_shaped_item, is_shaped_module};
ghost use Rattle.sv_ast.specs.Views.{item_tree, module_tree};
ghost use Rattle.sv_num.specs.declared.faults.Fault.TheVariants.{Rule};
ghost use Rattle.sv_elab_rules.specs.Declarations.{declaration_walk, declarations_walk};
ghost use Rattle.sv_elab_rules.specs.Declarations.{nothing_declared};
ghost use Rattle.sv_elab_rules.specs.Names.{item_declares, names_of};
ghost use Rattle.sv_width.specs.Answers.{IsBreach};
ghost use Rattle.sv_width.specs.Scopes as scopes;
ghost use Rattle.sv_elab_decl.specs.Sites.{site_of, declared_of, AreAnnounced, IsSoFar};
ghost use Rattle.sv_elab_decl.specs.Steps.{AfterHeader, IsHeaderEnd, HasHeader, StopsHeader};

use crate::parameters::declare_param;
use crate::signals::declare_signal;
use crate::sites::{Declared, Header, Site, TextTables};
use std::alloc::Global;
use sv_ast::{Item, Module};
use sv_lattice::Point;
use sv_num::{Fault, OutOfMemory, Refusal};
use sv_width::Scope;

// A scope in which the signals of a module are announced.
fn announced(alloc: Global, master: &Module) -> Result<Scope, OutOfMemory>
    ensures empty { IfOk result (λ scope. scope.meanings ≡ []) }
    ensures later { IfOk result (AreAnnounced (module_tree master.now)) }
{
    let mut scope = Scope::new(alloc);
    for port in &master.ports {
        scope.announce(port.name.copy(alloc)?)?;
    }
    for item in &master.items {
        announce_item(alloc, &mut scope, item)?;
    }
    Ok(scope)
}

// Announces the signal that an item declares.
fn announce_item(alloc: Global, scope: &mut Scope, item: &Item) -> Result<(), OutOfMemory>
    ensures meanings { scope.new.meanings ≡ scope.old.meanings }
    ensures later { OnOk result ((n : List ℕ) → list_any (bytes_eq n) scope.new.announced
        ≡ (list_any (bytes_eq n) scope.old.announced || item_declares n (item_tree item.now))) }
{
    match item {
        Item::Decl(decl) => scope.announce(decl.name.copy(alloc)?),
        _ => Ok(()),
    }
}

// Declares what items declare, up to the first that breaks a rule.
fn declare_items(
    alloc: Global,
    least: Point,
    site: &Site,
    items: &[Item],
    declared: &mut Declared,
) -> Result<(), Fault>
    requires shaped { IsTrue (list_all is_shaped_item (map item_tree items.now)) }
    requires so_far { IsSoFar site.now.base (module_tree site.now.master.now) declared.old }
    ensures found { OnOk result ((declarations_walk site.now.base least.0 (site_of site.now)
        (declared_of declared.old) (map item_tree items.now)).end ≡ Ok (declared_of declared.new)) }
    ensures so_far { OnOk result
        (IsSoFar site.now.base (module_tree site.now.master.now) declared.new) }
    ensures broken { IfErr result (IsBreach
        (declarations_walk site.now.base least.0 (site_of site.now)
        (declared_of declared.old) (map item_tree items.now)).end) }
{
    for item in items {
        declare_item(alloc, least, site, item, declared)?;
    }
    Ok(())
}

// Declares what an item declares.
fn declare_item(
    alloc: Global,
    least: Point,
    site: &Site,
    item: &Item,
    declared: &mut Declared,
) -> Result<(), Fault>
    requires shaped { IsTrue (is_shaped_item (item_tree item.now)) }
    requires so_far { IsSoFar site.now.base (module_tree site.now.master.now) declared.old }
    ensures found { OnOk result ((declaration_walk site.now.base least.0 (site_of site.now)
        (declared_of declared.old) (item_tree item.now)).end ≡ Ok (declared_of declared.new)) }
    ensures so_far { OnOk result
        (IsSoFar site.now.base (module_tree site.now.master.now) declared.new) }
    ensures broken { IfErr result (IsBreach
        (declaration_walk site.now.base least.0 (site_of site.now)
        (declared_of declared.old) (item_tree item.now)).end) }
{
    match item {
        Item::Param(param) => declare_param(alloc, site, param, declared),
        Item::Decl(decl) => match declare_signal(alloc, least, site, decl, declared)? {
            Some(refusal) => Err(Fault::Rule(refusal)),
            None => Ok(()),
        },
        _ => Ok(()),
    }
}

// Declares what a header declares, up to the first that breaks another rule than 315, and keeps the
// first refusal by that rule.
fn declare_header(
    alloc: Global,
    least: Point,
    site: &Site,
    header: &mut Header,
) -> Result<(), Fault>
    requires shaped { IsTrue (is_shaped_module (module_tree site.now.master.now)) }
    requires so_far { IsSoFar site.now.base (module_tree site.now.master.now)
        header.old.declared }
    requires first { declared_of header.old.declared ≡ nothing_declared }
    requires passed { header.old.broken ≡ None }
    ensures names { OnOk result (HasHeader site.now.base least.0 (site_of site.now)
        header.new.declared.scope) }
    ensures ends { OnOk result (IsHeaderEnd site.now.base least.0 (site_of site.now)
        header.new.declared header.new.broken) }
    ensures stopped { IfErr result (StopsHeader site.now.base least.0 (site_of site.now)
        header.new) }
{
    for param in &site.master.params {
        declare_param(alloc, site, param, &mut header.declared)?;
    }
    for port in &site.master.ports {
        let over = declare_signal(alloc, least, site, port, &mut header.declared)?;
        header.keep(over);
    }
    Ok(())
}

/// What the header of an instance's module declares, parameters and then ports (IEEE 1364-2005,
/// clauses 4.10 and 12.3), with the refusal of the first declaration that breaks a rule. Of each
/// declaration are asked its range, its value unless the instance sets it, rule 312 and, for a
/// signal, rule 315. The names go on behind one that breaks rule 315, and end at another rule.
pub fn header(alloc: Global, tables: &TextTables, site: &Site) -> Result<Header, OutOfMemory>
    requires few { site.now.base ≤ 4096 }
    requires shaped { IsTrue (is_shaped_module (module_tree site.now.master.now)) }
    ensures names { IfOk result (λ h. HasHeader site.now.base tables.now.least.0
        (site_of site.now) h.declared.scope) }
    ensures ends { IfOk result (λ h. IsHeaderEnd site.now.base tables.now.least.0
        (site_of site.now) h.declared h.broken) }
{
    let declared = Declared {
        scope: announced(alloc, site.master)?,
        signals: Vec::new(alloc),
    };
    let mut header = Header {
        declared,
        broken: None,
    };
    let stopped = refused(declare_header(alloc, tables.least, site, &mut header))?;
    header.keep(stopped);
    Ok(header)
}

// The refusal of a call that may be refused.
fn refused(answer: Result<(), Fault>) -> Result<Option<Refusal>, OutOfMemory>
    ensures { IfOk result (λ r.
        MatchOption r (IsOk answer) (λ refusal. answer ≡ Err (Rule refusal))) }
{
    match answer {
        Ok(()) => Ok(None),
        Err(Fault::Rule(refusal)) => Ok(Some(refusal)),
        Err(Fault::OutOfMemory) => Err(OutOfMemory),
    }
}

/// All that an instance declares, after what its header does. The first declaration that breaks a
/// rule is refused.
pub fn body(
    alloc: Global,
    tables: &TextTables,
    site: &Site,
    mut declared: Declared,
) -> Result<Declared, Fault>
    requires shaped { IsTrue (is_shaped_module (module_tree site.now.master.now)) }
    requires header { AfterHeader site.now.base tables.now.least.0 (site_of site.now) declared }
    ensures found { IfOk result (λ d. (declarations_walk site.now.base tables.now.least.0
        (site_of site.now) nothing_declared (all_items (module_tree site.now.master.now))).end
        ≡ Ok (declared_of d)) }
    ensures names { IfOk result (λ d. scopes.names_of d.scope
        ≡ names_of site.now.base (declared_of d).bindings) }
    ensures few { IfOk result (λ d. site.now.base + length d.signals.items ≤ 4096) }
    ensures broken { IfErr result (IsBreach (declarations_walk site.now.base tables.now.least.0
        (site_of site.now) nothing_declared (all_items (module_tree site.now.master.now))).end) }
{
    declare_items(alloc, tables.least, site, &site.master.items, &mut declared)?;
    Ok(declared)
}
