// The links of an instance (IEEE 1364-2005, clause 12.3).
ghost use Rattle.std.specs.Prelude.{◌≡◌, ℕ, ◌+◌, false, [], ◌∷◌, ◌++◌, List, Ok, Some, None, true};
ghost use Rattle.std.specs.Prelude.{map, option_map, if◌then◌else◌, OnOk, IfOk, IfErr, IsTrue};
ghost use Rattle.std.specs.List.{list_any, list_all};
ghost use Rattle.std.specs.Option.{option_map_or};
ghost use Rattle.std.specs.Str.{bytes_eq};
ghost use Rattle.sv_ast.specs.Instances.{entry};
ghost use Rattle.sv_ast.specs.Shape.{is_shaped_expression, is_shaped_link, are_shaped_links};
ghost use Rattle.sv_ast.specs.Views.{expression_tree, declaration_tree, module_tree, named_link};
ghost use Rattle.sv_ast.specs.Views.{link_trees};
ghost use Rattle.sv_flat.specs.Views.{typed_tree, process_form};
ghost use Rattle.sv_elab_rules.specs.Links.{port_number, port_width, port_value, input_link, output_link};
ghost use Rattle.sv_elab_rules.specs.Links.{link_walk, optional_link, named_links_walk};
ghost use Rattle.sv_elab_rules.specs.Links.{ordered_links_walk, links_walk};
ghost use Rattle.sv_width.specs.Answers.{IsBreach};
ghost use Rattle.sv_width.specs.Scopes.{bindings_of, names_of};
ghost use Rattle.sv_elab.specs.Instances.{ports_form, ports_with, first_of, place_from, HavePlaces};
ghost use Rattle.sv_elab.specs.Instances.{port_walk, IsLinked};

use crate::lookups::{whole_signal, width_of};
use crate::processes::whole_assignment;
use crate::wrong_names::add_name;
use indexmap::{IndexMap, IndexSet};
use std::alloc::{AllocError, Global};
use sv_ast::{Decl, DeclKind, Expr, Links, Module};
use sv_flat::{FExpr, FNode, ProcKind, Process, SigId};
use sv_num::{Fault, Name, OutOfMemory, Place, Rule};
use sv_width::{Scope, refusal_naming, typed};

/// The ports of an instance: how many signals stand before them, their module, the place of the
/// first port of each name, and what the header's declarations say of the names.
#[derive(Drop)]
pub struct Ports<'a> {
    base: usize,
    master: &'a Module,
    places: IndexMap<Name, usize>,
    scope: &'a Scope,
}

// Notes the place of a port, if it is the first of its name.
fn note_place(
    alloc: Global,
    places: &mut IndexMap<Name, usize>,
    name: &Name,
    place: usize,
) -> Result<(), OutOfMemory>
    ensures { OnOk result ((n : List ℕ) → entry places.new.entries n
        ≡ first_of (entry places.old.entries n) (if bytes_eq n name.now then Some place
        else None)) }
{
    if !places.contains_key(name) {
        places.insert(name.copy(alloc)?, place)?;
    }
    Ok(())
}

// The place of the first port of each name.
fn first_places(alloc: Global, ports: &[Decl]) -> Result<IndexMap<Name, usize>, OutOfMemory>
    ensures { IfOk result (λ places. (n : List ℕ) → entry places.entries n
        ≡ place_from 0 ports.now n) }
{
    let mut places = IndexMap::new(alloc);
    for (place, port) in ports.iter().enumerate() {
        note_place(alloc, &mut places, &port.name, place)?;
    }
    Ok(places)
}

// The signal that stands so many places behind the base. It fails where no number is left.
fn signal_at(base: usize, place: usize) -> Result<SigId, OutOfMemory>
    ensures { IfOk result (λ id. id.0 ≡ base + place) }
{
    match base.checked_add(place) {
        Some(number) if number <= u32::MAX as usize => Ok(SigId(number as u32)),
        _ => Err(AllocError),
    }
}

impl<'a> Ports<'a> {
    /// The ports of an instance of the module, whose signals stand behind so many others. The scope
    /// is that of the declarations in its header, as far as they break no rule.
    pub fn of(
        alloc: Global,
        base: usize,
        master: &'a Module,
        scope: &'a Scope,
    ) -> Result<Ports<'a>, OutOfMemory>
        ensures places { IfOk result (λ ports. HavePlaces ports) }
        ensures form { IfOk result (λ ports.
            ports_form ports ≡ ports_with base (module_tree master.now) scope.now) }
    {
        let places = first_places(alloc, &master.ports)?;
        Ok(Ports {
            base,
            master,
            places,
            scope,
        })
    }

    // The signal of a port.
    fn signal(&self, name: &Name) -> Result<SigId, OutOfMemory>
        requires { HavePlaces self.now }
        ensures { IfOk result (λ id. id.0 ≡ port_number (ports_form self.now) name.now) }
    {
        signal_at(self.base, self.places.get(name).copied().unwrap_or(0))
    }

    // The value of a port, for a signal of so many bits.
    fn value(&self, port: &Decl, width: u8, place: Place) -> Result<FExpr, OutOfMemory>
        requires { HavePlaces self.now }
        ensures { IfOk result (λ f. typed_tree f
            ≡ port_value (ports_form self.now) (declaration_tree port.now) width place) }
    {
        let signal = self.signal(&port.name)?;
        Ok(FExpr {
            width: width_of(self.scope, &port.name).max(width),
            signed: port.signed,
            node: FNode::Signal(signal, place),
        })
    }
}

// The link of an input port: its value is that of the expression.
fn link_in(
    alloc: Global,
    outer: &Scope,
    ports: &Ports,
    port: &Decl,
    expr: &Expr,
) -> Result<Process, Fault>
    requires places { HavePlaces ports.now }
    requires shaped { IsTrue (is_shaped_expression (expression_tree expr.now)) }
    ensures found { IfOk result (λ p. (input_link (names_of outer.now) (ports_form ports.now)
        (declaration_tree port.now) (expression_tree expr.now)).end ≡ Ok (process_form p)) }
    ensures broken { IfErr result (IsBreach (input_link (names_of outer.now) (ports_form ports.now)
        (declaration_tree port.now) (expression_tree expr.now)).end) }
{
    let width = width_of(ports.scope, &port.name);
    let value = typed(alloc, expr, outer, width)?;
    let signal = ports.signal(&port.name)?;
    let place = expr.place();
    Ok(whole_assignment(alloc, place, ProcKind::PortIn, signal, width, value)?)
}

// The link of an output port: the signal that the expression names gets its value. Rule 313 refuses
// another expression.
fn link_out(
    alloc: Global,
    outer: &Scope,
    ports: &Ports,
    port: &Decl,
    expr: &Expr,
) -> Result<Process, Fault>
    requires places { HavePlaces ports.now }
    ensures found { IfOk result (λ p. (output_link (names_of outer.now) (ports_form ports.now)
        (declaration_tree port.now) (expression_tree expr.now)).end ≡ Ok (process_form p)) }
    ensures broken { IfErr result (IsBreach (output_link (names_of outer.now) (ports_form ports.now)
        (declaration_tree port.now) (expression_tree expr.now)).end) }
{
    let place = expr.place();
    let known = match whole_signal(outer, expr) {
        Some(known) => known,
        None => return Err(refusal_naming(alloc, Rule::Port, place, &port.name)),
    };
    let value = ports.value(port, known.width, place)?;
    Ok(whole_assignment(
        alloc,
        place,
        ProcKind::PortOut,
        known.signal,
        known.width,
        value,
    )?)
}

// The link of a port with an expression.
fn link(
    alloc: Global,
    outer: &Scope,
    ports: &Ports,
    port: &Decl,
    expr: &Expr,
) -> Result<Process, Fault>
    requires places { HavePlaces ports.now }
    requires shaped { IsTrue (is_shaped_expression (expression_tree expr.now)) }
    ensures found { IfOk result (λ p. (link_walk (names_of outer.now) (ports_form ports.now)
        (declaration_tree port.now) (expression_tree expr.now)).end ≡ Ok (process_form p)) }
    ensures broken { IfErr result (IsBreach (link_walk (names_of outer.now) (ports_form ports.now)
        (declaration_tree port.now) (expression_tree expr.now)).end) }
{
    match port.kind {
        DeclKind::Input => link_in(alloc, outer, ports, port, expr),
        _ => link_out(alloc, outer, ports, port, expr),
    }
}

// The port of a name that is linked for the first time, with the name noted. Rule 313 refuses
// another name.
fn new_port<'a>(
    alloc: Global,
    ports: &Ports<'a>,
    linked: &mut IndexSet<Name>,
    name: &Name,
    place: Place,
) -> Result<&'a Decl, Fault>
    requires { HavePlaces ports.now }
    ensures found { IfOk result (λ d.
        (port_walk (ports_form ports.now) linked.old.keys place name.now).end
        ≡ Ok (declaration_tree d.now)) }
    ensures linked { OnOk result (linked.new.keys ≡ linked.old.keys ++ name.now ∷ []) }
    ensures broken { IfErr result
        (IsBreach (port_walk (ports_form ports.now) linked.old.keys place name.now).end) }
{
    let index = match ports.places.get(name) {
        Some(index) => *index,
        None => return Err(refusal_naming(alloc, Rule::Port, place, name)),
    };
    if !add_name(alloc, linked, name)? {
        return Err(refusal_naming(alloc, Rule::Port, place, name));
    }
    Ok(&ports.master.ports[index])
}

// Adds the process of a link; an empty one is none.
fn add_link(
    alloc: Global,
    outer: &Scope,
    ports: &Ports,
    port: &Decl,
    expr: &Option<Expr>,
    processes: &mut Vec<Process>,
) -> Result<(), Fault>
    requires places { HavePlaces ports.now }
    requires shaped { IsTrue (option_map_or is_shaped_expression
        (option_map expression_tree expr.now) true) }
    ensures found { OnOk result (IsLinked (optional_link (names_of outer.now) (ports_form ports.now)
        (declaration_tree port.now) (option_map expression_tree expr.now)).end
        (map process_form processes.old.items) (map process_form processes.new.items)) }
    ensures broken { IfErr result (IsBreach (optional_link (names_of outer.now)
        (ports_form ports.now) (declaration_tree port.now)
        (option_map expression_tree expr.now)).end) }
{
    match expr {
        None => Ok(()),
        Some(expr) => {
            processes.push(link(alloc, outer, ports, port, expr)?)?;
            Ok(())
        }
    }
}

// Adds the processes of links by name.
fn add_named(
    alloc: Global,
    outer: &Scope,
    ports: &Ports,
    links: &[(Name, Place, Option<Expr>)],
    processes: &mut Vec<Process>,
) -> Result<(), Fault>
    requires places { HavePlaces ports.now }
    requires shaped { IsTrue (list_all is_shaped_link (map named_link links.now)) }
    ensures found { OnOk result ((named_links_walk (names_of outer.now) (ports_form ports.now) []
        (map process_form processes.old.items) (map named_link links.now)).end
        ≡ Ok (map process_form processes.new.items)) }
    ensures broken { IfErr result (IsBreach (named_links_walk (names_of outer.now)
        (ports_form ports.now) [] (map process_form processes.old.items)
        (map named_link links.now)).end) }
{
    let mut linked = IndexSet::new(alloc);
    for (name, place, expr) in links {
        let port = new_port(alloc, ports, &mut linked, name, *place)?;
        add_link(alloc, outer, ports, port, expr, processes)?;
    }
    Ok(())
}

// Adds the processes of links by order. Rule 313 refuses an expression for which there is no port.
fn add_ordered(
    alloc: Global,
    outer: &Scope,
    ports: &Ports,
    exprs: &[Expr],
    processes: &mut Vec<Process>,
) -> Result<(), Fault>
    requires places { HavePlaces ports.now }
    requires shaped { IsTrue (list_all is_shaped_expression (map expression_tree exprs.now)) }
    ensures found { OnOk result ((ordered_links_walk (names_of outer.now) (ports_form ports.now)
        (module_tree ports.now.master.now).ports (map process_form processes.old.items)
        (map expression_tree exprs.now)).end ≡ Ok (map process_form processes.new.items)) }
    ensures broken { IfErr result
        (IsBreach (ordered_links_walk (names_of outer.now) (ports_form ports.now)
        (module_tree ports.now.master.now).ports (map process_form processes.old.items)
        (map expression_tree exprs.now)).end) }
{
    for (index, expr) in exprs.iter().enumerate() {
        let port = match ports.master.ports.get(index) {
            Some(port) => port,
            None => return Err(Fault::broken(Rule::Port, expr.place(), Vec::new(alloc))),
        };
        processes.push(link(alloc, outer, ports, port, expr)?)?;
    }
    Ok(())
}

/// Adds the processes of the links of an instance with these ports. The outer scope is that of the
/// module around it. Rule 313 refuses an unknown port, a port linked twice, more links than ports,
/// and an output linked to another expression than a signal's name.
pub fn add_links(
    alloc: Global,
    outer: &Scope,
    ports: Ports,
    links: &Links,
    processes: &mut Vec<Process>,
) -> Result<(), Fault>
    requires places { HavePlaces ports }
    requires shaped { IsTrue (are_shaped_links (link_trees links.now)) }
    ensures found { OnOk result ((links_walk (names_of outer.now) (ports_form ports.entry)
        (map process_form processes.old.items) (link_trees links.now)).end
        ≡ Ok (map process_form processes.new.items)) }
    ensures broken { IfErr result (IsBreach (links_walk (names_of outer.now) (ports_form ports.entry)
        (map process_form processes.old.items) (link_trees links.now)).end) }
{
    match links {
        Links::Named(links) => add_named(alloc, outer, &ports, links, processes),
        Links::Ordered(exprs) => add_ordered(alloc, outer, &ports, exprs, processes),
    }
}
