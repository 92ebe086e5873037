// Labels of signals.
ghost use Rattle.std.specs.Prelude.{◌≡◌, ◌≤◌, ◌<◌, ◌^◌, ◌==◌, ◌++◌, Ok, None, IfOk, IfErr, OnOk};
ghost use Rattle.std.specs.Prelude.{MatchOption, map, length, position, option_map, option_to_list};
ghost use Rattle.std.specs.Str.{bytes_eq};
ghost use Rattle.sv_ast.specs.Instances.{is_signal};
ghost use Rattle.sv_ast.specs.Parts.{declaration_of, declarations};
ghost use Rattle.sv_ast.specs.Tree.{point_label};
ghost use Rattle.sv_ast.specs.Views.{declaration_tree, item_tree, label_tree, module_tree};
ghost use Rattle.sv_flat.specs.Design.{SignalForm};
ghost use Rattle.sv_flat.specs.Views.{signal_form};
ghost use Rattle.sv_elab_rules.specs.Walks.{ask};
ghost use Rattle.sv_elab_rules.specs.Rules.{bad_label};
ghost use Rattle.sv_elab_rules.specs.Names.{Names};
ghost use Rattle.sv_elab_rules.specs.LabelSteps.{second_selector, same_number, second_fits, label_walk};
ghost use Rattle.sv_elab_rules.specs.LabelSteps.{given_label, labels_walk};
ghost use Rattle.sv_width.specs.Answers.{IsBreach};
ghost use Rattle.sv_width.specs.Scopes.{Known, bindings_of, names_of};
ghost use Rattle.sv_elab_decl.specs.Overridden.{declaration_trees};
ghost use Rattle.sv_elab_decl.specs.Selectors.{IsSelector, IsSecond, IsMapNamed, map_label};
ghost use Rattle.sv_elab_decl.specs.Sites.{tables_of};

use crate::sites::TextTables;
use std::alloc::Global;
use sv_ast::{Decl, Item, LabelText, Module};
use sv_flat::Signal;
use sv_lattice::{Label, Point};
use sv_num::{Fault, Name, OutOfMemory, Place, Rule};
use sv_width::{KnownSignal, Meaning, Scope, refusal_naming};

// A label map: its number, and the widths of its ranges.
#[derive(Clone, Copy)]
struct FoundMap {
    number: u32,
    first: u8,
    second: Option<u8>,
}

// The label map of a name.
fn find_map(tables: &TextTables, name: &Name) -> Option<FoundMap>
    requires { length tables.now.maps.now.entries < 2 ^ 32 }
    ensures { MatchOption result
        (position (bytes_eq name.now) (tables_of tables.now).map_names ≡ None)
        (IsMapNamed (tables_of tables.now) name.now) }
{
    match tables.maps.get_full(name) {
        Some((index, _, map)) => {
            let (first, second) = map.widths();
            Some(FoundMap {
                number: index as u32,
                first,
                second,
            })
        }
        None => None,
    }
}

// A signal that selects a row. Rule 410 refuses other names.
fn selector(alloc: Global, scope: &Scope, place: Place, name: &Name) -> Result<KnownSignal, Fault>
    ensures found { IfOk result (IsSelector scope.now name.now) }
    ensures broken { IfErr result
        (IsBreach (ask (is_signal (bindings_of scope.now name.now))
        (bad_label place name.now)).end) }
{
    match scope.find(name) {
        Some(Meaning::Signal(signal)) => Ok(signal),
        _ => Err(refusal_naming(alloc, Rule::Label, place, name)),
    }
}

// Likewise a second one, where there is one.
fn optional_selector(
    alloc: Global,
    scope: &Scope,
    place: Place,
    name: &Option<Name>,
) -> Result<Option<KnownSignal>, Fault>
    ensures found { IfOk result (IsSecond scope.now name.now) }
    ensures broken { IfErr result
        (IsBreach (second_selector (names_of scope.now) place name.now).end) }
{
    match name {
        Some(name) => Ok(Some(selector(alloc, scope, place, name)?)),
        None => Ok(None),
    }
}

// A selector has the width of its range.
fn fits(
    alloc: Global,
    place: Place,
    name: &Name,
    signal: KnownSignal,
    width: u8,
) -> Result<(), Fault>
    ensures asked { OnOk result (signal.width ≡ width) }
    ensures broken { IfErr result
        (IsBreach (ask (signal.width == width) (bad_label place name.now)).end) }
{
    if signal.width == width {
        Ok(())
    } else {
        Err(refusal_naming(alloc, Rule::Label, place, name))
    }
}

// Likewise a second one.
fn second_fits(
    alloc: Global,
    place: Place,
    name: &Option<Name>,
    signal: Option<KnownSignal>,
    width: Option<u8>,
) -> Result<(), Fault>
    ensures asked { OnOk result ((known : Known) → IsSecond known name.now signal
        → (second_fits (names_of known) place name.now width).end ≡ Ok tt) }
    ensures broken { IfErr result (λ f. (known : Known) → IsSecond known name.now signal
        → IsBreach (second_fits (names_of known) place name.now width).end f) }
{
    let Some(name) = name else {
        return Ok(());
    };
    let Some(signal) = signal else {
        return Ok(());
    };
    let Some(width) = width else {
        return Ok(());
    };
    fits(alloc, place, name, signal, width)
}

// There is a second selector just where there is a second range.
fn same_number(width: Option<u8>, signal: Option<KnownSignal>) -> bool
    ensures { result ≡ same_number width signal }
{
    match (width, signal) {
        (None, None) => true,
        (None, Some(_)) => false,
        (Some(_), None) => false,
        (Some(_), Some(_)) => true,
    }
}

// The label by a point.
fn point_label(
    alloc: Global,
    tables: &TextTables,
    name: &Name,
    place: Place,
) -> Result<Label, Fault>
    requires { length tables.now.points.now.keys ≤ 32 }
    ensures found { IfOk result (λ label. (names : Names)
        → (label_walk (tables_of tables.now) names (point_label name.now place)).end ≡ Ok label) }
    ensures broken { IfErr result (λ f. (names : Names)
        → IsBreach (label_walk (tables_of tables.now) names (point_label name.now place)).end f) }
{
    match tables.points.get_index_of(name) {
        Some(index) => Ok(Label::Point(Point(index as u8))),
        None => Err(refusal_naming(alloc, Rule::Label, place, name)),
    }
}

// A label by a map, as it is written: the names of the map and of its selectors, and the place.
#[derive(Clone, Copy)]
struct MapLabel<'a> {
    name: &'a Name,
    first: &'a Name,
    second: &'a Option<Name>,
    place: Place,
}

// The label by a map.
fn table_label(
    alloc: Global,
    tables: &TextTables,
    scope: &Scope,
    text: &MapLabel,
) -> Result<Label, Fault>
    requires { length tables.now.maps.now.entries < 2 ^ 32 }
    ensures found { IfOk result (λ label. (label_walk (tables_of tables.now) (names_of scope.now)
        (map_label text.now)).end ≡ Ok label) }
    ensures broken { IfErr result (IsBreach (label_walk (tables_of tables.now) (names_of scope.now)
        (map_label text.now)).end) }
{
    let Some(found) = find_map(tables, text.name) else {
        return Err(refusal_naming(alloc, Rule::Label, text.place, text.name));
    };
    let first_signal = selector(alloc, scope, text.place, text.first)?;
    let second_signal = optional_selector(alloc, scope, text.place, text.second)?;
    if !same_number(found.second, second_signal) {
        return Err(refusal_naming(alloc, Rule::Label, text.place, text.name));
    }
    fits(alloc, text.place, text.first, first_signal, found.first)?;
    second_fits(alloc, text.place, text.second, second_signal, found.second)?;
    Ok(Label::Table {
        map: found.number,
        first: first_signal.signal.0,
        second: second_number(second_signal),
    })
}

// The number of a second selector, where there is one.
fn second_number(signal: Option<KnownSignal>) -> Option<u32>
    ensures { result ≡ option_map (λ s. s.signal.0) signal }
{
    match signal {
        Some(known) => Some(known.signal.0),
        None => None,
    }
}

// A label. Rule 410 refuses unknown names, and selectors whose number or widths are not the map's.
fn label(
    alloc: Global,
    tables: &TextTables,
    scope: &Scope,
    text: &LabelText,
) -> Result<Label, Fault>
    requires points { length tables.now.points.now.keys ≤ 32 }
    requires maps { length tables.now.maps.now.entries < 2 ^ 32 }
    ensures found { IfOk result (λ label. (label_walk (tables_of tables.now) (names_of scope.now)
        (label_tree text.now)).end ≡ Ok label) }
    ensures broken { IfErr result (IsBreach (label_walk (tables_of tables.now) (names_of scope.now)
        (label_tree text.now)).end) }
{
    match text {
        LabelText::Point(name, place) => point_label(alloc, tables, name, *place),
        LabelText::Table(name, first, second, place) => {
            let text = MapLabel {
                name,
                first,
                second,
                place: *place,
            };
            table_label(alloc, tables, scope, &text)
        }
    }
}

// The label that a declaration gives, or else the one that there is.
fn given_label(
    alloc: Global,
    tables: &TextTables,
    scope: &Scope,
    decl: &Decl,
    label_so_far: Label,
) -> Result<Label, Fault>
    requires points { length tables.now.points.now.keys ≤ 32 }
    requires maps { length tables.now.maps.now.entries < 2 ^ 32 }
    ensures found { IfOk result (λ label. (s : SignalForm) → s.label ≡ label_so_far
        → (given_label (tables_of tables.now) (names_of scope.now)
        (declaration_tree decl.now).label s).end
        ≡ Ok (record s { label = label })) }
    ensures broken { IfErr result (λ f. (s : SignalForm)
        → IsBreach (given_label (tables_of tables.now) (names_of scope.now)
        (declaration_tree decl.now).label s).end f) }
{
    match &decl.label {
        Some(text) => label(alloc, tables, scope, text),
        None => Ok(label_so_far),
    }
}

// The declarations of a module, ports first.
fn declarations<'a>(alloc: Global, master: &'a Module) -> Result<Vec<&'a Decl>, OutOfMemory>
    ensures { IfOk result (λ decls.
        declaration_trees decls.items ≡ declarations (module_tree master.now)) }
{
    let mut decls = Vec::new(alloc);
    for port in &master.ports {
        decls.push(port)?;
    }
    for item in &master.items {
        push_declared(&mut decls, item)?;
    }
    Ok(decls)
}

// Puts the declaration that an item is last.
fn push_declared<'a>(decls: &mut Vec<&'a Decl>, item: &'a Item) -> Result<(), OutOfMemory>
    ensures { OnOk result (declaration_trees decls.new.items
        ≡ declaration_trees decls.old.items ++ option_to_list
        (declaration_of (item_tree item.now))) }
{
    if let Item::Decl(decl) = item {
        decls.push(decl)?;
    }
    Ok(())
}

/// The signals of an instance with their labels (SecVerilog, ASPLOS 2015), where all declarations
/// are made. A signal without a label keeps the one that it has. Rule 410 refuses the first label,
/// in textual order, with an unknown name, or with selectors whose number or widths are not the
/// map's.
pub fn labels(
    alloc: Global,
    tables: &TextTables,
    scope: &Scope,
    master: &Module,
    mut signals: Vec<Signal>,
) -> Result<Vec<Signal>, Fault>
    requires points { length tables.now.points.now.keys ≤ 32 }
    requires maps { length tables.now.maps.now.entries < 2 ^ 32 }
    requires signals { length signals.items ≡ length (declarations (module_tree master.now)) }
    ensures found { IfOk result (λ after. (labels_walk (tables_of tables.now) (names_of scope.now)
        (declarations (module_tree master.now)) (map signal_form signals.items)).end
        ≡ Ok (map signal_form after.items)) }
    ensures broken { IfErr result (IsBreach (labels_walk (tables_of tables.now) (names_of scope.now)
        (declarations (module_tree master.now)) (map signal_form signals.items)).end) }
{
    let decls = declarations(alloc, master)?;
    for (index, decl) in decls.iter().enumerate() {
        let signal = &mut signals[index];
        signal.label = given_label(alloc, tables, scope, decl, signal.label)?;
    }
    Ok(signals)
}
