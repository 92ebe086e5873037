// The flat design of a text.
ghost use Rattle.std.specs.Prelude.{◌≡◌, ◌<◌, ◌^◌, List, Ok, map, length, IfSome, IfOk, IfErr};
ghost use Rattle.std.specs.Prelude.{IsTrue};
ghost use Rattle.sv_ast.specs.Shape.{is_shaped};
ghost use Rattle.sv_ast.specs.Tree.{ModuleTree};
ghost use Rattle.sv_ast.specs.Views.{text_tree};
ghost use Rattle.sv_ast.specs.declared.modules.LatticeText.{LatticeText};
ghost use Rattle.sv_flat.specs.Soundness.{sound};
ghost use Rattle.sv_flat.specs.Views.{design_of};
ghost use Rattle.sv_elab_rules.specs.Texts as texts;
ghost use Rattle.sv_elab_rules.specs.Texts.{walk_of};
ghost use Rattle.sv_width.specs.Answers.{IsBreach};
ghost use Rattle.sv_elab.specs.Instances.{built_form};
ghost use Rattle.sv_elab.specs.Modules.{asked_name};
ghost use Rattle.sv_elab.specs.Texts.{modules_walk};

use crate::built::Built;
use crate::instances::top_instance;
use crate::lattices::{Points, lattice};
use crate::maps::label_maps;
use crate::modules::{module_names, top_module};
use crate::shared::Shared;
use indexmap::IndexMap;
use std::alloc::Global;
use sv_ast::Text;
use sv_elab_decl::TextTables;
use sv_flat::Flat;
use sv_lattice::LabelMap;
use sv_num::{Fault, Name, OutOfMemory};

// The maps in their order.
fn listed(alloc: Global, maps: IndexMap<Name, LabelMap>) -> Result<Vec<LabelMap>, OutOfMemory>
    ensures { IfOk result (λ list. list.items ≡ map (λ e. e.1) maps.entries) }
{
    Ok(maps.into_values().collect(alloc)?)
}

// The module that is asked for, as a name.
fn name_asked_for(alloc: Global, top: Option<&str>) -> Result<Option<Name>, OutOfMemory>
    ensures { IfOk result (λ name. name ≡ asked_name top.entry) }
{
    match top {
        Some(word) => Ok(Some(Name::new(alloc, word.as_bytes())?)),
        None => Ok(None),
    }
}

// The design of these parts.
fn design(
    alloc: Global,
    points: Points,
    maps: IndexMap<Name, LabelMap>,
    built: Built,
) -> Result<Flat, OutOfMemory>
    ensures { IfOk result (λ f. (modules : List ModuleTree) → design_of f
        ≡ texts.design_of points (texts.tables_of modules points maps.entries)
        (built_form built)) }
{
    let (points, lattice) = points.into_parts(alloc)?;
    let maps = listed(alloc, maps)?;
    Ok(Flat {
        signals: built.signals,
        processes: built.processes,
        lattice,
        points,
        maps,
        invariants: Vec::new(alloc),
    })
}

// What is built of the top of a text with these points and maps.
fn built_under(
    alloc: Global,
    text: &Text,
    points: &Points,
    maps: &IndexMap<Name, LabelMap>,
    top: Option<&Name>,
) -> Result<Built, Fault>
    requires shaped { IsTrue (is_shaped (text_tree text.now)) }
    requires maps { length maps.now.entries < 2 ^ 32 }
    ensures found { IfOk result (λ built. (modules_walk (text_tree text.now)
        (asked_name top.entry) points.now maps.now.entries).end ≡ Ok (built_form built)) }
    ensures broken { IfErr result (IsBreach (modules_walk (text_tree text.now)
        (asked_name top.entry) points.now maps.now.entries).end) }
{
    let names = module_names(alloc, &text.modules)?;
    let master = top_module(alloc, &text.modules, &names, top)?;
    let shared = Shared {
        alloc,
        tables: TextTables {
            modules: &text.modules,
            points: points.names(),
            least: points.least(),
            maps,
        },
        names: &names,
    };
    top_instance(&shared, master)
}

/// Whether the text has fewer pairs of points and label maps than elaboration can count.
pub fn has_few(text: &Text) -> bool
    ensures pairs { IsTrue result → IfSome text.now.lattice (λ (l : LatticeText).
        length l.pairs.items < 2 ^ 32) }
    ensures maps { IsTrue result → length text.now.maps.items < 2 ^ 32 }
{
    let few_pairs = match &text.lattice {
        Some(lattice) => lattice.pairs.len() < 0x1_0000_0000,
        None => true,
    };
    few_pairs && text.maps.len() < 0x1_0000_0000
}

// As `elaborate`, with the name of the module that is asked for.
fn elaborate_under(alloc: Global, text: &Text, top: Option<&Name>) -> Result<Flat, Fault>
    requires shaped { IsTrue (is_shaped (text_tree text.now)) }
    requires pairs { IfSome text.now.lattice (λ l. length l.pairs.items < 2 ^ 32) }
    requires maps { length text.now.maps.items < 2 ^ 32 }
    ensures found { IfOk result
        (λ f. (walk_of (text_tree text.now) (asked_name top.entry)).end ≡ Ok (design_of f)) }
    ensures broken { IfErr result
        (IsBreach (walk_of (text_tree text.now) (asked_name top.entry)).end) }
{
    let points = lattice(alloc, text)?;
    let maps = label_maps(alloc, &points, &text.maps)?;
    let built = built_under(alloc, text, &points, &maps, top)?;
    Ok(design(alloc, points, maps, built)?)
}

/// The flat design that a text stands for, under the module that is asked for as its top or else
/// the only one that no module has an instance of; or the first rule that the walk of the text
/// breaks. The design is sound. Memories, invariants and released values are passed over: a text
/// with one is refused before.
pub fn elaborate(alloc: Global, text: &Text, top: Option<&str>) -> Result<Flat, Fault>
    requires shaped { IsTrue (is_shaped (text_tree text.now)) }
    requires pairs { IfSome text.now.lattice (λ l. length l.pairs.items < 2 ^ 32) }
    requires maps { length text.now.maps.items < 2 ^ 32 }
    ensures found { IfOk result
        (λ f. (walk_of (text_tree text.now) (asked_name top.entry)).end ≡ Ok (design_of f)) }
    ensures sound { IfOk result (λ f. IsTrue (sound (design_of f))) }
    ensures broken { IfErr result
        (IsBreach (walk_of (text_tree text.now) (asked_name top.entry)).end) }
{
    let name = name_asked_for(alloc, top)?;
    elaborate_under(alloc, text, name.as_ref())
}
