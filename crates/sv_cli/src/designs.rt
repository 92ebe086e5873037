// From a text to the flat design that it stands for, or to the first rule that it breaks.
ghost use Rattle.std.specs.Prelude.{◌≡◌, ◌≤◌, ◌<◌, ◌^◌, [], IfOk, IfErr, IfSome, IsTrue, length};
ghost use Rattle.std.specs.List.{list_any};
ghost use Rattle.sv_ast.specs.Shape.{is_shaped};
ghost use Rattle.sv_ast.specs.Views.{item_tree, text_tree};
ghost use Rattle.sv_flat.specs.Admission.{IsAdmitted, IsRefused};
ghost use Rattle.sv_flat.specs.Soundness.{sound};
ghost use Rattle.sv_flat.specs.Views.{design_of};
ghost use Rattle.sv_cli.specs.Report.{IsFaultBy, BreaksAsTree, IsFlatOf};
ghost use Rattle.sv_cli.specs.Texts.{largest_file, is_unbuilt_item, has_unbuilt_item};
ghost use Rattle.sv_cli.specs.Texts.{BreaksFirst, StandsFor};
ghost use Rattle.std.specs.Option.{option_copied};

use std::alloc::Global;
use sv_ast::{Item, Module, Text};
use sv_design::Design;
use sv_elab::elaborate;
use sv_flat::Flat;
use sv_num::{Fault, Place, Refusal, Rule};
use sv_parse::read_text;

// Whether a memory, an invariant or a released value stands in the text.
#[tactic(auto, using(crate::proofs::TreeAnswers::unbuilt_is))]
fn has_unbuilt_item(text: &Text) -> bool
    ensures { result ≡ has_unbuilt_item (text_tree text.now) }
{
    have_unbuilt_item(&text.modules)
}

fn have_unbuilt_item(modules: &[Module]) -> bool
    ensures { result ≡
        list_any (λ m. list_any (λ i. is_unbuilt_item (item_tree i)) m.items.items) modules.now }
{
    modules.iter().any(holds_unbuilt_item)
}

fn holds_unbuilt_item(master: &Module) -> bool
    ensures { result ≡ list_any (λ i. is_unbuilt_item (item_tree i)) master.now.items.items }
{
    master.items.iter().any(is_unbuilt_item)
}

fn is_unbuilt_item(item: &Item) -> bool
    ensures { result ≡ is_unbuilt_item (item_tree item.now) }
{
    matches!(
        item,
        Item::Memory(_) | Item::Release { .. } | Item::Invariant(_, _)
    )
}

// What is told of a text with an item that is not built.
fn unbuilt_item(alloc: Global) -> Refusal
    ensures number { result.number ≡ 199 }
    ensures place { result.place ≡ record { line = 1; column = 1 } }
    ensures names { result.names.items ≡ [] }
{
    Refusal {
        number: Rule::NotBuilt.number(),
        place: Place { line: 1, column: 1 },
        names: Vec::new(alloc),
    }
}

// The flat design of a text's tree, or the first rule that it breaks: one of elaboration, or 199
// for an item that is not built.
fn flat_of_tree(alloc: Global, text: &Text, top: Option<&str>) -> Result<Flat, Fault>
    requires shaped { IsTrue (is_shaped (text_tree text.now)) }
    requires pairs { IfSome text.now.lattice (λ l. length l.pairs.items < 2 ^ 32) }
    requires maps { length text.now.maps.items < 2 ^ 32 }
    ensures found { IfOk result
        (λ flat. IsFlatOf (option_copied top.entry) (text_tree text.now) (design_of flat)) }
    ensures broken { IfErr result
        (IsFaultBy (BreaksAsTree (option_copied top.entry) (text_tree text.now))) }
    ensures sound { IfOk result (λ flat. IsTrue (sound (design_of flat))) }
{
    if has_unbuilt_item(text) {
        return Err(Fault::Rule(unbuilt_item(alloc)));
    }
    elaborate(alloc, text, top)
}

// The flat design that a text within the limit stands for, or the first rule up to elaboration that
// it breaks.
fn flat_of_text(alloc: Global, bytes: &[u8], top: Option<&str>) -> Result<Flat, Fault>
    requires { length bytes.now ≤ largest_file }
    ensures found { IfOk result
        (λ flat. StandsFor (option_copied top.entry) bytes.now (design_of flat)) }
    ensures broken { IfErr result (IsFaultBy (BreaksFirst (option_copied top.entry) bytes.now)) }
    ensures sound { IfOk result (λ flat. IsTrue (sound (design_of flat))) }
{
    match read_text(alloc, bytes) {
        Ok(text) => flat_of_tree(alloc, &text, top),
        Err(fault) => Err(fault),
    }
}

// The flat design of a text as an admitted one, or the first rule of admission that it breaks.
fn admitted(alloc: Global, flat: Flat) -> Result<Design, Fault>
    requires { IsTrue (sound (design_of flat)) }
    ensures admitted { IfOk result
        (λ design. (design ≡ flat) × IsAdmitted (design_of flat)) }
    ensures refused { IfErr result (IsFaultBy (IsRefused (design_of flat))) }
{
    match Design::admit(alloc, flat) {
        Ok(design) => Ok(design),
        Err((_, fault)) => Err(fault),
    }
}

/// The admitted design that a text within the limit stands for, or the first rule that it breaks.
pub fn design_of_text(alloc: Global, bytes: &[u8], top: Option<&str>) -> Result<Design, Fault>
    requires { length bytes.now ≤ largest_file }
    ensures stands { IfOk result
        (λ design. StandsFor (option_copied top.entry) bytes.now (design_of design)) }
    ensures admitted { IfOk result (λ design. IsAdmitted (design_of design)) }
    ensures broken { IfErr result (IsFaultBy (BreaksFirst (option_copied top.entry) bytes.now)) }
{
    let flat = flat_of_text(alloc, bytes, top)?;
    admitted(alloc, flat)
}
