// Declared signals.
ghost use Rattle.std.specs.Prelude.{◌≡◌, ◌∷◌, [], ◌++◌, None, IfOk, IfErr, OnOk, IsTrue};
ghost use Rattle.std.specs.List.{join_with_byte};
ghost use Rattle.sv_ast.specs.Shape.{is_shaped_declaration};
ghost use Rattle.sv_ast.specs.Views.{declaration_tree, module_tree};
ghost use Rattle.sv_flat.specs.Views.{signal_form};
ghost use Rattle.sv_elab_rules.specs.Declarations.{kind_of, declared_signal, signal_ahead, signal_walk};
ghost use Rattle.sv_elab_rules.specs.Rules.{too_many};
ghost use Rattle.sv_width.specs.Answers.{step_of};
ghost use Rattle.sv_elab_decl.specs.Sites.{site_of, declared_of, IsSoFar, IsAhead};
ghost use Rattle.sv_elab_decl.specs.Steps.{Answers, Binds, BindsNone};

use crate::ranges::optional_width;
use crate::sites::{Declared, Site};
use std::alloc::Global;
use sv_ast::{Decl, DeclKind};
use sv_flat::{SigId, SigKind, Signal};
use sv_lattice::{Label, Point};
use sv_num::{Fault, Name, OutOfMemory, Place, Refusal, Rule};

// The most signals that a design has.
const MOST_SIGNALS: usize = 4096;

// The names of the instances and that of the signal, joined by `.`.
fn full_name(alloc: Global, path: &[Name], name: &Name) -> Result<Name, OutOfMemory>
    ensures { IfOk result (λ full. full ≡ join_with_byte 46 (path.now ++ name.now ∷ [])) }
{
    let mut bytes = Vec::new(alloc);
    for outer in path {
        bytes.extend_from_slice(outer.bytes())?;
        bytes.push(b'.')?;
    }
    bytes.extend_from_slice(name.bytes())?;
    Name::new(alloc, bytes.as_slice())
}

// What a declaration makes of a signal, in the top module or below it.
fn kind_of(is_top: bool, kind: DeclKind) -> SigKind
    ensures { result ≡ kind_of is_top kind }
{
    match kind {
        DeclKind::Input if is_top => SigKind::TopInput,
        DeclKind::Input => SigKind::Input,
        DeclKind::OutputWire => SigKind::Output,
        DeclKind::OutputReg => SigKind::OutputReg,
        DeclKind::Wire => SigKind::Net,
        DeclKind::Reg => SigKind::Reg,
    }
}

// The signal of a declaration, with a point as its label.
fn new_signal(
    alloc: Global,
    site: &Site,
    decl: &Decl,
    width: u8,
    point: Point,
) -> Result<Signal, OutOfMemory>
    ensures { IfOk result (λ s. signal_form s
        ≡ declared_signal (site_of site.now) width point.0 (declaration_tree decl.now)) }
{
    Ok(Signal {
        name: full_name(alloc, site.path, &decl.name)?,
        width,
        signed: decl.signed,
        kind: kind_of(site.path.is_empty(), decl.kind),
        label: Label::Point(point),
        place: decl.place,
    })
}

// The refusal of the signal at a place by the limit of signals.
fn too_many(alloc: Global, place: Place) -> Refusal
    ensures { step_of result ≡ too_many place }
{
    Refusal {
        number: Rule::TooMany.number(),
        place,
        names: Vec::new(alloc),
    }
}

/// Declares a signal, with the least point as its label. Its range is asked, and then rule 312;
/// where one of them is broken, nothing is declared. Above the limit of signals the name alone is
/// declared, with a number that no signal has, and the answer is the refusal by rule 315.
pub fn declare_signal(
    alloc: Global,
    least: Point,
    site: &Site,
    decl: &Decl,
    declared: &mut Declared,
) -> Result<Option<Refusal>, Fault>
    requires shaped { IsTrue (is_shaped_declaration (declaration_tree decl.now)) }
    requires ahead { IsAhead site.now.base (module_tree site.now.master.now) declared.old }
    ensures found { IfOk result (Answers (signal_walk site.now.base least.0 (site_of site.now)
        (declared_of declared.old) (declaration_tree decl.now)).end declared.new) }
    ensures so_far { IfOk result (λ over. over ≡ None
        → IsSoFar site.now.base (module_tree site.now.master.now) declared.old
        → IsSoFar site.now.base (module_tree site.now.master.now) declared.new) }
    ensures names { OnOk result (Binds (λ so_far. (signal_ahead site.now.base least.0
        (site_of site.now) so_far (declaration_tree decl.now)).end)
        declared.old.scope declared.new.scope) }
    ensures ahead { OnOk result
        (IsAhead site.now.base (module_tree site.now.master.now) declared.new) }
    ensures stopped { IfErr result (BindsNone (λ so_far. (signal_ahead site.now.base least.0
        (site_of site.now) so_far (declaration_tree decl.now)).end)
        declared.old.scope declared.new.scope) }
{
    let width = optional_width(alloc, &decl.span, &declared.scope)?.unwrap_or(1);
    let number = site.base + declared.signals.len();
    let signal = SigId(number as u32);
    let name = decl.name.copy(alloc)?;
    declared
        .scope
        .add_signal(name, decl.place, signal, width, decl.signed)?;
    if number >= MOST_SIGNALS {
        return Ok(Some(too_many(alloc, decl.place)));
    }
    declared
        .signals
        .push(new_signal(alloc, site, decl, width, least)?)?;
    Ok(None)
}
