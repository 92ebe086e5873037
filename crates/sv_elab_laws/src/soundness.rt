// That texts stand for sound designs, as contracts of functions that do nothing.
ghost use Rattle.std.specs.Prelude.{◌≡◌, ℕ, IsTrue, List, Option, Some};
ghost use Rattle.sv_ast.specs.Shape.{is_shaped};
ghost use Rattle.sv_ast.specs.Tree.{TextTree};
ghost use Rattle.sv_ast.specs.Views.{text_tree};
ghost use Rattle.sv_ast.specs.declared.modules.Text.{Text};
ghost use Rattle.sv_flat.specs.Design.{FlatDesign};
ghost use Rattle.sv_flat.specs.Soundness.{sound};
ghost use Rattle.sv_elab_rules.specs.Texts.{flat_of};
ghost use Rattle.sv_elab_laws.specs.FlattenedTexts.{ItemNumbersFit, EachItem};
ghost use Rattle.sv_width.specs.WrittenLengths.{TextHasLengths};

/// The numbers that are written in a text have 1 to 64 bits and, where they select a case, fit them
/// (IEEE 1364-2005, clause 3.5.1).
pub fn written_numbers_have_lengths()
    ensures lengths { (text : Text) → TextHasLengths (text_tree text) }
    ensures fits { (text : Text) → EachItem ItemNumbersFit (text_tree text) }
{}

/// The flat design that a text stands for is sound: each point has a name, each signal 1 to 64 bits
/// and a label that is there, each expression the lengths and signedness of IEEE 1364-2005, clauses
/// 5.4 and 5.5, and each assignment bits inside its signals. The text has the shape that the
/// grammar gives, and its written numbers have 1 to 64 bits and fit them. A value that it releases
/// has no process in the design.
pub fn texts_stand_for_sound_designs()
    ensures { (text : TextTree) (top : Option (List ℕ)) (design : FlatDesign)
        → IsTrue (is_shaped text) → EachItem ItemNumbersFit text → TextHasLengths text
        → flat_of text top ≡ Some design → IsTrue (sound design) }
{}
