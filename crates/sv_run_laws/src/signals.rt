// What the signals of a text's flat design are, as the contract of a function that does nothing.
ghost use Rattle.std.specs.Prelude.{◌≡◌, ℕ, IsTrue, List, Option, Some};
ghost use Rattle.std.specs.List.{AllZip};
ghost use Rattle.sv_ast.specs.Shape.{is_shaped};
ghost use Rattle.sv_ast.specs.Tree.{TextTree};
ghost use Rattle.sv_ast.specs.SourceLabels.{points};
ghost use Rattle.sv_flat.specs.Design.{FlatDesign};
ghost use Rattle.sv_elab_rules.specs.Texts.{flat_of};
ghost use Rattle.sv_elab_laws.specs.FlattenedTexts.{ItemNumbersFit, EachItem};
ghost use Rattle.sv_run_laws.specs.LabelRows.{IsTableOf};
ghost use Rattle.sv_run_laws.specs.Signals.{text_signals, IsDeclared};

/// The signals of the flat design that a text stands for are those of the text's instances, in
/// order, each with the name from the top module on, the length, signedness, kind, label and place
/// of its declaration (IEEE 1364-2005, clauses 4.2, 4.3, 12.3 and 12.5; labels after SecVerilog,
/// ASPLOS 2015). Its points and the tables of its label maps are those of the text, in order. The
/// text has the shape that the grammar gives, and the selectors of its cases write numbers that fit
/// their lengths; it may release values.
pub fn flat_signals_are_those_declared()
    ensures signals { (text : TextTree) (asked : Option (List ℕ)) (design : FlatDesign)
        → IsTrue (is_shaped text) → EachItem ItemNumbersFit text
        → flat_of text asked ≡ Some design
        → AllZip (IsDeclared text (text_signals text asked)) (text_signals text asked)
        design.signals }
    ensures points { (text : TextTree) (asked : Option (List ℕ)) (design : FlatDesign)
        → IsTrue (is_shaped text) → EachItem ItemNumbersFit text
        → flat_of text asked ≡ Some design
        → design.points ≡ points text }
    ensures maps { (text : TextTree) (asked : Option (List ℕ)) (design : FlatDesign)
        → IsTrue (is_shaped text) → EachItem ItemNumbersFit text
        → flat_of text asked ≡ Some design
        → AllZip (IsTableOf text) text.maps design.maps }
{}
