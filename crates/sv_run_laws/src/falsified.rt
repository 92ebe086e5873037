// What a valuation that falsifies an obligation means for the source text, as the contracts of
// functions that do nothing.
ghost use Rattle.std.specs.Prelude.{◌≡◌, ◌↔◌, ℕ, List, Option, Some, Contains};
ghost use Rattle.sv_ast.specs.Tree.{TextTree};
ghost use Rattle.sv_flat.specs.Admission.{IsAdmitted};
ghost use Rattle.sv_flat.specs.Design.{TypedTree, FlatDesign};
ghost use Rattle.sv_elab_rules.specs.Texts.{flat_of};
ghost use Rattle.sv_elab_laws.specs.FlattenedTexts.{CanBeFlattened};
ghost use Rattle.sv_obl.specs.declared.valuations.Valuation.{Valuation as Listed};
ghost use Rattle.sv_obl.specs.Obligations.{Obligation, obligations};
ghost use Rattle.sv_obl.specs.Validity.{Valuation, Falsifies};
ghost use Rattle.sv_obl.specs.Valuations.{FitsDesign, valuation_of};
ghost use Rattle.sv_run_laws.specs.FalsifiedTexts.{FalsifiesText, ListsFalsifyText};

/// A valuation falsifies an obligation of an admitted flat design exactly where it does for the
/// text that the design stands for: in environments of the text's own system that are settled for
/// it, and by labels in the source's own words (SecVerilog, ASPLOS 2015). The text has the shape
/// that the grammar gives, releases nothing, and writes numbers that have 1 to 64 bits and fit
/// them.
pub fn valuations_falsify_texts_as_their_designs()
    ensures { (text : TextTree) (asked : Option (List ℕ)) (design : FlatDesign)
        → CanBeFlattened text → flat_of text asked ≡ Some design → IsAdmitted design
        → (facts : List TypedTree) (v : Valuation) (o : Obligation)
        → Contains (obligations facts design) o
        → Falsifies design v o ↔ FalsifiesText text asked design v o }
{}

/// Values in lists, as they are found and printed, falsify an obligation of an admitted flat design
/// exactly where they do for the text that the design stands for, read in the order in which the
/// text itself has its registers and inputs. There is one fitting value for each register and each
/// input of the design; the text is as above.
pub fn listed_values_falsify_texts_as_their_designs()
    ensures { (text : TextTree) (asked : Option (List ℕ)) (design : FlatDesign)
        → CanBeFlattened text → flat_of text asked ≡ Some design → IsAdmitted design
        → (facts : List TypedTree) (listed : Listed) (o : Obligation)
        → FitsDesign design listed → Contains (obligations facts design) o
        → Falsifies design (valuation_of design listed) o
        ↔ ListsFalsifyText text asked design listed o }
{}
