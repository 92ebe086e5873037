// What is written of a text for a stimulus, as contracts of functions that do nothing.
ghost use Rattle.std.specs.Prelude.{◌≡◌, ℕ, List, Option, Some};
ghost use Rattle.sv_ast.specs.GrammarMeaning.{Means};
ghost use Rattle.sv_ast.specs.Tree.{TextTree};
ghost use Rattle.sv_flat.specs.Admission.{IsAdmitted};
ghost use Rattle.sv_flat.specs.Design.{FlatDesign};
ghost use Rattle.sv_elab_laws.specs.FlattenedTexts.{CanBeFlattened, EachItem, ReleasesNothing};
ghost use Rattle.sv_elab_rules.specs.Texts.{flat_of};
ghost use Rattle.sv_run_laws.specs.SimulatedTexts.{IsWrittenAlike, HasOneWrittenText};

use sv_sim_run::each_stimulus_has_one_text;

/// What is written of an admitted flat design for a stimulus is what is written of the text that it
/// stands for, by the text's own cycle meaning, and the other way round: the whole of it, a front
/// of it, and the lines of the cycles so far. Of a text that has the shape that the grammar gives,
/// releases nothing, and writes numbers that have 1 to 64 bits and fit them; so of every text of
/// bytes that releases nothing.
pub fn designs_are_written_as_their_texts()
    ensures texts { (text : TextTree) (asked : Option (List ℕ)) (design : FlatDesign)
        → CanBeFlattened text → flat_of text asked ≡ Some design
        → IsAdmitted design → IsWrittenAlike text asked design }
    ensures bytes { (bytes : List ℕ) (text : TextTree) (asked : Option (List ℕ))
        (design : FlatDesign) → Means bytes text → EachItem ReleasesNothing text
        → flat_of text asked ≡ Some design → IsAdmitted design
        → IsWrittenAlike text asked design }
{}

/// Of such a text, each stimulus, with or without a level and an order, has one text that is
/// written, and one ending.
pub fn each_stimulus_of_a_text_has_one_text()
    ensures texts { (text : TextTree) (asked : Option (List ℕ)) (design : FlatDesign)
        → CanBeFlattened text → flat_of text asked ≡ Some design
        → IsAdmitted design → HasOneWrittenText text asked design }
    ensures bytes { (bytes : List ℕ) (text : TextTree) (asked : Option (List ℕ))
        (design : FlatDesign) → Means bytes text → EachItem ReleasesNothing text
        → flat_of text asked ≡ Some design → IsAdmitted design
        → HasOneWrittenText text asked design }
{
    each_stimulus_has_one_text();
}
