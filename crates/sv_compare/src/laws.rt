// What is found of a text, as contracts of functions that do nothing.
ghost use Rattle.std.specs.Prelude.{◌≡◌, ℕ, List, Option, Some, position, IsTrue};
ghost use Rattle.std.specs.Str.{bytes_eq};
ghost use Rattle.sv_system.specs.System.{Noninterferent};
ghost use Rattle.sv_lattice.specs.declared.points.Point.{Point};
ghost use Rattle.sv_ast.specs.GrammarMeaning.{Means};
ghost use Rattle.sv_ast.specs.Parts.{Path};
ghost use Rattle.sv_ast.specs.Reach.{holds};
ghost use Rattle.sv_ast.specs.SourceLabels.{points};
ghost use Rattle.sv_ast.specs.TextSystem.{text_system};
ghost use Rattle.sv_ast.specs.Tree.{TextTree};
ghost use Rattle.sv_flat.specs.Admission.{IsAdmitted};
ghost use Rattle.sv_flat.specs.Design.{FlatDesign};
ghost use Rattle.sv_elab_laws.specs.FlattenedTexts.{CanBeFlattened, EachItem, ReleasesNothing};
ghost use Rattle.sv_elab_rules.specs.Texts.{flat_of};
ghost use Rattle.sv_trace.specs.Forms.{form_of};
ghost use Rattle.sv_run_laws.specs.SimulatedTexts.{text_form};
ghost use Rattle.sv_tworun.specs.Comparisons.{FindsNoLeak};
ghost use Rattle.sv_tworun.specs.Forms.{Finding};
ghost use Rattle.sv_compare.specs.ComparedTexts.{IsTextCompared, AreComparedAlike, HasOneFinding};

/// What the comparison of two stimuli finds of an admitted flat design at a point is what it finds
/// of the text that the design stands for at the name of this point, by the text's own cycle
/// meaning, and the other way round: the same cycles, and the signal of the same name. Of a text
/// that has the shape that the grammar gives, releases nothing, and writes numbers that have 1 to
/// 64 bits and fit them; so of every text of bytes that releases nothing.
pub fn designs_are_compared_as_their_texts()
    ensures texts { (text : TextTree) (asked : Option (List ℕ)) (design : FlatDesign)
        → CanBeFlattened text → flat_of text asked ≡ Some design → IsAdmitted design
        → (point : Point) (level first second : List ℕ)
        → position (λ name. bytes_eq name level) design.points ≡ Some point.0
        → AreComparedAlike text asked design point level first second }
    ensures bytes { (bytes : List ℕ) (text : TextTree) (asked : Option (List ℕ))
        (design : FlatDesign) → Means bytes text → EachItem ReleasesNothing text
        → flat_of text asked ≡ Some design → IsAdmitted design
        → (point : Point) (level first second : List ℕ)
        → position (λ name. bytes_eq name level) design.points ≡ Some point.0
        → AreComparedAlike text asked design point level first second }
{}

/// What a stimulus has to know of such a text is what it has to know of the flat design. So the
/// first wrong line of a stimulus is the same for both.
pub fn stimuli_of_designs_are_those_of_texts()
    ensures texts { (text : TextTree) (asked : Option (List ℕ)) (design : FlatDesign)
        → CanBeFlattened text → flat_of text asked ≡ Some design → IsAdmitted design
        → text_form text asked ≡ form_of design }
    ensures bytes { (bytes : List ℕ) (text : TextTree) (asked : Option (List ℕ))
        (design : FlatDesign) → Means bytes text → EachItem ReleasesNothing text
        → flat_of text asked ≡ Some design → IsAdmitted design
        → text_form text asked ≡ form_of design }
{}

/// Of such a text, at the name of a point, the comparison of two stimuli finds exactly one thing:
/// of stimuli with a wrong line it is told by their lines before that one.
pub fn each_pair_of_stimuli_has_one_finding()
    ensures texts { (text : TextTree) (asked : Option (List ℕ)) (design : FlatDesign)
        → CanBeFlattened text → flat_of text asked ≡ Some design → IsAdmitted design
        → (level first second : List ℕ) → IsTrue (holds bytes_eq (points text) level)
        → HasOneFinding text asked level first second }
    ensures bytes { (bytes : List ℕ) (text : TextTree) (asked : Option (List ℕ))
        (design : FlatDesign) → Means bytes text → EachItem ReleasesNothing text
        → flat_of text asked ≡ Some design → IsAdmitted design
        → (level first second : List ℕ) → IsTrue (holds bytes_eq (points text) level)
        → HasOneFinding text asked level first second }
{}

/// Of a text whose own system is noninterferent, whatever made it so, no comparison of two stimuli
/// finds that what is given looks alike and the views do not.
pub fn secret_keeping_texts_show_no_leak()
    ensures { (text : TextTree) (asked : Option (List ℕ))
        → Noninterferent (text_system text asked)
        → (level first second : List ℕ) (found : Finding Path)
        → IsTextCompared text asked level first second found → FindsNoLeak found }
{}
