// What holds of a text where it holds of its flat design, as contracts of functions that do
// nothing.
ghost use Rattle.std.specs.Prelude.{◌≡◌, ℕ, List, Option, Some};
ghost use Rattle.sv_system.specs.System.{Noninterferent, HasOneTrace};
ghost use Rattle.sv_system.specs.Joining.{Joined};
ghost use Rattle.sv_ast.specs.Tree.{TextTree};
ghost use Rattle.sv_flat.specs.Admission.{IsAdmitted};
ghost use Rattle.sv_flat.specs.Design.{FlatDesign};
ghost use Rattle.sv_flat.specs.FlatSystem.{flat_system};
ghost use Rattle.sv_elab_rules.specs.Texts.{flat_of};
ghost use Rattle.sv_elab_laws.specs.FlattenedTexts.{CanBeFlattened};
ghost use Rattle.sv_ast.specs.TextSystem.{text_system};

/// The cycle system of a text and that of the flat design that it stands for are the same under
/// other names of signals: by paths in the one, by numbers in the other. The design is admitted;
/// the text has the shape that the grammar gives, releases nothing, and writes numbers that have 1
/// to 64 bits and fit them.
pub fn flat_designs_do_what_their_texts_mean()
    ensures { (text : TextTree) (asked : Option (List ℕ)) (design : FlatDesign)
        → CanBeFlattened text → flat_of text asked ≡ Some design → IsAdmitted design
        → Joined (flat_system design) (text_system text asked) }
{}

/// So no level learns more of the text than it may, where none does of the flat design.
pub fn noninterference_passes_to_texts()
    ensures { (text : TextTree) (asked : Option (List ℕ)) (design : FlatDesign)
        → CanBeFlattened text → flat_of text asked ≡ Some design → IsAdmitted design
        → Noninterferent (flat_system design) → Noninterferent (text_system text asked) }
{}

/// And the text has one trace for each start and each list of inputs, where the flat design has.
pub fn one_trace_passes_to_texts()
    ensures { (text : TextTree) (asked : Option (List ℕ)) (design : FlatDesign)
        → CanBeFlattened text → flat_of text asked ≡ Some design → IsAdmitted design
        → HasOneTrace (flat_system design) → HasOneTrace (text_system text asked) }
{}
