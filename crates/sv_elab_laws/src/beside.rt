// What stands side by side in a text and its flat design, as contracts of functions that do
// nothing.
ghost use Rattle.std.specs.Prelude.{◌≡◌, ℕ, IsTrue, List, Option, Some};
ghost use Rattle.sv_system.specs.Joining.{Joined};
ghost use Rattle.sv_ast.specs.Processes.{processes};
ghost use Rattle.sv_ast.specs.Shape.{is_shaped};
ghost use Rattle.sv_ast.specs.TextSystem.{text_system};
ghost use Rattle.sv_ast.specs.Tree.{TextTree};
ghost use Rattle.sv_flat.specs.Admission.{IsAdmitted};
ghost use Rattle.sv_flat.specs.Design.{FlatDesign};
ghost use Rattle.sv_flat.specs.FlatSystem.{flat_system};
ghost use Rattle.sv_elab_rules.specs.Texts.{flat_of};
ghost use Rattle.sv_elab_laws.specs.Children.{HasEachChild};
ghost use Rattle.sv_elab_laws.specs.FlattenedTexts.{CanBeFlattened, ItemNumbersFit, EachItem};
ghost use Rattle.sv_elab_laws.specs.FlattenedTexts.{ReleasesNothing};
ghost use Rattle.sv_elab_laws.specs.InOrder.{SchedulesAgree, SettledAlike};
ghost use Rattle.sv_elab_laws.specs.Rounds.{RoundsAreOfText};
ghost use Rattle.sv_elab_laws.specs.SideBySide.{ProcessesBeside, ClocksBeside, made_of};
ghost use Rattle.sv_elab_laws.specs.SideBySide.{text_signals, path_at};

/// The processes of a text, but for those of values that it releases, and the processes of the flat
/// design that it stands for stand side by side, in order: each is clocked where the other is, and
/// does the same to every environment (IEEE 1364-2005, clauses 6.1, 9.2, 9.7, 9.9.2 and 12.3); the
/// clock of each is the number of the signal after its `posedge`. The text has the shape that the
/// grammar gives, and the selectors of its cases write numbers that fit their lengths. Where it
/// releases nothing, these are all its processes.
pub fn processes_stand_beside_their_sources()
    ensures beside { (text : TextTree) (asked : Option (List ℕ)) (design : FlatDesign)
        → IsTrue (is_shaped text) → EachItem ItemNumbersFit text
        → flat_of text asked ≡ Some design → ProcessesBeside text asked design }
    ensures clocks { (text : TextTree) (asked : Option (List ℕ)) (design : FlatDesign)
        → IsTrue (is_shaped text) → EachItem ItemNumbersFit text
        → flat_of text asked ≡ Some design → ClocksBeside text asked design }
    ensures all { (text : TextTree) (asked : Option (List ℕ)) → EachItem ReleasesNothing text
        → made_of text asked ≡ processes text asked }
{}

/// Each instance in an instance of a text that stands for a flat design is one of the text's: the
/// bound on levels drops none (IEEE 1364-2005, clause 12.1). The text is as above.
pub fn instances_of_texts_are_whole()
    ensures { (text : TextTree) (asked : Option (List ℕ)) (design : FlatDesign)
        → IsTrue (is_shaped text) → EachItem ItemNumbersFit text
        → flat_of text asked ≡ Some design → HasEachChild text asked }
{}

/// The cycle systems of a text and of its admitted flat design do the same process by process, with
/// the path of each signal for its number. So runs of the processes at some places, whatever their
/// order and number, lead from environments that agree to such: the rounds of a schedule are those
/// of the text's own processes. An environment by numbers is settled for its registers and inputs
/// exactly where that by paths is. The text has the shape that the grammar gives, releases nothing,
/// and writes numbers that have 1 to 64 bits and fit them.
pub fn flat_processes_run_in_order_of_their_sources()
    ensures joined { (text : TextTree) (asked : Option (List ℕ)) (design : FlatDesign)
        → CanBeFlattened text → flat_of text asked ≡ Some design → IsAdmitted design
        → (joined : Joined (flat_system design) (text_system text asked))
        × (joined.to ≡ path_at (text_signals text asked)) }
    ensures schedules { (text : TextTree) (asked : Option (List ℕ)) (design : FlatDesign)
        → CanBeFlattened text → flat_of text asked ≡ Some design → IsAdmitted design
        → SchedulesAgree (flat_system design) (text_system text asked)
        (path_at (text_signals text asked)) }
    ensures settled { (text : TextTree) (asked : Option (List ℕ)) (design : FlatDesign)
        → CanBeFlattened text → flat_of text asked ≡ Some design → IsAdmitted design
        → SettledAlike (flat_system design) (text_system text asked)
        (path_at (text_signals text asked)) }
{}

/// The ordered runs of an admitted flat design take the rounds that those of its text's own
/// processes take, under the same order number, where registers and inputs have the same values
/// under both names, and fit: `sim --order` counts the rounds of the text. The text is as above.
pub fn ordered_runs_are_those_of_texts()
    ensures { (text : TextTree) (asked : Option (List ℕ)) (design : FlatDesign)
        → CanBeFlattened text → flat_of text asked ≡ Some design → IsAdmitted design
        → RoundsAreOfText text asked design }
{}
