// Which rounds `sim --order` counts, as the contract of a function that does nothing.
ghost use Rattle.std.specs.Prelude.{◌≡◌, ◌↔◌, ℕ, List, Option, Some};
ghost use Rattle.sv_ast.specs.Tree.{TextTree};
ghost use Rattle.sv_flat.specs.Admission.{IsAdmitted};
ghost use Rattle.sv_flat.specs.Design.{FlatDesign};
ghost use Rattle.sv_elab_rules.specs.Texts.{flat_of};
ghost use Rattle.sv_elab_laws.specs.FlattenedTexts.{CanBeFlattened};
ghost use Rattle.sv_sim_run.specs.Simulated.{AreRounds, read_of};
ghost use Rattle.sv_run_laws.specs.SimulatedTexts.{text_form};
ghost use Rattle.sv_run_laws.specs.TextRounds.{AreTextRounds};

/// The rounds that an order takes over a stimulus of an admitted flat design are those that it
/// takes of the text's own processes. The text has the shape that the grammar gives, releases
/// nothing, and writes numbers that have 1 to 64 bits and fit them.
pub fn rounds_of_orders_are_those_of_texts()
    ensures { (text : TextTree) (asked : Option (List ℕ)) (design : FlatDesign)
        → CanBeFlattened text → flat_of text asked ≡ Some design → IsAdmitted design
        → (order : Option ℕ) (bytes : List ℕ) (rounds : Option ℕ)
        → AreRounds design order (read_of (text_form text asked) bytes) rounds
        ↔ AreTextRounds text asked order (read_of (text_form text asked) bytes) rounds }
{}
