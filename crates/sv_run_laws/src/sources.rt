// What the lattice, the labels and the clocks of a text are in the source's own words, as contracts
// of functions that do nothing.
ghost use Rattle.std.specs.Prelude.{◌≡◌, ◌↔◌, ℕ, IsTrue, List, [], Option, Some, None, flat_map};
ghost use Rattle.std.specs.Prelude.{Contains};
ghost use Rattle.sv_system.specs.System.{Environment};
ghost use Rattle.sv_ast.specs.ClockPaths.{IsClock};
ghost use Rattle.sv_ast.specs.Meaning.{label_in};
ghost use Rattle.sv_ast.specs.Parts.{Path, same_path, parts, PartSignal, signal_path, links_of};
ghost use Rattle.sv_ast.specs.Reach.{holds};
ghost use Rattle.sv_ast.specs.Shape.{is_shaped};
ghost use Rattle.sv_ast.specs.SourceLabels.{Flows};
ghost use Rattle.sv_ast.specs.TextSystem.{text_clocks, text_system};
ghost use Rattle.sv_ast.specs.Tree.{TextTree};
ghost use Rattle.sv_flat.specs.Admission.{IsAdmitted};
ghost use Rattle.sv_flat.specs.Clocks.{clocks};
ghost use Rattle.sv_flat.specs.Design.{FlatDesign};
ghost use Rattle.sv_flat.specs.SignalLists.{top_clock};
ghost use Rattle.sv_elab_rules.specs.Texts.{flat_of};
ghost use Rattle.sv_width.specs.WrittenLengths.{TextHasLengths};
ghost use Rattle.sv_elab_laws.specs.FlattenedTexts.{CanBeFlattened, ItemNumbersFit, EachItem};
ghost use Rattle.sv_elab_laws.specs.SideBySide.{text_signals};
ghost use Rattle.sv_run_laws.specs.SourceLattices.{PassesLattice, IsSourceLattice};
ghost use Rattle.sv_run_laws.specs.SourceLattices.{FlowsAreOfText};

/// Where a text breaks none of the rules on its lattice, 301 to 305, its points are a lattice in
/// the source's own words: a point flows to another exactly where declared pairs lead from the one
/// to the other, no two different points flow to each other, any two have a least upper and a
/// greatest lower point, and the least point flows to all (SecVerilog, ASPLOS 2015). A text that
/// stands for a flat design breaks none of them, and the design's table has its flows.
pub fn lattices_of_texts_are_lattices()
    ensures lattice { (text : TextTree) → PassesLattice text → IsSourceLattice text }
    ensures passes { (text : TextTree) (asked : Option (List ℕ)) (design : FlatDesign)
        → flat_of text asked ≡ Some design → PassesLattice text }
    ensures table { (text : TextTree) (asked : Option (List ℕ)) (design : FlatDesign)
        → flat_of text asked ≡ Some design → FlowsAreOfText text design }
{}

/// In the cycle system of a text that stands for a flat design, a signal has the label of its own
/// declaration, and one point flows to another exactly where declared pairs lead from the one to
/// the other (SecVerilog, ASPLOS 2015). For labels the text has the shape that the grammar gives,
/// releases nothing, and writes numbers that have 1 to 64 bits and fit them.
pub fn systems_of_texts_have_declared_labels()
    ensures labels { (text : TextTree) (asked : Option (List ℕ)) (design : FlatDesign)
        → CanBeFlattened text → flat_of text asked ≡ Some design
        → (s : PartSignal) → Contains (text_signals text asked) s
        → Contains (text_system text asked).signals (signal_path s)
        → (environment : Environment Path)
        → (text_system text asked).label (signal_path s) environment ≡ label_in text environment s }
    ensures flows { (text : TextTree) (asked : Option (List ℕ)) (design : FlatDesign)
        → flat_of text asked ≡ Some design → (a b : List ℕ)
        → IsTrue ((text_system text asked).flows a b) ↔ Flows text a b }
{}

/// A signal is among the clocks of a text exactly where it stands after a `posedge`, or links of
/// whole signals lead to it from such a one (IEEE 1364-2005, clauses 9.7.2 and 12.3; that links
/// make clocks is this project's profile).
pub fn clocks_of_texts_are_by_links()
    ensures { (text : TextTree) (asked : Option (List ℕ)) (x : Path)
        → IsTrue (holds same_path (text_clocks text asked) x)
        ↔ IsClock (parts text asked) (flat_map (links_of text.modules) (parts text asked)) x }
{}

/// The flat design that a text stands for, where it is admitted, has no clock among the inputs of
/// its top module exactly where it has no clock (IEEE 1364-2005, clauses 9.7.2 and 12.3; that a
/// clock comes from the top is this project's profile). The text has the shape that the grammar
/// gives, and its written numbers have 1 to 64 bits and fit them. It may release values, of which
/// the design has no processes.
pub fn texts_without_a_top_clock_have_no_clock()
    ensures { (text : TextTree) (asked : Option (List ℕ)) (design : FlatDesign)
        → IsTrue (is_shaped text) → EachItem ItemNumbersFit text → TextHasLengths text
        → flat_of text asked ≡ Some design → IsAdmitted design
        → top_clock design ≡ None ↔ (clocks design ≡ []) }
{}
