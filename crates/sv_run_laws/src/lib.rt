//! What admission and valid obligations mean for a source text: it has one trace for each start and
//! each list of inputs, and no level learns more of it than it may (SecVerilog, ASPLOS 2015).
//!
//! Takes what the bytes of a text mean (`sv_ast`), the flat design that it stands for (`sv_elab_rules`),
//! that the design is sound and does what the text means (`sv_elab_laws`), its one trace (`sv_sim`),
//! its obligations (`sv_obl`), and what is written of it for a stimulus (`sv_sim_run`). This crate
//! has laws, no program.
//!
//! What is written of the flat design for a stimulus is what is written of the text, by the text's
//! own cycle meaning (`specs/SimulatedTexts.antt`); the rounds that are counted of the design are
//! those of the text's own processes (`specs/TextRounds.antt`), and a valuation falsifies an
//! obligation of the design exactly where it does by environments and labels of the text
//! (`specs/FalsifiedTexts.antt`).
//!
//! Of the way from bytes to the flat design it says besides that bytes mean one text, that typed
//! expressions are no larger than their sources (`specs/Sizes.antt`), that the signals of the
//! design and its label maps are those declared (`specs/Signals.antt`, `specs/LabelRows.antt`),
//! that flows, labels, lattice and clocks are those of the source's own words
//! (`specs/SourceLattices.antt`), and that an admitted design with a clock has one that is an input
//! of the top module. None of these files is private.
//!
//! Of memories and invariants, which are not built yet, neither the walk nor the meaning takes
//! anything: of a text with such an item the laws speak as of the same text without it.
#![tactic(auto)]

mod falsified;
mod meanings;
mod rounds;
mod signals;
mod simulated;
mod sizes;
mod sources;

ghost use Rattle.std.specs.Prelude.{◌≡◌, ℕ, List, Option, Some, All};
ghost use Rattle.sv_system.specs.System.{Noninterferent, HasOneTrace};
ghost use Rattle.sv_lattice.specs.Maps.{MapRows, IsMap};
ghost use Rattle.sv_lattice.specs.Tables.{IsLatticeTable};
ghost use Rattle.sv_ast.specs.GrammarMeaning.{Means};
ghost use Rattle.sv_ast.specs.TextSystem.{text_system};
ghost use Rattle.sv_ast.specs.Tree.{TextTree};
ghost use Rattle.sv_flat.specs.Admission.{IsAdmitted};
ghost use Rattle.sv_flat.specs.Design.{FlatDesign};
ghost use Rattle.sv_elab_rules.specs.Texts.{flat_of};
ghost use Rattle.sv_elab_laws.specs.FlattenedTexts.{CanBeFlattened, EachItem, ReleasesNothing};
ghost use Rattle.sv_obl.specs.Asked.{AskedHold};

pub use falsified::{
    listed_values_falsify_texts_as_their_designs, valuations_falsify_texts_as_their_designs,
};
pub use meanings::bytes_mean_at_most_one_text;
pub use rounds::rounds_of_orders_are_those_of_texts;
pub use signals::flat_signals_are_those_declared;
pub use simulated::{designs_are_written_as_their_texts, each_stimulus_of_a_text_has_one_text};
pub use sizes::typed_expressions_are_no_larger;
pub use sources::{
    clocks_of_texts_are_by_links, lattices_of_texts_are_lattices,
    systems_of_texts_have_declared_labels, texts_without_a_top_clock_have_no_clock,
};

/// The flat design that a text stands for has a lattice of 1 to 32 points: no two different ones
/// flow to each other, and any two have a least upper and a greatest lower point. Each of its label
/// maps has one or two ranges of 1 to 8 bits in all, and a row for each of their values
/// (SecVerilog, ASPLOS 2015; the limits are this project's profile).
pub fn flat_designs_have_lattices_and_maps()
    ensures lattice { (text : TextTree) (asked : Option (List ℕ)) (design : FlatDesign)
        → flat_of text asked ≡ Some design → IsLatticeTable design.lattice }
    ensures maps { (text : TextTree) (asked : Option (List ℕ)) (design : FlatDesign)
        → flat_of text asked ≡ Some design
        → All (λ (m : MapRows). IsMap m.first m.second m.rows) design.maps }
{}

/// What bytes mean has the shape that the grammar gives, and writes numbers that have 1 to 64 bits
/// and fit them (IEEE 1364-2005, annex A and clause 3.5.1). So where it releases nothing, the laws
/// of flattening speak of it.
pub fn texts_of_bytes_can_be_flattened()
    ensures { (bytes : List ℕ) (text : TextTree) → Means bytes text → EachItem ReleasesNothing text
        → CanBeFlattened text }
{}

/// For a text whose flat design is admitted and whose obligations are all valid, every level and
/// any two traces of the text that look alike to the level, the level's whole view is equal at
/// every cycle. The text has the shape that the grammar gives, releases nothing, and writes numbers
/// that have 1 to 64 bits and fit them.
pub fn valid_texts_are_noninterferent()
    ensures { (text : TextTree) (asked : Option (List ℕ)) (design : FlatDesign)
        → CanBeFlattened text → flat_of text asked ≡ Some design
        → IsAdmitted design → AskedHold design → Noninterferent (text_system text asked) }
{}

/// A text whose flat design is admitted has exactly one trace for each start and each list of
/// inputs, all of them fitting. The text is as above.
pub fn admitted_texts_have_one_trace()
    ensures { (text : TextTree) (asked : Option (List ℕ)) (design : FlatDesign)
        → CanBeFlattened text
        → flat_of text asked ≡ Some design
        → IsAdmitted design → HasOneTrace (text_system text asked) }
{}

/// For bytes that mean a text which releases nothing, whose flat design is admitted and whose
/// obligations are all valid, every level and any two traces of the text that look alike to the
/// level, the level's whole view is equal at every cycle. Its memories are left out.
pub fn valid_bytes_are_noninterferent()
    ensures { (bytes : List ℕ) (text : TextTree) (asked : Option (List ℕ)) (design : FlatDesign)
        → Means bytes text → EachItem ReleasesNothing text
        → flat_of text asked ≡ Some design → IsAdmitted design
        → AskedHold design → Noninterferent (text_system text asked) }
{}

/// A text of bytes that releases nothing, and whose flat design is admitted, has exactly one trace
/// for each start and each list of inputs, all of them fitting. Its memories are left out.
pub fn admitted_bytes_have_one_trace()
    ensures { (bytes : List ℕ) (text : TextTree) (asked : Option (List ℕ)) (design : FlatDesign)
        → Means bytes text → EachItem ReleasesNothing text
        → flat_of text asked ≡ Some design → IsAdmitted design
        → HasOneTrace (text_system text asked) }
{}
