// What the encoding of an obligation says, as contracts of functions that do nothing.
ghost use Rattle.sv_encoding.specs.BothWays.{EncodingSaysWhatFalsifies, SizeIsExact};
ghost use Rattle.sv_encoding.specs.BothWays.{LabelsAloneDecide, UnmetClausesMeanValid};
ghost use Rattle.sv_encoding.specs.BothWays.{WordsSpellNextValues, WordsSpellSettledValues};
ghost use Rattle.sv_encoding.specs.BothWays.{WordsSpellValues, EncodingIsWhole};
ghost use Rattle.sv_encoding.specs.GivenMeanings.{GivenWordsAreFree, PlacesSpellWords};
ghost use Rattle.sv_encoding.specs.LabelMeanings.{FlowsSay, LabelSaysPoint, LabelsSayPoints};

/// The word of a well-formed expression has the expression's length in bits, gives each new
/// variable one value for values of the old ones, and spells the expression's value in the
/// environment that the words of the signals spell (IEEE 1364-2005, clause 5). The words of the
/// signals that it names stand in a formula whose variable 1 is true.
pub fn words_of_expressions_spell_their_values()
    ensures { WordsSpellValues }
{}

/// The words of a cone's combinational signals, made by depth from those of its inputs and
/// registers, have the signals' lengths in bits, give each new variable one value, and spell what
/// every settled environment of these inputs and registers has (IEEE 1364-2005, clauses 6, 9 and
/// 11). The design is sound and admitted.
pub fn words_of_signals_spell_settled_values()
    ensures { WordsSpellSettledValues }
{}

/// The words of a cone's registers in the next cycle, made from those of what is read for them in
/// this one, have the registers' lengths in bits, give each new variable one value, and spell the
/// next values (IEEE 1364-2005, clauses 9.2.2 and 9.7). The design is sound and admitted.
pub fn words_of_registers_spell_next_values()
    ensures { WordsSpellNextValues }
{}

/// The literals of a signal's label, made from words of its selectors, give each new variable one
/// value, and each is true exactly where its point is the label's in every environment of which the
/// words spell the selectors; that point has a literal (SecVerilog, ASPLOS 2015, dependent labels).
/// The same holds of the labels of several signals, made one after the other. The design is sound,
/// and each of its maps has a row for each value of its ranges.
pub fn labels_of_signals_say_their_points()
    ensures one { LabelSaysPoint }
    ensures several { LabelsSayPoints }
{}

/// The literal that is made of several labels and a target gives each new variable one value, and
/// is true exactly where some of the labels is a point that does not flow to the point of the
/// target (SecVerilog, ASPLOS 2015).
pub fn violations_say_that_some_label_stays()
    ensures { FlowsSay }
{}

/// The words of a list's signals, which are to be inputs or registers, are rows of new variables,
/// a variable for each bit, and add no clause: values that meet the formula before can be carried
/// on so that the words spell any values that have room in the signals' bits. The formula's
/// variable 1 is true.
pub fn words_of_inputs_are_free()
    ensures { GivenWordsAreFree }
{}

/// The places of the bits of words, which are of variables without negation, tell in their own
/// cycle what the words spell, and in the other cycle nothing, where no signal is listed twice, as
/// none is in a cone of an obligation. So the valuation that is decoded by the places of two cones
/// has of their registers and inputs what the words spell, and 0 elsewhere.
pub fn places_spell_the_words_of_inputs()
    ensures { PlacesSpellWords }
{}

/// The clauses of an obligation say what falsifies it: values of their variables that make each
/// clause true spell a valuation that falsifies the obligation and is 0 outside of its cones, and
/// every valuation that falsifies it is carried by such values, which agree with it on the cones.
/// It holds of every query that is one of a checked design's: with any facts, of a flow, of an
/// expression that is to hold, and of a selector (SecVerilog, ASPLOS 2015; gates by Tseitin's
/// clauses).
pub fn clauses_say_what_falsifies()
    ensures { EncodingSaysWhatFalsifies }
{}

/// So clauses that no values make all true mean that the obligation is valid.
pub fn unmet_clauses_mean_valid()
    ensures { UnmetClausesMeanValid }
{}

/// An encoding can be solved and decoded: no literal of its clauses is of a variable above its last
/// one; and each bit of a register or input of this cycle's cone, and of an input of the next
/// cycle's, has one place, at a variable from 1 to the last, and nothing else has a place. It holds
/// of every query that is one of a checked design's.
pub fn encodings_are_whole()
    ensures { EncodingIsWhole }
{}

/// Labels alone show that an obligation is valid where each point of each read's label flows to
/// each point of the label that the goal is about. Then the first clause is variable 1 alone and
/// the last one its negation alone, so these two refute each other (SecVerilog, ASPLOS 2015). It
/// holds of every query that is one of a checked design's.
pub fn labels_alone_decide()
    ensures { LabelsAloneDecide }
{}

/// The size that is told of an obligation, without a literal and without a clause, is the number of
/// the variables of its encoding: one that is true, one for each bit of the inputs and registers
/// that are given, and one for each gate. It holds of every query that is one of a checked
/// design's.
pub fn told_sizes_are_exact()
    ensures { SizeIsExact }
{}
