// What the circuits of operators say, as contracts of functions that do nothing.
ghost use Rattle.std.specs.Prelude.{◌≡◌, Bool, length};
ghost use Rattle.sv_num.specs.declared.operators.BinOp.{BinOp};
ghost use Rattle.sv_num.specs.declared.operators.UnOp.{UnOp};
ghost use Rattle.sv_num.specs.BinaryValues.{binary_value};
ghost use Rattle.sv_num.specs.UnaryValues.{unary_value};
ghost use Rattle.sv_gates.specs.Extending.{Makes};
ghost use Rattle.sv_gates.specs.Formulas.{Formula};
ghost use Rattle.sv_circuits.specs.Circuits.{HaveSizes, IsBase, IsWord};
ghost use Rattle.sv_circuits.specs.Operators.{binary_word, unary_word};
ghost use Rattle.sv_circuits.specs.Words.{Word, word_value};

/// The circuit of a unary operator, over a formula whose variable 1 is true, gives each new
/// variable one value for values of the old ones, and spells the operator's value of what its
/// operand spells (IEEE 1364-2005, clauses 5.1.5 and 5.1.9 to 5.1.11).
pub fn unary_circuits_spell_their_values()
    ensures { (op : UnOp) (signed : Bool) (a : Word) (old : Formula) → IsBase old
        → IsWord old.variables a → Makes old (unary_word op a old) IsWord (λ values word.
        word_value values word ≡ unary_value op (length a) signed (word_value values a)) }
{}

/// The circuit of a binary operator that divides nothing, over such a formula, gives each new
/// variable one value for values of the old ones, and spells the operator's value of what its
/// operands spell (IEEE 1364-2005, clauses 5.1.5, 5.1.7 to 5.1.10 and 5.1.12). An operand of `&&`
/// and `||` is one bit, an amount has any length, and all others are of one length, in bits.
pub fn binary_circuits_spell_their_values()
    ensures { (op : BinOp) (signed : Bool) (a b : Word) (old : Formula) → IsBase old
        → IsWord old.variables a → IsWord old.variables b → HaveSizes op (length a) (length b)
        → Makes old (binary_word op signed a b old) IsWord (λ values word. word_value values word
        ≡ binary_value op (length a) signed (word_value values a) (word_value values b)) }
{}
