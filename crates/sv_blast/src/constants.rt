// Bits at constant indexes.
ghost use Rattle.std.specs.Prelude.{◌≡◌, ℤ, [], ◌<◌, ◌≤◌, ◌^◌, IsTrue};
ghost use Rattle.sv_num.specs.Vectors.{as_number};
ghost use Rattle.sv_flat.specs.Soundness.{well_formed};
ghost use Rattle.sv_flat.specs.Values.{number_of};
ghost use Rattle.sv_flat.specs.Views.{typed_tree};
ghost use Rattle.sv_gates.specs.Formulas.{IsLiteral};
ghost use Rattle.sv_circuits.specs.Circuits.{IsWord};
ghost use Rattle.sv_encoding.specs.Expressions.{bit_at_number};

use sv_circuits::{falsity, literal_at};
use sv_flat::{FExpr, value_of};
use sv_gates::{Gates, Literal};
use sv_rules::is_below_zero;

// The bit of a word at a number of a length and signedness, and false outside of it.
fn bit_at_number(gates: &Gates, word: &[Literal], number: u64, length: u8, signed: bool) -> Literal
    requires some { 1 ≤ length }
    requires few { length ≤ 64 }
    requires low { number < 2 ^ length }
    requires word { IsWord gates.now.variables word.now }
    ensures value { result ≡ bit_at_number word.now (as_number length signed number) }
    ensures within { IsLiteral gates.now.variables result }
{
    let outside = falsity(gates);
    if is_below_zero(number, length, signed) {
        outside
    } else {
        literal_at(word, number as usize)
    }
}

/// The bit of a word at an index that names no signal, and false outside of it (IEEE 1364-2005,
/// clause 5.2.1, and this project's profile).
pub fn bit_at(gates: &Gates, word: &[Literal], index: &FExpr) -> Literal
    requires formed { IsTrue (well_formed [] (typed_tree index.now)) }
    requires word { IsWord gates.now.variables word.now }
    ensures value { result ≡
        bit_at_number word.now (number_of [] (λ t. 0) (typed_tree index.now)) }
    ensures within { IsLiteral gates.now.variables result }
{
    let number = value_of(index, &[], &[]);
    bit_at_number(gates, word, number, index.width, index.signed)
}
