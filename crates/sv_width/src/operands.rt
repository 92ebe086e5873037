// Expressions whose first walk is done, to be typed where their place gives a length and a
// signedness.
ghost use Rattle.std.specs.Prelude.{◌≡◌, ◌≤◌, Bool, List, IfOk, IfErr, IsTrue};
ghost use Rattle.sv_ast.specs.Shape.{is_shaped_expression};
ghost use Rattle.sv_ast.specs.Tree.{ExpressionTree};
ghost use Rattle.sv_ast.specs.Views.{expression_tree};
ghost use Rattle.sv_flat.specs.Design.{SignalForm};
ghost use Rattle.sv_flat.specs.Soundness.{well_formed};
ghost use Rattle.sv_flat.specs.Views.{typed_tree};
ghost use Rattle.sv_elab_rules.specs.ExpressionSteps.{asked, divisors};
ghost use Rattle.sv_elab_rules.specs.Names.{Names};
ghost use Rattle.sv_width.specs.Agreement.{HaveSignals};
ghost use Rattle.sv_width.specs.Answers.{IsBreach};
ghost use Rattle.sv_width.specs.Operands.{own_width, own_signed, IsOperandOf, IsTypedAt, IsValueAt};
ghost use Rattle.sv_width.specs.Scopes.{Known, names_of};
ghost use Rattle.sv_width.specs.Settings.{names_in, is_constant};

use crate::folding::folded;
use crate::lookups::{Reach, Setting};
use crate::measured::Measured;
use crate::measuring::measured;
use crate::scope::Scope;
use crate::types::BitType;
use crate::typing::pushed;
use std::alloc::Global;
use std::marker::Model;
use sv_ast::Expr;
use sv_flat::FExpr;
use sv_num::{Bits, Fault};

/// An expression that breaks none of the rules 401 to 404 and 406 to 408, to be typed at the length
/// and signedness that its place gives (IEEE 1364-2005, clauses 5.4 and 9.5).
#[derive(Debug, Drop)]
pub struct Operand {
    measured: Measured,
}

impl Model for Operand {
    ghost use Rattle.std.specs.Coded.{codes};
    ghost use Rattle.sv_width.specs.contracts.measured.Measured as form;
    ghost use Rattle.sv_width.specs.declared.measured.Measured.{Measured};

    ghost Value = { Measured };

    ghost coded = { Prim.hlevel (codes, form.the_row.coded) };

    ghost view = { λ o. o.measured };
}

impl Operand {
    /// The operand of an expression in a place where all declarations are made, a constant one or
    /// another one; else the first of those rules that the expression breaks.
    pub fn of(alloc: Global, expr: &Expr, scope: &Scope, constant: bool) -> Result<Operand, Fault>
        requires shaped { IsTrue (is_shaped_expression (expression_tree expr.now)) }
        ensures found { IfOk result
            (IsOperandOf (names_of scope.now) constant (expression_tree expr.now)) }
        ensures broken { IfErr result
            (IsBreach (asked (names_of scope.now) constant (expression_tree expr.now)).end) }
    {
        let reach = Reach {
            scope,
            setting: setting_of(constant),
        };
        let measured = measured(alloc, expr, &reach)?;
        Ok(Operand { measured })
    }

    /// The expression's own length, 1 to 64 bits.
    pub fn width(&self) -> u8
        ensures width { result ≡ own_width self.now }
        ensures some { 1 ≤ result }
        ensures few { result ≤ 64 }
    {
        self.measured.own_type().width
    }

    /// Whether the expression is signed by itself.
    pub fn signed(&self) -> bool
        ensures { result ≡ own_signed self.now }
    {
        self.measured.own_type().signed
    }

    /// The typed form at a length, from the own one to 64 bits, and a signedness. Rule 405 refuses
    /// the first divisor that is 0.
    pub fn typed(&self, alloc: Global, width: u8, signed: bool) -> Result<FExpr, Fault>
        requires enough { own_width self.now ≤ width }
        requires few { width ≤ 64 }
        ensures found { IfOk result (λ f. (names : Names) (c : Bool) (e : ExpressionTree)
            → IsOperandOf names c e self.now → IsTypedAt names e width signed (typed_tree f)) }
        ensures formed { IfOk result (λ f. (names : Names) (c : Bool) (e : ExpressionTree)
            → IsOperandOf names c e self.now → (signals : List SignalForm)
            → HaveSignals names signals
            → IsTrue (well_formed signals (typed_tree f))) }
        ensures broken { IfErr result (λ f. (names : Names) (c : Bool) (e : ExpressionTree)
            → IsOperandOf names c e self.now
            → IsBreach (divisors names.scope e width signed).end f) }
    {
        pushed(alloc, &self.measured, self.at(width, signed))
    }

    /// The value at a length, from the own one to 64 bits, and a signedness, where each signal is
    /// 0; a constant names none. Rule 405 refuses the first divisor that is 0.
    pub fn value(&self, alloc: Global, width: u8, signed: bool) -> Result<Bits, Fault>
        requires enough { own_width self.now ≤ width }
        requires few { width ≤ 64 }
        ensures found { IfOk result (λ bits. (names : Names) (c : Bool) (e : ExpressionTree)
            → IsOperandOf names c e self.now → IsValueAt names e width signed bits) }
        ensures broken { IfErr result (λ f. (names : Names) (c : Bool) (e : ExpressionTree)
            → IsOperandOf names c e self.now
            → IsBreach (divisors names.scope e width signed).end f) }
    {
        folded(alloc, &self.measured, self.at(width, signed))
    }

    // A type that the operand fits.
    fn at(&self, width: u8, signed: bool) -> BitType
        requires enough { own_width self.now ≤ width }
        requires few { width ≤ 64 }
        ensures width { result.width ≡ width }
        ensures signed { result.signed ≡ signed }
    {
        BitType { width, signed }
    }
}

// Which names an expression may name where all declarations are made.
fn setting_of(constant: bool) -> Setting
    ensures names { (known : Known) → names_in result known ≡ names_of known }
    ensures constant { is_constant result ≡ constant }
{
    if constant {
        Setting::Constant
    } else {
        Setting::Open
    }
}
