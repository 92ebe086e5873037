// What the names of an expression stand for, and where they may stand.
ghost use Rattle.std.specs.Prelude.{◌≡◌, [], ◌∷◌, None, Some, IfOk, IfErr, IsTrue, Result, Err};
ghost use Rattle.sv_num.specs.Rules.{rule_number};
ghost use Rattle.sv_ast.specs.Instances.{is_signal};
ghost use Rattle.sv_ast.specs.Tree as tree;
ghost use Rattle.sv_ast.specs.Views.{expression_tree, expression_trees, parts_of};
ghost use Rattle.sv_elab_rules.specs.Walks.{WalkStep};
ghost use Rattle.sv_elab_rules.specs.Rules.{step, unknown_name};
ghost use Rattle.sv_elab_rules.specs.ExpressionSteps.{asked};
ghost use Rattle.sv_elab_rules.specs.TypedExpressions.{names_signal, some_names_signal};
ghost use Rattle.sv_width.specs.declared.meanings.Meaning.TheVariants as meaning;
ghost use Rattle.sv_width.specs.declared.lookups.Setting.TheVariants as setting_of;
ghost use Rattle.sv_width.specs.Answers.{IsBreach};
ghost use Rattle.sv_width.specs.Scopes.{meaning_of, bindings_of};
ghost use Rattle.sv_width.specs.Settings.{names_in, is_constant, absent_step, selected_steps};
ghost use Rattle.sv_width.specs.Outcomes.{IsMeasure};

use crate::meanings::{KnownSignal, Meaning};
use crate::measured::{Measured, value, whole_signal};
use crate::scope::Scope;
use std::alloc::Global;
use sv_ast::Expr;
use sv_num::{Fault, Name, Place, Rule};

/// Which names an expression may name.
#[derive(Clone, Copy, Debug, PartialEq, Eq)]
pub enum Setting {
    /// Signals and parameters.
    Open,
    /// Parameters alone.
    Constant,
    /// Parameters alone, and the announced names are known as signals.
    Declaring,
}

/// What an expression may name: names of a scope, as far as the setting allows.
#[derive(Clone, Copy)]
pub struct Reach<'a> {
    pub scope: &'a Scope,
    pub setting: Setting,
}

/// The refusal by a rule at a place, without names.
pub fn refusal(alloc: Global, rule: Rule, place: Place) -> Fault
    ensures { (end : Result (Unit {0}) WalkStep) → end ≡ Err (step (rule_number rule) place []) →
        IsBreach end result }
{
    Fault::broken(rule, place, Vec::new(alloc))
}

/// The refusal by a rule at a place, with one name.
pub fn refusal_naming(alloc: Global, rule: Rule, place: Place, name: &Name) -> Fault
    ensures { (end : Result (Unit {0}) WalkStep)
        → end ≡ Err (step (rule_number rule) place (name.now ∷ [])) → IsBreach end result }
{
    match name.alone(alloc) {
        Ok(names) => Fault::broken(rule, place, names),
        Err(error) => Fault::from(error),
    }
}

/// The refusal by rule 401: the name stands for nothing that may stand there.
pub fn unknown_name(alloc: Global, name: &Name, place: Place) -> Fault
    ensures { (end : Result (Unit {0}) WalkStep) → end ≡ Err (unknown_name place name.now) →
        IsBreach end result }
{
    refusal_naming(alloc, Rule::UnknownName, place, name)
}

/// A whole name.
pub fn named(
    alloc: Global,
    name: &Name,
    place: Place,
    scope: &Scope,
    setting: Setting,
) -> Result<Measured, Fault>
    ensures found { IfOk result
        (IsMeasure (names_in setting scope.now) (is_constant setting) (tree.named name.now place)) }
    ensures broken { IfErr result
        (IsBreach (asked (names_in setting scope.now) (is_constant setting)
        (tree.named name.now place)).end) }
{
    match scope.find(name) {
        Some(Meaning::Param(bits)) => Ok(value(bits)),
        Some(Meaning::Signal(known)) => {
            if is_constant(setting) {
                Err(refusal(alloc, Rule::NotConstant, place))
            } else {
                Ok(whole_signal(known, place))
            }
        }
        None => Err(absent(alloc, name, place, scope, setting)),
    }
}

// Whether the setting is a constant place.
fn is_constant(setting: Setting) -> bool
    ensures { result ≡ is_constant setting }
{
    match setting {
        Setting::Open => false,
        Setting::Constant | Setting::Declaring => true,
    }
}

// What refuses a name that stands for nothing yet.
fn absent(alloc: Global, name: &Name, place: Place, scope: &Scope, setting: Setting) -> Fault
    ensures { (end : Result (Unit {0}) WalkStep) →
        end ≡ Err (absent_step (names_in setting scope.now) place name.now) → IsBreach end result }
{
    if setting == Setting::Declaring && scope.is_announced(name) {
        refusal(alloc, Rule::NotConstant, place)
    } else {
        unknown_name(alloc, name, place)
    }
}

/// The signal of which a bit or a part is taken.
pub fn selected(
    alloc: Global,
    name: &Name,
    place: Place,
    scope: &Scope,
    setting: Setting,
) -> Result<KnownSignal, Fault>
    ensures open { IfOk result (λ known. setting ≡ setting_of.Open) }
    ensures found { IfOk result (λ known.
        meaning_of scope.now name.now ≡ Some (meaning.Signal known)) }
    ensures broken { IfErr result
        (IsBreach (selected_steps (names_in setting scope.now) (is_constant setting) place
        name.now).end) }
{
    match scope.find(name) {
        Some(Meaning::Param(_)) => Err(unknown_name(alloc, name, place)),
        Some(Meaning::Signal(known)) => {
            if setting == Setting::Open {
                Ok(known)
            } else {
                Err(refusal(alloc, Rule::NotConstant, place))
            }
        }
        None => Err(absent(alloc, name, place, scope, setting)),
    }
}

// Whether the name stands for a signal.
fn is_signal(name: &Name, scope: &Scope) -> bool
    ensures { result ≡ is_signal (bindings_of scope.now name.now) }
{
    matches!(scope.find(name), Some(Meaning::Signal(_)))
}

/// Whether a signal is named. It looks no further than the first one.
#[tactic(auto, unfolding(sv_elab_rules::specs::TypedExpressions::names_signal))]
#[cycle(naming)]
pub fn names_signal(expr: &Expr, scope: &Scope) -> bool
    ensures { result ≡ names_signal (bindings_of scope.now) (expression_tree expr.now) }
{
    match expr {
        Expr::Number(..) => false,
        Expr::Name(name, _) => is_signal(name, scope),
        Expr::Bit(name, _, index) => is_signal(name, scope) || names_signal(index, scope),
        Expr::Part(name, _, high, low) => {
            is_signal(name, scope) || names_signal(high, scope) || names_signal(low, scope)
        }
        Expr::Unary(_, _, operand) => names_signal(operand, scope),
        Expr::Binary(_, _, left, right) => names_signal(left, scope) || names_signal(right, scope),
        Expr::Choice(_, cond, yes, no) => {
            names_signal(cond, scope) || names_signal(yes, scope) || names_signal(no, scope)
        }
        Expr::Join(_, parts) => some_name_signal(parts, scope),
        Expr::Repeat(_, count, parts) => {
            names_signal(count, scope) || some_name_signal(parts, scope)
        }
    }
}

#[tactic(auto, unfolding(sv_elab_rules::specs::TypedExpressions::some_names_signal))]
#[cycle(naming)]
fn some_name_signal(exprs: &[Expr], scope: &Scope) -> bool
    ensures { result ≡ some_names_signal (bindings_of scope.now)
        (parts_of (expression_trees exprs.now)) }
{
    for expr in exprs {
        if names_signal(expr, scope) {
            return true;
        }
    }
    false
}
