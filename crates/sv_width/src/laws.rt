// What follows from the definitions of typed forms, as contracts of functions that do nothing.
ghost use Rattle.std.specs.Prelude.{◌≡◌, ℕ, ◌≤◌, Bool, List, IsTrue, Ok};
ghost use Rattle.sv_system.specs.System.{Environment};
ghost use Rattle.sv_ast.specs.Tree.{ExpressionTree};
ghost use Rattle.sv_ast.specs.Shape.{is_shaped_expression};
ghost use Rattle.sv_ast.specs.Values.{length_of, value as source_value};
ghost use Rattle.sv_flat.specs.Design.{SignalForm};
ghost use Rattle.sv_flat.specs.Values.{value};
ghost use Rattle.sv_flat.specs.Soundness.{well_formed};
ghost use Rattle.sv_elab_rules.specs.Names.{Names};
ghost use Rattle.sv_elab_rules.specs.ExpressionSteps.{asked};
ghost use Rattle.sv_elab_rules.specs.TypedExpressions.{typed_of};
ghost use Rattle.sv_width.specs.Agreement.{AllDeclared, HaveSignals, HaveValues, HaveLengths};
ghost use Rattle.sv_width.specs.Agreement.{IsLength, NumbersHaveLengths};

/// The typed form of an expression that passes the first walk has, at each length and signedness
/// and in environments that agree, the value of its source.
pub fn typed_means_its_source()
    ensures { (names : Names) (signals : List SignalForm) (by_name : List ℕ
        → ℕ) (by_number : Environment ℕ) (constant : Bool) (e : ExpressionTree)
        → AllDeclared names → HaveSignals names signals → HaveValues names by_name by_number
        → (asked names constant e).end ≡ Ok tt
        → (n : ℕ) (s : Bool)
        → value signals by_number (typed_of names e n s) ≡
        source_value names.scope by_name e n s }
{}

/// The typed form of an expression that passes the first walk is well formed at each length from
/// its own one to 64.
pub fn typed_forms_are_well_formed()
    ensures { (names : Names) (signals : List SignalForm) (constant : Bool) (e : ExpressionTree)
        → AllDeclared names → HaveLengths names.scope → HaveSignals names signals
        → IsTrue (is_shaped_expression e) → NumbersHaveLengths e
        → (asked names constant e).end ≡ Ok tt
        → (n : ℕ) (s : Bool) → length_of names.scope e ≤ n → IsLength n
        → IsTrue (well_formed signals (typed_of names e n s)) }
{}
