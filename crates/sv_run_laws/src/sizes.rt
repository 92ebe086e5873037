// That typed expressions are no larger than their sources, as the contract of a function that does
// nothing.
ghost use Rattle.std.specs.Prelude.{ℕ, ◌≤◌, Bool};
ghost use Rattle.sv_ast.specs.Tree.{ExpressionTree};
ghost use Rattle.sv_elab_rules.specs.Names.{Names};
ghost use Rattle.sv_elab_rules.specs.TypedExpressions.{typed_of};
ghost use Rattle.sv_obl.specs.Nodes.{nodes_in};
ghost use Rattle.sv_run_laws.specs.Sizes.{source_nodes};

/// The typed form of an expression has at most as many operands and operators as the expression,
/// at every length and signedness, whatever its names stand for (IEEE 1364-2005, clauses 5.4 and
/// 5.5).
pub fn typed_expressions_are_no_larger()
    ensures { (names : Names) (e : ExpressionTree) (length : ℕ) (signed : Bool)
        → nodes_in (typed_of names e length signed) ≤ source_nodes e }
{}
