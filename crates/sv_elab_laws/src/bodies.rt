// What the bodies, links and values of a flat design do and assign, and that values fit, as
// contracts of functions that do nothing.
ghost use Rattle.std.specs.Prelude.{◌≡◌, ℕ, ◌==◌, ◌%◌, ◌^◌, ◌<◌, ◌≤◌, Bool, List, IsTrue, Contains};
ghost use Rattle.std.specs.Prelude.{Some, Ok};
ghost use Rattle.std.specs.List.{list_any};
ghost use Rattle.sv_system.specs.System.{Environment, put};
ghost use Rattle.sv_ast.specs.Scopes.{Scope, signal, width_of};
ghost use Rattle.sv_ast.specs.Tree.{ExpressionTree, StatementTree, DeclarationTree, named};
ghost use Rattle.sv_ast.specs.Shape.{is_shaped_statement};
ghost use Rattle.sv_ast.specs.Values.{length_of, value, assigned_value};
ghost use Rattle.sv_ast.specs.Instances.{is_signal, whole_signal};
ghost use Rattle.sv_ast.specs.Runs.{Running, run as source_run, assigned};
ghost use Rattle.sv_ast.specs.Processes.{assigns as assigns_whole};
ghost use Rattle.sv_ast.specs.Views.{statement_tree};
ghost use Rattle.sv_ast.specs.declared.statements.Stmt.{Stmt};
ghost use Rattle.sv_flat.specs.Design.{SignalForm, FlatStatement, ProcessForm, continuous};
ghost use Rattle.sv_flat.specs.Values.{signal_width};
ghost use Rattle.sv_flat.specs.Runs.{Updates, run, run_alone};
ghost use Rattle.sv_flat.specs.Assigned.{assigns};
ghost use Rattle.sv_elab_rules.specs.Names.{Names};
ghost use Rattle.sv_elab_rules.specs.Statements.{statement_walk};
ghost use Rattle.sv_elab_rules.specs.Links.{Ports, port_number, port_width, input_link, output_link};
ghost use Rattle.sv_elab_rules.specs.InstanceSteps.{Built, with_process, value_walk};
ghost use Rattle.sv_width.specs.Agreement.{AllDeclared, HaveSignals, HaveValues};
ghost use Rattle.sv_elab_laws.specs.Numbers.{SelectorsFit};
ghost use Rattle.sv_elab_laws.specs.Numbering.{IsNumbering};
ghost use Rattle.sv_elab_laws.specs.SameStates.{AreSame};

/// The value of a source expression fits each length from its own one on (IEEE 1364-2005, clause
/// 5.4).
pub fn values_fit_their_lengths()
    ensures { (scope : Scope) (environment : Environment (List ℕ)) (e : ExpressionTree)
        → (n : ℕ) (signed : Bool) → length_of scope e ≤ n
        → value scope environment e n signed < 2 ^ n }
{}

/// The numbers that a statement's selectors write fit their lengths.
pub fn written_numbers_fit()
    ensures { (s : Stmt) → SelectorsFit (statement_tree s) }
{}

/// The flat form of a statement does to a design's numbers what the statement does to the names of
/// its instance: the same values, and the same updates in the same order (IEEE 1364-2005, clause
/// 9).
pub fn flat_statements_do_what_their_sources_do()
    ensures { (names : Names) (signals : List SignalForm) → IsNumbering names signals
        → (s : StatementTree) (f : FlatStatement) → (statement_walk names s).end ≡ Ok f
        → SelectorsFit s
        → (flat : Environment ℕ × Updates) (source : Running) → AreSame names flat source
        → AreSame names (run signals f flat) (source_run names.scope s source) }
{}

/// The flat form of a statement assigns the numbers of the names that the statement assigns, and
/// each of these names is a signal.
pub fn flat_statements_assign_the_same_signals()
    ensures same { (names : Names) (s : StatementTree) (f : FlatStatement)
        → (statement_walk names s).end ≡ Ok f → IsTrue (is_shaped_statement s)
        → (k : ℕ) → assigns f k ≡ list_any (λ (n : List ℕ). names.number n == k) (assigned s) }
    ensures signals { (names : Names) (s : StatementTree) (f : FlatStatement)
        → (statement_walk names s).end ≡ Ok f
        → (n : List ℕ) → Contains (assigned s) n → IsTrue (is_signal (names.scope n)) }
{}

/// A link to an input port gives the port the value of its expression outside, and changes nothing
/// else (IEEE 1364-2005, clause 12.3).
pub fn input_links_assign_their_ports()
    ensures { (signals : List SignalForm) (outer : Names)
        → AllDeclared outer → HaveSignals outer signals
        → (ports : Ports) (d : DeclarationTree) (e : ExpressionTree) (process : ProcessForm)
        → (input_link outer ports d e).end ≡ Ok process
        → 1 ≤ port_width ports d
        → signal_width signals (port_number ports d.name) ≡ port_width ports d
        → (by_name : Environment (List ℕ)) (by_number : Environment ℕ)
        → HaveValues outer by_name by_number
        → run_alone signals process.body by_number
        ≡ put ◌==◌ (port_number ports d.name)
        (assigned_value outer.scope by_name (port_width ports d) e) by_number }
{}

/// A link to an output port gives the port's value to the signal outside that it names, and changes
/// nothing else (IEEE 1364-2005, clause 12.3).
pub fn output_links_assign_their_signals()
    ensures { (signals : List SignalForm) (outer inner : Names)
        → IsNumbering outer signals → HaveSignals inner signals
        → (ports : Ports) (d : DeclarationTree) (e : ExpressionTree) (process : ProcessForm)
        → (output_link outer ports d e).end ≡ Ok process
        → inner.scope d.name ≡ Some (signal (port_width ports d) d.signed)
        → inner.number d.name ≡ port_number ports d.name
        → (by_name : Environment (List ℕ)) (by_number : Environment ℕ)
        → HaveValues inner by_name by_number
        → (n : List ℕ) × (whole_signal outer.scope e ≡ Some n)
        × (run_alone signals process.body by_number
        ≡ put ◌==◌ (outer.number n)
        (assigned_value inner.scope by_name (width_of (outer.scope n)) (named d.name d.place))
        by_number) }
{}

/// The value of a `wire` is a process that does what an assignment of it to the wire does (IEEE
/// 1364-2005, clause 6.1).
pub fn wires_get_their_values()
    ensures { (names : Names) (signals : List SignalForm) → IsNumbering names signals
        → (d : DeclarationTree) (e : ExpressionTree) (built next : Built)
        → (value_walk names built d (Some e)).end ≡ Ok next
        → (width : ℕ) (signed : Bool) → names.scope d.name ≡ Some (signal width signed)
        → (process : ProcessForm) × (next ≡ with_process built process)
        × (process.kind ≡ continuous)
        × ((flat : Environment ℕ × Updates) (source : Running) → AreSame names flat source
        → AreSame names (run signals process.body flat)
        (source_run names.scope (assigns_whole d.name d.place e) source)) }
{}
