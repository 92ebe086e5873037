// The processes of one instance. What each call here needs stands in its own frame, since the walk
// of instances calls itself for each instance in another.
ghost use Rattle.std.specs.Prelude.{◌≡◌, ◌≤◌, Ok, Some, map, option_map, OnOk, IfOk, IfErr, IsTrue};
ghost use Rattle.sv_ast.specs.Shape.{is_shaped_declaration, is_shaped_expression};
ghost use Rattle.sv_ast.specs.Shape.{is_shaped_statement, are_whole_targets};
ghost use Rattle.sv_ast.specs.Views.{expression_tree, target_tree, statement_tree};
ghost use Rattle.sv_ast.specs.Views.{declaration_tree, placed_name};
ghost use Rattle.sv_flat.specs.Views.{typed_tree, process_kind, process_form};
ghost use Rattle.sv_elab_rules.specs.InstanceSteps.{with_process, value_walk, assign_walk, always_walk};
ghost use Rattle.sv_elab_rules.specs.Links as links;
ghost use Rattle.sv_width.specs.Answers.{IsBreach};
ghost use Rattle.sv_width.specs.Scopes.{names_of};
ghost use Rattle.sv_elab.specs.Instances.{built_form, always_kind_walk};

use crate::built::Built;
use crate::lookups::{number_of, width_of};
use std::alloc::Global;
use sv_ast::{Decl, Expr, Stmt, Target};
use sv_elab_stmt::{assignment, statement};
use sv_flat::{FExpr, FStmt, Piece, ProcKind, Process, SigId};
use sv_num::{Fault, Name, OutOfMemory, Place};
use sv_width::{Meaning, Scope, typed, unknown_name};

/// One blocking assignment of a value to a whole signal of so many bits, as a process.
pub fn whole_assignment(
    alloc: Global,
    place: Place,
    kind: ProcKind,
    signal: SigId,
    width: u8,
    value: FExpr,
) -> Result<Process, OutOfMemory>
    ensures { IfOk result (λ p. process_form p
        ≡ links.whole_assignment place (process_kind kind) signal.0 width (typed_tree value)) }
{
    let piece = Piece {
        signal,
        place,
        high: width.saturating_sub(1),
        low: 0,
        from: 0,
    };
    Ok(Process {
        place,
        kind,
        body: FStmt::Assign {
            pieces: vec![in alloc; piece]?,
            place,
            blocking: true,
            value,
        },
    })
}

/// Adds the value of a `wire` as an assignment to it, if it has one.
#[inline(never)]
pub fn add_value(alloc: Global, decl: &Decl, scope: &Scope, built: &mut Built) -> Result<(), Fault>
    requires shaped { IsTrue (is_shaped_declaration (declaration_tree decl.now)) }
    ensures found { OnOk result ((value_walk (names_of scope.now) (built_form built.old)
        (declaration_tree decl.now) (declaration_tree decl.now).value).end ≡
        Ok (built_form built.new)) }
    ensures instances { OnOk result (built.new.instances ≡ built.old.instances) }
    ensures broken { IfErr result (IsBreach (value_walk (names_of scope.now) (built_form built.old)
        (declaration_tree decl.now) (declaration_tree decl.now).value).end) }
{
    let value = match &decl.value {
        Some(value) => value,
        None => return Ok(()),
    };
    let width = width_of(scope, &decl.name);
    let value = typed(alloc, value, scope, width)?;
    let signal = number_of(scope, &decl.name);
    let process = whole_assignment(alloc, decl.place, ProcKind::Assign, signal, width, value)?;
    built.processes.push(process)?;
    Ok(())
}

/// Adds an `assign`, with the place of its first target.
#[inline(never)]
pub fn add_assign(
    alloc: Global,
    targets: &[Target],
    place: Place,
    value: &Expr,
    scope: &Scope,
    built: &mut Built,
) -> Result<(), Fault>
    requires targets { IsTrue (are_whole_targets (map target_tree targets.now)) }
    requires value { IsTrue (is_shaped_expression (expression_tree value.now)) }
    ensures found { OnOk result ((assign_walk (names_of scope.now) (built_form built.old)
        (map target_tree targets.now) place (expression_tree value.now)).end ≡
        Ok (built_form built.new)) }
    ensures instances { OnOk result (built.new.instances ≡ built.old.instances) }
    ensures broken { IfErr result (IsBreach (assign_walk (names_of scope.now) (built_form built.old)
        (map target_tree targets.now) place (expression_tree value.now)).end) }
{
    let body = assignment(alloc, targets, place, true, value, scope)?;
    built.processes.push(Process {
        place,
        kind: ProcKind::Assign,
        body,
    })?;
    Ok(())
}

// The kind of an `always`. Rule 401 refuses a clock that is no signal.
fn always_kind(
    alloc: Global,
    clock: Option<&(Name, Place)>,
    scope: &Scope,
) -> Result<ProcKind, Fault>
    ensures found { IfOk result (λ kind. (always_kind_walk (names_of scope.now)
        (option_map (λ c. placed_name c.now) clock.entry)).end ≡ Ok (process_kind kind)) }
    ensures broken { IfErr result (IsBreach (always_kind_walk (names_of scope.now)
        (option_map (λ c. placed_name c.now) clock.entry)).end) }
{
    match clock {
        None => Ok(ProcKind::Comb),
        Some((name, place)) => match scope.find(name) {
            Some(Meaning::Signal(known)) => Ok(ProcKind::Clocked(known.signal)),
            _ => Err(unknown_name(alloc, name, *place)),
        },
    }
}

/// Adds an `always` with the place of the word. Rule 401 refuses a clock that is no signal.
#[inline(never)]
pub fn add_always(
    alloc: Global,
    place: Place,
    clock: Option<&(Name, Place)>,
    body: &Stmt,
    scope: &Scope,
    built: &mut Built,
) -> Result<(), Fault>
    requires { IsTrue (is_shaped_statement (statement_tree body.now)) }
    ensures found { OnOk result ((always_walk (names_of scope.now) (built_form built.old) place
        (option_map (λ c. placed_name c.now) clock.entry) (statement_tree body.now)).end
        ≡ Ok (built_form built.new)) }
    ensures instances { OnOk result (built.new.instances ≡ built.old.instances) }
    ensures broken { IfErr result
        (IsBreach (always_walk (names_of scope.now) (built_form built.old) place
        (option_map (λ c. placed_name c.now) clock.entry) (statement_tree body.now)).end) }
{
    let kind = always_kind(alloc, clock, scope)?;
    let body = statement(alloc, body, scope)?;
    built.processes.push(Process { place, kind, body })?;
    Ok(())
}
