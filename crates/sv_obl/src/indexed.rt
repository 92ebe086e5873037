// Indexed statements, of which each target's slice is taken. Each is made once for a process. For a
// slice a target is looked up once in each block and branch that assigns it, and then only in the
// parts that assign it, so all slices together cost the assignments times their nesting.
ghost use Rattle.std.specs.Prelude.{◌≡◌, ℕ, [], ◌∷◌, ◌++◌, map, fold, None, IfOk, OnOk};
ghost use Rattle.std.specs.Prelude.{All, IsFalse};
ghost use Rattle.std.specs.BTreeSet.{insert_key};
ghost use Rattle.std.specs.BTreeMap.{keys, Updates};
ghost use Rattle.std.specs.Ordering.{nat_cmp};
ghost use Rattle.sv_flat.specs.ByNumber.{is_branch};
ghost use Rattle.sv_flat.specs.Design.{PieceForm, FlatStatement, nothing, assign, branch};
ghost use Rattle.sv_flat.specs.Views.{typed_tree, flat_statement, flat_statements, chain_of};
ghost use Rattle.sv_flat.specs.Views.{process_form};
ghost use Rattle.sv_obl.specs.IndexedBodies.{numbers_at, AreIndexed};
ghost use Rattle.sv_obl.specs.IndexedArms.{AreArms};
ghost use Rattle.sv_obl.specs.IndexedStatements.{statement_of, targets_in, IsMarked, IsMadeOf};
ghost use Rattle.sv_obl.specs.IndexedStatements.{SoFar, ends_in, with_number, numbered, Tells};
ghost use Rattle.sv_obl.specs.Views.{piece_forms};

use std::alloc::{AllocError, Global};
use std::collections::{BTreeMap, BTreeSet};
use sv_flat::{FExpr, FStmt, Piece, Process};
use sv_num::Place;

/// An indexed statement: each part that has parts of its own tells what it assigns, so that what
/// does not assign a target is passed over at once.
#[derive(Drop)]
pub enum Indexed<'a> {
    Assign {
        pieces: &'a [Piece],
        place: Place,
        blocking: bool,
        value: &'a FExpr,
    },
    /// Parts one after the other, and for each target the numbers of those that assign it, in
    /// order.
    Block {
        parts: Vec<Indexed<'a>>,
        numbers: BTreeMap<u32, Vec<usize>>,
    },
    Branch {
        targets: BTreeSet<u32>,
        place: Place,
        cond: &'a FExpr,
        yes: Box<Indexed<'a>>,
        no: Box<Indexed<'a>>,
    },
}

/// Adds the signals of pieces.
pub fn push_pieces(pieces: &[Piece], names: &mut Vec<u32>) -> Result<(), AllocError>
    ensures { OnOk result (names.new.items ≡ names.old.items
        ++ map (λ (piece : PieceForm). piece.signal) (piece_forms pieces.now)) }
{
    for piece in pieces {
        names.push(piece.signal.0)?;
    }
    Ok(())
}

/// Adds the numbers of a set.
pub fn push_set(set: &BTreeSet<u32>, names: &mut Vec<u32>) -> Result<(), AllocError>
    ensures { OnOk result (names.new.items ≡ names.old.items ++ set.now.keys) }
{
    for number in set {
        names.push(*number)?;
    }
    Ok(())
}

// Adds the targets of a table.
fn push_keys(numbers: &BTreeMap<u32, Vec<usize>>, names: &mut Vec<u32>) -> Result<(), AllocError>
    ensures { OnOk result (names.new.items ≡ names.old.items ++ keys numbers.now) }
{
    for target in numbers.keys() {
        names.push(*target)?;
    }
    Ok(())
}

// Adds what a statement assigns.
fn push_targets(indexed: &Indexed, names: &mut Vec<u32>) -> Result<(), AllocError>
    ensures { OnOk result (names.new.items ≡ names.old.items ++ targets_in indexed.now) }
{
    match indexed {
        Indexed::Assign { pieces, .. } => push_pieces(*pieces, names),
        Indexed::Block { numbers, .. } => push_keys(numbers, names),
        Indexed::Branch { targets, .. } => push_set(targets, names),
    }
}

/// The numbers in ascending order, each once; an error where memory runs out.
pub fn set_of(alloc: Global, names: &[u32]) -> Result<BTreeSet<u32>, AllocError>
    ensures { IfOk result (λ set. set.keys ≡ fold (insert_key nat_cmp) [] names.now) }
{
    let mut set = BTreeSet::new(alloc);
    for name in names {
        set.insert(*name)?;
    }
    Ok(set)
}

// What two statements assign.
fn targets_of(alloc: Global, first: &Indexed, second: &Indexed) -> Result<BTreeSet<u32>, AllocError>
    ensures { IfOk result (λ targets. targets.keys
        ≡ fold (insert_key nat_cmp) [] (targets_in first.now ++ targets_in second.now)) }
{
    let mut names = Vec::new(alloc);
    push_targets(first, &mut names)?;
    push_targets(second, &mut names)?;
    set_of(alloc, &names)
}

// The branch of two arms.
fn branched<'a>(
    alloc: Global,
    place: Place,
    cond: &'a FExpr,
    yes: Indexed<'a>,
    no: Indexed<'a>,
) -> Result<Indexed<'a>, AllocError>
    ensures { (first second : FlatStatement) → IsMadeOf first yes.entry → IsMadeOf second no.entry
        → IfOk result (λ whole. IsMadeOf (branch place (typed_tree cond.now) first second) whole) }
{
    let targets = targets_of(alloc, &yes, &no)?;
    Ok(Indexed::Branch {
        targets,
        place,
        cond,
        yes: Box::new(alloc, yes)?,
        no: Box::new(alloc, no)?,
    })
}

// Whether the number is the last of some.
fn ends_in(numbers: &[usize], number: usize) -> bool
    ensures { result ≡ ends_in numbers.now number }
{
    !numbers.is_empty() && numbers[numbers.len() - 1] == number
}

// The numbers with one more at the end, where it is not there yet.
fn with_number(numbers: Vec<usize>, number: usize) -> Result<Vec<usize>, AllocError>
    ensures { IfOk result (λ more. more.items ≡ with_number number numbers.items) }
{
    let mut more = numbers;
    if !ends_in(&more, number) {
        more.push(number)?;
    }
    Ok(more)
}

// Takes the numbers of a target out; none where it has none.
fn take_out(numbers: &mut BTreeMap<u32, Vec<usize>>, alloc: Global, target: u32) -> Vec<usize>
    ensures those { result.items ≡ numbers_at numbers.old target }
    ensures others { Updates nat_cmp numbers.old numbers.new target None }
{
    match numbers.remove(&target) {
        Some(those) => those,
        None => Vec::new(alloc),
    }
}

// Adds the number of a part to those of a target, once.
fn add_number(
    numbers: &mut BTreeMap<u32, Vec<usize>>,
    alloc: Global,
    target: u32,
    number: usize,
) -> Result<(), AllocError>
    ensures { OnOk result ((s : ℕ) → numbers_at numbers.new s
        ≡ numbered (target ∷ []) number (numbers_at numbers.old) s) }
{
    let those = take_out(numbers, alloc, target);
    let more = with_number(those, number)?;
    numbers.insert(target, more)?;
    Ok(())
}

// Adds it to those of some targets.
fn add_numbers(
    numbers: &mut BTreeMap<u32, Vec<usize>>,
    alloc: Global,
    targets: &[u32],
    number: usize,
) -> Result<(), AllocError>
    ensures { OnOk result ((s : ℕ) → numbers_at numbers.new s
        ≡ numbered targets.now number (numbers_at numbers.old) s) }
{
    for target in targets {
        add_number(numbers, alloc, *target, number)?;
    }
    Ok(())
}

// Adds the number of a part to those of all that it assigns.
fn add_part(
    numbers: &mut BTreeMap<u32, Vec<usize>>,
    alloc: Global,
    part: &Indexed,
    number: usize,
) -> Result<(), AllocError>
    ensures { OnOk result ((s : ℕ) → numbers_at numbers.new s
        ≡ numbered (targets_in part.now) number (numbers_at numbers.old) s) }
{
    let mut targets = Vec::new(alloc);
    push_targets(part, &mut targets)?;
    add_numbers(numbers, alloc, &targets, number)
}

// For each target the numbers of the parts that assign it, in order.
fn numbers_of(alloc: Global, parts: &[Indexed]) -> Result<BTreeMap<u32, Vec<usize>>, AllocError>
    ensures { All IsMarked parts.now → IfOk result (Tells (map statement_of parts.now)) }
{
    let mut numbers = BTreeMap::new(alloc);
    for i in 0..parts.len() {
        add_part(&mut numbers, alloc, &parts[i], i)?;
    }
    Ok(numbers)
}

// The indexed assignment.
fn assigned<'a>(pieces: &'a [Piece], place: Place, blocking: bool, value: &'a FExpr) -> Indexed<'a>
    ensures { IsMadeOf (assign (piece_forms pieces.now) place blocking (typed_tree value.now))
        result }
{
    Indexed::Assign {
        pieces,
        place,
        blocking,
        value,
    }
}

/// A branch but for its second arm.
#[derive(Drop)]
pub struct FirstArm<'a> {
    pub place: Place,
    pub cond: &'a FExpr,
    pub yes: Indexed<'a>,
}

// The chain of the branches with these first arms, where the last second arm is the one given.
fn with_arms<'a>(
    alloc: Global,
    arms: Vec<FirstArm<'a>>,
    last: Indexed<'a>,
) -> Result<Indexed<'a>, AllocError>
    ensures { (rest whole : FlatStatement) → AreArms arms.entry.items rest whole
        → IsMadeOf rest last.entry → IfOk result (IsMadeOf whole) }
{
    let mut arms = arms;
    let mut rest = last;
    while let Some(arm) = arms.pop() {
        let FirstArm { place, cond, yes } = arm;
        rest = branched(alloc, place, cond, yes, rest)?;
    }
    Ok(rest)
}

/// The indexed statement; an error where memory runs out.
// No call goes down a chain of branches: a `case` may have many arms.
#[cycle(indexed)]
pub fn indexed_of<'a>(stmt: &'a FStmt, alloc: Global) -> Result<Indexed<'a>, AllocError>
    ensures { IfOk result (IsMadeOf (flat_statement stmt.now)) }
{
    let mut arms = Vec::new(alloc);
    let mut rest = stmt;
    while let FStmt::If {
        place,
        cond,
        yes,
        no,
    } = rest
    {
        let place = *place;
        let yes = indexed_of(yes, alloc)?;
        arms.push(FirstArm { place, cond, yes })?;
        rest = no;
    }
    let last = indexed_plain(rest, alloc)?;
    with_arms(alloc, arms, last)
}

// The indexed statement of one that is no branch.
#[cycle(indexed)]
fn indexed_plain<'a>(stmt: &'a FStmt, alloc: Global) -> Result<Indexed<'a>, AllocError>
    requires plain { IsFalse (is_branch (flat_statement stmt.now)) }
    ensures { IfOk result (IsMadeOf (flat_statement stmt.now)) }
{
    match stmt {
        FStmt::Assign {
            pieces,
            place,
            blocking,
            value,
        } => Ok(assigned(pieces, *place, *blocking, value)),
        FStmt::Block(stmts) => {
            let parts = indexed_parts(stmts, alloc)?;
            let numbers = numbers_of(alloc, &parts)?;
            Ok(Indexed::Block { parts, numbers })
        }
        FStmt::If { .. } => unreachable!(),
    }
}

// Those of some statements.
#[cycle(indexed)]
fn indexed_parts<'a>(stmts: &'a [FStmt], alloc: Global) -> Result<Vec<Indexed<'a>>, AllocError>
    ensures { IfOk result (λ parts. SoFar (chain_of (flat_statements stmts.now))
        nothing parts.items) }
{
    let mut parts = Vec::new(alloc);
    for stmt in stmts {
        let indexed = indexed_of(stmt, alloc)?;
        parts.push(indexed)?;
    }
    Ok(parts)
}

/// Those of the bodies of processes; an error where memory runs out.
pub fn indexed_bodies<'a>(
    alloc: Global,
    processes: &'a [Process],
) -> Result<Vec<Indexed<'a>>, AllocError>
    ensures { IfOk result (λ bodies. AreIndexed (map process_form processes.now) bodies.items) }
{
    let mut bodies = Vec::with_capacity(alloc, processes.len())?;
    for process in processes {
        let indexed = indexed_of(&process.body, alloc)?;
        bodies.push(indexed)?;
    }
    Ok(bodies)
}
