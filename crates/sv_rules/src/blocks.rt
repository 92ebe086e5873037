// Rules 605 and 606: an `always @*` keeps nothing from one run to the next.
ghost use Rattle.std.specs.Prelude.{◌≡◌, ◌≤◌, ◌<◌, ℕ, Bool, [], ◌∷◌};
ghost use Rattle.std.specs.Prelude.{length, IfOk, OnOk, IsTrue, IsFalse};
ghost use Rattle.sv_flat.specs.Assigned.{assigns, always_assigns, can_assign};
ghost use Rattle.sv_flat.specs.Blocks.{is_latched, is_out_of_phase, latches, phase_faults};
ghost use Rattle.sv_flat.specs.ByNumber.{is_branch};
ghost use Rattle.sv_flat.specs.Design.{FlatStatement};
ghost use Rattle.sv_flat.specs.Readings.{Reading, readings, readings_of};
ghost use Rattle.sv_flat.specs.Soundness.{sound, statement_sound, well_formed};
ghost use Rattle.sv_flat.specs.Views.{design_of, typed_tree, process_form, flat_statement};
ghost use Rattle.sv_flat.specs.Views.{flat_statements, chain_of};
ghost use Rattle.sv_rules.specs.Arms.{both_of, common_bits};
ghost use Rattle.sv_graph.specs.BitSets.{in_bits, has_some};
ghost use Rattle.sv_rules.specs.First.{FindsFirst};
ghost use Rattle.sv_rules.specs.Phases.{SameBits, HasTargets, FindsReads, AddsAssigned};
ghost use Rattle.sv_rules.specs.Phases.{latches_of, latches_in, phase_faults_of, phase_faults_in};
ghost use Rattle.sv_rules.specs.ReadForms.{read_form};
ghost use Rattle.sv_rules.specs.Surroundings.{in_surrounding};

use crate::found::{Found, first_of, found_if};
use crate::names::{Read, bits_read, names_in};
use crate::pieces::add_pieces;
use crate::surroundings::Surrounding;
use std::alloc::{AllocError, Global};
use sv_flat::{FExpr, FStmt, Flat, ProcKind, Process, SigId};
use sv_graph::{BitSet, lacks, mask};
use sv_num::Place;

// Whether a read of a signal with a bit in `targets` has a bit that is not assigned yet.
fn is_wrong(flat: &Flat, targets: &BitSet, read: &Read, assigned: &Surrounding) -> bool
    requires sound { IsTrue (sound (design_of flat.now)) }
    requires known { read.now.signal.0 < length flat.now.signals.items }
    ensures { (body : FlatStatement) (reading : Reading) → HasTargets body targets.now
        → reading.name ≡ read_form read.now
        → SameBits reading.assigned (in_surrounding assigned.now)
        → result ≡ is_out_of_phase (design_of flat.now).signals body reading }
{
    let bits = bits_read(flat.signals[read.signal.0 as usize].width, read);
    targets.has(read.signal) & lacks(bits, assigned.of(read.signal))
}

// The first wrong read of an expression.
fn wrong_in(
    alloc: Global,
    flat: &Flat,
    targets: &BitSet,
    expr: &FExpr,
    assigned: &Surrounding,
) -> Result<Option<Found>, AllocError>
    requires sound { IsTrue (sound (design_of flat.now)) }
    requires formed { IsTrue (well_formed (design_of flat.now).signals (typed_tree expr.now)) }
    ensures { IfOk result (λ found. (serves : ℕ → Bool)
        → FindsReads (design_of flat.now).signals targets.now (in_surrounding assigned.now)
        (readings_of (design_of flat.now).signals (typed_tree expr.now) serves) found) }
{
    let names = names_in(alloc, flat.signals.as_slice(), expr)?;
    let mut found = None;
    for read in &names {
        let wrong = is_wrong(flat, targets, read, assigned);
        found = first_of(found, found_if(wrong, read.place, read.signal));
    }
    Ok(found)
}

// The bits of an arm that all arms before it have too, if there are any.
fn common_with(alloc: Global, before: Option<BitSet>, arm: BitSet) -> Result<BitSet, AllocError>
    ensures { IfOk result (λ both.
        SameBits (in_bits both) (both_of (common_bits before) (in_bits arm))) }
{
    match before {
        Some(before) => before.common(&arm, alloc),
        None => Ok(arm),
    }
}

// The first read of a statement of a bit that is not assigned yet, of a signal with a bit in
// `targets`, and the bits that every path through the statement assigns. No call goes down a chain
// of branches: a `case` may have many arms.
#[cycle(forward)]
fn forward(
    alloc: Global,
    flat: &Flat,
    targets: &BitSet,
    stmt: &FStmt,
    assigned: &Surrounding,
) -> Result<(Option<Found>, BitSet), AllocError>
    requires sound { IsTrue (sound (design_of flat.now)) }
    requires stmt { IsTrue
        (statement_sound (design_of flat.now).signals (flat_statement stmt.now)) }
    ensures { IfOk result (λ both.
        FindsReads (design_of flat.now).signals targets.now (in_surrounding assigned.now)
        (readings (design_of flat.now).signals (flat_statement stmt.now)) both.0
        × SameBits (in_bits both.1) (always_assigns (flat_statement stmt.now))) }
{
    let mut found = None;
    let mut common = None;
    let mut rest = stmt;
    while let FStmt::If { cond, yes, no, .. } = rest {
        let in_cond = wrong_in(alloc, flat, targets, cond, assigned)?;
        let (in_yes, by_yes) = forward(alloc, flat, targets, yes, assigned)?;
        let in_arm = first_of(in_cond, in_yes);
        found = first_of(found, in_arm);
        let more = common_with(alloc, common, by_yes)?;
        common = Some(more);
        rest = no;
    }
    let (in_last, by_last) = forward_plain(alloc, flat, targets, rest, assigned)?;
    let always = common_with(alloc, common, by_last)?;
    Ok((first_of(found, in_last), always))
}

// The same of a statement that is no branch.
#[cycle(forward)]
fn forward_plain(
    alloc: Global,
    flat: &Flat,
    targets: &BitSet,
    stmt: &FStmt,
    assigned: &Surrounding,
) -> Result<(Option<Found>, BitSet), AllocError>
    requires plain { IsFalse (is_branch (flat_statement stmt.now)) }
    requires sound { IsTrue (sound (design_of flat.now)) }
    requires stmt { IsTrue
        (statement_sound (design_of flat.now).signals (flat_statement stmt.now)) }
    ensures { IfOk result (λ both.
        FindsReads (design_of flat.now).signals targets.now (in_surrounding assigned.now)
        (readings (design_of flat.now).signals (flat_statement stmt.now)) both.0
        × SameBits (in_bits both.1) (always_assigns (flat_statement stmt.now))) }
{
    match stmt {
        FStmt::Assign { pieces, value, .. } => {
            let found = wrong_in(alloc, flat, targets, value, assigned)?;
            let mut bits = BitSet::new(alloc);
            add_pieces(&mut bits, pieces)?;
            Ok((found, bits))
        }
        FStmt::Block(stmts) => forward_all(alloc, flat, targets, stmts, assigned),
        FStmt::If { .. } => unreachable!(),
    }
}

// The same of some statements, one after the other.
#[cycle(forward)]
fn forward_all(
    alloc: Global,
    flat: &Flat,
    targets: &BitSet,
    stmts: &[FStmt],
    assigned: &Surrounding,
) -> Result<(Option<Found>, BitSet), AllocError>
    requires sound { IsTrue (sound (design_of flat.now)) }
    requires stmts { IsTrue
        (statement_sound (design_of flat.now).signals (chain_of (flat_statements stmts.now))) }
    ensures { IfOk result (λ both.
        FindsReads (design_of flat.now).signals targets.now (in_surrounding assigned.now)
        (readings (design_of flat.now).signals (chain_of (flat_statements stmts.now))) both.0
        × SameBits (in_bits both.1) (always_assigns (chain_of (flat_statements stmts.now)))) }
{
    let mut found = None;
    let mut here = BitSet::new(alloc);
    for stmt in stmts {
        let before = Surrounding::Inside(&here, &*assigned);
        let (other, bits) = forward(alloc, flat, targets, stmt, &before)?;
        found = first_of(found, other);
        here.add_all(&bits)?;
    }
    Ok((found, here))
}

// Puts the bits that a statement can assign into a set. No call goes down a chain of branches.
#[cycle(add_assigned)]
fn add_assigned(flat: &Flat, bits: &mut BitSet, stmt: &FStmt) -> Result<(), AllocError>
    requires sound { IsTrue (sound (design_of flat.now)) }
    requires stmt { IsTrue
        (statement_sound (design_of flat.now).signals (flat_statement stmt.now)) }
    ensures { OnOk result (AddsAssigned bits.old bits.new (flat_statement stmt.now)) }
{
    let mut rest = stmt;
    while let FStmt::If { yes, no, .. } = rest {
        add_assigned(flat, bits, yes)?;
        rest = no;
    }
    add_assigned_plain(flat, bits, rest)?;
    Ok(())
}

// The same of a statement that is no branch.
#[cycle(add_assigned)]
fn add_assigned_plain(flat: &Flat, bits: &mut BitSet, stmt: &FStmt) -> Result<(), AllocError>
    requires plain { IsFalse (is_branch (flat_statement stmt.now)) }
    requires sound { IsTrue (sound (design_of flat.now)) }
    requires stmt { IsTrue
        (statement_sound (design_of flat.now).signals (flat_statement stmt.now)) }
    ensures { OnOk result (AddsAssigned bits.old bits.new (flat_statement stmt.now)) }
{
    match stmt {
        FStmt::Assign { pieces, .. } => add_pieces(bits, pieces),
        FStmt::Block(stmts) => add_assigned_all(flat, bits, stmts),
        FStmt::If { .. } => unreachable!(),
    }
}

// The same of some statements.
#[cycle(add_assigned)]
fn add_assigned_all(flat: &Flat, bits: &mut BitSet, stmts: &[FStmt]) -> Result<(), AllocError>
    requires sound { IsTrue (sound (design_of flat.now)) }
    requires stmts { IsTrue
        (statement_sound (design_of flat.now).signals (chain_of (flat_statements stmts.now))) }
    ensures { OnOk result
        (AddsAssigned bits.old bits.new (chain_of (flat_statements stmts.now))) }
{
    for stmt in stmts {
        add_assigned(flat, bits, stmt)?;
    }
    Ok(())
}

// The bits that a block can assign.
fn assigned_bits(alloc: Global, flat: &Flat, body: &FStmt) -> Result<BitSet, AllocError>
    requires sound { IsTrue (sound (design_of flat.now)) }
    requires body { IsTrue
        (statement_sound (design_of flat.now).signals (flat_statement body.now)) }
    ensures { IfOk result (λ bits. SameBits (in_bits bits) (can_assign (flat_statement body.now))) }
{
    let mut bits = BitSet::new(alloc);
    add_assigned(flat, &mut bits, body)?;
    Ok(bits)
}

// Whether a block assigns a bit of the signal, and some bit of it not on every path.
fn is_latched(flat: &Flat, signal: SigId, assigned: &BitSet, always: &BitSet) -> bool
    requires sound { IsTrue (sound (design_of flat.now)) }
    ensures { (body : FlatStatement) → ((s : ℕ) → has_some assigned.now s ≡ assigns body s)
        → SameBits (in_bits always.now) (always_assigns body)
        → result ≡ is_latched (design_of flat.now).signals body signal.0 }
{
    match flat.signals.get(signal.0 as usize) {
        Some(declared) => {
            let bits = mask(declared.width - 1, 0);
            assigned.has(signal) & lacks(bits, always.of(signal))
        }
        None => false,
    }
}

// The first signal that a block keeps from one run to the next.
fn first_latch(flat: &Flat, place: Place, assigned: &BitSet, always: &BitSet) -> Option<Found>
    requires sound { IsTrue (sound (design_of flat.now)) }
    ensures { (body : FlatStatement) → IsTrue (statement_sound (design_of flat.now).signals body)
        → ((s : ℕ) → has_some assigned.now s ≡ assigns body s)
        → SameBits (in_bits always.now) (always_assigns body)
        → FindsFirst 605 (latches_of (design_of flat.now) place body) result }
{
    let mut found = None;
    for signal in assigned.masks.keys() {
        let signal = SigId(*signal);
        let latched = is_latched(flat, signal, assigned, always);
        found = first_of(found, found_if(latched, place, signal));
    }
    found
}

/// What breaks the rules 605 and 606 first.
#[derive(Clone, Copy)]
pub struct BlockFaults {
    pub latch: Option<Found>,
    pub phase: Option<Found>,
}

// What is wrong with a block.
fn block_faults(alloc: Global, flat: &Flat, process: &Process) -> Result<BlockFaults, AllocError>
    requires sound { IsTrue (sound (design_of flat.now)) }
    requires body { IsTrue
        (statement_sound (design_of flat.now).signals (flat_statement process.now.body)) }
    ensures { IfOk result (λ faults.
        FindsFirst 605 (latches_of (design_of flat.now) process.now.place
        (flat_statement process.now.body)) faults.latch
        × FindsFirst 606 (phase_faults_of (design_of flat.now) (flat_statement process.now.body))
        faults.phase) }
{
    let nothing = Surrounding::Nothing;
    let assigned = assigned_bits(alloc, flat, &process.body)?;
    let (phase, always) = forward(alloc, flat, &assigned, &process.body, &nothing)?;
    let latch = first_latch(flat, process.place, &assigned, &always);
    Ok(BlockFaults { latch, phase })
}

// What is wrong with a process, where it is a block.
fn process_faults(alloc: Global, flat: &Flat, process: &Process) -> Result<BlockFaults, AllocError>
    requires sound { IsTrue (sound (design_of flat.now)) }
    requires body { IsTrue
        (statement_sound (design_of flat.now).signals (flat_statement process.now.body)) }
    ensures { IfOk result (λ faults.
        FindsFirst 605 (latches_in (design_of flat.now) (process_form process.now ∷ []))
        faults.latch
        × FindsFirst 606 (phase_faults_in (design_of flat.now) (process_form process.now ∷ []))
        faults.phase) }
{
    if process.kind == ProcKind::Comb {
        block_faults(alloc, flat, process)
    } else {
        Ok(BlockFaults {
            latch: None,
            phase: None,
        })
    }
}

/// The first block that breaks rule 605, and the first read that breaks rule 606.
pub fn first_block_faults(alloc: Global, flat: &Flat) -> Result<BlockFaults, AllocError>
    requires { IsTrue (sound (design_of flat.now)) }
    ensures { IfOk result (λ faults.
        FindsFirst 605 (latches (design_of flat.now)) faults.latch
        × FindsFirst 606 (phase_faults (design_of flat.now)) faults.phase) }
{
    let mut latch = None;
    let mut phase = None;
    for process in &flat.processes {
        let faults = process_faults(alloc, flat, process)?;
        latch = first_of(latch, faults.latch);
        phase = first_of(phase, faults.phase);
    }
    Ok(BlockFaults { latch, phase })
}
