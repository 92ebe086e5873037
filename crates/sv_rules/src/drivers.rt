// Drivers, and the rules 603 and 604.
ghost use Rattle.std.specs.Prelude.{map, not, ◌&&◌, is_none, if◌then◌else◌, [], ◌∷◌, ◌++◌, List};
ghost use Rattle.std.specs.Prelude.{option_map, ◌≤◌, ◌+◌, ◌-◌, ◌^◌, ◌≡◌, ◌<◌, ◌==◌, length, IfOk};
ghost use Rattle.std.specs.Prelude.{IsTrue};
ghost use Rattle.sv_flat.specs.Design.{ProcessForm, FlatDesign};
ghost use Rattle.sv_flat.specs.Processes.{signal_numbers};
ghost use Rattle.sv_flat.specs.SignalLists.{driver_of};
ghost use Rattle.sv_flat.specs.Views.{design_of, process_form, flat_statement, flat_statements};
ghost use Rattle.sv_flat.specs.Views.{chain_of};
ghost use Rattle.sv_flat.specs.Soundness.{sound, process_sound};
ghost use Rattle.sv_flat.specs.Assigned.{assigns};
ghost use Rattle.sv_flat.specs.Clocks.{is_clock_link};
ghost use Rattle.sv_flat.specs.Drivers.{driver_faults, undriven};
ghost use Rattle.std.specs.List.{cons_option};
ghost use Rattle.sv_flat.specs.Breaches.{breach};
ghost use Rattle.std.specs.List.{list_any, list_all};
ghost use Rattle.sv_rules.specs.Pieces.{piece_forms};
ghost use Rattle.sv_rules.specs.First.{FindsFirst};
ghost use Rattle.sv_rules.specs.DriverTables.{AreDrivers, AreBelow, AreClocks, AreDriversOf};
ghost use Rattle.sv_rules.specs.DriverTables.{entries, kept_of, AreTargets, IsSoundOver};
ghost use Rattle.sv_rules.specs.DriverTables.{assigned_in, Notes, noted};

use crate::clocks::{is_clock_link, is_top};
use crate::found::{Found, first_of, found_if};
use std::alloc::{AllocError, Global};
use sv_flat::{FStmt, Flat, Piece, Process, SigId};
use sv_num::Place;

/// A process that assigns a signal: its number among the processes, links to clocks left out, and
/// its place.
#[derive(Clone, Copy)]
pub struct Driver {
    pub process: usize,
    pub place: Place,
}

/// For each signal, the first and the second process that assigns it.
#[derive(Drop)]
pub struct Drivers {
    pub first: Vec<Option<Driver>>,
    pub second: Vec<Option<Driver>>,
}

// The first two drivers of a signal once it has this one too.
fn with_driver(
    first: Option<Driver>,
    second: Option<Driver>,
    driver: Driver,
) -> (Option<Driver>, Option<Driver>)
    ensures { result ≡ noted first second driver }
{
    match (first, second) {
        (None, second) => (Some(driver), second),
        (Some(first), Some(second)) => (Some(first), Some(second)),
        (Some(first), None) => (
            Some(first),
            if first.process == driver.process {
                None
            } else {
                Some(driver)
            },
        ),
    }
}

// Notes that a process assigns a signal.
fn note(drivers: &mut Drivers, signal: SigId, driver: Driver)
    requires first { signal.0 < length drivers.old.first.items }
    requires second { signal.0 < length drivers.old.second.items }
    ensures first { length drivers.new.first.items ≡ length drivers.old.first.items }
    ensures second { length drivers.new.second.items ≡ length drivers.old.second.items }
    ensures notes { Notes (length drivers.old.first.items) driver drivers.old drivers.new (λ s.
        signal.0 == s) }
{
    let s = signal.0 as usize;
    let (first, second) = with_driver(drivers.first[s], drivers.second[s], driver);
    drivers.first[s] = first;
    drivers.second[s] = second;
}

// Notes the signals of pieces.
fn note_pieces(drivers: &mut Drivers, pieces: &[Piece], driver: Driver)
    requires first { AreTargets (length drivers.old.first.items) (piece_forms pieces.now) }
    requires second { length drivers.old.second.items ≡ length drivers.old.first.items }
    ensures first { length drivers.new.first.items ≡ length drivers.old.first.items }
    ensures second { length drivers.new.second.items ≡ length drivers.old.first.items }
    ensures notes { Notes (length drivers.old.first.items) driver drivers.old drivers.new
        (assigned_in (piece_forms pieces.now)) }
{
    for piece in pieces {
        note(drivers, piece.signal, driver);
    }
}

// Notes the signals that a statement of a process assigns.
#[cycle(note_targets)]
fn note_targets(drivers: &mut Drivers, stmt: &FStmt, driver: Driver)
    requires stmt { IsSoundOver (length drivers.old.first.items) (flat_statement stmt.now) }
    requires second { length drivers.old.second.items ≡ length drivers.old.first.items }
    ensures first { length drivers.new.first.items ≡ length drivers.old.first.items }
    ensures second { length drivers.new.second.items ≡ length drivers.old.first.items }
    ensures notes { Notes (length drivers.old.first.items) driver drivers.old drivers.new
        (assigns (flat_statement stmt.now)) }
{
    match stmt {
        FStmt::Assign { pieces, .. } => note_pieces(drivers, pieces, driver),
        FStmt::Block(stmts) => note_all(drivers, stmts, driver),
        FStmt::If { yes, no, .. } => {
            note_targets(drivers, yes, driver);
            note_targets(drivers, no, driver);
        }
    }
}

#[cycle(note_targets)]
fn note_all(drivers: &mut Drivers, stmts: &[FStmt], driver: Driver)
    requires stmts { IsSoundOver (length drivers.old.first.items)
        (chain_of (flat_statements stmts.now)) }
    requires second { length drivers.old.second.items ≡ length drivers.old.first.items }
    ensures first { length drivers.new.first.items ≡ length drivers.old.first.items }
    ensures second { length drivers.new.second.items ≡ length drivers.old.first.items }
    ensures notes { Notes (length drivers.old.first.items) driver drivers.old drivers.new
        (assigns (chain_of (flat_statements stmts.now))) }
{
    for stmt in stmts {
        note_targets(drivers, stmt, driver);
    }
}

// Notes the signals of a process that is no link to a clock, and counts it.
fn note_process(
    flat: &Flat,
    clocks: &[bool],
    process: &Process,
    drivers: &mut Drivers,
    kept: usize,
) -> usize
    requires sound { IsTrue (process_sound (design_of flat.now) (process_form process.now)) }
    requires clocks { AreClocks (design_of flat.now) clocks.now }
    requires first { length drivers.old.first.items ≡ length flat.now.signals.items }
    requires second { length drivers.old.second.items ≡ length flat.now.signals.items }
    requires few { kept < 2 ^ 64 - 1 }
    ensures first { length drivers.new.first.items ≡ length flat.now.signals.items }
    ensures second { length drivers.new.second.items ≡ length flat.now.signals.items }
    ensures counted { result ≤ kept + 1 }
    ensures drivers { (ps : List ProcessForm) → length ps ≡ kept
        → AreDrivers (length flat.now.signals.items) drivers.old (entries 0 ps)
        → let more = ps ++ kept_of (design_of flat.now) (process_form process.now ∷ []) in
        (length more ≡ result)
        × AreDrivers (length flat.now.signals.items) drivers.new (entries 0 more) }
{
    if is_clock_link(flat, process, clocks) {
        return kept;
    }
    let driver = Driver {
        process: kept,
        place: process.place,
    };
    note_targets(drivers, &process.body, driver);
    kept + 1
}

/// The drivers of the signals, where a table tells which signals are clocks.
pub fn drivers_of(alloc: Global, flat: &Flat, clocks: &[bool]) -> Result<Drivers, AllocError>
    requires sound { IsTrue (sound (design_of flat.now)) }
    requires clocks { AreClocks (design_of flat.now) clocks.now }
    ensures { IfOk result (AreDriversOf (design_of flat.now)) }
{
    let count = flat.signals.len();
    let mut drivers = Drivers {
        first: vec![in alloc; None; count]?,
        second: vec![in alloc; None; count]?,
    };
    let mut kept = 0;
    for process in &flat.processes {
        kept = note_process(flat, clocks, process, &mut drivers, kept);
    }
    Ok(drivers)
}

// The first driver of an input of the top module, or the second of another signal.
fn extra_of(is_top: bool, first: Option<Driver>, second: Option<Driver>) -> Option<Driver>
    ensures { result ≡ (if is_top then first else second) }
{
    if is_top { first } else { second }
}

// Where a signal has an extra driver.
fn extra_at(extra: Option<Driver>, signal: SigId) -> Option<Found>
    ensures { FindsFirst 603 (cons_option (option_map (λ d. breach 603 d.place signal.0) extra) [])
        result }
{
    match extra {
        Some(driver) => found_if(true, driver.place, signal),
        None => None,
    }
}

/// The first process that breaks rule 603.
pub fn first_extra_driver(flat: &Flat, drivers: &Drivers) -> Option<Found>
    requires sound { IsTrue (sound (design_of flat.now)) }
    requires drivers { AreDriversOf (design_of flat.now) drivers.now }
    ensures { FindsFirst 603 (driver_faults (design_of flat.now)) result }
{
    let first = drivers.first.as_slice();
    let second = drivers.second.as_slice();
    let mut found = None;
    for (i, signal) in flat.signals.iter().enumerate() {
        let extra = extra_of(is_top(signal.kind), first[i], second[i]);
        found = first_of(found, extra_at(extra, SigId(i as u32)));
    }
    found
}

// Whether a signal that is no input of the top module and no clock has no driver.
fn lacks_driver(is_top: bool, is_clock: bool, first: Option<Driver>) -> bool
    ensures { result ≡ (not is_top && not is_clock && is_none first) }
{
    !is_top && !is_clock && first.is_none()
}

/// The first signal that breaks rule 604.
pub fn first_undriven(flat: &Flat, clocks: &[bool], drivers: &Drivers) -> Option<Found>
    requires sound { IsTrue (sound (design_of flat.now)) }
    requires clocks { AreClocks (design_of flat.now) clocks.now }
    requires drivers { AreDriversOf (design_of flat.now) drivers.now }
    ensures { FindsFirst 604 (undriven (design_of flat.now)) result }
{
    let first = drivers.first.as_slice();
    let mut found = None;
    for (i, signal) in flat.signals.iter().enumerate() {
        let undriven = lacks_driver(is_top(signal.kind), clocks[i], first[i]);
        found = first_of(found, found_if(undriven, signal.place, SigId(i as u32)));
    }
    found
}

// The number of a driver.
fn number_of(driver: Option<Driver>) -> Option<usize>
    ensures { result ≡ option_map (λ d. d.process) driver }
{
    driver.map(|driver| driver.process)
}

/// For each signal, the number of its first driver.
pub fn driver_numbers(alloc: Global, drivers: &Drivers) -> Result<Vec<Option<usize>>, AllocError>
    ensures { IfOk result (λ numbers. (design : FlatDesign) → AreDriversOf design drivers.now
        → numbers.items ≡ map (driver_of design) (signal_numbers design)) }
{
    let first = drivers.first.as_slice();
    let mut numbers = Vec::with_capacity(alloc, first.len())?;
    for i in 0..first.len() {
        numbers.push(number_of(first[i]))?;
    }
    Ok(numbers)
}
