// Whether a flat design breaks a rule, and what is worked out of it where it does not.
ghost use Rattle.std.specs.Prelude.{◌≡◌, Bool, [], length, map, count_by, IsTrue, IfOk, OnOk};
ghost use Rattle.std.specs.Prelude.{IfErr};
ghost use Rattle.sv_flat.specs.Admission.{breaches, IsAdmitted};
ghost use Rattle.sv_flat.specs.Clocks.{processes_of};
ghost use Rattle.sv_flat.specs.Drivers.{driver_faults};
ghost use Rattle.sv_flat.specs.Processes.{is_register};
ghost use Rattle.sv_flat.specs.Reads.{order as order_of};
ghost use Rattle.sv_flat.specs.Soundness.{sound};
ghost use Rattle.sv_flat.specs.Views.{design_of, process_form};
ghost use Rattle.sv_rules.specs.DriverTables.{AreClocks, AreDriversOf};
ghost use Rattle.sv_rules.specs.Faults.{IsFaultOf};
ghost use Rattle.sv_design.specs.Feeds.{AreWants};
ghost use Rattle.sv_graph.specs.Marks.{IsTable};
ghost use Rattle.sv_design.specs.Numbers.{numbers};
ghost use Rattle.sv_design.specs.Orders.{AreReads, IsLongestOrder, IsWholeOrder};
ghost use Rattle.sv_design.specs.Tables.{AreTables};

use crate::depths::by_depth;
use crate::design::Design;
use crate::loops::first_circle;
use crate::orders::{SignalReads, read_order, reads_table};
use crate::processes::kept_processes;
use crate::reads::{ReadGraphs, reads_of};
use crate::registers::{clocked_count, comb_table, register_table};
use crate::signal_lists::{inputs_of, registers_of, seen_of, top_clock};
use crate::tables::Tables;
use std::alloc::{AllocError, Global};
use sv_flat::{Flat, Process, SigId};
use sv_graph::Graph;
use sv_num::{Fault, Rule};
use sv_rules::{Driven, check_blocks, check_drivers, driver_numbers, refusal};

// What is read for each signal of a design whose signals have one driver each, and of which an
// earlier value.
fn read_tables(
    alloc: Global,
    flat: &Flat,
    clocks: &[bool],
    processes: &[Process],
    registers: &[bool],
) -> Result<(SignalReads, Graph), AllocError>
    requires sound { IsTrue (sound (design_of flat.now)) }
    requires clocks { AreClocks (design_of flat.now) clocks.now }
    requires processes { map process_form processes.now ≡ processes_of (design_of flat.now) }
    requires registers { IsTable (length flat.now.signals.items) registers.now
        (is_register (design_of flat.now)) }
    requires drivers { driver_faults (design_of flat.now) ≡ [] }
    ensures reads { IfOk result (λ both. AreReads (design_of flat.now) both.0) }
    ensures wants { IfOk result (λ both. AreWants (design_of flat.now) both.1) }
{
    let combs = comb_table(alloc, flat, clocks, registers)?;
    let ReadGraphs { reads, wants } = reads_of(alloc, flat, processes, registers)?;
    let tables = reads_table(alloc, combs, reads)?;
    Ok((tables, wants))
}

// How many signals are combinational.
fn comb_count(combs: &[bool]) -> usize
    ensures { result ≡ count_by (λ (b : Bool). b) combs.now }
{
    combs.iter().filter(|is_comb| **is_comb).count()
}

// Whether a longest order has all combinational signals: else there is a circle, and its fault.
fn check_order(
    alloc: Global,
    flat: &Flat,
    reads: &SignalReads,
    order: &[SigId],
) -> Result<(), Fault>
    requires sound { IsTrue (sound (design_of flat.now)) }
    requires reads { AreReads (design_of flat.now) reads.now }
    requires unbroken { breaches (design_of flat.now) ≡ [] }
    requires longest { IsLongestOrder (design_of flat.now) (numbers order.now) }
    ensures whole { OnOk result (IsWholeOrder (design_of flat.now) (numbers order.now)) }
    ensures refused { IfErr result (IsFaultOf (design_of flat.now)) }
{
    if order.len() >= comb_count(&reads.combs) {
        return Ok(());
    }
    let circle = first_circle(alloc, flat, reads)?;
    match circle {
        Some(found) => {
            let signals = found.signals.as_slice();
            Err(refusal(alloc, flat, Rule::Loop, found.first.place, signals))
        }
        None => Ok(()),
    }
}

// The combinational signals by depth, or the fault of the first circle.
fn ordered(alloc: Global, flat: &Flat, reads: &SignalReads) -> Result<Vec<SigId>, Fault>
    requires sound { IsTrue (sound (design_of flat.now)) }
    requires reads { AreReads (design_of flat.now) reads.now }
    requires unbroken { breaches (design_of flat.now) ≡ [] }
    ensures order { IfOk result (λ order. numbers order.items ≡ order_of (design_of flat.now)) }
    ensures admitted { OnOk result (IsAdmitted (design_of flat.now)) }
    ensures refused { IfErr result (IsFaultOf (design_of flat.now)) }
{
    let found = read_order(alloc, reads)?;
    let longest = found.as_slice();
    check_order(alloc, flat, reads, longest)?;
    let order = by_depth(alloc, reads, longest)?;
    Ok(order)
}

// The tables of a design that breaks none of the rules 601 to 606, or the fault of the first
// circle.
fn collected(alloc: Global, flat: &Flat, driven: Driven) -> Result<Tables, Fault>
    requires sound { IsTrue (sound (design_of flat.now)) }
    requires clocks { AreClocks (design_of flat.now) driven.clocks.items }
    requires drivers { AreDriversOf (design_of flat.now) driven.drivers }
    requires unbroken { breaches (design_of flat.now) ≡ [] }
    ensures tables { IfOk result (AreTables (design_of flat.now)) }
    ensures admitted { OnOk result (IsAdmitted (design_of flat.now)) }
    ensures refused { IfErr result (IsFaultOf (design_of flat.now)) }
{
    let Driven { clocks, drivers } = driven;
    let in_registers = register_table(alloc, flat)?;
    let processes = kept_processes(alloc, flat, &clocks)?;
    let (reads, wants) = read_tables(alloc, flat, &clocks, &processes, &in_registers)?;
    let order = ordered(alloc, flat, &reads)?;
    let clock = top_clock(flat, &clocks);
    let seen = seen_of(alloc, flat, &clocks)?;
    let inputs = inputs_of(alloc, flat, &clocks)?;
    let registers = registers_of(alloc, flat, &in_registers)?;
    let drivers = driver_numbers(alloc, &drivers)?;
    let clocked = clocked_count(&processes);
    let combs = processes.len() - clocked;
    Ok(Tables {
        processes,
        clock,
        clocks,
        seen,
        inputs,
        registers,
        order,
        combs,
        clocked,
        drivers,
        reads: reads.reads.rows,
        wants,
    })
}

// The tables of a design, or the fault of the first rule that it breaks.
fn tables_of(alloc: Global, flat: &Flat) -> Result<Tables, Fault>
    requires sound { IsTrue (sound (design_of flat.now)) }
    ensures tables { IfOk result (AreTables (design_of flat.now)) }
    ensures admitted { OnOk result (IsAdmitted (design_of flat.now)) }
    ensures refused { IfErr result (IsFaultOf (design_of flat.now)) }
{
    let driven = check_drivers(alloc, flat)?;
    check_blocks(alloc, flat)?;
    let tables = collected(alloc, flat, driven)?;
    Ok(tables)
}

impl Design {
    /// The design, where it breaks none of the rules 601 to 607. Otherwise the flat design comes
    /// back unchanged, with the first rule that it breaks: by number, then by place, then by the
    /// lower signal. Memory may run out instead.
    pub fn admit(alloc: Global, flat: Flat) -> Result<Design, (Flat, Fault)>
        requires { IsTrue (sound (design_of flat)) }
        ensures admitted { IfOk result (λ design. design ≡ flat) }
        ensures unbroken { OnOk result (IsAdmitted (design_of flat)) }
        ensures unchanged { IfErr result (λ refused. refused.0 ≡ flat) }
        ensures refused { IfErr result (λ refused. IsFaultOf (design_of flat) refused.1) }
    {
        match tables_of(alloc, &flat) {
            Ok(tables) => Ok(Design { flat, tables }),
            Err(fault) => Err((flat, fault)),
        }
    }
}
