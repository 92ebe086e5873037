// The rules 601 to 606, one after the other.
ghost use Rattle.std.specs.Prelude.{◌≡◌, [], IsTrue, IfOk, OnOk, IfErr};
ghost use Rattle.sv_flat.specs.Admission.{breaches};
ghost use Rattle.sv_flat.specs.Soundness.{sound};
ghost use Rattle.sv_flat.specs.Views.{design_of};
ghost use Rattle.sv_rules.specs.DriverTables.{AreClocks, AreDriversOf};
ghost use Rattle.sv_rules.specs.Faults.{IsFaultOf};
ghost use Rattle.sv_rules.specs.Refusals.{driving_breaches};

use crate::assignments::first_wrong_assign;
use crate::blocks::first_block_faults;
use crate::clock_rule::first_wrong_clock;
use crate::clocks::clock_table;
use crate::drivers::{Drivers, drivers_of, first_extra_driver, first_undriven};
use crate::refusals::refuse;
use std::alloc::Global;
use sv_flat::Flat;
use sv_num::{Fault, Rule};

/// For each signal whether it is a clock, and the processes that assign it.
#[derive(Drop)]
pub struct Driven {
    pub clocks: Vec<bool>,
    pub drivers: Drivers,
}

/// The clocks and drivers of a design that breaks none of the rules 601 to 604, or the fault of the
/// first of them that it breaks. Memory may run out instead.
pub fn check_drivers(alloc: Global, flat: &Flat) -> Result<Driven, Fault>
    requires { IsTrue (sound (design_of flat.now)) }
    ensures clocks { IfOk result (λ driven. AreClocks (design_of flat.now) driven.clocks.items) }
    ensures drivers { IfOk result (λ driven. AreDriversOf (design_of flat.now) driven.drivers) }
    ensures unbroken { OnOk result (driving_breaches (design_of flat.now) ≡ []) }
    ensures refused { IfErr result (IsFaultOf (design_of flat.now)) }
{
    let assign = first_wrong_assign(alloc, flat)?;
    refuse(alloc, flat, Rule::WrongAssign, assign)?;
    let clocks = clock_table(alloc, flat)?;
    let clock = first_wrong_clock(alloc, flat, &clocks)?;
    refuse(alloc, flat, Rule::Clock, clock)?;
    let drivers = drivers_of(alloc, flat, &clocks)?;
    let extra = first_extra_driver(flat, &drivers);
    let lacking = first_undriven(flat, &clocks, &drivers);
    refuse(alloc, flat, Rule::Drivers, extra)?;
    refuse(alloc, flat, Rule::Undriven, lacking)?;
    Ok(Driven { clocks, drivers })
}

/// Whether the blocks keep nothing from one run to the next: the rules 605 and 606, of a design
/// that breaks none before them. Else the fault of the first of them that it breaks; memory may run
/// out instead.
pub fn check_blocks(alloc: Global, flat: &Flat) -> Result<(), Fault>
    requires sound { IsTrue (sound (design_of flat.now)) }
    requires unbroken { driving_breaches (design_of flat.now) ≡ [] }
    ensures unbroken { OnOk result (breaches (design_of flat.now) ≡ []) }
    ensures refused { IfErr result (IsFaultOf (design_of flat.now)) }
{
    let faults = first_block_faults(alloc, flat)?;
    refuse(alloc, flat, Rule::Latch, faults.latch)?;
    refuse(alloc, flat, Rule::Phase, faults.phase)?;
    Ok(())
}
