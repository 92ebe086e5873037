//! Cycle systems: what settled, next, trace, view and look-alike mean, said once for every kind of
//! signal name.
//!
//! A system knows of a process only that it changes an environment, and of a signal that it has a
//! value and a label. This crate stands on std alone. It has no program code: the layers above
//! describe a source text and a flat design each as a system, supply the facts on it, and get
//! theorems back, which this file states. `specs/System.antt` has the sentences, `specs/Facts.antt`
//! the facts for one system, `specs/Joining.antt` what it is that two systems do the same, and
//! `specs/Schedules.antt` the orders in which processes may run. None is private.
#![tactic(auto)]

ghost use Rattle.sv_system.specs.System.{System, Noninterferent, HasOneTrace};
ghost use Rattle.sv_system.specs.Facts.{Guarded, Ordered};
ghost use Rattle.sv_system.specs.Joining.{Joined};
ghost use Rattle.sv_system.specs.Schedules.{RestIsSettled, RoundsSettle, Scheduled};

/// Where every use is guarded by the labels, and each signal is determined by what it uses, no
/// level learns more than it may: two traces that look alike to it have equal views for it.
pub fn guarded_means_noninterferent<Signal, Point>()
    ensures { (system : System Signal Point) → Guarded system → Noninterferent system }
{}

/// Where the combinational signals can be put in an order in which each value hangs on inputs,
/// registers and earlier ones alone, each start and each list of inputs has exactly one trace.
pub fn ordered_means_one_trace<Signal, Point>()
    ensures { (system : System Signal Point) → Ordered system → HasOneTrace system }
{}

/// Where two systems are joined, and no level learns more than it may in the first, none does in
/// the second.
pub fn joined_carries_noninterference<Signal, Point, Other, OtherPoint>()
    ensures { (first : System Signal Point) → (second : System Other OtherPoint)
        → Joined first second
        → Noninterferent first → Noninterferent second }
{}

/// Where two systems are joined, and the first has exactly one trace for each start and each list
/// of inputs, so has the second.
pub fn joined_carries_one_trace<Signal, Point, Other, OtherPoint>()
    ensures { (first : System Signal Point) → (second : System Other OtherPoint)
        → Joined first second
        → HasOneTrace first → HasOneTrace second }
{}

/// Where each process changes its own targets, from what is lower: whatever runs in whatever order
/// from a fitting environment, once no process would change anything, the environment is the one
/// settled one of its registers and inputs.
pub fn scheduled_rest_is_settled<Signal, Point>()
    ensures { (system : System Signal Point) → Ordered system → Scheduled system →
        RestIsSettled system }
{}

/// There, rounds lead to that settled environment, once there are as many of them as combinational
/// signals.
pub fn scheduled_rounds_settle<Signal, Point>()
    ensures { (system : System Signal Point) → Ordered system → Scheduled system →
        RoundsSettle system }
{}
