// Runs of the processes of a design, one by one, by a list and in drawn rounds; and stimuli.
ghost use Rattle.std.specs.Prelude.{◌≡◌, ◌<◌, All};
ghost use Rattle.sv_flat.specs.Schedules.{process_count};
ghost use Rattle.sv_flat.specs.Views.{design_of};

use crate::texts::design;
use std::alloc::{AllocError, Global};
use std::test::Fail;
use sv_design::Design;
use sv_event::Event;
use sv_flat::SigId;
use sv_trace::StimReader;

// Process 0 drives y by q, and process 1 drives q.
const BACKWARDS: &str = "module m(input a, output y); wire q; \
    assign y = ~q; assign q = ~a; endmodule\n";

// The values of a, y and q.
fn values_of(alloc: Global, design: &Design, event: &Event) -> Result<Vec<u64>, AllocError>
    requires { event.now.design ≡ design.now }
{
    let mut values = Vec::new(alloc);
    for signal in design.seen() {
        values.push(event.value(*signal))?;
    }
    Ok(values)
}

// Whether a list of runs, from 0 everywhere, leaves these values, and a quiet environment.
fn leaves(
    alloc: Global,
    design: &Design,
    schedule: &[usize],
    values: &[u64],
    is_quiet: bool,
) -> Result<bool, AllocError>
    requires { All (λ k. k < process_count (design_of design.now)) schedule.now }
{
    let mut event = Event::new(alloc, design)?;
    event.run_schedule(schedule);
    let left = values_of(alloc, design, &event)?;
    Ok(left.as_slice() == values && event.quiet() == is_quiet)
}

// Whether the second process alone, and then the first one, leave these values.
fn leaves_each(alloc: Global, design: &Design) -> Result<bool, AllocError>
    requires { process_count (design_of design.now) ≡ 2 }
{
    let mut event = Event::new(alloc, design)?;
    event.run_one(1);
    let first = values_of(alloc, design, &event)?;
    event.run_one(0);
    let both = values_of(alloc, design, &event)?;
    Ok(first.as_slice() == [0, 0, 1].as_slice() && both.as_slice() == [0, 0, 1].as_slice())
}

// How many rounds the drawn orders of a number take.
fn rounds(alloc: Global, design: &Design, number: u64) -> Result<u32, AllocError> {
    let mut event = Event::new(alloc, design)?;
    Ok(event.rounds(number))
}

#[test]
fn runs_in_any_order(rt: HostRuntime) -> Result<(), Fail> {
    let alloc = rt.alloc();
    let design = design(&rt, alloc, BACKWARDS)?;
    assert!(rt; design.combs() == 2, "there are two processes");
    assert!(rt; leaves(alloc, &design, &[0, 1], &[0, 1, 1], false)?);
    assert!(rt; leaves(alloc, &design, &[1, 0], &[0, 0, 1], true)?);
    assert!(rt; leaves_each(alloc, &design)?);
    Ok(())
}

#[test]
fn counts_the_rounds_of_an_order(rt: HostRuntime) -> Result<(), Fail> {
    let alloc = rt.alloc();
    let design = design(&rt, alloc, BACKWARDS)?;
    assert!(rt; rounds(alloc, &design, 0)? == 2 && rounds(alloc, &design, 1)? == 1);
    let event = Event::new(alloc, &design)?;
    assert!(rt;
        event.is_order(&[]) && !event.is_order(&[0]),
        "no process is clocked"
    );
    Ok(())
}

#[test]
fn ends_a_stimulus_once(rt: HostRuntime) -> Result<(), Fail> {
    let design = design(&rt, rt.alloc(), BACKWARDS)?;
    assert!(rt; design.clock() == None);
    let mut reader = StimReader::new(rt.alloc(), &design)?;
    assert!(rt; reader.feed(b"inputs a\n1").is_ok());
    assert!(rt; !reader.finished());
    assert!(rt; reader.finish().is_ok());
    assert!(rt; reader.finished());
    Ok(())
}
