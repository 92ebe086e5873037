// What a level sees of a run.
ghost use Rattle.std.specs.Prelude.{◌<◌, length};

use crate::texts::design;
use std::alloc::Global;
use std::process::Abort;
use std::test::Fail;
use sv_design::Design;
use sv_flat::SigId;
use sv_lattice::Point;
use sv_sim::Sim;
use sv_tworun::{View, same_view, view};

/// The output shows the public or the secret input in turns, and its label tells which.
pub const TURNS: &str = "labelmap D [0:0] 0: L; default: H; endlabelmap\n\
    module top(input turn, input a, input {H} b, output {D(turn)} y);\n  \
    assign y = turn ? b : a;\n\
    endmodule\n";

// What the level sees of the design with these inputs.
fn view_with(
    rt: &impl Abort,
    alloc: Global,
    design: &Design,
    inputs: &[u64],
    level: Point,
) -> Result<View, Fail>
    requires { level.0 < length design.now.lattice }
{
    let mut sim = Sim::new(alloc, design)?;
    assert!(rt; !sim.settled());
    assert!(rt; sim.fits(&[], inputs), "the inputs fit");
    sim.settle(inputs);
    assert!(rt; sim.settled());
    Ok(view(alloc, &sim, level)?)
}

// Whether the public level sees these values with these inputs.
fn shows(
    rt: &impl Abort,
    alloc: Global,
    design: &Design,
    inputs: &[u64],
    values: &[(SigId, u64)],
) -> Result<bool, Fail>
    requires { 0 < length design.now.lattice }
{
    let seen = view_with(rt, alloc, design, inputs, Point(0))?;
    Ok(seen.pairs.as_slice() == values)
}

// Whether the level tells inputs apart of which the secret one alone differs.
fn tells_apart(rt: &impl Abort, alloc: Global, design: &Design, level: Point) -> Result<bool, Fail>
    requires { level.0 < length design.now.lattice }
{
    let first = view_with(rt, alloc, design, &[0, 1, 1], level)?;
    let second = view_with(rt, alloc, design, &[0, 1, 0], level)?;
    Ok(!same_view(&first, &second))
}

#[test]
fn sees_what_labels_show(rt: HostRuntime) -> Result<(), Fail> {
    let design = design(&rt, rt.alloc(), TURNS)?;
    assert!(rt; design.lattice().size() == 2, "L and H are points");
    let turn = [(SigId(0), 0), (SigId(1), 1), (SigId(3), 1)];
    assert!(rt; shows(&rt, rt.alloc(), &design, &[0, 1, 1], turn.as_slice())?);
    assert!(rt;
        !tells_apart(&rt, rt.alloc(), &design, Point(0))?,
        "the other secret does not show"
    );
    assert!(rt;
        tells_apart(&rt, rt.alloc(), &design, Point(1))?,
        "H sees it"
    );
    Ok(())
}
