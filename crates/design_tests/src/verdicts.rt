// What is decided of an obligation, and the texts of verdicts.
ghost use Rattle.sv_flat.specs.Views.{design_of};
ghost use Rattle.sv_obl.specs.DesignQueries.{IsQueryOf};
ghost use Rattle.sv_obl.specs.Views.{obligation_of};

use crate::texts::design;
use std::alloc::Global;
use std::test::Fail;
use sv_decide::{Decided, decide, falsifies};
use sv_design::Design;
use sv_obl::Query;
use sv_paths::obligations;
use sv_report::{Verdict, verdict_json, verdict_text};
use sv_sim::Sim;

// The output shows the secret input in the cycles in which its label is public.
const SHOWN: &str = "labelmap Dom [0:0] 0: L; default: H; endlabelmap\n\
    module top(input turn, input a, input {H} b, output {Dom(turn)} y);\n  \
    assign y = turn ? a : b;\n\
    endmodule\n";

// Whether zeros are found to falsify an obligation, and do.
fn fails_at_zeros(alloc: Global, design: &Design, query: &Query) -> Result<bool, Fail>
    requires { IsQueryOf (design_of design.now) (obligation_of query.now) }
{
    let Decided::Fails(values) = decide(alloc, design, query, 20_000)? else {
        return Ok(false);
    };
    let mut sim = Sim::new(alloc, design)?;
    Ok(values.inputs.as_slice() == [0, 0, 0].as_slice() && falsifies(&mut sim, query, &values))
}

// Whether the second obligation alone fails.
fn second_fails(alloc: Global, design: &Design) -> Result<bool, Fail> {
    let queries = obligations(alloc, design)?;
    let [first, second] = queries.as_slice() else {
        return Ok(false);
    };
    Ok(!fails_at_zeros(alloc, design, first)? && fails_at_zeros(alloc, design, second)?)
}

#[test]
fn decides(rt: HostRuntime) -> Result<(), Fail> {
    let design = design(&rt, rt.alloc(), SHOWN)?;
    assert!(rt; second_fails(rt.alloc(), &design)?);
    Ok(())
}

#[test]
fn tells_verdicts(rt: HostRuntime) -> Result<(), Fail> {
    let verdict = Verdict::Unknown {
        obligation: 2,
        budget: 1,
    };
    let text = verdict_text(rt.alloc(), None, None, &verdict)?;
    assert!(rt; text.as_slice() == b"unknown obligation 2 budget 1\n".as_slice());
    let json = verdict_json(rt.alloc(), None, None, &verdict)?;
    let want = b"{\"budget\":1,\"obligation\":2,\"verdict\":\"unknown\"}\n";
    assert!(rt; json.as_slice() == want.as_slice());
    Ok(())
}
