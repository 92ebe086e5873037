// The list of a design's obligations, with the line of each.
use crate::texts::design;
use std::alloc::Global;
use std::test::Fail;
use sv_design::Design;
use sv_flat::SigId;
use sv_paths::{OblFault, list_line, obligations};

// A register whose selector is secret, held on one path.
const HELD: &str = "labelmap D [0:0] 0: L; default: H; endlabelmap\n\
    module m(input clk, input {H} i, output reg {H} s, output reg {D(s)} q);\n  \
    always @(posedge clk) begin s <= i; if (i) q <= 1; end\n\
    endmodule\n";

const HELD_LINES: &[u8] = b"1 s next =3:31 reads i\n\
    2 q next +3:39 =3:46 reads i\n\
    3 q next -3:39 hold reads i q\n\
    4 q now selector reads s\n";

// The lines of a design.
#[tactic(auto, using(crate::proofs::QueryFacts::placed_at))]
fn lines(alloc: Global, design: &Design) -> Result<Vec<u8>, OblFault> {
    let queries = obligations(alloc, design)?;
    let mut lines = Vec::new(alloc);
    let mut number = 0_u32;
    for query in &queries {
        number = number.saturating_add(1);
        let line = list_line(alloc, design, number, query)?;
        lines.extend_from_slice(line.as_slice())?;
    }
    Ok(lines)
}

#[test]
fn lists_obligations(rt: HostRuntime) -> Result<(), Fail> {
    let design = design(&rt, rt.alloc(), HELD)?;
    assert!(rt; design.clock() == Some(SigId(0)));
    assert!(rt;
        design.signals().len() == 4,
        "the signals are clk, i, s and q"
    );
    assert!(rt; design.is_clock(SigId(0)) && !design.is_clock(SigId(1)));
    let lines = lines(rt.alloc(), &design)?;
    assert!(rt; lines.as_slice() == HELD_LINES);
    Ok(())
}
