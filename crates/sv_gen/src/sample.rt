// The text of a sample.
ghost use Rattle.std.specs.Prelude.{◌≡◌, ◌≤◌, ◌++◌, length, IfOk, IsErrOf, OnOk};
ghost use Rattle.sv_gen.specs.Sample.{HasLanes, sample_text, head, foot, port_line};
ghost use Rattle.sv_gen.specs.Sample.{lane_line, bin_of, line_of, lines_below};

use crate::faults::GenFault;
use std::alloc::{AllocError, Global};

// The most lanes of a sample.
const MOST_LANES: u32 = 200;

// What stands before the ports of the lanes.
const HEAD: &str = "labelmap Dom [0:0] 0: L; default: H; endlabelmap
module lane(input clk, input turn, input req, input bin, input [7:0] {Dom(turn)} d,
  output reg g, output reg [7:0] lo, output reg [7:0] {H} hi, output bout);
  assign bout = bin | req;
  always @(posedge clk) begin
    g <= req & ~bin & ~turn;
    if (turn) hi <= d; else lo <= d;
  end
endmodule
module top(input clk, input turn
";

// What stands behind them.
const FOOT: &str = "endmodule\n";

// A line that each lane has.
#[derive(Clone, Copy)]
enum Line {
    Ports,
    Wire,
    Instance,
}

/// The text of the sample with so many lanes. `Range` where they are not 1 to 200, else
/// `OutOfMemory` where memory runs out.
pub fn generate(alloc: Global, lanes: u32) -> Result<Vec<u8>, GenFault>
    ensures text { IfOk result (λ t. t.items ≡ sample_text lanes) }
    ensures lanes { IfOk result (λ _. HasLanes lanes) }
    ensures range { IsErrOf result GenFault.Range → HasLanes lanes → ⊥ }
    ensures memory { IsErrOf result GenFault.OutOfMemory → HasLanes lanes }
    ensures small { IfOk result (λ t. length t.items ≤ 1048576) }
{
    if lanes == 0 || lanes > MOST_LANES {
        return Err(GenFault::Range);
    }
    match text_of(alloc, lanes) {
        Ok(text) => Ok(text),
        Err(_) => Err(GenFault::OutOfMemory),
    }
}

// The text, for any number of lanes.
fn text_of(alloc: Global, lanes: u32) -> Result<Vec<u8>, AllocError>
    ensures { IfOk result (λ t. t.items ≡ sample_text lanes) }
{
    let mut text = Vec::from_slice(alloc, HEAD.as_bytes())?;
    push_lines(&mut text, alloc, Line::Ports, lanes)?;
    text.extend_from_slice(b"  );\n")?;
    push_lines(&mut text, alloc, Line::Wire, lanes)?;
    push_lines(&mut text, alloc, Line::Instance, lanes)?;
    text.extend_from_slice(FOOT.as_bytes())?;
    Ok(text)
}

// Writes this line of each lane.
fn push_lines(text: &mut Vec<u8>, alloc: Global, line: Line, lanes: u32) -> Result<(), AllocError>
    ensures { OnOk result (text.new.items ≡ text.old.items ++ lines_below (line_of line) lanes) }
{
    for i in 0..lanes {
        push_line(text, alloc, line, i)?;
    }
    Ok(())
}

fn push_line(text: &mut Vec<u8>, alloc: Global, line: Line, i: u32) -> Result<(), AllocError>
    ensures { OnOk result (text.new.items ≡ text.old.items ++ line_of line i) }
{
    match line {
        Line::Ports => push_ports(text, alloc, i),
        Line::Wire => text.extend_from_slice(format!(in alloc; "  wire b{i};\n")?.as_bytes()),
        Line::Instance => push_instance(text, alloc, i),
    }
}

// Writes the ports of a lane.
fn push_ports(text: &mut Vec<u8>, alloc: Global, i: u32) -> Result<(), AllocError>
    ensures { OnOk result (text.new.items ≡ text.old.items ++ port_line i) }
{
    let inputs = format!(in alloc; "  , input r{i}, input [7:0] {{Dom(turn)}} d{i}")?;
    text.extend_from_slice(inputs.as_bytes())?;
    let outputs = format!(in alloc; ", output g{i}, output [7:0] l{i}, output [7:0] {{H}} h{i}\n")?;
    text.extend_from_slice(outputs.as_bytes())?;
    Ok(())
}

// Writes the instance of a lane.
fn push_instance(text: &mut Vec<u8>, alloc: Global, i: u32) -> Result<(), AllocError>
    ensures { OnOk result (text.new.items ≡ text.old.items ++ lane_line i) }
{
    let inputs = format!(in alloc; "  lane u{i}(.clk(clk), .turn(turn), .req(r{i}), .bin(")?;
    text.extend_from_slice(inputs.as_bytes())?;
    push_bin(text, alloc, i)?;
    let links = format!(in alloc; "), .d(d{i}), .g(g{i}), .lo(l{i}), .hi(h{i}), .bout(b{i}));\n")?;
    text.extend_from_slice(links.as_bytes())?;
    Ok(())
}

// Writes what a lane has as `bin`.
fn push_bin(text: &mut Vec<u8>, alloc: Global, i: u32) -> Result<(), AllocError>
    ensures { OnOk result (text.new.items ≡ text.old.items ++ bin_of i) }
{
    if i == 0 {
        return text.extend_from_slice(b"1'b0");
    }
    let before = i - 1;
    text.extend_from_slice(format!(in alloc; "b{before}")?.as_bytes())
}
