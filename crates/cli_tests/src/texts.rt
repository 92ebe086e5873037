// Designs.

/// A gate.
pub const GATE: &str = "module m(input a, input b, output y); assign y = a & b; endmodule\n";

/// The output shows the public or the secret input in turns, and its label tells which.
pub const TURN: &str = "labelmap Dom [0:0] 0: L; default: H; endlabelmap
module top(input turn, input a, input {H} b, output {Dom(turn)} y);
  assign y = turn ? b : a;
endmodule
";

/// The same with the two inputs exchanged: where the output is public it shows the secret one.
pub const TURNED_LEAK: &str = "labelmap Dom [0:0] 0: L; default: H; endlabelmap
module top(input turn, input a, input {H} b, output {Dom(turn)} y);
  assign y = turn ? a : b;
endmodule
";

/// An output that nothing drives.
pub const UNDRIVEN: &str = "module m(output y); endmodule";

/// A public and a secret register.
pub const COUNTER: &str = "module m(input clk, input en, input [3:0] {H} d,
  output reg [3:0] q, output reg [3:0] {H} s);
  wire [3:0] n = q + 1;
  always @(posedge clk) if (en) q <= n;
  always @(posedge clk) s <= s ^ d;
endmodule
";

/// Three inverters, in the reverse of the order in which the value passes them.
pub const INVERTERS: &str = "module m(input a, output y);
  wire p, q;
  assign y = ~q;
  assign q = ~p;
  assign p = ~a;
endmodule
";

/// Two sums of three bits, one from the left and one from the right, so that the secret input is
/// never shown. Unit resolution alone does not see that they are equal.
pub const SUMS: &str = "module m(input a, input b, input c, input l, input {H} h, output y);
  assign y = ((a ^ b) ^ c) == ((c ^ b) ^ a) ? l : h;
endmodule
";

/// The sample of one lane.
pub const ONE_LANE: &str = "labelmap Dom [0:0] 0: L; default: H; endlabelmap
module lane(input clk, input turn, input req, input bin, input [7:0] {Dom(turn)} d,
  output reg g, output reg [7:0] lo, output reg [7:0] {H} hi, output bout);
  assign bout = bin | req;
  always @(posedge clk) begin
    g <= req & ~bin & ~turn;
    if (turn) hi <= d; else lo <= d;
  end
endmodule
module top(input clk, input turn
  , input r0, input [7:0] {Dom(turn)} d0, output g0, output [7:0] l0, output [7:0] {H} h0
  );
  wire b0;
  lane u0(.clk(clk), .turn(turn), .req(r0), .bin(1'b0), .d(d0), .g(g0), .lo(l0), .hi(h0), \
    .bout(b0));
endmodule
";
