// Reserved words that stand in the grammar.

/// A word of the grammar. Most are those of the standard (IEEE 1364-2005, annex B); those of
/// labels, of invariants and `$release` are SecVerilog's and this project's.
#[derive(Clone, Copy, Debug, PartialEq, Eq)]
pub enum WordKind {
    /// `always`
    Always,
    /// `assign`
    Assign,
    /// `begin`
    Begin,
    /// `case`
    Case,
    /// `default`
    Default,
    /// `else`
    Else,
    /// `end`
    End,
    /// `endcase`
    Endcase,
    /// `endmodule`
    Endmodule,
    /// `if`
    If,
    /// `input`
    Input,
    /// `localparam`
    Localparam,
    /// `module`
    Module,
    /// `output`
    Output,
    /// `parameter`
    Parameter,
    /// `posedge`
    Posedge,
    /// `reg`
    Reg,
    /// `signed`
    Signed,
    /// `wire`
    Wire,
    /// `lattice`
    Lattice,
    /// `endlattice`
    Endlattice,
    /// `labelmap`
    Labelmap,
    /// `endlabelmap`
    Endlabelmap,
    /// `point`
    Point,
    /// `invariant`
    Invariant,
    /// `$release`
    Release,
}
