// The tables of operators, and looking a spelling up in one.
ghost use Rattle.std.specs.Prelude.{◌≡◌, List, map, take, position};
ghost use Rattle.std.specs.Str.{bytes_eq};
ghost use Rattle.std.specs.List.{Contains};
ghost use Rattle.sv_num.specs.declared.operators.BinOp.{BinOp};
ghost use Rattle.sv_num.specs.declared.operators.UnOp.{UnOp};
ghost use Rattle.sv_num.specs.BinaryValues.{class_of};
ghost use Rattle.sv_num.specs.OperatorTables.{binary_row, unary_row, binary_spelling};
ghost use Rattle.sv_num.specs.OperatorTables.{unary_spelling, binary_field, unary_field, field_of};
ghost use Rattle.sv_num.specs.OperatorTables.{binary_table, unary_table};

use crate::operators::{BinOp, OpClass, UnOp};

/// A binary operator: its spelling, which is the first `length` bytes of the field and then zeros,
/// its precedence, where the tightest has 1, and how its operands are sized.
#[derive(Clone, Copy, Debug, PartialEq, Eq)]
pub struct BinRow {
    pub spelling: [u8; 3],
    pub length: u8,
    pub op: BinOp,
    pub level: u8,
    pub class: OpClass,
}

/// A unary operator: its spelling, which is the first `length` bytes of the field and then zeros.
#[derive(Clone, Copy, Debug, PartialEq, Eq)]
pub struct UnRow {
    pub spelling: [u8; 3],
    pub length: u8,
    pub op: UnOp,
}

macro_rules! binary_rows {
    ($($spelling:literal $length:literal $op:ident $level:literal $class:ident),* $(,)?) => {
        [$(BinRow {
            spelling: *$spelling,
            length: $length,
            op: BinOp::$op,
            level: $level,
            class: OpClass::$class,
        },)*]
    };
}

macro_rules! unary_rows {
    ($($spelling:literal $length:literal $op:ident),* $(,)?) => {
        [$(UnRow {
            spelling: *$spelling,
            length: $length,
            op: UnOp::$op,
        },)*]
    };
}

/// The binary operators.
pub const BINARY: [BinRow; 22] = binary_rows![
    b"*\0\0" 1 Mul 1 Context,
    b"/\0\0" 1 Div 1 Context,
    b"%\0\0" 1 Rem 1 Context,
    b"+\0\0" 1 Add 2 Context,
    b"-\0\0" 1 Sub 2 Context,
    b"<<\0" 2 Shl 3 Shift,
    b">>\0" 2 Shr 3 Shift,
    b"<<<" 3 SignShl 3 Shift,
    b">>>" 3 SignShr 3 Shift,
    b"<\0\0" 1 Lt 4 Compare,
    b"<=\0" 2 Le 4 Compare,
    b">\0\0" 1 Gt 4 Compare,
    b">=\0" 2 Ge 4 Compare,
    b"==\0" 2 Eq 5 Compare,
    b"!=\0" 2 Ne 5 Compare,
    b"&\0\0" 1 And 6 Context,
    b"^\0\0" 1 Xor 7 Context,
    b"~^\0" 2 Xnor 7 Context,
    b"^~\0" 2 Xnor 7 Context,
    b"|\0\0" 1 Or 8 Context,
    b"&&\0" 2 LogicAnd 9 Logical,
    b"||\0" 2 LogicOr 10 Logical,
];

/// The unary operators.
pub const UNARY: [UnRow; 11] = unary_rows![
    b"+\0\0" 1 Plus,
    b"-\0\0" 1 Minus,
    b"!\0\0" 1 LogicNot,
    b"~\0\0" 1 Invert,
    b"&\0\0" 1 And,
    b"~&\0" 2 Nand,
    b"|\0\0" 1 Or,
    b"~|\0" 2 Nor,
    b"^\0\0" 1 Xor,
    b"~^\0" 2 Xnor,
    b"^~\0" 2 Xnor,
];

/// What the two tables hold: exactly the standard's rows, with a row for every operator.
pub fn tables_are_whole()
    ensures binary { map binary_row BINARY ≡ binary_table }
    ensures unary { map unary_row UNARY ≡ unary_table }
    ensures binary_fields { map binary_field BINARY ≡ map (λ row. field_of row.0) binary_table }
    ensures unary_fields { map unary_field UNARY ≡ map (λ row. field_of row.0) unary_table }
    ensures classes { map (λ row. row.class) BINARY ≡ map (λ row. class_of row.op) BINARY }
    ensures each_binary { (op : BinOp) → Contains (map (λ row. row.op) BINARY) op }
    ensures each_unary { (op : UnOp) → Contains (map (λ row. row.op) UNARY) op }
{}

fn is_spelled(field: &[u8; 3], length: u8, spelling: &[u8]) -> bool
    ensures { result ≡ bytes_eq (take length field.now) spelling.now }
{
    &field[..usize::from(length).min(3)] == spelling
}

/// The place of the first row with a spelling. None where no row has it.
pub fn find<const N: usize>(rows: &[BinRow; N], spelling: &[u8]) -> Option<usize>
    ensures { result ≡ position (λ row. bytes_eq (binary_spelling row) spelling.now) rows.now }
{
    rows.iter()
        .position(|row| is_spelled(&row.spelling, row.length, spelling))
}

/// The place of the first row with a spelling. None where no row has it.
pub fn find_unary<const N: usize>(rows: &[UnRow; N], spelling: &[u8]) -> Option<usize>
    ensures { result ≡ position (λ row. bytes_eq (unary_spelling row) spelling.now) rows.now }
{
    rows.iter()
        .position(|row| is_spelled(&row.spelling, row.length, spelling))
}
