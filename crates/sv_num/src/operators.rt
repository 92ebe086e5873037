// The operators of expressions, and how they size their operands.
ghost use Rattle.std.specs.Prelude.{◌≡◌};
ghost use Rattle.sv_num.specs.BinaryValues.{class_of, is_division};
ghost use Rattle.sv_num.specs.UnaryValues.{gives_one_bit};

/// A binary operator, in the order of the table of binary operators. `Xnor` is spelled `~^` or
/// `^~`.
#[derive(Clone, Copy, Debug, PartialEq, Eq)]
pub enum BinOp {
    Mul,
    Div,
    Rem,
    Add,
    Sub,
    Shl,
    Shr,
    SignShl,
    SignShr,
    Lt,
    Le,
    Gt,
    Ge,
    Eq,
    Ne,
    And,
    Xor,
    Xnor,
    Or,
    LogicAnd,
    LogicOr,
}

/// A unary operator, in the order of the table of unary operators. From `And` on they are
/// reductions, which join all bits of their operand.
#[derive(Clone, Copy, Debug, PartialEq, Eq)]
pub enum UnOp {
    Plus,
    Minus,
    LogicNot,
    Invert,
    And,
    Nand,
    Or,
    Nor,
    Xor,
    Xnor,
}

/// How the operands and the result of a binary operator are sized.
#[derive(Clone, Copy, Debug, PartialEq, Eq)]
pub enum OpClass {
    /// Both operands and the result have one length and signedness, which the context gives.
    Context,
    /// Both operands have one length and signedness, and the result is one unsigned bit.
    Compare,
    /// Each operand has a type of its own, and the result is one unsigned bit.
    Logical,
    /// The result has the type of the left operand, and the right one has a type of its own.
    Shift,
}

/// How a binary operator sizes its operands (IEEE 1364-2005, table 5-22).
pub fn class_of(op: BinOp) -> OpClass
    ensures { result ≡ class_of op }
{
    match op {
        BinOp::Mul | BinOp::Div | BinOp::Rem | BinOp::Add | BinOp::Sub => OpClass::Context,
        BinOp::Shl | BinOp::Shr | BinOp::SignShl | BinOp::SignShr => OpClass::Shift,
        BinOp::Lt | BinOp::Le | BinOp::Gt | BinOp::Ge | BinOp::Eq | BinOp::Ne => OpClass::Compare,
        BinOp::And | BinOp::Xor | BinOp::Xnor | BinOp::Or => OpClass::Context,
        BinOp::LogicAnd | BinOp::LogicOr => OpClass::Logical,
    }
}

/// Whether the operator is `/` or `%`.
pub fn is_division(op: BinOp) -> bool
    ensures { result ≡ is_division op }
{
    matches!(op, BinOp::Div | BinOp::Rem)
}

/// Whether the operator is `!` or a reduction.
pub fn gives_one_bit(op: UnOp) -> bool
    ensures { result ≡ gives_one_bit op }
{
    match op {
        UnOp::Plus | UnOp::Minus | UnOp::Invert => false,
        UnOp::LogicNot => true,
        UnOp::And | UnOp::Nand | UnOp::Or | UnOp::Nor | UnOp::Xor | UnOp::Xnor => true,
    }
}
