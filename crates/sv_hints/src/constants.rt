// Constants and lengths of a module, as far as they hang on nothing that an instance sets.
use crate::maps::is_negative;
use crate::names::{NamedItem, first_declaration};
use std::alloc::{AllocError, Global};
use sv_ast::{Expr, Item, Module, Overrides, Param, Select, Span, Target, Text};
use sv_num::{BinOp, OpClass, UnOp, class_of};

// The least number that is told of no sum or product here: below it none has lost a bit.
const TOO_LARGE: u64 = 0x8000_0000;

// A constant, and whether its length is written.
#[derive(Clone, Copy)]
struct Constant {
    value: u64,
    is_sized: bool,
}

/// A module, and its parameters whose values are known.
#[derive(Drop)]
pub struct Constants<'t> {
    module: &'t Module,
    known: Vec<(&'t [u8], Constant)>,
}

// Whether an instance of the module sets a parameter.
fn is_overridden(text: &Text, module: &Module) -> bool {
    let name = module.name.bytes();
    text.modules.iter().any(|around| around.items.iter().any(|item| overrides(item, name)))
}

fn overrides(item: &Item, name: &[u8]) -> bool {
    match item {
        Item::Instance(instance) if instance.module.bytes() == name => {
            match &instance.overrides {
                Overrides::Named(values) => !values.is_empty(),
                Overrides::Ordered(values) => !values.is_empty(),
            }
        }
        _ => false,
    }
}

impl<'t> Constants<'t> {
    /// Those of a module.
    pub fn new(
        alloc: Global,
        text: &Text,
        module: &'t Module,
    ) -> Result<Constants<'t>, AllocError> {
        let mut constants = Constants {
            module,
            known: Vec::new(alloc),
        };
        if !is_overridden(text, module) {
            constants.add_header(&module.params)?;
            constants.add_items(&module.items)?;
        }
        Ok(constants)
    }

    // Adds the parameters of a header.
    fn add_header(&mut self, params: &'t [Param]) -> Result<(), AllocError> {
        for param in params {
            self.add(param)?;
        }
        Ok(())
    }

    // Adds the parameters among items.
    fn add_items(&mut self, items: &'t [Item]) -> Result<(), AllocError> {
        for item in items {
            if let Item::Param(param) = item {
                self.add(param)?;
            }
        }
        Ok(())
    }

    // Adds a parameter, where its value is known and its type is that of the value.
    fn add(&mut self, param: &'t Param) -> Result<(), AllocError> {
        if param.span.is_some() || param.signed {
            return Ok(());
        }
        if let Some(value) = self.constant(&param.value) {
            self.known.push((param.name.bytes(), value))?;
        }
        Ok(())
    }

    // The value of the parameter of a name.
    fn named(&self, name: &[u8]) -> Option<Constant> {
        for known in &self.known {
            if known.0 == name {
                return Some(known.1);
            }
        }
        None
    }

    // The value of an expression.
    #[cycle(constant)]
    fn constant(&self, expr: &Expr) -> Option<Constant> {
        match expr {
            Expr::Number(number, _) if !is_negative(number) => Some(Constant {
                value: number.bits.value(),
                is_sized: number.sized,
            }),
            Expr::Name(name, _) => self.named(name.bytes()),
            Expr::Binary(op, _, left, right) => {
                combined(*op, self.constant(left)?, self.constant(right)?)
            }
            _ => None,
        }
    }

    /// The value of an expression, where it is known.
    pub fn value(&self, expr: &Expr) -> Option<u64> {
        Some(self.constant(expr)?.value)
    }

    /// How many bits the signal of a name has.
    pub fn width(&self, name: &[u8]) -> Option<u64> {
        match first_declaration(self.module, name)? {
            NamedItem::Signal(decl) => match &decl.span {
                Some(span) => self.width_of(span),
                None => Some(1),
            },
            _ => None,
        }
    }

    // How many bits a range has.
    fn width_of(&self, span: &Span) -> Option<u64> {
        match (self.value(&span.high)?, self.value(&span.low)?) {
            (high, 0) => high.checked_add(1),
            _ => None,
        }
    }

    // How many bits a part has.
    fn part_length(&self, high: &Expr, low: &Expr) -> Option<u64> {
        let above = self.value(high)?.checked_sub(self.value(low)?)?;
        above.checked_add(1)
    }

    /// How many bits an expression has of its own.
    #[cycle(length)]
    pub fn length(&self, expr: &Expr) -> Option<u64> {
        match expr {
            Expr::Number(number, _) => Some(number.bits.width() as u64),
            Expr::Name(name, _) => self.width(name.bytes()),
            Expr::Bit(_, _, _) => Some(1),
            Expr::Part(_, _, high, low) => self.part_length(high, low),
            Expr::Unary(UnOp::Plus | UnOp::Minus | UnOp::Invert, _, operand) => {
                self.length(operand)
            }
            Expr::Unary(_, _, _) => Some(1),
            Expr::Binary(op, _, left, right) => match class_of(*op) {
                OpClass::Context => Some(self.length(left)?.max(self.length(right)?)),
                OpClass::Shift => self.length(left),
                _ => Some(1),
            },
            Expr::Choice(_, _, yes, no) => Some(self.length(yes)?.max(self.length(no)?)),
            Expr::Join(_, parts) => self.lengths(parts),
            Expr::Repeat(_, count, parts) => {
                self.lengths(parts)?.checked_mul(self.value(count)?)
            }
        }
    }

    /// How many bits some have together.
    #[cycle(length)]
    pub fn lengths(&self, parts: &[Expr]) -> Option<u64> {
        let mut total = 0u64;
        for part in parts {
            total = total.checked_add(self.length(part)?)?;
        }
        Some(total)
    }

    /// How many bits some targets have together.
    pub fn targets_length(&self, targets: &[Target]) -> Option<u64> {
        let mut total = 0u64;
        for target in targets {
            let length = match &target.select {
                Select::Whole => self.width(target.name.bytes())?,
                Select::Bit(_) => 1,
                Select::Part(high, low) => self.part_length(high, low)?,
            };
            total = total.checked_add(length)?;
        }
        Some(total)
    }
}

// What an operator makes of two constants, where none of them has a length and no bit is lost.
fn combined(op: BinOp, left: Constant, right: Constant) -> Option<Constant> {
    if left.is_sized || right.is_sized {
        return None;
    }
    let (left, right) = (left.value, right.value);
    let value = match op {
        BinOp::Add => left.checked_add(right)?,
        BinOp::Sub => left.checked_sub(right)?,
        BinOp::Mul => left.checked_mul(right)?,
        BinOp::Shl if right < 32 => left.checked_mul(1u64 << right)?,
        _ => return None,
    };
    if value >= TOO_LARGE {
        return None;
    }
    Some(Constant {
        value,
        is_sized: false,
    })
}
