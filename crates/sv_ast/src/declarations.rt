// What declarations declare.
ghost use Rattle.std.specs.Prelude.{◌≡◌, map};
ghost use Rattle.sv_ast.specs.Shape.{is_shaped_span, is_port_kind, is_port, is_inner};
ghost use Rattle.sv_ast.specs.Shape.{is_shaped_declaration};
ghost use Rattle.sv_ast.specs.Shape.{is_shaped_parameter, are_header_parameters, are_ports};
ghost use Rattle.sv_ast.specs.Shape.{is_shaped_memory, is_plain_span};
ghost use Rattle.sv_ast.specs.Tree.{SpanTree, LabelTree, DeclarationTree, ParameterTree};
ghost use Rattle.sv_ast.specs.Tree.{MemoryLabelTree, MemoryTree};
ghost use Rattle.sv_ast.specs.Views.{span_tree, label_tree, declaration_tree, parameter_tree};
ghost use Rattle.sv_ast.specs.Views.{memory_label_tree, memory_tree};

use crate::expressions::Expr;
use crate::shapes::Shaped;
use std::alloc::{AllocError, Global};
use sv_num::{Copied, Name, Place};
use sv_token::Lit;

/// A range, as `[high:low]`.
#[derive(Debug, Drop)]
pub struct Span {
    pub high: Expr,
    pub low: Expr,
}

/// The label of a declaration (SecVerilog, ASPLOS 2015), with the place of its first name.
#[derive(Debug, Drop)]
pub enum LabelText {
    /// A point.
    Point(Name, Place),
    /// A map, the signal that selects its row, and a second one where the map has two ranges.
    Table(Name, Name, Option<Name>, Place),
}

/// What a declaration of a signal declares.
#[derive(Clone, Copy, Debug, PartialEq, Eq)]
pub enum DeclKind {
    /// `input`
    Input,
    /// `output` or `output wire`
    OutputWire,
    /// `output reg`
    OutputReg,
    /// `wire`
    Wire,
    /// `reg`
    Reg,
}

/// A declared signal, with the place of its name. Only a `wire` has a value.
#[derive(Debug, Drop)]
pub struct Decl {
    pub kind: DeclKind,
    pub signed: bool,
    pub span: Option<Span>,
    pub label: Option<LabelText>,
    pub name: Name,
    pub place: Place,
    pub value: Option<Expr>,
}

/// A parameter, with the place of its name.
#[derive(Debug, Drop)]
pub struct Param {
    /// Whether it is a `localparam`.
    pub local: bool,
    pub signed: bool,
    pub span: Option<Span>,
    pub name: Name,
    pub place: Place,
    pub value: Expr,
}

/// The label of a memory's words, with the place of its name.
#[derive(Debug, Drop)]
pub enum MemLabel {
    /// A point for every word.
    Point(Name, Place),
    /// A map, whose row for a word is that of the word's number.
    ByIndex(Name, Place),
}

/// A memory: registers numbered from the first to the last, with the place of its name.
#[derive(Debug, Drop)]
pub struct Memory {
    pub signed: bool,
    pub span: Option<Span>,
    pub label: Option<MemLabel>,
    pub name: Name,
    pub place: Place,
    pub first: Lit,
    pub last: Lit,
}

impl Copied for Span {
    ghost Plain = { SpanTree };

    ghost plain = { span_tree };

    fn copy(&self, alloc: Global) -> Result<Span, AllocError> {
        Ok(Span {
            high: self.high.copy(alloc)?,
            low: self.low.copy(alloc)?,
        })
    }
}

impl Copied for LabelText {
    ghost Plain = { LabelTree };

    ghost plain = { label_tree };

    fn copy(&self, alloc: Global) -> Result<LabelText, AllocError> {
        match self {
            LabelText::Point(name, place) => Ok(LabelText::Point(name.copy(alloc)?, *place)),
            LabelText::Table(map, first, second, place) => Ok(LabelText::Table(
                map.copy(alloc)?,
                first.copy(alloc)?,
                second.copy(alloc)?,
                *place,
            )),
        }
    }
}

impl Copied for Decl {
    ghost Plain = { DeclarationTree };

    ghost plain = { declaration_tree };

    fn copy(&self, alloc: Global) -> Result<Decl, AllocError> {
        Ok(Decl {
            kind: self.kind,
            signed: self.signed,
            name: self.name.copy(alloc)?,
            place: self.place,
            label: self.label.copy(alloc)?,
            span: self.span.copy(alloc)?,
            value: self.value.copy(alloc)?,
        })
    }
}

impl Copied for Param {
    ghost Plain = { ParameterTree };

    ghost plain = { parameter_tree };

    fn copy(&self, alloc: Global) -> Result<Param, AllocError> {
        Ok(Param {
            local: self.local,
            signed: self.signed,
            name: self.name.copy(alloc)?,
            place: self.place,
            value: self.value.copy(alloc)?,
            span: self.span.copy(alloc)?,
        })
    }
}

impl Copied for MemLabel {
    ghost Plain = { MemoryLabelTree };

    ghost plain = { memory_label_tree };

    fn copy(&self, alloc: Global) -> Result<MemLabel, AllocError> {
        match self {
            MemLabel::Point(name, place) => Ok(MemLabel::Point(name.copy(alloc)?, *place)),
            MemLabel::ByIndex(name, place) => Ok(MemLabel::ByIndex(name.copy(alloc)?, *place)),
        }
    }
}

impl Copied for Memory {
    ghost Plain = { MemoryTree };

    ghost plain = { memory_tree };

    fn copy(&self, alloc: Global) -> Result<Memory, AllocError> {
        Ok(Memory {
            signed: self.signed,
            name: self.name.copy(alloc)?,
            place: self.place,
            label: self.label.copy(alloc)?,
            span: self.span.copy(alloc)?,
            first: self.first,
            last: self.last,
        })
    }
}

impl Span {
    /// Whether both bounds are numbers.
    pub(crate) fn is_plain(&self) -> bool
        ensures { result ≡ is_plain_span (span_tree self.now) }
    {
        self.high.is_number() && self.low.is_number()
    }
}

impl Shaped for Span {
    ghost Form = { SpanTree };

    ghost form = { span_tree };

    ghost shaped = { is_shaped_span };

    fn is_shaped(&self) -> bool {
        self.high.is_shaped() && self.low.is_shaped()
    }
}

impl DeclKind {
    // Whether it is the kind of a port.
    fn is_port(self) -> bool
        ensures { result ≡ is_port_kind self }
    {
        match self {
            DeclKind::Input | DeclKind::OutputWire | DeclKind::OutputReg => true,
            DeclKind::Wire | DeclKind::Reg => false,
        }
    }
}

impl Decl {
    // Whether it can be a port.
    fn is_port(&self) -> bool
        ensures { result ≡ is_port (declaration_tree self.now) }
    {
        self.kind.is_port() && self.value.is_none()
    }

    /// Whether it can be an item: a `wire`, or a `reg` without a value.
    pub(crate) fn is_inner(&self) -> bool
        ensures { result ≡ is_inner (declaration_tree self.now) }
    {
        match self.kind {
            DeclKind::Input | DeclKind::OutputWire | DeclKind::OutputReg => false,
            DeclKind::Wire => true,
            DeclKind::Reg => self.value.is_none(),
        }
    }
}

impl Shaped for Decl {
    ghost Form = { DeclarationTree };

    ghost form = { declaration_tree };

    ghost shaped = { is_shaped_declaration };

    fn is_shaped(&self) -> bool {
        self.span.is_shaped() && self.value.is_shaped()
    }
}

impl Shaped for Param {
    ghost Form = { ParameterTree };

    ghost form = { parameter_tree };

    ghost shaped = { is_shaped_parameter };

    fn is_shaped(&self) -> bool {
        self.span.is_shaped() && self.value.is_shaped()
    }
}

impl Shaped for Memory {
    ghost Form = { MemoryTree };

    ghost form = { memory_tree };

    ghost shaped = { is_shaped_memory };

    fn is_shaped(&self) -> bool {
        self.span.is_shaped()
    }
}

/// Whether they can be the parameters of a module's header (IEEE 1364-2005, annex A): none of them
/// is local.
pub fn are_header_params(params: &[Param]) -> bool
    ensures { result ≡ are_header_parameters (map parameter_tree params.now) }
{
    params.iter().all(|param| !param.local)
}

/// Whether they can be the ports of a module: each is an input or an output, without a value.
pub fn are_ports(decls: &[Decl]) -> bool
    ensures { result ≡ are_ports (map declaration_tree decls.now) }
{
    decls.iter().all(|decl| decl.is_port())
}
