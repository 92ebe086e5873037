// Modules and whole texts.
ghost use Rattle.std.specs.Prelude.{◌≡◌, map, IfOk};
ghost use Rattle.std.specs.Option.{option_map};
ghost use Rattle.sv_ast.specs.Shape.{is_shaped_override, are_shaped_overrides, is_shaped_link};
ghost use Rattle.sv_ast.specs.Shape.{are_shaped_links, is_shaped_instance};
ghost use Rattle.sv_ast.specs.Shape.{is_shaped_item, is_shaped_module, is_shaped_map, is_shaped};
ghost use Rattle.sv_ast.specs.Tree.{NamedOverride, OverrideTrees, NamedLink, LinkTrees};
ghost use Rattle.sv_ast.specs.Tree.{InstanceTree, ItemTree, continuous, released, always_item};
ghost use Rattle.sv_ast.specs.Tree.{ModuleTree, LatticeTree, MapTree};
ghost use Rattle.sv_ast.specs.Views.{expression_tree, target_tree, statement_tree};
ghost use Rattle.sv_ast.specs.Views.{placed_name, named_override, override_trees, named_link};
ghost use Rattle.sv_ast.specs.Views.{link_trees, instance_tree, item_tree};
ghost use Rattle.sv_ast.specs.Views.{module_tree, lattice_tree, row_tree, map_tree};
ghost use Rattle.sv_ast.specs.Views.{text_tree};

use crate::declarations::{Decl, Memory, Param, Span, are_header_params, are_ports};
use crate::expressions::Expr;
use crate::shapes::Shaped;
use crate::statements::{Stmt, Target, are_whole_targets};
use std::alloc::{AllocError, Global};
use sv_num::{Copied, Name, Place};
use sv_token::Lit;

/// The parameters that an instance sets: by name, with the place of the name, or by order.
#[derive(Debug, Drop)]
pub enum Overrides {
    Named(Vec<(Name, Place, Expr)>),
    Ordered(Vec<Expr>),
}

/// The ports that an instance links: by name, with the place of the name and perhaps no expression,
/// or by order.
#[derive(Debug, Drop)]
pub enum Links {
    Named(Vec<(Name, Place, Option<Expr>)>),
    Ordered(Vec<Expr>),
}

/// An instance of a module, with the places of the module's name and of its own.
#[derive(Debug, Drop)]
pub struct Instance {
    pub module: Name,
    pub place: Place,
    pub overrides: Overrides,
    pub name: Name,
    pub name_place: Place,
    pub links: Links,
}

/// An item of a module.
#[derive(Debug, Drop)]
pub enum Item {
    /// `parameter` or `localparam`.
    Param(Param),
    /// `wire` or `reg`.
    Decl(Decl),
    /// `reg` with a range after its name.
    Memory(Memory),
    /// `assign`, to at least one whole target, with the place of the first.
    Assign {
        targets: Vec<Target>,
        place: Place,
        value: Expr,
    },
    /// `assign` of a released value, with the places of the target and of the point that the value
    /// is released to.
    Release {
        target: Name,
        place: Place,
        value: Expr,
        point: Name,
        point_place: Place,
    },
    /// `always`, with the place of the word; `posedge` and a name with its place where it has a
    /// clock.
    Always {
        place: Place,
        clock: Option<(Name, Place)>,
        body: Stmt,
    },
    /// `invariant`, with the expression's place.
    Invariant(Place, Expr),
    /// An instance of a module.
    Instance(Instance),
}

/// A module, with the place of its name: header parameters, ports, and items in textual order.
#[derive(Debug, Drop)]
pub struct Module {
    pub name: Name,
    pub place: Place,
    pub params: Vec<Param>,
    pub ports: Vec<Decl>,
    pub items: Vec<Item>,
}

/// A lattice, with the place of the word: its points and its pairs, each name with its place.
#[derive(Debug, Drop)]
pub struct LatticeText {
    pub place: Place,
    pub points: Vec<(Name, Place)>,
    pub pairs: Vec<(Name, Place, Name, Place)>,
}

/// A row of a label map: a key, a second one where the map has two ranges, each with its place, and
/// the point.
pub type MapRow = (Lit, Place, Option<(Lit, Place)>, Name);

/// A label map, with the place of its name: one or two ranges, its rows, and the point of the other
/// keys.
#[derive(Debug, Drop)]
pub struct MapText {
    pub name: Name,
    pub place: Place,
    pub span: Span,
    pub second: Option<Span>,
    pub rows: Vec<MapRow>,
    pub other: Option<Name>,
}

/// A whole text.
#[derive(Debug, Drop)]
pub struct Text {
    pub lattice: Option<LatticeText>,
    pub maps: Vec<MapText>,
    pub modules: Vec<Module>,
}

impl Overrides {
    /// A second tree that is equal. It fails where memory runs out.
    pub fn copy(&self, alloc: Global) -> Result<Overrides, AllocError>
        ensures { IfOk result (λ copy. override_trees copy ≡ override_trees self.now) }
    {
        match self {
            Overrides::Named(values) => Ok(Overrides::Named(values.copy(alloc)?)),
            Overrides::Ordered(values) => Ok(Overrides::Ordered(values.copy(alloc)?)),
        }
    }
}

impl Text {
    /// A second tree that is equal. It fails where memory runs out.
    pub fn copy(&self, alloc: Global) -> Result<Text, AllocError>
        ensures { IfOk result (λ copy. text_tree copy ≡ text_tree self.now) }
    {
        Ok(Text {
            lattice: self.lattice.copy(alloc)?,
            maps: self.maps.copy(alloc)?,
            modules: self.modules.copy(alloc)?,
        })
    }

    /// Whether the grammar can give the text: every join, replication and `case` in it has at least
    /// one member, and a `case` at most one default; ports have the kind of a port and no value,
    /// other declarations are a `wire` or a `reg`, and only a `wire` has a value; header parameters
    /// are not local; the ranges of label maps are plain numbers; and no list of targets is empty,
    /// those of an `assign` being whole.
    pub fn is_shaped(&self) -> bool
        ensures { result ≡ is_shaped (text_tree self.now) }
    {
        self.maps.is_shaped() && self.modules.is_shaped()
    }
}

impl Copied for Links {
    ghost Plain = { LinkTrees };

    ghost plain = { link_trees };

    fn copy(&self, alloc: Global) -> Result<Links, AllocError> {
        match self {
            Links::Named(links) => Ok(Links::Named(links.copy(alloc)?)),
            Links::Ordered(links) => Ok(Links::Ordered(links.copy(alloc)?)),
        }
    }
}

impl Copied for Instance {
    ghost Plain = { InstanceTree };

    ghost plain = { instance_tree };

    fn copy(&self, alloc: Global) -> Result<Instance, AllocError> {
        Ok(Instance {
            module: self.module.copy(alloc)?,
            place: self.place,
            overrides: self.overrides.copy(alloc)?,
            name: self.name.copy(alloc)?,
            name_place: self.name_place,
            links: self.links.copy(alloc)?,
        })
    }
}

// A second `assign` that is equal.
fn assign_copy(
    targets: &Vec<Target>,
    place: Place,
    value: &Expr,
    alloc: Global,
) -> Result<Item, AllocError>
    ensures { IfOk result (λ copy.
        item_tree copy ≡ continuous (map target_tree targets.now.items) place
        (expression_tree value.now)) }
{
    Ok(Item::Assign {
        targets: targets.copy(alloc)?,
        place,
        value: value.copy(alloc)?,
    })
}

// A second `assign` of a released value that is equal.
fn release_copy(
    target: &Name,
    place: Place,
    value: &Expr,
    point: &Name,
    point_place: Place,
    alloc: Global,
) -> Result<Item, AllocError>
    ensures { IfOk result (λ copy.
        item_tree copy ≡ released (placed_name (target.now, place)) (expression_tree value.now)
        (placed_name (point.now, point_place))) }
{
    Ok(Item::Release {
        target: target.copy(alloc)?,
        place,
        point: point.copy(alloc)?,
        point_place,
        value: value.copy(alloc)?,
    })
}

// A second clock that is equal, where there is one.
fn clock_copy(
    clock: &Option<(Name, Place)>,
    alloc: Global,
) -> Result<Option<(Name, Place)>, AllocError>
    ensures { IfOk result (λ copy. option_map placed_name copy ≡ option_map placed_name clock.now) }
{
    match clock {
        Some(clock) => Ok(Some((clock.0.copy(alloc)?, clock.1))),
        None => Ok(None),
    }
}

// A second `always` that is equal.
fn always_copy(
    place: Place,
    clock: &Option<(Name, Place)>,
    body: &Stmt,
    alloc: Global,
) -> Result<Item, AllocError>
    ensures { IfOk result (λ copy.
        item_tree copy ≡ always_item place (option_map placed_name clock.now)
        (statement_tree body.now)) }
{
    Ok(Item::Always {
        place,
        clock: clock_copy(clock, alloc)?,
        body: body.copy(alloc)?,
    })
}

impl Copied for Item {
    ghost Plain = { ItemTree };

    ghost plain = { item_tree };

    fn copy(&self, alloc: Global) -> Result<Item, AllocError> {
        match self {
            Item::Param(param) => Ok(Item::Param(param.copy(alloc)?)),
            Item::Decl(decl) => Ok(Item::Decl(decl.copy(alloc)?)),
            Item::Memory(memory) => Ok(Item::Memory(memory.copy(alloc)?)),
            Item::Assign {
                targets,
                place,
                value,
            } => assign_copy(targets, *place, value, alloc),
            Item::Release {
                target,
                place,
                value,
                point,
                point_place,
            } => release_copy(target, *place, value, point, *point_place, alloc),
            Item::Always { place, clock, body } => always_copy(*place, clock, body, alloc),
            Item::Invariant(place, expr) => Ok(Item::Invariant(*place, expr.copy(alloc)?)),
            Item::Instance(instance) => Ok(Item::Instance(instance.copy(alloc)?)),
        }
    }
}

impl Copied for Module {
    ghost Plain = { ModuleTree };

    ghost plain = { module_tree };

    fn copy(&self, alloc: Global) -> Result<Module, AllocError> {
        Ok(Module {
            name: self.name.copy(alloc)?,
            place: self.place,
            params: self.params.copy(alloc)?,
            ports: self.ports.copy(alloc)?,
            items: self.items.copy(alloc)?,
        })
    }
}

impl Copied for LatticeText {
    ghost Plain = { LatticeTree };

    ghost plain = { lattice_tree };

    fn copy(&self, alloc: Global) -> Result<LatticeText, AllocError> {
        Ok(LatticeText {
            place: self.place,
            points: self.points.copy(alloc)?,
            pairs: self.pairs.copy(alloc)?,
        })
    }
}

// A copy of each row, in order.
fn rows_copy(rows: &[MapRow], alloc: Global) -> Result<Vec<MapRow>, AllocError>
    ensures { IfOk result (λ copies. map row_tree copies.items ≡ map row_tree rows.now) }
{
    let mut copies = Vec::with_capacity(alloc, rows.len())?;
    for row in rows {
        copies.push((row.0, row.1, row.2, row.3.copy(alloc)?))?;
    }
    Ok(copies)
}

impl Copied for MapText {
    ghost Plain = { MapTree };

    ghost plain = { map_tree };

    fn copy(&self, alloc: Global) -> Result<MapText, AllocError> {
        Ok(MapText {
            name: self.name.copy(alloc)?,
            place: self.place,
            other: self.other.copy(alloc)?,
            rows: rows_copy(&self.rows, alloc)?,
            span: self.span.copy(alloc)?,
            second: self.second.copy(alloc)?,
        })
    }
}

impl Shaped for (Name, Place, Expr) {
    ghost Form = { NamedOverride };

    ghost form = { named_override };

    ghost shaped = { is_shaped_override };

    fn is_shaped(&self) -> bool {
        self.2.is_shaped()
    }
}

impl Shaped for Overrides {
    ghost Form = { OverrideTrees };

    ghost form = { override_trees };

    ghost shaped = { are_shaped_overrides };

    fn is_shaped(&self) -> bool {
        match self {
            Overrides::Named(values) => values.is_shaped(),
            Overrides::Ordered(values) => values.is_shaped(),
        }
    }
}

impl Shaped for (Name, Place, Option<Expr>) {
    ghost Form = { NamedLink };

    ghost form = { named_link };

    ghost shaped = { is_shaped_link };

    fn is_shaped(&self) -> bool {
        self.2.is_shaped()
    }
}

impl Shaped for Links {
    ghost Form = { LinkTrees };

    ghost form = { link_trees };

    ghost shaped = { are_shaped_links };

    fn is_shaped(&self) -> bool {
        match self {
            Links::Named(links) => links.is_shaped(),
            Links::Ordered(links) => links.is_shaped(),
        }
    }
}

impl Shaped for Instance {
    ghost Form = { InstanceTree };

    ghost form = { instance_tree };

    ghost shaped = { is_shaped_instance };

    fn is_shaped(&self) -> bool {
        self.overrides.is_shaped() && self.links.is_shaped()
    }
}

impl Shaped for Item {
    ghost Form = { ItemTree };

    ghost form = { item_tree };

    ghost shaped = { is_shaped_item };

    fn is_shaped(&self) -> bool {
        match self {
            Item::Param(param) => param.is_shaped(),
            Item::Decl(decl) => decl.is_inner() && decl.is_shaped(),
            Item::Memory(memory) => memory.is_shaped(),
            Item::Assign { targets, value, .. } => are_whole_targets(targets) && value.is_shaped(),
            Item::Release { value, .. } => value.is_shaped(),
            Item::Always { body, .. } => body.is_shaped(),
            Item::Invariant(_, expr) => expr.is_shaped(),
            Item::Instance(instance) => instance.is_shaped(),
        }
    }
}

impl Shaped for Module {
    ghost Form = { ModuleTree };

    ghost form = { module_tree };

    ghost shaped = { is_shaped_module };

    fn is_shaped(&self) -> bool {
        are_header_params(&self.params)
            && self.params.is_shaped()
            && are_ports(&self.ports)
            && self.ports.is_shaped()
            && self.items.is_shaped()
    }
}

impl Shaped for MapText {
    ghost Form = { MapTree };

    ghost form = { map_tree };

    ghost shaped = { is_shaped_map };

    fn is_shaped(&self) -> bool {
        self.span.is_plain() && self.second.as_ref().is_none_or(|span| span.is_plain())
    }
}
