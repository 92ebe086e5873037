// What a refusal is of: a text, with its tokens and its tree.
use std::alloc::{AllocError, Global};
use sv_ast::{Item, Module, Text};
use sv_num::{Fault, Place};
use sv_parse::read_text;
use sv_token::{Token, lex};

// The bytes of the largest source file.
const LARGEST_FILE: usize = 1_048_576;

/// What a command read: the name of the text, the module that is asked for as its top, and the
/// text itself, empty where it is not at hand.
#[derive(Clone, Copy)]
pub struct Origin<'a> {
    pub file: &'a str,
    pub top: Option<&'a str>,
    pub text: &'a [u8],
}

impl<'a> Origin<'a> {
    /// The tokens of the text; none where it has none. It fails where memory runs out, since a
    /// text without tokens is told of otherwise.
    pub(crate) fn tokens(&self, alloc: Global) -> Result<Vec<Token>, AllocError> {
        if self.text.len() > LARGEST_FILE {
            return Ok(Vec::new(alloc));
        }
        match lex(alloc, self.text) {
            Ok(tokens) => Ok(tokens),
            Err(Fault::OutOfMemory) => Err(AllocError),
            Err(Fault::Rule(_)) => Ok(Vec::new(alloc)),
        }
    }

    /// The tree of the text, where it has one.
    pub fn tree(&self, alloc: Global) -> Option<Text> {
        if self.text.len() > LARGEST_FILE {
            return None;
        }
        read_text(alloc, self.text).ok()
    }
}

/// The first item that is not built.
pub fn first_unbuilt(text: &Text) -> Option<&Item> {
    for module in &text.modules {
        for item in &module.items {
            if is_unbuilt(item) {
                return Some(item);
            }
        }
    }
    None
}

fn is_unbuilt(item: &Item) -> bool {
    matches!(
        item,
        Item::Memory(_) | Item::Release { .. } | Item::Invariant(_, _)
    )
}

/// Whether a place stands before another one, or is it.
pub fn is_up_to(place: Place, other: Place) -> bool {
    place.line < other.line || place.line == other.line && place.column <= other.column
}

/// The module around a place.
pub fn module_at(text: &Text, place: Place) -> Option<&Module> {
    let mut found = None;
    for module in &text.modules {
        if is_up_to(module.place, place) {
            found = Some(module);
        }
    }
    found
}

/// The module around a place, where there is a tree.
pub fn module_in(text: Option<&Text>, place: Place) -> Option<&Module> {
    module_at(text?, place)
}

/// The place of an item.
pub fn place_of(item: &Item) -> Place {
    match item {
        Item::Param(param) => param.place,
        Item::Decl(decl) => decl.place,
        Item::Memory(memory) => memory.place,
        Item::Assign { place, .. } => *place,
        Item::Release { place, .. } => *place,
        Item::Always { place, .. } => *place,
        Item::Invariant(place, _) => *place,
        Item::Instance(instance) => instance.place,
    }
}

/// The item around a place.
pub fn item_at(module: &Module, place: Place) -> Option<&Item> {
    let mut found = None;
    for item in &module.items {
        if is_up_to(place_of(item), place) {
            found = Some(item);
        }
    }
    found
}
