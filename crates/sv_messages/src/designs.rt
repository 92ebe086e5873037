// The designs of a text.
use std::alloc::Global;
use sv_ast::Text;
use sv_design::Design;
use sv_elab::{elaborate, has_few};
use sv_flat::{Flat, sound};
use sv_hints::{Origin, first_unbuilt};

/// The flat design of a text, where it stands for one.
pub fn flat_design(alloc: Global, origin: &Origin) -> Option<Flat> {
    let text = origin.tree(alloc)?;
    if first_unbuilt(&text).is_some() {
        return None;
    }
    elaborated(alloc, &text, origin.top)
}

/// The admitted design of a text, where it stands for one.
pub fn admitted_design(alloc: Global, origin: &Origin) -> Option<Design> {
    let flat = flat_design(alloc, origin)?;
    if !sound(&flat) {
        return None;
    }
    match Design::admit(alloc, flat) {
        Ok(design) => Some(design),
        Err(_) => None,
    }
}

// The flat design of a tree.
fn elaborated(alloc: Global, text: &Text, top: Option<&str>) -> Option<Flat> {
    if !text.is_shaped() || !has_few(text) {
        return None;
    }
    match elaborate(alloc, text, top) {
        Ok(flat) => Some(flat),
        Err(_) => None,
    }
}
