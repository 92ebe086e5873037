// Texts read, elaborated and admitted.
use std::alloc::Global;
use std::process::Abort;
use std::test::Fail;
use sv_ast::Text;
use sv_design::Design;
use sv_elab::{elaborate, has_few};
use sv_flat::sound;
use sv_parse::read_text;

/// The admitted design of a text, over copies of its tree and of the flat design.
pub fn design(rt: &impl Abort, alloc: Global, source: &str) -> Result<Design, Fail> {
    let bytes = source.as_bytes();
    assert!(rt; bytes.len() < 1_000_000, "the text is short");
    let text = read_text(alloc, bytes)?.copy(alloc)?;
    assert!(rt; text.is_shaped(), "the text is shaped");
    assert!(rt; has_few(&text), "the text is small");
    let flat = elaborate(alloc, &text, None)?.copy(alloc)?;
    assert!(rt; sound(&flat), "the design is sound");
    Ok(Design::admit(alloc, flat)?)
}
