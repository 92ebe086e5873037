// Broken rules and exceeded limits.
ghost use Rattle.std.specs.Prelude.{◌≡◌, ◌++◌, codes, decimal, IfOk, OnOk};
ghost use Rattle.sv_texts.specs.Texts.{names_text, refusal_text, limit_text, rule_name};

use crate::numbers::{push_number, push_place};
use crate::rules::rule_name;
use std::alloc::{AllocError, Global};
use sv_num::{Name, Refusal};

// Writes names, each after a blank.
fn push_names(text: &mut Vec<u8>, names: &[Name]) -> Result<(), AllocError>
    ensures { OnOk result (text.new.items ≡ text.old.items ++ names_text names.now) }
{
    for name in names {
        text.push(b' ')?;
        text.extend_from_slice(name.bytes())?;
    }
    Ok(())
}

// That a text or a call is refused by a rule or a limit, with its name.
fn refused(alloc: Global, number: u16) -> Result<Vec<u8>, AllocError>
    ensures { IfOk result (λ text.
        text.items ≡ codes "refused " ++ decimal number ++ codes " " ++ rule_name number) }
{
    let mut text = Vec::from_slice(alloc, b"refused ")?;
    push_number(&mut text, u64::from(number))?;
    text.push(b' ')?;
    text.extend_from_slice(rule_name(number).as_bytes())?;
    Ok(text)
}

/// A broken rule, where it is broken, and the names that go with it.
pub fn refusal_text(alloc: Global, refusal: &Refusal) -> Result<Vec<u8>, AllocError>
    ensures { IfOk result
        (λ text. text.items ≡
        refusal_text refusal.now.number refusal.now.place refusal.now.names.items) }
{
    let mut text = refused(alloc, refusal.number)?;
    text.push(b' ')?;
    push_place(&mut text, refusal.place)?;
    push_names(&mut text, &refusal.names)?;
    text.push(b'\n')?;
    Ok(text)
}

/// A limit that is exceeded, and the names that go with it.
pub fn limit_text(alloc: Global, number: u16, names: &[Name]) -> Result<Vec<u8>, AllocError>
    ensures { IfOk result (λ text. text.items ≡ limit_text number names.now) }
{
    let mut text = refused(alloc, number)?;
    push_names(&mut text, names)?;
    text.push(b'\n')?;
    Ok(text)
}
