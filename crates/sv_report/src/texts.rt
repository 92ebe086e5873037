// The texts that name no values.
ghost use Rattle.std.specs.Prelude.{◌≡◌, ◌++◌, codes, IfOk};
ghost use Rattle.sv_report.specs.Text.{accepted_text};
ghost use Rattle.sv_report.specs.Text.{fault_text, unknown_text};
ghost use Rattle.sv_report.specs.Text.{input_text, view_text, lengths_text};
ghost use Rattle.sv_report.specs.Text.{equal_text};

use std::alloc::{AllocError, Global};

/// That so many obligations hold.
pub fn accepted_text(alloc: Global, count: u32) -> Result<Vec<u8>, AllocError>
    ensures { IfOk result (λ text. text.items ≡ accepted_text count) }
{
    Vec::from_slice(
        alloc,
        format!(in alloc; "accepted {count} obligations\n")?.as_bytes(),
    )
}

/// That the line of this number is the first wrong one of a certificate.
pub fn fault_text(alloc: Global, line: u64) -> Result<Vec<u8>, AllocError>
    ensures { IfOk result (λ text. text.items ≡ fault_text line) }
{
    Vec::from_slice(
        alloc,
        format!(in alloc; "refused proof {line}\n")?.as_bytes(),
    )
}

/// That the budget was spent on the obligation of this number.
pub fn unknown_text(alloc: Global, obligation: u32, budget: u32) -> Result<Vec<u8>, AllocError>
    ensures { IfOk result (λ text. text.items ≡ unknown_text obligation budget) }
{
    let before = format!(in alloc; "unknown obligation {obligation} budget {budget}")?;
    let mut text = Vec::from_slice(alloc, before.as_bytes())?;
    text.push(b'\n')?;
    Ok(text)
}

// A line that ends with a name.
fn line_with(alloc: Global, before: &str, name: &[u8]) -> Result<Vec<u8>, AllocError>
    ensures { IfOk result (λ text. text.items ≡ before.now ++ name.now ++ codes "\n") }
{
    let mut text = Vec::from_slice(alloc, before.as_bytes())?;
    text.extend_from_slice(name)?;
    text.push(b'\n')?;
    Ok(text)
}

/// That in this cycle, from 0, what a level sees of the inputs of two runs differs, in cycle 0 of
/// their registers too, and that the signal of this name is the first that tells them apart.
pub fn input_text(alloc: Global, cycle: u64, name: &[u8]) -> Result<Vec<u8>, AllocError>
    ensures { IfOk result (λ text. text.items ≡ input_text cycle name.now) }
{
    let before = format!(in alloc; "differ input {cycle} ")?;
    line_with(alloc, &before, name)
}

/// That in this cycle, from 0, the inputs of two runs look alike and their views differ, and that
/// the signal of this name is the first that tells them apart.
pub fn view_text(alloc: Global, cycle: u64, name: &[u8]) -> Result<Vec<u8>, AllocError>
    ensures { IfOk result (λ text. text.items ≡ view_text cycle name.now) }
{
    let before = format!(in alloc; "differ view {cycle} ")?;
    line_with(alloc, &before, name)
}

/// That two runs look alike until the shorter one ends, which has so many cycles.
pub fn lengths_text(alloc: Global, cycles: u64) -> Result<Vec<u8>, AllocError>
    ensures { IfOk result (λ text. text.items ≡ lengths_text cycles) }
{
    Vec::from_slice(
        alloc,
        format!(in alloc; "differ length {cycles}\n")?.as_bytes(),
    )
}

/// That two runs of so many cycles look alike.
pub fn equal_text(alloc: Global, cycles: u64) -> Result<Vec<u8>, AllocError>
    ensures { IfOk result (λ text. text.items ≡ equal_text cycles) }
{
    Vec::from_slice(
        alloc,
        format!(in alloc; "equal {cycles} cycles\n")?.as_bytes(),
    )
}
