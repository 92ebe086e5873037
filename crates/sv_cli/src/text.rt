// What is written of words that are no command.
ghost use Rattle.std.specs.Prelude.{◌≡◌, IfOk};
ghost use Rattle.sv_cli.specs.Text.{usage_name, usage_text};

use std::alloc::{AllocError, Global};
use sv_words::UsageKind;

fn usage_name(kind: UsageKind) -> &'static str
    ensures { result.now ≡ usage_name kind }
{
    match kind {
        UsageKind::NoCommand => "no-command",
        UsageKind::UnknownCommand => "unknown-command",
        UsageKind::Words => "words",
    }
}

/// What is wrong with the words.
pub fn usage_text(alloc: Global, kind: UsageKind) -> Result<Vec<u8>, AllocError>
    ensures { IfOk result (λ text. text.items ≡ usage_text kind) }
{
    let name = usage_name(kind);
    Vec::from_slice(alloc, format!(in alloc; "usage {name}\n")?.as_bytes())
}
