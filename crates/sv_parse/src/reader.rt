// From bytes to the one text that they mean.
ghost use Rattle.std.specs.Prelude.{◌≡◌, ◌<◌, ◌-◌, ◌^◌, ℕ, length, IfOk, IfErr};
ghost use Rattle.sv_ast.specs.GrammarMeaning.{Means};
ghost use Rattle.sv_ast.specs.Tree.{TextTree};
ghost use Rattle.sv_ast.specs.Views.{text_tree};
ghost use Rattle.sv_parse.specs.Faults.{IsSyntaxFault};

use crate::parser::parse;
use std::alloc::Global;
use sv_ast::Text;
use sv_num::Fault;
use sv_token::lex;

/// The text that the bytes mean, by their tokens: the only one. Refused is exactly what means no
/// text, for the first rule of 101 to 104 that the bytes break, or else the first of 201 to 204
/// that their tokens break, at its place, with its word. Fewer than 2^32 - 1 bytes, since places
/// count in 32 bits.
pub fn read_text(alloc: Global, bytes: &[u8]) -> Result<Text, Fault>
    requires { length bytes.now < 2 ^ 32 - 1 }
    ensures text { IfOk result (λ text. Means bytes.now (text_tree text)) }
    ensures only { IfOk result (λ text. (other : TextTree) → Means bytes.now other →
        other ≡ text_tree text) }
    ensures refusal { IfErr result (λ fault. IsSyntaxFault bytes.now fault) }
{
    let tokens = lex(alloc, bytes)?;
    let text = parse(alloc, &tokens, bytes)?;
    Ok(text)
}
