// From tokens to the one text that they mean.
ghost use Rattle.std.specs.Prelude.{◌≡◌, ◌<◌, ◌-◌, ◌^◌, IsTrue, length, IfOk, IfErr};
ghost use Rattle.sv_token.specs.Lexemes.{placed_tokens};
ghost use Rattle.sv_ast.specs.Shape.{is_shaped};
ghost use Rattle.sv_ast.specs.Tree.{TextTree};
ghost use Rattle.sv_ast.specs.Views.{text_tree};
ghost use Rattle.sv_ast.specs.GrammarRules.{TokensMean};
ghost use Rattle.sv_ast.specs.GrammarMeaning.{end_place};
ghost use Rattle.sv_parse_expr.specs.Faults.{IsRefusalOf};

use crate::modules::text;
use std::alloc::Global;
use sv_ast::Text;
use sv_num::Fault;
use sv_parse_expr::faults::broken;
use sv_parse_expr::stop::{Input, Stop};
use sv_token::Token;

/// The text that the tokens of the bytes mean: the only one, of the shape that the grammar gives.
/// Refused is exactly what means no text (`tokens_that_mean_a_text_break_no_rule`), for the first
/// rule of 201 to 204 that the tokens break (this project's profile, over the grammar of IEEE
/// 1364-2005), at its place, with its word. Any tokens will do; those of `lex` are the text's own.
/// Fewer than 2^32 - 1 bytes, since places count in 32 bits.
#[tactic(auto, using(crate::proofs::WholeTexts::failing_is_refused))]
pub fn parse(alloc: Global, tokens: &[Token], bytes: &[u8]) -> Result<Text, Fault>
    requires { length bytes.now < 2 ^ 32 - 1 }
    ensures text { IfOk result (λ text.
        TokensMean (placed_tokens bytes.now tokens.now) (text_tree text)) }
    ensures only { IfOk result (λ text.
        (other : TextTree) → TokensMean (placed_tokens bytes.now tokens.now) other →
        other ≡ text_tree text) }
    ensures shaped { IfOk result (λ text. IsTrue (is_shaped (text_tree text))) }
    ensures refusal { IfErr result
        (IsRefusalOf (end_place bytes.now) (placed_tokens bytes.now tokens.now)) }
{
    let input = Input {
        bytes,
        rest: tokens,
    };
    match text(alloc, input) {
        Ok(text) => Ok(text),
        Err(Stop::Broken(breach, left)) => {
            let fault = broken(alloc, bytes, tokens, breach, left)?;
            Err(fault)
        }
        Err(Stop::OutOfMemory) => Err(Fault::OutOfMemory),
    }
}
