// What has a punctuation behind it that has to come.
ghost use Rattle.std.specs.Prelude.{◌≡◌, ◌<◌, true, length, IfOk, [], ◌∷◌};
ghost use Rattle.sv_token.specs.declared.signs.SignKind.TheVariants as signs;
ghost use Rattle.sv_ast.specs.Views.{expression_tree};
ghost use Rattle.sv_ast.specs.GrammarForms.{◌⨾◌, a_sign, name_at};
ghost use Rattle.sv_ast.specs.GrammarExpressions.{IsExpression};
ghost use Rattle.sv_ast.specs.GrammarRules.{all_limits};
ghost use Rattle.sv_parse_machine.specs.StatementTable.{is_sign};
ghost use Rattle.sv_parse_machine.specs.Symbols.{punctuation, plain_name, expression};
ghost use Rattle.sv_parse_expr.specs.Parses.{Stands, Comes, GivesAs, Shortens, Leads, HaltsOn};

use std::alloc::Global;
use sv_ast::Expr;
use sv_num::{Name, Place};
use sv_parse_expr::cursor::{expect_sign, read_name};
use sv_parse_expr::expressions::read_expression;
use sv_parse_expr::stop::{Input, Read, Stop};
use sv_token::{SignKind, Token};

/// An expression, and the tokens behind this punctuation, which comes next.
// A tree that is held where reading may stop is let go there variant by variant, which is the
// costly part of a proof: so it is held here for all, and by callers as seldom as may be.
pub fn read_closed<'a>(
    alloc: Global,
    input: Input<'a>,
    levels: usize,
    sign: SignKind,
) -> Read<'a, Expr>
    ensures is { GivesAs result input.entry (λ x.
        IsExpression all_limits levels (expression_tree x) ⨾ a_sign sign) }
    ensures shorter { Shortens result input.entry }
    ensures reads { is_sign sign sign ≡ true →
        Leads result input.entry (expression levels ∷ punctuation sign ∷ []) [] }
    ensures halts { HaltsOn result input.entry (expression levels ∷ punctuation sign ∷ []) }
{
    let (expr, rest) = read_expression(alloc, input, levels)?;
    let rest = expect_sign(sign, rest)?;
    Ok((expr, rest))
}

/// A name with its place, and the tokens behind the `)`, which comes next.
pub fn read_closed_name<'a>(
    alloc: Global,
    input: Input<'a>,
) -> Result<(Name, Place, &'a [Token]), Stop>
    ensures is { IfOk result (λ x.
        Stands (name_at x.0 x.1 ⨾ a_sign signs.CloseParenthesis) input.entry x.2.now) }
    ensures shorter { IfOk result (λ x. length x.2.now < length input.entry.rest.now) }
    ensures reads { IfOk result (λ x.
        Comes (plain_name ∷ punctuation signs.CloseParenthesis ∷ []) [] input.entry x.2.now) }
    ensures halts { HaltsOn result input.entry
        (plain_name ∷ punctuation signs.CloseParenthesis ∷ []) }
{
    let (name, place, rest) = read_name(alloc, input)?;
    let rest = expect_sign(SignKind::CloseParenthesis, rest)?;
    Ok((name, place, rest))
}
