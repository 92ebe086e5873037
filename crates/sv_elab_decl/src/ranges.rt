// Ranges of declarations.
ghost use Rattle.std.specs.Prelude.{◌≡◌, true, false, Some, IfOk, IfErr, IsTrue, MatchOption};
ghost use Rattle.std.specs.Prelude.{option_map};
ghost use Rattle.std.specs.Option.{option_map_or};
ghost use Rattle.sv_num.specs.Vectors.{number_of};
ghost use Rattle.sv_ast.specs.Shape.{is_shaped_span};
ghost use Rattle.sv_ast.specs.Views.{span_tree};
ghost use Rattle.sv_elab_rules.specs.Declarations.{is_range, range_steps};
ghost use Rattle.sv_width.specs.Answers.{IsBreach};
ghost use Rattle.sv_width.specs.Scopes.{names_ahead};
ghost use Rattle.sv_elab_decl.specs.Ranges.{IsWidthOf, IsWidth, IsRange};

use std::alloc::Global;
use sv_ast::Span;
use sv_num::{Bits, Fault, Rule};
use sv_width::{Scope, constant, natural, refusal};

// The most bits that a range gives.
const MOST_BITS: u64 = 64;

// The width of the range between two bounds, if they are `m` and 0 with m from 0 to 63.
fn width_of(high: Bits, low: Bits) -> Option<u8>
    ensures { MatchOption result
        (is_range 64 (number_of high) (number_of low) ≡ false)
        (IsWidthOf (number_of high) (number_of low)) }
{
    let high = natural(high)?;
    let low = natural(low)?;
    if low == 0 && high < MOST_BITS {
        Some(high as u8 + 1)
    } else {
        None
    }
}

// The width that a range gives, 1 to 64 bits. Rule 409 refuses other ranges.
fn range_width(alloc: Global, span: &Span, scope: &Scope) -> Result<u8, Fault>
    requires { IsTrue (is_shaped_span (span_tree span.now)) }
    ensures found { IfOk result (IsWidth (names_ahead scope.now) (span_tree span.now)) }
    ensures broken { IfErr result
        (IsBreach (range_steps (names_ahead scope.now) (Some (span_tree span.now))).end) }
{
    let high = constant(alloc, &span.high, scope)?;
    let low = constant(alloc, &span.low, scope)?;
    match width_of(high, low) {
        Some(width) => Ok(width),
        None => Err(refusal(alloc, Rule::BadRange, span.high.place())),
    }
}

/// The width that a range gives, 1 to 64 bits, where there is a range. The rules of constants
/// refuse its bounds, and rule 409 one that is not `[m:0]` with m from 0 to 63.
pub fn optional_width(
    alloc: Global,
    span: &Option<Span>,
    scope: &Scope,
) -> Result<Option<u8>, Fault>
    requires { IsTrue (option_map_or is_shaped_span (option_map span_tree span.now) true) }
    ensures found { IfOk result
        (IsRange (names_ahead scope.now) (option_map span_tree span.now)) }
    ensures broken { IfErr result
        (IsBreach (range_steps (names_ahead scope.now) (option_map span_tree span.now)).end) }
{
    match span {
        Some(span) => Ok(Some(range_width(alloc, span, scope)?)),
        None => Ok(None),
    }
}
