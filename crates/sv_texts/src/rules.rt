// The names of rules and limits by their numbers.
ghost use Rattle.std.specs.Prelude.{◌≡◌};
ghost use Rattle.sv_texts.specs.Texts.{rule_name};

use sv_num::Rule;

/// The name of a rule or limit; that of any other number is empty.
pub fn rule_name(number: u16) -> &'static str
    ensures { result.now ≡ rule_name number }
{
    match Rule::numbered(number) {
        Some(rule) => rule.name(),
        None => "",
    }
}
