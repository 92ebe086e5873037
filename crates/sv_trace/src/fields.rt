// The words of a line, and the values that stand in them.
ghost use Rattle.std.specs.Prelude.{◌≡◌, ◌^◌, ◌<◌, ◌∷◌, ◌++◌, IfSome, IsNone, is_some};
ghost use Rattle.std.specs.Str.Parse.{digits_value};
ghost use Rattle.sv_trace.specs.Reading.{Lacks};
ghost use Rattle.sv_trace.specs.Stimulus.{is_value};

use memchr::memchr;
use sv_sim::has_room;

// The most digits of a value.
const MAX_DIGITS: usize = 16;

/// The bytes before the first separator, and those after it.
pub fn split_first(bytes: &[u8], separator: u8) -> Option<(&[u8], &[u8])>
    ensures parts { IfSome result (λ parts.
        bytes.now ≡ parts.0.now ++ separator ∷ parts.1.now) }
    ensures first { IfSome result (λ parts. Lacks separator parts.0.now) }
    ensures none { IsNone result → Lacks separator bytes.now }
{
    let place = memchr(separator, bytes)?;
    Some((&bytes[..place], &bytes[place + 1..]))
}

/// The value that a word is, of so many bits.
pub fn read_value(digits: &[u8], width: u8) -> Option<u64>
    ensures found { is_some result ≡ is_value width digits.now }
    ensures value { IfSome result (λ value. value ≡ digits_value 16 digits.now) }
    ensures fits { IfSome result (λ value. value < 2 ^ width) }
{
    if digits.is_empty() {
        return None;
    }
    if digits.len() > MAX_DIGITS {
        return None;
    }
    let mut value: u64 = 0;
    'digits: for digit in digits {
        let Some(low) = char::from(*digit).to_digit(16) else {
            return None;
        };
        value = value * 16 + u64::from(low);
    }
    if !has_room(value, width) {
        return None;
    }
    Some(value)
}
