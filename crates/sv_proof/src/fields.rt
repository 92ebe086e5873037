// The fields of a line: what separators part, and the numerals and literals that stand there.
ghost use Rattle.std.specs.Prelude.{◌≡◌, ◌↔◌, ℕ, ◌<◌, ◌^◌, ℤ, unsigned_abs, List, ◌∷◌, ◌++◌};
ghost use Rattle.std.specs.Prelude.{length, slice_index, decimal, IfSome, IsNone, IsTrue};
ghost use Rattle.std.specs.Fmt.{signed_decimal};
ghost use Rattle.sv_proof.specs.Lines.{Lacks};

use memchr::memchr;

// One more than the highest variable.
const VARIABLES: u64 = 1 << 31;

/// The bytes before the first separator, and those after it.
pub fn split_first(bytes: &[u8], separator: u8) -> Option<(&[u8], &[u8])>
    ensures some { IfSome result (λ parts.
        (bytes.now ≡ parts.0.now ++ separator ∷ parts.1.now) × Lacks separator parts.0.now) }
    ensures none { IsNone result → Lacks separator bytes.now }
{
    let place = memchr(separator, bytes)?;
    Some((&bytes[..place], &bytes[place + 1..]))
}

/// What follows a prefix.
pub fn without_prefix<'a>(line: &'a [u8], prefix: &[u8]) -> Option<&'a [u8]>
    ensures some { IfSome result (λ rest. line.now ≡ prefix.now ++ rest.now) }
    ensures none { IsNone result → (rest : List ℕ) → line.now ≡ prefix.now ++ rest → ⊥ }
{
    if line.len() < prefix.len() {
        return None;
    }
    if !is_line(&line[..prefix.len()], prefix) {
        return None;
    }
    Some(&line[prefix.len()..])
}

/// Whether a line is this text.
pub fn is_line(line: &[u8], text: &[u8]) -> bool
    ensures { IsTrue result ↔ (line.now ≡ text.now) }
{
    line == text
}

/// The number of 64 bits that is written so, with no leading zero.
pub fn read_number(word: &[u8]) -> Option<u64>
    ensures some { IfSome result (λ number. word.now ≡ decimal number) }
    ensures none { IsNone result → (number : ℕ) → number < 2 ^ 64 → word.now ≡ decimal number → ⊥ }
{
    if word.is_empty() {
        return None;
    }
    if has_leading_zero(word) {
        return None;
    }
    let mut value: u64 = 0;
    'digits: for byte in word {
        if !byte.is_ascii_digit() {
            return None;
        }
        let digit = (*byte - b'0') as u64;
        if value > (u64::MAX - digit) / 10 {
            return None;
        }
        value = value * 10 + digit;
    }
    Some(value)
}

fn has_leading_zero(word: &[u8]) -> bool
    requires { 0 < length word.now }
    ensures { IsTrue result ↔ ((slice_index word.now 0 ≡ 48) × (1 < length word.now)) }
{
    word[0] == b'0' && word.len() > 1
}

/// The number below a bound that is written so, with no leading zero.
pub fn read_below(word: &[u8], bound: u64) -> Option<u64>
    ensures some { IfSome result (λ number. (word.now ≡ decimal number) × (number < bound)) }
    ensures none { IsNone result →
        (number : ℕ) → number < bound → word.now ≡ decimal number → ⊥ }
{
    let number = read_number(word)?;
    if number >= bound {
        return None;
    }
    Some(number)
}

/// The literal that is written so: a variable of 31 bits, `-` before a negated one, or 0.
pub fn read_literal(word: &[u8]) -> Option<i32>
    ensures some { IfSome result (λ literal. word.now ≡ signed_decimal literal) }
    ensures small { IfSome result (λ literal. unsigned_abs literal < 2 ^ 31) }
    ensures none { IsNone result →
        (literal : ℤ) → unsigned_abs literal < 2 ^ 31 → word.now ≡ signed_decimal literal → ⊥ }
{
    match without_prefix(word, b"-") {
        Some(digits) => read_negated(digits),
        None => read_plain(word),
    }
}

fn read_negated(digits: &[u8]) -> Option<i32>
    ensures some { IfSome result (λ literal. 45 ∷ digits.now ≡ signed_decimal literal) }
    ensures small { IfSome result (λ literal. unsigned_abs literal < 2 ^ 31) }
    ensures none { IsNone result →
        (literal : ℤ) → unsigned_abs literal < 2 ^ 31 →
        45 ∷ digits.now ≡ signed_decimal literal → ⊥ }
{
    let variable = read_below(digits, VARIABLES)?;
    if variable == 0 {
        return None;
    }
    Some(-(variable as i32))
}

fn read_plain(word: &[u8]) -> Option<i32>
    requires { (rest : List ℕ) → word.now ≡ 45 ∷ rest → ⊥ }
    ensures some { IfSome result (λ literal. word.now ≡ signed_decimal literal) }
    ensures small { IfSome result (λ literal. unsigned_abs literal < 2 ^ 31) }
    ensures none { IsNone result →
        (literal : ℤ) → unsigned_abs literal < 2 ^ 31 → word.now ≡ signed_decimal literal → ⊥ }
{
    let variable = read_below(word, VARIABLES)?;
    Some(variable as i32)
}
