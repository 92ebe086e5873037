// Numbers of some lowest bits of a word.
ghost use Rattle.std.specs.Prelude.{◌≡◌, ◌-◌, ◌/◌, ◌%◌, ◌^◌, ◌<◌, ◌≤◌};

/// The lowest bits of a number.
pub fn low_bits(number: u64, width: u8) -> u64
    requires some { 1 ≤ width }
    requires few { width ≤ 64 }
    ensures { result ≡ number % 2 ^ width }
{
    number & (u64::MAX >> (64 - width))
}

/// A number below 2 to the width, taken from 2 to the width.
pub fn negated(number: u64, width: u8) -> u64
    requires some { 1 ≤ width }
    requires few { width ≤ 64 }
    requires low { number < 2 ^ width }
    ensures { result ≡ (2 ^ width - number) % 2 ^ width }
{
    low_bits(number.wrapping_neg(), width)
}

/// A number below 2 to the width with each of its bits exchanged.
pub fn inverted(number: u64, width: u8) -> u64
    requires some { 1 ≤ width }
    requires few { width ≤ 64 }
    requires low { number < 2 ^ width }
    ensures { result ≡ 2 ^ width - 1 - number }
{
    low_bits(!number, width)
}

/// A number shifted down; 0 where the amount is 64 or more.
pub fn shifted_right(number: u64, amount: u64) -> u64
    ensures { result ≡ number / 2 ^ amount }
{
    if amount < 64 { number >> amount } else { 0 }
}
