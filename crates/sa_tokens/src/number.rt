//! Numbers: digits of a base, and a suffix (ISO C 6.4.4.1).

ghost use Rattle.std.specs.Prelude.{◌≡◌, ◌≤◌, ◌^◌, ◌-◌, Some, None, if◌then◌else◌, nat_le, length, drop};
ghost use Rattle.std.specs.List.{prefix_len};
ghost use Rattle.sa_tokens.specs.Words.{digit_value, base, is_digit_in, radix_of, after_prefix, value_of, suffix_of, greatest, is_decimal, number_in, number_with, number_from, number_of};

use crate::bytes::is_digit;
use crate::token::Word;

/// The radix that a number is spelled in.
#[derive(Clone, Copy, Debug, PartialEq, Eq)]
pub enum Radix {
    Decimal,
    Octal,
    Hexadecimal,
}

impl Radix {
    fn base(self) -> u8
        ensures { result ≡ base self }
    {
        match self {
            Radix::Decimal => 10,
            Radix::Octal => 8,
            Radix::Hexadecimal => 16,
        }
    }

    fn is_decimal(self) -> bool
        ensures { result ≡ is_decimal self }
    {
        match self {
            Radix::Decimal => true,
            Radix::Octal | Radix::Hexadecimal => false,
        }
    }

    /// The radix of a number that is spelled so.
    fn of(spelling: &[u8]) -> Radix
        ensures { result ≡ radix_of spelling.now }
    {
        match spelling {
            [b'0', b'x' | b'X', ..] => Radix::Hexadecimal,
            [b'0', ..] => Radix::Octal,
            _ => Radix::Decimal,
        }
    }
}

/// What follows the digits: whether there is a `u`, and how many `l`.
#[derive(Clone, Copy, Debug, PartialEq, Eq)]
pub struct Suffix {
    pub unsigned: bool,
    pub longs: u8,
}

/// The value of a digit, 16 for a byte that is none.
fn digit_value(b: u8) -> u8
    ensures { result ≡ digit_value b }
{
    if is_digit(b) {
        b - b'0'
    } else if b'A' <= b && b <= b'F' {
        b - b'A' + 10
    } else if b'a' <= b && b <= b'f' {
        b - b'a' + 10
    } else {
        16
    }
}

fn is_digit_in(radix: Radix, b: u8) -> bool
    ensures { result ≡ is_digit_in radix b }
{
    digit_value(b) < radix.base()
}

/// How many digits stand at the front.
fn digits_len(radix: Radix, text: &[u8]) -> usize
    ensures value { result ≡ prefix_len (is_digit_in radix) text.now }
    ensures within { result ≤ length text.now }
{
    text.iter().take_while(|b| is_digit_in(radix, **b)).count()
}

#[tactic(auto, unfolding(crate::specs::Words::suffix_of))]
fn read_suffix(text: &[u8]) -> Option<Suffix>
    ensures { result ≡ suffix_of text.now }
{
    let (unsigned, longs) = match text {
        b"" => (false, 0),
        b"u" | b"U" => (true, 0),
        b"l" | b"L" => (false, 1),
        b"ll" | b"LL" => (false, 2),
        b"ul" | b"uL" | b"Ul" | b"UL" | b"lu" | b"lU" | b"Lu" | b"LU" => (true, 1),
        b"ull" | b"uLL" | b"Ull" | b"ULL" | b"llu" | b"llU" | b"LLu" | b"LLU" => (true, 2),
        _ => return None,
    };
    Some(Suffix { unsigned, longs })
}

/// The value of the digits, None above 2^64 - 1.
fn value(radix: Radix, digits: &[u8]) -> Option<u64>
    ensures { result ≡ (if nat_le (value_of radix digits.now) (2 ^ 64 - 1) then Some (value_of radix digits.now) else None) }
{
    let mut value = 0u128;
    for d in digits {
        value = value * u128::from(radix.base()) + u128::from(digit_value(*d));
        if value > u128::from(u64::MAX) {
            return None;
        }
    }
    Some(value as u64)
}

/// The greatest value: a decimal number without `u` is a signed one.
fn greatest(radix: Radix, suffix: Suffix) -> u64
    ensures { result ≡ greatest radix suffix }
{
    if radix.is_decimal() && !suffix.unsigned {
        i64::MAX as u64
    } else {
        u64::MAX
    }
}

fn number_in(radix: Radix, value: u64, suffix: Suffix) -> Option<Word>
    ensures { result ≡ number_in radix value suffix }
{
    if value <= greatest(radix, suffix) {
        Some(Word::Number {
            value,
            unsigned: suffix.unsigned,
            longs: suffix.longs,
            decimal: radix.is_decimal(),
        })
    } else {
        None
    }
}

fn number_with(radix: Radix, digits: &[u8], suffix: Option<Suffix>) -> Option<Word>
    ensures { result ≡ number_with radix digits.now suffix }
{
    if digits.is_empty() {
        return None;
    }
    let suffix = suffix?;
    let value = value(radix, digits)?;
    number_in(radix, value, suffix)
}

fn number_from(radix: Radix, text: &[u8]) -> Option<Word>
    ensures { result ≡ number_from radix text.now }
{
    let (digits, rest) = text.split_at(digits_len(radix, text));
    number_with(radix, digits, read_suffix(rest))
}

fn after_prefix(radix: Radix, spelling: &[u8]) -> &[u8]
    ensures { result.now ≡ after_prefix radix spelling.now }
{
    match radix {
        Radix::Decimal | Radix::Octal => spelling,
        Radix::Hexadecimal => &spelling[2.min(spelling.len())..],
    }
}

/// The number that is spelled so, None where no number is.
#[tactic(auto, unfolding(crate::specs::Words::number_of))]
pub fn number(spelling: &[u8]) -> Option<Word>
    ensures { result ≡ number_of spelling.now }
{
    let radix = Radix::of(spelling);
    number_from(radix, after_prefix(radix, spelling))
}
